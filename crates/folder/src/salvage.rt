//! What is whole of a damaged log.
ghost use Rattle.std.specs.Prelude.{◌≡◌, All, IfOk, OnOk};
ghost use Rattle.op.specs.Records.{IsRecord};

use crate::numbers::{Numbers, Reach};
use crate::scan::first_frame;
use crate::sums::{BLOCK, changed_blocks};
use crate::tearing::{content_at, is_record};
use op::{OpFault, Record, decode_frame};
use std::alloc::{AllocError, Global};
use sum::Table;

/// How many bytes a log has before its first frame, and a frame before its content.
const FRONT: usize = 4;

/// How many bytes a frame of an operation has at least.
const LEAST_FRAME: usize = 41;

/// The content of a frame that has no record.
const UPGRADE: &[u8] = &[5];

/// Bytes of a log that are no whole records.
#[derive(Clone, Copy, Debug, PartialEq, Eq)]
pub(crate) struct Gap {
    pub(crate) offset: usize,
    pub(crate) bytes: usize,
}

/// The records of a log's whole frames, and what stands between them.
#[derive(Drop)]
pub(crate) struct Salvaged {
    pub(crate) records: Vec<Record>,
    pub(crate) gaps: Vec<Gap>,
}

/// A damaged log, which is read from left to right.
#[derive(Drop)]
struct Salvage<'a> {
    alloc: Global,
    log: &'a [u8],
    /// The blocks that have another sum than the one that was kept.
    changed: Vec<usize>,
    numbers: Numbers,
    at: usize,
    salvaged: Salvaged,
}

/// What is whole of a log, of which these sums were kept.
pub(crate) fn salvage_of(
    alloc: Global,
    table: &Table,
    log: &[u8],
    kept: &[u8],
) -> Result<Salvaged, AllocError>
    ensures { IfOk result (λ s. All IsRecord s.records.items) }
{
    let mut salvage = Salvage {
        alloc,
        log,
        changed: changed_blocks(alloc, table, log, kept)?,
        numbers: Numbers::new(),
        at: FRONT,
        salvaged: Salvaged {
            records: Vec::new(alloc),
            gaps: Vec::new(alloc),
        },
    };
    for _ in 0..log.len() {
        if salvage.at >= log.len() {
            break;
        }
        salvage.go_on()?;
    }
    let Salvage { salvaged, .. } = salvage;
    Ok(salvaged)
}

impl<'a> Salvage<'a> {
    /// Takes the next frame, or passes over what stands before the next whole one.
    fn go_on(&mut self) -> Result<(), AllocError>
        requires { All IsRecord self.old.salvaged.records.items }
        ensures { OnOk result (All IsRecord self.new.salvaged.records.items) }
    {
        let content = match self.log.get(self.at..) {
            Some(rest) => first_frame(rest).map(|frame| frame.0),
            None => None,
        };
        if let Some(content) = content {
            if self.take(content)? {
                return Ok(());
            }
        }
        self.pass()
    }

    /// Takes the frame of a content, where it is whole, and says whether it is.
    fn take(&mut self, content: &[u8]) -> Result<bool, AllocError>
        requires { All IsRecord self.old.salvaged.records.items }
        ensures { OnOk result (All IsRecord self.new.salvaged.records.items) }
    {
        let at = self.at;
        let end = at.saturating_add(FRONT).saturating_add(content.len());
        if self.is_changed(at, end) {
            return Ok(false);
        }
        let mut numbers = self.numbers;
        if numbers.take(content) != Some(Reach::Near) {
            return Ok(false);
        }
        if !self.add(content)? {
            return Ok(false);
        }
        self.numbers = numbers;
        self.at = end;
        Ok(true)
    }

    /// Adds the records of a content, and says whether it is that of a frame.
    #[tactic(auto, using(crate::proofs::Frames::with_frame))]
    fn add(&mut self, content: &[u8]) -> Result<bool, AllocError>
        requires { All IsRecord self.old.salvaged.records.items }
        ensures { OnOk result (All IsRecord self.new.salvaged.records.items) }
    {
        match decode_frame(self.alloc, content) {
            Ok(records) => {
                let mut records = records;
                self.salvaged.records.append(&mut records)?;
                Ok(true)
            }
            Err(OpFault::NoMemory) => Err(AllocError),
            Err(_) => Ok(content == UPGRADE),
        }
    }

    /// Passes over the bytes before the next whole frame.
    fn pass(&mut self) -> Result<(), AllocError>
        ensures { self.new.salvaged.records ≡ self.old.salvaged.records }
    {
        let next = self.next_frame()?;
        let gap = Gap {
            offset: self.at,
            bytes: next.saturating_sub(self.at),
        };
        self.numbers.pass((gap.bytes / LEAST_FRAME) as u64);
        self.at = next;
        self.salvaged.gaps.push(gap)?;
        Ok(())
    }

    /// Where the next whole frame begins; the end where there is none.
    fn next_frame(&self) -> Result<usize, AllocError> {
        for at in self.at.saturating_add(1)..self.log.len() {
            if let Some(content) = content_at(self.log, at) {
                let end = at.saturating_add(FRONT).saturating_add(content.len());
                if !self.is_changed(at, end) && is_record(self.alloc, content)? {
                    return Ok(at);
                }
            }
        }
        Ok(self.log.len())
    }

    /// Whether bytes stand in a block that has another sum.
    fn is_changed(&self, begin: usize, end: usize) -> bool {
        let first = begin / BLOCK;
        let last = end.saturating_sub(1) / BLOCK;
        self.changed
            .iter()
            .any(|block| *block >= first && *block <= last)
    }
}
