//! What is looked at before the log of a copy is opened: its sums, its frames' numbers, and its end.

use crate::damage::Damage;
use crate::scan::{End, ScanFault, scanned};
use crate::summed::{GrowingSums, SumFaults, Summed};
use crate::sums::{BLOCK, Sums, sums_of};
use private_file::{check_plain, create, open_to_append};
use std::alloc::{AllocError, Global};
use std::fmt::Display;
use std::fs::{File, OpenFile};
use std::io::{ErrorKind, Write};
use std::rt::Files;
use std::sync::Arc;
use std::{fmt, fs, io};
use sum::Table;
use translog::{FileDevice, LogDevice};

/// The log of a copy in its file, or that of the master, of which no sums are kept.
pub type LogFile = Summed<FileDevice<File>, File>;

/// The end that a crash has torn off a copy's log. It is kept in a file of its own.
#[derive(Clone, Copy, Debug, PartialEq, Eq)]
pub struct TornEnd {
    pub copy: u32,
    pub offset: u64,
    pub bytes: u64,
}

impl Display for TornEnd {
    fn fmt<W: fmt::Write>(&self, f: &mut fmt::Formatter<W>) -> fmt::Result {
        let TornEnd {
            copy,
            offset,
            bytes,
        } = *self;
        write!(
            f,
            "copy-{copy}.rsx: {bytes} torn bytes at offset {offset} are cut off; copy-{copy}.torn-{offset} has them"
        )
    }
}

/// Why the log of a copy isn't opened.
#[derive(Debug, Drop)]
pub enum LookFault {
    Damage(Damage),
    /// What is torn at this offset can't be kept.
    TornEnd(u64, io::Error),
    NoMemory,
}

impl From<AllocError> for LookFault {
    fn from(_refused: AllocError) -> LookFault {
        LookFault::NoMemory
    }
}

impl From<ScanFault> for LookFault {
    fn from(fault: ScanFault) -> LookFault {
        match fault {
            ScanFault::Damage(damage) => LookFault::Damage(damage),
            ScanFault::NoMemory => LookFault::NoMemory,
        }
    }
}

/// What was seen of a log: what stands behind its whole frames, and the sums of its blocks.
#[derive(Drop)]
pub(crate) struct Seen {
    pub(crate) end: End,
    pub(crate) sums: Sums,
}

/// Looks through a log, of which these sums were kept.
pub(crate) fn see(
    alloc: Global,
    table: &Table,
    log: &[u8],
    kept: &[u8],
) -> Result<Seen, ScanFault> {
    let sums = sums_of(alloc, table, log, kept)?;
    frames_seen(alloc, log, sums)
}

/// Looks through the frames of a log that has these sums.
pub(crate) fn frames_seen(alloc: Global, log: &[u8], sums: Sums) -> Result<Seen, ScanFault> {
    let mut sums = sums;
    let end = scanned(alloc, log)?;
    if let End::Torn(offset) = end {
        let blocks = offset / BLOCK;
        if blocks < sums.kept {
            return Err(ScanFault::Damage(Damage::Torn(offset as u64)));
        }
        sums.made.truncate(blocks.saturating_sub(sums.kept));
    }
    Ok(Seen { end, sums })
}

/// The path of the file of a copy's sums, next to its log.
pub(crate) fn sums_path(alloc: Global, folder: &str, copy: u32) -> Result<String, AllocError> {
    format!(in alloc; "{folder}/copy-{copy}.sum")
}

/// What a file of sums has; nothing where there is none, or none that can be read.
pub(crate) fn kept_sums<R: Files<File = File> + AllocGlobal>(rt: &R, path: &str) -> Vec<u8> {
    let read = check_plain(rt, path).and_then(|()| fs::read(rt, path));
    match read {
        Ok(kept) => kept,
        Err(_) => Vec::new(rt.alloc()),
    }
}

/// Looks through the log that a copy's device holds, before it is opened. A torn end is kept in a file of its own. From then on the sums of the log are kept.
pub fn looked_through<R: Files<File = File> + AllocGlobal>(
    rt: &R,
    folder: &str,
    copy: u32,
    device: FileDevice<File>,
    faults: &Arc<SumFaults, Global>,
) -> Result<(LogFile, Option<TornEnd>), LookFault> {
    let alloc = rt.alloc();
    let path = sums_path(alloc, folder, copy)?;
    let kept = kept_sums(rt, path.as_str());
    let table = Table::new();
    let (seen, torn) = match device.whole() {
        Some(log) => seen_and_kept(rt, folder, copy, &table, log, kept.as_slice())?,
        None => {
            let held = device.held(alloc)?;
            seen_and_kept(rt, folder, copy, &table, held.as_slice(), kept.as_slice())?
        }
    };
    let Seen { end, sums } = seen;
    if end == End::Unread {
        return Ok((Summed::without(device), None));
    }
    let faults = Arc::try_clone(faults)?;
    match open_to_append(rt, path.as_str()) {
        Ok(file) => {
            let growing = GrowingSums::new(file, copy, faults, table, sums);
            Ok((Summed::with(device, growing), torn))
        }
        Err(_) => {
            faults.note(copy);
            Ok((Summed::without(device), torn))
        }
    }
}

/// Looks through a log, and keeps its end where that is torn.
fn seen_and_kept<R: Files<File = File> + AllocGlobal>(
    rt: &R,
    folder: &str,
    copy: u32,
    table: &Table,
    log: &[u8],
    kept: &[u8],
) -> Result<(Seen, Option<TornEnd>), LookFault> {
    let seen = see(rt.alloc(), table, log, kept)?;
    let End::Torn(offset) = seen.end else {
        return Ok((seen, None));
    };
    let torn = TornEnd {
        copy,
        offset: offset as u64,
        bytes: log.len().saturating_sub(offset) as u64,
    };
    match keep_end(rt, folder, torn, log.get(offset..).unwrap_or(&[])) {
        Ok(()) => Ok((seen, Some(torn))),
        Err(error) => Err(LookFault::TornEnd(torn.offset, error)),
    }
}

/// Keeps a torn end in a file of its own, and waits until that is on the disk.
fn keep_end<R: Files<File = File> + AllocGlobal>(
    rt: &R,
    folder: &str,
    torn: TornEnd,
    bytes: &[u8],
) -> io::Result<()> {
    let TornEnd { copy, offset, .. } = torn;
    let path = format!(in rt.alloc(); "{folder}/copy-{copy}.torn-{offset}")?;
    let mut file = create(rt, path.as_str())?;
    file.write_all(bytes)?;
    file.sync_all()?;
    fs::open(rt, folder)?.sync_all()
}
