//! A log's device that keeps sums of what is on the disk for sure.
ghost use Rattle.std.specs.Prelude.{◌≡◌};

use crate::sums::{BLOCK, ENTRY, Sums, entry_of};
use std::alloc::{AllocError, Global};
use std::fs::OpenFile;
use std::io;
use std::io::Write;
use std::sync::Arc;
use std::sync::atomic::{AtomicU64, Ordering};
use sum::{Running, Table};
use translog::{DeviceFault, Failed, LogDevice};

/// Whose sums can't be kept any more, until somebody has said so.
#[derive(Drop)]
pub struct SumFaults {
    copy: AtomicU64,
}

impl SumFaults {
    /// Nobody's yet.
    pub fn new() -> SumFaults {
        SumFaults {
            copy: AtomicU64::new(0),
        }
    }

    pub(crate) fn note(&self, copy: u32) {
        self.copy.store(copy as u64, Ordering::SeqCst);
    }

    /// The copy whose sums can't be kept any more, where that wasn't asked before.
    pub fn taken(&self) -> Option<u64> {
        match self.copy.swap(0, Ordering::SeqCst) {
            0 => None,
            copy => Some(copy),
        }
    }
}

/// The sums of a log while it grows, and the file that keeps them.
#[derive(Drop)]
pub(crate) struct GrowingSums<F: Write + OpenFile + Drop> {
    file: F,
    copy: u32,
    faults: Arc<SumFaults, Global>,
    table: Table,
    /// How many sums the file has.
    kept: usize,
    /// The sums of blocks that aren't on the disk for sure, or weren't when the last were kept.
    made: Vec<u32>,
    /// The sum of the block that isn't full, and how many bytes it has.
    running: Running,
    begun: usize,
    /// Whether what was added isn't known, so that nothing is kept until the log is read again.
    is_stray: bool,
    /// Whether the file can't be written: then nothing is kept any more.
    is_over: bool,
}

impl<F: Write + OpenFile + Drop> GrowingSums<F> {
    /// The sums of a log that has these whole blocks; what else it has is added by `resume`.
    pub(crate) fn new(
        file: F,
        copy: u32,
        faults: Arc<SumFaults, Global>,
        table: Table,
        sums: Sums,
    ) -> GrowingSums<F> {
        let Sums { kept, made } = sums;
        GrowingSums {
            file,
            copy,
            faults,
            table,
            kept,
            made,
            running: Running::new(),
            begun: 0,
            is_stray: true,
            is_over: false,
        }
    }

    /// Adds what was appended.
    fn add(&mut self, piece: &[u8]) {
        if self.is_stray || self.is_over {
            return;
        }
        let room = BLOCK.saturating_sub(self.begun);
        let (front, rest) = piece.split_at(room.min(piece.len()));
        self.add_within(front);
        for block in rest.chunks(BLOCK) {
            self.add_within(block);
        }
    }

    /// Adds bytes that the block has room for.
    fn add_within(&mut self, bytes: &[u8]) {
        self.running.add(&self.table, bytes);
        self.begun = self.begun.saturating_add(bytes.len());
        if self.begun < BLOCK {
            return;
        }
        if self.made.push(self.running.sum()).is_err() {
            self.end();
        }
        self.running = Running::new();
        self.begun = 0;
    }

    /// Keeps the sums of all whole blocks, which are on the disk for sure.
    fn keep(&mut self) {
        if self.is_stray || self.is_over || self.made.is_empty() {
            return;
        }
        match write_sums(&mut self.file, self.kept, self.made.as_slice()) {
            Ok(()) => {
                self.kept = self.kept.saturating_add(self.made.len());
                self.made.clear();
            }
            Err(_) => self.end(),
        }
    }

    /// Begins again behind the blocks that have a sum, over what the log holds.
    fn resume(&mut self, log: &[u8]) {
        self.running = Running::new();
        self.begun = 0;
        let blocks = self.kept.saturating_add(self.made.len());
        match log.get(blocks.saturating_mul(BLOCK)..) {
            Some(rest) => {
                self.is_stray = false;
                self.add(rest);
            }
            None => self.end(),
        }
    }

    /// Forgets the sums of what a cut takes away.
    fn cut(&mut self, len: usize) {
        let left = len / BLOCK;
        self.made.truncate(left.saturating_sub(self.kept));
        if left >= self.kept || self.is_over {
            return;
        }
        self.kept = left;
        let is_cut = self
            .file
            .set_len(place_of(left))
            .and_then(|()| self.file.sync_all());
        if is_cut.is_err() {
            self.end();
        }
    }

    /// Keeps nothing any more, and has that said.
    fn end(&mut self) {
        self.is_over = true;
        self.faults.note(self.copy);
    }
}

/// Where the sum of a block stands.
fn place_of(block: usize) -> u64 {
    (block as u64).saturating_mul(ENTRY as u64)
}

/// Writes sums behind so many that a file has.
fn write_sums<F: Write + OpenFile>(file: &mut F, kept: usize, sums: &[u32]) -> io::Result<()> {
    file.set_len(place_of(kept))?;
    for sum in sums {
        file.write_all(&entry_of(*sum))?;
    }
    Ok(())
}

/// A device of which sums are kept, where it has some. It is seen as the device.
#[derive(Drop)]
pub struct Summed<D: LogDevice, F: Write + OpenFile + Drop> {
    device: D,
    sums: Option<GrowingSums<F>>,
}

impl<D: LogDevice, F: Write + OpenFile + Drop> Summed<D, F> {
    /// A device of which no sums are kept.
    pub fn without(device: D) -> Summed<D, F>
        ensures { result.device ≡ device }
    {
        Summed { device, sums: None }
    }

    /// A device whose sums are these, and are kept where all is on the disk for sure.
    pub(crate) fn with(device: D, sums: GrowingSums<F>) -> Summed<D, F>
        ensures { result.device ≡ device }
    {
        let mut summed = Summed {
            device,
            sums: Some(sums),
        };
        summed.resume();
        summed
    }

    /// The device.
    pub fn device(&self) -> &D
        ensures { result.now ≡ self.now.device }
    {
        &self.device
    }

    /// Begins the sums again over what the device holds, where it holds that in one piece.
    fn resume(&mut self)
        ensures { self.new.device ≡ self.old.device }
    {
        let Some(sums) = &mut self.sums else {
            return;
        };
        match self.device.whole() {
            Some(log) => sums.resume(log),
            None => sums.is_stray = true,
        }
        if self.device.is_synced() {
            sums.keep();
        }
    }
}

impl<D: LogDevice, F: Write + OpenFile + Drop> LogDevice for Summed<D, F> {
    ghost bytes = { λ s. D.bytes s.device };

    ghost synced = { λ s. D.synced s.device };

    ghost is_doubtful = { λ s. D.is_doubtful s.device };

    ghost room = { λ s. D.room s.device };

    ghost failures = { λ s. D.failures s.device };

    ghost in_memory = { D.in_memory };

    fn reserve(&mut self, additional: usize) -> Result<(), AllocError> {
        self.device.reserve(additional)
    }

    fn append(&mut self, piece: &[u8]) -> Result<(), Failed> {
        let appended = self.device.append(piece);
        if let Some(sums) = &mut self.sums {
            match appended {
                Ok(()) => sums.add(piece),
                Err(_) => sums.is_stray = true,
            }
            if self.device.is_synced() {
                sums.keep();
            }
        }
        appended
    }

    fn sync(&mut self) -> Result<usize, Failed> {
        let synced = self.device.sync();
        if let Some(sums) = &mut self.sums {
            if synced.is_ok() {
                sums.keep();
            }
        }
        synced
    }

    fn is_synced(&self) -> bool {
        self.device.is_synced()
    }

    fn read_all(&mut self, alloc: Global) -> Result<Vec<u8>, DeviceFault> {
        let read = self.device.read_all(alloc);
        if let (Some(sums), Ok(log)) = (&mut self.sums, &read) {
            sums.resume(log.as_slice());
            sums.keep();
        }
        read
    }

    fn cut(&mut self, len: usize) -> Result<(), Failed> {
        if let Some(sums) = &mut self.sums {
            sums.cut(len);
        }
        let cut = self.device.cut(len);
        self.resume();
        cut
    }

    fn held(&self, alloc: Global) -> Result<Vec<u8>, AllocError> {
        self.device.held(alloc)
    }

    fn whole(&self) -> Option<&[u8]> {
        self.device.whole()
    }

    fn faults(&self) -> u64 {
        self.device.faults()
    }
}
