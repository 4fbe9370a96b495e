//! A device in a file.
ghost use Rattle.std.specs.Prelude.{◌≡◌, ◌≤◌, ◌++◌, ◌⊎◌, [], true, false, length, take, drop, is_err, IfOk, IfSome, OnOk, OnErr};
ghost use Rattle.std.specs.Io.KnownBytes.{Appends};
ghost use Rattle.translog.specs.Device.{AddsFront, count_after};
ghost use Rattle.translog.specs.Fault.{errs_with, is_failed};

use crate::device::{DeviceFault, Failed, LogDevice};
use packed::PackedBytes;
use std::alloc::{AllocError, Global};
use std::fs::OpenFile;
use std::io;
use std::io::{Read, Write};

/// After what a file holds there is so much room, in which a read finds its end.
const SPARE_ROOM: u64 = 65_536;

/// For each so many bytes that are appended a block of 65,536 bytes is packed, as far as there is one: so what is appended isn't left behind.
const BYTES_FOR_A_BLOCK: usize = 16_384;

/// A file that was opened to be read and appended to. What it holds is kept in memory too, for no contract can say what a disk gives back:
/// what a log is opened with is what was read at first, and what was written since. As more is appended it is packed there, but for its end and for
/// what isn't on the disk for sure. Nobody else may change the file.
///
/// A device that syncs only in `sync` writes only there, too: all that was appended since in one piece, so that what a crash leaves of it is a front.
///
/// What is written to a file is seen by clauses, where what it holds is known; that it is synced, and what a cut of it leaves, is not.
///
/// After a sync that failed the disk may have neither what was written nor tell so again: that sync isn't tried again, and until `read_all` has
/// written those bytes anew the device takes nothing.
#[derive(Drop)]
pub struct FileDevice<F: Read + Write + OpenFile + Drop> {
    file: F,
    bytes: PackedBytes,
    /// How many of these bytes are on the disk for sure.
    synced: usize,
    failures: u64,
    /// Whether it writes and syncs only in `sync`, and not in `append`.
    is_lazy: bool,
    /// Whether the file may hold more than these bytes: a front of a piece whose append failed.
    overhangs: bool,
    /// Whether a sync has failed, or what was to mend that.
    is_doubtful: bool,
    ghost within: { synced ≤ length bytes.items },
    ghost packed: { bytes.packed ≤ synced },
}

impl<F: Read + Write + OpenFile + Drop> FileDevice<F> {
    /// Reads a file from where it stands to its end, and syncs what it found. The device syncs in `append`.
    pub fn open(alloc: Global, file: F) -> io::Result<FileDevice<F>>
        ensures bytes { IfOk result (λ d. IfSome (F.remaining file) (λ bytes. d.bytes.items ≡ bytes)) }
        ensures synced { IfOk result (λ d. d.synced ≡ length d.bytes.items) }
        ensures sure { IfOk result (λ d. d.is_doubtful ≡ false) }
        ensures failures { IfOk result (λ d. d.failures ≡ 0) }
        ensures kind { IfOk result (λ d. d.is_lazy ≡ false) }
    {
        opened(alloc, file, false)
    }

    /// Reads a file from where it stands to its end, and syncs what it found. The device writes and syncs only in `sync`.
    pub fn lazily(alloc: Global, file: F) -> io::Result<FileDevice<F>>
        ensures bytes { IfOk result (λ d. IfSome (F.remaining file) (λ bytes. d.bytes.items ≡ bytes)) }
        ensures synced { IfOk result (λ d. d.synced ≡ length d.bytes.items) }
        ensures sure { IfOk result (λ d. d.is_doubtful ≡ false) }
        ensures failures { IfOk result (λ d. d.failures ≡ 0) }
        ensures kind { IfOk result (λ d. d.is_lazy ≡ true) }
    {
        opened(alloc, file, true)
    }

    /// How many bytes it holds.
    pub fn len(&self) -> usize
        ensures { result ≡ length self.now.bytes.items }
    {
        self.bytes.len()
    }

    /// Has the file hold these bytes alone, and waits until they are on the disk. Those that aren't there for sure are written anew.
    fn settle(&mut self) -> io::Result<()>
        ensures bytes { self.new.bytes ≡ self.old.bytes }
        ensures synced { OnOk result (self.new.synced ≡ length self.new.bytes.items) }
        ensures stays { self.old.synced ≤ self.new.synced }
        ensures sure { OnOk result (self.new.is_doubtful ≡ false) }
        ensures written { OnOk result (Appends (F.contents self.old.file) (F.contents self.new.file) (drop self.old.synced self.old.bytes.items)) }
        ensures failures { self.new.failures ≡ self.old.failures }
    {
        if !self.is_doubtful && !self.overhangs && self.synced == self.bytes.len() {
            return Ok(());
        }
        self.rewrite()
    }

    /// Writes those anew that aren't on the disk for sure, and waits until they are.
    fn rewrite(&mut self) -> io::Result<()>
        ensures bytes { self.new.bytes ≡ self.old.bytes }
        ensures synced { OnOk result (self.new.synced ≡ length self.new.bytes.items) }
        ensures stays { self.old.synced ≤ self.new.synced }
        ensures sure { OnOk result (self.new.is_doubtful ≡ false) }
        ensures written { OnOk result (Appends (F.contents self.old.file) (F.contents self.new.file) (drop self.old.synced self.old.bytes.items)) }
        ensures failures { self.new.failures ≡ self.old.failures }
    {
        self.file.set_len(self.synced as u64)?;
        self.file.write_all(self.bytes.behind(self.synced))?;
        self.file.sync_all()?;
        self.synced = self.bytes.len();
        self.overhangs = false;
        self.is_doubtful = false;
        Ok(())
    }
}

/// The device of a file that was just opened. What a device that synced only in `sync` has left there may not be on the disk.
fn opened<F: Read + Write + OpenFile + Drop>(
    alloc: Global,
    file: F,
    is_lazy: bool,
) -> io::Result<FileDevice<F>>
    ensures bytes { IfOk result (λ d. IfSome (F.remaining file) (λ bytes. d.bytes.items ≡ bytes)) }
    ensures synced { IfOk result (λ d. d.synced ≡ length d.bytes.items) }
    ensures sure { IfOk result (λ d. d.is_doubtful ≡ false) }
    ensures failures { IfOk result (λ d. d.failures ≡ 0) }
    ensures kind { IfOk result (λ d. d.is_lazy ≡ is_lazy) }
{
    let mut file = file;
    let mut bytes = room_for(alloc, &file);
    file.read_to_end(&mut bytes)?;
    if !bytes.is_empty() {
        file.sync_data()?;
    }
    let synced = bytes.len();
    Ok(FileDevice {
        file,
        bytes: PackedBytes::of(bytes),
        synced,
        failures: 0,
        is_lazy,
        overhangs: false,
        is_doubtful: false,
    })
}

/// Room for as many bytes as the file says that it has, so that nothing is moved while it is read; no room if memory runs out.
fn room_for<F: OpenFile>(alloc: Global, file: &F) -> Vec<u8>
    ensures { result.items ≡ [] }
{
    let len = match file.metadata() {
        Ok(found) => found.len(),
        Err(_) => 0,
    };
    match Vec::with_capacity(alloc, len.saturating_add(SPARE_ROOM) as usize) {
        Ok(room) => room,
        Err(_) => Vec::new(alloc),
    }
}

/// Adds a piece to a file and waits until it is on the disk, unless that is left for a sync.
fn add<F: Write + OpenFile>(file: &mut F, piece: &[u8], is_lazy: bool) -> io::Result<()>
    ensures written { is_lazy ≡ false → OnOk result (Appends (F.contents file.old) (F.contents file.new) piece.now) }
    ensures left { is_lazy ≡ true → F.contents file.new ≡ F.contents file.old }
{
    if is_lazy {
        return Ok(());
    }
    write(file, piece)
}

/// Adds a piece to a file, and waits until it is on the disk.
fn write<F: Write + OpenFile>(file: &mut F, piece: &[u8]) -> io::Result<()>
    ensures { OnOk result (Appends (F.contents file.old) (F.contents file.new) piece.now) }
{
    file.write_all(piece)?;
    file.sync_data()
}

impl<F: Read + Write + OpenFile + Drop> LogDevice for FileDevice<F> {
    ghost bytes = { λ d. d.bytes.items };

    ghost synced = { λ d. d.synced };

    ghost is_doubtful = { λ d. d.is_doubtful };

    ghost room = { λ d. d.bytes.room };

    ghost failures = { λ d. d.failures };

    ghost in_memory = { false };

    fn reserve(&mut self, additional: usize) -> Result<(), AllocError> {
        self.bytes.reserve(additional)
    }

    fn append(&mut self, piece: &[u8]) -> Result<(), Failed>
        ensures ok { OnOk result (self.new.bytes.items ≡ self.old.bytes.items ++ piece.now) }
        ensures err { OnErr result (AddsFront self.old.bytes.items piece.now self.new.bytes.items) }
        ensures written { self.old.is_lazy ≡ false → OnOk result (Appends (F.contents self.old.file) (F.contents self.new.file) piece.now) }
        ensures left { self.old.is_lazy ≡ true → F.contents self.new.file ≡ F.contents self.old.file }
        ensures counts { self.new.failures ≡ count_after (is_err result) self.old.failures }
        ensures stays { self.old.synced ≤ self.new.synced }
        ensures doubtful { self.old.is_doubtful ≡ true → (is_err result ≡ true) × (self.new.is_doubtful ≡ true) }
    {
        let before = self.bytes.len();
        if self.is_doubtful
            || self.overhangs
            || self.bytes.reserve(piece.len()).is_err()
            || add(&mut self.file, piece, self.is_lazy).is_err()
            || self.bytes.extend_from_slice(piece).is_err()
        {
            self.overhangs = true;
            self.failures = self.failures.saturating_add(1);
            return Err(Failed);
        }
        let after = self.bytes.len();
        if !self.is_lazy {
            self.synced = after;
        }
        let blocks = after / BYTES_FOR_A_BLOCK - before / BYTES_FOR_A_BLOCK;
        self.bytes.pack(self.synced, blocks);
        Ok(())
    }

    fn sync(&mut self) -> Result<usize, Failed>
        ensures bytes { self.new.bytes ≡ self.old.bytes }
        ensures len { IfOk result (λ len. len ≡ length self.new.bytes.items) }
        ensures synced { OnOk result (self.new.synced ≡ length self.new.bytes.items) }
        ensures written { OnOk result (Appends (F.contents self.old.file) (F.contents self.new.file) (drop self.old.synced self.old.bytes.items)) }
        ensures stays { self.old.synced ≤ self.new.synced }
        ensures doubt { OnErr result (self.new.is_doubtful ≡ true) }
        ensures refused { self.old.is_doubtful ≡ true → is_err result ≡ true }
        ensures counts { self.new.failures ≡ count_after (is_err result) self.old.failures }
    {
        let rest = self.bytes.behind(self.synced);
        if self.is_doubtful || !rest.is_empty() && write(&mut self.file, rest).is_err() {
            self.is_doubtful = true;
            self.failures = self.failures.saturating_add(1);
            return Err(Failed);
        }
        self.synced = self.bytes.len();
        Ok(self.synced)
    }

    fn is_synced(&self) -> bool {
        !self.is_doubtful && self.synced == self.bytes.len()
    }

    fn read_all(&mut self, alloc: Global) -> Result<Vec<u8>, DeviceFault>
        ensures all { IfOk result (λ found. found.items ≡ self.old.bytes.items) }
        ensures bytes { self.new.bytes ≡ self.old.bytes }
        ensures synced { OnOk result (self.new.synced ≡ length self.new.bytes.items) }
        ensures written { OnOk result (Appends (F.contents self.old.file) (F.contents self.new.file) (drop self.old.synced self.old.bytes.items)) }
        ensures stays { self.old.synced ≤ self.new.synced }
        ensures sure { OnOk result (self.new.is_doubtful ≡ false) }
        ensures counts { self.new.failures ≡ count_after (errs_with is_failed result) self.old.failures }
    {
        if self.settle().is_err() {
            self.is_doubtful = true;
            self.failures = self.failures.saturating_add(1);
            return Err(DeviceFault::Failed);
        }
        Ok(self.bytes.to_vec(alloc)?)
    }

    fn cut(&mut self, len: usize) -> Result<(), Failed>
        ensures ok { OnOk result (self.new.bytes.items ≡ take len self.old.bytes.items) }
        ensures err { OnErr result ((self.new.bytes.items ≡ self.old.bytes.items) ⊎ (self.new.bytes.items ≡ take len self.old.bytes.items)) }
        ensures synced { OnOk result (self.new.synced ≡ length self.new.bytes.items) }
        ensures written { OnOk result (Appends (F.contents self.old.file) (F.contents self.new.file) (drop self.old.synced (take len self.old.bytes.items))) }
        ensures doubtful { self.old.is_doubtful ≡ true → (is_err result ≡ true) × (self.new.is_doubtful ≡ true) }
        ensures counts { self.new.failures ≡ count_after (is_err result) self.old.failures }
        ensures room { self.old.bytes.room ≤ self.new.bytes.room }
    {
        let left = if len < self.bytes.len() {
            len
        } else {
            self.bytes.len()
        };
        let front = if left < self.synced {
            left
        } else {
            self.synced
        };
        if self.is_doubtful
            || self.bytes.loosen(left).is_err()
            || self.file.set_len(front as u64).is_err()
        {
            self.failures = self.failures.saturating_add(1);
            return Err(Failed);
        }
        self.synced = front;
        self.bytes.truncate(left);
        if self.rewrite().is_err() {
            self.is_doubtful = true;
            self.failures = self.failures.saturating_add(1);
            return Err(Failed);
        }
        Ok(())
    }

    fn held(&self, alloc: Global) -> Result<Vec<u8>, AllocError> {
        self.bytes.to_vec(alloc)
    }

    fn whole(&self) -> Option<&[u8]> {
        let is_sure = !self.is_doubtful && !self.overhangs && self.synced == self.bytes.len();
        if !is_sure || self.bytes.packed_len() > 0 {
            return None;
        }
        Some(self.bytes.behind(0))
    }

    fn faults(&self) -> u64 {
        self.failures
    }
}
