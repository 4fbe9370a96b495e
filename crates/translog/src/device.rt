//! What holds a log.
ghost use Rattle.std.specs.Prelude.{◌≡◌, ◌≤◌, ◌++◌, Bool, true, false, List, ℕ, ◌⊎◌, None, length, take, is_err, IfOk, IfSome, IsOk, OnOk, OnErr, IsErrOf};
ghost use Rattle.translog.specs.declared.device.DeviceFault.TheVariants.{Failed as Broken};
ghost use Rattle.translog.specs.Device.{AddsFront, count_after};
ghost use Rattle.translog.specs.Fault.{errs_with, is_failed};

use std::alloc::{AllocError, Global};

/// The device failed, and counted it.
#[derive(Clone, Copy, Debug, PartialEq, Eq)]
pub struct Failed;

/// Why the bytes of a device couldn't be read.
#[derive(Clone, Copy, Debug, PartialEq, Eq)]
pub enum DeviceFault {
    NoMemory,
    Failed,
}

impl From<AllocError> for DeviceFault {
    ghost use Rattle.translog.specs.declared.device.DeviceFault.TheVariants.{NoMemory};

    ghost from_gives = { λ _ e. e ≡ NoMemory };

    fn from(_refused: AllocError) -> DeviceFault {
        DeviceFault::NoMemory
    }
}

/// A list of bytes that grows at its end, in memory or in a file. Each call that fails is counted once, and no other. A device may sync in `append`
/// or only in `sync`: what was appended is there after a crash too once it is synced.
pub trait LogDevice: Drop {
    /// The bytes that it holds.
    ghost bytes: { Self → List ℕ };

    /// How many of its bytes are on the disk for sure, from the first on; in memory all. Only a cut makes it less.
    ghost synced: { Self → ℕ };

    /// Whether a sync of what it holds has failed since it was last read: that may not be on the disk. Only reading it ends the doubt.
    ghost is_doubtful: { Self → Bool };

    /// How many bytes the room that was made takes.
    ghost room: { Self → ℕ };

    /// How often it has failed, up to the greatest `u64`.
    ghost failures: { Self → ℕ };

    /// Whether it is in memory: then nothing fails but an append past the room.
    ghost in_memory: { Bool };

    /// Makes room for so many bytes more. A device that isn't in memory has nothing to do.
    fn reserve(&mut self, additional: usize) -> Result<(), AllocError>
        ensures bytes { bytes self.new ≡ bytes self.old }
        ensures stays { (synced self.new ≡ synced self.old) × (is_doubtful self.new ≡ is_doubtful self.old) }
        ensures failures { failures self.new ≡ failures self.old }
        ensures room { OnOk result (additional ≤ room self.new) };

    /// Adds a piece at the end. Where it fails, a front of the piece may be added. At `Ok` the piece is there after a crash too in a device that syncs
    /// in `append`; in one that syncs only in `sync` it isn't before that, and `is_synced` says whether. In doubt it is refused.
    fn append(&mut self, piece: &[u8]) -> Result<(), Failed>
        ensures ok { OnOk result (bytes self.new ≡ bytes self.old ++ piece.now) }
        ensures err { OnErr result (AddsFront (bytes self.old) piece.now (bytes self.new)) }
        ensures counts { failures self.new ≡ count_after (is_err result) (failures self.old) }
        ensures stays { synced self.old ≤ synced self.new }
        ensures doubtful { is_doubtful self.old ≡ true → (is_err result ≡ true) × (is_doubtful self.new ≡ true) }
        ensures in_memory { in_memory ≡ true → length piece.now ≤ room self.old → IsOk result };

    /// Waits until all its bytes are there after a crash too, and tells how many there are. One that failed isn't tried again: until the device is
    /// read anew it is refused.
    fn sync(&mut self) -> Result<usize, Failed>
        ensures bytes { bytes self.new ≡ bytes self.old }
        ensures room { room self.new ≡ room self.old }
        ensures len { IfOk result (λ len. len ≡ length (bytes self.new)) }
        ensures synced { OnOk result (synced self.new ≡ length (bytes self.new)) }
        ensures stays { synced self.old ≤ synced self.new }
        ensures doubt { OnErr result (is_doubtful self.new ≡ true) }
        ensures refused { is_doubtful self.old ≡ true → is_err result ≡ true }
        ensures counts { failures self.new ≡ count_after (is_err result) (failures self.old) }
        ensures in_memory { in_memory ≡ true → IsOk result };

    /// Whether all its bytes are there after a crash too.
    fn is_synced(&self) -> bool
        ensures synced { result ≡ true → synced self.now ≡ length (bytes self.now) }
        ensures in_memory { in_memory ≡ true → result ≡ true };

    /// All its bytes; they are synced then. In doubt those that weren't synced are written anew first.
    fn read_all(&mut self, alloc: Global) -> Result<Vec<u8>, DeviceFault>
        ensures all { IfOk result (λ found. found.items ≡ bytes self.old) }
        ensures bytes { bytes self.new ≡ bytes self.old }
        ensures synced { OnOk result (synced self.new ≡ length (bytes self.new)) }
        ensures stays { synced self.old ≤ synced self.new }
        ensures sure { OnOk result (is_doubtful self.new ≡ false) }
        ensures counts { failures self.new ≡ count_after (errs_with is_failed result) (failures self.old) }
        ensures in_memory { in_memory ≡ true → IsErrOf result Broken → ⊥ };

    /// Keeps its first bytes, so many, and drops the others; what is left is synced. Where it fails, all of them or those are left. In doubt it is
    /// refused.
    fn cut(&mut self, len: usize) -> Result<(), Failed>
        ensures ok { OnOk result (bytes self.new ≡ take len (bytes self.old)) }
        ensures err { OnErr result ((bytes self.new ≡ bytes self.old) ⊎ (bytes self.new ≡ take len (bytes self.old))) }
        ensures synced { OnOk result (synced self.new ≡ length (bytes self.new)) }
        ensures doubtful { is_doubtful self.old ≡ true → (is_err result ≡ true) × (is_doubtful self.new ≡ true) }
        ensures counts { failures self.new ≡ count_after (is_err result) (failures self.old) }
        ensures room { room self.old ≤ room self.new }
        ensures in_memory { in_memory ≡ true → IsOk result };

    /// All its bytes, as a copy of what it holds in memory. Nothing is read.
    fn held(&self, alloc: Global) -> Result<Vec<u8>, AllocError>
        ensures { IfOk result (λ held. held.items ≡ bytes self.now) };

    /// All its bytes where they stand, if they stand in one piece and none of them is in doubt. Nothing is read.
    fn whole(&self) -> Option<&[u8]>
        ensures is { IfSome result (λ whole. whole.now ≡ bytes self.now) }
        ensures sure { is_doubtful self.now ≡ true → result ≡ None }
    {
        None
    }

    /// How often it has failed. At its greatest value the count stays.
    fn faults(&self) -> u64
        ensures { result ≡ failures self.now };
}
