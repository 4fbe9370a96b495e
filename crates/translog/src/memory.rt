//! A device in memory.
ghost use Rattle.std.specs.Prelude.{◌≡◌, [], true, false, length};
ghost use Rattle.translog.specs.Memory.{spare};

use crate::device::{DeviceFault, Failed, LogDevice};
use std::alloc::{AllocError, Global};

/// Bytes in memory. An append within the room that was made doesn't fail; one past it fails where memory is refused.
pub struct MemDevice {
    bytes: Vec<u8>,
    failures: u64,
}

impl Drop for MemDevice {
    fn drop(self) {
        let MemDevice {
            bytes: _bytes,
            failures: _,
        } = self;
    }
}

impl MemDevice {
    /// A device that holds these bytes and hasn't failed.
    pub fn new(bytes: Vec<u8>) -> MemDevice
        ensures bytes { result.bytes.items ≡ bytes.items }
        ensures failures { result.failures ≡ 0 }
    {
        MemDevice { bytes, failures: 0 }
    }

    /// The bytes that it holds.
    pub fn bytes(&self) -> &[u8]
        ensures { result.now ≡ self.now.bytes.items }
    {
        &self.bytes
    }
}

impl LogDevice for MemDevice {
    ghost bytes = { λ m. m.bytes.items };

    ghost synced = { λ m. length m.bytes.items };

    ghost is_doubtful = { λ _. false };

    ghost room = { λ m. spare m };

    ghost failures = { λ m. m.failures };

    ghost in_memory = { true };

    fn reserve(&mut self, additional: usize) -> Result<(), AllocError> {
        self.bytes.reserve(additional)
    }

    fn append(&mut self, piece: &[u8]) -> Result<(), Failed> {
        match self.bytes.extend_from_slice(piece) {
            Ok(()) => Ok(()),
            Err(_) => {
                self.failures = self.failures.saturating_add(1);
                Err(Failed)
            }
        }
    }

    fn sync(&mut self) -> Result<usize, Failed> {
        Ok(self.bytes.len())
    }

    fn is_synced(&self) -> bool {
        true
    }

    fn read_all(&mut self, alloc: Global) -> Result<Vec<u8>, DeviceFault> {
        Ok(self.bytes.to_vec(alloc)?)
    }

    fn cut(&mut self, len: usize) -> Result<(), Failed> {
        self.bytes.truncate(len);
        Ok(())
    }

    fn held(&self, alloc: Global) -> Result<Vec<u8>, AllocError> {
        self.bytes.to_vec(alloc)
    }

    fn faults(&self) -> u64 {
        self.failures
    }
}
