//! The table by which a byte is taken at once, and not bit by bit.
ghost use Rattle.std.specs.Prelude.{◌≡◌, ◌<◌, ℕ, get_or};
ghost use Rattle.sum.specs.Crc.{after_byte, crc32c, register_after, shifted, shifted_by};

use crate::running::Running;

/// The polynomial, its bit of the highest power but 32 last.
const POLYNOMIAL: u32 = 2_197_175_160;

/// What a register becomes by eight shifts, for each value of its last byte while its other bits are 0.
#[derive(Clone, Copy, Drop)]
pub struct Table {
    entries: [u32; 256],
    ghost entry: { (byte : ℕ) → byte < 256 → get_or entries byte 0 ≡ shifted_by 8 byte },
}

impl Table {
    pub fn new() -> Table {
        let mut entries = [0u32; 256];
        for byte in 0..256 {
            entries[byte] = entry_of(byte as u32);
        }
        Table { entries }
    }

    /// The sum of some bytes.
    pub fn sum_of(&self, bytes: &[u8]) -> u32
        ensures { result ≡ crc32c bytes.now }
    {
        let mut running = Running::new();
        running.add(self, bytes);
        running.sum()
    }

    /// The register after some bytes.
    pub(crate) fn register_after(&self, register: u32, bytes: &[u8]) -> u32
        ensures { result ≡ register_after register bytes.now }
    {
        let mut after = register;
        for byte in bytes {
            after = self.after_byte(after, *byte);
        }
        after
    }

    /// The register after a byte.
    fn after_byte(&self, register: u32, byte: u8) -> u32
        ensures { result ≡ after_byte register byte }
    {
        let mixed = register ^ (byte as u32);
        self.entries[(mixed & 255) as usize] ^ (mixed >> 8)
    }
}

/// What a register becomes by eight shifts.
fn entry_of(register: u32) -> u32
    ensures { result ≡ shifted_by 8 register }
{
    shifted(shifted(shifted(shifted(shifted(shifted(shifted(shifted(register))))))))
}

/// What a register becomes by one shift.
fn shifted(register: u32) -> u32
    ensures { result ≡ shifted register }
{
    if register % 2 == 1 {
        (register / 2) ^ POLYNOMIAL
    } else {
        register / 2
    }
}
