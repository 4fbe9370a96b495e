//! A sum of bytes that come in pieces.
ghost use Rattle.std.specs.Prelude.{◌≡◌};
ghost use Rattle.std.specs.Int.Bits.{bit_xor};
ghost use Rattle.sum.specs.Crc.{ones, register_after};

use crate::table::Table;

/// A register of 32 ones.
const ONES: u32 = 4_294_967_295;

/// The sum of the bytes that were added so far, seen as its register.
#[derive(Clone, Copy, Drop)]
pub struct Running {
    register: u32,
}

impl Running {
    /// That of no bytes.
    pub fn new() -> Running
        ensures { result.register ≡ ones }
    {
        Running { register: ONES }
    }

    /// Adds bytes behind those before.
    pub fn add(&mut self, table: &Table, bytes: &[u8])
        ensures { self.new.register ≡ register_after self.old.register bytes.now }
    {
        self.register = table.register_after(self.register, bytes);
    }

    /// The sum.
    pub fn sum(&self) -> u32
        ensures { result ≡ bit_xor self.now.register ones }
    {
        self.register ^ ONES
    }
}
