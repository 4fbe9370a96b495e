//! A refused opening.
ghost use Rattle.std.specs.Prelude.{◌≡◌};

use std::fmt::{self, Debug, Formatter, Write};

/// An opening that was refused: why, and the device that was handed in.
#[derive(Drop)]
pub struct Refused<D, F> {
    pub device: D,
    pub fault: F,
}

impl<D: Drop, F> Refused<D, F> {
    /// The fault alone.
    pub fn into_fault(self) -> F
        ensures { result ≡ self.fault }
    {
        let Refused { device: _, fault } = self;
        fault
    }
}

impl<D, F: Debug> Debug for Refused<D, F> {
    fn fmt<W: Write>(&self, f: &mut Formatter<W>) -> fmt::Result {
        self.fault.fmt(f)
    }
}
