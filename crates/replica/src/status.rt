//! How a copy stands, in numbers.
ghost use Rattle.std.specs.Prelude.{◌≡◌};
ghost use Rattle.replica.specs.Status as spec;

use crate::copy::Copy;
use crate::role::Role;
use translog::LogDevice;

/// How a copy stands. A checkpoint is counted here: the operations below this number are there.
#[derive(Clone, Copy, Debug)]
pub struct CopyStatus {
    pub copy: u32,
    pub term: u64,
    pub is_primary: bool,
    pub is_open: bool,
    /// One past the greatest number of an operation.
    pub next: u64,
    /// The local checkpoint, counted.
    pub local: u64,
    /// The global checkpoint, counted.
    pub known: u64,
    /// How many records searches show.
    pub point: u64,
    /// How many segments a search looks through.
    pub segments: u64,
}

impl<D: LogDevice> Copy<D> {
    ghost use Rattle.replica.specs.Status.{IsStatusOf};

    /// How the copy stands.
    pub fn status(&self) -> CopyStatus
        ensures { IsStatusOf self.now result }
    {
        CopyStatus {
            copy: self.id(),
            term: self.term(),
            is_primary: is_primary(self.role()),
            is_open: self.snapshot().is_some(),
            next: self.next_seq(),
            local: self.local(),
            known: self.known(),
            point: self.point(),
            segments: self.segments(),
        }
    }

    fn segments(&self) -> u64 {
        match self.snapshot() {
            Some(snapshot) => snapshot.segments() as u64,
            None => 0,
        }
    }
}

fn is_primary(role: &Role) -> bool
    ensures { result ≡ spec.is_primary role.now }
{
    matches!(role, Role::Primary(_))
}
