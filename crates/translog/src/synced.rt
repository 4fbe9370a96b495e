//! What a sync has shown.
ghost use Rattle.std.specs.Prelude.{◌≡◌};

use std::marker::Model;

/// So many bytes of a log are on the disk for sure. Only a sync of the log gives one.
pub struct Synced {
    bytes: usize,
}

impl Drop for Synced {
    fn drop(self) {
        let Synced { bytes: _ } = self;
    }
}

impl Model for Synced {
    ghost use Rattle.std.specs.Prelude.{ℕ};

    ghost Value = { ℕ };

    ghost view = { λ s. s.bytes };
}

impl Synced {
    pub(crate) fn of(bytes: usize) -> Synced
        ensures { result ≡ bytes }
    {
        Synced { bytes }
    }

    /// How many bytes of the log they are, from the first on.
    pub fn bytes(&self) -> usize
        ensures { result ≡ self.now }
    {
        self.bytes
    }
}
