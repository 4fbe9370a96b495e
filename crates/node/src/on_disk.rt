//! What a sync of a copy's log has shown.
ghost use Rattle.std.specs.Prelude.{◌≡◌, nat_le};

use std::marker::Model;
use translog::Synced;

/// The steps of the first `entries` entries of a copy's journal are on the disk for sure. Only a sync of the copy gives one.
pub struct OnDisk {
    log: Synced,
    entries: u64,
}

impl Drop for OnDisk {
    fn drop(self) {
        let OnDisk {
            log: _log,
            entries: _,
        } = self;
    }
}

impl Model for OnDisk {
    ghost use Rattle.std.specs.Prelude.{ℕ};

    ghost Value = { ℕ };

    ghost view = { λ o. o.entries };
}

impl OnDisk {
    pub(crate) fn of(log: Synced, entries: u64) -> OnDisk
        ensures { result ≡ entries }
    {
        OnDisk { log, entries }
    }

    /// How many entries they are.
    pub fn entries(&self) -> u64
        ensures { result ≡ self.now }
    {
        self.entries
    }

    /// Whether these are all entries of a journal that has this many.
    pub fn covers(&self, entries: u64) -> bool
        ensures { result ≡ nat_le entries self.now }
    {
        entries <= self.entries
    }
}
