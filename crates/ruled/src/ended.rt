//! The journal of a master that has ended.
ghost use Rattle.std.specs.Prelude.{◌≡◌};
ghost use Rattle.journal.specs.Lawful.{IsLawful};
ghost use Rattle.ruled.specs.Entries.{IsJournalOf};

use crate::past::Past;
use chronicle::RegistryName;
use journal::Journal;
use std::marker::Model;

/// The journal of a master that was given up, with all its entries. Contracts see the journal. Only a master that ends gives one out.
pub struct EndedMaster<J: RegistryName> {
    journal: Journal,
    past: Past<J>,
}

impl<J: RegistryName> Drop for EndedMaster<J> {
    fn drop(self) {
        let EndedMaster {
            journal: _journal,
            past: _past,
        } = self;
    }
}

impl<J: RegistryName> Model for EndedMaster<J> {
    ghost use Rattle.journal.specs.declared.journal.Journal.{Journal as JournalOf};
    ghost use Rattle.journal.specs.Lawful.{IsLawful};
    ghost use Rattle.ruled.specs.Entries.{IsJournalOf};

    ghost Value = { JournalOf };

    ghost view = { λ e. e.journal };

    ghost invariant = { λ e. IsLawful e.journal × IsJournalOf e.past e.journal };
}

impl<J: RegistryName> EndedMaster<J> {
    pub(crate) fn of(journal: Journal, past: Past<J>) -> EndedMaster<J>
        requires legal { IsLawful journal }
        requires entries { IsJournalOf past journal }
        ensures { result ≡ journal }
    {
        EndedMaster { journal, past }
    }

    /// All its entries.
    pub fn past(&self) -> &Past<J>
        ensures { IsJournalOf result.now self.now }
    {
        &self.past
    }

    /// The journal.
    pub fn journal(&self) -> &Journal
        ensures is { result.now ≡ self.now }
        ensures legal { IsLawful self.now }
    {
        &self.journal
    }

    /// The journal alone.
    pub fn into_journal(self) -> Journal
        ensures is { result ≡ self }
        ensures legal { IsLawful self }
    {
        let EndedMaster {
            journal,
            past: _past,
        } = self;
        journal
    }
}
