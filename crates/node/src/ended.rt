//! The journal of a copy that has ended.
ghost use Rattle.std.specs.Prelude.{◌≡◌, IsFalse, IsTrue};
ghost use Rattle.journal.specs.Lawful.{IsLawful};
ghost use Rattle.node.specs.Ended.{HasReceipt, IsEnded, IsJournalFrom};

use crate::began::Began;
use crate::gathering::stands_in;
use crate::heard::Heard;
use crate::receipt::Receipt;
use chronicle::RegistryName;
use journal::Journal;
use std::marker::Model;

/// The journal of a copy that was given up, with all its entries. Contracts see the journal. Only a copy that ends gives one out.
pub struct EndedCopy<J: RegistryName> {
    journal: Journal,
    began: Began<J>,
    heard: Option<Heard<J>>,
}

impl<J: RegistryName> Drop for EndedCopy<J> {
    fn drop(self) {
        let EndedCopy {
            journal: _journal,
            began: _began,
            heard: _heard,
        } = self;
    }
}

impl<J: RegistryName> Model for EndedCopy<J> {
    ghost use Rattle.journal.specs.declared.journal.Journal.{Journal as JournalOf};
    ghost use Rattle.node.specs.Ended.{IsEnded};

    ghost Value = { JournalOf };

    ghost view = { λ e. e.journal };

    ghost invariant = { λ e. IsEnded e.began e.heard e.journal };
}

impl<J: RegistryName> EndedCopy<J> {
    pub(crate) fn of(journal: Journal, began: Began<J>, heard: Option<Heard<J>>) -> EndedCopy<J>
        requires { IsEnded began heard journal }
        ensures { result ≡ journal }
    {
        EndedCopy {
            journal,
            began,
            heard,
        }
    }

    /// What the copy was when its journal began.
    #[tactic(auto, using(crate::proofs::Ends::from_began))]
    pub fn began(&self) -> &Began<J>
        ensures { IsJournalFrom result.now self.now }
    {
        &self.began
    }

    /// Whether it is that of a copy that began so: of the copy with its id, which began once.
    #[tactic(auto, using(crate::proofs::Ends::from_same, crate::proofs::Ends::from_other))]
    pub fn is_from(&self, began: &Began<J>) -> bool
        ensures from { IsTrue result → IsJournalFrom began.now self.now }
        ensures other { IsFalse result → IsJournalFrom began.now self.now → ⊥ }
    {
        if began.node() != self.began.node() {
            return false;
        }
        self.began.agrees(began);
        true
    }

    /// Whether a receipt is of this copy, and stands in its journal.
    #[tactic(auto, using(crate::proofs::Ends::has_receipt, crate::proofs::Ends::lacks_behind, crate::proofs::Ends::lacks_there, crate::proofs::Ends::lacks_all))]
    pub fn has(&self, receipt: &Receipt<J>) -> bool
        ensures has { IsTrue result → HasReceipt receipt.now self.now }
        ensures lacks { IsFalse result → HasReceipt receipt.now self.now → ⊥ }
    {
        match &self.heard {
            Some(heard) => heard.has(receipt) && stands_in(&self.journal, receipt),
            None => false,
        }
    }

    /// The journal.
    pub fn journal(&self) -> &Journal
        ensures is { result.now ≡ self.now }
        ensures legal { IsLawful self.now }
    {
        &self.journal
    }

    /// The journal alone.
    pub fn into_journal(self) -> Journal
        ensures is { result ≡ self }
        ensures legal { IsLawful self }
    {
        let EndedCopy {
            journal,
            began: _began,
            heard: _heard,
        } = self;
        journal
    }
}
