//! What a worker leaves.
ghost use Rattle.std.specs.Prelude.{◌≡◌, [], All, IfOk, IfSome, IfNone, IsFalse, IsTrue, vec_len};
ghost use Rattle.std.specs.List.{AllZip};
ghost use Rattle.node.specs.Ended.{HasReceipt};
ghost use Rattle.cluster.specs.Journals.{IsFirstLost, IsOfOneCaller, IsOwnFrom, StandsIn};
ghost use Rattle.cluster.specs.Owned.{IsOwnPass};

use cell::{CopyCell, IndexName};
use node::{Began, EndedCopy, Held, Pass, Receipt};
use std::alloc::{AllocError, Global};
use std::marker::Model;
use std::sync::Wait;
use translog::LogDevice;

/// What a worker leaves: the journal of its copy, where memory has it.
#[derive(Drop)]
pub(crate) enum Left<J: IndexName> {
    Kept(OwnJournal<J>),
    Unkept,
}

/// The journal of a copy, which its worker alone has called.
#[derive(Drop)]
pub(crate) struct OwnJournal<J: IndexName> {
    ended: EndedCopy<J>,
}

impl<J: IndexName> Model for OwnJournal<J> {
    ghost use Rattle.journal.specs.declared.journal.Journal.{Journal};
    ghost use Rattle.cluster.specs.Journals.{IsOfOneCaller};

    ghost Value = { Journal };

    ghost view = { λ l. l.ended };

    ghost invariant = { λ l. IsOfOneCaller l.ended };
}

impl<J: IndexName> Left<J> {
    /// What is left of a copy that was served. It waits for searches that are just taking what is shown.
    #[tactic(auto, using(crate::proofs::Handed::of_served))]
    pub(crate) fn served<R: Wait, D: LogDevice>(
        rt: &R,
        cell: CopyCell<D, J>,
        pass: Pass<J>,
    ) -> Left<J>
        requires { IsOwnPass cell.journal pass }
    {
        drop(pass);
        Left::of(cell.close(rt))
    }

    /// What is left of one that wasn't.
    #[tactic(auto, using(crate::proofs::Handed::of_unserved))]
    pub(crate) fn unserved<D: LogDevice>(held: Held<D, J>) -> Left<J>
        requires { held.deeds ≡ [] }
    {
        Left::of(held.into_journal())
    }

    fn of(ended: Option<EndedCopy<J>>) -> Left<J>
        requires { IfSome ended IsOfOneCaller }
    {
        match ended {
            Some(ended) => Left::Kept(OwnJournal { ended }),
            None => Left::Unkept,
        }
    }
}

/// What workers leave that have journals; nothing where one has none.
pub(crate) fn all_kept<J: IndexName>(
    alloc: Global,
    lefts: Vec<Left<J>>,
) -> Result<Option<Vec<OwnJournal<J>>>, AllocError>
    ensures { IfOk result (λ o. IfSome o (λ all. vec_len all ≡ vec_len lefts)) }
{
    let mut all = Vec::new(alloc);
    for left in lefts {
        match left {
            Left::Kept(journal) => all.push(journal)?,
            Left::Unkept => return Ok(None),
        }
    }
    Ok(Some(all))
}

impl<J: IndexName> OwnJournal<J> {
    /// Whether it is that of a copy that began so.
    #[tactic(auto, using(crate::proofs::Handed::own_from))]
    fn is_from(&self, began: &Began<J>) -> bool
        ensures { IsTrue result → IsOwnFrom began.now self.now }
    {
        let _journal = self.ended.journal();
        self.ended.is_from(began)
    }

    /// Whether a receipt is of this copy, and stands in its journal.
    fn has(&self, receipt: &Receipt<J>) -> bool
        ensures has { IsTrue result → HasReceipt receipt.now self.now }
        ensures lacks { IsFalse result → HasReceipt receipt.now self.now → ⊥ }
    {
        self.ended.has(receipt)
    }

    pub(crate) fn into_ended(self) -> EndedCopy<J>
        ensures { result ≡ self }
    {
        let OwnJournal { ended } = self;
        ended
    }
}

/// Whether they are the journals of copies that began so, in that order.
pub(crate) fn are_from<J: IndexName>(lefts: &[OwnJournal<J>], began: &[Began<J>]) -> bool
    ensures { IsTrue result → AllZip IsOwnFrom began.now lefts.now }
{
    if lefts.len() != began.len() {
        return false;
    }
    for count in 0..lefts.len() {
        if !lefts[count].is_from(&began[count]) {
            return false;
        }
    }
    true
}

/// The place of the first receipt that stands in none of the journals.
pub(crate) fn lost_in<J: IndexName>(lefts: &[OwnJournal<J>], receipts: &[Receipt<J>]) -> Option<u64>
    ensures stand { IfNone result (All (StandsIn lefts.now) receipts.now) }
    ensures lost { IfSome result (IsFirstLost lefts.now receipts.now) }
{
    for receipt in receipts {
        if !is_in(lefts, receipt) {
            return Some(receipt.place());
        }
    }
    None
}

/// Whether a receipt stands in one of the journals.
fn is_in<J: IndexName>(lefts: &[OwnJournal<J>], receipt: &Receipt<J>) -> bool
    ensures has { IsTrue result → StandsIn lefts.now receipt.now }
    ensures lacks { IsFalse result → StandsIn lefts.now receipt.now → ⊥ }
{
    for left in lefts {
        if left.has(receipt) {
            return true;
        }
    }
    false
}
