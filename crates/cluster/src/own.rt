//! A copy that one caller at a time calls, with one pass.
ghost use Rattle.std.specs.Prelude.{◌≡◌, []};
ghost use Rattle.cluster.specs.Owned.{IsOwnPass};

use crate::left::Left;
use cell::{CopyCell, CopySearcher, IndexName};
use doc::DocId;
use engine::Merging;
use node::{Got, Held, NodeFault, OnDisk, Pass, Receipt};
use replica::Input;
use std::alloc::{AllocError, Global};
use std::marker::Model;
use std::sync::Wait;
use translog::LogDevice;

/// The cell of a copy, and the pass by which all calls of it are made: so each entry of the journal has its receipt there, where the journal is kept. It has
/// the handle by which it waits at its end for searches that are just taking what is shown.
pub(crate) struct OwnCell<R: Wait + Drop, D: LogDevice, J: IndexName> {
    rt: R,
    cell: CopyCell<D, J>,
    pass: Pass<J>,
}

impl<R: Wait + Drop, D: LogDevice, J: IndexName> Drop for OwnCell<R, D, J> {
    fn drop(self) {
        drop(self.into_left());
    }
}

impl<R: Wait + Drop, D: LogDevice, J: IndexName> Model for OwnCell<R, D, J> {
    ghost use Rattle.cell.specs.Publishing.{CellData};
    ghost use Rattle.cluster.specs.Owned.{IsOwnPass};

    ghost Value = { CellData };

    ghost view = { λ o. o.cell };

    ghost invariant = { λ o. IsOwnPass o.cell.journal o.pass };
}

impl<R: Wait + Drop, D: LogDevice, J: IndexName> OwnCell<R, D, J> {
    /// A copy that nobody has called since its journal began.
    #[tactic(auto, using(crate::proofs::Owned::own_new))]
    pub(crate) fn new(rt: R, alloc: Global, cell: CopyCell<D, J>) -> OwnCell<R, D, J>
        requires { cell.journal.deeds ≡ [] }
        ensures { result ≡ cell }
    {
        let node = cell.held().node();
        OwnCell {
            rt,
            cell,
            pass: Pass::new(alloc, node as u64),
        }
    }

    /// The copy with its journal.
    pub(crate) fn held(&self) -> &Held<D, J>
        ensures { result.now ≡ self.now.journal }
    {
        self.cell.held()
    }

    /// One call of the copy: its entry, also where the copy refuses.
    pub(crate) fn call(&mut self, alloc: Global, input: Input) -> Result<Receipt<J>, NodeFault> {
        self.forget(alloc);
        match self.enter(alloc, input) {
            Ok(receipt) => Ok(receipt),
            Err(NodeFault::Copy(fault)) => match self.pass.receipts().last() {
                Some(receipt) => Ok(receipt.copy(alloc)?),
                None => Err(NodeFault::Copy(fault)),
            },
            Err(fault) => Err(fault),
        }
    }

    /// Lets go of the receipts of earlier calls, where nobody asks for them when the cluster ends.
    #[tactic(auto, using(crate::proofs::Owned::own_unkept))]
    fn forget(&mut self, alloc: Global)
        ensures { self.new ≡ self.old }
    {
        if !self.cell.held().is_kept() {
            let number = self.pass.number();
            let before = std::mem::replace(&mut self.pass, Pass::new(alloc, number));
            drop(before);
        }
    }

    /// The call, whose receipt is the last of the pass.
    #[tactic(auto, using(crate::proofs::Owned::own_after))]
    fn enter(&mut self, alloc: Global, input: Input) -> Result<Receipt<J>, NodeFault> {
        self.cell.call(&self.rt, alloc, &mut self.pass, input)
    }

    /// What the copy has of an id; it makes no entry.
    #[tactic(auto, using(crate::proofs::Owned::own_same))]
    pub(crate) fn get(&mut self, alloc: Global, id: DocId) -> Result<Got<J>, NodeFault>
        ensures { self.new ≡ self.old }
    {
        self.cell.get(alloc, id)
    }

    /// Waits until the steps of all entries are there after a crash too; it makes no entry.
    #[tactic(auto, using(crate::proofs::Owned::own_same))]
    pub(crate) fn sync(&mut self) -> Result<OnDisk, NodeFault>
        ensures { self.new ≡ self.old }
    {
        self.cell.sync()
    }

    /// Whether they are there after a crash too.
    pub(crate) fn is_synced(&self) -> bool {
        self.cell.is_synced()
    }

    /// One more reader of what is shown. It is refused where eight are given out.
    #[tactic(auto, using(crate::proofs::Owned::own_same))]
    pub(crate) fn copy_searcher(&mut self) -> Result<CopySearcher<J>, AllocError>
        ensures { self.new ≡ self.old }
    {
        self.cell.copy_searcher()
    }

    /// Begins a merge of segments that go well into one, if there are more than so few; it makes no entry.
    #[tactic(auto, using(crate::proofs::Owned::own_same))]
    pub(crate) fn begin_merge(
        &mut self,
        alloc: Global,
        few: usize,
    ) -> Result<Option<Merging>, AllocError>
        ensures { self.new ≡ self.old }
    {
        self.cell.begin_merge_beside(alloc, few)
    }

    /// Puts the part in place that was built for it; it makes no entry.
    #[tactic(auto, using(crate::proofs::Owned::own_same))]
    pub(crate) fn finish_merge(&mut self, alloc: Global) -> Result<bool, AllocError>
        ensures { self.new ≡ self.old }
    {
        self.cell.finish_merge(alloc)
    }

    /// What is left of it. It waits for searches that are just taking what is shown.
    pub(crate) fn into_left(self) -> Left<J> {
        let OwnCell { rt, cell, pass } = self;
        Left::served(&rt, cell, pass)
    }
}
