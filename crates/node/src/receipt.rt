//! What a call leaves with its caller.
ghost use Rattle.std.specs.Prelude.{◌≡◌, ◌≤◌, IfOk};
ghost use mathlib.Core.List.{IsPrefix};
ghost use Rattle.node.specs.Entry.{IsEntry, IsEntryFrom};
ghost use Rattle.node.specs.Telling.{receipt};

use crate::began::Began;
use chronicle::{Prefix, RegistryName};
use journal::Deed;
use replica::{CopyFault, Output};
use std::alloc::{AllocError, Global};
use std::marker::Model;

/// The node and the place of an entry, and the entry. Contracts see all entries of the copy's journal up to it, too. Only a journal of this cluster gives one out.
pub struct Receipt<J: RegistryName> {
    node: u32,
    place: u64,
    deed: Deed,
    upto: Prefix<Deed, J>,
    began: Began<J>,
}

impl<J: RegistryName> Drop for Receipt<J> {
    fn drop(self) {
        let Receipt {
            node: _,
            place: _,
            deed: _deed,
            upto: _upto,
            began: _began,
        } = self;
    }
}

impl<J: RegistryName> Model for Receipt<J> {
    ghost use Rattle.std.specs.Prelude.{◌≡◌};
    ghost use Rattle.node.specs.Entry.{Receipt as ReceiptData, IsEntry, IsEntryFrom};
    ghost use Rattle.node.specs.Telling.{receipt};

    ghost Value = { ReceiptData };

    ghost view = { λ r. receipt r.node r.place r.deed r.upto.entries };

    ghost invariant = { λ r. (r.upto.number ≡ r.node) × IsEntry (receipt r.node r.place r.deed r.upto.entries) × IsEntryFrom r.began (receipt r.node r.place r.deed r.upto.entries) };
}

impl<J: RegistryName> Receipt<J> {
    pub(crate) fn of(
        node: u32,
        place: u64,
        deed: Deed,
        upto: Prefix<Deed, J>,
        began: Began<J>,
    ) -> Receipt<J>
        requires number { upto.number ≡ node }
        requires entry { IsEntry (receipt node place deed upto.entries) }
        requires began { IsEntryFrom began (receipt node place deed upto.entries) }
        ensures { result ≡ receipt node place deed upto.entries }
    {
        Receipt {
            node,
            place,
            deed,
            upto,
            began,
        }
    }

    /// The id of the copy.
    pub fn node(&self) -> u32
        ensures { result ≡ self.now.node }
    {
        self.node
    }

    /// The place of the entry in the copy's journal, from 0 on.
    pub fn place(&self) -> u64
        ensures { result ≡ self.now.place }
    {
        self.place
    }

    /// The entry.
    pub fn deed(&self) -> &Deed
        ensures is { result.now ≡ self.now.deed }
        ensures stands { IsEntry self.now }
    {
        &self.deed
    }

    /// What the copy was when its journal began.
    pub fn began(&self) -> &Began<J>
        ensures { IsEntryFrom result.now self.now }
    {
        &self.began
    }

    /// All entries of the journal up to it.
    pub(crate) fn upto(&self) -> &Prefix<Deed, J>
        ensures number { result.now.number ≡ self.now.node }
        ensures entries { result.now.entries ≡ self.now.deeds }
        ensures stands { IsEntry self.now }
    {
        &self.upto
    }

    /// A copy has one journal: of two receipts of one copy that of the earlier entry begins that of the later one.
    #[tactic(auto, using(crate::proofs::Prefixes::shorter_begins))]
    pub fn agrees(&self, other: &Receipt<J>)
        requires node { other.now.node ≡ self.now.node }
        ensures { self.now.place ≤ other.now.place → IsPrefix self.now.deeds other.now.deeds }
    {
        self.upto.agrees(&other.upto);
    }

    /// The entry alone.
    pub fn into_deed(self) -> Deed
        ensures is { result ≡ self.deed }
        ensures stands { IsEntry self }
    {
        let Receipt {
            node: _,
            place: _,
            deed,
            upto: _upto,
            began: _began,
        } = self;
        deed
    }

    /// The receipt once more.
    pub fn copy(&self, alloc: Global) -> Result<Receipt<J>, AllocError>
        ensures { IfOk result (λ r. r ≡ self.now) }
    {
        let deed = copied(alloc, &self.deed)?;
        Ok(Receipt {
            node: self.node,
            place: self.place,
            deed,
            upto: self.upto.again(),
            began: self.began.again(),
        })
    }
}

/// An equal entry.
fn copied(alloc: Global, deed: &Deed) -> Result<Deed, AllocError>
    ensures { IfOk result (λ d. d ≡ deed.now) }
{
    Ok(Deed {
        pass: deed.pass,
        input: deed.input.copy(alloc)?,
        answer: copied_answer(alloc, &deed.answer)?,
    })
}

fn copied_answer(
    alloc: Global,
    answer: &Result<Output, CopyFault>,
) -> Result<Result<Output, CopyFault>, AllocError>
    ensures { IfOk result (λ a. a ≡ answer.now) }
{
    match answer {
        Ok(output) => Ok(Ok(output.copy(alloc)?)),
        Err(fault) => Ok(Err(fault.copy())),
    }
}
