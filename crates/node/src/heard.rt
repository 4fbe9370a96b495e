//! What a caller has heard of a copy.
ghost use Rattle.std.specs.Prelude.{◌≡◌, ◌+◌, ◌<◌, ◌≤◌, length, IsFalse, IsTrue};
ghost use mathlib.Core.List.{IsPrefix};
ghost use Rattle.chronicle.specs.Registered.{prefix};
ghost use Rattle.node.specs.Entry.{IsJournalOf};
ghost use Rattle.node.specs.Heard.{HasEntry, IsAheadOf, IsEarlier, IsNotBefore};

use crate::got::Got;
use crate::receipt::Receipt;
use chronicle::{Prefix, RegistryName};
use journal::Deed;
use std::marker::Model;

/// The first entries of a copy's journal, of which somebody heard. Contracts see the copy's number and them.
pub struct Heard<J: RegistryName> {
    node: u32,
    place: u64,
    upto: Prefix<Deed, J>,
}

impl<J: RegistryName> Drop for Heard<J> {
    fn drop(self) {
        let Heard {
            node: _,
            place: _,
            upto: _upto,
        } = self;
    }
}

impl<J: RegistryName> Model for Heard<J> {
    ghost use Rattle.std.specs.Prelude.{◌≡◌, ◌+◌, length};
    ghost use Rattle.chronicle.specs.Registered.{PrefixData};
    ghost use Rattle.journal.specs.declared.journal.Deed.{Deed};
    ghost use Rattle.node.specs.Entry.{IsJournalOf};

    ghost Value = { PrefixData Deed };

    ghost view = { λ h. h.upto };

    ghost invariant = { λ h. (h.node ≡ h.upto.number) × (h.place + 1 ≡ length h.upto.entries) × IsJournalOf h.upto.number h.upto.entries };
}

impl<J: RegistryName> Heard<J> {
    /// The entries of a copy's journal up to the one at a place.
    pub fn of(node: u32, place: u64, upto: Prefix<Deed, J>) -> Heard<J>
        requires number { upto.number ≡ node }
        requires last { place + 1 ≡ length upto.entries }
        requires journal { IsJournalOf node upto.entries }
        ensures { result ≡ prefix node upto.entries }
    {
        Heard { node, place, upto }
    }

    /// What a receipt says.
    pub fn by(receipt: &Receipt<J>) -> Heard<J>
        ensures { result ≡ prefix receipt.now.node receipt.now.deeds }
    {
        Heard::of(receipt.node(), receipt.place(), receipt.upto().again())
    }

    /// A duplicate.
    pub fn again(&self) -> Heard<J>
        ensures { result ≡ self.now }
    {
        Heard {
            node: self.node,
            place: self.place,
            upto: self.upto.again(),
        }
    }

    /// Whether an entry is of another copy, or stands after all that was heard.
    pub fn is_before(&self, receipt: &Receipt<J>) -> bool
        ensures ahead { IsTrue result → IsAheadOf self.now receipt.now }
        ensures among { IsFalse result → HasEntry self.now receipt.now }
    {
        if receipt.node() != self.node {
            return true;
        }
        self.upto.agrees(receipt.upto());
        receipt.upto().agrees(&self.upto);
        self.place < receipt.place()
    }

    /// Whether an entry is of this copy, and among those that were heard.
    pub fn has(&self, receipt: &Receipt<J>) -> bool
        ensures among { IsTrue result → HasEntry self.now receipt.now }
        ensures ahead { IsFalse result → IsAheadOf self.now receipt.now }
    {
        !self.is_before(receipt)
    }

    /// Whether these first `entries` entries of the copy's journal have all that was heard.
    pub fn is_within(&self, upto: &Prefix<Deed, J>, entries: u64) -> bool
        requires number { upto.now.number ≡ self.now.number }
        requires entries { entries ≡ length upto.now.entries }
        ensures within { IsTrue result → IsPrefix self.now.entries upto.now.entries }
        ensures fewer { IsFalse result → length upto.now.entries < length self.now.entries }
    {
        self.upto.agrees(upto);
        self.place < entries
    }

    /// The place of the last that was heard.
    pub fn place(&self) -> u64
        ensures { result + 1 ≡ length self.now.entries }
    {
        self.place
    }

    /// The id of the copy.
    pub fn node(&self) -> u32
        ensures { result ≡ self.now.number }
    {
        self.node
    }

    /// Whether what was read is of another copy, or its journal had all by then that was heard.
    pub fn is_in(&self, got: &Got<J>) -> bool
        ensures later { IsTrue result → IsNotBefore self.now got.now }
        ensures earlier { IsFalse result → IsEarlier self.now got.now.node got.now.deeds }
    {
        if got.node() != self.node {
            return true;
        }
        match got.upto() {
            Some(upto) => self.is_within(upto, got.place()),
            None => false,
        }
    }
}
