//! What a copy has of an id.
ghost use Rattle.std.specs.Prelude.{◌≡◌, ◌<◌, ◌≤◌, [], length, IfNone, IfSome};
ghost use Rattle.chronicle.specs.Registered.{prefix};
ghost use mathlib.Core.List.{IsPrefix};
ghost use Rattle.node.specs.Reading.{IsGot, IsGotAt, IsGotSince};

use crate::began::Began;
use crate::heard::Heard;
use crate::receipt::Receipt;
use chronicle::{Prefix, RegistryName};
use doc::DocId;
use journal::Deed;
use replica::Answer;
use std::marker::Model;

/// What a copy had of an id: a document with its numbers, or none. Contracts see it with the copy's node and the entries that its journal had.
#[derive(Drop)]
pub struct Got<J: RegistryName> {
    pub(crate) node: u32,
    pub(crate) place: u64,
    pub(crate) id: DocId,
    pub(crate) answer: Answer,
    pub(crate) upto: Option<Prefix<Deed, J>>,
    pub(crate) began: Began<J>,
}

impl<J: RegistryName> Model for Got<J> {
    ghost use Rattle.std.specs.Prelude.{◌≡◌, IfSome};
    ghost use Rattle.node.specs.Reading.{entries_in, GotData, IsGot, IsGotSince};

    ghost Value = { GotData };

    ghost view = { λ g. record { node = g.node; place = g.place; deeds = entries_in g.upto; id = g.id; answer = g.answer } };

    ghost invariant = { λ g. IfSome g.upto (λ p. p.number ≡ g.node) × IsGot (record { node = g.node; place = g.place; deeds = entries_in g.upto; id = g.id; answer = g.answer }) × IsGotSince g.began (record { node = g.node; place = g.place; deeds = entries_in g.upto; id = g.id; answer = g.answer }) };
}

impl<J: RegistryName> Got<J> {
    /// The node of the copy.
    pub fn node(&self) -> u32
        ensures { result ≡ self.now.node }
    {
        self.node
    }

    /// How many entries the copy's journal had.
    pub fn place(&self) -> u64
        ensures { result ≡ self.now.place }
    {
        self.place
    }

    /// The id that was asked for.
    pub fn id(&self) -> &DocId
        ensures is { result.now ≡ self.now.id }
        ensures read { IsGot self.now }
    {
        &self.id
    }

    /// What the copy was when its journal began.
    pub fn began(&self) -> &Began<J>
        ensures { IsGotSince result.now self.now }
    {
        &self.began
    }

    /// A copy has one journal: that of an earlier entry begins the entries that the journal had, and these begin that of a later one.
    pub fn agrees(&self, receipt: &Receipt<J>)
        requires node { receipt.now.node ≡ self.now.node }
        ensures before { receipt.now.place < self.now.place → IsPrefix receipt.now.deeds self.now.deeds }
        ensures behind { self.now.place ≤ receipt.now.place → IsPrefix self.now.deeds receipt.now.deeds }
    {
        if let Some(upto) = &self.upto {
            upto.agrees(receipt.upto());
            receipt.upto().agrees(upto);
        }
    }

    /// What it says of the journal, where that had entries.
    #[tactic(auto, using(crate::proofs::Readings::heard_journal))]
    pub fn heard(&self) -> Option<Heard<J>>
        ensures some { IfSome result (λ h. h ≡ prefix self.now.node self.now.deeds) }
        ensures none { IfNone result (self.now.deeds ≡ []) }
    {
        match &self.upto {
            Some(upto) if self.place > 0 => Some(Heard::of(
                self.node,
                self.place - 1,
                upto.again(),
            )),
            _ => None,
        }
    }

    /// The entries that the journal had, where it had any.
    pub(crate) fn upto(&self) -> &Option<Prefix<Deed, J>>
        ensures some { IfSome result.now (λ p. (p.number ≡ self.now.node) × (p.entries ≡ self.now.deeds)) }
        ensures none { IfNone result.now (self.now.deeds ≡ []) }
        ensures place { self.now.place ≡ length self.now.deeds }
    {
        &self.upto
    }

    /// What the copy had.
    pub fn into_answer(self) -> Answer
        ensures same { result ≡ self.answer }
        ensures got { IsGotAt self.node self.id result }
    {
        let Got {
            node: _,
            place: _,
            id: _id,
            answer,
            upto: _upto,
            began: _began,
        } = self;
        answer
    }
}
