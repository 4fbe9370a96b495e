//! What a worker has done that hasn't left it yet.
ghost use Rattle.std.specs.Prelude.{◌≡◌, [], ◌∷◌, ◌++◌, List, IfErr, IfNone, IfSome, OnOk, OnErr};

use crate::durable::Durable;
use crate::post::{Answered, BulkEnding, Ending};
use cell::IndexName;
use crossbeam_channel::Sender;
use node::{Got, NodeFault, Receipt};
use op::Msg;
use std::alloc::Global;
use std::collections::VecDeque;

/// Who asked for an entry.
#[derive(Drop)]
pub(crate) enum Asked<J: IndexName> {
    /// Another copy, the master, or the worker itself.
    Within,
    Call(Sender<Answered<J>, Global>),
    /// A write: its entry is answered, and later how it ended.
    Write(Sender<Answered<J>, Global>, Sender<Ending<J>, Global>),
    /// A bulk: its entry is answered, and later how it ended.
    Bulk(Sender<Answered<J>, Global>, Sender<BulkEnding<J>, Global>),
}

/// An entry whose messages and answer haven't left yet.
#[derive(Drop)]
pub(crate) struct Entry<J: IndexName> {
    pub(crate) receipt: Receipt<J>,
    /// Whether the copy was the primary after it.
    pub(crate) leads: bool,
    /// The term of the copy after it.
    pub(crate) term: u64,
    pub(crate) asked: Asked<J>,
}

/// What waits until it is on the disk.
#[derive(Drop)]
pub(crate) enum Parcel<J: IndexName> {
    Entry(Entry<J>),
    /// What the copy had of an id.
    Got(Got<J>, Sender<Result<Durable<Got<J>>, NodeFault>, Global>),
    /// The writes that wait by then are to wait no longer.
    EndOfWaits,
}

/// Messages that leave together for one copy.
#[derive(Drop)]
pub(crate) struct Mail {
    pub(crate) to: u32,
    /// Whether the sender was the primary after the entries that send them.
    pub(crate) leads: bool,
    pub(crate) messages: Vec<Durable<Msg>>,
}

/// The parcels of a worker, oldest first.
#[derive(Drop)]
pub(crate) struct Outbox<J: IndexName> {
    parcels: VecDeque<Parcel<J>>,
}

impl<J: IndexName> Outbox<J> {
    pub(crate) fn new(alloc: Global) -> Outbox<J>
        ensures { result.parcels.items ≡ [] }
    {
        Outbox {
            parcels: VecDeque::new(alloc),
        }
    }

    pub(crate) fn is_empty(&self) -> bool {
        self.parcels.is_empty()
    }

    /// How many there are.
    pub(crate) fn len(&self) -> usize {
        self.parcels.len()
    }

    /// Puts a parcel after the others. Without memory for that it hands the parcel back.
    pub(crate) fn push(&mut self, parcel: Parcel<J>) -> Result<(), Parcel<J>>
        ensures ok { OnOk result (self.new.parcels.items ≡ self.old.parcels.items ++ parcel ∷ []) }
        ensures err { IfErr result (λ p. p ≡ parcel) }
        ensures same { OnErr result (self.new.parcels.items ≡ self.old.parcels.items) }
    {
        match self.parcels.push_back(parcel) {
            Ok(()) => Ok(()),
            Err(refused) => Err(refused.value),
        }
    }

    /// The oldest parcel, which is taken out.
    pub(crate) fn next(&mut self) -> Option<Parcel<J>>
        ensures some { IfSome result (λ p. self.old.parcels.items ≡ p ∷ self.new.parcels.items) }
        ensures none { IfNone result ((self.old.parcels.items ≡ []) × (self.new.parcels.items ≡ [])) }
    {
        self.parcels.pop_front()
    }
}
