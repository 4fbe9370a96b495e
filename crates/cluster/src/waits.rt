//! Writes and bulks that wait for their acknowledgements.

use crate::channels::sent;
use crate::checks::{is_shut, items_in, written_in};
use crate::durable::Durable;
use crate::post::{BulkEnding, Ending};
use cell::IndexName;
use crossbeam_channel::Sender;
use node::Receipt;
use op::Op;
use replica::{Item, Written};
use std::alloc::{AllocError, Global};
use std::mem;
use std::sync::Wait;

/// A write that waits for its acknowledgement.
#[derive(Drop)]
struct Waiting<J: IndexName> {
    seq: u64,
    term: u64,
    to: Sender<Ending<J>, Global>,
}

/// A bulk that waits for the acknowledgements of its writes.
#[derive(Drop)]
struct WaitingBulk<J: IndexName> {
    /// The writes that aren't acknowledged yet.
    left: Vec<Written>,
    /// The entries that acknowledge the others, each once.
    entries: Vec<Durable<Receipt<J>>>,
    to: Sender<BulkEnding<J>, Global>,
}

impl<J: IndexName> WaitingBulk<J> {
    /// Takes note of what an entry acknowledges, and says whether the bulk goes on waiting. Without memory for that its wait ends.
    fn waits_on<R: Wait>(&mut self, rt: &R, alloc: Global, entry: &Durable<Receipt<J>>) -> bool {
        if !self.is_struck(entry) {
            return true;
        }
        let Ok(()) = self.note(alloc, entry) else {
            return false;
        };
        if !self.left.is_empty() {
            return true;
        }
        let entries = mem::replace(&mut self.entries, Vec::new(alloc));
        sent(rt, &self.to, BulkEnding::Acknowledged(entries));
        false
    }

    /// Strikes out the writes that an entry acknowledges, and says whether there are some.
    fn is_struck(&mut self, entry: &Durable<Receipt<J>>) -> bool {
        let before = self.left.len();
        if let Ok(output) = &entry.what().deed().answer {
            for op in output.acknowledged.as_slice() {
                self.strike(op);
            }
        }
        self.left.len() < before
    }

    fn strike(&mut self, op: &Op) {
        if let Some(place) = self
            .left
            .iter()
            .position(|written| written.seq == op.seq && written.term == op.term)
        {
            self.left.swap_remove(place);
        }
    }

    fn note(&mut self, alloc: Global, entry: &Durable<Receipt<J>>) -> Result<(), AllocError> {
        self.entries.push(entry.copy(alloc)?)?;
        Ok(())
    }
}

/// The writes among these that were kept.
fn kept(alloc: Global, items: &[Item]) -> Result<Vec<Written>, AllocError> {
    let mut kept = Vec::new(alloc);
    for item in items {
        if let Item::Wrote(written) = item {
            kept.push(*written)?;
        }
    }
    Ok(kept)
}

/// The writes and the bulks of a copy that wait. One that is dropped without an ending is unconfirmed: whether it stands is open.
#[derive(Drop)]
pub(crate) struct Waits<J: IndexName> {
    alloc: Global,
    items: Vec<Waiting<J>>,
    bulks: Vec<WaitingBulk<J>>,
}

impl<J: IndexName> Waits<J> {
    pub(crate) fn new(alloc: Global) -> Waits<J> {
        Waits {
            alloc,
            items: Vec::new(alloc),
            bulks: Vec::new(alloc),
        }
    }

    /// Notes who waits for the acknowledgement of a write that is kept, unless nobody is to wait for it.
    pub(crate) fn note(
        &mut self,
        entry: &Durable<Receipt<J>>,
        is_to_wait: bool,
        to: Sender<Ending<J>, Global>,
    ) {
        match written_in(entry.what()) {
            Some(written) if is_to_wait => self.add(written, to),
            _ => drop(to),
        }
    }

    /// Notes who waits for the writes of a bulk that are kept, unless nobody is to wait for them.
    pub(crate) fn note_bulk(
        &mut self,
        entry: &Durable<Receipt<J>>,
        is_to_wait: bool,
        to: Sender<BulkEnding<J>, Global>,
    ) {
        match items_in(entry.what()) {
            Some(items) if is_to_wait => self.add_bulk(items, to),
            _ => drop(to),
        }
    }

    /// Notes who waits for a write. Where there is no memory for that, its wait ends.
    fn add(&mut self, written: Written, to: Sender<Ending<J>, Global>) {
        let _ = self.items.push(Waiting {
            seq: written.seq,
            term: written.term,
            to,
        });
    }

    /// Notes who waits for the writes of a bulk that were kept. Where there is no memory for that, its wait ends.
    fn add_bulk(&mut self, items: &[Item], to: Sender<BulkEnding<J>, Global>) {
        let Ok(left) = kept(self.alloc, items) else {
            return;
        };
        if left.is_empty() {
            return;
        }
        let _ = self.bulks.push(WaitingBulk {
            left,
            entries: Vec::new(self.alloc),
            to,
        });
    }

    /// Reports to those who wait what an entry acknowledges.
    pub(crate) fn acknowledge_all<R: Wait>(&mut self, rt: &R, entry: &Durable<Receipt<J>>) {
        if let Ok(output) = &entry.what().deed().answer {
            for op in output.acknowledged.as_slice() {
                self.acknowledge(rt, op, entry);
            }
            self.acknowledge_bulks(rt, entry);
        }
    }

    /// Reports to the bulks that wait what an entry acknowledges.
    fn acknowledge_bulks<R: Wait>(&mut self, rt: &R, entry: &Durable<Receipt<J>>) {
        let alloc = self.alloc;
        self.bulks
            .retain_mut(|bulk| bulk.waits_on(rt, alloc, entry));
    }

    /// Reports to those who wait for an operation that an entry acknowledges it.
    fn acknowledge<R: Wait>(&mut self, rt: &R, op: &Op, entry: &Durable<Receipt<J>>) {
        let Some(place) = self
            .items
            .iter()
            .position(|waiting| waiting.seq == op.seq && waiting.term == op.term)
        else {
            return;
        };
        let waiting = self.items.swap_remove(place);
        if let Ok(copied) = entry.copy(self.alloc) {
            sent(rt, &waiting.to, Ending::Acknowledged(copied));
        }
    }

    /// Reports to all an entry after which the copy is the primary no more, or of a later term than that of their writes.
    pub(crate) fn lose_unless<R: Wait>(
        &mut self,
        rt: &R,
        entry: &Durable<Receipt<J>>,
        leads: bool,
        term: u64,
    ) {
        let leads = leads && !is_shut(entry.what());
        if !leads || !self.are_of(term) {
            self.lose(rt, entry);
        }
    }

    /// Whether all are of this term.
    fn are_of(&self, term: u64) -> bool {
        self.items.iter().all(|waiting| waiting.term == term)
            && self.bulks.iter().all(|bulk| is_of(bulk, term))
    }

    /// Reports to all that their copy is the primary of their term no more since this entry.
    fn lose<R: Wait>(&mut self, rt: &R, entry: &Durable<Receipt<J>>) {
        for waiting in self.items.drain(..) {
            if let Ok(copied) = entry.copy(self.alloc) {
                sent(rt, &waiting.to, Ending::Lost(copied));
            }
        }
        self.lose_bulks(rt, entry);
    }

    fn lose_bulks<R: Wait>(&mut self, rt: &R, entry: &Durable<Receipt<J>>) {
        for bulk in self.bulks.drain(..) {
            if let Ok(copied) = entry.copy(self.alloc) {
                sent(rt, &bulk.to, BulkEnding::Lost(copied));
            }
        }
    }

    /// Lets all go.
    pub(crate) fn end(&mut self) {
        self.items.clear();
        self.bulks.clear();
    }
}

/// Whether what a bulk waits for is of this term.
fn is_of<J: IndexName>(bulk: &WaitingBulk<J>, term: u64) -> bool {
    bulk.left.iter().all(|written| written.term == term)
}
