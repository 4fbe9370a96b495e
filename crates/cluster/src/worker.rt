//! What a copy of a cluster does for those who ask it.

use crate::backlog::Backlog;
use crate::channels::give;
use crate::durable::Durable;
use crate::fate::{Fate, fate_of, is_of_primary};
use crate::gate::Gate;
use crate::left::Left;
use crate::merging::Merges;
use crate::outbox::{Asked, Entry, Mail, Outbox, Parcel};
use crate::own::OwnCell;
use crate::post::{Answered, Post, Seated};
use crate::releasing::{tell, unsynced};
use crate::shared::Shared;
use crate::waits::Waits;
use cell::IndexName;
use crossbeam_channel::Sender;
use doc::DocId;
use engine::Merging;
use node::{Got, NodeFault, Receipt};
use op::Msg;
use replica::{Copy, CopyFault, Input};
use std::alloc::Global;
use std::sync::{Arc, Wait};
use translog::LogDevice;

/// How often a message is handed again that is refused for a while.
const TRIES: u32 = 100;

/// What a worker has apart from its copy: what all workers share, and who builds its merges.
#[derive(Drop)]
pub(crate) struct Tools<D: LogDevice, J: IndexName> {
    pub(crate) shared: Arc<Shared<D, J>, Global>,
    pub(crate) merges: Sender<Merging, Global>,
}

/// A copy, what hasn't left it yet, who waits for it, which posts are held back, and its merges. It stands behind a lock (`CopyLock`).
#[derive(Drop)]
pub(crate) struct Worker<R: Wait + Drop, D: LogDevice, J: IndexName> {
    pub(crate) alloc: Global,
    pub(crate) number: u64,
    pub(crate) shared: Arc<Shared<D, J>, Global>,
    pub(crate) cell: OwnCell<R, D, J>,
    pub(crate) outbox: Outbox<J>,
    /// The messages that leave next, those to one copy together.
    pub(crate) mails: Vec<Mail>,
    pub(crate) waits: Waits<J>,
    pub(crate) backlog: Backlog<J>,
    pub(crate) merges: Merges,
    /// The greatest term of which another copy was made the primary.
    pub(crate) deposed: u64,
    /// Whether the copy didn't open again, and was given up.
    pub(crate) given_up: bool,
    /// Whether the copy was opened again, and may have to lead.
    pub(crate) is_to_lead: bool,
    /// Whether the log is synced later than in each append, so that one sync does for many steps.
    pub(crate) syncs_later: bool,
}

impl<R: Wait + Drop, D: LogDevice, J: IndexName> Worker<R, D, J> {
    pub(crate) fn new(
        alloc: Global,
        tools: Tools<D, J>,
        cell: OwnCell<R, D, J>,
    ) -> Worker<R, D, J> {
        let Tools { shared, merges } = tools;
        Worker {
            alloc,
            number: cell.held().node() as u64,
            shared,
            cell,
            outbox: Outbox::new(alloc),
            mails: Vec::new(alloc),
            waits: Waits::new(alloc),
            backlog: Backlog::new(alloc),
            merges: Merges::new(merges),
            deposed: 0,
            given_up: false,
            is_to_lead: false,
            syncs_later: false,
        }
    }

    /// The copy.
    pub(crate) fn copy(&self) -> &Copy<D> {
        self.cell.held().copy()
    }

    pub(crate) fn id(&self) -> u32 {
        self.copy().id()
    }

    /// Does what a post asks. Each of its steps passes the gate first.
    pub(crate) fn serve<G: Gate>(&mut self, rt: &R, gate: &G, post: Post<J>) {
        if let Post::Mail(messages) = post {
            for message in messages {
                self.step(rt, gate, Post::Hand(message, 0));
            }
        } else {
            self.step(rt, gate, post);
        }
    }

    fn step<G: Gate>(&mut self, rt: &R, gate: &G, post: Post<J>) {
        gate.pass(self.id());
        self.mend(rt);
        self.answer(rt, post);
    }

    fn answer(&mut self, rt: &R, post: Post<J>) {
        match post {
            Post::Ask(input, to) => self.ask(rt, input, to),
            Post::Write(write, first, second) => {
                self.do_led(rt, Input::Write(write), Asked::Write(first, second));
            }
            Post::Bulk(writes, first, second) => {
                self.do_led(rt, Input::Bulk(writes), Asked::Bulk(first, second));
            }
            Post::Hand(message, tries) => self.take(rt, message, tries),
            Post::Report(copy) => self.report(rt, copy),
            Post::Lead => self.is_to_lead = true,
            Post::Depose(term) => self.depose(rt, term),
            Post::Get(id, to) => self.get(rt, id, to),
            Post::Merged(merged) => self.put_merged(rt, merged),
            Post::Seat(to) => self.seat(rt, to),
            none => drop(none),
        }
    }

    /// An entry, with what the copy is after it.
    fn entry(&self, receipt: Receipt<J>, asked: Asked<J>) -> Parcel<J> {
        Parcel::Entry(Entry {
            receipt,
            leads: self.leads(),
            term: self.copy().term(),
            asked,
        })
    }

    /// A call that nobody waits for, and whether the copy accepts it. What it sends and acknowledges leaves when it is on the disk.
    pub(crate) fn call(&mut self, rt: &R, input: Input) -> bool {
        let Ok(receipt) = self.cell.call(self.alloc, input) else {
            return false;
        };
        let is_accepted = receipt.deed().answer.is_ok();
        let parcel = self.entry(receipt, Asked::Within);
        self.keep(rt, parcel);
        is_accepted
    }

    /// Does a call. A refresh shows searches only what is on the disk, and adds a segment.
    fn ask(&mut self, rt: &R, input: Input, to: Sender<Answered<J>, Global>) {
        if let Input::Refresh = &input {
            drop(input);
            self.refresh(rt, to);
        } else {
            self.do_asked(rt, input, Asked::Call(to));
        }
    }

    fn refresh(&mut self, rt: &R, to: Sender<Answered<J>, Global>) {
        self.release(rt);
        if self.cell.sync().is_err() {
            give(rt, to, Err(unsynced()));
            return;
        }
        self.note_rest();
        self.do_asked(rt, Input::Refresh, Asked::Call(to));
        self.begin_merge(rt);
    }

    /// Does a write or a bulk. First the copy leads where the master's primary is this copy, which couldn't lead when it was opened.
    fn do_led(&mut self, rt: &R, input: Input, asked: Asked<J>) {
        if self.is_open() && self.is_to_lead {
            self.lead(rt);
        }
        self.do_asked(rt, input, asked);
    }

    /// Does what was asked. A copy that this has closed is mended before its answer, so that the next write finds a primary.
    fn do_asked(&mut self, rt: &R, input: Input, asked: Asked<J>) {
        let was_open = self.is_open();
        match self.cell.call(self.alloc, input) {
            Ok(receipt) => {
                let parcel = self.entry(receipt, asked);
                self.keep(rt, parcel);
            }
            Err(fault) => tell(rt, asked, Err(fault)),
        }
        if was_open {
            self.mend(rt);
        }
    }

    /// Takes a message.
    fn take(&mut self, rt: &R, message: Durable<Msg>, tries: u32) {
        let Ok(kept) = message.again(self.alloc) else {
            self.again(rt, message, tries, 1);
            return;
        };
        match self.fate(rt, message.into_inner()) {
            Fate::Settled => drop(kept),
            Fate::Postponed(cost) => self.again(rt, kept, tries, cost),
            Fate::Impossible => {
                self.refuse(rt, kept.what());
                drop(kept);
            }
        }
    }

    /// Has the copy take a message, and says what becomes of it.
    fn fate(&mut self, rt: &R, message: Msg) -> Fate {
        let was_open = self.is_open();
        let made = self.cell.call(self.alloc, Input::Take(message));
        let fate = fate_of(&made);
        match made {
            Ok(receipt) => {
                let parcel = self.entry(receipt, Asked::Within);
                self.keep(rt, parcel);
            }
            Err(fault) => drop(fault),
        }
        if was_open {
            self.mend(rt);
        }
        fate
    }

    /// Hands a message again, after those that wait; at last it is refused, and the writes that wait are to wait no longer. A message of the master to a
    /// copy that is closed isn't handed again: the copy is promoted again.
    fn again(&mut self, rt: &R, message: Durable<Msg>, tries: u32, cost: u32) {
        let from = message.what().from;
        if from == 0 && !self.is_open() {
            drop(message);
            return;
        }
        let next = tries.saturating_add(cost);
        if next > TRIES {
            self.refuse(rt, message.what());
            drop(message);
            self.keep(rt, Parcel::EndOfWaits);
            return;
        }
        let is_of_primary = is_of_primary(message.what());
        if self.shared.hand(rt, self.id(), Post::Hand(message, next)) {
            return;
        }
        self.keep(rt, Parcel::EndOfWaits);
        if is_of_primary {
            self.shared.hand(rt, from, Post::Report(self.id()));
        }
    }

    /// What a copy can't take: the primary that sent it is to report the copy; where it makes the copy itself the primary, another one is promoted.
    fn refuse(&mut self, rt: &R, message: &Msg) {
        let id = self.id();
        if is_of_primary(message) {
            self.shared.hand(rt, message.from, Post::Report(id));
            return;
        }
        if message.from != 0 || self.leads() {
            return;
        }
        if let Ok(known) = self.shared.known(rt, self.alloc) {
            if known.state.primary == id {
                self.hand_over(rt, &known.state);
            }
        }
    }

    /// Reports a copy. Where that isn't possible nobody knows whether the copies that are left are enough, so all waits end.
    fn report(&mut self, rt: &R, copy: u32) {
        let Ok(receipt) = self.cell.call(self.alloc, Input::Report(copy)) else {
            self.keep(rt, Parcel::EndOfWaits);
            return;
        };
        let is_wanting = matches!(&receipt.deed().answer, Err(CopyFault::NoMemory));
        let parcel = self.entry(receipt, Asked::Within);
        self.keep(rt, parcel);
        if is_wanting {
            self.keep(rt, Parcel::EndOfWaits);
        }
    }

    /// Ends the waits of a copy that the master has replaced: it may never hear of it.
    fn depose(&mut self, rt: &R, term: u64) {
        self.deposed = self.deposed.max(term);
        if self.copy().term() < self.deposed {
            self.keep(rt, Parcel::EndOfWaits);
        }
    }

    fn get(&mut self, rt: &R, id: DocId, to: Sender<Result<Durable<Got<J>>, NodeFault>, Global>) {
        match self.cell.get(self.alloc, id) {
            Ok(got) => self.keep(rt, Parcel::Got(got, to)),
            Err(fault) => give(rt, to, Err(fault)),
        }
    }

    /// Hands out a searcher of the copy.
    fn seat(&mut self, rt: &R, to: Sender<Seated<J>, Global>) {
        let searcher = match self.cell.copy_searcher() {
            Ok(searcher) => Ok(searcher),
            Err(_) => Err(NodeFault::NoSeat),
        };
        give(rt, to, searcher);
    }

    /// Ends what searches see of the copy, which waits for those that are just taking it.
    pub(crate) fn into_left(self) -> Left<J> {
        let Worker { cell, .. } = self;
        cell.into_left()
    }
}
