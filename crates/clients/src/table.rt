//! All connections, by their places, and which of them may have something to do.

use crate::budget::Budget;
use crate::connection::{Connection, Held, Next};
use crate::kinds::Kind;
use crate::limits::Limits;
use std::alloc::{AllocError, Global};
use std::collections::VecDeque;

/// A place of the table. While a thread works on a connection, the connection isn't here. If something is noted meanwhile, the connection is looked at again.
#[derive(Drop)]
struct Slot<K: Drop> {
    connection: Option<Box<Connection<K>>>,
    used: bool,
    noted: bool,
    closed: bool,
}

/// A connection that a thread works on, and its place.
#[derive(Drop)]
pub(crate) struct Job<K: Drop> {
    pub(crate) place: usize,
    pub(crate) connection: Box<Connection<K>>,
}

/// The connections, the places that are free, and the places of connections that may have something to do, in their order.
pub(crate) struct Table<K: Drop> {
    slots: Vec<Slot<K>>,
    free: Vec<usize>,
    ready: VecDeque<usize>,
    budget: Budget,
    /// How many bytes of pages aren't sent, and how many there may be before searches wait.
    pages: u64,
    most_pages: u64,
    /// The places of connections that wait for room for a page.
    for_page: VecDeque<usize>,
    /// With so many connections open, places for requests are limited.
    crowd: usize,
    /// Whether each connection ends once its requests that came whole are answered.
    ends: bool,
    open: usize,
    idle: u64,
}

/// What a connection gives back: its share, its ticket, its place among the large requests, and its place among the requests of a kind.
#[derive(Clone, Copy)]
pub(crate) struct Given {
    share: bool,
    ticket: bool,
    large: bool,
    turn: Option<Kind>,
}

impl Given {
    /// All that a connection has.
    pub(crate) fn all_of<K: Drop>(connection: &Connection<K>) -> Given {
        Given {
            share: connection.has_share,
            ticket: connection.has_ticket,
            large: connection.has_large,
            turn: connection.turn,
        }
    }

    /// What a connection has and doesn't need any more.
    fn of<K: Drop>(connection: &Connection<K>) -> Given {
        Given {
            share: connection.has_share && connection.is_empty(),
            ticket: connection.has_ticket && connection.is_small(),
            large: connection.has_large && connection.is_small(),
            turn: connection.turn,
        }
    }
}

impl<K: Drop> Drop for Table<K> {
    fn drop(self) {
        let Table {
            slots: _slots,
            free: _free,
            ready: _ready,
            budget: _budget,
            pages: _,
            most_pages: _,
            for_page: _for_page,
            crowd: _,
            ends: _,
            open: _,
            idle: _,
        } = self;
    }
}

impl<K: Drop> Table<K> {
    pub(crate) fn new(alloc: Global, limits: &Limits, most: u32) -> Table<K> {
        Table {
            slots: Vec::new(alloc),
            free: Vec::new(alloc),
            ready: VecDeque::new(alloc),
            budget: Budget::new(alloc, limits, most),
            pages: 0,
            most_pages: limits.pages,
            for_page: VecDeque::new(alloc),
            crowd: limits.dear(),
            ends: false,
            open: 0,
            idle: limits.idle.saturating_mul(1000),
        }
    }

    /// How many connections are open.
    pub(crate) fn open(&self) -> usize {
        self.open
    }

    /// Whether a connection may have something to do.
    pub(crate) fn is_ready(&self) -> bool {
        !self.ready.is_empty()
    }

    /// A free place for a connection that has come.
    pub(crate) fn begin(&mut self) -> Result<usize, AllocError> {
        if self.free.is_empty() {
            self.slots.push(Slot {
                connection: None,
                used: false,
                noted: false,
                closed: false,
            })?;
            self.free.push(self.slots.len() - 1)?;
        }
        let Some(place) = self.free.pop() else {
            return Err(AllocError);
        };
        self.open = self.open.saturating_add(1);
        if let Some(slot) = self.slots.get_mut(place) {
            slot.used = true;
            slot.noted = false;
            slot.closed = false;
        }
        Ok(place)
    }

    /// Notes that something may have come for the connection at this place. After an event of a connection that has ended, the next one at its place looks in
    /// vain.
    pub(crate) fn note(&mut self, place: usize, closed: bool) {
        let Some(slot) = self.slots.get_mut(place) else {
            return;
        };
        if !slot.used {
            return;
        }
        if closed {
            slot.closed = true;
        }
        if slot.noted {
            return;
        }
        slot.noted = true;
        if slot.connection.is_some() {
            self.queue(place);
        }
    }

    /// Puts a connection after those that are ready. If there is no memory for that, the sweep does it later.
    fn queue(&mut self, place: usize) {
        let _ = self.ready.push_back(place);
    }

    /// The next connection that may have something to do, and has room to do it.
    pub(crate) fn next(&mut self) -> Option<Job<K>> {
        for _ in 0..self.ready.len() {
            let place = self.ready.pop_front()?;
            if let Some(connection) = self.taken(place) {
                if let Some(job) = self.admitted(place, connection) {
                    return Some(job);
                }
            }
        }
        None
    }

    /// Takes the connection out of its place.
    fn taken(&mut self, place: usize) -> Option<Box<Connection<K>>> {
        let slot = self.slots.get_mut(place)?;
        let mut connection = slot.connection.take()?;
        slot.noted = false;
        if slot.closed {
            connection.closed = true;
        }
        Some(connection)
    }

    /// Returns the connection if it has a share of the room for bytes, or gets one. Else the connection goes back to its place, and waits.
    fn admitted(&mut self, place: usize, mut connection: Box<Connection<K>>) -> Option<Job<K>> {
        if connection.held == Held::Free && !connection.has_share && !connection.expired {
            match self.budget.shares.take(place) {
                Ok(true) => connection.has_share = true,
                Ok(false) => connection.held = Held::ForShare,
                Err(_) => connection.expired = true,
            }
        }
        if connection.held == Held::Free {
            connection.is_crowded = self.open > self.crowd;
            connection.has_page_room = self.pages < self.most_pages;
            connection.ends = self.ends;
            return Some(Job { place, connection });
        }
        connection.rest(0, self.idle);
        if let Some(slot) = self.slots.get_mut(place) {
            slot.connection = Some(connection);
        }
        None
    }

    /// Puts back a connection that a thread has worked on.
    pub(crate) fn put(&mut self, job: Job<K>, next: Next, now: u64) {
        let Job {
            place,
            mut connection,
        } = job;
        let given = Given::of(&connection);
        if given.share {
            connection.has_share = false;
        }
        if given.ticket {
            connection.has_ticket = false;
        }
        if given.large {
            connection.has_large = false;
        }
        connection.turn = None;
        self.charge(&mut connection);
        let again = next == Next::Goes || self.has_what_it_wants(place, &mut connection, next);
        connection.rest(now, self.idle);
        self.set(place, connection, again);
        self.give_back(given, now);
    }

    /// Whether the connection has now what it has to wait for. Else it waits for it.
    fn has_what_it_wants(
        &mut self,
        place: usize,
        connection: &mut Connection<K>,
        next: Next,
    ) -> bool {
        let (taken, held) = match next {
            Next::Wants => (self.budget.tickets.take(place), Held::ForTicket),
            Next::WantsMore => (self.budget.large.take(place), Held::ForLarge),
            Next::WantsTurn(kind) => match self.budget.of(kind) {
                Some(places) => (places.take(place), Held::ForTurn(kind)),
                None => (Ok(true), Held::Free),
            },
            Next::WantsPage => (self.page_room(place), Held::ForPage),
            Next::Waits | Next::Goes | Next::Ended => return false,
        };
        match taken {
            Ok(true) => connection.take(held),
            Ok(false) => {
                connection.held = held;
                return false;
            }
            Err(_) => connection.expired = true,
        }
        true
    }

    /// Whether there is room for a page. Else this connection waits in line for it.
    fn page_room(&mut self, place: usize) -> Result<bool, AllocError> {
        if self.pages < self.most_pages {
            return Ok(true);
        }
        self.for_page.push_back(place)?;
        Ok(false)
    }

    /// Counts the connection's page, as far as it isn't sent.
    fn charge(&mut self, connection: &mut Connection<K>) {
        let weight = connection.weight();
        self.pages = self
            .pages
            .saturating_sub(connection.charged)
            .saturating_add(weight);
        connection.charged = weight;
    }

    fn set(&mut self, place: usize, connection: Box<Connection<K>>, again: bool) {
        let Some(slot) = self.slots.get_mut(place) else {
            return;
        };
        slot.connection = Some(connection);
        if again {
            slot.noted = true;
        }
        if slot.noted {
            self.queue(place);
        }
    }

    /// Begins a connection. A thread looks at it at once, since something may have come with it.
    pub(crate) fn start(&mut self, place: usize, connection: Box<Connection<K>>) {
        self.set(place, connection, true);
    }

    /// Ends a connection whose unsent page had so many bytes, and takes back what it had. Its place is free again.
    pub(crate) fn end(&mut self, place: usize, given: Given, charged: u64, now: u64) {
        if let Some(slot) = self.slots.get_mut(place) {
            slot.used = false;
        }
        self.open = self.open.saturating_sub(1);
        let _ = self.free.push(place);
        self.pages = self.pages.saturating_sub(charged);
        self.give_back(given, now);
    }

    /// Ends a connection that has never been in the table.
    pub(crate) fn end_unbegun(&mut self, place: usize, now: u64) {
        let nothing = Given {
            share: false,
            ticket: false,
            large: false,
            turn: None,
        };
        self.end(place, nothing, 0, now);
    }

    /// Takes back what a connection gives. Each goes to the first connection that waits for it.
    fn give_back(&mut self, given: Given, now: u64) {
        if given.share {
            let next = self.budget.shares.give_back();
            self.grant(next, now);
        }
        if given.ticket {
            let next = self.budget.tickets.give_back();
            self.grant(next, now);
        }
        if given.large {
            let next = self.budget.large.give_back();
            self.grant(next, now);
        }
        if let Some(kind) = given.turn {
            let next = match self.budget.of(kind) {
                Some(places) => places.give_back(),
                None => None,
            };
            self.grant(next, now);
        }
        if self.pages < self.most_pages {
            let next = self.for_page.pop_front();
            self.grant(next, now);
        }
    }

    /// Gives the connection at this place what it waited for.
    fn grant(&mut self, next: Option<usize>, now: u64) {
        let Some(place) = next else {
            return;
        };
        let idle = self.idle;
        if let Some(slot) = self.slots.get_mut(place) {
            if let Some(connection) = &mut slot.connection {
                let held = connection.held;
                connection.take(held);
                connection.rest(now, idle);
            }
        }
        self.note(place, false);
    }

    /// From now on each connection ends once its requests that came whole are answered. All are looked at.
    pub(crate) fn end_all(&mut self) {
        self.ends = true;
        for place in 0..self.slots.len() {
            self.note(place, false);
        }
    }

    /// Queues the connections whose time is over, and those that were noted but not queued because memory ran out.
    pub(crate) fn sweep(&mut self, now: u64) {
        for place in 0..self.slots.len() {
            let Some(slot) = self.slots.get_mut(place) else {
                return;
            };
            let Some(connection) = &mut slot.connection else {
                continue;
            };
            if connection.deadline <= now {
                connection.expired = true;
                slot.noted = true;
                self.queue(place);
            } else if slot.noted && self.ready.is_empty() {
                self.queue(place);
            }
        }
    }
}
