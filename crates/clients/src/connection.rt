//! One connection: what it does when something may have come, and when it has waited for too long.

use crate::conversation::Conversation;
use crate::kinds::{Kind, kind_of};
use crate::limits::{
    LEAST_AT_ONCE, LINGER, LONGEST_HEAD, MOST_LINGERING, PATIENCE, SHARE, STALL, STEPS_IN_A_ROW,
    TICKET,
};
use crate::noting::Noting;
use crate::progress::Progress;
use crate::watcher::Watcher;
use front::{Resumable, Rule};
use mio::net::TcpStream;
use std::alloc::Global;
use std::io::{Error, ErrorKind, Read};
use std::net::Shutdown;

/// What comes next for a connection.
#[derive(Clone, Copy, Debug, PartialEq, Eq)]
pub(crate) enum Next {
    /// It waits for its peer.
    Waits,
    /// It has more to do, after the others.
    Goes,
    /// It needs a ticket: room for a request that isn't small.
    Wants,
    /// It needs a place among the requests that are larger than a ticket.
    WantsMore,
    /// It needs a place among the requests of this kind.
    WantsTurn(Kind),
    /// It needs room for a page.
    WantsPage,
    Ended,
}

/// What a connection waits for, apart from its peer.
#[derive(Clone, Copy, Debug, PartialEq, Eq)]
pub(crate) enum Held {
    Free,
    ForShare,
    ForTicket,
    ForLarge,
    ForTurn(Kind),
    ForPage,
}

/// What a connection does now. Its deadline depends on this.
#[derive(Clone, Copy, Debug, PartialEq, Eq)]
enum Phase {
    Idle,
    Receiving,
    Sending,
    Lingering,
    Held,
}

/// A connection, its conversation, and what it has of the room for unfinished requests.
#[derive(Drop)]
pub(crate) struct Connection<K: Drop> {
    number: u64,
    stream: TcpStream,
    conversation: Conversation<K>,
    progress: Progress,
    answered: u64,
    drained: bool,
    lingers: Option<usize>,
    phase: Phase,
    since: u64,
    /// When the time of what it does now is over.
    until: u64,
    pub(crate) deadline: u64,
    pub(crate) held: Held,
    pub(crate) has_share: bool,
    pub(crate) has_ticket: bool,
    /// Whether it has a place among the requests that are larger than a ticket.
    pub(crate) has_large: bool,
    /// Its place among the requests of a kind.
    pub(crate) turn: Option<Kind>,
    /// How much of the room for pages it has, in bytes.
    pub(crate) charged: u64,
    /// Whether so many connections are open that places are limited.
    pub(crate) is_crowded: bool,
    /// Whether there is room for a page.
    pub(crate) has_page_room: bool,
    /// Whether it ends once the requests that came whole are answered.
    pub(crate) ends: bool,
    /// How much of a large request had come when it was last looked at whether it goes on.
    brought: usize,
    pub(crate) closed: bool,
    pub(crate) expired: bool,
}

impl<K: Drop> Connection<K> {
    pub(crate) fn new(
        alloc: Global,
        number: u64,
        stream: TcpStream,
        deadline: u64,
    ) -> Connection<K> {
        Connection {
            number,
            stream,
            conversation: Conversation::new(alloc),
            progress: Progress::new(),
            answered: 0,
            drained: false,
            lingers: None,
            phase: Phase::Idle,
            since: 0,
            until: deadline,
            deadline,
            held: Held::Free,
            has_share: false,
            has_ticket: false,
            has_large: false,
            turn: None,
            charged: 0,
            is_crowded: false,
            has_page_room: true,
            ends: false,
            brought: 0,
            closed: false,
            expired: false,
        }
    }

    /// Does what can be done without waiting, `STEPS_IN_A_ROW` steps at most.
    pub(crate) fn work<S: Resumable<Known = K>, W: Watcher>(
        &mut self,
        rule: &Rule,
        service: &mut Noting<'_, S>,
        watcher: &W,
        room: &mut [u8],
    ) -> Next {
        if self.expired {
            return Next::Ended;
        }
        self.drained = false;
        for _ in 0..STEPS_IN_A_ROW {
            let next = self.step(rule, service, watcher, room);
            if next == Next::Waits && self.ends && self.conversation.is_sent() {
                return Next::Ended;
            }
            if next != Next::Goes {
                return next;
            }
        }
        Next::Goes
    }

    /// Sends what waits to be sent, or else answers a request that came whole, or else reads.
    fn step<S: Resumable<Known = K>, W: Watcher>(
        &mut self,
        rule: &Rule,
        service: &mut Noting<'_, S>,
        watcher: &W,
        room: &mut [u8],
    ) -> Next {
        if !self.conversation.is_sent() {
            return self.send();
        }
        if self.conversation.has_ended() {
            return self.linger(room);
        }
        if self.progress.may_stand(self.conversation.waiting()) {
            return match self.wanted() {
                Some(next) => next,
                None => self.answer(rule, service, watcher),
            };
        }
        if self.progress.lacks_body && !self.conversation.has_asked() {
            self.progress.lacks_body = false;
            return self.ask_for_body(rule);
        }
        self.gather(rule.most, room)
    }

    /// Asks the client for the body of its request, if it waits for that.
    fn ask_for_body(&mut self, rule: &Rule) -> Next {
        if !self.conversation.is_sent() {
            return Next::Goes;
        }
        match self.conversation.ask_for_body(rule) {
            Ok(_) => Next::Goes,
            Err(_) => Next::Ended,
        }
    }

    /// What the next request has to wait for before it is answered.
    fn wanted(&self) -> Option<Next> {
        if !self.is_crowded && self.has_page_room {
            return None;
        }
        let kind = kind_of(self.conversation.waiting());
        if !self.has_page_room && kind.is_search() {
            return Some(Next::WantsPage);
        }
        let is_limited = kind == Kind::Write || kind == Kind::Dear;
        if self.is_crowded && is_limited && self.turn != Some(kind) {
            return Some(Next::WantsTurn(kind));
        }
        None
    }

    /// How many bytes the page has for itself that isn't sent yet.
    pub(crate) fn weight(&self) -> u64 {
        self.conversation.weight() as u64
    }

    fn send(&mut self) -> Next {
        let mut stream = &self.stream;
        match self.conversation.send(&mut stream) {
            Ok(0) => Next::Ended,
            Ok(_) => Next::Goes,
            Err(error) => after(&error),
        }
    }

    /// Answers the next request, and sends as much of its page as the peer takes at once. If there is no memory for it, this connection ends.
    fn answer<S: Resumable<Known = K>, W: Watcher>(
        &mut self,
        rule: &Rule,
        service: &mut Noting<'_, S>,
        watcher: &W,
    ) -> Next {
        if !self.conversation.is_sent() {
            return Next::Goes;
        }
        if kind_of(self.conversation.waiting()) != Kind::Light {
            service.give_up_lead();
        }
        match self.conversation.answer(rule, service) {
            Ok(Some(request)) => {
                watcher.answered(rule, self.number, &request, self.conversation.page());
                self.answered = self.answered.saturating_add(1);
                self.progress = Progress::new();
                self.send()
            }
            Ok(None) => {
                self.progress.missed(self.conversation.waiting());
                Next::Goes
            }
            Err(_) => Next::Ended,
        }
    }

    /// Reads what came, as far as there is room for it.
    fn gather(&mut self, longest: u32, room: &mut [u8]) -> Next {
        if self.drained && !self.closed {
            return Next::Waits;
        }
        let most = self.room_left(longest).min(room.len());
        if most == 0 {
            return if self.has_ticket {
                Next::WantsMore
            } else {
                Next::Wants
            };
        }
        let mut stream = &self.stream;
        match self.conversation.gather(&mut stream, &mut room[..most]) {
            Ok(0) => Next::Ended,
            Ok(n) => {
                self.drained = n < most;
                Next::Goes
            }
            Err(error) => after(&error),
        }
    }

    /// How many more bytes of an unfinished request it may keep, whose body may have so many bytes.
    fn room_left(&self, longest: u32) -> usize {
        let most = if self.has_large {
            LONGEST_HEAD.saturating_add(longest as usize)
        } else if self.has_ticket {
            TICKET
        } else {
            SHARE
        };
        most.saturating_sub(self.conversation.waiting().len())
    }

    /// Reads on for a while after the last page, so that the page isn't lost if the peer still sends (RFC 9112, section 9.6).
    fn linger(&mut self, room: &mut [u8]) -> Next {
        let Some(left) = self.lingers else {
            return match self.stream.shutdown(Shutdown::Write) {
                Ok(()) => {
                    self.lingers = Some(MOST_LINGERING);
                    Next::Goes
                }
                Err(_) => Next::Ended,
            };
        };
        let mut stream = &self.stream;
        match stream.read(room) {
            Ok(0) => Next::Ended,
            Ok(n) => {
                self.lingers = Some(left.saturating_sub(n));
                if n < left { Next::Goes } else { Next::Ended }
            }
            Err(error) => after(&error),
        }
    }

    /// Takes what it waited for.
    pub(crate) fn take(&mut self, held: Held) {
        match held {
            Held::ForShare => self.has_share = true,
            Held::ForTicket => self.has_ticket = true,
            Held::ForLarge => self.has_large = true,
            Held::ForTurn(kind) => self.turn = Some(kind),
            Held::ForPage | Held::Free => {}
        }
        self.held = Held::Free;
    }

    /// Whether it has no byte of an unfinished request.
    pub(crate) fn is_empty(&self) -> bool {
        self.conversation.waiting().is_empty()
    }

    /// Whether the request that needed a ticket was answered.
    pub(crate) fn is_small(&self) -> bool {
        self.conversation.waiting().len() < SHARE
    }

    /// Notes what it waits for now. If that has changed, or a request was answered since, its time begins anew.
    pub(crate) fn rest(&mut self, now: u64, idle: u64) {
        let phase = self.phase_now();
        if phase == self.phase && self.answered == self.since {
            self.go_on(now);
            return;
        }
        self.brought = 0;
        self.phase = phase;
        self.since = self.answered;
        self.until = match phase {
            Phase::Idle => now.saturating_add(idle),
            Phase::Receiving | Phase::Sending => now.saturating_add(PATIENCE),
            Phase::Lingering => now.saturating_add(LINGER),
            Phase::Held => u64::MAX,
        };
        self.deadline = self.until;
    }

    /// Lets a large request go on only as long as its bytes come.
    fn go_on(&mut self, now: u64) {
        if self.phase != Phase::Receiving || !self.has_ticket {
            return;
        }
        let came = self.conversation.waiting().len();
        if self.brought == 0 || came >= self.brought.saturating_add(LEAST_AT_ONCE) {
            self.brought = came;
            self.deadline = self.until.min(now.saturating_add(STALL));
        }
    }

    fn phase_now(&self) -> Phase {
        if self.held != Held::Free {
            Phase::Held
        } else if self.lingers.is_some() {
            Phase::Lingering
        } else if !self.conversation.is_sent() {
            Phase::Sending
        } else if self.is_empty() {
            Phase::Idle
        } else {
            Phase::Receiving
        }
    }
}

/// What comes next after a read or a write that returned this error.
fn after(error: &Error) -> Next {
    match error.kind() {
        ErrorKind::WouldBlock => Next::Waits,
        ErrorKind::Interrupted => Next::Goes,
        _ => Next::Ended,
    }
}
