//! What the threads of a server must know of the commands of all threads.
ghost use Rattle.std.specs.Prelude.{◌≡◌};

use crate::poller::Poller;
use doc::Mapping;
use front::command::Command;
use front::reply::Reply;
use front::{Resumable, Service, Stats};
use std::sync::MutexGuard;
use std::sync::atomic::{AtomicBool, AtomicU64, Ordering};

/// What is noted of the commands of all threads.
#[derive(Drop)]
pub(crate) struct Notes {
    /// How many writes came since the last refresh.
    pub(crate) written: AtomicU64,
    /// Whether the index is being refreshed.
    pub(crate) refreshing: AtomicBool,
    /// How many commands are under way that may wait.
    pub(crate) waiting: AtomicU64,
}

impl Notes {
    pub(crate) fn new() -> Notes {
        Notes {
            written: AtomicU64::new(0),
            refreshing: AtomicBool::new(false),
            waiting: AtomicU64::new(0),
        }
    }

    /// Whether a command may take long: it searches, it may wait, or it may have to wait for one that does.
    fn may_take_long(&self, command: &Command) -> bool {
        match command {
            Command::Get(_) => {
                self.refreshing.load(Ordering::SeqCst) || self.waiting.load(Ordering::SeqCst) > 0
            }
            _ => true,
        }
    }
}

/// Whether a command may wait for a disk, for another copy or for a refresh.
fn may_wait(command: &Command) -> bool {
    match command {
        Command::Get(_) | Command::Search(_) | Command::Count(_) => false,
        Command::Write(_) | Command::Bulk(_) | Command::Refresh | Command::Promote(_) => true,
    }
}

/// How many writes a command asks for.
fn writes_of(command: &Command) -> u64 {
    match command {
        Command::Write(_) => 1,
        Command::Bulk(writes) => writes.len() as u64,
        _ => 0,
    }
}

/// A service that notes its commands, and answers as the service does. If its thread has the lead, it gives the lead up before a command that may take long, so
/// that another thread goes on.
#[derive(Drop)]
pub(crate) struct Noting<'a, S: Service> {
    pub(crate) service: S,
    pub(crate) notes: &'a Notes,
    /// The poller, if this thread has the lead.
    pub(crate) lead: Option<MutexGuard<'a, Poller>>,
}

impl<'a, S: Service> Noting<'a, S> {
    /// Gives the lead up, if this thread has it, so that another thread goes on.
    pub(crate) fn give_up_lead(&mut self)
        ensures { self.new.service ≡ self.old.service }
    {
        self.lead = None;
    }
}

impl<'a, S: Service> Service for Noting<'a, S> {
    ghost name = { λ n. S.name n.service };

    ghost fields = { λ n. S.fields n.service };

    ghost answers = { λ n c r m. S.answers n.service c r m.service };

    fn index(&self) -> &str {
        self.service.index()
    }

    fn mapping(&self) -> &Mapping {
        self.service.mapping()
    }

    fn stats(&self) -> Option<Stats> {
        self.service.stats()
    }

    fn call(&mut self, command: Command) -> Reply {
        if self.lead.is_some() && self.notes.may_take_long(&command) {
            self.give_up_lead();
        }
        let writes = writes_of(&command);
        let waits = may_wait(&command);
        if waits {
            self.notes.waiting.fetch_add(1, Ordering::SeqCst);
        }
        let reply = self.service.call(command);
        if waits {
            self.notes.waiting.fetch_sub(1, Ordering::SeqCst);
        }
        // This note follows the write, so that a refresh that resets the note shows the write.
        if writes > 0 {
            self.notes.written.fetch_add(writes, Ordering::SeqCst);
        }
        reply
    }
}

impl<'a, S: Resumable> Resumable for Noting<'a, S> {
    type Known = S::Known;

    ghost knows = { λ n. S.knows n.service };

    fn known(&self) -> S::Known {
        self.service.known()
    }

    fn resume(&mut self, known: &Option<S::Known>) {
        self.service.resume(known);
    }
}
