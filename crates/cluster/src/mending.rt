//! A copy whose log has failed: it is opened again, and leads again where it is the primary; one that doesn't open is given up.

use crate::post::Post;
use crate::worker::Worker;
use cell::IndexName;
use master::{Request, State};
use replica::{Input, Role};
use std::sync::Wait;
use translog::LogDevice;

/// How often a copy is opened again before it is given up.
const RESTARTS: u64 = 3;

impl<R: Wait + Drop, D: LogDevice, J: IndexName> Worker<R, D, J> {
    pub(crate) fn is_open(&self) -> bool {
        self.copy().snapshot().is_some()
    }

    pub(crate) fn leads(&self) -> bool {
        match self.copy().role() {
            Role::Primary(_) => true,
            Role::Empty | Role::Replica => false,
        }
    }

    /// Opens the copy again where its log has failed. It is done before each post, so a cluster whose last copy is closed answers again as soon as that opens.
    pub(crate) fn mend(&mut self, rt: &R) {
        if !self.is_open() {
            self.reopen(rt);
        }
    }

    /// Opens the copy again, and has it lead where the master's primary is this copy; one that doesn't open is given up.
    pub(crate) fn reopen(&mut self, rt: &R) {
        if !self.restart(rt) {
            self.give_up(rt);
            return;
        }
        self.given_up = false;
        self.is_to_lead = true;
        self.lead(rt);
    }

    fn restart(&mut self, rt: &R) -> bool {
        let tries = if self.given_up { 1 } else { RESTARTS };
        for _ in 0..tries {
            let was_open = self.is_open();
            if self.call(rt, Input::Restart) || !was_open && self.is_open() {
                return true;
            }
        }
        false
    }

    /// Has the master make this copy the primary of the next term, where it is the primary. A copy that can't keep that is opened for reading.
    pub(crate) fn lead(&mut self, rt: &R) {
        let id = self.id();
        if self.shared.primary(rt) != id {
            self.is_to_lead = false;
            return;
        }
        if let Some(message) = self.shared.promotion(rt, self.alloc, self.number, id) {
            self.call(rt, Input::Take(message));
        }
        self.is_to_lead = !self.leads();
        if !self.is_open() {
            self.restart(rt);
        }
    }

    /// Has the primary report this copy; or where it is the primary itself, has another one promoted.
    pub(crate) fn give_up(&mut self, rt: &R) {
        if self.given_up {
            return;
        }
        let Ok(known) = self.shared.known(rt, self.alloc) else {
            return;
        };
        let id = self.id();
        self.given_up = if known.state.primary == id {
            self.hand_over(rt, &known.state);
            true
        } else {
            self.shared.hand(rt, known.state.primary, Post::Report(id))
        };
    }

    /// Has the master make the first copy in sync the primary that isn't this one, and that it takes.
    pub(crate) fn hand_over(&self, rt: &R, state: &State) {
        let id = self.id();
        for other in state.in_sync.as_slice() {
            if *other != id
                && self
                    .shared
                    .ask(rt, self.alloc, self.number, Request::Promote(*other))
                    .is_ok()
            {
                return;
            }
        }
    }
}
