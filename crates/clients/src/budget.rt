//! Room for the bytes of unfinished requests, handed out in turn.

use crate::kinds::Kind;
use crate::limits::{LONGEST_HEAD, Limits, SHARE, TICKET};
use std::alloc::{AllocError, Global};
use std::collections::VecDeque;

/// Places of one size, and the connections that wait for one, in the order in which they came.
pub(crate) struct Places {
    free: usize,
    line: VecDeque<usize>,
}

impl Drop for Places {
    fn drop(self) {
        let Places {
            free: _,
            line: _line,
        } = self;
    }
}

impl Places {
    fn new(alloc: Global, count: usize) -> Places {
        Places {
            free: count.max(1),
            line: VecDeque::new(alloc),
        }
    }

    /// Takes a place, and returns whether there was one. If not, this connection waits in line for the next.
    pub(crate) fn take(&mut self, who: usize) -> Result<bool, AllocError> {
        if self.free == 0 || !self.line.is_empty() {
            self.line.push_back(who)?;
            return Ok(false);
        }
        self.free -= 1;
        Ok(true)
    }

    /// Takes a place back. It goes to the first in line.
    pub(crate) fn give_back(&mut self) -> Option<usize> {
        let next = self.line.pop_front();
        if next.is_none() {
            self.free = self.free.saturating_add(1);
        }
        next
    }
}

/// One half of the room is for small shares, the other for tickets. Requests that are larger than a ticket have as much room again, and one at least has its
/// place. There are so many places for requests that may wait, and for dear searches.
#[derive(Drop)]
pub(crate) struct Budget {
    pub(crate) shares: Places,
    pub(crate) tickets: Places,
    pub(crate) large: Places,
    writes: Places,
    dear: Places,
}

impl Budget {
    /// The room that the limits give, where a body may have so many bytes.
    pub(crate) fn new(alloc: Global, limits: &Limits, most: u32) -> Budget {
        let half = limits.bytes as usize / 2;
        let longest = LONGEST_HEAD.saturating_add(most as usize);
        Budget {
            shares: Places::new(alloc, half / SHARE),
            tickets: Places::new(alloc, half / TICKET),
            large: Places::new(alloc, limits.bytes as usize / longest),
            writes: Places::new(alloc, limits.waiting()),
            dear: Places::new(alloc, limits.dear()),
        }
    }

    /// The places for requests of this kind, if these are limited.
    pub(crate) fn of(&mut self, kind: Kind) -> Option<&mut Places> {
        match kind {
            Kind::Write => Some(&mut self.writes),
            Kind::Dear => Some(&mut self.dear),
            Kind::Light | Kind::Search => None,
        }
    }
}
