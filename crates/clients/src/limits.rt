//! How much is served.
ghost use Rattle.std.specs.Prelude.{◌≤◌};

/// The most threads that work.
pub const MOST_THREADS: usize = 64;

/// The most bytes of a head.
pub(crate) const LONGEST_HEAD: usize = 16_384;

/// How many bytes of an unfinished request a connection may keep with a ticket: enough for a body of 1 MiB. One that is larger needs a place of its own.
pub(crate) const TICKET: usize = LONGEST_HEAD + 1_048_576;

/// How many bytes of an unfinished request a connection may keep without a ticket.
pub(crate) const SHARE: usize = 4096;

/// After this many steps in a row a connection waits until the others had their turn.
pub(crate) const STEPS_IN_A_ROW: u64 = 32;

/// The most bytes that are read at once.
pub(crate) const ROOM: usize = 16_384;

/// The most bytes that are still read from a connection that has ended.
pub(crate) const MOST_LINGERING: usize = 2_097_152;

/// How long a request may take from its first byte to its last, and how long a peer may take for a page, in milliseconds.
pub(crate) const PATIENCE: u64 = 30_000;

/// A large request must bring this many bytes, or its end, in each `STALL` milliseconds.
pub(crate) const LEAST_AT_ONCE: usize = 65_536;

/// In this many milliseconds a large request must bring `LEAST_AT_ONCE` bytes.
pub(crate) const STALL: u64 = 2_000;

/// How long a connection that has ended is still read from, in milliseconds.
pub(crate) const LINGER: u64 = 500;

/// The longest wait of a thread that polls, in milliseconds. It is also the time between two looks at the deadlines.
pub(crate) const SWEEP: u64 = 1000;

/// How much is served, and how long.
#[derive(Clone, Copy)]
pub struct Limits {
    /// How many threads work, 1 to 64.
    pub threads: usize,
    /// How many connections are served in all. With `None`, all that come.
    pub connections: Option<u64>,
    /// The most bytes of unfinished requests that are kept.
    pub bytes: u64,
    /// The most bytes of pages that aren't sent. While there are more, no search is answered. The texts that pages share with the index don't count.
    pub pages: u64,
    /// How long a connection that asks nothing is kept, in seconds.
    pub idle: u64,
    /// After how many milliseconds the index is refreshed again, or sooner if many writes came; 0 for never.
    pub refresh: u64,
}

impl Limits {
    /// How many threads work.
    pub(crate) fn working(&self) -> usize
        ensures { result ≤ 64 }
    {
        self.threads.max(1).min(MOST_THREADS)
    }

    /// How many requests at once may wait for a disk or for another copy: two threads are left for the others, if there are so many.
    pub(crate) fn waiting(&self) -> usize {
        self.working().saturating_sub(2).max(1)
    }

    /// How many dear searches there may be at once: half of the threads.
    pub(crate) fn dear(&self) -> usize {
        (self.working() / 2).max(1)
    }
}
