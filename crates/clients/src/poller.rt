//! What threads wait for: connections that are ready, and connections that come.

use mio::net::TcpListener;
use mio::{Events, Interest, Poll, Token, Waker};
use std::alloc::Global;
use std::net::Net;
use std::time::Duration;
use std::{io, net};

/// The token of the listener. The token of a connection is its place.
pub(crate) const LISTENER: usize = usize::MAX;

/// The token of the waker.
const WAKER: usize = usize::MAX - 1;

/// The most events that are taken at once.
const AT_ONCE: usize = 256;

/// What one thread at a time waits on.
#[derive(Drop)]
pub(crate) struct Poller {
    pub(crate) poll: Poll,
    pub(crate) events: Events,
    pub(crate) listener: TcpListener,
    /// How many connections have begun.
    pub(crate) begun: u64,
    /// Whether connections may wait to be accepted.
    pub(crate) calls: bool,
    /// Since when no connection can be accepted, and how many were open then.
    pub(crate) full: Option<(u64, usize)>,
    /// Whether it was reported that no connection can be accepted.
    pub(crate) told: bool,
    /// When deadlines were looked at last.
    pub(crate) swept: u64,
}

impl Poller {
    /// A poller that waits for connections, and a waker that ends its wait from another thread.
    pub(crate) fn new<R: Net>(
        rt: &R,
        alloc: Global,
        listener: net::TcpListener,
    ) -> io::Result<(Poller, Waker)> {
        listener.set_nonblocking(true)?;
        let mut listener = TcpListener::from_std(listener);
        let poll = Poll::new(rt)?;
        let waker = Waker::new(poll.registry(), Token(WAKER))?;
        poll.registry()
            .register(&mut listener, Token(LISTENER), Interest::READABLE)?;
        let poller = Poller {
            poll,
            events: Events::with_capacity(alloc, AT_ONCE)?,
            listener,
            begun: 0,
            calls: true,
            full: None,
            told: false,
            swept: 0,
        };
        Ok((poller, waker))
    }

    /// Waits until something is ready, `most` milliseconds at most.
    pub(crate) fn wait(&mut self, most: u64) -> io::Result<()> {
        self.poll
            .poll(&mut self.events, Some(Duration::from_millis(most)))
    }
}
