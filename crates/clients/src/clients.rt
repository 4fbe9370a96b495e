//! Connections that a few threads serve. Each thread in turn waits for all connections, and works on those that are ready.

use crate::connection::{Connection, Next};
use crate::limits::{Limits, ROOM, SWEEP};
use crate::noting::{Notes, Noting};
use crate::poller::{LISTENER, Poller};
use crate::table::{Given, Job, Table};
use crate::watcher::Watcher;
use front::{Command, Reply, Resumable, Rule, Service};
use mio::net::TcpStream;
use mio::{Interest, Token, Waker};
use std::alloc::Global;
use std::io::ErrorKind;
use std::net::{Net, TcpListener};
use std::sync::atomic::{AtomicBool, Ordering};
use std::sync::{Mutex, Wait};
use std::time::{Clock, Duration, Instant};
use std::{io, thread};

/// The longest time after which the refreshing lane looks again whether the server has ended, and how much was written, in milliseconds.
const TICK: u64 = 10;

/// After this many writes the index is refreshed before its time is over, since a write waits while a refresh takes what changed.
const MANY: u64 = 2_048;

/// The most connections that are accepted before the open ones are looked at.
const MOST_ACCEPTED: u64 = 256;

/// The next connection that is ready, and whether others are ready.
#[derive(Drop)]
struct NextJob<K: Drop> {
    job: Job<K>,
    others: bool,
}

/// The connections of a listener. `K` is what a client knows of the service.
pub struct Clients<'w, W: Watcher, K: Drop> {
    alloc: Global,
    limits: Limits,
    rule: &'w Rule,
    watcher: &'w W,
    started: Option<Instant>,
    poller: Mutex<Poller>,
    table: Mutex<Table<K>>,
    waker: Waker,
    all_begun: AtomicBool,
    ending: AtomicBool,
    ended: AtomicBool,
    notes: Notes,
}

impl<'w, W: Watcher, K: Drop> Drop for Clients<'w, W, K> {
    fn drop(self) {
        let Clients {
            alloc: _,
            limits: _limits,
            rule: _rule,
            watcher: _watcher,
            started: _started,
            poller: _poller,
            table: _table,
            waker: _waker,
            all_begun: _all_begun,
            ending: _ending,
            ended: _ended,
            notes: _notes,
        } = self;
    }
}

impl<'w, W: Watcher, K: Drop> Clients<'w, W, K> {
    /// The connections that come to a listener. This rule answers their requests.
    pub fn new<R: Net + Clock>(
        rt: &R,
        alloc: Global,
        listener: TcpListener,
        limits: Limits,
        rule: &'w Rule,
        watcher: &'w W,
    ) -> io::Result<Clients<'w, W, K>> {
        let (poller, waker) = Poller::new(rt, alloc, listener)?;
        Ok(Clients {
            alloc,
            limits,
            rule,
            watcher,
            started: Instant::now(rt).ok(),
            poller: Mutex::new(poller),
            table: Mutex::new(Table::new(alloc, &limits, rule.most)),
            waker,
            all_begun: AtomicBool::new(limits.connections == Some(0)),
            ending: AtomicBool::new(false),
            ended: AtomicBool::new(limits.connections == Some(0)),
            notes: Notes::new(),
        })
    }

    /// How many threads must call `run`: those that work, and the one that refreshes.
    pub fn lanes(&self) -> usize {
        self.limits.working() + 1
    }

    /// Serves connections in this lane with this service, until the last one that the limits allow has ended. The last lane refreshes the index again and again
    /// instead. It calls `show_more`, during which commands go on, and if that doesn't refresh, `refresh`, which blocks commands. Both return whether they
    /// refreshed. Where nothing was written in the time of a refresh, it calls `rest`, once until something is written.
    pub fn run<
        R: Wait + Clock,
        S: Resumable<Known = K> + Drop,
        P: Fn() -> bool,
        B: Fn() -> bool,
        E: Fn(),
    >(
        &self,
        rt: &R,
        lane: usize,
        service: S,
        show_more: &P,
        refresh: &B,
        rest: &E,
    ) -> io::Result<()>
        requires show_more { P.Fn.pre show_more.now tt }
        requires refresh { B.Fn.pre refresh.now tt }
        requires rest { E.Fn.pre rest.now tt }
    {
        if lane >= self.limits.working() {
            self.refresh_in_turn(rt, show_more, refresh, rest);
            return Ok(());
        }
        let mut service = Noting {
            service,
            notes: &self.notes,
            lead: None,
        };
        let worked = self.serve(rt, &mut service);
        self.end();
        worked
    }

    /// Works on connections that are ready. If none is ready, it waits until one is.
    fn serve<'a, R: Wait + Clock, S: Resumable<Known = K>>(
        &'a self,
        rt: &R,
        service: &mut Noting<'a, S>,
    ) -> io::Result<()> {
        let mut room = Vec::from_elem(self.alloc, 0u8, ROOM)?;
        for _ in rt.forever() {
            if self.ended.load(Ordering::SeqCst) {
                return Ok(());
            }
            match self.next_job(rt) {
                Some(job) => self.work(rt, job, service, &mut room),
                None => self.lead(rt, service, &mut room)?,
            }
        }
        unreachable!()
    }

    fn next_job<R: Wait>(&self, rt: &R) -> Option<Job<K>> {
        let mut table = self.table.lock(rt);
        table.next()
    }

    /// Works on the connection as far as it can, and puts it back, or closes it if it has ended.
    fn work<R: Wait + Clock, S: Resumable<Known = K>>(
        &self,
        rt: &R,
        job: Job<K>,
        service: &mut Noting<'_, S>,
        room: &mut [u8],
    ) {
        let mut job = job;
        let next = job.connection.work(self.rule, service, self.watcher, room);
        let now = self.now(rt);
        if next == Next::Ended {
            return self.close(rt, job, now);
        }
        let mut table = self.table.lock(rt);
        table.put(job, next, now);
    }

    /// Ends a connection.
    fn close<R: Wait>(&self, rt: &R, job: Job<K>, now: u64) {
        let Job { place, connection } = job;
        let (given, charged) = (Given::all_of(&connection), connection.charged);
        drop(connection);
        let mut table = self.table.lock(rt);
        table.end(place, given, charged, now);
        let open = table.open();
        drop(table);
        self.end_behind_last(open);
    }

    /// Ends the server if all connections that it is to serve have begun, and none is open.
    fn end_behind_last(&self, open: usize) {
        if open == 0 && self.all_begun.load(Ordering::SeqCst) {
            self.end();
        }
    }

    fn end(&self) {
        self.ended.store(true, Ordering::SeqCst);
        let _ = self.waker.wake();
    }

    /// Waits for all connections. Only one thread at a time does this: it has the lead. If only one connection is ready, this thread works on it itself, and
    /// gives the lead up only before a command that may take long, since handing the lead on costs more than a get.
    fn lead<'a, R: Wait + Clock, S: Resumable<Known = K>>(
        &'a self,
        rt: &R,
        service: &mut Noting<'a, S>,
        room: &mut [u8],
    ) -> io::Result<()> {
        let mut poller = self.poller.lock(rt);
        for _ in rt.forever() {
            if self.ended.load(Ordering::SeqCst) || self.is_ready(rt) {
                return Ok(());
            }
            self.look(rt, &mut poller)?;
            let Some(NextJob { job, others }) = self.next_of(rt) else {
                continue;
            };
            if others {
                drop(poller);
                self.work(rt, job, service, room);
                return Ok(());
            }
            service.lead = Some(poller);
            self.work(rt, job, service, room);
            match service.lead.take() {
                Some(held) => poller = held,
                None => return Ok(()),
            }
        }
        unreachable!()
    }

    fn next_of<R: Wait>(&self, rt: &R) -> Option<NextJob<K>> {
        let mut table = self.table.lock(rt);
        let job = table.next()?;
        Some(NextJob {
            job,
            others: table.is_ready(),
        })
    }

    fn is_ready<R: Wait>(&self, rt: &R) -> bool {
        let table = self.table.lock(rt);
        table.is_ready()
    }

    /// Waits until something is ready, and notes what is ready.
    fn look<R: Wait + Clock>(&self, rt: &R, poller: &mut Poller) -> io::Result<()> {
        let most = if poller.calls && poller.full.is_none() {
            0
        } else {
            SWEEP
        };
        poller.wait(most)?;
        let now = self.now(rt);
        let mut table = self.table.lock(rt);
        for event in &poller.events {
            let Token(place) = event.token();
            if place == LISTENER {
                poller.calls = true;
            } else {
                table.note(place, event.is_read_closed());
            }
        }
        if now.saturating_sub(poller.swept) >= SWEEP {
            poller.swept = now;
            table.sweep(now);
        }
        let open = table.open();
        drop(table);
        if poller.calls && may_accept(poller.full, now, open) {
            self.accept(rt, poller, now);
        }
        Ok(())
    }

    /// Accepts the connections that wait, `MOST_ACCEPTED` at most.
    fn accept<R: Wait>(&self, rt: &R, poller: &mut Poller, now: u64) {
        for _ in 0..MOST_ACCEPTED {
            if self.has_all(poller) {
                self.stop_accepting(rt, poller);
                return;
            }
            match poller.listener.accept() {
                Ok((stream, _)) => {
                    poller.full = None;
                    self.admit(rt, poller, stream, now);
                }
                Err(error) => match error.kind() {
                    ErrorKind::WouldBlock => {
                        poller.calls = false;
                        return;
                    }
                    ErrorKind::Interrupted | ErrorKind::ConnectionAborted => {}
                    _ => {
                        self.is_full(rt, poller, now);
                        return;
                    }
                },
            }
        }
    }

    /// No connection can be accepted. The server tries again when one has ended, or after a second. Until then new connections wait, and open ones go on.
    fn is_full<R: Wait>(&self, rt: &R, poller: &mut Poller, now: u64) {
        let open = self.table.lock(rt).open();
        poller.full = Some((now, open));
        if !poller.told {
            poller.told = true;
            self.watcher.is_full();
        }
    }

    fn has_all(&self, poller: &Poller) -> bool {
        if self.all_begun.load(Ordering::SeqCst) {
            return true;
        }
        match self.limits.connections {
            Some(most) => poller.begun >= most,
            None => false,
        }
    }

    /// Ends in order, if that is wanted: no connection is accepted any more, and each one ends once its requests that came whole are answered.
    fn end_in_order<R: Wait>(&self, rt: &R) {
        if !self.watcher.is_to_end() || self.ending.swap(true, Ordering::SeqCst) {
            return;
        }
        self.all_begun.store(true, Ordering::SeqCst);
        let mut table = self.table.lock(rt);
        table.end_all();
        let open = table.open();
        drop(table);
        let _ = self.waker.wake();
        self.end_behind_last(open);
    }

    /// Accepts no more connections: all that the server is to serve have begun.
    fn stop_accepting<R: Wait>(&self, rt: &R, poller: &mut Poller) {
        poller.calls = false;
        let _ = poller.poll.registry().deregister(&mut poller.listener);
        self.all_begun.store(true, Ordering::SeqCst);
        let open = self.table.lock(rt).open();
        self.end_behind_last(open);
    }

    /// Takes a connection into the table. If there is no memory for it, it ends at once.
    fn admit<R: Wait>(&self, rt: &R, poller: &mut Poller, stream: TcpStream, now: u64) {
        poller.begun = poller.begun.saturating_add(1);
        let mut stream = stream;
        let _ = stream.set_nodelay(true);
        let begun = self.table.lock(rt).begin();
        let Ok(place) = begun else {
            return;
        };
        let interests = Interest::READABLE | Interest::WRITABLE;
        let registered = poller
            .poll
            .registry()
            .register(&mut stream, Token(place), interests);
        let deadline = now.saturating_add(self.limits.idle.saturating_mul(1000));
        let connection = Box::new(
            self.alloc,
            Connection::new(self.alloc, poller.begun, stream, deadline),
        );
        let mut table = self.table.lock(rt);
        match connection {
            Ok(connection) if registered.is_ok() => table.start(place, connection),
            _ => table.end_unbegun(place, now),
        }
    }

    /// How many milliseconds have passed since the start. If no clock can be read, this is 0, and no deadline passes.
    fn now<R: Clock>(&self, clock: &R) -> u64 {
        let Some(started) = self.started else {
            return 0;
        };
        match started.elapsed(clock) {
            Ok(gone) => gone
                .as_secs()
                .saturating_mul(1000)
                .saturating_add(u64::from(gone.subsec_millis())),
            Err(_) => 0,
        }
    }

    /// Refreshes the index again and again until the server has ended: each time that its time is over, or `MANY` writes came. The first time that nothing came it rests.
    fn refresh_in_turn<R: Wait + Clock, P: Fn() -> bool, B: Fn() -> bool, E: Fn()>(
        &self,
        rt: &R,
        show_more: &P,
        refresh: &B,
        rest: &E,
    )
        requires show_more { P.Fn.pre show_more.now tt }
        requires refresh { B.Fn.pre refresh.now tt }
        requires rest { E.Fn.pre rest.now tt }
    {
        let mut is_resting = true;
        let mut left = self.limits.refresh.max(1);
        for _ in 0..u64::MAX {
            if self.ended.load(Ordering::SeqCst) {
                return;
            }
            self.end_in_order(rt);
            let tick = left.min(TICK);
            thread::sleep(rt, Duration::from_millis(tick));
            left -= tick;
            if self.limits.refresh == 0 {
                left = TICK;
                continue;
            }
            if left == 0 || self.notes.written.load(Ordering::SeqCst) >= MANY {
                let was_written = self.refresh_once(show_more, refresh);
                if !was_written && !is_resting {
                    rest();
                }
                is_resting = !was_written;
                left = self.limits.refresh;
            }
        }
    }

    /// Refreshes the index if something was written, and returns whether it was. If a refresh is refused, it is tried again when its time is over.
    fn refresh_once<P: Fn() -> bool, B: Fn() -> bool>(&self, show_more: &P, refresh: &B) -> bool
        requires show_more { P.Fn.pre show_more.now tt }
        requires refresh { B.Fn.pre refresh.now tt }
    {
        if self.notes.written.load(Ordering::SeqCst) == 0 {
            return false;
        }
        // The refresh may not show what comes from now on.
        self.notes.written.store(0, Ordering::SeqCst);
        if show_more() {
            return true;
        }
        self.notes.refreshing.store(true, Ordering::SeqCst);
        let done = refresh();
        self.notes.refreshing.store(false, Ordering::SeqCst);
        if !done {
            self.notes.written.fetch_add(1, Ordering::SeqCst);
        }
        true
    }
}

/// Whether it is time to accept: accepting hasn't failed, or a connection has ended since it failed, or a second has passed.
fn may_accept(full: Option<(u64, usize)>, now: u64, open: usize) -> bool {
    match full {
        Some((since, then)) => open < then || now.saturating_sub(since) >= SWEEP,
        None => true,
    }
}
