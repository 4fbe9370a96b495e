//! An index of one copy that several connections share.
ghost use Rattle.std.specs.Prelude.{◌≡◌, IfOk, IfSome, IsErr, IsTrue};
ghost use Rattle.std.specs.Arc.{arc_value};
ghost use Rattle.segment.specs.Builds.{Builds};
ghost use Rattle.front.specs.Command.{refresh};
ghost use Rattle.front.specs.CommandView.{command_view};
ghost use Rattle.front.specs.Reply.{refused};
ghost use Rattle.front.specs.ReplyView.{reply_view};
ghost use Rattle.front.specs.declared.reply.Refusal.TheVariants.{NoMemory};
ghost use Rattle.shard.specs.History.{EndsIn, IsDone, IsLooked, IsReplyAt, IsSeenAt, IsSeenOf, IsTold};

use crate::answering::{count_of, search_of, stats_of};
use crate::asked::Asked;
use crate::history::{Begun, HistoryName, Kept, Label, Reached};
use crossbeam_channel::{Receiver, Sender, unbounded};
use doc::{Mapping, Source};
use engine::{Merged, Merging, Prebuilt, Snapshot, Unshown};
use front::command::Command;
use front::reply::{Refusal, Reply};
use front::{Resumable, Service, Stats};
use replica::{FEW_AT_REST, FEW_SEGMENTS};
use segment::Segment;
use std::alloc::{AllocError, Global};
use std::marker::Model;
use std::sync::{Arc, Mutex, MutexGuard, Wait};
use translog::LogDevice;

/// What searches see of an index at a place of its history. Contracts see the place.
#[derive(Drop)]
struct Seen<D: LogDevice, N: HistoryName> {
    snapshot: Arc<Snapshot, Global>,
    at: Reached<D, N>,
}

impl<D: LogDevice, N: HistoryName> Model for Seen<D, N> {
    ghost use Rattle.std.specs.Prelude.{List};
    ghost use Rattle.std.specs.Arc.{arc_value};
    ghost use Rattle.shard.specs.History.{Stand, IsSeenAt};

    ghost Value = { List Stand };

    ghost view = { λ s. s.at };

    ghost invariant = { λ s. IsSeenAt (arc_value s.snapshot) s.at };
}

impl<D: LogDevice, N: HistoryName> Seen<D, N> {
    /// What searches of the index see now. `None` while its copy is closed: the next command reopens it.
    fn of(kept: &Kept<D, N>) -> Option<Seen<D, N>> {
        let at = kept.reached();
        match kept.snapshot() {
            Some(snapshot) => Seen::over(snapshot, at, kept).ok(),
            None => None,
        }
    }

    fn over(
        snapshot: &Arc<Snapshot, Global>,
        at: Reached<D, N>,
        _kept: &Kept<D, N>,
    ) -> Result<Seen<D, N>, AllocError>
        requires ends { EndsIn _kept.now at }
        requires seen { IsSeenOf (arc_value snapshot.now) _kept.now }
    {
        Ok(Seen {
            snapshot: Arc::try_clone(snapshot)?,
            at,
        })
    }

    /// A duplicate.
    fn again(&self) -> Result<Seen<D, N>, AllocError>
        ensures { IfOk result (λ s. s ≡ self.now) }
    {
        Ok(Seen {
            snapshot: Arc::try_clone(&self.snapshot)?,
            at: self.at.again(),
        })
    }

    /// The reply to a search or a count, and its place in the history; `None` for another command, or if the client knows more of the history.
    fn reply_to(
        &self,
        alloc: Global,
        known: &Reached<D, N>,
        command: &Command,
    ) -> Option<(Reply, Reached<D, N>)>
        ensures { IfSome result (λ r. IsLooked known.now (command_view command.now) (reply_view r.0) r.1) }
    {
        if !known.is_before(&self.at) {
            return None;
        }
        match reply_by(alloc, &self.snapshot, &self.at, command) {
            Some(reply) => Some((reply, self.at.again())),
            None => None,
        }
    }
}

/// The reply to a search or a count, from what searches see at the end of a history; `None` for another command.
fn reply_by<D: LogDevice, N: HistoryName>(
    alloc: Global,
    snapshot: &Arc<Snapshot, Global>,
    _at: &Reached<D, N>,
    command: &Command,
) -> Option<Reply>
    requires { IsSeenAt (arc_value snapshot.now) _at.now }
    ensures { IfSome result (λ r. IsReplyAt _at.now (command_view command.now) (reply_view r)) }
{
    match command {
        Command::Search(body) => Some(or_refused(search_of(alloc, snapshot, body))),
        Command::Count(query) => Some(or_refused(count_of(alloc, snapshot, query))),
        Command::Write(_)
        | Command::Bulk(_)
        | Command::Get(_)
        | Command::Refresh
        | Command::Promote(_) => None,
    }
}

/// Whether a command is answered from what searches see.
fn is_search(command: &Command) -> bool {
    matches!(command, Command::Search(_) | Command::Count(_))
}

/// Whether a command is a bulk.
fn is_bulk(command: &Command) -> bool {
    matches!(command, Command::Bulk(_))
}

/// Whether a command shows searches what was written, by adding a segment.
fn is_refresh(command: &Command) -> bool {
    match command {
        Command::Refresh => true,
        Command::Write(write) => write.refresh,
        Command::Bulk(_)
        | Command::Get(_)
        | Command::Search(_)
        | Command::Count(_)
        | Command::Promote(_) => false,
    }
}

/// The reply, or a refusal if memory ran out for it.
fn or_refused(reply: Result<Reply, AllocError>) -> Reply
    ensures ok { IfOk reply (λ r. result ≡ r) }
    ensures err { IsErr reply → reply_view result ≡ refused NoMemory }
{
    match reply {
        Ok(reply) => reply,
        Err(_) => Reply::Refused(Refusal::NoMemory),
    }
}

/// What is known of merges.
#[derive(Drop)]
struct Merges {
    /// Whether one is being built.
    is_under_way: bool,
    /// The next one begins where there are more segments.
    few: usize,
}

/// An order to the thread that builds merges.
#[derive(Drop)]
enum Order {
    Build(Merging),
    End,
}

/// An index of one copy, guarded by a lock. A write keeps the lock until the device has synced it. What searches see has a lock of its own, which a thread
/// keeps only while it looks there, so no search waits for a write. A thread that needs the index's lock goes through a door first, where one thread at a time
/// waits for the lock: a lock alone goes to whichever thread comes by just then, however long another one waits. Bulks take turns before they come to the door.
/// So if few others write, a write waits for two bulks at most, not for as many as there are connections. A separate thread (`merge_beside`) merges segments,
/// and keeps the lock only while it puts a merge in place.
pub struct SharedShard<D: LogDevice, N: HistoryName> {
    alloc: Global,
    label: Label<N>,
    shard: Mutex<Kept<D, N>>,
    /// Which bulk's turn it is.
    bulk_turn: Mutex<()>,
    /// Which thread is next at the lock.
    door: Mutex<()>,
    seen: Mutex<Option<Seen<D, N>>>,
    begun: Reached<D, N>,
    merges: Mutex<Merges>,
    to_merger: Sender<Order, Global>,
    orders: Receiver<Order, Global>,
}

impl<D: LogDevice, N: HistoryName> Drop for SharedShard<D, N> {
    fn drop(self) {
        let SharedShard {
            alloc: _,
            label: _label,
            shard: _shard,
            bulk_turn: _bulk_turn,
            door: _door,
            seen: _seen,
            begun: _begun,
            merges: _merges,
            to_merger: _to_merger,
            orders: _orders,
        } = self;
    }
}

impl<D: LogDevice, N: HistoryName> SharedShard<D, N> {
    /// The index whose history has begun. The history has the name `N` from now on.
    pub fn new(alloc: Global, begun: Begun<D>) -> Result<SharedShard<D, N>, AllocError>
        requires { begun ≡ N.index }
    {
        let label = begun.label::<N>(alloc)?;
        let (to_merger, orders) = unbounded(alloc)?;
        let kept = Kept::of(begun);
        let seen = Seen::of(&kept);
        let begun = kept.reached();
        Ok(SharedShard {
            alloc,
            label,
            shard: Mutex::new(kept),
            bulk_turn: Mutex::new(()),
            door: Mutex::new(()),
            seen: Mutex::new(seen),
            begun,
            merges: Mutex::new(Merges {
                is_under_way: false,
                few: FEW_SEGMENTS,
            }),
            to_merger,
            orders,
        })
    }

    /// The name of the index.
    pub fn index(&self) -> &str
        ensures { result.now ≡ N.index.name }
    {
        self.label.name()
    }

    /// The mapping of the index.
    pub fn mapping(&self) -> &Mapping
        ensures { result.now ≡ N.index.mapping }
    {
        self.label.mapping()
    }

    /// What a client knows of the history before its first reply.
    pub fn begun(&self) -> Reached<D, N> {
        self.begun.again()
    }

    /// What searches see.
    fn seen<R: Wait>(&self, rt: &R) -> Option<Seen<D, N>> {
        let held = self.seen.lock(rt);
        match &*held {
            Some(seen) => seen.again().ok(),
            None => None,
        }
    }

    /// The reply to a search or a count, from what searches see; `None` for another command, if there is nothing to see, or if the client knows more.
    fn reply_to<R: Wait>(
        &self,
        rt: &R,
        known: &Reached<D, N>,
        command: &Command,
    ) -> Option<(Reply, Reached<D, N>)>
        ensures { IfSome result (λ r. IsLooked known.now (command_view command.now) (reply_view r.0) r.1) }
    {
        if !is_search(command) {
            return None;
        }
        let Some(seen) = self.seen(rt) else {
            return None;
        };
        seen.reply_to(self.alloc, known, command)
    }

    /// How the index stands. If its copy isn't open, no document is counted.
    fn stats<R: Wait>(&self, rt: &R) -> Result<Stats, AllocError> {
        let (status, is_in_sync) = self.enter(rt).status();
        match self.seen(rt) {
            Some(seen) => stats_of(self.alloc, status, is_in_sync, Some(&seen.snapshot)),
            None => stats_of(self.alloc, status, is_in_sync, None),
        }
    }

    /// Has the index carry out a command, and shows searches what the index shows then. The command is made ready for the copy before the lock is taken.
    fn call<R: Wait>(
        &self,
        rt: &R,
        known: &Reached<D, N>,
        command: Command,
    ) -> (Reply, Reached<D, N>)
        ensures { IsDone known.now (command_view command) (reply_view result.0) result.1 }
    {
        let refreshes = is_refresh(&command);
        let is_bulk = is_bulk(&command);
        let asked = Asked::of(self.alloc, command);
        let _turn = self.turn(rt, is_bulk);
        let mut held = self.enter(rt);
        let told = held.call(known, asked);
        drop(self.show(rt, &*held));
        if refreshes {
            self.merge_to(rt, &mut *held, FEW_SEGMENTS);
        }
        told
    }

    /// The index, locked. The thread waits at the door first, until it is next.
    fn enter<R: Wait>(&self, rt: &R) -> MutexGuard<'_, Kept<D, N>> {
        let door = self.door.lock(rt);
        let held = self.shard.lock(rt);
        drop(door);
        held
    }

    /// Waits for the turn of a bulk. Another command needs no turn.
    fn turn<R: Wait>(&self, rt: &R, is_bulk: bool) -> Option<MutexGuard<'_, ()>> {
        if is_bulk {
            Some(self.bulk_turn.lock(rt))
        } else {
            None
        }
    }

    /// Shows searches what is written when this is called, if that is much: the builder builds it while commands go on. Returns whether they see it; if not, a
    /// refresh has to show it.
    pub fn show_more<
        R: Wait,
        F: Fn(Global, &Arc<Mapping, Global>, Vec<Source>) -> Result<Segment, AllocError>,
    >(&self, rt: &R, builder: &F) -> bool
        requires { Builds F.Fn builder.now }
    {
        let Some(unshown) = self.begin_refresh(rt) else {
            return false;
        };
        // `unshown` lives until the lock is free again: what it keeps is dropped after that, not under the lock.
        match unshown.build(builder) {
            Ok(prebuilt) => self.finish_refresh(rt, prebuilt),
            Err(_) => false,
        }
    }

    /// Shows searches all that was written, for a client that knows this much of the history.
    pub fn refresh<R: Wait>(&self, rt: &R, known: &Reached<D, N>) -> (Reply, Reached<D, N>)
        ensures { IsDone known.now refresh (reply_view result.0) result.1 }
    {
        self.call(rt, known, Command::Refresh)
    }

    /// Begins a refresh whose segment is built while commands go on, if much has to be built.
    fn begin_refresh<R: Wait>(&self, rt: &R) -> Option<Unshown> {
        let mut held = self.enter(rt);
        match held.begin_refresh() {
            Ok(unshown) => unshown,
            Err(_) => None,
        }
    }

    /// Shows searches what was there when the refresh began, and returns whether they see it now.
    fn finish_refresh<R: Wait>(&self, rt: &R, prebuilt: Prebuilt) -> bool {
        // What they saw before is dropped while commands go on.
        match self.put_refresh(rt, prebuilt) {
            Some(before) => {
                drop(before);
                true
            }
            None => false,
        }
    }

    /// Shows searches what was there when the refresh began, and returns what they saw before; `None` if that couldn't be shown.
    fn put_refresh<R: Wait>(&self, rt: &R, prebuilt: Prebuilt) -> Option<Option<Seen<D, N>>> {
        let mut held = self.enter(rt);
        let is_shown = held.finish_refresh(prebuilt).ok()?;
        if !is_shown {
            return None;
        }
        let before = self.show(rt, &*held);
        self.merge_to(rt, &mut *held, FEW_SEGMENTS);
        Some(before)
    }

    /// Shows searches what the index shows now, and returns what they saw before.
    fn show<R: Wait>(&self, rt: &R, kept: &Kept<D, N>) -> Option<Seen<D, N>> {
        let next = Seen::of(kept);
        self.replace(rt, next)
    }

    /// Shows searches this, and returns what they saw before.
    fn replace<R: Wait>(&self, rt: &R, next: Option<Seen<D, N>>) -> Option<Seen<D, N>> {
        let mut held = self.seen.lock(rt);
        let before = held.take();
        *held = next;
        before
    }

    /// Has segments merged until few are left. It is for an index at rest: each merge writes documents again.
    pub fn rest<R: Wait>(&self, rt: &R) {
        let mut held = self.enter(rt);
        self.merge_to(rt, &mut *held, FEW_AT_REST);
    }

    /// Has segments merged, one merge after another, until there are no more than so few.
    fn merge_to<R: Wait>(&self, rt: &R, kept: &mut Kept<D, N>, few: usize)
        ensures { kept.new ≡ kept.old }
    {
        self.note_few(rt, few);
        self.begin_merge(rt, kept);
    }

    /// Notes how many segments merges leave from now on.
    fn note_few<R: Wait>(&self, rt: &R, few: usize) {
        let mut merges = self.merges.lock(rt);
        merges.few = few;
    }

    /// Has a merge built if there are more segments than merges leave and none is being built. If memory runs out for that, the next refresh tries again.
    fn begin_merge<R: Wait>(&self, rt: &R, kept: &mut Kept<D, N>)
        ensures { kept.new ≡ kept.old }
    {
        let mut merges = self.merges.lock(rt);
        if merges.is_under_way {
            return;
        }
        if let Ok(Some(merging)) = kept.begin_merge(merges.few) {
            merges.is_under_way = self.to_merger.send(rt, Order::Build(merging)).is_ok();
        }
    }

    /// Builds merges while commands go on, and puts them in place, until `end_merges` ends it.
    pub fn merge_beside<R: Wait>(&self, rt: &R) {
        for _ in rt.forever() {
            let Ok(Order::Build(merging)) = self.orders.recv(rt) else {
                break;
            };
            let merged = merging.build(self.alloc).ok();
            drop(merging);
            self.put_merged(rt, merged);
        }
    }

    /// Ends `merge_beside`, once it has built the merge at hand.
    pub fn end_merges<R: Wait>(&self, rt: &R) {
        let _ = self.to_merger.send(rt, Order::End);
    }

    /// Puts a built merge in place, and begins the next one. A merge whose segments are gone is dropped.
    fn put_merged<R: Wait>(&self, rt: &R, merged: Option<Merged>) {
        let before = self.finish_merge(rt, merged.is_some());
        // The segments that it replaced are dropped while commands go on.
        drop(before);
        drop(merged);
    }

    /// Puts the merge in place, begins the next one, and returns what searches saw before.
    fn finish_merge<R: Wait>(&self, rt: &R, is_built: bool) -> Option<Seen<D, N>> {
        let mut held = self.enter(rt);
        self.note_built(rt);
        if !is_built || held.finish_merge().is_err() {
            return None;
        }
        let before = self.show(rt, &*held);
        self.begin_merge(rt, &mut *held);
        before
    }

    /// Notes that no merge is being built any more.
    fn note_built<R: Wait>(&self, rt: &R) {
        let mut merges = self.merges.lock(rt);
        merges.is_under_way = false;
    }
}

/// An index of one copy, as one thread that serves connections has it, with what the client that it serves knows of the index's history. Searches and counts
/// see what the index showed when the last command ended, and wait for no other command.
#[derive(Drop)]
pub struct Desk<'a, R: Wait, D: LogDevice, N: HistoryName> {
    pub rt: &'a R,
    pub shard: &'a SharedShard<D, N>,
    pub known: Reached<D, N>,
}

impl<'a, R: Wait, D: LogDevice, N: HistoryName> Service for Desk<'a, R, D, N> {
    ghost use Rattle.shard.specs.History.{IsTold};

    ghost name = { λ _. N.index.name };

    ghost fields = { λ _. N.index.mapping };

    ghost answers = { λ d c r e. IsTold d.known c r e.known };

    fn index(&self) -> &str {
        self.shard.index()
    }

    fn mapping(&self) -> &Mapping {
        self.shard.mapping()
    }

    fn stats(&self) -> Option<Stats> {
        self.shard.stats(self.rt).ok()
    }

    fn call(&mut self, command: Command) -> Reply {
        let (reply, known) = match self.shard.reply_to(self.rt, &self.known, &command) {
            Some(told) => told,
            None => self.shard.call(self.rt, &self.known, command),
        };
        self.known = known;
        reply
    }
}

impl<'a, R: Wait, D: LogDevice, N: HistoryName> Resumable for Desk<'a, R, D, N> {
    type Known = Reached<D, N>;

    ghost knows = { λ d. d.known };

    fn known(&self) -> Reached<D, N> {
        self.known.again()
    }

    fn resume(&mut self, known: &Option<Reached<D, N>>) {
        if let Some(known) = known {
            self.known = known.again();
        }
    }
}
