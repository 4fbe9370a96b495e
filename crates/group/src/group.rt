//! An index of several copies, each on a thread of its own.
ghost use Rattle.std.specs.Prelude.{◌≡◌, map, Err, IfOk, IfErr, IfSome};
ghost use Rattle.query.specs.View.{query_view};
ghost use Rattle.engine.specs.Shown.{hits_view};
ghost use Rattle.front.specs.CommandView.{command_view};
ghost use Rattle.front.specs.ReplyView.{reply_view};
ghost use Rattle.cell.specs.Points.{IsShownBehind};
ghost use Rattle.cluster.specs.Bulks.{IsBulkRefused};
ghost use Rattle.cluster.specs.Confirmed.{IsWriteRefused};
ghost use Rattle.front.specs.declared.reply.Refusal.TheVariants.{VersionConflict};
ghost use Rattle.replica.specs.declared.fault.CopyFault.TheVariants.{VersionConflict as Conflict};
ghost use Rattle.shard.specs.Answering as spec;
ghost use Rattle.group.specs.Group.{counted_in, told_by, IsBulkWritten, IsConflict, IsDone, IsFaultOf, IsGot, IsOfCluster, IsPromoted, IsWritten};
ghost use Rattle.group.specs.Known.{IsLedBehind};
ghost use Rattle.group.specs.Searching.{IsCounted, IsFound, IsFoundAt};

use crate::bulks::{heard_behind, told_bulk};
use crate::known::{Known, is_ahead};
use crate::promoting::{Promotion, is_promotion, promoted, refusal_to};
use crate::searching::{Chair, reply_with};
use cell::{FoundAt, IndexLabel, IndexName};
use cluster::{Client, ClusterFault, Confirmed, ConfirmedBulk, WriteFault};
use doc::{DocId, Mapping};
use front::command::{Command, Write};
use front::reply::{Refusal, Reply};
use front::{Resumable, Service, Stats};
use node::{Heard, Receipt};
use query::{Page, Query, SearchBody};
use replica::{CopyFault, Output, Writes};
use ruled::{Leading, Past};
use shard::answering::{copy_stats, refusal_of, reply_in, write_of, writes_of};
use std::alloc::Global;
use std::sync::Wait;
use translog::LogDevice;

/// An index of several copies, as one thread has it. The primary answers writes and gets. A search looks at what the primary has published, by a searcher that
/// waits for no copy. A refresh refreshes each copy.
#[derive(Drop)]
pub struct Group<'a, R: Wait + Drop, D: LogDevice, J: IndexName> {
    pub rt: &'a R,
    pub alloc: Global,
    pub label: &'a IndexLabel<J>,
    pub client: &'a Client<R, D, J>,
    /// Where the searcher of the last search is kept.
    pub chair: &'a Chair<J>,
    /// How many copies the index is to have.
    pub copies: u32,
    /// What the client that is served knows.
    pub known: Known<J>,
}

impl<'a, R: Wait + Drop, D: LogDevice, J: IndexName> Service for Group<'a, R, D, J> {
    ghost use Rattle.group.specs.Group.{IsTold};

    ghost name = { λ g. J.index.name };

    ghost fields = { λ g. J.index.mapping };

    ghost answers = { λ g c r h. IsTold J J.index.mapping g.known c r h.known };

    fn index(&self) -> &str {
        self.label.name()
    }

    fn mapping(&self) -> &Mapping {
        self.label.mapping()
    }

    fn stats(&self) -> Option<Stats> {
        self.stats_now().ok()
    }

    #[tactic(auto, using(crate::proofs::Refusing::is_refused))]
    fn call(&mut self, command: Command) -> Reply {
        let promotes = is_promotion(&command);
        match self.answer(command) {
            Ok((reply, known)) => {
                self.known = known;
                reply
            }
            Err(fault) => Reply::Refused(refusal_of_write(promotes, &fault)),
        }
    }
}

impl<'a, R: Wait + Drop, D: LogDevice, J: IndexName> Resumable for Group<'a, R, D, J> {
    type Known = Known<J>;

    ghost knows = { λ g. g.known };

    fn known(&self) -> Known<J> {
        self.known.again()
    }

    fn resume(&mut self, known: &Option<Known<J>>) {
        if let Some(known) = known {
            self.known = known.again();
        }
    }
}

impl<'a, R: Wait + Drop, D: LogDevice, J: IndexName> Group<'a, R, D, J> {
    /// Has the copies carry out a command. Returns the reply, and what the client knows then.
    fn answer(&self, command: Command) -> Result<(Reply, Known<J>), WriteFault<J>>
        ensures done { IfOk result (λ r. IsDone J J.index.mapping self.now.known (command_view command) (reply_view r.0) r.1) }
        ensures refused { IfErr result (IsFaultOf (command_view command)) }
    {
        match command {
            Command::Write(write) => self.write(write),
            Command::Bulk(writes) => self.bulk(writes),
            Command::Get(id) => Ok(self.get(id)?),
            Command::Search(body) => Ok(self.search(&body)?),
            Command::Count(query) => Ok(self.count(&query)?),
            Command::Refresh => Ok(self.refresh()?),
            Command::Promote(copy) => Ok(self.promote(copy)?),
        }
    }

    /// Has the primary do a write, and waits until each member has it. Then refreshes the copies, if the write asks for that.
    fn write(&self, write: Write) -> Result<(Reply, Known<J>), WriteFault<J>>
        ensures done { IfOk result (λ r. IsWritten J self.now.known write (reply_view r.0) r.1) }
        ensures refused { IfErr result (IsWriteRefused (spec.write_of write)) }
    {
        let refresh = write.refresh;
        let confirmed = self.client.write(self.rt, write_of(write))?;
        if !is_ahead(self.known.heard(), &confirmed.write) {
            return Err(stray(confirmed));
        }
        let known = self.known.hears(Heard::by(&confirmed.acknowledgement));
        match self.refresh_where(refresh, known) {
            Ok(known) => Ok((told(confirmed), known)),
            Err(fault) => {
                drop(confirmed);
                Err(WriteFault::Cluster(fault))
            }
        }
    }

    /// Has the primary do the writes of a bulk in one step, and waits until each member has those that were kept.
    fn bulk(&self, writes: Vec<Write>) -> Result<(Reply, Known<J>), WriteFault<J>>
        ensures done { IfOk result (λ r. IsBulkWritten J self.now.known writes.items (reply_view r.0) r.1) }
        ensures refused { IfErr result (IsBulkRefused (map spec.write_of writes.items)) }
    {
        let Some(writes) = Writes::of(writes_of(self.alloc, writes)?) else {
            return Err(WriteFault::Cluster(ClusterFault::Copy(CopyFault::Mismatch)));
        };
        let confirmed = self.client.bulk(self.rt, writes)?;
        if !is_ahead(self.known.heard(), &confirmed.bulk) {
            return Err(stray_bulk(confirmed));
        }
        let Some(heard) = heard_behind(&confirmed) else {
            return Err(stray_bulk(confirmed));
        };
        let reply = told_bulk(self.alloc, confirmed)?;
        Ok((reply, self.known.hears(heard)))
    }

    #[tactic(auto, using(crate::proofs::Seeing::is_got))]
    fn get(&self, id: DocId) -> Result<(Reply, Known<J>), ClusterFault>
        ensures { IfOk result (λ r. IsGot self.now.known id (reply_view r.0) r.1) }
    {
        let Leading { primary, past } = self.leader()?;
        let got = self.client.get(self.rt, primary, id)?;
        if !self.known.is_in(&got) {
            return Err(ClusterFault::Stray(got.place()));
        }
        let known = self.known.gets(&got);
        Ok((reply_in(got.into_answer(), 0), known.follows(past)))
    }

    #[tactic(auto, using(crate::proofs::Found::found_seen))]
    fn search(&self, body: &SearchBody) -> Result<(Reply, Known<J>), ClusterFault>
        ensures { IfOk result (λ r. IsFound J.index.mapping self.now.known (query_view body.now.query) body.now.page (reply_view r.0) r.1) }
    {
        let Looked { found, past } = self.look(&body.query, body.page)?;
        let FoundAt { hits, point } = found;
        let known = self.known.sees(&point, past);
        Ok((reply_with(self.alloc, hits)?, known))
    }

    /// How many documents match a query.
    #[tactic(auto, using(crate::proofs::Found::counted_seen))]
    fn count(&self, query: &Query) -> Result<(Reply, Known<J>), ClusterFault>
        ensures { IfOk result (λ r. IsCounted J.index.mapping self.now.known (query_view query.now) (reply_view r.0) r.1) }
    {
        let Ok(page) = Page::new(0, 0) else {
            return Err(ClusterFault::NoMemory);
        };
        let Looked { found, past } = self.look(query, page)?;
        let FoundAt { hits, point } = found;
        let known = self.known.sees(&point, past);
        Ok((Reply::Counted(hits.total), known))
    }

    /// Has the master make a copy the primary.
    fn promote(&self, copy: u32) -> Result<(Reply, Known<J>), ClusterFault>
        ensures { IfOk result (λ r. IsPromoted self.now.known copy (reply_view r.0) r.1) }
    {
        let Promotion { reply, past } = promoted(self.rt, self.client, copy)?;
        if !self.known.is_followed_by(&past) {
            drop(reply);
            return Err(ClusterFault::Stray(0));
        }
        Ok((reply, self.known.follows(past)))
    }

    /// How the index stands. While no copy leads, no document is counted.
    fn stats_now(&self) -> Result<Stats, ClusterFault> {
        let state = self.client.state(self.rt)?.state;
        let mut served = Vec::new(self.alloc);
        for status in self.client.statuses(self.rt)? {
            served.push(copy_stats(status, state.in_sync.has(status.copy)))?;
        }
        Ok(Stats {
            documents: self.documents(),
            copies: self.copies,
            served,
        })
    }

    /// How many documents searches find, if a copy leads.
    fn documents(&self) -> Option<u64> {
        let Ok(page) = Page::new(0, 0) else {
            return None;
        };
        match self.look(&Query::MatchAll, page) {
            Ok(looked) => Some(looked.found.hits.total),
            Err(_) => None,
        }
    }

    /// The primary after a past of the master that extends what the client knows of it, as each past does.
    fn leader(&self) -> Result<Leading<J>, ClusterFault>
        ensures { IfOk result (λ l. IsLedBehind self.now.known.past l.primary l.past) }
    {
        let leading = self.client.primary(self.rt);
        if self.known.is_followed_by(&leading.past) {
            Ok(leading)
        } else {
            Err(ClusterFault::Stray(0))
        }
    }

    /// What a search at the primary finds. Its place in the journal isn't before the one that the client saw last; none ever is.
    fn look(&self, query: &Query, page: Page) -> Result<Looked<J>, ClusterFault>
        ensures found { IfOk result (λ l. IsFoundAt J.index.mapping (query_view query.now) page (hits_view l.found.hits) l.found.point) }
        ensures led { IfOk result (λ l. IsLedBehind self.now.known.past l.found.point.node l.past) }
        ensures later { IfOk result (λ l. IfSome self.now.known.seen (λ h. IsShownBehind h l.found.point)) }
    {
        let Leading { primary, past } = self.leader()?;
        let found = self
            .chair
            .search(self.rt, self.alloc, self.client, primary, query, page)?;
        if self.known.is_shown_by(&found.point) {
            Ok(Looked { found, past })
        } else {
            Err(ClusterFault::Stray(found.point.entries()))
        }
    }
}

/// What a search found at a copy, and the past of the master after which this copy is the primary.
#[derive(Drop)]
struct Looked<J: IndexName> {
    found: FoundAt<J>,
    past: Past<J>,
}

/// The fault of a write whose entry doesn't stand after all that the client knows. That never happens.
fn stray<J: IndexName>(confirmed: Confirmed<J>) -> WriteFault<J>
    ensures { IsOfCluster result }
{
    let place = confirmed.write.place();
    drop(confirmed);
    WriteFault::Cluster(ClusterFault::Stray(place))
}

/// The fault of a bulk whose entry doesn't stand after all that the client knows, or whose acknowledgements aren't of its journal. That never happens.
fn stray_bulk<J: IndexName>(confirmed: ConfirmedBulk<J>) -> WriteFault<J>
    ensures { IsOfCluster result }
{
    let place = confirmed.bulk.place();
    drop(confirmed);
    WriteFault::Cluster(ClusterFault::Stray(place))
}

/// The reply that reports a confirmed write.
fn told<J: IndexName>(confirmed: Confirmed<J>) -> Reply
    ensures { reply_view result ≡ told_by confirmed.write.deed.answer (counted_in confirmed.acknowledgement.deed.answer) }
{
    let Confirmed {
        write,
        acknowledgement,
    } = confirmed;
    let copies = counted_in(&acknowledgement);
    drop(acknowledgement);
    told_in(write, copies)
}

/// How many copies an entry counts.
pub(crate) fn counted_in<J: IndexName>(receipt: &Receipt<J>) -> u64
    ensures { result ≡ counted_in receipt.now.deed.answer }
{
    match &receipt.deed().answer {
        Ok(output) => output.members as u64,
        Err(_) => 0,
    }
}

/// The reply that reports an entry, and this number of copies.
fn told_in<J: IndexName>(receipt: Receipt<J>, copies: u64) -> Reply
    ensures { reply_view result ≡ told_by receipt.deed.answer copies }
{
    reply_to(receipt.into_deed().answer, copies)
}

/// The reply that reports what a copy answered, and this number of copies.
#[tactic(auto, unfolding(crate::specs::Group::told_by))]
fn reply_to(answer: Result<Output, CopyFault>, copies: u64) -> Reply
    ensures { reply_view result ≡ told_by answer copies }
{
    match answer {
        Ok(output) => reply_in(output.answer, copies),
        Err(fault) => Reply::Refused(refusal_of(&fault)),
    }
}

/// The refusal that says why a write isn't confirmed. A write that nobody acknowledges may still be kept.
fn refusal_of_write<J: IndexName>(promotes: bool, fault: &WriteFault<J>) -> Refusal
    ensures { result ≡ VersionConflict → IsConflict fault.now }
{
    match fault {
        WriteFault::NoPrimary(_) | WriteFault::Lost(_, _) | WriteFault::Unconfirmed(_) => {
            Refusal::NotPrimary
        }
        WriteFault::Refused(receipt) => refusal_in(receipt),
        WriteFault::Cluster(fault) => without_entry(refusal_to(promotes, fault)),
    }
}

/// The refusal that an entry shows.
#[tactic(auto, using(crate::proofs::Refusing::conflict_of))]
fn refusal_in<J: IndexName>(receipt: &Receipt<J>) -> Refusal
    ensures { result ≡ VersionConflict → receipt.now.deed.answer ≡ Err Conflict }
{
    match &receipt.deed().answer {
        Ok(_) => Refusal::Mismatch,
        Err(fault) => refusal_of(fault),
    }
}

/// A refusal that no entry shows, which is no conflict. That never happens.
fn without_entry(refusal: Refusal) -> Refusal
    ensures { result ≡ VersionConflict → ⊥ }
{
    match refusal {
        Refusal::VersionConflict => Refusal::Mismatch,
        other => other,
    }
}

/// The refusal that says why copies give no answer.
pub(crate) fn refusal_by(fault: &ClusterFault) -> Refusal {
    match fault {
        ClusterFault::Master(_) => Refusal::NotPrimary,
        ClusterFault::NoMemory | ClusterFault::NoSeat => Refusal::NoMemory,
        ClusterFault::Copy(fault) => refusal_of(fault),
        ClusterFault::Stray(_) => Refusal::Mismatch,
        ClusterFault::Running | ClusterFault::Unopened(_) => Refusal::Closed,
    }
}
