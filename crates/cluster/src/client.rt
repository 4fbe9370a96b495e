//! What callers ask the copies of a cluster by.
ghost use Rattle.std.specs.Prelude.{◌≡◌, ◌+◌, None, IsOk, IfOk, IfErr, IfSome, OnOk};
ghost use Rattle.master.specs.declared.state.Request.TheVariants.{Promote};
ghost use Rattle.node.specs.Entry.{IsEntry};
ghost use Rattle.node.specs.Reading.{IsGot};
ghost use Rattle.cluster.specs.Refreshed.{AreAbove, AreRefreshed, AreSoFar, IsRefreshOf};
ghost use Rattle.ruled.specs.Entries.{IsDecided, IsKnown, IsLeading};
ghost use Rattle.cluster.specs.Confirmed.{IsAcknowledgedWrite, IsAnswerTo, IsConfirmed, IsEndOf, IsRefusalBy, IsWriteRefused};

use crate::checks::{
    acknowledges, is_answer_to, is_behind, is_ended_by, is_no_primary, is_of_write, refusal_in,
    written_in,
};
use crate::confirmed::Confirmed;
use crate::fault::{ClusterFault, WriteFault};
use crate::locks::CopyLocks;
use crate::post::{Answered, Ending, Post};
use crate::refreshed::Refreshed;
use crate::shared::Shared;
use cell::{CopySearcher, IndexName};
use crossbeam_channel::{Receiver, bounded};
use doc::DocId;
use master::{MasterFault, Request, State};
use node::{Got, Receipt};
use replica::{CopyStatus, Input, Write, Written};
use ruled::{Decided, Known, Leading};
use std::alloc::{AllocError, Global};
use std::sync::{Arc, Wait};
use translog::LogDevice;

/// Asks the copies of a cluster, from any thread. A cluster gives it out, and ends what it asks.
pub struct Client<R: Wait + Drop, D: LogDevice, J: IndexName> {
    pub(crate) alloc: Global,
    pub(crate) shared: Arc<Shared<D, J>, Global>,
    pub(crate) locks: CopyLocks<R, D, J>,
}

impl<R: Wait + Drop, D: LogDevice, J: IndexName> Drop for Client<R, D, J> {
    fn drop(self) {
        let Client {
            alloc: _,
            shared: _shared,
            locks: _locks,
        } = self;
    }
}

impl<R: Wait + Drop, D: LogDevice, J: IndexName> Client<R, D, J> {
    /// What it asks.
    pub(crate) fn into_shared(self) -> Arc<Shared<D, J>, Global>
        ensures { result ≡ self.shared }
    {
        let Client {
            alloc: _,
            shared,
            locks: _locks,
        } = self;
        shared
    }

    /// Has the primary do a write, and waits until every member has it. Where there is no primary since the master could make none, its fault says why.
    pub fn write(&self, rt: &R, write: Write) -> Result<Confirmed<J>, WriteFault<J>>
        ensures confirmed { IfOk result (IsConfirmed write) }
        ensures refused { IfErr result (IsWriteRefused write) }
    {
        let primary = self.shared.primary(rt);
        let asked = write.copy(self.alloc)?;
        let begun = self.begin(rt, primary, asked)?;
        match confirmed(rt, begun, primary, &write) {
            Ok(done) => Ok(done),
            Err(fault) => Err(self.or_unled(rt, &write, fault)),
        }
    }

    /// A write's refusal; in place of one for want of a primary the master's fault, where it could make none.
    fn or_unled(&self, rt: &R, write: &Write, fault: WriteFault<J>) -> WriteFault<J>
        requires { IsWriteRefused write.now fault }
        ensures { IsWriteRefused write.now result }
    {
        if let WriteFault::NoPrimary(_) = &fault {
            if let Some(why) = self.shared.unled(rt) {
                drop(fault);
                return WriteFault::Cluster(ClusterFault::from(why));
            }
        }
        fault
    }

    /// Hands a write to a copy.
    fn begin(&self, rt: &R, copy: u32, write: Write) -> Result<Begun<J>, ClusterFault> {
        let (first, answers) = bounded(self.alloc, 1)?;
        let (second, endings) = bounded(self.alloc, 1)?;
        self.mail(rt, copy, Post::Write(write, first, second))?;
        Ok(Begun { answers, endings })
    }

    /// What a copy has of an id, of all its records. It leaves no entry.
    pub fn get(&self, rt: &R, copy: u32, id: DocId) -> Result<Got<J>, ClusterFault>
        ensures { IfOk result (λ g. IsGot g × (g.node ≡ copy) × (g.id ≡ id)) }
    {
        let asked = id.copy(self.alloc)?;
        let (to, answers) = bounded(self.alloc, 1)?;
        self.ask(rt, copy, Post::Get(asked, to))?;
        match answers.recv(rt) {
            Ok(Ok(got)) => got_of(got.into_inner(), copy, &id),
            Ok(Err(fault)) => Err(ClusterFault::from(fault)),
            Err(_) => Err(ClusterFault::NoMemory),
        }
    }

    /// Has a copy do a get or a refresh, and waits for its entry.
    pub fn call(&self, rt: &R, copy: u32, input: Input) -> Result<Receipt<J>, ClusterFault>
        ensures { IfOk result (λ r. IsAnswerTo copy input r × IsEntry r × IsOk r.deed.answer) }
    {
        let asked = input.copy(self.alloc)?;
        let receipt = self.entry(rt, copy, asked)?;
        answered(receipt, copy, &input)
    }

    /// Hands an input to a copy, and waits for its entry.
    fn entry(&self, rt: &R, copy: u32, input: Input) -> Result<Receipt<J>, ClusterFault> {
        let (to, answers) = bounded(self.alloc, 1)?;
        self.mail(rt, copy, Post::Ask(input, to))?;
        received(rt, &answers)
    }

    /// Has a copy answer a get: on this thread, or else on the copy's own. It may come before the mail that the copy has.
    fn ask(&self, rt: &R, copy: u32, post: Post<J>) -> Result<(), ClusterFault> {
        let Some(lock) = self.locks.of(rt, copy) else {
            return self.mail(rt, copy, post);
        };
        match lock.done(rt, post) {
            None => Ok(()),
            Some(post) => self.mail(rt, copy, post),
        }
    }

    /// Hands a post to the thread of a copy.
    pub(crate) fn mail(&self, rt: &R, copy: u32, post: Post<J>) -> Result<(), ClusterFault> {
        if self.shared.hand(rt, copy, post) {
            Ok(())
        } else {
            Err(ClusterFault::Master(MasterFault::NotInSync))
        }
    }

    /// A searcher of a copy, which sees what the copy shows from then on, and waits for nobody. Eight are given out at once, else `NoSeat`; one that
    /// is dropped makes room.
    pub fn searcher(&self, rt: &R, copy: u32) -> Result<CopySearcher<J>, ClusterFault>
        ensures { IfOk result (λ s. s.node ≡ copy) }
    {
        let (to, answers) = bounded(self.alloc, 1)?;
        if !self.shared.hand(rt, copy, Post::Seat(to)) {
            return Err(ClusterFault::Master(MasterFault::NotInSync));
        }
        let Ok(answer) = answers.recv(rt) else {
            return Err(ClusterFault::NoMemory);
        };
        let searcher = answer?;
        if searcher.node() == copy {
            Ok(searcher)
        } else {
            Err(ClusterFault::Stray(0))
        }
    }

    /// Refreshes each copy that isn't gone, and gives the entries of those in sync, in the order of their ids. One that is closed is passed over.
    #[tactic(auto, using(crate::proofs::Refreshes::are_refreshed))]
    pub fn refresh(&self, rt: &R) -> Result<Refreshed<J>, ClusterFault>
        ensures { IfOk result (λ r. AreRefreshed r.past r.primary r.entries.items) }
    {
        let Known { state, past } = self.state(rt)?;
        let entries = self.refreshed_in(rt, &state)?;
        Ok(Refreshed {
            entries,
            primary: state.primary,
            past,
        })
    }

    /// The entries by which the copies are refreshed that are in sync.
    #[tactic(auto, using(crate::proofs::Refreshes::none_so_far, crate::proofs::Refreshes::all_so_far))]
    fn refreshed_in(&self, rt: &R, state: &State) -> Result<Vec<Receipt<J>>, ClusterFault>
        ensures { IfOk result (λ rs. AreAbove state.now 0 rs.items) }
    {
        let mut entries = Vec::new(self.alloc);
        for copy in 1..state.next {
            self.add_refresh(rt, state, copy, &mut entries)?;
        }
        Ok(entries)
    }

    /// Refreshes a copy that isn't gone, and adds its entry where it is in sync.
    #[tactic(auto, using(crate::proofs::Refreshes::no_more))]
    fn add_refresh(
        &self,
        rt: &R,
        state: &State,
        copy: u64,
        entries: &mut Vec<Receipt<J>>,
    ) -> Result<(), ClusterFault>
        requires { AreSoFar state.now copy entries.old.items }
        ensures { OnOk result (AreSoFar state.now (copy + 1) entries.new.items) }
    {
        let Ok(id) = u32::try_from(copy) else {
            return Ok(());
        };
        if state.gone.has(id) {
            return Ok(());
        }
        let Some(entry) = self.refreshed(rt, id)? else {
            return Ok(());
        };
        add_entry(state, id, entry, entries)?;
        Ok(())
    }

    /// The entry by which a copy is refreshed; nothing where it refuses.
    #[tactic(auto, using(crate::proofs::Refreshes::refreshed_by))]
    fn refreshed(&self, rt: &R, copy: u32) -> Result<Option<Receipt<J>>, ClusterFault>
        ensures { IfOk result (λ o. IfSome o (IsRefreshOf copy)) }
    {
        match self.call(rt, copy, Input::Refresh) {
            Ok(receipt) => Ok(Some(receipt)),
            Err(fault) => passed_over(fault),
        }
    }

    /// Has the master make a copy the primary.
    pub fn promote(&self, rt: &R, copy: u32) -> Result<Decided<J>, ClusterFault>
        ensures { IfOk result (λ d. IsDecided (Promote copy) d.decision d.past) }
    {
        Ok(self.shared.ask(rt, self.alloc, 0, Request::Promote(copy))?)
    }

    /// How each copy stands that is served. One is asked after the other, and each waits for what its copy does just then.
    pub fn statuses(&self, rt: &R) -> Result<Vec<CopyStatus>, ClusterFault> {
        let mut statuses = Vec::new(self.alloc);
        for copy in self.locks.copies(rt, self.alloc)? {
            if let Some(lock) = self.locks.of(rt, copy) {
                if let Some(status) = lock.status(rt) {
                    statuses.push(status)?;
                }
            }
        }
        Ok(statuses)
    }

    /// The primary, as the master knows it.
    pub fn primary(&self, rt: &R) -> Leading<J>
        ensures { IsLeading result.past result.primary }
    {
        self.shared.leading(rt)
    }

    /// What the master knows.
    pub fn state(&self, rt: &R) -> Result<Known<J>, ClusterFault>
        ensures { IfOk result (λ k. IsKnown k.past k.state) }
    {
        Ok(self.shared.known(rt, self.alloc)?)
    }
}

/// The channel of a write's entry, and the one that says how the write ends.
#[derive(Drop)]
struct Begun<J: IndexName> {
    answers: Receiver<Answered<J>, Global>,
    endings: Receiver<Ending<J>, Global>,
}

/// Adds the entry by which a copy was refreshed, where it is in sync.
#[tactic(auto, using(crate::proofs::Refreshes::no_more))]
fn add_entry<J: IndexName>(
    state: &State,
    copy: u32,
    entry: Receipt<J>,
    entries: &mut Vec<Receipt<J>>,
) -> Result<(), AllocError>
    requires so_far { AreSoFar state.now copy entries.old.items }
    requires refreshed { IsRefreshOf copy entry }
    ensures { OnOk result (AreSoFar state.now (copy + 1) entries.new.items) }
{
    if !state.in_sync.has(copy) {
        drop(entry);
        return Ok(());
    }
    entries.push(entry)?;
    Ok(())
}

/// Passes over a copy that refused, as not refreshed; only `NoMemory` is a refusal.
fn passed_over<J: IndexName>(fault: ClusterFault) -> Result<Option<Receipt<J>>, ClusterFault>
    ensures { IfOk result (λ o. o ≡ None) }
{
    if let ClusterFault::NoMemory = &fault {
        return Err(fault);
    }
    drop(fault);
    Ok(None)
}

/// The entry that a worker answers with.
pub(crate) fn received<R: Wait, J: IndexName>(
    rt: &R,
    answers: &Receiver<Answered<J>, Global>,
) -> Result<Receipt<J>, ClusterFault> {
    match answers.recv(rt) {
        Ok(Ok(entry)) => Ok(entry.into_inner()),
        Ok(Err(fault)) => Err(ClusterFault::from(fault)),
        Err(_) => Err(ClusterFault::NoMemory),
    }
}

/// The entry, where it is the one that was asked for, and not a refusal.
fn answered<J: IndexName>(
    receipt: Receipt<J>,
    copy: u32,
    input: &Input,
) -> Result<Receipt<J>, ClusterFault>
    ensures { IfOk result (λ r. IsAnswerTo copy input.now r × IsEntry r × IsOk r.deed.answer) }
{
    if !is_answer_to(&receipt, copy, input) {
        return Err(ClusterFault::Stray(receipt.place()));
    }
    match refusal_in(&receipt) {
        Some(fault) => Err(ClusterFault::Copy(fault)),
        None => Ok(receipt),
    }
}

/// What was read, where it is of this copy and this id.
fn got_of<J: IndexName>(got: Got<J>, copy: u32, id: &DocId) -> Result<Got<J>, ClusterFault>
    ensures { IfOk result (λ g. IsGot g × (g.node ≡ copy) × (g.id ≡ id.now)) }
{
    if got.node() != copy || !got.id().is(id) {
        return Err(ClusterFault::Stray(got.place()));
    }
    Ok(got)
}

/// Waits until a write is confirmed, or its copy leads no more. Its entry is there by then, so that this thread wakes once.
#[tactic(auto, using(crate::proofs::Confirming::confirmed_end, crate::proofs::Confirming::refused_end))]
fn confirmed<R: Wait, J: IndexName>(
    rt: &R,
    begun: Begun<J>,
    copy: u32,
    write: &Write,
) -> Result<Confirmed<J>, WriteFault<J>>
    ensures confirmed { IfOk result (IsConfirmed write.now) }
    ensures refused { IfErr result (IsWriteRefused write.now) }
{
    let Begun { answers, endings } = begun;
    let ending = endings.recv(rt);
    let receipt = received(rt, &answers)?;
    if !is_of_write(&receipt, copy, write) {
        return Err(WriteFault::Cluster(ClusterFault::Stray(receipt.place())));
    }
    let Some(written) = written_in(&receipt) else {
        return Err(refusal_of(receipt));
    };
    match ending {
        Ok(ending) => ended(receipt, written, ending),
        Err(_) => Err(WriteFault::Unconfirmed(receipt)),
    }
}

/// Why a write or a bulk that its copy answered isn't kept.
pub(crate) fn refusal_of<J: IndexName>(receipt: Receipt<J>) -> WriteFault<J>
    ensures { IsRefusalBy receipt result }
{
    if is_no_primary(&receipt) {
        return WriteFault::NoPrimary(receipt);
    }
    match &receipt.deed().answer {
        Ok(_) => WriteFault::Cluster(ClusterFault::Stray(receipt.place())),
        Err(_) => WriteFault::Refused(receipt),
    }
}

/// How a write that was kept ended.
fn ended<J: IndexName>(
    receipt: Receipt<J>,
    written: Written,
    ending: Ending<J>,
) -> Result<Confirmed<J>, WriteFault<J>>
    ensures kept { IfOk result (IsAcknowledgedWrite receipt written) }
    ensures lost { IfErr result (IsEndOf receipt) }
{
    match ending {
        Ending::Acknowledged(entry) => {
            let last = entry.into_inner();
            if acknowledges(&last, written) && is_behind(&receipt, &last) {
                Ok(Confirmed {
                    write: receipt,
                    acknowledgement: last,
                })
            } else {
                Err(WriteFault::Cluster(ClusterFault::Stray(last.place())))
            }
        }
        Ending::Lost(entry) => Err(lost_by(receipt, entry.into_inner())),
    }
}

/// What was kept and is perhaps lost, by the entry that ended the lead in which it was; whether it stands is open where that entry doesn't.
pub(crate) fn lost_by<J: IndexName>(receipt: Receipt<J>, last: Receipt<J>) -> WriteFault<J>
    ensures { IsEndOf receipt result }
{
    if is_ended_by(&receipt, &last) {
        WriteFault::Lost(receipt, last)
    } else {
        drop(last);
        WriteFault::Unconfirmed(receipt)
    }
}
