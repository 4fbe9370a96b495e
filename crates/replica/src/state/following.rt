//! What a copy takes of a primary: operations, resyncs and recoveries.
ghost use Rattle.std.specs.Prelude.{◌≡◌, ◌≤◌, ◌^◌, ◌∷◌, ◌==◌, false, [], IfOk, IfErr};
ghost use Rattle.doc.specs.Outcome.{Gives};
ghost use Rattle.op.specs.Checkpoint.{known as count_of};
ghost use Rattle.op.specs.Operations.{IsAscending, local_count};
ghost use Rattle.op.specs.Records.{IsRecord};
ghost use Rattle.replica.specs.Fault.{fault_of, is_log};
ghost use Rattle.replica.specs.Planned.{IsFollowing, IsHandled, IsPlanned, ack_all_of, handled_step, op_gives, recover_gives, recovery_of, resync_gives, stepped_by};
ghost use Rattle.replica.specs.Step as spec;
ghost use Rattle.replica.specs.Step.{settled};

use crate::fault::CopyFault;
use crate::output::{Answer, Output};
use crate::planned::{Handled, Planned};
use crate::role::Role;
use crate::state::{State, WINDOW};
use op::{Content, Messages, Msg, Op, Operations, Record, checkpoint};
use std::alloc::{AllocError, Global};

impl State {
    ghost use Rattle.replica.specs.Copy.{operations};

    // ---- operations

    /// What an operation of the primary gives and leaves, or why it is refused.
    pub(super) fn take_op(
        &self,
        alloc: Global,
        from: u32,
        known: i64,
        op: Op,
    ) -> Result<Handled, CopyFault>
        requires { IsRecord (Record.Op known op) }
        ensures gives { Gives fault_of (handled_step self.now.copy) result (settled (spec.take_op self.now.copy from known op self.now.copy.role)) }
        ensures handled { IfOk result (IsHandled self.now.copy) }
        ensures no_log { IfErr result (λ e. is_log e ≡ false) }
    {
        let Some(role) = self.role.follower() else {
            return Err(CopyFault::Mismatch);
        };
        let there = self.op_at(op.seq)?;
        let Some(found) = there else {
            return self.take_new(alloc, from, known, op, role);
        };
        if !op.is(found) {
            return Err(CopyFault::Mismatch);
        }
        let sent = self.ack(alloc, from, op.seq as i64, self.engine.local())?;
        Ok(Handled::Answered(self.output_sending(alloc, Answer::Repeated, sent)))
    }

    /// What an operation with a free number gives and leaves, or why it is refused.
    fn take_new(
        &self,
        alloc: Global,
        from: u32,
        known: i64,
        op: Op,
        role: Role,
    ) -> Result<Handled, CopyFault>
        requires { IsFollowing self.now.copy known op role }
        ensures gives { Gives fault_of (handled_step self.now.copy) result (settled (spec.take_new self.now.copy from known op)) }
        ensures handled { IfOk result (IsHandled self.now.copy) }
        ensures no_log { IfErr result (λ e. is_log e ≡ false) }
    {
        if op.seq >= self.local_count() + WINDOW {
            return Err(CopyFault::BeyondWindow);
        }
        let planned = self.with_op(alloc, from, known, op, role)?;
        Ok(Handled::Planned(planned.spelled()?))
    }

    /// The copy with an operation of its primary.
    fn with_op(
        &self,
        alloc: Global,
        from: u32,
        known: i64,
        op: Op,
        role: Role,
    ) -> Result<Planned, AllocError>
        requires { IsFollowing self.now.copy known op role }
        ensures gives { IfOk result (λ p. stepped_by self.now.copy p ≡ op_gives self.now.copy from known op) }
        ensures planned { IfOk result (IsPlanned self.now.copy) }
        ensures kept { IfOk result (λ p. p.next_record ≡ Record.Op known op) }
    {
        let answer = if self.engine.is_stale(&op) {
            Answer::Stale
        } else {
            Answer::Taken
        };
        match self.ack(alloc, from, op.seq as i64, self.engine.local_with(&op)) {
            Ok(sent) => Ok(Planned {
                next_record: Record::Op(known, op),
                term: self.term,
                known: self.known.max(checkpoint::count(known)),
                role,
                output: follower_output(alloc, answer, sent),
            }),
            Err(refused) => {
                drop(op);
                drop(role);
                Err(refused)
            }
        }
    }

    /// An acknowledgement of a number, with a local checkpoint.
    fn ack(&self, alloc: Global, to: u32, seq: i64, local: i64) -> Result<Messages, AllocError>
        ensures { IfOk result (λ a. a ≡ record { from = self.now.copy.id; to = to; term = self.now.copy.term; content = Content.Ack seq local } ∷ []) }
    {
        self.message(alloc, to, self.term, Content::Ack(seq, local))
    }

    /// An acknowledgement of no number, with so many from number 0 up, in a term that the copy takes.
    fn ack_all(&self, alloc: Global, to: u32, term: u64, local: u64) -> Result<Messages, AllocError>
        requires { local ≤ 2 ^ 63 }
        ensures { IfOk result (λ a. a ≡ ack_all_of self.now.copy.id to term local ∷ []) }
    {
        let content = Content::Ack(-1, checkpoint::from_count(local));
        self.message(alloc, to, term, content)
    }

    // ---- resyncs

    /// What a resync gives and leaves, or why it is refused.
    pub(super) fn take_resync(
        &self,
        alloc: Global,
        from: u32,
        term: u64,
        known: i64,
        tail: Operations,
    ) -> Result<Handled, CopyFault>
        requires { IsRecord (Record.Resync term known tail) }
        ensures gives { Gives fault_of (handled_step self.now.copy) result (settled (spec.take_resync self.now.copy from term known tail (term == self.now.copy.term))) }
        ensures handled { IfOk result (IsHandled self.now.copy) }
        ensures no_log { IfErr result (λ e. is_log e ≡ false) }
    {
        if term == self.term {
            return self.resync_again(alloc, from);
        }
        let count = checkpoint::count(known);
        if self.local_count() < count {
            drop(tail);
            return Err(CopyFault::Mismatch);
        }
        let planned = self.resynced(alloc, from, term, known, tail)?;
        Ok(Handled::Planned(planned.spelled()?))
    }

    /// The replica of a new term, with what its primary has above its checkpoint.
    fn resynced(
        &self,
        alloc: Global,
        from: u32,
        term: u64,
        known: i64,
        tail: Operations,
    ) -> Result<Planned, AllocError>
        requires is { IsRecord (Record.Resync term known tail) }
        requires up { IsAscending (operations self.now.copy) }
        requires there { count_of known ≤ local_count (operations self.now.copy) }
        ensures gives { IfOk result (λ p. stepped_by self.now.copy p ≡ resync_gives self.now.copy from term known tail) }
        ensures planned { IfOk result (IsPlanned self.now.copy) }
        ensures kept { IfOk result (λ p. p.next_record ≡ Record.Resync term known tail) }
    {
        let count = checkpoint::count(known);
        let sent = self.ack_all(alloc, from, term, count + tail.as_slice().len() as u64)?;
        Ok(Planned {
            next_record: Record::Resync(term, known, tail),
            term,
            known: self.known.max(count),
            role: Role::Replica,
            output: follower_output(alloc, Answer::Taken, sent),
        })
    }

    /// What a resync of the copy's own term gives, or why it is refused.
    fn resync_again(&self, alloc: Global, from: u32) -> Result<Handled, CopyFault>
        ensures gives { Gives fault_of (handled_step self.now.copy) result (settled (spec.resync_again self.now.copy from self.now.copy.role)) }
        ensures handled { IfOk result (IsHandled self.now.copy) }
        ensures no_log { IfErr result (λ e. is_log e ≡ false) }
    {
        if let Role::Primary(_) = &self.role {
            return Err(CopyFault::Mismatch);
        }
        let sent = self.ack(alloc, from, -1, self.engine.local())?;
        Ok(Handled::Answered(self.output_sending(alloc, Answer::Repeated, sent)))
    }

    // ---- recoveries

    /// What a recovery gives and leaves, or why it is refused.
    pub(super) fn take_recover(
        &self,
        alloc: Global,
        from: u32,
        term: u64,
        all: Operations,
    ) -> Result<Handled, CopyFault>
        requires { IsRecord (Record.Recover term all) }
        ensures gives { Gives fault_of (handled_step self.now.copy) result (settled (spec.take_recover self.now.copy from term all self.now.copy.role)) }
        ensures handled { IfOk result (IsHandled self.now.copy) }
        ensures no_log { IfErr result (λ e. is_log e ≡ false) }
    {
        let Role::Empty = &self.role else {
            return self.recover_again(alloc, from, term);
        };
        let planned = self.recovered(alloc, from, term, all)?;
        Ok(Handled::Planned(planned.spelled()?))
    }

    /// A replica that begins with these operations.
    fn recovered(
        &self,
        alloc: Global,
        from: u32,
        term: u64,
        all: Operations,
    ) -> Result<Planned, AllocError>
        requires { IsRecord (Record.Recover term all) }
        ensures gives { IfOk result (λ p. stepped_by self.now.copy p ≡ recover_gives self.now.copy from term all) }
        ensures planned { IfOk result (IsPlanned self.now.copy) }
        ensures kept { IfOk result (λ p. p.next_record ≡ Record.Recover term all) }
    {
        let sent = self.recovery(alloc, from, term, all.as_slice().len() as u64)?;
        Ok(Planned {
            next_record: Record::Recover(term, all),
            term,
            known: self.known,
            role: Role::Replica,
            output: follower_output(alloc, Answer::Taken, sent),
        })
    }

    /// What a recovery of a copy that has records gives, or why it is refused.
    fn recover_again(&self, alloc: Global, from: u32, term: u64) -> Result<Handled, CopyFault>
        ensures gives { Gives fault_of (handled_step self.now.copy) result (settled (spec.recover_again self.now.copy from term)) }
        ensures handled { IfOk result (IsHandled self.now.copy) }
        ensures no_log { IfErr result (λ e. is_log e ≡ false) }
    {
        if term != self.term {
            return Err(CopyFault::Mismatch);
        }
        let sent = self.recovery(alloc, from, term, self.local_count())?;
        Ok(Handled::Answered(self.output_sending(alloc, Answer::Repeated, sent)))
    }

    /// What a copy that has recovered sends: an acknowledgement, and word to the master.
    fn recovery(
        &self,
        alloc: Global,
        from: u32,
        term: u64,
        local: u64,
    ) -> Result<Messages, AllocError>
        requires { local ≤ 2 ^ 63 }
        ensures { IfOk result (λ a. a ≡ recovery_of self.now.copy.id from term local) }
    {
        let mut items = self.ack_all(alloc, from, term, local)?.into_vec();
        items.push(Msg {
            from: self.id,
            to: 0,
            term,
            content: Content::Synced(self.id),
        })?;
        Ok(Messages::from_vec(items))
    }
}

/// What a copy gives that isn't the primary.
fn follower_output(alloc: Global, answer: Answer, sent: Messages) -> Output
    ensures { result ≡ record { answer = answer; sent = sent; acknowledged = []; members = 0 } }
{
    Output {
        answer,
        sent,
        acknowledged: Operations::from_vec(Vec::new(alloc)),
        members: 0,
    }
}
