//! How a copy becomes the primary of a new term.
ghost use Rattle.std.specs.Prelude.{◌≡◌, ◌==◌, true, false, unwrap_or, IfOk, IfErr};
ghost use Rattle.doc.specs.Outcome.{Gives};
ghost use Rattle.op.specs.Checkpoint.{checkpoint_of};
ghost use Rattle.op.specs.Ids.{has};
ghost use Rattle.op.specs.Operations.{op_at};
ghost use Rattle.op.specs.Records.{IsTerm};
ghost use Rattle.op.specs.Rules.{is_record};
ghost use Rattle.replica.specs.Fault.{fault_of, is_log};
ghost use Rattle.replica.specs.Planned.{IsHandled, IsPlanned, IsPromotion, handled_step, new_lead, promotion_gives, stepped_by};
ghost use Rattle.replica.specs.Step as spec;
ghost use Rattle.replica.specs.Step.{no_op, resync_messages, resync_of, settled, tail_of};

use crate::acks::{Acks, Numbers};
use crate::fault::CopyFault;
use crate::output::Answer;
use crate::planned::{Handled, Planned};
use crate::role::Lead;
use crate::state::State;
use op::rules::is_resync_record;
use op::{Body, Content, CopyIds, Messages, Op, Operations, Record, checkpoint};
use std::alloc::{AllocError, Global};

impl State {
    ghost use Rattle.replica.specs.Copy.{operations};

    /// What a promotion gives and leaves, or why it is refused.
    pub(super) fn take_promoted(
        &self,
        alloc: Global,
        term: u64,
        set: CopyIds,
    ) -> Result<Handled, CopyFault>
        requires is_term { IsTerm term }
        requires member { has set self.now.copy.id ≡ true }
        ensures gives { Gives fault_of (handled_step self.now.copy) result (settled (spec.take_promoted self.now.copy term set (term == self.now.copy.term))) }
        ensures handled { IfOk result (IsHandled self.now.copy) }
        ensures no_log { IfErr result (λ e. is_log e ≡ false) }
    {
        if term == self.term {
            return Ok(Handled::Answered(self.output(alloc, Answer::Repeated)));
        }
        let tail = self.tail(alloc, term)?;
        if !self.is_tail(term, &tail) {
            return Err(CopyFault::Mismatch);
        }
        let planned = self.promoted(alloc, term, set, tail)?;
        Ok(Handled::Planned(planned.spelled()?))
    }

    /// Whether a tail makes the record of a promotion.
    fn is_tail(&self, term: u64, tail: &Operations) -> bool
        ensures { result ≡ is_record (Record.Resync term (checkpoint_of self.now.copy.known) tail.now) }
    {
        is_resync_record(term, checkpoint::from_count(self.known), tail.as_slice())
    }

    /// The primary of a new term, with what it has above its checkpoint.
    fn promoted(
        &self,
        alloc: Global,
        term: u64,
        set: CopyIds,
        tail: Operations,
    ) -> Result<Planned, AllocError>
        requires { IsPromotion self.now.copy term set tail }
        ensures gives { IfOk result (λ p. stepped_by self.now.copy p ≡ promotion_gives self.now.copy term set) }
        ensures planned { IfOk result (IsPlanned self.now.copy) }
        ensures kept { IfOk result (λ p. p.next_record ≡ resync_of self.now.copy term) }
    {
        let sent = self.resync_messages(alloc, &set, term, &tail)?;
        let led = self.settle(alloc, new_lead(alloc, set), self.next_seq(), None)?;
        let kept = self.resync_record(term, tail);
        Ok(led.into_settled(Answer::Taken, sent).keeping(kept, term))
    }

    /// The record of a promotion.
    fn resync_record(&self, term: u64, tail: Operations) -> Record
        ensures { result ≡ Record.Resync term (checkpoint_of self.now.copy.known) tail }
    {
        Record::Resync(term, checkpoint::from_count(self.known), tail)
    }

    /// The messages of a promotion, to each other member.
    fn resync_messages(
        &self,
        alloc: Global,
        set: &CopyIds,
        term: u64,
        tail: &Operations,
    ) -> Result<Messages, AllocError>
        requires { tail.now ≡ tail_of self.now.copy term }
        ensures { IfOk result (λ a. a ≡ resync_messages self.now.copy term set.now) }
    {
        let content = Content::Resync(checkpoint::from_count(self.known), tail.copy(alloc)?);
        self.messages(alloc, set, term, &content)
    }

    /// What a new primary has above its checkpoint, its gaps filled with operations that do nothing.
    fn tail(&self, alloc: Global, term: u64) -> Result<Operations, AllocError>
        ensures { IfOk result (λ a. a ≡ tail_of self.now.copy term) }
    {
        let mut items = Vec::new(alloc);
        let next = self.next_seq();
        for number in self.known.min(next)..next {
            items.push(self.filled(alloc, number, term)?)?;
        }
        Ok(Operations::from_vec(items))
    }

    /// The operation at a number, or one that does nothing.
    fn filled(&self, alloc: Global, number: u64, term: u64) -> Result<Op, AllocError>
        ensures { IfOk result (λ o. o ≡ unwrap_or (op_at (operations self.now.copy) number) (no_op term number)) }
    {
        match self.op_at(number)? {
            Some(op) => op.copy(alloc),
            None => Ok(Op {
                seq: number,
                term,
                version: 0,
                body: Body::NoOp,
            }),
        }
    }
}

/// A primary of which nothing is acknowledged yet.
fn new_lead(alloc: Global, set: CopyIds) -> Lead
    ensures { result ≡ new_lead set }
{
    Lead {
        members: set,
        out: CopyIds::none(alloc),
        acks: Acks::new(alloc),
        pending: Numbers::new(alloc),
    }
}
