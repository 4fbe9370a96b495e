//! What a primary does: it counts acknowledgements, takes members in and out, and reports them.
ghost use Rattle.std.specs.Prelude.{◌≡◌, ◌≤◌, ◌+◌, ◌^◌, false, Ok, IfOk, IfErr, filter};
ghost use Rattle.std.specs.Option.{option_copied};
ghost use Rattle.std.specs.List.{filter_map};
ghost use Rattle.doc.specs.Outcome.{Gives};
ghost use Rattle.op.specs.Checkpoint.{known};
ghost use Rattle.replica.specs.Fault.{fault_of, is_log};
ghost use Rattle.replica.specs.declared.input.Input.TheVariants.{Report};
ghost use Rattle.replica.specs.Planned.{IsHandled, IsSettling, IsTurn, handled_step, led_by, op_among, settled_by, turned, turned_step};
ghost use Rattle.replica.specs.Step as spec;
ghost use Rattle.replica.specs.Step.{copy_step, first_fault, is_settled_by, members_of, settled, stepped};

use crate::acks::Numbers;
use crate::fault::CopyFault;
use crate::output::{Answer, Output};
use crate::planned::{Handled, Settled};
use crate::role::{Lead, Role};
use crate::state::{State, WINDOW};
use op::{Content, Messages, Op, Operations, checkpoint};
use std::alloc::{AllocError, Global};

/// What a primary does after each step: how many operations all members have, the primary whose settled writes are pending no more,
/// and those writes, which are acknowledged.
#[derive(Drop)]
pub(super) struct Led {
    pub(super) known: u64,
    pub(super) lead: Lead,
    pub(super) acknowledged: Operations,
}

impl Led {
    /// What it leaves and gives.
    pub(super) fn into_settled(self, answer: Answer, sent: Messages) -> Settled
        ensures { result ≡ settled_by self answer sent }
    {
        let Led {
            known,
            lead,
            acknowledged,
        } = self;
        let members = lead.members.as_slice().len();
        Settled {
            known,
            role: Role::Primary(lead),
            output: Output {
                answer,
                sent,
                acknowledged,
                members,
            },
        }
    }
}

impl State {
    ghost use Rattle.replica.specs.Copy.{operations};
    ghost use Rattle.replica.specs.Standing.{IsStanding};

    /// What a primary does after each step, which leaves it with numbers below `next` and may keep an operation, the `latest`.
    pub(super) fn settle(
        &self,
        alloc: Global,
        lead: Lead,
        next: u64,
        latest: Option<&Op>,
    ) -> Result<Led, AllocError>
        ensures led { IfOk result (λ l. l ≡ led_by self.now.copy lead next (option_copied latest.entry)) }
        ensures standing { IsStanding self.now.copy }
    {
        let known = self.known.max(lead.least(self.id, next));
        let Ok(acknowledged) = self.acknowledged(alloc, &lead, latest) else {
            drop(lead);
            return Err(AllocError);
        };
        let Ok(lead) = lead.into_unsettled(alloc, self.id) else {
            drop(acknowledged);
            return Err(AllocError);
        };
        Ok(Led {
            known,
            lead,
            acknowledged,
        })
    }

    /// The pending writes of a primary that every other member has, of its operations and the latest one.
    fn acknowledged(
        &self,
        alloc: Global,
        lead: &Lead,
        latest: Option<&Op>,
    ) -> Result<Operations, AllocError>
        ensures { IfOk result (λ a. a ≡ filter_map (op_among (operations self.now.copy) (option_copied latest.entry)) (filter (is_settled_by self.now.copy.id lead.now) lead.now.pending)) }
    {
        let settled = lead.settled(alloc, self.id)?;
        self.settled_ops(alloc, &settled, latest)
    }

    /// The operations at these numbers, with the latest one.
    fn settled_ops(
        &self,
        alloc: Global,
        settled: &Numbers,
        latest: Option<&Op>,
    ) -> Result<Operations, AllocError>
        ensures { IfOk result (λ a. a ≡ filter_map (op_among (operations self.now.copy) (option_copied latest.entry)) settled.now) }
    {
        let numbers = settled.to_vec(alloc)?;
        let mut items = Vec::new(alloc);
        for number in numbers.as_slice() {
            let found = self.op_among(latest, *number)?;
            if let Some(op) = found {
                items.push(op.copy(alloc)?)?;
            }
        }
        Ok(Operations::from_vec(items))
    }

    /// The operation at a number, which may be the latest one.
    fn op_among<'a>(
        &'a self,
        latest: Option<&'a Op>,
        number: u64,
    ) -> Result<Option<&'a Op>, AllocError>
        ensures { IfOk result (λ o. option_copied o ≡ op_among (operations self.now.copy) (option_copied latest.entry) number) }
    {
        match latest {
            Some(op) => if op.seq == number {
                Ok(Some(op))
            } else {
                self.op_at(number)
            },
            None => self.op_at(number),
        }
    }

    /// The primary after a message that it keeps no record of.
    fn turned(&self, alloc: Global, lead: Lead, sent: Messages) -> Result<Settled, AllocError>
        requires { IsTurn self.now.copy lead }
        ensures gives { IfOk result (λ s. stepped (turned self.now.copy s) s.output ≡ turned_step self.now.copy lead sent) }
        ensures settling { IfOk result (IsSettling self.now.copy) }
    {
        let led = self.settle(alloc, lead, self.next_seq(), None)?;
        Ok(led.into_settled(Answer::Taken, sent))
    }

    // ---- reports

    /// What a report gives, or why it is refused.
    pub(crate) fn report(&self, alloc: Global, id: u32) -> Result<Output, CopyFault>
        ensures gives { Gives fault_of (stepped self.now.copy) result (copy_step self.now.copy (Report id)) }
        ensures members { IfOk result (λ o. o.members ≡ members_of self.now.copy.role) }
        ensures no_log { IfErr result (λ e. is_log e ≡ false) }
    {
        let Role::Primary(lead) = &self.role else {
            return Err(CopyFault::NotPrimary);
        };
        if id == self.id {
            return Err(CopyFault::Mismatch);
        }
        if !lead.members.has(id) {
            return Err(CopyFault::Mismatch);
        }
        let sent = self.message(alloc, 0, self.term, Content::Fail(id))?;
        Ok(self.output_sending(alloc, Answer::Reported, sent))
    }

    // ---- acknowledgements

    /// What an acknowledgement gives and leaves, or why it is refused.
    pub(super) fn take_ack(
        &self,
        alloc: Global,
        from: u32,
        seq: i64,
        below: i64,
    ) -> Result<Handled, CopyFault>
        ensures gives { Gives fault_of (handled_step self.now.copy) result (settled (spec.take_ack self.now.copy from (known seq) (known below) self.now.copy.role)) }
        ensures handled { IfOk result (IsHandled self.now.copy) }
        ensures no_log { IfErr result (λ e. is_log e ≡ false) }
    {
        let Role::Primary(lead) = &self.role else {
            return Err(CopyFault::NotPrimary);
        };
        let seq = checkpoint::count(seq);
        let below = checkpoint::count(below);
        check_ack(lead, self.next_seq(), from, seq, below)?;
        let mut numbers = lead.acks.of(from);
        if numbers.has_acknowledged(seq, below) {
            return Ok(Handled::Answered(self.output(alloc, Answer::Repeated)));
        }
        numbers.acknowledge(seq, below);
        let acked = lead.acked(alloc, from, &numbers)?;
        let turned = self.turned(alloc, acked, Messages::none(alloc))?;
        Ok(Handled::Settled(turned))
    }

    // ---- members

    /// What the tracking of a copy gives and leaves, or why it is refused.
    pub(super) fn take_track(&self, alloc: Global, id: u32) -> Result<Handled, CopyFault>
        ensures gives { Gives fault_of (handled_step self.now.copy) result (settled (spec.take_track self.now.copy id self.now.copy.role)) }
        ensures handled { IfOk result (IsHandled self.now.copy) }
        ensures no_log { IfErr result (λ e. is_log e ≡ false) }
    {
        let Role::Primary(lead) = &self.role else {
            return Err(CopyFault::NotPrimary);
        };
        if lead.out.has(id) {
            return Err(CopyFault::Mismatch);
        }
        let all = Operations::from_vec(self.engine.above(alloc, -1)?);
        let sent = self.message(alloc, id, self.term, Content::Recover(all))?;
        if lead.members.has(id) {
            return Ok(Handled::Answered(self.output_sending(alloc, Answer::Repeated, sent)));
        }
        let Ok(joined) = lead.joined(alloc, id) else {
            drop(sent);
            return Err(CopyFault::NoMemory);
        };
        let turned = self.turned(alloc, joined, sent)?;
        Ok(Handled::Settled(turned))
    }

    /// What the removal of a copy gives and leaves, or why it is refused.
    pub(super) fn take_removed(&self, alloc: Global, id: u32) -> Result<Handled, CopyFault>
        ensures gives { Gives fault_of (handled_step self.now.copy) result (settled (spec.take_removed self.now.copy id self.now.copy.role)) }
        ensures handled { IfOk result (IsHandled self.now.copy) }
        ensures no_log { IfErr result (λ e. is_log e ≡ false) }
    {
        let Role::Primary(lead) = &self.role else {
            return Err(CopyFault::NotPrimary);
        };
        if id == self.id {
            return Err(CopyFault::Mismatch);
        }
        if lead.out.has(id) {
            return Ok(Handled::Answered(self.output(alloc, Answer::Repeated)));
        }
        let left = lead.left(alloc, id)?;
        let turned = self.turned(alloc, left, Messages::none(alloc))?;
        Ok(Handled::Settled(turned))
    }
}

/// Why an acknowledgement is refused, whose numbers are counted.
fn check_ack(lead: &Lead, next: u64, from: u32, seq: u64, below: u64) -> Result<(), CopyFault>
    requires { below ≤ 2 ^ 63 }
    ensures gives { Gives fault_of (λ u. u) result (first_fault (spec.ack_faults lead.now next from seq below)) }
    ensures near { IfOk result (λ u. seq ≤ below + 1024) }
    ensures no_log { IfErr result (λ e. is_log e ≡ false) }
{
    if !lead.members.has(from) {
        return Err(CopyFault::Mismatch);
    }
    if next < seq {
        return Err(CopyFault::Mismatch);
    }
    if next < below {
        return Err(CopyFault::Mismatch);
    }
    if below + WINDOW < seq {
        return Err(CopyFault::Mismatch);
    }
    Ok(())
}
