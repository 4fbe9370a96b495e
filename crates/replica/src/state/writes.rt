//! What a primary makes of a write.
ghost use Rattle.std.specs.Prelude.{◌≡◌, ◌≤◌, ◌^◌, false, Some, IfOk, IfErr};
ghost use Rattle.doc.specs.Outcome.{Gives};
ghost use Rattle.op.specs.Checkpoint.{checkpoint_of};
ghost use Rattle.replica.specs.Fault.{fault_of, is_log};
ghost use Rattle.replica.specs.declared.input.Input.TheVariants.{Write as Client};
ghost use Rattle.replica.specs.Planned.{IsKeepable, IsNextOp, IsPlanned, stepped_by, write_gives};
ghost use Rattle.replica.specs.Step.{copy_step, first_fault, op_messages, record_of, write_faults_by, wrote};
ghost use Rattle.replica.specs.LastView.{is_allowed_by, version_of};

use crate::fault::CopyFault;
use crate::input::{OpType, Write};
use crate::output::{Answer, Outcome, Written};
use crate::planned::Planned;
use crate::role::{Lead, Role};
use crate::state::{State, WINDOW};
use crate::writing;
use crate::writing::GREATEST;
use engine::Last;
use op::{Content, Messages, Op, Record, checkpoint};
use std::alloc::{AllocError, Global};

impl State {
    /// What a write gives and leaves, or why it is refused. Nothing changes.
    pub(crate) fn plan(&self, alloc: Global, write: Write) -> Result<Planned, CopyFault>
        ensures gives { Gives fault_of (stepped_by self.now.copy) result (copy_step self.now.copy (Client write)) }
        ensures keepable { IfOk result (IsKeepable self.now.copy) }
        ensures no_log { IfErr result (λ e. is_log e ≡ false) }
    {
        let Role::Primary(lead) = &self.role else {
            drop(write);
            return Err(CopyFault::NotPrimary);
        };
        let last = self.engine.last(&write.id);
        let seq = self.next_seq();
        if let Err(refusal) = check(self.known, seq, last, &write.kind) {
            drop(write);
            return Err(refusal);
        }
        let outcome = writing::outcome(writing::is_live(last), &write.kind);
        let op = Op {
            seq,
            term: self.term,
            version: writing::version_after(last),
            body: writing::body(write),
        };
        let planned = self.planned(alloc, lead, op, outcome)?;
        planned.spelled()
    }

    /// What the write of an operation gives and leaves.
    fn planned(
        &self,
        alloc: Global,
        lead: &Lead,
        op: Op,
        outcome: Outcome,
    ) -> Result<Planned, AllocError>
        requires { IsNextOp self.now.copy lead.now op }
        ensures gives { IfOk result (λ p. stepped_by self.now.copy p ≡ write_gives self.now.copy lead.now op outcome) }
        ensures planned { IfOk result (IsPlanned self.now.copy) }
        ensures kept { IfOk result (λ p. p.next_record ≡ record_of self.now.copy op) }
    {
        let answer = wrote(&op, outcome);
        let sent = self.op_messages(alloc, lead, &op)?;
        let pending = lead.copy(alloc)?.into_pending(alloc, op.seq)?;
        let led = self.settle(alloc, pending, op.seq + 1, Some(&op))?;
        let kept = kept_record(self.known, op);
        Ok(led.into_settled(answer, sent).keeping(kept, self.term))
    }

    /// The messages of an operation, to each other member.
    fn op_messages(&self, alloc: Global, lead: &Lead, op: &Op) -> Result<Messages, AllocError>
        ensures { IfOk result (λ a. a ≡ op_messages self.now.copy lead.now op.now) }
    {
        let content = Content::Op(checkpoint::from_count(self.known), op.copy(alloc)?);
        self.messages(alloc, &lead.members, self.term, &content)
    }
}

/// What a write answers that is accepted.
fn wrote(op: &Op, outcome: Outcome) -> Answer
    ensures { result ≡ wrote op.now outcome }
{
    Answer::Wrote(Written {
        seq: op.seq,
        term: op.term,
        version: op.version,
        outcome,
    })
}

/// Why a write is refused, by the checkpoint, its number, and the last operation on its id.
pub(super) fn check(
    known: u64,
    seq: u64,
    last: Option<Last>,
    kind: &OpType,
) -> Result<(), CopyFault>
    requires { known ≤ 2 ^ 63 }
    ensures gives { Gives fault_of (λ u. u) result (first_fault (write_faults_by (is_allowed_by last kind.now) known seq (version_of last))) }
    ensures told { IfErr result (λ e. fault_of e ≡ Some e) }
    ensures no_log { IfErr result (λ e. is_log e ≡ false) }
{
    if !writing::is_allowed(last, kind) {
        return Err(CopyFault::VersionConflict);
    }
    if seq >= known + WINDOW {
        return Err(CopyFault::WindowFull);
    }
    if seq > GREATEST || !writing::has_version(last) {
        return Err(CopyFault::Exhausted);
    }
    Ok(())
}

/// The record of an operation, with the number of operations that were known to be everywhere.
pub(super) fn kept_record(known: u64, op: Op) -> Record
    requires { known ≤ 2 ^ 63 }
    ensures { result ≡ Record.Op (checkpoint_of known) op }
{
    Record::Op(checkpoint::from_count(known), op)
}
