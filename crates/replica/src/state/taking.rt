//! What a copy makes of a message.
ghost use Rattle.std.specs.Prelude.{◌≡◌, true, false, IfOk, IfErr};
ghost use Rattle.doc.specs.Outcome.{Gives};
ghost use Rattle.replica.specs.declared.input.Input.TheVariants.{Take};
ghost use Rattle.replica.specs.Fault.{fault_of, is_log};
ghost use Rattle.replica.specs.Planned.{IsHandled, handled_step};
ghost use Rattle.replica.specs.Shape.{is_shaped};
ghost use Rattle.replica.specs.Step as spec;
ghost use Rattle.replica.specs.Step.{copy_step, first_fault, settled, take_faults};

use crate::fault::CopyFault;
use crate::planned::Handled;
use crate::role::Role;
use crate::state::State;
use op::rules::{is_checkpoint, is_op_record, is_recover_record, is_resync_record, is_term};
use op::{Content, Msg, checkpoint};
use std::alloc::Global;

impl State {
    /// What a message gives and leaves, or why it is refused. Nothing changes.
    pub(crate) fn take(&self, alloc: Global, message: Msg) -> Result<Handled, CopyFault>
        ensures gives { Gives fault_of (handled_step self.now.copy) result (copy_step self.now.copy (Take message)) }
        ensures handled { IfOk result (IsHandled self.now.copy) }
        ensures no_log { IfErr result (λ e. is_log e ≡ false) }
    {
        self.check(&message)?;
        let Msg {
            from,
            term,
            content,
            ..
        } = message;
        self.take_content(alloc, from, term, content)
    }

    /// Whether a message that isn't refused at once needs texts that the copy dropped.
    pub(crate) fn needs_texts(&self, message: &Msg) -> bool {
        if self.engine.has_all() || self.check(message).is_err() {
            return false;
        }
        match &message.content {
            Content::Op(_, op) => self.engine.op_at(op.seq).is_err(),
            Content::Promoted(_) => !self.engine.has_above(checkpoint::from_count(self.known)),
            Content::Resync(known, tail) => !self.engine.may_resync(*known, tail),
            Content::Track(_) => true,
            _ => false,
        }
    }

    /// Why a message is refused before its case: its address, an empty copy, its term, its shape.
    fn check(&self, message: &Msg) -> Result<(), CopyFault>
        ensures gives { Gives fault_of (λ u. u) result (first_fault (take_faults self.now.copy message.now)) }
        ensures shape { IfOk result (λ u. is_shaped self.now.copy.id message.now.term message.now.content ≡ true) }
        ensures no_log { IfErr result (λ e. is_log e ≡ false) }
    {
        if message.to != self.id {
            return Err(CopyFault::WrongAddress);
        }
        if self.role.is_empty() && !is_recover(&message.content) {
            return Err(CopyFault::NotSynced);
        }
        if message.term < self.term {
            return Err(CopyFault::OldTerm);
        }
        if message.term > self.term && !may_be_later(&message.content) {
            return Err(CopyFault::NotSynced);
        }
        if !is_shaped(self.id, message.term, &message.content) {
            return Err(CopyFault::Mismatch);
        }
        Ok(())
    }

    /// What a message gives that has its shape, by its content.
    fn take_content(
        &self,
        alloc: Global,
        from: u32,
        term: u64,
        content: Content,
    ) -> Result<Handled, CopyFault>
        requires { is_shaped self.now.copy.id term content ≡ true }
        ensures gives { Gives fault_of (handled_step self.now.copy) result (settled (spec.take_content self.now.copy from term content)) }
        ensures handled { IfOk result (IsHandled self.now.copy) }
        ensures no_log { IfErr result (λ e. is_log e ≡ false) }
    {
        match content {
            Content::Op(known, op) => self.take_op(alloc, from, known, op),
            Content::Ack(seq, below) => self.take_ack(alloc, from, seq, below),
            Content::Promoted(set) => self.take_promoted(alloc, term, set),
            Content::Resync(known, tail) => self.take_resync(alloc, from, term, known, tail),
            Content::Track(id) => self.take_track(alloc, id),
            Content::Recover(all) => self.take_recover(alloc, from, term, all),
            Content::Removed(id) => self.take_removed(alloc, id),
            Content::Synced(_) => Err(CopyFault::Mismatch),
            Content::Fail(_) => Err(CopyFault::Mismatch),
        }
    }
}

fn is_recover(content: &Content) -> bool
    ensures { result ≡ spec.is_recover content.now }
{
    matches!(content, Content::Recover(_))
}

/// Whether a message of a later term may be taken.
fn may_be_later(content: &Content) -> bool
    ensures { result ≡ spec.may_be_later content.now }
{
    matches!(
        content,
        Content::Promoted(_) | Content::Resync(_, _) | Content::Recover(_)
    )
}

/// Whether a message to a copy has its shape.
fn is_shaped(id: u32, term: u64, content: &Content) -> bool
    ensures { result ≡ is_shaped id term content.now }
{
    match content {
        Content::Op(known, op) => op.term == term && is_op_record(*known, op),
        Content::Ack(seq, local) => is_checkpoint(*seq) && is_checkpoint(*local),
        Content::Promoted(set) => is_term(term) && set.has(id),
        Content::Resync(known, tail) => is_resync_record(term, *known, tail.as_slice()),
        Content::Track(_) => true,
        Content::Recover(all) => is_recover_record(term, all.as_slice()),
        Content::Synced(_) => false,
        Content::Fail(_) => false,
        Content::Removed(_) => true,
    }
}
