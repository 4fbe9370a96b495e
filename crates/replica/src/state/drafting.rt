//! What a primary makes of the writes of a bulk, whose records are kept together.
ghost use Rattle.std.specs.Prelude.{◌≡◌, ◌≤◌, ◌++◌, ◌∷◌, ◌^◌, [], suc, true, false, length, option_map, Ok, IfOk, IfErr, IfSome, IfNone};
ghost use Rattle.doc.specs.Outcome.{Gives};
ghost use Rattle.engine.specs.Last.{last_of};
ghost use Rattle.op.specs.Checkpoint.{checkpoint_of};
ghost use Rattle.op.specs.Format.{is_too_large};
ghost use Rattle.op.specs.Operations.{last_on};
ghost use Rattle.replica.specs.declared.input.Input.TheVariants.{Bulk};
ghost use Rattle.replica.specs.declared.output.Item.TheVariants.{Refused};
ghost use Rattle.replica.specs.declared.role.Role.TheVariants.{Primary};
ghost use Rattle.replica.specs.Copy.{operations};
ghost use Rattle.replica.specs.Drafted.{IsDrafted, drafted, folding};
ghost use Rattle.replica.specs.Fault.{fault_of, is_log};
ghost use Rattle.replica.specs.Planned.{IsNextOp, IsPlannedAll, stepped_all_by, write_gives};
ghost use Rattle.replica.specs.Step.{bulked, copy_step, first_fault, folded, op_messages, unwritten, with_write, write_faults, write_step};

use crate::fault::CopyFault;
use crate::input::Write;
use crate::output::{Answer, Item, Items, Outcome, Output, Written};
use crate::planned::PlannedAll;
use crate::role::{Lead, Role};
use crate::state::State;
use crate::state::writes::{check, kept_record};
use crate::writes::Writes;
use crate::writing;
use engine::{Ahead, Last};
use op::{Content, Messages, Msg, Op, Operations, Record, checkpoint, is_too_large};
use std::alloc::{AllocError, Global};

/// What some writes of a bulk have made of a primary so far: their records, which it doesn't keep yet, and what they give.
#[derive(Drop)]
struct Draft {
    ahead: Ahead,
    records: Vec<Record>,
    known: u64,
    next: u64,
    lead: Lead,
    items: Vec<Item>,
    sent: Vec<Msg>,
    acknowledged: Vec<Op>,
}

impl State {
    /// What the writes of a bulk give and leave, or why all are refused. Nothing changes.
    pub(crate) fn plan_all(&self, alloc: Global, writes: Writes) -> Result<PlannedAll, CopyFault>
        ensures gives { Gives fault_of (stepped_all_by self.now.copy) result (copy_step self.now.copy (Bulk writes)) }
        ensures planned { IfOk result (IsPlannedAll self.now.copy) }
        ensures no_log { IfErr result (λ e. is_log e ≡ false) }
    {
        let Role::Primary(lead) = &self.role else {
            drop(writes);
            return Err(CopyFault::NotPrimary);
        };
        let draft = self.draft(alloc, lead)?;
        let draft = self.draft_all(alloc, draft, writes)?;
        Ok(draft.into_planned())
    }

    /// No write yet.
    fn draft(&self, alloc: Global, lead: &Lead) -> Result<Draft, AllocError>
        requires { self.now.copy.role ≡ Primary lead.now }
        ensures folds { IfOk result (λ d. folding self.now.copy d ≡ unwritten self.now.copy) }
        ensures drafted { IfOk result (IsDrafted self.now.copy) }
        ensures none { IfOk result (λ d. d.items.items ≡ []) }
    {
        Ok(Draft {
            ahead: Ahead::new(alloc, self.engine.mapping().seed()),
            records: Vec::new(alloc),
            known: self.known,
            next: self.next_seq(),
            lead: lead.copy(alloc)?,
            items: Vec::new(alloc),
            sent: Vec::new(alloc),
            acknowledged: Vec::new(alloc),
        })
    }

    /// The draft after all writes of a bulk.
    fn draft_all(&self, alloc: Global, first: Draft, writes: Writes) -> Result<Draft, AllocError>
        requires drafted { IsDrafted self.now.copy first }
        requires none { first.items.items ≡ [] }
        ensures folds { IfOk result (λ d. folding self.now.copy d ≡ folded (folding self.now.copy first) writes) }
        ensures drafted { IfOk result (IsDrafted self.now.copy) }
        ensures few { IfOk result (λ d. length d.items.items ≤ 1024) }
    {
        let mut draft = first;
        for write in writes.into_vec() {
            draft = self.draft_with(alloc, draft, write)?;
        }
        Ok(draft)
    }

    /// The draft after one more write.
    fn draft_with(&self, alloc: Global, draft: Draft, write: Write) -> Result<Draft, AllocError>
        requires { IsDrafted self.now.copy draft }
        ensures folds { IfOk result (λ d. folding self.now.copy d ≡ with_write (folding self.now.copy draft) (write_step (drafted self.now.copy draft) write)) }
        ensures drafted { IfOk result (IsDrafted self.now.copy) }
        ensures one { IfOk result (λ d. length d.items.items ≡ suc (length draft.items.items)) }
    {
        let last = self.engine.last_with(&draft.ahead, &write.id);
        match check(draft.known, draft.next, last, &write.kind) {
            Ok(()) => self.draft_accepted(alloc, draft, write, last),
            Err(refusal) => {
                drop(write);
                draft.refused(refusal)
            }
        }
    }

    /// The draft after a write that its document, the window and the numbers allow.
    fn draft_accepted(
        &self,
        alloc: Global,
        draft: Draft,
        write: Write,
        last: Option<Last>,
    ) -> Result<Draft, AllocError>
        requires drafted { IsDrafted self.now.copy draft }
        requires last { last ≡ option_map last_of (last_on (operations (drafted self.now.copy draft)) write.id) }
        requires none { first_fault (write_faults (drafted self.now.copy draft) write) ≡ Ok tt }
        ensures folds { IfOk result (λ d. folding self.now.copy d ≡ with_write (folding self.now.copy draft) (write_step (drafted self.now.copy draft) write)) }
        ensures drafted { IfOk result (IsDrafted self.now.copy) }
        ensures one { IfOk result (λ d. length d.items.items ≡ suc (length draft.items.items)) }
    {
        let outcome = writing::outcome(writing::is_live(last), &write.kind);
        let op = Op {
            seq: draft.next,
            term: self.term,
            version: writing::version_after(last),
            body: writing::body(write),
        };
        match spelled(draft.known, op) {
            Some(op) => self.draft_kept(alloc, draft, op, outcome),
            None => draft.refused(CopyFault::Exhausted),
        }
    }

    /// The draft after a write whose operation is kept.
    fn draft_kept(
        &self,
        alloc: Global,
        draft: Draft,
        op: Op,
        outcome: Outcome,
    ) -> Result<Draft, AllocError>
        requires drafted { IsDrafted self.now.copy draft }
        requires next { IsNextOp (drafted self.now.copy draft) draft.lead op }
        requires small { is_too_large (Record.Op (checkpoint_of draft.known) op) ≡ false }
        ensures folds { IfOk result (λ d. folding self.now.copy d ≡ with_write (folding self.now.copy draft) (Ok (write_gives (drafted self.now.copy draft) draft.lead op outcome))) }
        ensures drafted { IfOk result (IsDrafted self.now.copy) }
        ensures one { IfOk result (λ d. length d.items.items ≡ suc (length draft.items.items)) }
    {
        let mut messages = self
            .sent_by(alloc, draft.known, &draft.lead, &op)?
            .into_vec();
        let Draft {
            ahead,
            records,
            known,
            next: _next,
            lead,
            items,
            sent,
            acknowledged,
        } = draft;
        let mut ahead = ahead;
        let mut records = records;
        let mut items = items;
        let mut sent = sent;
        let mut acknowledged = acknowledged;
        sent.append(&mut messages)?;
        items.push(Item::Wrote(written(&op, outcome)))?;
        ahead.push(alloc, &op)?;
        let next = op.seq + 1;
        let least = lead.least(self.id, next);
        let lead = if lead.is_settled(self.id, op.seq) {
            acknowledged.push(op.copy(alloc)?)?;
            lead
        } else {
            lead.into_pending(alloc, op.seq)?
        };
        records.push(kept_record(known, op))?;
        Ok(Draft {
            ahead,
            records,
            known: known.max(least),
            next,
            lead,
            items,
            sent,
            acknowledged,
        })
    }

    /// The messages that send an operation to each other member, with the number of operations that are known to be everywhere.
    fn sent_by(
        &self,
        alloc: Global,
        known: u64,
        lead: &Lead,
        op: &Op,
    ) -> Result<Messages, AllocError>
        requires { known ≤ 2 ^ 63 }
        ensures { IfOk result (λ a. a ≡ op_messages (record self.now.copy { known = known }) lead.now op.now) }
    {
        let content = Content::Op(checkpoint::from_count(known), op.copy(alloc)?);
        self.messages(alloc, &lead.members, self.term, &content)
    }
}

impl Draft {
    /// The draft after a write that is refused.
    fn refused(self, refusal: CopyFault) -> Result<Draft, AllocError>
        ensures items { IfOk result (λ d. d.items.items ≡ self.items.items ++ Refused refusal ∷ []) }
        ensures same { IfOk result (λ d. record d { items = self.items } ≡ self) }
    {
        let mut draft = self;
        draft.items.push(Item::Refused(refusal))?;
        Ok(draft)
    }

    /// What is ready to be kept.
    fn into_planned(self) -> PlannedAll
        ensures records { result.records ≡ self.records }
        ensures known { result.known ≡ self.known }
        ensures role { result.role ≡ Primary self.lead }
        ensures output { result.output ≡ record { answer = Answer.Bulked self.items.items; sent = self.sent.items; acknowledged = self.acknowledged.items; members = length self.lead.members } }
    {
        let Draft {
            records,
            known,
            lead,
            items,
            sent,
            acknowledged,
            ..
        } = self;
        let members = lead.members.as_slice().len();
        PlannedAll {
            records,
            known,
            role: Role::Primary(lead),
            output: Output {
                answer: Answer::Bulked(Items::from_vec(items)),
                sent: Messages::from_vec(sent),
                acknowledged: Operations::from_vec(acknowledged),
                members,
            },
        }
    }
}

/// The operation, unless its record is too large to be spelled.
fn spelled(known: u64, op: Op) -> Option<Op>
    requires { known ≤ 2 ^ 63 }
    ensures same { IfSome result (λ o. o ≡ op) }
    ensures small { IfSome result (λ o. is_too_large (Record.Op (checkpoint_of known) op) ≡ false) }
    ensures large { IfNone result (is_too_large (Record.Op (checkpoint_of known) op) ≡ true) }
{
    let record = kept_record(known, op);
    let large = is_too_large(&record);
    match record {
        Record::Op(_known, op) => {
            if large {
                drop(op);
                None
            } else {
                Some(op)
            }
        }
        Record::Resync(_term, _known, tail) => {
            drop(tail);
            None
        }
        Record::Recover(_term, all) => {
            drop(all);
            None
        }
    }
}

/// What a write answers that is kept.
fn written(op: &Op, outcome: Outcome) -> Written
    ensures { result ≡ record { seq = op.now.seq; term = op.now.term; version = op.now.version; outcome = outcome } }
{
    Written {
        seq: op.seq,
        term: op.term,
        version: op.version,
        outcome,
    }
}
