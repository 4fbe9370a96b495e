//! What receipts are looked at for.
ghost use Rattle.std.specs.Prelude.{◌≡◌, ◌↔◌, true, All, IsOk, IsTrue, IfSome, IfNone, Some, None, option_copied};
ghost use Rattle.replica.specs.declared.input.Input.TheVariants.{Write as Client, Bulk};
ghost use Rattle.cluster.specs.Bulks.{bulked};
ghost use Rattle.cluster.specs.Confirmed as spec;
ghost use Rattle.cluster.specs.Confirmed.{Acknowledges, IsAcknowledged, IsAnswerTo, IsBehind, IsEndedBy, wrote};
ghost use Rattle.node.specs.Entry.{IsEntry};

use cell::IndexName;
use node::Receipt;
use op::{Content, Op};
use replica::{Answer, CopyFault, Input, Item, Output, Write, Writes, Written};

/// Whether the receipt is of this node and this input.
pub(crate) fn is_answer_to<J: IndexName>(receipt: &Receipt<J>, node: u32, asked: &Input) -> bool
    ensures is { IsTrue result ↔ IsAnswerTo node asked.now receipt.now }
    ensures stands { IsEntry receipt.now }
{
    receipt.deed().input.is(asked) && receipt.node() == node
}

/// Whether it is of this node and this write.
pub(crate) fn is_of_write<J: IndexName>(receipt: &Receipt<J>, node: u32, write: &Write) -> bool
    ensures is { IsTrue result ↔ IsAnswerTo node (Client write.now) receipt.now }
    ensures stands { IsEntry receipt.now }
{
    match &receipt.deed().input {
        Input::Write(asked) => receipt.node() == node && asked.is(write),
        _ => false,
    }
}

/// Whether it is of this node and this bulk.
pub(crate) fn is_of_bulk<J: IndexName>(receipt: &Receipt<J>, node: u32, writes: &Writes) -> bool
    ensures is { IsTrue result ↔ IsAnswerTo node (Bulk writes.now) receipt.now }
    ensures stands { IsEntry receipt.now }
{
    match &receipt.deed().input {
        Input::Bulk(asked) => receipt.node() == node && asked.is(writes),
        _ => false,
    }
}

/// What became of the writes of a receipt's bulk.
pub(crate) fn items_in<J: IndexName>(receipt: &Receipt<J>) -> Option<&[Item]>
    ensures some { IfSome result (λ items. bulked receipt.now.deed.answer ≡ Some items.now) }
    ensures none { IfNone result (bulked receipt.now.deed.answer ≡ None) }
{
    match &receipt.deed().answer {
        Ok(
            Output {
                answer: Answer::Bulked(items),
                ..
            },
        ) => Some(items.as_slice()),
        _ => None,
    }
}

/// What the write of a receipt was kept as.
pub(crate) fn written_in<J: IndexName>(receipt: &Receipt<J>) -> Option<Written>
    ensures { IfSome result (λ w. wrote receipt.now.deed.answer ≡ Some w) }
{
    match &receipt.deed().answer {
        Ok(
            Output {
                answer: Answer::Wrote(written),
                ..
            },
        ) => Some(*written),
        _ => None,
    }
}

/// Whether operations have this number and term.
pub(crate) fn has_write(operations: &[Op], seq: u64, term: u64) -> bool
    ensures { IsTrue result → IsAcknowledged operations.now seq term }
{
    for op in operations {
        if op.seq == seq && op.term == term {
            return true;
        }
    }
    false
}

/// Whether the entry of a receipt acknowledges a write.
pub(crate) fn acknowledges<J: IndexName>(receipt: &Receipt<J>, written: Written) -> bool
    ensures { IsTrue result → Acknowledges receipt.now written }
{
    match &receipt.deed().answer {
        Ok(output) => has_write(output.acknowledged.as_slice(), written.seq, written.term),
        Err(_) => false,
    }
}

/// Whether the second is of the same journal, at the place of the first or after it.
pub(crate) fn is_behind<J: IndexName>(first: &Receipt<J>, second: &Receipt<J>) -> bool
    ensures { IsTrue result → IsBehind first.now second.now }
{
    if second.node() != first.node() {
        return false;
    }
    first.agrees(second);
    let _entry = second.deed();
    first.place() <= second.place()
}

/// Whether each of some is so.
pub(crate) fn are_behind<J: IndexName>(first: &Receipt<J>, others: &[Receipt<J>]) -> bool
    ensures { IsTrue result → All (IsBehind first.now) others.now }
{
    for other in others {
        if !is_behind(first, other) {
            return false;
        }
    }
    true
}

/// Whether the second stands after the first, and ends the lead in which the first was written.
pub(crate) fn is_ended_by<J: IndexName>(first: &Receipt<J>, second: &Receipt<J>) -> bool
    ensures { IsTrue result → IsEndedBy first.now second.now }
{
    is_behind(first, second) && is_end(second)
}

/// Whether the copy leads no more with this entry, or leads again.
fn is_end<J: IndexName>(receipt: &Receipt<J>) -> bool
    ensures { result ≡ spec.is_end receipt.now.deed }
{
    match &receipt.deed().answer {
        Ok(output) => output.members == 0 || is_promotion(&receipt.deed().input),
        Err(CopyFault::Closed) | Err(CopyFault::NotPrimary) | Err(CopyFault::Log(_)) => true,
        Err(_) => false,
    }
}

/// Whether a copy was asked to take that it is the primary of a term.
fn is_promotion(input: &Input) -> bool
    ensures { result ≡ spec.is_promotion input.now }
{
    match input {
        Input::Take(message) => matches!(&message.content, Content::Promoted(_)),
        _ => false,
    }
}

/// Why the copy refused, where it did.
pub(crate) fn refusal_in<J: IndexName>(receipt: &Receipt<J>) -> Option<CopyFault>
    ensures { IfNone result (IsOk receipt.now.deed.answer) }
{
    match &receipt.deed().answer {
        Ok(_) => None,
        Err(fault) => Some(fault.copy()),
    }
}

/// Whether the copy answered that it isn't the primary, or is closed.
pub(crate) fn is_no_primary<J: IndexName>(receipt: &Receipt<J>) -> bool
    ensures { result ≡ spec.is_no_primary receipt.now.deed.answer }
{
    matches!(
        &receipt.deed().answer,
        Err(CopyFault::NotPrimary) | Err(CopyFault::Closed)
    )
}

/// Whether the log of the copy failed, now or before.
pub(crate) fn is_shut<J: IndexName>(receipt: &Receipt<J>) -> bool {
    matches!(
        &receipt.deed().answer,
        Err(CopyFault::Log(_)) | Err(CopyFault::Closed)
    )
}
