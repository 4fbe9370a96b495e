//! Searches in slots of operations in ascending order of their numbers.
ghost use Rattle.std.specs.Prelude.{◌≡◌, true, ◌≤◌, ◌<◌, ◌+◌, ◌^◌, ◌++◌, suc, length, drop, slice_get, List, None, IfOk, IfErr, IfSome};
ghost use Rattle.std.specs.Option.{option_map};
ghost use Rattle.op.specs.Operations.{IsAscending, op_at, add, below, from_number, last_on, local_count, next_seq, reached};
ghost use Rattle.op.specs.Records.{RunsFrom};
ghost use Rattle.op.specs.Checkpoint.{checkpoint_of};
ghost use Rattle.engine.specs.Place.{IsGap};
ghost use Rattle.op.specs.declared.operation.Op.{Op};
ghost use Rattle.engine.specs.Slot.{ops, whole_ops, AreHeld, IsReplaced};

use crate::operations::slot::Slot;
use doc::DocId;
use op::{Op, Operations};
use std::alloc::{AllocError, Global};

/// Where the number is, or where it would go.
pub(crate) fn place_of(slots: &[Slot], seq: u64) -> Result<usize, usize>
    requires { IsAscending (ops slots.now) }
    ensures found { IfOk result (λ at. slice_get (ops slots.now) at ≡ op_at (ops slots.now) seq) }
    ensures there { IfOk result (λ at. suc at ≤ length slots.now) }
    ensures absent { IfErr result (λ at. IsGap (ops slots.now) seq at) }
{
    if is_at(slots, seq) {
        return Ok(seq as usize);
    }
    if is_above(slots, seq) {
        return Err(slots.len());
    }
    slots.binary_search_by_key(&seq, |slot| slot.seq())
}

/// Whether the operation with the number stands where it stands if none is missing before it.
fn is_at(slots: &[Slot], seq: u64) -> bool
    requires { IsAscending (ops slots.now) }
    ensures found { result ≡ true → slice_get (ops slots.now) seq ≡ op_at (ops slots.now) seq }
    ensures there { result ≡ true → suc seq ≤ length slots.now }
{
    let at = seq as usize;
    at < slots.len() && slots[at].seq() == seq
}

/// Whether the number is greater than all of theirs.
fn is_above(slots: &[Slot], seq: u64) -> bool
    requires { IsAscending (ops slots.now) }
    ensures { result ≡ true → IsGap (ops slots.now) seq (length slots.now) }
{
    let len = slots.len();
    0 < len && slots[len - 1].seq() < seq
}

/// The number of the last operation on the id.
pub(crate) fn last_number_on(slots: &[Slot], id: &DocId) -> Option<u64>
    requires ascending { IsAscending (ops slots.now) }
    requires held { AreHeld (ops slots.now) slots.now }
    ensures { result ≡ option_map (λ o. o.seq) (last_on (ops slots.now) id.now) }
{
    let mut last = None;
    for slot in slots {
        if slot.is_on(id) {
            last = Some(slot.seq());
        }
    }
    last
}

/// The operations below a number, and after them the tail of a resync. It fails where memory dropped the text of one of the former.
pub(crate) fn resynced(
    alloc: Global,
    slots: &[Slot],
    count: u64,
    tail: &Operations,
) -> Result<Vec<Op>, AllocError>
    ensures { IfOk result (λ v. v.items ≡ below count (ops slots.now) ++ tail.now) }
{
    let mut all = Vec::new(alloc);
    for slot in slots {
        if slot.seq() < count {
            all.push(slot.copy(alloc)?)?;
        }
    }
    for op in tail.as_slice() {
        all.push(op.copy(alloc)?)?;
    }
    Ok(all)
}

/// Whether a resync that brings these operations after those below number `count` leaves all as they are, as far as memory knows.
pub(crate) fn is_resynced(slots: &[Slot], count: u64, tail: &[Op]) -> bool
    requires { IsAscending (ops slots.now) }
    ensures { result ≡ true → RunsFrom count tail.now → below count (ops slots.now) ++ tail.now ≡ ops slots.now }
{
    if slots.len() < tail.len() {
        return false;
    }
    let kept = slots.len() - tail.len();
    are_below(&slots[..kept], count) && are_same(&slots[kept..], tail)
}

/// Whether the last operation, and so each, has a number below this one.
fn are_below(slots: &[Slot], count: u64) -> bool
    requires { IsAscending (ops slots.now) }
    ensures { result ≡ true → below count (ops slots.now) ≡ ops slots.now }
{
    match slots {
        [] => true,
        [.., last] => last.seq() < count,
    }
}

/// Whether they are the same operations, as far as memory knows.
fn are_same(left: &[Slot], right: &[Op]) -> bool
    ensures { result ≡ true → ops left.now ≡ right.now }
{
    if left.len() != right.len() {
        return false;
    }
    for at in 0..left.len() {
        if !left[at].is(&right[at]) {
            return false;
        }
    }
    true
}

/// The greatest number, or -1 where there is none.
pub(crate) fn greatest(slots: &[Slot]) -> i64
    requires { next_seq (ops slots.now) ≤ 2 ^ 63 }
    ensures { result ≡ checkpoint_of (next_seq (ops slots.now)) }
{
    match slots {
        [] => -1,
        [.., last] => last.seq() as i64,
    }
}

/// How far the numbers go on from `from` without a gap: one past the last of them.
fn reached(from: u64, slots: &[Slot]) -> u64
    requires { from + length slots.now < 2 ^ 64 }
    ensures { result ≡ reached from (ops slots.now) }
{
    let mut next = from;
    for slot in slots {
        if slot.seq() != next {
            return next;
        }
        next += 1;
    }
    next
}

/// How many operations from number 0 up are there without a gap, once an operation is kept whose number is free.
pub(crate) fn local_count_with(slots: &[Slot], count: u64, op: &Op) -> u64
    requires up { IsAscending (ops slots.now) }
    requires counted { count ≡ local_count (ops slots.now) }
    requires free { op_at (ops slots.now) op.now.seq ≡ None }
    ensures { result ≡ local_count (add (ops slots.now) op.now) }
{
    if op.seq != count {
        return count;
    }
    reached(count + 1, &slots[count as usize..])
}

/// How many operations from number 0 up are there without a gap, where `count` were before others came after them.
pub(crate) fn local_count_on(slots: &[Slot], count: u64) -> u64
    requires { count ≤ length slots.now }
    ensures { result ≡ reached count (drop count (ops slots.now)) }
{
    reached(count, &slots[count as usize..])
}

/// The operations from a number on. It fails where memory dropped the text of one of them.
pub(crate) fn from_number(alloc: Global, slots: &[Slot], first: u64) -> Result<Vec<Op>, AllocError>
    ensures { IfOk result (λ v. v.items ≡ from_number first (ops slots.now)) }
{
    let mut found = Vec::new(alloc);
    for slot in slots {
        if slot.seq() >= first {
            found.push(slot.copy(alloc)?)?;
        }
    }
    Ok(found)
}

/// Whether the texts of all operations from a number on are there.
pub(crate) fn has_from(slots: &[Slot], first: u64) -> bool {
    for slot in slots {
        if slot.seq() >= first && slot.op().is_err() {
            return false;
        }
    }
    true
}

/// The operations whose text memory has.
pub(crate) fn whole(alloc: Global, slots: &[Slot]) -> Result<Vec<Op>, AllocError>
    ensures { IfOk result (λ v. v.items ≡ whole_ops slots.now) }
{
    let mut all = Vec::new(alloc);
    for slot in slots {
        if let Ok(op) = slot.op() {
            all.push(op.copy(alloc)?)?;
        }
    }
    Ok(all)
}

/// How many operations came first on their ids.
pub(crate) fn count_first(slots: &[Slot]) -> usize {
    let mut count = 0usize;
    for slot in slots {
        if slot.is_first() {
            count = count.saturating_add(1);
        }
    }
    count
}

/// Notes of each that is the first on its id that none that came with it is there too.
pub(crate) fn note_first(slots: &mut [Slot])
    ensures { slots.new ≡ slots.old }
{
    for at in 0..slots.len() {
        slots[at].note_first();
    }
}

/// Lets the text of the operation at a place go.
pub(crate) fn let_go(slots: &mut [Slot], at: usize)
    requires { at < length slots.old }
    ensures ops { ops slots.new ≡ ops slots.old }
    ensures held { (os : List Op) → AreHeld os slots.old → IfSome (slice_get (ops slots.old) at) (IsReplaced os) → AreHeld os slots.new }
{
    slots[at].let_go();
}
