//! The documents that operations make, as a list in byte order of their ids.
ghost use Rattle.std.specs.Prelude.{◌≡◌, ◌∷◌, [], true, None, Some, if◌then◌else◌, map, All, IfOk, IfSome, OnOk};
ghost use Rattle.std.specs.FinMap.Entries.{is_sorted};
ghost use Rattle.doc.specs.Id.{Id, id_cmp};
ghost use Rattle.op.specs.Documents.{document_at, documents};
ghost use Rattle.op.specs.Operations.{is_on, last_on, IsAscending};
ghost use Rattle.op.specs.Records.{operations};
ghost use Rattle.engine.specs.Entry.{entry_view};
ghost use Rattle.engine.specs.Latest.{last_in, left_all, left_of, AreOn, AreLastBy, AreLatest, Key};
ghost use Rattle.engine.specs.Parts.{is_among};
ghost use Rattle.engine.specs.Slot.{ops, AreHeld};

use crate::operations::history::History;
use crate::operations::slot::Slot;
use crate::read::last_of_each::last_of_each;
use doc::{DocId, Source};
use op::{Body, Op};
use std::alloc::{AllocError, Global};

/// A document, its id and its text where they stand in the operation that wrote it.
#[derive(Clone, Copy)]
pub(crate) struct Entry<'a> {
    pub(crate) id: &'a DocId,
    pub(crate) seq: u64,
    pub(crate) term: u64,
    pub(crate) version: u64,
    pub(crate) source: &'a Source,
}

/// The documents of operations in ascending order.
pub(crate) fn documents_of<'a>(
    alloc: Global,
    slots: &'a [Slot],
) -> Result<Vec<Entry<'a>>, AllocError>
    requires ascending { IsAscending (ops slots.now) }
    requires held { AreHeld (ops slots.now) slots.now }
    ensures { IfOk result (λ v. map entry_view v.items ≡ documents (ops slots.now)) }
{
    let latest = latest_of(alloc, slots)?;
    let entries = entries_left(alloc, &latest)?;
    Ok(entries)
}

/// The last operation on each id, in byte order of the ids. All are sorted at once: by far less is compared than where each goes to its place.
fn latest_of<'a>(alloc: Global, slots: &'a [Slot]) -> Result<Vec<&'a Op>, AllocError>
    requires ascending { IsAscending (ops slots.now) }
    requires held { AreHeld (ops slots.now) slots.now }
    ensures { IfOk result (λ v. AreLatest (ops slots.now) v.items) }
{
    let mut pairs = Vec::with_capacity(alloc, slots.len())?;
    for slot in slots {
        if let Ok(op) = slot.op() {
            note_last(&mut pairs, op)?;
        }
    }
    last_of_each(alloc, pairs)
}

/// Notes an operation at its id, where it has one.
fn note_last<'a>(pairs: &mut Vec<(&'a str, &'a Op)>, op: &'a Op) -> Result<(), AllocError>
    requires { AreOn pairs.old.items }
    ensures on { OnOk result (AreOn pairs.new.items) }
    ensures last { OnOk result ((q : Key) → last_in pairs.new.items q ≡ (if is_on q.now op.now then Some op.now else last_in pairs.old.items q)) }
{
    match &op.body {
        Body::Index(id, _) => {
            pairs.push((id.as_str(), op))?;
            Ok(())
        }
        Body::Delete(id) => {
            pairs.push((id.as_str(), op))?;
            Ok(())
        }
        Body::NoOp => Ok(()),
    }
}

/// The documents that operations on different ids leave.
fn entries_left<'a>(alloc: Global, operations: &[&'a Op]) -> Result<Vec<Entry<'a>>, AllocError>
    ensures { IfOk result (λ v. map entry_view v.items ≡ left_all operations.now) }
{
    let mut entries = Vec::with_capacity(alloc, operations.len())?;
    for op in operations {
        if let Some(entry) = entry_left(op) {
            entries.push(entry)?;
        }
    }
    Ok(entries)
}

/// The document that an operation leaves.
fn entry_left(op: &Op) -> Option<Entry<'_>>
    ensures some { IfSome result (λ e. left_of op.now op.now.body ≡ entry_view e ∷ []) }
    ensures none { result ≡ None → left_of op.now op.now.body ≡ [] }
{
    match &op.body {
        Body::Index(id, source) => Some(Entry {
            id,
            seq: op.seq,
            term: op.term,
            version: op.version,
            source,
        }),
        Body::Delete(_) => None,
        Body::NoOp => None,
    }
}

/// The documents that some operations make, which aren't kept in an index.
pub(crate) fn documents_made<'a>(
    alloc: Global,
    operations: &'a [Op],
) -> Result<Vec<Entry<'a>>, AllocError>
    ensures { IfOk result (λ v. map entry_view v.items ≡ documents operations.now) }
{
    let latest = latest_in(alloc, operations)?;
    let entries = entries_left(alloc, &latest)?;
    Ok(entries)
}

/// The last of them on each id.
fn latest_in<'a>(alloc: Global, operations: &'a [Op]) -> Result<Vec<&'a Op>, AllocError>
    ensures { IfOk result (λ v. AreLatest operations.now v.items) }
{
    let mut pairs = Vec::with_capacity(alloc, operations.len())?;
    for op in operations {
        note_last(&mut pairs, op)?;
    }
    last_of_each(alloc, pairs)
}

/// The documents that are at some ids, in byte order.
pub(crate) fn documents_at<'a>(
    alloc: Global,
    history: &'a History,
    ids: &[DocId],
) -> Result<Vec<Entry<'a>>, AllocError>
    ensures sorted { IfOk result (λ v. is_sorted id_cmp (map entry_view v.items) ≡ true) }
    ensures found { IfOk result (λ v. (id : Id) → document_at (map entry_view v.items) id ≡ (if is_among ids.now id then document_at (documents (operations history.now.records)) id else None)) }
{
    let latest = latest_at(alloc, history, ids)?;
    let entries = entries_left(alloc, &latest)?;
    Ok(entries)
}

/// The last operation on each of some ids. Sorted at once, too.
fn latest_at<'a>(
    alloc: Global,
    history: &'a History,
    ids: &[DocId],
) -> Result<Vec<&'a Op>, AllocError>
    ensures { IfOk result (λ v. AreLastBy (λ id. if is_among ids.now id then last_on (operations history.now.records) id else None) v.items) }
{
    let mut noted = Vec::with_capacity(alloc, ids.len())?;
    for id in ids {
        if let Some(op) = history.last(id) {
            note_last(&mut noted, op)?;
        }
    }
    last_of_each(alloc, noted)
}
