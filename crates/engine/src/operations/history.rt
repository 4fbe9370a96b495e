//! The records of a copy, and their operations.
ghost use Rattle.std.specs.Prelude.{◌≡◌, ◌<◌, ◌≤◌, ◌^◌, ◌||◌, ◌++◌, true, false, None, is_some, if◌then◌else◌, All, drop, IfOk, IfSome, OnOk, OnErr};
ghost use Rattle.chronicle.specs.Written.{written};
ghost use Rattle.doc.specs.Id.{Id};
ghost use Rattle.std.specs.Arc.{arc_value};
ghost use Rattle.std.specs.Option.{option_copied, option_map};
ghost use Rattle.op.specs.Checkpoint.{checkpoint_of, known};
ghost use Rattle.op.specs.Documents.{left_by};
ghost use Rattle.op.specs.Operations.{IsAscending, add, from_number, is_on, is_stale, last_on, local_checkpoint, next_seq, op_at};
ghost use Rattle.op.specs.Records.{IsRecord, operations, shown};
ghost use Rattle.engine.specs.Found.{found_document};
ghost use Rattle.engine.specs.Kept.{items_of, IsKept};
ghost use Rattle.engine.specs.OperationIndex.{operations_in};
ghost use Rattle.engine.specs.Parts.{is_among};
ghost use Rattle.engine.specs.Slot.{ops, AreHeld};
ghost use Rattle.engine.specs.SnapshotChange.{is_op, is_write, StayShown};
ghost use Rattle.std.specs.List.{list_any, AllPass};

use crate::operations::operation_index::{OperationIndex, latest_numbers};
use crate::operations::ordered::ordered_of;
use crate::operations::slot::{LetGo, Slot};
use chronicle::{Chronicle, Writer};
use doc::{DocId, Source};
use op::{Body, Op, Operations, Record, checkpoint};
use seed::Seed;
use std::alloc::{AllocError, Global};
use std::marker::Model;
use std::mem;
use std::sync::Arc;

mod unindexed;

pub(crate) use unindexed::Unindexed;

/// What became of a record.
#[derive(Clone, Copy, Debug, PartialEq, Eq)]
pub enum Applied {
    /// It is kept, and nothing newer is on its id.
    Taken,
    /// It is kept, and an operation with a greater number is on its id.
    Stale,
    /// Its number was there; nothing changed.
    Repeated,
}

/// A document that is there, with the operation that wrote it.
#[derive(Clone, Copy)]
pub struct Found<'a> {
    pub seq: u64,
    pub term: u64,
    pub version: u64,
    pub source: &'a Source,
}

/// How many records memory may forget. They count within 64 bits with those that it has.
const MOST_FORGOTTEN: usize = 1 << 63;

/// The records in the order in which they came, and their operations in order of number. Memory has the records from a place on, clauses see all of them.
pub(crate) struct History {
    chronicle: Chronicle<Record>,
    before: Writer<Record>,
    begin: usize,
    /// Records that were handed out to be read elsewhere.
    shared: Option<Arc<Vec<Record>, Global>>,
    recent: Vec<Record>,
    operations: OperationIndex,
    /// Behind so many records each one that isn't an operation left the operations as they were.
    rebuilt: usize,
    /// Behind so many records only operations came, each with a number above all before it.
    risen: usize,
}

impl Drop for History {
    fn drop(self) {
        let History {
            chronicle: _chronicle,
            before: _before,
            begin: _,
            shared: _shared,
            recent: _recent,
            operations: _operations,
            rebuilt: _,
            risen: _,
        } = self;
    }
}

impl Model for History {
    ghost use Rattle.std.specs.Prelude.{◌≡◌, ◌≤◌, ◌+◌, ◌^◌, ◌++◌, [], length};
    ghost use Rattle.engine.specs.Kept.{items_of, HasRisen, HistoryData, IsKept, IsQuiet};

    ghost Value = { HistoryData };

    ghost view = { λ h. record { records = (h.before.entries ++ items_of h.shared) ++ h.recent.items; begin = h.begin } };

    ghost invariant = { λ h. IsKept h.operations ((h.before.entries ++ items_of h.shared) ++ h.recent.items) × (h.before.line.book ≡ h.chronicle) × (length h.before.entries ≡ h.begin) × (h.begin + length (items_of h.shared) ≤ 2 ^ 63) × IsQuiet [] h.rebuilt ((h.before.entries ++ items_of h.shared) ++ h.recent.items) × HasRisen h.risen ((h.before.entries ++ items_of h.shared) ++ h.recent.items) };
}

impl History {
    ghost use Rattle.std.specs.Prelude.{length};
    ghost use Rattle.op.specs.Documents.{document_at, documents};
    ghost use Rattle.engine.specs.Applied.{applied_of, records_after, RiseFrom};

    /// The history that these records are, which memory has forgotten, as the texts that newer operations replaced. No text is copied.
    pub(crate) fn opened(
        alloc: Global,
        seed: Seed,
        records: Vec<Record>,
    ) -> Result<History, AllocError>
        requires { All IsRecord records.items }
        ensures { IfOk result (λ h. h ≡ record { records = records.items; begin = length records.items }) }
    {
        let chronicle = Chronicle::new();
        let mut before = chronicle.writer();
        append_all(&chronicle, &mut before, &records);
        let len = records.len();
        let mut operations = operations_of(alloc, seed, records)?;
        operations.let_go();
        Ok(History {
            chronicle,
            before,
            begin: len,
            shared: None,
            recent: Vec::new(alloc),
            operations,
            rebuilt: len,
            risen: len,
        })
    }

    /// What its tables hash with.
    pub(crate) fn seed(&self) -> Seed {
        self.operations.seed()
    }

    /// Brings back the texts that memory dropped, from its own records. It changes nothing else.
    pub(crate) fn take_back(
        &mut self,
        alloc: Global,
        records: Vec<Record>,
    ) -> Result<(), AllocError>
        requires own { records.items ≡ self.old.records }
        requires rules { All IsRecord records.items }
        ensures { self.new ≡ self.old }
    {
        let operations = operations_of(alloc, self.seed(), records)?;
        self.operations = operations;
        Ok(())
    }

    /// Whether memory dropped no text.
    pub(crate) fn has_all(&self) -> bool {
        self.operations.has_all()
    }

    /// Whether the texts are there of all operations above a checkpoint.
    pub(crate) fn has_above(&self, global: i64) -> bool {
        self.operations.has_from(checkpoint::count(global))
    }

    /// Whether a resync from a checkpoint on needs no text that memory dropped: it leaves all as it is, or all texts are there.
    pub(crate) fn may_resync(&self, global: i64, tail: &Operations) -> bool {
        self.has_all() || self.operations.is_resynced(checkpoint::count(global), tail)
    }

    /// Lets memory forget the records that are there, and texts that newer operations replaced. Clauses see them still.
    pub(crate) fn forget(&mut self)
        ensures records { self.new.records ≡ self.old.records }
        ensures begin { self.new.begin ≤ length self.new.records }
    {
        self.operations.let_go();
        let end = self.len();
        if end <= MOST_FORGOTTEN {
            append_all(&self.chronicle, &mut self.before, shared_of(&self.shared));
            append_all(&self.chronicle, &mut self.before, &self.recent);
            self.shared = None;
            self.recent.clear();
            self.recent.shrink_to_fit();
            self.begin = end;
        }
    }

    /// Lets memory forget texts that newer operations replaced, and the records that were handed out, where they end at a point.
    /// The caller gets these records and drops them.
    pub(crate) fn forget_to(&mut self, point: usize) -> Option<Arc<Vec<Record>, Global>>
        requires begin { self.old.begin ≤ point }
        requires within { point ≤ length self.old.records }
        ensures records { self.new.records ≡ self.old.records }
        ensures begin { self.new.begin ≤ point }
    {
        self.operations.let_go();
        if point - self.begin != shared_of(&self.shared).len() {
            return None;
        }
        append_all(&self.chronicle, &mut self.before, shared_of(&self.shared));
        self.begin = point;
        self.shared.take()
    }

    /// Hands out the records after a point, where memory forgot all before it, only operations came there, and each had a number above all before it.
    pub(crate) fn share(
        &mut self,
        alloc: Global,
        point: usize,
    ) -> Result<Option<Arc<Vec<Record>, Global>>, AllocError>
        requires begin { self.old.begin ≤ point }
        requires within { point ≤ length self.old.records }
        ensures same { self.new ≡ self.old }
        ensures are { IfOk result (λ o. IfSome o (λ r. (arc_value r).items ≡ drop point self.old.records)) }
        ensures behind { IfOk result (λ o. IfSome o (λ r. operations self.old.records ≡ shown self.old.records point ++ operations_in (arc_value r).items)) }
    {
        if point < self.risen || point != self.begin || self.shared.is_some() {
            return Ok(None);
        }
        if self.len() > MOST_FORGOTTEN {
            return Ok(None);
        }
        let mut shared = Arc::new(alloc, Vec::new(alloc))?;
        let Some(place) = Arc::get_mut(&mut shared) else {
            return Ok(None);
        };
        mem::swap(place, &mut self.recent);
        self.shared = Some(shared);
        again(&self.shared)
    }

    /// How many records there are.
    pub(crate) fn len(&self) -> usize
        ensures { result ≡ length self.now.records }
    {
        self.begin + shared_of(&self.shared).len() + self.recent.len()
    }

    /// The operations in order of number, as memory has them.
    pub(crate) fn slots(&self) -> &[Slot]
        ensures same { ops result.now ≡ operations self.now.records }
        ensures ascending { IsAscending (ops result.now) }
        ensures held { AreHeld (ops result.now) result.now }
    {
        self.operations.as_slice()
    }

    /// The last operation on the id.
    pub(crate) fn last(&self, id: &DocId) -> Option<&Op>
        ensures { option_copied result ≡ last_on (operations self.now.records) id.now }
    {
        self.operations.last_on(id)
    }

    /// The document with the id.
    pub(crate) fn get(&self, id: &DocId) -> Option<Found<'_>>
        ensures { option_map found_document result ≡ document_at (documents (operations self.now.records)) id.now }
    {
        match self.last(id) {
            Some(op) => document_of(op),
            None => None,
        }
    }

    /// The operation with the number.
    pub(crate) fn op_at(&self, seq: u64) -> Result<Option<&Op>, LetGo>
        ensures ok { IfOk result (λ o. option_copied o ≡ op_at (operations self.now.records) seq) }
        ensures gone { OnErr result (is_some (op_at (operations self.now.records) seq) ≡ true) }
    {
        self.operations.op_at(seq)
    }

    /// The greatest number, or -1 where there is none.
    pub(crate) fn greatest(&self) -> i64
        ensures number { result ≡ checkpoint_of (next_seq (operations self.now.records)) }
        ensures ascending { IsAscending (operations self.now.records) }
    {
        self.operations.greatest()
    }

    /// The greatest number up to which none is missing, or -1.
    pub(crate) fn local(&self) -> i64
        ensures number { result ≡ local_checkpoint (operations self.now.records) }
        ensures ascending { IsAscending (operations self.now.records) }
    {
        checkpoint::from_count(self.operations.local())
    }

    /// The greatest number up to which none is missing, or -1, once an operation is kept whose number is free.
    pub(crate) fn local_with(&self, op: &Op) -> i64
        requires small { op.now.seq < 2 ^ 63 }
        requires free { op_at (operations self.now.records) op.now.seq ≡ None }
        ensures { result ≡ local_checkpoint (add (operations self.now.records) op.now) }
    {
        checkpoint::from_count(self.operations.local_with(op))
    }

    /// Whether an operation on the same id has a greater number.
    pub(crate) fn is_stale(&self, op: &Op) -> bool
        ensures { result ≡ is_stale (operations self.now.records) op.now }
    {
        self.operations.is_stale(op)
    }

    /// The operations above a checkpoint. It fails where memory dropped the text of one of them.
    pub(crate) fn above(&self, alloc: Global, global: i64) -> Result<Vec<Op>, AllocError>
        ensures { IfOk result (λ v. v.items ≡ from_number (known global) (operations self.now.records)) }
    {
        self.operations
            .from_number(alloc, checkpoint::count(global))
    }

    /// The last operation on each id, and others.
    pub(crate) fn last_ops(&self, alloc: Global) -> Result<Vec<Op>, AllocError>
        ensures { IfOk result (λ v. (id : Id) → last_on v.items id ≡ last_on (operations self.now.records) id) }
    {
        self.operations.last_ops(alloc)
    }

    /// The ids of the operations that came after a point, if nothing else came there that changed the operations.
    pub(crate) fn ids_since(
        &self,
        alloc: Global,
        point: usize,
    ) -> Result<Option<Vec<DocId>>, AllocError>
        requires begin { self.now.begin ≤ point }
        requires within { point ≤ length self.now.records }
        ensures others { IfOk result (λ ids. IfSome ids (λ v. (id : Id) → is_among v.items id ≡ false → last_on (operations self.now.records) id ≡ last_on (shown self.now.records point) id)) }
        ensures only { IfOk result (λ ids. AllPass is_op (drop point self.now.records) → ids ≡ None → ⊥) }
        ensures are { IfOk result (λ ids. IfSome ids (λ v. (id : Id) → is_among v.items id ≡ list_any (is_write id) (drop point self.now.records))) }
        ensures stay { IfOk result (λ ids. IfSome ids (λ v. StayShown self.now.records point (length self.now.records))) }
    {
        let since = self.since(alloc, point)?;
        let mut ids = Vec::new(alloc);
        let mut left = self.rebuilt.saturating_sub(point);
        for kept in &since {
            let is_op = push_written(alloc, &mut ids, kept)?;
            if !is_op && left > 0 {
                return Ok(None);
            }
            left = left.saturating_sub(1);
        }
        Ok(Some(ids))
    }

    /// The records after a point.
    fn since(&self, alloc: Global, point: usize) -> Result<Vec<Record>, AllocError>
        requires begin { self.now.begin ≤ point }
        requires within { point ≤ length self.now.records }
        ensures { IfOk result (λ v. v.items ≡ drop point self.now.records) }
    {
        let shared = shared_of(&self.shared);
        let skipped = point - self.begin;
        let mut since = Vec::with_capacity(alloc, self.len() - point)?;
        push_copies(alloc, &mut since, behind(shared, skipped))?;
        let more = behind(&self.recent, skipped.saturating_sub(shared.len()));
        push_copies(alloc, &mut since, more)?;
        Ok(since)
    }

    /// Keeps the record, where it isn't an operation whose number is there.
    pub(crate) fn apply(&mut self, alloc: Global, kept: &Record) -> Result<Applied, AllocError>
        requires { IsRecord kept.now }
        ensures answer { IfOk result (λ a. a ≡ applied_of (operations self.old.records) kept.now) }
        ensures records { IfOk result (λ a. self.new.records ≡ records_after self.old.records kept.now a) }
        ensures begin { self.new.begin ≡ self.old.begin }
        ensures err { OnErr result (self.new.records ≡ self.old.records) }
    {
        let applied = self.operations.applied_of(kept);
        if let Applied::Repeated = applied {
            return Ok(applied);
        }
        self.recent.reserve(1)?;
        let copy = kept.copy(alloc)?;
        let is_next = self.operations.is_next(kept);
        let is_quiet = self.operations.keep(alloc, kept.copy(alloc)?)?;
        self.recent.push(copy)?;
        let len = self.begin + shared_of(&self.shared).len() + self.recent.len();
        self.rebuilt = before_rule(is_quiet, self.rebuilt, len);
        self.risen = before_rule(is_next, self.risen, len);
        Ok(applied)
    }

    /// Keeps these records: all of them, or none where memory runs out.
    pub(crate) fn apply_all(
        &mut self,
        alloc: Global,
        records: Vec<Record>,
    ) -> Result<(), AllocError>
        requires { RiseFrom (next_seq (operations self.old.records)) records.items }
        ensures ok { OnOk result (self.new.records ≡ self.old.records ++ records.items) }
        ensures begin { self.new.begin ≡ self.old.begin }
        ensures err { OnErr result (self.new.records ≡ self.old.records) }
    {
        let mut records = records;
        self.recent.reserve(records.len())?;
        self.operations.add_all(alloc, &records)?;
        self.recent.append(&mut records)?;
        Ok(())
    }
}

/// The operations of records.
fn operations_of(
    alloc: Global,
    seed: Seed,
    records: Vec<Record>,
) -> Result<OperationIndex, AllocError>
    requires { All IsRecord records.items }
    ensures { IfOk result (λ i. IsKept i records.items) }
{
    let ordered = ordered_of(alloc, records)?;
    let latest = latest_numbers(alloc, seed, ordered.slots())?;
    Ok(OperationIndex::over(ordered, latest))
}

/// Notes records after those that are noted.
pub(crate) fn append_all(
    chronicle: &Chronicle<Record>,
    before: &mut Writer<Record>,
    records: &[Record],
)
    requires { chronicle.now ≡ before.old.line.book }
    ensures { before.new ≡ written before.old.line (before.old.entries ++ records.now) }
{
    for kept in records {
        let _mark = before.append(chronicle, kept);
    }
}

/// Records that were handed out; none where none were.
fn shared_of(shared: &Option<Arc<Vec<Record>, Global>>) -> &[Record]
    ensures { result.now ≡ items_of shared.now }
{
    match shared {
        Some(records) => records,
        None => &[],
    }
}

/// Another handle on records that were handed out.
fn again(
    shared: &Option<Arc<Vec<Record>, Global>>,
) -> Result<Option<Arc<Vec<Record>, Global>>, AllocError>
    ensures { IfOk result (λ o. items_of o ≡ items_of shared.now) }
{
    match shared {
        Some(records) => Ok(Some(Arc::try_clone(records)?)),
        None => Ok(None),
    }
}

/// The records after the first so many.
fn behind(records: &[Record], count: usize) -> &[Record]
    ensures { result.now ≡ drop count records.now }
{
    let skipped = records.len().min(count);
    &records[skipped..]
}

/// Adds copies of records.
fn push_copies(alloc: Global, all: &mut Vec<Record>, records: &[Record]) -> Result<(), AllocError>
    ensures { OnOk result (all.new.items ≡ all.old.items ++ records.now) }
{
    for kept in records {
        all.push(kept.copy(alloc)?)?;
    }
    Ok(())
}

/// How many records stand before those that keep a rule, once there are so many: all, where the last one doesn't.
fn before_rule(keeps: bool, before: usize, len: usize) -> usize
    ensures { result ≡ (if keeps then before else len) }
{
    if keeps { before } else { len }
}

/// Adds the id that a record writes, and tells whether it is an operation.
fn push_written(alloc: Global, ids: &mut Vec<DocId>, kept: &Record) -> Result<bool, AllocError>
    ensures ids { OnOk result ((id : Id) → is_among ids.new.items id ≡ (is_among ids.old.items id || is_write id kept.now)) }
    ensures is { IfOk result (λ b. b ≡ is_op kept.now) }
{
    match kept {
        Record::Op(_, op) => {
            push_id(alloc, ids, op)?;
            Ok(true)
        }
        Record::Resync(_, _, _) => Ok(false),
        Record::Recover(_, _) => Ok(false),
    }
}

/// Adds the id of an operation.
fn push_id(alloc: Global, ids: &mut Vec<DocId>, op: &Op) -> Result<(), AllocError>
    ensures { OnOk result ((id : Id) → is_among ids.new.items id ≡ (is_among ids.old.items id || is_on id op.now)) }
{
    match &op.body {
        Body::Index(id, _) => {
            ids.push(id.copy(alloc)?)?;
            Ok(())
        }
        Body::Delete(id) => {
            ids.push(id.copy(alloc)?)?;
            Ok(())
        }
        Body::NoOp => Ok(()),
    }
}

/// The document that an operation leaves: that of an index.
fn document_of(op: &Op) -> Option<Found<'_>>
    ensures { option_map found_document result ≡ left_by op.now op.now.body }
{
    match &op.body {
        Body::Index(_, source) => Some(Found {
            seq: op.seq,
            term: op.term,
            version: op.version,
            source,
        }),
        Body::Delete(_) => None,
        Body::NoOp => None,
    }
}
