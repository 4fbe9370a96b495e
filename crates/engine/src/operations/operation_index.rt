//! The operations of a copy in order of number, found by number and by id without a walk. Memory drops the texts of those that newer ones replaced.
ghost use Rattle.std.specs.Prelude.{◌≡◌, ◌≤◌, ◌^◌, ◌++◌, true, false, ℕ, Option, None, [], fold, is_some, if◌then◌else◌, IfOk, IfSome, OnOk, OnErr};
ghost use Rattle.std.specs.Option.{option_copied, option_map, option_or};
ghost use Rattle.doc.specs.Id.{Id, is_id};
ghost use Rattle.op.specs.Checkpoint.{checkpoint_of};
ghost use Rattle.op.specs.Operations.{IsAscending, add, below, from_number, is_newer, is_on, is_stale, last_on, local_count, next_seq, op_at};
ghost use Rattle.op.specs.Records.{IsRecord, RunsFrom, after_record};
ghost use Rattle.engine.specs.Applied as spec;
ghost use Rattle.engine.specs.Applied.{RiseFrom};
ghost use Rattle.engine.specs.SnapshotChange.{is_op};
ghost use Rattle.engine.specs.IdTables.{number_among, HaveLast};
ghost use Rattle.engine.specs.Kept.{IsNext};
ghost use Rattle.engine.specs.OperationIndex.{noted, operations_in, raised};
ghost use Rattle.engine.specs.Slot.{ops, AreHeld, AreWhole, IsReplaced};

use crate::operations::history::Applied;
use crate::operations::latest::Latest;
use crate::operations::ordered::Ordered;
use crate::operations::slot::{LetGo, Slot};
use crate::operations::slots;
use doc::DocId;
use op::{Body, Op, Operations, Record, checkpoint};
use seed::Seed;
use std::alloc::{AllocError, Global};
use std::marker::Model;

/// So many of the last operations keep their texts: those that a primary has unacknowledged, and the tail of a resync, lie among them.
const NEAR: usize = 1024;

/// Operations in ascending order of their numbers.
pub(crate) struct OperationIndex {
    slots: Vec<Slot>,
    latest: Latest,
    local: u64,
    /// Up to this place it was looked at what each operation replaced.
    settled: usize,
    has_all: bool,
}

impl Drop for OperationIndex {
    fn drop(self) {
        let OperationIndex {
            slots: _slots,
            latest: _latest,
            local: _,
            settled: _,
            has_all: _,
        } = self;
    }
}

impl Model for OperationIndex {
    ghost use Rattle.std.specs.Prelude.{List};
    ghost use Rattle.op.specs.declared.operation.Op.{Op};
    ghost use Rattle.engine.specs.SnapshotChange.{is_op};
    ghost use Rattle.engine.specs.IdTables.{number_among};
    ghost use Rattle.engine.specs.OperationIndex.{IsIndexed};
    ghost use Rattle.engine.specs.Slot.{ops, AreHeld};

    ghost Value = { List Op };

    ghost view = { λ i. ops i.slots.items };

    ghost invariant = { λ i. IsIndexed (ops i.slots.items) (λ id. number_among i.latest.tables.items id) i.local × AreHeld (ops i.slots.items) i.slots.items };
}

impl OperationIndex {
    /// No operations.
    pub(crate) fn new(alloc: Global, seed: Seed) -> OperationIndex
        ensures { result ≡ [] }
    {
        OperationIndex {
            slots: Vec::new(alloc),
            latest: Latest::new(alloc, seed),
            local: 0,
            settled: 0,
            has_all: true,
        }
    }

    /// No operations, and room for so many: no table grows much while they come.
    pub(crate) fn with_room(
        alloc: Global,
        seed: Seed,
        room: usize,
    ) -> Result<OperationIndex, AllocError>
        ensures { IfOk result (λ i. i ≡ []) }
    {
        Ok(OperationIndex {
            slots: Vec::with_capacity(alloc, room)?,
            latest: Latest::with_room(alloc, seed, room)?,
            local: 0,
            settled: 0,
            has_all: true,
        })
    }

    /// What its tables hash with.
    pub(crate) fn seed(&self) -> Seed {
        self.latest.seed()
    }

    /// These operations.
    fn of(alloc: Global, seed: Seed, operations: &[Op]) -> Result<OperationIndex, AllocError>
        requires { IsAscending operations.now }
        ensures { IfOk result (λ i. i ≡ operations.now) }
    {
        let mut index = OperationIndex::with_room(alloc, seed, operations.len())?;
        for op in operations {
            index.add(alloc, op.copy(alloc)?)?;
        }
        Ok(index)
    }

    /// These operations, with what was noted of them by id.
    pub(crate) fn over(ordered: Ordered, latest: Latest) -> OperationIndex
        requires { HaveLast ordered latest.tables.items }
        ensures { result ≡ ordered }
    {
        let slots = ordered.into_slots();
        let local = slots::local_count_on(&slots, 0);
        // Where there are as many ids as operations, none of these replaced another.
        let settled = if latest.len() == slots.len() {
            slots.len()
        } else {
            0
        };
        OperationIndex {
            slots,
            latest,
            local,
            settled,
            has_all: true,
        }
    }

    pub(crate) fn as_slice(&self) -> &[Slot]
        ensures same { ops result.now ≡ self.now }
        ensures held { AreHeld (ops result.now) result.now }
        ensures ascending { IsAscending self.now }
    {
        &self.slots
    }

    /// Whether memory dropped no text.
    pub(crate) fn has_all(&self) -> bool {
        self.has_all
    }

    /// Whether the texts of all operations from a number on are there.
    pub(crate) fn has_from(&self, first: u64) -> bool {
        slots::has_from(&self.slots, first)
    }

    /// The greatest number, or -1 where there is none.
    pub(crate) fn greatest(&self) -> i64
        requires { next_seq self.now ≤ 2 ^ 63 }
        ensures { result ≡ checkpoint_of (next_seq self.now) }
    {
        slots::greatest(&self.slots)
    }

    /// Whether a record is an operation with a number above all that are there.
    pub(crate) fn is_next(&self, kept: &Record) -> bool
        requires { next_seq self.now ≤ 2 ^ 63 }
        ensures { result ≡ true → IsNext self.now kept.now }
    {
        match kept {
            Record::Op(_, op) => checkpoint::count(self.greatest()) <= op.seq,
            Record::Resync(_, _, _) => false,
            Record::Recover(_, _) => false,
        }
    }

    /// The operations from a number on. It fails where memory dropped the text of one of them.
    pub(crate) fn from_number(&self, alloc: Global, first: u64) -> Result<Vec<Op>, AllocError>
        ensures { IfOk result (λ v. v.items ≡ from_number first self.now) }
    {
        slots::from_number(alloc, &self.slots, first)
    }

    /// How many operations from number 0 up are there without a gap.
    pub(crate) fn local(&self) -> u64
        ensures { result ≡ local_count self.now }
    {
        self.local
    }

    /// The last operation on each id, and others.
    pub(crate) fn last_ops(&self, alloc: Global) -> Result<Vec<Op>, AllocError>
        ensures { IfOk result (λ v. (id : Id) → last_on v.items id ≡ last_on self.now id) }
    {
        slots::whole(alloc, &self.slots)
    }

    /// Whether there is an operation with the number.
    fn has(&self, seq: u64) -> bool
        ensures { result ≡ is_some (op_at self.now seq) }
    {
        match slots::place_of(&self.slots, seq) {
            Ok(_) => true,
            Err(_) => false,
        }
    }

    /// The operation with the number.
    pub(crate) fn op_at(&self, seq: u64) -> Result<Option<&Op>, LetGo>
        ensures ok { IfOk result (λ o. option_copied o ≡ op_at self.now seq) }
        ensures gone { OnErr result (is_some (op_at self.now seq) ≡ true) }
    {
        match slots::place_of(&self.slots, seq) {
            Ok(at) => {
                let op = self.slots[at].op()?;
                Ok(Some(op))
            }
            Err(_) => Ok(None),
        }
    }

    /// The number of the last operation on the id.
    fn number_on(&self, id: &DocId) -> Option<u64>
        ensures number { result ≡ option_map (λ o. o.seq) (last_on self.now id.now) }
        ensures ascending { IsAscending self.now }
    {
        match id.copy(*self.slots.allocator()) {
            Ok(shared) => self.latest.number_on(shared),
            // The text has as many owners as can be counted.
            Err(_) => slots::last_number_on(&self.slots, id),
        }
    }

    /// The last operation on the id.
    pub(crate) fn last_on(&self, id: &DocId) -> Option<&Op>
        ensures { option_copied result ≡ last_on self.now id.now }
    {
        let seq = self.number_on(id)?;
        let Ok(at) = slots::place_of(&self.slots, seq) else {
            return None;
        };
        match self.slots[at].op() {
            Ok(op) => Some(op),
            Err(_) => None,
        }
    }

    /// Whether an operation on the id has a greater number.
    fn has_newer(&self, id: &DocId, seq: u64) -> bool
        ensures { result ≡ is_newer (last_on self.now id.now) seq }
    {
        match self.number_on(id) {
            Some(last) => seq < last,
            None => false,
        }
    }

    /// Whether an operation on the same id has a greater number.
    pub(crate) fn is_stale(&self, op: &Op) -> bool
        ensures { result ≡ is_stale self.now op.now }
    {
        match &op.body {
            Body::Index(id, _) => self.has_newer(id, op.seq),
            Body::Delete(id) => self.has_newer(id, op.seq),
            Body::NoOp => false,
        }
    }

    /// What becomes of a record.
    pub(crate) fn applied_of(&self, kept: &Record) -> Applied
        ensures { result ≡ spec.applied_of self.now kept.now }
    {
        match kept {
            Record::Op(_, op) => self.outcome(op),
            Record::Resync(_, _, _) => Applied::Taken,
            Record::Recover(_, _) => Applied::Taken,
        }
    }

    /// What becomes of an operation.
    fn outcome(&self, op: &Op) -> Applied
        ensures { result ≡ spec.outcome self.now op.now }
    {
        if self.has(op.seq) {
            Applied::Repeated
        } else if self.is_stale(op) {
            Applied::Stale
        } else {
            Applied::Taken
        }
    }

    /// How many operations from number 0 up are there without a gap, once an operation is kept whose number is free.
    pub(crate) fn local_with(&self, op: &Op) -> u64
        requires { op_at self.now op.now.seq ≡ None }
        ensures { result ≡ local_count (add self.now op.now) }
    {
        slots::local_count_with(&self.slots, self.local, op)
    }

    /// Takes one more record. Tells whether the operations stay as they are, where it isn't an operation.
    pub(crate) fn keep(&mut self, alloc: Global, kept: Record) -> Result<bool, AllocError>
        requires { IsRecord kept }
        ensures ok { OnOk result (self.new ≡ after_record self.old kept) }
        ensures quiet { IfOk result (λ b. b ≡ true → is_op kept ≡ false → after_record self.old kept ≡ self.old) }
        ensures err { OnErr result (self.new ≡ self.old) }
    {
        match kept {
            Record::Op(_, op) => {
                self.add(alloc, op)?;
                Ok(true)
            }
            Record::Resync(_, known, tail) => self.resync(alloc, checkpoint::count(known), &tail),
            Record::Recover(_, all) => {
                *self = OperationIndex::of(alloc, self.seed(), all.as_slice())?;
                Ok(false)
            }
        }
    }

    /// Takes these operations after those below number `count`, and tells whether all stays as it is. A copy that continues where it was is resynced
    /// at each start; this makes nothing anew. If it has to make anything anew, it fails where memory dropped the text of an operation that stays.
    fn resync(&mut self, alloc: Global, count: u64, tail: &Operations) -> Result<bool, AllocError>
        requires { RunsFrom count tail.now }
        ensures ok { OnOk result (self.new ≡ below count self.old ++ tail.now) }
        ensures quiet { IfOk result (λ b. b ≡ true → below count self.old ++ tail.now ≡ self.old) }
        ensures err { OnErr result (self.new ≡ self.old) }
    {
        if self.is_resynced(count, tail) {
            return Ok(true);
        }
        let all = slots::resynced(alloc, &self.slots, count, tail)?;
        *self = OperationIndex::of(alloc, self.seed(), &all)?;
        Ok(false)
    }

    /// Whether these operations, taken after those below number `count`, leave all as it is, as far as memory knows.
    pub(crate) fn is_resynced(&self, count: u64, tail: &Operations) -> bool
        ensures { result ≡ true → RunsFrom count tail.now → below count self.now ++ tail.now ≡ self.now }
    {
        slots::is_resynced(&self.slots, count, tail.as_slice())
    }

    /// Adds the operation, where its number is free.
    pub(crate) fn add(&mut self, alloc: Global, op: Op) -> Result<(), AllocError>
        ensures ok { OnOk result (self.new ≡ add self.old op) }
        ensures err { OnErr result (self.new ≡ self.old) }
    {
        match slots::place_of(&self.slots, op.seq) {
            Ok(_) => Ok(()),
            Err(at) => {
                let local = slots::local_count_with(&self.slots, self.local, &op);
                let slot = slot_of(alloc, &self.latest, op, false)?;
                self.slots.reserve(1)?;
                note(alloc, &mut self.latest, &slot)?;
                self.slots.insert(at, slot)?;
                self.local = local;
                Ok(())
            }
        }
    }

    /// Adds the operations of these records after all others, or none of them where memory runs out.
    pub(crate) fn add_all(&mut self, alloc: Global, records: &[Record]) -> Result<(), AllocError>
        requires { RiseFrom (next_seq self.old) records.now }
        ensures ok { OnOk result (self.new ≡ fold after_record self.old records.now) }
        ensures err { OnErr result (self.new ≡ self.old) }
    {
        let added = slots_of(alloc, &self.latest, records)?;
        self.slots.reserve(added.len())?;
        let mut noted = note_slots(alloc, &mut self.latest, added)?;
        self.slots.append(&mut noted)?;
        self.local = slots::local_count_on(&self.slots, self.local);
        Ok(())
    }

    /// Drops the texts of operations that newer ones on their ids replaced, once many operations follow the newer one.
    pub(crate) fn let_go(&mut self)
        ensures { self.new ≡ self.old }
    {
        let end = self.slots.len().saturating_sub(NEAR);
        for at in self.settled..end {
            self.settle(at);
        }
        self.settled = self.settled.max(end);
    }

    /// Drops the text of the operation that the one at a place replaced.
    fn settle(&mut self, at: usize)
        ensures { self.new ≡ self.old }
    {
        let Some(slot) = self.slots.get(at) else {
            return;
        };
        let seq = slot.seq();
        let is_of_many = slot.is_of_many();
        if let Some(before) = slot.before() {
            self.let_go_at(before);
        }
        // One that came with it may be on its id too.
        if is_of_many {
            self.let_go_at(seq);
        }
    }

    /// Lets the text of the operation with the number go, if a newer one is on its id.
    fn let_go_at(&mut self, seq: u64)
        ensures { self.new ≡ self.old }
    {
        if !self.is_replaced(seq) {
            return;
        }
        if let Ok(at) = slots::place_of(&self.slots, seq) {
            slots::let_go(&mut self.slots, at);
            self.has_all = false;
        }
    }

    /// Whether a newer operation is on the id of the one with the number.
    fn is_replaced(&self, seq: u64) -> bool
        ensures { result ≡ true → IfSome (op_at self.now seq) (IsReplaced self.now) }
    {
        let Ok(at) = slots::place_of(&self.slots, seq) else {
            return false;
        };
        match self.slots[at].id() {
            Some(id) => self.has_newer(id, seq),
            None => false,
        }
    }
}

/// The operation as it is kept: its id shares the text of the one noted first.
fn slot_of(alloc: Global, latest: &Latest, op: Op, is_of_many: bool) -> Result<Slot, AllocError>
    ensures { IfOk result (λ s. s ≡ record { op = op; gone = false }) }
{
    let Op {
        seq,
        term,
        version,
        body,
    } = op;
    let (body, before) = match body {
        Body::Index(id, source) => {
            let (known, before) = latest.known(alloc, &id)?;
            (Body::Index(known, source), before)
        }
        Body::Delete(id) => {
            let (known, before) = latest.known(alloc, &id)?;
            (Body::Delete(known), before)
        }
        Body::NoOp => (Body::NoOp, None),
    };
    let shared = Op {
        seq,
        term,
        version,
        body,
    };
    Slot::of(alloc, shared, before, is_of_many)
}

/// The operations that stand in records.
fn slots_of(alloc: Global, latest: &Latest, records: &[Record]) -> Result<Vec<Slot>, AllocError>
    ensures ops { IfOk result (λ v. ops v.items ≡ operations_in records.now) }
    ensures whole { IfOk result (λ v. AreWhole v.items) }
{
    let mut slots = Vec::new(alloc);
    for kept in records {
        match kept {
            Record::Op(_, op) => slots.push(slot_of(alloc, latest, op.copy(alloc)?, true)?)?,
            Record::Resync(_, _, _) => {}
            Record::Recover(_, _) => {}
        }
    }
    Ok(slots)
}

/// The ids of operations, each with its number.
fn numbers_of(alloc: Global, slots: &[Slot]) -> Result<Vec<(DocId, u64)>, AllocError>
    requires { AreWhole slots.now }
    ensures { IfOk result (λ v. (id : Id) (n : Option ℕ) → noted v.items id n ≡ option_or (option_map (λ o. o.seq) (last_on (ops slots.now) id)) n) }
{
    let mut numbers = Vec::new(alloc);
    for slot in slots {
        if let Some(id) = slot.id() {
            numbers.push((id.copy(alloc)?, slot.seq()))?;
        }
    }
    Ok(numbers)
}

/// The number of the last operation on each id.
pub(crate) fn latest_numbers(
    alloc: Global,
    seed: Seed,
    slots: &[Slot],
) -> Result<Latest, AllocError>
    requires ascending { IsAscending (ops slots.now) }
    requires whole { AreWhole slots.now }
    ensures { IfOk result (λ l. HaveLast (ops slots.now) l.tables.items) }
{
    let mut latest = Latest::with_room(alloc, seed, slots.len())?;
    for slot in slots {
        note(alloc, &mut latest, slot)?;
    }
    Ok(latest)
}

/// Notes the numbers of operations at their ids. The operations stay, but that it is noted where no two of them are on one id.
fn note_slots(alloc: Global, latest: &mut Latest, slots: Vec<Slot>) -> Result<Vec<Slot>, AllocError>
    requires { AreWhole slots.items }
    ensures same { IfOk result (λ v. v.items ≡ slots.items) }
    ensures ok { OnOk result ((id : Id) → number_among latest.new.tables.items id ≡ option_or (option_map (λ o. o.seq) (last_on (ops slots.items) id)) (number_among latest.old.tables.items id)) }
    ensures err { OnErr result ((id : Id) → number_among latest.new.tables.items id ≡ number_among latest.old.tables.items id) }
{
    let mut noted = slots;
    let numbers = numbers_of(alloc, &noted)?;
    let known = latest.len();
    latest.note_all(alloc, numbers)?;
    // Where as many new ids came as operations that are the first on theirs, no two of these are on one id.
    if latest.len().saturating_sub(known) == slots::count_first(&noted) {
        slots::note_first(&mut noted);
    }
    Ok(noted)
}

/// Notes the number of an operation at its id, unless a greater one is there.
fn note(alloc: Global, latest: &mut Latest, slot: &Slot) -> Result<(), AllocError>
    requires { slot.now.gone ≡ false }
    ensures ok { OnOk result ((id : Id) → number_among latest.new.tables.items id ≡ (if is_on id slot.now.op then raised slot.now.op.seq (number_among latest.old.tables.items id) else number_among latest.old.tables.items id)) }
    ensures err { OnErr result ((id : Id) → number_among latest.new.tables.items id ≡ number_among latest.old.tables.items id) }
{
    match slot.id() {
        Some(id) => latest.raise(alloc, id, slot.seq()),
        None => Ok(()),
    }
}
