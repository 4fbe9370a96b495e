//! Operations in order of number, which aren't found by id yet.
ghost use Rattle.std.specs.Prelude.{◌≡◌, ◌++◌, [], All, IfOk, OnOk};
ghost use Rattle.op.specs.Operations.{IsAscending, add, below};
ghost use Rattle.op.specs.Records.{IsRecord, RunsFrom, after_record};
ghost use Rattle.engine.specs.Kept.{IsKept};
ghost use Rattle.engine.specs.Slot.{ops, AreWhole};

use crate::operations::slot::Slot;
use crate::operations::slots;
use op::{Op, Operations, Record, checkpoint};
use std::alloc::{AllocError, Global};
use std::marker::Model;

/// Operations in ascending order of their numbers. Other things can be made of them while they are noted by id.
pub(crate) struct Ordered {
    slots: Vec<Slot>,
}

impl Drop for Ordered {
    fn drop(self) {
        let Ordered { slots: _slots } = self;
    }
}

impl Model for Ordered {
    ghost use Rattle.std.specs.Prelude.{List};
    ghost use Rattle.op.specs.declared.operation.Op.{Op};
    ghost use Rattle.op.specs.Operations.{IsAscending};
    ghost use Rattle.engine.specs.Slot.{ops, AreWhole};

    ghost Value = { List Op };

    ghost view = { λ o. ops o.slots.items };

    ghost invariant = { λ o. IsAscending (ops o.slots.items) × AreWhole o.slots.items };
}

impl Ordered {
    /// No operations, and room for so many.
    fn with_room(alloc: Global, room: usize) -> Result<Ordered, AllocError>
        ensures { IfOk result (λ o. o ≡ []) }
    {
        Ok(Ordered {
            slots: Vec::with_capacity(alloc, room)?,
        })
    }

    /// These operations.
    fn of(alloc: Global, operations: &[Op]) -> Result<Ordered, AllocError>
        requires { IsAscending operations.now }
        ensures { IfOk result (λ o. o ≡ operations.now) }
    {
        let mut ordered = Ordered::with_room(alloc, operations.len())?;
        for op in operations {
            ordered.add(alloc, op.copy(alloc)?)?;
        }
        Ok(ordered)
    }

    /// The operations, as memory has them.
    pub(crate) fn slots(&self) -> &[Slot]
        ensures same { ops result.now ≡ self.now }
        ensures ascending { IsAscending (ops result.now) }
        ensures whole { AreWhole result.now }
    {
        &self.slots
    }

    /// Hands over the operations, as memory has them, to whoever keeps them.
    pub(crate) fn into_slots(self) -> Vec<Slot>
        ensures same { ops result.items ≡ self }
        ensures ascending { IsAscending (ops result.items) }
        ensures whole { AreWhole result.items }
    {
        let Ordered { slots } = self;
        slots
    }

    /// Takes one more record.
    fn keep(&mut self, alloc: Global, kept: Record) -> Result<(), AllocError>
        requires { IsRecord kept }
        ensures { OnOk result (self.new ≡ after_record self.old kept) }
    {
        match kept {
            Record::Op(_, op) => self.add(alloc, op),
            Record::Resync(_, known, tail) => self.resync(alloc, checkpoint::count(known), &tail),
            Record::Recover(_, all) => {
                *self = Ordered::of(alloc, all.as_slice())?;
                Ok(())
            }
        }
    }

    /// Takes these operations after those below number `count`.
    fn resync(&mut self, alloc: Global, count: u64, tail: &Operations) -> Result<(), AllocError>
        requires { RunsFrom count tail.now }
        ensures { OnOk result (self.new ≡ below count self.old ++ tail.now) }
    {
        if slots::is_resynced(&self.slots, count, tail.as_slice()) {
            return Ok(());
        }
        let all = slots::resynced(alloc, &self.slots, count, tail)?;
        *self = Ordered::of(alloc, &all)?;
        Ok(())
    }

    /// Adds the operation, where its number is free.
    fn add(&mut self, alloc: Global, op: Op) -> Result<(), AllocError>
        ensures { OnOk result (self.new ≡ add self.old op) }
    {
        match slots::place_of(&self.slots, op.seq) {
            Ok(_) => Ok(()),
            Err(at) => {
                let slot = Slot::of(alloc, op, None, true)?;
                self.slots.insert(at, slot)?;
                Ok(())
            }
        }
    }
}

/// The operations of records. No text is copied but those that a resync or a recovery brings.
pub(crate) fn ordered_of(alloc: Global, records: Vec<Record>) -> Result<Ordered, AllocError>
    requires { All IsRecord records.items }
    ensures { IfOk result (λ o. IsKept o records.items) }
{
    let mut ordered = Ordered::with_room(alloc, records.len())?;
    for kept in records {
        ordered.keep(alloc, kept)?;
    }
    Ok(ordered)
}
