//! Records whose operations aren't found by id yet.
ghost use Rattle.std.specs.Prelude.{◌≡◌, All, length, IfOk};
ghost use Rattle.op.specs.Operations.{IsAscending};
ghost use Rattle.op.specs.Records.{IsRecord, operations};
ghost use Rattle.engine.specs.IdTables.{HaveLast};
ghost use Rattle.engine.specs.Slot.{ops, AreWhole};

use crate::operations::history::{History, append_all};
use crate::operations::latest::Latest;
use crate::operations::operation_index::OperationIndex;
use crate::operations::ordered::{Ordered, ordered_of};
use crate::operations::slot::Slot;
use chronicle::{Chronicle, Writer};
use op::Record;
use std::alloc::{AllocError, Global};
use std::marker::Model;

/// Records, and their operations in order of number.
pub(crate) struct Unindexed {
    chronicle: Chronicle<Record>,
    before: Writer<Record>,
    len: usize,
    ordered: Ordered,
}

impl Drop for Unindexed {
    fn drop(self) {
        let Unindexed {
            chronicle: _chronicle,
            before: _before,
            len: _,
            ordered: _ordered,
        } = self;
    }
}

impl Model for Unindexed {
    ghost use Rattle.std.specs.Prelude.{◌≡◌, ◌≤◌, ◌^◌, List, length};
    ghost use Rattle.op.specs.declared.record.Record.{Record};
    ghost use Rattle.engine.specs.Kept.{IsKept};

    ghost Value = { List Record };

    ghost view = { λ u. u.before.entries };

    ghost invariant = { λ u. IsKept u.ordered u.before.entries × (u.before.line.book ≡ u.chronicle) × (length u.before.entries ≡ u.len) × (u.len ≤ 2 ^ 63) };
}

impl Unindexed {
    /// These records. Memory forgets them, but for their operations.
    pub(crate) fn of(alloc: Global, records: Vec<Record>) -> Result<Unindexed, AllocError>
        requires { All IsRecord records.items }
        ensures { IfOk result (λ u. u ≡ records.items) }
    {
        let chronicle = Chronicle::new();
        let mut before = chronicle.writer();
        append_all(&chronicle, &mut before, &records);
        let len = records.len();
        let ordered = ordered_of(alloc, records)?;
        Ok(Unindexed {
            chronicle,
            before,
            len,
            ordered,
        })
    }

    /// Their operations.
    pub(crate) fn slots(&self) -> &[Slot]
        ensures same { ops result.now ≡ operations self.now }
        ensures ascending { IsAscending (ops result.now) }
        ensures whole { AreWhole result.now }
    {
        self.ordered.slots()
    }

    /// The history that they are, with what was noted of their operations by id. It drops the texts that newer operations replaced.
    pub(crate) fn indexed(self, alloc: Global, latest: Latest) -> History
        requires { HaveLast (operations self) latest.tables.items }
        ensures { result ≡ record { records = self; begin = length self } }
    {
        let Unindexed {
            chronicle,
            before,
            len,
            ordered,
        } = self;
        let mut operations = OperationIndex::over(ordered, latest);
        operations.let_go();
        History {
            chronicle,
            before,
            begin: len,
            shared: None,
            recent: Vec::new(alloc),
            operations,
            rebuilt: len,
            risen: len,
        }
    }
}
