//! What came after what searches show.
ghost use Rattle.std.specs.Prelude.{◌≡◌, ◌≤◌, ◌++◌, length, IfOk, IfSome, OnOk};
ghost use Rattle.std.specs.Arc.{arc_value};
ghost use Rattle.op.specs.Documents.{documents};
ghost use Rattle.engine.specs.Changes.{id_on, ids_on, AreAt, LeadsOn};
ghost use Rattle.engine.specs.OperationIndex.{operations_in};
ghost use Rattle.engine.specs.Parts.{all_published};

use crate::operations::history::History;
use crate::read::part::Part;
use doc::DocId;
use op::{Body, Op, Record};
use std::alloc::{AllocError, Global};
use std::marker::Model;
use std::sync::Arc;

/// Operations that came after what searches show, each with a number above all before it, as of so many records;
/// and parts that searches looked through.
#[derive(Drop)]
pub(crate) struct Changes {
    point: usize,
    records: Arc<Vec<Record>, Global>,
    parts: Vec<Part>,
}

impl Model for Changes {
    ghost use Rattle.std.specs.Arc.{arc_value};
    ghost use Rattle.op.specs.Documents.{documents};
    ghost use Rattle.engine.specs.Changes.{ids_on, AreAt, ChangesData};
    ghost use Rattle.engine.specs.OperationIndex.{operations_in};
    ghost use Rattle.engine.specs.Parts.{all_published};

    ghost Value = { ChangesData };

    ghost view = { λ c. record {
      point = c.point;
      ids = ids_on (operations_in (arc_value c.records).items);
      documents = documents (operations_in (arc_value c.records).items);
      published = all_published c.parts.items;
    } };

    ghost invariant = { λ c. AreAt (ids_on (operations_in (arc_value c.records).items)) (documents (operations_in (arc_value c.records).items)) };
}

impl Changes {
    /// What came after a point, if only operations came there, each with a number above all before it, and memory forgot all before it.
    /// No record is copied.
    pub(crate) fn of(
        alloc: Global,
        history: &mut History,
        point: usize,
        parts: Vec<Part>,
    ) -> Result<Option<Changes>, AllocError>
        requires begin { history.old.begin ≤ point }
        requires within { point ≤ length history.old.records }
        ensures same { history.new ≡ history.old }
        ensures leads { IfOk result (λ o. IfSome o (LeadsOn history.old.records point)) }
        ensures all { IfOk result (λ o. IfSome o (λ c. c.point ≡ length history.old.records)) }
        ensures published { IfOk result (λ o. IfSome o (λ c. c.published ≡ all_published parts.items)) }
    {
        let Some(records) = history.share(alloc, point)? else {
            return Ok(None);
        };
        Ok(Some(Changes {
            point: history.len(),
            records,
            parts,
        }))
    }

    /// Of how many records they are.
    pub(crate) fn point(&self) -> usize
        ensures { result ≡ self.now.point }
    {
        self.point
    }

    /// The parts that searches looked through.
    pub(crate) fn parts(&self) -> &[Part]
        ensures { all_published result.now ≡ self.now.published }
    {
        &self.parts
    }

    /// The operations.
    pub(crate) fn ops(&self, alloc: Global) -> Result<Vec<Op>, AllocError>
        ensures ids { IfOk result (λ v. ids_on v.items ≡ self.now.ids) }
        ensures documents { IfOk result (λ v. documents v.items ≡ self.now.documents) }
        ensures are { AreAt self.now.ids self.now.documents }
    {
        ops_in(alloc, &self.records)
    }
}

/// The operations that stand in records.
fn ops_in(alloc: Global, records: &[Record]) -> Result<Vec<Op>, AllocError>
    ensures { IfOk result (λ v. v.items ≡ operations_in records.now) }
{
    let mut ops = Vec::with_capacity(alloc, records.len())?;
    for kept in records {
        match kept {
            Record::Op(_, op) => ops.push(op.copy(alloc)?)?,
            Record::Resync(_, _, _) => {}
            Record::Recover(_, _) => {}
        }
    }
    Ok(ops)
}

/// The ids that operations are on.
pub(crate) fn ids_of(alloc: Global, ops: &[Op]) -> Result<Vec<DocId>, AllocError>
    ensures { IfOk result (λ v. v.items ≡ ids_on ops.now) }
{
    let mut ids = Vec::with_capacity(alloc, ops.len())?;
    for op in ops {
        push_id(alloc, &mut ids, op)?;
    }
    Ok(ids)
}

/// Adds the id that an operation is on, where it is on one.
fn push_id(alloc: Global, ids: &mut Vec<DocId>, op: &Op) -> Result<(), AllocError>
    ensures { OnOk result (ids.new.items ≡ ids.old.items ++ id_on op.now.body) }
{
    match &op.body {
        Body::Index(id, _) => {
            ids.push(id.copy(alloc)?)?;
            Ok(())
        }
        Body::Delete(id) => {
            ids.push(id.copy(alloc)?)?;
            Ok(())
        }
        Body::NoOp => Ok(()),
    }
}
