//! Opening with many records.
ghost use Rattle.std.specs.Prelude.{◌≡◌, ◌∷◌, [], All, IfOk};
ghost use Rattle.std.specs.Arc.{arc_value};
ghost use Rattle.op.specs.Documents.{documents};
ghost use Rattle.op.specs.Operations.{IsAscending};
ghost use Rattle.op.specs.Records.{IsRecord};
ghost use Rattle.segment.specs.Builds.{Builds};
ghost use Rattle.engine.specs.Contents.{opened_engine};
ghost use Rattle.engine.specs.IdTables.{HaveLast};
ghost use Rattle.engine.specs.Slot.{ops, AreHeld, AreWhole};

use crate::engine::Engine;
use crate::operations::history::Unindexed;
use crate::operations::latest::Latest;
use crate::operations::operation_index::latest_numbers;
use crate::operations::slot::Slot;
use crate::read::showing::Showing;
use doc::{Mapping, Source};
use op::Record;
use segment::Segment;
use std::alloc::{AllocError, Global};
use std::sync::Arc;
use std::thread;
use std::thread::Threads;

impl Engine {
    /// The engine of these records, made faster than by `open_with`: it notes the operations by id while their segment is built.
    pub fn open_on<
        R: Threads,
        F: Fn(Global, &Arc<Mapping, Global>, Vec<Source>) -> Result<Segment, AllocError>,
    >(
        rt: &R,
        builder: &F,
        alloc: Global,
        mapping: Mapping,
        records: Vec<Record>,
    ) -> Result<Engine, AllocError>
        requires builds { Builds F.Fn builder.now }
        requires records { All IsRecord records.items }
        ensures { IfOk result (λ e. e ≡ opened_engine mapping records.items) }
    {
        let mapping = Arc::new(alloc, mapping)?;
        let unindexed = Unindexed::of(alloc, records)?;
        let (latest, showing) = noted_and_shown(rt, builder, alloc, &mapping, unindexed.slots())?;
        let history = unindexed.indexed(alloc, latest);
        let point = history.len();
        Ok(Engine {
            mapping,
            history,
            showing,
            point,
            pending: None,
            merging: None,
        })
    }
}

/// What is noted of operations by id, and what searches show of them, made at once.
fn noted_and_shown<
    R: Threads,
    F: Fn(Global, &Arc<Mapping, Global>, Vec<Source>) -> Result<Segment, AllocError>,
>(
    rt: &R,
    builder: &F,
    alloc: Global,
    mapping: &Arc<Mapping, Global>,
    slots: &[Slot],
) -> Result<(Latest, Showing), AllocError>
    requires builds { Builds F.Fn builder.now }
    requires ascending { IsAscending (ops slots.now) }
    requires whole { AreWhole slots.now }
    ensures noted { IfOk result (λ p. HaveLast (ops slots.now) p.0.tables.items) }
    ensures shown { IfOk result (λ p. p.1 ≡ record {
      snapshot = record { mapping = arc_value mapping.now; documents = documents (ops slots.now) };
      published = (record { number = 0; mapping = arc_value mapping.now; documents = documents (ops slots.now) }) ∷ [];
      live = documents (ops slots.now) ∷ [];
      next = 1;
    }) }
{
    let (latest, showing) = thread::join(
        rt,
        move || -> Result<Latest, AllocError>
            requires { IsAscending (ops slots.now) × AreWhole slots.now }
            ensures { IfOk result (λ l. HaveLast (ops slots.entry.now) l.tables.items) }
        { latest_numbers(alloc, mapping.seed(), slots) },
        move || -> Result<Showing, AllocError>
            requires { Builds F.Fn builder.now × IsAscending (ops slots.now) × AreHeld (ops slots.now) slots.now }
            ensures { IfOk result (λ s. s ≡ record {
              snapshot = record { mapping = arc_value mapping.entry.now; documents = documents (ops slots.entry.now) };
              published = (record { number = 0; mapping = arc_value mapping.entry.now; documents = documents (ops slots.entry.now) }) ∷ [];
              live = documents (ops slots.entry.now) ∷ [];
              next = 1;
            }) }
        { Showing::of(builder, alloc, mapping, 0, slots) },
    );
    Ok((latest?, showing?))
}
