//! A search that follows the note of a write.
ghost use Rattle.std.specs.Prelude.{◌≡◌, true, IfOk, OnOk};
ghost use Rattle.engine.specs.Shown.{hits_view};
ghost use Rattle.query.specs.View.{query_view};
ghost use Rattle.published.specs.Fresh.{FindsAfter};
ghost use Rattle.published.specs.Told.{IsOf};
ghost use Rattle.cell.specs.Publishing.{IsAllShown};

use crate::cell::CopyCell;
use crate::index::IndexName;
use node::{NodeFault, Pass};
use published::{Found, Name};
use query::{Page, Query};
use replica::Write;
use std::alloc::Global;
use std::marker::Brand;
use std::sync::Wait;
use translog::LogDevice;

/// A searcher that was given out before a write finds what the write's note says.
#[tactic(auto, using(crate::proofs::Refreshing::note_found))]
fn found_behind<N: Name, R: Wait, D: LogDevice, J: IndexName>(
    rt: &R,
    alloc: Global,
    cell: &mut CopyCell<D, J>,
    pass: &mut Pass<J>,
    write: Write,
    query: &Query,
    page: Page,
) -> Result<Found, NodeFault>
    requires named { N.named ≡ true }
    requires cell { IsOf N.named N.cell cell.old.line.shown }
    ensures found { IfOk result (λ f. FindsAfter cell.new.line.shown (query_view query.now) page (hits_view f.hits) f.place) }
    ensures whole { OnOk result (IsAllShown cell.new) }
{
    let Ok(mut searcher) = cell.searcher::<N>() else {
        return Err(NodeFault::NoSeat);
    };
    let (receipt, note) = cell.write_refreshed::<N, R>(rt, alloc, pass, write)?;
    drop(receipt);
    searcher.learn(note);
    match searcher.search(alloc, query, page) {
        Ok(found) => Ok(found),
        Err(_) => Err(NodeFault::NoMemory),
    }
}

/// A write, and a search by a searcher that was given out before it, and has learned the write's note: it finds what the query means among all
/// records of the copy, with the write's.
pub fn write_is_found<R: Wait, D: LogDevice, J: IndexName>(
    rt: &R,
    alloc: Global,
    cell: &mut CopyCell<D, J>,
    pass: &mut Pass<J>,
    write: Write,
    query: &Query,
    page: Page,
) -> Result<Found, NodeFault>
    ensures found { IfOk result (λ f. FindsAfter cell.new.line.shown (query_view query.now) page (hits_view f.hits) f.place) }
    ensures whole { OnOk result (IsAllShown cell.new) }
{
    found_behind::<Brand, R, D, J>(rt, alloc, cell, pass, write, query, page)
}
