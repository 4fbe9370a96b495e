//! Columns that have all documents.
ghost use Rattle.std.specs.Prelude.{◌<◌, ℕ, ℤ, List, All, IfOk, IfSome, OnOk};
ghost use Rattle.segment.specs.Added.{making_at, AreFinished, HaveFewPlaces};
ghost use Rattle.segment.specs.Indexed.{column_at};
ghost use Rattle.segment.specs.Joined.{ArePut};
ghost use Rattle.segment.specs.Posted.{IsFinished, places_so_far_long};

use crate::column::Column;
use crate::making::{Making, Makings};
use std::alloc::{AllocError, Global};
use std::collections::BTreeMap;

/// The columns of so many documents.
pub(crate) fn finish_all(
    alloc: Global,
    makings: Makings,
    len: usize,
) -> Result<BTreeMap<String, Box<Column>>, AllocError>
    requires { HaveFewPlaces len makings }
    ensures { IfOk result (AreFinished len makings) }
{
    let mut left = makings;
    let mut columns = BTreeMap::new(alloc);
    while let Some((name, making)) = left.pop_first() {
        let column = finished(alloc, making, len)?;
        columns.insert(name, column)?;
    }
    Ok(columns)
}

/// Lists the texts of each column, and gives the columns back.
pub(crate) fn list_all(alloc: Global, makings: Makings) -> Result<Makings, AllocError>
    ensures { IfOk result (ArePut makings) }
{
    let mut left = makings;
    let mut listed = BTreeMap::new(alloc);
    while let Some((name, making)) = left.pop_first() {
        let mut making = Box::into_inner(making);
        making.list(alloc)?;
        let boxed = Box::new(alloc, making)?;
        listed.insert(name, boxed)?;
    }
    Ok(listed)
}

/// One column.
fn finished(alloc: Global, making: Box<Making>, len: usize) -> Result<Box<Column>, AllocError>
    requires { (z : ℤ) → All (λ p. p < len) (places_so_far_long making.value.longs z) }
    ensures { IfOk result (λ b. IsFinished len making.value b.value) }
{
    let column = Box::into_inner(making).finish(alloc, len)?;
    let boxed = Box::new(alloc, column)?;
    Ok(boxed)
}
