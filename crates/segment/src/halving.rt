//! Columns that have all documents, finished side by side.
ghost use Rattle.std.specs.Prelude.{◌≡◌, ◌<◌, ℕ, List, IfOk, OnOk};
ghost use Rattle.std.specs.Option.{option_or};
ghost use Rattle.segment.specs.Added.{making_at, AreFinished, HaveFewPlaces};
ghost use Rattle.segment.specs.Indexed.{column_at};

use crate::column::Column;
use crate::finishing::finish_all;
use crate::making::{Making, Makings};
use std::alloc::{AllocError, Global};
use std::collections::BTreeMap;
use std::thread;
use std::thread::Threads;

/// Columns of fewer texts and numbers aren't worth a thread.
const LEAST_TERMS: usize = 16384;

/// The columns of so many documents. They are halved so often at most, where there is enough in both halves, and the halves finished at once.
pub(crate) fn finish_halves<R: Threads + Sync>(
    rt: &R,
    alloc: Global,
    makings: Makings,
    len: usize,
    halvings: u32,
) -> Result<BTreeMap<String, Box<Column>>, AllocError>
    requires { HaveFewPlaces len makings }
    ensures { IfOk result (AreFinished len makings) }
{
    if halvings == 0 {
        return finish_all(alloc, makings, len);
    }
    let Some(name) = middle_of(alloc, &makings)? else {
        return finish_all(alloc, makings, len);
    };
    let halves = halves_of(makings, name.as_str(), len)?;
    let (lower, upper) = halves;
    let (first, rest) = thread::join(
        rt,
        move || -> Result<BTreeMap<String, Box<Column>>, AllocError>
            requires { (0 < halvings) × HaveFewPlaces len lower }
            ensures { IfOk result (AreFinished len lower) }
        { finish_halves(rt, alloc, lower, len, halvings - 1) },
        move || -> Result<BTreeMap<String, Box<Column>>, AllocError>
            requires { (0 < halvings) × HaveFewPlaces len upper }
            ensures { IfOk result (AreFinished len upper) }
        { finish_halves(rt, alloc, upper, len, halvings - 1) },
    );
    let mut columns = rest?;
    add_all(&mut columns, first?)?;
    Ok(columns)
}

/// The columns before a name, and those from it on.
fn halves_of(makings: Makings, from: &str, _len: usize) -> Result<(Makings, Makings), AllocError>
    requires { HaveFewPlaces _len makings }
    ensures before { IfOk result (λ halves. HaveFewPlaces _len halves.0) }
    ensures from { IfOk result (λ halves. HaveFewPlaces _len halves.1) }
    ensures all { IfOk result (λ halves. (name : List ℕ) → making_at makings name ≡ option_or (making_at halves.0 name) (making_at halves.1 name)) }
{
    let mut lower = makings;
    let _ordered = lower.len();
    let upper = lower.split_off(from)?;
    Ok((lower, upper))
}

/// Adds the other columns.
fn add_all(
    columns: &mut BTreeMap<String, Box<Column>>,
    others: BTreeMap<String, Box<Column>>,
) -> Result<(), AllocError>
    ensures { OnOk result ((name : List ℕ) → column_at columns.new name ≡ option_or (column_at others name) (column_at columns.old name)) }
{
    let mut left = others;
    while let Some((name, column)) = left.pop_first() {
        columns.insert(name, column)?;
    }
    Ok(())
}

/// The name from which on there is about half, if there is enough before it and from it on. It is a hint.
fn middle_of(alloc: Global, makings: &Makings) -> Result<Option<String>, AllocError> {
    let all = terms_of_all(makings);
    let mut before = 0usize;
    for (name, making) in makings {
        let with = before.saturating_add(terms_of(making));
        if LEAST_TERMS <= before && all / 2 < with {
            if all.saturating_sub(before) < LEAST_TERMS {
                return Ok(None);
            }
            return Ok(Some(String::from_str(alloc, name.as_str())?));
        }
        before = with;
    }
    Ok(None)
}

fn terms_of_all(makings: &Makings) -> usize {
    let mut all = 0usize;
    for (_, making) in makings {
        all = all.saturating_add(terms_of(making));
    }
    all
}

fn terms_of(making: &Making) -> usize {
    making.texts.len().saturating_add(making.longs.len())
}
