//! The columns of documents that other segments have, put together.
ghost use Rattle.std.specs.Prelude.{◌≡◌, ◌<◌, ◌≤◌, ◌^◌, ℕ, ℤ, List, All, Some, true, false, length, map, IfOk, IfSome, OnOk};
ghost use Rattle.std.specs.Str.{bytes_eq};
ghost use Rattle.doc.specs.Document.{all_values};
ghost use Rattle.marks.specs.Lists.{marked, places};
ghost use Rattle.segment.specs.Added.{making_at, AreLong, IsLong};
ghost use Rattle.segment.specs.Indexed.{column_at, IsColumnOr};
ghost use Rattle.segment.specs.Places.{places_at, places_at_long};
ghost use Rattle.segment.specs.Posted.{places_so_far, places_so_far_long};
ghost use Rattle.segment.specs.Woven.{moved_by, risen, IsPlaced, Stands};
ghost use Rattle.segment.specs.WovenColumns.{AreCovered, AreSoFar, AreWithin, AreWoven, IsCovered, IsWoven, IsWovenOr};

use crate::building;
use crate::column::Column;
use crate::finishing::finish_all;
use crate::longs::Longs;
use crate::making::{Making, Makings};
use crate::moving::moved;
use crate::places::Places;
use crate::segment::Segment;
use crate::texts::Texts;
use doc::{Mapping, Source};
use marks::Marks;
use seed::Seed;
use std::alloc::{AllocError, Global};
use std::collections::BTreeMap;

/// A segment, and where each of its documents is to stand in another one; none where it isn't to.
#[derive(Drop)]
pub struct Strand<'a> {
    pub segment: &'a Segment,
    pub places: Vec<Option<u32>>,
}

/// The columns of documents: those of strands put together, where their documents are these, and else read.
pub(crate) fn columns_of(
    alloc: Global,
    mapping: &Mapping,
    sources: &[Source],
    strands: &[Strand<'_>],
) -> Result<BTreeMap<String, Box<Column>>, AllocError>
    requires { length sources.now < 2 ^ 32 }
    ensures { IfOk result (λ m. (name : List ℕ) → IsColumnOr mapping.now.fields (map (all_values mapping.now) sources.now) name (column_at m name)) }
{
    match woven(alloc, mapping, sources, strands)? {
        Some(columns) => Ok(columns),
        None => building::columns_of(alloc, mapping, sources),
    }
}

/// The columns of strands put together, where their documents are these.
fn woven(
    alloc: Global,
    mapping: &Mapping,
    sources: &[Source],
    strands: &[Strand<'_>],
) -> Result<Option<BTreeMap<String, Box<Column>>>, AllocError>
    requires { length sources.now < 2 ^ 32 }
    ensures { IfOk result (λ o. IfSome o (λ m. (name : List ℕ) → IsColumnOr mapping.now.fields (map (all_values mapping.now) sources.now) name (column_at m name))) }
{
    let mut makings = BTreeMap::new(alloc);
    let mut taken = Marks::none(alloc, sources.len())?;
    for strand in strands {
        let segment = strand.segment;
        if !add_strand(
            alloc,
            mapping,
            sources,
            segment,
            &strand.places,
            &mut makings,
            &mut taken,
        )? {
            return Ok(None);
        }
    }
    if taken.count() < sources.len() {
        return Ok(None);
    }
    let columns = finish_all(alloc, makings, sources.len())?;
    Ok(Some(columns))
}

/// Adds what the documents of a strand have, if they stand where it says among documents that were read under the mapping.
fn add_strand(
    alloc: Global,
    mapping: &Mapping,
    sources: &[Source],
    segment: &Segment,
    to: &[Option<u32>],
    makings: &mut Makings,
    taken: &mut Marks,
) -> Result<bool, AllocError>
    requires few { length sources.now < 2 ^ 32 }
    requires so_far { AreSoFar mapping.now sources.now taken.old makings.old }
    ensures { IfOk result (λ fits. fits ≡ true → AreSoFar mapping.now sources.now taken.new makings.new) }
{
    if !segment.mapping().is(mapping) {
        return Ok(false);
    }
    let Some(mine) = placed(alloc, sources, segment.sources(), to, taken)? else {
        return Ok(false);
    };
    weave_columns(
        alloc,
        mapping.seed(),
        makings,
        segment.columns(),
        to,
        sources.len(),
    )?;
    taken.unite(&mine);
    Ok(true)
}

/// The places of a part's documents among all, if each stands at the place that it is given, after the one before, and no place is taken; else none.
pub(crate) fn placed(
    alloc: Global,
    sources: &[Source],
    part: &[Source],
    to: &[Option<u32>],
    taken: &Marks,
) -> Result<Option<Marks>, AllocError>
    ensures { IfOk result (λ o. IfSome o (λ mine. IsPlaced 0 sources.now taken.now mine part.now to.now)) }
{
    if part.len() != to.len() || taken.len() != sources.len() {
        return Ok(None);
    }
    let mut mine = Marks::none(alloc, sources.len())?;
    let mut bound = sources.len();
    let mut left = part.len();
    while 0 < left {
        left -= 1;
        match mark_next(sources, &part[left], to[left], taken, &mut mine, bound) {
            Some(next) => bound = next,
            None => return Ok(None),
        }
    }
    Ok(Some(mine))
}

/// Marks the place that a document is given and gives it as the next bound, where the document stands there, before the bound, and the place isn't taken. A document without a place changes nothing.
fn mark_next(
    sources: &[Source],
    source: &Source,
    to: Option<u32>,
    taken: &Marks,
    mine: &mut Marks,
    bound: usize,
) -> Option<usize>
    requires bound { bound ≤ length sources.now }
    requires taken { length taken.now ≡ length sources.now }
    requires mine { length mine.old ≡ length sources.now }
    ensures { IfSome result (λ next. Stands sources.now taken.now source.now bound to next mine.old mine.new) }
{
    let Some(place) = to else {
        return Some(bound);
    };
    let at = place as usize;
    if at >= bound || taken.get(place) || !sources[at].is(source) {
        return None;
    }
    mine.set(place);
    Some(at)
}

/// Adds what the documents of columns have, at the places that they are given among so many.
fn weave_columns(
    alloc: Global,
    seed: Seed,
    makings: &mut Makings,
    columns: &BTreeMap<String, Box<Column>>,
    to: &[Option<u32>],
    len: usize,
) -> Result<(), AllocError>
    requires few { length to.now < 2 ^ 32 }
    requires within { AreWithin len to.now }
    requires covered { AreCovered to.now columns.now }
    requires long { AreLong len makings.old }
    ensures { OnOk result (AreWoven len to.now columns.now makings.old makings.new) }
{
    for (name, column) in columns {
        weave_one(
            alloc,
            seed,
            makings,
            name.as_str(),
            column.as_ref(),
            to,
            len,
        )?;
    }
    Ok(())
}

/// Adds what the documents of one column have.
fn weave_one(
    alloc: Global,
    seed: Seed,
    makings: &mut Makings,
    name: &str,
    column: &Column,
    to: &[Option<u32>],
    len: usize,
) -> Result<(), AllocError>
    requires few { length to.now < 2 ^ 32 }
    requires within { AreWithin len to.now }
    requires covered { IsCovered to.now column.now }
    requires long { AreLong len makings.old }
    ensures here { OnOk result (IsWovenOr len to.now (Some column.now) (making_at makings.old name.now) (making_at makings.new name.now)) }
    ensures others { OnOk result ((w : List ℕ) → bytes_eq name.now w ≡ false → making_at makings.new w ≡ making_at makings.old w) }
    ensures long { OnOk result (AreLong len makings.new) }
{
    if let Some(making) = makings.get_mut(name) {
        return weave_column(alloc, making, column, to, len);
    }
    let mut making = Making::none(alloc, seed, len)?;
    weave_column(alloc, &mut making, column, to, len)?;
    let boxed = Box::new(alloc, making)?;
    makings.insert(String::from_str(alloc, name)?, boxed)?;
    Ok(())
}

/// Adds what the documents of a column have to one in the making.
fn weave_column(
    alloc: Global,
    making: &mut Making,
    column: &Column,
    to: &[Option<u32>],
    _len: usize,
) -> Result<(), AllocError>
    requires few { length to.now < 2 ^ 32 }
    requires within { AreWithin _len to.now }
    requires covered { IsCovered to.now column.now }
    requires long { IsLong _len making.old }
    ensures { OnOk result (IsWoven to.now column.now making.old making.new) }
{
    mark_moved(alloc, &mut making.has, &column.has, to)?;
    mark_moved(alloc, &mut making.yes, &column.yes, to)?;
    mark_moved(alloc, &mut making.no, &column.no, to)?;
    weave_longs(alloc, &mut making.longs, &column.longs, to)?;
    weave_texts(alloc, &mut making.texts, &column.texts, to)
}

/// Marks the places that those of other marks are given.
fn mark_moved(
    alloc: Global,
    marks: &mut Marks,
    others: &Marks,
    to: &[Option<u32>],
) -> Result<(), AllocError>
    requires few { length to.now < 2 ^ 32 }
    requires within { AreWithin (length marks.old) to.now }
    requires covered { length others.now ≡ length to.now }
    ensures { OnOk result (marks.new ≡ marked marks.old (moved_by to.now (places (λ b. b) others.now))) }
{
    let found = others.places(alloc)?;
    let places = moved(alloc, &found, to)?;
    marks.mark(&places);
    Ok(())
}

/// Adds the places of each text, as they are given.
fn weave_texts(
    alloc: Global,
    texts: &mut Texts,
    words: &BTreeMap<String, Places>,
    to: &[Option<u32>],
) -> Result<(), AllocError>
    requires { (w : List ℕ) → All (λ p. p < length to.now) (places_at words.now w) }
    ensures { OnOk result ((w : List ℕ) → places_so_far texts.new w ≡ risen (places_so_far texts.old w) (moved_by to.now (places_at words.now w))) }
{
    for (word, places) in words {
        let places = moved(alloc, places.as_slice(), to)?;
        texts.merge(alloc, word.as_str(), &places)?;
    }
    Ok(())
}

/// Adds the places of each number, as they are given.
fn weave_longs(
    alloc: Global,
    longs: &mut Longs,
    numbers: &BTreeMap<i64, Places>,
    to: &[Option<u32>],
) -> Result<(), AllocError>
    requires { (z : ℤ) → All (λ p. p < length to.now) (places_at_long numbers.now z) }
    ensures { OnOk result ((z : ℤ) → places_so_far_long longs.new z ≡ risen (places_so_far_long longs.old z) (moved_by to.now (places_at_long numbers.now z))) }
{
    for (number, places) in numbers {
        let places = moved(alloc, places.as_slice(), to)?;
        longs.merge(alloc, *number, &places)?;
    }
    Ok(())
}
