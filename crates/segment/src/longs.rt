//! The numbers of a column in the making.
ghost use Rattle.std.specs.Prelude.{◌≡◌, ◌++◌, [], ℤ, false, IfOk, OnOk};
ghost use Rattle.std.specs.Ordering.{int_eq};
ghost use Rattle.segment.specs.Grouped.{places_posted};
ghost use Rattle.segment.specs.Places.{added, places_at_long, places_listed};
ghost use Rattle.segment.specs.Posted.{places_so_far_long};
ghost use Rattle.segment.specs.Woven.{risen};

use crate::grouping::{grouped, in_turn};
use crate::listing::map_of;
use crate::places::Places;
use crate::texts::add_place;
use std::alloc::{AllocError, Global};
use std::collections::BTreeMap;
use std::mem;

/// The numbers of so many documents are sooner listed as they come, and put in order at the end, than looked for.
const LEAST_DOCUMENTS: usize = 64;

/// Numbers with their places, in order from the first, or else each with a place as they come. Those of pieces are listed one after another.
#[derive(Drop)]
pub enum Longs {
    Ordered(BTreeMap<i64, Places>),
    Posted(Vec<(i64, u32)>),
    Listed(Vec<(i64, Places)>),
}

impl Longs {
    /// No number of so many documents.
    pub(crate) fn none(alloc: Global, len: usize) -> Longs
        ensures { (z : ℤ) → places_so_far_long result z ≡ [] }
    {
        if len < LEAST_DOCUMENTS {
            Longs::Ordered(BTreeMap::new(alloc))
        } else {
            Longs::Posted(Vec::new(alloc))
        }
    }

    /// Adds a place to those of a number.
    pub(crate) fn post(&mut self, alloc: Global, number: i64, at: u32) -> Result<(), AllocError>
        ensures here { OnOk result (places_so_far_long self.new number ≡ added (places_so_far_long self.old number) at) }
        ensures others { OnOk result ((z : ℤ) → int_eq number z ≡ false → places_so_far_long self.new z ≡ places_so_far_long self.old z) }
    {
        if let Longs::Posted(postings) = self {
            return post_behind(postings, number, at);
        }
        let mut longs = mem::replace(self, Longs::Listed(Vec::new(alloc))).in_order(alloc)?;
        post_at(alloc, &mut longs, number, at)?;
        *self = Longs::Ordered(longs);
        Ok(())
    }

    /// Adds places of a number that come among those that it has.
    pub(crate) fn merge(
        &mut self,
        alloc: Global,
        number: i64,
        later: &[u32],
    ) -> Result<(), AllocError>
        ensures here { OnOk result (places_so_far_long self.new number ≡ risen (places_so_far_long self.old number) later.now) }
        ensures others { OnOk result ((z : ℤ) → int_eq number z ≡ false → places_so_far_long self.new z ≡ places_so_far_long self.old z) }
    {
        let mut longs = mem::replace(self, Longs::Listed(Vec::new(alloc))).in_order(alloc)?;
        merge_at(alloc, &mut longs, number, later)?;
        *self = Longs::Ordered(longs);
        Ok(())
    }

    /// Adds the later places of each number. There will be about so many pairs in all.
    pub(crate) fn join(
        &mut self,
        alloc: Global,
        later: Longs,
        room: usize,
    ) -> Result<(), AllocError>
        ensures { OnOk result ((z : ℤ) → places_so_far_long self.new z ≡ places_so_far_long self.old z ++ places_so_far_long later z) }
    {
        let mut listed = mem::replace(self, Longs::Listed(Vec::new(alloc))).listed(alloc)?;
        listed.reserve_exact(room.saturating_sub(listed.len()))?;
        let mut more = later.listed(alloc)?;
        listed.append(&mut more)?;
        *self = Longs::Listed(listed);
        Ok(())
    }

    /// How many numbers are listed, where equal neighbours are one.
    pub(crate) fn len(&self) -> usize {
        match self {
            Longs::Ordered(longs) => longs.len(),
            Longs::Posted(postings) => count_runs(postings),
            Longs::Listed(pairs) => pairs.len(),
        }
    }

    /// Sorts postings by their numbers; other lists stay as they are. Each piece does so concurrently with the others.
    pub(crate) fn sorted(self) -> Result<Longs, AllocError>
        ensures { IfOk result (λ l. (z : ℤ) → places_so_far_long l z ≡ places_so_far_long self z) }
    {
        match self {
            Longs::Posted(postings) => Ok(Longs::Posted(sort(postings)?)),
            longs => Ok(longs),
        }
    }

    /// Lists the numbers with their places: a number may stand more than once.
    pub(crate) fn listed(self, alloc: Global) -> Result<Vec<(i64, Places)>, AllocError>
        ensures { IfOk result (λ v. (z : ℤ) → places_listed (int_eq z) v.items ≡ places_so_far_long self z) }
    {
        match self {
            Longs::Ordered(longs) => list_of(alloc, longs),
            Longs::Posted(postings) => group(alloc, postings),
            Longs::Listed(pairs) => Ok(pairs),
        }
    }

    /// Puts the numbers with their places into a map.
    pub(crate) fn in_order(self, alloc: Global) -> Result<BTreeMap<i64, Places>, AllocError>
        ensures { IfOk result (λ m. (z : ℤ) → places_at_long m z ≡ places_so_far_long self z) }
    {
        match self {
            Longs::Ordered(longs) => Ok(longs),
            Longs::Posted(postings) => put_in_order(alloc, postings),
            Longs::Listed(pairs) => unite(alloc, pairs),
        }
    }
}

fn list_of(alloc: Global, longs: BTreeMap<i64, Places>) -> Result<Vec<(i64, Places)>, AllocError>
    ensures { IfOk result (λ v. (z : ℤ) → places_listed (int_eq z) v.items ≡ places_at_long longs z) }
{
    let _ordered = longs.len();
    Vec::from_iter(alloc, longs)
}

/// Sorts postings by their numbers.
fn sort(postings: Vec<(i64, u32)>) -> Result<Vec<(i64, u32)>, AllocError>
    ensures { IfOk result (λ v. (z : ℤ) → places_posted (int_eq z) v.items ≡ places_posted (int_eq z) postings.items) }
{
    let sorted = in_turn(postings)?;
    Ok(sorted)
}

/// Each number of the postings with its places.
fn group(alloc: Global, postings: Vec<(i64, u32)>) -> Result<Vec<(i64, Places)>, AllocError>
    ensures { IfOk result (λ v. (z : ℤ) → places_listed (int_eq z) v.items ≡ places_posted (int_eq z) postings.items) }
{
    let grouped = grouped(alloc, postings)?;
    Ok(grouped)
}

/// Puts the numbers of the postings with their places into a map.
fn put_in_order(
    alloc: Global,
    postings: Vec<(i64, u32)>,
) -> Result<BTreeMap<i64, Places>, AllocError>
    ensures { IfOk result (λ m. (z : ℤ) → places_at_long m z ≡ places_posted (int_eq z) postings.items) }
{
    let pairs = group(alloc, postings)?;
    let united = unite(alloc, pairs)?;
    Ok(united)
}

/// How many numbers there are, where equal neighbours are one. It is a hint.
fn count_runs(postings: &[(i64, u32)]) -> usize {
    let mut count = 0usize;
    let mut last: Option<i64> = None;
    for posting in postings {
        if last != Some(posting.0) {
            count = count.saturating_add(1);
            last = Some(posting.0);
        }
    }
    count
}

/// Each number with all its places.
fn unite(alloc: Global, pairs: Vec<(i64, Places)>) -> Result<BTreeMap<i64, Places>, AllocError>
    ensures { IfOk result (λ m. (z : ℤ) → places_at_long m z ≡ places_listed (int_eq z) pairs.items) }
{
    let united = map_of(alloc, pairs)?;
    Ok(united)
}

/// Lists a number with a place after the others.
fn post_behind(postings: &mut Vec<(i64, u32)>, number: i64, at: u32) -> Result<(), AllocError>
    ensures here { OnOk result (places_posted (int_eq number) postings.new.items ≡ added (places_posted (int_eq number) postings.old.items) at) }
    ensures others { OnOk result ((z : ℤ) → int_eq number z ≡ false → places_posted (int_eq z) postings.new.items ≡ places_posted (int_eq z) postings.old.items) }
{
    postings.push((number, at))?;
    Ok(())
}

fn post_at(
    alloc: Global,
    longs: &mut BTreeMap<i64, Places>,
    number: i64,
    at: u32,
) -> Result<(), AllocError>
    ensures here { OnOk result (places_at_long longs.new number ≡ added (places_at_long longs.old number) at) }
    ensures others { OnOk result ((z : ℤ) → int_eq number z ≡ false → places_at_long longs.new z ≡ places_at_long longs.old z) }
{
    if let Some(places) = longs.get_mut(&number) {
        add_place(alloc, places, at)?;
        return Ok(());
    }
    longs.insert(number, Places::One(at))?;
    Ok(())
}

fn merge_at(
    alloc: Global,
    longs: &mut BTreeMap<i64, Places>,
    number: i64,
    later: &[u32],
) -> Result<(), AllocError>
    ensures here { OnOk result (places_at_long longs.new number ≡ risen (places_at_long longs.old number) later.now) }
    ensures others { OnOk result ((z : ℤ) → int_eq number z ≡ false → places_at_long longs.new z ≡ places_at_long longs.old z) }
{
    if later.is_empty() {
        return Ok(());
    }
    if let Some(places) = longs.get_mut(&number) {
        places.merge(alloc, later)?;
        return Ok(());
    }
    longs.insert(number, Places::of(alloc, later)?)?;
    Ok(())
}
