//! Merges of parts that run concurrently with searches.
ghost use Rattle.std.specs.Prelude.{◌≡◌, ◌↔◌, ◌<◌, true, false, All, Contains, map, length, nat_lt, IfOk, IfSome, IsTrue};
ghost use Rattle.std.specs.Arc.{arc_value};
ghost use Rattle.engine.specs.Parts.{all_published, documents_of_parts, merge_of, published_of, woven, AllInOrder, IsMade, IsSplit};
ghost use Rattle.engine.specs.Published.{are_taken, greatest, AreTold};
ghost use Rattle.std.specs.List.{list_all};

use crate::ids::sought::sought_of;
use crate::job::choosing::parts_numbered;
use crate::job::handed::{Handed, MadeOf};
use crate::read::part::Part;
use crate::read::part_list::{PartList, entries_of_parts, living_parts, parts_without};
use doc::{DocId, Mapping};
use segment::Segment;
use std::alloc::{AllocError, Global};
use std::marker::Model;
use std::sync::Arc;

/// A merge that was begun: what it takes, and a place for the part that is made of that.
pub(crate) type BegunMerge = Handed<Arc<PartList, Global>, Part>;

impl MadeOf<Arc<PartList, Global>> for Part {
    ghost use Rattle.std.specs.Prelude.{◌≡◌};
    ghost use Rattle.std.specs.Arc.{arc_value};

    ghost is_made = { λ l p. p.documents ≡ (arc_value l).documents };
}

/// A merge that was begun: what searches looked through then. It needs no engine.
#[derive(Drop)]
pub struct Merging {
    pub(crate) parts: BegunMerge,
}

impl Model for Merging {
    ghost use Rattle.std.specs.Arc.{arc_value};
    ghost use Rattle.engine.specs.Parts.{merge_of};
    ghost use Rattle.engine.specs.Published.{MergeData};

    ghost Value = { MergeData };

    ghost view = { λ m. merge_of (arc_value m.parts) };
}

impl Merging {
    /// Builds one segment of what searches showed when the merge was begun. It may be called again after it ran out of memory.
    pub fn build(&self, alloc: Global) -> Result<Merged, AllocError>
        ensures { IfOk result (λ m. m ≡ self.now) }
    {
        let part = made_of(alloc, self.parts.given())?;
        if let Some(made) = &part {
            self.parts.note(made.copy()?);
        }
        let parts = self.parts.again()?;
        Ok(Merged { parts, part })
    }
}

/// The parts that a merge takes, and one part of all documents that were live in them; none where it takes none.
#[derive(Drop)]
pub struct Merged {
    pub(crate) parts: BegunMerge,
    pub(crate) part: Option<Part>,
}

impl Model for Merged {
    ghost use Rattle.std.specs.Arc.{arc_value};
    ghost use Rattle.engine.specs.Parts.{merge_of, IsMade};
    ghost use Rattle.engine.specs.Published.{MergeData};

    ghost Value = { MergeData };

    ghost view = { λ m. merge_of (arc_value m.parts) };

    ghost invariant = { λ m. IsMade (arc_value m.parts) m.part };
}

/// One part of the documents of parts, where a merge takes them.
fn made_of(alloc: Global, parts: &PartList) -> Result<Option<Part>, AllocError>
    ensures { IfOk result (IsMade parts.now) }
{
    if !are_taken(parts.parts()) {
        return Ok(None);
    }
    let part = parts.joined(alloc)?;
    Ok(Some(part))
}

/// Whether a merge takes these parts.
pub(crate) fn are_taken(parts: &[Part]) -> bool
    ensures { result ≡ are_taken (all_published parts.now) }
{
    2 <= parts.len() && are_below_greatest(parts)
}

/// Whether none bears the greatest number.
pub(crate) fn are_below_greatest(parts: &[Part]) -> bool
    ensures { result ≡ list_all (λ s. nat_lt s.number greatest) (all_published parts.now) }
{
    for part in parts {
        if part.number() == u64::MAX {
            return false;
        }
    }
    true
}

/// Whether two parts are one segment, whichever of its documents are live. Where their numbers tell that, no document is looked at.
fn are_one(one: &Part, other: &Part, by_number: bool) -> bool
    requires { by_number ≡ true → one.now.number ≡ other.now.number → published_of one.now ≡ published_of other.now }
    ensures { IsTrue result ↔ (published_of one.now ≡ published_of other.now) }
{
    if by_number {
        one.number() == other.number()
    } else {
        one.is_as(other)
    }
}

/// Whether a part is among all, whichever of its documents are live there.
fn is_among(all: &[Part], part: &Part, by_number: bool) -> bool
    requires { by_number ≡ true → All (λ t. t.number ≡ part.now.number → t ≡ published_of part.now) (all_published all.now) }
    ensures yes { result ≡ true → Contains (all_published all.now) (published_of part.now) }
    ensures no { result ≡ false → Contains (all_published all.now) (published_of part.now) → ⊥ }
{
    for other in all {
        if are_one(other, part, by_number) {
            return true;
        }
    }
    false
}

/// Parts in two halves.
#[derive(Drop)]
pub(crate) struct Halves {
    pub(crate) stay: Vec<Part>,
    pub(crate) go: Vec<Part>,
}

/// Parts in two halves: those that were taken go, the others stay.
pub(crate) fn split(
    alloc: Global,
    parts: &[Part],
    taken: &[Part],
    by_number: bool,
) -> Result<Halves, AllocError>
    requires { by_number ≡ true → AreTold (all_published taken.now) (all_published parts.now) }
    ensures { IfOk result (λ h. IsSplit (all_published taken.now) parts.now h.stay.items h.go.items) }
{
    let mut stay = Vec::new(alloc);
    let mut go = Vec::new(alloc);
    for part in parts {
        let copy = part.copy()?;
        if is_among(taken, part, by_number) {
            go.push(copy)?;
        } else {
            stay.push(copy)?;
        }
    }
    Ok(Halves { stay, go })
}

/// A part of this number that shows what some parts show, each of which was taken: the part that was made of all that were taken, without what died in them
/// since, where that is it, else a new one.
pub(crate) fn part_showing(
    alloc: Global,
    mapping: &Arc<Mapping, Global>,
    number: u64,
    taken: &[Part],
    made: &Part,
    parts: &[Part],
) -> Result<Part, AllocError>
    requires order { AllInOrder (documents_of_parts parts.now) }
    requires taken { AllInOrder (documents_of_parts taken.now) }
    requires made { made.now.documents ≡ woven (documents_of_parts taken.now) }
    requires among { All (λ p. Contains (all_published taken.now) (published_of p)) parts.now }
    ensures mapping { IfOk result (λ p. p.mapping ≡ arc_value mapping.now) }
    ensures documents { IfOk result (λ p. p.documents ≡ woven (documents_of_parts parts.now)) }
    ensures number { IfOk result (λ p. p.number ≡ number) }
{
    if made.is_under(mapping) {
        if let Some(part) = left_of(alloc, taken, made, parts)? {
            return Ok(part.numbered(number));
        }
    }
    let live = entries_of_parts(alloc, parts)?;
    let part = Part::of(&Segment::build, alloc, mapping, number, &live)?;
    Ok(part)
}

/// The part that was made of those that were taken, without what died in them since, if it then shows what these parts show. No document is looked at but
/// those that died.
fn left_of(
    alloc: Global,
    taken: &[Part],
    made: &Part,
    parts: &[Part],
) -> Result<Option<Part>, AllocError>
    requires taken { AllInOrder (documents_of_parts taken.now) }
    requires made { made.now.documents ≡ woven (documents_of_parts taken.now) }
    requires among { All (λ p. Contains (all_published taken.now) (published_of p)) parts.now }
    ensures { IfOk result (λ o. IfSome o (λ p. p ≡ record made.now { documents = woven (documents_of_parts parts.now) })) }
{
    let dead = ids_of_dead(alloc, taken, parts)?;
    let sought = sought_of(alloc, &dead)?;
    let without = parts_without(alloc, taken, &sought)?;
    let left = living_parts(alloc, &without)?;
    if !are_left(alloc, taken, &left, parts)? {
        return Ok(None);
    }
    let part = made.without(alloc, &sought)?;
    Ok(Some(part))
}

/// The ids of the documents that were live in parts that were taken, and aren't in those that are left of them.
fn ids_of_dead(alloc: Global, taken: &[Part], parts: &[Part]) -> Result<Vec<DocId>, AllocError> {
    let mut dead = Vec::new(alloc);
    for part in taken {
        part.push_dead(alloc, numbered(parts, part.number()), &mut dead)?;
    }
    Ok(dead)
}

/// The part of this number.
fn numbered(parts: &[Part], number: u64) -> Option<&Part> {
    for part in parts {
        if part.number() == number {
            return Some(part);
        }
    }
    None
}

/// Whether parts show what others show, all of which were taken: in turn the same segments, with the same live documents.
fn are_left(
    alloc: Global,
    taken: &[Part],
    left: &[Part],
    parts: &[Part],
) -> Result<bool, AllocError>
    requires left { All (λ p. Contains (all_published taken.now) (published_of p)) left.now }
    requires parts { All (λ p. Contains (all_published taken.now) (published_of p)) parts.now }
    ensures { IfOk result (λ b. b ≡ true → documents_of_parts left.now ≡ documents_of_parts parts.now) }
{
    if left.len() != parts.len() {
        return Ok(false);
    }
    for at in 0..left.len() {
        if !is_left(alloc, taken, &left[at], &parts[at])? {
            return Ok(false);
        }
    }
    Ok(true)
}

/// Whether two parts that were taken are one segment with the same live documents. One segment alone bears the number, so no documents are compared.
fn is_left(alloc: Global, taken: &[Part], left: &Part, part: &Part) -> Result<bool, AllocError>
    requires left { Contains (all_published taken.now) (published_of left.now) }
    requires part { Contains (all_published taken.now) (published_of part.now) }
    ensures { IfOk result (λ b. b ≡ true → left.now.documents ≡ part.now.documents) }
{
    if left.number() != part.number() {
        return Ok(false);
    }
    let bearers = parts_numbered(alloc, taken, &[part.number()])?;
    Ok(bearers.len() < 2 && left.is_live_as(part))
}
