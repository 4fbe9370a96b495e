//! A part of what searches show.
ghost use Rattle.std.specs.Prelude.{◌≡◌, ◌↔◌, ◌<◌, All, IsTrue, ◌+◌, ◌^◌, ◌&&◌, true, map, take, drop, length, filter, replicate, IfOk};
ghost use Rattle.std.specs.Arc.{arc_value};
ghost use Rattle.std.specs.FinMap.Entries.{is_sorted};
ghost use Rattle.doc.specs.Id.{id_cmp};
ghost use Rattle.query.specs.Query.{match_all};
ghost use Rattle.query.specs.View.{query_view};
ghost use Rattle.marks.specs.Lists.{zip_with, places};
ghost use Rattle.segment.specs.Builds.{Builds};
ghost use Rattle.engine.specs.Answer.{is_found};
ghost use Rattle.engine.specs.Entry.{entry_view};
ghost use Rattle.engine.specs.Shown.{seen};
ghost use Rattle.engine.specs.Parts.{published_of, without};

use crate::ids::sought::Sought;
use crate::read::block::{Block, Shown};
use crate::read::documents::Entry;
use doc::{DocId, Mapping, Source};
use marks::Marks;
use query::Query;
use search::FoundPlaces;
use segment::{Segment, Strand};
use std::alloc::{AllocError, Global};
use std::marker::Model;
use std::sync::Arc;

/// Documents that were put into one segment, and which of them are live: those that no later part has, and that weren't deleted.
pub(crate) struct Part {
    number: u64,
    block: Arc<Block, Global>,
    live: Arc<Marks, Global>,
    /// How many are live.
    live_len: usize,
    /// Where it is set, no document is dead.
    all_live: bool,
}

impl Drop for Part {
    fn drop(self) {
        let Part {
            number: _,
            block: _block,
            live: _live,
            live_len: _,
            all_live: _,
        } = self;
    }
}

impl Model for Part {
    ghost use Rattle.std.specs.Arc.{arc_value};
    ghost use Rattle.segment.specs.Merged.{chosen};
    ghost use Rattle.engine.specs.Parts.{IsPart, PartData};

    ghost Value = { PartData };

    ghost view = { λ p. record {
      mapping = (arc_value p.block).mapping;
      documents = chosen (arc_value p.block).documents (arc_value p.live);
      number = p.number;
      built = (arc_value p.block).documents;
    } };

    ghost invariant = { λ p. IsPart (arc_value p.block).documents (arc_value p.live) p.live_len p.all_live };
}

/// What there is for a query: how many documents, and the first of them.
#[derive(Drop)]
pub(crate) struct Share<'a> {
    pub(crate) total: u64,
    pub(crate) first: Vec<Entry<'a>>,
}

/// What there is for a query: how many documents, and the first of them, without entries.
#[derive(Drop)]
pub(crate) struct PartHits<'a> {
    pub(crate) total: u64,
    pub(crate) first: Vec<&'a Shown>,
}

impl Part {
    /// The documents of entries, all live.
    pub(crate) fn of<
        F: Fn(Global, &Arc<Mapping, Global>, Vec<Source>) -> Result<Segment, AllocError>,
    >(
        builder: &F,
        alloc: Global,
        mapping: &Arc<Mapping, Global>,
        number: u64,
        entries: &[Entry<'_>],
    ) -> Result<Part, AllocError>
        requires builds { Builds F.Fn builder.now }
        requires sorted { is_sorted id_cmp (map entry_view entries.now) ≡ true }
        ensures { IfOk result (λ p. p ≡ record { mapping = arc_value mapping.now; documents = map entry_view entries.entry.now; number = number; built = map entry_view entries.entry.now }) }
    {
        let block = Block::of(builder, alloc, mapping, entries)?;
        let block = Arc::new(alloc, block)?;
        Part::over(alloc, number, block)
    }

    /// The documents of a block, all live.
    pub(crate) fn over(
        alloc: Global,
        number: u64,
        block: Arc<Block, Global>,
    ) -> Result<Part, AllocError>
        ensures { IfOk result (λ p. p ≡ record { mapping = (arc_value block).mapping; documents = (arc_value block).documents; number = number; built = (arc_value block).documents }) }
    {
        let live_len = block.len();
        let live = Marks::all(alloc, live_len)?;
        let live = Arc::new(alloc, live)?;
        Ok(Part {
            number,
            block,
            live,
            live_len,
            all_live: true,
        })
    }

    /// Its number.
    pub(crate) fn number(&self) -> u64
        ensures { result ≡ self.now.number }
    {
        self.number
    }

    /// Whether the other is the same segment, whichever documents are live.
    pub(crate) fn is_as(&self, other: &Part) -> bool
        ensures { IsTrue result ↔ (published_of self.now ≡ published_of other.now) }
    {
        self.number == other.number && self.block.is(&other.block)
    }

    /// Whether its documents were read under the mapping.
    pub(crate) fn is_under(&self, mapping: &Mapping) -> bool
        ensures { IsTrue result ↔ (self.now.mapping ≡ mapping.now) }
    {
        self.block.is_under(mapping)
    }

    /// A copy of the part, which shares all that the part has.
    pub(crate) fn copy(&self) -> Result<Part, AllocError>
        ensures { IfOk result (λ p. p ≡ self.now) }
    {
        let block = Arc::try_clone(&self.block)?;
        let live = Arc::try_clone(&self.live)?;
        Ok(Part {
            number: self.number,
            block,
            live,
            live_len: self.live_len,
            all_live: self.all_live,
        })
    }

    /// Gives the part another number.
    pub(crate) fn numbered(self, number: u64) -> Part
        ensures { result ≡ record self { number = number } }
    {
        let Part {
            number: _,
            block,
            live,
            live_len,
            all_live,
        } = self;
        Part {
            number,
            block,
            live,
            live_len,
            all_live,
        }
    }

    /// How many documents were put into it, live or not.
    pub(crate) fn weight(&self) -> usize
        ensures { result ≡ length self.now.built }
    {
        self.block.len()
    }

    /// How many of them are live.
    pub(crate) fn live_len(&self) -> usize
        ensures is { result ≡ length self.now.documents }
        ensures few { result < 2 ^ 32 }
    {
        let _few = self.block.len();
        self.live_len
    }

    /// Its documents.
    pub(crate) fn entries(&self, alloc: Global) -> Result<Vec<Entry<'_>>, AllocError>
        ensures { IfOk result (λ v. map entry_view v.items ≡ self.now.documents) }
    {
        let _few = self.block.len();
        let live = self.live.places(alloc)?;
        let entries = self.block.entries_at(alloc, &live)?;
        Ok(entries)
    }

    /// Its segment, and where its live documents stand among entries.
    pub(crate) fn strand<'a>(
        &'a self,
        alloc: Global,
        entries: &[Entry<'_>],
    ) -> Result<Strand<'a>, AllocError> {
        let places = self.block.live_places_among(alloc, &self.live, entries)?;
        Ok(Strand {
            segment: self.block.segment(),
            places,
        })
    }

    /// Adds the ids of the documents that aren't live in the other part of the same segment, where there is one, and are in this one.
    pub(crate) fn push_dead(
        &self,
        alloc: Global,
        other: Option<&Part>,
        dead: &mut Vec<DocId>,
    ) -> Result<(), AllocError> {
        let places = self.places_beside(alloc, other)?;
        let entries = self.block.entries_at(alloc, &places)?;
        for entry in entries {
            dead.push(entry.id.copy(alloc)?)?;
        }
        Ok(())
    }

    /// The places of the documents that are live in this part, and in the other, where there is one of as many documents, aren't.
    fn places_beside(&self, alloc: Global, other: Option<&Part>) -> Result<Vec<u32>, AllocError>
        ensures { IfOk result (λ v. All (λ p. p < length self.now.built) v.items) }
    {
        let _few = self.block.len();
        let mut beside = Marks::none(alloc, self.live.len())?;
        beside.unite(&self.live);
        if let Some(other) = other {
            subtract_fitting(&mut beside, &other.live);
        }
        let places = beside.places(alloc)?;
        Ok(places)
    }

    /// Whether the same documents are live in the other part, where both are of one segment.
    pub(crate) fn is_live_as(&self, other: &Part) -> bool
        ensures { result ≡ true → self.now.built ≡ other.now.built → self.now.documents ≡ other.now.documents }
    {
        let _few = self.block.len();
        if self.all_live && other.all_live {
            return true;
        }
        are_same(&self.live, &other.live)
    }

    /// What it has for a query: how many documents, and the first `size` of them after the first `from`. It makes no entry for those before.
    pub(crate) fn find(
        &self,
        alloc: Global,
        query: &Query,
        from: usize,
        size: usize,
    ) -> Result<Share<'_>, AllocError>
        requires { from + size < 2 ^ 64 }
        ensures total { IfOk result (λ s. s.total ≡ length (filter (is_found self.now.mapping (query_view query.now)) self.now.documents)) }
        ensures few { IfOk result (λ s. s.total < 2 ^ 32) }
        ensures first { IfOk result (λ s. map entry_view s.first.items ≡ take size (drop from (filter (is_found self.now.mapping (query_view query.now)) self.now.documents))) }
    {
        let _few = self.block.len();
        let found = find_places(
            alloc,
            &self.block,
            &self.live,
            self.all_live,
            query,
            from + size,
        )?;
        let first = self.block.entries_at(alloc, behind(&found.first, from))?;
        Ok(Share {
            total: found.total as u64,
            first,
        })
    }

    /// How many documents it has for a query, and where the first of them stand, no more than wanted.
    pub(crate) fn hits(
        &self,
        alloc: Global,
        query: &Query,
        wanted: usize,
    ) -> Result<PartHits<'_>, AllocError>
        ensures total { IfOk result (λ h. h.total ≡ length (filter (is_found self.now.mapping (query_view query.now)) self.now.documents)) }
        ensures few { IfOk result (λ h. h.total < 2 ^ 32) }
        ensures first { IfOk result (λ h. seen h.first.items ≡ take wanted (filter (is_found self.now.mapping (query_view query.now)) self.now.documents)) }
    {
        if self.all_live && is_match_all(query) {
            return first_of(alloc, &self.block, wanted);
        }
        self.chosen_hits(alloc, query, wanted)
    }

    /// How many documents it has for a query, and the first of them, no more than wanted, by the places of those that the query means.
    fn chosen_hits(
        &self,
        alloc: Global,
        query: &Query,
        wanted: usize,
    ) -> Result<PartHits<'_>, AllocError>
        ensures total { IfOk result (λ h. h.total ≡ length (filter (is_found self.now.mapping (query_view query.now)) self.now.documents)) }
        ensures few { IfOk result (λ h. h.total < 2 ^ 32) }
        ensures first { IfOk result (λ h. seen h.first.items ≡ take wanted (filter (is_found self.now.mapping (query_view query.now)) self.now.documents)) }
    {
        let _few = self.block.len();
        let found = find_places(alloc, &self.block, &self.live, self.all_live, query, wanted)?;
        let first = self.block.shown_at(alloc, &found.first)?;
        Ok(PartHits {
            total: found.total as u64,
            first,
        })
    }

    /// The part without the documents that have one of the ids.
    pub(crate) fn without(&self, alloc: Global, ids: &[Sought<'_>]) -> Result<Part, AllocError>
        ensures { IfOk result (λ p. p ≡ record self.now { documents = without ids.now self.now.documents }) }
    {
        if self.block.has_any(ids) {
            self.unmarked(alloc, ids)
        } else {
            self.copy()
        }
    }

    /// The part without the documents that have one of the ids, with live marks of its own.
    fn unmarked(&self, alloc: Global, ids: &[Sought<'_>]) -> Result<Part, AllocError>
        ensures { IfOk result (λ p. p ≡ record self.now { documents = without ids.now self.now.documents }) }
    {
        let len = self.block.len();
        let mut dead = Marks::none(alloc, len)?;
        self.block.mark_ids(ids, &mut dead);
        let mut live = Marks::none(alloc, len)?;
        live.unite(&self.live);
        live.subtract(&dead);
        let live_len = live.count();
        let all_live = live_len == len;
        let live = Arc::new(alloc, live)?;
        let block = Arc::try_clone(&self.block)?;
        Ok(Part {
            number: self.number,
            block,
            live,
            live_len,
            all_live,
        })
    }
}

/// Copies of the parts, each of which shares all that its part has.
pub(crate) fn copies_of(alloc: Global, parts: &[Part]) -> Result<Vec<Part>, AllocError>
    ensures { IfOk result (λ v. v.items ≡ parts.now) }
{
    let mut copies = Vec::with_capacity(alloc, parts.len())?;
    for part in parts {
        copies.push(part.copy()?)?;
    }
    Ok(copies)
}

/// Takes away the marks of others, if there are as many.
fn subtract_fitting(marks: &mut Marks, others: &Marks)
    ensures { length marks.new ≡ length marks.old }
{
    if marks.len() == others.len() {
        marks.subtract(others);
    }
}

/// Whether two lists of marks are the same.
fn are_same(left: &Marks, right: &Marks) -> bool
    requires { length left.now < 2 ^ 32 }
    ensures { result ≡ true → left.now ≡ right.now }
{
    if left.len() != right.len() {
        return false;
    }
    for at in 0..left.len() {
        if left.get(at as u32) != right.get(at as u32) {
            return false;
        }
    }
    true
}

/// How many documents a block has, and the first of them, no more than wanted.
fn first_of(alloc: Global, block: &Block, wanted: usize) -> Result<PartHits<'_>, AllocError>
    ensures total { IfOk result (λ h. h.total ≡ length block.now.documents) }
    ensures few { IfOk result (λ h. h.total < 2 ^ 32) }
    ensures first { IfOk result (λ h. seen h.first.items ≡ take wanted block.now.documents) }
{
    let first = block.first_shown(alloc, wanted)?;
    Ok(PartHits {
        total: block.len() as u64,
        first,
    })
}

fn is_match_all(query: &Query) -> bool
    ensures { IsTrue result → query_view query.now ≡ match_all }
{
    matches!(query, Query::MatchAll)
}

/// How many live documents of a block the query means, and the places of the first of them, no more than wanted.
fn find_places(
    alloc: Global,
    block: &Block,
    live: &Marks,
    all_live: bool,
    query: &Query,
    wanted: usize,
) -> Result<FoundPlaces, AllocError>
    requires whole { length live.now ≡ length block.now.documents }
    requires full { all_live ≡ true → live.now ≡ replicate (length block.now.documents) true }
    ensures total { IfOk result (λ f. f.total ≡ length (places (λ b. b) (zip_with (λ m l. m && l) (map (is_found block.now.mapping (query_view query.now)) block.now.documents) live.now))) }
    ensures first { IfOk result (λ f. f.first.items ≡ take wanted (places (λ b. b) (zip_with (λ m l. m && l) (map (is_found block.now.mapping (query_view query.now)) block.now.documents) live.now))) }
{
    if all_live {
        block.find_all(alloc, query, wanted)
    } else {
        block.find(alloc, live, query, wanted)
    }
}

/// The places after the first so many.
fn behind(places: &[u32], from: usize) -> &[u32]
    ensures { result.now ≡ drop from places.now }
{
    let count = places.len().min(from);
    &places[count..]
}
