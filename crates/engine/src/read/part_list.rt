//! What searches look through.
ghost use Rattle.std.specs.Prelude.{◌≡◌, ◌<◌, ◌≤◌, ◌+◌, ◌^◌, true, false, None, All, map, take, drop, filter, length, max, IfOk, IfSome};
ghost use Rattle.std.specs.Arc.{arc_value};
ghost use Rattle.std.specs.FinMap.Entries.{is_sorted};
ghost use Rattle.doc.specs.Id.{Id, id_cmp};
ghost use Rattle.query.specs.View.{query_view};
ghost use Rattle.op.specs.Documents.{documents};
ghost use Rattle.op.specs.Operations.{IsAscending};
ghost use Rattle.segment.specs.Builds.{Builds};
ghost use Rattle.engine.specs.Answer.{is_found};
ghost use Rattle.engine.specs.Entry.{entry_view};
ghost use Rattle.engine.specs.Parts.{all_published, documents_of_parts, has_id, is_among, is_living, merged, without, woven, AllInOrder, AreParts};
ghost use Rattle.engine.specs.Lessened.{all_before, IsLessened};
ghost use Rattle.engine.specs.Live.{changed_live, changed_segments, is_live, live_of, living, GoTogether};
ghost use Rattle.engine.specs.Published.{mergeable_count, numbered, AreDistinct, AreGone, AreTold, IsReplaced};
ghost use Rattle.engine.specs.Before.{first_of_each};
ghost use Rattle.engine.specs.Shown.{seen_all, shown_view};
ghost use Rattle.engine.specs.Slot.{ops, AreHeld};

use crate::ids::sought::Sought;
use crate::job::choosing::{count_mergeable, numbers_to_merge, parts_numbered, push_if};
use crate::job::lessened::{Lessened, parts_left};
use crate::job::swapping::{Halves, part_showing, split};
use crate::operations::slot::Slot;
use crate::read::block::{Block, Shown, shown_of};
use crate::read::documents::{Entry, documents_of};
use crate::read::merging::{merge, merge_owned};
use crate::read::paging::{behind, find_pivot, page_behind};
use crate::read::part::{Part, Share};
use crate::read::strands::strands_of;
use doc::{DocId, Mapping, Source};
use query::Query;
use segment::Segment;
use std::alloc::{AllocError, Global};
use std::marker::Model;
use std::sync::Arc;

/// There are fewer parts.
const MOST_PARTS: usize = 4_294_967_295;

/// Where no more documents are passed over, merging their entries is soon done.
const FEW_PASSED_OVER: usize = 128;

/// What parts have for a query: how many documents in all, and where the first of each stand.
#[derive(Drop)]
struct AllHits<'a> {
    total: u64,
    lists: Vec<Vec<&'a Shown>>,
}

/// Parts, the newest first, in which no document stands twice. It never changes.
pub(crate) struct PartList {
    mapping: Arc<Mapping, Global>,
    parts: Vec<Part>,
}

impl Drop for PartList {
    fn drop(self) {
        let PartList {
            mapping: _mapping,
            parts: _parts,
        } = self;
    }
}

impl Model for PartList {
    ghost use Rattle.std.specs.Arc.{arc_value};
    ghost use Rattle.engine.specs.Parts.{all_published, documents_of_parts, woven, AreParts, PartListData};

    ghost Value = { PartListData };

    ghost view = { λ l. record {
      mapping = arc_value l.mapping;
      documents = woven (documents_of_parts l.parts.items);
      published = all_published l.parts.items;
      live = documents_of_parts l.parts.items;
    } };

    ghost invariant = { λ l. AreParts (arc_value l.mapping) l.parts.items };
}

impl PartList {
    ghost use Rattle.std.specs.Prelude.{◌∷◌, [], false};

    /// The documents that operations in ascending order make, in one part of this number.
    pub(crate) fn of<
        F: Fn(Global, &Arc<Mapping, Global>, Vec<Source>) -> Result<Segment, AllocError>,
    >(
        builder: &F,
        alloc: Global,
        mapping: Arc<Mapping, Global>,
        number: u64,
        slots: &[Slot],
    ) -> Result<PartList, AllocError>
        requires builds { Builds F.Fn builder.now }
        requires ascending { IsAscending (ops slots.now) }
        requires held { AreHeld (ops slots.now) slots.now }
        ensures { IfOk result (λ l. l ≡ record {
          mapping = arc_value mapping;
          documents = documents (ops slots.now);
          published = (record { number = number; mapping = arc_value mapping; documents = documents (ops slots.now) }) ∷ [];
          live = documents (ops slots.now) ∷ [];
        }) }
    {
        let documents = documents_left(alloc, slots)?;
        let block = Block::over(builder, alloc, &mapping, documents)?;
        let block = Arc::new(alloc, block)?;
        let part = Part::over(alloc, number, block)?;
        let mut parts = Vec::new(alloc);
        parts.push(part)?;
        Ok(PartList { mapping, parts })
    }

    pub(crate) fn allocator(&self) -> Global {
        *self.parts.allocator()
    }

    pub(crate) fn parts(&self) -> &[Part]
        ensures published { all_published result.now ≡ self.now.published }
        ensures documents { woven (documents_of_parts result.now) ≡ self.now.documents }
        ensures order { AllInOrder (documents_of_parts result.now) }
    {
        &self.parts
    }

    /// How many parts there are.
    pub(crate) fn len(&self) -> usize
        ensures is { result ≡ length self.now.published }
        ensures none { result ≡ 0 → self.now.documents ≡ [] }
        ensures live { woven self.now.live ≡ self.now.documents }
    {
        self.parts.len()
    }

    /// The parts that bear these numbers.
    pub(crate) fn numbered(&self, alloc: Global, numbers: &[u64]) -> Result<PartList, AllocError>
        ensures mapping { IfOk result (λ l. l.mapping ≡ self.now.mapping) }
        ensures published { IfOk result (λ l. l.published ≡ numbered numbers.now self.now.published) }
        ensures documents { IfOk result (λ l. l.documents ≡ woven (live_of numbers.now self.now.published self.now.live)) }
    {
        let parts = parts_numbered(alloc, &self.parts, numbers)?;
        let mapping = Arc::try_clone(&self.mapping)?;
        Ok(PartList { mapping, parts })
    }

    /// The numbers of parts that go well into one, if there are more than so few.
    pub(crate) fn to_merge(&self, alloc: Global, few: usize) -> Result<Option<Vec<u64>>, AllocError>
        requires { AreDistinct self.now.published }
        ensures none { IfOk result (λ o. o ≡ None → mergeable_count self.now.published ≤ max 1 few) }
        ensures some { IfOk result (λ o. IfSome o (λ v. max 1 few < mergeable_count self.now.published)) }
        ensures there { IfOk result (λ o. IfSome o (λ v. 2 ≤ length (numbered v.items self.now.published))) }
        ensures few { IfOk result (λ o. IfSome o (λ v. length v.items ≤ 10)) }
        ensures fit { IfOk result (λ o. IfSome o (λ v. GoTogether v.items self.now.published self.now.live)) }
    {
        if count_mergeable(&self.parts) <= few.max(1) {
            return Ok(None);
        }
        let numbers = numbers_to_merge(alloc, &self.parts)?;
        Ok(Some(numbers))
    }

    /// What there is for a query: how many documents, and the first `size` of them after the first `from`.
    pub(crate) fn page(
        &self,
        alloc: Global,
        query: &Query,
        from: usize,
        size: usize,
    ) -> Result<Share<'_>, AllocError>
        requires { from + size < 2 ^ 64 }
        ensures total { IfOk result (λ s. s.total ≡ length (filter (is_found self.now.mapping (query_view query.now)) self.now.documents)) }
        ensures first { IfOk result (λ s. map entry_view s.first.items ≡ take size (drop from (filter (is_found self.now.mapping (query_view query.now)) self.now.documents))) }
    {
        page_of(alloc, &self.mapping, &self.parts, query, from, size)
    }

    /// What is shown where the documents of a block stand at some ids now, and at the others what stood there. The block is a part of this number, in front
    /// of the others. Parts in which no document is live any more go. What is left of the others is taken where it is made.
    pub(crate) fn with(
        &self,
        alloc: Global,
        number: u64,
        ids: &[DocId],
        made: &[Lessened],
        block: Arc<Block, Global>,
    ) -> Result<PartList, AllocError>
        requires under { (arc_value block).mapping ≡ self.now.mapping }
        requires only { (id : Id) → has_id id (arc_value block).documents ≡ true → is_among ids.now id ≡ true }
        requires told { AreTold (all_before made.now) self.now.published }
        requires are { All (IsLessened ids.now) made.now }
        ensures mapping { IfOk result (λ l. l.mapping ≡ self.now.mapping) }
        ensures documents { IfOk result (λ l. l.documents ≡ merged (arc_value block).documents (without ids.now self.now.documents)) }
        ensures published { IfOk result (λ l. l.published ≡ changed_segments (is_among ids.now) (record { number = number; mapping = self.now.mapping; documents = (arc_value block).documents }) self.now.published self.now.live) }
        ensures live { IfOk result (λ l. l.live ≡ filter is_live (changed_live (is_among ids.now) (record { number = number; mapping = self.now.mapping; documents = (arc_value block).documents }) self.now.live)) }
    {
        let mut parts = parts_left(alloc, &self.parts, ids, made)?;
        if parts.len() >= MOST_PARTS {
            return Err(AllocError);
        }
        let _sorted = block.len();
        let part = Part::over(alloc, number, block)?;
        parts.insert(0, part)?;
        living(alloc, &self.mapping, &parts)
    }

    /// The documents of all parts in one. Their texts aren't read again.
    pub(crate) fn joined(&self, alloc: Global) -> Result<Part, AllocError>
        ensures mapping { IfOk result (λ p. p.mapping ≡ self.now.mapping) }
        ensures documents { IfOk result (λ p. p.documents ≡ self.now.documents) }
    {
        let entries = entries_of_parts(alloc, &self.parts)?;
        let strands = strands_of(alloc, &self.parts, &entries)?;
        let weaver = |alloc: Global, mapping: &Arc<Mapping, Global>, sources: Vec<
            Source,
        >| -> Result<Segment, AllocError>
            requires { length sources.items < 2 ^ 32 }
            ensures { IfOk result (λ s. s ≡ record { mapping = arc_value mapping.now; sources = sources.items }) }
        { Segment::weave(alloc, mapping, sources, &strands) };
        Part::of(&weaver, alloc, &self.mapping, 0, &entries)
    }

    /// The list with one part of this number in place of the taken parts that are still there; none where none is. The new part shows what is live in
    /// those, and reuses `made` where it can. Where `by_number` holds, numbers identify the parts and no documents are compared.
    pub(crate) fn swapped(
        &self,
        alloc: Global,
        number: u64,
        taken: &[Part],
        made: &Part,
        by_number: bool,
    ) -> Result<Option<PartList>, AllocError>
        requires told { by_number ≡ true → AreTold (all_published taken.now) self.now.published }
        requires order { AllInOrder (documents_of_parts taken.now) }
        requires made { made.now.documents ≡ woven (documents_of_parts taken.now) }
        ensures mapping { IfOk result (λ o. IfSome o (λ l. l.mapping ≡ self.now.mapping)) }
        ensures documents { IfOk result (λ o. IfSome o (λ l. l.documents ≡ self.now.documents)) }
        ensures there { IfOk result (λ o. IfSome o (λ l. AreGone self.now.published (all_published taken.now) → ⊥)) }
        ensures swapped { IfOk result (λ o. IfSome o (λ l. IsReplaced (all_published taken.now) number self.now.mapping self.now.published l.published)) }
        ensures gone { IfOk result (λ o. o ≡ None → AreGone self.now.published (all_published taken.now)) }
    {
        let halves = split(alloc, &self.parts, taken, by_number)?;
        let Halves { mut stay, go } = halves;
        if go.is_empty() {
            return Ok(None);
        }
        if stay.len() >= MOST_PARTS {
            return Err(AllocError);
        }
        let part = part_showing(alloc, &self.mapping, number, taken, made, &go)?;
        stay.push(part)?;
        let mapping = Arc::try_clone(&self.mapping)?;
        Ok(Some(PartList {
            mapping,
            parts: stay,
        }))
    }
}

/// The documents that operations in ascending order leave. It drops the entries by which it finds them.
fn documents_left(alloc: Global, slots: &[Slot]) -> Result<Vec<Shown>, AllocError>
    requires ascending { IsAscending (ops slots.now) }
    requires held { AreHeld (ops slots.now) slots.now }
    ensures { IfOk result (λ v. map shown_view v.items ≡ documents (ops slots.now)) }
{
    let entries = documents_of(alloc, slots)?;
    shown_of(alloc, &entries)
}

/// What parts under the mapping have for a query: how many documents, and the first `size` of them after the first `from`.
/// No entry is made for most documents that are passed over.
fn page_of<'a>(
    alloc: Global,
    _mapping: &Mapping,
    parts: &'a [Part],
    query: &Query,
    from: usize,
    size: usize,
) -> Result<Share<'a>, AllocError>
    requires are { AreParts _mapping.now parts.now }
    requires fits { from + size < 2 ^ 64 }
    ensures total { IfOk result (λ s. s.total ≡ length (filter (is_found _mapping.now (query_view query.now)) (woven (documents_of_parts parts.now)))) }
    ensures first { IfOk result (λ s. map entry_view s.first.items ≡ take size (drop from (filter (is_found _mapping.now (query_view query.now)) (woven (documents_of_parts parts.now))))) }
{
    if parts.len() == 1 {
        return parts[0].find(alloc, query, from, size);
    }
    if from < FEW_PASSED_OVER {
        return merged_page(alloc, _mapping, parts, query, from, size);
    }
    let hits = hits_of_parts(alloc, _mapping, parts, query, from + size)?;
    match find_pivot(&hits.lists, from) {
        Some(pivot) => {
            let first = page_behind(alloc, &hits.lists, pivot, from, size)?;
            Ok(Share {
                total: hits.total,
                first,
            })
        }
        None => merged_page(alloc, _mapping, parts, query, from, size),
    }
}

/// What parts under the mapping have for a query: how many documents, and those of the page.
/// It makes entries for all documents up to the end of the page.
fn merged_page<'a>(
    alloc: Global,
    _mapping: &Mapping,
    parts: &'a [Part],
    query: &Query,
    from: usize,
    size: usize,
) -> Result<Share<'a>, AllocError>
    requires are { AreParts _mapping.now parts.now }
    requires fits { from + size < 2 ^ 64 }
    ensures total { IfOk result (λ s. s.total ≡ length (filter (is_found _mapping.now (query_view query.now)) (woven (documents_of_parts parts.now)))) }
    ensures first { IfOk result (λ s. map entry_view s.first.items ≡ take size (drop from (filter (is_found _mapping.now (query_view query.now)) (woven (documents_of_parts parts.now))))) }
{
    let found = find(alloc, _mapping, parts, query, from + size)?;
    let first = behind(found.first, from)?;
    Ok(Share {
        total: found.total,
        first,
    })
}

/// How many documents parts have for a query, and where the first of each stand, no more than wanted.
fn hits_of_parts<'a>(
    alloc: Global,
    _mapping: &Mapping,
    parts: &'a [Part],
    query: &Query,
    wanted: usize,
) -> Result<AllHits<'a>, AllocError>
    requires { AreParts _mapping.now parts.now }
    ensures total { IfOk result (λ h. h.total ≡ length (filter (is_found _mapping.now (query_view query.now)) (woven (documents_of_parts parts.now)))) }
    ensures lists { IfOk result (λ h. seen_all h.lists.items ≡ first_of_each wanted (is_found _mapping.now (query_view query.now)) (documents_of_parts parts.now)) }
{
    let mut total = 0u64;
    let mut lists = Vec::new(alloc);
    for part in parts {
        let hits = part.hits(alloc, query, wanted)?;
        lists.push(hits.first)?;
        total += hits.total;
    }
    Ok(AllHits { total, lists })
}

/// What parts under the mapping have for a query: how many documents, and the first of them, no more than wanted.
fn find<'a>(
    alloc: Global,
    _mapping: &Mapping,
    parts: &'a [Part],
    query: &Query,
    wanted: usize,
) -> Result<Share<'a>, AllocError>
    requires { AreParts _mapping.now parts.now }
    ensures total { IfOk result (λ s. s.total ≡ length (filter (is_found _mapping.now (query_view query.now)) (woven (documents_of_parts parts.now)))) }
    ensures first { IfOk result (λ s. map entry_view s.first.items ≡ take wanted (filter (is_found _mapping.now (query_view query.now)) (woven (documents_of_parts parts.now)))) }
{
    let mut total = 0u64;
    let mut first = Vec::new(alloc);
    for part in parts {
        let share = part.find(alloc, query, 0, wanted)?;
        first = merge_owned(alloc, first, share.first)?;
        first.truncate(wanted);
        total += share.total;
    }
    Ok(Share { total, first })
}

/// The parts without the documents that have one of the ids.
pub(crate) fn parts_without(
    alloc: Global,
    parts: &[Part],
    ids: &[Sought<'_>],
) -> Result<Vec<Part>, AllocError>
    ensures mappings { IfOk result (λ v. map (λ p. p.mapping) v.items ≡ map (λ p. p.mapping) parts.now) }
    ensures documents { IfOk result (λ v. documents_of_parts v.items ≡ map (without ids.now) (documents_of_parts parts.now)) }
    ensures published { IfOk result (λ v. all_published v.items ≡ all_published parts.now) }
{
    let mut left = Vec::new(alloc);
    for part in parts {
        left.push(part.without(alloc, ids)?)?;
    }
    Ok(left)
}

/// A list of those of some parts in which a document is live.
fn living(
    alloc: Global,
    mapping: &Arc<Mapping, Global>,
    parts: &[Part],
) -> Result<PartList, AllocError>
    requires { AreParts (arc_value mapping.now) parts.now }
    ensures mapping { IfOk result (λ l. l.mapping ≡ arc_value mapping.now) }
    ensures documents { IfOk result (λ l. l.documents ≡ woven (documents_of_parts parts.now)) }
    ensures published { IfOk result (λ l. l.published ≡ living (all_published parts.now) (documents_of_parts parts.now)) }
    ensures live { IfOk result (λ l. l.live ≡ filter is_live (documents_of_parts parts.now)) }
{
    let left = living_parts(alloc, parts)?;
    let mapping = Arc::try_clone(mapping)?;
    Ok(PartList {
        mapping,
        parts: left,
    })
}

/// The parts in which a document is live.
pub(crate) fn living_parts(alloc: Global, parts: &[Part]) -> Result<Vec<Part>, AllocError>
    ensures { IfOk result (λ v. v.items ≡ filter is_living parts.now) }
{
    let mut left = Vec::new(alloc);
    for part in parts {
        push_if(&mut left, part, part.live_len() > 0)?;
    }
    Ok(left)
}

/// The documents of parts, in byte order of their ids.
pub(crate) fn entries_of_parts(alloc: Global, parts: &[Part]) -> Result<Vec<Entry<'_>>, AllocError>
    requires { AllInOrder (documents_of_parts parts.now) }
    ensures { IfOk result (λ v. map entry_view v.items ≡ woven (documents_of_parts parts.now)) }
{
    let mut entries = Vec::new(alloc);
    for part in parts {
        let more = part.entries(alloc)?;
        entries = merge(alloc, &entries, &more)?;
    }
    Ok(entries)
}
