//! Documents with their segment.
ghost use Rattle.std.specs.Prelude.{◌≡◌, ◌↔◌, ◌<◌, IsTrue, ◌^◌, ◌&&◌, ◌||◌, Bool, All, Some, [], true, false, map, take, length, slice_get, slice_index_or, IfOk, IfErr};
ghost use Rattle.std.specs.List.{AllByRecursion};
ghost use Rattle.std.specs.declared.cmp.Ordering.TheVariants.{Equal};
ghost use Rattle.std.specs.Arc.{arc_value};
ghost use Rattle.std.specs.FinMap.Entries.{is_sorted};
ghost use Rattle.doc.specs.Id.{Id, id_cmp, is_id};
ghost use Rattle.op.specs.Documents.{Document};
ghost use Rattle.query.specs.View.{query_view};
ghost use Rattle.marks.specs.Lists.{zip_with, places};
ghost use Rattle.segment.specs.Builds.{Builds};
ghost use Rattle.engine.specs.Answer.{is_found};
ghost use Rattle.engine.specs.Entry.{entry_view};
ghost use Rattle.engine.specs.IdFilter.{has_bit};
ghost use Rattle.engine.specs.Parts.{is_among};
ghost use Rattle.engine.specs.Shown.{shown_view};

use crate::ids::id_filter::IdFilter;
use crate::ids::sought::Sought;
use crate::read::documents::Entry;
use crate::read::strands::places_among;
use doc::{DocId, Mapping, Source};
use marks::Marks;
use query::Query;
use search::{FoundPlaces, find, find_all};
use segment::Segment;
use std::alloc::{AllocError, Global};
use std::cmp::Ordering;
use std::marker::Model;
use std::sync::Arc;

/// No segment has as many documents.
const MAX_DOCUMENTS: usize = 4_294_967_296;

/// A document that searches show.
pub(crate) struct Shown {
    id: DocId,
    seq: u64,
    term: u64,
    version: u64,
    source: Source,
}

impl Drop for Shown {
    fn drop(self) {
        let Shown {
            id: _id,
            seq: _,
            term: _,
            version: _,
            source: _source,
        } = self;
    }
}

impl Shown {
    /// Its id.
    pub(crate) fn id(&self) -> &DocId
        ensures { result.now ≡ self.now.id }
    {
        &self.id
    }

    /// Its sequence number.
    pub(crate) fn seq(&self) -> u64
        ensures { result ≡ self.now.seq }
    {
        self.seq
    }
}

/// Documents in byte order of their ids, and the segment of their sources. It never changes.
pub(crate) struct Block {
    documents: Vec<Shown>,
    segment: Segment,
    /// It rules out most ids that no document has, without a look at the documents.
    ids: IdFilter,
}

impl Drop for Block {
    fn drop(self) {
        let Block {
            documents: _documents,
            segment: _segment,
            ids: _ids,
        } = self;
    }
}

impl Model for Block {
    ghost use Rattle.std.specs.Prelude.{◌≡◌, map};
    ghost use Rattle.engine.specs.Answer.{SnapshotData};
    ghost use Rattle.engine.specs.Shown.{shown_view, IsBlock};

    ghost Value = { SnapshotData };

    ghost view = { λ b. record { mapping = b.segment.mapping; documents = map shown_view b.documents.items } };

    ghost invariant = { λ b. IsBlock b.documents.items b.segment.sources b.ids };
}

impl Block {
    /// The documents of entries, read under the mapping.
    pub(crate) fn of<
        F: Fn(Global, &Arc<Mapping, Global>, Vec<Source>) -> Result<Segment, AllocError>,
    >(
        builder: &F,
        alloc: Global,
        mapping: &Arc<Mapping, Global>,
        entries: &[Entry<'_>],
    ) -> Result<Block, AllocError>
        requires builds { Builds F.Fn builder.now }
        requires sorted { is_sorted id_cmp (map entry_view entries.now) ≡ true }
        ensures { IfOk result (λ b. b ≡ record { mapping = arc_value mapping.now; documents = map entry_view entries.entry.now }) }
    {
        let documents = shown_of(alloc, entries)?;
        Block::over(builder, alloc, mapping, documents)
    }

    /// The documents, read under the mapping.
    pub(crate) fn over<
        F: Fn(Global, &Arc<Mapping, Global>, Vec<Source>) -> Result<Segment, AllocError>,
    >(
        builder: &F,
        alloc: Global,
        mapping: &Arc<Mapping, Global>,
        documents: Vec<Shown>,
    ) -> Result<Block, AllocError>
        requires builds { Builds F.Fn builder.now }
        requires sorted { is_sorted id_cmp (map shown_view documents.items) ≡ true }
        ensures { IfOk result (λ b. b ≡ record { mapping = arc_value mapping.now; documents = map shown_view documents.items }) }
    {
        let segment = segment_of(builder, alloc, mapping, &documents)?;
        let ids = filter_of(alloc, &documents)?;
        Ok(Block {
            documents,
            segment,
            ids,
        })
    }

    /// How many documents there are.
    pub(crate) fn len(&self) -> usize
        ensures is { result ≡ length self.now.documents }
        ensures few { result < 2 ^ 32 }
        ensures sorted { is_sorted id_cmp self.now.documents ≡ true }
    {
        self.segment.len()
    }

    /// The segment of the documents' sources.
    pub(crate) fn segment(&self) -> &Segment
        ensures { result.now.mapping ≡ self.now.mapping }
    {
        &self.segment
    }

    /// Where its live documents stand among entries; none for one that isn't there.
    pub(crate) fn live_places_among(
        &self,
        alloc: Global,
        live: &Marks,
        entries: &[Entry<'_>],
    ) -> Result<Vec<Option<u32>>, AllocError> {
        places_among(alloc, &self.documents, live, entries)
    }

    /// Whether the other has the same documents, read under the same mapping.
    pub(crate) fn is(&self, other: &Block) -> bool
        ensures { IsTrue result ↔ (self.now ≡ other.now) }
    {
        self.segment.mapping().is(other.segment.mapping())
            && are_same(&self.documents, &other.documents)
    }

    /// Whether its documents were read under the mapping.
    pub(crate) fn is_under(&self, mapping: &Mapping) -> bool
        ensures { IsTrue result ↔ (self.now.mapping ≡ mapping.now) }
    {
        self.segment.mapping().is(mapping)
    }

    /// The live documents that the query means: how many there are, and the places of the first of them, rising, no more than wanted.
    pub(crate) fn find(
        &self,
        alloc: Global,
        live: &Marks,
        query: &Query,
        wanted: usize,
    ) -> Result<FoundPlaces, AllocError>
        requires { length live.now ≡ length self.now.documents }
        ensures total { IfOk result (λ f. f.total ≡ length (places (λ b. b) (zip_with (λ m l. m && l) (map (is_found self.now.mapping (query_view query.now)) self.now.documents) live.now))) }
        ensures first { IfOk result (λ f. f.first.items ≡ take wanted (places (λ b. b) (zip_with (λ m l. m && l) (map (is_found self.now.mapping (query_view query.now)) self.now.documents) live.now))) }
    {
        find(alloc, &self.segment, live, query, wanted)
    }

    /// The documents that the query means, where all are live: how many there are, and the places of the first of them, rising, no more than wanted.
    pub(crate) fn find_all(
        &self,
        alloc: Global,
        query: &Query,
        wanted: usize,
    ) -> Result<FoundPlaces, AllocError>
        ensures total { IfOk result (λ f. f.total ≡ length (places (is_found self.now.mapping (query_view query.now)) self.now.documents)) }
        ensures first { IfOk result (λ f. f.first.items ≡ take wanted (places (is_found self.now.mapping (query_view query.now)) self.now.documents)) }
    {
        find_all(alloc, &self.segment, query, wanted)
    }

    /// The documents at some places.
    pub(crate) fn entries_at<'a>(
        &'a self,
        alloc: Global,
        found: &[u32],
    ) -> Result<Vec<Entry<'a>>, AllocError>
        requires { All (λ p. p < length self.now.documents) found.now }
        ensures { IfOk result (λ v. map (λ e. Some (entry_view e)) v.items ≡ map (λ p. slice_get self.now.documents p) found.now) }
    {
        let mut entries = Vec::with_capacity(alloc, found.len())?;
        for place in found {
            let shown = &self.documents[*place as usize];
            entries.push(entry_of(shown))?;
        }
        Ok(entries)
    }

    /// The documents at some places, without making entries.
    pub(crate) fn shown_at<'a>(
        &'a self,
        alloc: Global,
        found: &[u32],
    ) -> Result<Vec<&'a Shown>, AllocError>
        requires { All (λ p. p < length self.now.documents) found.now }
        ensures { IfOk result (λ v. map (λ r. Some (shown_view r.now)) v.items ≡ map (λ p. slice_get self.now.documents p) found.now) }
    {
        let mut all = Vec::with_capacity(alloc, found.len())?;
        for place in found {
            all.push(&self.documents[*place as usize])?;
        }
        Ok(all)
    }

    /// The first documents, no more than wanted.
    pub(crate) fn first_shown<'a>(
        &'a self,
        alloc: Global,
        wanted: usize,
    ) -> Result<Vec<&'a Shown>, AllocError>
        ensures { IfOk result (λ v. map (λ r. shown_view r.now) v.items ≡ take wanted self.now.documents) }
    {
        let count = self.documents.len().min(wanted);
        shown_in(alloc, &self.documents[..count])
    }

    /// Whether a document has one of the ids.
    pub(crate) fn has_any(&self, ids: &[Sought<'_>]) -> bool
        ensures { result ≡ false → map (λ d. is_among ids.now d.0) self.now.documents ≡ map (λ d. is_among [] d.0) self.now.documents }
    {
        for id in ids {
            if self.has(id) {
                return true;
            }
        }
        false
    }

    /// Whether a document has the id.
    fn has(&self, id: &Sought<'_>) -> bool
        ensures { result ≡ false → (t : Id × Document → Bool) → map t self.now.documents ≡ map (λ d. t d || is_id d.0 id.now) self.now.documents }
    {
        if !self.ids.may_have(id) {
            return false;
        }
        match place_of(&self.documents, id.id()) {
            Ok(_) => true,
            Err(_) => false,
        }
    }

    /// Marks the documents that have one of the ids.
    pub(crate) fn mark_ids(&self, ids: &[Sought<'_>], marks: &mut Marks)
        requires { marks.old ≡ map (λ d. is_among [] d.0) self.now.documents }
        ensures { marks.new ≡ map (λ d. is_among ids.now d.0) self.now.documents }
    {
        for id in ids {
            self.mark_id(id, marks);
        }
    }

    /// Marks the document that has the id, too.
    fn mark_id(&self, id: &Sought<'_>, marks: &mut Marks)
        requires { length marks.old ≡ length self.now.documents }
        ensures { (t : Id × Document → Bool) → marks.old ≡ map t self.now.documents → marks.new ≡ map (λ d. t d || is_id d.0 id.now) self.now.documents }
    {
        let _few = self.len();
        if !self.ids.may_have(id) {
            return;
        }
        if let Ok(at) = place_of(&self.documents, id.id()) {
            marks.set(at as u32);
        }
    }
}

/// The filter of the ids of documents.
fn filter_of(alloc: Global, documents: &[Shown]) -> Result<IdFilter, AllocError>
    ensures { IfOk result (λ f. AllByRecursion (λ d. has_bit f d.id ≡ true) documents.now) }
{
    let mut ids = IdFilter::none(alloc, documents.len())?;
    for document in documents {
        ids.add(&document.id);
    }
    Ok(ids)
}

/// Whether two lists have the same documents.
fn are_same(left: &[Shown], right: &[Shown]) -> bool
    ensures { IsTrue result ↔ (map shown_view left.now ≡ map shown_view right.now) }
{
    if left.len() != right.len() {
        return false;
    }
    for at in 0..left.len() {
        if !is_same(&left[at], &right[at]) {
            return false;
        }
    }
    true
}

fn is_same(left: &Shown, right: &Shown) -> bool
    ensures { IsTrue result ↔ (shown_view left.now ≡ shown_view right.now) }
{
    left.seq == right.seq
        && left.term == right.term
        && left.version == right.version
        && left.id.is(&right.id)
        && left.source.is(&right.source)
}

/// The place of the document with the id, or where it would go.
fn place_of(documents: &[Shown], id: &DocId) -> Result<usize, usize>
    requires { is_sorted id_cmp (map shown_view documents.now) ≡ true }
    ensures within { IfOk result (λ at. at < length documents.now) }
    ensures found { IfOk result (λ at. (d : Shown) → id_cmp (slice_index_or documents.now at d).id id.now ≡ Equal) }
    ensures absent { IfErr result (λ _. AllByRecursion (λ d. is_id d.id id.now ≡ false) documents.now) }
{
    documents.binary_search_by(
        |shown: &Shown| -> Ordering
            ensures { result ≡ id_cmp shown.now.id id.entry.now }
        { shown.id.order(id) },
    )
}

/// A document where it stands.
pub(crate) fn entry_of(shown: &Shown) -> Entry<'_>
    ensures { entry_view result ≡ shown_view shown.now }
{
    Entry {
        id: &shown.id,
        seq: shown.seq,
        term: shown.term,
        version: shown.version,
        source: &shown.source,
    }
}

/// Documents where they stand.
fn shown_in<'a>(alloc: Global, documents: &'a [Shown]) -> Result<Vec<&'a Shown>, AllocError>
    ensures { IfOk result (λ v. map (λ r. shown_view r.now) v.items ≡ map shown_view documents.now) }
{
    let mut all = Vec::with_capacity(alloc, documents.len())?;
    for shown in documents {
        all.push(shown)?;
    }
    Ok(all)
}

/// The documents of entries.
pub(crate) fn shown_of(alloc: Global, entries: &[Entry<'_>]) -> Result<Vec<Shown>, AllocError>
    ensures { IfOk result (λ v. map shown_view v.items ≡ map entry_view entries.entry.now) }
{
    let mut documents = Vec::with_capacity(alloc, entries.len())?;
    for entry in entries {
        documents.push(Shown {
            id: entry.id.copy(alloc)?,
            seq: entry.seq,
            term: entry.term,
            version: entry.version,
            source: entry.source.copy(alloc)?,
        })?;
    }
    Ok(documents)
}

/// The segment of the sources of documents. Of 2^32 or more there is none.
fn segment_of<F: Fn(Global, &Arc<Mapping, Global>, Vec<Source>) -> Result<Segment, AllocError>>(
    builder: &F,
    alloc: Global,
    mapping: &Arc<Mapping, Global>,
    documents: &[Shown],
) -> Result<Segment, AllocError>
    requires { Builds F.Fn builder.now }
    ensures { IfOk result (λ s. s ≡ record { mapping = arc_value mapping.now; sources = map (λ d. d.source) documents.now }) }
{
    let sources = sources_of(alloc, documents)?;
    if sources.len() >= MAX_DOCUMENTS {
        return Err(AllocError);
    }
    let segment = builder(alloc, mapping, sources)?;
    Ok(segment)
}

/// The texts of documents.
fn sources_of(alloc: Global, documents: &[Shown]) -> Result<Vec<Source>, AllocError>
    ensures { IfOk result (λ v. v.items ≡ map (λ d. d.source) documents.now) }
{
    let mut sources = Vec::with_capacity(alloc, documents.len())?;
    for document in documents {
        sources.push(document.source.copy(alloc)?)?;
    }
    Ok(sources)
}
