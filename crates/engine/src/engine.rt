//! The documents of one copy.
ghost use Rattle.std.specs.Prelude.{◌≡◌, ◌↔◌, ◌++◌, ◌∷◌, ◌<◌, ◌≤◌, ◌^◌, [], true, false, All, filter, length, max, is_some, None, IsTrue, IfOk, IfSome, OnOk, OnErr};
ghost use Rattle.std.specs.Option.{option_copied, option_map};
ghost use Rattle.std.specs.Arc.{arc_value};
ghost use Rattle.doc.specs.Id.{Id};
ghost use Rattle.op.specs.Checkpoint.{checkpoint_of, known};
ghost use Rattle.op.specs.Documents.{document_at, documents};
ghost use Rattle.op.specs.Operations.{IsAscending, add, from_number, is_stale, last_on, local_checkpoint, next_seq, op_at};
ghost use Rattle.op.specs.Records.{IsRecord, operations, shown};
ghost use Rattle.engine.specs.Applied.{applied_of, records_after, RiseFrom};
ghost use Rattle.engine.specs.Found.{found_document};
ghost use Rattle.engine.specs.Last.{last_of};
ghost use Rattle.segment.specs.Builds.{Builds};
ghost use Rattle.engine.specs.Contents.{contents_of, opened_engine, segments_of};
ghost use Rattle.engine.specs.Live.{changed_live, changed_segments, is_live, live_of, woven, AreLive, GoTogether};
ghost use Rattle.engine.specs.Published.{mergeable_count, next_after, numbered, taken_of, AreBelow, AreGone, HasMerged, IsFronted, IsSwapped};
ghost use Rattle.engine.specs.SnapshotChange.{changed, is_written, next_segment, ArePublished, IsNumbered, IsRefreshed, IsSnapshotChange, OnlyOps};
ghost use Rattle.engine.specs.Staged.{put_in, records_of, IsStagedFrom};

use crate::job::staged::{SnapshotChange, Staged};
use crate::job::swapping::{BegunMerge, Merged, Merging, are_taken};
use crate::job::unshown::Begun;
use crate::operations::ahead::Ahead;
use crate::operations::history::{Applied, Found, History};
use crate::operations::listed::Listed;
use crate::operations::slot::LetGo;
use crate::read::block::Block;
use crate::read::documents::documents_at;
use crate::read::showing::Showing;
use crate::read::snapshot::Snapshot;
use doc::{DocId, Mapping, Source};
use op::{Body, Op, Operations, Record};
use segment::Segment;
use std::alloc::{AllocError, Global};
use std::marker::Model;
use std::snapshot::Snapshot as Seen;
use std::sync::Arc;

mod opening;
mod refreshing;

/// The last operation on an id, and whether it left a document there.
#[derive(Clone, Copy, Debug, PartialEq, Eq)]
pub struct Last {
    pub seq: u64,
    pub term: u64,
    pub version: u64,
    pub live: bool,
}

/// The records of a copy, the documents that they make, and those that searches show.
/// A get shows all records, a search those that were there at the last refresh or opening.
pub struct Engine {
    mapping: Arc<Mapping, Global>,
    history: History,
    showing: Showing,
    point: usize,
    /// What a refresh that was begun will show.
    pending: Option<Begun>,
    /// The merge that `begin_merge_beside` began, until `finish_merge` takes it.
    merging: Option<BegunMerge>,
}

impl Drop for Engine {
    fn drop(self) {
        let Engine {
            mapping: _mapping,
            history: _history,
            showing: _showing,
            point: _,
            pending: _pending,
            merging: _merging,
        } = self;
    }
}

impl Model for Engine {
    ghost use Rattle.std.specs.Prelude.{◌≤◌, IfSome};
    ghost use Rattle.std.specs.Arc.{arc_value};
    ghost use Rattle.engine.specs.Changes.{LeadsOn};
    ghost use Rattle.engine.specs.Contents.{EngineData, Shows};
    ghost use Rattle.engine.specs.Published.{AreKnown, IsBegun};

    ghost Value = { EngineData };

    ghost view = { λ e. record {
      mapping = arc_value e.mapping;
      records = e.history.records;
      point = e.point;
      published = e.showing.published;
      live = e.showing.live;
      next = e.showing.next;
    } };

    ghost invariant = { λ e. Shows (arc_value e.mapping) e.history.records e.point e.showing.snapshot × (e.history.begin ≤ e.point) × IfSome e.pending (LeadsOn e.history.records e.point) × IfSome e.merging (λ l. IsBegun e.showing.next e.showing.published (arc_value l).published) × IfSome e.pending (λ c. AreKnown e.showing.next e.showing.published c.published) };
}

impl Engine {
    /// The engine of these records; searches show them all, through one segment, whose number is 0.
    pub fn open(alloc: Global, mapping: Mapping, records: Vec<Record>) -> Result<Engine, AllocError>
        requires { All IsRecord records.items }
        ensures { IfOk result (λ e. e ≡ opened_engine mapping records.items) }
    {
        Engine::open_with(&Segment::build, alloc, mapping, records)
    }

    /// The engine of these records; searches show them all, through one segment, which the builder builds and whose number is 0.
    pub fn open_with<
        F: Fn(Global, &Arc<Mapping, Global>, Vec<Source>) -> Result<Segment, AllocError>,
    >(
        builder: &F,
        alloc: Global,
        mapping: Mapping,
        records: Vec<Record>,
    ) -> Result<Engine, AllocError>
        requires builds { Builds F.Fn builder.now }
        requires records { All IsRecord records.items }
        ensures { IfOk result (λ e. e ≡ opened_engine mapping records.items) }
    {
        let mapping = Arc::new(alloc, mapping)?;
        let history = History::opened(alloc, mapping.seed(), records)?;
        let showing = Showing::of(builder, alloc, &mapping, 0, history.slots())?;
        let point = history.len();
        Ok(Engine {
            mapping,
            history,
            showing,
            point,
            pending: None,
            merging: None,
        })
    }

    /// Keeps the record, unless it is an operation whose number is there. Searches don't show it yet.
    pub fn apply(&mut self, alloc: Global, kept: &Record) -> Result<Applied, AllocError>
        requires { IsRecord kept.now }
        ensures answer { IfOk result (λ a. a ≡ applied_of (operations self.old.records) kept.now) }
        ensures records { IfOk result (λ a. self.new ≡ record self.old { records = records_after self.old.records kept.now a }) }
        ensures err { OnErr result (self.new ≡ self.old) }
    {
        self.history.apply(alloc, kept)
    }

    /// Keeps these records: all of them, or none where memory runs out. Searches don't show them yet.
    pub fn apply_all(&mut self, alloc: Global, records: Vec<Record>) -> Result<(), AllocError>
        requires { RiseFrom (next_seq (operations self.old.records)) records.items }
        ensures ok { OnOk result (self.new ≡ record self.old { records = self.old.records ++ records.items }) }
        ensures err { OnErr result (self.new ≡ self.old) }
    {
        self.history.apply_all(alloc, records)
    }

    /// Shows all records from now on, and answers how many there are. Segments in which no document is live any more go; each other one stays, unless
    /// more than operations came.
    pub fn refresh(&mut self, alloc: Global) -> Result<u64, AllocError>
        ensures point { IfOk result (λ n. n ≡ length self.old.records) }
        ensures shown { OnOk result (contents_of self.new ≡ record (contents_of self.old) { point = length self.old.records }) }
        ensures numbered { OnOk result (IsNumbered self.old self.new) }
        ensures kept { OnOk result (OnlyOps self.old → IsRefreshed self.old self.new) }
        ensures live { OnOk result (AreLive self.new.live) }
        ensures err { OnErr result (self.new ≡ self.old) }
    {
        let staged = self.stage(alloc, SnapshotChange::Refresh)?;
        self.put(staged);
        Ok(self.point as u64)
    }

    /// Takes these records in place of its own, as `open` does; the numbers of segments go on.
    pub fn reopen(&mut self, alloc: Global, records: Vec<Record>) -> Result<(), AllocError>
        requires { All IsRecord records.items }
        ensures ok { OnOk result (contents_of self.new ≡ record (contents_of self.old) { records = records.items; point = length records.items }) }
        ensures published { OnOk result (self.new.published ≡ (record { number = self.old.next; mapping = self.old.mapping; documents = documents (operations records.items) }) ∷ []) }
        ensures next { OnOk result (self.new.next ≡ next_after self.old.next) }
        ensures err { OnErr result (self.new ≡ self.old) }
    {
        let staged = self.stage(alloc, SnapshotChange::Reopen(records))?;
        self.put(staged);
        Ok(())
    }

    /// Makes a change ready, and changes nothing.
    pub fn stage(&self, alloc: Global, change: SnapshotChange) -> Result<Staged, AllocError>
        requires { IsSnapshotChange change }
        ensures fits { IfOk result (IsStagedFrom (contents_of self.now)) }
        ensures before { IfOk result (λ s. s.before ≡ segments_of self.now) }
        ensures leaves { IfOk result (λ s. contents_of (put_in self.now s) ≡ changed (contents_of self.now) change) }
        ensures published { IfOk result (λ s. ArePublished self.now change (put_in self.now s)) }
        ensures live { IfOk result (λ s. AreLive s.live) }
    {
        match change {
            SnapshotChange::Refresh => self.stage_refresh(alloc),
            SnapshotChange::Reopen(records) => self.stage_reopen(alloc, records),
        }
    }

    /// Makes a refresh ready.
    fn stage_refresh(&self, alloc: Global) -> Result<Staged, AllocError>
        ensures fits { IfOk result (IsStagedFrom (contents_of self.now)) }
        ensures before { IfOk result (λ s. s.before ≡ segments_of self.now) }
        ensures leaves { IfOk result (λ s. contents_of (put_in self.now s) ≡ record (contents_of self.now) { point = length self.now.records }) }
        ensures numbered { IfOk result (λ s. IsNumbered self.now (put_in self.now s)) }
        ensures kept { IfOk result (λ s. OnlyOps self.now → IsRefreshed self.now (put_in self.now s)) }
        ensures live { IfOk result (λ s. AreLive s.live) }
    {
        let showing = self.refreshed(alloc)?;
        let _below = showing.next();
        Ok(Staged {
            before: Seen::of(&self.showing),
            history: None,
            showing,
            point: self.history.len(),
        })
    }

    /// Makes other records ready.
    fn stage_reopen(&self, alloc: Global, records: Vec<Record>) -> Result<Staged, AllocError>
        requires { All IsRecord records.items }
        ensures fits { IfOk result (IsStagedFrom (contents_of self.now)) }
        ensures before { IfOk result (λ s. s.before ≡ segments_of self.now) }
        ensures leaves { IfOk result (λ s. contents_of (put_in self.now s) ≡ record (contents_of self.now) { records = records.items; point = length records.items }) }
        ensures published { IfOk result (λ s. s.published ≡ (record { number = self.now.next; mapping = self.now.mapping; documents = documents (operations records.items) }) ∷ []) }
        ensures next { IfOk result (λ s. s.next ≡ next_after self.now.next) }
        ensures live { IfOk result (λ s. AreLive s.live) }
    {
        let reopened = History::opened(alloc, self.history.seed(), records)?;
        let showing = Showing::of(
            &Segment::build,
            alloc,
            &self.mapping,
            self.showing.next(),
            reopened.slots(),
        )?;
        let point = reopened.len();
        Ok(Staged {
            before: Seen::of(&self.showing),
            history: Some(reopened),
            showing,
            point,
        })
    }

    /// What searches show of all records: what they show, with the ids that changed, or made anew where more than ids changed.
    fn refreshed(&self, alloc: Global) -> Result<Showing, AllocError>
        ensures snapshot { IfOk result (λ s. s.snapshot ≡ record { mapping = self.now.mapping; documents = documents (operations self.now.records) }) }
        ensures numbers { IfOk result (λ s. IsFronted self.now.next self.now.published s.published) }
        ensures rises { IfOk result (λ s. self.now.next ≤ s.next) }
        ensures published { IfOk result (λ s. OnlyOps self.now → s.published ≡ changed_segments (is_written self.now) (next_segment self.now) self.now.published self.now.live) }
        ensures kept { IfOk result (λ s. OnlyOps self.now → s.live ≡ filter is_live (changed_live (is_written self.now) (next_segment self.now) self.now.live)) }
        ensures live { IfOk result (λ s. AreLive s.live) }
    {
        let Some(ids) = self.history.ids_since(alloc, self.point)? else {
            let next = self.showing.next();
            let slots = self.history.slots();
            let showing = Showing::of(&Segment::build, alloc, &self.mapping, next, slots)?;
            return Ok(showing);
        };
        let entries = documents_at(alloc, &self.history, &ids)?;
        let block = Block::of(&Segment::build, alloc, &self.mapping, &entries)?;
        let block = Arc::new(alloc, block)?;
        let showing = self.showing.with(alloc, &ids, &[], block)?;
        Ok(showing)
    }

    /// Makes a change that is ready for this engine, as it was made ready last: no segment has come or gone since, and no record has come. It takes no memory.
    pub fn put(&mut self, staged: Staged)
        requires fits { IsStagedFrom (contents_of self.old) staged }
        requires last { staged.before ≡ segments_of self.old }
        requires all { staged.point ≡ length (records_of self.old.records staged.records) }
        ensures { self.new ≡ put_in self.old staged }
    {
        let Staged {
            before: _before,
            history,
            showing,
            point,
        } = staged;
        if let Some(history) = history {
            self.history = history;
        }
        self.history.forget();
        self.showing = showing;
        self.point = point;
        self.pending = None;
    }

    /// Begins a merge of all segments that searches look through, or of none where there is only one, or where one bears the greatest number.
    /// It changes nothing.
    pub fn begin_merge(&self) -> Result<Merging, AllocError>
        ensures { IfOk result (λ m. m ≡ record {
          taken = taken_of self.now.published;
          mapping = self.now.mapping;
          documents = documents (shown self.now.records self.now.point);
        }) }
    {
        self.showing.begin_merge()
    }

    /// Begins a merge of the segments that bear these numbers, or of none where there is only one, or where one bears the greatest number.
    /// It changes nothing.
    pub fn begin_merge_of(&self, alloc: Global, numbers: &[u64]) -> Result<Merging, AllocError>
        ensures { IfOk result (λ m. m ≡ record {
          taken = taken_of (numbered numbers.now self.now.published);
          mapping = self.now.mapping;
          documents = woven (live_of numbers.now self.now.published self.now.live);
        }) }
    {
        self.showing.begin_merge_of(alloc, numbers)
    }

    /// Begins a merge of the same segments as `begin_merge_of`, which `finish_merge` puts in place. It changes no segment.
    /// A merge that it began before can't be finished any more.
    pub fn begin_merge_beside(
        &mut self,
        alloc: Global,
        numbers: &[u64],
    ) -> Result<Merging, AllocError>
        ensures same { self.new ≡ self.old }
        ensures merge { IfOk result (λ m. m ≡ record {
          taken = taken_of (numbered numbers.now self.old.published);
          mapping = self.old.mapping;
          documents = woven (live_of numbers.now self.old.published self.old.live);
        }) }
    {
        let begun = self.showing.take(alloc, numbers)?;
        let parts = begun.again()?;
        self.merging = if are_taken(begun.given().parts()) {
            Some(begun)
        } else {
            None
        };
        Ok(Merging { parts })
    }

    /// Puts the segment that was built for the last merge of `begin_merge_beside` in place of those of its segments that are still there. It compares
    /// no documents, since they are those of this engine. Where none is there, none was built or none was begun, it answers `false` and all stay.
    pub fn finish_merge(&mut self, alloc: Global) -> Result<bool, AllocError>
        ensures merged { IfOk result (λ b. b ≡ true → HasMerged (segments_of self.old) (segments_of self.new)) }
        ensures stays { IfOk result (λ b. b ≡ false → self.new ≡ self.old) }
        ensures contents { contents_of self.new ≡ contents_of self.old }
        ensures err { OnErr result (self.new ≡ self.old) }
    {
        let Some(begun) = self.merging.take() else {
            return Ok(false);
        };
        match self.showing.swapped_beside(alloc, &begun)? {
            Some(after) => {
                self.showing = after;
                Ok(true)
            }
            None => Ok(false),
        }
    }

    /// The numbers of segments that go well into one, if a merge may take more of them than so few; one always stays.
    pub fn to_merge(&self, alloc: Global, few: usize) -> Result<Option<Vec<u64>>, AllocError>
        ensures none { IfOk result (λ o. o ≡ None → mergeable_count self.now.published ≤ max 1 few) }
        ensures some { IfOk result (λ o. IfSome o (λ v. max 1 few < mergeable_count self.now.published)) }
        ensures there { IfOk result (λ o. IfSome o (λ v. 2 ≤ length (numbered v.items self.now.published))) }
        ensures few { IfOk result (λ o. IfSome o (λ v. length v.items ≤ 10)) }
        ensures fit { IfOk result (λ o. IfSome o (λ v. GoTogether v.items self.now.published self.now.live)) }
    {
        self.showing.to_merge(alloc, few)
    }

    /// How many segments searches look through.
    pub fn segments(&self) -> usize
        ensures is { result ≡ length self.now.published }
        ensures live { woven self.now.live ≡ documents (shown self.now.records self.now.point) }
    {
        self.showing.segments()
    }

    /// Puts a merged segment in place of those that it is made of and that are there still: documents that aren't live in them any more aren't live
    /// in it. Where none of them is there, as after a restart, it is `false` and all stay. What the engine has and what searches show stays in any case.
    pub fn swap_merged(&mut self, alloc: Global, merged: Merged) -> Result<bool, AllocError>
        ensures answer { IfOk result (λ b. IsTrue b ↔ (AreGone self.old.published merged.taken → merged.taken ≡ [])) }
        ensures swapped { IfOk result (λ b. b ≡ true → (merged.taken ≡ [] → ⊥) → IsSwapped merged.taken (segments_of self.old) (segments_of self.new)) }
        ensures none { merged.taken ≡ [] → self.new ≡ self.old }
        ensures stays { IfOk result (λ b. b ≡ false → self.new ≡ self.old) }
        ensures contents { contents_of self.new ≡ contents_of self.old }
        ensures err { OnErr result (self.new ≡ self.old) }
    {
        let after = self.showing.swapped(alloc, &merged);
        drop(merged);
        match after? {
            Some(after) => {
                self.showing = after;
                self.merging = None;
                Ok(true)
            }
            None => Ok(false),
        }
    }

    /// The number of the next segment. Until it is the greatest, no number below it is given again.
    pub fn next_number(&self) -> u64
        ensures is { result ≡ self.now.next }
        ensures below { AreBelow self.now.next self.now.published }
    {
        self.showing.next()
    }

    /// Whether searches show all records.
    pub fn is_all_shown(&self) -> bool
        ensures { IsTrue result ↔ (self.now.point ≡ length self.now.records) }
    {
        self.history.len() == self.point
    }

    /// How many records searches show.
    pub fn point(&self) -> u64
        ensures { result ≡ self.now.point }
    {
        self.point as u64
    }

    /// What searches show: the documents of the records up to the point.
    pub fn snapshot(&self) -> &Arc<Snapshot, Global>
        ensures { arc_value result.now ≡ record { mapping = self.now.mapping; documents = documents (shown self.now.records self.now.point) } }
    {
        self.showing.snapshot()
    }

    /// The document with the id, as of all records.
    pub fn get(&self, id: &DocId) -> Option<Found<'_>>
        ensures { option_map found_document result ≡ document_at (documents (operations self.now.records)) id.now }
    {
        self.history.get(id)
    }

    /// The last operation on the id.
    pub fn last(&self, id: &DocId) -> Option<Last>
        ensures { result ≡ option_map last_of (last_on (operations self.now.records) id.now) }
    {
        match self.history.last(id) {
            Some(op) => Some(last_of(op)),
            None => None,
        }
    }

    /// The last operation on the id, once the engine has these, too.
    pub fn last_with(&self, ahead: &Ahead, id: &DocId) -> Option<Last>
        ensures { result ≡ option_map last_of (last_on (operations self.now.records ++ ahead.now) id.now) }
    {
        match ahead.last_on(id) {
            Some(op) => Some(last_of(op)),
            None => self.last(id),
        }
    }

    /// The operation with the number, unless memory dropped its text.
    pub fn op_at(&self, seq: u64) -> Result<Option<&Op>, LetGo>
        ensures ok { IfOk result (λ o. option_copied o ≡ op_at (operations self.now.records) seq) }
        ensures gone { OnErr result (is_some (op_at (operations self.now.records) seq) ≡ true) }
    {
        self.history.op_at(seq)
    }

    /// The greatest number, or -1 where there is none.
    pub fn greatest(&self) -> i64
        ensures number { result ≡ checkpoint_of (next_seq (operations self.now.records)) }
        ensures ascending { IsAscending (operations self.now.records) }
    {
        self.history.greatest()
    }

    /// The local checkpoint: the greatest number up to which none is missing, or -1.
    pub fn local(&self) -> i64
        ensures number { result ≡ local_checkpoint (operations self.now.records) }
        ensures ascending { IsAscending (operations self.now.records) }
    {
        self.history.local()
    }

    /// The local checkpoint once an operation is kept whose number is free.
    pub fn local_with(&self, op: &Op) -> i64
        requires small { op.now.seq < 2 ^ 63 }
        requires free { op_at (operations self.now.records) op.now.seq ≡ None }
        ensures { result ≡ local_checkpoint (add (operations self.now.records) op.now) }
    {
        self.history.local_with(op)
    }

    /// Whether an operation on the same id has a greater number.
    pub fn is_stale(&self, op: &Op) -> bool
        ensures { result ≡ is_stale (operations self.now.records) op.now }
    {
        self.history.is_stale(op)
    }

    /// The operations above a global checkpoint, in order of number; above -1 all of them. It fails where memory dropped the text of one of them.
    pub fn above(&self, alloc: Global, global: i64) -> Result<Vec<Op>, AllocError>
        ensures { IfOk result (λ v. v.items ≡ from_number (known global) (operations self.now.records)) }
    {
        self.history.above(alloc, global)
    }

    /// The last operation on each id, and others, in order of number: what the documents are made of.
    pub fn last_ops(&self, alloc: Global) -> Result<Vec<Op>, AllocError>
        ensures { IfOk result (λ v. (id : Id) → last_on v.items id ≡ last_on (operations self.now.records) id) }
    {
        self.history.last_ops(alloc)
    }

    /// Whether memory dropped no text.
    pub fn has_all(&self) -> bool {
        self.history.has_all()
    }

    /// Whether the texts are there of all operations above a checkpoint.
    pub fn has_above(&self, global: i64) -> bool {
        self.history.has_above(global)
    }

    /// Whether a resync from a checkpoint on needs no text that memory dropped: it leaves all as it is, or all texts are there.
    pub fn may_resync(&self, global: i64, tail: &Operations) -> bool {
        self.history.may_resync(global, tail)
    }

    /// Brings back the texts that memory dropped, from its own records. It changes nothing else, and a refresh drops them again.
    pub fn take_back(&mut self, alloc: Global, records: Vec<Record>) -> Result<(), AllocError>
        requires own { records.items ≡ self.old.records }
        requires rules { All IsRecord records.items }
        ensures { self.new ≡ self.old }
    {
        self.history.take_back(alloc, records)
    }

    /// All records, as clauses see them.
    pub fn listed(&self) -> Listed
        ensures { result ≡ self.now.records }
    {
        Listed::of(&self.history)
    }

    /// The mapping that the documents are read under.
    pub fn mapping(&self) -> &Mapping
        ensures { result.now ≡ self.now.mapping }
    {
        &self.mapping
    }
}

/// The number, term and version of an operation, and whether it leaves a document.
fn last_of(op: &Op) -> Last
    ensures { result ≡ last_of op.now }
{
    Last {
        seq: op.seq,
        term: op.term,
        version: op.version,
        live: matches!(&op.body, Body::Index(_, _)),
    }
}
