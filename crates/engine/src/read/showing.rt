//! What searches show, with the segments that they look through.
ghost use Rattle.std.specs.Prelude.{◌≡◌, ◌∷◌, ◌<◌, ◌≤◌, [], true, false, All, None, filter, length, map, max, IfOk, IfSome};
ghost use Rattle.std.specs.Arc.{arc_value};
ghost use Rattle.std.specs.FinMap.Entries.{is_sorted};
ghost use Rattle.doc.specs.Id.{Id, id_cmp};
ghost use Rattle.op.specs.Documents.{documents};
ghost use Rattle.op.specs.Operations.{IsAscending};
ghost use Rattle.segment.specs.Builds.{Builds};
ghost use Rattle.engine.specs.Contents.{segments_shown};
ghost use Rattle.engine.specs.Entry.{entry_view};
ghost use Rattle.engine.specs.Parts.{all_published, has_id, is_among, merge_of, merged, shown_through, without, IsMade};
ghost use Rattle.engine.specs.Lessened.{all_before, IsLessened};
ghost use Rattle.engine.specs.Live.{changed_live, changed_segments, is_live, live_of, woven, GoTogether};
ghost use Rattle.engine.specs.Published.{are_taken, mergeable_count, next_after, numbered, taken_of, AreBelow, AreDistinct, AreGone, AreKnown, AreTold, HasMerged, IsBegun, IsSwapped};
ghost use Rattle.engine.specs.Slot.{ops, AreHeld};

use crate::job::handed::Handed;
use crate::job::lessened::Lessened;
use crate::job::swapping::{BegunMerge, Merged, Merging, are_below_greatest};
use crate::operations::slot::Slot;
use crate::read::block::Block;
use crate::read::part::{Part, copies_of};
use crate::read::part_list::PartList;
use crate::read::snapshot::Snapshot;
use doc::{DocId, Mapping, Source};
use segment::Segment;
use std::alloc::{AllocError, Global};
use std::marker::Model;
use std::sync::Arc;

/// What searches show, the parts that they look through, and the number of the next part.
pub(crate) struct Showing {
    parts: Arc<PartList, Global>,
    snapshot: Arc<Snapshot, Global>,
    next: u64,
}

impl Drop for Showing {
    fn drop(self) {
        let Showing {
            parts: _parts,
            snapshot: _snapshot,
            next: _,
        } = self;
    }
}

impl Model for Showing {
    ghost use Rattle.std.specs.Arc.{arc_value};
    ghost use Rattle.engine.specs.Contents.{ShowingData};
    ghost use Rattle.engine.specs.Parts.{IsShowing};

    ghost Value = { ShowingData };

    ghost view = { λ s. record { snapshot = arc_value s.snapshot; published = (arc_value s.parts).published; live = (arc_value s.parts).live; next = s.next } };

    ghost invariant = { λ s. IsShowing (arc_value s.parts) (arc_value s.snapshot) s.next };
}

impl Showing {
    /// The documents that operations in ascending order make, in one part of this number.
    pub(crate) fn of<
        F: Fn(Global, &Arc<Mapping, Global>, Vec<Source>) -> Result<Segment, AllocError>,
    >(
        builder: &F,
        alloc: Global,
        mapping: &Arc<Mapping, Global>,
        number: u64,
        slots: &[Slot],
    ) -> Result<Showing, AllocError>
        requires builds { Builds F.Fn builder.now }
        requires ascending { IsAscending (ops slots.now) }
        requires held { AreHeld (ops slots.now) slots.now }
        ensures { IfOk result (λ s. s ≡ record {
          snapshot = record { mapping = arc_value mapping.now; documents = documents (ops slots.now) };
          published = (record { number = number; mapping = arc_value mapping.now; documents = documents (ops slots.now) }) ∷ [];
          live = documents (ops slots.now) ∷ [];
          next = next_after number;
        }) }
    {
        let mapping = Arc::try_clone(mapping)?;
        let parts = PartList::of(builder, alloc, mapping, number, slots)?;
        shown(alloc, parts, number.saturating_add(1))
    }

    /// A copy, which shares the parts and the snapshot.
    pub(crate) fn copy(&self) -> Result<Showing, AllocError>
        ensures { IfOk result (λ s. s ≡ self.now) }
    {
        let parts = Arc::try_clone(&self.parts)?;
        let snapshot = Arc::try_clone(&self.snapshot)?;
        Ok(Showing {
            parts,
            snapshot,
            next: self.next,
        })
    }

    pub(crate) fn snapshot(&self) -> &Arc<Snapshot, Global>
        ensures { arc_value result.now ≡ self.now.snapshot }
    {
        &self.snapshot
    }

    /// The number of the next part.
    pub(crate) fn next(&self) -> u64
        ensures is { result ≡ self.now.next }
        ensures below { AreBelow self.now.next self.now.published }
    {
        self.next
    }

    /// What is shown where the documents of a block stand at some ids now, and at the others what stood there. Parts in which no document is live any more go.
    /// What is left of the others is taken where it is made.
    pub(crate) fn with(
        &self,
        alloc: Global,
        ids: &[DocId],
        made: &[Lessened],
        block: Arc<Block, Global>,
    ) -> Result<Showing, AllocError>
        requires under { (arc_value block).mapping ≡ self.now.snapshot.mapping }
        requires only { (id : Id) → has_id id (arc_value block).documents ≡ true → is_among ids.now id ≡ true }
        requires told { AreTold (all_before made.now) self.now.published }
        requires are { All (IsLessened ids.now) made.now }
        ensures snapshot { IfOk result (λ s. s.snapshot ≡ record self.now.snapshot { documents = merged (arc_value block).documents (without ids.now self.now.snapshot.documents) }) }
        ensures published { IfOk result (λ s. s.published ≡ changed_segments (is_among ids.now) (record { number = self.now.next; mapping = self.now.snapshot.mapping; documents = (arc_value block).documents }) self.now.published self.now.live) }
        ensures live { IfOk result (λ s. s.live ≡ filter is_live (changed_live (is_among ids.now) (record { number = self.now.next; mapping = self.now.snapshot.mapping; documents = (arc_value block).documents }) self.now.live)) }
        ensures rises { IfOk result (λ s. self.now.next ≤ s.next) }
    {
        let parts = self.parts.with(alloc, self.next, ids, made, block)?;
        shown(alloc, parts, self.next.saturating_add(1))
    }

    /// Begins a merge.
    pub(crate) fn begin_merge(&self) -> Result<Merging, AllocError>
        ensures { IfOk result (λ m. m ≡ record { taken = taken_of self.now.published; mapping = self.now.snapshot.mapping; documents = self.now.snapshot.documents }) }
    {
        let parts = Arc::try_clone(&self.parts)?;
        let parts = Handed::out(self.parts.allocator(), parts)?;
        Ok(Merging { parts })
    }

    /// Begins a merge of the parts that bear these numbers.
    pub(crate) fn begin_merge_of(
        &self,
        alloc: Global,
        numbers: &[u64],
    ) -> Result<Merging, AllocError>
        ensures { IfOk result (λ m. m ≡ record {
          taken = taken_of (numbered numbers.now self.now.published);
          mapping = self.now.snapshot.mapping;
          documents = woven (live_of numbers.now self.now.published self.now.live);
        }) }
    {
        let parts = self.take(alloc, numbers)?;
        Ok(Merging { parts })
    }

    /// The parts that bear these numbers, and a place for the part that is made of them.
    /// Where a merge takes them, their numbers identify them from now on.
    pub(crate) fn take(&self, alloc: Global, numbers: &[u64]) -> Result<BegunMerge, AllocError>
        ensures merge { IfOk result (λ l. merge_of (arc_value l) ≡ record {
          taken = taken_of (numbered numbers.now self.now.published);
          mapping = self.now.snapshot.mapping;
          documents = woven (live_of numbers.now self.now.published self.now.live);
        }) }
        ensures begun { IfOk result (λ l. are_taken (arc_value l).published ≡ true → IsBegun self.now.next self.now.published (arc_value l).published) }
    {
        let parts = self.parts.numbered(alloc, numbers)?;
        let parts = Arc::new(alloc, parts)?;
        Handed::out(alloc, parts)
    }

    /// Its parts, which their numbers identify from now on; none where one bears the greatest number.
    pub(crate) fn told(&self, alloc: Global) -> Result<Vec<Part>, AllocError>
        ensures { IfOk result (λ v. AreKnown self.now.next self.now.published (all_published v.items)) }
    {
        let parts = self.parts.parts();
        if !are_below_greatest(parts) {
            return Ok(Vec::new(alloc));
        }
        copies_of(alloc, parts)
    }

    /// The numbers of parts that go well into one, if there are more than so few.
    pub(crate) fn to_merge(&self, alloc: Global, few: usize) -> Result<Option<Vec<u64>>, AllocError>
        ensures none { IfOk result (λ o. o ≡ None → mergeable_count self.now.published ≤ max 1 few) }
        ensures some { IfOk result (λ o. IfSome o (λ v. max 1 few < mergeable_count self.now.published)) }
        ensures there { IfOk result (λ o. IfSome o (λ v. 2 ≤ length (numbered v.items self.now.published))) }
        ensures few { IfOk result (λ o. IfSome o (λ v. length v.items ≤ 10)) }
        ensures fit { IfOk result (λ o. IfSome o (λ v. GoTogether v.items self.now.published self.now.live)) }
    {
        let numbers = self.parts.to_merge(alloc, few)?;
        Ok(numbers)
    }

    /// How many parts there are.
    pub(crate) fn segments(&self) -> usize
        ensures is { result ≡ length self.now.published }
        ensures live { woven self.now.live ≡ self.now.snapshot.documents }
    {
        self.parts.len()
    }

    /// What searches show with a merged part in place of those of its parts that are still there; none where none is.
    /// A merge of none leaves all as it is.
    pub(crate) fn swapped(
        &self,
        alloc: Global,
        merged: &Merged,
    ) -> Result<Option<Showing>, AllocError>
        ensures snapshot { IfOk result (λ o. IfSome o (λ s. s.snapshot ≡ self.now.snapshot)) }
        ensures there { IfOk result (λ o. IfSome o (λ s. AreGone self.now.published merged.now.taken → merged.now.taken ≡ [])) }
        ensures swapped { IfOk result (λ o. IfSome o (λ s. (merged.now.taken ≡ [] → ⊥) → IsSwapped merged.now.taken (segments_shown self.now) (segments_shown s))) }
        ensures none { merged.now.taken ≡ [] → IfOk result (λ o. IfSome o (λ s. s ≡ self.now)) }
        ensures gone { IfOk result (λ o. o ≡ None → (AreGone self.now.published merged.now.taken → merged.now.taken ≡ []) → ⊥) }
        ensures rises { IfOk result (λ o. IfSome o (λ s. self.now.next ≤ s.next)) }
    {
        match &merged.part {
            Some(part) => self.swapped_by(alloc, merged.parts.given(), part, false),
            None => Ok(Some(self.copy()?)),
        }
    }

    /// What searches show with the part of a merge that was begun here in place of those of its parts that are still there.
    /// It is none where none is there or the part isn't made. It compares no documents.
    pub(crate) fn swapped_beside(
        &self,
        alloc: Global,
        begun: &BegunMerge,
    ) -> Result<Option<Showing>, AllocError>
        requires { IsBegun self.now.next self.now.published (arc_value begun.now).published }
        ensures snapshot { IfOk result (λ o. IfSome o (λ s. s.snapshot ≡ self.now.snapshot)) }
        ensures merged { IfOk result (λ o. IfSome o (λ s. HasMerged (segments_shown self.now) (segments_shown s))) }
        ensures rises { IfOk result (λ o. IfSome o (λ s. self.now.next ≤ s.next)) }
    {
        match begun.made() {
            Some(part) => self.swapped_by(alloc, begun.given(), part, true),
            None => Ok(None),
        }
    }

    /// What searches show with `made` in place of those of the taken parts, of which it was made, that are still there; none where none is.
    fn swapped_by(
        &self,
        alloc: Global,
        taken: &PartList,
        made: &Part,
        by_number: bool,
    ) -> Result<Option<Showing>, AllocError>
        requires told { by_number ≡ true → AreTold taken.now.published self.now.published }
        requires are { are_taken taken.now.published ≡ true }
        requires made { made.now.documents ≡ taken.now.documents }
        ensures snapshot { IfOk result (λ o. IfSome o (λ s. s.snapshot ≡ self.now.snapshot)) }
        ensures there { IfOk result (λ o. IfSome o (λ s. AreGone self.now.published taken.now.published → ⊥)) }
        ensures swapped { IfOk result (λ o. IfSome o (λ s. IsSwapped taken.now.published (segments_shown self.now) (segments_shown s))) }
        ensures gone { IfOk result (λ o. o ≡ None → AreGone self.now.published taken.now.published) }
        ensures rises { IfOk result (λ o. IfSome o (λ s. self.now.next ≤ s.next)) }
    {
        let after = self
            .parts
            .swapped(alloc, self.next, taken.parts(), made, by_number)?;
        match after {
            Some(parts) => {
                let showing = shown(alloc, parts, self.next.saturating_add(1))?;
                Ok(Some(showing))
            }
            None => Ok(None),
        }
    }
}

/// What searches show through these parts.
fn shown(alloc: Global, parts: PartList, next: u64) -> Result<Showing, AllocError>
    requires below { AreBelow next parts.published }
    requires distinct { AreDistinct parts.published }
    ensures { IfOk result (λ s. s ≡ record { snapshot = shown_through parts; published = parts.published; live = parts.live; next = next }) }
{
    let parts = Arc::new(alloc, parts)?;
    let snapshot = Snapshot::of(Arc::try_clone(&parts)?);
    let snapshot = Arc::new(alloc, snapshot)?;
    Ok(Showing {
        parts,
        snapshot,
        next,
    })
}
