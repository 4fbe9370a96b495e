//! Merges of what searches look through, and refreshes that are built concurrently with the copy's steps. They are no steps.
ghost use Rattle.std.specs.Prelude.{◌≡◌, ◌≤◌, false, true, None, length, max, IfOk, IfSome, OnErr};
ghost use Rattle.engine.specs.Published.{mergeable_count, taken_of, HasMerged};
ghost use Rattle.op.specs.Documents.{documents};
ghost use Rattle.op.specs.Records.{shown};
ghost use Rattle.replica.specs.Logged.{searched};
ghost use Rattle.replica.specs.Searched.{HasMergedNext, IsNextMerge, IsRefreshTo, IsSwapOf};

use crate::copy::Copy;
use engine::{Merged, Merging, Prebuilt, Unshown};
use std::alloc::{AllocError, Global};
use translog::LogDevice;

impl<D: LogDevice> Copy<D> {
    /// Begins a merge of all segments that searches look through, to be built by whoever asked, or of none where there is only one, or where one bears the
    /// greatest number. It is no step of the copy, which stays as it is.
    pub fn begin_merge(&self) -> Result<Merging, AllocError>
        ensures { IfOk result (λ m. m ≡ record { taken = taken_of self.now.segments.published; mapping = self.now.copy.mapping; documents = documents (shown self.now.copy.records self.now.copy.point) }) }
    {
        self.state.begin_merge()
    }

    /// Begins a merge of segments that go well into one, if searches look through many. It is no step of the copy, which stays as it is.
    pub fn begin_next_merge(&self, alloc: Global) -> Result<Option<Merging>, AllocError>
        ensures none { IfOk result (λ o. o ≡ None → mergeable_count self.now.segments.published ≤ 16) }
        ensures some { IfOk result (λ o. IfSome o (IsNextMerge 16 self.now.segments)) }
        ensures mapping { IfOk result (λ o. IfSome o (λ m. m.mapping ≡ self.now.copy.mapping)) }
    {
        self.state.begin_next_merge(alloc)
    }

    /// Makes such a merge at once, where there is one, and tells whether it was put in place. What the copy keeps and shows stays.
    pub fn merge_next(&mut self, alloc: Global) -> Result<bool, AllocError>
        ensures rest { self.new ≡ record self.old { segments = self.new.segments } }
        ensures merged { IfOk result (λ b. b ≡ true → HasMergedNext (searched self.old) (searched self.new)) }
        ensures none { IfOk result (λ b. b ≡ false → self.new ≡ self.old) }
        ensures few { IfOk result (λ b. b ≡ false → mergeable_count self.old.segments.published ≤ 16) }
        ensures err { OnErr result (self.new ≡ self.old) }
    {
        match self.state.begin_next_merge(alloc)? {
            Some(merging) => {
                let merged = merging.build(alloc);
                drop(merging);
                self.state.swap_merged(alloc, merged?)
            }
            None => Ok(false),
        }
    }

    /// Puts a merged segment in place of those that it is made of and that are still there; `false` where none is. It is no step of the copy either: what
    /// the copy keeps and shows stays.
    pub fn swap_merged(&mut self, alloc: Global, merged: Merged) -> Result<bool, AllocError>
        ensures swapped { IfOk result (IsSwapOf merged (searched self.old) (searched self.new)) }
        ensures rest { self.new ≡ record self.old { segments = self.new.segments } }
        ensures err { OnErr result (self.new ≡ self.old) }
    {
        self.state.swap_merged(alloc, merged)
    }

    /// Begins such a merge for `finish_merge`, if a merge may take more segments than so few. It is no step of the copy, which stays as it is, but that a merge which was begun
    /// so before can't be finished any more.
    pub fn begin_merge_beside(
        &mut self,
        alloc: Global,
        few: usize,
    ) -> Result<Option<Merging>, AllocError>
        ensures same { self.new ≡ self.old }
        ensures none { IfOk result (λ o. o ≡ None → mergeable_count self.old.segments.published ≤ max 1 few) }
        ensures some { IfOk result (λ o. IfSome o (IsNextMerge few self.old.segments)) }
        ensures mapping { IfOk result (λ o. IfSome o (λ m. m.mapping ≡ self.old.copy.mapping)) }
    {
        self.state.begin_merge_beside(alloc, few)
    }

    /// Puts the segment in place that was built for the merge begun last so, as `swap_merged` does, but without comparing documents, however many they are. Where none
    /// was built, none was begun, or its segments are gone, it is `false` and all stays. It is no step either.
    pub fn finish_merge(&mut self, alloc: Global) -> Result<bool, AllocError>
        ensures merged { IfOk result (λ b. b ≡ true → HasMerged self.old.segments self.new.segments) }
        ensures rest { self.new ≡ record self.old { segments = self.new.segments } }
        ensures stays { IfOk result (λ b. b ≡ false → self.new ≡ self.old) }
        ensures err { OnErr result (self.new ≡ self.old) }
    {
        self.state.finish_merge(alloc)
    }

    /// Begins a refresh that shows the records that are there now, where it has many documents to build: they may be built concurrently with
    /// the copy's steps. It is no step and changes nothing yet, but a refresh that was begun before can't be finished any more.
    pub fn begin_refresh(&mut self, alloc: Global) -> Result<Option<Unshown>, AllocError>
        ensures same { self.new ≡ self.old }
        ensures mapping { IfOk result (λ o. IfSome o (λ u. u.mapping ≡ self.old.copy.mapping)) }
        ensures all { IfOk result (λ o. IfSome o (λ u. u.point ≡ length self.old.copy.records)) }
    {
        self.state.begin_refresh(alloc)
    }

    /// Shows the records that were there when the refresh was begun for which this was built. Where searches show something else since, or another refresh was begun, it is
    /// `false`, and all stays as it is. It is no step either: what the copy keeps stays.
    pub fn finish_refresh(&mut self, alloc: Global, prebuilt: Prebuilt) -> Result<bool, AllocError>
        ensures done { IfOk result (λ b. b ≡ true → IsRefreshTo prebuilt.point (searched self.old) (searched self.new)) }
        ensures rest { self.new ≡ record self.old { copy = self.new.copy; segments = self.new.segments } }
        ensures stays { IfOk result (λ b. b ≡ false → self.new ≡ self.old) }
        ensures err { OnErr result (self.new ≡ self.old) }
    {
        self.state.finish_refresh(alloc, prebuilt)
    }
}
