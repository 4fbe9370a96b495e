//! Refreshes whose segment is built while records come.
ghost use Rattle.std.specs.Prelude.{◌≡◌, ◌≤◌, true, false, length, IfOk, IfSome, OnErr};
ghost use Rattle.op.specs.Documents.{documents};
ghost use Rattle.op.specs.Records.{shown};
ghost use Rattle.engine.specs.Live.{AreLive};
ghost use Rattle.engine.specs.Parts.{merged, without};
ghost use Rattle.engine.specs.Published.{AreKnown, IsFronted};
ghost use Rattle.engine.specs.SnapshotChange.{ShowsMore};

use crate::engine::Engine;
use crate::job::changes::Changes;
use crate::job::unshown::{Begun, Prebuilt, Unshown};
use crate::read::showing::Showing;
use op::Record;
use std::alloc::{AllocError, Global};
use std::sync::Arc;

/// Fewer documents are built by the refresh itself.
const MANY: usize = 256;

impl Engine {
    /// Begins a refresh that shows the records that are there now, where many documents have to be built for it: these may be built while records come. Nothing
    /// changes yet. After one was begun none is, until that one is finished or `refresh` shows all records.
    pub fn begin_refresh(&mut self, alloc: Global) -> Result<Option<Unshown>, AllocError>
        ensures same { self.new ≡ self.old }
        ensures mapping { IfOk result (λ o. IfSome o (λ u. u.mapping ≡ self.old.mapping)) }
        ensures all { IfOk result (λ o. IfSome o (λ u. u.point ≡ length self.old.records)) }
    {
        let forgotten = self.forget_shown();
        if self.history.len() - self.point < MANY {
            return Ok(None);
        }
        let parts = self.showing.told(alloc)?;
        let Some(changes) = Changes::of(alloc, &mut self.history, self.point, parts)? else {
            return Ok(None);
        };
        let begun = Begun::out(alloc, changes)?;
        let unshown = Unshown::of(alloc, &self.mapping, &begun, forgotten)?;
        self.pending = Some(begun);
        Ok(Some(unshown))
    }

    /// Lets memory forget the records that searches show, and texts that newer operations replaced. A refresh that is finished leaves this to the
    /// next one. Whoever builds what the next one shows drops the records, so that neither takes long.
    fn forget_shown(&mut self) -> Option<Arc<Vec<Record>, Global>>
        ensures { self.new ≡ self.old }
    {
        let point = self.point;
        self.history.forget_to(point)
    }

    /// Shows the records that were there when the refresh was begun for which this was built. Where another refresh came since, it is `false`, and all stays as it is.
    pub fn finish_refresh(&mut self, alloc: Global, prebuilt: Prebuilt) -> Result<bool, AllocError>
        ensures done { IfOk result (λ b. b ≡ true → ShowsMore prebuilt.point self.old self.new) }
        ensures stays { IfOk result (λ b. b ≡ false → self.new ≡ self.old) }
        ensures err { OnErr result (self.new ≡ self.old) }
    {
        let Some(begun) = self.pending.take() else {
            return Ok(false);
        };
        let point = begun.given().point();
        if prebuilt.point() != point {
            return Ok(false);
        }
        let Some(showing) = self.showing_with(alloc, &begun)? else {
            return Ok(false);
        };
        self.showing = showing;
        self.point = point;
        Ok(true)
    }

    /// What searches show with the changes of a refresh, where a block was built of them.
    fn showing_with(&self, alloc: Global, begun: &Begun) -> Result<Option<Showing>, AllocError>
        requires { AreKnown self.now.next self.now.published begun.now.published }
        ensures snapshot { IfOk result (λ o. IfSome o (λ s. s.snapshot ≡ record {
          mapping = self.now.mapping;
          documents = merged begun.now.documents (without begun.now.ids (documents (shown self.now.records self.now.point)));
        })) }
        ensures numbers { IfOk result (λ o. IfSome o (λ s. IsFronted self.now.next self.now.published s.published)) }
        ensures rises { IfOk result (λ o. IfSome o (λ s. self.now.next ≤ s.next)) }
        ensures live { IfOk result (λ o. IfSome o (λ s. AreLive s.live)) }
    {
        let Some(ready) = begun.made() else {
            return Ok(None);
        };
        if !ready.block.is_under(&self.mapping) {
            return Ok(None);
        }
        let block = Arc::try_clone(&ready.block)?;
        let showing = self.showing.with(alloc, &ready.ids, &ready.parts, block)?;
        Ok(Some(showing))
    }
}
