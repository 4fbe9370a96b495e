//! What is built for a refresh while records come.
ghost use Rattle.std.specs.Prelude.{◌≡◌, IfOk};
ghost use Rattle.std.specs.Arc.{arc_value};
ghost use Rattle.segment.specs.Builds.{Builds};

use crate::job::changes::{Changes, ids_of};
use crate::job::handed::{Handed, MadeOf};
use crate::job::lessened::{Lessened, lessened_of};
use crate::read::block::Block;
use crate::read::documents::documents_made;
use doc::{DocId, Mapping, Source};
use op::Record;
use segment::Segment;
use std::alloc::{AllocError, Global};
use std::marker::Model;
use std::sync::Arc;

/// What a refresh puts in place: the block of what stands at the ids, and what is left of the parts that were there when it was begun.
#[derive(Drop)]
pub(crate) struct Ready {
    pub(crate) block: Arc<Block, Global>,
    pub(crate) ids: Vec<DocId>,
    pub(crate) parts: Vec<Lessened>,
}

impl MadeOf<Changes> for Ready {
    ghost use Rattle.std.specs.Arc.{arc_value};
    ghost use Rattle.engine.specs.Changes.{IsReady};

    ghost is_made = { λ c r. IsReady c (arc_value r.block) r.ids.items r.parts.items };
}

/// A refresh that was begun: what changed, and a place for what it puts in place.
pub(crate) type Begun = Handed<Changes, Ready>;

/// Documents that searches don't show yet, with what they are read under. It needs no engine.
#[derive(Drop)]
pub struct Unshown {
    alloc: Global,
    mapping: Arc<Mapping, Global>,
    begun: Begun,
    /// What memory forgot when they were handed out. It is dropped with them.
    forgotten: Option<Arc<Vec<Record>, Global>>,
}

impl Model for Unshown {
    ghost use Rattle.std.specs.Arc.{arc_value};
    ghost use Rattle.engine.specs.Staged.{UnshownData};

    ghost Value = { UnshownData };

    ghost view = { λ u. record { mapping = arc_value u.mapping; documents = u.begun.documents; point = u.begun.point } };
}

impl Unshown {
    pub(crate) fn of(
        alloc: Global,
        mapping: &Arc<Mapping, Global>,
        begun: &Begun,
        forgotten: Option<Arc<Vec<Record>, Global>>,
    ) -> Result<Unshown, AllocError>
        ensures { IfOk result (λ u. u ≡ record { mapping = arc_value mapping.now; documents = begun.now.documents; point = begun.now.point }) }
    {
        let mapping = Arc::try_clone(mapping)?;
        let begun = begun.again()?;
        Ok(Unshown {
            alloc,
            mapping,
            begun,
            forgotten,
        })
    }

    /// Their segment, which the builder builds.
    pub fn build<F: Fn(Global, &Arc<Mapping, Global>, Vec<Source>) -> Result<Segment, AllocError>>(
        &self,
        builder: &F,
    ) -> Result<Prebuilt, AllocError>
        requires { Builds F.Fn builder.now }
        ensures { IfOk result (λ b. b ≡ self.now) }
    {
        let changes = self.begun.given();
        let ops = changes.ops(self.alloc)?;
        let entries = documents_made(self.alloc, &ops)?;
        let block = Block::of(builder, self.alloc, &self.mapping, &entries)?;
        let block = Arc::new(self.alloc, block)?;
        let ids = ids_of(self.alloc, &ops)?;
        let parts = lessened_of(self.alloc, changes.parts(), &ids)?;
        self.begun.note(Ready { block, ids, parts });
        let mapping = Arc::try_clone(&self.mapping)?;
        let begun = self.begun.again()?;
        Ok(Prebuilt { mapping, begun })
    }
}

/// Documents that searches didn't show when the refresh was begun, whose segment was built.
#[derive(Drop)]
pub struct Prebuilt {
    mapping: Arc<Mapping, Global>,
    begun: Begun,
}

impl Model for Prebuilt {
    ghost use Rattle.std.specs.Arc.{arc_value};
    ghost use Rattle.engine.specs.Staged.{UnshownData};

    ghost Value = { UnshownData };

    ghost view = { λ b. record { mapping = arc_value b.mapping; documents = b.begun.documents; point = b.begun.point } };
}

impl Prebuilt {
    /// Of how many records they are.
    pub(crate) fn point(&self) -> usize
        ensures { result ≡ self.now.point }
    {
        self.begun.given().point()
    }
}
