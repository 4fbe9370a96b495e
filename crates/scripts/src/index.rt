//! The index that a script plays on.
ghost use Rattle.std.specs.Prelude.{◌≡◌, ◌≤◌, is_some, IfOk, IfSome, OnErr};
ghost use Rattle.std.specs.Option.{option_map};
ghost use Rattle.engine.specs.Shown.{hits_view};
ghost use Rattle.query.specs.View.{query_view};
ghost use Rattle.world.specs.Search.{search_in};
ghost use Rattle.world.specs.World.{answering, copy_in, new_world, world_step};

use doc::Mapping;
use engine::{Hits, Merging};
use master::State;
use op::Msg;
use query::{Page, Query};
use std::alloc::{AllocError, Global};
use std::marker::Model;
use world::{Event, EventAnswer, OneCopy, World};

/// A merge that was begun at a copy.
#[derive(Drop)]
struct Begun {
    copy: u32,
    merging: Merging,
}

/// A world, with the merges that were begun at its copies. Contracts see the world, which no merge changes.
pub struct Index {
    world: World,
    merges: Vec<Begun>,
}

impl Drop for Index {
    fn drop(self) {
        let Index {
            world: _world,
            merges: _merges,
        } = self;
    }
}

impl Model for Index {
    ghost use Rattle.world.specs.World.{World};

    ghost Value = { World };

    ghost view = { λ i. i.world.world };
}

impl Index {
    /// A new index of one copy to five.
    pub(crate) fn new(alloc: Global, mapping: &Mapping, copies: u8) -> Result<Index, AllocError>
        requires { (1 ≤ copies) × (copies ≤ 5) }
        ensures { IfOk result (λ i. i ≡ new_world mapping.now copies) }
    {
        let world = World::new(alloc, mapping, copies)?;
        Ok(Index {
            world,
            merges: Vec::new(alloc),
        })
    }

    /// One event.
    pub(crate) fn step(&mut self, alloc: Global, event: &Event) -> Result<EventAnswer, AllocError>
        ensures happened { IfOk result (λ a. world_step self.old event.now ≡ answering self.new a) }
        ensures stays { OnErr result (self.new ≡ self.old) }
    {
        self.world.step(alloc, event)
    }

    /// Begins a merge at a copy, in place of one that was begun there before. `false` where the copy isn't there.
    pub(crate) fn begin_merge(&mut self, copy: u32) -> Result<bool, AllocError>
        ensures same { self.new ≡ self.old }
        ensures there { IfOk result (λ b. b ≡ is_some (copy_in self.old.copies copy)) }
    {
        if self.world.copy(copy).is_none() {
            return Ok(false);
        }
        if let Some(merging) = self.world.begin_merge(copy)? {
            let _earlier = taken(&mut self.merges, copy);
            self.merges.push(Begun { copy, merging })?;
        }
        Ok(true)
    }

    /// Builds the merge that was begun at a copy, if there is one, and puts it in place if the segments that it is made of are still there. `false` where
    /// the copy isn't there.
    pub(crate) fn swap_merged(&mut self, alloc: Global, copy: u32) -> Result<bool, AllocError>
        ensures same { self.new ≡ self.old }
        ensures there { IfOk result (λ b. b ≡ is_some (copy_in self.old.copies copy)) }
    {
        if self.world.copy(copy).is_none() {
            return Ok(false);
        }
        if let Some(merging) = taken(&mut self.merges, copy) {
            let merged = merging.build(alloc);
            drop(merging);
            let _is_there = self.world.swap_merged(alloc, copy, merged?)?;
        }
        Ok(true)
    }

    /// Merges at once what goes well into one, at a copy whose searches look through many segments.
    pub(crate) fn merge_next(&mut self, alloc: Global, copy: u32) -> Result<(), AllocError>
        ensures { self.new ≡ self.old }
    {
        let _is_merged = self.world.merge_next(alloc, copy)?;
        Ok(())
    }

    pub(crate) fn mapping(&self) -> &Mapping
        ensures { result.now ≡ self.now.mapping }
    {
        self.world.mapping()
    }

    pub(crate) fn master(&self) -> &State
        ensures { result.now ≡ self.now.master }
    {
        self.world.master()
    }

    /// The copy with an id.
    pub(crate) fn copy(&self, id: u32) -> Option<&OneCopy>
        ensures copy { option_map (λ c. c.now.copy) result ≡ copy_in self.now.copies id }
        ensures mapping { IfSome result (λ c. c.now.copy.mapping ≡ self.now.mapping) }
    {
        self.world.copy(id)
    }

    /// What a search at a copy finds.
    pub(crate) fn search(
        &self,
        alloc: Global,
        copy: u32,
        query: &Query,
        page: Page,
    ) -> Result<Option<Hits>, AllocError>
        ensures { IfOk result (λ found. option_map hits_view found ≡ search_in self.now self.now.mapping copy (query_view query.now) page) }
    {
        self.world.search(alloc, copy, query, page)
    }

    /// Every message that was ever sent.
    pub(crate) fn messages(&self) -> &[Msg]
        ensures { result.now ≡ self.now.messages }
    {
        self.world.messages()
    }
}

/// Takes the merge that was begun at a copy, if there is one.
fn taken(merges: &mut Vec<Begun>, copy: u32) -> Option<Merging> {
    for at in 0..merges.len() {
        if merges[at].copy == copy {
            return Some(merges.swap_remove(at).merging);
        }
    }
    None
}
