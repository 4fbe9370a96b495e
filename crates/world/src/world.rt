//! A world: what events make of a new index of some copies.
ghost use Rattle.std.specs.Prelude.{◌≡◌, ◌≤◌, true, false, length, None, IfOk, IfErr, IfNone, IfSome, OnOk, OnErr};
ghost use Rattle.std.specs.Option.{option_map};
ghost use Rattle.query.specs.View.{query_view};
ghost use Rattle.engine.specs.Shown.{hits_view};
ghost use Rattle.replica.specs.Logged.{searched};
ghost use Rattle.world.specs.Held.{HasInSyncCopies, Held};
ghost use Rattle.world.specs.Nodes.{merge_of, node_in, HasFewSegments, HasMergedAt, IsSwapAt};
ghost use Rattle.world.specs.Reached.{IsRefusedRun};
ghost use Rattle.world.specs.Search.{search_in};
ghost use Rattle.world.specs.World.{answering, copy_in, new_world, world_of, world_step};

use crate::event::{Event, EventAnswer};
use crate::fault::RunFault;
use crate::nodes::{Nodes, OneCopy};
use doc::Mapping;
use engine::{Hits, Merged, Merging};
use master::State;
use op::{Msg, Op};
use query::{Page, Query};
use std::alloc::{AllocError, Global};
use std::marker::Model;

/// The master, the copies, every message that was ever sent, and the acknowledged operations. Each world is one that events lead to.
pub struct World {
    nodes: Nodes,
}

impl Drop for World {
    fn drop(self) {
        let World { nodes: _nodes } = self;
    }
}

impl Model for World {
    ghost use Rattle.world.specs.Nodes.{WorldData};

    ghost Value = { WorldData };

    ghost use Rattle.world.specs.Reached.{IsReached};

    ghost view = { λ w. w.nodes };

    ghost invariant = { λ w. IsReached w.nodes.world };
}

impl World {
    /// A new index of one copy to five: copy 1 is the primary of term 1.
    pub fn new(alloc: Global, mapping: &Mapping, copies: u8) -> Result<World, AllocError>
        requires { (1 ≤ copies) × (copies ≤ 5) }
        ensures world { IfOk result (λ w. w.world ≡ new_world mapping.now copies) }
        ensures held { IfOk result (λ w. Held w.world) }
        ensures in_sync { IfOk result (λ w. HasInSyncCopies w.world) }
    {
        let nodes = Nodes::new(alloc, mapping, copies)?;
        Ok(World { nodes })
    }

    /// One event. Want of memory changes nothing.
    pub fn step(&mut self, alloc: Global, event: &Event) -> Result<EventAnswer, AllocError>
        ensures happened { IfOk result (λ a. world_step self.old.world event.now ≡ answering self.new.world a) }
        ensures stays { OnErr result (self.new.world ≡ self.old.world) }
        ensures held { Held self.new.world }
        ensures in_sync { HasInSyncCopies self.new.world }
    {
        self.nodes.step(alloc, event)
    }

    /// Begins a merge of the segments that searches at a copy look through, to be built by whoever asked. `None` where the copy isn't there. A merge is no
    /// event: the world stays as it is.
    pub fn begin_merge(&self, copy: u32) -> Result<Option<Merging>, AllocError>
        ensures { IfOk result (λ o. o ≡ option_map merge_of (node_in self.now.nodes copy)) }
    {
        self.nodes.begin_merge(copy)
    }

    /// Puts a merged segment in place at a copy, of those that it is made of and that are still there; `false` where none is. `None` where the copy isn't
    /// there.
    pub fn swap_merged(
        &mut self,
        alloc: Global,
        copy: u32,
        merged: Merged,
    ) -> Result<Option<bool>, AllocError>
        ensures world { self.new.world ≡ self.old.world }
        ensures none { IfOk result (λ o. IfNone o ((node_in self.old.nodes copy ≡ None) × (self.new.nodes ≡ self.old.nodes))) }
        ensures swapped { IfOk result (λ o. IfSome o (IsSwapAt copy merged self.old.nodes self.new.nodes)) }
        ensures err { OnErr result (self.new.nodes ≡ self.old.nodes) }
    {
        self.nodes.swap_merged(alloc, copy, merged)
    }

    /// Merges at once what goes well into one, at a copy whose searches look through many segments, and says whether it did. `false` where the copy isn't
    /// there.
    pub fn merge_next(&mut self, alloc: Global, copy: u32) -> Result<bool, AllocError>
        ensures world { self.new.world ≡ self.old.world }
        ensures merged { IfOk result (λ b. b ≡ true → HasMergedAt copy self.old.nodes self.new.nodes) }
        ensures few { IfOk result (λ b. b ≡ false → HasFewSegments copy self.old.nodes) }
        ensures none { IfOk result (λ b. b ≡ false → self.new.nodes ≡ self.old.nodes) }
        ensures err { OnErr result (self.new.nodes ≡ self.old.nodes) }
    {
        self.nodes.merge_next(alloc, copy)
    }

    /// The mapping that documents are read under.
    pub fn mapping(&self) -> &Mapping
        ensures { result.now ≡ self.now.world.mapping }
    {
        self.nodes.mapping()
    }

    /// What the master knows.
    pub fn master(&self) -> &State
        ensures { result.now ≡ self.now.world.master }
    {
        self.nodes.master()
    }

    /// The copy with an id. Its log hasn't failed.
    pub fn copy(&self, id: u32) -> Option<&OneCopy>
        ensures copy { option_map (λ c. c.now.copy) result ≡ copy_in self.now.world.copies id }
        ensures node { option_map (λ c. searched c.now) result ≡ node_in self.now.nodes id }
        ensures open { IfSome result (λ c. c.now.closed ≡ false) }
        ensures mapping { IfSome result (λ c. c.now.copy.mapping ≡ self.now.world.mapping) }
    {
        self.nodes.copy(id)
    }

    /// What a search at a copy finds: the documents that the query means, of those that the copy showed at its last refresh. `None` where the
    /// copy isn't there.
    pub fn search(
        &self,
        alloc: Global,
        copy: u32,
        query: &Query,
        page: Page,
    ) -> Result<Option<Hits>, AllocError>
        ensures { IfOk result (λ found. option_map hits_view found ≡ search_in self.now.world self.now.world.mapping copy (query_view query.now) page) }
    {
        let Some(there) = self.copy(copy) else {
            return Ok(None);
        };
        let Some(snapshot) = there.snapshot() else {
            unreachable!()
        };
        let hits = snapshot.search(alloc, query, page)?;
        Ok(Some(hits))
    }

    /// Every message that was ever sent; message 1 comes first.
    pub fn messages(&self) -> &[Msg]
        ensures { result.now ≡ self.now.world.messages }
    {
        self.nodes.messages()
    }

    /// Every operation that was ever acknowledged.
    pub fn acknowledged(&self) -> &[Op]
        ensures { result.now ≡ self.now.world.acknowledged }
    {
        self.nodes.acknowledged()
    }
}

/// The world of some copies after some events. `BadCount` unless there are one copy to five; `NoMemory` says how many events were taken before.
pub fn run(
    alloc: Global,
    mapping: &Mapping,
    copies: u8,
    events: &[Event],
) -> Result<World, RunFault>
    ensures world { IfOk result (λ w. w.world ≡ world_of mapping.now copies events.now) }
    ensures held { IfOk result (λ w. Held w.world) }
    ensures in_sync { IfOk result (λ w. HasInSyncCopies w.world) }
    ensures count { OnOk result ((1 ≤ copies) × (copies ≤ 5)) }
    ensures refused { IfErr result (IsRefusedRun copies (length events.now)) }
{
    if copies == 0 || copies > 5 {
        return Err(RunFault::BadCount);
    }
    let Ok(mut world) = World::new(alloc, mapping, copies) else {
        return Err(RunFault::NoMemory(0));
    };
    for (taken, event) in events.iter().enumerate() {
        if world.step(alloc, event).is_err() {
            drop(world);
            return Err(RunFault::NoMemory(taken as u64));
        }
    }
    Ok(world)
}
