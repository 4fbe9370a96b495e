//! What is made ready of a change, before it is made.
ghost use Rattle.engine.specs.Contents.{KeepsBegun};

use crate::engine::Engine;
use crate::operations::history::History;
use crate::operations::listed::Listed;
use crate::read::showing::Showing;
use crate::read::snapshot::Snapshot;
use op::Record;
use std::alloc::Global;
use std::marker::Model;
use std::snapshot::Snapshot as Seen;
use std::sync::Arc;

/// A change of an engine that makes a new snapshot.
#[derive(Drop)]
pub enum SnapshotChange {
    /// Searches show all records. Segments in which no document is live any more go; each other one stays, unless more than operations came.
    Refresh,
    /// These are the records, and searches show them all.
    Reopen(Vec<Record>),
}

/// A change that is ready: the new snapshot, what it shows, and new records if the change has any.
/// `Engine::put` makes it and takes no memory. What searches look through before it is for clauses alone.
#[derive(Drop)]
pub struct Staged {
    pub(crate) before: Seen<Showing>,
    pub(crate) history: Option<History>,
    pub(crate) showing: Showing,
    pub(crate) point: usize,
    ghost kept: { KeepsBegun before.value showing },
}

impl Model for Staged {
    ghost use Rattle.std.specs.Prelude.{option_map};
    ghost use Rattle.engine.specs.Contents.{segments_shown};
    ghost use Rattle.engine.specs.Staged.{StagedData};

    ghost Value = { StagedData };

    ghost view = { λ s. record {
      before = segments_shown s.before.value;
      records = option_map (λ h. h.records) s.history;
      snapshot = s.showing.snapshot;
      point = s.point;
      published = s.showing.published;
      live = s.showing.live;
      next = s.showing.next;
    } };
}

impl Staged {
    ghost use Rattle.std.specs.Prelude.{◌≡◌};
    ghost use Rattle.std.specs.Arc.{arc_value};
    ghost use Rattle.engine.specs.Staged.{records_of};

    /// What searches show after the change.
    pub fn snapshot(&self) -> &Arc<Snapshot, Global>
        ensures { arc_value result.now ≡ self.now.snapshot }
    {
        self.showing.snapshot()
    }

    /// How many records searches show after the change.
    pub fn point(&self) -> u64
        ensures { result ≡ self.now.point }
    {
        self.point as u64
    }

    /// All records after the change of an engine, as clauses see them.
    pub fn listed(&self, engine: &Engine) -> Listed
        ensures { result ≡ records_of engine.now.records self.now.records }
    {
        match &self.history {
            Some(history) => Listed::of(history),
            None => engine.listed(),
        }
    }
}
