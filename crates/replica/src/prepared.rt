//! A step that is ready.
ghost use Rattle.std.specs.Prelude.{◌≡◌};
ghost use Rattle.std.specs.Option.{option_map};
ghost use Rattle.std.specs.Arc.{arc_value};
ghost use Rattle.replica.specs.Logged.{added, new_snapshot, output_of};

use crate::output::Output;
use crate::planned::{Planned, PlannedAll, Reopened, Settled};
use engine::{Snapshot, Staged};
use std::alloc::Global;
use std::sync::Arc;
use translog::Frame;

/// A step that is ready, and changes nothing until it is committed.
#[derive(Drop)]
pub enum Prepared {
    /// A step that changes nothing: a get, a report, or a message that was taken before.
    Answered(Output),
    /// A step of a primary that keeps no record: what other copies have, or who is a member.
    Settled(Settled),
    /// A write or a message whose record is kept, with the frame of the record.
    Kept(Frame, Planned),
    /// A bulk whose records are kept, with their frame.
    KeptAll(Frame, PlannedAll),
    /// A refresh.
    Shown(Staged, Output),
    /// A restart.
    Restarted(Reopened, Output),
}

impl Prepared {
    /// What the step gives.
    pub fn output(&self) -> &Output
        ensures { result.now ≡ output_of self.now }
    {
        match self {
            Prepared::Answered(output) => output,
            Prepared::Settled(settled) => &settled.output,
            Prepared::Kept(_, planned) => &planned.output,
            Prepared::KeptAll(_, planned) => &planned.output,
            Prepared::Shown(_, output) => output,
            Prepared::Restarted(_, output) => output,
        }
    }

    /// How many records the step keeps.
    pub fn added(&self) -> usize
        ensures { result ≡ added self.now }
    {
        match self {
            Prepared::Kept(_, _) => 1,
            Prepared::KeptAll(_, planned) => planned.records.len(),
            _ => 0,
        }
    }

    /// What searches show once the step is committed, where it is a refresh or a restart.
    pub fn snapshot(&self) -> Option<&Arc<Snapshot, Global>>
        ensures { option_map (λ s. arc_value s.now) result ≡ new_snapshot self.now }
    {
        match self {
            Prepared::Answered(_) => None,
            Prepared::Settled(_) => None,
            Prepared::Kept(_, _) => None,
            Prepared::KeptAll(_, _) => None,
            Prepared::Shown(staged, _) => Some(staged.snapshot()),
            Prepared::Restarted(reopened, _) => Some(reopened.staged.snapshot()),
        }
    }
}
