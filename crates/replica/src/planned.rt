//! What is ready to be done to a copy.
ghost use Rattle.std.specs.Prelude.{◌≡◌, false, IfOk, IfErr};
ghost use Rattle.doc.specs.Outcome.{Gives};

use crate::fault::CopyFault;
use crate::output::Output;
use crate::role::Role;
use engine::Staged;
use op::{Record, is_too_large};

/// A step that keeps a record: the record, the term, the checkpoint and the role that it leaves, and what it gives.
#[derive(Drop)]
pub struct Planned {
    pub(crate) next_record: Record,
    pub(crate) term: u64,
    pub(crate) known: u64,
    pub(crate) role: Role,
    pub(crate) output: Output,
}

impl Planned {
    ghost use Rattle.op.specs.Format.{is_too_large};
    ghost use Rattle.replica.specs.Fault.{fault_of, is_log};
    ghost use Rattle.replica.specs.Planned.{spelled};

    /// Refuses a step whose record can't be spelled.
    pub(crate) fn spelled(self) -> Result<Planned, CopyFault>
        ensures gives { Gives fault_of (λ p. p) result (spelled self) }
        ensures same { IfOk result (λ p. p ≡ self) }
        ensures small { IfOk result (λ p. is_too_large p.next_record ≡ false) }
        ensures no_log { IfErr result (λ e. is_log e ≡ false) }
    {
        if is_too_large(&self.next_record) {
            drop(self);
            return Err(CopyFault::Exhausted);
        }
        Ok(self)
    }
}

/// A bulk that keeps records: they, the checkpoint and the role that they leave, and what the bulk gives.
#[derive(Drop)]
pub struct PlannedAll {
    pub(crate) records: Vec<Record>,
    pub(crate) known: u64,
    pub(crate) role: Role,
    pub(crate) output: Output,
}

impl PlannedAll {
    /// The step of this bulk without its records.
    pub(crate) fn into_settled(self) -> Settled
        ensures known { result.known ≡ self.known }
        ensures role { result.role ≡ self.role }
        ensures output { result.output ≡ self.output }
    {
        let PlannedAll {
            records,
            known,
            role,
            output,
        } = self;
        drop(records);
        Settled {
            known,
            role,
            output,
        }
    }
}

/// A step of a primary that keeps no record: the checkpoint and the role that it leaves, and what it gives.
#[derive(Drop)]
pub struct Settled {
    pub(crate) known: u64,
    pub(crate) role: Role,
    pub(crate) output: Output,
}

impl Settled {
    ghost use Rattle.replica.specs.Planned.{with_record};

    /// This step with a record that it keeps, and the term that it leaves.
    pub(crate) fn keeping(self, next_record: Record, term: u64) -> Planned
        ensures { result ≡ with_record self next_record term }
    {
        let Settled {
            known,
            role,
            output,
        } = self;
        Planned {
            next_record,
            term,
            known,
            role,
            output,
        }
    }
}

/// What a message makes of a copy.
#[derive(Drop)]
pub(crate) enum Handled {
    /// Nothing changes.
    Answered(Output),
    /// A primary keeps no record.
    Settled(Settled),
    /// A record is kept.
    Planned(Planned),
}

/// What a restart leaves: the records that it found, with their snapshot, and what they say of the copy.
#[derive(Drop)]
pub struct Reopened {
    pub(crate) staged: Staged,
    pub(crate) term: u64,
    pub(crate) known: u64,
    pub(crate) role: Role,
}
