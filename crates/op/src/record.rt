//! What a copy keeps in its log.
ghost use Rattle.std.specs.Prelude.{◌≡◌, IfOk};

use crate::operation::Op;
use crate::operations::Operations;
use std::alloc::{AllocError, Global};

/// A record of the log.
#[derive(Drop)]
pub enum Record {
    /// One operation, and the global checkpoint that the primary knew before it (-1 for none).
    Op(i64, Op),
    /// The operations above a global checkpoint, from the primary of a new term.
    Resync(u64, i64, Operations),
    /// All operations, as a copy that joins in a term gets them.
    Recover(u64, Operations),
}

impl Record {
    /// An equal record.
    pub fn copy(&self, alloc: Global) -> Result<Record, AllocError>
        ensures { IfOk result (λ r. r ≡ self.now) }
    {
        match self {
            Record::Op(known, op) => Ok(Record::Op(*known, op.copy(alloc)?)),
            Record::Resync(term, known, tail) => {
                Ok(Record::Resync(*term, *known, tail.copy(alloc)?))
            }
            Record::Recover(term, all) => Ok(Record::Recover(*term, all.copy(alloc)?)),
        }
    }
}
