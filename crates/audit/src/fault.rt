//! Why journals are refused.

use std::alloc::{AllocError, AllocFailed};
use thiserror::Error;

/// Why journals aren't those of one run: a node and a place in its journal, both from 0; node 0 is the master.
#[derive(Debug, Drop, Error)]
pub enum AuditFault {
    #[error("node {0}: nothing in the journals causes entry {1}")]
    Uncaused(u64, u64),
    #[error("node {0}: entry {1} isn't what the node would have answered")]
    Differs(u64, u64),
    #[error("out of memory")]
    NoMemory,
}

impl From<AllocError> for AuditFault {
    ghost use Rattle.std.specs.Prelude.{◌≡◌};
    ghost use Rattle.audit.specs.declared.fault.AuditFault.TheVariants.{NoMemory};

    ghost from_gives = { λ _ e. e ≡ NoMemory };

    fn from(_refused: AllocError) -> AuditFault {
        AuditFault::NoMemory
    }
}

impl<T: Drop> From<AllocFailed<T>> for AuditFault {
    ghost use Rattle.std.specs.Prelude.{◌≡◌};
    ghost use Rattle.audit.specs.declared.fault.AuditFault.TheVariants.{NoMemory};

    ghost from_gives = { λ _ e. e ≡ NoMemory };

    fn from(_refused: AllocFailed<T>) -> AuditFault {
        AuditFault::NoMemory
    }
}
