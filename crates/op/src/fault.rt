//! Why a record can't be written as bytes, or read from them.

use std::alloc::{AllocError, AllocFailed};
use thiserror::Error;

/// A refusal of a record or of its bytes.
#[derive(Debug, Drop, Error)]
pub enum OpFault {
    #[error("not a record of the translog's format")]
    Malformed,
    #[error("out of memory")]
    NoMemory,
    #[error("a record has more than 4,294,967,295 bytes")]
    TooLarge,
}

impl From<AllocError> for OpFault {
    ghost use Rattle.std.specs.Prelude.{◌≡◌};
    ghost use Rattle.op.specs.declared.fault.OpFault.TheVariants.{NoMemory};

    ghost from_gives = { λ _ e. e ≡ NoMemory };

    fn from(_refused: AllocError) -> OpFault {
        OpFault::NoMemory
    }
}

impl<T: Drop> From<AllocFailed<T>> for OpFault {
    ghost use Rattle.std.specs.Prelude.{◌≡◌};
    ghost use Rattle.op.specs.declared.fault.OpFault.TheVariants.{NoMemory};

    ghost from_gives = { λ _ e. e ≡ NoMemory };

    fn from(_refused: AllocFailed<T>) -> OpFault {
        OpFault::NoMemory
    }
}
