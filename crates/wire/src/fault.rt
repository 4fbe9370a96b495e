//! Why a stream ends early.

use std::alloc::{AllocError, AllocFailed};
use thiserror::Error;

/// A fault that ends a stream.
#[derive(Debug, Drop, Error)]
pub enum StreamFault {
    #[error("the requests can't be read")]
    Read,
    #[error("the replies can't be written")]
    Write,
    #[error("out of memory")]
    NoMemory,
}

impl From<AllocError> for StreamFault {
    ghost use Rattle.std.specs.Prelude.{◌≡◌};
    ghost use Rattle.wire.specs.declared.fault.StreamFault.TheVariants.{NoMemory};

    ghost from_gives = { λ _ e. e ≡ NoMemory };

    fn from(_refused: AllocError) -> StreamFault {
        StreamFault::NoMemory
    }
}

impl<T: Drop> From<AllocFailed<T>> for StreamFault {
    ghost use Rattle.std.specs.Prelude.{◌≡◌};
    ghost use Rattle.wire.specs.declared.fault.StreamFault.TheVariants.{NoMemory};

    ghost from_gives = { λ _ e. e ≡ NoMemory };

    fn from(_refused: AllocFailed<T>) -> StreamFault {
        StreamFault::NoMemory
    }
}
