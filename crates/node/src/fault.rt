//! What a call of a node refuses.

use replica::CopyFault;
use std::alloc::AllocError;
use thiserror::Error;

/// Why a call gives nothing.
#[derive(Debug, Drop, Error)]
pub enum NodeFault {
    #[error("out of memory")]
    NoMemory,
    #[error("eight searchers are given out, or the passes have run out")]
    NoSeat,
    #[error("the copy: {0}")]
    Copy(CopyFault),
    #[error("the receipt of place {0} isn't of this journal")]
    Stray(u64),
    #[error("the journal isn't kept, and has forgotten its entry of place {0}")]
    Forgotten(u64),
}

impl From<AllocError> for NodeFault {
    ghost use Rattle.std.specs.Prelude.{◌≡◌};
    ghost use Rattle.node.specs.declared.fault.NodeFault.TheVariants.{NoMemory};

    ghost from_gives = { λ _ e. e ≡ NoMemory };

    fn from(_refused: AllocError) -> NodeFault {
        NodeFault::NoMemory
    }
}
