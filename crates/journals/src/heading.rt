//! What the journals of a new index begin with.
ghost use Rattle.std.specs.Prelude.{◌≡◌, IfOk};
ghost use Rattle.journal.specs.Opening.{born};

use doc::Mapping;
use journal::{Journal, Opening};
use replica::Birth;
use std::alloc::{AllocError, AllocFailed, Global};
use thiserror::Error;

/// Why journals aren't those of a new index.
#[derive(Debug, Drop, Error)]
pub enum HeadFault {
    #[error("the journal of node {0} doesn't begin as that of a new index")]
    NotNew(u32),
    #[error("out of memory")]
    NoMemory,
}

impl From<AllocError> for HeadFault {
    ghost use Rattle.std.specs.Prelude.{◌≡◌};
    ghost use Rattle.journals.specs.declared.heading.HeadFault.TheVariants.{NoMemory};

    ghost from_gives = { λ _ e. e ≡ NoMemory };

    fn from(_refused: AllocError) -> HeadFault {
        HeadFault::NoMemory
    }
}

impl<T: Drop> From<AllocFailed<T>> for HeadFault {
    ghost use Rattle.std.specs.Prelude.{◌≡◌};
    ghost use Rattle.journals.specs.declared.heading.HeadFault.TheVariants.{NoMemory};

    ghost from_gives = { λ _ e. e ≡ NoMemory };

    fn from(_refused: AllocFailed<T>) -> HeadFault {
        HeadFault::NoMemory
    }
}

/// How many copies the index begins with, as the first journal says, which is the master's.
pub fn copies_of(journals: &[Journal]) -> Result<u32, HeadFault> {
    match journals.first() {
        Some(Journal::OfMaster(state, _)) => {
            if state.next < 2 || state.next > 6 {
                return Err(HeadFault::NotNew(0));
            }
            Ok((state.next - 1) as u32)
        }
        _ => Err(HeadFault::NotNew(0)),
    }
}

/// What a copy of a new index is at its beginning: one of those that the index begins with, or one that joins.
pub fn opening_of(
    alloc: Global,
    mapping: &Mapping,
    copies: u32,
    node: u32,
) -> Result<Opening, AllocError>
    ensures { IfOk result (λ o. o ≡ born mapping.now copies node) }
{
    let mapping = mapping.copy(alloc)?;
    if node <= copies {
        Ok(Opening::begun(node, copies, mapping))
    } else {
        let records = Vec::new(alloc);
        Ok(Opening::opened(node, Birth::Added, mapping, records))
    }
}
