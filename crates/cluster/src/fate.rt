//! What becomes of a message that was handed to a copy.

use cell::IndexName;
use node::{NodeFault, Receipt};
use op::{Content, Msg};
use replica::CopyFault;

/// Three appends that fail are as much as a hundred refusals for a while.
const APPEND: u32 = 34;

/// What becomes of a message.
pub(crate) enum Fate {
    /// It was taken, or is of no use any more.
    Settled,
    /// It may be taken later: its term is to come, the gap below it is to close, memory is to be there again, or the copy was to be opened again.
    /// How much of the patience it costs.
    Postponed(u32),
    /// The copy will never take it.
    Impossible,
}

pub(crate) fn fate_of<J: IndexName>(made: &Result<Receipt<J>, NodeFault>) -> Fate {
    match made {
        Ok(receipt) => match &receipt.deed().answer {
            Ok(_) => Fate::Settled,
            Err(fault) => fate_by(fault),
        },
        Err(NodeFault::NoMemory) => Fate::Postponed(1),
        Err(_) => Fate::Impossible,
    }
}

fn fate_by(fault: &CopyFault) -> Fate {
    match fault {
        CopyFault::NotSynced | CopyFault::BeyondWindow | CopyFault::NoMemory | CopyFault::Closed =>
            Fate::Postponed(1),
        CopyFault::Log(_) => Fate::Postponed(APPEND),
        CopyFault::Mismatch | CopyFault::Exhausted => Fate::Impossible,
        CopyFault::NotPrimary
        | CopyFault::VersionConflict
        | CopyFault::WindowFull
        | CopyFault::OldTerm
        | CopyFault::WrongAddress => Fate::Settled,
    }
}

/// Whether a message is one that a primary sends the copies of its term.
pub(crate) fn is_of_primary(message: &Msg) -> bool {
    matches!(
        &message.content,
        Content::Op(_, _) | Content::Resync(_, _) | Content::Recover(_)
    )
}
