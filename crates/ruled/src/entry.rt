//! Entries of the master's journal.
ghost use Rattle.std.specs.Prelude.{IfOk, None};
ghost use Rattle.ruled.specs.Entries.{opened_after, rulings_in, IsGathered};

use journal::{Journal, Ruling, Rulings};
use master::State;
use std::alloc::{AllocError, Global};

/// An entry of the master's journal: what the master was when it began, which is the first alone; or a request, with its answer.
#[derive(Drop)]
pub enum MasterEntry {
    Opened(State),
    Answered(Ruling),
}

/// The journal with these entries; nothing where none says how it began.
pub(crate) fn journal_of(
    alloc: Global,
    entries: Vec<MasterEntry>,
) -> Result<Option<Journal>, AllocError>
    ensures { IfOk result (IsGathered (opened_after None entries.items) (rulings_in entries.items)) }
{
    let mut opening = None;
    let mut rulings = Vec::new(alloc);
    for entry in entries {
        match entry {
            MasterEntry::Opened(state) => opening = Some(state),
            MasterEntry::Answered(ruling) => rulings.push(ruling)?,
        }
    }
    match opening {
        Some(state) => Ok(Some(Journal::OfMaster(state, Rulings::from_vec(rulings)))),
        None => Ok(None),
    }
}
