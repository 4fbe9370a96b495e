//! Whether receipts stand in a journal.
ghost use Rattle.std.specs.Prelude.{◌≡◌, ◌↔◌, Some, slice_get, IsTrue};

use journal::Deed;
use replica::{CopyFault, Output};

/// Whether two answers are the same.
fn equal_answer(answer: &Result<Output, CopyFault>, other: &Result<Output, CopyFault>) -> bool
    ensures { IsTrue result ↔ (answer.now ≡ other.now) }
{
    match (answer, other) {
        (Ok(output), Ok(other)) => output.is(other),
        (Err(fault), Err(other)) => fault.is(other),
        _ => false,
    }
}

/// Whether two entries are the same.
pub(crate) fn equal_deed(deed: &Deed, other: &Deed) -> bool
    ensures { IsTrue result ↔ (deed.now ≡ other.now) }
{
    deed.pass == other.pass
        && deed.input.is(&other.input)
        && equal_answer(&deed.answer, &other.answer)
}

/// Whether the entry stands at the place.
pub(crate) fn stands_at(deeds: &[Deed], place: u64, deed: &Deed) -> bool
    ensures { IsTrue result ↔ (slice_get deeds.now place ≡ Some deed.now) }
{
    match deeds.get(place as usize) {
        Some(there) => equal_deed(there, deed),
        None => false,
    }
}
