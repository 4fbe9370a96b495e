//! Whether the receipts of passes are the entries of a journal.
ghost use Rattle.std.specs.Prelude.{◌≡◌, ◌↔◌, ◌<◌, ◌++◌, ℕ, [], true, IsTrue, Some, OnOk, IfOk, IfErr};
ghost use Rattle.node.specs.Gathered.{deed_at, has_place, receipts_of, size_of, AreGathered, AreNext, IsFirstStray, IsWhole};
ghost use Rattle.node.specs.Passes.{AreUpTo};

use crate::pass::Pass;
use crate::receipt::Receipt;
use crate::standing::stands_at;
use chronicle::RegistryName;
use journal::{Deed, Journal};

/// The place of a receipt that doesn't stand in a journal, or stands where another does.
#[derive(Clone, Copy, Debug, PartialEq, Eq)]
pub struct Stray {
    pub place: u64,
}

/// Whether each entry of the journal of a copy has its receipt among those of some passes; or the first receipt, in the order of the passes,
/// that doesn't stand at its place with its pass, input and answer, or stands where one before it does.
pub fn gathered<J: RegistryName>(journal: &Journal, passes: &[Pass<J>]) -> Result<bool, Stray>
    ensures ok { IfOk result (λ whole. AreGathered journal.now (receipts_of passes.now) × (IsTrue whole ↔ IsWhole journal.now (receipts_of passes.now))) }
    ensures stray { IfErr result (λ s. IsFirstStray journal.now [] (receipts_of passes.now) s.place) }
{
    for count in 0..passes.len() {
        check(journal, &passes[..count], &passes[count])?;
    }
    Ok(covers(passes, size_of(journal)))
}

/// Whether a receipt stands in the journal of a copy at its place, with its pass, input and answer.
pub fn stands_in<J: RegistryName>(journal: &Journal, receipt: &Receipt<J>) -> bool
    ensures { IsTrue result ↔ (deed_at journal.now receipt.now.place ≡ Some receipt.now.deed) }
{
    stands(journal, receipt.place(), receipt.deed())
}

/// Whether the receipts of a pass stand, apart from one another and from those of earlier passes.
fn check<J: RegistryName>(
    journal: &Journal,
    earlier: &[Pass<J>],
    pass: &Pass<J>,
) -> Result<(), Stray>
    ensures ok { OnOk result (AreNext journal.now (receipts_of earlier.now) pass.now.receipts) }
    ensures stray { IfErr result (λ s. IsFirstStray journal.now (receipts_of earlier.now) pass.now.receipts s.place) }
{
    let receipts = pass.receipts();
    let mut most = 0;
    for count in 0..receipts.len() {
        let receipt = &receipts[count];
        let place = receipt.place();
        if !stands(journal, place, receipt.deed())
            || is_before(earlier, &receipts[..count], most, place)
        {
            return Err(Stray { place });
        }
        most = most.max(place);
    }
    Ok(())
}

/// Whether earlier passes or earlier receipts of a pass, whose places are known to be at most one, have a place.
fn is_before<J: RegistryName>(
    earlier: &[Pass<J>],
    before: &[Receipt<J>],
    most: u64,
    place: u64,
) -> bool
    requires { AreUpTo most before.now }
    ensures { result ≡ has_place (receipts_of earlier.now ++ before.now) place }
{
    any_has(earlier, place) || is_taken(before, most, place)
}

/// In a pass whose places rise it doesn't look at each receipt.
fn is_taken<J: RegistryName>(before: &[Receipt<J>], most: u64, place: u64) -> bool
    requires { AreUpTo most before.now }
    ensures { result ≡ has_place before.now place }
{
    place <= most && is_among(before, place)
}

/// Whether a receipt is of a place.
fn is_among<J: RegistryName>(receipts: &[Receipt<J>], place: u64) -> bool
    ensures { result ≡ has_place receipts.now place }
{
    for receipt in receipts {
        if receipt.place() == place {
            return true;
        }
    }
    false
}

/// Whether a pass has a receipt of a place; where it made all calls so far, it is the receipt that comes at that place.
fn has<J: RegistryName>(receipts: &[Receipt<J>], place: u64) -> bool
    ensures { result ≡ has_place receipts.now place }
{
    match receipts.get(place as usize) {
        Some(receipt) => receipt.place() == place || is_among(receipts, place),
        None => is_among(receipts, place),
    }
}

fn stands(journal: &Journal, place: u64, deed: &Deed) -> bool
    ensures { IsTrue result ↔ (deed_at journal.now place ≡ Some deed.now) }
{
    match journal {
        Journal::OfMaster(_, _) => false,
        Journal::OfCopy(_, deeds) => stands_at(deeds.as_slice(), place, deed),
    }
}

fn size_of(journal: &Journal) -> u64
    ensures { result ≡ size_of journal.now }
{
    match journal {
        Journal::OfMaster(_, rulings) => rulings.as_slice().len() as u64,
        Journal::OfCopy(_, deeds) => deeds.as_slice().len() as u64,
    }
}

/// Whether each place below a number has a receipt.
fn covers<J: RegistryName>(passes: &[Pass<J>], size: u64) -> bool
    ensures { IsTrue result ↔ ((place : ℕ) → place < size → has_place (receipts_of passes.now) place ≡ true) }
{
    for place in 0..size {
        if !any_has(passes, place) {
            return false;
        }
    }
    true
}

/// Whether a pass has a receipt of a place.
fn any_has<J: RegistryName>(passes: &[Pass<J>], place: u64) -> bool
    ensures { result ≡ has_place (receipts_of passes.now) place }
{
    for pass in passes {
        if has(pass.receipts(), place) {
            return true;
        }
    }
    false
}
