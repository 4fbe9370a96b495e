//! What a node answered, read from JSON.
ghost use Rattle.std.specs.Prelude.{◌≡◌, [], ◌∷◌, map, IfOk, IfSome};
ghost use Rattle.serde_json.specs.View.{view};
ghost use Rattle.journals.specs.Answered as spec;
ghost use Rattle.replica.specs.declared.output.Answer.TheVariants.{Found};
ghost use Rattle.replica.specs.Fault.{name_of};
ghost use Rattle.master.specs.Fault.{name_of as master_name};
ghost use Rattle.serde_json.specs.Data.{string};

use crate::reading::items::{natural_of, source_of, text_of, worded};
use crate::reading::wrong::Wrong;
use master::MasterFault;
use replica::{Answer, CopyFault, Document, Item, Items, Outcome, Written};
use serde_json::Value;
use std::alloc::Global;
use translog::LogFault;

/// What a copy answered.
#[tactic(auto, unfolding(crate::specs::Answered::answer_data))]
pub(crate) fn answer_of(alloc: Global, value: &Value) -> Result<Answer, Wrong>
    ensures { IfOk result (λ a. view value.now ≡ spec.answer_data a) }
{
    let (word, rest) = worded(value)?;
    match (word, rest) {
        ("wrote", numbers) => Ok(Answer::Wrote(written_of(numbers)?)),
        ("bulked", items) => Ok(Answer::Bulked(bulked_of(alloc, items)?)),
        ("found", numbers) => Ok(Answer::Found(document_of(alloc, numbers)?)),
        ("point", [point]) => Ok(Answer::Point(natural_of(point)?)),
        (word, []) => bare_of(word),
        _ => Err(Wrong::Wanted("no copy answers this")),
    }
}

fn written_of(items: &[Value]) -> Result<Written, Wrong>
    ensures { IfOk result (λ w. map view items.now ≡ spec.written_data w) }
{
    match items {
        [seq, term, version, outcome] => Ok(Written {
            seq: natural_of(seq)?,
            term: natural_of(term)?,
            version: natural_of(version)?,
            outcome: outcome_of(text_of(outcome)?)?,
        }),
        _ => Err(Wrong::Wanted("no copy answers this")),
    }
}

/// What became of the writes of a bulk.
fn bulked_of(alloc: Global, items: &[Value]) -> Result<Items, Wrong>
    ensures { IfOk result (λ all. map view items.now ≡ map spec.item_data all) }
{
    let mut found = Vec::new(alloc);
    'items: for item in items {
        found.push(item_of(item)?)?;
    }
    Ok(Items::from_vec(found))
}

#[tactic(auto, unfolding(crate::specs::Answered::item_data, crate::specs::Answered::fault_data))]
fn item_of(value: &Value) -> Result<Item, Wrong>
    ensures { IfOk result (λ item. view value.now ≡ spec.item_data item) }
{
    let (word, rest) = worded(value)?;
    match (word, rest) {
        ("wrote", numbers) => Ok(Item::Wrote(written_of(numbers)?)),
        ("refused", [name]) => Ok(Item::Refused(item_fault_named(text_of(name)?)?)),
        _ => Err(Wrong::Wanted("no write of a bulk is answered so")),
    }
}

/// What a write of a bulk is refused for.
fn item_fault_named(name: &str) -> Result<CopyFault, Wrong>
    ensures name { IfOk result (λ f. name.now ≡ name_of f) }
    ensures bare { IfOk result (λ f. spec.copy_log f ≡ []) }
{
    match name {
        "VersionConflict" => Ok(CopyFault::VersionConflict),
        "WindowFull" => Ok(CopyFault::WindowFull),
        "Exhausted" => Ok(CopyFault::Exhausted),
        _ => Err(Wrong::Wanted("no write of a bulk is refused so")),
    }
}

fn document_of(alloc: Global, items: &[Value]) -> Result<Document, Wrong>
    ensures { IfOk result (λ d. map view items.now ≡ spec.answer_items (Found d)) }
{
    match items {
        [seq, term, version, source] => Ok(Document {
            seq: natural_of(seq)?,
            term: natural_of(term)?,
            version: natural_of(version)?,
            source: source_of(alloc, source)?,
        }),
        _ => Err(Wrong::Wanted("no copy answers this")),
    }
}

fn bare_of(word: &str) -> Result<Answer, Wrong>
    ensures { IfOk result (λ a. (word.now ≡ spec.answer_word a) × (spec.answer_items a ≡ [])) }
{
    match word {
        "taken" => Ok(Answer::Taken),
        "stale" => Ok(Answer::Stale),
        "repeated" => Ok(Answer::Repeated),
        "reported" => Ok(Answer::Reported),
        "missing" => Ok(Answer::Missing),
        _ => Err(Wrong::Wanted("no copy answers this")),
    }
}

fn outcome_of(word: &str) -> Result<Outcome, Wrong>
    ensures { IfOk result (λ o. word.now ≡ spec.outcome_word o) }
{
    match word {
        "created" => Ok(Outcome::Created),
        "updated" => Ok(Outcome::Updated),
        "deleted" => Ok(Outcome::Deleted),
        "not_found" => Ok(Outcome::NotFound),
        _ => Err(Wrong::Wanted("the result of a write is wanted")),
    }
}

/// The fault of a log.
fn log_fault_of(rest: &[Value]) -> Result<LogFault, Wrong>
    ensures { IfOk result (λ f. map view rest.now ≡ spec.log_data f) }
{
    match rest {
        [name] => bare_log_fault_of(text_of(name)?),
        [name, offset] => match text_of(name)? {
            "Damaged" => Ok(LogFault::Damaged(natural_of(offset)?)),
            _ => Err(Wrong::Wanted("the fault of a log is wanted")),
        },
        _ => Err(Wrong::Wanted("the fault of a log is wanted")),
    }
}

fn bare_log_fault_of(name: &str) -> Result<LogFault, Wrong>
    ensures { IfOk result (λ f. string name.now ∷ [] ≡ spec.log_data f) }
{
    match name {
        "BadMagic" => Ok(LogFault::BadMagic),
        "Device" => Ok(LogFault::Device),
        "NoMemory" => Ok(LogFault::NoMemory),
        "TooLarge" => Ok(LogFault::TooLarge),
        _ => Err(Wrong::Wanted("the fault of a log is wanted")),
    }
}

/// The name of a refusal, and what stands after it; none where this is no refusal.
fn refusal_of(value: &Value) -> Result<Option<(&str, &[Value])>, Wrong>
    ensures { IfOk result (λ o. IfSome o (λ r. view value.now ≡ spec.refused_data r.0.now (map view r.1.now))) }
{
    let (word, rest) = worded(value)?;
    match (word, rest) {
        ("refused", [name, rest @ ..]) => Ok(Some((text_of(name)?, rest))),
        _ => Ok(None),
    }
}

/// What a copy refused; none where this is no refusal.
#[tactic(auto, unfolding(crate::specs::Answered::fault_data))]
pub(crate) fn fault_of(value: &Value) -> Result<Option<CopyFault>, Wrong>
    ensures { IfOk result (λ o. IfSome o (λ f. view value.now ≡ spec.fault_data f)) }
{
    match refusal_of(value)? {
        None => Ok(None),
        Some(("Log", rest)) => Ok(Some(CopyFault::Log(log_fault_of(rest)?))),
        Some((name, [])) => Ok(Some(copy_fault_named(name)?)),
        Some(_) => Err(Wrong::Wanted("no copy refuses so")),
    }
}

fn copy_fault_named(name: &str) -> Result<CopyFault, Wrong>
    ensures name { IfOk result (λ f. name.now ≡ name_of f) }
    ensures bare { IfOk result (λ f. spec.copy_log f ≡ []) }
{
    match name {
        "NotPrimary" => Ok(CopyFault::NotPrimary),
        "VersionConflict" => Ok(CopyFault::VersionConflict),
        "WindowFull" => Ok(CopyFault::WindowFull),
        "OldTerm" => Ok(CopyFault::OldTerm),
        "NotSynced" => Ok(CopyFault::NotSynced),
        "BeyondWindow" => Ok(CopyFault::BeyondWindow),
        "Mismatch" => Ok(CopyFault::Mismatch),
        "Closed" => Ok(CopyFault::Closed),
        "NoMemory" => Ok(CopyFault::NoMemory),
        "WrongAddress" => Ok(CopyFault::WrongAddress),
        "Exhausted" => Ok(CopyFault::Exhausted),
        _ => Err(Wrong::Wanted("no copy refuses so")),
    }
}

/// What the master refused; none where this is no refusal.
#[tactic(auto, unfolding(crate::specs::Answered::denial_data))]
pub(crate) fn denial_of(value: &Value) -> Result<Option<MasterFault>, Wrong>
    ensures { IfOk result (λ o. IfSome o (λ f. view value.now ≡ spec.denial_data f)) }
{
    match refusal_of(value)? {
        None => Ok(None),
        Some(("Log", rest)) => Ok(Some(MasterFault::Log(log_fault_of(rest)?))),
        Some((name, [])) => Ok(Some(master_fault_named(name)?)),
        Some(_) => Err(Wrong::Wanted("no master refuses so")),
    }
}

fn master_fault_named(name: &str) -> Result<MasterFault, Wrong>
    ensures name { IfOk result (λ f. name.now ≡ master_name f) }
    ensures bare { IfOk result (λ f. spec.master_log f ≡ []) }
{
    match name {
        "OldTerm" => Ok(MasterFault::OldTerm),
        "NotInSync" => Ok(MasterFault::NotInSync),
        "IsPrimary" => Ok(MasterFault::IsPrimary),
        "Gone" => Ok(MasterFault::Gone),
        "NoMemory" => Ok(MasterFault::NoMemory),
        "Full" => Ok(MasterFault::Full),
        _ => Err(Wrong::Wanted("no master refuses so")),
    }
}
