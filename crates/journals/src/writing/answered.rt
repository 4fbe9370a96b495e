//! What a node answered, as JSON.
ghost use Rattle.std.specs.Prelude.{◌≡◌, [], ◌∷◌, ◌++◌, map, IfOk, OnOk};
ghost use Rattle.serde_json.specs.Data.{string};
ghost use Rattle.serde_json.specs.View.{view};
ghost use Rattle.journals.specs.Answered as spec;
ghost use Rattle.journals.specs.Items.{natural};

use crate::writing::items::{add_text, worded};
use master::MasterFault;
use replica::{Answer, CopyFault, Item, Outcome, Written};
use serde_json::Value;
use std::alloc::{AllocError, Global};
use translog::LogFault;

/// What a copy answered, as a script prints it.
#[tactic(auto, unfolding(crate::specs::Answered::answer_data))]
pub(crate) fn answer_value(alloc: Global, answer: &Answer) -> Result<Value, AllocError>
    ensures { IfOk result (λ v. view v ≡ spec.answer_data answer.now) }
{
    let mut items = worded(alloc, answer_word(answer))?;
    match answer {
        Answer::Wrote(written) => add_written(alloc, &mut items, *written)?,
        Answer::Bulked(all) => add_items(alloc, &mut items, all.as_slice())?,
        Answer::Found(document) => {
            add_numbers(&mut items, document.seq, document.term, document.version)?;
            add_text(alloc, &mut items, document.source.as_str())?;
        }
        Answer::Point(point) => items.push(Value::from(*point))?,
        Answer::Taken | Answer::Stale | Answer::Repeated | Answer::Reported | Answer::Missing => {}
    }
    Ok(Value::Array(items))
}

fn answer_word(answer: &Answer) -> &'static str
    ensures { result.now ≡ spec.answer_word answer.now }
{
    match answer {
        Answer::Wrote(_) => "wrote",
        Answer::Bulked(_) => "bulked",
        Answer::Taken => "taken",
        Answer::Stale => "stale",
        Answer::Repeated => "repeated",
        Answer::Reported => "reported",
        Answer::Found(_) => "found",
        Answer::Missing => "missing",
        Answer::Point(_) => "point",
    }
}

fn add_written(alloc: Global, items: &mut Vec<Value>, written: Written) -> Result<(), AllocError>
    ensures { OnOk result (map view items.new.items ≡ map view items.old.items ++ spec.written_data written) }
{
    add_numbers(items, written.seq, written.term, written.version)?;
    add_text(alloc, items, outcome_word(written.outcome))
}

/// What became of the writes of a bulk.
fn add_items(alloc: Global, items: &mut Vec<Value>, all: &[Item]) -> Result<(), AllocError>
    ensures { OnOk result (map view items.new.items ≡ map view items.old.items ++ map spec.item_data all.now) }
{
    'items: for item in all {
        items.push(item_value(alloc, item)?)?;
    }
    Ok(())
}

#[tactic(auto, unfolding(crate::specs::Answered::item_data))]
fn item_value(alloc: Global, item: &Item) -> Result<Value, AllocError>
    ensures { IfOk result (λ v. view v ≡ spec.item_data item.now) }
{
    match item {
        Item::Wrote(written) => {
            let mut items = worded(alloc, "wrote")?;
            add_written(alloc, &mut items, *written)?;
            Ok(Value::Array(items))
        }
        Item::Refused(fault) => fault_value(alloc, fault),
    }
}

fn add_numbers(items: &mut Vec<Value>, seq: u64, term: u64, version: u64) -> Result<(), AllocError>
    ensures { OnOk result (map view items.new.items ≡ map view items.old.items ++ (natural seq ∷ natural term ∷ natural version ∷ [])) }
{
    items.push(Value::from(seq))?;
    items.push(Value::from(term))?;
    Ok(items.push(Value::from(version))?)
}

fn outcome_word(outcome: Outcome) -> &'static str
    ensures { result.now ≡ spec.outcome_word outcome }
{
    match outcome {
        Outcome::Created => "created",
        Outcome::Updated => "updated",
        Outcome::Deleted => "deleted",
        Outcome::NotFound => "not_found",
    }
}

/// What a copy refused.
#[tactic(auto, unfolding(crate::specs::Answered::fault_data))]
pub(crate) fn fault_value(alloc: Global, fault: &CopyFault) -> Result<Value, AllocError>
    ensures { IfOk result (λ v. view v ≡ spec.fault_data fault.now) }
{
    let mut items = worded(alloc, "refused")?;
    add_text(alloc, &mut items, fault.name())?;
    if let CopyFault::Log(fault) = fault {
        add_log(alloc, &mut items, fault)?;
    }
    Ok(Value::Array(items))
}

/// What the master refused.
#[tactic(auto, unfolding(crate::specs::Answered::denial_data))]
pub(crate) fn denial_value(alloc: Global, fault: &MasterFault) -> Result<Value, AllocError>
    ensures { IfOk result (λ v. view v ≡ spec.denial_data fault.now) }
{
    let mut items = worded(alloc, "refused")?;
    add_text(alloc, &mut items, fault.name())?;
    if let MasterFault::Log(fault) = fault {
        add_log(alloc, &mut items, fault)?;
    }
    Ok(Value::Array(items))
}

/// The name of a log's fault, and the offset where it is damaged.
fn add_log(alloc: Global, items: &mut Vec<Value>, fault: &LogFault) -> Result<(), AllocError>
    ensures { OnOk result (map view items.new.items ≡ map view items.old.items ++ spec.log_data fault.now) }
{
    match fault {
        LogFault::BadMagic => add_text(alloc, items, "BadMagic"),
        LogFault::Damaged(offset) => {
            add_text(alloc, items, "Damaged")?;
            Ok(items.push(Value::from(*offset))?)
        }
        LogFault::Device => add_text(alloc, items, "Device"),
        LogFault::NoMemory => add_text(alloc, items, "NoMemory"),
        LogFault::TooLarge => add_text(alloc, items, "TooLarge"),
    }
}
