//! Entries of journals as JSON: objects.
ghost use Rattle.std.specs.Prelude.{◌≡◌, codes, IfOk, IfSome, OnOk};
ghost use Rattle.serde_json.specs.View.{view, members_view};
ghost use Rattle.journals.specs.Items.{natural};
ghost use Rattle.journals.specs.Entries as spec;
ghost use Rattle.journals.specs.Entries.{decided_data, Has, TellsAnswer, TellsDeed, TellsEntry, TellsRuled, TellsRuling};
ghost use Rattle.journals.specs.Members.{answer_members, decision_members, output_members, ruled_members};

use crate::writing::answered::{answer_value, denial_value, fault_value};
use crate::writing::asked::{input_value, request_value};
use crate::writing::items::{message_value, messages_value, ops_value, worded};
use journal::{Deed, Journal, Ruling};
use master::{Decision, MasterFault};
use replica::{CopyFault, Output};
use serde_json::{Map, Value, put};
use std::alloc::{AllocError, Global};

type Members = Map<String, Value>;

/// The first line: `{"copies":N,"mapping":MAPPING,"node":NODE}`.
pub(crate) fn head_value(
    alloc: Global,
    mapping: &Value,
    copies: u32,
    node: u32,
) -> Result<Value, AllocError>
    ensures { IfOk result (λ v. Has (view v) (codes "copies") (natural copies) × Has (view v) (codes "mapping") (view mapping.now) × Has (view v) (codes "node") (natural node)) }
{
    let mut members = Map::new(alloc);
    put(&mut members, alloc, "copies", Value::from(copies))?;
    put(&mut members, alloc, "mapping", mapping.clone()?)?;
    put(&mut members, alloc, "node", Value::from(node))?;
    Ok(Value::Object(members))
}

/// An entry of a copy.
pub(crate) fn deed_value(alloc: Global, deed: &Deed) -> Result<Value, AllocError>
    ensures { IfOk result (λ v. TellsDeed (view v) deed.now) }
{
    let mut members = answered(alloc, &deed.answer)?;
    put(
        &mut members,
        alloc,
        "asked",
        input_value(alloc, &deed.input)?,
    )?;
    put(&mut members, alloc, "pass", Value::from(deed.pass))?;
    Ok(Value::Object(members))
}

/// What a copy answered, as the members of an object.
pub fn copy_answer_value(
    alloc: Global,
    answer: &Result<Output, CopyFault>,
) -> Result<Value, AllocError>
    ensures { IfOk result (λ v. TellsAnswer (view v) answer.now) }
{
    Ok(Value::Object(answered(alloc, answer)?))
}

fn answered(alloc: Global, answer: &Result<Output, CopyFault>) -> Result<Members, AllocError>
    ensures { IfOk result (λ m. members_view m.entries ≡ answer_members answer.now) }
{
    let mut members = Map::new(alloc);
    match answer {
        Ok(output) => add_output(alloc, &mut members, output)?,
        Err(fault) => put(&mut members, alloc, "answered", fault_value(alloc, fault)?)?,
    }
    Ok(members)
}

fn add_output(alloc: Global, members: &mut Members, output: &Output) -> Result<(), AllocError>
    ensures { OnOk result (members_view members.new.entries ≡ output_members output.now (members_view members.old.entries)) }
{
    let sent = messages_value(alloc, output.sent.as_slice())?;
    let acknowledged = ops_value(alloc, output.acknowledged.as_slice())?;
    put(
        members,
        alloc,
        "answered",
        answer_value(alloc, &output.answer)?,
    )?;
    put(members, alloc, "sent", sent)?;
    put(members, alloc, "acknowledged", acknowledged)?;
    put(members, alloc, "members", Value::from(output.members))
}

/// An entry of the master.
pub(crate) fn ruling_value(alloc: Global, ruling: &Ruling) -> Result<Value, AllocError>
    ensures { IfOk result (λ v. TellsRuling (view v) ruling.now) }
{
    let mut members = ruled(alloc, &ruling.answer)?;
    put(
        &mut members,
        alloc,
        "asked",
        request_value(alloc, ruling.request)?,
    )?;
    put(&mut members, alloc, "pass", Value::from(ruling.pass))?;
    Ok(Value::Object(members))
}

/// What the master answered, as the members of an object.
pub fn master_answer_value(
    alloc: Global,
    answer: &Result<Decision, MasterFault>,
) -> Result<Value, AllocError>
    ensures { IfOk result (λ v. TellsRuled (view v) answer.now) }
{
    Ok(Value::Object(ruled(alloc, answer)?))
}

fn ruled(alloc: Global, answer: &Result<Decision, MasterFault>) -> Result<Members, AllocError>
    ensures { IfOk result (λ m. members_view m.entries ≡ ruled_members answer.now) }
{
    let mut members = Map::new(alloc);
    match answer {
        Ok(decision) => add_decision(alloc, &mut members, decision)?,
        Err(fault) => put(&mut members, alloc, "answered", denial_value(alloc, fault)?)?,
    }
    Ok(members)
}

/// A decision is `["decided"]` or `["repeated"]`, with the id that it gives.
fn decided_value(alloc: Global, decision: &Decision) -> Result<Value, AllocError>
    ensures { IfOk result (λ v. view v ≡ decided_data decision.now.repeated decision.now.given) }
{
    let mut items = worded(alloc, decision_word(decision.repeated))?;
    if let Some(id) = decision.given {
        items.push(Value::from(id))?;
    }
    Ok(Value::Array(items))
}

fn decision_word(repeated: bool) -> &'static str
    ensures { result.now ≡ spec.decision_word repeated }
{
    if repeated { "repeated" } else { "decided" }
}

fn add_decision(alloc: Global, members: &mut Members, decision: &Decision) -> Result<(), AllocError>
    ensures { OnOk result (members_view members.new.entries ≡ decision_members decision.now (members_view members.old.entries)) }
{
    put(members, alloc, "answered", decided_value(alloc, decision)?)?;
    if let Some(message) = &decision.sent {
        put(members, alloc, "sent", message_value(alloc, message)?)?;
    }
    Ok(())
}

/// The entry at a place of a journal, from 0 on; none where the journal ends before.
pub fn entry_value(
    alloc: Global,
    journal: &Journal,
    place: usize,
) -> Result<Option<Value>, AllocError>
    ensures { IfOk result (λ o. IfSome o (λ v. TellsEntry (view v) journal.now place)) }
{
    match journal {
        Journal::OfMaster(_, rulings) => match rulings.as_slice().get(place) {
            Some(ruling) => Ok(Some(ruling_value(alloc, ruling)?)),
            None => Ok(None),
        },
        Journal::OfCopy(_, deeds) => match deeds.as_slice().get(place) {
            Some(deed) => Ok(Some(deed_value(alloc, deed)?)),
            None => Ok(None),
        },
    }
}
