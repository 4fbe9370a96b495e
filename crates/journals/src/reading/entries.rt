//! Entries of journals, read from lines of JSON.
ghost use Rattle.std.specs.Prelude.{◌≡◌, codes, map, IfOk, Some};
ghost use Rattle.serde_json.specs.Read.{read};
ghost use Rattle.serde_json.specs.View.{view};
ghost use Rattle.serde_json.specs.Find.{get};
ghost use Rattle.journals.specs.Entries as spec;
ghost use Rattle.journals.specs.Entries.{Has, IsLineOf, TellsAnswer, TellsDecision, TellsDeed, TellsOutput, TellsRuled, TellsRuling, TellsSent};

use crate::reading::answered::{answer_of, denial_of, fault_of};
use crate::reading::asked::{input_of, request_of};
use crate::reading::items::{copy_of, message_of, messages_of, natural_of, ops_of, worded};
use crate::reading::wrong::{Wrong, both};
use journal::{Deed, Ruling};
use master::{Decision, MasterFault};
use op::Msg;
use replica::{CopyFault, Output};
use serde_json::Value;
use std::alloc::Global;

/// The JSON of a line.
pub(crate) fn value_of(alloc: Global, line: &[u8]) -> Result<Value, Wrong>
    ensures { IfOk result (λ v. read line.now ≡ Some (view v)) }
{
    match Value::from_slice(alloc, line) {
        Ok(value) => Ok(value),
        Err(error) => {
            let is_memory = error.is_memory();
            drop(error);
            Err(if is_memory {
                Wrong::NoMemory
            } else {
                Wrong::Wanted("no JSON")
            })
        }
    }
}

pub(crate) fn member<'a>(value: &'a Value, name: &'static str) -> Result<&'a Value, Wrong>
    ensures { IfOk result (λ m. Has (view value.now) name.now (view m.now)) }
{
    match value.get(name) {
        Some(member) => Ok(member),
        None => Err(Wrong::Wanted("a member is missing")),
    }
}

// ---- entries of copies

/// An entry of a copy.
pub(crate) fn deed_of(alloc: Global, line: &[u8]) -> Result<Deed, Wrong>
    ensures { IfOk result (IsLineOf TellsDeed line.now) }
{
    let value = value_of(alloc, line)?;
    deed_in(alloc, &value)
}

fn deed_in(alloc: Global, value: &Value) -> Result<Deed, Wrong>
    ensures { IfOk result (TellsDeed (view value.now)) }
{
    let pass = natural_of(member(value, "pass")?)?;
    let asked = input_of(alloc, member(value, "asked")?)?;
    let (input, answer) = both(asked, answer_in(alloc, value))?;
    Ok(Deed {
        pass,
        input,
        answer,
    })
}

fn answer_in(alloc: Global, value: &Value) -> Result<Result<Output, CopyFault>, Wrong>
    ensures { IfOk result (TellsAnswer (view value.now)) }
{
    match fault_of(member(value, "answered")?)? {
        Some(fault) => Ok(Err(fault)),
        None => Ok(Ok(output_in(alloc, value)?)),
    }
}

fn output_in(alloc: Global, value: &Value) -> Result<Output, Wrong>
    ensures { IfOk result (TellsOutput (view value.now)) }
{
    let Ok(members) = usize::try_from(natural_of(member(value, "members")?)?) else {
        return Err(Wrong::Wanted("a number of copies is wanted"));
    };
    let (sent, acknowledged) = (member(value, "sent")?, member(value, "acknowledged")?);
    let answer = answer_of(alloc, member(value, "answered")?)?;
    let answer = both(answer, messages_of(alloc, sent))?;
    let ((answer, sent), acknowledged) = both(answer, ops_of(alloc, acknowledged))?;
    Ok(Output {
        answer,
        sent,
        acknowledged,
        members,
    })
}

// ---- entries of the master

/// An entry of the master.
pub(crate) fn ruling_of(alloc: Global, line: &[u8]) -> Result<Ruling, Wrong>
    ensures { IfOk result (IsLineOf TellsRuling line.now) }
{
    let value = value_of(alloc, line)?;
    ruling_in(alloc, &value)
}

fn ruling_in(alloc: Global, value: &Value) -> Result<Ruling, Wrong>
    ensures { IfOk result (TellsRuling (view value.now)) }
{
    Ok(Ruling {
        pass: natural_of(member(value, "pass")?)?,
        request: request_of(member(value, "asked")?)?,
        answer: ruled_in(alloc, value)?,
    })
}

fn ruled_in(alloc: Global, value: &Value) -> Result<Result<Decision, MasterFault>, Wrong>
    ensures { IfOk result (TellsRuled (view value.now)) }
{
    match denial_of(member(value, "answered")?)? {
        Some(fault) => Ok(Err(fault)),
        None => Ok(Ok(decision_in(alloc, value)?)),
    }
}

fn decision_in(alloc: Global, value: &Value) -> Result<Decision, Wrong>
    ensures { IfOk result (TellsDecision (view value.now)) }
{
    let (repeated, given) = decided_of(member(value, "answered")?)?;
    Ok(Decision {
        given,
        sent: sent_in(alloc, value)?,
        repeated,
    })
}

/// Whether nothing is new, and the id that is given.
fn decided_of(value: &Value) -> Result<(bool, Option<u32>), Wrong>
    ensures { IfOk result (λ r. view value.now ≡ spec.decided_data r.0 r.1) }
{
    let (word, rest) = worded(value)?;
    let repeated = is_repeated(word)?;
    Ok((repeated, given_of(rest)?))
}

fn is_repeated(word: &str) -> Result<bool, Wrong>
    ensures { IfOk result (λ repeated. word.now ≡ spec.decision_word repeated) }
{
    match word {
        "decided" => Ok(false),
        "repeated" => Ok(true),
        _ => Err(Wrong::Wanted("no master answers this")),
    }
}

/// The id that is given, where there is one.
fn given_of(rest: &[Value]) -> Result<Option<u32>, Wrong>
    ensures { IfOk result (λ given. map view rest.now ≡ spec.given_data given) }
{
    match rest {
        [] => Ok(None),
        [id] => Ok(Some(copy_of(id)?)),
        _ => Err(Wrong::Wanted("no master answers this")),
    }
}

/// The message of a decision, where it sends one.
fn sent_in(alloc: Global, value: &Value) -> Result<Option<Msg>, Wrong>
    ensures { IfOk result (λ m. TellsSent (get (codes "sent") (view value.now)) m) }
{
    match value.get("sent") {
        Some(message) => Ok(Some(message_of(alloc, message)?)),
        None => Ok(None),
    }
}
