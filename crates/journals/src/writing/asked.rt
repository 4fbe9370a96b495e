//! What a node was asked, as JSON.
ghost use Rattle.std.specs.Prelude.{◌≡◌, [], ◌∷◌, ◌++◌, map, IfOk, OnOk};
ghost use Rattle.serde_json.specs.Data.{string};
ghost use Rattle.serde_json.specs.View.{view};
ghost use Rattle.journals.specs.Asked as spec;

use crate::writing::items::{add_text, message_value, worded};
use master::Request;
use replica::{Condition, Input, OpType, Write};
use serde_json::Value;
use std::alloc::{AllocError, Global};

/// What a copy was asked, in a script's words.
#[tactic(auto, unfolding(crate::specs::Asked::input_data))]
pub(crate) fn input_value(alloc: Global, input: &Input) -> Result<Value, AllocError>
    ensures { IfOk result (λ v. view v ≡ spec.input_data input.now) }
{
    let mut items = worded(alloc, input_word(input))?;
    match input {
        Input::Write(write) => add_write(alloc, &mut items, write)?,
        Input::Bulk(writes) => add_clients(alloc, &mut items, writes.as_slice())?,
        Input::Take(message) => items.push(message_value(alloc, message)?)?,
        Input::Report(id) => items.push(Value::from(*id))?,
        Input::Get(id) => add_text(alloc, &mut items, id.as_str())?,
        Input::Refresh | Input::Restart => {}
    }
    Ok(Value::Array(items))
}

fn input_word(input: &Input) -> &'static str
    ensures { result.now ≡ spec.input_word input.now }
{
    match input {
        Input::Write(write) => write_word(&write.kind),
        Input::Bulk(_) => "bulk",
        Input::Take(_) => "take",
        Input::Report(_) => "report",
        Input::Refresh => "refresh",
        Input::Get(_) => "get",
        Input::Restart => "restart",
    }
}

fn write_word(kind: &OpType) -> &'static str
    ensures { result.now ≡ spec.write_word kind.now }
{
    match kind {
        OpType::Index(_, condition) => set_word(condition),
        OpType::Create(_) => "create",
        OpType::Delete(condition) => delete_word(condition),
    }
}

fn set_word(condition: &Option<Condition>) -> &'static str
    ensures { result.now ≡ spec.set_word condition.now }
{
    match condition {
        None => "put",
        Some(_) => "putif",
    }
}

fn delete_word(condition: &Option<Condition>) -> &'static str
    ensures { result.now ≡ spec.delete_word condition.now }
{
    match condition {
        None => "del",
        Some(_) => "delif",
    }
}

fn add_condition(items: &mut Vec<Value>, condition: &Option<Condition>) -> Result<(), AllocError>
    ensures { OnOk result (map view items.new.items ≡ map view items.old.items ++ spec.condition_data condition.now) }
{
    if let Some(condition) = condition {
        items.push(Value::from(condition.seq))?;
        items.push(Value::from(condition.term))?;
    }
    Ok(())
}

/// A write's condition, its id, and its source.
fn add_write(alloc: Global, items: &mut Vec<Value>, write: &Write) -> Result<(), AllocError>
    ensures { OnOk result (map view items.new.items ≡ map view items.old.items ++ spec.write_data write.now.id write.now.kind) }
{
    match &write.kind {
        OpType::Index(source, condition) => {
            add_condition(items, condition)?;
            add_text(alloc, items, write.id.as_str())?;
            add_text(alloc, items, source.as_str())
        }
        OpType::Create(source) => {
            add_text(alloc, items, write.id.as_str())?;
            add_text(alloc, items, source.as_str())
        }
        OpType::Delete(condition) => {
            add_condition(items, condition)?;
            add_text(alloc, items, write.id.as_str())
        }
    }
}

/// The writes of a bulk, each an array as where it is asked alone.
fn add_clients(alloc: Global, items: &mut Vec<Value>, writes: &[Write]) -> Result<(), AllocError>
    ensures { OnOk result (map view items.new.items ≡ map view items.old.items ++ map spec.client_data writes.now) }
{
    'writes: for write in writes {
        items.push(client_value(alloc, write)?)?;
    }
    Ok(())
}

#[tactic(auto, unfolding(crate::specs::Asked::client_data))]
fn client_value(alloc: Global, write: &Write) -> Result<Value, AllocError>
    ensures { IfOk result (λ v. view v ≡ spec.client_data write.now) }
{
    let mut items = worded(alloc, write_word(&write.kind))?;
    add_write(alloc, &mut items, write)?;
    Ok(Value::Array(items))
}

/// What the master was asked.
#[tactic(auto, unfolding(crate::specs::Asked::request_data))]
pub(crate) fn request_value(alloc: Global, request: Request) -> Result<Value, AllocError>
    ensures { IfOk result (λ v. view v ≡ spec.request_data request) }
{
    let mut items = worded(alloc, request_word(request))?;
    match request {
        Request::Promote(id) => items.push(Value::from(id))?,
        Request::Allocate => {}
        Request::Synced(term, id) | Request::Fail(term, id) => {
            items.push(Value::from(term))?;
            items.push(Value::from(id))?;
        }
    }
    Ok(Value::Array(items))
}

fn request_word(request: Request) -> &'static str
    ensures { result.now ≡ spec.request_word request }
{
    match request {
        Request::Promote(_) => "promote",
        Request::Allocate => "allocate",
        Request::Synced(_, _) => "synced",
        Request::Fail(_, _) => "fail",
    }
}
