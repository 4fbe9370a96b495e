//! Operations and messages as JSON: arrays that begin with a word.
ghost use Rattle.std.specs.Prelude.{◌≡◌, [], ◌∷◌, ◌++◌, map, IfOk, OnOk};
ghost use Rattle.serde_json.specs.Data.{string};
ghost use Rattle.serde_json.specs.View.{view};
ghost use Rattle.journals.specs.Items as spec;

use op::{Body, Content, Msg, Op};
use serde_json::Value;
use std::alloc::{AllocError, Global};

/// An array that begins with a word.
pub(crate) fn worded(alloc: Global, word: &str) -> Result<Vec<Value>, AllocError>
    ensures { IfOk result (λ items. map view items.items ≡ string word.now ∷ []) }
{
    let mut items = Vec::new(alloc);
    add_text(alloc, &mut items, word)?;
    Ok(items)
}

pub(crate) fn add_text(alloc: Global, items: &mut Vec<Value>, text: &str) -> Result<(), AllocError>
    ensures { OnOk result (map view items.new.items ≡ map view items.old.items ++ string text.now ∷ []) }
{
    Ok(items.push(Value::try_from_str(alloc, text)?)?)
}

/// An operation: `["index", SEQ, TERM, VERSION, ID, SOURCE]`, `["delete", SEQ, TERM, VERSION, ID]` or `["noop", SEQ, TERM, VERSION]`.
#[tactic(auto, unfolding(crate::specs::Items::op_data))]
fn op_value(alloc: Global, op: &Op) -> Result<Value, AllocError>
    ensures { IfOk result (λ v. view v ≡ spec.op_data op.now) }
{
    let mut items = worded(alloc, body_word(&op.body))?;
    items.push(Value::from(op.seq))?;
    items.push(Value::from(op.term))?;
    items.push(Value::from(op.version))?;
    add_body(alloc, &mut items, &op.body)?;
    Ok(Value::Array(items))
}

fn body_word(body: &Body) -> &'static str
    ensures { result.now ≡ spec.body_word body.now }
{
    match body {
        Body::Index(_, _) => "index",
        Body::Delete(_) => "delete",
        Body::NoOp => "noop",
    }
}

/// The id and the source.
fn add_body(alloc: Global, items: &mut Vec<Value>, body: &Body) -> Result<(), AllocError>
    ensures { OnOk result (map view items.new.items ≡ map view items.old.items ++ spec.body_texts body.now) }
{
    match body {
        Body::Index(id, source) => {
            add_text(alloc, items, id.as_str())?;
            add_text(alloc, items, source.as_str())
        }
        Body::Delete(id) => add_text(alloc, items, id.as_str()),
        Body::NoOp => Ok(()),
    }
}

/// Operations in an array.
#[tactic(auto, unfolding(crate::specs::Items::ops_data))]
pub(crate) fn ops_value(alloc: Global, ops: &[Op]) -> Result<Value, AllocError>
    ensures { IfOk result (λ v. view v ≡ spec.ops_data ops.now) }
{
    let mut items = Vec::new(alloc);
    'ops: for op in ops {
        items.push(op_value(alloc, op)?)?;
    }
    Ok(Value::Array(items))
}

#[tactic(auto, unfolding(crate::specs::Items::ids_data))]
fn ids_value(alloc: Global, ids: &[u32]) -> Result<Value, AllocError>
    ensures { IfOk result (λ v. view v ≡ spec.ids_data ids.now) }
{
    let mut items = Vec::new(alloc);
    'ids: for id in ids {
        items.push(Value::from(*id))?;
    }
    Ok(Value::Array(items))
}

/// A message: `[KIND, FROM, TO, TERM, ..]`.
#[tactic(auto, unfolding(crate::specs::Items::message_data))]
pub(crate) fn message_value(alloc: Global, message: &Msg) -> Result<Value, AllocError>
    ensures { IfOk result (λ v. view v ≡ spec.message_data message.now) }
{
    let mut items = worded(alloc, kind_of(&message.content))?;
    items.push(Value::from(message.from))?;
    items.push(Value::from(message.to))?;
    items.push(Value::from(message.term))?;
    add_content(alloc, &mut items, &message.content)?;
    Ok(Value::Array(items))
}

/// What a message says, after the others.
fn add_content(alloc: Global, items: &mut Vec<Value>, content: &Content) -> Result<(), AllocError>
    ensures { OnOk result (map view items.new.items ≡ map view items.old.items ++ spec.content_data content.now) }
{
    match content {
        Content::Op(known, op) => {
            items.push(Value::from(*known))?;
            items.push(op_value(alloc, op)?)?;
        }
        Content::Ack(seq, local) => {
            items.push(Value::from(*seq))?;
            items.push(Value::from(*local))?;
        }
        Content::Promoted(set) => items.push(ids_value(alloc, set.as_slice())?)?,
        Content::Resync(known, tail) => {
            items.push(Value::from(*known))?;
            items.push(ops_value(alloc, tail.as_slice())?)?;
        }
        Content::Recover(all) => items.push(ops_value(alloc, all.as_slice())?)?,
        Content::Track(id) | Content::Synced(id) | Content::Fail(id) | Content::Removed(id) => {
            items.push(Value::from(*id))?;
        }
    }
    Ok(())
}

fn kind_of(content: &Content) -> &'static str
    ensures { result.now ≡ spec.content_word content.now }
{
    match content {
        Content::Op(_, _) => "op",
        Content::Ack(_, _) => "ack",
        Content::Promoted(_) => "promoted",
        Content::Resync(_, _) => "resync",
        Content::Track(_) => "track",
        Content::Recover(_) => "recover",
        Content::Synced(_) => "synced",
        Content::Fail(_) => "fail",
        Content::Removed(_) => "removed",
    }
}

/// Messages in an array.
#[tactic(auto, unfolding(crate::specs::Items::messages_data))]
pub(crate) fn messages_value(alloc: Global, messages: &[Msg]) -> Result<Value, AllocError>
    ensures { IfOk result (λ v. view v ≡ spec.messages_data messages.now) }
{
    let mut items = Vec::new(alloc);
    'messages: for message in messages {
        items.push(message_value(alloc, message)?)?;
    }
    Ok(Value::Array(items))
}
