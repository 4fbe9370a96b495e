//! Operations and messages, read from JSON. What isn't as it is written is refused.
ghost use Rattle.std.specs.Prelude.{◌≡◌, [], ◌∷◌, map, IfOk, IsTrue};
ghost use Rattle.serde_json.specs.Data.{string};
ghost use Rattle.serde_json.specs.View.{view};
ghost use Rattle.journals.specs.Items as spec;

use crate::reading::wrong::{Wrong, both};
use doc::{DocFault, DocId, Source};
use op::{Body, Content, CopyIds, Messages, Msg, Op, Operations};
use serde_json::Value;
use std::alloc::Global;

/// The items of an array.
fn items_of(value: &Value) -> Result<&[Value], Wrong>
    ensures { IfOk result (λ items. view value.now ≡ spec.list_data (map view items.now)) }
{
    match value {
        Value::Array(items) => Ok(items.as_slice()),
        _ => Err(Wrong::Wanted("an array is wanted")),
    }
}

/// The word that an array begins with, and the items after it.
pub(crate) fn worded(value: &Value) -> Result<(&str, &[Value]), Wrong>
    ensures { IfOk result (λ w. view value.now ≡ spec.worded w.0.now (map view w.1.now)) }
{
    match items_of(value)?.split_first() {
        Some((first, rest)) => Ok((text_of(first)?, rest)),
        None => Err(Wrong::Wanted("an array has no items")),
    }
}

pub(crate) fn text_of(value: &Value) -> Result<&str, Wrong>
    ensures { IfOk result (λ text. view value.now ≡ string text.now) }
{
    match value {
        Value::String(text) => Ok(text.as_str()),
        _ => Err(Wrong::Wanted("a text is wanted")),
    }
}

pub(crate) fn natural_of(value: &Value) -> Result<u64, Wrong>
    ensures { IfOk result (λ n. view value.now ≡ spec.natural n) }
{
    match value.as_u64() {
        Some(number) => Ok(number),
        None => Err(Wrong::Wanted("a number from 0 up is wanted")),
    }
}

fn integer_of(value: &Value) -> Result<i64, Wrong>
    ensures { IfOk result (λ z. view value.now ≡ spec.integer z) }
{
    if let Some(number) = value.as_u64() {
        return if number > i64::MAX as u64 {
            Err(Wrong::Wanted("a number is too large"))
        } else {
            Ok(number as i64)
        };
    }
    match value.as_i64() {
        Some(number) => if number < 0 {
            Ok(number)
        } else {
            Err(Wrong::Wanted("a number is wanted"))
        },
        None => Err(Wrong::Wanted("a number is wanted")),
    }
}

pub(crate) fn copy_of(value: &Value) -> Result<u32, Wrong>
    ensures { IfOk result (λ id. view value.now ≡ spec.natural id) }
{
    let number = natural_of(value)?;
    if number > u32::MAX as u64 {
        return Err(Wrong::Wanted("the id of a copy is wanted"));
    }
    Ok(number as u32)
}

pub(crate) fn wrong_of(fault: DocFault, wanted: &'static str) -> Wrong {
    match fault {
        DocFault::NoMemory => Wrong::NoMemory,
        _ => Wrong::Wanted(wanted),
    }
}

pub(crate) fn id_of(alloc: Global, value: &Value) -> Result<DocId, Wrong>
    ensures { IfOk result (λ id. view value.now ≡ string id) }
{
    match DocId::new(alloc, text_of(value)?) {
        Ok(id) => Ok(id),
        Err(fault) => Err(wrong_of(fault, "the id of a document is wanted")),
    }
}

pub(crate) fn source_of(alloc: Global, value: &Value) -> Result<Source, Wrong>
    ensures { IfOk result (λ source. view value.now ≡ string source) }
{
    match Source::new(alloc, text_of(value)?) {
        Ok(source) => Ok(source),
        Err(fault) => Err(wrong_of(fault, "the source of a document is wanted")),
    }
}

// ---- operations

#[tactic(auto, unfolding(crate::specs::Items::op_data))]
fn op_of(alloc: Global, value: &Value) -> Result<Op, Wrong>
    ensures { IfOk result (λ o. view value.now ≡ spec.op_data o) }
{
    let (word, rest) = worded(value)?;
    match rest {
        [seq, term, version, texts @ ..] => Ok(Op {
            seq: natural_of(seq)?,
            term: natural_of(term)?,
            version: natural_of(version)?,
            body: body_of(alloc, word, texts)?,
        }),
        _ => Err(Wrong::Wanted("an operation is wanted")),
    }
}

fn body_of(alloc: Global, word: &str, texts: &[Value]) -> Result<Body, Wrong>
    ensures { IfOk result (λ b. (word.now ≡ spec.body_word b) × (map view texts.now ≡ spec.body_texts b)) }
{
    match (word, texts) {
        ("index", [id, source]) => {
            let (id, source) = both(id_of(alloc, id)?, source_of(alloc, source))?;
            Ok(Body::Index(id, source))
        }
        ("delete", [id]) => Ok(Body::Delete(id_of(alloc, id)?)),
        ("noop", []) => Ok(Body::NoOp),
        _ => Err(Wrong::Wanted("an operation is wanted")),
    }
}

#[tactic(auto, unfolding(crate::specs::Items::ops_data))]
pub(crate) fn ops_of(alloc: Global, value: &Value) -> Result<Operations, Wrong>
    ensures { IfOk result (λ os. view value.now ≡ spec.ops_data os) }
{
    let items = items_of(value)?;
    let mut found = Vec::new(alloc);
    'ops: for item in items {
        found.push(op_of(alloc, item)?)?;
    }
    Ok(Operations::from_vec(found))
}

// ---- messages

/// The ids of copies, in ascending order.
#[tactic(auto, unfolding(crate::specs::Items::ids_data))]
fn ids_of(alloc: Global, value: &Value) -> Result<CopyIds, Wrong>
    ensures { IfOk result (λ ids. view value.now ≡ spec.ids_data ids) }
{
    let items = items_of(value)?;
    let found = set_of(alloc, items)?;
    if are_ids(items, found.as_slice())? {
        Ok(found)
    } else {
        Err(Wrong::Wanted("ids of copies in ascending order are wanted"))
    }
}

fn set_of(alloc: Global, items: &[Value]) -> Result<CopyIds, Wrong> {
    let mut found = CopyIds::none(alloc);
    for item in items {
        found = found.with(alloc, copy_of(item)?)?;
    }
    Ok(found)
}

/// Whether the items are these ids, one after the other.
fn are_ids(items: &[Value], ids: &[u32]) -> Result<bool, Wrong>
    ensures { IfOk result (λ are. IsTrue are → map view items.now ≡ map spec.natural ids.now) }
{
    if items.len() != ids.len() {
        return Ok(false);
    }
    'ids: for place in 0..items.len() {
        if copy_of(&items[place])? != ids[place] {
            return Ok(false);
        }
    }
    Ok(true)
}

fn content_of(alloc: Global, word: &str, said: &[Value]) -> Result<Content, Wrong>
    ensures { IfOk result (λ c. (word.now ≡ spec.content_word c) × (map view said.now ≡ spec.content_data c)) }
{
    match (word, said) {
        ("op", [known, op]) => Ok(Content::Op(integer_of(known)?, op_of(alloc, op)?)),
        ("ack", [seq, local]) => Ok(Content::Ack(integer_of(seq)?, integer_of(local)?)),
        ("resync", [known, tail]) => Ok(Content::Resync(integer_of(known)?, ops_of(alloc, tail)?)),
        ("promoted", [ids]) => Ok(Content::Promoted(ids_of(alloc, ids)?)),
        ("recover", [all]) => Ok(Content::Recover(ops_of(alloc, all)?)),
        (word, [id]) => named_of(word, id),
        _ => Err(Wrong::Wanted("a message is wanted")),
    }
}

/// What a message says that names one copy.
fn named_of(word: &str, id: &Value) -> Result<Content, Wrong>
    ensures { IfOk result (λ c. (word.now ≡ spec.content_word c) × (view id.now ∷ [] ≡ spec.content_data c)) }
{
    match word {
        "track" => Ok(Content::Track(copy_of(id)?)),
        "synced" => Ok(Content::Synced(copy_of(id)?)),
        "fail" => Ok(Content::Fail(copy_of(id)?)),
        "removed" => Ok(Content::Removed(copy_of(id)?)),
        _ => Err(Wrong::Wanted("a message is wanted")),
    }
}

#[tactic(auto, unfolding(crate::specs::Items::message_data))]
pub(crate) fn message_of(alloc: Global, value: &Value) -> Result<Msg, Wrong>
    ensures { IfOk result (λ m. view value.now ≡ spec.message_data m) }
{
    let (word, rest) = worded(value)?;
    match rest {
        [from, to, term, said @ ..] => Ok(Msg {
            from: copy_of(from)?,
            to: copy_of(to)?,
            term: natural_of(term)?,
            content: content_of(alloc, word, said)?,
        }),
        _ => Err(Wrong::Wanted("a message is wanted")),
    }
}

#[tactic(auto, unfolding(crate::specs::Items::messages_data))]
pub(crate) fn messages_of(alloc: Global, value: &Value) -> Result<Messages, Wrong>
    ensures { IfOk result (λ ms. view value.now ≡ spec.messages_data ms) }
{
    let items = items_of(value)?;
    let mut found = Vec::new(alloc);
    'messages: for item in items {
        found.push(message_of(alloc, item)?)?;
    }
    Ok(Messages::from_vec(found))
}
