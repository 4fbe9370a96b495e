//! What a node was asked, read from JSON.
ghost use Rattle.std.specs.Prelude.{◌≡◌, [], ◌∷◌, ◌++◌, map, codes, Some, IfOk};
ghost use Rattle.serde_json.specs.View.{view};
ghost use Rattle.journals.specs.Asked as spec;
ghost use Rattle.journals.specs.Items.{natural};

use crate::reading::items::{copy_of, id_of, message_of, natural_of, source_of, worded};
use crate::reading::wrong::{Wrong, both};
use master::Request;
use replica::{Condition, Input, OpType, Write, Writes};
use serde_json::Value;
use std::alloc::Global;

/// What a copy was asked.
#[tactic(auto, unfolding(crate::specs::Asked::input_data))]
pub(crate) fn input_of(alloc: Global, value: &Value) -> Result<Input, Wrong>
    ensures { IfOk result (λ i. view value.now ≡ spec.input_data i) }
{
    let (word, rest) = worded(value)?;
    match (word, rest) {
        ("get", [id]) => Ok(Input::Get(id_of(alloc, id)?)),
        ("take", [message]) => Ok(Input::Take(message_of(alloc, message)?)),
        ("bulk", writes) => Ok(Input::Bulk(writes_of(alloc, writes)?)),
        ("report", [id]) => Ok(Input::Report(copy_of(id)?)),
        ("refresh", []) => Ok(Input::Refresh),
        ("restart", []) => Ok(Input::Restart),
        _ => Ok(Input::Write(write_of(alloc, word, rest)?)),
    }
}

/// The writes of a bulk, each an array as where it is asked alone.
fn writes_of(alloc: Global, items: &[Value]) -> Result<Writes, Wrong>
    ensures { IfOk result (λ ws. map view items.now ≡ map spec.client_data ws) }
{
    let mut found = Vec::new(alloc);
    'writes: for item in items {
        found.push(client_of(alloc, item)?)?;
    }
    match Writes::of(found) {
        Some(writes) => Ok(writes),
        None => Err(Wrong::Wanted("a bulk of 1 to 1,024 writes is wanted")),
    }
}

#[tactic(auto, unfolding(crate::specs::Asked::client_data))]
fn client_of(alloc: Global, value: &Value) -> Result<Write, Wrong>
    ensures { IfOk result (λ w. view value.now ≡ spec.client_data w) }
{
    let (word, rest) = worded(value)?;
    write_of(alloc, word, rest)
}

fn write_of(alloc: Global, word: &str, rest: &[Value]) -> Result<Write, Wrong>
    ensures { IfOk result (λ w. (word.now ≡ spec.write_word w.kind) × (map view rest.now ≡ spec.write_data w.id w.kind)) }
{
    match (word, rest) {
        ("put", [id, source]) => put_of(alloc, None, id, source),
        ("putif", [seq, term, id, source]) => {
            let condition = condition_of(seq, term)?;
            put_of(alloc, Some(condition), id, source)
        }
        ("create", [id, source]) => create_of(alloc, id, source),
        ("del", [id]) => delete_of(alloc, None, id),
        ("delif", [seq, term, id]) => {
            let condition = condition_of(seq, term)?;
            delete_of(alloc, Some(condition), id)
        }
        _ => Err(Wrong::Wanted("no copy is asked this")),
    }
}

fn condition_of(seq: &Value, term: &Value) -> Result<Condition, Wrong>
    ensures { IfOk result (λ c. view seq.now ∷ view term.now ∷ [] ≡ spec.condition_data (Some c)) }
{
    Ok(Condition {
        seq: natural_of(seq)?,
        term: natural_of(term)?,
    })
}

fn put_of(
    alloc: Global,
    condition: Option<Condition>,
    id: &Value,
    source: &Value,
) -> Result<Write, Wrong>
    ensures { IfOk result (λ w. (spec.set_word condition ≡ spec.write_word w.kind) × (spec.condition_data condition ++ (view id.now ∷ view source.now ∷ []) ≡ spec.write_data w.id w.kind)) }
{
    let (id, source) = both(id_of(alloc, id)?, source_of(alloc, source))?;
    Ok(Write {
        id,
        kind: OpType::Index(source, condition),
    })
}

fn create_of(alloc: Global, id: &Value, source: &Value) -> Result<Write, Wrong>
    ensures { IfOk result (λ w. (codes "create" ≡ spec.write_word w.kind) × (view id.now ∷ view source.now ∷ [] ≡ spec.write_data w.id w.kind)) }
{
    let (id, source) = both(id_of(alloc, id)?, source_of(alloc, source))?;
    Ok(Write {
        id,
        kind: OpType::Create(source),
    })
}

fn delete_of(alloc: Global, condition: Option<Condition>, id: &Value) -> Result<Write, Wrong>
    ensures { IfOk result (λ w. (spec.delete_word condition ≡ spec.write_word w.kind) × (spec.condition_data condition ++ (view id.now ∷ []) ≡ spec.write_data w.id w.kind)) }
{
    Ok(Write {
        id: id_of(alloc, id)?,
        kind: OpType::Delete(condition),
    })
}

/// What the master was asked.
#[tactic(auto, unfolding(crate::specs::Asked::request_data))]
pub(crate) fn request_of(value: &Value) -> Result<Request, Wrong>
    ensures { IfOk result (λ r. view value.now ≡ spec.request_data r) }
{
    let (word, rest) = worded(value)?;
    match (word, rest) {
        ("allocate", []) => Ok(Request::Allocate),
        ("promote", [id]) => Ok(Request::Promote(copy_of(id)?)),
        ("synced", said) => {
            let (term, id) = told_of(said)?;
            Ok(Request::Synced(term, id))
        }
        ("fail", said) => {
            let (term, id) = told_of(said)?;
            Ok(Request::Fail(term, id))
        }
        _ => Err(Wrong::Wanted("no master is asked this")),
    }
}

/// A term, and the id of a copy.
fn told_of(items: &[Value]) -> Result<(u64, u32), Wrong>
    ensures { IfOk result (λ told. map view items.now ≡ natural told.0 ∷ natural told.1 ∷ []) }
{
    match items {
        [term, id] => Ok((natural_of(term)?, copy_of(id)?)),
        _ => Err(Wrong::Wanted("no master is asked this")),
    }
}
