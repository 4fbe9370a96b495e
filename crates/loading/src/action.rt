//! Reading what a line is: an action, or a document that has its id in a field.

use serde_json::{Map, Value};
use std::alloc::{AllocError, Global};

/// How many bytes the server takes as a document, and an action line has here.
pub(crate) const MOST_BYTES: u64 = 65_536;

/// How many bytes an id has.
const MOST_ID: usize = 512;

/// The keys of an action that the server reads.
const KEYS: [&str; 4] = ["_id", "_index", "if_primary_term", "if_seq_no"];

/// What an action line asks for.
#[derive(Drop)]
pub(crate) struct Action {
    pub(crate) id: String,
    /// Whether a document follows.
    pub(crate) has_document: bool,
}

/// What became of reading a line.
#[derive(Drop)]
pub(crate) enum Reading<T> {
    Good(T),
    Unfit(Misfit),
}

/// Why a line is no action.
#[derive(Drop)]
pub(crate) struct Misfit {
    pub(crate) reason: String,
    /// Whether the next line is its document.
    pub(crate) has_document: bool,
}

/// Reads an action line.
pub(crate) fn action_of(alloc: Global, line: &str) -> Result<Reading<Action>, AllocError> {
    let value = match value_of(alloc, line)? {
        Reading::Good(value) => value,
        Reading::Unfit(misfit) => return Ok(Reading::Unfit(misfit)),
    };
    let Some((verb, Value::Object(members))) = lone_member(&value) else {
        return unfit(alloc, NO_ACTION, false);
    };
    let has_document = match verb {
        "index" | "create" => true,
        "delete" => false,
        "update" => return unfit(alloc, "an update isn't taken: load whole documents", true),
        _ => return unfit(alloc, NO_ACTION, false),
    };
    if let Some(reason) = misfit_of(alloc, members)? {
        return Ok(Reading::Unfit(Misfit {
            reason,
            has_document,
        }));
    }
    match members.get("_id") {
        Some(Value::String(id)) => Ok(Reading::Good(Action {
            id: id.clone()?,
            has_document,
        })),
        Some(_) => unfit(alloc, "the _id of the action is no text", has_document),
        None => unfit(alloc, NO_ID, has_document),
    }
}

const NO_ACTION: &str =
    "it's no action, an object with the one key index, create or delete: give --id FIELD where each line is a document";

const NO_ID: &str =
    "the action has no _id, and would write another document each time it is loaded";

/// The one member of an object.
pub(crate) fn lone_member(value: &Value) -> Option<(&str, &Value)> {
    let members = value.as_object()?;
    if members.len() != 1 {
        return None;
    }
    let (key, of) = members.iter().next()?;
    Some((key.as_str(), of))
}

/// Names a key of an action that isn't taken.
fn misfit_of(alloc: Global, members: &Map<String, Value>) -> Result<Option<String>, AllocError> {
    for key in members.keys() {
        if !KEYS.contains(&key.as_str()) {
            let reason = format!(in alloc; "the action has the key {key:?}, which isn't taken")?;
            return Ok(Some(reason));
        }
    }
    Ok(None)
}

/// Reads the id of a document, which a field of it has.
pub(crate) fn id_of(alloc: Global, field: &str, line: &str) -> Result<Reading<String>, AllocError> {
    let value = match value_of(alloc, line)? {
        Reading::Good(value) => value,
        Reading::Unfit(misfit) => return Ok(Reading::Unfit(misfit)),
    };
    let Value::Object(members) = &value else {
        return unfit(alloc, "it's no JSON object", false);
    };
    let Some(found) = members.get(field) else {
        let reason = format!(in alloc; "it has no field {field:?} for its id")?;
        return unfit(alloc, &reason, false);
    };
    match id_in(alloc, found)? {
        Some(id) if id.len() > MOST_ID || id.is_empty() => {
            let bytes = id.len();
            let reason = format!(in alloc;
                "its field {field:?} has {bytes} bytes, and an id has 1 to 512"
            )?;
            unfit(alloc, &reason, false)
        }
        Some(id) => Ok(Reading::Good(id)),
        None => {
            let reason = format!(in alloc;
                "its field {field:?} is no text and no whole number within 64 bits, so it's no id"
            )?;
            unfit(alloc, &reason, false)
        }
    }
}

/// The id that a value is: a text, or a whole number as its digits.
fn id_in(alloc: Global, value: &Value) -> Result<Option<String>, AllocError> {
    match value {
        Value::String(text) => Ok(Some(text.clone()?)),
        Value::Number(number) if !number.is_f64() => { Ok(Some(format!(in alloc; "{number}")?)) }
        _ => Ok(None),
    }
}

/// The value of a JSON text, or where it is none.
fn value_of(alloc: Global, line: &str) -> Result<Reading<Value>, AllocError> {
    match Value::from_str(alloc, line) {
        Ok(value) => Ok(Reading::Good(value)),
        Err(error) if error.is_memory() => Err(AllocError),
        Err(error) => {
            let at = error.column();
            let reason = format!(in alloc; "it's no JSON: {error} (byte {at})")?;
            unfit(alloc, &reason, false)
        }
    }
}

/// Where a document is no JSON.
pub(crate) fn json_flaw(alloc: Global, document: &str) -> Result<Option<String>, AllocError> {
    match value_of(alloc, document)? {
        Reading::Good(_) => Ok(None),
        Reading::Unfit(misfit) => Ok(Some(misfit.reason)),
    }
}

fn unfit<T>(alloc: Global, reason: &str, has_document: bool) -> Result<Reading<T>, AllocError> {
    Ok(Reading::Unfit(Misfit {
        reason: String::from_str(alloc, reason)?,
        has_document,
    }))
}
