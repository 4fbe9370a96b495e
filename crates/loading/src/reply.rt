//! What the server says of each item of a bulk.

use crate::action::lone_member;
use serde_json::Value;
use std::alloc::{AllocError, Global};

/// How many bytes of a page are shown that gives no reason.
const MOST_SHOWN: usize = 200;

/// How the body of a page begins where no item is refused: its keys stand in byte order, without spaces.
const NONE_REFUSED: &[u8] = b"{\"errors\":false,";

/// What became of an item.
#[derive(Drop)]
pub(crate) enum Verdict {
    Done,
    Refused { status: u64, reason: String },
}

/// What became of each item, if the body of a page says it of so many.
pub(crate) fn verdicts(
    alloc: Global,
    body: &[u8],
    count: usize,
) -> Result<Option<Vec<Verdict>>, AllocError> {
    if body.starts_with(NONE_REFUSED) {
        return Ok(Some(all_done(alloc, count)?));
    }
    let Some(value) = value_in(alloc, body)? else {
        return Ok(None);
    };
    let Some(items) = value.get("items").and_then(Value::as_array) else {
        return Ok(None);
    };
    if items.len() != count {
        return Ok(None);
    }
    let mut verdicts = Vec::with_capacity(alloc, count)?;
    for item in items {
        match verdict_of(alloc, item)? {
            Some(verdict) => verdicts.push(verdict)?,
            None => return Ok(None),
        }
    }
    Ok(Some(verdicts))
}

fn all_done(alloc: Global, count: usize) -> Result<Vec<Verdict>, AllocError> {
    let mut verdicts = Vec::with_capacity(alloc, count)?;
    for _ in 0..count {
        verdicts.push(Verdict::Done)?;
    }
    Ok(verdicts)
}

/// A delete of what isn't there has status 404 and no error: it leaves what it is to leave.
fn verdict_of(alloc: Global, item: &Value) -> Result<Option<Verdict>, AllocError> {
    let Some((_, outcome)) = lone_member(item) else {
        return Ok(None);
    };
    let Some(status) = outcome.get("status").and_then(Value::as_u64) else {
        return Ok(None);
    };
    let Some(error) = outcome.get("error") else {
        return Ok(if status < 400 || status == 404 {
            Some(Verdict::Done)
        } else {
            None
        });
    };
    let reason = reason_in(alloc, error)?;
    Ok(Some(Verdict::Refused { status, reason }))
}

/// Why a page refuses a request: its reason, or how it begins where it has none.
pub(crate) fn page_reason(alloc: Global, body: &[u8]) -> Result<String, AllocError> {
    if let Some(value) = value_in(alloc, body)? {
        if let Some(error) = value.get("error") {
            return reason_in(alloc, error);
        }
    }
    String::from_utf8_lossy(alloc, body.get(..MOST_SHOWN).unwrap_or(body))
}

fn reason_in(alloc: Global, error: &Value) -> Result<String, AllocError> {
    match error.get("reason").and_then(Value::as_str) {
        Some(reason) => String::from_str(alloc, reason),
        None => error.to_string(alloc),
    }
}

fn value_in(alloc: Global, body: &[u8]) -> Result<Option<Value>, AllocError> {
    match Value::from_slice(alloc, body) {
        Ok(value) => Ok(Some(value)),
        Err(error) if error.is_memory() => Err(AllocError),
        Err(_) => Ok(None),
    }
}
