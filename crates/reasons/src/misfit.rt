//! Which value at a path of a document doesn't fit what stands there, and why.

use crate::cut;
use doc::{Converted, Kind, Mapping, Subject, convert};
use serde_json::{Map, Value};
use std::alloc::{AllocError, Global};
use std::slice;

/// How many objects may nest in one another.
const LEVELS: usize = 20;

/// What is wrong with the first value at a path that doesn't fit, nothing where each fits.
pub(crate) fn misfit(
    alloc: Global,
    mapping: &Mapping,
    path: &str,
    document: &Value,
) -> Result<Option<String>, AllocError> {
    match document {
        Value::Object(members) => misfit_in(alloc, mapping, LEVELS, path, path, members),
        _ => Ok(None),
    }
}

/// What is wrong with the first misfit among the members of an object; `rest` is what the keys above them leave of the path.
#[cycle(misfits)]
fn misfit_in(
    alloc: Global,
    mapping: &Mapping,
    room: usize,
    path: &str,
    rest: &str,
    members: &Map<String, Value>,
) -> Result<Option<String>, AllocError> {
    for (key, value) in members {
        if let Some(behind) = rest.strip_prefix(key.as_str()) {
            let found = misfit_behind(alloc, mapping, room, path, behind, value)?;
            if found.is_some() {
                return Ok(found);
            }
        }
    }
    Ok(None)
}

/// What is wrong with the first misfit in the value of a key. A key may have points, so several may begin the same path.
#[cycle(misfits)]
fn misfit_behind(
    alloc: Global,
    mapping: &Mapping,
    room: usize,
    path: &str,
    behind: &str,
    value: &Value,
) -> Result<Option<String>, AllocError> {
    if behind.is_empty() {
        return misfit_at(alloc, mapping.subject(path), path, value);
    }
    if room == 0 {
        return Ok(None);
    }
    match behind.strip_prefix(".") {
        Some(rest) => misfit_within(alloc, mapping, room - 1, path, rest, value),
        None => Ok(None),
    }
}

/// What is wrong with the first misfit in the objects that a value has.
#[cycle(misfits)]
fn misfit_within(
    alloc: Global,
    mapping: &Mapping,
    room: usize,
    path: &str,
    rest: &str,
    value: &Value,
) -> Result<Option<String>, AllocError> {
    for part in parts(value) {
        if let Value::Object(members) = part {
            let found = misfit_in(alloc, mapping, room, path, rest, members)?;
            if found.is_some() {
                return Ok(found);
            }
        }
    }
    Ok(None)
}

/// What is wrong with the first part of a value at the path that doesn't fit.
fn misfit_at(
    alloc: Global,
    subject: Option<Subject>,
    path: &str,
    value: &Value,
) -> Result<Option<String>, AllocError> {
    for part in parts(value) {
        if !fits(alloc, subject, part)? {
            return Ok(Some(why_not(alloc, subject, path, part)?));
        }
    }
    Ok(None)
}

fn fits(alloc: Global, subject: Option<Subject>, value: &Value) -> Result<bool, AllocError> {
    match subject {
        Some(Subject::Values(kind)) => match convert(alloc, kind, value)? {
            Converted::Wrong => Ok(false),
            _ => Ok(true),
        },
        Some(Subject::Object) => Ok(matches!(value, Value::Null | Value::Object(_))),
        None => Ok(!matches!(value, Value::Array(_))),
    }
}

fn why_not(
    alloc: Global,
    subject: Option<Subject>,
    path: &str,
    value: &Value,
) -> Result<String, AllocError> {
    let shown = cut(alloc, &value.to_string(alloc)?)?;
    if let Some(Subject::Values(kind)) = subject {
        let kind = kind_name(kind);
        return format!(in alloc; "field {path}: {shown} is no {kind}");
    }
    match value {
        Value::Array(_) => format!(in alloc; "{path}: {shown} is an array within an array"),
        _ => format!(in alloc; "{path}: {shown} stands where an object is wanted"),
    }
}

fn kind_name(kind: Kind) -> &'static str {
    match kind {
        Kind::Keyword =>
            "keyword (a text, a whole number or a truth value, of at most 32,766 bytes)",
        Kind::Text => "text (a text, a whole number or a truth value)",
        Kind::Long => "long (a whole number within 64 bits)",
        Kind::Boolean => "boolean (true or false)",
    }
}

fn parts(value: &Value) -> &[Value] {
    match value {
        Value::Array(items) => items,
        _ => slice::from_ref(value),
    }
}
