//! Why a body is no bulk, in words that name the line and the key.

use crate::lines::{action_of, check_type, is_blank, is_line_key, line_of, members_of, only};
use serde_json::{Map, Value};
use std::alloc::{AllocError, Global};
use wire::text_of;

/// The lines of a body that were looked at.
#[derive(Drop)]
struct Seen {
    lines: u64,
    /// Whether the next line is the document of an action.
    is_source: bool,
    has_action: bool,
}

/// Why a body is no bulk. The text names the first line with a fault, counted from 1.
pub(crate) fn bulk_reason(
    alloc: Global,
    greets: bool,
    index: Option<&str>,
    body: &[u8],
) -> Result<String, AllocError> {
    let mut seen = Seen {
        lines: 0,
        is_source: false,
        has_action: false,
    };
    let mut last: Option<&[u8]> = None;
    for text in body.split(|&b| b == b'\n') {
        if let Some(line) = last {
            if let Some(why) = seen.reason_in(alloc, greets, index, line)? {
                return Ok(why);
            }
        }
        last = Some(text);
    }
    seen.end_reason(alloc, last.unwrap_or(b""))
}

impl Seen {
    /// What is wrong with the next line, if anything is.
    fn reason_in(
        &mut self,
        alloc: Global,
        greets: bool,
        index: Option<&str>,
        line: &[u8],
    ) -> Result<Option<String>, AllocError> {
        self.lines = self.lines.saturating_add(1);
        if self.is_source {
            self.is_source = false;
            return Ok(None);
        }
        if greets && is_blank(line) {
            return Ok(None);
        }
        self.has_action = true;
        match line_of(alloc, greets, index, line) {
            Ok(said) => {
                self.is_source = said.action.takes_source();
                drop(said);
                Ok(None)
            }
            Err(fault) => {
                drop(fault);
                let why = line_reason(alloc, greets, index.is_some(), line)?;
                let number = self.lines;
                Ok(Some(format!(in alloc; "line {number}: {why}")?))
            }
        }
    }

    /// What is wrong with the end of the body, of which this stands after the last line feed.
    fn end_reason(&self, alloc: Global, rest: &[u8]) -> Result<String, AllocError> {
        let lines = self.lines;
        if !rest.is_empty() {
            let number = lines.saturating_add(1);
            return format!(in alloc;
                "line {number}: a line of a bulk ends with a line feed, the last one too"
            );
        }
        if self.is_source {
            return format!(in alloc; "line {lines}: the document of this action is missing");
        }
        String::from_str(
            alloc,
            "the body has no action: a bulk has a line of JSON for each, and one more for the document of index and create",
        )
    }
}

/// Why a line is no action.
fn line_reason(
    alloc: Global,
    greets: bool,
    has_index: bool,
    line: &[u8],
) -> Result<String, AllocError> {
    let Some(text) = text_of(line) else {
        return String::from_str(alloc, "this isn't UTF-8");
    };
    match Value::from_str(alloc, text) {
        Ok(value) => action_reason(alloc, greets, has_index, &value),
        Err(error) => format!(in alloc; "this isn't JSON: {error}"),
    }
}

/// Why a JSON value is no action.
fn action_reason(
    alloc: Global,
    greets: bool,
    has_index: bool,
    value: &Value,
) -> Result<String, AllocError> {
    const SHAPE: &str =
        "an action is an object with one key, index, create or delete, whose value is an object";
    let Ok(members) = members_of(value) else {
        return String::from_str(alloc, SHAPE);
    };
    let Ok((name, said)) = only(members) else {
        return String::from_str(alloc, SHAPE);
    };
    if action_of(name).is_err() {
        return format!(in alloc; "the action {name} isn't known; index, create and delete are");
    }
    let Ok(keys) = members_of(said) else {
        return String::from_str(alloc, SHAPE);
    };
    for (key, _) in keys {
        if !is_line_key(greets, key.as_str()) {
            return format!(in alloc;
                "the key {key} isn't known; _id, _index, if_seq_no and if_primary_term are"
            );
        }
    }
    String::from_str(alloc, value_reason(has_index, keys))
}

/// Which value of an action's keys is at fault.
fn value_reason(has_index: bool, keys: &Map<String, Value>) -> &'static str {
    if !is_text(keys.get("_id")) {
        return "_id has to be there, and to be a text";
    }
    let index = keys.get("_index");
    if !is_text(index) && (index.is_some() || !has_index) {
        return "_index has to be a text, and to be there where the path names no index";
    }
    if check_type(keys.get("_type")).is_err() {
        return "_type can only be _doc";
    }
    "if_seq_no and if_primary_term have to be whole numbers, to stand together, and not with create"
}

fn is_text(value: Option<&Value>) -> bool {
    matches!(value, Some(Value::String(_)))
}
