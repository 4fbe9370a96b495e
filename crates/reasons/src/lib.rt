//! Why a document is refused, in words for whoever wrote it.
#![tactic(auto)]

mod escaping;
mod misfit;

use doc::{DocFault, Mapping};
pub use escaping::{escaped, is_plain};
use misfit::misfit;
use serde_json::Value;
use std::alloc::{AllocError, Global};

/// How many characters of a value are shown.
const SHOWN: usize = 60;

/// Why the text of a document, or of a mapping, is refused, for whoever knows its fault: where it isn't JSON the place, and of a value that doesn't fit
/// the path and the value, where the mapping is known.
pub fn document_reason(
    alloc: Global,
    fault: &DocFault,
    mapping: Option<&Mapping>,
    document: &str,
) -> Result<String, AllocError> {
    match fault {
        DocFault::NotJson => not_json(alloc, document),
        DocFault::WrongValue(path) => wrong_value(alloc, path, mapping, document),
        DocFault::TooLarge => {
            let len = document.len();
            format!(in alloc; "the document has {len} bytes; at most 65,536 are taken")
        }
        _ => format!(in alloc; "{fault}"),
    }
}

/// Where a text isn't JSON, as its reader says it.
fn not_json(alloc: Global, document: &str) -> Result<String, AllocError> {
    match Value::from_str(alloc, document) {
        Ok(_) => String::from_str(alloc, "not JSON"),
        Err(error) => {
            let at = error.column();
            format!(in alloc; "not JSON: {error} (byte {at} of the JSON)")
        }
    }
}

/// The first value at a path that doesn't fit what stands there, and why it doesn't.
fn wrong_value(
    alloc: Global,
    path: &str,
    mapping: Option<&Mapping>,
    document: &str,
) -> Result<String, AllocError> {
    if let (Some(mapping), Ok(document)) = (mapping, Value::from_str(alloc, document)) {
        if let Some(why) = misfit(alloc, mapping, path, &document)? {
            return Ok(why);
        }
    }
    format!(in alloc; "a value at {path} doesn't fit")
}

/// The first characters of a text.
pub fn cut(alloc: Global, whole: &str) -> Result<String, AllocError> {
    let mut shown = String::new(alloc);
    for (count, c) in whole.chars().enumerate() {
        if count == SHOWN {
            shown.push_str("...")?;
            return Ok(shown);
        }
        shown.push(c)?;
    }
    Ok(shown)
}
