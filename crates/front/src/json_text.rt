//! Reading a text as JSON, and spelling a text in JSON.
ghost use Rattle.std.specs.Prelude.{◌≡◌, ◌↔◌, [], ◌∷◌, ◌++◌, IsTrue, option_map, IfOk, OnOk, string_bytes};
ghost use Rattle.json.specs.Print as json;
ghost use Rattle.serde_json.specs.Read.{read};
ghost use Rattle.serde_json.specs.View.{view};

use serde_json::Value;
use std::alloc::{AllocError, Global};

/// The value of a text, or none if the text isn't JSON.
pub(crate) fn value_in(alloc: Global, text: &str) -> Result<Option<Value>, AllocError>
    ensures { IfOk result (λ v. option_map view v ≡ read text.now) }
{
    match Value::from_str(alloc, text) {
        Ok(value) => Ok(Some(value)),
        Err(fault) => {
            let is_memory = fault.is_memory();
            drop(fault);
            if is_memory { Err(AllocError) } else { Ok(None) }
        }
    }
}

/// Appends a text as a JSON string.
pub(crate) fn push_quoted(alloc: Global, page: &mut String, text: &str) -> Result<(), AllocError>
    ensures { OnOk result (string_bytes page.new ≡ string_bytes page.old ++ json.quoted text.now) }
{
    if is_plain(text) {
        page.push_str("\"")?;
        page.push_str(text)?;
        page.push_str("\"")
    } else {
        let escaped = Value::try_from_str(alloc, text)?.to_string(alloc)?;
        page.push_str(escaped.as_str())
    }
}

/// Whether JSON spells a text unchanged between quotes.
fn is_plain(text: &str) -> bool
    ensures { IsTrue result ↔ (json.escape text.now ≡ text.now) }
{
    for byte in text.as_bytes() {
        if !is_plain_byte(*byte) {
            return false;
        }
    }
    true
}

#[tactic(auto, unfolding(json::specs::Print::escape_byte))]
fn is_plain_byte(byte: u8) -> bool
    ensures { IsTrue result ↔ (json.escape_byte byte ≡ byte ∷ []) }
{
    byte >= 32 && byte != b'"' && byte != b'\\'
}
