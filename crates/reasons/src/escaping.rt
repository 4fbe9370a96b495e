//! Texts of strangers in lines that a terminal may show.

use std::alloc::{AllocError, Global};

/// A text in which each character is escaped that would change more of a terminal than its own place.
pub fn escaped(alloc: Global, text: &str) -> Result<String, AllocError> {
    let mut out = String::new(alloc);
    for c in text.chars() {
        if reaches_further(c) {
            let code = c as u32;
            out.push_str(&format!(in alloc; "\\u{{{code:x}}}")?)?;
        } else {
            out.push(c)?;
        }
    }
    Ok(out)
}

/// Whether none of its characters is escaped.
pub fn is_plain(text: &str) -> bool {
    !text.chars().any(reaches_further)
}

/// Control characters, the ends of lines and paragraphs, and what turns the direction of text (UAX #9, section 2).
fn reaches_further(c: char) -> bool {
    c.is_control()
        || matches!(
            c,
            '\u{61c}' | '\u{200e}' | '\u{200f}' | '\u{2028}'..='\u{202e}' | '\u{2066}'..='\u{2069}'
        )
}
