//! Texts of a picture.

use std::alloc::{AllocError, Global};

/// A text in lines of at most `width` characters, broken at spaces where there are some. There are at most `most` lines; the last ends with `…` where more is left.
pub(crate) fn wrapped(
    alloc: Global,
    text: &str,
    width: usize,
    most: usize,
) -> Result<Vec<String>, AllocError> {
    let mut lines = Vec::new(alloc);
    let mut line = String::new(alloc);
    for word in text.split(' ') {
        let room = width.saturating_sub(line.chars().count());
        if !line.is_empty() && word.chars().count() >= room {
            lines.push(line)?;
            line = String::new(alloc);
        } else if !line.is_empty() {
            line.push_str(" ")?;
        }
        line = add_word(alloc, &mut lines, line, word, width)?;
    }
    lines.push(line)?;
    shortened(alloc, lines, width, most)
}

/// Adds a word to a line. A word that is longer than a line is broken anywhere.
fn add_word(
    alloc: Global,
    lines: &mut Vec<String>,
    begun: String,
    word: &str,
    width: usize,
) -> Result<String, AllocError> {
    let mut line = begun;
    let mut room = width.saturating_sub(line.chars().count());
    for c in word.chars() {
        if room == 0 {
            lines.push(line)?;
            line = String::new(alloc);
            room = width;
        }
        line.push(if c.is_control() { '\u{fffd}' } else { c })?;
        room = room.saturating_sub(1);
    }
    Ok(line)
}

fn shortened(
    alloc: Global,
    lines: Vec<String>,
    width: usize,
    most: usize,
) -> Result<Vec<String>, AllocError> {
    if lines.len() <= most {
        return Ok(lines);
    }
    let mut left = Vec::new(alloc);
    for line in lines.iter().take(most.saturating_sub(1)) {
        left.push(String::from_str(alloc, line.as_str())?)?;
    }
    let mut last = String::new(alloc);
    if let Some(line) = lines.get(most.saturating_sub(1)) {
        for c in line.chars().take(width.saturating_sub(1)) {
            last.push(c)?;
        }
    }
    last.push_str("…")?;
    left.push(last)?;
    Ok(left)
}

/// A text as XML has it. A control character is U+FFFD.
pub(crate) fn as_xml(alloc: Global, text: &str) -> Result<String, AllocError> {
    let mut xml = String::new(alloc);
    for c in text.chars() {
        match c {
            '&' => xml.push_str("&amp;")?,
            '<' => xml.push_str("&lt;")?,
            '>' => xml.push_str("&gt;")?,
            '"' => xml.push_str("&quot;")?,
            '\n' => xml.push(' ')?,
            c if c.is_control() || c == '\u{fffe}' || c == '\u{ffff}' => xml.push('\u{fffd}')?,
            c => xml.push(c)?,
        }
    }
    Ok(xml)
}
