//! The words of a text one by one, in one buffer.
ghost use Rattle.std.specs.Prelude.{◌≡◌, ◌≢◌, ℕ, ◌<◌, ◌≤◌, ◌-◌, [], ◌∷◌, length, drop, slice_index, IfOk, OnOk, MatchBool, MatchOption, IsTrue, string_bytes};
ghost use Rattle.std.specs.Char.{is_ascii_alphanumeric};
ghost use Rattle.analysis.specs.Delimiter.{is_delimiter};
ghost use Rattle.analysis.specs.Tokens.{tokens_of, folded};
ghost use Rattle.unicode_segmentation.specs.Word.{words};

use caseless::default_case_fold_str;
use std::alloc::{AllocError, Global};
use std::marker::Model;
use unicode_segmentation::{UnicodeSegmentation, UnicodeWords};

/// The words of a text that are still to come, each as `tokens` gives it: those of a stretch, and then those of the text after it.
#[derive(Drop)]
pub struct Words<'a> {
    stretch: UnicodeWords<'a>,
    rest: &'a str,
}

impl<'a> Model for Words<'a> {
    ghost use Rattle.std.specs.Prelude.{ℕ, List, map, ◌++◌};
    ghost use Rattle.unicode_segmentation.specs.Iter.{unicode_words_left};
    ghost use Rattle.unicode_segmentation.specs.Word.{words};
    ghost use Rattle.analysis.specs.Tokens.{folded};

    ghost Value = { List (List ℕ) };

    ghost view = { λ w. map folded (unicode_words_left w.stretch ++ words w.rest.now) };
}

/// All words of a text.
#[tactic(auto, unfolding(crate::specs::Tokens::tokens_of))]
pub fn words_of(text: &str) -> Words<'_>
    ensures { result ≡ tokens_of text.now }
{
    Words {
        stretch: "".unicode_words(),
        rest: text,
    }
}

impl<'a> Words<'a> {
    /// Puts the next word into the buffer, in place of what is there, and says whether there is one.
    /// The word is passed also where memory runs out.
    pub fn next_into(&mut self, alloc: Global, buffer: &mut String) -> Result<bool, AllocError>
        ensures passed { self.new ≡ drop 1 self.old }
        ensures word { IfOk result (λ there. MatchBool there (self.old ≡ string_bytes buffer.new ∷ self.new) (self.old ≡ [])) }
    {
        match self.next_word() {
            Some(word) => {
                fold_into(alloc, buffer, word)?;
                Ok(true)
            }
            None => Ok(false),
        }
    }

    /// The next word as it stands in the text.
    fn next_word(&mut self) -> Option<&'a str>
        ensures { MatchOption result ((self.old ≡ []) × (self.new ≡ [])) (λ word. self.old ≡ folded word.now ∷ self.new) }
    {
        loop {
            if let Some(word) = self.stretch.next() {
                return Some(word);
            }
            let text = past_spaces(self.rest);
            if text.is_empty() {
                self.rest = text;
                return None;
            }
            let first = delimiters_end(text, 0);
            let last = plain_end(text, first);
            let behind = delimiters_end(text, last);
            let end = stretch_end(text, behind);
            self.rest = &text[end..];
            if first < last && behind == end {
                return Some(&text[first..last]);
            }
            self.stretch = text[..end].unicode_words();
        }
    }
}

/// The text from its first word on, where that is seen at once: without the spaces at its start, unless what follows them may join them.
fn past_spaces(text: &str) -> &str
    ensures words { words result.now ≡ words text.now }
    ensures shorter { length result.now ≤ length text.now }
{
    let spaces = space_len(text);
    if spaces < text.len() && !text.as_bytes()[spaces].is_ascii() {
        return text;
    }
    &text[spaces..]
}

/// How many spaces the text begins with.
fn space_len(text: &str) -> usize
    ensures within { result ≤ length text.now }
    ensures spaces { (k : ℕ) → k < result → slice_index text.now k ≡ 32 }
    ensures after { result < length text.now → slice_index text.now result ≢ 32 }
{
    for (index, byte) in text.as_bytes().iter().enumerate() {
        if *byte != b' ' {
            return index;
        }
    }
    text.len()
}

/// Where the ASCII letters and digits end that stand in the text from an offset on.
fn plain_end(text: &str, from: usize) -> usize
    requires { from ≤ length text.now }
    ensures grows { from ≤ result }
    ensures within { result ≤ length text.now }
    ensures plain { (k : ℕ) → from ≤ k → k < result → IsTrue (is_ascii_alphanumeric (slice_index text.now k)) }
{
    let bytes = text.as_bytes();
    for index in from..bytes.len() {
        if !bytes[index].is_ascii_alphanumeric() {
            return index;
        }
    }
    bytes.len()
}

/// Where the delimiters end that stand in the text from an offset on.
fn delimiters_end(text: &str, from: usize) -> usize
    requires { from ≤ length text.now }
    ensures grows { from ≤ result }
    ensures within { result ≤ length text.now }
    ensures delimiters { (k : ℕ) → from ≤ k → k < result → IsTrue (is_delimiter (slice_index text.now k)) }
{
    let bytes = text.as_bytes();
    for index in from..bytes.len() {
        if !is_delimiter(bytes[index]) {
            return index;
        }
    }
    bytes.len()
}

/// An ASCII character that is no letter, digit, underscore or space.
fn is_delimiter(byte: u8) -> bool
    ensures { result ≡ is_delimiter byte }
{
    byte.is_ascii() && !byte.is_ascii_alphanumeric() && byte != b'_' && byte != b' '
}

/// Where the first stretch of the text ends: at the text's end, or at a space, from the offset `from` on, after another ASCII character.
fn stretch_end(text: &str, from: usize) -> usize
    ensures within { result ≤ length text.now }
    ensures grows { 0 < length text.now → 0 < result }
    ensures space { result < length text.now → slice_index text.now result ≡ 32 }
    ensures ascii { result < length text.now → slice_index text.now (result - 1) < 128 }
    ensures apart { result < length text.now → slice_index text.now (result - 1) ≢ 32 }
{
    let bytes = text.as_bytes();
    for end in from.max(1)..bytes.len() {
        if bytes[end] == b' ' && bytes[end - 1].is_ascii() && bytes[end - 1] != b' ' {
            return end;
        }
    }
    bytes.len()
}

/// Puts a word under default case folding into the buffer. Of an ASCII word that is its small letters.
fn fold_into(alloc: Global, buffer: &mut String, word: &str) -> Result<(), AllocError>
    ensures { OnOk result (string_bytes buffer.new ≡ folded word.now) }
{
    if !word.is_ascii() {
        *buffer = default_case_fold_str(alloc, word)?;
        return Ok(());
    }
    buffer.clear();
    buffer.push_str(word)?;
    buffer.make_ascii_lowercase();
    Ok(())
}
