//! The ids of a bulk.
ghost use Rattle.std.specs.Prelude.{◌≡◌, ◌∷◌, ◌≤◌, length, option_copied, option_map, nat_lt};
ghost use Rattle.scripts.specs.Words as spec;

use std::marker::Model;

/// How many ids a bulk may have.
const MOST_IDS: usize = 100;

/// The ids of a bulk as they stand in its line, parted by one space: 1 to 100.
#[derive(Drop)]
pub(crate) struct Ids<'a> {
    text: &'a str,
}

impl<'a> Model for Ids<'a> {
    ghost use Rattle.std.specs.Prelude.{◌≤◌, ℕ, List, length};
    ghost use Rattle.scripts.specs.Words.{words_of};

    ghost Value = { List (List ℕ) };

    ghost view = { λ ids. words_of ids.text.now };

    ghost invariant = { λ ids. length (words_of ids.text.now) ≤ 100 };
}

impl<'a> Ids<'a> {
    /// The words of a text; none where they are more than 100.
    pub(crate) fn of(text: &'a str) -> Option<Ids<'a>>
        ensures { result ≡ spec.few_words text.now }
    {
        if has_too_many(text) {
            None
        } else {
            Some(Ids { text })
        }
    }

    /// The text whose words they are.
    pub(crate) fn as_str(&self) -> &'a str
        ensures all { spec.words_of result.now ≡ self.now }
        ensures few { length self.now ≤ 100 }
    {
        self.text
    }
}

/// Whether a text has more than 100 words.
fn has_too_many(text: &str) -> bool
    ensures { result ≡ nat_lt 100 (length (spec.words_of text.now)) }
{
    let mut rest = Some(text);
    'words: for _ in 0..MOST_IDS {
        match rest {
            Some(text) => rest = first_word(text).1,
            None => return false,
        }
    }
    rest.is_some()
}

/// The first word, and the text after the space that follows it.
pub(crate) fn split_word(text: &str) -> Option<(&str, &str)>
    ensures { option_map (λ x. (x.0.now, x.1.now)) result ≡ spec.split_word text.now }
{
    text.split_once(' ')
}

/// The first word, and where there is a space after it the text after that.
pub(crate) fn first_word(text: &str) -> (&str, Option<&str>)
    ensures { spec.words_of text.now ≡ result.0.now ∷ spec.words_left (option_copied result.1) }
{
    match split_word(text) {
        Some((word, rest)) => (word, Some(rest)),
        None => (text, None),
    }
}
