//! The words of a text, as searches compare them, and the terms of a field: which ones its values give, and what may be asked of one.
#![tactic(auto)]

ghost use Rattle.std.specs.Prelude.{◌≡◌, map, IfOk, string_bytes};
ghost use Rattle.analysis.specs.Tokens.{tokens_of, folded};

use caseless::default_case_fold_str;
use std::alloc::{AllocError, Global};
use unicode_segmentation::UnicodeSegmentation;

mod bounds;
mod values;
mod words;

pub use bounds::Bounds;
pub use values::terms_of_value;
pub use words::{Words, words_of};

/// The words of a text in order, cut by UAX #29 and each under default case folding (the Unicode Standard, section 3.13).
/// White space, punctuation and the like are no words.
#[tactic(auto, unfolding(crate::specs::Tokens::tokens_of))]
pub fn tokens(alloc: Global, text: &str) -> Result<Vec<String>, AllocError>
    ensures { IfOk result (λ v. map string_bytes v.items ≡ tokens_of text.now) }
{
    let mut found = Vec::new(alloc);
    for word in text.unicode_words() {
        found.push(folded(alloc, word)?)?;
    }
    Ok(found)
}

/// A word under default case folding. Of an ASCII word that is its small letters.
fn folded(alloc: Global, word: &str) -> Result<String, AllocError>
    ensures { IfOk result (λ s. string_bytes s ≡ folded word.now) }
{
    if !word.is_ascii() {
        return default_case_fold_str(alloc, word);
    }
    let mut small = String::from_str(alloc, word)?;
    small.make_ascii_lowercase();
    Ok(small)
}
