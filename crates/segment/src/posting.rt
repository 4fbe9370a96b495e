//! The terms of one more document, put into a column in the making.
ghost use Rattle.std.specs.Prelude.{◌≡◌, ℕ, List, [], ◌∷◌, Some, OnOk};
ghost use Rattle.analysis.specs.Tokens.{tokens_of};
ghost use Rattle.doc.specs.Document.{values_at};
ghost use Rattle.doc.specs.ScalarView.{scalar_view, scalars_view, field_values_view, values_view};
ghost use Rattle.doc.specs.Scalar as scalar;
ghost use Rattle.analysis.specs.Terms.{terms_of_value, terms_by};
ghost use Rattle.segment.specs.Places.{has_word};
ghost use Rattle.segment.specs.Posted.{IsPosted, IsRoomFor, places_so_far, with_if};

use crate::making::Making;
use crate::texts::Texts;
use analysis::words_of;
use doc::{FieldValues, Kind, Scalar};
use std::alloc::{AllocError, Global};

/// Adds a place to those of each token of a text, one after another in the buffer.
fn post_words(
    alloc: Global,
    texts: &mut Texts,
    buffer: &mut String,
    text: &str,
    at: u32,
) -> Result<(), AllocError>
    ensures { OnOk result ((w : List ℕ) → places_so_far texts.new w ≡ with_if (has_word w (tokens_of text.now)) at (places_so_far texts.old w)) }
{
    let mut words = words_of(text);
    'words: while words.next_into(alloc, buffer)? {
        texts.post(alloc, buffer.as_str(), at)?;
    }
    Ok(())
}

/// Posts a term of a document.
fn post_term(alloc: Global, making: &mut Making, term: &Scalar, at: u32) -> Result<(), AllocError>
    requires { IsRoomFor at making.old }
    ensures { OnOk result (IsPosted (scalar_view term.now ∷ []) at making.old making.new) }
{
    match term {
        Scalar::Text(text) => {
            making.texts.post(alloc, text.as_str(), at)?;
            Ok(())
        }
        Scalar::Long(number) => {
            making.longs.post(alloc, *number, at)?;
            Ok(())
        }
        Scalar::Flag(true) => {
            making.yes.set(at);
            Ok(())
        }
        Scalar::Flag(false) => {
            making.no.set(at);
            Ok(())
        }
    }
}

/// Posts the tokens of a text.
fn post_tokens(alloc: Global, making: &mut Making, text: &str, at: u32) -> Result<(), AllocError>
    ensures { OnOk result (IsPosted (terms_of_value (scalar.text text.now)) at making.old making.new) }
{
    post_words(alloc, &mut making.texts, &mut making.word, text, at)?;
    Ok(())
}

/// Posts the terms of one value of a field of this kind.
fn post_value(
    alloc: Global,
    making: &mut Making,
    kind: Kind,
    value: &Scalar,
    at: u32,
) -> Result<(), AllocError>
    requires { IsRoomFor at making.old }
    ensures { OnOk result (IsPosted (terms_by (Some kind) (scalar_view value.now ∷ [])) at making.old making.new) }
{
    match kind {
        Kind::Text => post_cut(alloc, making, value, at),
        Kind::Keyword => post_term(alloc, making, value, at),
        Kind::Long => post_term(alloc, making, value, at),
        Kind::Boolean => post_term(alloc, making, value, at),
    }
}

/// Posts the terms of one value of a text field: the tokens of a text.
fn post_cut(alloc: Global, making: &mut Making, value: &Scalar, at: u32) -> Result<(), AllocError>
    requires { IsRoomFor at making.old }
    ensures { OnOk result (IsPosted (terms_by (Some Kind.Text) (scalar_view value.now ∷ [])) at making.old making.new) }
{
    match value {
        Scalar::Text(text) => post_tokens(alloc, making, text.as_str(), at),
        Scalar::Long(_) => post_term(alloc, making, value, at),
        Scalar::Flag(_) => post_term(alloc, making, value, at),
    }
}

/// Posts the terms of some values.
pub(crate) fn post_values(
    alloc: Global,
    making: &mut Making,
    kind: Kind,
    values: &[Scalar],
    at: u32,
) -> Result<(), AllocError>
    requires { IsRoomFor at making.old }
    ensures { OnOk result (IsPosted (terms_by (Some kind) (scalars_view values.now)) at making.old making.new) }
{
    for value in values {
        post_value(alloc, making, kind, value, at)?;
    }
    Ok(())
}
