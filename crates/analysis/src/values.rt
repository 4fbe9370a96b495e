//! Values as terms.
ghost use Rattle.std.specs.Prelude.{◌≡◌, ◌∷◌, [], IfOk};
ghost use Rattle.doc.specs.Scalar.{text as spec_text};
ghost use Rattle.doc.specs.ScalarView.{scalar_view, scalars_view};
ghost use Rattle.analysis.specs.Terms as spec;

use crate::tokens;
use doc::Scalar;
use std::alloc::{AllocError, Global};

/// The terms of one value of a text field: the tokens of a text.
pub fn terms_of_value(alloc: Global, value: &Scalar) -> Result<Vec<Scalar>, AllocError>
    ensures { IfOk result (λ v. scalars_view v.items ≡ spec.terms_of_value (scalar_view value.now)) }
{
    match value {
        Scalar::Text(text) => token_terms(alloc, text.as_str()),
        Scalar::Long(number) => one(alloc, Scalar::Long(*number)),
        Scalar::Flag(flag) => one(alloc, Scalar::Flag(*flag)),
    }
}

fn token_terms(alloc: Global, text: &str) -> Result<Vec<Scalar>, AllocError>
    ensures { IfOk result (λ v. scalars_view v.items ≡ spec.terms_of_value (spec_text text.now)) }
{
    let mut terms = Vec::new(alloc);
    for token in tokens(alloc, text)? {
        terms.push(Scalar::Text(token))?;
    }
    Ok(terms)
}

fn one(alloc: Global, value: Scalar) -> Result<Vec<Scalar>, AllocError>
    ensures { IfOk result (λ v. v.items ≡ value ∷ []) }
{
    let mut values = Vec::new(alloc);
    values.push(value)?;
    Ok(values)
}
