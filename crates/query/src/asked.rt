//! What a query asks of the terms of a field.
ghost use Rattle.std.specs.Prelude.{◌≡◌, not, option_map};
ghost use Rattle.doc.specs.ScalarView.{scalar_view, scalars_view};
ghost use Rattle.query.specs.Asked.{passes};
ghost use Rattle.analysis.specs.Terms as spec;
ghost use Rattle.analysis.specs.BoundsView.{bounds_view};

use analysis::Bounds;
use doc::Scalar;

/// What is asked of a term.
#[derive(Clone, Copy)]
pub(crate) enum Asked<'a> {
    Is(&'a Scalar),
    IsOneOf(&'a [Scalar]),
    BeginsWith(&'a str),
    IsWithin(&'a Bounds),
}

impl Asked<'_> {
    /// Whether a term is what is asked for.
    pub(crate) fn passes(&self, term: &Scalar) -> bool
        ensures { result ≡ passes self.now (scalar_view term.now) }
    {
        match self {
            Asked::Is(value) => value.is(term),
            Asked::IsOneOf(values) => is_one_of(values, term),
            Asked::BeginsWith(text) => begins_with(text, term),
            Asked::IsWithin(bounds) => is_within(bounds, term),
        }
    }
}

fn is_one_of(values: &[Scalar], term: &Scalar) -> bool
    ensures { result ≡ spec.is_one_of (scalars_view values.now) (scalar_view term.now) }
{
    for value in values {
        if value.is(term) {
            return true;
        }
    }
    false
}

fn begins_with(text: &str, term: &Scalar) -> bool
    ensures { result ≡ spec.begins_with text.now (scalar_view term.now) }
{
    match term {
        Scalar::Text(term) => term.as_str().as_bytes().starts_with(text.as_bytes()),
        _ => false,
    }
}

fn is_within(bounds: &Bounds, term: &Scalar) -> bool
    ensures { result ≡ spec.is_within (bounds_view bounds.now) (scalar_view term.now) }
{
    is_above(&bounds.gt, term)
        && is_not_below(&bounds.gte, term)
        && is_below(&bounds.lt, term)
        && is_not_above(&bounds.lte, term)
}

fn is_above(bound: &Option<Scalar>, term: &Scalar) -> bool
    ensures { result ≡ spec.meets (option_map scalar_view bound.now) (λ v. spec.is_less v (scalar_view term.now)) }
{
    match bound {
        None => true,
        Some(bound) => is_less(bound, term),
    }
}

fn is_not_below(bound: &Option<Scalar>, term: &Scalar) -> bool
    ensures { result ≡ spec.meets (option_map scalar_view bound.now) (λ v. not (spec.is_less (scalar_view term.now) v)) }
{
    match bound {
        None => true,
        Some(bound) => !is_less(term, bound),
    }
}

fn is_below(bound: &Option<Scalar>, term: &Scalar) -> bool
    ensures { result ≡ spec.meets (option_map scalar_view bound.now) (λ v. spec.is_less (scalar_view term.now) v) }
{
    match bound {
        None => true,
        Some(bound) => is_less(term, bound),
    }
}

fn is_not_above(bound: &Option<Scalar>, term: &Scalar) -> bool
    ensures { result ≡ spec.meets (option_map scalar_view bound.now) (λ v. not (spec.is_less v (scalar_view term.now))) }
{
    match bound {
        None => true,
        Some(bound) => !is_less(bound, term),
    }
}

/// Texts compare by bytes, numbers as numbers; all else has no order.
fn is_less(left: &Scalar, right: &Scalar) -> bool
    ensures { result ≡ spec.is_less (scalar_view left.now) (scalar_view right.now) }
{
    match (left, right) {
        (Scalar::Text(left), Scalar::Text(right)) => left.as_str() < right.as_str(),
        (Scalar::Long(left), Scalar::Long(right)) => *left < *right,
        _ => false,
    }
}
