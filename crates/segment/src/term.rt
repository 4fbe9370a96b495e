//! Terms where they stand in a dictionary.
ghost use Rattle.std.specs.Prelude.{◌≡◌, not, option_map};
ghost use Rattle.doc.specs.ScalarView.{scalar_view};
ghost use Rattle.analysis.specs.Terms as spec;
ghost use Rattle.analysis.specs.BoundsView.{bounds_view};
ghost use Rattle.segment.specs.Term.{term_view};

use analysis::Bounds;
use doc::Scalar;

/// A term.
#[derive(Clone, Copy)]
pub(crate) enum Term<'a> {
    Text(&'a str),
    Long(i64),
    Flag(bool),
}

/// Whether a term lies within the bounds.
pub(crate) fn is_within(bounds: &Bounds, term: Term<'_>) -> bool
    ensures { result ≡ spec.is_within (bounds_view bounds.now) (term_view term.entry) }
{
    is_above(&bounds.gt, term)
        && is_not_below(&bounds.gte, term)
        && is_below(&bounds.lt, term)
        && is_not_above(&bounds.lte, term)
}

fn is_above(bound: &Option<Scalar>, term: Term<'_>) -> bool
    ensures { result ≡ spec.meets (option_map scalar_view bound.now) (λ v. spec.is_less v (term_view term.entry)) }
{
    match bound {
        None => true,
        Some(bound) => is_greater(term, bound),
    }
}

fn is_not_below(bound: &Option<Scalar>, term: Term<'_>) -> bool
    ensures { result ≡ spec.meets (option_map scalar_view bound.now) (λ v. not (spec.is_less (term_view term.entry) v)) }
{
    match bound {
        None => true,
        Some(bound) => !is_less(term, bound),
    }
}

fn is_below(bound: &Option<Scalar>, term: Term<'_>) -> bool
    ensures { result ≡ spec.meets (option_map scalar_view bound.now) (λ v. spec.is_less (term_view term.entry) v) }
{
    match bound {
        None => true,
        Some(bound) => is_less(term, bound),
    }
}

fn is_not_above(bound: &Option<Scalar>, term: Term<'_>) -> bool
    ensures { result ≡ spec.meets (option_map scalar_view bound.now) (λ v. not (spec.is_less v (term_view term.entry))) }
{
    match bound {
        None => true,
        Some(bound) => !is_greater(term, bound),
    }
}

/// Texts compare by bytes, numbers as numbers; all else has no order.
fn is_less(term: Term<'_>, value: &Scalar) -> bool
    ensures { result ≡ spec.is_less (term_view term.entry) (scalar_view value.now) }
{
    match (term, value) {
        (Term::Text(term), Scalar::Text(value)) => term < value.as_str(),
        (Term::Long(term), Scalar::Long(value)) => term < *value,
        _ => false,
    }
}

fn is_greater(term: Term<'_>, value: &Scalar) -> bool
    ensures { result ≡ spec.is_less (scalar_view value.now) (term_view term.entry) }
{
    match (term, value) {
        (Term::Text(term), Scalar::Text(value)) => value.as_str() < term,
        (Term::Long(term), Scalar::Long(value)) => *value < term,
        _ => false,
    }
}
