//! The bounds of a `range` over numbers.
ghost use Rattle.std.specs.Prelude.{◌≡◌, ◌≤ℤ◌, ℤ, true, not, option_map, IfSome};
ghost use Rattle.doc.specs.Scalar as scalar;
ghost use Rattle.doc.specs.ScalarView.{scalar_view};
ghost use Rattle.analysis.specs.Terms as spec;
ghost use Rattle.analysis.specs.BoundsView.{bounds_view};
ghost use Rattle.segment.specs.Limits.{limits_view};

use analysis::Bounds;
use doc::Scalar;

/// Bounds that are numbers, each where it is given.
#[derive(Clone, Copy)]
pub(crate) struct Limits {
    above: Option<i64>,
    from: Option<i64>,
    below: Option<i64>,
    to: Option<i64>,
}

impl Limits {
    /// The bounds, where all that are given are numbers.
    pub(crate) fn of(bounds: &Bounds) -> Option<Limits>
        ensures { IfSome result (λ l. limits_view l ≡ bounds_view bounds.now) }
    {
        Some(Limits {
            above: number_of(&bounds.gt)?,
            from: number_of(&bounds.gte)?,
            below: number_of(&bounds.lt)?,
            to: number_of(&bounds.lte)?,
        })
    }

    /// Whether a number lies within them.
    pub(crate) fn have(self, number: i64) -> bool
        ensures { result ≡ spec.is_within (limits_view self) (scalar.long number) }
    {
        is_above(self.above, number)
            & is_from(self.from, number)
            & is_below(self.below, number)
            & is_to(self.to, number)
    }

    /// Whether a number from the first to the last may lie within them.
    pub(crate) fn may_have(self, first: i64, last: i64) -> bool
        ensures { (z : ℤ) → first ≤ℤ z → z ≤ℤ last → spec.is_within (limits_view self) (scalar.long z) ≡ true → result ≡ true }
    {
        is_above(self.above, last)
            & is_from(self.from, last)
            & is_below(self.below, first)
            & is_to(self.to, first)
    }
}

/// The number of a bound, if there is a bound; no answer where it is something else.
fn number_of(bound: &Option<Scalar>) -> Option<Option<i64>>
    ensures { IfSome result (λ n. option_map scalar.long n ≡ option_map scalar_view bound.now) }
{
    match bound {
        None => Some(None),
        Some(Scalar::Long(number)) => Some(Some(*number)),
        Some(_) => None,
    }
}

fn is_above(bound: Option<i64>, number: i64) -> bool
    ensures { result ≡ spec.meets (option_map scalar.long bound) (λ v. spec.is_less v (scalar.long number)) }
{
    match bound {
        None => true,
        Some(bound) => bound < number,
    }
}

fn is_from(bound: Option<i64>, number: i64) -> bool
    ensures { result ≡ spec.meets (option_map scalar.long bound) (λ v. not (spec.is_less (scalar.long number) v)) }
{
    match bound {
        None => true,
        Some(bound) => !(number < bound),
    }
}

fn is_below(bound: Option<i64>, number: i64) -> bool
    ensures { result ≡ spec.meets (option_map scalar.long bound) (λ v. spec.is_less (scalar.long number) v) }
{
    match bound {
        None => true,
        Some(bound) => number < bound,
    }
}

fn is_to(bound: Option<i64>, number: i64) -> bool
    ensures { result ≡ spec.meets (option_map scalar.long bound) (λ v. not (spec.is_less v (scalar.long number))) }
{
    match bound {
        None => true,
        Some(bound) => !(bound < number),
    }
}
