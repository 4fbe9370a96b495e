//! Where the keys within the bounds of a `range` stand in a dictionary. A span may have others too, so each of its keys is still tried.
ghost use Rattle.std.specs.Prelude.{◌≡◌, ℤ, String, string_bytes, option_map, int_lt, if◌then◌else◌, true};
ghost use Rattle.std.specs.declared.alloc.Global.{Global};
ghost use Rattle.std.specs.BTreeMap.Range.{range_contains, IsLeBy, IsLtBy};
ghost use Rattle.std.specs.Option.{option_or};
ghost use Rattle.std.specs.Ordering.{int_cmp};
ghost use Rattle.std.specs.Range.Bound.{bound_map, IsForward};
ghost use Rattle.std.specs.String.{string_cmp};
ghost use Rattle.doc.specs.Scalar as scalar;
ghost use Rattle.analysis.specs.Terms.{is_within};
ghost use Rattle.analysis.specs.BoundsView.{bounds_view};
ghost use Rattle.segment.specs.Spans.{number_in, text_in, span_start, span_end, is_less_text};

use analysis::Bounds;
use doc::Scalar;
use std::ops::Bound;

/// The span of the numbers within the bounds.
pub(crate) fn of_longs(bounds: &Bounds) -> (Bound<i64>, Bound<i64>)
    ensures forward { IsForward (IsLeBy int_cmp) (IsLtBy int_cmp) result.0 result.1 }
    ensures wide { (z : ℤ) → is_within (bounds_view bounds.now) (scalar.long z) ≡ true → range_contains int_cmp result.0 result.1 z ≡ true }
{
    let low = first_long(&bounds.gte, &bounds.gt);
    let high = first_long(&bounds.lte, &bounds.lt);
    long_span(low, high)
}

/// The span of the texts within the bounds.
pub(crate) fn of_texts(bounds: &Bounds) -> (Bound<&String>, Bound<&String>)
    ensures forward { IsForward (IsLeBy string_cmp) (IsLtBy string_cmp) (bound_map (λ s. s.now) result.0) (bound_map (λ s. s.now) result.1) }
    ensures wide { (k : String Global) → is_within (bounds_view bounds.now) (scalar.text (string_bytes k)) ≡ true → range_contains string_cmp (bound_map (λ s. s.now) result.0) (bound_map (λ s. s.now) result.1) k ≡ true }
{
    let low = first_text(&bounds.gte, &bounds.gt);
    let high = first_text(&bounds.lte, &bounds.lt);
    text_span(low, high)
}

/// The number of the first of two bounds that is one.
fn first_long(one: &Option<Scalar>, other: &Option<Scalar>) -> Option<i64>
    ensures { result ≡ option_or (number_in one.now) (number_in other.now) }
{
    match long_in(one) {
        None => long_in(other),
        Some(number) => Some(number),
    }
}

fn long_in(bound: &Option<Scalar>) -> Option<i64>
    ensures { result ≡ number_in bound.now }
{
    match bound {
        Some(Scalar::Long(number)) => Some(*number),
        _ => None,
    }
}

/// From one number to another, and never backwards.
fn long_span(low: Option<i64>, high: Option<i64>) -> (Bound<i64>, Bound<i64>)
    ensures start { result.0 ≡ span_start low }
    ensures end { result.1 ≡ span_end int_lt low high }
{
    match (low, high) {
        (None, None) => (Bound::Unbounded, Bound::Unbounded),
        (None, Some(high)) => (Bound::Unbounded, Bound::Included(high)),
        (Some(low), None) => (Bound::Included(low), Bound::Unbounded),
        (Some(low), Some(high)) => (Bound::Included(low), Bound::Included(greater(high, low))),
    }
}

fn greater(high: i64, low: i64) -> i64
    ensures { result ≡ (if int_lt high low then low else high) }
{
    if high < low { low } else { high }
}

/// The text of the first of two bounds that is one.
fn first_text<'a>(one: &'a Option<Scalar>, other: &'a Option<Scalar>) -> Option<&'a String>
    ensures { option_map (λ s. s.now) result ≡ option_or (text_in one.now) (text_in other.now) }
{
    match string_in(one) {
        None => string_in(other),
        Some(text) => Some(text),
    }
}

fn string_in(bound: &Option<Scalar>) -> Option<&String>
    ensures { option_map (λ s. s.now) result ≡ text_in bound.now }
{
    match bound {
        Some(Scalar::Text(text)) => Some(text),
        _ => None,
    }
}

/// From one text to another, and never backwards.
fn text_span<'a>(
    low: Option<&'a String>,
    high: Option<&'a String>,
) -> (Bound<&'a String>, Bound<&'a String>)
    ensures start { bound_map (λ s. s.now) result.0 ≡ span_start (option_map (λ s. s.now) low.entry) }
    ensures end { bound_map (λ s. s.now) result.1 ≡ span_end is_less_text (option_map (λ s. s.now) low.entry) (option_map (λ s. s.now) high.entry) }
{
    match (low, high) {
        (None, None) => (Bound::Unbounded, Bound::Unbounded),
        (None, Some(high)) => (Bound::Unbounded, Bound::Included(high)),
        (Some(low), None) => (Bound::Included(low), Bound::Unbounded),
        (Some(low), Some(high)) => (Bound::Included(low), Bound::Included(later(high, low))),
    }
}

fn later<'a>(high: &'a String, low: &'a String) -> &'a String
    ensures { result.now ≡ (if is_less_text high.now low.now then low.now else high.now) }
{
    if high.as_str() < low.as_str() {
        low
    } else {
        high
    }
}
