//! The places of the documents that a query means, where all documents of a segment are live.
ghost use Rattle.std.specs.Prelude.{◌≡◌, ◌<◌, ◌≤◌, ◌^◌, length, take, IfOk};
ghost use Rattle.std.specs.List.{range_with_len};
ghost use Rattle.doc.specs.Document.{all_values};
ghost use Rattle.doc.specs.ScalarView.{scalar_view};
ghost use Rattle.query.specs.Meaning.{means};
ghost use Rattle.query.specs.View.{query_view};
ghost use Rattle.marks.specs.Lists.{places};
ghost use Rattle.segment.specs.Indexed.{has_term};

use crate::finding::{FoundPlaces, first_marked};
use crate::posted::first_listed;
use crate::selecting::{select, with_term};
use doc::Scalar;
use query::Query;
use segment::Segment;
use std::alloc::{AllocError, Global};

/// The documents of the segment that the query means: how many there are, and the places of the first of them, no more than wanted.
/// A query for one term takes time for its page alone, and so does one for all documents.
pub fn find_all(
    alloc: Global,
    segment: &Segment,
    query: &Query,
    wanted: usize,
) -> Result<FoundPlaces, AllocError>
    ensures total { IfOk result (λ f. f.total ≡ length (places (λ s. means segment.now.mapping s (query_view query.now)) segment.now.sources)) }
    ensures first { IfOk result (λ f. f.first.items ≡ take wanted (places (λ s. means segment.now.mapping s (query_view query.now)) segment.now.sources)) }
{
    let count = segment.len();
    match query {
        Query::MatchAll => first_numbers(alloc, count, wanted),
        Query::Term(field, value) => all_with_term(alloc, segment, field, value, wanted),
        Query::Match(field, _, tokens) if tokens.len() == 1 => {
            all_with_term(alloc, segment, field, &tokens[0], wanted)
        }
        _ => {
            let marks = select(alloc, segment, query)?;
            first_marked(alloc, &marks, wanted)
        }
    }
}

/// Those in which a term of the field is the value.
fn all_with_term(
    alloc: Global,
    segment: &Segment,
    name: &str,
    value: &Scalar,
    wanted: usize,
) -> Result<FoundPlaces, AllocError>
    ensures total { IfOk result (λ f. f.total ≡ length (places (λ s. has_term segment.now.mapping.fields name.now (scalar_view value.now) (all_values segment.now.mapping s)) segment.now.sources)) }
    ensures first { IfOk result (λ f. f.first.items ≡ take wanted (places (λ s. has_term segment.now.mapping.fields name.now (scalar_view value.now) (all_values segment.now.mapping s)) segment.now.sources)) }
{
    let _few = segment.len();
    match segment.posting(name, value) {
        Some(places) => first_listed(alloc, places, wanted),
        None => {
            let marks = with_term(alloc, segment, name, value)?;
            first_marked(alloc, &marks, wanted)
        }
    }
}

/// The first numbers from 0 up, no more than wanted, of so many.
fn first_numbers(alloc: Global, count: usize, wanted: usize) -> Result<FoundPlaces, AllocError>
    requires { count < 2 ^ 32 }
    ensures total { IfOk result (λ f. f.total ≡ count) }
    ensures first { IfOk result (λ f. f.first.items ≡ take wanted (range_with_len 0 count)) }
{
    let end = count.min(wanted);
    let mut first = Vec::with_capacity(alloc, end)?;
    for place in 0..end {
        first.push(place as u32)?;
    }
    Ok(FoundPlaces {
        total: count,
        first,
    })
}
