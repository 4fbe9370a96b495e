//! The places of the live documents that a query means.
ghost use Rattle.std.specs.Prelude.{◌≡◌, ◌<◌, ◌&&◌, ◌^◌, length, map, take, true, IfOk};
ghost use Rattle.doc.specs.Document.{all_values};
ghost use Rattle.doc.specs.ScalarView.{scalar_view};
ghost use Rattle.query.specs.Meaning.{means};
ghost use Rattle.query.specs.View.{query_view};
ghost use Rattle.marks.specs.Lists.{zip_with, places};
ghost use Rattle.segment.specs.Indexed.{has_term};

use crate::posted::first_live;
use crate::selecting::{select, with_term};
use doc::Scalar;
use marks::Marks;
use query::Query;
use segment::Segment;
use std::alloc::{AllocError, Global};

/// Documents that were found in a segment.
#[derive(Drop)]
pub struct FoundPlaces {
    pub total: usize,
    /// The places of the first of them, rising.
    pub first: Vec<u32>,
}

/// The live documents of the segment that the query means: how many there are, and the places of the first of them, no more than wanted.
pub fn find(
    alloc: Global,
    segment: &Segment,
    live: &Marks,
    query: &Query,
    wanted: usize,
) -> Result<FoundPlaces, AllocError>
    requires { length live.now ≡ length segment.now.sources }
    ensures total { IfOk result (λ f. f.total ≡ length (places (λ b. b) (zip_with (λ m l. m && l) (map (λ s. means segment.now.mapping s (query_view query.now)) segment.now.sources) live.now))) }
    ensures first { IfOk result (λ f. f.first.items ≡ take wanted (places (λ b. b) (zip_with (λ m l. m && l) (map (λ s. means segment.now.mapping s (query_view query.now)) segment.now.sources) live.now))) }
{
    let _few = segment.len();
    match query {
        Query::MatchAll => first_marked(alloc, live, wanted),
        Query::Term(field, value) => find_term(alloc, segment, live, field, value, wanted),
        Query::Match(field, _, tokens) if tokens.len() == 1 => {
            find_term(alloc, segment, live, field, &tokens[0], wanted)
        }
        _ => {
            let marks = select(alloc, segment, query)?;
            first_live_marked(alloc, marks, live, wanted)
        }
    }
}

/// The live documents in which a term of the field is the value.
fn find_term(
    alloc: Global,
    segment: &Segment,
    live: &Marks,
    name: &str,
    value: &Scalar,
    wanted: usize,
) -> Result<FoundPlaces, AllocError>
    requires { length live.now ≡ length segment.now.sources }
    ensures total { IfOk result (λ f. f.total ≡ length (places (λ b. b) (zip_with (λ m l. m && l) (map (λ s. has_term segment.now.mapping.fields name.now (scalar_view value.now) (all_values segment.now.mapping s)) segment.now.sources) live.now))) }
    ensures first { IfOk result (λ f. f.first.items ≡ take wanted (places (λ b. b) (zip_with (λ m l. m && l) (map (λ s. has_term segment.now.mapping.fields name.now (scalar_view value.now) (all_values segment.now.mapping s)) segment.now.sources) live.now))) }
{
    let _few = segment.len();
    match segment.posting(name, value) {
        Some(places) => first_live(alloc, places, live, wanted),
        None => {
            let marks = with_term(alloc, segment, name, value)?;
            first_live_marked(alloc, marks, live, wanted)
        }
    }
}

/// How many documents are marked and live, and the places of the first of them.
fn first_live_marked(
    alloc: Global,
    mut marks: Marks,
    live: &Marks,
    wanted: usize,
) -> Result<FoundPlaces, AllocError>
    requires same { length live.now ≡ length marks }
    requires few { length live.now < 2 ^ 32 }
    ensures total { IfOk result (λ f. f.total ≡ length (places (λ b. b) (zip_with (λ m l. m && l) marks live.now))) }
    ensures first { IfOk result (λ f. f.first.items ≡ take wanted (places (λ b. b) (zip_with (λ m l. m && l) marks live.now))) }
{
    marks.intersect(live);
    first_marked(alloc, &marks, wanted)
}

/// How many places are marked, and the first of them.
pub(crate) fn first_marked(
    alloc: Global,
    marks: &Marks,
    wanted: usize,
) -> Result<FoundPlaces, AllocError>
    requires { length marks.now < 2 ^ 32 }
    ensures total { IfOk result (λ f. f.total ≡ length (places (λ b. b) marks.now)) }
    ensures first { IfOk result (λ f. f.first.items ≡ take wanted (places (λ b. b) marks.now)) }
{
    let first = marks.first(alloc, wanted)?;
    Ok(FoundPlaces {
        total: marks.count(),
        first,
    })
}
