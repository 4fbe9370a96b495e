//! The documents of a segment that a query means.
ghost use Rattle.std.specs.Prelude.{◌≡◌, ◌<◌, ◌≤◌, ◌&&◌, ◌||◌, ◌^◌, ℕ, Bool, true, false, map, length, nat_le, nat_lt, replicate, IfOk, OnOk};
ghost use Rattle.std.specs.List.{list_any, list_all};
ghost use Rattle.doc.specs.Document.{all_values};
ghost use Rattle.doc.specs.ScalarView.{scalar_view, scalars_view};
ghost use Rattle.query.specs.Meaning as spec;
ghost use Rattle.analysis.specs.Terms as of_terms;
ghost use Rattle.query.specs.Query.{queries_of, count_of};
ghost use Rattle.query.specs.View.{query_view};
ghost use Rattle.analysis.specs.BoundsView.{bounds_view};
ghost use Rattle.marks.specs.Lists.{zip_with};
ghost use Rattle.segment.specs.Indexed.{has_term, has_value};

use crate::counts;
use crate::known::Known;
use analysis::Bounds;
use doc::Scalar;
use marks::Marks;
use query::{Operator, Query};
use segment::Segment;
use std::alloc::{AllocError, Global};

/// The documents of the segment that the query means.
pub fn select(alloc: Global, segment: &Segment, query: &Query) -> Result<Marks, AllocError>
    ensures { IfOk result (λ m. m ≡ map (λ s. spec.means segment.now.mapping s (query_view query.now)) segment.now.sources) }
{
    let mut known = Known::of(alloc, segment);
    if has_many(query) {
        known.learn(alloc, query)?;
    }
    select_known(alloc, &known, query)
}

/// With so many clauses the words of a `bool` are looked at before, since some may stand there often.
const MANY_CLAUSES: usize = 16;

/// Whether a query has many clauses, or one `bool` within another.
fn has_many(query: &Query) -> bool {
    match query {
        Query::Bool {
            filter,
            must,
            must_not,
            should,
            ..
        } => are_many(&[filter, must, must_not, should]),
        _ => false,
    }
}

fn are_many(lists: &[&Vec<Query>; 4]) -> bool {
    let mut count: usize = 0;
    for list in lists {
        count = count.saturating_add(list.len());
        if list
            .iter()
            .any(|it: &Query| matches!(it, Query::Bool { .. }))
        {
            return true;
        }
    }
    count >= MANY_CLAUSES
}

#[cycle(select)]
fn select_known(alloc: Global, known: &Known<'_>, query: &Query) -> Result<Marks, AllocError>
    ensures { IfOk result (λ m. m ≡ map (λ s. spec.means known.now.segment.now.mapping s (query_view query.now)) known.now.segment.now.sources) }
{
    match query {
        Query::MatchAll => all(alloc, known.segment),
        Query::Nothing => none(alloc, known.segment),
        Query::Term(field, value) => known_term(alloc, known, field, value),
        Query::Terms(field, values) => with_any(alloc, known, field, values),
        Query::Match(field, operator, tokens) => {
            with_tokens(alloc, known, field, *operator, tokens)
        }
        Query::Prefix(field, text) => with_prefix(alloc, known.segment, field, text),
        Query::Range(field, bounds) => within(alloc, known.segment, field, bounds),
        Query::Exists(field) => with_value(alloc, known.segment, field),
        Query::Bool {
            filter,
            must,
            must_not,
            should,
            minimum_should_match,
        } => {
            let mut marks = all(alloc, known.segment)?;
            keep_all(alloc, known, filter, &mut marks)?;
            keep_all(alloc, known, must, &mut marks)?;
            drop_any(alloc, known, must_not, &mut marks)?;
            let wanted = wanted(
                count(filter),
                count(must),
                count(should),
                *minimum_should_match,
            );
            if wanted == 1 {
                keep_any(alloc, known, should, &mut marks)?;
                return Ok(marks);
            }
            keep_enough(alloc, known, should, wanted, &mut marks)?;
            Ok(marks)
        }
    }
}

/// Keeps the marks of the documents that all queries mean.
#[cycle(select)]
fn keep_all(
    alloc: Global,
    known: &Known<'_>,
    queries: &[Query],
    marks: &mut Marks,
) -> Result<(), AllocError>
    requires { length marks.old ≡ length known.now.segment.now.sources }
    ensures whole { OnOk result (length marks.new ≡ length known.now.segment.now.sources) }
    ensures is { OnOk result (marks.new ≡ zip_with (λ b s. b && spec.all_match known.now.segment.now.mapping.fields (all_values known.now.segment.now.mapping s) (queries_of (map query_view queries.now))) marks.old known.now.segment.now.sources) }
{
    for query in queries {
        marks.intersect(&select_known(alloc, known, query)?);
    }
    Ok(())
}

/// Drops the marks of the documents that one of the queries means.
#[cycle(select)]
fn drop_any(
    alloc: Global,
    known: &Known<'_>,
    queries: &[Query],
    marks: &mut Marks,
) -> Result<(), AllocError>
    requires { length marks.old ≡ length known.now.segment.now.sources }
    ensures whole { OnOk result (length marks.new ≡ length known.now.segment.now.sources) }
    ensures is { OnOk result (marks.new ≡ zip_with (λ b s. b && spec.none_matches known.now.segment.now.mapping.fields (all_values known.now.segment.now.mapping s) (queries_of (map query_view queries.now))) marks.old known.now.segment.now.sources) }
{
    for query in queries {
        marks.subtract(&select_known(alloc, known, query)?);
    }
    Ok(())
}

/// Keeps the marks of the documents that one of the queries means, or more.
#[cycle(select)]
fn keep_any(
    alloc: Global,
    known: &Known<'_>,
    queries: &[Query],
    marks: &mut Marks,
) -> Result<(), AllocError>
    requires { length marks.old ≡ length known.now.segment.now.sources }
    ensures whole { OnOk result (length marks.new ≡ length known.now.segment.now.sources) }
    ensures is { OnOk result (marks.new ≡ zip_with (λ b s. b && nat_le 1 (spec.matching known.now.segment.now.mapping.fields (all_values known.now.segment.now.mapping s) (queries_of (map query_view queries.now)))) marks.old known.now.segment.now.sources) }
{
    let mut found = none(alloc, known.segment)?;
    for query in queries {
        found.unite(&select_known(alloc, known, query)?);
    }
    marks.intersect(&found);
    Ok(())
}

/// Keeps the marks of the documents that enough queries mean.
#[cycle(select)]
fn keep_enough(
    alloc: Global,
    known: &Known<'_>,
    queries: &[Query],
    wanted: u64,
    marks: &mut Marks,
) -> Result<(), AllocError>
    requires { length marks.old ≡ length known.now.segment.now.sources }
    ensures whole { OnOk result (length marks.new ≡ length known.now.segment.now.sources) }
    ensures is { OnOk result (marks.new ≡ zip_with (λ b s. b && nat_le wanted (spec.matching known.now.segment.now.mapping.fields (all_values known.now.segment.now.mapping s) (queries_of (map query_view queries.now)))) marks.old known.now.segment.now.sources) }
{
    if wanted == 0 {
        return Ok(());
    }
    let mut counts = counts::zeros(alloc, known.segment.len())?;
    for query in queries {
        counts::add(&mut counts, &select_known(alloc, known, query)?);
    }
    marks.intersect(&counts::at_least(alloc, &counts, wanted)?);
    Ok(())
}

/// How many queries of `should` are wanted.
pub(crate) fn wanted(filter: usize, must: usize, should: usize, minimum: u64) -> u64
    ensures { result ≡ spec.wanted filter must should minimum }
{
    if minimum == 0 && filter == 0 && must == 0 && should > 0 {
        1
    } else {
        minimum
    }
}

fn count(queries: &[Query]) -> usize
    ensures { result ≡ count_of (queries_of (map query_view queries.now)) }
{
    queries.len()
}

fn none(alloc: Global, segment: &Segment) -> Result<Marks, AllocError>
    ensures { IfOk result (λ m. m ≡ map (λ s. false) segment.now.sources) }
{
    Marks::none(alloc, segment.len())
}

fn all(alloc: Global, segment: &Segment) -> Result<Marks, AllocError>
    ensures { IfOk result (λ m. m ≡ map (λ s. true) segment.now.sources) }
{
    Marks::all(alloc, segment.len())
}

/// The documents in which a term of the field is the value.
pub(crate) fn with_term(
    alloc: Global,
    segment: &Segment,
    name: &str,
    value: &Scalar,
) -> Result<Marks, AllocError>
    ensures { IfOk result (λ m. m ≡ map (λ s. of_terms.has (of_terms.terms segment.now.mapping s name.now) (scalar_view value.now)) segment.now.sources) }
{
    let mut marks = none(alloc, segment)?;
    segment.mark_term(name, value, &mut marks);
    Ok(marks)
}

/// The same, where marks may be kept of the segment.
fn known_term(
    alloc: Global,
    known: &Known<'_>,
    name: &str,
    value: &Scalar,
) -> Result<Marks, AllocError>
    ensures { IfOk result (λ m. m ≡ map (λ s. of_terms.has (of_terms.terms known.now.segment.now.mapping s name.now) (scalar_view value.now)) known.now.segment.now.sources) }
{
    let mut marks = none(alloc, known.segment)?;
    known.mark_term(name, value, &mut marks);
    Ok(marks)
}

/// Those in which a term of the field is one of the values.
fn with_any(
    alloc: Global,
    known: &Known<'_>,
    name: &str,
    values: &[Scalar],
) -> Result<Marks, AllocError>
    ensures { IfOk result (λ m. m ≡ map (λ s. list_any (of_terms.is_one_of (scalars_view values.now)) (of_terms.terms known.now.segment.now.mapping s name.now)) known.now.segment.now.sources) }
{
    let mut marks = none(alloc, known.segment)?;
    for value in values {
        known.mark_term(name, value, &mut marks);
    }
    Ok(marks)
}

/// Those in which each of the values is a term of the field.
fn with_each(
    alloc: Global,
    known: &Known<'_>,
    name: &str,
    values: &[Scalar],
) -> Result<Marks, AllocError>
    ensures { IfOk result (λ m. m ≡ map (λ s. list_all (of_terms.has (of_terms.terms known.now.segment.now.mapping s name.now)) (scalars_view values.now)) known.now.segment.now.sources) }
{
    let mut marks = all(alloc, known.segment)?;
    for value in values {
        marks.intersect(&known_term(alloc, known, name, value)?);
    }
    Ok(marks)
}

/// Those in which one of the tokens is a term of the field, or there is one and all are.
fn with_tokens(
    alloc: Global,
    known: &Known<'_>,
    name: &str,
    operator: Operator,
    tokens: &[Scalar],
) -> Result<Marks, AllocError>
    ensures { IfOk result (λ m. m ≡ map (λ s. spec.has_tokens operator (of_terms.terms known.now.segment.now.mapping s name.now) (scalars_view tokens.now)) known.now.segment.now.sources) }
{
    match operator {
        Operator::Or => with_any(alloc, known, name, tokens),
        Operator::And => {
            if tokens.is_empty() {
                return none(alloc, known.segment);
            }
            with_each(alloc, known, name, tokens)
        }
    }
}

/// Those in which a term of the field begins with the text.
fn with_prefix(
    alloc: Global,
    segment: &Segment,
    name: &str,
    text: &str,
) -> Result<Marks, AllocError>
    ensures { IfOk result (λ m. m ≡ map (λ s. list_any (of_terms.begins_with text.now) (of_terms.terms segment.now.mapping s name.now)) segment.now.sources) }
{
    let mut marks = none(alloc, segment)?;
    segment.mark_prefix(alloc, name, text, &mut marks)?;
    Ok(marks)
}

/// Those in which a term of the field lies within the bounds.
fn within(
    alloc: Global,
    segment: &Segment,
    name: &str,
    bounds: &Bounds,
) -> Result<Marks, AllocError>
    ensures { IfOk result (λ m. m ≡ map (λ s. list_any (of_terms.is_within (bounds_view bounds.now)) (of_terms.terms segment.now.mapping s name.now)) segment.now.sources) }
{
    let mut marks = none(alloc, segment)?;
    segment.mark_within(name, bounds, &mut marks);
    Ok(marks)
}

/// Those in which the field has a value.
fn with_value(alloc: Global, segment: &Segment, name: &str) -> Result<Marks, AllocError>
    ensures { IfOk result (λ m. m ≡ map (λ s. has_value name.now (all_values segment.now.mapping s)) segment.now.sources) }
{
    let mut marks = none(alloc, segment)?;
    segment.mark_exists(name, &mut marks);
    Ok(marks)
}
