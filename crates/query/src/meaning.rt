//! What a query means of a document.
ghost use Rattle.std.specs.Prelude.{◌≡◌, ◌≤◌, IfOk, length, map, flat_map, nat_lt};
ghost use Rattle.std.specs.List.{list_any, list_all};
ghost use Rattle.doc.specs.Document.{values_at};
ghost use Rattle.doc.specs.ScalarView.{scalar_view, scalars_view, values_view};
ghost use Rattle.query.specs.Asked.{passes};
ghost use Rattle.query.specs.Meaning as spec;
ghost use Rattle.analysis.specs.Terms as of_terms;
ghost use Rattle.query.specs.Query.{queries_of, count_of};
ghost use Rattle.query.specs.View.{query_view};

use crate::asked::Asked;
use crate::query::{Operator, Query};
use analysis::terms_of_value;
use doc::{Doc, FieldValues, Kind, Mapping, Scalar};
use std::alloc::{AllocError, Global};

impl Query {
    /// Whether the query means the document, which was read under the mapping.
    pub fn matches(&self, alloc: Global, mapping: &Mapping, doc: &Doc) -> Result<bool, AllocError>
        ensures { IfOk result (λ b. b ≡ spec.matches mapping.now.fields doc.now.values (query_view self.now)) }
    {
        matches(alloc, mapping, doc, self)
    }
}

#[cycle(matches)]
fn matches(alloc: Global, mapping: &Mapping, doc: &Doc, query: &Query) -> Result<bool, AllocError>
    ensures { IfOk result (λ b. b ≡ spec.matches mapping.now.fields doc.now.values (query_view query.now)) }
{
    match query {
        Query::MatchAll => Ok(true),
        Query::Nothing => Ok(false),
        Query::Term(field, value) => some_term(alloc, mapping, doc, field, Asked::Is(value)),
        Query::Terms(field, values) => {
            some_term(alloc, mapping, doc, field, Asked::IsOneOf(values))
        }
        Query::Match(field, operator, tokens) => {
            has_tokens(alloc, mapping, doc, field, *operator, tokens)
        }
        Query::Prefix(field, text) => {
            some_term(alloc, mapping, doc, field, Asked::BeginsWith(text.as_str()))
        }
        Query::Range(field, bounds) => {
            some_term(alloc, mapping, doc, field, Asked::IsWithin(bounds))
        }
        Query::Exists(field) => Ok(has_value(doc.fields(), field)),
        Query::Bool {
            filter,
            must,
            must_not,
            should,
            minimum_should_match,
        } => {
            if !all_match(alloc, mapping, doc, filter)? {
                return Ok(false);
            }
            if !all_match(alloc, mapping, doc, must)? {
                return Ok(false);
            }
            if !none_matches(alloc, mapping, doc, must_not)? {
                return Ok(false);
            }
            let found = matching(alloc, mapping, doc, should)?;
            let wanted = wanted(
                count(filter),
                count(must),
                count(should),
                *minimum_should_match,
            );
            Ok(wanted <= found)
        }
    }
}

#[cycle(matches)]
fn all_match(
    alloc: Global,
    mapping: &Mapping,
    doc: &Doc,
    queries: &[Query],
) -> Result<bool, AllocError>
    ensures { IfOk result (λ b. b ≡ spec.all_match mapping.now.fields doc.now.values (queries_of (map query_view queries.now))) }
{
    for query in queries {
        if !matches(alloc, mapping, doc, query)? {
            return Ok(false);
        }
    }
    Ok(true)
}

#[cycle(matches)]
fn none_matches(
    alloc: Global,
    mapping: &Mapping,
    doc: &Doc,
    queries: &[Query],
) -> Result<bool, AllocError>
    ensures { IfOk result (λ b. b ≡ spec.none_matches mapping.now.fields doc.now.values (queries_of (map query_view queries.now))) }
{
    for query in queries {
        if matches(alloc, mapping, doc, query)? {
            return Ok(false);
        }
    }
    Ok(true)
}

/// How many queries mean the document.
#[cycle(matches)]
fn matching(
    alloc: Global,
    mapping: &Mapping,
    doc: &Doc,
    queries: &[Query],
) -> Result<u64, AllocError>
    ensures { IfOk result (λ n. n ≡ spec.matching mapping.now.fields doc.now.values (queries_of (map query_view queries.now))) }
{
    let mut found = 0u64;
    for query in queries {
        if matches(alloc, mapping, doc, query)? {
            found += 1;
        }
    }
    Ok(found)
}

/// How many queries of `should` are wanted.
fn wanted(filter: usize, must: usize, should: usize, minimum: u64) -> u64
    ensures { result ≡ spec.wanted filter must should minimum }
{
    if minimum == 0 && filter == 0 && must == 0 && should > 0 {
        1
    } else {
        minimum
    }
}

fn count(queries: &[Query]) -> usize
    ensures { result ≡ count_of (queries_of (map query_view queries.now)) }
{
    queries.len()
}

/// Whether some term of the field passes.
fn some_term(
    alloc: Global,
    mapping: &Mapping,
    doc: &Doc,
    name: &str,
    asked: Asked<'_>,
) -> Result<bool, AllocError>
    ensures { IfOk result (λ b. b ≡ list_any (passes asked.entry) (of_terms.terms_at mapping.now.fields doc.now.values name.now)) }
{
    match mapping.kind(name) {
        None => Ok(false),
        Some(Kind::Text) => some_token(alloc, doc.fields(), name, asked),
        Some(_) => Ok(some_value(doc.fields(), name, asked)),
    }
}

/// Whether one of the tokens is a term of the field, or there is one and all are.
fn has_tokens(
    alloc: Global,
    mapping: &Mapping,
    doc: &Doc,
    name: &str,
    operator: Operator,
    tokens: &[Scalar],
) -> Result<bool, AllocError>
    ensures { IfOk result (λ b. b ≡ spec.has_tokens operator (of_terms.terms_at mapping.now.fields doc.now.values name.now) (scalars_view tokens.now)) }
{
    match operator {
        Operator::Or => some_term(alloc, mapping, doc, name, Asked::IsOneOf(tokens)),
        Operator::And => {
            if tokens.is_empty() {
                return Ok(false);
            }
            all_terms(alloc, mapping, doc, name, tokens)
        }
    }
}

/// Whether all values are terms of the field.
fn all_terms(
    alloc: Global,
    mapping: &Mapping,
    doc: &Doc,
    name: &str,
    values: &[Scalar],
) -> Result<bool, AllocError>
    ensures { IfOk result (λ b. b ≡ list_all (of_terms.has (of_terms.terms_at mapping.now.fields doc.now.values name.now)) (scalars_view values.now)) }
{
    for value in values {
        if !some_term(alloc, mapping, doc, name, Asked::Is(value))? {
            return Ok(false);
        }
    }
    Ok(true)
}

/// Whether the field has a value.
fn has_value(fields: &[FieldValues], name: &str) -> bool
    ensures { result ≡ nat_lt 0 (length (values_at name.now (values_view fields.now))) }
{
    for field in fields {
        if field.name.as_str() == name && !field.values.is_empty() {
            return true;
        }
    }
    false
}

/// Whether some value of the field passes.
fn some_value(fields: &[FieldValues], name: &str, asked: Asked<'_>) -> bool
    ensures { result ≡ list_any (passes asked.entry) (values_at name.now (values_view fields.now)) }
{
    for field in fields {
        if field.name.as_str() == name && some_passes(&field.values, asked) {
            return true;
        }
    }
    false
}

/// Whether some token of the field's values passes.
fn some_token(
    alloc: Global,
    fields: &[FieldValues],
    name: &str,
    asked: Asked<'_>,
) -> Result<bool, AllocError>
    ensures { IfOk result (λ b. b ≡ list_any (passes asked.entry) (flat_map of_terms.terms_of_value (values_at name.now (values_view fields.now)))) }
{
    for field in fields {
        if field.name.as_str() == name && some_token_of(alloc, &field.values, asked)? {
            return Ok(true);
        }
    }
    Ok(false)
}

fn some_token_of(alloc: Global, values: &[Scalar], asked: Asked<'_>) -> Result<bool, AllocError>
    ensures { IfOk result (λ b. b ≡ list_any (passes asked.entry) (flat_map of_terms.terms_of_value (scalars_view values.now))) }
{
    for value in values {
        let terms = terms_of_value(alloc, value)?;
        if some_passes(&terms, asked) {
            return Ok(true);
        }
    }
    Ok(false)
}

fn some_passes(values: &[Scalar], asked: Asked<'_>) -> bool
    ensures { result ≡ list_any (passes asked.entry) (scalars_view values.now) }
{
    for value in values {
        if asked.passes(value) {
            return true;
        }
    }
    false
}
