//! How a query is read: its levels, its clauses, and the parts of a `bool`.
ghost use Rattle.std.specs.Prelude.{◌≡◌, map, option_map};
ghost use Rattle.serde_json.specs.View.{view, items_view};
ghost use Rattle.doc.specs.Entries.{elements};
ghost use Rattle.doc.specs.Outcome.{Gives};
ghost use Rattle.query.specs.Fault.{fault_of};
ghost use Rattle.query.specs.PartsView.{parts_view};
ghost use Rattle.query.specs.Reading as spec;
ghost use Rattle.query.specs.View.{query_view};

use crate::fault::QueryFault;
use crate::leaves::leaf_of;
use crate::query::Query;
use crate::shape::{Keys, bad_at, check_keys, only_of, whole_number};
use doc::Mapping;
use serde_json::Value;
use std::alloc::Global;
use std::slice;

/// The greatest depth of a query; its top has depth 1.
pub const MAX_DEPTH: usize = 20;

/// How many queries there may be in a query, itself among them.
pub const MAX_CLAUSES: usize = 1024;

impl Query {
    /// The query that a JSON value is, as the Elasticsearch reference's query language has it without scores: `match_all`, `term`, `terms`,
    /// `match`, `prefix`, `range`, `exists` and `bool`. Else its first fault, each query before its parts, these in the order `filter`, `must`,
    /// `must_not`, `should`: `TooDeep`, `TooManyClauses`, `Parsing` for its form, `WrongKind` where a value doesn't fit the type of the field.
    #[tactic(auto, unfolding(crate::specs::Reading::query_of))]
    pub fn read(alloc: Global, mapping: &Mapping, value: &Value) -> Result<Query, QueryFault>
        ensures { Gives fault_of query_view result (spec.query_of mapping.now (view value.now)) }
    {
        let mut left = MAX_CLAUSES;
        query_at(alloc, mapping, MAX_DEPTH, &mut left, value)
    }
}

/// A query below which `room` levels are left, where `left` more clauses are allowed.
#[cycle(read)]
#[tactic(auto, unfolding(crate::specs::Reading::query_at))]
fn query_at(
    alloc: Global,
    mapping: &Mapping,
    room: usize,
    left: &mut usize,
    value: &Value,
) -> Result<Query, QueryFault>
    ensures { Gives fault_of (λ q. (query_view q, left.new)) result
        (spec.query_at mapping.now room left.old (view value.now)) }
{
    if room == 0 {
        return Err(QueryFault::TooDeep);
    }
    if *left == 0 {
        return Err(QueryFault::TooManyClauses);
    }
    let (name, body) = only_of(alloc, "query", value)?;
    *left -= 1;
    if name == "bool" {
        bool_of(alloc, mapping, room - 1, left, body)
    } else {
        leaf_of(alloc, mapping, name, body)
    }
}

#[cycle(read)]
#[tactic(auto, unfolding(crate::specs::Reading::bool_of))]
fn bool_of(
    alloc: Global,
    mapping: &Mapping,
    room: usize,
    left: &mut usize,
    body: &Value,
) -> Result<Query, QueryFault>
    ensures { Gives fault_of (λ q. (query_view q, left.new)) result
        (spec.bool_of (spec.query_at mapping.now room) left.old (view body.now)) }
{
    let parts = parts_of(alloc, body)?;
    let filter = queries_at(alloc, mapping, room, left, parts.filter)?;
    let must = queries_at(alloc, mapping, room, left, parts.must)?;
    let must_not = queries_at(alloc, mapping, room, left, parts.must_not)?;
    let should = queries_at(alloc, mapping, room, left, parts.should)?;
    Ok(Query::Bool {
        filter,
        must,
        must_not,
        should,
        minimum_should_match: parts.minimum,
    })
}

#[cycle(read)]
fn queries_at(
    alloc: Global,
    mapping: &Mapping,
    room: usize,
    left: &mut usize,
    values: &[Value],
) -> Result<Vec<Query>, QueryFault>
    ensures { Gives fault_of (λ v. (map query_view v.items, left.new)) result
        (spec.thread (spec.query_at mapping.now room) left.old (elements (items_view values.now))) }
{
    let mut found = Vec::new(alloc);
    for value in values {
        let query = query_at(alloc, mapping, room, left, value)?;
        found.push(query)?;
    }
    Ok(found)
}

/// The parts of a `bool`.
#[derive(Clone, Copy)]
struct Parts<'a> {
    filter: &'a [Value],
    must: &'a [Value],
    must_not: &'a [Value],
    should: &'a [Value],
    minimum: u64,
}

#[tactic(auto, unfolding(crate::specs::Reading::parts_of))]
fn parts_of<'a>(alloc: Global, body: &'a Value) -> Result<Parts<'a>, QueryFault>
    ensures { Gives fault_of parts_view result (spec.parts_of (view body.now)) }
{
    check_keys(alloc, Keys::Bool, body)?;
    let filter = parts_in(alloc, "filter", body.get("filter"))?;
    let must = parts_in(alloc, "must", body.get("must"))?;
    let must_not = parts_in(alloc, "must_not", body.get("must_not"))?;
    let should = parts_in(alloc, "should", body.get("should"))?;
    let minimum = whole_number(
        alloc,
        "minimum_should_match",
        0,
        body.get("minimum_should_match"),
    )?;
    Ok(Parts {
        filter,
        must,
        must_not,
        should,
        minimum,
    })
}

/// A query or an array of queries, none where the key is absent.
fn parts_in<'a>(
    alloc: Global,
    key: &str,
    value: Option<&'a Value>,
) -> Result<&'a [Value], QueryFault>
    ensures { Gives fault_of (λ s. elements (items_view s.now)) result
        (spec.parts_in (option_map (λ v. view v.now) value.entry)) }
{
    match value {
        None => Ok(&[]),
        Some(value) => match value {
            Value::Array(items) => Ok(items),
            Value::Object(_) => Ok(slice::from_ref(value)),
            _ => Err(bad_at(alloc, key, "a query or an array of queries is wanted")),
        },
    }
}
