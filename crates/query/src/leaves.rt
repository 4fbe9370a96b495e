//! Queries without parts.
ghost use Rattle.std.specs.Prelude.{◌≡◌, length, option_map, Ok, IfSome};
ghost use Rattle.std.specs.List.{list_all};
ghost use Rattle.doc.specs.Entries.{elements};
ghost use Rattle.doc.specs.Outcome.{Gives, try_map};
ghost use Rattle.doc.specs.ScalarView.{scalar_view, scalars_view};
ghost use Rattle.serde_json.specs.View.{view, items_view};
ghost use Rattle.query.specs.Fault.{fault_of, wrong_kind as wrong_kind_of};
ghost use Rattle.query.specs.Leaves as spec;
ghost use Rattle.query.specs.LeavesView.{written_view};
ghost use Rattle.query.specs.Query.{prefix as spec_prefix};
ghost use Rattle.query.specs.Shape as shape;
ghost use Rattle.query.specs.View.{query_view};

use crate::fault::QueryFault;
use crate::query::{Operator, Query};
use crate::seen::distinct;
use crate::shape::{
    Keys, bad_at, check_keys, is_value, items_in, only_of, required, text_in, value_of,
};
use analysis::{Bounds, terms_of_value};
use doc::scalar::MAX_KEYWORD;
use doc::{Converted, Kind, Mapping, Scalar, convert};
use serde_json::Value;
use std::alloc::Global;

/// How many values `terms` may have.
const MAX_TERMS: usize = 65_536;

/// A query without parts, by its name.
#[tactic(auto, unfolding(crate::specs::Leaves::leaf_of))]
pub(crate) fn leaf_of(
    alloc: Global,
    mapping: &Mapping,
    name: &str,
    body: &Value,
) -> Result<Query, QueryFault>
    ensures { Gives fault_of query_view result (spec.leaf_of mapping.now name.now (view body.now)) }
{
    if name == "match_all" {
        match_all_of(alloc, body)
    } else if name == "term" {
        term_of(alloc, mapping, body)
    } else if name == "terms" {
        terms_of(alloc, mapping, body)
    } else if name == "match" {
        match_of(alloc, mapping, body)
    } else if name == "prefix" {
        prefix_of(alloc, mapping, body)
    } else if name == "range" {
        range_of(alloc, mapping, body)
    } else if name == "exists" {
        exists_of(alloc, mapping, body)
    } else {
        Err(bad_at(alloc, name, "this query isn't known"))
    }
}

fn match_all_of(alloc: Global, body: &Value) -> Result<Query, QueryFault>
    ensures { Gives fault_of query_view result (spec.match_all_of (view body.now)) }
{
    check_keys(alloc, Keys::MatchAll, body)?;
    Ok(Query::MatchAll)
}

#[tactic(auto, unfolding(crate::specs::Leaves::term_of))]
fn term_of(alloc: Global, mapping: &Mapping, body: &Value) -> Result<Query, QueryFault>
    ensures { Gives fault_of query_view result (spec.term_of mapping.now (view body.now)) }
{
    let (field, value) = only_of(alloc, "term", body)?;
    let value = value_of(alloc, Keys::Value, "value", value)?;
    term_at(alloc, field, mapping.kind(field), value)
}

fn term_at(
    alloc: Global,
    field: &str,
    kind: Option<Kind>,
    value: &Value,
) -> Result<Query, QueryFault>
    ensures { Gives fault_of query_view result (spec.term_at field.now kind (view value.now)) }
{
    let Some(kind) = kind else {
        return Ok(Query::Nothing);
    };
    let value = scalar_of(alloc, field, kind, value)?;
    Ok(Query::Term(String::from_str(alloc, field)?, value))
}

#[tactic(auto, unfolding(crate::specs::Leaves::terms_of))]
fn terms_of(alloc: Global, mapping: &Mapping, body: &Value) -> Result<Query, QueryFault>
    ensures { Gives fault_of query_view result (spec.terms_of mapping.now (view body.now)) }
{
    let (field, values) = only_of(alloc, "terms", body)?;
    let values = items_in(alloc, field, values)?;
    check_few(values)?;
    check_values(alloc, field, values)?;
    terms_at(alloc, field, mapping.kind(field), values)
}

fn check_few(values: &[Value]) -> Result<(), QueryFault>
    ensures { Gives fault_of (λ u. u) result (spec.few (elements (items_view values.now))) }
{
    if count(values) > MAX_TERMS {
        return Err(QueryFault::TooManyClauses);
    }
    Ok(())
}

fn count(values: &[Value]) -> usize
    ensures { result ≡ length (elements (items_view values.now)) }
{
    values.len()
}

fn check_values(alloc: Global, field: &str, values: &[Value]) -> Result<(), QueryFault>
    ensures { Gives fault_of (λ u. u) result (shape.check (list_all shape.is_value (elements (items_view values.now)))) }
{
    for value in values {
        if !is_value(value) {
            return Err(bad_at(alloc, field, "a text, a number or a truth value is wanted"));
        }
    }
    Ok(())
}

fn terms_at(
    alloc: Global,
    field: &str,
    kind: Option<Kind>,
    values: &[Value],
) -> Result<Query, QueryFault>
    ensures { Gives fault_of query_view result (spec.terms_at field.now kind (elements (items_view values.now))) }
{
    let Some(kind) = kind else {
        return Ok(Query::Nothing);
    };
    let values = distinct(alloc, scalars_of(alloc, field, kind, values)?)?;
    Ok(Query::Terms(String::from_str(alloc, field)?, values))
}

fn scalars_of(
    alloc: Global,
    field: &str,
    kind: Kind,
    values: &[Value],
) -> Result<Vec<Scalar>, QueryFault>
    ensures { Gives fault_of (λ v. scalars_view v.items) result (try_map (spec.scalar_of field.now kind) (elements (items_view values.now))) }
{
    let mut found = Vec::new(alloc);
    for value in values {
        let scalar = scalar_of(alloc, field, kind, value)?;
        found.push(scalar)?;
    }
    Ok(found)
}

#[tactic(auto, unfolding(crate::specs::Leaves::match_of))]
fn match_of(alloc: Global, mapping: &Mapping, body: &Value) -> Result<Query, QueryFault>
    ensures { Gives fault_of query_view result (spec.match_of mapping.now (view body.now)) }
{
    let (field, body) = only_of(alloc, "match", body)?;
    let value = value_of(alloc, Keys::Match, "query", body)?;
    let operator = operator_of(alloc, body.get("operator"))?;
    match_at(alloc, field, operator, mapping.kind(field), value)
}

fn operator_of(alloc: Global, value: Option<&Value>) -> Result<Operator, QueryFault>
    ensures { Gives fault_of (λ o. o) result (spec.operator_of (option_map (λ v. view v.now) value.entry)) }
{
    match value {
        None => Ok(Operator::Or),
        Some(value) => operator_named(alloc, text_in(alloc, "operator", value)?),
    }
}

fn operator_named(alloc: Global, name: &str) -> Result<Operator, QueryFault>
    ensures { Gives fault_of (λ o. o) result (spec.operator_named name.now) }
{
    match name {
        "or" | "OR" => Ok(Operator::Or),
        "and" | "AND" => Ok(Operator::And),
        _ => Err(bad_at(alloc, "operator", "`or` or `and` is wanted")),
    }
}

fn match_at(
    alloc: Global,
    field: &str,
    operator: Operator,
    kind: Option<Kind>,
    value: &Value,
) -> Result<Query, QueryFault>
    ensures { Gives fault_of query_view result (spec.match_at field.now operator kind (view value.now)) }
{
    match kind {
        None => Ok(Query::Nothing),
        Some(Kind::Text) => {
            let text = scalar_of(alloc, field, Kind::Text, value)?;
            let tokens = distinct(alloc, terms_of_value(alloc, &text)?)?;
            let field = String::from_str(alloc, field)?;
            Ok(Query::Match(field, operator, tokens))
        }
        Some(kind) => term_at(alloc, field, Some(kind), value),
    }
}

#[tactic(auto, unfolding(crate::specs::Leaves::prefix_of))]
fn prefix_of(alloc: Global, mapping: &Mapping, body: &Value) -> Result<Query, QueryFault>
    ensures { Gives fault_of query_view result (spec.prefix_of mapping.now (view body.now)) }
{
    let (field, body) = only_of(alloc, "prefix", body)?;
    let value = value_of(alloc, Keys::Value, "value", body)?;
    let text = text_in(alloc, "value", value)?;
    prefix_at(alloc, field, mapping.kind(field), text)
}

#[tactic(auto, unfolding(doc::specs::Scalar::converted))]
fn prefix_at(
    alloc: Global,
    field: &str,
    kind: Option<Kind>,
    text: &str,
) -> Result<Query, QueryFault>
    ensures { Gives fault_of query_view result (spec.prefix_at field.now kind text.now) }
{
    match kind {
        None => Ok(Query::Nothing),
        Some(Kind::Keyword) => {
            if text.len() > MAX_KEYWORD {
                return Err(wrong_kind(alloc, field));
            }
            prefix(alloc, field, text)
        }
        Some(Kind::Text) => prefix(alloc, field, text),
        Some(_) => Err(wrong_kind(alloc, field)),
    }
}

fn prefix(alloc: Global, field: &str, text: &str) -> Result<Query, QueryFault>
    ensures { Gives fault_of query_view result (Ok (spec_prefix field.now text.now)) }
{
    let field = String::from_str(alloc, field)?;
    Ok(Query::Prefix(field, String::from_str(alloc, text)?))
}

/// The bounds of a range as they are written.
#[derive(Clone, Copy)]
struct WrittenBounds<'a> {
    gt: Option<&'a Value>,
    gte: Option<&'a Value>,
    lt: Option<&'a Value>,
    lte: Option<&'a Value>,
}

#[tactic(auto, unfolding(crate::specs::Leaves::range_of))]
fn range_of(alloc: Global, mapping: &Mapping, body: &Value) -> Result<Query, QueryFault>
    ensures { Gives fault_of query_view result (spec.range_of mapping.now (view body.now)) }
{
    let (field, body) = only_of(alloc, "range", body)?;
    let written = written_in(alloc, body)?;
    range_at(alloc, field, mapping.kind(field), written)
}

#[tactic(auto, unfolding(crate::specs::Leaves::written_in))]
fn written_in<'a>(alloc: Global, body: &'a Value) -> Result<WrittenBounds<'a>, QueryFault>
    ensures { Gives fault_of written_view result (spec.written_in (view body.now)) }
{
    check_keys(alloc, Keys::Range, body)?;
    let gt = bound_in(alloc, "gt", body.get("gt"))?;
    let gte = bound_in(alloc, "gte", body.get("gte"))?;
    let lt = bound_in(alloc, "lt", body.get("lt"))?;
    let lte = bound_in(alloc, "lte", body.get("lte"))?;
    Ok(WrittenBounds { gt, gte, lt, lte })
}

fn bound_in<'a>(
    alloc: Global,
    key: &str,
    value: Option<&'a Value>,
) -> Result<Option<&'a Value>, QueryFault>
    ensures { Gives fault_of (option_map (λ v. view v.now)) result (spec.bound_in (option_map (λ v. view v.now) value.entry)) }
{
    let Some(value) = value else {
        return Ok(None);
    };
    match value {
        Value::Null => Ok(None),
        Value::Array(_) | Value::Object(_) => {
            Err(bad_at(alloc, key, "a text, a number or a truth value is wanted"))
        }
        _ => Ok(Some(value)),
    }
}

fn range_at(
    alloc: Global,
    field: &str,
    kind: Option<Kind>,
    written: WrittenBounds<'_>,
) -> Result<Query, QueryFault>
    ensures { Gives fault_of query_view result (spec.range_at field.now kind (written_view written.entry)) }
{
    match kind {
        None => Ok(Query::Nothing),
        Some(Kind::Boolean) => Err(wrong_kind(alloc, field)),
        Some(kind) => bounds_at(alloc, field, kind, written),
    }
}

#[tactic(auto, unfolding(crate::specs::Leaves::bounds_at))]
fn bounds_at(
    alloc: Global,
    field: &str,
    kind: Kind,
    written: WrittenBounds<'_>,
) -> Result<Query, QueryFault>
    ensures { Gives fault_of query_view result (spec.bounds_at field.now kind (written_view written.entry)) }
{
    let gt = bound_at(alloc, field, kind, written.gt)?;
    let gte = bound_at(alloc, field, kind, written.gte)?;
    let lt = bound_at(alloc, field, kind, written.lt)?;
    let lte = bound_at(alloc, field, kind, written.lte)?;
    let field = String::from_str(alloc, field)?;
    Ok(Query::Range(field, Bounds { gt, gte, lt, lte }))
}

fn bound_at(
    alloc: Global,
    field: &str,
    kind: Kind,
    value: Option<&Value>,
) -> Result<Option<Scalar>, QueryFault>
    ensures { Gives fault_of (option_map scalar_view) result (spec.bound_at field.now kind (option_map (λ v. view v.now) value.entry)) }
{
    match value {
        None => Ok(None),
        Some(value) => Ok(Some(scalar_of(alloc, field, kind, value)?)),
    }
}

/// The value of the field's type that a JSON value is.
fn scalar_of(alloc: Global, field: &str, kind: Kind, value: &Value) -> Result<Scalar, QueryFault>
    ensures { Gives fault_of scalar_view result (spec.scalar_of field.now kind (view value.now)) }
{
    match convert(alloc, kind, value)? {
        Converted::Value(scalar) => Ok(scalar),
        _ => Err(wrong_kind(alloc, field)),
    }
}

fn wrong_kind(alloc: Global, field: &str) -> QueryFault
    ensures { IfSome (fault_of result) (λ f. f ≡ wrong_kind_of field.now) }
{
    match String::from_str(alloc, field) {
        Ok(field) => QueryFault::WrongKind(field),
        Err(_) => QueryFault::NoMemory,
    }
}

#[tactic(auto, unfolding(crate::specs::Leaves::exists_of))]
fn exists_of(alloc: Global, mapping: &Mapping, body: &Value) -> Result<Query, QueryFault>
    ensures { Gives fault_of query_view result (spec.exists_of mapping.now (view body.now)) }
{
    check_keys(alloc, Keys::Field, body)?;
    let field = text_in(alloc, "field", required(alloc, "field", body.get("field"))?)?;
    match mapping.kind(field) {
        None => Ok(Query::Nothing),
        Some(_) => Ok(Query::Exists(String::from_str(alloc, field)?)),
    }
}
