//! The shapes of JSON values in a query.
ghost use Rattle.std.specs.Prelude.{◌≡◌, option_map, IfSome};
ghost use Rattle.serde_json.specs.View.{view, items_view, members_view};
ghost use Rattle.doc.specs.Entries.{elements};
ghost use Rattle.doc.specs.Outcome.{Gives};
ghost use Rattle.query.specs.Fault.{fault_of, parsing};
ghost use Rattle.query.specs.Keys.{is_key};
ghost use Rattle.query.specs.Shape as spec;

use crate::fault::QueryFault;
use serde_json::{Map, Value};
use std::alloc::Global;

/// A refusal of what stands at a key.
pub(crate) fn bad_at(alloc: Global, key: &str, wanted: &'static str) -> QueryFault
    ensures { IfSome (fault_of result) (λ f. f ≡ parsing) }
{
    match String::from_str(alloc, key) {
        Ok(key) => QueryFault::ParsingAt(key, wanted),
        Err(_) => QueryFault::NoMemory,
    }
}

/// The members of an object.
pub(crate) fn members_of(value: &Value) -> Result<&Map<String, Value>, QueryFault>
    ensures { Gives fault_of (λ m. members_view m.now.entries) result (spec.members_of (view value.now)) }
{
    match value {
        Value::Object(members) => Ok(members),
        _ => Err(QueryFault::Parsing("an object is wanted")),
    }
}

/// The one member of the object that stands at a key.
#[tactic(auto, unfolding(crate::specs::Shape::only_of))]
pub(crate) fn only_of<'a>(
    alloc: Global,
    key: &str,
    value: &'a Value,
) -> Result<(&'a str, &'a Value), QueryFault>
    ensures { Gives fault_of (λ x. (x.0.now, view x.1.now)) result (spec.only_of (view value.now)) }
{
    only(alloc, key, members_of(value)?)
}

fn only<'a>(
    alloc: Global,
    key: &str,
    members: &'a Map<String, Value>,
) -> Result<(&'a str, &'a Value), QueryFault>
    ensures { Gives fault_of (λ x. (x.0.now, view x.1.now)) result (spec.only (members_view members.now.entries)) }
{
    let mut entries = members.iter();
    let Some((name, body)) = entries.next() else {
        return Err(bad_at(alloc, key, "one key is wanted"));
    };
    if entries.next().is_some() {
        return Err(bad_at(alloc, key, "one key is wanted"));
    }
    Ok((name.as_str(), body))
}

pub(crate) fn required<'a>(
    alloc: Global,
    key: &str,
    value: Option<&'a Value>,
) -> Result<&'a Value, QueryFault>
    ensures { Gives fault_of (λ v. view v.now) result (spec.required (option_map (λ v. view v.now) value.entry)) }
{
    match value {
        Some(value) => Ok(value),
        None => Err(bad_at(alloc, key, "this key is missing")),
    }
}

pub(crate) fn text_in<'a>(alloc: Global, key: &str, value: &'a Value) -> Result<&'a str, QueryFault>
    ensures { Gives fault_of (λ s. s.now) result (spec.text_in (view value.now)) }
{
    match value {
        Value::String(text) => Ok(text.as_str()),
        _ => Err(bad_at(alloc, key, "a text is wanted")),
    }
}

pub(crate) fn items_in<'a>(
    alloc: Global,
    key: &str,
    value: &'a Value,
) -> Result<&'a [Value], QueryFault>
    ensures { Gives fault_of (λ s. elements (items_view s.now)) result (spec.items_in (view value.now)) }
{
    match value {
        Value::Array(items) => Ok(items),
        _ => Err(bad_at(alloc, key, "an array is wanted")),
    }
}

/// Whether a value is neither null nor an object nor an array.
pub(crate) fn is_value(value: &Value) -> bool
    ensures { result ≡ spec.is_value (view value.now) }
{
    matches!(value, Value::Bool(_) | Value::Number(_) | Value::String(_))
}

pub(crate) fn plain<'a>(alloc: Global, key: &str, value: &'a Value) -> Result<&'a Value, QueryFault>
    ensures { Gives fault_of (λ v. view v.now) result (spec.plain (view value.now)) }
{
    if is_value(value) {
        Ok(value)
    } else {
        Err(bad_at(alloc, key, "a text, a number or a truth value is wanted"))
    }
}

/// A whole number from 0 up, and `absent` where there is none. A number with a point or an exponent is none.
pub(crate) fn whole_number(
    alloc: Global,
    key: &str,
    absent: u64,
    value: Option<&Value>,
) -> Result<u64, QueryFault>
    ensures { Gives fault_of (λ n. n) result (spec.whole_number absent (option_map (λ v. view v.now) value.entry)) }
{
    let Some(value) = value else {
        return Ok(absent);
    };
    match value.as_u64() {
        Some(number) => Ok(number),
        None => Err(bad_at(alloc, key, "a whole number from 0 up is wanted")),
    }
}

/// `boost` and `_name` are read over, as they change scores and replies that aren't given here.
fn is_ignored(name: &str) -> bool
    ensures { result ≡ spec.is_ignored name.now }
{
    name == "boost" || name == "_name"
}

/// The keys that an object of a query may have in addition to those that are skipped.
#[derive(Clone, Copy)]
pub(crate) enum Keys {
    MatchAll,
    Value,
    Field,
    Match,
    Range,
    Bool,
}

impl Keys {
    fn have(self, name: &str) -> bool
        ensures { result ≡ is_key self name.now }
    {
        match self {
            Keys::MatchAll => false,
            Keys::Value => name == "value",
            Keys::Field => name == "field",
            Keys::Match => matches!(name, "query" | "operator"),
            Keys::Range => matches!(name, "gt" | "gte" | "lt" | "lte"),
            Keys::Bool => is_bool_key(name),
        }
    }
}

fn is_bool_key(name: &str) -> bool
    ensures { result ≡ spec.is_bool_key name.now }
{
    matches!(
        name,
        "filter" | "must" | "must_not" | "should" | "minimum_should_match"
    )
}

/// Refuses an object with another key.
#[tactic(auto, unfolding(crate::specs::Shape::named))]
pub(crate) fn check_keys(alloc: Global, keys: Keys, value: &Value) -> Result<(), QueryFault>
    ensures { Gives fault_of (λ u. u) result (spec.named (is_key keys) (view value.now)) }
{
    for (name, _) in members_of(value)? {
        if !keys.have(name.as_str()) && !is_ignored(name.as_str()) {
            return Err(bad_at(alloc, name.as_str(), "this key isn't known here"));
        }
    }
    Ok(())
}

fn is_object(value: &Value) -> bool
    ensures { result ≡ spec.is_object (view value.now) }
{
    matches!(value, Value::Object(_))
}

/// The value of a field's short form, or that of its long form.
pub(crate) fn value_of<'a>(
    alloc: Global,
    keys: Keys,
    name: &str,
    value: &'a Value,
) -> Result<&'a Value, QueryFault>
    ensures { Gives fault_of (λ v. view v.now) result (spec.value_of (is_key keys) name.now (view value.now)) }
{
    if is_object(value) {
        long_form(alloc, keys, name, value)
    } else {
        plain(alloc, name, value)
    }
}

#[tactic(auto, unfolding(crate::specs::Shape::long_form))]
fn long_form<'a>(
    alloc: Global,
    keys: Keys,
    name: &str,
    value: &'a Value,
) -> Result<&'a Value, QueryFault>
    ensures { Gives fault_of (λ v. view v.now) result (spec.long_form (is_key keys) name.now (view value.now)) }
{
    check_keys(alloc, keys, value)?;
    plain(alloc, name, required(alloc, name, value.get(name))?)
}
