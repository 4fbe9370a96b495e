//! The lines of a bulk: action lines, and a source line after each `index` or `create`. A server that greets reads over empty lines and the type `_doc`.
ghost use Rattle.std.specs.Prelude.{◌≡◌, map, string_bytes, option_map, option_copied, Ok};
ghost use Rattle.serde_json.specs.Read.{read};
ghost use Rattle.serde_json.specs.View.{view, members_view};
ghost use Rattle.doc.specs.Mapping.{all_keys};
ghost use Rattle.doc.specs.Outcome.{Gives};
ghost use Rattle.wire.specs.Pieces as pieces;
ghost use Rattle.front.specs.Target.{check};
ghost use Rattle.front.specs.BulkReading as spec;
ghost use Rattle.front.specs.BulkView.{item_view};
ghost use Rattle.front.specs.Fault.{fault_of, bad_bulk};
ghost use Rattle.front.specs.LineView.{line_view};

use crate::bulk::{Action, Item};
use crate::command::Condition;
use crate::json_text::value_in;
use crate::request_fault::RequestFault;
use serde_json::{Map, Value};
use std::alloc::Global;
use wire::{cut_at, text_of};

/// What an action line says.
#[derive(Drop)]
pub(crate) struct Line {
    pub(crate) action: Action,
    pub(crate) id: String,
    pub(crate) index: String,
    pub(crate) condition: Option<Condition>,
}

impl Line {
    fn with<'b>(self, source: &'b [u8]) -> Item<'b>
        ensures { item_view result ≡ spec.item_of (line_view self) source.now }
    {
        let Line {
            action,
            id,
            index,
            condition,
        } = self;
        Item {
            action,
            id,
            index,
            condition,
            source,
        }
    }
}

impl Action {
    pub(crate) fn takes_source(self) -> bool
        ensures { result ≡ spec.takes_source self }
    {
        match self {
            Action::Index | Action::Create => true,
            Action::Delete => false,
        }
    }
}

/// What an action line says. If it names no index, the index of the path is taken.
#[tactic(auto, unfolding(crate::specs::BulkReading::line_of))]
pub(crate) fn line_of(
    alloc: Global,
    greets: bool,
    path: Option<&str>,
    line: &[u8],
) -> Result<Line, RequestFault>
    ensures { Gives fault_of line_view result (spec.line_of greets (option_copied path.entry) line.now) }
{
    let value = line_value(alloc, line)?;
    let members = members_of(&value)?;
    let (name, said) = only(members)?;
    let action = action_of(name)?;
    let keys = members_of(said)?;
    check_keys(greets, keys)?;
    check_type(said.get("_type"))?;
    let id = text_in(alloc, said.get("_id"))?;
    let index = text_or(alloc, path, said.get("_index"))?;
    let seq = number_in(said.get("if_seq_no"))?;
    let term = number_in(said.get("if_primary_term"))?;
    let condition = condition_in(action, seq, term)?;
    Ok(Line {
        action,
        id,
        index,
        condition,
    })
}

fn line_value(alloc: Global, line: &[u8]) -> Result<Value, RequestFault>
    ensures { Gives fault_of view result (spec.line_value (pieces.text_of line.now)) }
{
    match text_of(line) {
        Some(text) => text_value(alloc, text),
        None => Err(RequestFault::BadBulk),
    }
}

fn text_value(alloc: Global, text: &str) -> Result<Value, RequestFault>
    ensures { Gives fault_of view result (spec.value_or_bad (read text.now)) }
{
    match value_in(alloc, text)? {
        Some(value) => Ok(value),
        None => Err(RequestFault::BadBulk),
    }
}

pub(crate) fn members_of(value: &Value) -> Result<&Map<String, Value>, RequestFault>
    ensures { Gives fault_of (λ m. members_view m.now.entries) result (spec.members_of (view value.now)) }
{
    match value {
        Value::Object(members) => Ok(members),
        _ => Err(RequestFault::BadBulk),
    }
}

pub(crate) fn only(members: &Map<String, Value>) -> Result<(&str, &Value), RequestFault>
    ensures { Gives fault_of (λ x. (x.0.now, view x.1.now)) result (spec.only (members_view members.now.entries)) }
{
    let mut entries = members.iter();
    let Some((name, body)) = entries.next() else {
        return Err(RequestFault::BadBulk);
    };
    if entries.next().is_some() {
        return Err(RequestFault::BadBulk);
    }
    Ok((name.as_str(), body))
}

pub(crate) fn action_of(name: &str) -> Result<Action, RequestFault>
    ensures { Gives fault_of (λ a. a) result (spec.action_of name.now) }
{
    if name == "index" {
        Ok(Action::Index)
    } else if name == "create" {
        Ok(Action::Create)
    } else if name == "delete" {
        Ok(Action::Delete)
    } else {
        Err(RequestFault::BadBulk)
    }
}

fn check_keys(greets: bool, members: &Map<String, Value>) -> Result<(), RequestFault>
    ensures { Gives fault_of (λ u. u) result (check (all_keys (spec.is_line_key greets) (members_view members.now.entries)) bad_bulk) }
{
    for (name, _) in members {
        if !is_line_key(greets, name.as_str()) {
            return Err(RequestFault::BadBulk);
        }
    }
    Ok(())
}

pub(crate) fn is_line_key(greets: bool, name: &str) -> bool
    ensures { result ≡ spec.is_line_key greets name.now }
{
    matches!(name, "_id" | "_index" | "if_seq_no" | "if_primary_term")
        || (greets && name == "_type")
}

/// Checks that a type is `_doc`, if there is one.
pub(crate) fn check_type(value: Option<&Value>) -> Result<(), RequestFault>
    ensures { Gives fault_of (λ u. u) result (check (spec.is_known_type (option_map (λ v. view v.now) value.entry)) bad_bulk) }
{
    match value {
        None => Ok(()),
        Some(Value::String(text)) => if text.as_str() == "_doc" {
            Ok(())
        } else {
            Err(RequestFault::BadBulk)
        },
        Some(_) => Err(RequestFault::BadBulk),
    }
}

fn text_in(alloc: Global, value: Option<&Value>) -> Result<String, RequestFault>
    ensures { Gives fault_of string_bytes result (spec.text_in (option_map (λ v. view v.now) value.entry)) }
{
    match value {
        Some(Value::String(text)) => Ok(String::from_str(alloc, text.as_str())?),
        _ => Err(RequestFault::BadBulk),
    }
}

/// The text of a member. If the member is missing, the index of the path.
fn text_or(alloc: Global, path: Option<&str>, value: Option<&Value>) -> Result<String, RequestFault>
    ensures { Gives fault_of string_bytes result (spec.text_or (option_copied path.entry) (option_map (λ v. view v.now) value.entry)) }
{
    match (path, value) {
        (Some(path), None) => Ok(String::from_str(alloc, path)?),
        _ => text_in(alloc, value),
    }
}

fn number_in(value: Option<&Value>) -> Result<Option<u64>, RequestFault>
    ensures { Gives fault_of (λ n. n) result (spec.number_in (option_map (λ v. view v.now) value.entry)) }
{
    let Some(value) = value else {
        return Ok(None);
    };
    match value.as_u64() {
        Some(number) => if number < 1 << 63 {
            Ok(Some(number))
        } else {
            Err(RequestFault::BadBulk)
        },
        None => Err(RequestFault::BadBulk),
    }
}

fn condition_in(
    action: Action,
    seq: Option<u64>,
    term: Option<u64>,
) -> Result<Option<Condition>, RequestFault>
    ensures { Gives fault_of (λ c. c) result (spec.condition_in action seq term) }
{
    match (seq, term) {
        (None, None) => Ok(None),
        (Some(seq), Some(term)) => match action {
            Action::Create => Err(RequestFault::BadBulk),
            Action::Index | Action::Delete => Ok(Some(Condition { seq, term })),
        },
        _ => Err(RequestFault::BadBulk),
    }
}

/// Takes one more line, and returns the action line that waits for its source then, if any.
fn take_line<'b>(
    alloc: Global,
    greets: bool,
    path: Option<&str>,
    waiting: Option<Line>,
    line: &'b [u8],
    items: &mut Vec<Item<'b>>,
) -> Result<Option<Line>, RequestFault>
    ensures { Gives fault_of (λ w. (option_map line_view w, map item_view items.new.items)) result
        (spec.took_more greets (option_copied path.entry) (option_map line_view waiting) line.now (map item_view items.old.items)) }
{
    match waiting {
        Some(begun) => {
            items.push(begun.with(line))?;
            Ok(None)
        }
        None => if greets && is_blank(line) {
            Ok(None)
        } else {
            begin_line(alloc, greets, path, line, items)
        },
    }
}

/// Whether a line is empty. It may end with "\r\n".
pub(crate) fn is_blank(line: &[u8]) -> bool
    ensures { result ≡ spec.is_blank line.now }
{
    line.is_empty() || line == b"\r".as_slice()
}

fn begin_line<'b>(
    alloc: Global,
    greets: bool,
    path: Option<&str>,
    line: &'b [u8],
    items: &mut Vec<Item<'b>>,
) -> Result<Option<Line>, RequestFault>
    ensures { Gives fault_of (λ w. (option_map line_view w, map item_view items.new.items)) result
        (spec.begun_more greets (option_copied path.entry) line.now (map item_view items.old.items)) }
{
    let begun = line_of(alloc, greets, path, line)?;
    if begun.action.takes_source() {
        return Ok(Some(begun));
    }
    items.push(begun.with(b""))?;
    Ok(None)
}

/// The items of a bulk's body. All its action lines are read before anything is done; a body of another shape is `BadBulk`.
#[tactic(auto, unfolding(crate::specs::BulkReading::items_in))]
pub(crate) fn items_in<'b>(
    alloc: Global,
    greets: bool,
    path: Option<&str>,
    body: &'b [u8],
) -> Result<Vec<Item<'b>>, RequestFault>
    ensures { Gives fault_of (λ items. map item_view items.items) result (spec.items_in greets (option_copied path.entry) body.now) }
{
    let mut items = Vec::new(alloc);
    let mut waiting: Option<Line> = None;
    let mut rest = body;
    'lines: loop {
        let (line, after) = cut_at(rest, b'\n');
        let Some(after) = after else {
            return ended(waiting, line, items);
        };
        waiting = take_line(alloc, greets, path, waiting, line, &mut items)?;
        rest = after;
    }
}

fn ended<'b>(
    waiting: Option<Line>,
    rest: &[u8],
    items: Vec<Item<'b>>,
) -> Result<Vec<Item<'b>>, RequestFault>
    ensures { Gives fault_of (λ items. map item_view items.items) result
        (spec.ended_whole (option_map line_view waiting) rest.now (map item_view items.entry.items)) }
{
    if waiting.is_some() || !rest.is_empty() || items.is_empty() {
        return Err(RequestFault::BadBulk);
    }
    Ok(items)
}
