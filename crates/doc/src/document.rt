//! Documents.
ghost use Rattle.std.specs.Prelude.{◌≡◌, ◌++◌, ◌∷◌, ◌==◌, IfOk, OnOk, IfErr, IfSome, IsErr, option_map, [], Ok, string_bytes};
ghost use Rattle.serde_json.specs.View.{view, members_view, items_view};
ghost use Rattle.doc.specs.Outcome.{Gives, behind, some_list};
ghost use Rattle.doc.specs.Fields.{subject_at};
ghost use Rattle.doc.specs.Mapping.{within};
ghost use Rattle.doc.specs.Entries.{elements};
ghost use Rattle.doc.specs.Fault.{fault_of, wrong_value as wrong_value_of, unmapped as unmapped_of};
ghost use Rattle.doc.specs.Scalar as scalar;
ghost use Rattle.doc.specs.Document as spec;
ghost use Rattle.doc.specs.ScalarView.{scalar_view, scalars_view, field_values_view, values_view};

use crate::fault::DocFault;
use crate::mapping::{Kind, Mapping, Subject};
use crate::scalar::{Converted, FieldValues, Scalar, convert};
use crate::source::{MAX_SOURCE, Source};
use serde_json::{Map, Value};
use std::alloc::{AllocError, Global};
use std::marker::Model;
use std::{slice, str};

/// How many objects may nest in one another, the document among them.
const MAX_LEVELS: usize = 20;

/// A source, and its values under the mapping that it was read by.
pub struct Doc {
    source: Source,
    fields: Vec<FieldValues>,
}

impl Drop for Doc {
    fn drop(self) {
        let Doc {
            source: _source,
            fields: _fields,
        } = self;
    }
}

impl Model for Doc {
    ghost use Rattle.doc.specs.Document.{DocData};
    ghost use Rattle.doc.specs.ScalarView.{values_view};

    ghost Value = { DocData };

    ghost view = { λ d. record { source = d.source; values = values_view d.fields.items } };
}

impl Doc {
    /// The document that some bytes are: a JSON object of at most 65,536 bytes that fits the mapping.
    /// Else the first fault, in the order size, JSON, object, and then its values, in byte order of the keys, what an object holds in its key's place.
    #[tactic(auto, unfolding(crate::specs::Document::doc_of))]
    pub fn read(alloc: Global, mapping: &Mapping, bytes: &[u8]) -> Result<Doc, DocFault>
        ensures reads { Gives fault_of (λ d. d) result (spec.doc_of mapping.now bytes.now) }
        ensures source { IfOk result (λ d. d.source ≡ bytes.now) }
    {
        if bytes.len() > MAX_SOURCE {
            return Err(DocFault::TooLarge);
        }
        let Ok(text) = str::from_utf8(bytes) else {
            return Err(DocFault::NotJson);
        };
        let value = json_of(alloc, text)?;
        let Value::Object(members) = &value else {
            return Err(DocFault::NotObject);
        };
        let fields = fields_of(alloc, mapping, members)?;
        let source = Source::keep(alloc, text)?;
        Ok(Doc { source, fields })
    }

    /// The document of a source that doesn't fit its mapping: it has no values.
    pub fn bare(alloc: Global, _mapping: &Mapping, source: &Source) -> Result<Doc, AllocError>
        requires { IsErr (spec.doc_of _mapping.now source.now) }
        ensures { IfOk result (λ d. d ≡ record { source = source.now; values = [] }) }
    {
        Ok(Doc {
            source: source.copy(alloc)?,
            fields: Vec::new(alloc),
        })
    }

    /// The mapped paths that the document has, in byte order of the keys, what an object holds in its key's place. A path that
    /// several places give comes once for each.
    pub fn fields(&self) -> &[FieldValues]
        ensures { values_view result.now ≡ self.now.values }
    {
        &self.fields
    }

    /// The source alone.
    pub fn into_source(self) -> Source
        ensures { result ≡ self.source }
    {
        let Doc { source, fields: _ } = self;
        source
    }

    /// The source.
    pub fn text(&self) -> &Source
        ensures { result.now ≡ self.now.source }
    {
        &self.source
    }

    /// The bytes as they were handed in.
    pub fn source(&self) -> &[u8]
        ensures { result.now ≡ self.now.source }
    {
        self.source.as_str().as_bytes()
    }
}

fn json_of(alloc: Global, text: &str) -> Result<Value, DocFault>
    ensures { Gives fault_of view result (spec.json_of text.now) }
{
    match Value::from_str(alloc, text) {
        Ok(value) => Ok(value),
        Err(e) => if e.is_memory() {
            Err(DocFault::NoMemory)
        } else {
            Err(DocFault::NotJson)
        },
    }
}

#[tactic(auto, unfolding(crate::specs::Document::fields_of), using(crate::proofs::Fronts::behind_nothing))]
fn fields_of(
    alloc: Global,
    mapping: &Mapping,
    members: &Map<String, Value>,
) -> Result<Vec<FieldValues>, DocFault>
    ensures { Gives fault_of (λ v. values_view v.items) result
        (spec.fields_of mapping.now (members_view members.now.entries)) }
{
    let mut path = String::new(alloc);
    let mut found = Vec::new(alloc);
    members_from(alloc, mapping, MAX_LEVELS, &mut path, &mut found, members)?;
    Ok(found)
}

/// Puts what the members of an object give behind what was found, where so many levels are left; `path` stands in front of their keys, and is the same at the end.
#[cycle(walk)]
#[tactic(auto, unfolding(crate::specs::Document::members_from))]
fn members_from(
    alloc: Global,
    mapping: &Mapping,
    room: usize,
    path: &mut String,
    found: &mut Vec<FieldValues>,
    members: &Map<String, Value>,
) -> Result<(), DocFault>
    ensures gives { Gives fault_of (λ u. values_view found.new.items) result
        (behind (values_view found.old.items) (spec.members_from mapping.now room (string_bytes path.old) (members_view members.now.entries))) }
    ensures path { OnOk result (string_bytes path.new ≡ string_bytes path.old) }
{
    if room == 0 {
        return Err(DocFault::TooDeep);
    }
    let room = room - 1;
    places_in(alloc, mapping, room, path, found, members)
}

/// The same, where so many levels are left below.
#[cycle(walk)]
fn places_in(
    alloc: Global,
    mapping: &Mapping,
    room: usize,
    path: &mut String,
    found: &mut Vec<FieldValues>,
    members: &Map<String, Value>,
) -> Result<(), DocFault>
    ensures gives { Gives fault_of (λ u. values_view found.new.items) result
        (behind (values_view found.old.items) (spec.places_in (spec.members_from mapping.now room) mapping.now (room == 0) (string_bytes path.old) (members_view members.now.entries))) }
    ensures path { OnOk result (string_bytes path.new ≡ string_bytes path.old) }
{
    for (key, value) in members {
        place_of(alloc, mapping, room, path, found, key, value)?;
    }
    Ok(())
}

/// Puts what the value of a key gives behind what was found.
#[cycle(walk)]
#[tactic(auto, unfolding(crate::specs::Document::place_of))]
fn place_of(
    alloc: Global,
    mapping: &Mapping,
    room: usize,
    path: &mut String,
    found: &mut Vec<FieldValues>,
    key: &String,
    value: &Value,
) -> Result<(), DocFault>
    ensures gives { Gives fault_of (λ u. values_view found.new.items) result
        (behind (values_view found.old.items) (spec.place_of (spec.members_from mapping.now room) mapping.now (room == 0) (string_bytes path.old) (string_bytes key.now, view value.now))) }
    ensures path { OnOk result (string_bytes path.new ≡ string_bytes path.old) }
{
    if room == 0 && has_object(value) {
        return Err(DocFault::TooDeep);
    }
    let len = path.as_str().len();
    path.push_str(key.as_str())?;
    given_by(alloc, mapping, room, path, found, value)?;
    path.truncate(len);
    Ok(())
}

/// The same of the value at a path.
#[cycle(walk)]
fn given_by(
    alloc: Global,
    mapping: &Mapping,
    room: usize,
    path: &mut String,
    found: &mut Vec<FieldValues>,
    value: &Value,
) -> Result<(), DocFault>
    ensures gives { Gives fault_of (λ u. values_view found.new.items) result
        (behind (values_view found.old.items) (spec.given_by (spec.members_from mapping.now room) mapping.now.strict (string_bytes path.old) (subject_at (string_bytes path.old) mapping.now.fields) (view value.now))) }
    ensures path { OnOk result (string_bytes path.new ≡ string_bytes path.old) }
{
    match mapping.subject(path.as_str()) {
        Some(Subject::Values(kind)) => one_field(alloc, path.as_str(), found, kind, value),
        Some(Subject::Object) => in_parts(alloc, mapping, room, path, found, false, value),
        None => {
            if mapping.strict() {
                return Err(unmapped(alloc, path.as_str()));
            }
            in_parts(alloc, mapping, room, path, found, true, value)
        }
    }
}

/// The same of the parts of a value, at the path of an object, or at one that isn't mapped, where plain values are passed over.
#[cycle(walk)]
fn in_parts(
    alloc: Global,
    mapping: &Mapping,
    room: usize,
    path: &mut String,
    found: &mut Vec<FieldValues>,
    lenient: bool,
    value: &Value,
) -> Result<(), DocFault>
    ensures gives { Gives fault_of (λ u. values_view found.new.items) result
        (behind (values_view found.old.items) (spec.in_parts (spec.members_from mapping.now room) lenient (string_bytes path.old) (view value.now))) }
    ensures path { OnOk result (string_bytes path.new ≡ string_bytes path.old) }
{
    for part in parts(value) {
        in_part(alloc, mapping, room, path, found, lenient, part)?;
    }
    Ok(())
}

/// The same of one of them.
#[cycle(walk)]
fn in_part(
    alloc: Global,
    mapping: &Mapping,
    room: usize,
    path: &mut String,
    found: &mut Vec<FieldValues>,
    lenient: bool,
    value: &Value,
) -> Result<(), DocFault>
    ensures gives { Gives fault_of (λ u. values_view found.new.items) result
        (behind (values_view found.old.items) (spec.in_part (spec.members_from mapping.now room) lenient (string_bytes path.old) (view value.now))) }
    ensures path { OnOk result (string_bytes path.new ≡ string_bytes path.old) }
{
    match value {
        Value::Null => Ok(()),
        Value::Object(members) => inside(alloc, mapping, room, path, found, members),
        Value::Array(_) => Err(wrong_value(alloc, path.as_str())),
        _ => if lenient {
            Ok(())
        } else {
            Err(wrong_value(alloc, path.as_str()))
        },
    }
}

/// The same of the members of the object at a path.
#[cycle(walk)]
fn inside(
    alloc: Global,
    mapping: &Mapping,
    room: usize,
    path: &mut String,
    found: &mut Vec<FieldValues>,
    members: &Map<String, Value>,
) -> Result<(), DocFault>
    ensures gives { Gives fault_of (λ u. values_view found.new.items) result
        (behind (values_view found.old.items) (spec.members_from mapping.now room (within (string_bytes path.old)) (members_view members.now.entries))) }
    ensures path { OnOk result (string_bytes path.new ≡ string_bytes path.old) }
{
    let len = path.as_str().len();
    path.push_str(".")?;
    members_from(alloc, mapping, room, path, found, members)?;
    path.truncate(len);
    Ok(())
}

/// Puts the one field at a path, with its values, behind what was found.
fn one_field(
    alloc: Global,
    path: &str,
    found: &mut Vec<FieldValues>,
    kind: Kind,
    value: &Value,
) -> Result<(), DocFault>
    ensures { Gives fault_of (λ u. values_view found.new.items) result
        (behind (values_view found.old.items) (spec.field_or path.now kind (view value.now))) }
{
    let values = values_of(alloc, path, kind, value)?;
    let name = String::from_str(alloc, path)?;
    found.push(FieldValues { name, values })?;
    Ok(())
}

/// Whether an object stands there, or in the array there.
fn has_object(value: &Value) -> bool
    ensures { result ≡ spec.has_object (view value.now) }
{
    for part in parts(value) {
        if is_object(part) {
            return true;
        }
    }
    false
}

fn is_object(value: &Value) -> bool
    ensures { result ≡ spec.is_object (view value.now) }
{
    matches!(value, Value::Object(_))
}

fn values_of(alloc: Global, name: &str, kind: Kind, value: &Value) -> Result<Vec<Scalar>, DocFault>
    ensures { Gives fault_of (λ v. scalars_view v.items) result (spec.values_or name.now kind (view value.now)) }
{
    let mut found = Vec::new(alloc);
    for part in parts(value) {
        let value = value_of(alloc, name, kind, part)?;
        keep(&mut found, value)?;
    }
    Ok(found)
}

fn value_of(
    alloc: Global,
    name: &str,
    kind: Kind,
    value: &Value,
) -> Result<Option<Scalar>, DocFault>
    ensures { Gives fault_of (option_map scalar_view) result
        (spec.value_or name.now (scalar.converted kind (view value.now))) }
{
    match convert(alloc, kind, value)? {
        Converted::Wrong => Err(wrong_value(alloc, name)),
        Converted::Nothing => Ok(None),
        Converted::Value(scalar) => Ok(Some(scalar)),
    }
}

fn wrong_value(alloc: Global, name: &str) -> DocFault
    ensures { IfSome (fault_of result) (λ f. f ≡ wrong_value_of name.now) }
{
    match String::from_str(alloc, name) {
        Ok(name) => DocFault::WrongValue(name),
        Err(_) => DocFault::NoMemory,
    }
}

fn unmapped(alloc: Global, name: &str) -> DocFault
    ensures { IfSome (fault_of result) (λ f. f ≡ unmapped_of name.now) }
{
    match String::from_str(alloc, name) {
        Ok(name) => DocFault::Unmapped(name),
        Err(_) => DocFault::NoMemory,
    }
}

fn parts(value: &Value) -> &[Value]
    ensures { elements (items_view result.now) ≡ scalar.parts (view value.now) }
{
    match value {
        Value::Array(items) => items,
        _ => slice::from_ref(value),
    }
}

fn keep<T: Drop>(items: &mut Vec<T>, item: Option<T>) -> Result<(), AllocError>
    ensures { OnOk result (items.new.items ≡ items.old.items ++ some_list item) }
{
    if let Some(item) = item {
        items.push(item)?;
    }
    Ok(())
}
