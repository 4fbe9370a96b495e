//! What a request asks, or its first fault.
ghost use Rattle.std.specs.Prelude.{◌≡◌, option_copied, option_map, IfOk};
ghost use Rattle.serde_json.specs.Read.{read};
ghost use Rattle.serde_json.specs.View.{view};
ghost use Rattle.doc.specs.Outcome.{Gives};
ghost use Rattle.front.specs.Asking as spec;
ghost use Rattle.front.specs.AskedView.{asked_view};
ghost use Rattle.front.specs.CommandView.{command_view};
ghost use Rattle.front.specs.Fault.{fault_of, no_index, bad_method, bad_parameter};
ghost use Rattle.wire.specs.Reading.{request_view};
ghost use Rattle.wire.specs.Pieces as pieces;
ghost use Rattle.front.specs.Target as target;

use crate::bulk::Item;
use crate::command::{Change, Command, Condition, Write};
use crate::json_text::value_in;
use crate::lines::items_in;
use crate::parameters::parameters_of;
use crate::request_fault::RequestFault;
use crate::target::{Endpoint, Method, Parameters, origin_of, route_of};
use doc::{Doc, DocId, Mapping};
use query::{CountBody, QueryFault, SearchBody};
use serde_json::Value;
use std::alloc::{AllocError, Global};
use wire::{Request, cut_at, number_of, text_of};

/// What a request asks: one command, or many writes and whether a refresh follows them.
#[derive(Drop)]
pub(crate) enum Asked<'b> {
    One(Command),
    Many(bool, Vec<Item<'b>>),
}

/// What a request asks of a server that greets or of one that doesn't, or its first fault. Faults are looked for in the order `NoRoute`, `NoIndex`, `BadMethod`, `BadParameter`, the id, the body.
#[tactic(auto, unfolding(crate::specs::Asking::ask))]
pub(crate) fn ask<'b>(
    alloc: Global,
    greets: bool,
    index: &str,
    mapping: &Mapping,
    request: &'b Request,
) -> Result<Asked<'b>, RequestFault>
    ensures { Gives fault_of asked_view result (spec.ask greets index.now mapping.now (request_view request.now)) }
{
    let (path, parameters) = cut_at(origin_of(&request.target), b'?');
    let route = route_of(alloc, path)?;
    check_served(index, &route.index)?;
    let method = Method::of(&request.method);
    check_allowed(route.endpoint, method)?;
    let id = id_text(&route.id)?;
    let parameters = parameters_of(alloc, or_nothing(parameters))?;
    check_fits(greets, route.endpoint, method, parameters)?;
    let named = items_index(index, &route.index);
    asked_of(
        alloc,
        greets,
        mapping,
        route.endpoint,
        method,
        id,
        parameters,
        &request.body,
        named,
    )
}

/// The index of items that name none, if the path names it.
fn items_index<'a>(index: &'a str, named: &Option<Vec<u8>>) -> Option<&'a str>
    ensures { option_copied result ≡ spec.items_index index.now (option_map (λ i. i.items) named.now) }
{
    if named.is_some() { Some(index) } else { None }
}

fn asked_of<'b>(
    alloc: Global,
    greets: bool,
    mapping: &Mapping,
    endpoint: Endpoint,
    method: Method,
    id: &str,
    parameters: Parameters,
    body: &'b [u8],
    named: Option<&str>,
) -> Result<Asked<'b>, RequestFault>
    ensures { Gives fault_of asked_view result
        (spec.asked_of greets mapping.now endpoint method id.now parameters body.now (option_copied named.entry)) }
{
    match endpoint {
        Endpoint::Bulk => {
            let items = items_in(alloc, greets, named, body)?;
            Ok(Asked::Many(is_true(parameters.refresh), items))
        }
        _ => Ok(Asked::One(command_of(alloc, mapping, endpoint, method, id, parameters, body)?)),
    }
}

fn check_served(index: &str, named: &Option<Vec<u8>>) -> Result<(), RequestFault>
    ensures { Gives fault_of (λ u. u) result (target.check (target.is_served index.now (option_map (λ i. i.items) named.now)) no_index) }
{
    let Some(named) = named else {
        return Ok(());
    };
    if named.as_slice() == index.as_bytes() {
        Ok(())
    } else {
        Err(RequestFault::NoIndex)
    }
}

fn check_allowed(endpoint: Endpoint, method: Method) -> Result<(), RequestFault>
    ensures { Gives fault_of (λ u. u) result (target.check (target.is_allowed endpoint method) (bad_method endpoint)) }
{
    if endpoint.allows(method) {
        Ok(())
    } else {
        Err(RequestFault::BadMethod(endpoint))
    }
}

fn check_fits(
    greets: bool,
    endpoint: Endpoint,
    method: Method,
    parameters: Parameters,
) -> Result<(), RequestFault>
    ensures { Gives fault_of (λ u. u) result (target.check (spec.fits greets endpoint method parameters) bad_parameter) }
{
    if fits(greets, endpoint, method, parameters) {
        Ok(())
    } else {
        Err(RequestFault::BadParameter)
    }
}

/// The text of an id.
fn id_text(bytes: &[u8]) -> Result<&str, RequestFault>
    ensures { Gives fault_of (λ t. t.now) result (spec.id_text (pieces.text_of bytes.now)) }
{
    match text_of(bytes) {
        Some(text) => Ok(text),
        None => Err(RequestFault::BadParameter),
    }
}

pub(crate) fn or_nothing(text: Option<&[u8]>) -> &[u8]
    ensures { result.now ≡ spec.or_nothing (option_copied text.entry) }
{
    text.unwrap_or(b"")
}

pub(crate) fn has_none(parameters: Parameters) -> bool
    ensures { result ≡ spec.has_none parameters }
{
    parameters.refresh.is_none()
        && parameters.create.is_none()
        && parameters.seq.is_none()
        && parameters.term.is_none()
}

fn has_both(parameters: Parameters) -> bool
    ensures { result ≡ spec.has_both parameters }
{
    (parameters.seq.is_some() && parameters.term.is_some())
        || (parameters.seq.is_none() && parameters.term.is_none())
}

fn is_true(flag: Option<bool>) -> bool
    ensures { result ≡ spec.is_true flag }
{
    match flag {
        Some(b) => b,
        None => false,
    }
}

pub(crate) fn has_no_page(parameters: Parameters) -> bool
    ensures { result ≡ spec.has_no_page parameters }
{
    parameters.size.is_none() && parameters.from.is_none()
}

/// Whether these parameters may come with this method at this endpoint. If the server greets, the page of a search may stand in its target.
fn fits(greets: bool, endpoint: Endpoint, method: Method, parameters: Parameters) -> bool
    ensures { result ≡ spec.fits greets endpoint method parameters }
{
    (has_no_page(parameters) || (greets && endpoint == Endpoint::Search))
        && suits(endpoint, method, parameters)
}

/// Whether these parameters may come with this method at this endpoint, the page of a search aside.
fn suits(endpoint: Endpoint, method: Method, parameters: Parameters) -> bool
    ensures { result ≡ spec.suits endpoint method parameters }
{
    match endpoint {
        Endpoint::Document => fits_document(method, parameters),
        Endpoint::Create | Endpoint::Bulk => parameters.create.is_none()
            && parameters.seq.is_none()
            && parameters.term.is_none(),
        Endpoint::Search | Endpoint::Count | Endpoint::Refresh | Endpoint::Promote => {
            has_none(parameters)
        }
    }
}

fn fits_document(method: Method, parameters: Parameters) -> bool
    ensures { result ≡ spec.suits Endpoint.Document method parameters }
{
    match method {
        Method::Get => has_none(parameters),
        Method::Delete => parameters.create.is_none() && has_both(parameters),
        Method::Put | Method::Post => has_both(parameters)
            && !(is_true(parameters.create) && parameters.seq.is_some()),
        Method::Other => false,
    }
}

fn condition_of(parameters: Parameters) -> Option<Condition>
    ensures { result ≡ spec.condition_of parameters.seq parameters.term }
{
    match (parameters.seq, parameters.term) {
        (Some(seq), Some(term)) => Some(Condition { seq, term }),
        _ => None,
    }
}

fn command_of(
    alloc: Global,
    mapping: &Mapping,
    endpoint: Endpoint,
    method: Method,
    id: &str,
    parameters: Parameters,
    body: &[u8],
) -> Result<Command, RequestFault>
    ensures { Gives fault_of command_view result (spec.command_of mapping.now endpoint method id.now parameters body.now) }
{
    match endpoint {
        Endpoint::Document => document_command(alloc, mapping, method, id, parameters, body),
        Endpoint::Create => put_of(alloc, mapping, true, id, parameters, body),
        Endpoint::Search => search_of(alloc, mapping, parameters, body),
        Endpoint::Count => count_of(alloc, mapping, body),
        Endpoint::Refresh => Ok(Command::Refresh),
        Endpoint::Promote => promote_of(id),
        Endpoint::Bulk => Err(RequestFault::BadBulk),
    }
}

fn document_command(
    alloc: Global,
    mapping: &Mapping,
    method: Method,
    id: &str,
    parameters: Parameters,
    body: &[u8],
) -> Result<Command, RequestFault>
    ensures { Gives fault_of command_view result (spec.command_of mapping.now Endpoint.Document method id.now parameters body.now) }
{
    match method {
        Method::Get => get_of(alloc, id),
        Method::Delete => delete_of(alloc, id, parameters),
        Method::Put | Method::Post => put_of(
            alloc,
            mapping,
            is_true(parameters.create),
            id,
            parameters,
            body,
        ),
        Method::Other => Err(RequestFault::BadMethod(Endpoint::Document)),
    }
}

#[tactic(auto, unfolding(crate::specs::Asking::get_of))]
fn get_of(alloc: Global, id: &str) -> Result<Command, RequestFault>
    ensures { Gives fault_of command_view result (spec.get_of id.now) }
{
    Ok(Command::Get(DocId::new(alloc, id)?))
}

#[tactic(auto, unfolding(crate::specs::Asking::delete_of))]
fn delete_of(alloc: Global, id: &str, parameters: Parameters) -> Result<Command, RequestFault>
    ensures { Gives fault_of command_view result (spec.delete_of id.now parameters) }
{
    let id = DocId::new(alloc, id)?;
    Ok(Command::Write(Write {
        id,
        change: Change::Delete,
        condition: condition_of(parameters),
        refresh: is_true(parameters.refresh),
    }))
}

#[tactic(auto, unfolding(crate::specs::Asking::put_of))]
fn put_of(
    alloc: Global,
    mapping: &Mapping,
    create: bool,
    id: &str,
    parameters: Parameters,
    body: &[u8],
) -> Result<Command, RequestFault>
    ensures { Gives fault_of command_view result (spec.put_of mapping.now create id.now parameters body.now) }
{
    let id = DocId::new(alloc, id)?;
    let document = Doc::read(alloc, mapping, body)?;
    Ok(Command::Write(Write {
        id,
        change: stored(create, document),
        condition: condition_of(parameters),
        refresh: is_true(parameters.refresh),
    }))
}

fn stored(create: bool, document: Doc) -> Change
    ensures { result ≡ spec.stored create document }
{
    if create {
        Change::Create(document)
    } else {
        Change::Index(document)
    }
}

#[tactic(auto, unfolding(crate::specs::Asking::search_of))]
fn search_of(
    alloc: Global,
    mapping: &Mapping,
    parameters: Parameters,
    body: &[u8],
) -> Result<Command, RequestFault>
    ensures { Gives fault_of command_view result (spec.search_of mapping.now parameters body.now) }
{
    let value = value_of(alloc, body)?;
    let value = with_number(alloc, value, "from", parameters.from)?;
    let value = with_number(alloc, value, "size", parameters.size)?;
    let body = SearchBody::read(alloc, mapping, &value)?;
    Ok(Command::Search(body))
}

/// An object with a member that is a number, if there is one. Another value stays as it is.
fn with_number(
    alloc: Global,
    value: Value,
    key: &str,
    number: Option<u64>,
) -> Result<Value, AllocError>
    ensures { IfOk result (λ v. view v ≡ spec.with_number key.now number (view value)) }
{
    match (number, value) {
        (Some(number), Value::Object(mut members)) => {
            members.insert(String::from_str(alloc, key)?, Value::from(number))?;
            Ok(Value::Object(members))
        }
        (_, value) => Ok(value),
    }
}

#[tactic(auto, unfolding(crate::specs::Asking::count_of))]
fn count_of(alloc: Global, mapping: &Mapping, body: &[u8]) -> Result<Command, RequestFault>
    ensures { Gives fault_of command_view result (spec.count_of mapping.now body.now) }
{
    let value = value_of(alloc, body)?;
    let body = CountBody::read(alloc, mapping, &value)?;
    Ok(Command::Count(body.query))
}

/// The promotion of the copy that the path names by its number, which is at least 1 and has 32 bits at most.
fn promote_of(id: &str) -> Result<Command, RequestFault>
    ensures { Gives fault_of command_view result (spec.promote_of id.now) }
{
    let Some(number) = number_of(id) else {
        return Err(RequestFault::BadParameter);
    };
    if number == 0 || number > u32::MAX as u64 {
        return Err(RequestFault::BadParameter);
    }
    Ok(Command::Promote(number as u32))
}

fn value_of(alloc: Global, body: &[u8]) -> Result<Value, RequestFault>
    ensures { Gives fault_of view result (spec.value_of body.now) }
{
    if body.is_empty() {
        return text_value(alloc, "{}");
    }
    match text_of(body) {
        Some(text) => text_value(alloc, text),
        None => Err(RequestFault::Query(QueryFault::Parsing("not JSON"))),
    }
}

fn text_value(alloc: Global, text: &str) -> Result<Value, RequestFault>
    ensures { Gives fault_of view result (spec.read_or_parsing (read text.now)) }
{
    match value_in(alloc, text)? {
        Some(value) => Ok(value),
        None => Err(RequestFault::Query(QueryFault::Parsing("not JSON"))),
    }
}
