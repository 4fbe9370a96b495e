//! Requests as the client libraries of Elasticsearch send them: they greet a server, ask for the head of a page without its body, and wait for refreshes.
ghost use Rattle.std.specs.Prelude.{◌≡◌, ◌||◌, [], ℕ, List, true, Some, Ok, IfOk, IfErr, OnErr, bytes_eq, codes, string_bytes, option_map};
ghost use Rattle.wire.specs.Pieces.{cut_at};
ghost use Rattle.wire.specs.Reading as read;
ghost use Rattle.wire.specs.declared.fault.StreamFault.TheVariants.{NoMemory};
ghost use Rattle.doc.specs.Outcome.{Gives};
ghost use Rattle.front.specs.Fault.{fault_of};
ghost use Rattle.front.specs.Greeting as spec;
ghost use Rattle.front.specs.Page as page;
ghost use Rattle.front.specs.RouteView.{route_view};
ghost use Rattle.front.specs.Rule.{Turned};
ghost use Rattle.front.specs.declared.greeting.Welcome.TheVariants.{Reporting};
ghost use Rattle.front.specs.declared.page.Media.TheVariants.{JsonInUtf8};
ghost use Rattle.front.specs.declared.page.Status.TheVariants.{Good};
ghost use Rattle.front.specs.Target.{origin_of};
ghost use Rattle.front.specs.Serving.{Begun};
ghost use Rattle.front.specs.Work.{explained};

use crate::asking::{has_no_page, has_none, or_nothing};
use crate::page::{Media, Status, response};
use crate::parameters::parameters_of;
use crate::pieces::Page;
use crate::refusing::refused_page;
use crate::report::{Report, report_text};
use crate::request_fault::RequestFault;
use crate::service::Service;
use crate::serving::answer_request;
use crate::target::{Endpoint, Route, decoded, origin_of, route_of};
use std::alloc::{AllocError, Global};
use wire::{HeadFault, Request, StreamFault, cut_at};

/// The body of the answer to `GET /`: the fields by which client libraries know which server they speak to.
const GREETING: &str =
    "{\"cluster_name\":\"indexd\",\"cluster_uuid\":\"_na_\",\"name\":\"indexd\",\"tagline\":\"You Know, for Search\",\"version\":{\"build_flavor\":\"default\",\"build_snapshot\":false,\"minimum_index_compatibility_version\":\"6.0.0-beta1\",\"minimum_wire_compatibility_version\":\"6.8.0\",\"number\":\"7.10.2\"}}";

/// The most bytes that a body may have which is no bulk.
const MOST_BODY: usize = 1_048_576;

/// What a request asks for that no command answers.
#[derive(Clone, Copy, Debug, PartialEq, Eq)]
pub(crate) enum Welcome {
    Nothing,
    Greeting,
    Presence,
    Reporting(Report),
}

/// Does what a request asks, as the client libraries of Elasticsearch expect: `GET /` gets a greeting, some paths report how the index stands, a HEAD is done as
/// its GET, and `refresh=wait_for` is done like `refresh=true`. A path without an endpoint, or with one after a type, is refused as a bad request.
pub(crate) fn greet_request<S: Service>(
    alloc: Global,
    service: &mut S,
    request: &Request,
) -> Result<Page, StreamFault>
    ensures ok { IfOk result (λ page. Turned true S.answers (S.name service.old) (spec.greeted_work (S.name service.old) (S.fields service.old) (read.request_view request.now))
        (λ why out. spec.greeted_page (S.name service.old) (S.fields service.old) (read.request_view request.now) why out) service.old page service.new) }
    ensures err { OnErr result (Begun S.answers
        (spec.greeted_work (S.name service.old) (S.fields service.old) (read.request_view request.now)) service.old service.new) }
    ensures cause { IfErr result (λ e. e ≡ NoMemory) }
    ensures name { S.name service.new ≡ S.name service.old }
    ensures fields { S.fields service.new ≡ S.fields service.old }
{
    let page = turned_answer(alloc, service, request)?;
    welcomed(alloc, service, request, page)
}

fn turned_answer<S: Service>(
    alloc: Global,
    service: &mut S,
    request: &Request,
) -> Result<Page, StreamFault>
    ensures ok { IfOk result (λ page. Turned true S.answers (S.name service.old) (spec.greeted_work (S.name service.old) (S.fields service.old) (read.request_view request.now))
        (explained (spec.greeted_work (S.name service.old) (S.fields service.old) (read.request_view request.now)) true) service.old page service.new) }
    ensures err { OnErr result (Begun S.answers
        (spec.greeted_work (S.name service.old) (S.fields service.old) (read.request_view request.now)) service.old service.new) }
    ensures cause { IfErr result (λ e. e ≡ NoMemory) }
    ensures name { S.name service.new ≡ S.name service.old }
    ensures fields { S.fields service.new ≡ S.fields service.old }
{
    match check_handled(alloc, service.index(), request) {
        Ok(()) => answer_turned(alloc, service, request),
        Err(fault) => if fault.is_memory() {
            Err(StreamFault::NoMemory)
        } else {
            Ok(refused_page(
                alloc,
                true,
                service.index(),
                service.mapping(),
                &fault,
                request,
            )?)
        },
    }
}

#[tactic(auto, unfolding(crate::specs::Greeting::turned_work))]
fn answer_turned<S: Service>(
    alloc: Global,
    service: &mut S,
    request: &Request,
) -> Result<Page, StreamFault>
    ensures ok { IfOk result (λ page. Turned true S.answers (S.name service.old) (spec.turned_work (S.name service.old) (S.fields service.old) (read.request_view request.now))
        (explained (spec.turned_work (S.name service.old) (S.fields service.old) (read.request_view request.now)) true) service.old page service.new) }
    ensures err { OnErr result (Begun S.answers
        (spec.turned_work (S.name service.old) (S.fields service.old) (read.request_view request.now)) service.old service.new) }
    ensures cause { IfErr result (λ e. e ≡ NoMemory) }
    ensures name { S.name service.new ≡ S.name service.old }
    ensures fields { S.fields service.new ≡ S.fields service.old }
{
    let turned = turned_request(alloc, request)?;
    answer_request(alloc, true, service, &turned)
}

/// Whether an endpoint has the path, and has it where no type is, or the first fault.
#[tactic(auto, unfolding(crate::specs::Greeting::handled))]
pub(crate) fn check_handled(
    alloc: Global,
    index: &str,
    request: &Request,
) -> Result<(), RequestFault>
    ensures { Gives fault_of (λ u. u) result (spec.handled index.now (read.request_view request.now)) }
{
    let (path, _) = cut_at(origin_of(&request.target), b'?');
    match route_of(alloc, path) {
        Ok(route) => check_route(&route, request),
        Err(RequestFault::NoRoute) => Err(unrouted(alloc, index, path, request)?),
        Err(fault) => if fault.is_memory() {
            Err(RequestFault::NoMemory)
        } else {
            Ok(())
        },
    }
}

/// Whether an endpoint takes the request: no type stands before it, the body isn't encoded, and only a bulk is large; or the first fault.
fn check_route(route: &Route, request: &Request) -> Result<(), RequestFault>
    ensures { Gives fault_of (λ u. u) result (spec.fits_route (route_view route.now) (read.request_view request.now)) }
{
    if route.endpoint == Endpoint::Document && is_typed_id(&route.id) {
        return Err(RequestFault::TypeInPath);
    }
    if request.encoded {
        return Err(RequestFault::EncodedBody);
    }
    if route.endpoint != Endpoint::Bulk && request.body.len() > MOST_BODY {
        return Err(RequestFault::Head(HeadFault::BodyTooLarge));
    }
    Ok(())
}

/// The fault of a path without an endpoint.
fn unrouted(
    alloc: Global,
    index: &str,
    path: &[u8],
    request: &Request,
) -> Result<RequestFault, AllocError>
    requires { path.now ≡ (cut_at 63 (origin_of (read.request_view request.now).target)).0 }
    ensures { IfOk result (λ f. fault_of f ≡ Some (spec.unrouted index.now (read.request_view request.now))) }
{
    if request.method.as_slice() == b"PUT".as_slice() && is_part(index, &only_part(alloc, path)?) {
        Ok(RequestFault::IndexExists)
    } else {
        Ok(RequestFault::NoHandler)
    }
}

fn is_part(index: &str, part: &Option<Vec<u8>>) -> bool
    ensures { result ≡ spec.is_part index.now (option_map (λ p. p.items) part.now) }
{
    match part {
        Some(part) => part.as_slice() == index.as_bytes(),
        None => false,
    }
}

fn is_typed_id(id: &[u8]) -> bool
    ensures { result ≡ spec.is_typed_id id.now }
{
    id == b"_search".as_slice()
        || id == b"_count".as_slice()
        || id == b"_bulk".as_slice()
        || id == b"_mget".as_slice()
}

/// The request that is done in place of this one: a HEAD becomes a GET, and `refresh=wait_for` becomes `refresh=true`.
pub(crate) fn turned_request(alloc: Global, request: &Request) -> Result<Request, AllocError>
    ensures { IfOk result (λ r. read.request_view r ≡ spec.turned_request (read.request_view request.now)) }
{
    let method = if is_head(request) {
        b"GET".as_slice()
    } else {
        request.method.as_slice()
    };
    Ok(Request {
        method: method.to_vec(alloc)?,
        target: turned_target(alloc, &request.target)?,
        body: request.body.to_vec(alloc)?,
        closes: request.closes,
        encoded: request.encoded,
        sender: request.sender.copy(alloc)?,
    })
}

pub(crate) fn is_head(request: &Request) -> bool
    ensures { result ≡ spec.is_head (read.request_view request.now) }
{
    request.method.as_slice() == b"HEAD".as_slice()
}

fn turned_target(alloc: Global, target: &[u8]) -> Result<Vec<u8>, AllocError>
    ensures { IfOk result (λ t. t.items ≡ spec.turned_target target.now) }
{
    let (path, query) = cut_at(target, b'?');
    let mut out = path.to_vec(alloc)?;
    if let Some(query) = query {
        out.push(b'?')?;
        let query = turned_query(alloc, query)?;
        out.extend_from_slice(&query)?;
    }
    Ok(out)
}

/// A query string with each of its parameters turned.
fn turned_query(alloc: Global, query: &[u8]) -> Result<Vec<u8>, AllocError>
    ensures { IfOk result (λ q. q.items ≡ spec.turned_query query.now) }
{
    let mut out = Vec::new(alloc);
    let mut rest = query;
    'parameters: loop {
        let (parameter, after) = cut_at(rest, b'&');
        out.extend_from_slice(turned(parameter))?;
        let Some(after) = after else {
            return Ok(out);
        };
        out.push(b'&')?;
        rest = after;
    }
}

fn turned(parameter: &[u8]) -> &[u8]
    ensures { result.now ≡ spec.turned parameter.now }
{
    if parameter == b"refresh=wait_for".as_slice() {
        b"refresh=true"
    } else if is_idle(parameter) {
        b""
    } else {
        parameter
    }
}

/// Whether a parameter could change no answer of this server.
#[tactic(auto, unfolding(crate::specs::Greeting::is_idle))]
fn is_idle(parameter: &[u8]) -> bool
    ensures { result ≡ spec.is_idle parameter.now }
{
    let (name, _) = cut_at(parameter, b'=');
    names_time(name) || names_indices(name) || names_shards(name) || names_form(name)
}

fn names_time(name: &[u8]) -> bool
    ensures { result ≡ spec.names_time name.now }
{
    name == b"master_timeout".as_slice()
        || name == b"preference".as_slice()
        || name == b"request_cache".as_slice()
        || name == b"timeout".as_slice()
}

fn names_indices(name: &[u8]) -> bool
    ensures { result ≡ spec.names_indices name.now }
{
    name == b"allow_no_indices".as_slice()
        || name == b"expand_wildcards".as_slice()
        || name == b"ignore_throttled".as_slice()
        || name == b"ignore_unavailable".as_slice()
}

fn names_shards(name: &[u8]) -> bool
    ensures { result ≡ spec.names_shards name.now }
{
    name == b"allow_partial_search_results".as_slice()
        || name == b"batched_reduce_size".as_slice()
        || name == b"ccs_minimize_roundtrips".as_slice()
        || name == b"max_concurrent_shard_requests".as_slice()
        || name == b"pre_filter_shard_size".as_slice()
}

fn names_form(name: &[u8]) -> bool
    ensures { result ≡ spec.names_form name.now }
{
    name == b"error_trace".as_slice()
        || name == b"human".as_slice()
        || name == b"search_type".as_slice()
        || name == b"typed_keys".as_slice()
}

/// What a request asks for that no command answers, or its first fault.
#[tactic(auto, unfolding(crate::specs::Greeting::welcome_of))]
pub(crate) fn welcome_of(
    alloc: Global,
    index: &str,
    request: &Request,
) -> Result<Welcome, RequestFault>
    ensures { Gives fault_of (λ w. w) result (spec.welcome_of index.now (read.request_view request.now)) }
{
    let (path, query) = cut_at(origin_of(&request.target), b'?');
    let part = only_part(alloc, path)?;
    let welcome = welcome_at(index, request, &part)?;
    let welcome = or_report(alloc, index, request, path, welcome)?;
    let query = turned_query(alloc, or_nothing(query))?;
    fitting(alloc, &query, welcome)
}

/// What a GET asks for that is no greeting: a report.
fn or_report(
    alloc: Global,
    index: &str,
    request: &Request,
    path: &[u8],
    welcome: Welcome,
) -> Result<Welcome, AllocError>
    requires { path.now ≡ (cut_at 63 (origin_of (read.request_view request.now).target)).0 }
    ensures { IfOk result (λ w. w ≡ spec.or_report index.now (read.request_view request.now) welcome) }
{
    if welcome != Welcome::Nothing || !reads(request) {
        return Ok(welcome);
    }
    match report_of(alloc, index, path)? {
        Some(what) => Ok(Welcome::Reporting(what)),
        None => Ok(Welcome::Nothing),
    }
}

fn reads(request: &Request) -> bool
    ensures { result ≡ (spec.is_head (read.request_view request.now) || bytes_eq (read.request_view request.now).method (codes "GET")) }
{
    is_head(request) || request.method.as_slice() == b"GET".as_slice()
}

/// What a path asks to know of the service.
fn report_of(alloc: Global, index: &str, path: &[u8]) -> Result<Option<Report>, AllocError>
    ensures { IfOk result (λ r. r ≡ spec.report_of index.now path.now) }
{
    match path {
        [b'/', rest @ ..] => report_of_rest(alloc, index, rest),
        _ => Ok(None),
    }
}

fn report_of_rest(alloc: Global, index: &str, path: &[u8]) -> Result<Option<Report>, AllocError>
    ensures { IfOk result (λ r. r ≡ spec.report_of_cut index.now (cut_at 47 path.now)) }
{
    let (first, others) = cut_at(path, b'/');
    let first = decoded(alloc, first)?;
    match others {
        Some(others) => report_after(alloc, index, &first, others),
        None => Ok(report_of_one(index, &first)),
    }
}

fn report_after(
    alloc: Global,
    index: &str,
    first: &[u8],
    path: &[u8],
) -> Result<Option<Report>, AllocError>
    ensures { IfOk result (λ r. r ≡ spec.report_after index.now first.now (cut_at 47 path.now)) }
{
    let (second, others) = cut_at(path, b'/');
    if others.is_some() {
        return Ok(None);
    }
    let second = decoded(alloc, second)?;
    Ok(report_of_two(index, first, &second))
}

fn report_of_one(index: &str, part: &[u8]) -> Option<Report>
    ensures { result ≡ spec.report_of_one index.now part.now }
{
    if part == b"_metrics".as_slice() {
        Some(Report::Metrics)
    } else if part == index.as_bytes() {
        Some(Report::Index)
    } else {
        None
    }
}

fn report_of_two(index: &str, first: &[u8], second: &[u8]) -> Option<Report>
    ensures { result ≡ spec.report_of_two index.now first.now second.now }
{
    if first == b"_cat".as_slice() {
        line_named(second)
    } else if first == b"_cluster".as_slice() {
        health_named(second)
    } else if first == index.as_bytes() {
        report_named(second)
    } else {
        None
    }
}

fn line_named(name: &[u8]) -> Option<Report>
    ensures { result ≡ spec.line_named name.now }
{
    if name == b"health".as_slice() {
        Some(Report::HealthLine)
    } else if name == b"indices".as_slice() {
        Some(Report::IndexLine)
    } else {
        None
    }
}

fn health_named(name: &[u8]) -> Option<Report>
    ensures { result ≡ spec.health_named name.now }
{
    if name == b"health".as_slice() {
        Some(Report::Health)
    } else {
        None
    }
}

fn report_named(name: &[u8]) -> Option<Report>
    ensures { result ≡ spec.report_named name.now }
{
    if name == b"_mapping".as_slice() {
        Some(Report::Mapping)
    } else if name == b"_settings".as_slice() {
        Some(Report::Settings)
    } else if name == b"_stats".as_slice() {
        Some(Report::Stats)
    } else {
        None
    }
}

/// The decoded part of a path that has only one.
fn only_part(alloc: Global, path: &[u8]) -> Result<Option<Vec<u8>>, AllocError>
    ensures { IfOk result (λ p. option_map (λ part. part.items) p ≡ spec.only_part path.now) }
{
    match path {
        [b'/', rest @ ..] => {
            let (part, others) = cut_at(rest, b'/');
            if others.is_some() {
                return Ok(None);
            }
            Ok(Some(decoded(alloc, part)?))
        }
        _ => Ok(None),
    }
}

fn welcome_at(
    index: &str,
    request: &Request,
    part: &Option<Vec<u8>>,
) -> Result<Welcome, RequestFault>
    ensures { Gives fault_of (λ w. w) result
        (spec.welcome_at index.now (read.request_view request.now) (option_map (λ p. p.items) part.now)) }
{
    let Some(part) = part else {
        return Ok(Welcome::Nothing);
    };
    if part.is_empty() {
        return Ok(greeting_for(request));
    }
    if !is_head(request) || part.as_slice() == b"_bulk".as_slice() {
        return Ok(Welcome::Nothing);
    }
    if part.as_slice() == index.as_bytes() {
        Ok(Welcome::Presence)
    } else {
        Err(RequestFault::NoIndex)
    }
}

fn greeting_for(request: &Request) -> Welcome
    ensures { result ≡ spec.greeting_for (read.request_view request.now) }
{
    if is_head(request) || request.method.as_slice() == b"GET".as_slice() {
        Welcome::Greeting
    } else {
        Welcome::Nothing
    }
}

fn fitting(alloc: Global, query: &[u8], welcome: Welcome) -> Result<Welcome, RequestFault>
    ensures { Gives fault_of (λ w. w) result (spec.fitting query.now welcome) }
{
    if welcome == Welcome::Nothing {
        return Ok(welcome);
    }
    let parameters = parameters_of(alloc, query)?;
    if has_none(parameters) && has_no_page(parameters) {
        Ok(welcome)
    } else {
        Err(RequestFault::BadParameter)
    }
}

/// The page of a request, made from the page of what was done.
fn welcomed<S: Service>(
    alloc: Global,
    service: &S,
    request: &Request,
    page: Page,
) -> Result<Page, StreamFault>
    ensures page { IfOk result (λ p. (why : List ℕ) × (p ≡ spec.welcome_page (spec.welcome_of (S.name service.now) (read.request_view request.now)) why page)) }
    ensures cause { IfErr result (λ e. e ≡ NoMemory) }
{
    match welcome_of(alloc, service.index(), request) {
        Ok(Welcome::Reporting(what)) => {
            drop(page);
            Ok(report_page(alloc, service, what)?)
        }
        Ok(welcome) => Ok(welcome_page(alloc, welcome, page)?),
        Err(fault) => {
            drop(page);
            if fault.is_memory() {
                Err(StreamFault::NoMemory)
            } else {
                Ok(refused_page(
                    alloc,
                    true,
                    service.index(),
                    service.mapping(),
                    &fault,
                    request,
                )?)
            }
        }
    }
}

/// The page that reports how the index stands.
fn report_page<S: Service>(alloc: Global, service: &S, what: Report) -> Result<Page, AllocError>
    ensures { IfOk result (λ p. (why : List ℕ) × (p ≡ spec.welcome_page (Ok (Reporting what)) why [])) }
{
    let Some(stats) = service.stats() else {
        return Err(AllocError);
    };
    let text = report_text(alloc, what, service.index(), service.mapping(), &stats)?;
    page_with(alloc, what, text.as_str())
}

fn page_with(alloc: Global, what: Report, text: &str) -> Result<Page, AllocError>
    ensures { IfOk result (λ p. p ≡ spec.welcome_page (Ok (Reporting what)) text.now []) }
{
    let media = report_media(what);
    Ok(Page::of(alloc, response(alloc, media, Status::Good, "", text)?))
}

fn report_media(what: Report) -> Media
    ensures { result ≡ spec.report_media what }
{
    match what {
        Report::HealthLine | Report::IndexLine | Report::Metrics => Media::Text,
        Report::Index | Report::Mapping | Report::Settings | Report::Stats | Report::Health =>
            Media::JsonInUtf8,
    }
}

/// The page of what no command answers. A report has a page of its own.
fn welcome_page(alloc: Global, welcome: Welcome, page: Page) -> Result<Page, AllocError>
    ensures { IfOk result (λ p. p ≡ spec.welcome_page (Ok welcome) [] page) }
{
    match welcome {
        Welcome::Nothing => Ok(page),
        Welcome::Greeting => told(alloc, GREETING),
        Welcome::Presence => told(alloc, ""),
        Welcome::Reporting(what) => page_with(alloc, what, ""),
    }
}

fn told(alloc: Global, body: &str) -> Result<Page, AllocError>
    ensures { IfOk result (λ p. p ≡ page.response JsonInUtf8 Good [] body.now) }
{
    Ok(Page::of(
        alloc,
        response(alloc, Media::JsonInUtf8, Status::Good, "", body)?,
    ))
}
