//! Why a request was refused, in words for whoever wrote it.

use crate::admission::admit;
use crate::asking::{Asked, ask, or_nothing};
use crate::bulk::{Item, item_write};
use crate::bulk_reasons::bulk_reason;
use crate::greeting::{Welcome, check_handled, turned_request, welcome_of};
use crate::lines::is_blank;
use crate::parameters::{NONE, is_known, with_parameter};
use crate::request_fault::RequestFault;
use crate::rule::Rule;
use crate::target::origin_of;
use doc::{DocFault, Mapping};
use form_urlencoded::parse;
use query::QueryFault;
use reasons::document_reason;
use serde_json::Value;
use std::alloc::{AllocError, Global};
use wire::{HeadFault, Request, Whole, cut_at, text_of};

/// Why a request is refused before the service is called, with one text for each fault. The text of a bulk's item names the line of the body with the fault,
/// counted from 1. If nothing is refused, there is no text. What a service refuses isn't explained here: its page says it.
pub fn reasons_of(
    alloc: Global,
    rule: &Rule,
    index: &str,
    mapping: &Mapping,
    whole: &Whole,
) -> Result<Vec<String>, AllocError> {
    match whole {
        Whole::Broken(fault) => {
            let mut reasons = Vec::new(alloc);
            reasons.push(String::from_str(alloc, head_reason(*fault))?)?;
            Ok(reasons)
        }
        Whole::Asked(request) => match admit(&rule.admission, &request.sender) {
            Ok(()) => admitted_reasons(alloc, rule.greets, index, mapping, request),
            Err(fault) => one_reason(alloc, rule.greets, index, mapping, &fault, request),
        },
    }
}

fn admitted_reasons(
    alloc: Global,
    greets: bool,
    index: &str,
    mapping: &Mapping,
    request: &Request,
) -> Result<Vec<String>, AllocError> {
    if greets {
        greeted_reasons(alloc, index, mapping, request)
    } else {
        reasons_in(alloc, false, index, mapping, request)
    }
}

/// Why a server that greets refuses a request: the path has a type, no command answers the request and it has a fault, or the turned request has one.
fn greeted_reasons(
    alloc: Global,
    index: &str,
    mapping: &Mapping,
    request: &Request,
) -> Result<Vec<String>, AllocError> {
    match welcome_of(alloc, index, request) {
        Ok(Welcome::Nothing) => handled_reasons(alloc, index, mapping, request),
        Ok(_) => Ok(Vec::new(alloc)),
        Err(fault) => one_reason(alloc, true, index, mapping, &fault, request),
    }
}

fn handled_reasons(
    alloc: Global,
    index: &str,
    mapping: &Mapping,
    request: &Request,
) -> Result<Vec<String>, AllocError> {
    match check_handled(alloc, index, request) {
        Ok(()) => {
            let turned = turned_request(alloc, request)?;
            reasons_in(alloc, true, index, mapping, &turned)
        }
        Err(fault) => one_reason(alloc, true, index, mapping, &fault, request),
    }
}

fn reasons_in(
    alloc: Global,
    greets: bool,
    index: &str,
    mapping: &Mapping,
    request: &Request,
) -> Result<Vec<String>, AllocError> {
    match ask(alloc, greets, index, mapping, request) {
        Ok(Asked::One(command)) => {
            drop(command);
            Ok(Vec::new(alloc))
        }
        Ok(Asked::Many(_, items)) => item_reasons(alloc, index, mapping, &items, &request.body),
        Err(fault) => one_reason(alloc, greets, index, mapping, &fault, request),
    }
}

fn one_reason(
    alloc: Global,
    greets: bool,
    index: &str,
    mapping: &Mapping,
    fault: &RequestFault,
    request: &Request,
) -> Result<Vec<String>, AllocError> {
    let mut reasons = Vec::new(alloc);
    reasons.push(sentence(alloc, greets, index, mapping, fault, request)?)?;
    Ok(reasons)
}

/// Why a request is refused, in a sentence.
pub(crate) fn sentence(
    alloc: Global,
    greets: bool,
    index: &str,
    mapping: &Mapping,
    fault: &RequestFault,
    request: &Request,
) -> Result<String, AllocError> {
    let (path, query) = cut_at(origin_of(&request.target), b'?');
    match fault {
        RequestFault::BadParameter => parameter_reason(alloc, or_nothing(query)),
        RequestFault::BadBulk => {
            let named = if path == b"/_bulk".as_slice() {
                None
            } else {
                Some(index)
            };
            bulk_reason(alloc, greets, named, &request.body)
        }
        RequestFault::NoHandler => no_handler_reason(alloc, request),
        _ => reason(alloc, index, mapping, fault, &request.body),
    }
}

/// That no endpoint has the path, in Elasticsearch's words. A HEAD has the page of its GET.
fn no_handler_reason(alloc: Global, request: &Request) -> Result<String, AllocError> {
    let uri = text_or_nothing(&request.target);
    let method = match text_or_nothing(&request.method) {
        "HEAD" => "GET",
        method => method,
    };
    let paths = words_for(&RequestFault::NoRoute);
    format!(in alloc; "no handler found for uri [{uri}] and method [{method}]: {paths}")
}

/// Which parameter is at fault.
fn parameter_reason(alloc: Global, query: &[u8]) -> Result<String, AllocError> {
    let mut found = NONE;
    for pair in parse(alloc, query) {
        let (name, value) = pair?;
        match with_parameter(found, &name, &value) {
            Ok(next) => found = next,
            Err(fault) => {
                drop(fault);
                return named_reason(alloc, &name, &value);
            }
        }
    }
    String::from_str(
        alloc,
        "a parameter doesn't go with this path and method, or an id isn't UTF-8",
    )
}

fn named_reason(alloc: Global, name: &str, value: &str) -> Result<String, AllocError> {
    if is_known(name) {
        format!(in alloc; "the parameter {name} comes twice, or can't be {value}")
    } else {
        format!(in alloc; "the parameter {name} isn't known")
    }
}

/// Why items are refused. Each item has one line, and one more for its source if it indexes or creates. Empty lines may stand between items.
fn item_reasons<'b>(
    alloc: Global,
    index: &str,
    mapping: &Mapping,
    items: &[Item<'b>],
    body: &[u8],
) -> Result<Vec<String>, AllocError> {
    let mut reasons = Vec::new(alloc);
    let mut items = items.iter();
    let mut line = 0u64;
    let mut is_source = false;
    for text in body.split(|&b| b == b'\n') {
        line = line.saturating_add(1);
        if is_source || is_blank(text) {
            is_source = false;
            continue;
        }
        let Some(item) = items.next() else {
            break;
        };
        is_source = item.action.takes_source();
        if let Some(why) = item_reason(alloc, index, mapping, item, line)? {
            reasons.push(why)?;
        }
    }
    Ok(reasons)
}

fn item_reason<'b>(
    alloc: Global,
    index: &str,
    mapping: &Mapping,
    item: &Item<'b>,
    line: u64,
) -> Result<Option<String>, AllocError> {
    match item_write(alloc, index, mapping, item) {
        Ok(write) => {
            drop(write);
            Ok(None)
        }
        Err(fault) => {
            let why = reason(alloc, index, mapping, &fault, item.source)?;
            let line = line.saturating_add(lines_above(&fault));
            Ok(Some(format!(in alloc; "line {line}: {why}")?))
        }
    }
}

/// How many lines the fault is below the action line. The action line has the id, and the next line has the document.
fn lines_above(fault: &RequestFault) -> u64 {
    match fault {
        RequestFault::Document(DocFault::IdEmpty | DocFault::IdTooLong) => 0,
        RequestFault::Document(_) => 1,
        _ => 0,
    }
}

fn reason(
    alloc: Global,
    index: &str,
    mapping: &Mapping,
    fault: &RequestFault,
    body: &[u8],
) -> Result<String, AllocError> {
    match fault {
        RequestFault::Document(fault) => {
            document_reason(alloc, fault, Some(mapping), text_or_nothing(body))
        }
        RequestFault::Query(fault) => query_reason(alloc, fault, text_or_nothing(body)),
        RequestFault::NoIndex => {
            format!(in alloc; "another index is served here, which is named {index}")
        }
        RequestFault::IndexExists => format!(in alloc; "index [{index}] already exists"),
        _ => String::from_str(alloc, words_for(fault)),
    }
}

/// Why an item of a bulk is refused, in a sentence.
pub(crate) fn item_sentence(
    alloc: Global,
    index: &str,
    mapping: &Mapping,
    fault: &RequestFault,
    source: &[u8],
) -> Result<String, AllocError> {
    reason(alloc, index, mapping, fault, source)
}

fn text_or_nothing(body: &[u8]) -> &str {
    text_of(body).unwrap_or("")
}

fn query_reason(alloc: Global, fault: &QueryFault, body: &str) -> Result<String, AllocError> {
    if let QueryFault::Parsing(_) = fault {
        if let Err(error) = Value::from_str(alloc, body) {
            let at = error.column();
            return format!(in alloc; "the body isn't JSON: {error} (byte {at} of it)");
        }
    }
    format!(in alloc; "{fault}")
}

fn words_for(fault: &RequestFault) -> &'static str {
    match fault {
        RequestFault::Head(fault) => head_reason(*fault),
        RequestFault::NoRoute | RequestFault::NoHandler => {
            "there is no such path; there are /INDEX/_doc/ID, /INDEX/_create/ID, /INDEX/_search, /INDEX/_count, /INDEX/_refresh, /INDEX/_bulk, /INDEX/_promote/COPY and /_bulk"
        }
        RequestFault::BadMethod(_) => "the path doesn't take this method",
        RequestFault::ForeignOrigin => {
            "the request comes from a web page of another origin; --cors ORIGIN lets its pages ask"
        }
        RequestFault::ForeignHost => {
            "the server isn't known under the name in the field host; --host-name NAME gives it this name"
        }
        RequestFault::TypeInPath => {
            "an endpoint stands after a type in the path; leave out the type, as in /INDEX/_search"
        }
        RequestFault::EncodedBody => "the body has a content-encoding, and none is read here",
        RequestFault::NoMemory => "out of memory",
        RequestFault::NoIndex
        | RequestFault::IndexExists
        | RequestFault::BadParameter
        | RequestFault::BadBulk
        | RequestFault::Document(_)
        | RequestFault::Query(_) => "refused",
    }
}

pub(crate) fn head_reason(fault: HeadFault) -> &'static str {
    match fault {
        HeadFault::BadHead => {
            "no head of HTTP/1.0 or 1.1 of at most 16,384 bytes and 64 fields, with one length"
        }
        HeadFault::TransferCoding =>
            "a transfer coding, and none is read here: give content-length",
        HeadFault::BodyTooLarge => {
            "the body has more than 1,048,576 bytes; with --greet a bulk may have as many as --body-mb says"
        }
        HeadFault::NoMemory => "out of memory",
    }
}
