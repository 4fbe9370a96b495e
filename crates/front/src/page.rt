//! The pages that are written. Their bodies have no spaces, and have their keys in byte order, by the names of the Elasticsearch reference.
ghost use Rattle.std.specs.Prelude.{◌≡◌, ◌++◌, [], codes, IfOk, IfSome, OnOk, string_bytes};
ghost use Rattle.front.specs.CommandView.{command_view};
ghost use Rattle.front.specs.Fault.{fault_of};
ghost use Rattle.front.specs.Page as spec;
ghost use Rattle.json.specs.Print as print;
ghost use Rattle.front.specs.declared.page.Status.TheVariants.{Good};
ghost use Rattle.front.specs.ReplyView.{reply_view};
ghost use Rattle.front.specs.SubjectView.{subject_view};

use crate::command::Command;
use crate::hits::hits_body;
use crate::json_text::push_quoted;
use crate::pieces::{Page, Pieces};
use crate::reply::{Found, Hit, Outcome, Refusal, Reply, Wrote};
use crate::request_fault::RequestFault;
use crate::target::Endpoint;
use doc::{DocFault, DocId};
use std::alloc::{AllocError, Global};
use wire::HeadFault;

/// The status of a page (RFC 9110, section 15; 429 by RFC 6585).
#[derive(Clone, Copy, Debug)]
pub(crate) enum Status {
    Good,
    Created,
    BadRequest,
    Forbidden,
    NotFound,
    BadMethod,
    Conflict,
    TooLarge,
    Unsupported,
    Misdirected,
    TooMany,
    NotImplemented,
    Unavailable,
}

impl Status {
    pub(crate) fn number(self) -> &'static str
        ensures { result.now ≡ spec.number_of self }
    {
        match self {
            Status::Good => "200",
            Status::Created => "201",
            Status::BadRequest => "400",
            Status::Forbidden => "403",
            Status::NotFound => "404",
            Status::BadMethod => "405",
            Status::Conflict => "409",
            Status::TooLarge => "413",
            Status::Unsupported => "415",
            Status::Misdirected => "421",
            Status::TooMany => "429",
            Status::NotImplemented => "501",
            Status::Unavailable => "503",
        }
    }

    fn reason(self) -> &'static str
        ensures { result.now ≡ spec.reason_of self }
    {
        match self {
            Status::Good => "OK",
            Status::Created => "Created",
            Status::BadRequest => "Bad Request",
            Status::Forbidden => "Forbidden",
            Status::NotFound => "Not Found",
            Status::BadMethod => "Method Not Allowed",
            Status::Conflict => "Conflict",
            Status::TooLarge => "Content Too Large",
            Status::Unsupported => "Unsupported Media Type",
            Status::Misdirected => "Misdirected Request",
            Status::TooMany => "Too Many Requests",
            Status::NotImplemented => "Not Implemented",
            Status::Unavailable => "Service Unavailable",
        }
    }
}

/// What a body is (RFC 9110, section 8.3).
#[derive(Clone, Copy, Debug)]
pub(crate) enum Media {
    Json,
    JsonInUtf8,
    Text,
}

impl Media {
    fn name(self) -> &'static str
        ensures { result.now ≡ spec.media_name self }
    {
        match self {
            Media::Json => "application/json",
            Media::JsonInUtf8 => "application/json; charset=UTF-8",
            Media::Text => "text/plain; charset=UTF-8",
        }
    }
}

/// The JSON of a server that greets or of one that doesn't. Elasticsearch names the charset.
pub(crate) fn json(greets: bool) -> Media
    ensures { result ≡ spec.json greets }
{
    if greets {
        Media::JsonInUtf8
    } else {
        Media::Json
    }
}

/// What a page is about.
#[derive(Drop)]
pub(crate) enum Subject {
    Written(DocId),
    Bulked,
    Sought(DocId),
    Searched,
    Counted,
    Refreshed,
    Promoted,
}

impl Subject {
    /// What the page of a command's reply is about.
    pub(crate) fn of(alloc: Global, command: &Command) -> Result<Subject, AllocError>
        ensures { IfOk result (λ s. subject_view s ≡ spec.subject_of (command_view command.now)) }
    {
        Ok(match command {
            Command::Write(write) => Subject::Written(write.id.copy(alloc)?),
            Command::Bulk(_) => Subject::Bulked,
            Command::Get(id) => Subject::Sought(id.copy(alloc)?),
            Command::Search(_) => Subject::Searched,
            Command::Count(_) => Subject::Counted,
            Command::Refresh => Subject::Refreshed,
            Command::Promote(_) => Subject::Promoted,
        })
    }
}

/// Room for the head of a page without `allow`. The longest of these heads has 123 bytes.
const HEAD_ROOM: usize = 144;

/// A whole page: the status line, the fields, an empty line, the body (RFC 9112, section 2.1).
pub(crate) fn response(
    alloc: Global,
    media: Media,
    status: Status,
    allow: &str,
    body: &str,
) -> Result<String, AllocError>
    ensures { IfOk result (λ t. string_bytes t ≡ spec.response media status allow.now body.now) }
{
    let mut page = response_head(alloc, media, status, allow, body.len(), body.len())?;
    page.push_str(body)?;
    Ok(page)
}

/// The head of a page whose body has this length, and room for some more bytes.
#[tactic(auto, unfolding(crate::specs::Page::response_head))]
fn response_head(
    alloc: Global,
    media: Media,
    status: Status,
    allow: &str,
    length: usize,
    more: usize,
) -> Result<String, AllocError>
    ensures { IfOk result (λ t. string_bytes t ≡ spec.response_head media status allow.now length) }
{
    let room = HEAD_ROOM.saturating_add(allow.len()).saturating_add(more);
    let mut page = head_start(alloc, media, status, room)?;
    write!(page, "{length}\r\n{allow}\r\n")?;
    Ok(page)
}

/// The head of a page up to its length, in a text with so much room.
#[tactic(auto, unfolding(crate::specs::Page::head_start))]
fn head_start(
    alloc: Global,
    media: Media,
    status: Status,
    room: usize,
) -> Result<String, AllocError>
    ensures { IfOk result (λ t. string_bytes t ≡ spec.head_start media status) }
{
    let number = status.number();
    let reason = status.reason();
    let name = media.name();
    let mut start = String::with_capacity(alloc, room)?;
    write!(
        start,
        "HTTP/1.1 {number} {reason}\r\ncontent-type: {name}\r\ncontent-length: "
    )?;
    Ok(start)
}

/// A whole page, whose body is in pieces.
fn response_over(
    alloc: Global,
    media: Media,
    status: Status,
    body: Pieces,
) -> Result<Page, AllocError>
    ensures { IfOk result (λ p. p ≡ spec.response media status [] body) }
{
    let head = response_head(alloc, media, status, "", body.len()?, 0)?;
    Page::over(head, body)
}

/// A page with more fields after its own.
#[tactic(auto, unfolding(crate::specs::Page::with_fields))]
pub(crate) fn with_fields(alloc: Global, fields: &str, page: &str) -> Result<String, AllocError>
    ensures { IfOk result (λ p. string_bytes p ≡ spec.with_fields fields.now page.now) }
{
    let (head, rest) = at_empty(page);
    format!(in alloc; "{head}{fields}{rest}")
}

/// What stands before the first empty line, and the rest.
pub(crate) fn at_empty(page: &str) -> (&str, &str)
    ensures head { result.0.now ≡ spec.before_empty page.now }
    ensures rest { page.now ≡ result.0.now ++ result.1.now }
{
    match page.find("\r\n\r\n") {
        Some(at) => page.split_at(at),
        None => (page, ""),
    }
}

fn methods_of(endpoint: Endpoint) -> &'static str
    ensures { result.now ≡ spec.methods_of endpoint }
{
    match endpoint {
        Endpoint::Document => "DELETE, GET, POST, PUT",
        Endpoint::Create | Endpoint::Bulk => "POST, PUT",
        Endpoint::Search | Endpoint::Count | Endpoint::Refresh => "GET, POST",
        Endpoint::Promote => "POST",
    }
}

fn allow_of(alloc: Global, fault: &RequestFault) -> Result<String, AllocError>
    ensures { IfOk result (λ t. IfSome (fault_of fault.now) (λ f. string_bytes t ≡ spec.allow_of f)) }
{
    match fault {
        RequestFault::BadMethod(endpoint) => {
            let methods = methods_of(*endpoint);
            format!(in alloc; "allow: {methods}\r\n")
        }
        _ => Ok(String::new(alloc)),
    }
}

pub(crate) fn kind_of(fault: &RequestFault) -> (Status, &'static str)
    ensures { IfSome (fault_of fault.now) (λ f. (result.0, result.1.now) ≡ spec.kind_of f) }
{
    match fault {
        RequestFault::Document(_) => (Status::BadRequest, "mapping_fault"),
        RequestFault::Query(_) => (Status::BadRequest, "query_fault"),
        RequestFault::Head(HeadFault::BadHead)
        | RequestFault::BadParameter
        | RequestFault::BadBulk
        | RequestFault::TypeInPath => { (Status::BadRequest, "request_fault") }
        RequestFault::NoHandler => (Status::BadRequest, "no_route"),
        RequestFault::EncodedBody => (Status::Unsupported, "content_encoding"),
        RequestFault::IndexExists => (Status::BadRequest, "resource_already_exists_exception"),
        RequestFault::ForeignOrigin => (Status::Forbidden, "sender_fault"),
        RequestFault::ForeignHost => (Status::Misdirected, "sender_fault"),
        RequestFault::NoIndex => (Status::NotFound, "index_not_found_exception"),
        RequestFault::NoRoute => (Status::NotFound, "no_route"),
        RequestFault::BadMethod(_) => (Status::BadMethod, "method_fault"),
        RequestFault::Head(HeadFault::BodyTooLarge) => (Status::TooLarge, "size_fault"),
        RequestFault::Head(HeadFault::TransferCoding) => (
            Status::NotImplemented,
            "transfer_coding",
        ),
        RequestFault::NoMemory | RequestFault::Head(HeadFault::NoMemory) => (
            Status::Unavailable,
            "unavailable",
        ),
    }
}

pub(crate) fn name_of(fault: &RequestFault) -> &'static str
    ensures { IfSome (fault_of fault.now) (λ f. result.now ≡ spec.name_of f) }
{
    match fault {
        RequestFault::Document(fault) => fault.name(),
        RequestFault::Query(fault) => fault.name(),
        RequestFault::Head(HeadFault::BadHead) => "BadHead",
        RequestFault::BadParameter => "BadParameter",
        RequestFault::BadBulk => "BadBulk",
        RequestFault::TypeInPath => "TypeInPath",
        RequestFault::NoHandler => "NoHandler",
        RequestFault::EncodedBody => "EncodedBody",
        RequestFault::IndexExists => "IndexExists",
        RequestFault::ForeignOrigin => "ForeignOrigin",
        RequestFault::ForeignHost => "ForeignHost",
        RequestFault::NoIndex => "NoIndex",
        RequestFault::NoRoute => "NoRoute",
        RequestFault::BadMethod(_) => "BadMethod",
        RequestFault::Head(HeadFault::BodyTooLarge) => "BodyTooLarge",
        RequestFault::Head(HeadFault::TransferCoding) => "TransferCoding",
        RequestFault::NoMemory | RequestFault::Head(HeadFault::NoMemory) => "NoMemory",
    }
}

#[tactic(auto, unfolding(crate::specs::Page::error))]
pub(crate) fn error(alloc: Global, name: &str, kind: &str) -> Result<String, AllocError>
    ensures { IfOk result (λ t. string_bytes t ≡ spec.error name.now kind.now) }
{
    format!(in alloc; "{{\"reason\":\"{name}\",\"type\":\"{kind}\"}}")
}

#[tactic(auto, unfolding(crate::specs::Page::error_body))]
fn error_body(alloc: Global, name: &str, status: Status, kind: &str) -> Result<String, AllocError>
    ensures { IfOk result (λ t. string_bytes t ≡ spec.error_body name.now (status, kind.now)) }
{
    let error = error(alloc, name, kind)?;
    let error = error.as_str();
    let number = status.number();
    format!(in alloc; "{{\"error\":{error},\"status\":{number}}}")
}

/// The page of a fault.
pub(crate) fn fault_page(alloc: Global, fault: &RequestFault) -> Result<String, AllocError>
    ensures { IfOk result (λ page. IfSome (fault_of fault.now) (λ f. string_bytes page ≡ spec.fault_page f)) }
{
    let (status, kind) = kind_of(fault);
    let allow = allow_of(alloc, fault)?;
    let body = error_body(alloc, name_of(fault), status, kind)?;
    response(alloc, Media::Json, status, allow.as_str(), body.as_str())
}

/// The type of a fault, as Elasticsearch names it where it has such a fault.
pub(crate) fn type_of(fault: &RequestFault) -> &'static str
    ensures { IfSome (fault_of fault.now) (λ f. result.now ≡ spec.type_of f) }
{
    match fault {
        RequestFault::Document(DocFault::Unmapped(_)) => "strict_dynamic_mapping_exception",
        RequestFault::Document(_) => "mapper_parsing_exception",
        RequestFault::Query(_) => "parsing_exception",
        RequestFault::BadParameter
        | RequestFault::BadBulk
        | RequestFault::TypeInPath
        | RequestFault::NoHandler => "illegal_argument_exception",
        other => kind_of(other).1,
    }
}

/// The object that names a refusal, and says in a sentence why.
#[tactic(auto, unfolding(crate::specs::Page::told_error))]
pub(crate) fn told_error(
    alloc: Global,
    name: &str,
    why: &str,
    kind: &str,
) -> Result<String, AllocError>
    ensures { IfOk result (λ t. string_bytes t ≡ spec.told_error name.now (print.quoted why.now) kind.now) }
{
    let sentence = quoted(alloc, why)?;
    let sentence = sentence.as_str();
    format!(in alloc; "{{\"name\":\"{name}\",\"reason\":{sentence},\"type\":\"{kind}\"}}")
}

#[tactic(auto, unfolding(crate::specs::Page::cause))]
fn cause(alloc: Global, sentence: &str, kind: &str) -> Result<String, AllocError>
    ensures { IfOk result (λ t. string_bytes t ≡ spec.cause sentence.now kind.now) }
{
    format!(in alloc; "{{\"reason\":{sentence},\"type\":\"{kind}\"}}")
}

#[tactic(auto, unfolding(crate::specs::Page::explained_error))]
fn explained_error(
    alloc: Global,
    name: &str,
    sentence: &str,
    kind: &str,
) -> Result<String, AllocError>
    ensures { IfOk result (λ t. string_bytes t ≡ spec.explained_error name.now sentence.now kind.now) }
{
    let cause = cause(alloc, sentence, kind)?;
    let cause = cause.as_str();
    format!(in alloc;
        "{{\"name\":\"{name}\",\"reason\":{sentence},\"root_cause\":[{cause}],\"type\":\"{kind}\"}}"
    )
}

#[tactic(auto, unfolding(crate::specs::Page::explained_body))]
fn explained_body(
    alloc: Global,
    name: &str,
    sentence: &str,
    kind: &str,
    status: Status,
) -> Result<String, AllocError>
    ensures { IfOk result (λ t. string_bytes t ≡ spec.explained_body name.now sentence.now kind.now status) }
{
    let error = explained_error(alloc, name, sentence, kind)?;
    let error = error.as_str();
    let number = status.number();
    format!(in alloc; "{{\"error\":{error},\"status\":{number}}}")
}

/// The page of a fault, with a sentence that says why.
pub(crate) fn explained_page(
    alloc: Global,
    fault: &RequestFault,
    why: &str,
) -> Result<String, AllocError>
    ensures { IfOk result (λ page. IfSome (fault_of fault.now) (λ f. string_bytes page ≡ spec.explained_page f why.now)) }
{
    let (status, _) = kind_of(fault);
    let allow = allow_of(alloc, fault)?;
    let sentence = quoted(alloc, why)?;
    let body = explained_body(
        alloc,
        name_of(fault),
        sentence.as_str(),
        type_of(fault),
        status,
    )?;
    response(
        alloc,
        Media::JsonInUtf8,
        status,
        allow.as_str(),
        body.as_str(),
    )
}

/// A text as a JSON string.
pub(crate) fn quoted(alloc: Global, text: &str) -> Result<String, AllocError>
    ensures { IfOk result (λ t. string_bytes t ≡ print.quoted text.now) }
{
    let mut out = String::new(alloc);
    push_quoted(alloc, &mut out, text)?;
    Ok(out)
}

impl Refusal {
    pub(crate) fn name(self) -> &'static str
        ensures { result.now ≡ spec.refusal_name self }
    {
        match self {
            Refusal::NotPrimary => "NotPrimary",
            Refusal::VersionConflict => "VersionConflict",
            Refusal::WindowFull => "WindowFull",
            Refusal::OldTerm => "OldTerm",
            Refusal::NotSynced => "NotSynced",
            Refusal::BeyondWindow => "BeyondWindow",
            Refusal::Mismatch => "Mismatch",
            Refusal::Closed => "Closed",
            Refusal::Log => "Log",
            Refusal::NoMemory => "NoMemory",
            Refusal::WrongAddress => "WrongAddress",
            Refusal::Exhausted => "Exhausted",
            Refusal::NoSuchCopy => "NoSuchCopy",
            Refusal::NoSuchMessage => "NoSuchMessage",
            Refusal::NotInSync => "NotInSync",
            Refusal::Gone => "Gone",
            Refusal::IsPrimary => "IsPrimary",
            Refusal::Full => "Full",
        }
    }

    pub(crate) fn kind(self) -> (Status, &'static str)
        ensures { (result.0, result.1.now) ≡ spec.refusal_kind self }
    {
        match self {
            Refusal::VersionConflict => (Status::Conflict, "version_conflict_engine_exception"),
            Refusal::WindowFull => (Status::TooMany, "window_full"),
            _ => (Status::Unavailable, "unavailable"),
        }
    }

    /// The type of the refusal, as Elasticsearch names it.
    pub(crate) fn type_name(self) -> &'static str
        ensures { result.now ≡ spec.refusal_type self }
    {
        match self {
            Refusal::VersionConflict => "version_conflict_engine_exception",
            Refusal::WindowFull => "es_rejected_execution_exception",
            _ => "unavailable_shards_exception",
        }
    }

    /// Why the command is refused, in a sentence.
    pub(crate) fn words(self) -> &'static str
        ensures { result.now ≡ spec.refusal_words self }
    {
        match self {
            Refusal::NotPrimary => {
                "no copy leads, or the one that led was followed by another before the write was confirmed, so the write may be kept or not"
            }
            Refusal::VersionConflict => {
                "the document has other numbers than the write asks for, or it is there already"
            }
            Refusal::WindowFull => "too many writes wait for other copies",
            Refusal::Mismatch => "the answer was of another kind than the command",
            Refusal::Closed => "the copy is closed by a fault of its log",
            Refusal::Log => {
                "the log can't be written, so the write is there whole or not at all"
            }
            Refusal::NoMemory => "memory ran out",
            Refusal::NoSuchCopy => "there is no such copy",
            Refusal::NotInSync => "the copy isn't in sync",
            Refusal::Gone => "the copy has left for good",
            Refusal::IsPrimary => "the copy is the primary",
            Refusal::Full => "the master's table is full",
            _ => "the copy can't do it now",
        }
    }
}

/// The page of a refusal. If the server greets, a sentence says why.
fn refusal_page(alloc: Global, greets: bool, refusal: Refusal) -> Result<String, AllocError>
    ensures { IfOk result (λ page. string_bytes page ≡ spec.refusal_page greets refusal) }
{
    let (status, kind) = refusal.kind();
    if greets {
        let sentence = quoted(alloc, refusal.words())?;
        let sentence = sentence.as_str();
        let body = explained_body(alloc, refusal.name(), sentence, refusal.type_name(), status)?;
        return response(alloc, Media::JsonInUtf8, status, "", body.as_str());
    }
    let body = error_body(alloc, refusal.name(), status, kind)?;
    response(alloc, Media::Json, status, "", body.as_str())
}

#[tactic(auto, unfolding(crate::specs::Page::shards))]
fn shards(alloc: Global, count: u64) -> Result<String, AllocError>
    ensures { IfOk result (λ t. string_bytes t ≡ spec.shards count) }
{
    format!(in alloc; "{{\"failed\":0,\"successful\":{count},\"total\":{count}}}")
}

fn outcome_name(outcome: Outcome) -> &'static str
    ensures { result.now ≡ spec.outcome_name outcome }
{
    match outcome {
        Outcome::Created => "created",
        Outcome::Updated => "updated",
        Outcome::Deleted => "deleted",
        Outcome::NotFound => "not_found",
    }
}

pub(crate) fn outcome_status(outcome: Outcome) -> Status
    ensures { result ≡ spec.outcome_status outcome }
{
    match outcome {
        Outcome::Created => Status::Created,
        Outcome::Updated | Outcome::Deleted => Status::Good,
        Outcome::NotFound => Status::NotFound,
    }
}

/// Room for all that the object of a document has apart from its texts, unless its numbers are long.
const OBJECT_ROOM: usize = 192;

/// The field of a document's type, by a server that greets: Elasticsearch 7 has one type.
fn type_field(greets: bool) -> &'static str
    ensures { result.now ≡ spec.type_field greets }
{
    if greets { ",\"_type\":\"_doc\"" } else { "" }
}

/// The first fields in the object of a document: its id and its index.
#[tactic(auto, unfolding(crate::specs::Page::place))]
pub(crate) fn place(
    alloc: Global,
    greets: bool,
    id: &str,
    index: &str,
) -> Result<String, AllocError>
    ensures { IfOk result (λ t. string_bytes t ≡ spec.place greets id.now index.now) }
{
    let room = OBJECT_ROOM
        .saturating_add(id.len())
        .saturating_add(index.len());
    let mut place = String::with_capacity(alloc, room)?;
    place.push_str("\"_id\":")?;
    push_quoted(alloc, &mut place, id)?;
    push_index(alloc, greets, index, &mut place)?;
    Ok(place)
}

/// Appends the fields of the index and of the type.
#[tactic(auto, unfolding(crate::specs::Page::index_field))]
pub(crate) fn push_index(
    alloc: Global,
    greets: bool,
    index: &str,
    text: &mut String,
) -> Result<(), AllocError>
    ensures { OnOk result (string_bytes text.new ≡ string_bytes text.old ++ spec.index_field greets index.now) }
{
    text.push_str(",\"_index\":")?;
    push_quoted(alloc, text, index)?;
    text.push_str(type_field(greets))
}

#[tactic(auto, unfolding(crate::specs::Page::wrote_front))]
fn wrote_front(
    alloc: Global,
    greets: bool,
    id: &str,
    index: &str,
    wrote: Wrote,
) -> Result<String, AllocError>
    ensures { IfOk result (λ t. string_bytes t ≡ spec.wrote_front greets id.now index.now wrote) }
{
    let mut front = place(alloc, greets, id, index)?;
    let term = wrote.term;
    let seq = wrote.seq;
    write!(front, ",\"_primary_term\":{term},\"_seq_no\":{seq}")?;
    Ok(front)
}

#[tactic(auto, unfolding(crate::specs::Page::wrote_fields))]
pub(crate) fn wrote_fields(
    alloc: Global,
    greets: bool,
    id: &str,
    index: &str,
    wrote: Wrote,
) -> Result<String, AllocError>
    ensures { IfOk result (λ t. string_bytes t ≡ spec.wrote_fields greets id.now index.now wrote) }
{
    let mut fields = wrote_middle(alloc, greets, id, index, wrote)?;
    let end = wrote_end(alloc, wrote)?;
    let end = end.as_str();
    write!(fields, ",{end}")?;
    Ok(fields)
}

#[tactic(auto, unfolding(crate::specs::Page::wrote_middle))]
fn wrote_middle(
    alloc: Global,
    greets: bool,
    id: &str,
    index: &str,
    wrote: Wrote,
) -> Result<String, AllocError>
    ensures { IfOk result (λ t. string_bytes t ≡ spec.wrote_middle greets id.now index.now wrote) }
{
    let mut middle = wrote_front(alloc, greets, id, index, wrote)?;
    let shards = shards(alloc, wrote.copies)?;
    let shards = shards.as_str();
    write!(middle, ",\"_shards\":{shards}")?;
    Ok(middle)
}

#[tactic(auto, unfolding(crate::specs::Page::wrote_end))]
fn wrote_end(alloc: Global, wrote: Wrote) -> Result<String, AllocError>
    ensures { IfOk result (λ t. string_bytes t ≡ spec.wrote_end wrote) }
{
    let version = wrote.version;
    let outcome = outcome_name(wrote.outcome);
    format!(in alloc; "\"_version\":{version},\"result\":\"{outcome}\"")
}

fn wrote_page(
    alloc: Global,
    greets: bool,
    index: &str,
    id: &DocId,
    wrote: Wrote,
) -> Result<String, AllocError>
    ensures { IfOk result (λ page. string_bytes page ≡ spec.wrote_page greets index.now id.now wrote) }
{
    let fields = wrote_fields(alloc, greets, id.as_str(), index, wrote)?;
    let fields = fields.as_str();
    let body = format!(in alloc; "{{{fields}}}")?;
    response(
        alloc,
        json(greets),
        outcome_status(wrote.outcome),
        "",
        body.as_str(),
    )
}

#[tactic(auto, unfolding(crate::specs::Page::found_body))]
fn found_body(
    alloc: Global,
    greets: bool,
    id: &str,
    index: &str,
    found: &Found,
) -> Result<String, AllocError>
    ensures { IfOk result (λ t. string_bytes t ≡ spec.found_body greets id.now index.now found.now) }
{
    let place = place(alloc, greets, id, index)?;
    let place = place.as_str();
    let term = found.term;
    let seq = found.seq;
    let version = found.version;
    let source = found.source.as_str();
    let room = OBJECT_ROOM
        .saturating_add(place.len())
        .saturating_add(source.len());
    let mut body = String::with_capacity(alloc, room)?;
    write!(
        body,
        "{{{place},\"_primary_term\":{term},\"_seq_no\":{seq},\"_source\":{source},\"_version\":{version},\"found\":true}}"
    )?;
    Ok(body)
}

fn got_page(
    alloc: Global,
    greets: bool,
    index: &str,
    id: &DocId,
    found: &Option<Found>,
) -> Result<String, AllocError>
    ensures { IfOk result (λ page. string_bytes page ≡ spec.got_page greets index.now id.now found.now) }
{
    match found {
        Some(found) => {
            let body = found_body(alloc, greets, id.as_str(), index, found)?;
            response(alloc, json(greets), Status::Good, "", body.as_str())
        }
        None => {
            let place = place(alloc, greets, id.as_str(), index)?;
            let place = place.as_str();
            let body = format!(in alloc; "{{{place},\"found\":false}}")?;
            response(alloc, json(greets), Status::NotFound, "", body.as_str())
        }
    }
}

#[tactic(auto, unfolding(crate::specs::Page::counted_body))]
fn counted_body(alloc: Global, count: u64) -> Result<String, AllocError>
    ensures { IfOk result (λ t. string_bytes t ≡ spec.counted_body count) }
{
    format!(in alloc;
        "{{\"_shards\":{{\"failed\":0,\"skipped\":0,\"successful\":1,\"total\":1}},\"count\":{count}}}"
    )
}

#[tactic(auto, unfolding(crate::specs::Page::refreshed_body))]
fn refreshed_body(alloc: Global, count: u64) -> Result<String, AllocError>
    ensures { IfOk result (λ t. string_bytes t ≡ spec.refreshed_body count) }
{
    let shards = shards(alloc, count)?;
    let shards = shards.as_str();
    format!(in alloc; "{{\"_shards\":{shards}}}")
}

#[tactic(auto, unfolding(crate::specs::Page::promoted_body))]
fn promoted_body(alloc: Global, copy: u32, term: u64) -> Result<String, AllocError>
    ensures { IfOk result (λ t. string_bytes t ≡ spec.promoted_body copy term) }
{
    format!(in alloc; "{{\"acknowledged\":true,\"primary\":{copy},\"primary_term\":{term}}}")
}

/// The page of a reply, by a server that greets or one that doesn't.
pub(crate) fn reply_page(
    alloc: Global,
    greets: bool,
    index: &str,
    subject: &Subject,
    reply: &Reply,
) -> Result<Page, AllocError>
    ensures { IfOk result (λ page. page ≡ spec.reply_page greets index.now (subject_view subject.now) (reply_view reply.now)) }
{
    let text = match (subject, reply) {
        (_, Reply::Refused(refusal)) => refusal_page(alloc, greets, *refusal)?,
        (Subject::Written(id), Reply::Wrote(wrote)) => wrote_page(
            alloc, greets, index, id, *wrote,
        )?,
        (Subject::Sought(id), Reply::Got(found)) => got_page(alloc, greets, index, id, found)?,
        (Subject::Searched, Reply::Hits(total, hits)) => {
            return hits_page(alloc, greets, index, *total, hits);
        }
        (Subject::Counted, Reply::Counted(count)) => {
            let body = counted_body(alloc, *count)?;
            response(alloc, json(greets), Status::Good, "", body.as_str())?
        }
        (Subject::Refreshed, Reply::Refreshed(count)) => {
            let body = refreshed_body(alloc, *count)?;
            response(alloc, json(greets), Status::Good, "", body.as_str())?
        }
        (Subject::Promoted, Reply::Promoted(copy, term)) => {
            let body = promoted_body(alloc, *copy, *term)?;
            response(alloc, json(greets), Status::Good, "", body.as_str())?
        }
        _ => refusal_page(alloc, greets, Refusal::Mismatch)?,
    };
    Ok(Page::of(alloc, text))
}

fn hits_page(
    alloc: Global,
    greets: bool,
    index: &str,
    total: u64,
    hits: &[Hit],
) -> Result<Page, AllocError>
    ensures { IfOk result (λ page. page ≡ spec.response (spec.json greets) Good [] (spec.hits_body greets index.now total hits.now)) }
{
    let body = hits_body(alloc, greets, index, total, hits)?;
    response_over(alloc, json(greets), Status::Good, body)
}
