//! The rule by which requests are answered.
ghost use Rattle.std.specs.Prelude.{◌≡◌, ◌++◌, string_bytes, IfOk, IfErr, OnErr};
ghost use Rattle.wire.specs.Reading as read;
ghost use Rattle.wire.specs.Requests.{Standing, good};
ghost use Rattle.wire.specs.declared.fault.StreamFault.TheVariants.{NoMemory};
ghost use Rattle.front.specs.Admission.{admitted};
ghost use Rattle.front.specs.Greeting.{is_head as is_head_of};
ghost use Rattle.front.specs.Page as pages;
ghost use Rattle.front.specs.Rule as spec;
ghost use Rattle.front.specs.RuleView.{admission_view, rule_view};
ghost use Rattle.front.specs.Serving.{Begun};

use crate::admission::{Admission, admit, is_preflight, opened, preflight_page};
use crate::greeting::{greet_request, is_head};
use crate::pieces::Page;
use crate::refusing::{broken_page, refused_page};
use crate::service::Service;
use crate::serving::answer_request;
use std::alloc::{AllocError, Global};
use wire::{Request, StreamFault, Whole};

/// The field by which client libraries of Elasticsearch know its server.
const PRODUCT: &str = "\r\nx-elastic-product: Elasticsearch";

/// How requests are answered, and who may ask.
#[derive(Drop)]
pub struct Rule {
    /// Whether requests are answered as the client libraries of Elasticsearch expect: `GET /` gets a greeting, some paths report how the index
    /// stands, a HEAD is done as its GET, and `refresh=wait_for` is done like `refresh=true`. A bulk may have empty lines, and name the type `_doc`.
    pub greets: bool,
    pub admission: Admission,
    /// The most bytes of a body. If `greets` is true, only a bulk may have more than 1,048,576.
    pub most: u32,
    /// For how many seconds a client should keep a connection that asks nothing, if pages tell it so. They do if `greets` is true.
    pub idle: Option<u64>,
}

/// Does what a request asks, by a rule, and returns its page. If its sender may not ask, nothing is done.
pub fn answer_by<S: Service>(
    alloc: Global,
    rule: &Rule,
    service: &mut S,
    whole: &Whole,
) -> Result<Page, StreamFault>
    ensures ok { IfOk result (λ page. (q : Standing) → read.IsStanding whole.now q → spec.AnsweredBy (rule_view rule.now) S.answers (S.name service.old) (S.fields service.old) q
        service.old page service.new) }
    ensures err { OnErr result ((q : Standing) → read.IsStanding whole.now q → Begun S.answers
        (spec.work_by (rule_view rule.now) (S.name service.old) (S.fields service.old) q) service.old service.new) }
    ensures cause { IfErr result (λ e. e ≡ NoMemory) }
    ensures name { S.name service.new ≡ S.name service.old }
    ensures fields { S.fields service.new ≡ S.fields service.old }
{
    let page = answer_plainly(alloc, rule, service, whole)?;
    Ok(signed(alloc, rule.greets, rule.idle, page)?)
}

/// Does what a request asks, by a rule, and returns its page without the field that names the product.
fn answer_plainly<S: Service>(
    alloc: Global,
    rule: &Rule,
    service: &mut S,
    whole: &Whole,
) -> Result<Page, StreamFault>
    ensures ok { IfOk result (λ page. (q : Standing) → read.IsStanding whole.now q → spec.Turned rule.now.greets S.answers (S.name service.old)
        (spec.work_by (rule_view rule.now) (S.name service.old) (S.fields service.old) q) (λ why out. spec.plain_page (rule_view rule.now) (S.name service.old) (S.fields service.old) q why out)
        service.old page service.new) }
    ensures err { OnErr result ((q : Standing) → read.IsStanding whole.now q → Begun S.answers
        (spec.work_by (rule_view rule.now) (S.name service.old) (S.fields service.old) q) service.old service.new) }
    ensures cause { IfErr result (λ e. e ≡ NoMemory) }
    ensures name { S.name service.new ≡ S.name service.old }
    ensures fields { S.fields service.new ≡ S.fields service.old }
{
    match whole {
        Whole::Broken(fault) => Ok(broken_page(alloc, rule.greets, *fault)?),
        Whole::Asked(request) => answer_asked(alloc, rule, service, request),
    }
}

fn signed(alloc: Global, greets: bool, idle: Option<u64>, page: Page) -> Result<Page, AllocError>
    ensures { IfOk result (λ p. p ≡ spec.signed greets idle page) }
{
    if !greets {
        return Ok(page);
    }
    let fields = signature(alloc, idle)?;
    page.with_fields(alloc, fields.as_str())
}

/// The fields by which a client knows the server, and for how long it should keep a connection.
fn signature(alloc: Global, idle: Option<u64>) -> Result<String, AllocError>
    ensures { IfOk result (λ t. string_bytes t ≡ spec.product ++ spec.keep_alive idle) }
{
    match idle {
        Some(seconds) => { format!(in alloc; "{PRODUCT}\r\nkeep-alive: timeout={seconds}") }
        None => String::from_str(alloc, PRODUCT),
    }
}

fn answer_asked<S: Service>(
    alloc: Global,
    rule: &Rule,
    service: &mut S,
    request: &Request,
) -> Result<Page, StreamFault>
    ensures ok { IfOk result (λ page. spec.Turned rule.now.greets S.answers (S.name service.old)
        (spec.work_by (rule_view rule.now) (S.name service.old) (S.fields service.old) (good (read.request_view request.now)))
        (λ why out. spec.plain_page (rule_view rule.now) (S.name service.old) (S.fields service.old) (good (read.request_view request.now)) why out) service.old page service.new) }
    ensures err { OnErr result (Begun S.answers
        (spec.work_by (rule_view rule.now) (S.name service.old) (S.fields service.old) (good (read.request_view request.now))) service.old service.new) }
    ensures cause { IfErr result (λ e. e ≡ NoMemory) }
    ensures name { S.name service.new ≡ S.name service.old }
    ensures fields { S.fields service.new ≡ S.fields service.old }
{
    let page = answer_whole(alloc, rule, service, request)?;
    Ok(headed(alloc, request, page)?)
}

/// The head of a page, if the request is a HEAD.
fn headed(alloc: Global, request: &Request, page: Page) -> Result<Page, AllocError>
    ensures { IfOk result (λ p. p ≡ pages.headed (is_head_of (read.request_view request.now)) page) }
{
    if is_head(request) {
        page.head(alloc)
    } else {
        Ok(page)
    }
}

/// Does what a request asks, by a rule, and returns its page, with its body also if it is a HEAD.
fn answer_whole<S: Service>(
    alloc: Global,
    rule: &Rule,
    service: &mut S,
    request: &Request,
) -> Result<Page, StreamFault>
    ensures ok { IfOk result (λ page. spec.Turned rule.now.greets S.answers (S.name service.old)
        (spec.work_by (rule_view rule.now) (S.name service.old) (S.fields service.old) (good (read.request_view request.now)))
        (λ why out. spec.admitted_page (admitted (admission_view rule.now.admission) (read.request_view request.now).sender) (rule_view rule.now) (S.name service.old) (S.fields service.old) (read.request_view request.now) why out) service.old page service.new) }
    ensures err { OnErr result (Begun S.answers
        (spec.work_by (rule_view rule.now) (S.name service.old) (S.fields service.old) (good (read.request_view request.now))) service.old service.new) }
    ensures cause { IfErr result (λ e. e ≡ NoMemory) }
    ensures name { S.name service.new ≡ S.name service.old }
    ensures fields { S.fields service.new ≡ S.fields service.old }
{
    match admit(&rule.admission, &request.sender) {
        Ok(()) => answer_admitted(alloc, rule, service, request),
        Err(fault) => if fault.is_memory() {
            Err(StreamFault::NoMemory)
        } else {
            Ok(refused_page(
                alloc,
                rule.greets,
                service.index(),
                service.mapping(),
                &fault,
                request,
            )?)
        },
    }
}

fn answer_admitted<S: Service>(
    alloc: Global,
    rule: &Rule,
    service: &mut S,
    request: &Request,
) -> Result<Page, StreamFault>
    ensures ok { IfOk result (λ page. spec.Turned rule.now.greets S.answers (S.name service.old) (spec.work_if rule.now.greets (S.name service.old) (S.fields service.old) (read.request_view request.now))
        (λ why out. spec.opened_page (rule_view rule.now) (S.name service.old) (S.fields service.old) (read.request_view request.now) why out) service.old page service.new) }
    ensures err { OnErr result (Begun S.answers
        (spec.work_if rule.now.greets (S.name service.old) (S.fields service.old) (read.request_view request.now)) service.old service.new) }
    ensures cause { IfErr result (λ e. e ≡ NoMemory) }
    ensures name { S.name service.new ≡ S.name service.old }
    ensures fields { S.fields service.new ≡ S.fields service.old }
{
    let page = answer_if(alloc, rule.greets, service, request)?;
    Ok(opened_page(alloc, rule, request, page)?)
}

/// Answers a request. If `greets` is true, it answers as the client libraries of Elasticsearch expect.
fn answer_if<S: Service>(
    alloc: Global,
    greets: bool,
    service: &mut S,
    request: &Request,
) -> Result<Page, StreamFault>
    ensures ok { IfOk result (λ page. spec.Turned greets S.answers (S.name service.old) (spec.work_if greets (S.name service.old) (S.fields service.old) (read.request_view request.now))
        (λ why out. spec.page_if greets (S.name service.old) (S.fields service.old) (read.request_view request.now) why out) service.old page service.new) }
    ensures err { OnErr result (Begun S.answers
        (spec.work_if greets (S.name service.old) (S.fields service.old) (read.request_view request.now)) service.old service.new) }
    ensures cause { IfErr result (λ e. e ≡ NoMemory) }
    ensures name { S.name service.new ≡ S.name service.old }
    ensures fields { S.fields service.new ≡ S.fields service.old }
{
    if greets {
        greet_request(alloc, service, request)
    } else {
        answer_request(alloc, false, service, request)
    }
}

/// The page for a sender that may ask, made from the page of what was done.
fn opened_page(
    alloc: Global,
    rule: &Rule,
    request: &Request,
    page: Page,
) -> Result<Page, AllocError>
    ensures { IfOk result (λ p. p ≡ spec.opened_for (rule_view rule.now) (read.request_view request.now) page) }
{
    let page = if is_preflight(request) {
        preflight_page(alloc)?
    } else {
        page
    };
    opened(alloc, &rule.admission, &request.sender.origins, page)
}
