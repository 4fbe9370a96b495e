//! Who may ask. A browser names the origin of the page that sends a request, and the name under which it found the server.
ghost use Rattle.std.specs.Prelude.{◌≡◌, bytes_eq, map, IfOk, string_bytes};
ghost use Rattle.std.specs.List.{list_all, list_any};
ghost use Rattle.doc.specs.Outcome.{Gives};
ghost use Rattle.front.specs.Admission as spec;
ghost use Rattle.front.specs.Fault.{fault_of};
ghost use Rattle.front.specs.RuleView.{admission_view};
ghost use Rattle.wire.specs.Framing.{is_named};
ghost use Rattle.wire.specs.Reading.{request_view, sender_view};

use crate::page::{Media, Status, response};
use crate::pieces::Page;
use crate::request_fault::RequestFault;
use std::alloc::{AllocError, Global};
use wire::{Request, Sender, cut_at, text_of};

/// The origins whose pages may ask (`*` stands for all of them), and the names with a dot under which the server is known.
#[derive(Drop)]
pub struct Admission {
    pub origins: Vec<String>,
    pub names: Vec<String>,
}

/// The fields that a browser must see before it sends a request for a page of another origin.
const PREFLIGHT: &str =
    "access-control-allow-headers: authorization, *\r\naccess-control-allow-methods: DELETE, GET, HEAD, POST, PUT\r\naccess-control-allow-private-network: true\r\naccess-control-max-age: 600\r\n";

/// Checks that the sender of a request may ask anything, or returns the first fault.
#[tactic(auto, unfolding(crate::specs::Admission::admitted))]
pub(crate) fn admit(admission: &Admission, sender: &Sender) -> Result<(), RequestFault>
    ensures { Gives fault_of (λ u. u) result (spec.admitted (admission_view admission.now) (sender_view sender.now)) }
{
    if !are_allowed(admission, &sender.origins) {
        return Err(RequestFault::ForeignOrigin);
    }
    if !are_known(admission, &sender.hosts) {
        return Err(RequestFault::ForeignHost);
    }
    Ok(())
}

fn are_allowed(admission: &Admission, origins: &[Vec<u8>]) -> bool
    ensures { result ≡ list_all (spec.is_allowed (admission_view admission.now)) (map (λ o. o.items) origins.now) }
{
    for origin in origins {
        if !is_allowed(admission, origin.as_slice()) {
            return false;
        }
    }
    true
}

fn are_known(admission: &Admission, hosts: &[Vec<u8>]) -> bool
    ensures { result ≡ list_all (spec.is_known_host (admission_view admission.now)) (map (λ h. h.items) hosts.now) }
{
    for host in hosts {
        if !is_known_host(admission, host.as_slice()) {
            return false;
        }
    }
    true
}

fn is_allowed(admission: &Admission, origin: &[u8]) -> bool
    ensures { result ≡ spec.is_allowed (admission_view admission.now) origin.now }
{
    lists(&admission.origins, b"*") || lists(&admission.origins, origin)
}

fn lists(texts: &[String], wanted: &[u8]) -> bool
    ensures { result ≡ spec.lists (map string_bytes texts.now) wanted.now }
{
    for text in texts {
        if text.as_bytes() == wanted {
            return true;
        }
    }
    false
}

fn is_known_host(admission: &Admission, host: &[u8]) -> bool
    ensures { result ≡ spec.is_known_host (admission_view admission.now) host.now }
{
    is_known(admission, cut_at(host, b':').0)
}

fn is_known(admission: &Admission, name: &[u8]) -> bool
    ensures { result ≡ spec.is_known (admission_view admission.now) name.now }
{
    !has_dot(name) || is_address(name) || is_below_localhost(name) || is_own(&admission.names, name)
}

fn has_dot(name: &[u8]) -> bool
    ensures { result ≡ spec.has_dot name.now }
{
    name.contains(&b'.')
}

fn is_address(name: &[u8]) -> bool
    ensures { result ≡ spec.is_address name.now }
{
    for byte in name {
        if *byte != b'.' && !byte.is_ascii_digit() {
            return false;
        }
    }
    true
}

fn is_below_localhost(name: &[u8]) -> bool
    ensures { result ≡ spec.is_below_localhost name.now }
{
    name[name.len().saturating_sub(10)..].eq_ignore_ascii_case(b".localhost")
}

fn is_own(names: &[String], name: &[u8]) -> bool
    ensures { result ≡ list_any (λ n. is_named n name.now) (map string_bytes names.now) }
{
    for own in names {
        if is_same_name(own.as_bytes(), name) {
            return true;
        }
    }
    false
}

fn is_same_name(own: &[u8], name: &[u8]) -> bool
    ensures { result ≡ is_named own.now name.now }
{
    own.eq_ignore_ascii_case(name)
}

pub(crate) fn is_preflight(request: &Request) -> bool
    ensures { result ≡ spec.is_preflight (request_view request.now) }
{
    request.method.as_slice() == b"OPTIONS".as_slice() && !request.sender.origins.is_empty()
}

pub(crate) fn preflight_page(alloc: Global) -> Result<Page, AllocError>
    ensures { IfOk result (λ p. p ≡ spec.preflight_page) }
{
    Ok(Page::of(
        alloc,
        response(alloc, Media::Json, Status::Good, PREFLIGHT, "")?,
    ))
}

/// Opens a page to the first origin that its request names. If the request names none, the page stays as it is.
pub(crate) fn opened(
    alloc: Global,
    admission: &Admission,
    origins: &[Vec<u8>],
    page: Page,
) -> Result<Page, AllocError>
    ensures { IfOk result (λ p. p ≡ spec.opened (admission_view admission.now) (map (λ o. o.items) origins.now) page) }
{
    match origins {
        [] => Ok(page),
        [origin, ..] => {
            let fields = opening(alloc, granted(admission, origin.as_slice()))?;
            page.with_fields(alloc, fields.as_str())
        }
    }
}

fn granted<'b>(admission: &Admission, origin: &'b [u8]) -> &'b str
    ensures { result.now ≡ spec.granted (admission_view admission.now) origin.now }
{
    if lists(&admission.origins, b"*") {
        "*"
    } else {
        text_of(origin).unwrap_or("")
    }
}

#[tactic(auto, unfolding(crate::specs::Admission::opening))]
fn opening(alloc: Global, origin: &str) -> Result<String, AllocError>
    ensures { IfOk result (λ f. string_bytes f ≡ spec.opening origin.now) }
{
    format!(in alloc; "\r\naccess-control-allow-origin: {origin}\r\nvary: origin")
}
