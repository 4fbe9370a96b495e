//! What the target of a request names (RFC 9112, section 3.2.1): an endpoint, the index and an id.
ghost use Rattle.std.specs.Prelude.{◌≡◌, ◌==◌, bytes_eq, map, option_map, IfOk, Some};
ghost use Rattle.std.specs.List.{slice_split};
ghost use Rattle.percent_encoding.specs.Percent.{percent_decode};
ghost use Rattle.doc.specs.Outcome.{Gives};
ghost use Rattle.front.specs.Fault.{fault_of};
ghost use Rattle.front.specs.RouteView.{route_view};
ghost use Rattle.front.specs.Target as spec;

use crate::request_fault::RequestFault;
use percent_encoding::percent_decode;
use std::alloc::{AllocError, Global};
use wire::cut_at;

/// What a path asks for. `_doc`, `_create`, `_search`, `_count`, `_refresh` and `_bulk` are names of the Elasticsearch reference, `_promote` is this project's.
#[derive(Clone, Copy, Debug, PartialEq, Eq)]
pub(crate) enum Endpoint {
    Document,
    Create,
    Search,
    Count,
    Refresh,
    Bulk,
    Promote,
}

/// A method. Its name is case-sensitive (RFC 9110, section 9.1).
#[derive(Clone, Copy, Debug, PartialEq, Eq)]
pub(crate) enum Method {
    Delete,
    Get,
    Post,
    Put,
    Other,
}

/// What a path names. The index and the id (or the number of a copy) are bytes: whether they are text is checked later, in its turn in the order of faults.
#[derive(Drop)]
pub(crate) struct Route {
    pub(crate) endpoint: Endpoint,
    pub(crate) index: Option<Vec<u8>>,
    pub(crate) id: Vec<u8>,
}

/// The parameters that came. Each comes once at most.
#[derive(Clone, Copy)]
pub(crate) struct Parameters {
    pub(crate) pretty: Option<bool>,
    pub(crate) refresh: Option<bool>,
    pub(crate) create: Option<bool>,
    pub(crate) seq: Option<u64>,
    pub(crate) term: Option<u64>,
    pub(crate) size: Option<u64>,
    pub(crate) from: Option<u64>,
}

impl Method {
    pub(crate) fn of(name: &[u8]) -> Method
        ensures { result ≡ spec.method_of name.now }
    {
        if is(name, "GET") {
            Method::Get
        } else if is(name, "PUT") {
            Method::Put
        } else if is(name, "POST") {
            Method::Post
        } else if is(name, "DELETE") {
            Method::Delete
        } else {
            Method::Other
        }
    }
}

impl Endpoint {
    /// Whether the endpoint takes this method.
    pub(crate) fn allows(self, method: Method) -> bool
        ensures { result ≡ spec.is_allowed self method }
    {
        match (self, method) {
            (_, Method::Other) => false,
            (Endpoint::Document, _) => true,
            (Endpoint::Create | Endpoint::Bulk, Method::Post | Method::Put) => true,
            (Endpoint::Search | Endpoint::Count | Endpoint::Refresh, Method::Get | Method::Post) =>
                true,
            (Endpoint::Promote, Method::Post) => true,
            _ => false,
        }
    }
}

fn endpoint_of_two(name: &[u8]) -> Option<Endpoint>
    ensures { result ≡ spec.endpoint_of_two name.now }
{
    if is(name, "_search") {
        Some(Endpoint::Search)
    } else if is(name, "_count") {
        Some(Endpoint::Count)
    } else if is(name, "_refresh") {
        Some(Endpoint::Refresh)
    } else if is(name, "_bulk") {
        Some(Endpoint::Bulk)
    } else {
        None
    }
}

fn endpoint_of_three(name: &[u8]) -> Option<Endpoint>
    ensures { result ≡ spec.endpoint_of_three name.now }
{
    if is(name, "_doc") {
        Some(Endpoint::Document)
    } else if is(name, "_create") {
        Some(Endpoint::Create)
    } else if is(name, "_promote") {
        Some(Endpoint::Promote)
    } else {
        None
    }
}

fn is(bytes: &[u8], text: &str) -> bool
    ensures { result ≡ bytes_eq bytes.now text.now }
{
    bytes == text.as_bytes()
}

pub(crate) fn decoded(alloc: Global, bytes: &[u8]) -> Result<Vec<u8>, AllocError>
    ensures { IfOk result (λ d. d.items ≡ percent_decode bytes.now) }
{
    let mut out = Vec::new(alloc);
    percent_decode(bytes).append_to(&mut out)?;
    Ok(out)
}

fn routed(
    endpoint: Option<Endpoint>,
    index: Option<Vec<u8>>,
    id: Vec<u8>,
) -> Result<Route, RequestFault>
    ensures { Gives fault_of route_view result (spec.routed endpoint (option_map (λ i. i.items) index) id.items) }
{
    match endpoint {
        Some(endpoint) => Ok(Route {
            endpoint,
            index,
            id,
        }),
        None => Err(RequestFault::NoRoute),
    }
}

/// The origin form of a target (RFC 9112, section 3.2.1). For a target in absolute form (section 3.2.2) this is what follows the authority.
pub(crate) fn origin_of(target: &[u8]) -> &[u8]
    ensures { result.now ≡ spec.origin_of target.now }
{
    if target.len() >= 7 && target[..7].eq_ignore_ascii_case(b"http://") {
        from_path(&target[7..])
    } else {
        target
    }
}

/// The bytes from the first `/` or `?` on.
fn from_path(bytes: &[u8]) -> &[u8]
    ensures { result.now ≡ spec.from_path bytes.now }
{
    match bytes.iter().position(|&b| b == b'/' || b == b'?') {
        Some(i) => &bytes[i..],
        None => &[],
    }
}

/// The route of a path. The path is split at `/`, and each part is percent-decoded.
pub(crate) fn route_of(alloc: Global, path: &[u8]) -> Result<Route, RequestFault>
    ensures { Gives fault_of route_view result (spec.route_of path.now) }
{
    match path {
        [b'/', rest @ ..] => route_of_rest(alloc, rest),
        _ => Err(RequestFault::NoRoute),
    }
}

#[tactic(auto, using(crate::proofs::Paths::split_cut))]
fn route_of_rest(alloc: Global, path: &[u8]) -> Result<Route, RequestFault>
    ensures { Gives fault_of route_view result
        (spec.route_of_parts (map percent_decode (slice_split (λ b. b == 47) path.now))) }
{
    let (first, rest) = cut_at(path, b'/');
    let first = decoded(alloc, first)?;
    let Some(rest) = rest else {
        let endpoint = if is(&first, "_bulk") {
            Some(Endpoint::Bulk)
        } else {
            None
        };
        return routed(endpoint, None, Vec::new(alloc));
    };
    let (second, rest) = cut_at(rest, b'/');
    let second = decoded(alloc, second)?;
    let Some(rest) = rest else {
        return routed(endpoint_of_two(&second), Some(first), Vec::new(alloc));
    };
    let (third, rest) = cut_at(rest, b'/');
    if rest.is_some() {
        return Err(RequestFault::NoRoute);
    }
    let third = decoded(alloc, third)?;
    routed(endpoint_of_three(&second), Some(first), third)
}
