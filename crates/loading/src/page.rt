//! The pages that a server answers with, as HTTP has them.

use memchr::memmem;
use std::alloc::{AllocError, Global};

/// How many bytes a page may have.
const MOST_BYTES: usize = 67_108_864;

/// How many bytes its head may have.
const MOST_HEAD: usize = 65_536;

/// What a server answered.
#[derive(Drop)]
pub(crate) struct Page {
    pub(crate) status: u64,
    pub(crate) body: Vec<u8>,
}

/// What the bytes that came begin with.
#[derive(Drop)]
pub(crate) enum Beginning {
    /// A page, and how many bytes it has.
    Page(Page, usize),
    /// The beginning of one.
    Part,
    /// None, and why.
    Other(&'static str),
}

/// Reads the first page of what came.
pub(crate) fn first_page(alloc: Global, came: &[u8]) -> Result<Beginning, AllocError> {
    let Some(end) = memmem::find(came, b"\r\n\r\n") else {
        return Ok(if came.len() > MOST_HEAD {
            Beginning::Other("its head has no end")
        } else {
            Beginning::Part
        });
    };
    let Some(Ok(head)) = came.get(..end).map(str::from_utf8) else {
        return Ok(Beginning::Other("its head isn't UTF-8"));
    };
    let (Some(status), Some(length)) = (status_in(head), length_in(head)) else {
        return Ok(Beginning::Other("it has no status or no content-length"));
    };
    if length > MOST_BYTES {
        return Ok(Beginning::Other("it has more than 64 MiB"));
    }
    let start = end.saturating_add(4);
    let whole = start.saturating_add(length);
    match came.get(start..whole) {
        Some(body) => {
            let body = Vec::from_slice(alloc, body)?;
            Ok(Beginning::Page(Page { status, body }, whole))
        }
        None => Ok(Beginning::Part),
    }
}

/// The status of a head that begins as HTTP/1.1.
fn status_in(head: &str) -> Option<u64> {
    let rest = head.strip_prefix("HTTP/1.1 ")?;
    rest.split(' ').next()?.parse::<u64>().ok()
}

fn length_in(head: &str) -> Option<usize> {
    for line in head.lines() {
        if let Some((name, value)) = line.split_once(':') {
            if name.eq_ignore_ascii_case("content-length") {
                return value.trim().parse::<usize>().ok();
            }
        }
    }
    None
}
