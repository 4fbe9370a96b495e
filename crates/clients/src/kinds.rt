//! What kinds of requests there are for whoever shares out the threads.

use crate::limits::SHARE;
use wire::{cut_at, text_of};

/// What a request may take.
#[derive(Clone, Copy, Debug, PartialEq, Eq)]
pub(crate) enum Kind {
    /// It waits for nothing but a lock, and costs little.
    Light,
    /// It may wait for a disk or for another copy.
    Write,
    /// It searches. Its page may be large.
    Search,
    /// It searches, and has much to look for.
    Dear,
}

impl Kind {
    pub(crate) fn is_search(self) -> bool {
        self == Kind::Search || self == Kind::Dear
    }
}

/// The kind of the first request of some bytes, by its first line. This says only when a request is answered, never how.
pub(crate) fn kind_of(bytes: &[u8]) -> Kind {
    let (line, _) = cut_at(trimmed(bytes), b'\n');
    let line = text_of(line).unwrap_or("");
    if line.contains("/_search") || line.contains("/_count") {
        return if bytes.len() > SHARE {
            Kind::Dear
        } else {
            Kind::Search
        };
    }
    if is_get(line) {
        Kind::Light
    } else {
        Kind::Write
    }
}

/// Whether a line asks for a document, or for the greeting. Other paths may ask how the copies stand, which waits for them.
fn is_get(line: &str) -> bool {
    let reads = line.starts_with("GET ") || line.starts_with("HEAD ");
    reads && (line.contains("/_doc/") || line.contains(" / "))
}

/// The bytes without the empty lines that may stand before a request.
fn trimmed(bytes: &[u8]) -> &[u8] {
    bytes.trim_ascii_start()
}
