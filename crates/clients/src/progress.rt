//! How much of a request has come, so that a request that comes byte by byte isn't looked at from its start for each byte.

use crate::limits::LONGEST_HEAD;
use wire::{Place, cut_at};

/// How far the head has come: where its next byte stands, or, once it is whole, how many bytes it has.
#[derive(Clone, Copy)]
enum Head {
    At(Place),
    Whole(usize),
}

/// How many bytes of the first request were looked at, and how many there must be before it can be whole. This says only when to look, never what the bytes
/// are.
#[derive(Clone, Copy)]
pub(crate) struct Progress {
    head: Head,
    seen: usize,
    wanted: usize,
    /// Whether the head was found whole, and no byte of the body had come.
    pub(crate) lacks_body: bool,
}

impl Progress {
    /// No byte was looked at yet.
    pub(crate) fn new() -> Progress {
        Progress {
            head: Head::At(Place::Blank),
            seen: 0,
            wanted: 1,
            lacks_body: false,
        }
    }

    /// Whether the bytes may have a whole request, so that it is worth reading them. They begin with the bytes that were looked at before.
    pub(crate) fn may_stand(&mut self, bytes: &[u8]) -> bool {
        if bytes.len() < self.wanted {
            return false;
        }
        let Head::At(start) = self.head else {
            return true;
        };
        let mut place = start;
        for at in self.seen..bytes.len() {
            match place.next(bytes[at]) {
                Some(next) => place = next,
                None => {
                    self.head = Head::Whole(at + 1);
                    return true;
                }
            }
        }
        self.head = Head::At(place);
        self.seen = bytes.len();
        self.wanted = self.seen.saturating_add(1);
        self.seen >= LONGEST_HEAD
    }

    /// Notes that the bytes have no whole request. If their head is whole, a part of the body is missing. Else any byte may end the request.
    pub(crate) fn missed(&mut self, bytes: &[u8]) {
        let more = bytes.len().saturating_add(1);
        self.lacks_body = matches!(self.head, Head::Whole(head) if head == bytes.len());
        self.wanted = match self.head {
            Head::Whole(head) if head <= bytes.len() => {
                head.saturating_add(body_length(&bytes[..head])).max(more)
            }
            _ => more,
        };
    }
}

/// The length of the body that a head names, or 0 if it names none.
fn body_length(head: &[u8]) -> usize {
    let mut rest = head;
    while !rest.is_empty() {
        let (line, others) = cut_at(rest, b'\n');
        if let (name, Some(value)) = cut_at(line, b':') {
            if name.eq_ignore_ascii_case(b"content-length") {
                return number_in(value);
            }
        }
        let Some(others) = others else {
            return 0;
        };
        rest = others;
    }
    0
}

/// The number that the digits of a value make.
fn number_in(value: &[u8]) -> usize {
    let mut number: usize = 0;
    for byte in value {
        if byte.is_ascii_digit() {
            number = number
                .saturating_mul(10)
                .saturating_add((*byte - b'0') as usize);
        }
    }
    number
}
