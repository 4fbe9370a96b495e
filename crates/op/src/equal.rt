//! Whether messages and operations are the same.
ghost use Rattle.std.specs.Prelude.{◌≡◌, ◌↔◌, IsTrue};

use crate::message::{Content, Msg};
use crate::operation::Op;

/// Whether ids are the same.
pub fn equal_ids(ids: &[u32], others: &[u32]) -> bool
    ensures { IsTrue result ↔ (ids.now ≡ others.now) }
{
    if ids.len() != others.len() {
        return false;
    }
    for place in 0..ids.len() {
        if ids[place] != others[place] {
            return false;
        }
    }
    true
}

/// Whether operations are the same.
pub fn equal_operations(operations: &[Op], others: &[Op]) -> bool
    ensures { IsTrue result ↔ (operations.now ≡ others.now) }
{
    if operations.len() != others.len() {
        return false;
    }
    for place in 0..operations.len() {
        if !operations[place].is(&others[place]) {
            return false;
        }
    }
    true
}

/// Whether messages are the same.
pub fn equal_messages(messages: &[Msg], others: &[Msg]) -> bool
    ensures { IsTrue result ↔ (messages.now ≡ others.now) }
{
    if messages.len() != others.len() {
        return false;
    }
    for place in 0..messages.len() {
        if !messages[place].is(&others[place]) {
            return false;
        }
    }
    true
}

impl Msg {
    /// Whether two messages are the same.
    pub fn is(&self, other: &Msg) -> bool
        ensures { IsTrue result ↔ (self.now ≡ other.now) }
    {
        self.from == other.from
            && self.to == other.to
            && self.term == other.term
            && self.content.is(&other.content)
    }
}

impl Content {
    /// Whether two contents are the same.
    pub fn is(&self, other: &Content) -> bool
        ensures { IsTrue result ↔ (self.now ≡ other.now) }
    {
        match (self, other) {
            (Content::Op(known, op), Content::Op(twin, other)) => *known == *twin && op.is(other),
            (Content::Ack(seq, local), Content::Ack(twin, other)) => *seq == *twin
                && *local == *other,
            (Content::Promoted(set), Content::Promoted(other)) => {
                equal_ids(set.as_slice(), other.as_slice())
            }
            (Content::Resync(known, tail), Content::Resync(twin, other)) => {
                *known == *twin && equal_operations(tail.as_slice(), other.as_slice())
            }
            (Content::Track(id), Content::Track(other)) => *id == *other,
            (Content::Recover(all), Content::Recover(other)) => {
                equal_operations(all.as_slice(), other.as_slice())
            }
            (Content::Synced(id), Content::Synced(other)) => *id == *other,
            (Content::Fail(id), Content::Fail(other)) => *id == *other,
            (Content::Removed(id), Content::Removed(other)) => *id == *other,
            _ => false,
        }
    }
}
