//! The entries of the master's log.
ghost use Rattle.std.specs.Prelude.{◌≡◌, ◌∷◌, IfOk, OnOk};
ghost use Rattle.std.specs.Int.{w32, to_le_bytes, from_le_bytes};
ghost use Rattle.master.specs.Entry.{begin_of, IsEntry, entry_for, entry_of, named, spelled};

use crate::state::Request;
use std::alloc::{AllocError, Global};

/// One entry of the master's log: how many copies the index began with, or a decision.
#[derive(Clone, Copy, Debug, PartialEq, Eq)]
pub enum Entry {
    /// The first entry and no other: an index of this many copies begins.
    Begin(u8),
    /// A copy becomes the primary of the next term.
    Promote(u32),
    /// The next id is given.
    Allocate,
    /// A copy joins the in-sync set.
    Add(u32),
    /// A copy leaves it permanently.
    Remove(u32),
}

impl Entry {
    /// The entry of an accepted request.
    pub fn of(request: Request) -> Entry
        ensures { result ≡ entry_for request }
    {
        match request {
            Request::Promote(id) => Entry::Promote(id),
            Request::Allocate => Entry::Allocate,
            Request::Synced(_, id) => Entry::Add(id),
            Request::Fail(_, id) => Entry::Remove(id),
        }
    }

    /// The bytes of an entry: a tag, and the number of copies or the id (four bytes, little-endian).
    pub fn spell(self, alloc: Global) -> Result<Vec<u8>, AllocError>
        requires { IsEntry self }
        ensures spelling { IfOk result (λ bytes. bytes.items ≡ spelled self) }
        ensures reads { OnOk result (entry_of (spelled self) ≡ Some self) }
    {
        match self {
            Entry::Begin(copies) => Vec::from_slice(alloc, &[1, copies]),
            Entry::Promote(id) => tagged(alloc, 2, id),
            Entry::Allocate => Vec::from_slice(alloc, &[3]),
            Entry::Add(id) => tagged(alloc, 4, id),
            Entry::Remove(id) => tagged(alloc, 5, id),
        }
    }

    /// The entry that some bytes are; none where they are no entry.
    pub fn read(bytes: &[u8]) -> Option<Entry>
        ensures { result ≡ entry_of bytes.now }
    {
        match bytes {
            [1, copies] => begin(*copies),
            [3] => Some(Entry::Allocate),
            [tag, a, b, c, d] => named(*tag, u32::from_le_bytes([*a, *b, *c, *d])),
            _ => None,
        }
    }
}

/// A tag and an id.
fn tagged(alloc: Global, tag: u8, id: u32) -> Result<Vec<u8>, AllocError>
    ensures bytes { IfOk result (λ bytes. bytes.items ≡ tag ∷ to_le_bytes w32 id) }
    ensures reads { from_le_bytes w32 (to_le_bytes w32 id) ≡ id }
{
    let [a, b, c, d] = id.to_le_bytes();
    Vec::from_slice(alloc, &[tag, a, b, c, d])
}

/// An index begins with one copy to five.
fn begin(copies: u8) -> Option<Entry>
    ensures { result ≡ begin_of copies }
{
    if 1 <= copies && copies <= 5 {
        Some(Entry::Begin(copies))
    } else {
        None
    }
}

/// The entry of a tag and an id.
fn named(tag: u8, id: u32) -> Option<Entry>
    ensures { result ≡ named tag id }
{
    match tag {
        2 => Some(Entry::Promote(id)),
        4 => Some(Entry::Add(id)),
        5 => Some(Entry::Remove(id)),
        _ => None,
    }
}
