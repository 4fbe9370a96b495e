//! What a service answers.

use doc::{DocId, Source};

/// What a write did.
#[derive(Clone, Copy, Debug, PartialEq, Eq)]
pub enum Outcome {
    Created,
    Updated,
    Deleted,
    NotFound,
}

/// A write that is kept: its number, its term, the version that it gives the document, what it did to the document, and how many copies have it.
#[derive(Clone, Copy, Debug, PartialEq, Eq)]
pub struct Wrote {
    pub seq: u64,
    pub term: u64,
    pub version: u64,
    pub outcome: Outcome,
    pub copies: u64,
}

/// A document, with the numbers of the operation that wrote it.
#[derive(Drop)]
pub struct Found {
    pub seq: u64,
    pub term: u64,
    pub version: u64,
    pub source: Source,
}

/// A document that a search found. Its source is the text that was handed in.
#[derive(Drop)]
pub struct Hit {
    pub id: DocId,
    pub source: Source,
}

/// Why a service refuses a command. The names are those by which a copy, the master and an index refuse. The page of `WindowFull` has the status 429, that of
/// `VersionConflict` 409. Each other one has 503, since the client may try again.
#[derive(Clone, Copy, Debug, PartialEq, Eq)]
pub enum Refusal {
    NotPrimary,
    VersionConflict,
    WindowFull,
    OldTerm,
    NotSynced,
    BeyondWindow,
    Mismatch,
    Closed,
    Log,
    NoMemory,
    WrongAddress,
    Exhausted,
    NoSuchCopy,
    NoSuchMessage,
    NotInSync,
    Gone,
    IsPrimary,
    Full,
}

/// What became of one of many writes.
#[derive(Clone, Copy, Debug, PartialEq, Eq)]
pub enum ItemReply {
    Wrote(Wrote),
    Refused(Refusal),
}

/// What a service answers.
#[derive(Drop)]
pub enum Reply {
    Wrote(Wrote),
    /// What became of each of many writes, in their order.
    Bulked(Vec<ItemReply>),
    Got(Option<Found>),
    /// The exact total, and the hits of the page.
    Hits(u64, Vec<Hit>),
    Counted(u64),
    /// How many copies were refreshed.
    Refreshed(u64),
    /// The copy that is the primary from now on, and its term.
    Promoted(u32, u64),
    Refused(Refusal),
}
