//! What a worker is sent.

use crate::durable::Durable;
use cell::{CopySearcher, IndexName};
use crossbeam_channel::Sender;
use doc::DocId;
use engine::Merged;
use node::{Got, NodeFault, Receipt};
use op::Msg;
use replica::{Input, Write, Writes};
use std::alloc::Global;

/// The entry that a call made, also where the copy refused it; or why there is none.
pub(crate) type Answered<J> = Result<Durable<Receipt<J>>, NodeFault>;

/// A searcher, or why there is none.
pub(crate) type Seated<J> = Result<CopySearcher<J>, NodeFault>;

/// How the waiting for a write's acknowledgement ended.
#[derive(Drop)]
pub(crate) enum Ending<J: IndexName> {
    /// By an entry that acknowledges it.
    Acknowledged(Durable<Receipt<J>>),
    /// By an entry after which the copy is the primary of that term no more.
    Lost(Durable<Receipt<J>>),
}

/// How the waiting for the acknowledgements of a bulk's writes ended.
#[derive(Drop)]
pub(crate) enum BulkEnding<J: IndexName> {
    /// By the entries that acknowledge those that were kept, each once.
    Acknowledged(Vec<Durable<Receipt<J>>>),
    /// By an entry after which the copy is the primary of that term no more.
    Lost(Durable<Receipt<J>>),
}

/// What a worker is sent.
#[derive(Drop)]
pub(crate) enum Post<J: IndexName> {
    Ask(Input, Sender<Answered<J>, Global>),
    /// A write: its own entry is answered first, and how it ended when it has.
    Write(Write, Sender<Answered<J>, Global>, Sender<Ending<J>, Global>),
    /// A bulk: its own entry is answered first, and how it ended when it has.
    Bulk(Writes, Sender<Answered<J>, Global>, Sender<BulkEnding<J>, Global>),
    /// Messages, which are taken one after another.
    Mail(Vec<Durable<Msg>>),
    /// A message, and how often it was refused for a while.
    Hand(Durable<Msg>, u32),
    /// A copy that the primary is to report.
    Report(u32),
    /// To lead as soon as the master can decide that.
    Lead,
    /// The term of which another copy was made the primary.
    Depose(u64),
    /// To answer what the copy has of an id.
    Get(DocId, Sender<Result<Durable<Got<J>>, NodeFault>, Global>),
    /// A merge that was built, to be put in place; nothing where there was no memory for it.
    Merged(Option<Merged>),
    /// To hand out a searcher of the copy.
    Seat(Sender<Seated<J>, Global>),
    Stop,
}

/// Where the posts of a copy go.
#[derive(Drop)]
pub(crate) struct Route<J: IndexName> {
    pub(crate) copy: u32,
    pub(crate) to: Sender<Post<J>, Global>,
}
