//! What a request asks of a service.

use doc::{Doc, DocId};
use query::{Query, SearchBody};

/// What a write does to its document.
#[derive(Drop)]
pub enum Change {
    /// Sets it, whether or not there is one already.
    Index(Doc),
    /// Sets it, if there is none yet (`_create`, or `op_type=create`).
    Create(Doc),
    Delete,
}

/// The number and term that a document's last change must have (`if_seq_no` and `if_primary_term` of the Elasticsearch reference).
#[derive(Clone, Copy, Debug, PartialEq, Eq)]
pub struct Condition {
    pub seq: u64,
    pub term: u64,
}

/// A write, and whether the index is refreshed after it and before the reply (`refresh=true`).
#[derive(Drop)]
pub struct Write {
    pub id: DocId,
    pub change: Change,
    pub condition: Option<Condition>,
    pub refresh: bool,
}

/// What a request asks of a service.
#[derive(Drop)]
pub enum Command {
    Write(Write),
    /// 1 to 1,024 writes of one request, in their order. None of them has a refresh.
    Bulk(Vec<Write>),
    Get(DocId),
    Search(SearchBody),
    /// How many documents match a query.
    Count(Query),
    Refresh,
    /// Makes this copy the primary.
    Promote(u32),
}
