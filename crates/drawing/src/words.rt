//! An entry of a journal as a line of a script, with what that prints.

use crate::entries::Entry;
use journal::{Deed, Ruling};
use master::Request;
use replica::{Input, OpType, Write};
use scripts::{answered, decided, delivered, refused};
use std::alloc::{AllocError, Global};

/// The line of a script that asks what an entry was asked, of this node. `by` is the number of the message that asks it.
pub(crate) fn said(
    alloc: Global,
    node: u64,
    entry: Entry<'_>,
    by: u64,
) -> Result<String, AllocError> {
    match entry {
        Entry::OfCopy(deed) => asked(alloc, node, &deed.input, by),
        Entry::OfMaster(ruling) => match &ruling.request {
            Request::Promote(copy) => format!(in alloc; "promote {copy}"),
            Request::Allocate => String::from_str(alloc, "allocate"),
            Request::Synced(_, _) | Request::Fail(_, _) => format!(in alloc; "deliver {by}"),
        },
    }
}

fn asked(alloc: Global, node: u64, input: &Input, by: u64) -> Result<String, AllocError> {
    match input {
        Input::Write(write) => written(alloc, node, write),
        Input::Bulk(writes) => bulk(alloc, node, writes.as_slice()),
        Input::Take(_) => format!(in alloc; "deliver {by}"),
        Input::Report(copy) => format!(in alloc; "fail {copy}"),
        Input::Refresh => format!(in alloc; "refresh {node}"),
        Input::Get(id) => {
            let id = id.as_str();
            format!(in alloc; "get {node} {id}")
        }
        Input::Restart => format!(in alloc; "restart {node}"),
    }
}

fn written(alloc: Global, node: u64, write: &Write) -> Result<String, AllocError> {
    let id = write.id.as_str();
    match &write.kind {
        OpType::Index(source, None) => {
            let source = source.as_str();
            format!(in alloc; "put {node} {id} {source}")
        }
        OpType::Index(source, Some(condition)) => {
            let (seq, term, source) = (condition.seq, condition.term, source.as_str());
            format!(in alloc; "putif {node} {seq} {term} {id} {source}")
        }
        OpType::Create(source) => {
            let source = source.as_str();
            format!(in alloc; "create {node} {id} {source}")
        }
        OpType::Delete(None) => format!(in alloc; "del {node} {id}"),
        OpType::Delete(Some(condition)) => {
            let (seq, term) = (condition.seq, condition.term);
            format!(in alloc; "delif {node} {seq} {term} {id}")
        }
    }
}

fn bulk(alloc: Global, node: u64, writes: &[Write]) -> Result<String, AllocError> {
    let mut line = format!(in alloc; "bulk {node}")?;
    for write in writes {
        line.push_str(" ")?;
        line.push_str(write.id.as_str())?;
    }
    Ok(line)
}

/// What a script prints of an entry, with as many messages sent before it.
pub(crate) fn printed(alloc: Global, entry: Entry<'_>, before: u64) -> Result<String, AllocError> {
    match entry {
        Entry::OfCopy(deed) => printed_of_copy(alloc, deed, before),
        Entry::OfMaster(ruling) => printed_of_master(alloc, ruling, before),
    }
}

fn printed_of_copy(alloc: Global, deed: &Deed, before: u64) -> Result<String, AllocError> {
    match &deed.answer {
        Ok(output) => answered(
            alloc,
            &output.answer,
            before,
            output.sent.as_slice(),
            output.acknowledged.as_slice(),
        ),
        Err(fault) => refused(alloc, fault.name()),
    }
}

fn printed_of_master(alloc: Global, ruling: &Ruling, before: u64) -> Result<String, AllocError> {
    match &ruling.answer {
        Ok(decision) => match &ruling.request {
            Request::Promote(_) | Request::Allocate => {
                decided(alloc, decision.given, before, decision.sent.as_ref())
            }
            Request::Synced(_, _) | Request::Fail(_, _) => {
                delivered(alloc, decision.repeated, before, decision.sent.as_ref())
            }
        },
        Err(fault) => refused(alloc, fault.name()),
    }
}
