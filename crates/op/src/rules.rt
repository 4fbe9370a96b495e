//! The rules of records.
ghost use Rattle.std.specs.Prelude.{◌≡◌};
ghost use Rattle.std.specs.List.{list_all};
ghost use Rattle.op.specs.Rules as spec;

use crate::checkpoint::count;
use crate::operation::{Body, Op};
use crate::record::Record;

/// The greatest sequence number, term and version.
const MAX_NUMBER: u64 = 9_223_372_036_854_775_807;

/// The greatest number of records in a group.
const MAX_GROUP: usize = 1_024;

/// Whether a record keeps the rules of the translog's format.
pub fn is_record(found: &Record) -> bool
    ensures { result ≡ spec.is_record found.now }
{
    match found {
        Record::Op(known, op) => is_op_record(*known, op),
        Record::Resync(term, known, tail) => is_resync_record(*term, *known, tail.as_slice()),
        Record::Recover(term, all) => is_recover_record(*term, all.as_slice()),
    }
}

/// Whether an operation makes a record together with a global checkpoint.
pub fn is_op_record(known: i64, op: &Op) -> bool
    ensures { result ≡ spec.is_op_record known op.now }
{
    is_checkpoint(known) && is_operation(op) && is_write(&op.body)
}

/// Whether these operations make the record of a resync.
pub fn is_resync_record(term: u64, known: i64, tail: &[Op]) -> bool
    ensures { result ≡ spec.is_resync_record term known tail.now }
{
    is_checkpoint(known) && is_term(term) && is_history(term, count(known), tail)
}

/// Whether these operations make the record of a recovery.
pub fn is_recover_record(term: u64, all: &[Op]) -> bool
    ensures { result ≡ spec.is_recover_record term all.now }
{
    is_term(term) && is_history(term, 0, all)
}

/// Whether so many records may make a group.
pub(crate) fn is_group_count(count: usize) -> bool
    ensures { result ≡ spec.is_group_count count }
{
    count >= 2 && count <= MAX_GROUP
}

/// Whether each record may stand in a group.
pub(crate) fn are_of_group(found: &[Record]) -> bool
    ensures { result ≡ list_all spec.is_of_group found.now }
{
    for one in found {
        if !is_of_group(one) {
            return false;
        }
    }
    true
}

fn is_of_group(found: &Record) -> bool
    ensures { result ≡ spec.is_of_group found.now }
{
    match found {
        Record::Op(known, op) => is_op_record(*known, op),
        _ => false,
    }
}

/// Whether a number is a checkpoint: at least -1.
pub fn is_checkpoint(known: i64) -> bool
    ensures { result ≡ spec.is_checkpoint known }
{
    known >= -1
}

/// Whether a number is a term: at least 1, and at most 9,223,372,036,854,775,807.
pub fn is_term(term: u64) -> bool
    ensures { result ≡ spec.is_term term }
{
    term > 0 && term <= MAX_NUMBER
}

fn is_operation(op: &Op) -> bool
    ensures { result ≡ spec.is_operation op.now }
{
    op.seq <= MAX_NUMBER
        && is_term(op.term)
        && is_version(&op.body, op.version)
        && op.version <= MAX_NUMBER
}

fn is_version(body: &Body, version: u64) -> bool
    ensures { result ≡ spec.is_version body.now version }
{
    match body {
        Body::Index(_, _) => version > 0,
        Body::Delete(_) => version > 0,
        Body::NoOp => version == 0,
    }
}

fn is_write(body: &Body) -> bool
    ensures { result ≡ spec.is_write body.now }
{
    match body {
        Body::Index(_, _) => true,
        Body::Delete(_) => true,
        Body::NoOp => false,
    }
}

fn is_next(term: u64, seq: u64, op: &Op) -> bool
    ensures { result ≡ spec.is_next term seq op.now }
{
    op.seq == seq && is_operation(op) && op.term <= term
}

fn is_history(term: u64, from: u64, operations: &[Op]) -> bool
    ensures { result ≡ spec.is_history term from operations.now }
{
    let mut next = from;
    for op in operations {
        if !is_next(term, next, op) {
            return false;
        }
        next += 1;
    }
    true
}
