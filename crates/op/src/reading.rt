//! Records from their bytes.
ghost use Rattle.std.specs.Prelude.{◌≡◌, option_map, IfOk};
ghost use Rattle.std.specs.Str.{is_utf8};
ghost use Rattle.doc.specs.Fault as doc;
ghost use Rattle.std.specs.Int.{w16, w32, w64};
ghost use Rattle.doc.specs.Outcome.{Gives};
ghost use Rattle.doc.specs.Id.{id_of};
ghost use Rattle.doc.specs.Source.{source_of};
ghost use Rattle.op.specs.FormatFault.{fault_of, malformed};
ghost use Rattle.op.specs.Format.{frame_spelling, spelling};
ghost use Rattle.op.specs.Reading as spec;
ghost use Rattle.op.specs.Records.{AreOfOneFrame, IsRecord};

use crate::fault::OpFault;
use crate::operation::{Body, Op};
use crate::operations::Operations;
use crate::record::Record;
use crate::rules::{are_of_group, is_group_count, is_record};
use crate::writing::MAX_SPELLING;
use doc::{DocFault, DocId, Source};
use std::alloc::Global;
use std::str;

/// The record that the bytes spell, all of them. `Malformed` where they spell none that keeps the rules of the format, or are more than a frame has.
pub fn decode(alloc: Global, bytes: &[u8]) -> Result<Record, OpFault>
    ensures exact { Gives fault_of (λ r. r) result (spec.record_of bytes.now) }
    ensures spelt { IfOk result (λ r. (spelling r ≡ bytes.now) × IsRecord r) }
{
    whole_record(alloc, bytes)
}

#[tactic(auto, unfolding(crate::specs::Reading::record_of))]
fn whole_record(alloc: Global, bytes: &[u8]) -> Result<Record, OpFault>
    ensures { Gives fault_of (λ r. r) result (spec.record_of bytes.now) }
{
    if bytes.len() > MAX_SPELLING {
        return Err(OpFault::Malformed);
    }
    let (found, rest) = record_at(alloc, bytes)?;
    if !rest.is_empty() {
        return Err(OpFault::Malformed);
    }
    if !is_record(&found) {
        return Err(OpFault::Malformed);
    }
    Ok(found)
}

/// The records that the content of a frame spells, all of it: a group, or one record. `Malformed` where `decode` is, and where a group
/// has fewer than 2 or more than 1,024 records, or one that isn't an operation with the rules kept.
pub fn decode_frame(alloc: Global, bytes: &[u8]) -> Result<Vec<Record>, OpFault>
    ensures exact { Gives fault_of (λ rs. rs.items) result (spec.records_of bytes.now) }
    ensures spelt { IfOk result (λ rs. (frame_spelling rs.items ≡ bytes.now) × AreOfOneFrame rs.items) }
{
    whole_frame(alloc, bytes)
}

#[tactic(auto, unfolding(crate::specs::Reading::records_of))]
fn whole_frame(alloc: Global, bytes: &[u8]) -> Result<Vec<Record>, OpFault>
    ensures { Gives fault_of (λ rs. rs.items) result (spec.records_of bytes.now) }
{
    match bytes {
        [4, rest @ ..] => whole_group(alloc, rest),
        _ => alone(alloc, bytes),
    }
}

#[tactic(auto, unfolding(crate::specs::Reading::alone_of))]
fn alone(alloc: Global, bytes: &[u8]) -> Result<Vec<Record>, OpFault>
    ensures { Gives fault_of (λ rs. rs.items) result (spec.alone_of bytes.now) }
{
    let found = whole_record(alloc, bytes)?;
    let mut records = Vec::new(alloc);
    records.push(found)?;
    Ok(records)
}

#[tactic(auto, unfolding(crate::specs::Reading::group_of))]
fn whole_group(alloc: Global, bytes: &[u8]) -> Result<Vec<Record>, OpFault>
    ensures { Gives fault_of (λ rs. rs.items) result (spec.group_of bytes.now) }
{
    let (found, after) = group_at(alloc, bytes)?;
    if !after.is_empty() {
        return Err(OpFault::Malformed);
    }
    if !are_of_group(found.as_slice()) {
        return Err(OpFault::Malformed);
    }
    Ok(found)
}

// ---- numbers and texts

fn u16_at(bytes: &[u8]) -> Result<(u16, &[u8]), OpFault>
    ensures { Gives fault_of (λ x. (x.0, x.1.now)) result (spec.number_at w16 bytes.now) }
{
    if bytes.len() < 2 {
        return Err(OpFault::Malformed);
    }
    let (front, rest) = bytes.split_at(2);
    Ok((u16::from_le_bytes([front[0], front[1]]), rest))
}

fn u32_at(bytes: &[u8]) -> Result<(u32, &[u8]), OpFault>
    ensures { Gives fault_of (λ x. (x.0, x.1.now)) result (spec.number_at w32 bytes.now) }
{
    if bytes.len() < 4 {
        return Err(OpFault::Malformed);
    }
    let (front, rest) = bytes.split_at(4);
    let number = u32::from_le_bytes([front[0], front[1], front[2], front[3]]);
    Ok((number, rest))
}

fn u64_at(bytes: &[u8]) -> Result<(u64, &[u8]), OpFault>
    ensures { Gives fault_of (λ x. (x.0, x.1.now)) result (spec.number_at w64 bytes.now) }
{
    if bytes.len() < 8 {
        return Err(OpFault::Malformed);
    }
    let (front, rest) = bytes.split_at(8);
    let number = u64::from_le_bytes([
        front[0], front[1], front[2], front[3], front[4], front[5], front[6], front[7],
    ]);
    Ok((number, rest))
}

#[tactic(auto, unfolding(crate::specs::Reading::signed_at))]
fn i64_at(bytes: &[u8]) -> Result<(i64, &[u8]), OpFault>
    ensures { Gives fault_of (λ x. (x.0, x.1.now)) result (spec.signed_at bytes.now) }
{
    let (number, rest) = u64_at(bytes)?;
    Ok((number.cast_signed(), rest))
}

#[tactic(auto, unfolding(crate::specs::Reading::text_at))]
fn short_text_at(bytes: &[u8]) -> Result<(&[u8], &[u8]), OpFault>
    ensures { Gives fault_of (λ x. (x.0.now, x.1.now)) result (spec.text_at w16 bytes.now) }
{
    let (len, rest) = u16_at(bytes)?;
    let len = len as usize;
    if rest.len() < len {
        return Err(OpFault::Malformed);
    }
    Ok(rest.split_at(len))
}

#[tactic(auto, unfolding(crate::specs::Reading::text_at))]
fn long_text_at(bytes: &[u8]) -> Result<(&[u8], &[u8]), OpFault>
    ensures { Gives fault_of (λ x. (x.0.now, x.1.now)) result (spec.text_at w32 bytes.now) }
{
    let (len, rest) = u32_at(bytes)?;
    let len = len as usize;
    if rest.len() < len {
        return Err(OpFault::Malformed);
    }
    Ok(rest.split_at(len))
}

fn id_from(alloc: Global, bytes: &[u8]) -> Result<DocId, OpFault>
    ensures { Gives fault_of (λ d. d) result (spec.text_or (is_utf8 bytes.now) (id_of bytes.now)) }
{
    let Ok(text) = str::from_utf8(bytes) else {
        return Err(OpFault::Malformed);
    };
    match DocId::new(alloc, text) {
        Ok(id) => Ok(id),
        Err(fault) => Err(or_malformed(&fault)),
    }
}

fn source_from(alloc: Global, bytes: &[u8]) -> Result<Source, OpFault>
    ensures { Gives fault_of (λ s. s) result (spec.text_or (is_utf8 bytes.now) (source_of bytes.now)) }
{
    let Ok(text) = str::from_utf8(bytes) else {
        return Err(OpFault::Malformed);
    };
    match Source::new(alloc, text) {
        Ok(source) => Ok(source),
        Err(fault) => Err(or_malformed(&fault)),
    }
}

// What isn't an id or a source is malformed.
fn or_malformed(fault: &DocFault) -> OpFault
    ensures { fault_of result ≡ option_map (λ f. malformed) (doc.fault_of fault.now) }
{
    match fault {
        DocFault::NoMemory => OpFault::NoMemory,
        _ => OpFault::Malformed,
    }
}

#[tactic(auto, unfolding(crate::specs::Reading::id_at))]
fn id_at(alloc: Global, bytes: &[u8]) -> Result<(DocId, &[u8]), OpFault>
    ensures { Gives fault_of (λ x. (x.0, x.1.now)) result (spec.id_at bytes.now) }
{
    let (text, rest) = short_text_at(bytes)?;
    let id = id_from(alloc, text)?;
    Ok((id, rest))
}

#[tactic(auto, unfolding(crate::specs::Reading::source_at))]
fn source_at(alloc: Global, bytes: &[u8]) -> Result<(Source, &[u8]), OpFault>
    ensures { Gives fault_of (λ x. (x.0, x.1.now)) result (spec.source_at bytes.now) }
{
    let (text, rest) = long_text_at(bytes)?;
    let source = source_from(alloc, text)?;
    Ok((source, rest))
}

// ---- operations

#[tactic(auto, unfolding(crate::specs::Reading::body_at))]
fn body_at(alloc: Global, bytes: &[u8]) -> Result<(Body, &[u8]), OpFault>
    ensures { Gives fault_of (λ x. (x.0, x.1.now)) result (spec.body_at bytes.now) }
{
    match bytes {
        [0, rest @ ..] => Ok((Body::NoOp, rest)),
        [1, rest @ ..] => {
            let (id, rest) = id_at(alloc, rest)?;
            let (source, rest) = source_at(alloc, rest)?;
            Ok((Body::Index(id, source), rest))
        }
        [2, rest @ ..] => {
            let (id, rest) = id_at(alloc, rest)?;
            Ok((Body::Delete(id), rest))
        }
        _ => Err(OpFault::Malformed),
    }
}

#[tactic(auto, unfolding(crate::specs::Reading::operation_at))]
fn operation_at(alloc: Global, bytes: &[u8]) -> Result<(Op, &[u8]), OpFault>
    ensures { Gives fault_of (λ x. (x.0, x.1.now)) result (spec.operation_at bytes.now) }
{
    let (seq, rest) = u64_at(bytes)?;
    let (term, rest) = u64_at(rest)?;
    let (version, rest) = u64_at(rest)?;
    let (body, rest) = body_at(alloc, rest)?;
    let op = Op {
        seq,
        term,
        version,
        body,
    };
    Ok((op, rest))
}

fn so_many_at(alloc: Global, count: u32, bytes: &[u8]) -> Result<(Vec<Op>, &[u8]), OpFault>
    ensures { Gives fault_of (λ x. (x.0.items, x.1.now)) result (spec.so_many_at count bytes.now) }
{
    let mut found = Vec::new(alloc);
    let mut rest = bytes;
    for _ in 0..count {
        let (op, after) = operation_at(alloc, rest)?;
        found.push(op)?;
        rest = after;
    }
    Ok((found, rest))
}

#[tactic(auto, unfolding(crate::specs::Reading::operations_at))]
fn operations_at(alloc: Global, bytes: &[u8]) -> Result<(Operations, &[u8]), OpFault>
    ensures { Gives fault_of (λ x. (x.0, x.1.now)) result (spec.operations_at bytes.now) }
{
    let (count, rest) = u32_at(bytes)?;
    let (found, rest) = so_many_at(alloc, count, rest)?;
    Ok((Operations::from_vec(found), rest))
}

// ---- records

#[tactic(auto, unfolding(crate::specs::Reading::record_at))]
fn record_at(alloc: Global, bytes: &[u8]) -> Result<(Record, &[u8]), OpFault>
    ensures { Gives fault_of (λ x. (x.0, x.1.now)) result (spec.record_at bytes.now) }
{
    match bytes {
        [1, rest @ ..] => kept_at(alloc, rest),
        [2, rest @ ..] => resync_at(alloc, rest),
        [3, rest @ ..] => recover_at(alloc, rest),
        _ => Err(OpFault::Malformed),
    }
}

#[tactic(auto, unfolding(crate::specs::Reading::kept_at))]
fn kept_at(alloc: Global, bytes: &[u8]) -> Result<(Record, &[u8]), OpFault>
    ensures { Gives fault_of (λ x. (x.0, x.1.now)) result (spec.kept_at bytes.now) }
{
    let (known, rest) = i64_at(bytes)?;
    let (op, rest) = operation_at(alloc, rest)?;
    Ok((Record::Op(known, op), rest))
}

#[tactic(auto, unfolding(crate::specs::Reading::resync_at))]
fn resync_at(alloc: Global, bytes: &[u8]) -> Result<(Record, &[u8]), OpFault>
    ensures { Gives fault_of (λ x. (x.0, x.1.now)) result (spec.resync_at bytes.now) }
{
    let (term, rest) = u64_at(bytes)?;
    let (known, rest) = i64_at(rest)?;
    let (tail, rest) = operations_at(alloc, rest)?;
    Ok((Record::Resync(term, known, tail), rest))
}

#[tactic(auto, unfolding(crate::specs::Reading::recover_at))]
fn recover_at(alloc: Global, bytes: &[u8]) -> Result<(Record, &[u8]), OpFault>
    ensures { Gives fault_of (λ x. (x.0, x.1.now)) result (spec.recover_at bytes.now) }
{
    let (term, rest) = u64_at(bytes)?;
    let (all, rest) = operations_at(alloc, rest)?;
    Ok((Record::Recover(term, all), rest))
}

// ---- groups

#[tactic(auto, unfolding(crate::specs::Reading::group_at))]
fn group_at(alloc: Global, bytes: &[u8]) -> Result<(Vec<Record>, &[u8]), OpFault>
    ensures { Gives fault_of (λ x. (x.0.items, x.1.now)) result (spec.group_at bytes.now) }
{
    let (count, rest) = u32_at(bytes)?;
    if !is_group_count(count as usize) {
        return Err(OpFault::Malformed);
    }
    so_many_kept_at(alloc, count, rest)
}

fn so_many_kept_at(alloc: Global, count: u32, bytes: &[u8]) -> Result<(Vec<Record>, &[u8]), OpFault>
    ensures { Gives fault_of (λ x. (x.0.items, x.1.now)) result (spec.so_many_kept_at count bytes.now) }
{
    let mut found = Vec::new(alloc);
    let mut rest = bytes;
    for _ in 0..count {
        let (kept, after) = kept_at(alloc, rest)?;
        found.push(kept)?;
        rest = after;
    }
    Ok((found, rest))
}
