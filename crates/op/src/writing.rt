//! Records as bytes.
ghost use Rattle.std.specs.Prelude.{◌≡◌, ◌≢◌, ◌≤◌, ◌++◌, ◌*◌, true, false, length, Ok, IfOk, IfErr, OnErr, OnOk};
ghost use Rattle.std.specs.List.{flat_map, list_all, AllByRecursion};
ghost use Rattle.doc.specs.Outcome.{Gives};
ghost use Rattle.op.specs.declared.record.Record.TheVariants.{Op as Kept, Resync, Recover};
ghost use Rattle.op.specs.FormatFault.{fault_of};
ghost use Rattle.op.specs.Format as spec;
ghost use Rattle.op.specs.Reading.{record_of, records_of};
ghost use Rattle.op.specs.Rules.{is_of_group, is_op_record};

use crate::fault::OpFault;
use crate::operation::{Body, Op};
use crate::record::Record;
use crate::rules::{is_group_count, is_op_record, is_record};
use doc::{DocId, Source};
use std::alloc::{AllocError, Global};

/// The greatest length of a spelling.
pub(crate) const MAX_SPELLING: usize = 4_294_967_295;

/// The one spelling of a record: its tag and its fields, numbers little-endian. `Malformed` where it breaks a rule of the format,
/// which is looked for first; `TooLarge` past 4,294,967,295 bytes.
pub fn encode(alloc: Global, found: &Record) -> Result<Vec<u8>, OpFault>
    ensures exact { Gives fault_of (λ v. v.items) result (spec.encoded found.now) }
    ensures reads { IfOk result (λ v. record_of v.items ≡ Ok found.now) }
{
    if !is_record(found) {
        return Err(OpFault::Malformed);
    }
    let len = record_len(found)?;
    let mut out = Vec::with_capacity(alloc, len)?;
    put_record(&mut out, found)?;
    Ok(out)
}

/// The one spelling of the records of one frame: of one record as `encode`, of 2 to 1,024 operations their group. `Malformed` where there
/// are none or more, where a record of several isn't an operation, or where one breaks a rule.
#[tactic(auto, using(crate::proofs::Groups::only_one, crate::proofs::Groups::alone_read))]
pub fn encode_group(alloc: Global, group: &[Record]) -> Result<Vec<u8>, OpFault>
    ensures exact { Gives fault_of (λ v. v.items) result (spec.frame_encoded group.now) }
    ensures reads { IfOk result (λ v. records_of v.items ≡ Ok group.now) }
{
    if group.len() == 1 {
        return encode(alloc, &group[0]);
    }
    encode_several(alloc, group)
}

#[tactic(auto, using(crate::proofs::Groups::several_encoded, crate::proofs::Groups::several_read))]
fn encode_several(alloc: Global, group: &[Record]) -> Result<Vec<u8>, OpFault>
    requires { length group.now ≢ 1 }
    ensures exact { Gives fault_of (λ v. v.items) result (spec.frame_encoded group.now) }
    ensures reads { IfOk result (λ v. records_of v.items ≡ Ok group.now) }
{
    if !is_group_count(group.len()) {
        return Err(OpFault::Malformed);
    }
    let len = fields_len(group)?;
    let mut out = Vec::with_capacity(alloc, 5 + len)?;
    put_group(&mut out, group)?;
    Ok(out)
}

/// Whether the spelling of a record would pass 4,294,967,295 bytes.
pub fn is_too_large(found: &Record) -> bool
    ensures { result ≡ spec.is_too_large found.now }
{
    record_len(found).is_err()
}

// ---- lengths

fn id_len(id: &DocId) -> usize
    ensures len { result ≡ length (spec.id_bytes id.now) }
    ensures text { spec.IsIdText id.now }
    ensures bounded { result ≤ 514 }
{
    let text = id.as_str();
    2 + text.len()
}

fn source_len(source: &Source) -> usize
    ensures len { result ≡ length (spec.source_bytes source.now) }
    ensures text { spec.IsSourceText source.now }
    ensures bounded { result ≤ 65540 }
{
    let text = source.as_str();
    4 + text.len()
}

fn body_len(body: &Body) -> usize
    ensures len { result ≡ length (spec.body_bytes body.now) }
    ensures texts { spec.HasTexts body.now }
    ensures bounded { result ≤ 66055 }
{
    match body {
        Body::NoOp => 1,
        Body::Index(id, source) => 1 + id_len(id) + source_len(source),
        Body::Delete(id) => 1 + id_len(id),
    }
}

fn operation_len(op: &Op) -> usize
    ensures len { result ≡ length (spec.operation_bytes op.now) }
    ensures texts { spec.HasTexts op.now.body }
    ensures bounded { result ≤ 66079 }
{
    24 + body_len(&op.body)
}

fn checked_len(len: usize) -> Result<usize, OpFault>
    ensures len { Gives fault_of (λ n. n) result (spec.length_or len) }
    ensures large { IfErr result (λ e. e ≡ OpFault.TooLarge) }
{
    if len > MAX_SPELLING {
        return Err(OpFault::TooLarge);
    }
    Ok(len)
}

fn operations_len(operations: &[Op]) -> Result<usize, OpFault>
    ensures len { Gives fault_of (λ n. n) result (spec.length_or (length (flat_map spec.operation_bytes operations.now))) }
    ensures texts { OnOk result (AllByRecursion (λ o. spec.HasTexts o.body) operations.now) }
    ensures large { IfErr result (λ e. e ≡ OpFault.TooLarge) }
{
    let mut len = 0;
    for op in operations {
        len = checked_len(len + operation_len(op))?;
    }
    Ok(len)
}

fn record_len(found: &Record) -> Result<usize, OpFault>
    ensures len { Gives fault_of (λ n. n) result (spec.length_or (length (spec.spelling found.now))) }
    ensures typed { OnOk result (spec.IsTyped found.now) }
    ensures large { IfErr result (λ e. e ≡ OpFault.TooLarge) }
{
    match found {
        Record::Op(known, op) => {
            let _known = *known;
            checked_len(9 + operation_len(op))
        }
        Record::Resync(_, known, tail) => {
            let _known = *known;
            checked_len(21 + operations_len(tail.as_slice())?)
        }
        Record::Recover(_, all) => checked_len(13 + operations_len(all.as_slice())?),
    }
}

/// How many bytes the fields of these records have, each being an operation with its rules kept.
fn fields_len(group: &[Record]) -> Result<usize, OpFault>
    requires { length group.now ≤ 1024 }
    ensures len { IfOk result (λ n. n ≡ length (flat_map spec.kept_fields group.now)) }
    ensures rules { OnOk result (list_all is_of_group group.now ≡ true) }
    ensures typed { OnOk result (AllByRecursion spec.IsTyped group.now) }
    ensures refused { OnErr result (list_all is_of_group group.now ≡ false) }
    ensures cause { IfErr result (λ e. e ≡ OpFault.Malformed) }
    ensures bounded { IfOk result (λ n. n ≤ 1024 * 66087) }
{
    let mut len = 0;
    for found in group {
        len += kept_len(found)?;
    }
    Ok(len)
}

fn kept_len(found: &Record) -> Result<usize, OpFault>
    ensures len { IfOk result (λ n. n ≡ length (spec.kept_fields found.now)) }
    ensures rules { OnOk result (is_of_group found.now ≡ true) }
    ensures typed { OnOk result (spec.IsTyped found.now) }
    ensures refused { OnErr result (is_of_group found.now ≡ false) }
    ensures cause { IfErr result (λ e. e ≡ OpFault.Malformed) }
    ensures bounded { IfOk result (λ n. n ≤ 66087) }
{
    match found {
        Record::Op(known, op) => {
            if !is_op_record(*known, op) {
                return Err(OpFault::Malformed);
            }
            Ok(8 + operation_len(op))
        }
        _ => Err(OpFault::Malformed),
    }
}

// ---- fields

fn put_id(out: &mut Vec<u8>, id: &DocId) -> Result<(), AllocError>
    ensures { OnOk result (out.new.items ≡ out.old.items ++ spec.id_bytes id.now) }
{
    let text = id.as_str();
    out.extend_from_slice(&(text.len() as u16).to_le_bytes())?;
    out.extend_from_slice(text.as_bytes())
}

fn put_source(out: &mut Vec<u8>, source: &Source) -> Result<(), AllocError>
    ensures { OnOk result (out.new.items ≡ out.old.items ++ spec.source_bytes source.now) }
{
    let text = source.as_str();
    out.extend_from_slice(&(text.len() as u32).to_le_bytes())?;
    out.extend_from_slice(text.as_bytes())
}

fn put_body(out: &mut Vec<u8>, body: &Body) -> Result<(), AllocError>
    ensures { OnOk result (out.new.items ≡ out.old.items ++ spec.body_bytes body.now) }
{
    match body {
        Body::NoOp => out.push(0)?,
        Body::Index(id, source) => {
            out.push(1)?;
            put_id(out, id)?;
            put_source(out, source)?;
        }
        Body::Delete(id) => {
            out.push(2)?;
            put_id(out, id)?;
        }
    }
    Ok(())
}

fn put_number(out: &mut Vec<u8>, number: u64) -> Result<(), AllocError>
    ensures { OnOk result (out.new.items ≡ out.old.items ++ spec.number number) }
{
    out.extend_from_slice(&number.to_le_bytes())
}

fn put_signed(out: &mut Vec<u8>, number: &i64) -> Result<(), AllocError>
    ensures { OnOk result (out.new.items ≡ out.old.items ++ spec.signed number.now) }
{
    out.extend_from_slice(&number.to_le_bytes())
}

fn put_operation(out: &mut Vec<u8>, op: &Op) -> Result<(), AllocError>
    ensures { OnOk result (out.new.items ≡ out.old.items ++ spec.operation_bytes op.now) }
{
    put_number(out, op.seq)?;
    put_number(out, op.term)?;
    put_number(out, op.version)?;
    put_body(out, &op.body)
}

fn put_operations(out: &mut Vec<u8>, operations: &[Op]) -> Result<(), AllocError>
    requires { length operations.now ≤ 4294967295 }
    ensures { OnOk result (out.new.items ≡ out.old.items ++ spec.operations_bytes operations.now) }
{
    out.extend_from_slice(&(operations.len() as u32).to_le_bytes())?;
    for op in operations {
        put_operation(out, op)?;
    }
    Ok(())
}

fn put_kept(out: &mut Vec<u8>, known: &i64, op: &Op) -> Result<(), AllocError>
    ensures { OnOk result (out.new.items ≡ out.old.items ++ spec.spelling (Kept known.now op.now)) }
{
    out.push(1)?;
    put_signed(out, known)?;
    put_operation(out, op)
}

fn put_resync(out: &mut Vec<u8>, term: u64, known: &i64, tail: &[Op]) -> Result<(), AllocError>
    requires { length tail.now ≤ 4294967295 }
    ensures { OnOk result (out.new.items ≡ out.old.items ++ spec.spelling (Resync term known.now tail.now)) }
{
    out.push(2)?;
    put_number(out, term)?;
    put_signed(out, known)?;
    put_operations(out, tail)
}

fn put_recover(out: &mut Vec<u8>, term: u64, all: &[Op]) -> Result<(), AllocError>
    requires { length all.now ≤ 4294967295 }
    ensures { OnOk result (out.new.items ≡ out.old.items ++ spec.spelling (Recover term all.now)) }
{
    out.push(3)?;
    put_number(out, term)?;
    put_operations(out, all)
}

fn put_record(out: &mut Vec<u8>, found: &Record) -> Result<(), AllocError>
    requires { length (spec.spelling found.now) ≤ 4294967295 }
    ensures { OnOk result (out.new.items ≡ out.old.items ++ spec.spelling found.now) }
{
    match found {
        Record::Op(known, op) => put_kept(out, known, op),
        Record::Resync(term, known, tail) => put_resync(out, *term, known, tail.as_slice()),
        Record::Recover(term, all) => put_recover(out, *term, all.as_slice()),
    }
}

fn put_fields(out: &mut Vec<u8>, found: &Record) -> Result<(), AllocError>
    ensures { OnOk result (out.new.items ≡ out.old.items ++ spec.kept_fields found.now) }
{
    match found {
        Record::Op(known, op) => {
            put_signed(out, known)?;
            put_operation(out, op)
        }
        _ => Ok(()),
    }
}

fn put_group(out: &mut Vec<u8>, group: &[Record]) -> Result<(), AllocError>
    requires { length group.now ≤ 4294967295 }
    ensures { OnOk result (out.new.items ≡ out.old.items ++ spec.group_spelling group.now) }
{
    out.push(4)?;
    out.extend_from_slice(&(group.len() as u32).to_le_bytes())?;
    for found in group {
        put_fields(out, found)?;
    }
    Ok(())
}
