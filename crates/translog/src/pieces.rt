//! The pieces of a translog: records, groups of them, and the upgrade.
ghost use Rattle.std.specs.Prelude.{◌≡◌, ◌+◌, ◌<◌, ◌^◌, ◌∷◌, [], true, false, None, List, ℕ, length, map, take, IsErrOf, Ok, IfOk, IfErr, OnOk};
ghost use Rattle.std.specs.List.{flat_map};
ghost use Rattle.std.specs.Str.{bytes_eq};
ghost use Rattle.doc.specs.Outcome.{Fails, Gives};
ghost use Rattle.op.specs.declared.record.Record.{Record};
ghost use Rattle.op.specs.Format.{frame_spelling, is_too_large};
ghost use Rattle.op.specs.Reading as reading;
ghost use Rattle.op.specs.Reading.{has_tag};
ghost use Rattle.op.specs.Records.{AreOfOneFrame};
ghost use Rattle.translog.specs.declared.fault.LogFault.TheVariants.{NoMemory, TooLarge};
ghost use Rattle.translog.specs.Fault.{fault_of, is_device};
ghost use Rattle.translog.specs.Frames.{frame_of, framed, mended, AreContents, IsTorn, IsUnopened};
ghost use Rattle.translog.specs.Kept.{frames_or, has_upgrade, kept, IsTornLog};
ghost use Rattle.translog.specs.Pieces.{due_or_damaged, first, form_of, has_groups, header_of, own_header, piece_of, piece_records, ArePieces, IsPieceAdded, IsPieceAt};

use crate::device::LogDevice;
use crate::fault::LogFault;
use crate::frames::{self, Frame, Torn};
use op::{OpFault, Record, decode, decode_frame, encode_group};
use std::alloc::Global;

/// The header of a log that has groups only after an upgrade.
const RSX1: [u8; 4] = [b'R', b'S', b'X', b'1'];

/// The header of a log that may have groups from its first frame on.
const RSX2: [u8; 4] = [b'R', b'S', b'X', b'2'];

/// The tag of a group.
const GROUP: u8 = 4;

/// The content of an upgrade.
pub(crate) const UPGRADE: u8 = 5;

// ---- what a device holds

/// The records that some bytes hold, what of the bytes is torn, and whether groups may stand after them.
pub(crate) fn found(alloc: Global, held: &[u8]) -> Result<(Vec<Record>, Torn, bool), LogFault>
    ensures found { Gives fault_of (λ x. x.0.items) result (kept held.now) }
    ensures torn { IfOk result (λ x. IsTornLog held.now x.0.items x.1 x.2) }
    ensures no_failure { IfErr result (λ e. is_device e ≡ false) }
{
    let header = header_of(held);
    let (contents, torn) = frames::found(alloc, &header, held)?;
    let (records, groups) = records_of(alloc, has_groups(held), contents.as_slice())?;
    Ok((records, torn, groups))
}

/// The header that some bytes begin with, or are to have.
pub(crate) fn header_of(held: &[u8]) -> [u8; 4]
    ensures { result ≡ own_header held.now }
{
    if is_first(held) { RSX1 } else { RSX2 }
}

/// Whether groups may stand in a log of these bytes from its first frame on.
pub(crate) fn has_groups(held: &[u8]) -> bool
    ensures { result ≡ has_groups (form_of held.now) }
{
    !is_first(held)
}

/// Whether some bytes begin with the header of the first form.
fn is_first(held: &[u8]) -> bool
    ensures { result ≡ bytes_eq (take 4 held.now) (header_of first) }
{
    let front = if held.len() < 4 { held.len() } else { 4 };
    held[..front] == RSX1[..]
}

// ---- what is torn

/// Cuts off a torn end, or writes a torn header anew, as that of the second form.
pub(crate) fn mend<D: LogDevice>(device: &mut D, torn: Torn) -> Result<(), LogFault>
    requires { (contents : List (List ℕ)) × IsTorn (own_header (D.bytes device.old)) (D.bytes device.old) contents torn }
    ensures ok { OnOk result (D.bytes device.new ≡ mended (own_header (D.bytes device.old)) (D.bytes device.old) torn) }
    ensures counts { OnOk result (D.failures device.new ≡ D.failures device.old) }
    ensures refused { IfErr result (λ e. IsUnopened (is_device e) (own_header (D.bytes device.old)) (D.bytes device.old) (D.bytes device.new) (D.failures device.old) (D.failures device.new)) }
    ensures cause { IfErr result (λ e. fault_of e ≡ None) }
    ensures in_memory { D.in_memory ≡ true → IfErr result (λ e. is_device e ≡ false) }
{
    match torn {
        Torn::Nothing => Ok(()),
        Torn::End(whole) => match device.cut(whole) {
            Ok(()) => Ok(()),
            Err(_) => Err(LogFault::Device),
        },
        Torn::Header => frames::write_header(&RSX2, device),
    }
}

// ---- pieces

/// The records that some contents are, the first frame being at offset 4, where groups may stand or don't yet; and whether they may after them.
pub(crate) fn records_of(
    alloc: Global,
    groups: bool,
    contents: &[&[u8]],
) -> Result<(Vec<Record>, bool), LogFault>
    requires small { AreContents (map (λ c. c.now) contents.now) }
    requires offsets { 4 + length (flat_map framed (map (λ c. c.now) contents.now)) < 2 ^ 64 }
    ensures found { Gives fault_of (λ x. x.0.items) result (piece_records groups 4 (map (λ c. c.now) contents.entry.now)) }
    ensures pieces { IfOk result (λ x. ArePieces groups (map (λ c. c.now) contents.entry.now) x.0.items x.1) }
    ensures no_failure { IfErr result (λ e. is_device e ≡ false) }
{
    let mut records = Vec::new(alloc);
    let mut may_group = groups;
    let mut offset = 4;
    for content in contents {
        may_group = add_piece(alloc, may_group, offset, *content, &mut records)?;
        offset += 4 + content.len() as u64;
    }
    Ok((records, may_group))
}

/// Adds the records of the piece that a content is, and says whether groups may stand after it, as `piece_at` does. One record, which most frames
/// are, is read without a list of its own.
#[tactic(auto, using(crate::proofs::PieceReading::one_added, crate::proofs::PieceReading::no_record_refused))]
fn add_piece(
    alloc: Global,
    groups: bool,
    offset: u64,
    content: &[u8],
    records: &mut Vec<Record>,
) -> Result<bool, LogFault>
    ensures found { IfOk result (λ after. IsPieceAdded groups content.now records.old.items records.new.items after) }
    ensures refused { IfErr result (λ e. Fails fault_of e (due_or_damaged groups offset (piece_of content.now))) }
    ensures no_failure { IfErr result (λ e. is_device e ≡ false) }
{
    if !is_alone(content) {
        let (mut found, after) = piece_at(alloc, groups, offset, content)?;
        records.append(&mut found)?;
        return Ok(after);
    }
    match decode(alloc, content) {
        Ok(found) => {
            records.push(found)?;
            Ok(groups)
        }
        Err(OpFault::NoMemory) => Err(LogFault::NoMemory),
        Err(_) => Err(LogFault::Damaged(offset)),
    }
}

/// Whether a content can only be one record: it has no group's tag, and isn't an upgrade.
fn is_alone(content: &[u8]) -> bool
    ensures record { result ≡ true → has_tag 4 content.now ≡ false }
    ensures due { result ≡ true → bytes_eq content.now (5 ∷ []) ≡ false }
{
    match content {
        [GROUP, ..] => false,
        _ => !is_upgrade(content),
    }
}

/// The records of the piece that a content is, and whether groups may stand after it; what is no piece, or isn't due there, is damaged.
#[tactic(auto, using(crate::proofs::PieceReading::upgrade_at, crate::proofs::PieceReading::upgrade_refused, crate::proofs::PieceReading::records_at, crate::proofs::PieceReading::group_refused, crate::proofs::PieceReading::no_records_refused))]
fn piece_at(
    alloc: Global,
    groups: bool,
    offset: u64,
    content: &[u8],
) -> Result<(Vec<Record>, bool), LogFault>
    ensures found { IfOk result (λ x. IsPieceAt groups content.now x.0.items x.1) }
    ensures refused { IfErr result (λ e. Fails fault_of e (due_or_damaged groups offset (piece_of content.now))) }
    ensures no_failure { IfErr result (λ e. is_device e ≡ false) }
{
    if is_upgrade(content) {
        if groups {
            return Err(LogFault::Damaged(offset));
        }
        return Ok((Vec::new(alloc), true));
    }
    let found = match decode_frame(alloc, content) {
        Ok(found) => found,
        Err(OpFault::NoMemory) => return Err(LogFault::NoMemory),
        Err(_) => return Err(LogFault::Damaged(offset)),
    };
    if !groups && found.len() >= 2 {
        return Err(LogFault::Damaged(offset));
    }
    Ok((found, groups))
}

/// Whether a content is an upgrade's.
fn is_upgrade(content: &[u8]) -> bool
    ensures { result ≡ bytes_eq content.now (5 ∷ []) }
{
    content == [UPGRADE].as_slice()
}

// ---- records that are written

/// The frames of records that keep the rules, for one append.
#[tactic(auto, using(crate::proofs::PieceWriting::none_spelt, crate::proofs::PieceWriting::spelling_again))]
pub(crate) fn framed_together(
    alloc: Global,
    groups: bool,
    group: &[Record],
) -> Result<Frame, LogFault>
    requires { AreOfOneFrame group.now }
    ensures frame { Gives fault_of (λ f. f) result (frames_or groups group.now) }
    ensures large { IsErrOf result TooLarge → (r : Record) × (group.now ≡ r ∷ []) × (is_too_large r ≡ true) }
    ensures reads { OnOk result (reading.records_of (frame_spelling group.now) ≡ Ok group.now) }
    ensures no_failure { IfErr result (λ e. is_device e ≡ false) }
{
    let content = spelt(alloc, group)?;
    framed_as(alloc, groups, group, content.as_slice())
}

/// The frames of records that a content spells; it fails only if memory runs out.
#[tactic(auto, using(crate::proofs::PieceWriting::one_frame, crate::proofs::PieceWriting::two_frames))]
fn framed_as(
    alloc: Global,
    groups: bool,
    group: &[Record],
    content: &[u8],
) -> Result<Frame, LogFault>
    requires spelling { content.now ≡ frame_spelling group.now }
    requires reads { reading.records_of content.now ≡ Ok group.now }
    ensures frame { Gives fault_of (λ f. f) result (frames_or groups group.now) }
    ensures memory { IfErr result (λ e. e ≡ NoMemory) }
{
    if groups || group.len() < 2 {
        return Frame::of(alloc, content);
    }
    Frame::behind(alloc, [UPGRADE].as_slice(), content)
}

/// The spelling of the records of one frame, which keep the rules.
#[tactic(auto, using(crate::proofs::PieceWriting::spelling_is, crate::proofs::PieceWriting::not_spelt, crate::proofs::PieceWriting::large_alone))]
fn spelt(alloc: Global, group: &[Record]) -> Result<Vec<u8>, LogFault>
    requires { AreOfOneFrame group.now }
    ensures spelling { IfOk result (λ v. v.items ≡ frame_spelling group.now) }
    ensures reads { IfOk result (λ v. reading.records_of v.items ≡ Ok group.now) }
    ensures large { IsErrOf result TooLarge → (r : Record) × (group.now ≡ r ∷ []) × (is_too_large r ≡ true) }
    ensures refused { IfErr result (λ e. Fails fault_of e (frame_of (frame_spelling group.now))) }
    ensures no_failure { IfErr result (λ e. is_device e ≡ false) }
{
    match encode_group(alloc, group) {
        Ok(content) => Ok(content),
        Err(OpFault::NoMemory) => Err(LogFault::NoMemory),
        Err(OpFault::Malformed) => Err(LogFault::TooLarge),
        Err(OpFault::TooLarge) => Err(LogFault::TooLarge),
    }
}

/// Whether an upgrade's frame stands in front.
pub(crate) fn has_upgrade(bytes: &[u8]) -> bool
    ensures { result ≡ has_upgrade bytes.now }
{
    let front = if bytes.len() < 5 { bytes.len() } else { 5 };
    bytes[..front] == [1, 0, 0, 0, UPGRADE][..]
}
