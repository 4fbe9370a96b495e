//! The records of many contents, stretch by stretch on all processors.
ghost use Rattle.std.specs.Prelude.{◌≡◌, ◌<◌, ◌+◌, ◌*◌, ◌^◌, false, drop, length, map, take, IfOk, IfErr, IfSome};
ghost use Rattle.std.specs.List.{flat_map};
ghost use Rattle.doc.specs.Outcome.{Gives};
ghost use Rattle.translog.specs.Fault.{fault_of, is_device};
ghost use Rattle.translog.specs.Frames.{framed, AreContents};
ghost use Rattle.translog.specs.Kept.{kept, IsTornLog};
ghost use Rattle.translog.specs.Pieces.{piece_records, ArePieces};

use crate::fault::LogFault;
use crate::frames::{self, Torn};
use crate::pieces::{self, UPGRADE, has_groups, header_of, records_of};
use op::Record;
use rayon::prelude::*;
use std::alloc::Global;
use std::thread::Threads;

/// So many stretches keep the processors of most machines at work.
const MOST_STRETCHES: usize = 8;

/// A log of fewer bytes isn't worth a thread.
const WORTH_THREADS: usize = 262_144;

/// What was read of contents that stand one after the other.
#[derive(Drop)]
struct Stretch {
    /// Whether groups may stand before it, as was taken.
    before: bool,
    records: Vec<Record>,
    /// Whether groups may stand after it.
    after: bool,
}

/// What `pieces::found` gives, the contents read on all processors.
pub(crate) fn found_on<R: Threads + Sync>(
    rt: &R,
    alloc: Global,
    held: &[u8],
) -> Result<(Vec<Record>, Torn, bool), LogFault>
    ensures found { Gives fault_of (λ x. x.0.items) result (kept held.now) }
    ensures torn { IfOk result (λ x. IsTornLog held.now x.0.items x.1 x.2) }
    ensures no_failure { IfErr result (λ e. is_device e ≡ false) }
{
    if held.len() < WORTH_THREADS {
        return pieces::found(alloc, held);
    }
    let header = header_of(held);
    let (contents, torn) = frames::found(alloc, &header, held)?;
    let (records, groups) = records_on(rt, alloc, has_groups(held), contents.as_slice())?;
    Ok((records, torn, groups))
}

/// What `pieces::records_of` gives, read on all processors. What is refused is read again in order, which tells where the first fault stands.
#[tactic(auto, using(crate::proofs::StretchLaws::pieces_read))]
fn records_on<R: Threads + Sync>(
    rt: &R,
    alloc: Global,
    groups: bool,
    contents: &[&[u8]],
) -> Result<(Vec<Record>, bool), LogFault>
    requires small { AreContents (map (λ c. c.now) contents.now) }
    requires offsets { 4 + length (flat_map framed (map (λ c. c.now) contents.now)) < 2 ^ 64 }
    ensures found { Gives fault_of (λ x. x.0.items) result (piece_records groups 4 (map (λ c. c.now) contents.entry.now)) }
    ensures pieces { IfOk result (λ x. ArePieces groups (map (λ c. c.now) contents.entry.now) x.0.items x.1) }
    ensures no_failure { IfErr result (λ e. is_device e ≡ false) }
{
    if let Some(found) = together(rt, alloc, groups, contents) {
        return Ok(found);
    }
    records_of(alloc, groups, contents)
}

/// The records of all contents; nothing where a stretch is refused, or doesn't begin as the one before it left off, or memory runs out.
fn together<R: Threads + Sync>(
    rt: &R,
    alloc: Global,
    groups: bool,
    contents: &[&[u8]],
) -> Option<(Vec<Record>, bool)>
    requires small { AreContents (map (λ c. c.now) contents.now) }
    requires offsets { 4 + length (flat_map framed (map (λ c. c.now) contents.now)) < 2 ^ 64 }
    ensures { IfSome result (λ x. ArePieces groups (map (λ c. c.now) contents.entry.now) x.0.items x.1) }
{
    let size = contents.len() / MOST_STRETCHES + 1;
    let stretches = (0..contents.len().div_ceil(size))
        .into_par_iter()
        .with_min_len(1)
        .map(
            |n: usize| -> Result<Stretch, LogFault>
                requires within { n * size < length contents.now }
                requires small { AreContents (map (λ c. c.now) contents.now) }
                requires offsets { 4 + length (flat_map framed (map (λ c. c.now) contents.now)) < 2 ^ 64 }
                ensures { IfOk result (λ s. ArePieces s.before (map (λ c. c.now) (take size (drop (n * size) contents.entry.now))) s.records.items s.after) }
            { stretch_at(alloc, groups, contents, n * size, size) },
        )
        .collect::<Vec<_>>(rt, alloc)
        .ok()?;
    let mut records = Vec::with_capacity(alloc, contents.len()).ok()?;
    let mut may_group = groups;
    for stretch in stretches {
        let mut next = stretch.ok()?;
        if next.before != may_group {
            return None;
        }
        records.append(&mut next.records).ok()?;
        may_group = next.after;
    }
    Some((records, may_group))
}

/// The records of the stretch that begins at a place.
fn stretch_at(
    alloc: Global,
    groups: bool,
    contents: &[&[u8]],
    begin: usize,
    size: usize,
) -> Result<Stretch, LogFault>
    requires within { begin < length contents.now }
    requires small { AreContents (map (λ c. c.now) contents.now) }
    requires offsets { 4 + length (flat_map framed (map (λ c. c.now) contents.now)) < 2 ^ 64 }
    ensures { IfOk result (λ s. ArePieces s.before (map (λ c. c.now) (take size (drop begin contents.entry.now))) s.records.items s.after) }
{
    let (front, rest) = contents.split_at(begin);
    let before = groups || front.contains(&[UPGRADE].as_slice());
    let (stretch, _) = rest.split_at(size.min(rest.len()));
    stretch_of(alloc, before, stretch)
}

/// The records of a stretch. The offset of a fault is one within the stretch.
fn stretch_of(alloc: Global, groups: bool, contents: &[&[u8]]) -> Result<Stretch, LogFault>
    requires small { AreContents (map (λ c. c.now) contents.now) }
    requires offsets { 4 + length (flat_map framed (map (λ c. c.now) contents.now)) < 2 ^ 64 }
    ensures { IfOk result (λ s. ArePieces s.before (map (λ c. c.now) contents.entry.now) s.records.items s.after) }
{
    let (records, after) = records_of(alloc, groups, contents)?;
    Ok(Stretch {
        before: groups,
        records,
        after,
    })
}
