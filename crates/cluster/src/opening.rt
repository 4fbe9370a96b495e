//! What the devices of a cluster hold when it is opened: the log of the master, and those of copies.
ghost use Rattle.std.specs.Prelude.{◌≡◌, ◌≤◌, [], length, true, false, map, IfOk};
ghost use Rattle.journal.specs.declared.opening.Opening.{Opening as Begins};
ghost use Rattle.replica.specs.Copy.{begun, opened};
ghost use Rattle.replica.specs.declared.role.Birth.TheVariants.{Added};
ghost use Rattle.cluster.specs.Opening.{birth_of, first_with, is_with, keeps, leader_of, most_of, ready, BeganWith, IsFirst, IsKept};

use crate::ready::Ready;
use cell::{IndexLabel, IndexName};
use journal::Opening;
use master::Entry;
use replica::{Birth, Copy, CopyFault};
use std::alloc::Global;
use translog::{Frames, LogDevice, LogFault, Translog};

/// The header of the master's log.
const RSM1: [u8; 4] = [b'R', b'S', b'M', b'1'];

/// The offset of a log's first frame.
const FIRST: u64 = 4;

/// How many copies the index of a master's log began with; none where the log has no frame. Nothing of the log changes.
pub(crate) fn beginning<D: LogDevice>(alloc: Global, device: D) -> Result<(Option<u8>, D), LogFault>
    ensures held { IfOk result (λ r. D.bytes r.1 ≡ D.bytes device) }
    ensures count { IfOk result (λ r. BeganWith (D.bytes device) r.0) }
{
    let mut frames = Frames::over(RSM1, device);
    let (contents, _torn) = frames.read(alloc)?;
    let count = first_count(contents.as_slice())?;
    Ok((count, frames.into_device()))
}

/// How many copies the first entry begins an index with.
fn first_count(contents: &[Vec<u8>]) -> Result<Option<u8>, LogFault>
    ensures { IfOk result (IsFirst (map (λ c. c.items) contents.now)) }
{
    match contents {
        [] => Ok(None),
        [first, ..] => match Entry::read(first.as_slice()) {
            Some(Entry::Begin(count)) => Ok(Some(count)),
            _ => Err(LogFault::Damaged(FIRST)),
        },
    }
}

/// Whether copy `id` is one of the `count` copies that the index began with.
pub(crate) fn birth_of(id: u32, count: u8) -> Birth
    ensures { result ≡ birth_of id count }
{
    if id <= count as u32 {
        Birth::First
    } else {
        Birth::Added
    }
}

/// A copy that opened, and the number after its last operation.
#[derive(Clone, Copy, Drop)]
pub(crate) struct Opened {
    pub(crate) copy: u32,
    pub(crate) next: u64,
}

/// The copy that is to lead, of those that opened: the old primary, or one that has most. A primary keeps an operation before it sends it, so where
/// another copy has one that the old primary lacks, the old primary's log has lost what it kept.
pub(crate) fn leader_of(primary: u32, opened: &[Opened]) -> Option<u32>
    ensures { result ≡ leader_of primary opened.now }
{
    let most = most_of(opened);
    if is_with(primary, most, opened) {
        Some(primary)
    } else {
        first_with(most, opened)
    }
}

/// The greatest number after the last operation of a copy.
fn most_of(opened: &[Opened]) -> u64
    ensures { result ≡ most_of opened.now }
{
    let mut most: u64 = 0;
    for one in opened {
        most = most.max(one.next);
    }
    most
}

/// The first copy that has the operations up to a number.
fn first_with(next: u64, opened: &[Opened]) -> Option<u32>
    ensures { result ≡ first_with next opened.now }
{
    for one in opened {
        if one.next == next {
            return Some(one.copy);
        }
    }
    None
}

/// Whether a copy is there that has the operations up to a number.
fn is_with(copy: u32, next: u64, opened: &[Opened]) -> bool
    ensures { result ≡ is_with copy next opened.now }
{
    for one in opened {
        if one.copy == copy && one.next == next {
            return true;
        }
    }
    false
}

/// How many operations the old primary lacks of those that the copy has that is to lead; none where it leads itself, or didn't open.
pub(crate) fn lacking(primary: u32, opened: &[Opened]) -> Option<u64> {
    let most = most_of(opened);
    for one in opened {
        if one.copy == primary && one.next < most {
            return Some(most - one.next);
        }
    }
    None
}

/// What memory has of the journals of the copies: all, so that they are handed out where a cluster ends, or nothing that grows.
#[derive(Clone, Copy, Debug, Drop, PartialEq, Eq)]
pub enum Journals {
    Kept,
    Unkept,
}

/// A copy that is to be served, with a journal that begins as it does.
fn ready_of<D: LogDevice, J: IndexName>(
    journals: Journals,
    opening: Opening,
    copy: Copy<D>,
) -> Ready<D, J>
    requires copy { copy.copy ≡ opening }
    requires open { copy.closed ≡ false }
    requires whole { opening.point ≡ length opening.records }
    requires mapping { opening.mapping ≡ J.index.mapping }
    ensures { result ≡ ready (keeps journals) opening }
{
    match journals {
        Journals::Kept => Ready::of(copy, Some(opening)),
        Journals::Unkept => {
            drop(opening);
            Ready::of(copy, None)
        }
    }
}

/// A copy of a new index of `copies` copies, over a device without records.
pub(crate) fn new_copy<D: LogDevice, J: IndexName>(
    alloc: Global,
    journals: Journals,
    id: u32,
    copies: u32,
    label: &IndexLabel<J>,
    device: D,
) -> Result<Ready<D, J>, CopyFault>
    requires { 1 ≤ copies }
    ensures { IfOk result (λ r. r ≡ ready (keeps journals) (begun id copies label.now.mapping)) }
{
    let opening = Opening::begun(id, copies, label.mapping().copy(alloc)?);
    match Copy::begin(alloc, id, copies, label.mapping().copy(alloc)?, device) {
        Ok(copy) => Ok(ready_of(journals, opening, copy)),
        Err(refused) => Err(refused.into_fault()),
    }
}

/// A copy that joins an index, over a device without records.
pub(crate) fn joining_copy<D: LogDevice, J: IndexName>(
    alloc: Global,
    journals: Journals,
    id: u32,
    label: &IndexLabel<J>,
    device: D,
) -> Result<Ready<D, J>, CopyFault>
    ensures { IfOk result (λ r. r ≡ ready (keeps journals) (opened id Added label.now.mapping [])) }
{
    let opening = Opening::opened(
        id,
        Birth::Added,
        label.mapping().copy(alloc)?,
        Vec::new(alloc),
    );
    match Copy::open(
        alloc,
        id,
        Birth::Added,
        label.mapping().copy(alloc)?,
        device,
    ) {
        Ok(copy) => {
            if copy.point() == 0 {
                Ok(ready_of(journals, opening, copy))
            } else {
                Err(CopyFault::Mismatch)
            }
        }
        Err(refused) => Err(refused.into_fault()),
    }
}

/// The copy that a device holds; its journal begins with the records that it holds. One that joined the index has some.
pub(crate) fn kept_copy<D: LogDevice, J: IndexName>(
    alloc: Global,
    journals: Journals,
    id: u32,
    birth: Birth,
    label: &IndexLabel<J>,
    device: D,
) -> Result<Ready<D, J>, CopyFault>
    ensures { IfOk result (IsKept id birth label.now.mapping (D.bytes device) (keeps journals)) }
{
    match journals {
        Journals::Kept => journaled_copy(alloc, id, birth, label, device),
        Journals::Unkept => unjournaled_copy(alloc, id, birth, label, device),
    }
}

/// One whose journal is kept, for which the records are read once more.
fn journaled_copy<D: LogDevice, J: IndexName>(
    alloc: Global,
    id: u32,
    birth: Birth,
    label: &IndexLabel<J>,
    device: D,
) -> Result<Ready<D, J>, CopyFault>
    ensures { IfOk result (IsKept id birth label.now.mapping (D.bytes device) true) }
{
    let mut log = Translog::over(device);
    let (records, _torn) = log.read(alloc)?;
    if birth == Birth::Added && records.is_empty() {
        return Err(CopyFault::Mismatch);
    }
    let opening = Opening::opened(id, birth, label.mapping().copy(alloc)?, records);
    match Copy::open(
        alloc,
        id,
        birth,
        label.mapping().copy(alloc)?,
        log.into_device(),
    ) {
        Ok(copy) => Ok(Ready::of(copy, Some(opening))),
        Err(refused) => Err(refused.into_fault()),
    }
}

/// One whose journal isn't.
fn unjournaled_copy<D: LogDevice, J: IndexName>(
    alloc: Global,
    id: u32,
    birth: Birth,
    label: &IndexLabel<J>,
    device: D,
) -> Result<Ready<D, J>, CopyFault>
    ensures { IfOk result (IsKept id birth label.now.mapping (D.bytes device) false) }
{
    match Copy::open(alloc, id, birth, label.mapping().copy(alloc)?, device) {
        Ok(copy) => {
            if birth == Birth::Added && copy.point() == 0 {
                Err(CopyFault::Mismatch)
            } else {
                Ok(Ready::of(copy, None))
            }
        }
        Err(refused) => Err(refused.into_fault()),
    }
}
