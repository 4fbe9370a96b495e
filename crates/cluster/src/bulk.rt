//! Bulks that callers ask for.
ghost use Rattle.std.specs.Prelude.{◌≡◌, true, All, IsTrue, IfOk, IfErr, IfSome, Some};
ghost use Rattle.cluster.specs.Bulks.{bulked, has_kept, AreBulkSettledAt, AreSettledAt, HasKept, IsAcknowledgedAt, IsBulkConfirmed, IsBulkRefused, IsSettledAt, IsSettledBulk};
ghost use Rattle.cluster.specs.Confirmed.{IsBehind, IsEndOf};

use crate::checks::{acknowledges, are_behind, is_of_bulk, items_in};
use crate::client::{Client, lost_by, received, refusal_of};
use crate::confirmed::ConfirmedBulk;
use crate::durable::Durable;
use crate::fault::{ClusterFault, WriteFault};
use crate::post::{Answered, BulkEnding, Post};
use cell::IndexName;
use crossbeam_channel::{Receiver, bounded};
use node::Receipt;
use replica::{Item, Writes, Written};
use std::alloc::{AllocError, Global};
use std::sync::Wait;
use translog::LogDevice;

/// The channel of a bulk's entry, and the one that says how the bulk ends.
#[derive(Drop)]
struct BegunBulk<J: IndexName> {
    answers: Receiver<Answered<J>, Global>,
    endings: Receiver<BulkEnding<J>, Global>,
}

impl<R: Wait + Drop, D: LogDevice, J: IndexName> Client<R, D, J> {
    /// Has the primary do the writes of a bulk with one step, and waits until every member has those that were kept. A bulk for which the window of the
    /// primary has no room waits for it, and what comes to that copy from callers after it. Where there is no primary since the master could make
    /// none, its fault says why.
    pub fn bulk(&self, rt: &R, writes: Writes) -> Result<ConfirmedBulk<J>, WriteFault<J>>
        ensures confirmed { IfOk result (IsBulkConfirmed writes) }
        ensures refused { IfErr result (IsBulkRefused writes) }
    {
        let primary = self.shared.primary(rt);
        let asked = writes.copy(self.alloc)?;
        let begun = self.begin_bulk(rt, primary, asked)?;
        match confirmed(rt, self.alloc, begun, primary, &writes) {
            Ok(done) => Ok(done),
            Err(fault) => Err(self.or_unled_bulk(rt, &writes, fault)),
        }
    }

    /// A bulk's refusal; in place of one for want of a primary the master's fault, where it could make none.
    fn or_unled_bulk(&self, rt: &R, writes: &Writes, fault: WriteFault<J>) -> WriteFault<J>
        requires { IsBulkRefused writes.now fault }
        ensures { IsBulkRefused writes.now result }
    {
        if let WriteFault::NoPrimary(_) = &fault {
            if let Some(why) = self.shared.unled(rt) {
                drop(fault);
                return WriteFault::Cluster(ClusterFault::from(why));
            }
        }
        fault
    }

    /// Hands a bulk to a copy.
    fn begin_bulk(&self, rt: &R, copy: u32, writes: Writes) -> Result<BegunBulk<J>, ClusterFault> {
        let (first, answers) = bounded(self.alloc, 1)?;
        let (second, endings) = bounded(self.alloc, 1)?;
        self.mail(rt, copy, Post::Bulk(writes, first, second))?;
        Ok(BegunBulk { answers, endings })
    }
}

/// Waits until the writes of a bulk that were kept are acknowledged, or its copy leads no more. Its entry is there by then.
fn confirmed<R: Wait, J: IndexName>(
    rt: &R,
    alloc: Global,
    begun: BegunBulk<J>,
    copy: u32,
    writes: &Writes,
) -> Result<ConfirmedBulk<J>, WriteFault<J>>
    ensures confirmed { IfOk result (IsBulkConfirmed writes.now) }
    ensures refused { IfErr result (IsBulkRefused writes.now) }
{
    let BegunBulk { answers, endings } = begun;
    let ending = endings.recv(rt).ok();
    let receipt = received(rt, &answers)?;
    if !is_of_bulk(&receipt, copy, writes) {
        return Err(WriteFault::Cluster(ClusterFault::Stray(receipt.place())));
    }
    match is_kept_in(&receipt) {
        Some(true) => ended(alloc, receipt, ending),
        Some(false) => Ok(settled(alloc, receipt, Vec::new(alloc))?),
        None => Err(refusal_of(receipt)),
    }
}

/// Whether something was kept of the bulk of a receipt.
fn is_kept_in<J: IndexName>(receipt: &Receipt<J>) -> Option<bool>
    ensures { IfSome result (λ b. IsTrue b → HasKept receipt.now) }
{
    match items_in(receipt) {
        Some(items) => Some(has_kept(items)),
        None => None,
    }
}

/// Whether a write among these was kept.
fn has_kept(items: &[Item]) -> bool
    ensures { result ≡ has_kept items.now }
{
    for item in items {
        if let Item::Wrote(_) = item {
            return true;
        }
    }
    false
}

/// How a bulk ended of which something was kept.
fn ended<J: IndexName>(
    alloc: Global,
    receipt: Receipt<J>,
    ending: Option<BulkEnding<J>>,
) -> Result<ConfirmedBulk<J>, WriteFault<J>>
    ensures kept { IfOk result (IsSettledBulk receipt) }
    ensures lost { IfErr result (IsEndOf receipt) }
{
    match ending {
        Some(BulkEnding::Acknowledged(entries)) => Ok(settled(alloc, receipt, entries)?),
        Some(BulkEnding::Lost(entry)) => Err(lost_by(receipt, entry.into_inner())),
        None => Err(WriteFault::Unconfirmed(receipt)),
    }
}

/// A bulk whose writes these entries acknowledge.
#[tactic(auto, using(crate::proofs::Bulks::settled_bulk))]
fn settled<J: IndexName>(
    alloc: Global,
    receipt: Receipt<J>,
    entries: Vec<Durable<Receipt<J>>>,
) -> Result<ConfirmedBulk<J>, ClusterFault>
    ensures settled { IfOk result (IsSettledBulk receipt) }
{
    let acknowledgements = receipts_of(alloc, entries)?;
    match places_in(alloc, &receipt, &acknowledgements)? {
        Some(places) => Ok(ConfirmedBulk {
            bulk: receipt,
            acknowledgements,
            places,
        }),
        None => Err(ClusterFault::Stray(receipt.place())),
    }
}

/// The entries alone.
fn receipts_of<J: IndexName>(
    alloc: Global,
    entries: Vec<Durable<Receipt<J>>>,
) -> Result<Vec<Receipt<J>>, AllocError> {
    let mut receipts = Vec::with_capacity(alloc, entries.len())?;
    for entry in entries {
        receipts.push(entry.into_inner())?;
    }
    Ok(receipts)
}

/// For each item of a bulk's entry the place of an entry, which acknowledges the write where it was kept; nothing where one has none.
#[tactic(auto, using(crate::proofs::Bulks::held_anyway))]
fn places_in<J: IndexName>(
    alloc: Global,
    receipt: &Receipt<J>,
    entries: &[Receipt<J>],
) -> Result<Option<Vec<usize>>, AllocError>
    ensures settled { IfOk result (λ o. IfSome o (λ ps. AreBulkSettledAt receipt.now entries.now ps.items)) }
    ensures behind { IfOk result (λ o. IfSome o (λ ps. All (IsBehind receipt.now) entries.now)) }
{
    if !are_behind(receipt, entries) {
        return Ok(None);
    }
    match items_in(receipt) {
        Some(items) => places_of(alloc, items, entries),
        None => Ok(None),
    }
}

fn places_of<J: IndexName>(
    alloc: Global,
    items: &[Item],
    entries: &[Receipt<J>],
) -> Result<Option<Vec<usize>>, AllocError>
    ensures { IfOk result (λ o. IfSome o (λ ps. AreSettledAt entries.now items.now ps.items)) }
{
    let mut places = Vec::with_capacity(alloc, items.len())?;
    let mut last = 0;
    for item in items {
        let Some(place) = place_of(item, entries, last) else {
            return Ok(None);
        };
        places.push(place)?;
        last = place;
    }
    Ok(Some(places))
}

/// The place of an entry that acknowledges the write of an item, from a place on; where the write was refused that place.
fn place_of<J: IndexName>(item: &Item, entries: &[Receipt<J>], from: usize) -> Option<usize>
    ensures { IfSome result (IsSettledAt entries.now item.now) }
{
    match item {
        Item::Wrote(written) => place_from(*written, entries, from),
        Item::Refused(_) => Some(from),
    }
}

/// The place of an entry that acknowledges a write: this one, the next, or the first.
fn place_from<J: IndexName>(written: Written, entries: &[Receipt<J>], from: usize) -> Option<usize>
    ensures { IfSome result (λ p. IsAcknowledgedAt entries.now p written) }
{
    if is_acknowledged_at(written, entries, from) {
        return Some(from);
    }
    let next = from.saturating_add(1);
    if is_acknowledged_at(written, entries, next) {
        return Some(next);
    }
    first_place(written, entries)
}

fn first_place<J: IndexName>(written: Written, entries: &[Receipt<J>]) -> Option<usize>
    ensures { IfSome result (λ p. IsAcknowledgedAt entries.now p written) }
{
    for place in 0..entries.len() {
        if is_acknowledged_at(written, entries, place) {
            return Some(place);
        }
    }
    None
}

/// Whether the entry at a place acknowledges a write.
fn is_acknowledged_at<J: IndexName>(written: Written, entries: &[Receipt<J>], place: usize) -> bool
    ensures { IsTrue result → IsAcknowledgedAt entries.now place written }
{
    match entries.get(place) {
        Some(entry) => acknowledges(entry, written),
        None => false,
    }
}
