//! Replies to bulks that are confirmed.
ghost use Rattle.std.specs.Prelude.{◌≡◌, All, IfOk, IfSome, IsTrue, Some, slice_get};
ghost use Rattle.cluster.specs.Bulks as cluster;
ghost use Rattle.front.specs.ReplyView.{reply_view};
ghost use Rattle.node.specs.Heard.{HasEntry};
ghost use Rattle.group.specs.Group.{count_by, counted_at, replies_at, HasBulk, IsBulkTold};

use crate::group::counted_in;
use cell::IndexName;
use cluster::{ClusterFault, ConfirmedBulk};
use front::reply::{ItemReply, Reply};
use node::{Heard, Receipt};
use replica::{Answer, CopyFault, Items, Output};
use shard::answering::item_reply_of;
use std::alloc::{AllocError, Global};

/// What a client knows after a bulk: the entries of its journal up to the last entry that acknowledges a write of it. `None` if its receipts aren't of one
/// journal; those of a cluster are.
pub(crate) fn heard_behind<J: IndexName>(confirmed: &ConfirmedBulk<J>) -> Option<Heard<J>>
    ensures { IfSome result (HasBulk confirmed.now) }
{
    let entries = confirmed.acknowledgements.as_slice();
    let heard = last_heard(&confirmed.bulk, entries);
    if heard.has(&confirmed.bulk) && has_all(&heard, entries) {
        Some(heard)
    } else {
        None
    }
}

/// What the last of some entries says.
fn last_heard<J: IndexName>(first: &Receipt<J>, others: &[Receipt<J>]) -> Heard<J> {
    let mut heard = Heard::by(first);
    for other in others {
        if heard.is_before(other) {
            heard = Heard::by(other);
        }
    }
    heard
}

/// Whether each of some entries was heard.
fn has_all<J: IndexName>(heard: &Heard<J>, entries: &[Receipt<J>]) -> bool
    ensures { IsTrue result → All (HasEntry heard.now) entries.now }
{
    for entry in entries {
        if !heard.has(entry) {
            return false;
        }
    }
    true
}

/// The reply that reports a confirmed bulk.
pub(crate) fn told_bulk<J: IndexName>(
    alloc: Global,
    confirmed: ConfirmedBulk<J>,
) -> Result<Reply, ClusterFault>
    ensures { IfOk result (λ r. IsBulkTold confirmed (reply_view r)) }
{
    let ConfirmedBulk {
        bulk,
        acknowledgements,
        places,
    } = confirmed;
    let Some(items) = items_of(bulk) else {
        return Err(ClusterFault::Stray(0));
    };
    let replies = replies_at(alloc, items, &places, &acknowledgements)?;
    Ok(Reply::Bulked(replies))
}

/// What became of the writes of a receipt's bulk.
fn items_of<J: IndexName>(bulk: Receipt<J>) -> Option<Items>
    ensures { IfSome result (λ items. cluster.bulked bulk.deed.answer ≡ Some items) }
{
    items_in(bulk.into_deed().answer)
}

fn items_in(answer: Result<Output, CopyFault>) -> Option<Items>
    ensures { IfSome result (λ items. cluster.bulked answer ≡ Some items) }
{
    match answer {
        Ok(output) => items_by(output.answer),
        Err(_) => None,
    }
}

fn items_by(answer: Answer) -> Option<Items>
    ensures { IfSome result (λ items. cluster.bulked_as answer ≡ Some items) }
{
    match answer {
        Answer::Bulked(items) => Some(items),
        _ => None,
    }
}

/// What became of each write of a bulk, with the number of copies that the entry at its place counts.
#[tactic(auto, using(crate::proofs::Replying::replies_more, crate::proofs::Replying::as_many))]
fn replies_at<J: IndexName>(
    alloc: Global,
    items: Items,
    places: &[usize],
    entries: &[Receipt<J>],
) -> Result<Vec<ItemReply>, AllocError>
    ensures { IfOk result (λ rs. rs.items ≡ replies_at entries.now items places.now) }
{
    let mut replies = Vec::new(alloc);
    for item in items.into_vec() {
        let copies = count_by(entries, places, replies.len());
        replies.push(item_reply_of(item, copies))?;
    }
    Ok(replies)
}

/// How many copies an entry counts: the one whose place stands at this position of the places; 0 if there is none.
fn count_by<J: IndexName>(entries: &[Receipt<J>], places: &[usize], at: usize) -> u64
    ensures { result ≡ count_by entries.now (slice_get places.now at) }
{
    match places.get(at) {
        Some(place) => counted_at(entries, *place),
        None => 0,
    }
}

/// How many copies the entry at a place counts.
fn counted_at<J: IndexName>(entries: &[Receipt<J>], place: usize) -> u64
    ensures { result ≡ counted_at entries.now place }
{
    match entries.get(place) {
        Some(entry) => counted_in(entry),
        None => 0,
    }
}
