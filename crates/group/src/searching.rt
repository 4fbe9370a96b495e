//! Searches of what the primary of several copies shows.
ghost use Rattle.std.specs.Prelude.{◌≡◌, IfOk, IfSome};
ghost use Rattle.engine.specs.Shown.{hits_view};
ghost use Rattle.query.specs.View.{query_view};
ghost use Rattle.front.specs.ReplyView.{reply_view};
ghost use Rattle.shard.specs.Answering as spec;
ghost use Rattle.group.specs.Searching.{IsFoundAt};

use cell::{CopySearchFault, CopySearcher, FoundAt, IndexName};
use cluster::{Client, ClusterFault};
use engine::Hits;
use front::reply::Reply;
use query::{Page, Query};
use replica::CopyFault;
use shard::answering::hits_of;
use std::alloc::{AllocError, Global};
use std::sync::{Mutex, Wait};
use translog::LogDevice;

/// A place for a searcher. A copy has eight seats. If there are more threads, some share a place: there one thread waits for another's search, but for no
/// write.
pub struct Chair<J: IndexName> {
    seat: Mutex<Option<CopySearcher<J>>>,
}

impl<J: IndexName> Drop for Chair<J> {
    fn drop(self) {
        let Chair { seat: _seat } = self;
    }
}

impl<J: IndexName> Chair<J> {
    /// A place with a searcher of the primary, if the primary gives one now; else the first search at this place asks for one.
    pub fn new<R: Wait + Drop, D: LogDevice>(rt: &R, client: &Client<R, D, J>) -> Chair<J> {
        Chair {
            seat: Mutex::new(client.searcher(rt, client.primary(rt).primary).ok()),
        }
    }

    /// What a search of a copy finds, by the searcher at this place.
    pub(crate) fn search<R: Wait + Drop, D: LogDevice>(
        &self,
        rt: &R,
        alloc: Global,
        client: &Client<R, D, J>,
        copy: u32,
        query: &Query,
        page: Page,
    ) -> Result<FoundAt<J>, ClusterFault>
        ensures found { IfOk result (λ f. IsFoundAt J.index.mapping (query_view query.now) page (hits_view f.hits) f.point) }
        ensures copy { IfOk result (λ f. f.point.node ≡ copy) }
    {
        let mut held = self.seat.lock(rt);
        let mut seat = seated(rt, client, copy, held.take())?;
        let found = found_by(&mut seat, alloc, query, page);
        if found.is_ok() {
            *held = Some(seat);
        }
        found
    }
}

/// A searcher of a copy: the one from before if it is of this copy, else a new one.
fn seated<R: Wait + Drop, D: LogDevice, J: IndexName>(
    rt: &R,
    client: &Client<R, D, J>,
    copy: u32,
    before: Option<CopySearcher<J>>,
) -> Result<CopySearcher<J>, ClusterFault>
    ensures { IfOk result (λ s. s.node ≡ copy) }
{
    if let Some(seat) = before {
        if seat.node() == copy {
            return Ok(seat);
        }
    }
    client.searcher(rt, copy)
}

/// What a searcher finds.
#[tactic(auto, using(crate::proofs::Found::found_at))]
fn found_by<J: IndexName>(
    seat: &mut CopySearcher<J>,
    alloc: Global,
    query: &Query,
    page: Page,
) -> Result<FoundAt<J>, ClusterFault>
    ensures found { IfOk result (λ f. IsFoundAt J.index.mapping (query_view query.now) page (hits_view f.hits) f.point) }
    ensures copy { IfOk result (λ f. f.point.node ≡ seat.old.node) }
{
    match seat.search(alloc, query, page) {
        Ok(found) => Ok(found),
        Err(fault) => Err(unsearched(fault)),
    }
}

/// Why a search has no hits. Once its copy has ended, a searcher finds nothing any more.
fn unsearched(fault: CopySearchFault) -> ClusterFault {
    match fault {
        CopySearchFault::NoMemory => ClusterFault::NoMemory,
        CopySearchFault::Ended => ClusterFault::Copy(CopyFault::Closed),
        CopySearchFault::Stray(place) => ClusterFault::Stray(place),
    }
}

/// The reply with the hits.
#[tactic(auto, using(crate::proofs::Found::each_in_turn))]
pub(crate) fn reply_with(alloc: Global, found: Hits) -> Result<Reply, AllocError>
    ensures { IfOk result (λ r. reply_view r ≡ spec.hits_of (hits_view found)) }
{
    let Hits { total, hits } = found;
    let hits = hits_of(alloc, hits)?;
    Ok(Reply::Hits(total, hits))
}
