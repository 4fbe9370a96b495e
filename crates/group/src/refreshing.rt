//! Refreshes of several copies.
ghost use Rattle.std.specs.Prelude.{◌≡◌, Some, IfOk, IfSome};
ghost use Rattle.front.specs.ReplyView.{reply_view};
ghost use Rattle.group.specs.Group.{IsRefreshedAs};
ghost use Rattle.group.specs.Known.{HasRefreshed, IsAmong, IsSeenAmong, IsSeenBy};
ghost use Rattle.group.specs.Searching.{IsRefreshed};

use crate::group::Group;
use crate::known::{Known, is_ahead};
use cell::IndexName;
use cluster::{Client, ClusterFault, Refreshed};
use front::reply::Reply;
use node::{Heard, Receipt};
use replica::CopyFault;
use std::sync::Wait;
use translog::LogDevice;

impl<'a, R: Wait + Drop, D: LogDevice, J: IndexName> Group<'a, R, D, J> {
    #[tactic(auto, using(crate::proofs::Seeing::is_refreshed))]
    pub(crate) fn refresh(&self) -> Result<(Reply, Known<J>), ClusterFault>
        ensures { IfOk result (λ r. IsRefreshed self.now.known (reply_view r.0) r.1) }
    {
        let (copies, known) = refresh_copies(self.rt, self.client, &self.known)?;
        Ok((Reply::Refreshed(copies), known))
    }

    /// Refreshes the copies after a write if that is wanted, for a client that knows this, and returns what the client knows then.
    #[tactic(auto, using(crate::proofs::Seeing::is_wanted, crate::proofs::Seeing::is_unwanted))]
    pub(crate) fn refresh_where(
        &self,
        wanted: bool,
        known: Known<J>,
    ) -> Result<Known<J>, ClusterFault>
        ensures refreshed { IfOk result (IsRefreshedAs wanted known) }
        ensures heard { IfOk result (λ k. k.heard ≡ known.heard) }
    {
        if !wanted {
            return Ok(known);
        }
        let (_copies, known) = refresh_copies(self.rt, self.client, &known)?;
        Ok(known)
    }
}

/// Refreshes the copies for a client, and returns how many were refreshed, and what the client knows then.
#[tactic(auto, using(crate::proofs::Seeing::has_refreshed))]
fn refresh_copies<R: Wait + Drop, D: LogDevice, J: IndexName>(
    rt: &R,
    client: &Client<R, D, J>,
    known: &Known<J>,
) -> Result<(u64, Known<J>), ClusterFault>
    ensures refreshed { IfOk result (λ r. HasRefreshed known.now r.0 r.1) }
    ensures heard { IfOk result (λ r. r.1.heard ≡ known.now.heard) }
{
    let Refreshed {
        entries,
        primary,
        past,
    } = client.refresh(rt)?;
    if !known.is_followed_by(&past) {
        return Err(ClusterFault::Stray(0));
    }
    let seen = seen_among(known, primary, entries.as_slice())?;
    let copies = entries.len() as u64;
    Ok((copies, known.shows(Some(seen), past)))
}

/// What a client has seen of the primary after these refreshes. If the primary isn't among them, searches show what they showed, and the result is an error.
#[tactic(auto, using(crate::proofs::Seeing::seen_among))]
fn seen_among<J: IndexName>(
    known: &Known<J>,
    primary: u32,
    entries: &[Receipt<J>],
) -> Result<Heard<J>, ClusterFault>
    ensures { IfOk result (λ h. IsSeenAmong known.now.heard known.now.seen primary entries.now (Some h)) }
{
    match entry_of(entries, primary) {
        Some(entry) => seen_by(known, entry),
        None => Err(ClusterFault::Copy(CopyFault::Closed)),
    }
}

/// What a client sees of a copy by the copy's refresh. The refresh stands after all that the client knows of the copy, since it came later.
fn seen_by<J: IndexName>(known: &Known<J>, entry: &Receipt<J>) -> Result<Heard<J>, ClusterFault>
    ensures { IfOk result (λ h. IsSeenBy known.now.heard known.now.seen entry.now (Some h)) }
{
    if !is_ahead(known.heard(), entry) || !is_ahead(known.seen(), entry) {
        return Err(ClusterFault::Stray(entry.place()));
    }
    Ok(Heard::by(entry))
}

/// The entry of a copy, if it is among these.
fn entry_of<J: IndexName>(entries: &[Receipt<J>], copy: u32) -> Option<&Receipt<J>>
    ensures among { IfSome result (λ r. IsAmong entries.now r.now) }
    ensures copy { IfSome result (λ r. r.now.node ≡ copy) }
{
    for place in 0..entries.len() {
        if let Some(entry) = entries.get(place) {
            if entry.node() == copy {
                return Some(entry);
            }
        }
    }
    None
}
