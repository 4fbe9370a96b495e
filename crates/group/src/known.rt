//! What a client knows of the copies of an index.
ghost use Rattle.std.specs.Prelude.{◌≡◌, ◌<◌, [], length, None, Some, IfSome, IsFalse, IsSomeAnd, IsTrue};
ghost use Rattle.node.specs.Heard.{HasEntry, IsAheadOf, IsEarlier, IsNotBefore};
ghost use Rattle.cell.specs.Points.{IsShownBehind};
ghost use Rattle.group.specs.Known.{heard_by, known, seen_at};
ghost use mathlib.Core.List.{IsPrefix};

use cell::{IndexName, JournalPoint};
use node::{Got, Heard, Receipt};
use ruled::Past;
use std::marker::Model;

/// What a client knows: the first entries of the journal of the copy that it heard of last, of the journal of the copy that it saw last by a refresh or a
/// search, and of the master's journal. Contracts see all three.
pub struct Known<J: IndexName> {
    heard: Option<Heard<J>>,
    seen: Option<Heard<J>>,
    past: Option<Past<J>>,
}

impl<J: IndexName> Drop for Known<J> {
    fn drop(self) {
        let Known {
            heard: _heard,
            seen: _seen,
            past: _past,
        } = self;
    }
}

impl<J: IndexName> Model for Known<J> {
    ghost use Rattle.group.specs.Known.{known, past_in, KnownData};

    ghost Value = { KnownData };

    ghost view = { λ k. known k.heard k.seen (past_in k.past) };
}

impl<J: IndexName> Known<J> {
    /// What a client knows before its first reply.
    pub fn nothing() -> Known<J>
        ensures { result ≡ known None None [] }
    {
        Known {
            heard: None,
            seen: None,
            past: None,
        }
    }

    /// A duplicate.
    pub(crate) fn again(&self) -> Known<J>
        ensures { result ≡ self.now }
    {
        Known {
            heard: again(&self.heard),
            seen: again(&self.seen),
            past: past_again(&self.past),
        }
    }

    /// What the client heard of a copy.
    pub(crate) fn heard(&self) -> &Option<Heard<J>>
        ensures { result.now ≡ self.now.heard }
    {
        &self.heard
    }

    /// What the client saw of a copy.
    pub(crate) fn seen(&self) -> &Option<Heard<J>>
        ensures { result.now ≡ self.now.seen }
    {
        &self.seen
    }

    /// What the client knows after it has also heard this.
    pub(crate) fn hears(&self, heard: Heard<J>) -> Known<J>
        ensures { result ≡ known (Some heard) self.now.seen self.now.past }
    {
        Known {
            heard: Some(heard),
            seen: again(&self.seen),
            past: past_again(&self.past),
        }
    }

    /// What the client knows after it has also read this from a copy, whose journal had these entries then.
    pub(crate) fn gets(&self, got: &Got<J>) -> Known<J>
        ensures { result ≡ known (heard_by self.now.heard got.now.node got.now.deeds) self.now.seen self.now.past }
    {
        match got.heard() {
            Some(heard) => self.hears(heard),
            None => self.again(),
        }
    }

    /// What the client knows after it has seen what a copy shows after these entries, when the master had this past.
    pub(crate) fn shows(&self, seen: Option<Heard<J>>, past: Past<J>) -> Known<J>
        ensures { result ≡ known self.now.heard seen past }
    {
        Known {
            heard: again(&self.heard),
            seen,
            past: Some(past),
        }
    }

    /// What the client knows after a search saw what a copy has at a place of its journal, when the master had this past.
    pub(crate) fn sees(&self, point: &JournalPoint<J>, past: Past<J>) -> Known<J>
        ensures { result ≡ seen_at self.now point.now past }
    {
        match point.heard() {
            Some(seen) => self.shows(Some(seen), past),
            None => self.shows(again(&self.seen), past),
        }
    }

    /// What the client knows after it has learned this past of the master.
    pub(crate) fn follows(&self, past: Past<J>) -> Known<J>
        ensures { result ≡ known self.now.heard self.now.seen past }
    {
        self.shows(again(&self.seen), past)
    }

    /// Whether a past of the master extends what the client knows of it.
    pub(crate) fn is_followed_by(&self, past: &Past<J>) -> bool
        ensures behind { IsTrue result → IsPrefix self.now.past past.now }
        ensures fewer { IsFalse result → length past.now < length self.now.past }
    {
        match &self.past {
            Some(known) => known.is_within(past),
            None => true,
        }
    }

    /// Whether what was read is of another copy, or the copy's journal then had all entries that the client heard of.
    pub(crate) fn is_in(&self, got: &Got<J>) -> bool
        ensures later { IsTrue result → IfSome self.now.heard (λ h. IsNotBefore h got.now) }
        ensures earlier { IsFalse result → IsSomeAnd self.now.heard (λ h. IsEarlier h got.now.node got.now.deeds) }
    {
        match &self.heard {
            Some(heard) => heard.is_in(got),
            None => true,
        }
    }

    /// Whether a place is in another copy's journal, or after all that the client saw.
    pub(crate) fn is_shown_by(&self, point: &JournalPoint<J>) -> bool
        ensures behind { IsTrue result → IfSome self.now.seen (λ h. IsShownBehind h point.now) }
        ensures earlier { IsFalse result → IsSomeAnd self.now.seen (λ h. IsEarlier h point.now.node point.now.deeds) }
    {
        match &self.seen {
            Some(seen) => point.is_behind(seen),
            None => true,
        }
    }
}

/// A duplicate of entries that the client knows.
fn again<J: IndexName>(told: &Option<Heard<J>>) -> Option<Heard<J>>
    ensures { result ≡ told.now }
{
    match told {
        Some(told) => Some(told.again()),
        None => None,
    }
}

/// A duplicate of a past of the master.
fn past_again<J: IndexName>(past: &Option<Past<J>>) -> Option<Past<J>>
    ensures { result ≡ past.now }
{
    match past {
        Some(past) => Some(past.again()),
        None => None,
    }
}

/// Whether an entry is of another copy, or stands after all that the client knows.
pub(crate) fn is_ahead<J: IndexName>(told: &Option<Heard<J>>, receipt: &Receipt<J>) -> bool
    ensures ahead { IsTrue result → IfSome told.now (λ h. IsAheadOf h receipt.now) }
    ensures among { IsFalse result → IsSomeAnd told.now (λ h. HasEntry h receipt.now) }
{
    match told {
        Some(told) => told.is_before(receipt),
        None => true,
    }
}
