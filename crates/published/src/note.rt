//! What a cell tells.
ghost use Rattle.std.specs.Prelude.{◌≡◌, ◌≤◌, length, MatchBool};
ghost use mathlib.Core.List.{IsPrefix};
ghost use Rattle.std.specs.Arc.{arc_value};
ghost use Rattle.published.specs.Entry.{listing_of, published_of};
ghost use Rattle.published.specs.Listings.{ComesAfter};
ghost use Rattle.published.specs.Told.{IsLatest, IsOf};

use crate::front::Entry;
use crate::name::Name;
use crate::showing::Showing;
use std::alloc::Global;
use std::marker::{Model, PhantomData};
use std::sync::Arc;

/// A list that a cell published. Contracts see it with the history of the cell up to it.
pub struct Note<N: Name> {
    entry: Arc<Entry, Global>,
    of: PhantomData<N>,
}

impl<N: Name> Drop for Note<N> {
    fn drop(self) {
        let Note {
            entry: _entry,
            of: _,
        } = self;
    }
}

impl<N: Name> Model for Note<N> {
    ghost use Rattle.std.specs.Arc.{arc_value};
    ghost use Rattle.published.specs.declared.listing.Published.{Published};
    ghost use Rattle.published.specs.Entry.{published_of};
    ghost use Rattle.published.specs.Told.{IsOf};

    ghost Value = { Published };

    ghost view = { λ n. published_of (arc_value n.entry) };

    ghost invariant = { λ n. IsOf N.named N.cell (published_of (arc_value n.entry)) };
}

impl<N: Name> Note<N> {
    pub(crate) fn of(entry: Arc<Entry, Global>) -> Note<N>
        requires { IsOf N.named N.cell (published_of (arc_value entry)) }
        ensures { result ≡ published_of (arc_value entry) }
    {
        Note {
            entry,
            of: PhantomData,
        }
    }

    /// What two notes of one cell tell is of one history: that of the one whose isn't longer begins that of the other.
    pub fn agrees(&self, other: &Note<N>)
        requires cell { other.now.listing.cell ≡ self.now.listing.cell }
        ensures { length self.now.history ≤ length other.now.history → IsPrefix self.now.history other.now.history }
    {
        self.entry.front.compare(&other.entry.front);
    }

    /// It is of the cell with its name.
    pub(crate) fn is_named(&self)
        ensures { IsOf N.named N.cell self.now }
    {
        let _ = &self.entry;
    }

    /// Of this list and one that is taken the later.
    pub(crate) fn later<'a>(&'a self, taken: &'a Entry) -> &'a Entry
        requires cell { (listing_of taken.now).cell ≡ self.now.listing.cell }
        ensures { IsLatest (published_of taken.entry.now) self.entry.now (published_of result.now) }
    {
        let told = &*self.entry;
        if is_before(taken, told) { told } else { taken }
    }

    /// Of two lists the later.
    pub(crate) fn longer(self, other: Note<N>) -> Note<N>
        requires cell { self.listing.cell ≡ other.listing.cell }
        ensures { IsLatest self other result }
    {
        if is_before(&*self.entry, &*other.entry) {
            other
        } else {
            self
        }
    }
}

/// Whether the second comes after the first; else the first comes after the second.
fn is_before(first: &Entry, second: &Entry) -> bool
    requires cell { (listing_of first.now).cell ≡ (listing_of second.now).cell }
    ensures { MatchBool result (ComesAfter (published_of second.now) (published_of first.now)) (ComesAfter (published_of first.now) (published_of second.now)) }
{
    if first.front.count() < second.front.count() {
        first.front.compare(&second.front);
        true
    } else {
        second.front.compare(&first.front);
        false
    }
}
