//! Readers of what a copy publishes. They take no lock and never wait.
ghost use Rattle.std.specs.Prelude.{◌≡◌, ◌++◌, true, IfOk, IfErr, IsErrOf};
ghost use Rattle.left_right.specs.Sides.{view};
ghost use Rattle.engine.specs.Shown.{hits_view};
ghost use Rattle.query.specs.View.{query_view};
ghost use Rattle.published.specs.Entry.{published_of};
ghost use Rattle.published.specs.Listings.{ComesAfter, ComesAfterAll};
ghost use Rattle.published.specs.Search.{Finds, FindsIn, IsFloor, IsFoundIn, IsNoLess};
ghost use Rattle.published.specs.Told.{listed, IsAt, IsOne, IsTold};
ghost use Rattle.published.specs.declared.searcher.SearchFault.TheVariants.{Ended};

use crate::front::Entry;
use crate::latest::Latest;
use crate::name::Name;
use crate::note::Note;
use crate::place::Place;
use crate::rule::{Known, Sees, Shows};
use core::mem::replace_with;
use engine::Hits;
use left_right::reader::Reader;
use query::{Page, Query};
use std::alloc::Global;
use std::marker::Model;
use std::sync::Arc;

/// Why a search has no hits.
#[derive(Clone, Copy, Debug, PartialEq, Eq)]
pub enum SearchFault {
    NoMemory,
    /// Nothing is published any more.
    Ended,
}

/// What a search found, and the place of the copy's journal that it was of.
#[derive(Drop)]
pub struct Found {
    pub hits: Hits,
    pub place: Place,
}

pub(crate) type Line = Reader<Latest, Known, Shows>;

/// Searches what is shown.
fn hits_in(entry: &Entry, alloc: Global, query: &Query, page: Page) -> Result<Found, SearchFault>
    ensures found { IfOk result (λ f. IsFoundIn (published_of entry.now) (query_view query.now) page (hits_view f.hits) f.place) }
    ensures refused { IfErr result (λ e. e ≡ SearchFault.NoMemory) }
{
    let _listings = entry.front.count();
    match entry.showing.snapshot.search(alloc, query, page) {
        Ok(hits) => Ok(Found {
            hits,
            place: entry.showing.place.again(),
        }),
        Err(_) => Err(SearchFault::NoMemory),
    }
}

/// Searches what was taken, or the note where that is later.
fn hits_of<N: Name>(
    taken: &Entry,
    told: &Option<Note<N>>,
    alloc: Global,
    query: &Query,
    page: Page,
) -> Result<Found, SearchFault>
    requires one { IsOne (published_of taken.now) told.now }
    ensures found { IfOk result (λ f. FindsIn (published_of taken.now) told.now (query_view query.now) page (hits_view f.hits) f.place) }
    ensures refused { IfErr result (λ e. e ≡ SearchFault.NoMemory) }
{
    match told {
        Some(note) => hits_in(note.later(taken), alloc, query, page),
        None => hits_in(taken, alloc, query, page),
    }
}

/// Searches what is published now. It is taken and left at once, so that a publish doesn't wait for a search.
fn look<N: Name>(
    reader: Line,
    told: &Option<Note<N>>,
    alloc: Global,
    query: &Query,
    page: Page,
) -> (Line, Result<Found, SearchFault>)
    requires at { IsAt N.named N.cell (view reader.place) }
    requires told { IsTold N.named N.cell told.now }
    ensures at { IsAt N.named N.cell (view result.0.place) }
    ensures found { IfOk result.1 (λ f. Finds (view reader.place ++ listed told.now) (view result.0.place ++ listed told.now) (query_view query.now) page (hits_view f.hits) f.place) }
    ensures refused { IfErr result.1 (λ _. IsNoLess (view reader.place ++ listed told.now) (view result.0.place ++ listed told.now)) }
    ensures ended { IsErrOf result.1 Ended → view result.0.place ≡ view reader.place }
{
    match reader.enter_as::<Sees>() {
        Ok(reading) => {
            let taken = Arc::try_clone(&reading.get().entry);
            let reader = reading.leave();
            match taken {
                Ok(entry) => (reader, hits_of(&*entry, told, alloc, query, page)),
                Err(_) => (reader, Err(SearchFault::NoMemory)),
            }
        }
        Err(reader) => (reader, Err(SearchFault::Ended)),
    }
}

/// The later of the note that it has, if any, and another.
fn taken_in<N: Name>(told: Option<Note<N>>, note: Note<N>) -> Note<N>
    requires named { N.named ≡ true }
    requires told { IsTold N.named N.cell told }
    ensures told { ComesAfterAll result (listed told) }
    ensures note { ComesAfter result note }
    ensures cell { result.listing.cell ≡ N.cell }
{
    note.is_named();
    match told {
        Some(told) => told.longer(note),
        None => note,
    }
}

/// Reads what a cell publishes. Contracts see it as what it knows of that: what it finds comes after it.
pub struct Searcher<N: Name> {
    reader: Line,
    told: Option<Note<N>>,
}

impl<N: Name> Drop for Searcher<N> {
    fn drop(self) {
        let Searcher {
            reader: _reader,
            told: _told,
        } = self;
    }
}

impl<N: Name> Model for Searcher<N> {
    ghost use Rattle.std.specs.Prelude.{List, ◌++◌};
    ghost use Rattle.left_right.specs.Sides.{view as known};
    ghost use Rattle.published.specs.declared.listing.Published.{Published};
    ghost use Rattle.published.specs.Told.{listed, IsAt, IsTold};

    ghost Value = { List Published };

    ghost view = { λ s. known s.reader.place ++ listed s.told };

    ghost invariant = { λ s. IsAt N.named N.cell (known s.reader.place) × IsTold N.named N.cell s.told };
}

impl<N: Name> Searcher<N> {
    /// A searcher without a note yet.
    pub(crate) fn over(reader: Line) -> Searcher<N>
        requires { IsAt N.named N.cell (view reader.place) }
        ensures { result ≡ view reader.place }
    {
        Searcher { reader, told: None }
    }

    /// Takes in a note of this cell.
    pub fn learn(&mut self, note: Note<N>)
        requires named { N.named ≡ true }
        ensures note { IsFloor note self.new }
        ensures kept { IsNoLess self.old self.new }
    {
        let told = taken_in(self.told.take(), note);
        self.told = Some(told);
    }

    /// Searches what is published now: no less than all that is known.
    pub fn search(&mut self, alloc: Global, query: &Query, page: Page) -> Result<Found, SearchFault>
        ensures found { IfOk result (λ f. Finds self.old self.new (query_view query.now) page (hits_view f.hits) f.place) }
        ensures refused { IfErr result (λ _. IsNoLess self.old self.new) }
        ensures ended { IsErrOf result Ended → self.new ≡ self.old }
    {
        let told = &self.told;
        replace_with(&mut self.reader, (), |reader, _| {
            look(reader, told, alloc, query, page)
        })
    }
}
