//! Searches of what a copy of a cluster shows.
ghost use Rattle.std.specs.Prelude.{◌≡◌, IfErr, IfOk};
ghost use Rattle.engine.specs.Shown.{hits_view};
ghost use Rattle.query.specs.View.{query_view};
ghost use Rattle.published.specs.Search.{IsNoLess};
ghost use Rattle.cell.specs.Points.{place_in, searcher_of, FindsUnder, LeadsTo};

use crate::index::IndexName;
use crate::point::JournalPoint;
use chronicle::RegistryName;
use engine::Hits;
use published::{Found, SearchFault, Searcher, Unnamed};
use query::{Page, Query};
use std::alloc::Global;
use std::marker::{Model, PhantomData};

/// What a search found, and the place of the copy's journal that it was of.
#[derive(Drop)]
pub struct FoundAt<J: RegistryName> {
    pub hits: Hits,
    pub point: JournalPoint<J>,
}

/// Why a search of a copy has no hits.
#[derive(Clone, Copy, Debug, PartialEq, Eq)]
pub enum CopySearchFault {
    NoMemory,
    /// The copy has ended.
    Ended,
    /// What was found is of another copy, after this many entries of its journal. That is never met.
    Stray(u64),
}

impl From<SearchFault> for CopySearchFault {
    fn from(fault: SearchFault) -> CopySearchFault {
        match fault {
            SearchFault::NoMemory => CopySearchFault::NoMemory,
            SearchFault::Ended => CopySearchFault::Ended,
        }
    }
}

/// Searches what a copy of a cluster shows. Contracts see the copy's number, and what it knows of what that shows.
pub struct CopySearcher<J: IndexName> {
    node: u32,
    searcher: Searcher<Unnamed>,
    of: PhantomData<J>,
}

impl<J: IndexName> Drop for CopySearcher<J> {
    fn drop(self) {
        let CopySearcher {
            node: _,
            searcher: _searcher,
            of: _,
        } = self;
    }
}

impl<J: IndexName> Model for CopySearcher<J> {
    ghost use Rattle.cell.specs.Points.{searcher_of, LeadsTo, SearcherData};

    ghost Value = { SearcherData };

    ghost view = { λ s. searcher_of s.node s.searcher };

    ghost invariant = { λ s. LeadsTo J.registry J.index.mapping s.searcher };
}

impl<J: IndexName> CopySearcher<J> {
    pub(crate) fn of(node: u32, searcher: Searcher<Unnamed>) -> CopySearcher<J>
        requires { LeadsTo J.registry J.index.mapping searcher }
        ensures { result ≡ searcher_of node searcher }
    {
        CopySearcher {
            node,
            searcher,
            of: PhantomData,
        }
    }

    /// The number of the copy.
    pub fn node(&self) -> u32
        ensures { result ≡ self.now.node }
    {
        self.node
    }

    /// Searches what the copy shows now: no less than all that is known. Where the copy has ended there is nothing any more.
    #[tactic(auto, using(crate::proofs::Pointing::finds_no_less))]
    pub fn search(
        &mut self,
        alloc: Global,
        query: &Query,
        page: Page,
    ) -> Result<FoundAt<J>, CopySearchFault>
        ensures found { IfOk result (λ f. FindsUnder J.index.mapping self.old.known self.new.known (query_view query.now) page (hits_view f.hits) (place_in J.registry f.point)) }
        ensures copy { IfOk result (λ f. f.point.node ≡ self.old.node) }
        ensures same { self.new.node ≡ self.old.node }
        ensures refused { IfErr result (λ _. IsNoLess self.old.known self.new.known) }
    {
        match self.find(alloc, query, page) {
            Ok(found) => if found.point.node() == self.node {
                Ok(found)
            } else {
                Err(CopySearchFault::Stray(found.point.entries()))
            },
            Err(fault) => Err(CopySearchFault::from(fault)),
        }
    }

    /// What it finds, of whichever copy.
    fn find(&mut self, alloc: Global, query: &Query, page: Page) -> Result<FoundAt<J>, SearchFault>
        ensures found { IfOk result (λ f. FindsUnder J.index.mapping self.old.known self.new.known (query_view query.now) page (hits_view f.hits) (place_in J.registry f.point)) }
        ensures same { self.new.node ≡ self.old.node }
        ensures refused { IfErr result (λ _. IsNoLess self.old.known self.new.known) }
    {
        let found = self.searcher.search(alloc, query, page)?;
        let Found { hits, place } = found;
        let point = JournalPoint::of(place);
        Ok(FoundAt { hits, point })
    }
}
