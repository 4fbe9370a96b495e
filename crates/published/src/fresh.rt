//! A search that follows a note.
ghost use Rattle.std.specs.Prelude.{◌≡◌, true, IfOk};
ghost use Rattle.engine.specs.Shown.{hits_view};
ghost use Rattle.query.specs.View.{query_view};
ghost use Rattle.published.specs.Fresh.{FindsAfter};
ghost use Rattle.published.specs.Line.{line_behind};
ghost use Rattle.published.specs.Listings.{GoesOn};
ghost use Rattle.published.specs.Showing.{listing};
ghost use Rattle.published.specs.Told.{IsOf};

use crate::name::Name;
use crate::publisher::Publisher;
use crate::searcher::{Found, SearchFault};
use crate::showing::Showing;
use query::{Page, Query};
use std::alloc::Global;
use std::marker::Brand;
use std::sync::Wait;

/// A searcher that was given out before a publish finds what the publish's note says.
fn found_after<N: Name, R: Wait>(
    rt: &R,
    alloc: Global,
    publisher: &mut Publisher,
    next: Showing,
    query: &Query,
    page: Page,
) -> Result<Found, SearchFault>
    requires named { N.named ≡ true }
    requires cell { IsOf N.named N.cell publisher.old.shown }
    requires later { GoesOn (listing publisher.old.book next) publisher.old.top }
    requires next { IsOf N.named N.cell (line_behind publisher.old.book publisher.old.history (listing publisher.old.book next)).shown }
    ensures { IfOk result (λ f. FindsAfter (line_behind publisher.old.book publisher.old.history (listing publisher.old.book next)).shown (query_view query.now) page (hits_view f.hits) f.place) }
{
    let Ok(mut searcher) = publisher.searcher::<N>() else {
        return Err(SearchFault::NoMemory);
    };
    if publisher.publish(rt, alloc, next).is_err() {
        return Err(SearchFault::NoMemory);
    }
    let Ok(note) = publisher.note::<N>() else {
        return Err(SearchFault::NoMemory);
    };
    searcher.learn(note);
    searcher.search(alloc, query, page)
}

/// A searcher that was given out before a publish finds what the publish's note says, in a cell that a call names.
pub fn fresh<R: Wait>(
    rt: &R,
    alloc: Global,
    publisher: &mut Publisher,
    next: Showing,
    query: &Query,
    page: Page,
) -> Result<Found, SearchFault>
    requires cell { publisher.old.top.cell ≡ publisher.old.shown.listing.cell }
    requires later { GoesOn (listing publisher.old.book next) publisher.old.top }
    ensures { IfOk result (λ f. FindsAfter (line_behind publisher.old.book publisher.old.history (listing publisher.old.book next)).shown (query_view query.now) page (hits_view f.hits) f.place) }
{
    found_after::<Brand, R>(rt, alloc, publisher, next, query, page)
}
