//! What searches show.
ghost use Rattle.std.specs.Prelude.{◌≡◌, [], map, IfOk};
ghost use Rattle.query.specs.View.{query_view};
ghost use Rattle.engine.specs.Answer.{answer_of, hit};
ghost use Rattle.engine.specs.Entry.{entry_view};
ghost use Rattle.engine.specs.Shown.{hit_view, hits_view};

use crate::read::documents::Entry;
use crate::read::part_list::PartList;
use doc::{DocId, Source};
use query::{Page, Query};
use std::alloc::{AllocError, Global};
use std::marker::Model;
use std::sync::Arc;

/// What searches show. It never changes.
pub struct Snapshot {
    parts: Arc<PartList, Global>,
}

impl Drop for Snapshot {
    fn drop(self) {
        let Snapshot { parts: _parts } = self;
    }
}

impl Model for Snapshot {
    ghost use Rattle.std.specs.Arc.{arc_value};
    ghost use Rattle.engine.specs.Answer.{SnapshotData};
    ghost use Rattle.engine.specs.Parts.{shown_through};

    ghost Value = { SnapshotData };

    ghost view = { λ s. shown_through (arc_value s.parts) };
}

/// A document that a search found.
#[derive(Drop)]
pub struct Hit {
    pub id: DocId,
    pub source: Source,
}

/// What a search answers: how many documents were found in all, and those of the page in byte order of their ids.
#[derive(Drop)]
pub struct Hits {
    pub total: u64,
    pub hits: Vec<Hit>,
}

impl Snapshot {
    ghost use Rattle.std.specs.Arc.{arc_value};
    ghost use Rattle.engine.specs.Parts.{shown_through};

    /// What searches show through these parts.
    pub(crate) fn of(parts: Arc<PartList, Global>) -> Snapshot
        ensures { result ≡ shown_through (arc_value parts) }
    {
        Snapshot { parts }
    }

    /// How many segments searches look through.
    pub fn segments(&self) -> usize
        ensures { result ≡ 0 → self.now.documents ≡ [] }
    {
        self.parts.len()
    }

    /// The documents that the query means, their number and those of the page.
    pub fn search(&self, alloc: Global, query: &Query, page: Page) -> Result<Hits, AllocError>
        ensures { IfOk result (λ h. hits_view h ≡ answer_of self.now (query_view query.now) page) }
    {
        let from = page.from() as usize;
        let size = page.size() as usize;
        let share = self.parts.page(alloc, query, from, size)?;
        let hits = hits_of(alloc, &share.first)?;
        Ok(Hits {
            total: share.total,
            hits,
        })
    }
}

/// Documents with their ids and texts.
fn hits_of(alloc: Global, entries: &[Entry<'_>]) -> Result<Vec<Hit>, AllocError>
    ensures { IfOk result (λ v. map hit_view v.items ≡ map hit (map entry_view entries.entry.now)) }
{
    let mut hits = Vec::with_capacity(alloc, entries.len())?;
    for entry in entries {
        hits.push(Hit {
            id: entry.id.copy(alloc)?,
            source: entry.source.copy(alloc)?,
        })?;
    }
    Ok(hits)
}
