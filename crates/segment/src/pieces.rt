//! The columns of documents, piece by piece on all processors.
ghost use Rattle.std.specs.Prelude.{◌≡◌, ◌<◌, ◌*◌, ◌^◌, ℕ, List, drop, length, map, take, IfOk};
ghost use Rattle.doc.specs.Document.{all_values};
ghost use Rattle.segment.specs.Indexed.{column_at, IsColumnOr};
ghost use Rattle.segment.specs.Joined.{behind, AreMakings};

use crate::building::makings_of;
use crate::column::Column;
use crate::finishing::list_all;
use crate::halving::finish_halves;
use crate::joining::join;
use crate::making::Makings;
use crate::rooms::rooms_of;
use doc::{Mapping, Source};
use rayon::prelude::*;
use std::alloc::{AllocError, Global};
use std::collections::BTreeMap;
use std::thread::Threads;

/// So many pieces keep the processors of most machines at work.
const MOST_PIECES: usize = 4;

/// So many pieces leave processors to commands and searches.
const FEW_PIECES: usize = 2;

/// So many documents are a start's, or come faster than few pieces build them.
const MANY_DOCUMENTS: usize = 131_072;

/// Columns are finished in up to two parts: each has room of its own for what it puts together.
const HALVINGS: u32 = 1;

/// A piece of fewer documents isn't worth a thread.
const LEAST_PIECE: usize = 4096;

/// The columns of the fields that some documents have.
pub(crate) fn columns_of<R: Threads + Sync>(
    rt: &R,
    alloc: Global,
    mapping: &Mapping,
    sources: &[Source],
) -> Result<BTreeMap<String, Box<Column>>, AllocError>
    requires { length sources.now < 2 ^ 32 }
    ensures { IfOk result (λ m. (name : List ℕ) → IsColumnOr mapping.now.fields (map (all_values mapping.now) sources.now) name (column_at m name)) }
{
    let len = sources.len();
    let size = piece_size(len);
    let pieces = (0..len.div_ceil(size))
        .into_par_iter()
        .with_min_len(1)
        .map(
            |n: usize| -> Result<Makings, AllocError>
                requires few { length sources.now < 2 ^ 32 }
                requires some { 0 < size }
                requires within { n * size < length sources.now }
                ensures { IfOk result (AreMakings mapping.entry.now.fields (behind (n * size) (map (all_values mapping.entry.now) (take size (drop (n * size) sources.entry.now)))) (length sources.entry.now)) }
            { piece_of(alloc, mapping, sources, n * size, size) },
        )
        .collect::<Vec<_>>(rt, alloc)?;
    let rooms = rooms_of(alloc, &pieces)?;
    let mut makings = BTreeMap::new(alloc);
    for piece in pieces {
        join(alloc, &mut makings, piece?, &rooms, len)?;
    }
    finish_halves(rt, alloc, makings, len, HALVINGS)
}

/// How many documents of so many a piece has.
fn piece_size(len: usize) -> usize
    ensures { 0 < result }
{
    if len < MANY_DOCUMENTS {
        return (len / FEW_PIECES + 1).max(LEAST_PIECE);
    }
    (len / MOST_PIECES + 1).max(LEAST_PIECE)
}

/// The columns of a piece. Where it isn't all, their texts are listed, to be put after those of the pieces before it.
fn piece_of(
    alloc: Global,
    mapping: &Mapping,
    sources: &[Source],
    begin: usize,
    size: usize,
) -> Result<Makings, AllocError>
    requires few { length sources.now < 2 ^ 32 }
    requires within { begin < length sources.now }
    ensures { IfOk result (AreMakings mapping.now.fields (behind begin (map (all_values mapping.now) (take size (drop begin sources.now)))) (length sources.now)) }
{
    let len = sources.len();
    let rest = &sources[begin..];
    let piece = &rest[..size.min(rest.len())];
    let makings = makings_of(alloc, mapping, piece, begin, len)?;
    if piece.len() == len {
        return Ok(makings);
    }
    list_all(alloc, makings)
}
