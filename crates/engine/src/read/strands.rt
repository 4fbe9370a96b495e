//! Where documents that have a segment stand among all.

use crate::read::block::Shown;
use crate::read::documents::Entry;
use crate::read::part::Part;
use marks::Marks;
use segment::Strand;
use std::alloc::{AllocError, Global};
use std::cmp::Ordering;

/// The segment of each part, and where its live documents stand among entries.
pub(crate) fn strands_of<'a>(
    alloc: Global,
    parts: &'a [Part],
    entries: &[Entry<'_>],
) -> Result<Vec<Strand<'a>>, AllocError> {
    let mut strands = Vec::with_capacity(alloc, parts.len())?;
    for part in parts {
        strands.push(part.strand(alloc, entries)?)?;
    }
    Ok(strands)
}

/// Where documents stand among entries that are in the same order; none for one that isn't there or isn't live.
pub(crate) fn places_among(
    alloc: Global,
    documents: &[Shown],
    live: &Marks,
    entries: &[Entry<'_>],
) -> Result<Vec<Option<u32>>, AllocError> {
    let mut places = Vec::with_capacity(alloc, documents.len())?;
    let mut from = 0;
    for at in 0..documents.len() {
        let document = &documents[at];
        from = place_from(entries, from, document);
        let is_there = is_marked(live, at) && is_at(entries, from, document);
        places.push(place_if(from, is_there))?;
    }
    Ok(places)
}

/// The place of the first entry from a place on whose id isn't below that of a document.
fn place_from(entries: &[Entry<'_>], from: usize, document: &Shown) -> usize {
    let mut at = from;
    while at < entries.len() && entries[at].id.order(document.id()) == Ordering::Less {
        at += 1;
    }
    at
}

/// Whether the entry at a place is the document.
fn is_at(entries: &[Entry<'_>], at: usize, document: &Shown) -> bool {
    at < entries.len() && entries[at].seq == document.seq()
}

fn place_if(at: usize, is_there: bool) -> Option<u32> {
    if is_there {
        u32::try_from(at).ok()
    } else {
        None
    }
}

/// Whether there is a mark at a place.
fn is_marked(marks: &Marks, at: usize) -> bool {
    match u32::try_from(at) {
        Ok(place) => at < marks.len() && marks.get(place),
        Err(_) => false,
    }
}
