//! The columns of documents.
ghost use Rattle.std.specs.Prelude.{◌≡◌, ◌<◌, ◌≤◌, ◌+◌, ◌^◌, ℕ, List, length, map, IfOk};
ghost use Rattle.doc.specs.Document.{all_values};
ghost use Rattle.segment.specs.Indexed.{column_at, IsColumnOr};
ghost use Rattle.segment.specs.Joined.{behind, AreMakings};

use crate::adding::add_document;
use crate::column::Column;
use crate::finishing::finish_all;
use crate::making::Makings;
use crate::merging::read_kept;
use doc::{Mapping, Source};
use std::alloc::{AllocError, Global};
use std::collections::BTreeMap;

/// The columns of the fields that some documents have.
pub(crate) fn columns_of(
    alloc: Global,
    mapping: &Mapping,
    sources: &[Source],
) -> Result<BTreeMap<String, Box<Column>>, AllocError>
    requires { length sources.now < 2 ^ 32 }
    ensures { IfOk result (λ m. (name : List ℕ) → IsColumnOr mapping.now.fields (map (all_values mapping.now) sources.now) name (column_at m name)) }
{
    let makings = makings_of(alloc, mapping, sources, 0, sources.len())?;
    finish_all(alloc, makings, sources.len())
}

/// The columns of documents that stand after so many others, of so many in all. The documents are read one after another, and only their terms stay.
pub(crate) fn makings_of(
    alloc: Global,
    mapping: &Mapping,
    sources: &[Source],
    begin: usize,
    len: usize,
) -> Result<Makings, AllocError>
    requires few { len < 2 ^ 32 }
    requires within { begin + length sources.now ≤ len }
    ensures { IfOk result (AreMakings mapping.now.fields (behind begin (map (all_values mapping.now) sources.now)) len) }
{
    let mut makings = BTreeMap::new(alloc);
    let mut at = begin as u32;
    for source in sources {
        let doc = read_kept(alloc, mapping, source)?;
        add_document(alloc, &mut makings, mapping, doc.fields(), at, len)?;
        at += 1;
    }
    Ok(makings)
}
