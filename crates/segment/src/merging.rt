//! Segments of documents that other segments have.
ghost use Rattle.std.specs.Prelude.{◌≡◌, ◌++◌, [], ◌∷◌, if◌then◌else◌, All, length, map, IfOk, OnOk};
ghost use Rattle.std.specs.Arc.{arc_value};
ghost use Rattle.segment.specs.Merged.{chosen, live_sources, read_under, segment_in};

use crate::segment::Segment;
use doc::{Doc, DocFault, Mapping, Source};
use marks::Marks;
use std::alloc::{AllocError, Global};
use std::sync::Arc;

/// No segment has as many documents.
const MAX_DOCUMENTS: usize = 4_294_967_296;

/// A segment with a mark for each document that is live.
#[derive(Drop)]
pub struct LiveSegment {
    pub segment: Arc<Segment, Global>,
    pub live: Marks,
}

/// The segment of the live documents, read under the mapping: those of the first segment in their order, then those of the next.
/// Of 2^32 or more there is none.
pub fn merge(
    alloc: Global,
    mapping: &Arc<Mapping, Global>,
    parts: &[LiveSegment],
) -> Result<Segment, AllocError>
    requires { All (λ p. length p.live ≡ length (segment_in p).sources) parts.now }
    ensures { IfOk result (λ s. s ≡ record { mapping = arc_value mapping.now; sources = live_sources parts.now }) }
{
    let mut sources = Vec::new(alloc);
    for part in parts {
        copy_live(alloc, &part.segment, &part.live, &mut sources)?;
    }
    if sources.len() >= MAX_DOCUMENTS {
        return Err(AllocError);
    }
    let segment = Segment::build(alloc, mapping, sources)?;
    Ok(segment)
}

/// Adds the live documents of a segment to others.
fn copy_live(
    alloc: Global,
    segment: &Segment,
    live: &Marks,
    sources: &mut Vec<Source>,
) -> Result<(), AllocError>
    requires { length live.now ≡ length segment.now.sources }
    ensures { OnOk result (sources.new.items ≡ sources.old.items ++ chosen segment.now.sources live.now) }
{
    let _few = segment.len();
    let mut at = 0u32;
    for source in segment.sources() {
        copy_if(alloc, source, live.get(at), sources)?;
        at += 1;
    }
    Ok(())
}

/// Adds a document that is wanted to others.
fn copy_if(
    alloc: Global,
    source: &Source,
    wanted: bool,
    sources: &mut Vec<Source>,
) -> Result<(), AllocError>
    ensures { OnOk result (sources.new.items ≡ sources.old.items ++ (if wanted then source.now ∷ [] else [])) }
{
    if wanted {
        sources.push(source.copy(alloc)?)?;
    }
    Ok(())
}

/// The document of a text that is kept: with its values where it fits the mapping, and else without.
pub fn read_kept(alloc: Global, mapping: &Mapping, source: &Source) -> Result<Doc, AllocError>
    ensures { IfOk result (λ d. d ≡ read_under mapping.now source.now) }
{
    match Doc::read(alloc, mapping, source.as_str().as_bytes()) {
        Ok(doc) => Ok(doc),
        Err(DocFault::NoMemory) => Err(AllocError),
        Err(_) => Doc::bare(alloc, mapping, source),
    }
}
