//! Segments: documents by the terms of their fields.
#![tactic(auto)]

mod adding;
pub mod blocks;
mod building;
pub mod column;
mod finishing;
mod grouping;
mod halving;
mod joining;
mod limits;
mod listing;
mod longs;
mod making;
pub mod merging;
mod moving;
mod pieces;
pub mod places;
mod posting;
mod rooms;
pub mod segment;
mod spans;
mod term;
mod texts;
pub mod weaving;

pub use column::Column;
pub use merging::{LiveSegment, merge, read_kept};
pub use segment::Segment;
pub use weaving::Strand;
