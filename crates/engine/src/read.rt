//! What searches read: documents with their segments, and pages of them.

pub(crate) mod block;
pub(crate) mod documents;
pub(crate) mod last_of_each;
pub(crate) mod merging;
pub(crate) mod paging;
pub(crate) mod part;
pub(crate) mod part_list;
pub(crate) mod showing;
pub mod snapshot;
pub(crate) mod strands;
