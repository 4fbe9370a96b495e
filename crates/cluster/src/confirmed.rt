//! Writes and bulks that are confirmed.

use cell::IndexName;
use node::Receipt;

/// The entry of a write, and an entry of its copy that acknowledges it.
#[derive(Drop)]
pub struct Confirmed<J: IndexName> {
    pub write: Receipt<J>,
    pub acknowledgement: Receipt<J>,
}

/// The entry of a bulk, and the entries of its copy that acknowledge its writes, each once. For each item of its answer there is the place of an entry:
/// where the write was kept that one acknowledges it, else the place says nothing.
#[derive(Drop)]
pub struct ConfirmedBulk<J: IndexName> {
    pub bulk: Receipt<J>,
    pub acknowledgements: Vec<Receipt<J>>,
    pub places: Vec<usize>,
}
