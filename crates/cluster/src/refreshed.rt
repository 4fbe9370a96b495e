//! Copies that were refreshed.

use cell::IndexName;
use node::Receipt;
use ruled::Past;

/// The entries by which copies were refreshed that are in sync, in the order of their ids, and the primary, both as the master knows it after this past.
#[derive(Drop)]
pub struct Refreshed<J: IndexName> {
    pub entries: Vec<Receipt<J>>,
    pub primary: u32,
    pub past: Past<J>,
}
