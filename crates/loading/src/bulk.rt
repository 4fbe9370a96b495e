//! Writes that are sent together.

use crate::item::Item;
use std::alloc::{AllocError, Global};
use std::collections::HashSet;

/// How many bytes a bulk has; the server takes 1,048,576 as a body.
const MOST_BYTES: usize = 1_000_000;

/// How many items a bulk has, which the server writes in one command.
const MOST_ITEMS: usize = 1_000;

/// Items in the order of their lines.
#[derive(Drop)]
pub(crate) struct Bulk<'a> {
    items: Vec<Item<'a>>,
    ids: HashSet<String>,
    bytes: usize,
    /// How often the server had no room for them.
    pub(crate) tries: u64,
}

impl<'a> Bulk<'a> {
    pub(crate) fn new(alloc: Global, tries: u64) -> Bulk<'a> {
        Bulk {
            items: Vec::new(alloc),
            ids: HashSet::new(alloc),
            bytes: 0,
            tries,
        }
    }

    pub(crate) fn is_empty(&self) -> bool {
        self.items.is_empty()
    }

    pub(crate) fn len(&self) -> usize {
        self.items.len()
    }

    pub(crate) fn has_room(&self, item: &Item<'a>) -> bool {
        self.items.len() < MOST_ITEMS && self.bytes.saturating_add(item.size()) <= MOST_BYTES
    }

    pub(crate) fn push(&mut self, item: Item<'a>) -> Result<(), AllocError> {
        self.ids.insert(item.id.clone()?)?;
        self.bytes = self.bytes.saturating_add(item.size());
        self.items.push(item)?;
        Ok(())
    }

    /// Whether both write some document. Else it is all the same which of them is done first.
    pub(crate) fn meets(&self, other: &Bulk<'a>) -> bool {
        !self.ids.is_disjoint(&other.ids)
    }

    /// The body of its request.
    pub(crate) fn body(&self, alloc: Global) -> Result<Vec<u8>, AllocError> {
        let mut body = Vec::with_capacity(alloc, self.bytes)?;
        for item in &self.items {
            body.extend_from_slice(item.action.as_bytes())?;
            body.extend_from_slice(item.lines.as_bytes())?;
            body.push(b'\n')?;
        }
        Ok(body)
    }

    pub(crate) fn into_items(self) -> Vec<Item<'a>> {
        self.items
    }

    /// Its items as a bulk that is tried once more.
    pub(crate) fn once_more(self, alloc: Global) -> Result<Bulk<'a>, AllocError> {
        let tries = self.tries;
        let mut again = Bulk::new(alloc, tries.saturating_add(1));
        for item in self.items.into_iter() {
            again.push(item)?;
        }
        Ok(again)
    }

    /// Its first half and the rest.
    pub(crate) fn halves(self, alloc: Global) -> Result<(Bulk<'a>, Bulk<'a>), AllocError> {
        let half = self.items.len() / 2;
        let mut first = Bulk::new(alloc, self.tries);
        let mut rest = Bulk::new(alloc, self.tries);
        for (at, item) in self.items.into_iter().enumerate() {
            if at < half {
                first.push(item)?;
            } else {
                rest.push(item)?;
            }
        }
        Ok((first, rest))
    }
}
