//! What a bulk carries, and what is refused.

/// Where a line stands.
#[derive(Clone, Copy)]
pub(crate) struct Place<'a> {
    pub(crate) file: &'a str,
    pub(crate) line: u64,
}

/// A write of a bulk.
#[derive(Drop)]
pub(crate) struct Item<'a> {
    pub(crate) place: Place<'a>,
    pub(crate) id: String,
    /// Whether it writes a document, and deletes none.
    pub(crate) is_document: bool,
    /// The action line, where the file has none.
    pub(crate) action: String,
    /// The line of the file, or the two lines.
    pub(crate) lines: String,
}

/// Lines that are refused, and why.
#[derive(Drop)]
pub(crate) struct Refusal<'a> {
    pub(crate) place: Place<'a>,
    pub(crate) reason: String,
    pub(crate) lines: String,
}

impl Item<'_> {
    /// The document that it writes.
    pub(crate) fn document(&self) -> &str {
        match self.lines.split_once('\n') {
            Some((_, document)) => document,
            None => &self.lines,
        }
    }

    /// How many bytes it takes in a bulk.
    pub(crate) fn size(&self) -> usize {
        self.action
            .len()
            .saturating_add(self.lines.len())
            .saturating_add(1)
    }
}
