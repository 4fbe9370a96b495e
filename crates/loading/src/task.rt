//! What is to be loaded, and what came of it.

/// What is loaded, and where to.
#[derive(Clone, Copy)]
pub struct Load<'a> {
    /// The port of a server on this machine.
    pub port: u16,
    pub index: &'a str,
    /// The field that has the id, where each line is a document; else the lines are those of a bulk.
    pub id: Option<&'a str>,
    /// The files, in the order in which they are read; `-` is standard input.
    pub files: &'a [String],
    /// The file that refused lines are written to.
    pub refused: &'a str,
    /// Whether a bar is drawn, for standard error is a terminal.
    pub shows: bool,
}

/// What a load did.
#[derive(Clone, Copy, Debug, PartialEq, Eq)]
pub struct Loaded {
    /// How many documents the server confirmed.
    pub documents: u64,
    /// How many documents, deletes and other lines were refused.
    pub refused: u64,
}
