//! What a service says of itself.

/// How a copy stands. A checkpoint is a number, or -1 where there is none.
#[derive(Clone, Copy, Debug)]
pub struct CopyStats {
    pub copy: u32,
    pub is_primary: bool,
    pub is_in_sync: bool,
    pub is_open: bool,
    pub term: u64,
    /// The greatest number of an operation, or -1.
    pub greatest: i64,
    /// The local checkpoint.
    pub local: i64,
    /// The global checkpoint.
    pub global: i64,
    /// How many records searches show.
    pub refreshed: u64,
    /// How many segments a search looks through.
    pub segments: u64,
}

/// How an index stands.
#[derive(Drop)]
pub struct Stats {
    /// How many documents searches find; `None` while no copy leads.
    pub documents: Option<u64>,
    /// How many copies the index is to have.
    pub copies: u32,
    /// The copies that are served.
    pub served: Vec<CopyStats>,
}
