//! Ids as they are looked for: as keys, by bits, many at once.

pub(crate) mod id_filter;
pub(crate) mod id_key;
pub(crate) mod sought;
