//! Work that runs beside searches: a refresh and a merge, and what each of them is made of.

pub(crate) mod changes;
pub(crate) mod choosing;
pub(crate) mod handed;
pub(crate) mod lessened;
pub mod staged;
pub mod swapping;
pub mod unshown;
