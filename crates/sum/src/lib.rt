//! CRC-32C (Castagnoli): sums by which changed bytes are told.
#![tactic(auto)]

pub mod laws;
mod running;
mod table;

pub use running::Running;
pub use table::Table;
