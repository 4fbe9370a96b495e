//! What a copy has: its records, and their operations by number and by id.

pub mod ahead;
pub(crate) mod history;
pub(crate) mod latest;
pub mod listed;
pub(crate) mod operation_index;
pub(crate) mod ordered;
pub(crate) mod slot;
pub(crate) mod slots;
