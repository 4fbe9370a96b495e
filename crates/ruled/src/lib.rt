//! The master with its journal, under the name of a cluster.
#![tactic(auto)]

pub mod ended;
pub mod entry;
pub mod past;
pub mod ruled;
pub mod told;

pub use ended::EndedMaster;
pub use entry::MasterEntry;
pub use past::Past;
pub use ruled::{Ruled, copied};
pub use told::{Decided, Known, Leading};
