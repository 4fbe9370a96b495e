//! The documents of one copy: its records, what they make, and what searches show.
#![tactic(auto)]

pub mod engine;
mod ids;
pub mod job;
pub mod operations;
pub mod read;

pub use engine::{Engine, Last};
pub use job::staged::{SnapshotChange, Staged};
pub use job::swapping::{Merged, Merging};
pub use job::unshown::{Prebuilt, Unshown};
pub use operations::ahead::Ahead;
pub use operations::history::{Applied, Found};
pub use operations::listed::Listed;
pub use operations::slot::LetGo;
pub use read::snapshot::{Hit, Hits, Snapshot};
