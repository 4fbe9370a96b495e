//! One copy that threads share, with its journal.
#![tactic(auto)]

mod acting;
pub mod began;
pub mod ended;
pub mod fault;
pub mod gathering;
pub mod got;
pub mod heard;
pub mod held;
pub mod on_disk;
pub mod pass;
mod reading;
pub mod receipt;
mod standing;
mod syncing;
mod telling;

pub use began::Began;
pub use ended::EndedCopy;
pub use fault::NodeFault;
pub use gathering::{Stray, gathered, stands_in};
pub use got::Got;
pub use heard::Heard;
pub use held::Held;
pub use on_disk::OnDisk;
pub use pass::Pass;
pub use receipt::Receipt;
