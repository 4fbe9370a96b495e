//! The journals of an index, and their text.
#![tactic(auto)]

pub mod heading;
pub mod reading;
pub mod writing;

pub use heading::{HeadFault, copies_of, opening_of};
pub use reading::{JournalFault, read};
pub use writing::entries::{copy_answer_value, entry_value, master_answer_value};
pub use writing::write;
