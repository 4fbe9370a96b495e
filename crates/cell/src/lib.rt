//! One copy that threads share, with its journal and what it shows to searches that wait for nobody.
#![tactic(auto)]

mod cell;
pub mod following;
pub mod index;
pub mod point;
pub mod searching;

pub use cell::CopyCell;
pub use index::{IndexLabel, IndexName};
pub use point::JournalPoint;
pub use searching::{CopySearchFault, CopySearcher, FoundAt};
