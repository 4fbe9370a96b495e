//! The documents of a segment that a query means.
#![tactic(auto)]

mod counts;
pub mod finding;
mod known;
mod posted;
pub mod selecting;
pub mod whole;

pub use finding::{FoundPlaces, find};
pub use selecting::select;
pub use whole::find_all;
