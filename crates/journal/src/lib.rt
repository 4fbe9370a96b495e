//! What nodes were asked and what they answered: which answers may stand in a journal, and what the node did.
#![tactic(auto)]

pub mod journal;
pub mod moves;
pub mod opening;

pub use journal::{Deed, Deeds, Journal, Ruling, Rulings};
pub use moves::{Move, Part, Placed};
pub use opening::Opening;
