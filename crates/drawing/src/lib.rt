//! Draws a script, or the journals of copies, as a picture of who sent what to whom.
#![tactic(auto)]

mod entries;
mod fault;
mod merging;
mod script;
mod words;

pub use fault::DrawFault;
pub use merging::draw_journals;
pub use script::draw_script;

/// A picture has no more steps.
pub(crate) const MOST_STEPS: usize = 2_000;
