//! Draws a run of an index: what was asked of the master and of each copy, and the messages between them, as SVG.
#![tactic(auto)]

mod arrows;
mod cast;
mod colours;
mod layout;
mod legend;
mod marks;
mod paint;
mod run;
mod scene;
mod text;

pub use paint::draw;
pub use run::Line;
