//! Which sequence numbers a copy has: a window of bits above a checkpoint. Numbers near one another: a span of bits.
#![tactic(auto)]

mod blocks;
mod fault;
mod span;
mod tracker;
mod window;

pub use fault::BeyondWindow;
pub use span::Span;
pub use tracker::{Tracker, WINDOW, least};
