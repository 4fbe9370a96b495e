//! Plays scripts: each line is a command over a world in memory, and the answer is a line or more.
#![tactic(auto)]

mod command;
mod explaining;
mod fault;
mod ids;
mod index;
mod names;
mod playing;
mod refusal;
mod reply;
mod step;
mod telling;
mod writing;

pub use fault::ReplayFault;
pub use index::Index;
pub use names::shown;
pub use playing::{replay, replay_telling};
pub use refusal::Refusal;
pub use reply::{answered, decided, delivered, refused};
pub use telling::{Listener, Teller, Wanted};
pub use writing::Flushing;
