//! An index of one copy, as a service that answers HTTP requests.
#![tactic(auto)]

pub mod answering;
mod asked;
pub mod desk;
pub mod history;
mod ready;
pub mod shard;

pub use desk::{Desk, SharedShard};
pub use history::{Begun, HistoryName, Reached};
pub use shard::Shard;
