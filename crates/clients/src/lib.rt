//! Many connections to one service, served by a few threads.
#![tactic(auto)]

mod budget;
mod clients;
mod connection;
pub mod conversation;
mod kinds;
pub mod laws;
mod limits;
mod noting;
mod poller;
mod progress;
mod table;
mod watcher;

pub use clients::Clients;
pub use conversation::Conversation;
pub use limits::{Limits, MOST_THREADS};
pub use watcher::{NoWatcher, Watcher};
