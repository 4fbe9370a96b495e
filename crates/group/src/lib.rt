//! An index of several copies, as a service that answers HTTP requests. Each copy has a thread of its own.
#![tactic(auto)]

mod bulks;
pub mod group;
pub mod known;
mod promoting;
mod refreshing;
pub mod searching;

pub use group::Group;
pub use known::Known;
pub use searching::Chair;
