//! Loading files of documents into an index, over the port of its server.
#![tactic(auto)]

mod action;
mod bar;
mod bulk;
mod connection;
mod fault;
mod item;
mod lines;
mod page;
mod refusals;
mod reply;
mod run;
mod sender;
mod source;
mod task;

pub use fault::{Broken, LoadFault};
pub use run::{Ended, Opened, load, open};
pub use task::{Load, Loaded};
