//! The HTTP front of a service of one index: what a request asks, and the page of its reply.
#![tactic(auto)]

pub mod admission;
mod asking;
mod bulk;
mod bulk_reasons;
pub mod command;
pub mod explaining;
mod greeting;
mod hits;
mod json_text;
pub mod laws;
mod lines;
mod page;
mod parameters;
pub mod pieces;
mod refusing;
pub mod reply;
mod report;
mod request_fault;
pub mod rule;
pub mod sending;
pub mod service;
mod serving;
pub mod stats;
mod target;

pub use admission::Admission;
pub use command::Command;
pub use explaining::reasons_of;
pub use pieces::Page;
pub use reply::Reply;
pub use rule::{Rule, answer_by};
pub use sending::Unsent;
pub use service::{Resumable, Service};
pub use serving::{answer, serve_stream};
pub use stats::{CopyStats, Stats};
pub use wire::StreamFault;
