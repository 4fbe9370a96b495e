//! Copies that run concurrently, each on a thread of its own, and the master that says who leads.
#![tactic(auto)]

mod backlog;
mod bench;
mod bulk;
mod channels;
mod checks;
pub mod client;
pub mod cluster;
pub mod confirmed;
mod crew;
pub mod devices;
mod durable;
mod fate;
pub mod fault;
pub mod gate;
pub mod gave;
pub mod handing;
mod left;
mod locks;
mod mending;
mod merging;
pub mod opening;
mod outbox;
mod own;
mod post;
mod ready;
pub mod refreshed;
mod releasing;
mod routes;
mod shared;
mod turns;
mod waits;
mod worker;

pub use client::Client;
pub use cluster::Cluster;
pub use confirmed::{Confirmed, ConfirmedBulk};
pub use devices::{Devices, InFolder, InMemory, Syncing};
pub use fault::{ClusterFault, OpenFault, ShortLog, Unopened, WriteFault};
pub use gate::{Gate, Open};
pub use gave::{Gave, Given};
pub use handing::HandedOut;
pub use opening::Journals;
pub use refreshed::Refreshed;
