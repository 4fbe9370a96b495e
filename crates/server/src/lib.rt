//! Serves an index over HTTP on 127.0.0.1.
#![tactic(auto)]

mod admission;
mod connections;
mod ending;
mod fault;
mod founding;
mod index_name;
mod lines;
mod listening;
mod lone;
mod mapping;
mod members;
mod opening;
mod serving;
mod settings;
mod telling;

pub use cluster::Syncing;
pub use fault::ServeFault;
pub use front::{Admission, Rule};
pub use serving::serve;
pub use settings::Settings;
