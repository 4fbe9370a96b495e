//! The words that the command line of `indexd` takes, and what `--help` says of them.
#![tactic(auto)]

mod manual;
mod texts;
mod words;

pub use manual::manual_page;
pub use words::command;
