//! One list that several writers append to, each by a right that nobody else has, with tokens of what stands where; and ledgers that are registered under numbers.
#![tactic(auto)]

mod beginning;
mod chronicle;
mod entries;
mod law;
mod ledger;
mod mark;
mod name;
mod named;
mod prefix;
mod registered;
mod registry;
mod seat;
mod upto;
mod writer;

pub use beginning::Beginning;
pub use chronicle::Chronicle;
pub use entries::Entries;
pub use law::{Means, Same};
pub use ledger::Ledger;
pub use mark::Mark;
pub use name::RegistryName;
pub use named::{Blank, NamedLedger};
pub use prefix::Prefix;
pub use registered::Registered;
pub use registry::{Ledgers, LineName, Numbered, Registry, Unnamed};
pub use upto::Upto;
pub use writer::Writer;
