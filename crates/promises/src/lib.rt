//! What a client of an index of one or several copies may rely on.
#![tactic(auto)]

pub mod laws;
