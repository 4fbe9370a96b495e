//! What the master tells, each with its past.

use crate::past::Past;
use chronicle::RegistryName;
use master::{Decision, State};

/// A decision, whose entry is the last of these.
#[derive(Drop)]
pub struct Decided<J: RegistryName> {
    pub decision: Decision,
    pub past: Past<J>,
}

/// What the master knows after these entries.
#[derive(Drop)]
pub struct Known<J: RegistryName> {
    pub state: State,
    pub past: Past<J>,
}

/// The copy that is the primary after these entries.
#[derive(Drop)]
pub struct Leading<J: RegistryName> {
    pub primary: u32,
    pub past: Past<J>,
}
