//! The audit: whether what nodes were asked and answered is a run of the model.
#![tactic(auto)]

pub mod auditing;
mod equal;
pub mod fault;
mod following;
pub mod judge;
pub mod laws;
pub mod making;
pub mod merge;
mod posts;
mod ruler;
mod stage;

pub use auditing::audit;
pub use fault::AuditFault;
