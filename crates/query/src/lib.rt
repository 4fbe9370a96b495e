//! Queries: how a search body is read, and what a query means of a document.
#![tactic(auto)]

mod asked;
pub mod body;
pub mod fault;
pub mod laws;
mod leaves;
pub mod meaning;
pub mod page;
pub mod query;
pub mod reading;
mod seen;
mod shape;

pub use body::{CountBody, SearchBody};
pub use fault::QueryFault;
pub use page::Page;
pub use query::{Operator, Query};
