//! Bytes that come in and go out: the requests that stand whole in an input (RFC 9112), and writing all of a page.
#![tactic(auto)]

pub mod fault;
mod framing;
mod head;
pub mod head_fault;
pub mod laws;
pub mod number;
pub mod pieces;
mod place;
pub mod reading;
pub mod sender;
pub mod writing;

pub use fault::StreamFault;
pub use head_fault::HeadFault;
pub use number::number_of;
pub use pieces::{cut_at, text_of};
pub use place::Place;
pub use reading::{Request, Whole, is_expected, read_request};
pub use sender::Sender;
pub use writing::{write_all, write_flushed, write_whole};
