//! Bytes that are kept small in memory: a list that grows at its end, whose front is packed.
#![tactic(auto)]

mod block;
mod bytes;
mod packer;

pub use bytes::PackedBytes;
