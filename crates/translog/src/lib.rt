//! Logs on a device: frames after a header, and the translog, whose frames are records.
#![tactic(auto)]

pub mod device;
pub mod fault;
pub mod file;
pub mod frames;
pub mod laws;
pub mod log;
pub mod memory;
mod pieces;
pub mod refused;
mod stretches;
pub mod synced;

pub use device::{DeviceFault, Failed, LogDevice};
pub use fault::LogFault;
pub use file::FileDevice;
pub use frames::{Frame, Frames, Torn};
pub use log::Translog;
pub use memory::MemDevice;
pub use refused::Refused;
pub use synced::Synced;
