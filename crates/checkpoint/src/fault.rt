//! The fault of a window.

use thiserror::Error;

/// A number is too far above the checkpoint to be remembered.
#[derive(Clone, Copy, Debug, PartialEq, Eq, Error)]
#[error("the sequence number is more than 1,024 above the checkpoint")]
pub struct BeyondWindow;
