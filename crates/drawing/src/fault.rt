//! Why nothing is drawn.

use scripts::ReplayFault;
use std::alloc::{AllocError, AllocFailed};
use std::fmt::Display;
use std::{fmt, io};

/// Why a picture isn't drawn, or isn't drawn whole.
#[derive(Debug, Drop)]
pub enum DrawFault {
    Replay(ReplayFault),
    Output(io::Error),
    NoMemory,
}

impl Display for DrawFault {
    fn fmt<W: fmt::Write>(&self, f: &mut fmt::Formatter<W>) -> fmt::Result {
        match self {
            DrawFault::Replay(fault) => write!(f, "{fault}"),
            DrawFault::Output(error) => write!(f, "the picture can't be written: {error}"),
            DrawFault::NoMemory => write!(f, "out of memory"),
        }
    }
}

impl From<AllocError> for DrawFault {
    fn from(_refused: AllocError) -> DrawFault {
        DrawFault::NoMemory
    }
}

impl<T: Drop> From<AllocFailed<T>> for DrawFault {
    fn from(_refused: AllocFailed<T>) -> DrawFault {
        DrawFault::NoMemory
    }
}

impl From<io::Error> for DrawFault {
    fn from(error: io::Error) -> DrawFault {
        if error.kind() == io::ErrorKind::OutOfMemory {
            DrawFault::NoMemory
        } else {
            DrawFault::Output(error)
        }
    }
}
