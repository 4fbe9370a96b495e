//! Why files aren't loaded, or not to their end.

use std::alloc::{AllocError, AllocFailed};
use std::io;
use thiserror::Error;

/// A fault that ends a load. `confirmed` is how many documents the server had confirmed by then.
#[derive(Debug, Drop, Error)]
pub enum LoadFault {
    /// A file, and why it can't be opened.
    #[error("{0} can't be opened: {1}")]
    Open(String, io::Error),
    #[error("{file} can't be read after line {line}: {error}; {confirmed} documents were confirmed before")]
    Read {
        file: String,
        line: u64,
        error: io::Error,
        confirmed: u64,
    },
    /// The file of an earlier load.
    #[error("{0} is there already, and may have what an earlier load refused: move it away, or name another file by --refused")]
    Taken(String),
    /// The file of the refused lines, and why it can't be written.
    #[error("{0}, which refused lines are written to: {1}")]
    Refused(String, io::Error),
    #[error("no connection to 127.0.0.1:{0}: {1}")]
    NoServer(u16, Broken),
    #[error("the load over 127.0.0.1:{port} broke off: {why}; {confirmed} documents were confirmed before")]
    Lost {
        port: u16,
        why: Broken,
        confirmed: u64,
    },
    #[error("127.0.0.1:{port} answered {status} ({reason}); {confirmed} documents were confirmed before")]
    Answered {
        port: u16,
        status: u64,
        reason: String,
        confirmed: u64,
    },
    #[error("out of memory")]
    NoMemory,
}

/// Why a connection is of no use any more.
#[derive(Debug, Drop, Error)]
pub enum Broken {
    #[error("{0}")]
    Io(io::Error),
    #[error("the server ended the connection")]
    Ended,
    #[error("the server neither took nor sent a byte for two minutes")]
    Silent,
    #[error("the server's reply can't be read: {0}")]
    Unreadable(&'static str),
    #[error("out of memory")]
    NoMemory,
}

impl From<AllocError> for Broken {
    fn from(_refused: AllocError) -> Broken {
        Broken::NoMemory
    }
}

impl From<AllocError> for LoadFault {
    fn from(_refused: AllocError) -> LoadFault {
        LoadFault::NoMemory
    }
}

impl<T: Drop> From<AllocFailed<T>> for LoadFault {
    fn from(_refused: AllocFailed<T>) -> LoadFault {
        LoadFault::NoMemory
    }
}
