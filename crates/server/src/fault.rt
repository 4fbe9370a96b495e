//! Why the server doesn't start, or ends.

use cluster::ClusterFault;
use doc::DocFault;
use folder::{DataFault, KeepFault, MappingFault, VerdictFault};
use std::alloc::AllocError;
use std::fmt::Display;
use std::{fmt, io};

/// Why the server doesn't start, or ends. Faults are looked for in this order; memory may run out at any place.
#[derive(Drop)]
pub enum ServeFault {
    IndexName,
    Unread(io::Error),
    TooLarge,
    NotJson(serde_json::Error),
    Mapping(DocFault),
    Seed(io::Error),
    EndlessAudit,
    JournalsAlone,
    SyncInMemory,
    Origin(String),
    HostName(String),
    AuditOfKept,
    Data(DataFault),
    Copies(ClusterFault),
    Port(u16, io::Error),
    Input(io::Error),
    Output(io::Error),
    Connection(io::Error),
    Journals(KeepFault),
    Audit(VerdictFault),
    NoMemory,
}

impl Display for ServeFault {
    fn fmt<W: fmt::Write>(&self, f: &mut fmt::Formatter<W>) -> fmt::Result {
        match self {
            ServeFault::IndexName => write!(
                f,
                "no such name of an index: give 1 to 255 bytes without capital letters, spaces and any of \\ / * ? \" < > | , # :, not beginning with - _ +, and neither . nor .."
            ),
            ServeFault::Unread(error) => write!(f, "the mapping file can't be read: {error}"),
            ServeFault::TooLarge => write!(f, "the mapping file has more than 1,048,576 bytes"),
            ServeFault::NotJson(error) => write!(f, "the mapping file isn't JSON: {error}"),
            ServeFault::Mapping(fault) => write!(f, "the mapping file is no mapping: {fault}"),
            ServeFault::Seed(error) => write!(f, "the system gives no random number: {error}"),
            ServeFault::EndlessAudit => write!(
                f,
                "--audit is of a run that ends: give --connections too"
            ),
            ServeFault::JournalsAlone => {
                write!(f, "--journals are those of an audit: give --audit too")
            }
            ServeFault::SyncInMemory => write!(
                f,
                "--sync is of an index in a folder: give --data too, or leave out --sync"
            ),
            ServeFault::Origin(text) => write!(
                f,
                "--cors {text} is no origin: give SCHEME://HOST or SCHEME://HOST:PORT without a path and capital letters, as https://shop.example, or null, or *"
            ),
            ServeFault::HostName(text) => write!(
                f,
                "--host-name {text} is no name of a host: give one of letters, digits, hyphens, underscores and dots, without a port"
            ),
            ServeFault::AuditOfKept => write!(
                f,
                "--audit is of a new index, and the folder of --data has one: give another folder, or leave out --audit"
            ),
            ServeFault::Data(fault) => write!(f, "the data folder: {fault}"),
            ServeFault::Copies(fault) => write!(f, "the copies: {fault}"),
            ServeFault::Port(port, error) => write!(
                f,
                "port {port} can't be had: {error}; give another one by --port"
            ),
            ServeFault::Input(error) => {
                write!(f, "the end of standard input can't be waited for: {error}")
            }
            ServeFault::Output(error) => write!(f, "the output can't be written: {error}"),
            ServeFault::Connection(error) => {
                write!(f, "no connection can be had any more: {error}")
            }
            ServeFault::Journals(fault) => write!(f, "the journals: {fault}"),
            ServeFault::Audit(fault) => write!(f, "the audit: {fault}"),
            ServeFault::NoMemory => write!(f, "out of memory"),
        }
    }
}

impl From<AllocError> for ServeFault {
    fn from(_refused: AllocError) -> ServeFault {
        ServeFault::NoMemory
    }
}

// Each fault is dropped or kept as a whole: its parts may be large.

impl From<DataFault> for ServeFault {
    fn from(fault: DataFault) -> ServeFault {
        if matches!(&fault, DataFault::NoMemory) {
            drop(fault);
            return ServeFault::NoMemory;
        }
        ServeFault::Data(fault)
    }
}

impl From<MappingFault> for ServeFault {
    fn from(fault: MappingFault) -> ServeFault {
        match fault {
            MappingFault::NotJson(error) => ServeFault::NotJson(error),
            MappingFault::Mapping(fault) => ServeFault::Mapping(fault),
            MappingFault::NoMemory => ServeFault::NoMemory,
        }
    }
}

impl From<KeepFault> for ServeFault {
    fn from(fault: KeepFault) -> ServeFault {
        if matches!(&fault, KeepFault::NoMemory) {
            drop(fault);
            return ServeFault::NoMemory;
        }
        ServeFault::Journals(fault)
    }
}

impl From<ClusterFault> for ServeFault {
    fn from(fault: ClusterFault) -> ServeFault {
        if matches!(&fault, ClusterFault::NoMemory) {
            drop(fault);
            return ServeFault::NoMemory;
        }
        ServeFault::Copies(fault)
    }
}

/// Why a mapping isn't taken.
pub(crate) fn refused(fault: DocFault) -> ServeFault {
    match fault {
        DocFault::NoMemory => ServeFault::NoMemory,
        fault => ServeFault::Mapping(fault),
    }
}

/// Why no more connections are served.
pub(crate) fn ended(error: io::Error) -> ServeFault {
    if error.kind() == io::ErrorKind::OutOfMemory {
        ServeFault::NoMemory
    } else {
        ServeFault::Connection(error)
    }
}
