//! Why the folder that an index is kept in can't be served.

use crate::damage::Damage;
use crate::look::LookFault;
use crate::mapping_file::MappingFault;
use replica::CopyFault;
use std::alloc::{AllocError, AllocFailed};
use std::fmt::Display;
use std::{fmt, io};
use translog::LogFault;

/// A refusal of a data folder. No file of it was cut or changed, but for a torn end that is cut off before the copy is led.
#[derive(Debug, Drop)]
pub enum DataFault {
    Folder(io::Error),
    NoIndex,
    InUse,
    File(&'static str, io::Error),
    NotPlain(&'static str),
    Missing(&'static str),
    NotJson(serde_json::Error),
    Mapping(doc::DocFault),
    OtherMapping(Difference),
    Master(LogFault),
    SeveralCopies,
    CopyFile(u32, io::Error),
    Copy(u32, CopyFault),
    Damaged(u32, Damage),
    /// A copy, and why what is torn of its log at this offset can't be kept.
    TornEnd(u32, u64, io::Error),
    NotLed,
    Seed(io::Error),
    NoMemory,
}

/// The first line in which the kept mapping and another one differ.
#[derive(Debug, Drop)]
pub struct Difference {
    pub line: u64,
    pub kept: String,
    pub given: String,
}

impl Display for DataFault {
    fn fmt<W: fmt::Write>(&self, f: &mut fmt::Formatter<W>) -> fmt::Result {
        match self {
            DataFault::Folder(error) => write!(f, "it can't be made: {error}"),
            DataFault::NoIndex => write!(f, "there is no index in it: it has no mapping.json"),
            DataFault::InUse => write!(f, "another process serves it: end that one first"),
            DataFault::File(name, error) => write!(f, "{name}: {error}"),
            DataFault::NotPlain(name) => write!(
                f,
                "{name} is no plain file, and a link, a FIFO or a device isn't written to"
            ),
            DataFault::Missing(name) => {
                write!(
                    f,
                    "{name} is missing, and other files of the index are there"
                )
            }
            DataFault::NotJson(error) => write!(f, "mapping.json isn't JSON: {error}"),
            DataFault::Mapping(fault) => write!(f, "mapping.json is no mapping: {fault}"),
            DataFault::OtherMapping(Difference { line, kept, given }) => write!(
                f,
                "it was begun with another mapping: line {line} of mapping.json is {kept:?}, and that of --mapping {given:?}; start without --mapping"
            ),
            DataFault::Master(fault) => write!(f, "master.log: {fault}"),
            DataFault::SeveralCopies => {
                write!(f, "master.log is that of an index of several copies")
            }
            DataFault::CopyFile(copy, error) => write!(f, "copy-{copy}.rsx: {error}"),
            DataFault::Copy(copy, fault) => write!(f, "copy-{copy}.rsx: {fault}"),
            DataFault::Damaged(copy, damage) => write!(f, "copy-{copy}.rsx: {damage}"),
            DataFault::TornEnd(copy, offset, error) => {
                write!(f, "copy-{copy}.torn-{offset} can't be written: {error}")
            }
            DataFault::NotLed => write!(
                f,
                "copy-1.rsx can't be made the primary: it or master.log can't be written, or they don't belong together"
            ),
            DataFault::Seed(error) => write!(f, "the system gives no random number: {error}"),
            DataFault::NoMemory => write!(f, "out of memory"),
        }
    }
}

impl From<AllocError> for DataFault {
    fn from(_refused: AllocError) -> DataFault {
        DataFault::NoMemory
    }
}

impl<T: Drop> From<AllocFailed<T>> for DataFault {
    fn from(_refused: AllocFailed<T>) -> DataFault {
        DataFault::NoMemory
    }
}

impl From<MappingFault> for DataFault {
    fn from(fault: MappingFault) -> DataFault {
        match fault {
            MappingFault::NotJson(error) => DataFault::NotJson(error),
            MappingFault::Mapping(fault) => DataFault::Mapping(fault),
            MappingFault::NoMemory => DataFault::NoMemory,
        }
    }
}

/// Why the log of a copy isn't opened.
pub(crate) fn of_look(copy: u32, fault: LookFault) -> DataFault {
    match fault {
        LookFault::Damage(damage) => DataFault::Damaged(copy, damage),
        LookFault::TornEnd(offset, error) => DataFault::TornEnd(copy, offset, error),
        LookFault::NoMemory => DataFault::NoMemory,
    }
}
