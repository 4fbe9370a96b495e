//! Journals as files of a folder.

use crate::mapping_file::MappingFile;
use journal::Journal;
use journals::{HeadFault, write};
use serde_json::Value;
use std::alloc::{AllocError, AllocFailed, Global};
use std::fmt::Display;
use std::fs::File;
use std::io::Write;
use std::rt::Files;
use std::{fmt, fs, io};

/// Why journals aren't kept.
#[derive(Debug, Drop)]
pub enum KeepFault {
    Folder(io::Error),
    /// The file of a node; 0 is the master.
    File(u64, io::Error),
    Head(HeadFault),
    NoMemory,
}

impl Display for KeepFault {
    fn fmt<W: fmt::Write>(&self, f: &mut fmt::Formatter<W>) -> fmt::Result {
        match self {
            KeepFault::Folder(error) => write!(f, "their folder can't be made: {error}"),
            KeepFault::File(0, error) => write!(f, "master.journal: {error}"),
            KeepFault::File(copy, error) => write!(f, "copy-{copy}.journal: {error}"),
            KeepFault::Head(fault) => write!(f, "{fault}"),
            KeepFault::NoMemory => write!(f, "out of memory"),
        }
    }
}

impl From<AllocError> for KeepFault {
    fn from(_refused: AllocError) -> KeepFault {
        KeepFault::NoMemory
    }
}

impl<T: Drop> From<AllocFailed<T>> for KeepFault {
    fn from(_refused: AllocFailed<T>) -> KeepFault {
        KeepFault::NoMemory
    }
}

impl From<HeadFault> for KeepFault {
    fn from(fault: HeadFault) -> KeepFault {
        match fault {
            HeadFault::NoMemory => KeepFault::NoMemory,
            other => KeepFault::Head(other),
        }
    }
}

/// Writes the journals of a new index as text into a folder, which is made where it is missing.
pub fn keep_journals<R: Files<File = File> + AllocGlobal>(
    rt: &R,
    folder: &str,
    mapping: Option<&MappingFile>,
    journals: &[Journal],
) -> Result<(), KeepFault> {
    let texts = texts_of(rt.alloc(), mapping, journals)?;
    make(rt, folder)?;
    let mut node: u64 = 0;
    for text in &texts {
        let path = path_of(rt.alloc(), folder, node)?;
        if let Err(error) = write_file(rt, path.as_str(), text.as_str()) {
            return Err(KeepFault::File(node, error));
        }
        node = node.saturating_add(1);
    }
    Ok(())
}

fn texts_of(
    alloc: Global,
    mapping: Option<&MappingFile>,
    journals: &[Journal],
) -> Result<Vec<String>, KeepFault> {
    match mapping {
        Some(mapping) => Ok(write(alloc, &mapping.value, journals)?),
        None => {
            let Ok(empty) = Value::from_str(alloc, "{}") else {
                return Err(KeepFault::NoMemory);
            };
            Ok(write(alloc, &empty, journals)?)
        }
    }
}

fn make<R: Files<File = File>>(rt: &R, folder: &str) -> Result<(), KeepFault> {
    match fs::exists(rt, folder) {
        Ok(true) => Ok(()),
        Ok(false) => fs::create_dir(rt, folder).map_err(KeepFault::Folder),
        Err(error) => Err(KeepFault::Folder(error)),
    }
}

/// The path of a node's journal.
pub fn path_of(alloc: Global, folder: &str, node: u64) -> Result<String, AllocError> {
    if node == 0 {
        format!(in alloc; "{folder}/master.journal")
    } else {
        format!(in alloc; "{folder}/copy-{node}.journal")
    }
}

fn write_file<R: Files<File = File>>(rt: &R, path: &str, text: &str) -> io::Result<()> {
    let mut file = fs::create(rt, path)?;
    file.write_all(text.as_bytes())
}
