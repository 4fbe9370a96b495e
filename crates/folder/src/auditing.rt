//! Judging the journals that a folder keeps.

use crate::journal_folder::path_of;
use crate::verdict;
use crate::verdict::{VerdictFault, tell};
use doc::Mapping;
use journal::Journal;
use journals::{JournalFault, read};
use std::alloc::{AllocError, AllocFailed, Global};
use std::fmt::Display;
use std::io::{ErrorKind, Write};
use std::rt::Files;
use std::{fmt, fs, io};

/// An index begins with five copies at most, and each id is given once; more journals than these no index has.
const MOST: u32 = 1_000;

/// Why the journals of a folder aren't judged, or aren't those of one run.
#[derive(Debug, Drop)]
pub enum AuditingFault {
    /// A file, and why it can't be opened.
    Open(String, io::Error),
    /// A file, the line in it, and what is wrong there.
    Line(String, u64, &'static str),
    /// The file of a journal that is missing.
    Missing(String),
    /// What the audit says.
    Verdict(VerdictFault),
    NoMemory,
}

impl Display for AuditingFault {
    fn fmt<W: fmt::Write>(&self, f: &mut fmt::Formatter<W>) -> fmt::Result {
        match self {
            AuditingFault::Open(file, error) => write!(f, "indexd: {file}: {error}"),
            AuditingFault::Line(file, line, wanted) => write!(f, "indexd: {file}:{line}: {wanted}"),
            AuditingFault::Verdict(VerdictFault::Refused(fault)) => {
                write!(f, "audit: ")?;
                tell(fault, f)
            }
            AuditingFault::Missing(file) => write!(
                f,
                "audit: {file} is missing, and the master's journal gives this copy its id"
            ),
            AuditingFault::Verdict(fault) => write!(f, "indexd: {fault}"),
            AuditingFault::NoMemory => write!(f, "indexd: out of memory"),
        }
    }
}

impl From<AllocError> for AuditingFault {
    fn from(_refused: AllocError) -> AuditingFault {
        AuditingFault::NoMemory
    }
}

impl<T: Drop> From<AllocFailed<T>> for AuditingFault {
    fn from(_refused: AllocFailed<T>) -> AuditingFault {
        AuditingFault::NoMemory
    }
}

/// The texts of the journals that a folder has: the master's, and those of copies 1, 2 and so on, up to the first that isn't there.
fn texts_in<R: Files + AllocGlobal>(rt: &R, folder: &str) -> Result<Vec<String>, AuditingFault> {
    let mut texts = Vec::new(rt.alloc());
    for node in 0..MOST {
        let file = path_of(rt.alloc(), folder, node as u64)?;
        match fs::read_to_string(rt, file.as_str()) {
            Ok(text) => texts.push(text)?,
            Err(error) => {
                if node == 0 || error.kind() != ErrorKind::NotFound {
                    return Err(AuditingFault::Open(file, error));
                }
                return Ok(texts);
            }
        }
    }
    Ok(texts)
}

fn unread(alloc: Global, folder: &str, fault: JournalFault) -> AuditingFault {
    match fault {
        JournalFault::Line(node, line, wanted) => match path_of(alloc, folder, node) {
            Ok(file) => AuditingFault::Line(file, line, wanted),
            Err(_) => AuditingFault::NoMemory,
        },
        JournalFault::NoMemory => AuditingFault::NoMemory,
        JournalFault::Empty => AuditingFault::NoMemory,
    }
}

/// The journals that a folder keeps, and the mapping that they are under.
pub fn journals_in<R: Files + AllocGlobal>(
    rt: &R,
    folder: &str,
) -> Result<(Mapping, Vec<Journal>), AuditingFault> {
    let alloc = rt.alloc();
    let texts = texts_in(rt, folder)?;
    match read(alloc, &texts) {
        Ok(found) => Ok(found),
        Err(fault) => Err(unread(alloc, folder, fault)),
    }
}

/// Judges the journals of a folder, and writes the verdict.
pub fn judge_folder<R: Files + AllocGlobal, O: Write, E: Write>(
    rt: &R,
    folder: &str,
    explains: bool,
    output: &mut O,
    errors: &mut E,
) -> Result<(), AuditingFault> {
    let alloc = rt.alloc();
    let (mapping, journals) = journals_in(rt, folder)?;
    match verdict::judge(alloc, &mapping, &journals, explains, output, errors) {
        Ok(()) => Ok(()),
        Err(VerdictFault::Missing(copy)) => {
            Err(AuditingFault::Missing(path_of(alloc, folder, copy)?))
        }
        Err(fault) => Err(AuditingFault::Verdict(fault)),
    }
}
