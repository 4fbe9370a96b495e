//! What an audit says of journals.

use crate::model_answer::model_answer;
use audit::{AuditFault, audit};
use doc::Mapping;
use journal::Journal;
use journals::entry_value;
use serde_json::Value;
use std::alloc::{AllocError, AllocFailed, Global};
use std::fmt::Display;
use std::io::Write;
use std::{fmt, io};

/// Why journals don't pass.
#[derive(Debug, Drop)]
pub enum VerdictFault {
    Refused(AuditFault),
    /// A copy whose journal is missing.
    Missing(u64),
    Output(io::Error),
    NoMemory,
}

impl Display for VerdictFault {
    fn fmt<W: fmt::Write>(&self, f: &mut fmt::Formatter<W>) -> fmt::Result {
        match self {
            VerdictFault::Refused(fault) => tell(fault, f),
            VerdictFault::Missing(copy) => write!(
                f,
                "copy {copy}: its journal is missing, and that of the master gives its id"
            ),
            VerdictFault::Output(error) => write!(f, "the output can't be written: {error}"),
            VerdictFault::NoMemory => write!(f, "out of memory"),
        }
    }
}

impl From<AllocError> for VerdictFault {
    fn from(_refused: AllocError) -> VerdictFault {
        VerdictFault::NoMemory
    }
}

impl<T: Drop> From<AllocFailed<T>> for VerdictFault {
    fn from(_refused: AllocFailed<T>) -> VerdictFault {
        VerdictFault::NoMemory
    }
}

impl From<io::Error> for VerdictFault {
    fn from(error: io::Error) -> VerdictFault {
        VerdictFault::Output(error)
    }
}

/// What an audit says in words, with the line of the entry in the node's file: its first line is its head.
pub fn tell<W: fmt::Write>(fault: &AuditFault, f: &mut fmt::Formatter<W>) -> fmt::Result {
    match fault {
        AuditFault::Uncaused(node, place) => {
            tell_node(*node, f)?;
            let line = place.saturating_add(2);
            write!(
                f,
                "nothing in the journals causes entry {place} (line {line})"
            )
        }
        AuditFault::Differs(node, place) => {
            tell_node(*node, f)?;
            let line = place.saturating_add(2);
            write!(
                f,
                "entry {place} isn't what it would have answered (line {line})"
            )
        }
        AuditFault::NoMemory => write!(f, "out of memory"),
    }
}

fn tell_node<W: fmt::Write>(node: u64, f: &mut fmt::Formatter<W>) -> fmt::Result {
    if node == 0 {
        write!(f, "the master: ")
    } else {
        write!(f, "copy {node}: ")
    }
}

/// Judges journals, and writes the verdict: `audit ok`, or `audit failed` with the kind of the fault, the node and the place of its entry. With
/// `explains` the entry is written to `errors`, and what the model answers there.
pub fn judge<O: Write, E: Write>(
    alloc: Global,
    mapping: &Mapping,
    journals: &[Journal],
    explains: bool,
    output: &mut O,
    errors: &mut E,
) -> Result<(), VerdictFault> {
    if journals.len() > u32::MAX as usize {
        return Err(VerdictFault::NoMemory);
    }
    let fault = match audit(alloc, mapping, journals) {
        Ok(_world) => {
            writeln!(output, "audit ok")?;
            return Ok(output.flush()?);
        }
        Err(fault) => fault,
    };
    write_failed(&fault, output)?;
    if explains {
        explain(alloc, mapping, journals, &fault, errors)?;
    }
    Err(verdict_of(fault, journals.len() as u64))
}

/// Why this many journals don't pass, and the first that is missing.
fn verdict_of(fault: AuditFault, journals: u64) -> VerdictFault {
    match fault {
        AuditFault::Differs(node, 0) if node == journals => VerdictFault::Missing(node),
        fault => VerdictFault::Refused(fault),
    }
}

fn write_failed<O: Write>(fault: &AuditFault, output: &mut O) -> io::Result<()> {
    match fault {
        AuditFault::Uncaused(node, place) => {
            writeln!(output, "audit failed Uncaused {node} {place}")?;
        }
        AuditFault::Differs(node, place) => {
            writeln!(output, "audit failed Differs {node} {place}")?;
        }
        AuditFault::NoMemory => {}
    }
    output.flush()
}

/// Writes the entry that doesn't pass, and what the model answers there.
fn explain<E: Write>(
    alloc: Global,
    mapping: &Mapping,
    journals: &[Journal],
    fault: &AuditFault,
    errors: &mut E,
) -> Result<(), AllocError> {
    let (node, place) = match fault {
        AuditFault::Uncaused(node, place) | AuditFault::Differs(node, place) => {
            (*node as usize, *place as usize)
        }
        AuditFault::NoMemory => return Ok(()),
    };
    if let Some(journal) = journals.get(node) {
        write_value(alloc, "entry", entry_value(alloc, journal, place)?, errors)?;
    }
    let answer = model_answer(alloc, mapping, journals, node, place)?;
    write_value(alloc, "model", answer, errors)
}

fn write_value<E: Write>(
    alloc: Global,
    name: &str,
    value: Option<Value>,
    errors: &mut E,
) -> Result<(), AllocError> {
    if let Some(value) = value {
        let text = value.to_string(alloc);
        drop(value);
        let text = text?;
        let _ = writeln!(errors, "{name}: {text}");
    }
    Ok(())
}
