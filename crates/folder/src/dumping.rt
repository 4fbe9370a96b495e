//! Writing the documents of an index that is kept in a folder.

use crate::data_fault::DataFault;
use crate::data_folder::{KeptRecords, Wanted, read_index};
use crate::parts::{Parts, write_parts};
use crate::salvage::Gap;
use engine::Engine;
use op::{Body, Op};
use serde_json::Value;
use std::alloc::{AllocError, Global};
use std::fmt::Display;
use std::fs::File;
use std::io::Write;
use std::rt::Files;
use std::{fmt, io};

/// What is written of a folder.
#[derive(Clone, Copy)]
pub struct Dumped<'a> {
    pub data: &'a str,
    /// The mapping, and no documents.
    pub mapping: bool,
    /// Whether of a damaged log what is whole is written.
    pub damaged: bool,
    /// The files that the documents are written to; with none it is the output.
    pub parts: Option<Parts<'a>>,
}

/// Why a folder isn't written, or not all of it.
#[derive(Debug, Drop)]
pub enum DumpFault {
    Data(DataFault),
    Output(io::Error),
    /// The folder of the parts, and why it can't be made or read.
    Folder(String, io::Error),
    /// The folder of the parts, and a name in it.
    NotEmpty(String, String),
    /// A part, and why it can't be written.
    Part(String, io::Error),
    NoMemory,
}

impl Display for DumpFault {
    fn fmt<W: fmt::Write>(&self, f: &mut fmt::Formatter<W>) -> fmt::Result {
        match self {
            DumpFault::Data(fault) => write!(f, "the data folder: {fault}"),
            DumpFault::Output(error) => write!(f, "the output can't be written: {error}"),
            DumpFault::Folder(folder, error) => write!(f, "{folder} can't be made: {error}"),
            DumpFault::NotEmpty(folder, name) => write!(
                f,
                "{folder} isn't empty: it has {name}; give a new folder by --to"
            ),
            DumpFault::Part(part, error) => write!(f, "{part} can't be written: {error}"),
            DumpFault::NoMemory => write!(f, "out of memory"),
        }
    }
}

impl From<AllocError> for DumpFault {
    fn from(_refused: AllocError) -> DumpFault {
        DumpFault::NoMemory
    }
}

impl From<io::Error> for DumpFault {
    fn from(error: io::Error) -> DumpFault {
        if error.kind() == io::ErrorKind::OutOfMemory {
            DumpFault::NoMemory
        } else {
            DumpFault::Output(error)
        }
    }
}

impl From<DataFault> for DumpFault {
    fn from(fault: DataFault) -> DumpFault {
        match fault {
            DataFault::NoMemory => DumpFault::NoMemory,
            fault => DumpFault::Data(fault),
        }
    }
}

/// Writes the mapping of a folder's index, or its documents as the lines of a bulk, in the order in which they were last written. The folder stays as it is,
/// and a server may have it.
/// `errors` names each document that is larger than a part, and what is left out of a damaged log.
pub fn dump<R: Files<File = File> + AllocGlobal + Clone + Drop, O: Write, E: Write>(
    rt: &R,
    dumped: Dumped<'_>,
    output: &mut O,
    errors: &mut E,
) -> Result<(), DumpFault> {
    let wanted = if dumped.damaged {
        Wanted::Salvage
    } else {
        Wanted::Whole
    };
    let KeptRecords {
        text,
        mapping,
        records,
        gaps,
        copy,
    } = read_index(rt, dumped.data, wanted)?;
    for gap in gaps {
        let Gap { offset, bytes } = gap;
        let _ = writeln!(
            errors,
            "indexd: copy-{copy}.rsx: {bytes} bytes at offset {offset} are left out"
        );
    }
    if dumped.mapping {
        write_line(output, text.as_str())?;
    } else {
        let engine = Engine::open(rt.alloc(), mapping, records)?;
        match dumped.parts {
            Some(parts) => write_parts(rt, &engine, parts, errors)?,
            None => write_documents(rt.alloc(), &engine, output)?,
        }
    }
    output.flush()?;
    Ok(())
}

fn write_documents<O: Write>(
    alloc: Global,
    engine: &Engine,
    output: &mut O,
) -> Result<(), DumpFault> {
    for op in &engine.last_ops(alloc)? {
        write_operation(alloc, engine, op, output)?;
    }
    Ok(())
}

/// Writes the document of an operation, where no later one is on its id.
pub(crate) fn write_operation<O: Write>(
    alloc: Global,
    engine: &Engine,
    op: &Op,
    output: &mut O,
) -> Result<(), DumpFault> {
    let Body::Index(id, source) = &op.body else {
        return Ok(());
    };
    match engine.last(id) {
        Some(last) if last.seq == op.seq => {}
        _ => return Ok(()),
    }
    let id = Value::try_from_str(alloc, id.as_str())?.to_string(alloc)?;
    writeln!(output, "{{\"index\":{{\"_id\":{id}}}}}")?;
    write_line(output, source.as_str())
}

/// Writes JSON on one line: a break in it stands between two tokens, so a space means the same.
fn write_line<O: Write>(output: &mut O, json: &str) -> Result<(), DumpFault> {
    let mut lines = json.trim_end().split(|c| c == '\n' || c == '\r');
    if let Some(first) = lines.next() {
        output.write_all(first.as_bytes())?;
    }
    for line in lines {
        output.write_all(b" ")?;
        output.write_all(line.as_bytes())?;
    }
    output.write_all(b"\n")?;
    Ok(())
}
