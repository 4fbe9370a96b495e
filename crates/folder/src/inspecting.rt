//! Telling what the log of a copy holds.

use crate::look::{frames_seen, kept_sums};
use crate::scan::ScanFault;
use crate::sums::{Sums, sums_of};
use reasons::escaped;
use std::alloc::{AllocError, Global};
use std::fmt::Display;
use std::fs::File;
use std::io::Write;
use std::rt::Files;
use std::{fmt, fs, io};
use sum::Table;
use translog::{LogFault, MemDevice, Torn, Translog};

/// Why not each file could be read, or not each is a log.
#[derive(Debug, Drop)]
pub enum InspectFault {
    /// A file, and why it can't be read.
    Read(String, io::Error),
    Output(io::Error),
    /// How many files are no log of a copy, of how many.
    NoLogs(usize, usize),
    NoMemory,
}

impl Display for InspectFault {
    fn fmt<W: fmt::Write>(&self, f: &mut fmt::Formatter<W>) -> fmt::Result {
        match self {
            InspectFault::Read(file, error) => write!(f, "{file}: {error}"),
            InspectFault::Output(error) => write!(f, "the output can't be written: {error}"),
            InspectFault::NoLogs(others, all) => {
                write!(f, "{others} of {all} files are no whole log of a copy")
            }
            InspectFault::NoMemory => write!(f, "out of memory"),
        }
    }
}

impl From<AllocError> for InspectFault {
    fn from(_refused: AllocError) -> InspectFault {
        InspectFault::NoMemory
    }
}

impl From<io::Error> for InspectFault {
    fn from(error: io::Error) -> InspectFault {
        InspectFault::Output(error)
    }
}

/// Writes for each of these files what it holds as the log of a copy, on a line of its own. The files stay as they are.
pub fn inspect<R: Files<File = File> + AllocGlobal, O: Write>(
    rt: &R,
    files: &[String],
    output: &mut O,
) -> Result<(), InspectFault> {
    let mut others: usize = 0;
    for file in files {
        let sums = sums_beside(rt, file.as_str())?;
        let bytes = match bytes_of(rt, file.as_str()) {
            Ok(bytes) => bytes,
            Err(fault) => {
                let _ = output.flush();
                return Err(fault);
            }
        };
        if !tell(rt.alloc(), bytes, sums.as_slice(), output)? {
            others = others.saturating_add(1);
        }
    }
    output.flush()?;
    if others > 0 {
        return Err(InspectFault::NoLogs(others, files.len()));
    }
    Ok(())
}

fn bytes_of<R: Files + AllocGlobal>(rt: &R, file: &str) -> Result<Vec<u8>, InspectFault> {
    match fs::read(rt, file) {
        Ok(bytes) => Ok(bytes),
        Err(error) => Err(InspectFault::Read(escaped(rt.alloc(), file)?, error)),
    }
}

/// The sums that are kept next to a log; none where the file isn't named as a log.
fn sums_beside<R: Files<File = File> + AllocGlobal>(
    rt: &R,
    file: &str,
) -> Result<Vec<u8>, InspectFault> {
    match file.strip_suffix(".rsx") {
        Some(name) => {
            let path = format!(in rt.alloc(); "{name}.sum")?;
            Ok(kept_sums(rt, path.as_str()))
        }
        None => Ok(Vec::new(rt.alloc())),
    }
}

/// Writes what a log of these bytes holds, of which these sums were kept, and reports whether they are a whole one.
fn tell<O: Write>(
    alloc: Global,
    bytes: Vec<u8>,
    sums: &[u8],
    output: &mut O,
) -> Result<bool, InspectFault> {
    let told = match sums_of(alloc, &Table::new(), bytes.as_slice(), sums) {
        Ok(sums) => told_of(alloc, bytes, sums),
        Err(fault) => Err(ToldFault::Scan(fault)),
    };
    match told {
        Ok((count, torn)) => {
            tell_records(count, torn, output)?;
            return Ok(true);
        }
        Err(ToldFault::Scan(ScanFault::NoMemory)) | Err(ToldFault::Log(LogFault::NoMemory)) => {
            return Err(InspectFault::NoMemory);
        }
        Err(ToldFault::Scan(ScanFault::Damage(damage))) => writeln!(output, "{damage}")?,
        Err(ToldFault::Log(fault)) => writeln!(output, "{fault}")?,
    }
    Ok(false)
}

/// Why a log isn't whole.
#[derive(Debug, Drop)]
enum ToldFault {
    Log(LogFault),
    Scan(ScanFault),
}

/// How many records a log has that has these sums, and what is torn of it.
fn told_of(alloc: Global, bytes: Vec<u8>, sums: Sums) -> Result<(usize, Torn), ToldFault> {
    let mut log = Translog::over(MemDevice::new(bytes));
    let (count, torn) = match log.read(alloc) {
        Ok((records, torn)) => {
            let count = records.len();
            drop(records);
            (count, torn)
        }
        Err(fault) => return Err(ToldFault::Log(fault)),
    };
    match frames_seen(alloc, log.device().bytes(), sums) {
        Ok(seen) => {
            drop(seen);
            Ok((count, torn))
        }
        Err(fault) => Err(ToldFault::Scan(fault)),
    }
}

/// Writes how many records a log has, and where its end is torn. Of a torn header nothing is left.
fn tell_records<O: Write>(count: usize, torn: Torn, output: &mut O) -> io::Result<()> {
    match torn {
        Torn::Nothing => writeln!(output, "records {count}"),
        Torn::End(whole) => writeln!(output, "records {count}, torn at byte {whole}"),
        Torn::Header => writeln!(output, "records {count}, torn at byte 0"),
    }
}
