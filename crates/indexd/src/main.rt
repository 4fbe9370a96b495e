//! `indexd`: an index of JSON documents, played from a script or served over HTTP.
#![tactic(auto)]

mod command_line;
mod loads;
mod pictures;
mod program;

pub use program::{Terminals, program};
use std::fs::{File, OpenOptions};
use std::io::{BufReader, BufWriter, ErrorKind, IsTerminal};
use std::process::ExitCode;
use std::{env, fs, io};

fn words_of(rt: &HostRuntime) -> io::Result<Vec<String>> {
    Ok(env::args(rt)?.collect(rt.alloc())?)
}

/// Opens /dev/null for each standard stream that is closed: the system gives a new file the least number that is free, and what is written to a stream
/// would go into that file.
fn stand_ins(rt: &HostRuntime) -> io::Result<[Option<File>; 3]> {
    Ok([
        stand_in(rt, "/proc/self/fd/0")?,
        stand_in(rt, "/proc/self/fd/1")?,
        stand_in(rt, "/proc/self/fd/2")?,
    ])
}

fn stand_in(rt: &HostRuntime, stream: &str) -> io::Result<Option<File>> {
    if fs::exists(rt, stream)? {
        return Ok(None);
    }
    let null = OpenOptions::new()
        .read(true)
        .write(true)
        .open(rt, "/dev/null")?;
    Ok(Some(null))
}

fn terminals_of(rt: &HostRuntime) -> Terminals {
    Terminals {
        output: rt.stdout().is_terminal(),
        errors: rt.stderr().is_terminal(),
    }
}

/// Says why the program can't begin.
fn failed(rt: &HostRuntime, error: &io::Error) -> ExitCode {
    if error.kind() == ErrorKind::InvalidData {
        let _ = eprintln!(rt; "indexd: a word of the command line isn't UTF-8");
        ExitCode::from(2)
    } else {
        let _ = eprintln!(rt; "indexd: {error}");
        ExitCode::FAILURE
    }
}

fn main(rt: HostRuntime) -> ExitCode {
    let Ok(_stand_ins) = stand_ins(&rt) else {
        return ExitCode::FAILURE;
    };
    let alloc = rt.alloc();
    let words = match words_of(&rt) {
        Ok(words) => words,
        Err(error) => return failed(&rt, &error),
    };
    let Ok(mut input) = BufReader::new(alloc, rt.reader()) else {
        return failed(&rt, &ErrorKind::OutOfMemory.into());
    };
    let Ok(mut output) = BufWriter::new(alloc, io::writer(&rt)) else {
        return failed(&rt, &ErrorKind::OutOfMemory.into());
    };
    let mut errors = rt.stderr();
    let terminals = terminals_of(&rt);
    let status = program(&rt, &words, terminals, &mut input, &mut output, &mut errors);
    // What a failed write left in the buffer stays unwritten.
    let _ = output.into_parts();
    ExitCode::from(status)
}
