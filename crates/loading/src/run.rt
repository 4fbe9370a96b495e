//! A whole load: each file in turn, read and sent.

use crate::bar::{Bar, Progress};
use crate::connection::Connection;
use crate::fault::{Broken, LoadFault};
use crate::refusals::Refusals;
use crate::sender::Sender;
use crate::source::{Found, Source};
use crate::task::{Load, Loaded};
use reasons::escaped;
use std::alloc::Global;
use std::fs::File;
use std::io::{self, ErrorKind, Write};
use std::net::{Net, TcpStream};
use std::rt::Files;
use std::sync::atomic::{AtomicBool, Ordering};
use std::time::{Clock, Duration};
use std::{fs, thread};

/// The path by which a program sees its own standard input (Linux).
const STANDARD_INPUT: &str = "/proc/self/fd/0";

/// How many milliseconds pass between two tries to connect.
const TICK: u64 = 10;

/// A load whose files are open, and of which nothing is sent.
#[derive(Drop)]
pub struct Opened<'a> {
    load: Load<'a>,
    files: Vec<File>,
    /// The bytes of all files, where they are known.
    size: Option<u64>,
    refusals: Refusals<'a>,
}

/// A load that is over, whose files are open.
#[derive(Drop)]
pub struct Ended<'a> {
    refusals: Refusals<'a>,
    loaded: Result<Loaded, LoadFault>,
}

/// Sends the documents of files to a server, and writes down the lines that it can't send or the server refuses. It may be done again after a fault or a kill,
/// since documents are written under their ids.
pub fn load<R, E: Write>(rt: &R, load: &Load<'_>, errors: &mut E) -> Result<Loaded, LoadFault>
where
    R: Files<File = File> + Net<Stream = TcpStream> + Clock + AllocGlobal,
{
    let opened = open(rt, *load)?;
    opened.send(rt, None, errors).close(rt)
}

/// Opens the files of a load, and makes the file of what is refused.
pub fn open<'a, R: Files<File = File> + AllocGlobal>(
    rt: &R,
    load: Load<'a>,
) -> Result<Opened<'a>, LoadFault> {
    let size = size_of_all(rt, load.files)?;
    let mut files = Vec::new(rt.alloc());
    for file in load.files {
        files.push(file_of(rt, file.as_str())?)?;
    }
    let refusals = Refusals::new(rt, load.refused)?;
    Ok(Opened {
        load,
        files,
        size,
        refusals,
    })
}

impl<'a> Opened<'a> {
    /// The port of the server.
    pub fn port(&self) -> u16 {
        self.load.port
    }

    /// Sends the documents. With `has_ended` it waits for a server that doesn't listen yet, until that says that the server has ended.
    pub fn send<R, E: Write>(
        self,
        rt: &R,
        has_ended: Option<&AtomicBool>,
        errors: &mut E,
    ) -> Ended<'a>
    where
        R: Net<Stream = TcpStream> + Clock + AllocGlobal,
    {
        let Opened {
            load,
            files,
            size,
            refusals,
        } = self;
        let connection = match connected(rt, load, has_ended) {
            Ok(connection) => connection,
            Err(fault) => {
                return Ended {
                    refusals,
                    loaded: Err(fault),
                };
            }
        };
        let mut sender = Sender::new(rt, load.port, connection, refusals);
        let mut bar = Bar::new(rt, errors, load.shows, size);
        let done = send_all(rt, load, files, &mut sender, &mut bar);
        bar.erase();
        let loaded = match done {
            Ok(()) => Ok(Loaded {
                documents: sender.confirmed,
                refused: sender.refused(),
            }),
            Err(fault) => Err(fault),
        };
        Ended {
            refusals: sender.into_refusals(),
            loaded,
        }
    }
}

impl Ended<'_> {
    /// Removes the file of what was refused, if it was made and nothing was.
    pub fn close<R: Files>(self, rt: &R) -> Result<Loaded, LoadFault> {
        self.refusals.close(rt);
        self.loaded
    }
}

fn connected<R: Net<Stream = TcpStream> + Clock + AllocGlobal>(
    rt: &R,
    load: Load<'_>,
    has_ended: Option<&AtomicBool>,
) -> Result<Connection, LoadFault> {
    for _ in 0..u64::MAX {
        match Connection::open(rt, load.port, load.index) {
            Ok(connection) => return Ok(connection),
            Err(Broken::NoMemory) => return Err(LoadFault::NoMemory),
            Err(why) => if !is_awaited(has_ended) {
                return Err(LoadFault::NoServer(load.port, why));
            },
        }
        thread::sleep(rt, Duration::from_millis(TICK));
    }
    Err(LoadFault::NoServer(load.port, Broken::Silent))
}

fn is_awaited(has_ended: Option<&AtomicBool>) -> bool {
    match has_ended {
        Some(has_ended) => !has_ended.load(Ordering::SeqCst),
        None => false,
    }
}

fn send_all<'a, R, E: Write>(
    rt: &R,
    load: Load<'a>,
    files: Vec<File>,
    sender: &mut Sender<'_, 'a, R>,
    bar: &mut Bar<'_, R, E>,
) -> Result<(), LoadFault>
where
    R: Net<Stream = TcpStream> + Clock + AllocGlobal,
{
    let mut before: u64 = 0;
    for (name, file) in load.files.iter().zip(files) {
        let alloc = rt.alloc();
        let source = match Source::new(alloc, name.as_str(), load.id, file) {
            Ok(source) => source,
            Err(error) => return Err(unopened(alloc, name.as_str(), error)),
        };
        let bytes = send_file(rt, name.as_str(), source, before, sender, bar)?;
        before = before.saturating_add(bytes);
    }
    sender.finish()
}

/// Sends the documents of a file, before which so many bytes of others were read, and gives how many it has.
fn send_file<'a, R, E: Write>(
    rt: &R,
    file: &'a str,
    from: Source<'a, File>,
    before: u64,
    sender: &mut Sender<'_, 'a, R>,
    bar: &mut Bar<'_, R, E>,
) -> Result<u64, LoadFault>
where
    R: Net<Stream = TcpStream> + Clock + AllocGlobal,
{
    let alloc = rt.alloc();
    let mut source = from;
    for _ in 0..u64::MAX {
        match source.advance(alloc) {
            Ok(Some(Found::Write(item))) => sender.push(item)?,
            Ok(Some(Found::Misfit(refusal))) => sender.refuse(&refusal)?,
            Ok(None) => break,
            Err(error) => return Err(unread(alloc, file, source.line(), error, sender.confirmed)),
        }
        bar.look(Progress {
            bytes: before.saturating_add(source.bytes()),
            documents: sender.confirmed,
        });
    }
    Ok(source.bytes())
}

fn file_of<R: Files<File = File> + AllocGlobal>(rt: &R, file: &str) -> Result<File, LoadFault> {
    fs::open(rt, path_of(file)).map_err(|error| unopened(rt.alloc(), file, error))
}

/// How many bytes the files have, where all of them are regular ones. Each has to be there before anything is sent.
fn size_of_all<R: Files + AllocGlobal>(rt: &R, files: &[String]) -> Result<Option<u64>, LoadFault> {
    let mut size = Some(0);
    for file in files {
        match fs::metadata(rt, path_of(file.as_str())) {
            Ok(found) if found.is_file() => size = sum(size, found.len()),
            Ok(found) if found.is_dir() => {
                let error = io::Error::from(ErrorKind::IsADirectory);
                return Err(unopened(rt.alloc(), file.as_str(), error));
            }
            Ok(_) => size = None,
            Err(error) => return Err(unopened(rt.alloc(), file.as_str(), error)),
        }
    }
    Ok(size)
}

fn sum(size: Option<u64>, more: u64) -> Option<u64> {
    size?.checked_add(more)
}

fn path_of(file: &str) -> &str {
    if file == "-" { STANDARD_INPUT } else { file }
}

fn unopened(alloc: Global, file: &str, error: io::Error) -> LoadFault {
    match escaped(alloc, file) {
        Ok(file) => LoadFault::Open(file, error),
        Err(_) => LoadFault::NoMemory,
    }
}

fn unread(alloc: Global, file: &str, line: u64, error: io::Error, confirmed: u64) -> LoadFault {
    if error.kind() == ErrorKind::OutOfMemory {
        return LoadFault::NoMemory;
    }
    match escaped(alloc, file) {
        Ok(file) => LoadFault::Read {
            file,
            line,
            error,
            confirmed,
        },
        Err(_) => LoadFault::NoMemory,
    }
}
