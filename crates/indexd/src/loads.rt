//! Loading documents into a server that runs, or into a folder, which a server of this process has meanwhile.
ghost use Rattle.std.specs.Prelude.{◌<◌};

use loading::{Ended, Load, LoadFault, Loaded, Opened, load, open};
use server::{Admission, Rule, ServeFault, Settings, serve};
use std::fmt::Display;
use std::fs::File;
use std::io::Write;
use std::net::{Net, TcpListener, TcpStream};
use std::random::RandomSource;
use std::rt::Files;
use std::sync::Wait;
use std::sync::atomic::{AtomicBool, Ordering};
use std::thread::Threads;
use std::time::{Clock, Duration};
use std::{fmt, io, thread};

/// How many milliseconds pass between two looks.
const TICK: u64 = 10;

/// After how many looks a load that hasn't begun has no thread.
const PATIENCE: u64 = 500;

/// How many bytes unfinished requests have.
const ROOM: u64 = 67_108_864;

/// The most bytes of a body.
const MOST_BODY: u32 = 1_048_576;

/// What is to be loaded, and where to.
#[derive(Drop)]
pub(crate) struct Loading<'a> {
    /// The port of a server that runs; with none the folder is served.
    pub port: Option<u16>,
    pub data: &'a str,
    pub mapping: Option<&'a str>,
    pub index: &'a str,
    pub id: Option<&'a str>,
    pub refused: &'a str,
    pub files: Vec<String>,
}

/// Why nothing is loaded, or not all.
#[derive(Drop)]
enum LoadingFault {
    Load(LoadFault),
    Serve(ServeFault),
    Port(io::Error),
}

impl Display for LoadingFault {
    fn fmt<W: fmt::Write>(&self, f: &mut fmt::Formatter<W>) -> fmt::Result {
        match self {
            LoadingFault::Load(fault) => write!(f, "{fault}"),
            LoadingFault::Serve(fault) => write!(f, "{fault}"),
            LoadingFault::Port(error) => write!(f, "no port on 127.0.0.1 is free: {error}"),
        }
    }
}

/// How far the load is, and the server of its folder.
#[derive(Drop)]
struct Stage {
    /// Whether the load has a thread.
    has_begun: AtomicBool,
    /// Whether the server has ended, or isn't begun.
    has_ended: AtomicBool,
}

/// Loads documents, says how many, and answers the exit status: 0; 1 with one line on `errors` where a line was refused, or something failed.
pub(crate) fn run_load<R, O: Write, E: Write + Send>(
    rt: &R,
    loading: &Loading<'_>,
    shows: bool,
    output: &mut O,
    errors: &mut E,
) -> u8
where
    R: Files<File = File>
        + Clock
        + AllocGlobal
        + RandomSource
        + Net<Listener = TcpListener, Stream = TcpStream>
        + Threads
        + Wait
        + Copy
        + Send
        + Sync
        + Drop
        + 'static,
    ensures { result < 2 }
{
    match load_all(rt, loading, shows, errors) {
        Ok(loaded) => report(loading, loaded, output, errors),
        Err(fault) => {
            let _ = writeln!(errors, "indexd: {fault}");
            1
        }
    }
}

fn report<O: Write, E: Write>(
    loading: &Loading<'_>,
    loaded: Loaded,
    output: &mut O,
    errors: &mut E,
) -> u8
    ensures { result < 2 }
{
    let Loaded { documents, refused } = loaded;
    let _ = writeln!(output, "loaded {documents} documents");
    let _ = output.flush();
    if refused == 0 {
        return 0;
    }
    let all = documents.saturating_add(refused);
    let file = loading.refused;
    let _ = writeln!(
        errors,
        "indexd: {refused} of {all} documents were refused; {file} says why"
    );
    1
}

fn load_all<R, E: Write + Send>(
    rt: &R,
    loading: &Loading<'_>,
    shows: bool,
    errors: &mut E,
) -> Result<Loaded, LoadingFault>
where
    R: Files<File = File>
        + Clock
        + AllocGlobal
        + RandomSource
        + Net<Listener = TcpListener, Stream = TcpStream>
        + Threads
        + Wait
        + Copy
        + Send
        + Sync
        + Drop
        + 'static,
{
    if let Some(port) = loading.port {
        let wanted = load_of(&*loading, port, shows);
        return load(rt, &wanted, errors).map_err(LoadingFault::Load);
    }
    let port = free_port(rt).map_err(LoadingFault::Port)?;
    let opened = open(rt, load_of(&*loading, port, shows)).map_err(LoadingFault::Load)?;
    let stage = Stage {
        has_begun: AtomicBool::new(false),
        has_ended: AtomicBool::new(false),
    };
    let (ended, served) = thread::join(
        rt,
        || send(rt, opened, &stage, errors),
        || serve_folder(rt, loading, port, &stage),
    );
    match (served, ended.close(rt)) {
        (Err(fault), Err(_)) => Err(LoadingFault::Serve(fault)),
        (_, Ok(loaded)) => Ok(loaded),
        (Ok(()), Err(fault)) => Err(LoadingFault::Load(fault)),
    }
}

fn load_of<'l>(loading: &'l Loading<'_>, port: u16, shows: bool) -> Load<'l> {
    Load {
        port,
        index: loading.index,
        id: loading.id,
        files: &loading.files,
        refused: loading.refused,
        shows,
    }
}

/// A port that nobody has just now.
fn free_port<R: Net<Listener = TcpListener, Stream = TcpStream>>(rt: &R) -> io::Result<u16> {
    let listener = TcpListener::bind(rt, ("127.0.0.1", 0))?;
    Ok(listener.local_addr()?.port())
}

/// Serves the folder to one connection. Searches see nothing meanwhile, so nothing is built for them.
fn serve_folder<R>(
    rt: &R,
    loading: &Loading<'_>,
    port: u16,
    stage: &Stage,
) -> Result<(), ServeFault>
where
    R: Files<File = File>
        + Clock
        + AllocGlobal
        + RandomSource
        + Net<Listener = TcpListener, Stream = TcpStream>
        + Threads
        + Wait
        + Copy
        + Send
        + Sync
        + Drop
        + 'static,
{
    if !has_begun(rt, stage) {
        stage.has_ended.store(true, Ordering::SeqCst);
        return Ok(());
    }
    let alloc = rt.alloc();
    let settings = Settings {
        port,
        index: loading.index,
        mapping: loading.mapping,
        data: Some(loading.data),
        syncing: None,
        copies: 1,
        connections: Some(1),
        audit: false,
        journals: None,
        refresh: 0,
        threads: 2,
        idle: 3_600,
        request_bytes: ROOM,
        page_bytes: ROOM,
        until_input_ends: false,
        input_end: None,
        explains: false,
        at_terminal: false,
    };
    let rule = Rule {
        greets: false,
        admission: Admission {
            origins: Vec::new(alloc),
            names: Vec::new(alloc),
        },
        most: MOST_BODY,
        idle: None,
    };
    let (mut output, mut errors) = (io::sink(), io::sink());
    let served = serve(rt, settings, &rule, &mut output, &mut errors);
    stage.has_ended.store(true, Ordering::SeqCst);
    drop(rule);
    served
}

/// Whether the load has a thread. It gets one at once, or none.
fn has_begun<R: Clock>(rt: &R, stage: &Stage) -> bool {
    for _ in 0..PATIENCE {
        if stage.has_begun.load(Ordering::SeqCst) {
            return true;
        }
        thread::sleep(rt, Duration::from_millis(TICK));
    }
    false
}

/// Loads once the server listens, and then has the server end.
fn send<'a, R: Net<Stream = TcpStream> + Clock + AllocGlobal, E: Write>(
    rt: &R,
    opened: Opened<'a>,
    stage: &Stage,
    errors: &mut E,
) -> Ended<'a> {
    stage.has_begun.store(true, Ordering::SeqCst);
    let port = opened.port();
    let ended = opened.send(rt, Some(&stage.has_ended), errors);
    end_server(rt, port, stage);
    ended
}

/// Connects until the server has ended, which waits for one connection.
fn end_server<R: Net<Stream = TcpStream> + Clock>(rt: &R, port: u16, stage: &Stage) {
    for _ in 0..u64::MAX {
        if stage.has_ended.load(Ordering::SeqCst) {
            return;
        }
        let _ = TcpStream::connect(rt, ("127.0.0.1", port));
        thread::sleep(rt, Duration::from_millis(TICK));
    }
}
