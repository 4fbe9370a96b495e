//! The program: its command line, its streams, and its exit status.
ghost use Rattle.std.specs.Prelude.{◌≡◌, ◌<◌, IfSome, OnOk, codes};
ghost use Rattle.std.specs.Io.KnownBytes.{Appends};
ghost use Rattle.scripts.specs.Output.{lines};

use crate::command_line::{Played, Task, task_of};
use crate::loads::run_load;
use crate::pictures::run_draw;
use clap::error::ErrorKind;
use folder::{Dumped, dump, inspect, judge_folder};
use reasons::escaped;
use scripts::{Flushing, Listener, ReplayFault, Teller, Wanted, replay_telling, shown};
use server::{Rule, Settings, serve};
use std::alloc::Global;
use std::fs::File;
use std::io::{BufRead, BufReader, Write};
use std::net::{Net, TcpListener, TcpStream};
use std::random::RandomSource;
use std::rt::Files;
use std::sync::Wait;
use std::thread::Threads;
use std::time::Clock;
use std::{fs, io};
use usage::manual_page;

/// The paths by which a program sees its own standard streams (Linux).
const STANDARD_INPUT: &str = "/proc/self/fd/0";

const STANDARD_OUTPUT: &str = "/proc/self/fd/1";

/// Which of the program's streams are terminals.
#[derive(Clone, Copy, Debug, PartialEq, Eq)]
pub struct Terminals {
    pub output: bool,
    pub errors: bool,
}

/// Why the program ends with status 1.
#[derive(Debug, Drop)]
enum ProgramFault {
    Open(io::Error),
    Replay(ReplayFault),
}

/// Runs the program on its words (the first is its name), and answers its exit status: 0, or 1 with one line
/// `indexd: TEXT` on `errors`, or 2 with a usage text there where the words can't be read.
pub fn program<R, I: BufRead, O: Write, E: Write + Send>(
    rt: &R,
    words: &[String],
    terminals: Terminals,
    input: &mut I,
    output: &mut O,
    errors: &mut E,
) -> u8
where
    R: Files<File = File>
        + Clock
        + AllocGlobal
        + RandomSource
        + Net<Listener = TcpListener, Stream = TcpStream>
        + Threads
        + Wait
        + Copy
        + Send
        + Sync
        + Drop
        + 'static,
    ensures { result < 3 }
{
    match task_of(rt.alloc(), words) {
        Ok(Task::Replay(played)) => run(rt, played, terminals, input, output, errors),
        Ok(Task::Serve(settings, rule)) => {
            let settings = Settings {
                at_terminal: terminals.errors,
                explains: settings.explains || terminals.errors,
                ..settings
            };
            let status = run_server(rt, settings, &rule, output, errors);
            drop(rule);
            status
        }
        Ok(Task::Dump(dumped)) => run_dump(rt, dumped, output, errors),
        Ok(Task::Audit(folder)) => run_audit(rt, folder, terminals.errors, output, errors),
        Ok(Task::Inspect(files)) => run_inspect(rt, files, output, errors),
        Ok(Task::Draw(file)) => run_draw(rt, file, input, output, errors),
        Ok(Task::Load(loading)) => {
            let status = run_load(rt, &loading, terminals.errors, output, errors);
            drop(loading);
            status
        }
        Ok(Task::Manual) => print_manual(rt.alloc(), output, errors),
        Err(error) => explain(rt.alloc(), &error, output, errors),
    }
}

/// Serves an index, and answers the exit status: 0, or 1 with one line on `errors`.
fn run_server<R, O: Write, E: Write + Send>(
    rt: &R,
    settings: Settings<'_>,
    rule: &Rule,
    output: &mut O,
    errors: &mut E,
) -> u8
where
    R: Files<File = File>
        + Clock
        + AllocGlobal
        + RandomSource
        + Net<Listener = TcpListener, Stream = TcpStream>
        + Threads
        + Wait
        + Copy
        + Send
        + Sync
        + Drop
        + 'static,
    ensures { result < 2 }
{
    match serve(rt, settings, rule, output, errors) {
        Ok(()) => 0,
        Err(fault) => {
            let _ = writeln!(errors, "indexd: {fault}");
            1
        }
    }
}

/// Writes what a folder keeps, and answers the exit status: 0, or 1 with one line on `errors`.
fn run_dump<R: Files<File = File> + AllocGlobal + Clone + Drop, O: Write, E: Write>(
    rt: &R,
    dumped: Dumped<'_>,
    output: &mut O,
    errors: &mut E,
) -> u8
    ensures { result < 2 }
{
    match dump(rt, dumped, output, errors) {
        Ok(()) => 0,
        Err(fault) => {
            let _ = writeln!(errors, "indexd: {fault}");
            1
        }
    }
}

/// Says what logs have, and answers the exit status: 0, or 1 with one line on `errors`.
fn run_inspect<R: Files<File = File> + AllocGlobal, O: Write, E: Write>(
    rt: &R,
    files: &[String],
    output: &mut O,
    errors: &mut E,
) -> u8
    ensures { result < 2 }
{
    match inspect(rt, files, output) {
        Ok(()) => 0,
        Err(fault) => {
            let _ = writeln!(errors, "indexd: {fault}");
            1
        }
    }
}

/// Judges the journals of a folder, and answers the exit status: 0, or 1 with one line on `errors`.
fn run_audit<R: Files + AllocGlobal, O: Write, E: Write>(
    rt: &R,
    folder: &str,
    explains: bool,
    output: &mut O,
    errors: &mut E,
) -> u8
    ensures { result < 2 }
{
    match judge_folder(rt, folder, explains, output, errors) {
        Ok(()) => 0,
        Err(fault) => {
            let _ = writeln!(errors, "{fault}");
            1
        }
    }
}

/// Plays a script, and answers the exit status: 0, or 1 with one line on `errors`.
fn run<R: Files + Clock + AllocGlobal, I: BufRead, O: Write, E: Write>(
    rt: &R,
    words: Played<'_>,
    terminals: Terminals,
    input: &mut I,
    output: &mut O,
    errors: &mut E,
) -> u8
    ensures status { result < 2 }
    ensures whole { result ≡ 0 → words.entry.file.now ≡ codes "-" → IfSome (I.remaining input.old) (λ script.
        Appends (O.contents output.old) (O.contents output.new) (lines script)) }
{
    let Ok(file) = shown(rt.alloc(), words.file) else {
        let _ = writeln!(errors, "indexd: out of memory");
        return 1;
    };
    let wanted = Wanted {
        explains: words.explains || terminals.errors,
        progress: terminals.errors && !terminals.output,
    };
    match play_telling(rt, words.file, &file, wanted, input, output, errors) {
        Ok(()) => 0,
        Err(fault) => {
            report(errors, &file, &fault);
            1
        }
    }
}

/// Prints the one line of a fault.
fn report<E: Write>(errors: &mut E, file: &str, fault: &ProgramFault) {
    let _ = match fault {
        ProgramFault::Open(error) => writeln!(errors, "indexd: {file} can't be opened: {error}"),
        ProgramFault::Replay(fault) => writeln!(errors, "indexd: {fault}"),
    };
}

/// Prints the manual page, and answers the exit status.
fn print_manual<O: Write, E: Write>(alloc: Global, output: &mut O, errors: &mut E) -> u8
    ensures { result < 2 }
{
    let printed = match manual_page(alloc) {
        Ok(page) => match write!(output, "{page}") {
            Ok(()) => output.flush(),
            Err(error) => Err(error),
        },
        Err(refused) => Err(io::Error::from(refused)),
    };
    match printed {
        Ok(()) => 0,
        Err(error) => {
            let _ = writeln!(errors, "indexd: the output can't be written: {error}");
            1
        }
    }
}

/// Prints what the command line asked for, or what is wrong with it.
fn explain<O: Write, E: Write>(
    alloc: Global,
    error: &clap::Error,
    output: &mut O,
    errors: &mut E,
) -> u8
    ensures { result < 3 }
{
    match error.kind() {
        ErrorKind::DisplayHelp | ErrorKind::DisplayVersion => {
            let _ = write!(output, "{error}");
            let _ = output.flush();
            0
        }
        ErrorKind::OutOfMemory => {
            let _ = writeln!(errors, "indexd: out of memory");
            1
        }
        _ => {
            let _ = write_escaped(alloc, error, errors);
            2
        }
    }
}

/// Prints what is wrong with the command line, with what a terminal would act on escaped.
fn write_escaped<E: Write>(alloc: Global, error: &clap::Error, errors: &mut E) -> io::Result<()> {
    let text = format!(in alloc; "{error}")?;
    for line in text.lines() {
        let line = escaped(alloc, line)?;
        writeln!(errors, "{line}")?;
    }
    Ok(())
}

/// Plays a script, and says on `errors` what is wanted of its lines; `name` is the file's there.
fn play_telling<R: Files + Clock + AllocGlobal, I: BufRead, O: Write, E: Write>(
    rt: &R,
    file: &str,
    name: &str,
    wanted: Wanted,
    input: &mut I,
    output: &mut O,
    errors: &mut E,
) -> Result<(), ProgramFault>
    ensures { OnOk result (file.now ≡ codes "-" → IfSome (I.remaining input.old) (λ script.
        Appends (O.contents output.old) (O.contents output.new) (lines script))) }
{
    let mut teller = Teller::new(errors, rt, name, wanted, size_of(rt, file));
    let played = play(rt, file, input, output, &mut teller);
    teller.end();
    played
}

/// Plays the script of a file, and that of the input where the file is `-`. After a write that failed nothing more is written.
fn play<R: Files + AllocGlobal, I: BufRead, O: Write, L: Listener>(
    rt: &R,
    file: &str,
    input: &mut I,
    output: &mut O,
    listener: &mut L,
) -> Result<(), ProgramFault>
    ensures { OnOk result (file.now ≡ codes "-" → IfSome (I.remaining input.old) (λ script.
        Appends (O.contents output.old) (O.contents output.new) (lines script))) }
{
    let flushing = flushing_for(rt, file);
    let played = if file == "-" {
        replay_telling(rt.alloc(), input, output, flushing, listener)
    } else {
        let opened = fs::open(rt, file).map_err(ProgramFault::Open)?;
        let mut reader = BufReader::new(rt.alloc(), opened).map_err(ProgramFault::Open)?;
        replay_telling(rt.alloc(), &mut reader, output, flushing, listener)
    };
    match played {
        Ok(()) => match output.flush() {
            Ok(()) => Ok(()),
            Err(error) => Err(ProgramFault::Replay(ReplayFault::Write(error))),
        },
        Err(ReplayFault::Write(error)) => Err(ProgramFault::Replay(ReplayFault::Write(error))),
        Err(fault) => {
            let _ = output.flush();
            Err(ProgramFault::Replay(fault))
        }
    }
}

/// From a regular file to a regular file the output is handed on as the buffer fills; else somebody may wait for the answer to a line.
fn flushing_for<R: Files>(rt: &R, file: &str) -> Flushing {
    if is_regular(rt, path_of(file)) && is_regular(rt, STANDARD_OUTPUT) {
        Flushing::ByTheWriter
    } else {
        Flushing::EachLine
    }
}

fn path_of(file: &str) -> &str {
    if file == "-" { STANDARD_INPUT } else { file }
}

/// Whether a path is that of a regular file. Where nobody can say, it counts as none.
fn is_regular<R: Files>(rt: &R, path: &str) -> bool {
    match fs::metadata(rt, path) {
        Ok(found) => found.is_file(),
        Err(_) => false,
    }
}

/// How many bytes a script has, where it is a regular file.
fn size_of<R: Files>(rt: &R, file: &str) -> Option<u64> {
    match fs::metadata(rt, path_of(file)) {
        Ok(found) => if found.is_file() {
            Some(found.len())
        } else {
            None
        },
        Err(_) => None,
    }
}
