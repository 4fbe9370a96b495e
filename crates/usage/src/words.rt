//! The words of the command line.

use crate::texts::{DRAWN, INSPECTED, JUDGED, KEPT, LINES, LOADED, MOVED};
use clap::{Arg, ArgAction, Command};
use std::alloc::{AllocError, Global};

/// The words that the command line takes, with what `--help` says of them.
pub fn command<'a>(alloc: Global) -> Result<Command<'a>, AllocError> {
    let command = Command::new(alloc, "indexd")
        .version("0.1.0")
        .about("An index of JSON documents whose promises are proved")
        .after_help(LINES)
        .subcommand_required(true);
    let command = with_subcommand(command, replay_command(alloc))?;
    let command = with_subcommand(command, serve_command(alloc))?;
    let command = with_subcommand(command, load_command(alloc))?;
    let command = with_subcommand(command, dump_command(alloc))?;
    let command = with_subcommand(command, draw_command(alloc))?;
    let command = with_subcommand(command, audit_command(alloc))?;
    let command = with_subcommand(command, inspect_command(alloc))?;
    with_flag(
        alloc,
        command,
        "man",
        "Prints the manual page, for `man -l`",
    )
}

fn draw_command<'a>(alloc: Global) -> Result<Command<'a>, AllocError> {
    let file = Arg::new(alloc, "FILE")
        .required(true)
        .action(ArgAction::Set)
        .help("The script, `-` for standard input, or a folder of journals");
    Command::new(alloc, "draw")
        .about("Draws a script or journals as SVG: who sent what to whom, and what became of it")
        .after_help(DRAWN)
        .arg(file)
}

fn load_command<'a>(alloc: Global) -> Result<Command<'a>, AllocError> {
    let command = Command::new(alloc, "load")
        .about("Loads documents into a server that runs, or into a folder")
        .after_help(LOADED);
    let command = with_target(alloc, command)?;
    let command = with_text(
        alloc,
        command,
        "index",
        "NAME",
        "The name of the server's index; `index` where none is given",
    )?;
    let command = with_text(
        alloc,
        command,
        "id",
        "FIELD",
        "Each line is one document, and this field of it is its id; else the lines are those of a bulk",
    )?;
    let command = with_text(
        alloc,
        command,
        "refused",
        "FILE",
        "The new file of the lines that are refused, each with the reason; `load.refused` where none is given",
    )?;
    let files = Arg::new(alloc, "FILE")
        .required(true)
        .num_args(1..)
        .action(ArgAction::Append)
        .help("The files of the documents; `-` for standard input");
    command.arg(files)
}

/// The options of `load` that say where the documents go.
fn with_target<'a>(alloc: Global, command: Command<'a>) -> Result<Command<'a>, AllocError> {
    let port = option(
        alloc,
        "port",
        "The port of a server on 127.0.0.1; this or --data",
    )
    .value_name("P")
    .value_parser(clap::value_parser!(u16).range(1..));
    let command = with_option(command, port.conflicts_with("data"))?;
    let data = option(
        alloc,
        "data",
        "The folder of an index, which is made where it is missing; no server may have it",
    )
    .value_name("DIR");
    let command = with_option(command, data.required_unless_present("port"))?;
    let mapping = option(
        alloc,
        "mapping",
        "The file of the mapping of a new folder; with --data alone",
    )
    .value_name("FILE");
    with_option(command, mapping.conflicts_with("port"))
}

fn replay_command<'a>(alloc: Global) -> Result<Command<'a>, AllocError> {
    let file = Arg::new(alloc, "FILE")
        .required(true)
        .action(ArgAction::Set)
        .help("The script, or `-` for standard input");
    let command = Command::new(alloc, "replay")
        .about("Plays a script over a new index, and prints what each line answers")
        .after_help(LINES)
        .arg(file)?;
    with_flag(
        alloc,
        command,
        "explain",
        "Says on standard error why each line is refused (at a terminal it always does)",
    )
}

fn serve_command<'a>(alloc: Global) -> Result<Command<'a>, AllocError> {
    let command = Command::new(alloc, "serve")
        .about("Serves an index over HTTP, as Elasticsearch's requests ask it")
        .after_help(KEPT);
    with_answers(
        alloc,
        with_clients(alloc, with_run(alloc, with_index(alloc, command)?)?)?,
    )
}

/// The options of `serve` that say what is served, and where.
fn with_index<'a>(alloc: Global, command: Command<'a>) -> Result<Command<'a>, AllocError> {
    let port = option(alloc, "port", "The port on 127.0.0.1, 1 to 65535")
        .required(true)
        .value_name("P")
        .value_parser(clap::value_parser!(u16).range(1..));
    let command = command.arg(port)?;
    let command = with_text(
        alloc,
        command,
        "index",
        "NAME",
        "The name of the index; `index` where none is given",
    )?;
    let command = with_text(
        alloc,
        command,
        "mapping",
        "FILE",
        "The file of the mapping; where none is given, the one that is kept, or an empty one",
    )?;
    with_text(
        alloc,
        command,
        "data",
        "DIR",
        "The folder that the index is kept in; where none is given, it is in memory and ends with the server",
    )
}

/// When the logs of a folder may be synced.
const SYNCS: [&str; 2] = ["each", "together"];

/// The options of `serve` that say how connections are served.
fn with_clients<'a>(alloc: Global, command: Command<'a>) -> Result<Command<'a>, AllocError> {
    let command = with_number(
        alloc,
        command,
        "threads",
        "How many threads answer requests, 1 to 64; where none is given 8, or 64 with `--sync together`",
        1,
        64,
    )?;
    let command = with_number(
        alloc,
        command,
        "idle-s",
        "For how many seconds a connection is kept that has no request, 1 to 3600; 60 where none is given",
        1,
        3_600,
    )?;
    let command = with_number(
        alloc,
        command,
        "request-mb",
        "How many MB of unfinished requests there are at once, 4 to 4096; 64 where none is given",
        4,
        4_096,
    )?;
    let command = with_option(command, body_option(alloc))?;
    let command = with_number(
        alloc,
        command,
        "page-mb",
        "After how many MB of pages that aren't sent searches wait, 1 to 4096; 64 where none is given",
        1,
        4_096,
    )?;
    with_flag(
        alloc,
        command,
        "until-input-ends",
        "Ends in order when standard input ends: requests that came whole are answered, and the status is 0",
    )
}

fn body_option<'a>(alloc: Global) -> Result<Arg<'a>, AllocError> {
    option(
        alloc,
        "body-mb",
        "How many MB a bulk may have, 1 to 1024; with --greet alone, which takes 32 where none is given",
    )
    .value_name("N")
    .value_parser(clap::value_parser!(u64).range(1..=1_024))
    .requires_arg("greet")
}

/// The options of `serve` that say how requests are answered.
fn with_answers<'a>(alloc: Global, command: Command<'a>) -> Result<Command<'a>, AllocError> {
    let command = with_flag(
        alloc,
        command,
        "explain",
        "Says on standard error why each request is refused (at a terminal it always does)",
    )?;
    let command = with_flag(
        alloc,
        command,
        "greet",
        "Answers GET / and HEAD as Elasticsearch 7.10 does, so that its clients run",
    )?;
    let command = with_texts(
        alloc,
        command,
        "cors",
        "ORIGIN",
        "Lets web pages of this origin ask, as `https://shop.example`; `*` lets pages of all origins; may be given again",
    )?;
    with_texts(
        alloc,
        command,
        "host-name",
        "NAME",
        "Answers requests whose host is this name; may be given again",
    )
}

/// The options of `serve` that say how many copies run, and for how long.
fn with_run<'a>(alloc: Global, command: Command<'a>) -> Result<Command<'a>, AllocError> {
    let command = with_number(
        alloc,
        command,
        "copies",
        "How many copies the index has, 1 to 5, each on a thread of its own; 1 where none is given",
        1,
        5,
    )?;
    let sync = option(
        alloc,
        "sync",
        "Whether each write is synced by itself, or those together that wait; with --data alone, `each` where none is given",
    )
    .value_name("WHICH")
    .value_parser(SYNCS.as_slice());
    let command = command.arg(sync)?;
    with_ends(alloc, command)
}

/// The options of `serve` that say when it ends, what is audited then, and how often the index is refreshed.
fn with_ends<'a>(alloc: Global, command: Command<'a>) -> Result<Command<'a>, AllocError> {
    let command = with_number(
        alloc,
        command,
        "connections",
        "After how many connections to end; no end where none is given",
        1,
        1_000_000,
    )?;
    let command = with_flag(
        alloc,
        command,
        "audit",
        "Audits at the end what the copies did; with --connections alone",
    )?;
    let command = with_text(
        alloc,
        command,
        "journals",
        "DIR",
        "The folder that the journals are written to before they are audited; with --audit alone",
    )?;
    with_number(
        alloc,
        command,
        "refresh-ms",
        "After how many milliseconds the index is refreshed again, or sooner, after 2048 writes; up to 3600000; 0 for never, 1000 where none is given",
        0,
        3_600_000,
    )
}

fn dump_command<'a>(alloc: Global) -> Result<Command<'a>, AllocError> {
    let data = option(
        alloc,
        "data",
        "The folder that the index is kept in; nothing of it is changed",
    )
    .required(true)
    .value_name("DIR");
    let command = Command::new(alloc, "dump")
        .about("Writes the documents of a folder as the lines of a bulk request")
        .after_help(MOVED)
        .arg(data)?;
    let command = with_flag(
        alloc,
        command,
        "mapping",
        "Writes the mapping, on one line, and no documents",
    )?;
    let command = with_flag(
        alloc,
        command,
        "damaged",
        "Writes what is whole of a damaged log, and says what is left out",
    )?;
    with_parts(alloc, command)
}

/// The options of `dump` that say which files it writes.
fn with_parts<'a>(alloc: Global, command: Command<'a>) -> Result<Command<'a>, AllocError> {
    let command = with_option(command, bytes_option(alloc))?;
    with_option(command, folder_option(alloc))
}

fn bytes_option<'a>(alloc: Global) -> Result<Arg<'a>, AllocError> {
    let bytes = option(
        alloc,
        "bytes",
        "Writes the documents to files of at most so many bytes; with --to alone",
    )
    .value_name("N")
    .value_parser(clap::value_parser!(u64).range(1..));
    match bytes.requires_arg("to") {
        Ok(bytes) => bytes.conflicts_with("mapping"),
        Err(fault) => Err(fault),
    }
}

fn folder_option<'a>(alloc: Global) -> Result<Arg<'a>, AllocError> {
    option(
        alloc,
        "to",
        "The folder of these files, new or empty; with --bytes alone",
    )
    .value_name("FOLDER")
    .requires_arg("bytes")
}

fn audit_command<'a>(alloc: Global) -> Result<Command<'a>, AllocError> {
    let folder = Arg::new(alloc, "DIR")
        .required(true)
        .action(ArgAction::Set)
        .help("The folder with master.journal, copy-1.journal and so on");
    Command::new(alloc, "audit")
        .about("Says whether the journals of a folder are those of one run of the model")
        .after_help(JUDGED)
        .arg(folder)
}

fn inspect_command<'a>(alloc: Global) -> Result<Command<'a>, AllocError> {
    let files = Arg::new(alloc, "FILE")
        .required(true)
        .num_args(1..)
        .action(ArgAction::Append)
        .help("The log of a copy, as copy-1.rsx of the folder that an index is kept in");
    Command::new(alloc, "inspect")
        .about("Says how many records the log of a copy has, and whether its end is torn")
        .after_help(INSPECTED)
        .arg(files)
}

/// Adds an option whose value is a text.
fn with_text<'a>(
    alloc: Global,
    command: Command<'a>,
    name: &'a str,
    value: &'a str,
    help: &'a str,
) -> Result<Command<'a>, AllocError> {
    command.arg(option(alloc, name, help).value_name(value))
}

/// Adds an option whose value is a text, and which may be given again.
fn with_texts<'a>(
    alloc: Global,
    command: Command<'a>,
    name: &'a str,
    value: &'a str,
    help: &'a str,
) -> Result<Command<'a>, AllocError> {
    let texts = option(alloc, name, help)
        .action(ArgAction::Append)
        .value_name(value);
    command.arg(texts)
}

/// Adds an option whose value is a number of at least `least` and at most `most`.
fn with_number<'a>(
    alloc: Global,
    command: Command<'a>,
    name: &'a str,
    help: &'a str,
    least: i64,
    most: i64,
) -> Result<Command<'a>, AllocError> {
    let number = option(alloc, name, help)
        .value_name("N")
        .value_parser(clap::value_parser!(u64).range(least..=most));
    command.arg(number)
}

/// Adds an option without a value.
fn with_flag<'a>(
    alloc: Global,
    command: Command<'a>,
    name: &'a str,
    help: &'a str,
) -> Result<Command<'a>, AllocError> {
    let flag = Arg::new(alloc, name)
        .long(name)
        .action(ArgAction::SetTrue)
        .help(help);
    command.arg(flag)
}

/// Adds a subcommand, where it could be made.
fn with_subcommand<'a>(
    command: Command<'a>,
    made: Result<Command<'a>, AllocError>,
) -> Result<Command<'a>, AllocError> {
    match made {
        Ok(subcommand) => command.subcommand(subcommand),
        Err(fault) => {
            drop(command);
            Err(fault)
        }
    }
}

/// Adds an option, where it could be made.
fn with_option<'a>(
    command: Command<'a>,
    made: Result<Arg<'a>, AllocError>,
) -> Result<Command<'a>, AllocError> {
    match made {
        Ok(option) => command.arg(option),
        Err(fault) => {
            drop(command);
            Err(fault)
        }
    }
}

/// An option with a value.
fn option<'a>(alloc: Global, name: &'a str, help: &'a str) -> Arg<'a> {
    Arg::new(alloc, name)
        .long(name)
        .action(ArgAction::Set)
        .help(help)
}
