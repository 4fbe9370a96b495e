//! What the command line asks for.

use crate::loads::Loading;
use clap::ArgMatches;
use folder::{Dumped, Parts};
use server::{Admission, Rule, Settings, Syncing};
use std::alloc::{AllocError, Global};
use usage::command;

/// How many bytes a megabyte of `--request-mb`, `--body-mb` and `--page-mb` has.
const MEGABYTE: u64 = 1_048_576;

/// How many megabytes a bulk may have to a server that greets, where nothing else is said.
const MOST_OF_BULK: u64 = 32;

/// The script that is to be played, and whether refusals are explained.
#[derive(Clone, Copy)]
pub(crate) struct Played<'a> {
    pub file: &'a str,
    pub explains: bool,
}

/// What the command line asks for.
#[derive(Drop)]
pub(crate) enum Task<'a> {
    /// To play a script.
    Replay(Played<'a>),
    /// To serve an index by a rule.
    Serve(Settings<'a>, Rule),
    /// To write what a folder keeps.
    Dump(Dumped<'a>),
    /// To judge the journals of a folder.
    Audit(&'a str),
    /// To say what logs hold.
    Inspect(&'a [String]),
    /// To draw a script, or the journals of a folder.
    Draw(&'a str),
    /// To load documents.
    Load(Loading<'a>),
    /// To print the manual page.
    Manual,
}

/// What the command line asks for, or what is wrong with it.
pub(crate) fn task_of<'a>(alloc: Global, words: &'a [String]) -> Result<Task<'a>, clap::Error> {
    if words.len() == 2 && words[1].as_str() == "--man" {
        return Ok(Task::Manual);
    }
    let matches = command(alloc)?.try_get_matches_from(words)?;
    match matches.subcommand() {
        Some(("serve", options)) => {
            Ok(Task::Serve(settings_of(options), rule_of(alloc, options)?))
        }
        Some(("dump", options)) => Ok(Task::Dump(dumped_of(options))),
        Some(("audit", options)) => Ok(Task::Audit(options.get_str("DIR").unwrap_or("."))),
        Some(("draw", options)) => Ok(Task::Draw(options.get_str("FILE").unwrap_or("-"))),
        Some(("load", options)) => Ok(Task::Load(loading_of(alloc, options)?)),
        Some(("inspect", _)) => Ok(Task::Inspect(inspected_of(words))),
        Some((_, options)) => Ok(Task::Replay(played_of(options))),
        None => Ok(Task::Replay(Played {
            file: "-",
            explains: false,
        })),
    }
}

fn played_of<'a>(options: &ArgMatches<'a>) -> Played<'a> {
    Played {
        file: options.get_str("FILE").unwrap_or("-"),
        explains: options.get_flag("explain"),
    }
}

/// When the logs of a folder are synced, where that is said.
fn syncing_of(options: &ArgMatches<'_>) -> Option<Syncing> {
    match options.get_str("sync")? {
        "together" => Some(Syncing::Together),
        _ => Some(Syncing::Each),
    }
}

/// How many threads answer where that isn't said: while one waits for a sync, others may do what it brings to the disk.
fn threads_beside(syncing: Option<Syncing>) -> u64 {
    match syncing {
        Some(Syncing::Together) => 64,
        Some(Syncing::Each) | None => 8,
    }
}

fn settings_of<'a>(options: &ArgMatches<'a>) -> Settings<'a> {
    let syncing = syncing_of(options);
    Settings {
        port: options.get_one::<u16>("port").unwrap_or(0),
        index: options.get_str("index").unwrap_or("index"),
        mapping: options.get_str("mapping"),
        data: options.get_str("data"),
        syncing,
        copies: options.get_one::<u64>("copies").unwrap_or(1),
        audit: options.get_flag("audit"),
        journals: options.get_str("journals"),
        refresh: options.get_one::<u64>("refresh-ms").unwrap_or(1_000),
        threads: options
            .get_one::<u64>("threads")
            .unwrap_or(threads_beside(syncing)),
        idle: idle_of(options),
        request_bytes: options
            .get_one::<u64>("request-mb")
            .unwrap_or(64)
            .saturating_mul(MEGABYTE),
        page_bytes: options
            .get_one::<u64>("page-mb")
            .unwrap_or(64)
            .saturating_mul(MEGABYTE),
        until_input_ends: options.get_flag("until-input-ends"),
        input_end: None,
        explains: options.get_flag("explain"),
        connections: options.get_one::<u64>("connections"),
        at_terminal: false,
    }
}

/// How requests are answered, and of whom.
fn rule_of(alloc: Global, options: &ArgMatches<'_>) -> Result<Rule, AllocError> {
    let origins = texts_of(alloc, options, "cors")?;
    let names = texts_of(alloc, options, "host-name")?;
    let greets = options.get_flag("greet");
    let most = options.get_one::<u64>("body-mb").unwrap_or(MOST_OF_BULK);
    Ok(Rule {
        greets,
        admission: Admission { origins, names },
        most: if greets { bytes_of(most) } else { bytes_of(1) },
        idle: kept_seconds(idle_of(options)),
    })
}

/// How many bytes some megabytes have.
fn bytes_of(megabytes: u64) -> u32 {
    u32::try_from(megabytes.saturating_mul(MEGABYTE)).unwrap_or(u32::MAX)
}

/// For how many seconds a connection is kept that has no request.
fn idle_of(options: &ArgMatches<'_>) -> u64 {
    options.get_one::<u64>("idle-s").unwrap_or(60)
}

/// For how many seconds a client should keep such a connection: less than the server does, so that it never asks just when the server ends it.
fn kept_seconds(idle: u64) -> Option<u64> {
    match idle.saturating_sub(1) {
        0 => None,
        seconds => Some(seconds),
    }
}

/// The texts that an option was given.
fn texts_of(
    alloc: Global,
    options: &ArgMatches<'_>,
    name: &str,
) -> Result<Vec<String>, AllocError> {
    let mut texts = Vec::new(alloc);
    for text in options.get_strs(name).unwrap_or(&[]) {
        texts.push(String::from_str(alloc, text)?)?;
    }
    Ok(texts)
}

fn dumped_of<'a>(options: &ArgMatches<'a>) -> Dumped<'a> {
    Dumped {
        data: options.get_str("data").unwrap_or("."),
        mapping: options.get_flag("mapping"),
        damaged: options.get_flag("damaged"),
        parts: parts_of(options),
    }
}

fn loading_of<'a>(alloc: Global, options: &ArgMatches<'a>) -> Result<Loading<'a>, AllocError> {
    Ok(Loading {
        port: options.get_one::<u16>("port"),
        data: options.get_str("data").unwrap_or("."),
        mapping: options.get_str("mapping"),
        index: options.get_str("index").unwrap_or("index"),
        id: options.get_str("id"),
        refused: options.get_str("refused").unwrap_or("load.refused"),
        files: texts_of(alloc, options, "FILE")?,
    })
}

/// The files that a dump is written to, where it isn't the output.
fn parts_of<'a>(options: &ArgMatches<'a>) -> Option<Parts<'a>> {
    Some(Parts {
        folder: options.get_str("to")?,
        bytes: options.get_one::<u64>("bytes")?,
    })
}

/// The files that `inspect` names: it has no options, so they are all the words after it.
fn inspected_of(words: &[String]) -> &[String] {
    match words.get(2..) {
        Some(files) => files,
        None => words,
    }
}
