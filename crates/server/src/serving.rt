//! Serving an index over HTTP on 127.0.0.1.

use crate::admission::check_admission;
use crate::ending::InputEnd;
use crate::fault::ServeFault;
use crate::index_name::is_index_name;
use crate::listening::listen;
use crate::lone::{open_alone, serve_kept};
use crate::mapping::{in_memory, mapping_of};
use crate::members::{serve_copies, serve_kept_copies};
use crate::settings::{Settings, check};
use cluster::Syncing;
use folder::{DataFault, MappingFile, SumFaults};
use front::Rule;
use std::fs::File;
use std::io::Write;
use std::net::{Net, TcpListener, TcpStream};
use std::random::RandomSource;
use std::rt::Files;
use std::sync::Wait;
use std::thread::Threads;
use std::time::Clock;

/// Serves an index by a rule until the last connection that is wanted has ended. Where it listens is printed first.
pub fn serve<R, O, E>(
    rt: &R,
    settings: Settings<'_>,
    rule: &Rule,
    output: &mut O,
    errors: &mut E,
) -> Result<(), ServeFault>
where
    R: Files<File = File>
        + AllocGlobal
        + RandomSource
        + Net<Listener = TcpListener, Stream = TcpStream>
        + Threads
        + Wait
        + Clock
        + Copy
        + Send
        + Sync
        + Drop
        + 'static,
    O: Write,
    E: Write + Send,
{
    if !is_index_name(settings.index) {
        return Err(ServeFault::IndexName);
    }
    check(settings)?;
    check_admission(rt.alloc(), &rule.admission)?;
    let mapping = mapping_of(rt, settings.mapping)?;
    let input_end = InputEnd::watched(rt, settings.until_input_ends).map_err(ServeFault::Input)?;
    let settings = Settings {
        input_end: Some(&input_end),
        ..settings
    };
    let ended = serve_under(rt, settings, rule, mapping.as_ref(), output, errors);
    drop(mapping);
    ended
}

/// Serves an index under a mapping, where one is given.
fn serve_under<'x, R, O, E>(
    rt: &R,
    settings: Settings<'x>,
    rule: &Rule,
    mapping: Option<&'x MappingFile>,
    output: &mut O,
    errors: &mut E,
) -> Result<(), ServeFault>
where
    R: Files<File = File>
        + AllocGlobal
        + RandomSource
        + Net<Listener = TcpListener, Stream = TcpStream>
        + Threads
        + Wait
        + Clock
        + Copy
        + Send
        + Sync
        + Drop
        + 'static,
    O: Write,
    E: Write + Send,
{
    let Some(folder) = settings.data else {
        return serve_memory(rt, settings, rule, mapping, output, errors);
    };
    if settings.copies == 1 && settings.when_synced() == Syncing::Each && !settings.audit {
        match open_alone(rt, settings, folder, mapping, errors) {
            Ok(kept) => return serve_kept(rt, settings, rule, kept, output, errors),
            Err(DataFault::SeveralCopies) => {}
            Err(fault) => return Err(ServeFault::from(fault)),
        }
    }
    serve_kept_copies(rt, settings, rule, folder, mapping, output, errors)
}

/// Serves a new index in memory.
fn serve_memory<'x, R, O, E>(
    rt: &R,
    settings: Settings<'x>,
    rule: &Rule,
    mapping: Option<&'x MappingFile>,
    output: &mut O,
    errors: &mut E,
) -> Result<(), ServeFault>
where
    R: Files<File = File>
        + AllocGlobal
        + RandomSource
        + Net<Listener = TcpListener, Stream = TcpStream>
        + Threads
        + Wait
        + Clock
        + Copy
        + Send
        + Sync
        + Drop
        + 'static,
    O: Write,
    E: Write + Send,
{
    if settings.copies > 1 || settings.audit {
        return serve_copies(rt, settings, rule, mapping, output, errors);
    }
    match in_memory(rt, settings.index, mapping) {
        Ok(shard) => listen(rt, settings, rule, shard, &SumFaults::new(), output, errors),
        Err(fault) => Err(fault),
    }
}
