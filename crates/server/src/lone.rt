//! An index of one copy in a folder.
ghost use Rattle.std.specs.Prelude.{◌≡◌, ◌<◌, ◌^◌, IfOk, length};
ghost use Rattle.std.specs.Arc.{arc_value};

use crate::fault::ServeFault;
use crate::listening::listen;
use crate::opening::OpeningLine;
use crate::settings::Settings;
use doc::{Mapping, Source};
use folder::{DataFault, KeptCopy, LogFile, MappingFile, SumFaults, TornEnd, open_copy};
use front::Rule;
use master::Master;
use segment::Segment;
use shard::Shard;
use std::alloc::{AllocError, Global};
use std::fs::File;
use std::io::Write;
use std::net::{Net, TcpListener, TcpStream};
use std::random::RandomSource;
use std::rt::Files;
use std::sync::{Arc, Wait};
use std::thread::Threads;
use std::time::Clock;

/// An index of one copy in a folder, which no other process serves while this value is there.
#[derive(Drop)]
pub(crate) struct KeptIndex {
    shard: Shard<LogFile>,
    /// Whether the copy leads. One that doesn't yet answers gets and searches.
    leads: bool,
    torn: Option<TornEnd>,
    faults: Arc<SumFaults, Global>,
    lock: File,
}

/// Opens the index of a folder, and shows meanwhile how far that is.
pub(crate) fn open_alone<R, E>(
    rt: &R,
    settings: Settings<'_>,
    folder: &str,
    mapping: Option<&MappingFile>,
    errors: &mut E,
) -> Result<KeptIndex, DataFault>
where
    R: Files<File = File> + AllocGlobal + RandomSource + Threads + Clock + Sync,
    E: Write + Send,
{
    let line = OpeningLine::of_one(rt, rt.alloc(), folder, settings.at_terminal)?;
    line.shown_while(
        rt,
        errors,
        || open_index(rt, folder, settings.index, mapping),
    )
}

/// Opens the index of a folder, whose copy then leads, and begins one where there is none. What searches look through is built on threads.
fn open_index<R: Files<File = File> + AllocGlobal + RandomSource + Threads + Sync>(
    rt: &R,
    path: &str,
    name: &str,
    given: Option<&MappingFile>,
) -> Result<KeptIndex, DataFault> {
    let builder = |alloc: Global, mapping: &Arc<Mapping, Global>, sources: Vec<Source>| -> Result<
        Segment,
        AllocError,
    >
        requires { length sources.items < 2 ^ 32 }
        ensures { IfOk result (λ s. s ≡ record { mapping = arc_value mapping.now; sources = sources.items }) }
    { Segment::build_on(rt, alloc, mapping, sources) };
    let faults = Arc::new(rt.alloc(), SumFaults::new())?;
    match open_copy(rt, &builder, path, given, &faults) {
        Ok(
            KeptCopy {
                master,
                copy,
                torn,
                lock,
            },
        ) => match led(rt.alloc(), name, master, copy) {
            Ok((shard, leads)) => Ok(KeptIndex {
                shard,
                leads,
                torn,
                faults,
                lock,
            }),
            Err(fault) => {
                drop(lock);
                Err(fault)
            }
        },
        Err(fault) => Err(fault),
    }
}

/// The index of a copy, which is made the primary, and whether it leads.
fn led(
    alloc: Global,
    name: &str,
    master: Master<LogFile>,
    copy: replica::Copy<LogFile>,
) -> Result<(Shard<LogFile>, bool), DataFault> {
    match String::from_str(alloc, name) {
        Ok(name) => leading(Shard::over(alloc, name, master, copy)),
        Err(_) => {
            drop(master);
            drop(copy);
            Err(DataFault::NoMemory)
        }
    }
}

/// Makes the copy the primary. Where only a log keeps it from leading that can't be written, as on a full disk, it is opened for reading.
fn leading(mut shard: Shard<LogFile>) -> Result<(Shard<LogFile>, bool), DataFault> {
    let fault = match shard.lead() {
        Ok(true) => return Ok((shard, true)),
        Ok(false) => if shard.is_in_sync() && shard.reopen().is_ok() && shard.is_open() {
            return Ok((shard, false));
        } else {
            DataFault::NotLed
        },
        Err(_) => DataFault::NoMemory,
    };
    drop(shard);
    Err(fault)
}

/// Serves an index of one copy that is kept in a folder.
pub(crate) fn serve_kept<R, O, E>(
    rt: &R,
    settings: Settings<'_>,
    rule: &Rule,
    kept: KeptIndex,
    output: &mut O,
    errors: &mut E,
) -> Result<(), ServeFault>
where
    R: AllocGlobal
        + Net<Listener = TcpListener, Stream = TcpStream>
        + Threads
        + Wait
        + Clock
        + Sync,
    O: Write,
    E: Write + Send,
{
    let KeptIndex {
        shard,
        leads,
        torn,
        faults,
        lock,
    } = kept;
    if let Some(torn) = torn {
        let _ = writeln!(errors, "indexd: {torn}");
    }
    if !leads {
        let _ = writeln!(
            errors,
            "indexd: copy-1.rsx or master.log can't be written, as on a full disk: gets and searches are answered, and writes are refused until both can"
        );
    }
    let ended = listen(rt, settings, rule, shard, &faults, output, errors);
    drop(lock);
    ended
}
