//! Taking a port, and serving what comes to it.
ghost use Rattle.std.specs.Prelude.{◌≡◌};

use crate::connections::{Index, serve_connections, serve_group};
use crate::fault::{ServeFault, ended};
use crate::lines::Lines;
use crate::settings::Settings;
use crate::telling::Telling;
use cell::IndexName;
use clients::Clients;
use folder::SumFaults;
use front::Rule;
use shard::{Begun, HistoryName, Shard, SharedShard};
use std::io;
use std::io::Write;
use std::marker::Brand;
use std::net::{Net, TcpListener, TcpStream};
use std::sync::Wait;
use std::thread::Threads;
use std::time::Clock;
use translog::LogDevice;

/// Takes the port, and serves the connections that come to it.
pub(crate) fn listen<R, O, E, D>(
    rt: &R,
    settings: Settings<'_>,
    rule: &Rule,
    shard: Shard<D>,
    faults: &SumFaults,
    output: &mut O,
    errors: &mut E,
) -> Result<(), ServeFault>
where
    R: AllocGlobal
        + Net<Listener = TcpListener, Stream = TcpStream>
        + Threads
        + Wait
        + Clock
        + Sync,
    O: Write,
    E: Write + Send,
    D: LogDevice + Send,
{
    let begun = Begun::new(shard);
    listen_to_one::<Brand, R, O, E, D>(rt, settings, rule, begun, faults, output, errors)
}

/// Takes the port of an index whose history has this name, and serves the connections that come to it.
fn listen_to_one<N, R, O, E, D>(
    rt: &R,
    settings: Settings<'_>,
    rule: &Rule,
    begun: Begun<D>,
    faults: &SumFaults,
    output: &mut O,
    errors: &mut E,
) -> Result<(), ServeFault>
where
    N: HistoryName + Send + Sync,
    R: AllocGlobal
        + Net<Listener = TcpListener, Stream = TcpStream>
        + Threads
        + Wait
        + Clock
        + Sync,
    O: Write,
    E: Write + Send,
    D: LogDevice + Send,
    requires { begun ≡ N.index }
{
    let shared: SharedShard<D, N> = SharedShard::new(rt.alloc(), begun)?;
    let lines = Lines::new(rt.alloc())?;
    let listener = bound(rt, settings.port, output)?;
    let ended = lines.written_while(
        rt,
        faults,
        errors,
        || serve_shared(rt, settings, rule, listener, &shared, &lines),
    );
    drop(lines);
    drop(shared);
    ended
}

/// Serves the connections that come to an index of one copy.
fn serve_shared<N, R, D>(
    rt: &R,
    settings: Settings<'_>,
    rule: &Rule,
    listener: TcpListener,
    shared: &SharedShard<D, N>,
    lines: &Lines,
) -> Result<(), ServeFault>
where
    N: HistoryName + Send + Sync,
    R: AllocGlobal
        + Net<Listener = TcpListener, Stream = TcpStream>
        + Threads
        + Wait
        + Clock
        + Sync,
    D: LogDevice + Send,
{
    let alloc = rt.alloc();
    let telling = Telling {
        rt,
        alloc,
        index: shared.index(),
        mapping: shared.mapping(),
        explains: settings.explains,
        input_end: settings.input_end,
        lines,
    };
    let clients = Clients::new(rt, alloc, listener, settings.limits(), rule, &telling).map_err(
        ended,
    )?;
    serve_connections(rt, alloc, &clients, shared).map_err(ended)
}

/// Takes the port, and serves the connections that come to it to copies on threads.
pub(crate) fn listen_to_group<R, O, E, D, J>(
    rt: &R,
    settings: Settings<'_>,
    rule: &Rule,
    index: &Index<'_, R, D, J>,
    faults: &SumFaults,
    output: &mut O,
    errors: &mut E,
) -> Result<(), ServeFault>
where
    R: AllocGlobal
        + Net<Listener = TcpListener, Stream = TcpStream>
        + Threads
        + Wait
        + Clock
        + Send
        + Sync
        + Drop,
    O: Write,
    E: Write + Send,
    D: LogDevice + Send,
    J: IndexName + Send + Sync + 'static,
{
    let lines = Lines::new(rt.alloc())?;
    let listener = bound(rt, settings.port, output)?;
    let ended = lines.written_while(
        rt,
        faults,
        errors,
        || serve_index(rt, settings, rule, listener, index, &lines),
    );
    drop(lines);
    ended
}

/// Serves the connections that come to copies on threads.
fn serve_index<R, D, J>(
    rt: &R,
    settings: Settings<'_>,
    rule: &Rule,
    listener: TcpListener,
    index: &Index<'_, R, D, J>,
    lines: &Lines,
) -> Result<(), ServeFault>
where
    R: AllocGlobal
        + Net<Listener = TcpListener, Stream = TcpStream>
        + Threads
        + Wait
        + Clock
        + Send
        + Sync
        + Drop,
    D: LogDevice + Send,
    J: IndexName + Send + Sync + 'static,
{
    let alloc = rt.alloc();
    let telling = Telling {
        rt,
        alloc,
        index: index.label.name(),
        mapping: index.label.mapping(),
        explains: settings.explains,
        input_end: settings.input_end,
        lines,
    };
    let clients = Clients::new(rt, alloc, listener, settings.limits(), rule, &telling).map_err(
        ended,
    )?;
    serve_group(rt, alloc, &clients, index).map_err(ended)
}

/// Takes the port, and says so.
fn bound<R: Net<Listener = TcpListener, Stream = TcpStream>, O: Write>(
    rt: &R,
    port: u16,
    output: &mut O,
) -> Result<TcpListener, ServeFault> {
    match TcpListener::bind(rt, ("127.0.0.1", port)) {
        Ok(listener) => {
            announce(output, port).map_err(ServeFault::Output)?;
            Ok(listener)
        }
        Err(error) => Err(ServeFault::Port(port, error)),
    }
}

fn announce<O: Write>(output: &mut O, port: u16) -> io::Result<()> {
    writeln!(output, "listening on 127.0.0.1:{port}")?;
    output.flush()
}
