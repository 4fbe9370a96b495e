//! Connections to an index, many at once.
ghost use Rattle.std.specs.Prelude.{◌≡◌, ◌<◌, ◌^◌, IfOk, length};
ghost use Rattle.std.specs.Arc.{arc_value};

use cell::{IndexLabel, IndexName};
use clients::{Clients, Watcher};
use cluster::Client;
use doc::{Mapping, Source};
use front::{Command, Reply, Service};
use group::{Chair, Group, Known};
use segment::Segment;
use shard::{Desk, HistoryName, Reached, SharedShard};
use std::alloc::{AllocError, Global};
use std::sync::{Arc, Wait};
use std::thread::{Threads, join};
use std::time::Clock;
use std::{io, thread};
use translog::LogDevice;

/// How many places for searchers there are: a copy has no more seats.
const CHAIRS: usize = 8;

/// Serves connections to an index of one copy until the last that is wanted has ended. A fault on one ends that connection alone. Meanwhile a thread
/// merges the segments of the index.
pub(crate) fn serve_connections<R, D, W, N>(
    rt: &R,
    alloc: Global,
    clients: &Clients<'_, W, Reached<D, N>>,
    shard: &SharedShard<D, N>,
) -> io::Result<()>
where
    R: Threads + Wait + Clock + Sync,
    D: LogDevice + Send,
    W: Watcher,
    N: HistoryName + Send + Sync,
{
    join(
        rt,
        || shard.merge_beside(rt),
        || {
            let served = serve_lanes(rt, alloc, clients, shard);
            shard.end_merges(rt);
            served
        },
    )
    .1
}

fn serve_lanes<R, D, W, N>(
    rt: &R,
    alloc: Global,
    clients: &Clients<'_, W, Reached<D, N>>,
    shard: &SharedShard<D, N>,
) -> io::Result<()>
where
    R: Threads + Wait + Clock + Sync,
    D: LogDevice + Send,
    W: Watcher,
    N: HistoryName + Send + Sync,
{
    let ends = thread::map_indices(
        rt,
        alloc,
        clients.lanes(),
        &|lane| {
            let desk = Desk {
                rt,
                shard,
                known: shard.begun(),
            };
            clients.run(
                rt,
                lane,
                desk,
                &|| show_more(rt, shard),
                &|| refresh_one(rt, shard),
                &|| shard.rest(rt),
            )
        },
    )?;
    for end in ends {
        end?;
    }
    Ok(())
}

/// Has searches of an index of one copy see what was written, where that is much: threads build it, while commands go on. Reports whether they did.
fn show_more<R, D, N>(rt: &R, shard: &SharedShard<D, N>) -> bool
where
    R: Threads + Wait + Sync,
    D: LogDevice,
    N: HistoryName,
{
    let builder = |alloc: Global, mapping: &Arc<Mapping, Global>, sources: Vec<Source>| -> Result<
        Segment,
        AllocError,
    >
        requires { length sources.items < 2 ^ 32 }
        ensures { IfOk result (λ s. s ≡ record { mapping = arc_value mapping.now; sources = sources.items }) }
    { Segment::build_on(rt, alloc, mapping, sources) };
    shard.show_more(rt, &builder)
}

/// Refreshes an index of one copy, and reports whether that was done.
fn refresh_one<R, D, N>(rt: &R, shard: &SharedShard<D, N>) -> bool
where
    R: Wait,
    D: LogDevice,
    N: HistoryName,
{
    let known = shard.begun();
    let (reply, _known) = shard.refresh(rt, &known);
    !matches!(reply, Reply::Refused(_))
}

/// An index of several copies: its name, its mapping and the client of its copies.
#[derive(Drop)]
pub(crate) struct Index<'a, R: Wait + Drop, D: LogDevice, J: IndexName> {
    pub(crate) label: &'a IndexLabel<J>,
    pub(crate) client: &'a Client<R, D, J>,
    /// How many copies it is to have.
    pub(crate) copies: u32,
}

/// Serves connections to copies on threads of their own, as `serve_connections` does. No lock is round the index.
pub(crate) fn serve_group<R, D, W, J>(
    rt: &R,
    alloc: Global,
    clients: &Clients<'_, W, Known<J>>,
    index: &Index<'_, R, D, J>,
) -> io::Result<()>
where
    R: Threads + Wait + Clock + Send + Sync + Drop,
    D: LogDevice + Send,
    W: Watcher,
    J: IndexName + Send + Sync + 'static,
{
    let chairs = chairs_of(rt, index.client);
    serve_chairs(rt, alloc, clients, index, &chairs)
}

fn serve_chairs<R, D, W, J>(
    rt: &R,
    alloc: Global,
    clients: &Clients<'_, W, Known<J>>,
    index: &Index<'_, R, D, J>,
    chairs: &[Chair<J>; 8],
) -> io::Result<()>
where
    R: Threads + Wait + Clock + Send + Sync + Drop,
    D: LogDevice + Send,
    W: Watcher,
    J: IndexName + Send + Sync + 'static,
{
    let ends = thread::map_indices(
        rt,
        alloc,
        clients.lanes(),
        &|lane| {
            let group = Group {
                rt,
                alloc,
                label: index.label,
                client: index.client,
                chair: &chairs[lane % CHAIRS],
                copies: index.copies,
                known: Known::nothing(),
            };
            clients.run(
                rt,
                lane,
                group,
                &|| false,
                &|| refresh_all(rt, alloc, index, &chairs[lane % CHAIRS]),
                &|| rest_all(rt, alloc, index, &chairs[lane % CHAIRS]),
            )
        },
    )?;
    for end in ends {
        end?;
    }
    Ok(())
}

/// The copies as a thread sees them that knows nothing of their history.
fn group_of<'a, R: Wait + Drop, D: LogDevice, J: IndexName>(
    rt: &'a R,
    alloc: Global,
    index: &Index<'a, R, D, J>,
    chair: &'a Chair<J>,
) -> Group<'a, R, D, J> {
    Group {
        rt,
        alloc,
        label: index.label,
        client: index.client,
        chair,
        copies: index.copies,
        known: Known::nothing(),
    }
}

/// Refreshes all copies, and reports whether that was done.
fn refresh_all<R: Wait + Drop, D: LogDevice, J: IndexName>(
    rt: &R,
    alloc: Global,
    index: &Index<'_, R, D, J>,
    chair: &Chair<J>,
) -> bool {
    let mut group = group_of(rt, alloc, index, chair);
    let reply = group.call(Command::Refresh);
    drop(group);
    !matches!(reply, Reply::Refused(_))
}

/// Refreshes all copies of an index at rest: that shows nothing new, and each copy merges its segments until few are left.
fn rest_all<R: Wait + Drop, D: LogDevice, J: IndexName>(
    rt: &R,
    alloc: Global,
    index: &Index<'_, R, D, J>,
    chair: &Chair<J>,
) {
    let _is_refreshed = refresh_all(rt, alloc, index, chair);
}

fn chairs_of<R: Wait + Drop, D: LogDevice, J: IndexName>(
    rt: &R,
    client: &Client<R, D, J>,
) -> [Chair<J>; 8] {
    [
        Chair::new(rt, client),
        Chair::new(rt, client),
        Chair::new(rt, client),
        Chair::new(rt, client),
        Chair::new(rt, client),
        Chair::new(rt, client),
        Chair::new(rt, client),
        Chair::new(rt, client),
    ]
}
