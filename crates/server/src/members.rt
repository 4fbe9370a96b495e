//! An index of several copies on threads of their own.
ghost use Rattle.std.specs.Prelude.{◌≡◌, string_bytes};

use crate::connections::Index;
use crate::fault::ServeFault;
use crate::founding::{Founded, Founding};
use crate::listening::listen_to_group;
use crate::mapping::fields_of;
use crate::opening::{Counted, OpeningLine, Told};
use crate::settings::Settings;
use cell::IndexName;
use cluster::{Cluster, ClusterFault, Devices, HandedOut, InMemory, Journals, Open, Unopened};
use doc::Mapping;
use folder::{KeptFolder, LogFile, MappingFile, SumFaults, judge, keep_journals, open_folder};
use front::Rule;
use journal::Journal;
use node::Receipt;
use std::alloc::{AllocError, Global};
use std::fs;
use std::fs::File;
use std::io::Write;
use std::marker::Brand;
use std::net::{Net, TcpListener, TcpStream};
use std::random::RandomSource;
use std::rt::Files;
use std::sync::{Arc, Wait};
use std::thread::Threads;
use std::time::Clock;
use translog::LogDevice;

/// Serves a new index of copies on threads of their own, in memory.
pub(crate) fn serve_copies<'x, R, O, E>(
    rt: &R,
    settings: Settings<'x>,
    rule: &Rule,
    mapping: Option<&'x MappingFile>,
    output: &mut O,
    errors: &mut E,
) -> Result<(), ServeFault>
where
    R: Files<File = File>
        + AllocGlobal
        + RandomSource
        + Net<Listener = TcpListener, Stream = TcpStream>
        + Threads
        + Wait
        + Clock
        + Copy
        + Send
        + Sync
        + Drop
        + 'static,
    O: Write,
    E: Write + Send,
{
    let fields = fields_of(rt, mapping)?;
    let wanted = Wanted {
        settings,
        mapping,
        fields: &fields,
    };
    let ended = match Founding::of(rt.alloc(), settings.index, &fields) {
        Ok(founding) => serve_started::<Brand, R, O, E>(
            rt, &wanted, rule, output, errors, founding,
        ),
        Err(refused) => Err(ServeFault::from(refused)),
    };
    drop(fields);
    ended
}

/// How an index is to be served, and under which mapping.
#[derive(Clone, Copy)]
struct Wanted<'a> {
    settings: Settings<'a>,
    mapping: Option<&'a MappingFile>,
    fields: &'a Mapping,
}

/// An index that is to be served, and the folder that it is kept in.
#[derive(Clone, Copy)]
struct WantedIn<'a> {
    wanted: Wanted<'a>,
    folder: &'a str,
}

/// Serves a new index in memory that begins with this.
fn serve_started<J, R, O, E>(
    rt: &R,
    wanted: &Wanted<'_>,
    rule: &Rule,
    output: &mut O,
    errors: &mut E,
    founding: Founding,
) -> Result<(), ServeFault>
where
    J: IndexName + Send + Sync + 'static,
    R: Files<File = File>
        + AllocGlobal
        + Net<Listener = TcpListener, Stream = TcpStream>
        + Threads
        + Wait
        + Clock
        + Copy
        + Send
        + Sync
        + Drop
        + 'static,
    O: Write,
    E: Write + Send,
    requires journals { (founding.journals.registry ≡ J.registry) × (founding.journals.ledger ≡ J.ledger) }
    requires name { string_bytes founding.name ≡ J.index.name }
    requires fields { founding.fields ≡ J.index.mapping }
{
    let alloc = rt.alloc();
    let copies = wanted.settings.copies.max(1).min(5) as u8;
    let Founded { label, ledgers } = founding.named::<J>();
    match Cluster::start(
        rt,
        alloc,
        label,
        copies,
        InMemory::new(alloc),
        Open,
        kept_by(wanted.settings),
        ledgers,
    ) {
        Ok(cluster) => {
            let faults = SumFaults::new();
            let served = serve_cluster(rt, wanted, rule, &cluster, &faults, output, errors);
            told_of(rt, wanted, journals_of(rt, cluster, served), output, errors)
        }
        Err(fault) => Err(ServeFault::from(fault)),
    }
}

/// Keeps and audits the journals that are handed out, where there are some.
fn told_of<R, O, E>(
    rt: &R,
    wanted: &Wanted<'_>,
    journals: Result<Option<Vec<Journal>>, ServeFault>,
    output: &mut O,
    errors: &mut E,
) -> Result<(), ServeFault>
where
    R: Files<File = File> + AllocGlobal,
    O: Write,
    E: Write,
{
    match journals {
        Ok(Some(journals)) => tell_journals(rt, wanted, journals, output, errors),
        Ok(None) => Ok(()),
        Err(fault) => Err(fault),
    }
}

/// What memory is to have of the journals: they are for an audit alone.
fn kept_by(settings: Settings<'_>) -> Journals {
    if settings.audit {
        Journals::Kept
    } else {
        Journals::Unkept
    }
}

/// Ends a cluster that has served, and gives its journals, where they are kept; or why it served no more.
fn journals_of<R, D, V, J>(
    rt: &R,
    cluster: Cluster<R, D, V, Open, J>,
    served: Result<(), ServeFault>,
) -> Result<Option<Vec<Journal>>, ServeFault>
where
    R: AllocGlobal + Threads + Wait + Copy + Send + Drop + 'static,
    D: LogDevice + Send + 'static,
    V: Devices<D>,
    J: IndexName + Send + Sync + 'static,
{
    let receipts: Vec<Receipt<J>> = Vec::new(rt.alloc());
    let closed = cluster.close(rt, receipts.as_slice());
    drop(receipts);
    match served {
        Ok(()) => handed(rt.alloc(), closed),
        Err(fault) => {
            drop(closed);
            Err(fault)
        }
    }
}

/// The journals alone of what is handed out.
fn handed<J: IndexName>(
    alloc: Global,
    closed: Result<Option<HandedOut<J>>, ClusterFault>,
) -> Result<Option<Vec<Journal>>, ServeFault> {
    match closed {
        Ok(Some(out)) => Ok(Some(out.into_journals(alloc)?)),
        Ok(None) => Ok(None),
        Err(fault) => Err(ServeFault::from(fault)),
    }
}

/// Keeps journals where that is wanted, and audits them.
fn tell_journals<R, O, E>(
    rt: &R,
    wanted: &Wanted<'_>,
    journals: Vec<Journal>,
    output: &mut O,
    errors: &mut E,
) -> Result<(), ServeFault>
where
    R: Files<File = File> + AllocGlobal,
    O: Write,
    E: Write,
{
    let Wanted {
        settings,
        mapping,
        fields,
    } = *wanted;
    let told = match kept(rt, settings, mapping, journals.as_slice()) {
        Ok(()) => audited(
            rt.alloc(),
            settings,
            fields,
            journals.as_slice(),
            output,
            errors,
        ),
        Err(fault) => Err(fault),
    };
    drop(journals);
    told
}

fn kept<R: Files<File = File> + AllocGlobal>(
    rt: &R,
    settings: Settings<'_>,
    mapping: Option<&MappingFile>,
    journals: &[Journal],
) -> Result<(), ServeFault> {
    match settings.journals {
        Some(folder) => keep_journals(rt, folder, mapping, journals).map_err(ServeFault::from),
        None => Ok(()),
    }
}

fn audited<O: Write, E: Write>(
    alloc: Global,
    settings: Settings<'_>,
    fields: &Mapping,
    journals: &[Journal],
    output: &mut O,
    errors: &mut E,
) -> Result<(), ServeFault> {
    judge(
        alloc,
        fields,
        journals,
        settings.at_terminal,
        output,
        errors,
    )
    .map_err(ServeFault::Audit)
}

/// Serves an index of copies on threads of their own that is kept in a folder; also one copy, whose worker then syncs its log for all that waits. It
/// begins with those that the folder has; more are added where fewer than are wanted could be opened, and standard error names those that couldn't be.
pub(crate) fn serve_kept_copies<'x, R, O, E>(
    rt: &R,
    settings: Settings<'x>,
    rule: &Rule,
    folder: &'x str,
    mapping: Option<&'x MappingFile>,
    output: &mut O,
    errors: &mut E,
) -> Result<(), ServeFault>
where
    R: Files<File = File>
        + AllocGlobal
        + RandomSource
        + Net<Listener = TcpListener, Stream = TcpStream>
        + Threads
        + Wait
        + Clock
        + Copy
        + Send
        + Sync
        + Drop
        + 'static,
    O: Write,
    E: Write + Send,
{
    if settings.audit && has_index(rt, rt.alloc(), folder)? {
        return Err(ServeFault::AuditOfKept);
    }
    match open_folder(rt, folder, mapping) {
        Ok(
            KeptFolder {
                mapping: fields,
                lock,
            },
        ) => {
            let wanted = WantedIn {
                wanted: Wanted {
                    settings,
                    mapping,
                    fields: &fields,
                },
                folder,
            };
            let ended = match Founding::of(rt.alloc(), settings.index, &fields) {
                Ok(founding) => {
                    serve_folder::<Brand, R, O, E>(rt, &wanted, rule, output, errors, founding)
                }
                Err(refused) => Err(ServeFault::from(refused)),
            };
            drop(fields);
            drop(lock);
            ended
        }
        Err(fault) => Err(ServeFault::from(fault)),
    }
}

/// Serves a folder that nobody else serves, of the index that begins with this.
fn serve_folder<J, R, O, E>(
    rt: &R,
    kept: &WantedIn<'_>,
    rule: &Rule,
    output: &mut O,
    errors: &mut E,
    founding: Founding,
) -> Result<(), ServeFault>
where
    J: IndexName + Send + Sync + 'static,
    R: Files<File = File>
        + AllocGlobal
        + Net<Listener = TcpListener, Stream = TcpStream>
        + Threads
        + Wait
        + Clock
        + Copy
        + Send
        + Sync
        + Drop
        + 'static,
    O: Write,
    E: Write + Send,
    requires journals { (founding.journals.registry ≡ J.registry) × (founding.journals.ledger ≡ J.ledger) }
    requires name { string_bytes founding.name ≡ J.index.name }
    requires fields { founding.fields ≡ J.index.mapping }
{
    let told = Told::shared(rt.alloc())?;
    let cluster = opened(rt, kept, &told, errors, founding.named::<J>());
    told.lines.write_waiting(rt, errors);
    match cluster {
        Ok(mut cluster) => {
            let served = serve_opened(rt, &kept.wanted, rule, &mut cluster, &told, output, errors);
            told_of(
                rt,
                &kept.wanted,
                journals_of(rt, cluster, served),
                output,
                errors,
            )
        }
        Err(fault) => Err(fault),
    }
}

/// Whether a folder has an index: its mapping is the first that is written.
fn has_index<R: Files>(rt: &R, alloc: Global, folder: &str) -> Result<bool, AllocError> {
    let path = format!(in alloc; "{folder}/mapping.json")?;
    Ok(fs::metadata(rt, path.as_str()).is_ok())
}

/// The copies of a folder, and shows meanwhile how far their opening is.
fn opened<J, R, E>(
    rt: &R,
    kept: &WantedIn<'_>,
    told: &Arc<Told, Global>,
    errors: &mut E,
    founded: Founded<J>,
) -> Result<Cluster<R, LogFile, Counted<R>, Open, J>, ServeFault>
where
    J: IndexName + Send + Sync + 'static,
    R: Files<File = File>
        + AllocGlobal
        + Net<Listener = TcpListener, Stream = TcpStream>
        + Threads
        + Wait
        + Clock
        + Copy
        + Send
        + Sync
        + Drop
        + 'static,
    E: Write + Send,
{
    let alloc = rt.alloc();
    let WantedIn {
        wanted: Wanted { settings, .. },
        folder,
    } = *kept;
    let Founded { label, ledgers } = founded;
    let line = OpeningLine::of_several(alloc, settings.at_terminal)?;
    match Counted::new(*rt, alloc, folder, settings.when_synced(), &line, told) {
        Ok(devices) => {
            let cluster = line.shown_while(rt, errors, || {
                let copies = settings.copies.max(1).min(5) as u8;
                Cluster::open(
                    rt,
                    alloc,
                    label,
                    copies,
                    devices,
                    Open,
                    kept_by(settings),
                    ledgers,
                )
            });
            cluster.map_err(ServeFault::from)
        }
        Err(_) => {
            drop(label);
            drop(ledgers);
            Err(ServeFault::NoMemory)
        }
    }
}

/// Adds the copies that are lacking, and serves all.
fn serve_opened<J, R, V, O, E>(
    rt: &R,
    wanted: &Wanted<'_>,
    rule: &Rule,
    cluster: &mut Cluster<R, LogFile, V, Open, J>,
    told: &Told,
    output: &mut O,
    errors: &mut E,
) -> Result<(), ServeFault>
where
    J: IndexName + Send + Sync + 'static,
    R: AllocGlobal
        + Net<Listener = TcpListener, Stream = TcpStream>
        + Threads
        + Wait
        + Clock
        + Copy
        + Send
        + Sync
        + Drop
        + 'static,
    V: Devices<LogFile>,
    O: Write,
    E: Write + Send,
{
    let lacking = lacking(rt, cluster, wanted.settings.copies)?;
    if let Some(short) = cluster.short_log() {
        let _ = writeln!(errors, "indexd: {short}");
    }
    for copy in cluster.unopened() {
        let _ = writeln!(errors, "indexd: {copy}; it leaves the index");
    }
    match cluster.unled() {
        Some(fault) => {
            let _ = writeln!(
                errors,
                "indexd: master.log can't be written ({fault}): gets and searches are answered, and writes are refused until it can"
            );
        }
        None => for _ in 0..lacking {
            cluster.allocate(rt)?;
        },
    }
    told.lines.write_waiting(rt, errors);
    serve_cluster(rt, wanted, rule, cluster, &told.faults, output, errors)
}

/// Serves copies that are there.
fn serve_cluster<J, R, D, V, O, E>(
    rt: &R,
    wanted: &Wanted<'_>,
    rule: &Rule,
    cluster: &Cluster<R, D, V, Open, J>,
    faults: &SumFaults,
    output: &mut O,
    errors: &mut E,
) -> Result<(), ServeFault>
where
    J: IndexName + Send + Sync + 'static,
    R: AllocGlobal
        + Net<Listener = TcpListener, Stream = TcpStream>
        + Threads
        + Wait
        + Clock
        + Copy
        + Send
        + Sync
        + Drop
        + 'static,
    D: LogDevice + Send + 'static,
    V: Devices<D>,
    O: Write,
    E: Write + Send,
{
    let index = Index {
        label: cluster.label(),
        client: cluster.client(),
        copies: wanted.settings.copies.max(1).min(5) as u32,
    };
    listen_to_group(rt, wanted.settings, rule, &index, faults, output, errors)
}

/// How many copies are to be added, so that there are as many as are wanted.
fn lacking<J, R, V>(
    rt: &R,
    cluster: &Cluster<R, LogFile, V, Open, J>,
    wanted: u64,
) -> Result<u64, ServeFault>
where
    J: IndexName + Send + Sync + 'static,
    R: Threads + Wait + Copy + Send + Drop + 'static,
    V: Devices<LogFile>,
{
    let known = cluster.client().state(rt)?;
    let mut lacking = wanted;
    for copy in known.state.in_sync.as_slice() {
        if !is_among(*copy, cluster.unopened()) {
            lacking = lacking.saturating_sub(1);
        }
    }
    Ok(lacking)
}

fn is_among(copy: u32, unopened: &[Unopened]) -> bool {
    unopened.iter().any(|it| it.copy == copy)
}
