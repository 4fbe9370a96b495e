//! The threads of workers.
ghost use Rattle.std.specs.Prelude.{◌≡◌, ◌+◌, vec_len, OnOk};

use crate::channels::sent;
use crate::gate::Gate;
use crate::left::Left;
use crate::locks::CopyLock;
use crate::merging::Merger;
use crate::post::Post;
use crate::ready::Journaling;
use crate::worker::{Tools, Worker};
use cell::IndexName;
use crossbeam_channel::{Receiver, Sender};
use engine::Merging;
use std::alloc::{AllocError, Global};
use std::sync::{Arc, Wait};
use std::thread;
use std::thread::{JoinHandle, Threads};
use translog::LogDevice;

/// A stack that takes a document of 127 levels, with room.
const STACK: usize = 2 << 20;

/// What a thread is started with.
pub(crate) trait Work<J: IndexName>: Drop {
    fn run(self) -> Left<J>;
}

/// What the threads of a copy are started with, apart from the copy.
#[derive(Drop)]
pub(crate) struct Start<R: Wait + Drop, D: LogDevice, J: IndexName> {
    pub(crate) alloc: Global,
    pub(crate) tools: Tools<D, J>,
    pub(crate) lock: Arc<CopyLock<R, D, J>, Global>,
    pub(crate) inbox: Receiver<Post<J>, Global>,
    pub(crate) merges: Receiver<Merging, Global>,
    pub(crate) worker: Sender<Post<J>, Global>,
}

/// A copy that is to be served, and the channel that says whether it is.
#[derive(Drop)]
pub(crate) struct Bench<R: Wait + Drop, D: LogDevice, G: Gate, J: IndexName> {
    pub(crate) rt: R,
    pub(crate) alloc: Global,
    pub(crate) gate: Arc<G, Global>,
    pub(crate) begun: Sender<bool, Global>,
    pub(crate) tools: Tools<D, J>,
    pub(crate) lock: Arc<CopyLock<R, D, J>, Global>,
    pub(crate) inbox: Receiver<Post<J>, Global>,
    pub(crate) copy: Journaling<D, J>,
}

impl<R: Wait + Copy + Drop, D: LogDevice, G: Gate, J: IndexName> Work<J> for Bench<R, D, G, J> {
    /// Takes posts in order until one stops it. Without memory for what searches are to see the copy isn't served.
    fn run(self) -> Left<J> {
        let Bench {
            rt,
            alloc,
            gate,
            begun,
            tools,
            lock,
            inbox,
            copy,
        } = self;
        match copy.begin(rt, alloc) {
            Ok(cell) => {
                lock.put(&rt, Worker::new(alloc, tools, cell));
                sent(&rt, &begun, true);
                serve(&rt, &*gate, &inbox, &*lock)
            }
            Err(held) => {
                sent(&rt, &begun, false);
                drop(tools);
                Left::unserved(held)
            }
        }
    }
}

/// Serves a copy until a post stops it: this thread does what comes by mail, and callers do what they ask.
fn serve<R: Wait + Drop, D: LogDevice, G: Gate, J: IndexName>(
    rt: &R,
    gate: &G,
    inbox: &Receiver<Post<J>, Global>,
    lock: &CopyLock<R, D, J>,
) -> Left<J> {
    for _ in rt.forever() {
        let Ok(post) = inbox.recv(rt) else {
            break;
        };
        if !lock.serve_waiting(rt, gate, inbox, post) {
            break;
        }
    }
    match lock.take(rt) {
        Some(mut worker) => {
            worker.finish(rt, gate);
            worker.into_left()
        }
        None => Left::Unkept,
    }
}

/// Starts a thread that builds merges and a worker, and keeps each with others. Nothing here depends on what they are to do, so this is proved once for all.
pub(crate) fn start_both<
    R: Threads,
    S: Wait + Drop + Send + 'static,
    W: Work<J> + Send + 'static,
    J: IndexName + Send + 'static,
>(
    rt: &R,
    mergers: &mut Vec<JoinHandle<()>>,
    merger: Merger<S, J>,
    threads: &mut Vec<JoinHandle<Left<J>>>,
    work: W,
) -> Result<(), AllocError>
    ensures { OnOk result (vec_len threads.new ≡ vec_len threads.old + 1) }
{
    match start_merger(rt, mergers, merger) {
        Ok(()) => start_beside(rt, threads, work),
        Err(refused) => {
            drop(work);
            Err(refused)
        }
    }
}

/// Starts a thread, and keeps it with others.
fn start_beside<R: Threads, W: Work<J> + Send + 'static, J: IndexName + Send + 'static>(
    rt: &R,
    threads: &mut Vec<JoinHandle<Left<J>>>,
    work: W,
) -> Result<(), AllocError>
    ensures { OnOk result (vec_len threads.new ≡ vec_len threads.old + 1) }
{
    threads.reserve(1)?;
    let Some(thread) = started(rt, work) else {
        return Err(AllocError);
    };
    threads.push_reserved(thread);
    Ok(())
}

/// Starts a thread that builds merges, and keeps it with others.
fn start_merger<R: Threads, S: Wait + Drop + Send + 'static, J: IndexName + Send + 'static>(
    rt: &R,
    threads: &mut Vec<JoinHandle<()>>,
    merger: Merger<S, J>,
) -> Result<(), AllocError> {
    threads.reserve(1)?;
    match thread::Builder::new()
        .stack_size(STACK)
        .spawn(rt, move || merger.run())
    {
        Ok(thread) => {
            threads.push_reserved(thread);
            Ok(())
        }
        Err(_) => Err(AllocError),
    }
}

/// Starts a thread.
fn started<R: Threads, W: Work<J> + Send + 'static, J: IndexName + Send + 'static>(
    rt: &R,
    work: W,
) -> Option<JoinHandle<Left<J>>> {
    thread::Builder::new()
        .stack_size(STACK)
        .spawn(rt, move || work.run())
        .ok()
}
