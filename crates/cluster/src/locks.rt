//! The copies that are served, each behind a lock: whoever gets a document reads the copy himself.

use crate::gate::{Gate, Open};
use crate::post::Post;
use crate::worker::Worker;
use cell::IndexName;
use crossbeam_channel::Receiver;
use replica::CopyStatus;
use std::alloc::{AllocError, Global};
use std::sync::{Arc, Mutex, MutexGuard, Wait};
use translog::LogDevice;

/// A copy behind its lock; none before it is served, and none once it has ended. A thread that needs the lock goes through a door first, where one thread at a
/// time waits for it: a lock alone goes to whichever thread comes by just then, however long another one waits.
#[derive(Drop)]
pub(crate) struct CopyLock<R: Wait + Drop, D: LogDevice, J: IndexName> {
    door: Mutex<()>,
    worker: Mutex<Option<Worker<R, D, J>>>,
}

impl<R: Wait + Drop, D: LogDevice, J: IndexName> CopyLock<R, D, J> {
    fn new() -> CopyLock<R, D, J> {
        CopyLock {
            door: Mutex::new(()),
            worker: Mutex::new(None),
        }
    }

    /// The copy, once no other thread has it.
    fn enter(&self, rt: &R) -> MutexGuard<'_, Option<Worker<R, D, J>>> {
        let door = self.door.lock(rt);
        let held = self.worker.lock(rt);
        drop(door);
        held
    }

    /// Has the copy be served from now on.
    pub(crate) fn put(&self, rt: &R, worker: Worker<R, D, J>) {
        let mut held = self.worker.lock(rt);
        *held = Some(worker);
    }

    /// The copy, which is served no more.
    pub(crate) fn take(&self, rt: &R) -> Option<Worker<R, D, J>> {
        let mut held = self.enter(rt);
        held.take()
    }

    /// Does a post on this thread. It hands the post back where the copy isn't served, or where one sync does for many posts: then the copy's own thread does
    /// them together.
    pub(crate) fn done(&self, rt: &R, post: Post<J>) -> Option<Post<J>> {
        let mut held = self.enter(rt);
        let Some(worker) = &mut *held else {
            return Some(post);
        };
        if worker.syncs_later {
            return Some(post);
        }
        worker.admit(rt, &Open, post);
        worker.settle(rt, &Open);
        None
    }

    /// How the copy stands; nothing where it isn't served.
    pub(crate) fn status(&self, rt: &R) -> Option<CopyStatus> {
        let held = self.enter(rt);
        match &*held {
            Some(worker) => Some(worker.copy().status()),
            None => None,
        }
    }

    /// Does a post of the mail, as `Worker::serve_waiting` does, and says whether the copy is served on.
    pub(crate) fn serve_waiting<G: Gate>(
        &self,
        rt: &R,
        gate: &G,
        inbox: &Receiver<Post<J>, Global>,
        post: Post<J>,
    ) -> bool {
        let mut held = self.enter(rt);
        match &mut *held {
            Some(worker) => worker.serve_waiting(rt, gate, inbox, post),
            None => false,
        }
    }
}

/// The lock of a copy.
#[derive(Drop)]
struct LockOf<R: Wait + Drop, D: LogDevice, J: IndexName> {
    copy: u32,
    lock: Arc<CopyLock<R, D, J>, Global>,
}

/// The locks of the copies of a cluster.
#[derive(Drop)]
pub(crate) struct CopyLocks<R: Wait + Drop, D: LogDevice, J: IndexName> {
    all: Mutex<Vec<LockOf<R, D, J>>>,
}

impl<R: Wait + Drop, D: LogDevice, J: IndexName> CopyLocks<R, D, J> {
    pub(crate) fn new(alloc: Global) -> CopyLocks<R, D, J> {
        CopyLocks {
            all: Mutex::new(Vec::new(alloc)),
        }
    }

    /// The lock of a copy, where there is one.
    pub(crate) fn of(&self, rt: &R, copy: u32) -> Option<Arc<CopyLock<R, D, J>, Global>> {
        let all = self.all.lock(rt);
        for it in all.as_slice() {
            if it.copy == copy {
                return Arc::try_clone(&it.lock).ok();
            }
        }
        None
    }

    /// The ids of the copies that have a lock.
    pub(crate) fn copies(&self, rt: &R, alloc: Global) -> Result<Vec<u32>, AllocError> {
        let all = self.all.lock(rt);
        let mut copies = Vec::new(alloc);
        for it in all.as_slice() {
            copies.push(it.copy)?;
        }
        Ok(copies)
    }

    /// The lock of a copy that is to be served.
    pub(crate) fn add(
        &self,
        rt: &R,
        alloc: Global,
        copy: u32,
    ) -> Result<Arc<CopyLock<R, D, J>, Global>, AllocError> {
        if let Some(lock) = self.of(rt, copy) {
            return Ok(lock);
        }
        let lock = Arc::new(alloc, CopyLock::new())?;
        let another = Arc::try_clone(&lock)?;
        let mut all = self.all.lock(rt);
        all.push(LockOf { copy, lock })?;
        Ok(another)
    }
}
