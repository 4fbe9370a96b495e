//! Lines for standard error. Threads that serve hand them over, and one thread writes them: nobody may read what it writes.

use crossbeam_channel::{Receiver, Sender, bounded};
use folder::SumFaults;
use std::alloc::{AllocError, Global};
use std::io::Write;
use std::sync::Wait;
use std::sync::atomic::{AtomicBool, AtomicU64, Ordering};
use std::thread::{Threads, join};
use std::time::{Clock, Duration};

/// How many lines may wait to be written.
const MOST_LINES: usize = 1_024;

/// The longest wait between two looks whether lines still come, in milliseconds.
const TICK: u64 = 50;

/// Lines that wait to be written, and how many were dropped since there was no room for them.
#[derive(Drop)]
pub(crate) struct Lines {
    to: Sender<String, Global>,
    waiting: Receiver<String, Global>,
    dropped: AtomicU64,
    ended: AtomicBool,
}

impl Lines {
    pub(crate) fn new(alloc: Global) -> Result<Lines, AllocError> {
        let (to, waiting) = bounded(alloc, MOST_LINES)?;
        Ok(Lines {
            to,
            waiting,
            dropped: AtomicU64::new(0),
            ended: AtomicBool::new(false),
        })
    }

    /// Hands a line over. Where there is no room for it, it is dropped and counted.
    pub(crate) fn push<R: Wait>(&self, rt: &R, line: String) {
        if let Err(refused) = self.to.try_send(rt, line) {
            drop(refused);
            self.dropped.fetch_add(1, Ordering::SeqCst);
        }
    }

    /// Writes the lines that wait.
    pub(crate) fn write_waiting<R: Wait, E: Write>(&self, rt: &R, errors: &mut E) {
        for _ in 0..MOST_LINES {
            let Ok(line) = self.waiting.try_recv(rt) else {
                break;
            };
            let _ = writeln!(errors, "indexd: {line}");
        }
    }

    /// Does a task, and writes meanwhile the lines that come, and one for a copy whose sums can't be kept.
    pub(crate) fn written_while<R, E, T, F>(
        &self,
        rt: &R,
        faults: &SumFaults,
        errors: &mut E,
        task: F,
    ) -> T
    where
        R: Threads + Wait + Clock + Sync,
        E: Write + Send,
        F: FnOnce() -> T,
        requires { F.pre task }
        ensures { F.post task result }
    {
        let done = || -> T
            requires { F.pre task }
            ensures { F.post task result }
        {
            let ended = task();
            self.ended.store(true, Ordering::SeqCst);
            ended
        };
        join(rt, || self.write(rt, faults, errors), done).1
    }

    /// Writes lines as they come, until the task has ended.
    fn write<R: Wait + Clock, E: Write>(&self, rt: &R, faults: &SumFaults, errors: &mut E) {
        for _ in 0..u64::MAX {
            tell_faults(faults, errors);
            let is_over = self.ended.load(Ordering::SeqCst);
            match self.waiting.recv_timeout(rt, Duration::from_millis(TICK)) {
                Ok(line) => {
                    let _ = writeln!(errors, "indexd: {line}");
                    self.count_dropped(errors);
                }
                Err(_) => if is_over {
                    break;
                },
            }
        }
        self.count_dropped(errors);
    }

    /// Says how many lines were dropped, where some were.
    fn count_dropped<E: Write>(&self, errors: &mut E) {
        let dropped = self.dropped.swap(0, Ordering::SeqCst);
        if dropped > 0 {
            let _ = writeln!(
                errors,
                "indexd: and {dropped} more lines, which nobody read in time"
            );
        }
    }
}

/// Says whose sums can't be kept any more.
fn tell_faults<E: Write>(faults: &SumFaults, errors: &mut E) {
    if let Some(copy) = faults.taken() {
        let _ = writeln!(
            errors,
            "indexd: copy-{copy}.sum can't be written: until the next start its log has no more sums"
        );
    }
}
