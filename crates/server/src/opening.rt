//! What is shown while the logs of a folder open.

use crate::lines::Lines;
use cluster::{Devices, Gave, InFolder, Syncing};
use folder::{LogFile, LookFault, SumFaults, Summed, looked_through};
use op::CopyIds;
use std::alloc::{AllocError, Global};
use std::fs::{File, OpenFile};
use std::io::Write;
use std::rt::Files;
use std::sync::atomic::{AtomicBool, AtomicU64, Ordering};
use std::sync::{Arc, Wait};
use std::thread::Threads;
use std::time::{Clock, Duration};
use std::{fs, thread};
use translog::{FileDevice, LogFault};

/// From how many bytes on it is shown.
const LARGE: u64 = 16_000_000;

/// How many bytes a megabyte has.
const MEGABYTE: u64 = 1_000_000;

/// The wait between two looks, in milliseconds.
const TICK: u64 = 20;

/// How many ticks a second has.
const TICKS_A_SECOND: u64 = 1_000 / TICK;

/// How far an opening is: how many bytes the logs have, how many of them are those of copies that are open, how large the log is that is being
/// opened, how many copies are open or being opened, and how many are to be.
#[derive(Drop)]
pub(crate) struct Progress {
    bytes: AtomicU64,
    done: AtomicU64,
    current: AtomicU64,
    begun: AtomicU64,
    copies: AtomicU64,
}

impl Progress {
    /// The opening of a log of this many bytes; 0 stands for an unknown number.
    fn of(bytes: u64) -> Progress {
        Progress {
            bytes: AtomicU64::new(bytes),
            done: AtomicU64::new(0),
            current: AtomicU64::new(0),
            begun: AtomicU64::new(0),
            copies: AtomicU64::new(0),
        }
    }

    /// Says how many copies are to be opened, and how many bytes their logs have.
    fn expect(&self, copies: u64, bytes: u64) {
        self.copies.store(copies, Ordering::SeqCst);
        self.bytes.store(bytes, Ordering::SeqCst);
    }

    /// Says that the copies before it are open, and how many bytes the next log has.
    fn go_on(&self, bytes: u64) {
        let before = self.current.swap(bytes, Ordering::SeqCst);
        self.done.fetch_add(before, Ordering::SeqCst);
        self.begun.fetch_add(1, Ordering::SeqCst);
    }

    fn is_large(&self) -> bool {
        self.bytes.load(Ordering::SeqCst) >= LARGE
    }

    fn begun(&self) -> u64 {
        self.begun.load(Ordering::SeqCst)
    }

    fn write<E: Write>(&self, seconds: u64, errors: &mut E) {
        let megabytes = self.bytes.load(Ordering::SeqCst) / MEGABYTE;
        let _ = write!(errors, "\r\x1b[Kindexd: opening {megabytes} MB of logs");
        let begun = self.begun();
        if begun > 0 {
            let done = self.done.load(Ordering::SeqCst) / MEGABYTE;
            let copies = self.copies.load(Ordering::SeqCst);
            let _ = write!(errors, ", {done} MB done, copy {begun} of {copies}");
        }
        let _ = write!(errors, ", {seconds} s");
        let _ = errors.flush();
    }
}

/// A line on standard error that says how much is being opened, how much of it is done and how long that has taken. It goes away at the end.
#[derive(Drop)]
pub(crate) struct OpeningLine {
    is_wanted: bool,
    progress: Arc<Progress, Global>,
    is_over: AtomicBool,
}

impl OpeningLine {
    /// The line of a folder with one copy.
    pub(crate) fn of_one<R: Files>(
        rt: &R,
        alloc: Global,
        folder: &str,
        is_wanted: bool,
    ) -> Result<OpeningLine, AllocError> {
        OpeningLine::over(alloc, is_wanted, size_of(rt, alloc, folder, 1))
    }

    /// The line of copies that are counted.
    pub(crate) fn of_several(alloc: Global, is_wanted: bool) -> Result<OpeningLine, AllocError> {
        OpeningLine::over(alloc, is_wanted, 0)
    }

    fn over(alloc: Global, is_wanted: bool, bytes: u64) -> Result<OpeningLine, AllocError> {
        Ok(OpeningLine {
            is_wanted,
            progress: Arc::new(alloc, Progress::of(bytes))?,
            is_over: AtomicBool::new(false),
        })
    }

    /// What the copies are counted by.
    pub(crate) fn progress(&self) -> Result<Arc<Progress, Global>, AllocError> {
        Arc::try_clone(&self.progress)
    }

    /// Does a task, and shows the line meanwhile where it is wanted and the logs are large. Where no thread can be had for the line it isn't shown.
    pub(crate) fn shown_while<R, E, T, F>(&self, rt: &R, errors: &mut E, task: F) -> T
    where
        R: Threads + Clock + Sync,
        E: Write + Send,
        F: FnOnce() -> T,
        requires { F.pre task }
        ensures { F.post task result }
    {
        if !self.is_wanted {
            return task();
        }
        let done = || -> T
            requires { F.pre task }
            ensures { F.post task result }
        {
            let ended = task();
            self.is_over.store(true, Ordering::SeqCst);
            ended
        };
        thread::join(rt, || self.tell(rt, errors), done).1
    }

    /// Writes the line each second, and when a copy is open, until all are, and then takes it away.
    fn tell<C: Clock, E: Write>(&self, clock: &C, errors: &mut E) {
        let mut shown = None;
        for tick in 0..u64::MAX {
            let is_over = self.is_over.load(Ordering::SeqCst);
            let next = Some((tick / TICKS_A_SECOND, self.progress.begun()));
            if self.progress.is_large() && shown != next {
                self.progress.write(tick / TICKS_A_SECOND, errors);
                shown = next;
            }
            if is_over {
                break;
            }
            thread::sleep(clock, Duration::from_millis(TICK));
        }
        if shown.is_some() {
            let _ = write!(errors, "\r\x1b[K");
        }
    }
}

/// What is said of logs while they are opened, and whose sums can't be kept.
#[derive(Drop)]
pub(crate) struct Told {
    pub(crate) lines: Lines,
    pub(crate) faults: Arc<SumFaults, Global>,
}

impl Told {
    pub(crate) fn shared(alloc: Global) -> Result<Arc<Told, Global>, AllocError> {
        let told = Told {
            lines: Lines::new(alloc)?,
            faults: Arc::new(alloc, SumFaults::new())?,
        };
        Ok(Arc::new(alloc, told)?)
    }
}

/// The files of a folder, which counts the copies whose log is opened. Each log is looked through before.
#[derive(Drop)]
pub(crate) struct Counted<R> {
    rt: R,
    alloc: Global,
    folder: String,
    files: InFolder<R>,
    progress: Arc<Progress, Global>,
    told: Arc<Told, Global>,
    gave: Gave,
}

impl<R: Files<File = File> + AllocGlobal + Wait + Copy + Drop> Counted<R> {
    /// The files of a folder; a line shows how many of them are open.
    pub(crate) fn new(
        rt: R,
        alloc: Global,
        folder: &str,
        syncing: Syncing,
        line: &OpeningLine,
        told: &Arc<Told, Global>,
    ) -> Result<Counted<R>, AllocError> {
        Ok(Counted {
            rt,
            alloc,
            folder: String::from_str(alloc, folder)?,
            files: InFolder::new(rt, String::from_str(alloc, folder)?, syncing),
            progress: line.progress()?,
            told: Arc::try_clone(told)?,
            gave: Gave::new(),
        })
    }
}

impl<R: Files<File = File> + AllocGlobal + Wait + Drop> Counted<R> {
    /// The log of a node that its device holds, once it is looked through.
    fn looked(&self, node: u32, device: FileDevice<File>) -> Result<LogFile, LogFault> {
        if node == 0 {
            return Ok(Summed::without(device));
        }
        let folder = self.folder.as_str();
        match looked_through(&self.rt, folder, node, device, &self.told.faults) {
            Ok((log, torn)) => {
                if let Some(torn) = torn {
                    self.tell(format!(in self.alloc; "{torn}"));
                }
                Ok(log)
            }
            Err(fault) => Err(self.refused(node, fault)),
        }
    }

    /// Says why a log isn't opened, and what that is to those who wanted it.
    fn refused(&self, node: u32, fault: LookFault) -> LogFault {
        match fault {
            LookFault::Damage(damage) => {
                self.tell(format!(in self.alloc; "copy-{node}.rsx: {damage}"));
                LogFault::Damaged(damage.offset())
            }
            LookFault::TornEnd(offset, error) => {
                self.tell(format!(in self.alloc;
                    "copy-{node}.torn-{offset} can't be written: {error}"
                ));
                LogFault::Device
            }
            LookFault::NoMemory => LogFault::NoMemory,
        }
    }

    fn tell(&self, line: Result<String, AllocError>) {
        if let Ok(line) = line {
            self.told.lines.push(&self.rt, line);
        }
    }
}

impl<R: Files<File = File> + AllocGlobal + Wait + Drop> Devices<LogFile> for Counted<R> {
    ghost gave = { λ c. c.gave };

    fn device(&mut self, node: u32) -> Result<LogFile, LogFault> {
        let device = self.files.device(node)?;
        let log = self.looked(node, device)?;
        Ok(self.gave.note(node, log))
    }

    fn kept(&mut self, node: u32) -> Result<Option<LogFile>, LogFault> {
        if node > 0 {
            let bytes = size_of(&self.rt, self.alloc, self.folder.as_str(), node);
            self.progress.go_on(bytes);
        }
        match self.files.kept(node)? {
            Some(device) => {
                let log = self.looked(node, device)?;
                Ok(Some(self.gave.note(node, log)))
            }
            None => Ok(None),
        }
    }

    fn will_open(&mut self, copies: &CopyIds) {
        let mut bytes: u64 = 0;
        for copy in copies.as_slice() {
            let more = size_of(&self.rt, self.alloc, self.folder.as_str(), *copy);
            bytes = bytes.saturating_add(more);
        }
        self.progress.expect(copies.as_slice().len() as u64, bytes);
    }
}

/// How many bytes the log of a copy has; 0 where that can't be learned.
fn size_of<R: Files>(rt: &R, alloc: Global, folder: &str, copy: u32) -> u64 {
    match format!(in alloc; "{folder}/copy-{copy}.rsx") {
        Ok(path) => match fs::metadata(rt, path.as_str()) {
            Ok(found) => found.len(),
            Err(_) => 0,
        },
        Err(_) => 0,
    }
}
