//! What logs are kept on.
ghost use Rattle.std.specs.Prelude.{◌≡◌, ◌++◌, ◌∷◌, [], IfNone, IfOk, IfSome, OnErr};
ghost use Rattle.cluster.specs.Given.{given, GivenData};

use crate::gave::Gave;
use op::CopyIds;
use private_file::open_to_append;
use std::alloc::{AllocError, Global};
use std::fs::{File, OpenFile};
use std::io::ErrorKind;
use std::rt::Files;
use std::{fs, io};
use translog::{FileDevice, LogDevice, LogFault, MemDevice};

/// Gives the device of the master, which is node 0, and of each copy. No device is given twice while it is in use.
pub trait Devices<D: LogDevice>: Drop {
    ghost use Rattle.std.specs.Prelude.{List};

    /// The devices that it has given out, in order, each with the bytes that it held then.
    ghost gave: { Self → List GivenData };

    /// The device of a node, which is made where there is none.
    fn device(&mut self, node: u32) -> Result<D, LogFault>
        ensures given { IfOk result (λ d. gave self.new ≡ gave self.old ++ given node (D.bytes d) ∷ []) }
        ensures refused { OnErr result (gave self.new ≡ gave self.old) };

    /// The device of a node that has one; none where nothing is kept of it.
    fn kept(&mut self, node: u32) -> Result<Option<D>, LogFault>
        ensures given { IfOk result (λ o. IfSome o (λ d. gave self.new ≡ gave self.old ++ given node (D.bytes d) ∷ [])) }
        ensures none { IfOk result (λ o. IfNone o (gave self.new ≡ gave self.old)) }
        ensures refused { OnErr result (gave self.new ≡ gave self.old) }
    {
        match self.device(node) {
            Ok(device) => Ok(Some(device)),
            Err(fault) => Err(fault),
        }
    }

    /// Gets the ids of the copies that are to be opened, before the first of them is.
    fn will_open(&mut self, _copies: &CopyIds)
        ensures { gave self.new ≡ gave self.old }
    {}
}

/// Gives devices in memory, which end with their cluster.
pub struct InMemory {
    alloc: Global,
    gave: Gave,
}

impl Drop for InMemory {
    fn drop(self) {
        let InMemory {
            alloc: _,
            gave: _gave,
        } = self;
    }
}

impl InMemory {
    pub fn new(alloc: Global) -> InMemory
        ensures { result.gave ≡ [] }
    {
        InMemory {
            alloc,
            gave: Gave::new(),
        }
    }
}

impl Devices<MemDevice> for InMemory {
    ghost gave = { λ m. m.gave };

    fn device(&mut self, node: u32) -> Result<MemDevice, LogFault> {
        let device = MemDevice::new(Vec::new(self.alloc));
        Ok(self.gave.note(node, device))
    }
}

/// When the log of a copy in a folder is synced.
#[derive(Clone, Copy, PartialEq, Eq)]
pub enum Syncing {
    /// In each append.
    Each,
    /// When what waits for it is to leave the copy's worker: once for all that was done until then.
    Together,
}

/// Gives the files of a folder that is there: `master.log`, and `copy-ID.rsx` for each copy. Nobody else may use them meanwhile. The master's log is
/// synced in each append.
pub struct InFolder<R> {
    rt: R,
    path: String,
    syncing: Syncing,
    gave: Gave,
}

impl<R: Drop> Drop for InFolder<R> {
    fn drop(self) {
        let InFolder {
            rt: _rt,
            path: _path,
            syncing: _,
            gave: _gave,
        } = self;
    }
}

impl<R: Files<File = File> + AllocGlobal + Drop> InFolder<R> {
    pub fn new(rt: R, path: String, syncing: Syncing) -> InFolder<R>
        ensures { result.gave ≡ [] }
    {
        InFolder {
            rt,
            path,
            syncing,
            gave: Gave::new(),
        }
    }

    /// The path of a node's file.
    fn path_of(&self, node: u32) -> Result<String, AllocError> {
        let path = self.path.as_str();
        if node == 0 {
            format!(in self.rt.alloc(); "{path}/master.log")
        } else {
            format!(in self.rt.alloc(); "{path}/copy-{node}.rsx")
        }
    }

    /// Opens the file of a node, which is made where it is missing; then its name is on the disk too.
    fn open(&self, node: u32, path: &str) -> io::Result<FileDevice<File>> {
        let file = open_to_append(&self.rt, path)?;
        if node == 0 && file.try_lock().is_err() {
            return Err(ErrorKind::WouldBlock.into());
        }
        let device = if node > 0 && self.syncing == Syncing::Together {
            FileDevice::lazily(self.rt.alloc(), file)?
        } else {
            FileDevice::open(self.rt.alloc(), file)?
        };
        fs::open(&self.rt, self.path.as_str())?.sync_all()?;
        Ok(device)
    }
}

impl<R: Files<File = File> + AllocGlobal + Drop> Devices<FileDevice<File>> for InFolder<R> {
    ghost gave = { λ f. f.gave };

    fn device(&mut self, node: u32) -> Result<FileDevice<File>, LogFault> {
        let path = self.path_of(node)?;
        match self.open(node, path.as_str()) {
            Ok(device) => Ok(self.gave.note(node, device)),
            Err(error) => Err(refused(error)),
        }
    }

    fn kept(&mut self, node: u32) -> Result<Option<FileDevice<File>>, LogFault> {
        let path = self.path_of(node)?;
        match fs::exists(&self.rt, path.as_str()) {
            Ok(true) => match self.open(node, path.as_str()) {
                Ok(device) => Ok(Some(self.gave.note(node, device))),
                Err(error) => Err(refused(error)),
            },
            Ok(false) => Ok(None),
            Err(error) => Err(refused(error)),
        }
    }
}

/// What a fault of a file is to a log.
fn refused(error: io::Error) -> LogFault {
    if error.kind() == ErrorKind::OutOfMemory {
        LogFault::NoMemory
    } else {
        LogFault::Device
    }
}
