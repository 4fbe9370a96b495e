//! The folder that an index is kept in: its mapping, the log of its master, and those of its copies.
ghost use Rattle.std.specs.Prelude.{All, IfOk};
ghost use Rattle.op.specs.Records.{IsRecord};
ghost use Rattle.segment.specs.Builds.{Builds};

use crate::data_fault::{DataFault, Difference, of_look};
use crate::look::{LogFile, LookFault, TornEnd, frames_seen, kept_sums, looked_through, sums_path};
use crate::mapping_file::MappingFile;
use crate::salvage::{Gap, Salvaged, salvage_of};
use crate::summed::{SumFaults, Summed};
use crate::sums::sums_of;
use doc::{DocFault, Mapping, Source};
use master::Master;
use op::Record;
use private_file::{check_plain, create, create_folder, open_to_append, open_to_write};
use replica::{Birth, Copy, CopyFault};
use seed::Seed;
use segment::Segment;
use std::alloc::{AllocError, Global};
use std::fs::{File, OpenFile, TryLockError};
use std::io::{ErrorKind, Read, Write};
use std::random::RandomSource;
use std::rt::Files;
use std::sync::Arc;
use std::thread::Threads;
use std::{fs, io};
use sum::Table;
use translog::{FileDevice, LogFault, MemDevice, Translog};

/// The file that is locked while the folder is served.
const LOCK: &str = "lock";

const MAPPING: &str = "mapping.json";

/// What the mapping is written to before it takes its name.
const MAPPING_WRITTEN: &str = "mapping.json.new";

const MASTER: &str = "master.log";

const COPY: &str = "copy-1.rsx";

/// How many bytes of a copy's log are no record.
const HEADER: usize = 4;

/// How many copies a new index has at most.
const MOST_COPIES: u32 = 5;

/// The one copy of an index in a folder, and its master, as their logs have them. No other process serves it while this is held.
#[derive(Drop)]
pub struct KeptCopy {
    pub master: Master<LogFile>,
    pub copy: Copy<LogFile>,
    /// What was torn of the copy's log.
    pub torn: Option<TornEnd>,
    pub lock: File,
}

/// Opens the index of a folder, and begins one where there is none. With no mapping handed in it is the one that is kept, or an empty one. The segment that
/// searches look through is built by the builder.
pub fn open_copy<
    R: Files<File = File> + AllocGlobal + RandomSource + Threads + Sync,
    F: Fn(Global, &Arc<Mapping, Global>, Vec<Source>) -> Result<Segment, AllocError>,
>(
    rt: &R,
    builder: &F,
    path: &str,
    given: Option<&MappingFile>,
    faults: &Arc<SumFaults, Global>,
) -> Result<KeptCopy, DataFault>
    requires { Builds F.Fn builder.now }
{
    let folder = Folder { rt, path };
    folder.make()?;
    let lock = folder.lock()?;
    let mapping = seeded(rt, folder.mapping(given)?)?;
    folder.copy(builder, mapping, lock, faults)
}

/// A folder whose copies are to be opened: the mapping of its index. No other process serves it while this is held.
#[derive(Drop)]
pub struct KeptFolder {
    pub mapping: Mapping,
    pub lock: File,
}

/// Locks the folder of an index of several copies, and makes one where there is none; its logs stay as they are.
pub fn open_folder<R: Files<File = File> + AllocGlobal + RandomSource>(
    rt: &R,
    path: &str,
    given: Option<&MappingFile>,
) -> Result<KeptFolder, DataFault> {
    let folder = Folder { rt, path };
    folder.make()?;
    let lock = folder.lock()?;
    let mapping = seeded(rt, folder.mapping(given)?)?;
    folder.check_master()?;
    folder.check_unlocked()?;
    folder.sync()?;
    Ok(KeptFolder { mapping, lock })
}

/// A mapping whose index has hash tables that begin with a seed which nobody knows.
fn seeded<R: RandomSource>(rt: &R, mapping: Mapping) -> Result<Mapping, DataFault> {
    match Seed::random(rt) {
        Ok(seed) => Ok(mapping.seeded(seed)),
        Err(error) => {
            drop(mapping);
            Err(DataFault::Seed(error))
        }
    }
}

/// What a folder keeps of an index, as it was read.
#[derive(Drop)]
pub(crate) struct KeptRecords {
    pub text: String,
    pub mapping: Mapping,
    pub records: Vec<Record>,
    /// What stands between them in a damaged log, and the copy whose log it is.
    pub gaps: Vec<Gap>,
    pub copy: u32,
}

/// What is read of a log.
#[derive(Clone, Copy, Debug, PartialEq, Eq)]
pub(crate) enum Wanted {
    /// All of it, or nothing where it is damaged.
    Whole,
    /// What is whole of it.
    Salvage,
}

/// Reads the index of a folder, as the copy has it that led last, or what is whole of that, and changes nothing. A server may write it meanwhile: a log only grows, so what is whole of
/// it is a beginning of it, and a torn end is passed over.
pub(crate) fn read_index<R: Files<File = File> + AllocGlobal>(
    rt: &R,
    path: &str,
    wanted: Wanted,
) -> Result<KeptRecords, DataFault>
    ensures { IfOk result (λ k. All IsRecord k.records.items) }
{
    let folder = Folder { rt, path };
    if !folder.has(MAPPING)? {
        return Err(DataFault::NoIndex);
    }
    let MappingFile { text, value } = folder.mapping_file()?;
    let mapping = Mapping::from_value(rt.alloc(), &value).map_err(refused)?;
    let copy = folder.primary()?;
    match folder.records(copy, wanted) {
        Ok(Salvaged { records, gaps }) => Ok(KeptRecords {
            text,
            mapping,
            records,
            gaps,
            copy,
        }),
        Err(fault) => Err(fault),
    }
}

/// A folder, and what reads and writes its files.
#[derive(Drop)]
struct Folder<'a, R> {
    rt: &'a R,
    path: &'a str,
}

impl<'a, R: Files<File = File> + AllocGlobal> Folder<'a, R> {
    fn path_of(&self, name: &str) -> Result<String, AllocError> {
        let path = self.path;
        format!(in self.rt.alloc(); "{path}/{name}")
    }

    /// The records of a copy.
    fn records(&self, copy: u32, wanted: Wanted) -> Result<Salvaged, DataFault>
        ensures { IfOk result (λ s. All IsRecord s.records.items) }
    {
        // The sums come first: of a log that a server writes there are never more.
        let sums = self.sums(copy)?;
        let device = self.kept_device(copy)?;
        match wanted {
            Wanted::Whole => self.whole_records(copy, device, sums.as_slice()),
            Wanted::Salvage => Ok(salvage_of(
                self.rt.alloc(),
                &Table::new(),
                device.bytes(),
                sums.as_slice(),
            )?),
        }
    }

    /// The records of a copy's log that isn't damaged.
    fn whole_records(
        &self,
        copy: u32,
        device: MemDevice,
        sums: &[u8],
    ) -> Result<Salvaged, DataFault>
        ensures { IfOk result (λ s. All IsRecord s.records.items) }
    {
        let alloc = self.rt.alloc();
        let sums = match sums_of(alloc, &Table::new(), device.bytes(), sums) {
            Ok(sums) => sums,
            Err(fault) => return Err(of_look(copy, LookFault::from(fault))),
        };
        let mut log = Translog::over(device);
        let records = match log.read(alloc) {
            Ok((records, _torn)) => records,
            Err(LogFault::NoMemory) => return Err(DataFault::NoMemory),
            Err(fault) => return Err(DataFault::Copy(copy, CopyFault::Log(fault))),
        };
        match frames_seen(alloc, log.device().bytes(), sums) {
            Ok(seen) => {
                drop(seen);
                Ok(Salvaged {
                    records,
                    gaps: Vec::new(alloc),
                })
            }
            Err(fault) => {
                drop(records);
                Err(of_look(copy, LookFault::from(fault)))
            }
        }
    }

    /// Makes the folder where it is missing.
    fn make(&self) -> Result<(), DataFault> {
        match fs::exists(self.rt, self.path) {
            Ok(true) => Ok(()),
            Ok(false) => create_folder(self.rt, self.path).map_err(DataFault::Folder),
            Err(error) => Err(DataFault::Folder(error)),
        }
    }

    /// Locks the folder for this process.
    fn lock(&self) -> Result<File, DataFault> {
        let path = self.path_of(LOCK)?;
        match open_to_write(self.rt, path.as_str()) {
            Ok(file) => locked(LOCK, file),
            Err(error) => Err(file_fault(LOCK, error)),
        }
    }

    fn has(&self, name: &'static str) -> Result<bool, DataFault> {
        let path = self.path_of(name)?;
        match fs::exists(self.rt, path.as_str()) {
            Ok(found) => Ok(found),
            Err(error) => Err(DataFault::File(name, error)),
        }
    }

    /// The mapping of the index: the kept one, which one that is handed in has to be, or that of a new index, which is kept first.
    fn mapping(&self, given: Option<&MappingFile>) -> Result<Mapping, DataFault> {
        if self.has(MAPPING)? {
            return self.kept_mapping(given);
        }
        if self.has(MASTER)? || self.has(COPY)? {
            return Err(DataFault::Missing(MAPPING));
        }
        let alloc = self.rt.alloc();
        let Some(given) = given else {
            self.keep_mapping("{}\n")?;
            return self.kept_mapping(None);
        };
        let mapping = Mapping::from_value(alloc, &given.value).map_err(refused)?;
        self.keep_mapping(given.text.as_str())?;
        Ok(mapping)
    }

    fn kept_mapping(&self, given: Option<&MappingFile>) -> Result<Mapping, DataFault> {
        let alloc = self.rt.alloc();
        let kept = self.mapping_file()?;
        if let Some(given) = given {
            if given.value != kept.value {
                let difference = difference(alloc, kept.text.as_str(), given.text.as_str())?;
                return Err(DataFault::OtherMapping(difference));
            }
        }
        Mapping::from_value(alloc, &kept.value).map_err(refused)
    }

    /// The mapping that is kept.
    fn mapping_file(&self) -> Result<MappingFile, DataFault> {
        let text = self.text(MAPPING)?;
        Ok(MappingFile::read(self.rt.alloc(), text)?)
    }

    fn text(&self, name: &'static str) -> Result<String, DataFault> {
        let path = self.path_of(name)?;
        self.check_file(name, path.as_str())?;
        let mut text = String::new(self.rt.alloc());
        let read = match fs::open(self.rt, path.as_str()) {
            Ok(mut file) => file.read_to_string(&mut text),
            Err(error) => Err(error),
        };
        match read {
            Ok(_) => Ok(text),
            Err(error) => Err(DataFault::File(name, error)),
        }
    }

    /// Refuses to read what isn't a file: a FIFO keeps its reader waiting.
    fn check_file(&self, name: &'static str, path: &str) -> Result<(), DataFault> {
        match fs::metadata(self.rt, path) {
            Ok(found) => if found.is_file() {
                Ok(())
            } else {
                Err(DataFault::NotPlain(name))
            },
            Err(error) => Err(DataFault::File(name, error)),
        }
    }

    /// Writes the mapping of a new index so that it is there whole or not at all.
    fn keep_mapping(&self, text: &str) -> Result<(), DataFault> {
        let written = self.path_of(MAPPING_WRITTEN)?;
        let path = self.path_of(MAPPING)?;
        if let Err(error) = write_synced(self.rt, written.as_str(), text) {
            return Err(file_fault(MAPPING_WRITTEN, error));
        }
        match fs::rename(self.rt, written.as_str(), path.as_str()) {
            Ok(()) => self.sync(),
            Err(error) => Err(DataFault::File(MAPPING, error)),
        }
    }

    /// Waits until the names of the folder's files are on the disk, and its own.
    fn sync(&self) -> Result<(), DataFault> {
        let above = self.path_of("..")?;
        for path in [self.path, above.as_str()] {
            let synced = match fs::open(self.rt, path) {
                Ok(opened) => opened.sync_all(),
                Err(error) => Err(error),
            };
            synced.map_err(DataFault::Folder)?;
        }
        Ok(())
    }

    /// The path of a copy's log.
    fn copy_path(&self, copy: u32) -> Result<String, AllocError> {
        let path = self.path;
        format!(in self.rt.alloc(); "{path}/copy-{copy}.rsx")
    }

    /// Where the master's log is missing no copy of a new index has a log with records.
    fn check_master(&self) -> Result<(), DataFault> {
        if self.has(MASTER)? {
            return Ok(());
        }
        for copy in 1..=MOST_COPIES {
            let path = self.copy_path(copy)?;
            if let Ok(found) = fs::metadata(self.rt, path.as_str()) {
                if found.len() > HEADER as u64 {
                    return Err(DataFault::Missing(MASTER));
                }
            }
        }
        Ok(())
    }

    /// The copy that led last, as the master's log has it.
    fn primary(&self) -> Result<u32, DataFault> {
        Ok(self.master()?.state().primary)
    }

    /// Whether the index has, or has had, more than one copy.
    fn has_several(&self) -> Result<bool, DataFault> {
        Ok(self.master()?.state().next != 2)
    }

    /// The master, as its log has it, and that of a new index where there is none; nothing of the log changes.
    fn master(&self) -> Result<Master<MemDevice>, DataFault> {
        let alloc = self.rt.alloc();
        let bytes = self.master_bytes()?;
        match Master::begin(alloc, 1, MemDevice::new(bytes)) {
            Ok(master) => Ok(master),
            Err(refused) => Err(DataFault::Master(refused.into_fault())),
        }
    }

    /// The bytes of the master's log; none where it is missing.
    fn master_bytes(&self) -> Result<Vec<u8>, DataFault> {
        let alloc = self.rt.alloc();
        if !self.has(MASTER)? {
            return Ok(Vec::new(alloc));
        }
        let path = self.path_of(MASTER)?;
        self.check_file(MASTER, path.as_str())?;
        let mut bytes = Vec::new(alloc);
        let read = match fs::open(self.rt, path.as_str()) {
            Ok(mut file) => file.read_to_end(&mut bytes),
            Err(error) => Err(error),
        };
        match read {
            Ok(_) => Ok(bytes),
            Err(error) => Err(DataFault::File(MASTER, error)),
        }
    }

    /// What the log of a copy holds that is there. Nothing is written for it.
    fn kept_device(&self, copy: u32) -> Result<MemDevice, DataFault> {
        let path = self.copy_path(copy)?;
        let mut bytes = Vec::new(self.rt.alloc());
        let opened = check_plain(self.rt, path.as_str()).and_then(|()| fs::open(
            self.rt,
            path.as_str(),
        ));
        let read = match opened {
            Ok(file) => {
                let mut file = file;
                file.read_to_end(&mut bytes)
            }
            Err(error) => Err(error),
        };
        match read {
            Ok(_) => Ok(MemDevice::new(bytes)),
            Err(error) => Err(DataFault::CopyFile(copy, error)),
        }
    }

    /// The sums that are kept of a copy's log.
    fn sums(&self, copy: u32) -> Result<Vec<u8>, AllocError> {
        let path = sums_path(self.rt.alloc(), self.path, copy)?;
        Ok(kept_sums(self.rt, path.as_str()))
    }

    /// The device of a log, which is made where it is missing.
    fn device(&self, name: &'static str) -> Result<FileDevice<File>, DataFault> {
        let path = self.path_of(name)?;
        let file = match open_to_append(self.rt, path.as_str()) {
            Ok(file) => locked(name, file)?,
            Err(error) => return Err(file_fault(name, error)),
        };
        match FileDevice::open(self.rt.alloc(), file) {
            Ok(device) => Ok(device),
            Err(error) => Err(DataFault::File(name, error)),
        }
    }

    /// Whether nobody else has the master's log, where there is one. Its file is missed where it is removed, as the file `lock` isn't.
    fn check_unlocked(&self) -> Result<(), DataFault> {
        if !self.has(MASTER)? {
            return Ok(());
        }
        let path = self.path_of(MASTER)?;
        match open_to_append(self.rt, path.as_str()) {
            Ok(file) => {
                drop(locked(MASTER, file)?);
                Ok(())
            }
            Err(error) => Err(file_fault(MASTER, error)),
        }
    }

    /// The devices of the copy's log and of the master's. A new index gets the copy's first, and its name is on the disk before the master's is made;
    /// so where the master's is there, both are, whatever a crash takes.
    fn devices(&self) -> Result<(FileDevice<File>, FileDevice<File>), DataFault> {
        let had_master = self.has(MASTER)?;
        if had_master && !self.has(COPY)? {
            return Err(DataFault::Missing(COPY));
        }
        let copy = self.device(COPY)?;
        if !had_master {
            if copy.len() > HEADER {
                return Err(DataFault::Missing(MASTER));
            }
            self.sync()?;
        }
        let master = self.device(MASTER)?;
        self.sync()?;
        Ok((copy, master))
    }
}

impl<'a, R: Files<File = File> + AllocGlobal + Threads + Sync> Folder<'a, R> {
    /// The copy of the folder, and its master.
    fn copy<F: Fn(Global, &Arc<Mapping, Global>, Vec<Source>) -> Result<Segment, AllocError>>(
        &self,
        builder: &F,
        mapping: Mapping,
        lock: File,
        faults: &Arc<SumFaults, Global>,
    ) -> Result<KeptCopy, DataFault>
        requires { Builds F.Fn builder.now }
    {
        let alloc = self.rt.alloc();
        if self.has_several()? {
            return Err(DataFault::SeveralCopies);
        }
        let (copy, master) = self.devices()?;
        let (copy, torn) = self.looked_through(copy, faults)?;
        let master = match Master::begin(alloc, 1, Summed::without(master)) {
            Ok(master) => master,
            Err(refused) => return Err(DataFault::Master(refused.into_fault())),
        };
        let opened = if master.state().term == 1 {
            self.begun_or_opened(builder, mapping, copy, faults)
        } else {
            opened(self.rt, builder, alloc, mapping, copy)
        };
        match opened {
            Ok(copy) => Ok(KeptCopy {
                master,
                copy,
                torn,
                lock,
            }),
            Err(fault) => Err(fault),
        }
    }

    /// The log of the copy, looked through, and what is torn of it.
    fn looked_through(
        &self,
        device: FileDevice<File>,
        faults: &Arc<SumFaults, Global>,
    ) -> Result<(LogFile, Option<TornEnd>), DataFault> {
        match looked_through(self.rt, self.path, 1, device, faults) {
            Ok(looked) => Ok(looked),
            Err(fault) => Err(of_look(1, fault)),
        }
    }

    /// The copy of an index in its first term: a new one where its log has no record.
    fn begun_or_opened<
        F: Fn(Global, &Arc<Mapping, Global>, Vec<Source>) -> Result<Segment, AllocError>,
    >(
        &self,
        builder: &F,
        mapping: Mapping,
        device: LogFile,
        faults: &Arc<SumFaults, Global>,
    ) -> Result<Copy<LogFile>, DataFault>
        requires { Builds F.Fn builder.now }
    {
        let alloc = self.rt.alloc();
        if device.device().len() <= HEADER {
            return begun(alloc, mapping, device);
        }
        let copy = opened(self.rt, builder, alloc, mapping.copy(alloc)?, device)?;
        if copy.point() > 0 {
            return Ok(copy);
        }
        // The only record was torn, and is cut off now.
        drop(copy);
        let (device, _) = self.looked_through(self.device(COPY)?, faults)?;
        begun(alloc, mapping, device)
    }
}

/// A copy of a new index, whose log has no record.
fn begun(alloc: Global, mapping: Mapping, device: LogFile) -> Result<Copy<LogFile>, DataFault> {
    match Copy::begin(alloc, 1, 1, mapping, device) {
        Ok(copy) => Ok(copy),
        Err(refused) => Err(DataFault::Copy(1, refused.into_fault())),
    }
}

/// The copy of a log.
fn opened<
    R: Threads + Sync,
    F: Fn(Global, &Arc<Mapping, Global>, Vec<Source>) -> Result<Segment, AllocError>,
>(
    rt: &R,
    builder: &F,
    alloc: Global,
    mapping: Mapping,
    device: LogFile,
) -> Result<Copy<LogFile>, DataFault>
    requires { Builds F.Fn builder.now }
{
    match Copy::open_on(rt, builder, alloc, 1, Birth::First, mapping, device) {
        Ok(copy) => Ok(copy),
        Err(refused) => Err(DataFault::Copy(1, refused.into_fault())),
    }
}

fn write_synced<R: Files<File = File>>(rt: &R, path: &str, text: &str) -> io::Result<()> {
    let mut file = create(rt, path)?;
    file.write_all(text.as_bytes())?;
    file.sync_all()
}

/// A file that this process alone has from now on, until it is closed.
fn locked(name: &'static str, file: File) -> Result<File, DataFault> {
    match file.try_lock() {
        Ok(()) => Ok(file),
        Err(TryLockError::WouldBlock) => Err(DataFault::InUse),
        Err(TryLockError::Error(error)) => Err(DataFault::File(name, error)),
    }
}

fn file_fault(name: &'static str, error: io::Error) -> DataFault {
    if error.kind() == ErrorKind::InvalidInput {
        DataFault::NotPlain(name)
    } else {
        DataFault::File(name, error)
    }
}

fn refused(fault: DocFault) -> DataFault {
    match fault {
        DocFault::NoMemory => DataFault::NoMemory,
        fault => DataFault::Mapping(fault),
    }
}

/// The first line in which two texts differ; a line that one of them doesn't have is empty.
fn difference(alloc: Global, kept: &str, given: &str) -> Result<Difference, AllocError> {
    let mut number: u64 = 1;
    let mut others = given.lines();
    for line in kept.lines() {
        let other = others.next().unwrap_or("");
        if line != other {
            return difference_at(alloc, number, line, other);
        }
        number = number.saturating_add(1);
    }
    difference_at(alloc, number, "", others.next().unwrap_or(""))
}

fn difference_at(
    alloc: Global,
    line: u64,
    kept: &str,
    given: &str,
) -> Result<Difference, AllocError> {
    Ok(Difference {
        line,
        kept: String::from_str(alloc, kept)?,
        given: String::from_str(alloc, given)?,
    })
}
