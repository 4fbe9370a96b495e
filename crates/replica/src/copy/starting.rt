//! How a copy begins: as that of a new index, or of the records that its log keeps.
ghost use Rattle.std.specs.Prelude.{◌≡◌, ◌<◌, ◌⊎◌, true, false, [], All, Ok, IfOk, IfErr, OnOk};
ghost use Rattle.segment.specs.Builds.{Builds};
ghost use Rattle.engine.specs.Contents.{opened_engine};
ghost use Rattle.op.specs.Records.{IsRecord};
ghost use Rattle.translog.specs.Frames.{IsUnopened, LosesNothing};
ghost use Rattle.translog.specs.Kept.{kept, IsTornLog, IsTranslog};
ghost use Rattle.translog.specs.Pieces.{own_header};
ghost use Rattle.replica.specs.declared.fault.CopyFault.TheVariants.{Mismatch};
ghost use Rattle.replica.specs.Copy as spec;
ghost use Rattle.replica.specs.Fault.{has_failed, of_log};
ghost use Rattle.replica.specs.Logged.{HasRecords, IsUnread};
ghost use Rattle.replica.specs.Opens.{Opens};
ghost use Rattle.replica.specs.Searched.{first_segments};

use crate::copy::Copy;
use crate::fault::CopyFault;
use crate::role::Birth;
use crate::state::State;
use doc::{Mapping, Source};
use engine::Engine;
use op::Record;
use segment::Segment;
use std::alloc::{AllocError, Global};
use std::sync::Arc;
use std::thread::Threads;
use translog::{LogDevice, LogFault, Refused, Torn, Translog};

impl<D: LogDevice> Copy<D> {
    /// The copy of the records that its log keeps; the role isn't kept, and searches show all. A refusal hands the device back.
    pub fn open(
        alloc: Global,
        id: u32,
        birth: Birth,
        mapping: Mapping,
        device: D,
    ) -> Result<Copy<D>, Refused<D, CopyFault>>
        ensures records { IfOk result (λ c. kept (D.bytes device) ≡ Ok c.copy.records) }
        ensures copy { IfOk result (λ c. c.copy ≡ spec.opened id birth mapping c.copy.records) }
        ensures segments { IfOk result (λ c. c.segments ≡ first_segments mapping c.copy.records) }
        ensures open { IfOk result (λ c. c.closed ≡ false) }
        ensures left { IfOk result (λ c. LosesNothing (own_header (D.bytes device)) (D.bytes device) c.log) }
        ensures counts { IfOk result (λ c. c.failures ≡ D.failures device) }
        ensures refused { IfErr result (λ r. IsUnopened (has_failed r.fault) (own_header (D.bytes device)) (D.bytes device) (D.bytes r.device) (D.failures device) (D.failures r.device)) }
        ensures unread { IfErr result (λ r. IsUnread (D.bytes device) r.fault) }
        ensures in_memory { D.in_memory ≡ true → IfErr result (λ r. has_failed r.fault ≡ false) }
    {
        let mut log = Translog::over(device);
        match log.read(alloc) {
            Ok(found) => Copy::of_found(&Engine::open, alloc, id, birth, mapping, found, log),
            Err(fault) => {
                drop(mapping);
                Err(unread(fault, log))
            }
        }
    }

    /// Opens the copy of the records that its log keeps. All processors read the log; `builder` builds the segment while operations are noted by id.
    pub fn open_on<
        R: Threads + Sync,
        F: Fn(Global, &Arc<Mapping, Global>, Vec<Source>) -> Result<Segment, AllocError>,
    >(
        rt: &R,
        builder: &F,
        alloc: Global,
        id: u32,
        birth: Birth,
        mapping: Mapping,
        device: D,
    ) -> Result<Copy<D>, Refused<D, CopyFault>>
        requires { Builds F.Fn builder.now }
        ensures records { IfOk result (λ c. kept (D.bytes device) ≡ Ok c.copy.records) }
        ensures copy { IfOk result (λ c. c.copy ≡ spec.opened id birth mapping c.copy.records) }
        ensures segments { IfOk result (λ c. c.segments ≡ first_segments mapping c.copy.records) }
        ensures open { IfOk result (λ c. c.closed ≡ false) }
        ensures left { IfOk result (λ c. LosesNothing (own_header (D.bytes device)) (D.bytes device) c.log) }
        ensures counts { IfOk result (λ c. c.failures ≡ D.failures device) }
        ensures refused { IfErr result (λ r. IsUnopened (has_failed r.fault) (own_header (D.bytes device)) (D.bytes device) (D.bytes r.device) (D.failures device) (D.failures r.device)) }
        ensures unread { IfErr result (λ r. IsUnread (D.bytes device) r.fault) }
        ensures in_memory { D.in_memory ≡ true → IfErr result (λ r. has_failed r.fault ≡ false) }
    {
        let mut log = Translog::over(device);
        match log.read_on(rt, alloc) {
            Ok(found) => {
                let opener = |alloc: Global, mapping: Mapping, records: Vec<Record>| -> Result<
                    Engine,
                    AllocError,
                >
                    requires { Builds F.Fn builder.now × All IsRecord records.items }
                    ensures { IfOk result (λ e. e ≡ opened_engine mapping records.items) }
                { engine_on(rt, builder, alloc, mapping, records) };
                Copy::of_found(&opener, alloc, id, birth, mapping, found, log)
            }
            Err(fault) => {
                drop(mapping);
                Err(unread(fault, log))
            }
        }
    }

    /// The copy of what was read of its log.
    fn of_found<O: Fn(Global, Mapping, Vec<Record>) -> Result<Engine, AllocError>>(
        opener: &O,
        alloc: Global,
        id: u32,
        birth: Birth,
        mapping: Mapping,
        found: (Vec<Record>, Torn),
        log: Translog<D>,
    ) -> Result<Copy<D>, Refused<D, CopyFault>>
        requires opens { Opens O.Fn opener.now }
        requires found { kept (D.bytes log.device) ≡ Ok found.0.items }
        requires torn { IsTornLog (D.bytes log.device) found.0.items found.1 log.groups }
        requires rules { All IsRecord found.0.items }
        ensures records { IfOk result (λ c. kept (D.bytes log.device) ≡ Ok c.copy.records) }
        ensures copy { IfOk result (λ c. c.copy ≡ spec.opened id birth mapping c.copy.records) }
        ensures segments { IfOk result (λ c. c.segments ≡ first_segments mapping c.copy.records) }
        ensures open { IfOk result (λ c. c.closed ≡ false) }
        ensures left { IfOk result (λ c. LosesNothing (own_header (D.bytes log.device)) (D.bytes log.device) c.log) }
        ensures counts { IfOk result (λ c. c.failures ≡ D.failures log.device) }
        ensures refused { IfErr result (λ r. IsUnopened (has_failed r.fault) (own_header (D.bytes log.device)) (D.bytes log.device) (D.bytes r.device) (D.failures log.device) (D.failures r.device)) }
        ensures unread { IfErr result (λ r. IsUnread (D.bytes log.device) r.fault) }
        ensures in_memory { D.in_memory ≡ true → IfErr result (λ r. has_failed r.fault ≡ false) }
    {
        let mut log = log;
        match opened(opener, alloc, id, birth, mapping, found, &mut log) {
            Ok(state) => Ok(Copy {
                state,
                log,
                closed: false,
            }),
            Err(fault) => Err(Refused {
                device: log.into_device(),
                fault,
            }),
        }
    }

    /// A copy of a new index, which begins with so many; copy 1 is the primary of term 1. `Mismatch` where the log has a record. A refusal
    /// hands the device back.
    pub fn begin(
        alloc: Global,
        id: u32,
        copies: u32,
        mapping: Mapping,
        device: D,
    ) -> Result<Copy<D>, Refused<D, CopyFault>>
        requires { 0 < copies }
        ensures empty { OnOk result (kept (D.bytes device) ≡ Ok []) }
        ensures copy { IfOk result (λ c. c.copy ≡ spec.begun id copies mapping) }
        ensures segments { IfOk result (λ c. c.segments ≡ first_segments mapping []) }
        ensures open { IfOk result (λ c. c.closed ≡ false) }
        ensures left { IfOk result (λ c. LosesNothing (own_header (D.bytes device)) (D.bytes device) c.log) }
        ensures counts { IfOk result (λ c. c.failures ≡ D.failures device) }
        ensures refused { IfErr result (λ r. IsUnopened (has_failed r.fault) (own_header (D.bytes device)) (D.bytes device) (D.bytes r.device) (D.failures device) (D.failures r.device)) }
        ensures unread { IfErr result (λ r. ((r.fault ≡ Mismatch) × HasRecords (kept (D.bytes device))) ⊎ IsUnread (D.bytes device) r.fault) }
        ensures in_memory { D.in_memory ≡ true → IfErr result (λ r. has_failed r.fault ≡ false) }
    {
        let mut log = Translog::over(device);
        match begun(alloc, id, copies, mapping, &mut log) {
            Ok(state) => Ok(Copy {
                state,
                log,
                closed: false,
            }),
            Err(fault) => Err(Refused {
                device: log.into_device(),
                fault,
            }),
        }
    }
}

/// The engine of records, opened on threads. A closure that calls a generic function of another crate isn't proved, so one calls this.
fn engine_on<
    R: Threads + Sync,
    F: Fn(Global, &Arc<Mapping, Global>, Vec<Source>) -> Result<Segment, AllocError>,
>(
    rt: &R,
    builder: &F,
    alloc: Global,
    mapping: Mapping,
    records: Vec<Record>,
) -> Result<Engine, AllocError>
    requires builds { Builds F.Fn builder.now }
    requires records { All IsRecord records.items }
    ensures { IfOk result (λ e. e ≡ opened_engine mapping records.items) }
{
    Engine::open_on(rt, builder, alloc, mapping, records)
}

/// The state of the records that were read of a log; then what is torn of the log is cut off.
fn opened<D: LogDevice, O: Fn(Global, Mapping, Vec<Record>) -> Result<Engine, AllocError>>(
    opener: &O,
    alloc: Global,
    id: u32,
    birth: Birth,
    mapping: Mapping,
    found: (Vec<Record>, Torn),
    log: &mut Translog<D>,
) -> Result<State, CopyFault>
    requires opens { Opens O.Fn opener.now }
    requires found { kept (D.bytes log.old.device) ≡ Ok found.0.items }
    requires torn { IsTornLog (D.bytes log.old.device) found.0.items found.1 log.old.groups }
    requires rules { All IsRecord found.0.items }
    ensures records { IfOk result (λ s. kept (D.bytes log.old.device) ≡ Ok s.copy.records) }
    ensures copy { IfOk result (λ s. s.copy ≡ spec.opened id birth mapping s.copy.records) }
    ensures segments { IfOk result (λ s. s.segments ≡ first_segments mapping s.copy.records) }
    ensures whole { IfOk result (λ s. IsTranslog (D.bytes log.new.device) s.copy.records log.new.groups) }
    ensures left { OnOk result (LosesNothing (own_header (D.bytes log.old.device)) (D.bytes log.old.device) (D.bytes log.new.device)) }
    ensures counts { OnOk result (D.failures log.new.device ≡ D.failures log.old.device) }
    ensures refused { IfErr result (λ e. IsUnopened (has_failed e) (own_header (D.bytes log.old.device)) (D.bytes log.old.device) (D.bytes log.new.device) (D.failures log.old.device) (D.failures log.new.device)) }
    ensures unread { IfErr result (IsUnread (D.bytes log.old.device)) }
    ensures in_memory { D.in_memory ≡ true → IfErr result (λ e. has_failed e ≡ false) }
{
    let (records, torn) = found;
    let state = State::open(opener, alloc, id, birth, mapping, records)?;
    match log.mend(torn) {
        Ok(()) => Ok(state),
        Err(fault) => {
            drop(state);
            Err(CopyFault::from(fault))
        }
    }
}

/// The refusal of a log that gave no records.
fn unread<D: LogDevice>(fault: LogFault, log: Translog<D>) -> Refused<D, CopyFault>
    ensures fault { result.fault ≡ of_log fault }
    ensures device { result.device ≡ log.device }
{
    Refused {
        device: log.into_device(),
        fault: CopyFault::from(fault),
    }
}

/// The state of a copy of a new index, over a log without records; then what is torn of the log is cut off.
fn begun<D: LogDevice>(
    alloc: Global,
    id: u32,
    copies: u32,
    mapping: Mapping,
    log: &mut Translog<D>,
) -> Result<State, CopyFault>
    requires { 0 < copies }
    ensures empty { OnOk result (kept (D.bytes log.old.device) ≡ Ok []) }
    ensures copy { IfOk result (λ s. s.copy ≡ spec.begun id copies mapping) }
    ensures segments { IfOk result (λ s. s.segments ≡ first_segments mapping []) }
    ensures whole { OnOk result (IsTranslog (D.bytes log.new.device) [] log.new.groups) }
    ensures left { OnOk result (LosesNothing (own_header (D.bytes log.old.device)) (D.bytes log.old.device) (D.bytes log.new.device)) }
    ensures counts { OnOk result (D.failures log.new.device ≡ D.failures log.old.device) }
    ensures refused { IfErr result (λ e. IsUnopened (has_failed e) (own_header (D.bytes log.old.device)) (D.bytes log.old.device) (D.bytes log.new.device) (D.failures log.old.device) (D.failures log.new.device)) }
    ensures unread { IfErr result (λ e. ((e ≡ Mismatch) × HasRecords (kept (D.bytes log.old.device))) ⊎ IsUnread (D.bytes log.old.device) e) }
    ensures in_memory { D.in_memory ≡ true → IfErr result (λ e. has_failed e ≡ false) }
{
    match log.read(alloc) {
        Ok((records, torn)) => {
            let is_empty = records.is_empty();
            drop(records);
            if !is_empty {
                drop(mapping);
                return Err(CopyFault::Mismatch);
            }
            let state = State::begin(alloc, id, copies, mapping)?;
            match log.mend(torn) {
                Ok(()) => Ok(state),
                Err(fault) => {
                    drop(state);
                    Err(CopyFault::from(fault))
                }
            }
        }
        Err(fault) => {
            drop(mapping);
            Err(CopyFault::from(fault))
        }
    }
}
