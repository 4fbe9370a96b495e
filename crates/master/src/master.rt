//! The master and its log.
ghost use Rattle.std.specs.Prelude.{◌≡◌, ◌≢◌, ◌≤◌, ◌++◌, [], length, true, false, None, Ok, IfOk, IfErr, OnOk, OnErr};
ghost use Rattle.doc.specs.Outcome.{Gives};
ghost use Rattle.translog.specs.Device.{AddsFront, count_after};
ghost use Rattle.translog.specs.Fault.{errs_with, fault_of, is_device};
ghost use Rattle.translog.specs.Frames.{contents_in, IsLog, IsUnopened, LosesNothing};
ghost use Rattle.master.specs.declared.entry.Entry.TheVariants.{Begin};
ghost use Rattle.master.specs.Log.{header, kept_state};
ghost use Rattle.master.specs.Decide.{decision_of, master_step};
ghost use Rattle.master.specs.Entry.{IsEntry, entry_of, spelled};
ghost use Rattle.master.specs.Fault as refusals;
ghost use Rattle.master.specs.Fault.{is_log};
ghost use Rattle.master.specs.Logged.{begun_state, frame_for, IsDone, IsLogOf, IsRefused, IsUnbegun};
ghost use Rattle.master.specs.State.{begun, IsSound};

use crate::entry::Entry;
use crate::fault::MasterFault;
use crate::replay::state_of;
use crate::state::{Decision, Request, State};
use std::alloc::{AllocError, Global};
use std::marker::Model;
use translog::{Frame, Frames, LogDevice, LogFault, Refused};

/// The header of the master's log.
const RSM1: [u8; 4] = [b'R', b'S', b'M', b'1'];

/// The state of the master, and the log of its decisions. After a fault of the log it answers that fault until it is opened again.
pub struct Master<D: LogDevice> {
    state: State,
    frames: Frames<D>,
    closed: bool,
}

impl<D: LogDevice> Drop for Master<D> {
    fn drop(self) {
        let Master {
            state: _state,
            frames: _frames,
            closed: _,
        } = self;
    }
}

impl<D: LogDevice> Model for Master<D> {
    ghost use Rattle.master.specs.Logged.{Logged, IsMaster};

    ghost Value = { Logged };

    ghost view = { λ m. record { state = m.state; closed = m.closed; log = D.bytes m.frames.device; failures = D.failures m.frames.device; room = D.room m.frames.device } };

    ghost invariant = { λ m. IsMaster m.frames.header m.state m.closed (D.bytes m.frames.device) };
}

impl<D: LogDevice> Master<D> {
    /// The master that a log keeps. A torn last frame is cut off; else nothing is lost of the log. `Damaged` names the offset of the first
    /// frame that isn't an entry which the table takes. A refusal hands the device back.
    pub fn open(alloc: Global, device: D) -> Result<Master<D>, Refused<D, LogFault>>
        ensures state { Gives (λ r. fault_of r.fault) (λ m. m.state) result (kept_state (D.bytes device)) }
        ensures opened { IfOk result (λ m. m.closed ≡ false) }
        ensures left { IfOk result (λ m. LosesNothing header (D.bytes device) m.log) }
        ensures counts { IfOk result (λ m. m.failures ≡ D.failures device) }
        ensures refused { IfErr result (λ r. IsUnopened (is_device r.fault) header (D.bytes device) (D.bytes r.device) (D.failures device) (D.failures r.device)) }
        ensures in_memory { D.in_memory ≡ true → IfErr result (λ r. is_device r.fault ≡ false) }
    {
        let mut frames = Frames::over(RSM1, device);
        match opened(alloc, &mut frames) {
            Ok(state) => Ok(Master {
                state,
                frames,
                closed: false,
            }),
            Err(fault) => Err(Refused {
                device: frames.into_device(),
                fault,
            }),
        }
    }

    /// The master of a new index of one copy to five. A log that holds a frame already is opened instead, and loses nothing but a torn end. A refusal
    /// hands the device back; its log has lost nothing, and where it held no frame and the device failed it may have gained a front of the first entry.
    pub fn begin(alloc: Global, copies: u8, device: D) -> Result<Master<D>, Refused<D, LogFault>>
        requires { (1 ≤ copies) × (copies ≤ 5) }
        ensures state { Gives (λ r. fault_of r.fault) (λ m. m.state) result (begun_state copies (D.bytes device)) }
        ensures opened { IfOk result (λ m. m.closed ≡ false) }
        ensures first { IfOk result (λ m. contents_in header (D.bytes device) ≡ Ok [] → m.log ≡ header ++ frame_for (Begin copies)) }
        ensures left { IfOk result (λ m. contents_in header (D.bytes device) ≢ Ok [] → LosesNothing header (D.bytes device) m.log) }
        ensures counts { IfOk result (λ m. m.failures ≡ D.failures device) }
        ensures refused { IfErr result (λ r. IsUnbegun r.fault copies (D.bytes device) (D.bytes r.device) (D.failures device) (D.failures r.device)) }
        ensures in_memory { D.in_memory ≡ true → IfErr result (λ r. is_device r.fault ≡ false) }
    {
        let mut frames = Frames::over(RSM1, device);
        match begun(alloc, copies, &mut frames) {
            Ok(state) => Ok(Master {
                state,
                frames,
                closed: false,
            }),
            Err(fault) => Err(Refused {
                device: frames.into_device(),
                fault,
            }),
        }
    }

    /// Decides a request by the table, once the decision stands in the log. A request that changes nothing is answered as repeated, and nothing
    /// is added. After a fault of the log each request is answered by it, until the log is opened again.
    pub fn step(&mut self, alloc: Global, request: Request) -> Result<Decision, MasterFault>
        ensures done { IfOk result (λ d. IsDone self.old self.new request d (master_step self.old.state request)) }
        ensures refused { IfErr result (λ e. IsRefused e self.old self.new (master_step self.old.state request)) }
        ensures in_memory { D.in_memory ≡ true → self.old.closed ≡ false → IfErr result (λ e. is_log e ≡ false) }
    {
        if self.closed {
            return Err(MasterFault::Log(LogFault::Device));
        }
        let decided = self.state.decide(alloc, request)?;
        if decided.is_repeated() {
            return Ok(decided.into_decision());
        }
        let Ok(frame) = prepared(alloc, &mut self.frames, Entry::of(request)) else {
            drop(decided);
            return Err(MasterFault::NoMemory);
        };
        if let Err(fault) = self.frames.append(frame) {
            drop(decided);
            self.closed = true;
            return Err(MasterFault::Log(fault));
        }
        let (state, decision) = decided.into_parts();
        self.state = state;
        Ok(decision)
    }

    /// Opens the log again, as after a failed append: the state is that of the decisions that it keeps, which for a master that isn't closed is
    /// the state that it has. After a refusal the state stays, and requests are refused until the log is opened.
    pub fn reopen(&mut self, alloc: Global) -> Result<(), LogFault>
        ensures state { Gives fault_of (λ _. self.new.state) result (kept_state self.old.log) }
        ensures keeps { kept_state self.new.log ≡ kept_state self.old.log }
        ensures same { self.old.closed ≡ false → OnOk result (self.new.state ≡ self.old.state) }
        ensures opened { OnOk result (self.new.closed ≡ false) }
        ensures left { OnOk result (LosesNothing header self.old.log self.new.log) }
        ensures counts { OnOk result (self.new.failures ≡ self.old.failures) }
        ensures refused { IfErr result (λ e. IsUnopened (is_device e) header self.old.log self.new.log self.old.failures self.new.failures) }
        ensures stays { OnErr result ((self.new.state ≡ self.old.state) × (self.new.closed ≡ true)) }
        ensures in_memory { D.in_memory ≡ true → IfErr result (λ e. is_device e ≡ false) }
    {
        self.closed = true;
        match opened(alloc, &mut self.frames) {
            Ok(state) => {
                self.state = state;
                self.closed = false;
                Ok(())
            }
            Err(fault) => Err(fault),
        }
    }

    /// Whether the log has failed, so that requests are refused until it is opened again.
    pub fn is_closed(&self) -> bool
        ensures { result ≡ self.now.closed }
    {
        self.closed
    }

    /// What a request would be answered, were it made now. Nothing changes.
    pub fn preview(&self, alloc: Global, request: Request) -> Result<Decision, MasterFault>
        ensures decision { Gives refusals.fault_of (λ d. d) result (decision_of (master_step self.now.state request)) }
        ensures no_log { IfErr result (λ e. is_log e ≡ false) }
    {
        match self.state.decide(alloc, request) {
            Ok(decided) => Ok(decided.into_decision()),
            Err(fault) => Err(fault),
        }
    }

    /// What the master knows.
    pub fn state(&self) -> &State
        ensures { result.now ≡ self.now.state }
    {
        &self.state
    }

    /// The device of its log, which keeps the state unless the log has failed.
    pub fn close(self) -> D
        ensures kept { self.closed ≡ false → kept_state (D.bytes result) ≡ Ok self.state }
        ensures held { D.bytes result ≡ self.log }
        ensures failures { D.failures result ≡ self.failures }
    {
        let Master {
            state: _state,
            frames,
            closed: _,
        } = self;
        frames.into_device()
    }
}

/// The frame of an entry, and room for it.
fn prepared<D: LogDevice>(
    alloc: Global,
    frames: &mut Frames<D>,
    entry: Entry,
) -> Result<Frame, AllocError>
    requires { IsEntry entry }
    ensures frame { IfOk result (λ f. f ≡ frame_for entry) }
    ensures reads { OnOk result (entry_of (spelled entry) ≡ Some entry) }
    ensures room { IfOk result (λ f. length f ≤ D.room frames.new.device) }
    ensures header { frames.new.header ≡ frames.old.header }
    ensures held { D.bytes frames.new.device ≡ D.bytes frames.old.device }
    ensures failures { D.failures frames.new.device ≡ D.failures frames.old.device }
{
    let content = entry.spell(alloc)?;
    match frames.prepare(alloc, content.as_slice()) {
        Ok(frame) => Ok(frame),
        Err(_) => Err(AllocError),
    }
}

/// The state that a log keeps. What is torn of it is cut off or written again, once all its entries are taken.
fn opened<D: LogDevice>(alloc: Global, frames: &mut Frames<D>) -> Result<State, LogFault>
    requires { frames.old.header ≡ header }
    ensures state { Gives fault_of (λ m. m) result (kept_state (D.bytes frames.old.device)) }
    ensures whole { IfOk result (λ m. IsLogOf (D.bytes frames.new.device) m) }
    ensures sound { IfOk result IsSound }
    ensures left { OnOk result (LosesNothing header (D.bytes frames.old.device) (D.bytes frames.new.device)) }
    ensures counts { OnOk result (D.failures frames.new.device ≡ D.failures frames.old.device) }
    ensures refused { IfErr result (λ e. IsUnopened (is_device e) header (D.bytes frames.old.device) (D.bytes frames.new.device) (D.failures frames.old.device) (D.failures frames.new.device)) }
    ensures header { frames.new.header ≡ header }
    ensures in_memory { D.in_memory ≡ true → IfErr result (λ e. is_device e ≡ false) }
{
    let (contents, torn) = frames.read(alloc)?;
    let state = state_of(alloc, contents.as_slice())?;
    frames.mend(torn)?;
    Ok(state)
}

/// The state of a new index, or that of a log which holds a frame already.
fn begun<D: LogDevice>(alloc: Global, copies: u8, frames: &mut Frames<D>) -> Result<State, LogFault>
    requires copies { (1 ≤ copies) × (copies ≤ 5) }
    requires header { frames.old.header ≡ header }
    ensures state { Gives fault_of (λ m. m) result (begun_state copies (D.bytes frames.old.device)) }
    ensures whole { IfOk result (λ m. IsLogOf (D.bytes frames.new.device) m) }
    ensures sound { IfOk result IsSound }
    ensures first { OnOk result (contents_in header (D.bytes frames.old.device) ≡ Ok [] → D.bytes frames.new.device ≡ header ++ frame_for (Begin copies)) }
    ensures left { OnOk result (contents_in header (D.bytes frames.old.device) ≢ Ok [] → LosesNothing header (D.bytes frames.old.device) (D.bytes frames.new.device)) }
    ensures counts { OnOk result (D.failures frames.new.device ≡ D.failures frames.old.device) }
    ensures refused { IfErr result (λ e. IsUnbegun e copies (D.bytes frames.old.device) (D.bytes frames.new.device) (D.failures frames.old.device) (D.failures frames.new.device)) }
    ensures header { frames.new.header ≡ header }
    ensures in_memory { D.in_memory ≡ true → IfErr result (λ e. is_device e ≡ false) }
{
    let (contents, torn) = match frames.read(alloc) {
        Ok(found) => found,
        Err(fault) => return Err(fault),
    };
    if !contents.as_slice().is_empty() {
        return opened(alloc, frames);
    }
    if let Err(fault) = frames.mend(torn) {
        return Err(fault);
    }
    first(alloc, copies, frames)
}

/// The first entry of a log without frames.
fn first<D: LogDevice>(alloc: Global, copies: u8, frames: &mut Frames<D>) -> Result<State, LogFault>
    requires copies { (1 ≤ copies) × (copies ≤ 5) }
    requires log { IsLog header (D.bytes frames.old.device) [] }
    ensures state { IfOk result (λ m. m ≡ begun copies) }
    ensures whole { IfOk result (λ m. IsLogOf (D.bytes frames.new.device) m) }
    ensures sound { IfOk result IsSound }
    ensures ok { OnOk result (D.bytes frames.new.device ≡ header ++ frame_for (Begin copies)) }
    ensures unfailed { IfErr result (λ e. is_device e ≡ false → D.bytes frames.new.device ≡ D.bytes frames.old.device) }
    ensures err { OnErr result (AddsFront (D.bytes frames.old.device) (frame_for (Begin copies)) (D.bytes frames.new.device)) }
    ensures cause { IfErr result (λ e. fault_of e ≡ None) }
    ensures counts { D.failures frames.new.device ≡ count_after (errs_with is_device result) (D.failures frames.old.device) }
    ensures header { frames.new.header ≡ frames.old.header }
    ensures in_memory { D.in_memory ≡ true → IfErr result (λ e. is_device e ≡ false) }
{
    let state = State::begin(alloc, copies)?;
    let frame = prepared(alloc, frames, Entry::Begin(copies))?;
    frames.append(frame)?;
    Ok(state)
}
