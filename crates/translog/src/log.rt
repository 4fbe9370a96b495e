//! The translog: a log of records, one or a group in a frame.
ghost use Rattle.std.specs.Prelude.{◌≡◌, ◌≤◌, ◌++◌, ◌∷◌, ◌||◌, [], true, false, None, List, ℕ, length, All, is_err, IfOk, IsOk, IfErr, IsErrOf, OnOk, OnErr};
ghost use Rattle.doc.specs.Outcome.{Gives};
ghost use Rattle.op.specs.declared.record.Record.{Record};
ghost use Rattle.op.specs.Format.{is_too_large};
ghost use Rattle.op.specs.Records.{AreOfOneFrame, IsRecord};
ghost use Rattle.translog.specs.declared.fault.LogFault.TheVariants.{Device, TooLarge};
ghost use Rattle.translog.specs.Device.{AddsFront, count_after};
ghost use Rattle.translog.specs.Fault.{errs_with, fault_of, is_device};
ghost use Rattle.translog.specs.Frames.{mended, IsTorn, IsUnopened, LosesNothing};
ghost use Rattle.translog.specs.Kept.{frames_or, has_upgrade, kept, IsTornLog, IsTranslog};
ghost use Rattle.translog.specs.Pieces.{own_header, some_records, IsSpeltPiece};

use crate::device::LogDevice;
use crate::fault::LogFault;
use crate::frames::{self, Frame, Torn};
use crate::refused::Refused;
use crate::synced::Synced;
use crate::{pieces, stretches};
use op::Record;
use std::alloc::Global;
use std::marker::Model;
use std::slice;
use std::thread::Threads;

/// The log of a copy's records, some of them in groups. It is seen as the device that holds it, and whether groups may stand after what it
/// holds, which an opening finds.
pub struct Translog<D: LogDevice> {
    device: D,
    groups: bool,
}

impl<D: LogDevice> Drop for Translog<D> {
    fn drop(self) {
        let Translog {
            device: _device,
            groups: _,
        } = self;
    }
}

impl<D: LogDevice> Model for Translog<D> {
    ghost use Rattle.translog.specs.Kept.{Pieced};

    ghost Value = { Pieced D };

    ghost view = { λ l. record { device = l.device; groups = l.groups } };
}

impl<D: LogDevice> Translog<D> {
    /// A translog that isn't open yet: nothing is read.
    pub fn over(device: D) -> Translog<D>
        ensures { result.device ≡ device }
    {
        Translog {
            device,
            groups: false,
        }
    }

    /// Opens the translog that a device holds, and gives its records: `read` and then `mend`. A refusal hands the device back.
    pub fn open(
        alloc: Global,
        device: D,
    ) -> Result<(Translog<D>, Vec<Record>), Refused<D, LogFault>>
        ensures found { Gives (λ r. fault_of r.fault) (λ x. x.1.items) result (kept (D.bytes device)) }
        ensures whole { IfOk result (λ x. IsTranslog (D.bytes x.0.device) x.1.items x.0.groups) }
        ensures rules { IfOk result (λ x. All IsRecord x.1.items) }
        ensures left { IfOk result (λ x. LosesNothing (own_header (D.bytes device)) (D.bytes device) (D.bytes x.0.device)) }
        ensures counts { IfOk result (λ x. D.failures x.0.device ≡ D.failures device) }
        ensures refused { IfErr result (λ r. IsUnopened (is_device r.fault) (own_header (D.bytes device)) (D.bytes device) (D.bytes r.device) (D.failures device) (D.failures r.device)) }
        ensures in_memory { D.in_memory ≡ true → IfErr result (λ r. is_device r.fault ≡ false) }
    {
        let mut log = Translog::over(device);
        match log.reopen(alloc) {
            Ok(records) => Ok((log, records)),
            Err(fault) => Err(Refused {
                device: log.into_device(),
                fault,
            }),
        }
    }

    /// Opens it again, as after a failed `append`: `read` and then `mend`.
    pub fn reopen(&mut self, alloc: Global) -> Result<Vec<Record>, LogFault>
        ensures found { Gives fault_of (λ rs. rs.items) result (kept (D.bytes self.old.device)) }
        ensures whole { IfOk result (λ rs. IsTranslog (D.bytes self.new.device) rs.items self.new.groups) }
        ensures rules { IfOk result (λ rs. All IsRecord rs.items) }
        ensures left { OnOk result (LosesNothing (own_header (D.bytes self.old.device)) (D.bytes self.old.device) (D.bytes self.new.device)) }
        ensures counts { OnOk result (D.failures self.new.device ≡ D.failures self.old.device) }
        ensures refused { IfErr result (λ e. IsUnopened (is_device e) (own_header (D.bytes self.old.device)) (D.bytes self.old.device) (D.bytes self.new.device) (D.failures self.old.device) (D.failures self.new.device)) }
        ensures in_memory { D.in_memory ≡ true → IfErr result (λ e. is_device e ≡ false) }
    {
        let (records, torn) = self.read(alloc)?;
        self.mend(torn)?;
        Ok(records)
    }

    /// The records that the translog keeps, and what of it is torn. No byte changes. Else `BadMagic`, or `Damaged` with the offset of
    /// the first whole frame that is no piece, or that may not stand where it does.
    #[tactic(auto, using(crate::proofs::KeptLaws::torn_rules))]
    pub fn read(&mut self, alloc: Global) -> Result<(Vec<Record>, Torn), LogFault>
        ensures found { Gives fault_of (λ x. x.0.items) result (kept (D.bytes self.old.device)) }
        ensures torn { IfOk result (λ x. IsTornLog (D.bytes self.old.device) x.0.items x.1 self.new.groups) }
        ensures rules { IfOk result (λ x. All IsRecord x.0.items) }
        ensures held { D.bytes self.new.device ≡ D.bytes self.old.device }
        ensures groups { OnErr result (self.new.groups ≡ self.old.groups) }
        ensures counts { D.failures self.new.device ≡ count_after (errs_with is_device result) (D.failures self.old.device) }
        ensures in_memory { D.in_memory ≡ true → IfErr result (λ e. is_device e ≡ false) }
    {
        let bytes = frames::read(alloc, &mut self.device)?;
        let (records, torn, groups) = pieces::found(alloc, bytes.as_slice())?;
        self.groups = groups;
        Ok((records, torn))
    }

    /// The records that the translog keeps, as `read` gives them, of what the device holds in memory. Nothing is read, and nothing changes.
    #[tactic(auto, using(crate::proofs::KeptLaws::torn_rules))]
    pub fn records(&self, alloc: Global) -> Result<Vec<Record>, LogFault>
        ensures found { Gives fault_of (λ rs. rs.items) result (kept (D.bytes self.now.device)) }
        ensures rules { IfOk result (λ rs. All IsRecord rs.items) }
    {
        let held = self.device.held(alloc)?;
        let (records, _torn, _groups) = pieces::found(alloc, held.as_slice())?;
        Ok(records)
    }

    /// The records that `read` gives. All processors read the frames' contents, where they stand if the device has them in one piece.
    #[tactic(auto, using(crate::proofs::KeptLaws::torn_rules))]
    pub fn read_on<R: Threads + Sync>(
        &mut self,
        rt: &R,
        alloc: Global,
    ) -> Result<(Vec<Record>, Torn), LogFault>
        ensures found { Gives fault_of (λ x. x.0.items) result (kept (D.bytes self.old.device)) }
        ensures torn { IfOk result (λ x. IsTornLog (D.bytes self.old.device) x.0.items x.1 self.new.groups) }
        ensures rules { IfOk result (λ x. All IsRecord x.0.items) }
        ensures held { D.bytes self.new.device ≡ D.bytes self.old.device }
        ensures groups { OnErr result (self.new.groups ≡ self.old.groups) }
        ensures counts { D.failures self.new.device ≡ count_after (errs_with is_device result) (D.failures self.old.device) }
        ensures in_memory { D.in_memory ≡ true → IfErr result (λ e. is_device e ≡ false) }
    {
        let (records, torn, groups) = match self.device.whole() {
            Some(bytes) => stretches::found_on(rt, alloc, bytes)?,
            None => {
                let bytes = frames::read(alloc, &mut self.device)?;
                stretches::found_on(rt, alloc, bytes.as_slice())?
            }
        };
        self.groups = groups;
        Ok((records, torn))
    }

    /// Cuts off the torn end that `read` found, or writes the header anew. Only for the header may memory run out, before a byte changes.
    pub fn mend(&mut self, torn: Torn) -> Result<(), LogFault>
        requires { (contents : List (List ℕ)) × IsTorn (own_header (D.bytes self.old.device)) (D.bytes self.old.device) contents torn }
        ensures ok { OnOk result (D.bytes self.new.device ≡ mended (own_header (D.bytes self.old.device)) (D.bytes self.old.device) torn) }
        ensures counts { OnOk result (D.failures self.new.device ≡ D.failures self.old.device) }
        ensures refused { IfErr result (λ e. IsUnopened (is_device e) (own_header (D.bytes self.old.device)) (D.bytes self.old.device) (D.bytes self.new.device) (D.failures self.old.device) (D.failures self.new.device)) }
        ensures cause { IfErr result (λ e. fault_of e ≡ None) }
        ensures groups { self.new.groups ≡ self.old.groups }
        ensures in_memory { D.in_memory ≡ true → IfErr result (λ e. is_device e ≡ false) }
    {
        pieces::mend(&mut self.device, torn)
    }

    /// Spells the frame of a record that keeps the rules, and makes room for it. No byte changes.
    pub fn prepare(&mut self, alloc: Global, entry: &Record) -> Result<Frame, LogFault>
        requires { IsRecord entry.now }
        ensures frame { Gives fault_of (λ f. f) result (frames_or self.old.groups (entry.now ∷ [])) }
        ensures large { IsErrOf result TooLarge → is_too_large entry.now ≡ true }
        ensures spelt { OnOk result (IsSpeltPiece (some_records (entry.now ∷ []))) }
        ensures room { IfOk result (λ f. length f ≤ D.room self.new.device) }
        ensures held { D.bytes self.new.device ≡ D.bytes self.old.device }
        ensures failures { D.failures self.new.device ≡ D.failures self.old.device }
        ensures groups { self.new.groups ≡ self.old.groups }
        ensures no_failure { IfErr result (λ e. is_device e ≡ false) }
    {
        self.prepare_group(alloc, slice::from_ref(entry))
    }

    /// Spells the frame of records that keep the rules, one or a group, with an upgrade's before it where groups may not stand yet, for one
    /// append, and makes room for it. No byte changes. `TooLarge` comes for one record alone.
    #[tactic(auto, using(crate::proofs::PieceWriting::piece_spelt))]
    pub fn prepare_group(&mut self, alloc: Global, group: &[Record]) -> Result<Frame, LogFault>
        requires { AreOfOneFrame group.now }
        ensures frame { Gives fault_of (λ f. f) result (frames_or self.old.groups group.now) }
        ensures large { IsErrOf result TooLarge → (r : Record) × (group.now ≡ r ∷ []) × (is_too_large r ≡ true) }
        ensures spelt { OnOk result (IsSpeltPiece (some_records group.now)) }
        ensures room { IfOk result (λ f. length f ≤ D.room self.new.device) }
        ensures held { D.bytes self.new.device ≡ D.bytes self.old.device }
        ensures failures { D.failures self.new.device ≡ D.failures self.old.device }
        ensures groups { self.new.groups ≡ self.old.groups }
        ensures no_failure { IfErr result (λ e. is_device e ≡ false) }
    {
        let frame = pieces::framed_together(alloc, self.groups, group)?;
        self.device.reserve(frame.as_slice().len())?;
        Ok(frame)
    }

    /// Adds what was prepared last. It takes no memory. At `Err` the translog is to be opened again, and gives its records without the new ones
    /// or with all of them.
    pub fn append(&mut self, frame: Frame) -> Result<(), LogFault>
        ensures ok { OnOk result (D.bytes self.new.device ≡ D.bytes self.old.device ++ frame) }
        ensures groups { OnOk result (self.new.groups ≡ (self.old.groups || has_upgrade frame)) }
        ensures err { OnErr result (AddsFront (D.bytes self.old.device) frame (D.bytes self.new.device)) }
        ensures cause { IfErr result (λ e. e ≡ Device) }
        ensures counts { D.failures self.new.device ≡ count_after (is_err result) (D.failures self.old.device) }
        ensures in_memory { D.in_memory ≡ true → length frame ≤ D.room self.old.device → IsOk result }
    {
        let upgraded = pieces::has_upgrade(frame.as_slice());
        self.device.append(frame.as_slice())?;
        self.groups = self.groups || upgraded;
        Ok(())
    }

    /// Waits until the whole translog is there after a crash too. One that failed isn't tried again: until the translog is opened again, or read, it is
    /// refused, and so is an append.
    pub fn sync(&mut self) -> Result<Synced, LogFault>
        ensures held { D.bytes self.new.device ≡ D.bytes self.old.device }
        ensures room { D.room self.new.device ≡ D.room self.old.device }
        ensures groups { self.new.groups ≡ self.old.groups }
        ensures all { IfOk result (λ s. s ≡ length (D.bytes self.new.device)) }
        ensures synced { OnOk result (D.synced self.new.device ≡ length (D.bytes self.new.device)) }
        ensures doubt { OnErr result (D.is_doubtful self.new.device ≡ true) }
        ensures refused { D.is_doubtful self.old.device ≡ true → is_err result ≡ true }
        ensures cause { IfErr result (λ e. e ≡ Device) }
        ensures counts { D.failures self.new.device ≡ count_after (is_err result) (D.failures self.old.device) }
        ensures in_memory { D.in_memory ≡ true → IsOk result }
    {
        let bytes = self.device.sync()?;
        Ok(Synced::of(bytes))
    }

    /// Whether the whole translog is there after a crash too.
    pub fn is_synced(&self) -> bool
        ensures synced { result ≡ true → D.synced self.now.device ≡ length (D.bytes self.now.device) }
        ensures in_memory { D.in_memory ≡ true → result ≡ true }
    {
        self.device.is_synced()
    }

    /// The device.
    pub fn device(&self) -> &D
        ensures { result.now ≡ self.now.device }
    {
        &self.device
    }

    /// The device alone.
    pub fn into_device(self) -> D
        ensures { result ≡ self.device }
    {
        let Translog { device, groups: _ } = self;
        device
    }
}
