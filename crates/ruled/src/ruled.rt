//! The master, with its journal.
ghost use Rattle.std.specs.Prelude.{◌≡◌, [], ◌∷◌, false, is_some, Some, None, IfOk, IfErr, IfSome, OnOk, Ok, Err};
ghost use Rattle.journal.specs.Lawful.{IsLawful};
ghost use Rattle.ruled.specs.declared.entry.MasterEntry.TheVariants.{Opened};
ghost use Rattle.ruled.specs.Entries.{IsDecided, IsJournalOf, IsKnown, IsLeading};
ghost use Rattle.ruled.specs.Ruled.{with_entries, IsRuling, IsUnasked, IsUnruled};
ghost use Rattle.master.specs.Decide.{decision_of, master_step};
ghost use Rattle.master.specs.Fault.{fault_of, is_log};
ghost use Rattle.translog.specs.Device.{count_after};
ghost use Rattle.translog.specs.Fault as log;
ghost use Rattle.translog.specs.Fault.{errs_with, is_device};

use crate::ended::EndedMaster;
use crate::entry::{MasterEntry, journal_of};
use crate::past::Past;
use crate::told::{Decided, Known, Leading};
use chronicle::{NamedLedger, RegistryName};
use journal::{Journal, Ruling};
use master::{Decision, Master, MasterFault, Request};
use std::alloc::{AllocError, Global};
use std::marker::Model;
use translog::{LogDevice, LogFault};

/// The master, and its journal: what it was when that began, and all that it was asked since. Contracts see the entries; memory has them where they
/// are to be kept.
pub struct Ruled<D: LogDevice, J: RegistryName> {
    entries: NamedLedger<MasterEntry, J>,
    /// The entry of a decision that the log failed to keep: where the master is closed the log may have it anyway.
    unsure: Option<Ruling>,
    master: Master<D>,
}

impl<D: LogDevice, J: RegistryName> Drop for Ruled<D, J> {
    fn drop(self) {
        let Ruled {
            entries: _entries,
            unsure: _unsure,
            master: _master,
        } = self;
    }
}

impl<D: LogDevice, J: RegistryName> Model for Ruled<D, J> {
    ghost use Rattle.ruled.specs.Ruled.{with_journal, IsRuled, RuledData};

    ghost Value = { RuledData };

    ghost view = { λ r. with_journal r.entries r.unsure r.master };

    ghost invariant = { λ r. IsRuled (with_journal r.entries r.unsure r.master) };
}

impl<D: LogDevice, J: RegistryName> Ruled<D, J> {
    /// A master whose journal begins, in a ledger without entries.
    pub fn begin(
        alloc: Global,
        ledger: NamedLedger<MasterEntry, J>,
        master: Master<D>,
    ) -> Result<Ruled<D, J>, AllocError>
        requires open { master.closed ≡ false }
        requires empty { ledger.entries ≡ [] }
        ensures { IfOk result (λ r. r ≡ with_entries ledger.kept (Opened master.state ∷ []) None master) }
    {
        let opening = master.state().copy(alloc)?;
        let mut entries = ledger;
        entries.reserve()?;
        entries.push(MasterEntry::Opened(opening));
        Ok(Ruled {
            entries,
            unsure: None,
            master,
        })
    }

    /// All entries.
    pub fn past(&self) -> Past<J>
        ensures { result ≡ self.now.entries }
    {
        match self.entries.entries() {
            Some(entries) => Past::of(entries, self.entries.ledger().len()),
            None => unreachable!(),
        }
    }

    /// What the master knows, and after which entries.
    pub fn known(&self, alloc: Global) -> Result<Known<J>, AllocError>
        ensures same { IfOk result (λ k. (k.state ≡ self.now.master.state) × (k.past ≡ self.now.entries)) }
        ensures known { IfOk result (λ k. IsKnown k.past k.state) }
    {
        let state = self.master.state().copy(alloc)?;
        Ok(Known {
            state,
            past: self.past(),
        })
    }

    /// The primary, as the master knows it.
    pub fn primary(&self) -> u32
        ensures { result ≡ self.now.master.state.primary }
    {
        self.master.state().primary
    }

    /// The primary, and after which entries.
    #[tactic(auto, using(crate::proofs::Rulings::leading_as))]
    pub fn leading(&self) -> Leading<J>
        ensures same { (result.primary ≡ self.now.master.state.primary) × (result.past ≡ self.now.entries) }
        ensures leads { IsLeading result.past result.primary }
    {
        let _ = &self.unsure;
        Leading {
            primary: self.primary(),
            past: self.past(),
        }
    }

    /// One request, which is one entry of the journal, also where the master refuses. Want of memory and a fault of its log leave none. A
    /// master whose log has failed is opened again first, so it refuses for its log only where that fails again.
    #[tactic(auto, using(crate::proofs::Rulings::decided_as))]
    pub fn ask(
        &mut self,
        alloc: Global,
        pass: u64,
        request: Request,
    ) -> Result<Decided<J>, MasterFault>
        ensures ok { IfOk result (λ d. IsRuling self.old self.new pass request (Ok d.decision)) }
        ensures err { IfErr result (IsUnruled self.old self.new pass request) }
        ensures told { IfOk result (λ d. d.past ≡ self.new.entries) }
        ensures decided { IfOk result (λ d. IsDecided request d.decision d.past) }
        ensures open { OnOk result (self.new.master.closed ≡ false) }
        ensures counts { self.new.master.failures ≡ count_after (errs_with is_log result) self.old.master.failures }
    {
        let decision = self.decided(alloc, pass, request)?;
        let _ = &self.unsure;
        Ok(Decided {
            decision,
            past: self.past(),
        })
    }

    /// The decision alone.
    fn decided(
        &mut self,
        alloc: Global,
        pass: u64,
        request: Request,
    ) -> Result<Decision, MasterFault>
        ensures ok { IfOk result (λ d. IsRuling self.old self.new pass request (Ok d)) }
        ensures err { IfErr result (IsUnruled self.old self.new pass request) }
        ensures open { OnOk result (self.new.master.closed ≡ false) }
        ensures counts { self.new.master.failures ≡ count_after (errs_with is_log result) self.old.master.failures }
    {
        if let Err(fault) = self.settle(alloc) {
            return Err(fault);
        }
        self.enter(alloc, pass, request)
    }

    /// Opens the master again where its log has failed. Where the log has the decision that failed, that is an entry now.
    fn settle(&mut self, alloc: Global) -> Result<(), MasterFault>
        ensures unasked { IsUnasked self.old self.new }
        ensures open { OnOk result (self.new.master.closed ≡ false) }
        ensures cause { IfErr result (λ e. fault_of e ≡ None) }
        ensures counts { self.new.master.failures ≡ count_after (errs_with is_log result) self.old.master.failures }
    {
        if !self.master.is_closed() {
            return Ok(());
        }
        self.entries.reserve()?;
        let known = self.master.state().copy(alloc)?;
        if let Err(fault) = self.master.reopen(alloc) {
            return Err(of_log(fault));
        }
        if self.master.state().is(&known) {
            return Ok(());
        }
        if let Some(ruling) = self.unsure.take() {
            self.entries.push(MasterEntry::Answered(ruling));
        }
        Ok(())
    }

    /// One request of a master that is open.
    fn enter(&mut self, alloc: Global, pass: u64, request: Request) -> Result<Decision, MasterFault>
        requires { self.old.master.closed ≡ false }
        ensures ok { IfOk result (λ d. IsRuling self.old self.new pass request (Ok d)) }
        ensures err { IfErr result (IsUnruled self.old self.new pass request) }
        ensures open { OnOk result (self.new.master.closed ≡ false) }
        ensures counts { self.new.master.failures ≡ count_after (errs_with is_log result) self.old.master.failures }
    {
        match self.master.preview(alloc, request) {
            Ok(looked) => self.decide(alloc, pass, request, looked),
            Err(MasterFault::NoMemory) => Err(MasterFault::NoMemory),
            Err(fault) => self.refuse(pass, request, fault),
        }
    }

    /// Makes a decision that was looked at, which is the journal's.
    fn decide(
        &mut self,
        alloc: Global,
        pass: u64,
        request: Request,
        looked: Decision,
    ) -> Result<Decision, MasterFault>
        requires open { self.old.master.closed ≡ false }
        requires looked { decision_of (master_step self.old.master.state request) ≡ Ok looked }
        ensures ok { IfOk result (λ d. IsRuling self.old self.new pass request (Ok d)) }
        ensures err { IfErr result (IsUnruled self.old self.new pass request) }
        ensures open { OnOk result (self.new.master.closed ≡ false) }
        ensures counts { self.new.master.failures ≡ count_after (errs_with is_log result) self.old.master.failures }
    {
        self.entries.reserve()?;
        let ruling = Ruling {
            pass,
            request,
            answer: Ok(looked),
        };
        match self.master.step(alloc, request) {
            Ok(made) => {
                self.entries.push(MasterEntry::Answered(ruling));
                Ok(made)
            }
            Err(fault) => {
                self.unsure = Some(ruling);
                Err(fault)
            }
        }
    }

    /// Enters a refusal of the table.
    fn refuse(
        &mut self,
        pass: u64,
        request: Request,
        fault: MasterFault,
    ) -> Result<Decision, MasterFault>
        requires open { self.old.master.closed ≡ false }
        requires refused { fault_of fault ≡ Some fault }
        requires cause { master_step self.old.master.state request ≡ Err fault }
        ensures ok { IfOk result (λ d. IsRuling self.old self.new pass request (Ok d)) }
        ensures err { IfErr result (IsUnruled self.old self.new pass request) }
        ensures open { OnOk result (self.new.master.closed ≡ false) }
        ensures counts { self.new.master.failures ≡ count_after (errs_with is_log result) self.old.master.failures }
    {
        self.entries.reserve()?;
        let ruling = Ruling {
            pass,
            request,
            answer: Err(copied(&fault)),
        };
        self.entries.push(MasterEntry::Answered(ruling));
        Err(fault)
    }

    /// The journal where memory has it, which is legal, for which the master is given up.
    pub fn into_journal(self, alloc: Global) -> Result<Option<EndedMaster<J>>, AllocError>
        ensures kept { IfOk result (λ o. is_some o ≡ self.kept) }
        ensures legal { IfOk result (λ o. IfSome o IsLawful) }
        ensures same { IfOk result (λ o. IfSome o (IsJournalOf self.entries)) }
    {
        let past = self.past();
        match self.written(alloc) {
            Ok(Some(journal)) => Ok(Some(EndedMaster::of(journal, past))),
            Ok(None) => {
                drop(past);
                Ok(None)
            }
            Err(refused) => {
                drop(past);
                Err(refused)
            }
        }
    }

    /// The journal where memory has its entries.
    fn written(self, alloc: Global) -> Result<Option<Journal>, AllocError>
        ensures kept { IfOk result (λ o. is_some o ≡ self.kept) }
        ensures legal { IfOk result (λ o. IfSome o IsLawful) }
        ensures same { IfOk result (λ o. IfSome o (IsJournalOf self.entries)) }
    {
        let Ruled {
            entries,
            unsure,
            master,
        } = self;
        drop(unsure);
        drop(master);
        match entries.into_ledger().into_entries() {
            Some(entries) => journal_of(alloc, entries),
            None => Ok(None),
        }
    }
}

/// An equal fault.
pub fn copied(fault: &MasterFault) -> MasterFault
    ensures { result ≡ fault.now }
{
    match fault {
        MasterFault::OldTerm => MasterFault::OldTerm,
        MasterFault::NotInSync => MasterFault::NotInSync,
        MasterFault::IsPrimary => MasterFault::IsPrimary,
        MasterFault::Gone => MasterFault::Gone,
        MasterFault::Log(fault) => MasterFault::Log(fault.copy()),
        MasterFault::NoMemory => MasterFault::NoMemory,
        MasterFault::Full => MasterFault::Full,
    }
}

/// A log that couldn't be opened, as a fault of the master.
fn of_log(fault: LogFault) -> MasterFault
    requires { log.fault_of fault ≡ None }
    ensures cause { fault_of result ≡ None }
    ensures device { is_log result ≡ is_device fault }
{
    match fault {
        LogFault::NoMemory => MasterFault::NoMemory,
        other => MasterFault::Log(other),
    }
}
