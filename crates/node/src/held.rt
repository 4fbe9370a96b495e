//! A copy with its journal.
ghost use Rattle.std.specs.Prelude.{◌≡◌, ◌+◌, ◌≤◌, [], ◌∷◌, true, false, length, is_some, Some, slice_get, IfOk, IfErr, IfSome, IfNone, IsOk, OnErr};
ghost use Rattle.journal.specs.Journal.{IsLegal, open_at};
ghost use Rattle.journal.specs.declared.journal.Journal.TheVariants.{OfCopy};
ghost use Rattle.translog.specs.declared.fault.LogFault.TheVariants.{Device};
ghost use Rattle.replica.specs.declared.fault.CopyFault.TheVariants.{Log};
ghost use Rattle.node.specs.declared.fault.NodeFault.TheVariants.{Copy as Refused};
ghost use Rattle.chronicle.specs.Registered.{last_seat, prefix, upto};
ghost use Rattle.node.specs.Reading.{IsGotFrom, IsUngot};
ghost use Rattle.node.specs.Stands.{IsBarred, IsDenied, LastStands};
ghost use Rattle.node.specs.Held.{journal, IsCall, IsHeld, IsLastOf, IsRefusal};
ghost use Rattle.node.specs.Telling.{receipt, IsEntered, IsGivenAs};

use crate::began::{Began, begun, noted};
use crate::ended::EndedCopy;
use crate::fault::NodeFault;
use crate::got::Got;
use crate::heard::Heard;
use crate::on_disk::OnDisk;
use crate::pass::Pass;
use crate::reading::read;
use crate::receipt::Receipt;
use crate::standing::equal_deed;
use crate::syncing::synced;
use crate::telling::{Entered, Inputs, Told, tell};
use chronicle::{Ledger, Prefix, Registered, Registry, RegistryName, Upto};
use doc::DocId;
use engine::Merging;
use journal::{Deed, Deeds, Journal, Opening};
use replica::{Copy, CopyFault, Input};
use std::alloc::{AllocError, Global};
use std::marker::Model;
use translog::LogDevice;

/// A copy with its journal, which is one of a cluster. Contracts see the journal, which is legal; memory has it where it is to be kept.
pub struct Held<D: LogDevice, J: RegistryName> {
    began: Began<J>,
    opening: Option<Opening>,
    deeds: Registered<Deed, J>,
    copy: Copy<D>,
}

impl<D: LogDevice, J: RegistryName> Drop for Held<D, J> {
    fn drop(self) {
        let Held {
            began: _began,
            opening: _opening,
            deeds: _deeds,
            copy: _copy,
        } = self;
    }
}

impl<D: LogDevice, J: RegistryName> Model for Held<D, J> {
    ghost use Rattle.std.specs.Prelude.{◌≡◌, is_some, IfSome};
    ghost use Rattle.node.specs.Held.{JournalData, journal, IsHeld};

    ghost Value = { JournalData };

    ghost view = { λ h. journal h.deeds.ledger.kept h.began h.deeds.ledger.entries };

    ghost invariant = { λ h. (h.deeds.number ≡ h.began.id) × IsHeld (journal h.deeds.ledger.kept h.began h.deeds.ledger.entries) h.copy × (is_some h.opening ≡ h.deeds.ledger.kept) × IfSome h.opening (λ o. o ≡ h.began) };
}

impl<D: LogDevice, J: RegistryName> Held<D, J> {
    /// A copy that has made no step since its opening, whose journal memory is to have. Where the registry has a journal with its id or a greater one
    /// the copy is given back.
    #[tactic(auto, using(crate::proofs::Sound::sound))]
    pub fn new(
        alloc: Global,
        opening: Opening,
        copy: Copy<D>,
        registry: &mut Registry<Deed, J>,
    ) -> Result<Held<D, J>, Copy<D>>
        requires copy { copy.copy ≡ opening }
        requires open { copy.closed ≡ false }
        ensures held { IfOk result (λ h. h ≡ journal true opening []) }
        ensures id { IfOk result (λ h. (last_seat registry.new).number ≡ copy.copy.id) }
        ensures taken { IfErr result (λ c. (c ≡ copy) × (registry.new ≡ registry.old) × (copy.copy.id ≤ (last_seat registry.old).number)) }
    {
        copy.is_logged();
        let first = noted(&copy);
        match registry.add(copy.id(), Ledger::kept(alloc), &first) {
            Ok(deeds) => Ok(Held {
                began: begun(&copy, &deeds, &first),
                opening: Some(opening),
                deeds,
                copy,
            }),
            Err(ledger) => {
                drop(ledger);
                drop(opening);
                Err(copy)
            }
        }
    }

    /// A copy whose journal begins with what the copy is, and which memory isn't to have.
    #[tactic(auto, using(crate::proofs::Sound::sound))]
    pub fn unkept(copy: Copy<D>, registry: &mut Registry<Deed, J>) -> Result<Held<D, J>, Copy<D>>
        requires open { copy.closed ≡ false }
        ensures held { IfOk result (λ h. h ≡ journal false copy.copy []) }
        ensures id { IfOk result (λ h. (last_seat registry.new).number ≡ copy.copy.id) }
        ensures taken { IfErr result (λ c. (c ≡ copy) × (registry.new ≡ registry.old) × (copy.copy.id ≤ (last_seat registry.old).number)) }
    {
        copy.is_logged();
        let first = noted(&copy);
        match registry.add(copy.id(), Ledger::unkept(), &first) {
            Ok(deeds) => Ok(Held {
                began: begun(&copy, &deeds, &first),
                opening: None,
                deeds,
                copy,
            }),
            Err(ledger) => {
                drop(ledger);
                Err(copy)
            }
        }
    }

    /// Whether memory has the journal.
    pub fn is_kept(&self) -> bool
        ensures { result ≡ self.now.kept }
    {
        self.deeds.ledger().is_kept()
    }

    /// The copy is what its journal says.
    pub fn copy(&self) -> &Copy<D>
        ensures { IsHeld self.now result.now }
    {
        &self.copy
    }

    /// What the copy was when its journal began.
    pub fn began(&self) -> &Began<J>
        ensures { result.now ≡ self.now.opening }
    {
        &self.began
    }

    /// The id of the copy, under which its receipts stand.
    pub fn node(&self) -> u32
        ensures { result ≡ self.now.opening.id }
    {
        self.deeds.number()
    }

    /// One call of the copy, which is one entry of its journal and a receipt of the pass, also where the copy refuses.
    /// A pass whose last receipt isn't in the journal at its place is refused; so is one whose last receipt can't be looked at, as the journal isn't
    /// kept, and it isn't that of the last entry.
    pub fn call(
        &mut self,
        alloc: Global,
        pass: &mut Pass<J>,
        input: Input,
    ) -> Result<Receipt<J>, NodeFault>
        ensures ok { IfOk result (λ r. IsCall self.old self.new pass.old pass.new input r × IsOk r.deed.answer) }
        ensures stood { IfOk result (λ r. LastStands self.old pass.old) }
        ensures err { IfErr result (λ e. IsDenied self.old self.new pass.old pass.new input e) }
        ensures last { IfOk result (IsLastOf self.new) }
    {
        if let Some(fault) = self.barring(pass) {
            drop(input);
            return Err(fault);
        }
        self.add(alloc, pass, input)
    }

    /// Why a pass may make no call: its last receipt doesn't stand, or that can't be looked at.
    fn barring(&self, pass: &Pass<J>) -> Option<NodeFault>
        ensures barred { IfSome result (IsBarred self.now pass.now) }
        ensures stands { IfNone result (LastStands self.now pass.now) }
    {
        let Some(receipt) = pass.receipts.last() else {
            return None;
        };
        let place = receipt.place();
        let deeds = self.deeds.ledger();
        match deeds.at(place) {
            Some(deed)
                if receipt.node() == self.deeds.number() && equal_deed(deed, receipt.deed()) =>
                None,
            None if !deeds.is_kept() => Some(NodeFault::Forgotten(place)),
            _ => Some(NodeFault::Stray(place)),
        }
    }

    /// The call, whatever the pass has.
    #[tactic(auto, using(crate::proofs::Calls::entered_last_place))]
    fn add(
        &mut self,
        alloc: Global,
        pass: &mut Pass<J>,
        input: Input,
    ) -> Result<Receipt<J>, NodeFault>
        ensures ok { IfOk result (λ r. IsCall self.old self.new pass.old pass.new input r × IsOk r.deed.answer) }
        ensures err { IfErr result (λ e. IsRefusal self.old self.new pass.old pass.new input e) }
        ensures last { IfOk result (IsLastOf self.new) }
    {
        pass.receipts.reserve(1)?;
        let (entered, upto) = self.enter(alloc, pass.number, input)?;
        let (kept, given) = self.receipts(entered, upto);
        pass.receipts.push_reserved(kept);
        given
    }

    /// The receipts of the last entry: what the pass gets, and what the caller does.
    fn receipts(
        &self,
        entered: Entered,
        upto: Prefix<Deed, J>,
    ) -> (Receipt<J>, Result<Receipt<J>, NodeFault>)
        requires last { entered.place + 1 ≡ length self.now.deeds }
        requires there { slice_get self.now.deeds entered.place ≡ Some entered.kept }
        requires given { IfOk entered.given (λ d. d ≡ entered.kept) }
        requires upto { upto ≡ prefix self.now.opening.id self.now.deeds }
        ensures kept { result.0 ≡ receipt self.now.opening.id entered.place entered.kept self.now.deeds }
        ensures given { IsGivenAs entered.given result.0 result.1 }
    {
        let Entered { place, kept, given } = entered;
        let kept = self.receipt(place, kept, upto.again());
        match given {
            Ok(deed) => (kept, Ok(self.receipt(place, deed, upto))),
            Err(fault) => (kept, Err(fault)),
        }
    }

    /// The step, and its entry in the journal, with all entries up to it.
    fn enter(
        &mut self,
        alloc: Global,
        pass: u64,
        input: Input,
    ) -> Result<(Entered, Prefix<Deed, J>), AllocError>
        ensures ok { IfOk result (λ r. IsEntered self.old self.new pass input r.0) }
        ensures given { IfOk result (λ r. IfOk r.0.given (λ d. d ≡ r.0.kept)) }
        ensures upto { IfOk result (λ r. r.1 ≡ prefix self.new.opening.id self.new.deeds) }
        ensures err { OnErr result (self.new ≡ self.old) }
    {
        self.deeds.reserve()?;
        let inputs = Inputs::of(alloc, input)?;
        let place = self.deeds.ledger().len();
        self.copy.is_logged();
        let Told { own, kept, given } = tell(&mut self.copy, alloc, pass, inputs)?;
        let upto = self.deeds.push(own);
        Ok((Entered { place, kept, given }, upto))
    }

    /// The receipt of the last entry.
    #[tactic(auto, using(crate::proofs::Calls::entry_of, crate::proofs::Begins::entry_since))]
    fn receipt(&self, place: u64, deed: Deed, upto: Prefix<Deed, J>) -> Receipt<J>
        requires last { place + 1 ≡ length self.now.deeds }
        requires there { slice_get self.now.deeds place ≡ Some deed }
        requires upto { upto ≡ prefix self.now.opening.id self.now.deeds }
        ensures { result ≡ receipt self.now.opening.id place deed self.now.deeds }
    {
        Receipt::of(self.deeds.number(), place, deed, upto, self.began.again())
    }

    /// What the copy has of an id, of all its records; it makes no entry. `Closed` where the copy is closed.
    pub fn get(&mut self, alloc: Global, id: DocId) -> Result<Got<J>, NodeFault>
        ensures got { IfOk result (IsGotFrom self.old id) }
        ensures same { self.new ≡ self.old }
        ensures refused { IfErr result (IsUngot self.old) }
    {
        if self.copy.snapshot().is_none() {
            return Err(NodeFault::Copy(CopyFault::Closed));
        }
        let asked = id.copy(alloc)?;
        let place = self.deeds.ledger().len();
        let answer = read(&mut self.copy, alloc, asked)?;
        Ok(Got {
            node: self.deeds.number(),
            place,
            id,
            answer,
            upto: self.deeds.prefix(),
            began: self.began.again(),
        })
    }

    /// How many entries its journal has.
    pub fn len(&self) -> u64
        ensures { result ≡ length self.now.deeds }
    {
        self.deeds.ledger().len()
    }

    /// All entries of its journal, without the name of the cluster.
    pub fn upto(&self) -> Upto<Deed>
        ensures { result ≡ upto J.registry self.now.opening.id self.now.deeds }
    {
        self.deeds.upto()
    }

    /// All entries of its journal, as a caller hears of them; nothing where there is none.
    #[tactic(auto, using(crate::proofs::Calls::journal_heard, crate::proofs::Calls::none_heard))]
    pub fn heard(&self) -> Option<Heard<J>>
        ensures some { IfSome result (λ h. h ≡ prefix self.now.opening.id self.now.deeds) }
        ensures none { IfNone result (self.now.deeds ≡ []) }
    {
        let entries = self.deeds.ledger().len();
        match self.deeds.prefix() {
            Some(upto) if entries > 0 => Some(Heard::of(self.deeds.number(), entries - 1, upto)),
            _ => None,
        }
    }

    /// Waits until the steps of all entries are there after a crash too; it makes no entry. One that failed isn't tried again: the copy keeps no record
    /// then until it restarts.
    pub fn sync(&mut self) -> Result<OnDisk, NodeFault>
        ensures same { self.new ≡ self.old }
        ensures all { IfOk result (λ o. o ≡ length self.new.deeds) }
        ensures refused { IfErr result (λ e. e ≡ Refused (Log Device)) }
        ensures in_memory { D.in_memory ≡ true → IsOk result }
    {
        let entries = self.deeds.ledger().len();
        let log = synced(&mut self.copy)?;
        Ok(OnDisk::of(log, entries))
    }

    /// Whether they are there after a crash too.
    pub fn is_synced(&self) -> bool
        ensures { D.in_memory ≡ true → result ≡ true }
    {
        self.copy.is_synced()
    }

    /// Begins a merge of segments that go well into one, if there are more than so few, for `finish_merge`; it makes no entry.
    #[tactic(auto, using(crate::proofs::Calls::held_merged))]
    pub fn begin_merge_beside(
        &mut self,
        alloc: Global,
        few: usize,
    ) -> Result<Option<Merging>, AllocError>
        ensures { self.new ≡ self.old }
    {
        self.copy.begin_merge_beside(alloc, few)
    }

    /// Puts the segment in place that was built for it, as the copy does; it makes no entry.
    #[tactic(auto, using(crate::proofs::Calls::held_merged))]
    pub fn finish_merge(&mut self, alloc: Global) -> Result<bool, AllocError>
        ensures { self.new ≡ self.old }
    {
        self.copy.finish_merge(alloc)
    }

    /// The journal where memory has it, for which the copy is given up.
    #[tactic(auto, using(crate::proofs::Ends::ended))]
    pub fn into_journal(self) -> Option<EndedCopy<J>>
        ensures kept { is_some result ≡ self.kept }
        ensures same { IfSome result (λ j. j ≡ OfCopy self.opening self.deeds) }
        ensures legal { IsLegal (open_at self.opening) 0 self.deeds }
    {
        let heard = self.heard();
        let Held {
            began,
            opening,
            deeds,
            copy,
        } = self;
        drop(copy);
        let deeds = deeds.into_ledger().into_entries();
        match (opening, deeds) {
            (Some(opening), Some(deeds)) => {
                let journal = Journal::OfCopy(opening, Deeds::from_vec(deeds));
                Some(EndedCopy::of(journal, began, heard))
            }
            (opening, deeds) => {
                drop(opening);
                drop(deeds);
                drop(began);
                drop(heard);
                None
            }
        }
    }
}
