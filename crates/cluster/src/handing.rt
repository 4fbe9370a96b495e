//! Journals that are handed out where a cluster ends.
ghost use Rattle.std.specs.Prelude.{◌≡◌, ◌∷◌, length, vec_len, IfOk, IfErr, IfSome};
ghost use Rattle.std.specs.List.{AllZip};
ghost use Rattle.cluster.specs.declared.fault.ClusterFault.TheVariants.{NoMemory};
ghost use Rattle.cluster.specs.Journals.{stray_in, AreHandedOut, IsLegalJournal, IsLostBy, IsOwnFrom};
ghost use Rattle.cluster.specs.Opened.{IdsRiseFrom};

use crate::fault::ClusterFault;
use crate::left::{Left, OwnJournal, all_kept, are_from, lost_in};
use cell::IndexName;
use journal::Journal;
use node::{Began, EndedCopy, Receipt};
use ruled::{EndedMaster, Ruled};
use std::alloc::{AllocError, Global};
use translog::LogDevice;

/// The journals of a cluster that has ended: that of its master, and those of its copies in the order of their ids.
pub struct HandedOut<J: IndexName> {
    pub master: EndedMaster<J>,
    pub copies: Vec<EndedCopy<J>>,
}

impl<J: IndexName> Drop for HandedOut<J> {
    fn drop(self) {
        let HandedOut {
            master: _master,
            copies: _copies,
        } = self;
    }
}

impl<J: IndexName> HandedOut<J> {
    /// The journals alone, the master's first.
    pub fn into_journals(self, alloc: Global) -> Result<Vec<Journal>, AllocError>
        ensures { IfOk result (λ js. js.items ≡ self.master ∷ self.copies.items) }
    {
        let HandedOut { master, copies } = self;
        let mut journals = Vec::new(alloc);
        journals.push(master.into_journal())?;
        for copy in copies {
            journals.push(copy.into_journal())?;
        }
        Ok(journals)
    }
}

/// The journals of the master and of the copies that began so, which workers leave. It refuses where a copy has none, since there was no memory for
/// it or to start its threads.
pub(crate) fn handed_out<D: LogDevice, J: IndexName>(
    alloc: Global,
    master: Ruled<D, J>,
    lefts: Vec<Left<J>>,
    began: &[Began<J>],
    receipts: &[Receipt<J>],
) -> Result<HandedOut<J>, ClusterFault>
    requires { IdsRiseFrom 0 began.now }
    ensures handed { IfOk result (λ h. AreHandedOut (vec_len lefts) began.now receipts.now h.master h.copies.items) }
    ensures stray { IfErr result (λ e. IfSome (stray_in e) (IsLostBy began.now receipts.now)) }
{
    match all_kept(alloc, lefts) {
        Ok(Some(lefts)) => of_copies(alloc, master, lefts, began, receipts),
        _ => {
            drop(master);
            Err(ClusterFault::NoMemory)
        }
    }
}

/// The journals, where each worker has left one.
fn of_copies<D: LogDevice, J: IndexName>(
    alloc: Global,
    master: Ruled<D, J>,
    lefts: Vec<OwnJournal<J>>,
    began: &[Began<J>],
    receipts: &[Receipt<J>],
) -> Result<HandedOut<J>, ClusterFault>
    requires { IdsRiseFrom 0 began.now }
    ensures handed { IfOk result (λ h. AreHandedOut (vec_len lefts) began.now receipts.now h.master h.copies.items) }
    ensures stray { IfErr result (λ e. IfSome (stray_in e) (IsLostBy began.now receipts.now)) }
{
    if !are_from(&lefts, began) {
        drop(lefts);
        drop(master);
        return Err(ClusterFault::NoMemory);
    }
    looked_at(alloc, master, lefts, began, receipts)
}

/// The journals, where they are those of the copies: once each receipt is seen to stand.
#[tactic(auto, using(crate::proofs::Handed::lost_by))]
fn looked_at<D: LogDevice, J: IndexName>(
    alloc: Global,
    master: Ruled<D, J>,
    lefts: Vec<OwnJournal<J>>,
    began: &[Began<J>],
    receipts: &[Receipt<J>],
) -> Result<HandedOut<J>, ClusterFault>
    requires rising { IdsRiseFrom 0 began.now }
    requires own { AllZip IsOwnFrom began.now lefts.items }
    ensures handed { IfOk result (λ h. AreHandedOut (vec_len lefts) began.now receipts.now h.master h.copies.items) }
    ensures stray { IfErr result (λ e. IfSome (stray_in e) (IsLostBy began.now receipts.now)) }
{
    if let Some(place) = lost_in(&lefts, receipts) {
        drop(lefts);
        drop(master);
        return Err(ClusterFault::Stray(place));
    }
    let master = match ended(alloc, master) {
        Ok(master) => master,
        Err(fault) => {
            drop(lefts);
            return Err(fault);
        }
    };
    let copies = copies_of(alloc, lefts)?;
    Ok(HandedOut { master, copies })
}

/// The journal of the master.
fn ended<D: LogDevice, J: IndexName>(
    alloc: Global,
    master: Ruled<D, J>,
) -> Result<EndedMaster<J>, ClusterFault>
    ensures legal { IfOk result IsLegalJournal }
    ensures memory { IfErr result (λ e. e ≡ NoMemory) }
{
    match master.into_journal(alloc) {
        Ok(Some(ended)) => Ok(ended),
        _ => Err(ClusterFault::NoMemory),
    }
}

/// The journals of the copies.
fn copies_of<J: IndexName>(
    alloc: Global,
    lefts: Vec<OwnJournal<J>>,
) -> Result<Vec<EndedCopy<J>>, AllocError>
    ensures same { IfOk result (λ es. es.items ≡ lefts.items) }
    ensures all { IfOk result (λ es. length es.items ≡ vec_len lefts) }
{
    let mut copies = Vec::new(alloc);
    for left in lefts {
        copies.push(left.into_ended())?;
    }
    Ok(copies)
}
