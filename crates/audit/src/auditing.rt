//! The audit of journals.
ghost use Rattle.std.specs.Prelude.{◌≡◌, ◌↔◌, ◌<◌, ◌^◌, ℕ, map, length, slice_get, None, Err, IsTrue, IfOk, IfErr, IfSome};
ghost use Rattle.doc.specs.Mapping.{MappingData};
ghost use Rattle.master.specs.State.{begun};
ghost use Rattle.world.specs.Held.{Held};
ghost use Rattle.audit.specs.Given as given;
ghost use Rattle.audit.specs.Judge.{IsJudged, IsMisjudged};
ghost use Rattle.journal.specs.declared.journal.Journal.TheVariants.{OfMaster, OfCopy};
ghost use Rattle.audit.specs.Audit.{placed_in, world_in, IsAudited, IsSize, Pass};
ghost use Rattle.audit.specs.Passing.{fault_at, IsCount, IsFailing, IsPassing};

use crate::fault::AuditFault;
use crate::following::Following;
use crate::judge::{Wrong, judge};
use crate::making::make;
use crate::merge::Halt;
use crate::ruler::{Ruler, judge_rulings};
use doc::Mapping;
use journal::{Deed, Journal, Opening, Part, Ruling};
use master::{Decision, MasterFault, State};
use std::alloc::{AllocError, Global};
use world::World;

/// The world of a run that the journals are of: the first journal is the master's, the next that of copy 1, and so on. Else the first node whose
/// journal isn't that of a node of a new index of this mapping, with the place of the first entry that differs, or that has none, though the
/// master's journal gives its id; or, where each journal may be true by itself, a node with an entry that nothing in the journals causes.
pub fn audit(alloc: Global, mapping: &Mapping, journals: &[Journal]) -> Result<World, AuditFault>
    requires ids { length journals.now < 2 ^ 32 }
    ensures audited { IsAudited mapping.now journals.now (world_in result) }
    ensures held { IfOk result (λ w. Held w.world) }
{
    let copies = match count_of(alloc, journals) {
        Ok(copies) => copies,
        Err(fault) => return Err(fault),
    };
    let parts = match judge_all(alloc, mapping, copies, journals) {
        Ok(parts) => parts,
        Err(fault) => return Err(fault),
    };
    if !are_all(journals) {
        return Err(AuditFault::Differs(journals.len() as u64, 0));
    }
    match make(alloc, mapping, copies, parts.as_slice()) {
        Ok(world) => Ok(world),
        Err(Halt::At(node, place)) => Err(AuditFault::Uncaused(node as u64, place)),
        Err(Halt::NoMemory) => Err(AuditFault::NoMemory),
    }
}

/// Whether each node has its journal: the master, and each copy to which its journal gives an id.
fn are_all(journals: &[Journal]) -> bool
    ensures { IsTrue result ↔ given.AreAll journals.now }
{
    match journals.first() {
        Some(Journal::OfMaster(state, rulings)) => {
            next_given(state.next, rulings.as_slice()) <= journals.len() as u64
        }
        _ => false,
    }
}

/// The number after the last id that the entries give; the first one where they give none.
fn next_given(first: u64, rulings: &[Ruling]) -> u64
    ensures { result ≡ given.next_given first rulings.now }
{
    let mut next = first;
    for ruling in rulings {
        next = behind(next, &ruling.answer);
    }
    next
}

fn behind(next: u64, answer: &Result<Decision, MasterFault>) -> u64
    ensures { result ≡ given.behind next answer.now }
{
    match answer {
        Ok(decision) => match decision.given {
            Some(id) => id as u64 + 1,
            None => next,
        },
        Err(_) => next,
    }
}

/// How many copies the index begins with, as the master's journal says; one where there are no journals.
fn count_of(alloc: Global, journals: &[Journal]) -> Result<u8, AuditFault>
    ensures size { IfOk result (λ n. IsSize n) }
    ensures count { IfOk result (λ n. IsCount (slice_get journals.now 0) n) }
    ensures err { IfErr result (λ e. (mapping : MappingData) → IsAudited mapping journals.now (Err e)) }
{
    match journals.first() {
        None => Ok(1),
        Some(Journal::OfMaster(state, _)) => match count_in(alloc, state)? {
            Some(copies) => Ok(copies),
            None => Err(AuditFault::Differs(0, 0)),
        },
        Some(Journal::OfCopy(_, _)) => Err(AuditFault::Differs(0, 0)),
    }
}

/// How many copies an index begins with whose master is so, if it is that of a new one.
fn count_in(alloc: Global, state: &State) -> Result<Option<u8>, AllocError>
    ensures some { IfOk result (λ o. IfSome o (λ n. IsSize n × (state.now ≡ begun n))) }
    ensures none { IfOk result (λ o. o ≡ None → (n : ℕ) → IsSize n → state.now ≡ begun n → ⊥) }
{
    if state.next < 2 || state.next > 6 {
        return Ok(None);
    }
    let copies = (state.next - 1) as u8;
    if is_begun(alloc, state, copies)? {
        Ok(Some(copies))
    } else {
        Ok(None)
    }
}

/// Whether this is the state of the master of a new index of `copies` copies.
fn is_begun(alloc: Global, state: &State, copies: u8) -> Result<bool, AllocError>
    ensures { IfOk result (λ is. IsTrue is ↔ (state.now ≡ begun copies)) }
{
    let begun = State::begin(alloc, copies)?;
    Ok(state.is(&begun))
}

/// What each node did, or the first journal that doesn't pass.
fn judge_all(
    alloc: Global,
    mapping: &Mapping,
    copies: u8,
    journals: &[Journal],
) -> Result<Vec<Part>, AuditFault>
    requires size { IsSize copies }
    requires count { IsCount (slice_get journals.now 0) copies }
    requires ids { length journals.now < 2 ^ 32 }
    ensures pass { IfOk result (λ _. Pass mapping.now copies journals.now) }
    ensures parts { IfOk result (λ parts. parts.items ≡ map placed_in journals.now) }
    ensures err { IfErr result (λ e. IsAudited mapping.now journals.now (Err e)) }
{
    let mut parts = Vec::new(alloc);
    for node in 0..journals.len() {
        match judge_one(alloc, mapping, copies, node as u32, &journals[node]) {
            Ok(part) => parts.push(part)?,
            Err(wrong) => return Err(fault_at(node as u64, wrong)),
        }
    }
    Ok(parts)
}

/// What one node did, where its journal passes.
fn judge_one(
    alloc: Global,
    mapping: &Mapping,
    copies: u8,
    node: u32,
    journal: &Journal,
) -> Result<Part, Wrong>
    requires size { IsSize copies }
    ensures ok { IfOk result (λ part. IsPassing mapping.now copies node journal.now part) }
    ensures err { IfErr result (λ e. IsFailing mapping.now copies node journal.now e) }
{
    match journal {
        Journal::OfMaster(state, rulings) => {
            if node == 0 {
                judge_master(alloc, copies, state, rulings.as_slice())
            } else {
                Err(Wrong::At(0))
            }
        }
        Journal::OfCopy(opening, deeds) => {
            if node == 0 {
                Err(Wrong::At(0))
            } else {
                judge_copy(alloc, mapping, copies, node, opening, deeds.as_slice())
            }
        }
    }
}

fn judge_master(alloc: Global, copies: u8, state: &State, rulings: &[Ruling]) -> Result<Part, Wrong>
    requires size { IsSize copies }
    ensures ok { IfOk result (λ part. (mapping : MappingData) → IsPassing mapping copies 0 (OfMaster state.now rulings.now) part) }
    ensures err { IfErr result (λ e. (mapping : MappingData) → IsFailing mapping copies 0 (OfMaster state.now rulings.now) e) }
{
    if !is_begun(alloc, state, copies)? {
        return Err(Wrong::At(0));
    }
    let mut ruler = Ruler::begun(alloc, copies)?;
    let judged = judge_rulings(alloc, &mut ruler, rulings);
    drop(ruler);
    judged
}

fn judge_copy(
    alloc: Global,
    mapping: &Mapping,
    copies: u8,
    node: u32,
    opening: &Opening,
    deeds: &[Deed],
) -> Result<Part, Wrong>
    requires size { IsSize copies }
    requires node { 0 < node }
    ensures ok { IfOk result (λ part. IsPassing mapping.now copies node (OfCopy opening.now deeds.now) part) }
    ensures err { IfErr result (λ e. IsFailing mapping.now copies node (OfCopy opening.now deeds.now) e) }
{
    if !opening.is_node(mapping, copies as u32, node) {
        return Err(Wrong::At(0));
    }
    let following = Following::born(alloc, mapping, copies as u32, node)?;
    judge_from(alloc, following, deeds)
}

/// Judges the entries of a copy that begins so.
fn judge_from(alloc: Global, following: Following, deeds: &[Deed]) -> Result<Part, Wrong>
    ensures ok { IfOk result (λ part. IsJudged following deeds.now part) }
    ensures err { IfErr result (λ e. IsMisjudged following deeds.now e) }
{
    let mut following = following;
    let judged = judge(alloc, &mut following, deeds);
    drop(following);
    judged
}

/// The fault of a node whose journal doesn't pass.
fn fault_at(node: u64, wrong: Wrong) -> AuditFault
    ensures { result ≡ fault_at node wrong }
{
    match wrong {
        Wrong::At(place) => AuditFault::Differs(node, place),
        Wrong::NoMemory => AuditFault::NoMemory,
    }
}
