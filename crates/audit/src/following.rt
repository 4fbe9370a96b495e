//! A copy that follows its journal.
ghost use Rattle.std.specs.Prelude.{◌≡◌, ◌↔◌, ◌<◌, ◌+◌, ◌||◌, true, false, not, [], length, None, Some, Ok, Err, is_some, IsTrue, IfOk, IfErr, IfSome, OnOk};
ghost use Rattle.replica.specs.declared.role.Birth.TheVariants.{Added};
ghost use Rattle.replica.specs.Copy.{begun, opened};
ghost use Rattle.replica.specs.Fault.{fault_of, is_log};
ghost use Rattle.replica.specs.declared.fault.CopyFault.TheVariants.{NoMemory};
ghost use Rattle.replica.specs.Logged.{is_restart, output_of, prepared_copy, IsReady};
ghost use Rattle.replica.specs.Step.{copy_step};
ghost use Rattle.audit.specs.Following.{shut_by, standing_of, IsReport, MayFail};
ghost use Rattle.journal.specs.Journal.{found, is_point, keeps_record, left_by, may_shut, moves_if, open_at, is_event, placed, reopened, torn_move, MayAnswer, MayRefuse};
ghost use Rattle.audit.specs.Judge.{listed, IsFollowed, IsRefused};
ghost use Rattle.journal.specs.Opening.{born};
ghost use Rattle.journal.specs.declared.moves.Move.TheVariants.{Does};

use crate::judge::{Follower, Wrong};
use doc::Mapping;
use journal::{Deed, Move, Placed};
use replica::{Answer, Birth, Copy, CopyFault, Input, Output, Prepared};
use std::alloc::{AllocError, Global};
use std::marker::Model;
use translog::MemDevice;
use world::OneCopy;

/// A step whose log failed: the place of its entry, what was asked, and how many records it adds.
#[derive(Drop)]
pub(crate) struct Cut {
    place: u64,
    input: Input,
    added: u64,
}

/// A copy over a log that doesn't fail, and the step whose log failed as the journal says, until the restart's answer says whether its record was
/// kept.
#[derive(Drop)]
pub(crate) struct Following {
    copy: OneCopy,
    cut: Option<Cut>,
}

impl Model for Following {
    ghost use Rattle.std.specs.Prelude.{◌≡◌, false, IfSome};
    ghost use Rattle.journal.specs.Journal.{Standing};

    ghost Value = { Standing };

    ghost use Rattle.audit.specs.Following.{standing_of, MayFail};

    ghost view = { λ f. standing_of f.copy.copy f.cut };

    ghost invariant = { λ f. (f.copy.closed ≡ false) × IfSome f.cut (λ x. MayFail f.copy.copy x.input x.added) };
}

impl Following {
    /// A copy as it is when its id is given, in an index that begins with `copies` copies.
    pub(crate) fn born(
        alloc: Global,
        mapping: &Mapping,
        copies: u32,
        node: u32,
    ) -> Result<Following, AllocError>
        requires { 0 < copies }
        ensures { IfOk result (λ f. f ≡ open_at (born mapping.now copies node)) }
    {
        Ok(Following {
            copy: born(alloc, mapping, copies, node)?,
            cut: None,
        })
    }
}

impl Follower for Following {
    ghost standing = { λ s. s };

    fn follow(&mut self, alloc: Global, place: u64, deed: &Deed) -> Result<Option<Placed>, Wrong> {
        let cut = self.cut.take();
        match follow_at(alloc, &mut self.copy, cut, place, deed) {
            Ok((cut, did)) => {
                self.cut = cut;
                Ok(did)
            }
            Err(wrong) => Err(wrong),
        }
    }
}

/// An entry of a copy, whose log has failed where there is a cut.
fn follow_at(
    alloc: Global,
    copy: &mut OneCopy,
    cut: Option<Cut>,
    place: u64,
    deed: &Deed,
) -> Result<(Option<Cut>, Option<Placed>), Wrong>
    requires open { copy.old.closed ≡ false }
    requires fails { IfSome cut (λ f. MayFail copy.old.copy f.input f.added) }
    ensures ok { IfOk result (λ x. IsFollowed (standing_of copy.old.copy cut) (standing_of copy.new.copy x.0) place deed.now x.1) }
    ensures fails { IfOk result (λ x. IfSome x.0 (λ f. MayFail copy.new.copy f.input f.added)) }
    ensures err { IfErr result (λ e. IsRefused (standing_of copy.old.copy cut) place deed.now e) }
    ensures open { copy.new.closed ≡ false }
{
    match cut {
        None => follow_open(alloc, copy, place, deed),
        Some(cut) => follow_shut(alloc, copy, cut, place, deed),
    }
}

/// An entry of a copy whose log hasn't failed.
fn follow_open(
    alloc: Global,
    copy: &mut OneCopy,
    place: u64,
    deed: &Deed,
) -> Result<(Option<Cut>, Option<Placed>), Wrong>
    requires open { copy.old.closed ≡ false }
    ensures ok { IfOk result (λ x. IsFollowed (open_at copy.old.copy) (standing_of copy.new.copy x.0) place deed.now x.1) }
    ensures fails { IfOk result (λ x. IfSome x.0 (λ f. MayFail copy.new.copy f.input f.added)) }
    ensures err { IfErr result (λ e. IsRefused (open_at copy.old.copy) place deed.now e) }
    ensures open { copy.new.closed ≡ false }
{
    match &deed.answer {
        Ok(output) => {
            if !takes(alloc, copy, &deed.input, output)? {
                return Err(Wrong::At(place));
            }
            Ok((None, Some(done(alloc, place, &deed.input)?)))
        }
        Err(fault) => {
            if fault.is_log() {
                let Some(added) = may_fail(alloc, copy, &deed.input)? else {
                    return Err(Wrong::At(place));
                };
                let input = deed.input.copy(alloc)?;
                let cut = Cut {
                    place,
                    input,
                    added,
                };
                return Ok((Some(cut), None));
            }
            if !may_refuse(alloc, copy, &deed.input, fault)? {
                return Err(Wrong::At(place));
            }
            Ok((None, refused(alloc, place, &deed.input, fault)?))
        }
    }
}

/// An entry of a copy whose log failed, in a step at this cut.
fn follow_shut(
    alloc: Global,
    copy: &mut OneCopy,
    cut: Cut,
    place: u64,
    deed: &Deed,
) -> Result<(Option<Cut>, Option<Placed>), Wrong>
    requires open { copy.old.closed ≡ false }
    requires fails { MayFail copy.old.copy cut.input cut.added }
    ensures ok { IfOk result (λ x. IsFollowed (standing_of copy.old.copy (Some cut)) (standing_of copy.new.copy x.0) place deed.now x.1) }
    ensures fails { IfOk result (λ x. IfSome x.0 (λ f. MayFail copy.new.copy f.input f.added)) }
    ensures err { IfErr result (λ e. IsRefused (standing_of copy.old.copy (Some cut)) place deed.now e) }
    ensures open { copy.new.closed ≡ false }
{
    match &deed.answer {
        Ok(output) => {
            if !is_restart(&deed.input) {
                drop(cut);
                return Err(Wrong::At(place));
            }
            match found(alloc, copy, cut.added, output)? {
                Some(is_kept) => {
                    reopen(alloc, copy, &cut, is_kept)?;
                    Ok((None, Some(torn(cut, is_kept))))
                }
                None => {
                    drop(cut);
                    Err(Wrong::At(place))
                }
            }
        }
        Err(fault) => {
            if !may_shut(is_restart(&deed.input), fault) {
                drop(cut);
                return Err(Wrong::At(place));
            }
            Ok((Some(cut), None))
        }
    }
}

// ---- what a copy answers

/// Whether the copy gives this output. It takes the step where it does.
fn takes(
    alloc: Global,
    copy: &mut OneCopy,
    input: &Input,
    output: &Output,
) -> Result<bool, AllocError>
    requires open { copy.old.closed ≡ false }
    ensures legal { IfOk result (λ is. IsTrue is ↔ MayAnswer copy.old.copy None input.now (Ok output.now)) }
    ensures copy { IfOk result (λ is. IsTrue is → copy.new.copy ≡ left_by copy.old.copy (copy_step copy.old.copy input.now)) }
    ensures open { copy.new.closed ≡ false }
{
    match copy.prepare(alloc, input.copy(alloc)?) {
        Ok(prepared) => commits(alloc, copy, prepared, output),
        Err(CopyFault::NoMemory) => Err(AllocError),
        Err(_) => Ok(false),
    }
}

/// Whether a step that is ready gives this output. It is done where it does. Over a log in memory only memory can run out.
fn commits(
    alloc: Global,
    copy: &mut OneCopy,
    prepared: Prepared,
    output: &Output,
) -> Result<bool, AllocError>
    requires ready { IsReady copy.old prepared }
    requires open { copy.old.closed ≡ false }
    ensures same { IfOk result (λ is. IsTrue is ↔ (((output_of prepared).answer ≡ output.now.answer) × ((output_of prepared).sent ≡ output.now.sent) × ((output_of prepared).acknowledged ≡ output.now.acknowledged) × ((output_of prepared).members ≡ output.now.members))) }
    ensures copy { IfOk result (λ is. IsTrue is → copy.new.copy ≡ prepared_copy copy.old.copy prepared) }
    ensures open { copy.new.closed ≡ false }
{
    if !prepared.output().is(output) {
        drop(prepared);
        return Ok(false);
    }
    match copy.commit(alloc, prepared) {
        Ok(made) => {
            drop(made);
            Ok(true)
        }
        Err(_) => Err(AllocError),
    }
}

/// Whether the copy may refuse the input so.
fn may_refuse(
    alloc: Global,
    copy: &mut OneCopy,
    input: &Input,
    fault: &CopyFault,
) -> Result<bool, AllocError>
    requires open { copy.old.closed ≡ false }
    requires fault { is_log fault.now ≡ false }
    ensures legal { IfOk result (λ is. IsTrue is ↔ MayRefuse copy.old.copy input.now fault.now false) }
    ensures stays { copy.new.copy ≡ copy.old.copy }
    ensures open { copy.new.closed ≡ false }
{
    if is_memory(fault) {
        return Ok(true);
    }
    match copy.prepare(alloc, input.copy(alloc)?) {
        Ok(prepared) => {
            drop(prepared);
            Ok(false)
        }
        Err(made) => refuses(made, fault),
    }
}

/// Whether a refusal is this one. A refusal because memory ran out says nothing, so it gives an error.
fn refuses(made: CopyFault, fault: &CopyFault) -> Result<bool, AllocError>
    requires { is_log made ≡ false }
    ensures { IfOk result (λ is. (IsTrue is ↔ (made ≡ fault.now)) × (fault_of made ≡ Some made)) }
{
    if is_memory(&made) {
        return Err(AllocError);
    }
    Ok(made.is(fault))
}

fn is_memory(fault: &CopyFault) -> bool
    ensures { IsTrue result ↔ (fault.now ≡ NoMemory) }
{
    matches!(fault, CopyFault::NoMemory)
}

/// How many records a step adds in which the log may fail: a restart adds none, another some. Nothing where the log can't fail.
fn may_fail(alloc: Global, copy: &mut OneCopy, input: &Input) -> Result<Option<u64>, AllocError>
    requires open { copy.old.closed ≡ false }
    ensures legal { IfOk result (λ o. is_some o ≡ (is_restart input.now || keeps_record copy.old.copy (copy_step copy.old.copy input.now))) }
    ensures fails { IfOk result (λ o. IfSome o (MayFail copy.old.copy input.now)) }
    ensures stays { copy.new.copy ≡ copy.old.copy }
    ensures open { copy.new.closed ≡ false }
{
    if is_restart(input) {
        return Ok(Some(0));
    }
    match copy.prepare(alloc, input.copy(alloc)?) {
        Ok(prepared) => {
            let added = prepared.added();
            drop(prepared);
            if added == 0 {
                return Ok(None);
            }
            Ok(Some(added as u64))
        }
        Err(CopyFault::NoMemory) => Err(AllocError),
        Err(_) => Ok(None),
    }
}

/// What a copy whose log failed may answer, apart from the output of a restart.
fn may_shut(restart: bool, fault: &CopyFault) -> bool
    ensures { result ≡ may_shut restart fault.now }
{
    match fault {
        CopyFault::NoMemory => true,
        CopyFault::Log(_) => restart,
        CopyFault::Closed => !restart,
        _ => false,
    }
}

// ---- restarts

/// Whether the restart that gives this output found the `added` records of the step that failed; nothing where it can't be.
fn found(
    alloc: Global,
    copy: &mut OneCopy,
    added: u64,
    output: &Output,
) -> Result<Option<bool>, AllocError>
    requires open { copy.old.closed ≡ false }
    ensures some { IfOk result (λ o. IfSome o (λ kept. IsReport (length copy.old.copy.records) (length copy.old.copy.records + added) output.now × (kept ≡ not (is_point output.now.answer (length copy.old.copy.records))))) }
    ensures none { IfOk result (λ o. o ≡ None → IsReport (length copy.old.copy.records) (length copy.old.copy.records + added) output.now → ⊥) }
    ensures stays { copy.new.copy ≡ copy.old.copy }
    ensures open { copy.new.closed ≡ false }
{
    let count = count(alloc, copy)?;
    Ok(reported(count, added, output))
}

/// How many records the copy has.
fn count(alloc: Global, copy: &mut OneCopy) -> Result<u64, AllocError>
    requires open { copy.old.closed ≡ false }
    ensures count { IfOk result (λ n. n ≡ length copy.old.copy.records) }
    ensures stays { copy.new.copy ≡ copy.old.copy }
    ensures open { copy.new.closed ≡ false }
{
    let Ok(prepared) = copy.prepare(alloc, Input::Restart) else {
        return Err(AllocError);
    };
    let count = match prepared.output().answer {
        Answer::Point(count) => Ok(count),
        _ => Err(AllocError),
    };
    drop(prepared);
    count
}

/// Whether an output says that `added` records more than `count` are there; nothing where it is no restart's, or says another number.
fn reported(count: u64, added: u64, output: &Output) -> Option<bool>
    ensures some { IfSome result (λ kept. IsReport count (count + added) output.now × (kept ≡ not (is_point output.now.answer count))) }
    ensures none { result ≡ None → IsReport count (count + added) output.now → ⊥ }
{
    if output.members != 0
        || !output.sent.as_slice().is_empty()
        || !output.acknowledged.as_slice().is_empty()
    {
        return None;
    }
    match output.answer {
        Answer::Point(found) => {
            if found == count {
                Some(false)
            } else if found > count && found - count == added {
                Some(true)
            } else {
                None
            }
        }
        _ => None,
    }
}

/// Cuts a step short, with its record or without, and restarts.
fn reopen(alloc: Global, copy: &mut OneCopy, cut: &Cut, is_kept: bool) -> Result<(), AllocError>
    requires open { copy.old.closed ≡ false }
    requires fails { MayFail copy.old.copy cut.now.input cut.now.added }
    ensures copy { OnOk result (copy.new.copy ≡ reopened copy.old.copy (found copy.old.copy (shut_by copy.old.copy cut.now) is_kept)) }
    ensures open { copy.new.closed ≡ false }
{
    if is_restart(&cut.input) {
        return match copy.step(alloc, Input::Restart) {
            Ok(made) => {
                drop(made);
                Ok(())
            }
            Err(_) => Err(AllocError),
        };
    }
    let input = cut.input.copy(alloc)?;
    copy.tear(alloc, input, is_kept)?;
    Ok(())
}

fn is_restart(input: &Input) -> bool
    ensures { result ≡ is_restart input.now }
{
    matches!(input, Input::Restart)
}

// ---- what it did

fn done(alloc: Global, place: u64, input: &Input) -> Result<Placed, AllocError>
    ensures { IfOk result (λ p. p ≡ placed place (Does input.now)) }
{
    Ok(Placed {
        place,
        what: Move::Does(input.copy(alloc)?),
    })
}

/// What a copy did that refused an input.
fn refused(
    alloc: Global,
    place: u64,
    input: &Input,
    fault: &CopyFault,
) -> Result<Option<Placed>, AllocError>
    ensures { IfOk result (λ o. listed o ≡ moves_if (is_event fault.now) place (Does input.now)) }
{
    match fault {
        CopyFault::NoMemory => Ok(None),
        CopyFault::Closed => Ok(None),
        CopyFault::Log(_) => Ok(None),
        CopyFault::WrongAddress => Ok(None),
        _ => Ok(Some(done(alloc, place, input)?)),
    }
}

/// A step whose log failed, with the restart after it.
fn torn(cut: Cut, is_kept: bool) -> Placed
    ensures { result ≡ placed cut.place (torn_move (is_restart cut.input) cut.input is_kept) }
{
    let Cut { place, input, .. } = cut;
    let what = if is_restart(&input) {
        Move::Does(input)
    } else {
        Move::Tears(input, is_kept)
    };
    Placed { place, what }
}

// ---- its beginning

/// Copy `node` of an index that begins with `copies` copies, as it is when its id is given.
fn born(alloc: Global, mapping: &Mapping, copies: u32, node: u32) -> Result<OneCopy, AllocError>
    requires { 0 < copies }
    ensures copy { IfOk result (λ c. c.copy ≡ born mapping.now copies node) }
    ensures open { IfOk result (λ c. c.closed ≡ false) }
{
    if node <= copies {
        begun(alloc, mapping, copies, node)
    } else {
        added(alloc, mapping, node)
    }
}

fn begun(alloc: Global, mapping: &Mapping, copies: u32, node: u32) -> Result<OneCopy, AllocError>
    requires { 0 < copies }
    ensures copy { IfOk result (λ c. c.copy ≡ begun node copies mapping.now) }
    ensures open { IfOk result (λ c. c.closed ≡ false) }
{
    let device = MemDevice::new(Vec::new(alloc));
    let mapping = mapping.copy(alloc)?;
    match Copy::begin(alloc, node, copies, mapping, device) {
        Ok(copy) => Ok(copy),
        Err(refused) => {
            drop(refused);
            Err(AllocError)
        }
    }
}

fn added(alloc: Global, mapping: &Mapping, node: u32) -> Result<OneCopy, AllocError>
    ensures copy { IfOk result (λ c. c.copy ≡ opened node Added mapping.now []) }
    ensures open { IfOk result (λ c. c.closed ≡ false) }
{
    let device = MemDevice::new(Vec::new(alloc));
    let mapping = mapping.copy(alloc)?;
    match Copy::open(alloc, node, Birth::Added, mapping, device) {
        Ok(copy) => Ok(copy),
        Err(refused) => {
            drop(refused);
            Err(AllocError)
        }
    }
}
