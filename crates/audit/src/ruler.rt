//! The judging of the master's journal.
ghost use Rattle.std.specs.Prelude.{◌≡◌, ◌≤◌, ◌↔◌, true, false, [], Ok, Err, IsTrue, IfOk, IfErr};
ghost use Rattle.master.specs.Decide.{master_step};
ghost use Rattle.master.specs.Fault.{is_log};
ghost use Rattle.master.specs.State.{begun};
ghost use Rattle.audit.specs.declared.judge.Wrong.TheVariants.{At};
ghost use Rattle.journal.specs.declared.moves.Move.TheVariants.{Asks};
ghost use Rattle.audit.specs.Judge.{listed};
ghost use Rattle.audit.specs.Ruled.{AreOverruled, AreRuled, IsOverruled, IsRuled};
ghost use Rattle.journal.specs.Rulings.{ruled, rulings_at, MayDeny, MayRule};

use crate::equal::{equal_decision, equal_refusal};
use crate::judge::Wrong;
use journal::{Move, Part, Placed, Ruling};
use master::{Decision, Master, MasterFault, Request};
use std::alloc::{AllocError, Global};
use std::marker::Model;
use translog::MemDevice;

/// A master that follows its journal, over a log that doesn't fail; it is closed where the journal says that the log failed.
#[derive(Drop)]
pub(crate) struct Ruler {
    master: Master<MemDevice>,
    closed: bool,
}

impl Model for Ruler {
    ghost use Rattle.std.specs.Prelude.{◌≡◌, false};
    ghost use Rattle.journal.specs.Rulings as spec;

    ghost Value = { spec.Ruler };

    ghost view = { λ r. record { state = r.master.state; closed = r.closed } };

    ghost invariant = { λ r. r.master.closed ≡ false };
}

impl Ruler {
    /// The master of a new index of `copies` copies.
    pub(crate) fn begun(alloc: Global, copies: u8) -> Result<Ruler, AllocError>
        requires { (1 ≤ copies) × (copies ≤ 5) }
        ensures { IfOk result (λ r. r ≡ record { state = begun copies; closed = false }) }
    {
        match Master::begin(alloc, copies, MemDevice::new(Vec::new(alloc))) {
            Ok(master) => Ok(Ruler {
                master,
                closed: false,
            }),
            Err(refused) => {
                drop(refused);
                Err(AllocError)
            }
        }
    }

    /// Judges the entry at a place, follows it, and says what the master did.
    fn follow(
        &mut self,
        alloc: Global,
        place: u64,
        ruling: &Ruling,
    ) -> Result<Option<Placed>, Wrong>
        ensures ok { IfOk result (λ o. IsRuled self.old self.new place ruling.now o) }
        ensures err { IfErr result (λ e. IsOverruled self.old place ruling.now e) }
    {
        match &ruling.answer {
            Ok(decision) => {
                if self.closed || !rules(alloc, &mut self.master, ruling.request, decision)? {
                    return Err(Wrong::At(place));
                }
                Ok(Some(asked(place, ruling.request)))
            }
            Err(fault) => {
                if self.closed {
                    return shut(place, fault);
                }
                if !may_deny(alloc, &self.master, ruling.request, fault)? {
                    return Err(Wrong::At(place));
                }
                self.closed = is_log(fault);
                Ok(denied(place, ruling.request, fault))
            }
        }
    }
}

/// Judges entries in order: what the master did, or the first that isn't legal.
pub(crate) fn judge_rulings(
    alloc: Global,
    ruler: &mut Ruler,
    rulings: &[Ruling],
) -> Result<Part, Wrong>
    ensures ok { IfOk result (λ part. AreRuled ruler.old rulings.now part) }
    ensures err { IfErr result (λ e. AreOverruled ruler.old rulings.now e) }
{
    let mut items = Vec::new(alloc);
    for place in 0..rulings.len() {
        match ruler.follow(alloc, place as u64, &rulings[place]) {
            Ok(Some(placed)) => items.push(placed)?,
            Ok(None) => {}
            Err(wrong) => return Err(wrong),
        }
    }
    Ok(Part::from_vec(items))
}

/// Whether the master makes this decision. It makes it.
fn rules(
    alloc: Global,
    master: &mut Master<MemDevice>,
    request: Request,
    decision: &Decision,
) -> Result<bool, AllocError>
    requires open { master.old.closed ≡ false }
    ensures legal { IfOk result (λ is. IsTrue is ↔ MayRule master.old.state false request (Ok decision.now)) }
    ensures state { IfOk result (λ is. IsTrue is → master.new.state ≡ ruled master.old.state (master_step master.old.state request)) }
    ensures open { master.new.closed ≡ false }
{
    match master.step(alloc, request) {
        Ok(made) => {
            let same = equal_decision(&made, decision);
            drop(made);
            Ok(same)
        }
        Err(MasterFault::NoMemory) => Err(AllocError),
        Err(_) => Ok(false),
    }
}

/// Whether the master may refuse the request so.
fn may_deny(
    alloc: Global,
    master: &Master<MemDevice>,
    request: Request,
    fault: &MasterFault,
) -> Result<bool, AllocError>
    ensures { IfOk result (λ is. IsTrue is ↔ MayDeny master.now.state request fault.now (is_log fault.now)) }
{
    if matches!(fault, MasterFault::NoMemory) {
        return Ok(true);
    }
    match master.preview(alloc, request) {
        Ok(decision) => {
            let repeated = decision.repeated;
            drop(decision);
            Ok(is_log(fault) && !repeated)
        }
        Err(MasterFault::NoMemory) => Err(AllocError),
        Err(other) => Ok(equal_refusal(&other, fault)),
    }
}

/// What a closed master may answer: that its log failed.
fn shut(place: u64, fault: &MasterFault) -> Result<Option<Placed>, Wrong>
    ensures ok { IfOk result (λ o. (is_log fault.now ≡ true) × (listed o ≡ [])) }
    ensures err { IfErr result (λ e. (e ≡ At place) × (is_log fault.now ≡ false)) }
{
    if is_log(fault) {
        Ok(None)
    } else {
        Err(Wrong::At(place))
    }
}

fn is_log(fault: &MasterFault) -> bool
    ensures { result ≡ is_log fault.now }
{
    matches!(fault, MasterFault::Log(_))
}

/// A request that the master decided.
fn asked(place: u64, request: Request) -> Placed
    ensures { result ≡ record { place = place; what = Asks request } }
{
    Placed {
        place,
        what: Move::Asks(request),
    }
}

/// What a master did when it refused a request: nothing where memory ran out or its log failed.
fn denied(place: u64, request: Request, fault: &MasterFault) -> Option<Placed>
    ensures { listed result ≡ rulings_at false place request (Err fault.now) }
{
    match fault {
        MasterFault::Log(_) => None,
        MasterFault::NoMemory => None,
        _ => Some(asked(place, request)),
    }
}
