//! What the master decides.
ghost use Rattle.std.specs.Prelude.{◌≡◌, ◌==◌, Bool, true, false, List, Err, IfOk, IfErr, OnOk};
ghost use Rattle.doc.specs.Outcome.{Gives};
ghost use Rattle.op.specs.Ids.{has};
ghost use Rattle.master.specs.declared.fault.MasterFault.{MasterFault as Fault};
ghost use Rattle.master.specs.declared.state.Request.TheVariants.{Promote, Allocate, Synced, Fail};
ghost use Rattle.master.specs.Decide.{MasterStep, is_given, master_step, set_of, unless, word_faults};
ghost use Rattle.master.specs.Fault.{fault_of, is_log};
ghost use Rattle.master.specs.State.{IsSound};

use crate::fault::MasterFault;
use crate::state::{Decision, Request, State};
use op::{Content, CopyIds, Msg};
use std::alloc::{AllocError, Global};

/// What an accepted request leaves and decides.
#[derive(Drop)]
pub(crate) struct Decided {
    pub(crate) state: State,
    pub(crate) decision: Decision,
}

impl Decided {
    /// Whether nothing is new.
    pub(crate) fn is_repeated(&self) -> bool
        ensures { result ≡ self.now.decision.repeated }
    {
        self.decision.repeated
    }

    /// The decision alone.
    pub(crate) fn into_decision(self) -> Decision
        ensures { result ≡ self.decision }
    {
        let Decided { state: _, decision } = self;
        decision
    }

    /// The state and the decision.
    pub(crate) fn into_parts(self) -> (State, Decision)
        ensures state { result.0 ≡ self.state }
        ensures decision { result.1 ≡ self.decision }
    {
        let Decided { state, decision } = self;
        (state, decision)
    }

    /// The state alone.
    pub(crate) fn into_state(self) -> State
        ensures { result ≡ self.state }
    {
        let Decided { state, decision: _ } = self;
        state
    }
}

/// How many copies that aren't gone there may be.
const MOST_COPIES: u64 = 5;

/// The greatest id of a copy.
const GREATEST_ID: u64 = 4_294_967_295;

/// The greatest term.
const GREATEST_TERM: u64 = 9_223_372_036_854_775_807;

impl State {
    /// What a request leaves and decides. Nothing changes.
    pub(crate) fn decide(&self, alloc: Global, request: Request) -> Result<Decided, MasterFault>
        requires { IsSound self.now }
        ensures step { Gives fault_of (λ d. record { state = d.state; decision = d.decision }) result (master_step self.now request) }
        ensures sound { IfOk result (λ d. IsSound d.state) }
        ensures log { IfErr result (λ e. is_log e ≡ false) }
    {
        match request {
            Request::Promote(id) => self.promote(alloc, id),
            Request::Allocate => self.allocate(alloc),
            Request::Synced(term, id) => self.synced(alloc, term, id),
            Request::Fail(term, id) => self.fail(alloc, term, id),
        }
    }

    /// A copy in sync becomes the primary of the next term. An old primary leaves the set, and each copy that isn't in it never comes back.
    #[tactic(auto, unfolding(crate::specs::Decide::unless))]
    fn promote(&self, alloc: Global, id: u32) -> Result<Decided, MasterFault>
        requires { IsSound self.now }
        ensures step { Gives fault_of (λ d. record { state = d.state; decision = d.decision }) result (master_step self.now (Promote id)) }
        ensures sound { IfOk result (λ d. IsSound d.state) }
        ensures log { IfErr result (λ e. is_log e ≡ false) }
    {
        if self.gone.has(id) {
            return Err(MasterFault::Gone);
        }
        if !self.in_sync.has(id) {
            return Err(MasterFault::NotInSync);
        }
        if self.term >= GREATEST_TERM {
            return Err(MasterFault::Full);
        }
        let in_sync = self.set_after(alloc, id)?;
        let gone = in_sync.others_below(alloc, self.next)?;
        let term = self.term + 1;
        let sent = told(term, id, Content::Promoted(in_sync.copy(alloc)?));
        Ok(Decided {
            state: State {
                term,
                primary: id,
                in_sync,
                gone,
                next: self.next,
            },
            decision: Decision {
                given: None,
                sent: Some(sent),
                repeated: false,
            },
        })
    }

    /// The in-sync set of a promotion.
    fn set_after(&self, alloc: Global, id: u32) -> Result<CopyIds, AllocError>
        ensures { IfOk result (λ a. a ≡ set_of self.now id (self.now.primary == id)) }
    {
        if self.primary == id {
            self.in_sync.copy(alloc)
        } else {
            self.in_sync.without(alloc, self.primary)
        }
    }

    /// Gives the next id, and has the primary track the copy.
    #[tactic(auto, unfolding(crate::specs::Decide::unless))]
    fn allocate(&self, alloc: Global) -> Result<Decided, MasterFault>
        requires { IsSound self.now }
        ensures step { Gives fault_of (λ d. record { state = d.state; decision = d.decision }) result (master_step self.now Allocate) }
        ensures sound { IfOk result (λ d. IsSound d.state) }
        ensures log { IfErr result (λ e. is_log e ≡ false) }
    {
        let given = self.next - 1;
        if given.saturating_sub(self.gone.len() as u64) >= MOST_COPIES || self.next > GREATEST_ID {
            return Err(MasterFault::Full);
        }
        let id = self.next as u32;
        let copied = self.copy(alloc)?;
        Ok(Decided {
            state: State {
                next: self.next + 1,
                ..copied
            },
            decision: Decision {
                given: Some(id),
                sent: Some(told(self.term, self.primary, Content::Track(id))),
                repeated: false,
            },
        })
    }

    /// A copy that has taken its operations joins the in-sync set.
    #[tactic(auto, unfolding(crate::specs::Decide::unless))]
    fn synced(&self, alloc: Global, term: u64, id: u32) -> Result<Decided, MasterFault>
        requires { IsSound self.now }
        ensures step { Gives fault_of (λ d. record { state = d.state; decision = d.decision }) result (master_step self.now (Synced term id)) }
        ensures sound { IfOk result (λ d. IsSound d.state) }
        ensures log { IfErr result (λ e. is_log e ≡ false) }
    {
        if let Err(fault) = self.check_word(term, id) {
            return Err(fault);
        }
        let copied = self.copy(alloc)?;
        Ok(Decided {
            state: State {
                in_sync: self.in_sync.with(alloc, id)?,
                ..copied
            },
            decision: Decision {
                given: None,
                sent: None,
                repeated: self.in_sync.has(id),
            },
        })
    }

    /// A copy that the primary reports leaves the in-sync set, and never comes back.
    #[tactic(auto, unfolding(crate::specs::Decide::unless))]
    fn fail(&self, alloc: Global, term: u64, id: u32) -> Result<Decided, MasterFault>
        requires { IsSound self.now }
        ensures step { Gives fault_of (λ d. record { state = d.state; decision = d.decision }) result (master_step self.now (Fail term id)) }
        ensures sound { IfOk result (λ d. IsSound d.state) }
        ensures log { IfErr result (λ e. is_log e ≡ false) }
    {
        if let Err(fault) = self.check_word(term, id) {
            return Err(fault);
        }
        if self.primary == id {
            return Err(MasterFault::IsPrimary);
        }
        let copied = self.copy(alloc)?;
        let in_sync = self.in_sync.without(alloc, id)?;
        let gone = self.gone.with(alloc, id)?;
        Ok(Decided {
            state: State {
                in_sync,
                gone,
                ..copied
            },
            decision: Decision {
                given: None,
                sent: Some(told(self.term, self.primary, Content::Removed(id))),
                repeated: false,
            },
        })
    }

    /// What a copy tells must be of this term, and of a copy that was given its id and isn't gone.
    #[tactic(auto, unfolding(crate::specs::Decide::unless))]
    fn check_word(&self, term: u64, id: u32) -> Result<(), MasterFault>
        ensures ok { OnOk result ((term ≡ self.now.term) × (has self.now.gone id ≡ false) × (is_given self.now id ≡ true)) }
        ensures err { IfErr result (λ e. (more : List (Bool × Fault)) (s : MasterStep) → unless (word_faults self.now term id more) s ≡ Err e) }
        ensures log { IfErr result (λ e. is_log e ≡ false) }
    {
        if term != self.term {
            return Err(MasterFault::OldTerm);
        }
        if self.gone.has(id) {
            return Err(MasterFault::Gone);
        }
        if id == 0 || id as u64 >= self.next {
            return Err(MasterFault::NotInSync);
        }
        Ok(())
    }
}

/// A message of the master in a term.
fn told(term: u64, to: u32, content: Content) -> Msg
    ensures { result ≡ record { from = 0; to = to; term = term; content = content } }
{
    Msg {
        from: 0,
        to,
        term,
        content,
    }
}
