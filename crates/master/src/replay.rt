//! What a master's log leaves.
ghost use Rattle.std.specs.Prelude.{◌≡◌, ◌<◌, ◌+◌, ◌^◌, List, ℕ, map, length, IfOk, IfErr, false};
ghost use Rattle.std.specs.List.{flat_map};
ghost use Rattle.doc.specs.Outcome.{Gives};
ghost use Rattle.translog.specs.Fault.{fault_of, is_device};
ghost use Rattle.translog.specs.Frames.{framed};
ghost use Rattle.master.specs.Decide.{master_step};
ghost use Rattle.master.specs.Entry.{entry_of};
ghost use Rattle.master.specs.Log.{first_state, next_state, or_damaged, replayed, state_after, state_of};
ghost use Rattle.master.specs.State.{IsSound};

use crate::entry::Entry;
use crate::fault::MasterFault;
use crate::state::{Request, State};
use std::alloc::Global;
use translog::LogFault;

/// The offset of the first frame.
const FIRST: u64 = 4;

/// The state that frames leave, the first of which begins.
pub(crate) fn state_of(alloc: Global, contents: &[Vec<u8>]) -> Result<State, LogFault>
    requires { 4 + length (flat_map framed (map (λ c. c.items) contents.now)) < 2 ^ 64 }
    ensures state { Gives fault_of (λ m. m) result (state_of (map (λ c. c.items) contents.now)) }
    ensures sound { IfOk result IsSound }
    ensures log { IfErr result (λ e. is_device e ≡ false) }
{
    match contents {
        [] => Err(LogFault::Damaged(FIRST)),
        [first, rest @ ..] => match first_state(alloc, first.as_slice()) {
            Ok(begun) => replayed(alloc, begun, FIRST + 4 + first.len() as u64, rest),
            Err(fault) => Err(fault),
        },
    }
}

/// The state that the first entry begins with.
fn first_state(alloc: Global, content: &[u8]) -> Result<State, LogFault>
    ensures state { Gives fault_of (λ m. m) result (or_damaged 4 (first_state (entry_of content.now))) }
    ensures sound { IfOk result IsSound }
    ensures log { IfErr result (λ e. is_device e ≡ false) }
{
    match Entry::read(content) {
        Some(Entry::Begin(copies)) => Ok(State::begin(alloc, copies)?),
        _ => Err(LogFault::Damaged(FIRST)),
    }
}

/// The state that frames from an offset on leave.
fn replayed(
    alloc: Global,
    begun: State,
    offset: u64,
    contents: &[Vec<u8>],
) -> Result<State, LogFault>
    requires sound { IsSound begun }
    requires offsets { offset + length (flat_map framed (map (λ c. c.items) contents.now)) < 2 ^ 64 }
    ensures state { Gives fault_of (λ m. m) result (replayed offset begun (map (λ c. c.items) contents.now)) }
    ensures sound { IfOk result IsSound }
    ensures log { IfErr result (λ e. is_device e ≡ false) }
{
    let mut state = begun;
    let mut at = offset;
    for content in contents {
        match next_state(alloc, &state, at, content.as_slice()) {
            Ok(next) => state = next,
            Err(fault) => return Err(fault),
        }
        at += 4 + content.len() as u64;
    }
    Ok(state)
}

/// The state after an entry, which the table takes in the term of the master; else the frame is damaged.
fn next_state(alloc: Global, state: &State, offset: u64, content: &[u8]) -> Result<State, LogFault>
    requires { IsSound state.now }
    ensures state { Gives fault_of (λ m. m) result (or_damaged offset (next_state state.now (entry_of content.now))) }
    ensures sound { IfOk result IsSound }
    ensures log { IfErr result (λ e. is_device e ≡ false) }
{
    match Entry::read(content) {
        Some(Entry::Promote(id)) => taken(alloc, state, offset, Request::Promote(id)),
        Some(Entry::Allocate) => taken(alloc, state, offset, Request::Allocate),
        Some(Entry::Add(id)) => taken(alloc, state, offset, Request::Synced(state.term, id)),
        Some(Entry::Remove(id)) => taken(alloc, state, offset, Request::Fail(state.term, id)),
        Some(Entry::Begin(_)) => Err(LogFault::Damaged(offset)),
        None => Err(LogFault::Damaged(offset)),
    }
}

/// The state after a request that the table takes.
fn taken(alloc: Global, state: &State, offset: u64, request: Request) -> Result<State, LogFault>
    requires { IsSound state.now }
    ensures state { Gives fault_of (λ m. m) result (or_damaged offset (state_after (master_step state.now request))) }
    ensures sound { IfOk result IsSound }
    ensures log { IfErr result (λ e. is_device e ≡ false) }
{
    match state.decide(alloc, request) {
        Ok(decided) => Ok(decided.into_state()),
        Err(MasterFault::NoMemory) => Err(LogFault::NoMemory),
        Err(_) => Err(LogFault::Damaged(offset)),
    }
}
