//! The merge of what nodes did into one list of events.
ghost use Rattle.std.specs.Prelude.{◌≡◌, ◌<◌, ◌^◌, ℕ, length, slice_get, None, IfSome, IfErr, OnOk};
ghost use Rattle.world.specs.World.{World, world_step};
ghost use Rattle.audit.specs.Moves.{CanGo, IsStuck, event_of};
ghost use Rattle.audit.specs.Merge.{moves_in, count_of, part_of, IsWithin, HasNext, HasNextOf, IsMerged, IsOpenAt, IsNextOf, HaltsIn};
ghost use Rattle.journal.specs.declared.moves.Move.{Move as Made};

use journal::{Move, Part};
use std::alloc::{AllocError, Global};

/// Why a merge ends before it has taken all moves: a node whose next move can't come, with the move's place, or that memory ran out.
#[derive(Clone, Copy, Debug, PartialEq, Eq)]
pub enum Halt {
    At(usize, u64),
    NoMemory,
}

impl From<AllocError> for Halt {
    ghost use Rattle.audit.specs.declared.merge.Halt.TheVariants.{NoMemory};

    ghost from_gives = { λ _ e. e ≡ NoMemory };

    fn from(_refused: AllocError) -> Halt {
        Halt::NoMemory
    }
}

/// A world that takes the moves of nodes, each node's in order.
pub(crate) trait Stage: Drop {
    /// The world that it is.
    ghost world: { Self → World };

    /// The number of a message with which a node's move can come; any number where it needs none. It looks where the message should be.
    fn guess(&self, node: u32, next: &Move) -> Option<u64>
        ensures { IfSome result (λ k. CanGo (world self.now) node k next.now) };

    /// The number of a message with which a node's move can come. It looks at every message.
    fn number(&self, node: u32, next: &Move) -> Option<u64>
        ensures some { IfSome result (λ k. CanGo (world self.now) node k next.now) }
        ensures none { result ≡ None → (k : ℕ) → CanGo (world self.now) node k next.now → ⊥ };

    /// The event of a node's move, with the number of its message.
    fn take(&mut self, alloc: Global, node: u32, number: u64, next: &Move) -> Result<(), AllocError>
        requires { CanGo (world self.old) node number next.now }
        ensures { OnOk result (world self.new ≡ (world_step (world self.old) (event_of node number next.now)).world) };
}

/// A number with which the next of these moves can come, after `count` of them, where one is guessed.
fn guess_at<S: Stage>(stage: &S, node: u32, part: &Part, count: usize) -> Option<u64>
    ensures { IfSome result (λ k. HasNextOf part.now (S.world stage.now) count node k) }
{
    match part.as_slice().get(count) {
        Some(placed) => stage.guess(node, &placed.what),
        None => None,
    }
}

/// A number with which the next of these moves can come, after `count` of them.
fn number_at<S: Stage>(stage: &S, node: u32, part: &Part, count: usize) -> Option<u64>
    ensures some { IfSome result (λ k. HasNextOf part.now (S.world stage.now) count node k) }
    ensures none { result ≡ None → (k : ℕ) (m : Made) → IsNextOf part.now (S.world stage.now) count node k m → ⊥ }
{
    match part.as_slice().get(count) {
        Some(placed) => stage.number(node, &placed.what),
        None => None,
    }
}

/// The least node for which a number is guessed, and the number.
fn guess_of<S: Stage>(stage: &S, parts: &[Part], counts: &[usize]) -> Option<(u32, u64)>
    requires same { length counts.now ≡ length parts.now }
    requires small { length parts.now < 2 ^ 32 }
    ensures { IfSome result (λ x. HasNext parts.now (S.world stage.now) counts.now x.0 x.1) }
{
    for node in 0..parts.len() {
        if let Some(number) = guess_at(stage, node as u32, &parts[node], counts[node]) {
            return Some((node as u32, number));
        }
    }
    None
}

/// The least node whose next move can come, and the number of its message.
fn number_of<S: Stage>(stage: &S, parts: &[Part], counts: &[usize]) -> Option<(u32, u64)>
    requires same { length counts.now ≡ length parts.now }
    requires small { length parts.now < 2 ^ 32 }
    ensures some { IfSome result (λ x. HasNext parts.now (S.world stage.now) counts.now x.0 x.1) }
    ensures none { result ≡ None → IsStuck (moves_in parts.now) (S.world stage.now) (count_of counts.now) }
{
    for node in 0..parts.len() {
        if let Some(number) = number_at(stage, node as u32, &parts[node], counts[node]) {
            return Some((node as u32, number));
        }
    }
    None
}

/// A node whose next move can come, and the number of its message: one that is guessed, else the least.
fn next_of<S: Stage>(stage: &S, parts: &[Part], counts: &[usize]) -> Option<(u32, u64)>
    requires same { length counts.now ≡ length parts.now }
    requires small { length parts.now < 2 ^ 32 }
    ensures some { IfSome result (λ x. HasNext parts.now (S.world stage.now) counts.now x.0 x.1) }
    ensures none { result ≡ None → IsStuck (moves_in parts.now) (S.world stage.now) (count_of counts.now) }
{
    match guess_of(stage, parts, counts) {
        Some(next) => Some(next),
        None => number_of(stage, parts, counts),
    }
}

/// The least node that isn't at its end, with the place of its next move.
fn open_at(parts: &[Part], counts: &[usize]) -> Option<(usize, u64)>
    requires { IsWithin parts.now counts.now }
    ensures some { IfSome result (λ x. IsOpenAt parts.now counts.now x.0 x.1) }
    ensures none { result ≡ None → (i : ℕ) → count_of counts.now i ≡ length (part_of (slice_get parts.now i)) }
{
    for node in 0..parts.len() {
        if let Some(placed) = parts[node].as_slice().get(counts[node]) {
            return Some((node, placed.place));
        }
    }
    None
}

/// Takes the next move of a node whose can come, again and again. Which node is taken makes no difference to where it halts.
pub(crate) fn merge<S: Stage>(
    alloc: Global,
    stage: &mut S,
    parts: &[Part],
    counts: &mut [usize],
) -> Result<(), Halt>
    requires same { length counts.old ≡ length parts.now }
    requires small { length parts.now < 2 ^ 32 }
    requires none { (i : ℕ) → count_of counts.old i ≡ 0 }
    ensures ok { OnOk result (IsMerged (S.world stage.old) parts.now (S.world stage.new)) }
    ensures err { IfErr result (λ e. HaltsIn (S.world stage.old) parts.now e) }
{
    while let Some((node, number)) = next_of(stage, parts, counts) {
        let place = node as usize;
        let count = counts[place];
        stage.take(alloc, node, number, &parts[place].as_slice()[count].what)?;
        counts[place] = count + 1;
    }
    match open_at(parts, counts) {
        Some((node, place)) => Err(Halt::At(node, place)),
        None => Ok(()),
    }
}
