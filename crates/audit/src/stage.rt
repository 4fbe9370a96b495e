//! A world that takes the moves of nodes.
ghost use Rattle.std.specs.Prelude.{◌≡◌, ◌↔◌, ℕ, None, Some, IsTrue, IfSome, IfOk};
ghost use Rattle.world.specs.World.{request_of};
ghost use Rattle.audit.specs.Causes.{needs, IsLet, IsReady, IsTaken, IsTo, Lets};
ghost use Rattle.audit.specs.Moves.{event_of, may_tear, IsThere};
ghost use Rattle.journal.specs.declared.moves.Move.TheVariants.{Asks, Does, Tears};

use crate::merge::Stage;
use crate::posts::{Posts, around};
use journal::Move;
use master::Request;
use op::Msg;
use replica::Input;
use std::alloc::{AllocError, Global};
use world::{Event, World, request_of};

/// The world that the moves make, and where the next message between two nodes should be.
#[derive(Drop)]
pub(crate) struct Making {
    world: World,
    posts: Posts,
}

impl Making {
    /// A world of `nodes` nodes, before any move.
    pub(crate) fn new(alloc: Global, world: World, nodes: usize) -> Result<Making, AllocError>
        ensures { IfOk result (λ m. m.world ≡ world) }
    {
        let posts = Posts::new(alloc, nodes)?;
        Ok(Making { world, posts })
    }

    /// The world alone.
    pub(crate) fn into_world(self) -> World
        ensures { result ≡ self.world }
    {
        let Making { world, posts } = self;
        drop(posts);
        world
    }

    /// Whether a message that was sent is one that a move needs.
    fn is_let(&self, number: u64, next: &Move) -> bool
        ensures { IsTrue result → IsLet self.now.world.world number next.now }
    {
        if number == 0 {
            return false;
        }
        match self.world.messages().get(number as usize - 1) {
            Some(message) => lets(message, next),
            None => false,
        }
    }

    /// The number of a message that a move needs, among those where it should be.
    fn near(&self, node: u32, next: &Move) -> Option<u64>
        ensures { IfSome result (λ k. IsLet self.now.world.world k next.now) }
    {
        for step in 0..around() {
            if let Some(number) = self.posts.near(node, next, step) {
                if self.is_let(number, next) {
                    return Some(number);
                }
            }
        }
        None
    }

    /// The number of a message that a move needs, among all.
    fn far(&self, next: &Move) -> Option<u64>
        ensures some { IfSome result (λ k. IsLet self.now.world.world k next.now) }
        ensures none { result ≡ None → (k : ℕ) → IsLet self.now.world.world k next.now → ⊥ }
    {
        let messages = self.world.messages();
        for place in 0..messages.len() {
            if lets(&messages[place], next) {
                return Some(place as u64 + 1);
            }
        }
        None
    }
}

impl Stage for Making {
    ghost world = { λ m. m.world.world };

    fn guess(&self, node: u32, next: &Move) -> Option<u64> {
        if !is_ready(&self.world, node, next) {
            return None;
        }
        if !needs(next) {
            return Some(0);
        }
        self.near(node, next)
    }

    fn number(&self, node: u32, next: &Move) -> Option<u64> {
        if !is_ready(&self.world, node, next) {
            return None;
        }
        if !needs(next) {
            return Some(0);
        }
        self.far(next)
    }

    fn take(
        &mut self,
        alloc: Global,
        node: u32,
        number: u64,
        next: &Move,
    ) -> Result<(), AllocError> {
        let event = event_of(alloc, node, number, next)?;
        let sent = self.world.messages().len();
        let stepped = self.world.step(alloc, &event);
        drop(event);
        stepped?;
        self.posts.pass(node, next, number);
        self.posts.add(self.world.messages(), sent)
    }
}

/// Whether all is there that a move needs, apart from a message.
fn is_ready(world: &World, node: u32, next: &Move) -> bool
    ensures { IsTrue result ↔ IsReady world.now.world node next.now }
{
    match next {
        Move::Asks(_) => node == 0,
        Move::Does(input) => is_there(world, node) && is_to(node, input),
        Move::Tears(input, _) => is_there(world, node) && may_tear(input) && is_to(node, input),
    }
}

fn is_there(world: &World, node: u32) -> bool
    ensures { IsTrue result ↔ IsThere world.now.world node }
{
    node != 0 && world.copy(node).is_some()
}

fn is_to(node: u32, input: &Input) -> bool
    ensures { IsTrue result ↔ IsTo node input.now }
{
    match input {
        Input::Take(message) => message.to == node,
        _ => true,
    }
}

fn may_tear(input: &Input) -> bool
    ensures { result ≡ may_tear input.now }
{
    matches!(input, Input::Write(_) | Input::Bulk(_) | Input::Take(_))
}

/// Whether a move needs a message.
fn needs(next: &Move) -> bool
    ensures { result ≡ needs next.now }
{
    match next {
        Move::Asks(request) => matches!(request, Request::Synced(_, _) | Request::Fail(_, _)),
        Move::Does(input) => matches!(input, Input::Take(_)),
        Move::Tears(input, _) => matches!(input, Input::Take(_)),
    }
}

/// Whether a message is one that a move needs.
fn lets(message: &Msg, next: &Move) -> bool
    ensures { IsTrue result ↔ Lets message.now next.now }
{
    match next {
        Move::Asks(request) => message.to == 0 && request_of(message) == Some(*request),
        Move::Does(input) => is_taken(message, input),
        Move::Tears(input, _) => is_taken(message, input),
    }
}

fn is_taken(message: &Msg, input: &Input) -> bool
    ensures { IsTrue result ↔ IsTaken message.now input.now }
{
    match input {
        Input::Take(taken) => message.is(taken),
        _ => false,
    }
}

/// The event of a node's move, with the number of its message.
fn event_of(alloc: Global, node: u32, number: u64, next: &Move) -> Result<Event, AllocError>
    ensures { IfOk result (λ e. e ≡ event_of node number next.now) }
{
    match next {
        Move::Asks(request) => Ok(event_of_request(node, number, *request)),
        Move::Does(input) => event_of_input(alloc, node, number, input),
        Move::Tears(input, is_kept) => event_of_torn(alloc, node, number, input, *is_kept),
    }
}

fn event_of_request(_node: u32, number: u64, request: Request) -> Event
    ensures { result ≡ event_of _node number (Asks request) }
{
    match request {
        Request::Promote(id) => Event::Promote(id),
        Request::Allocate => Event::Allocate,
        Request::Synced(_, _) => Event::Deliver(number),
        Request::Fail(_, _) => Event::Deliver(number),
    }
}

fn event_of_input(alloc: Global, node: u32, number: u64, input: &Input) -> Result<Event, AllocError>
    ensures { IfOk result (λ e. e ≡ event_of node number (Does input.now)) }
{
    match input {
        Input::Write(write) => Ok(Event::Write(node, write.copy(alloc)?)),
        Input::Bulk(writes) => Ok(Event::Bulk(node, writes.copy(alloc)?)),
        Input::Take(_) => Ok(Event::Deliver(number)),
        Input::Report(id) => Ok(Event::Report(node, *id)),
        Input::Refresh => Ok(Event::Refresh(node)),
        Input::Get(id) => Ok(Event::Get(node, id.copy(alloc)?)),
        Input::Restart => Ok(Event::Restart(node)),
    }
}

fn event_of_torn(
    alloc: Global,
    node: u32,
    number: u64,
    input: &Input,
    is_kept: bool,
) -> Result<Event, AllocError>
    ensures { IfOk result (λ e. e ≡ event_of node number (Tears input.now is_kept)) }
{
    match input {
        Input::Write(write) => Ok(Event::TornWrite(node, write.copy(alloc)?, is_kept)),
        Input::Bulk(writes) => Ok(Event::TornBulk(node, writes.copy(alloc)?, is_kept)),
        Input::Take(_) => Ok(Event::TornDelivery(number, is_kept)),
        _ => Ok(Event::Restart(node)),
    }
}
