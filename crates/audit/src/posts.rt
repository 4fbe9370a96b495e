//! Where the next message from one node to another should be. It makes the merge quick, and no contract rests on it.

use journal::Move;
use op::Msg;
use replica::Input;
use std::alloc::{AllocError, Global};

/// How many numbers, from the next message on, `near` gives before it gives earlier ones.
const AHEAD: usize = 12;

const AROUND: usize = 16;

/// The numbers of the messages from one node to another, and how many of these the other has taken.
#[derive(Drop)]
struct Post {
    numbers: Vec<u64>,
    taken: usize,
}

/// Those from one node to each.
#[derive(Drop)]
struct Sender {
    posts: Vec<Post>,
}

/// Those from each node.
#[derive(Drop)]
pub(crate) struct Posts {
    senders: Vec<Sender>,
}

impl Posts {
    /// No messages between `nodes` nodes.
    pub(crate) fn new(alloc: Global, nodes: usize) -> Result<Posts, AllocError> {
        let mut senders = Vec::new(alloc);
        for _ in 0..nodes {
            senders.push(Sender::new(alloc, nodes)?)?;
        }
        Ok(Posts { senders })
    }

    fn post(&self, from: u32, to: u32) -> Option<&Post> {
        match self.senders.get(from as usize) {
            Some(sender) => sender.posts.get(to as usize),
            None => None,
        }
    }

    fn post_mut(&mut self, from: u32, to: u32) -> Option<&mut Post> {
        match self.senders.get_mut(from as usize) {
            Some(sender) => sender.posts.get_mut(to as usize),
            None => None,
        }
    }

    /// The numbers at which the message of a node's move should be, the likeliest first.
    pub(crate) fn near(&self, node: u32, next: &Move, step: usize) -> Option<u64> {
        let Some(message) = message_of(next) else {
            return None;
        };
        match self.post(message.from, node) {
            Some(post) => post.near(step),
            None => None,
        }
    }

    /// The message of a node's move is taken.
    pub(crate) fn pass(&mut self, node: u32, next: &Move, number: u64) {
        let Some(message) = message_of(next) else {
            return;
        };
        if let Some(post) = self.post_mut(message.from, node) {
            post.pass(number);
        }
    }

    /// Adds the messages from a place on.
    pub(crate) fn add(&mut self, messages: &[Msg], first: usize) -> Result<(), AllocError> {
        for place in first..messages.len() {
            self.add_one(&messages[place], place as u64 + 1)?;
        }
        Ok(())
    }

    fn add_one(&mut self, message: &Msg, number: u64) -> Result<(), AllocError> {
        match self.post_mut(message.from, message.to) {
            Some(post) => Ok(post.numbers.push(number)?),
            None => Ok(()),
        }
    }
}

impl Sender {
    fn new(alloc: Global, nodes: usize) -> Result<Sender, AllocError> {
        let mut posts = Vec::new(alloc);
        for _ in 0..nodes {
            posts.push(Post {
                numbers: Vec::new(alloc),
                taken: 0,
            })?;
        }
        Ok(Sender { posts })
    }
}

/// How many places around the next message are looked at.
pub(crate) fn around() -> usize {
    AROUND
}

impl Post {
    /// The number at a step from the next message: ahead first, then behind.
    fn near(&self, step: usize) -> Option<u64> {
        let place = if step < AHEAD {
            self.taken.saturating_add(step)
        } else {
            self.taken.saturating_sub(step - AHEAD + 1)
        };
        self.numbers.get(place).copied()
    }

    /// The next message is the one after this number, unless one after that was taken.
    fn pass(&mut self, number: u64) {
        for place in self.taken..self.numbers.len() {
            if self.numbers[place] == number {
                self.taken = place + 1;
                return;
            }
        }
    }
}

/// The message that a move takes.
fn message_of(next: &Move) -> Option<&Msg> {
    match next {
        Move::Does(Input::Take(message)) => Some(message),
        Move::Tears(Input::Take(message), _) => Some(message),
        _ => None,
    }
}
