//! The history of what a cell publishes.
ghost use Rattle.std.specs.Prelude.{◌≡◌, ◌+◌, ◌==◌, ◌<◌, ◌≤◌, ◌^◌, ◌++◌, ◌∷◌, [], length, IfSome, IfNone, true};
ghost use mathlib.Core.List.{IsPrefix};
ghost use Rattle.published.specs.Beginning.{beginning};
ghost use Rattle.published.specs.Chain.{IsChain, IsLast, MayFollow, head_of};
ghost use Rattle.published.specs.Showing.{listing};

use crate::listing::Listing;
use crate::showing::Showing;
use logbook::{Gain, Offer, Plain, Play, Rule, Seen, Start, Word};
use std::marker::Model;

/// The rule of the history.
pub struct Law;

impl Rule<Listing, u64> for Law {
    ghost use Rattle.std.specs.Prelude.{[]};
    ghost use base.Fml.{ftrue};
    ghost use Rattle.published.specs.Chain.{IsKept};

    ghost holds = { λ cells log. IsKept cells log };

    ghost first = { [] };

    ghost hinted = { λ n log. Unit {0} };

    ghost shows = { λ log. [] };

    ghost keeps = { λ names log. ftrue };

    ghost moves = { λ ask before after answer. Unit {0} };
}

/// Callers trade nothing.
pub struct Nothing;

impl Gain<Listing, u64> for Nothing {
    ghost use base.Fml.{ftrue};

    ghost after = { λ names about answer. ftrue };
}

/// A step that adds a listing.
pub struct Add;

impl Play<Listing, u64> for Add {
    ghost use Rattle.published.specs.Chain.{Adds};

    ghost then = { Adds };
}

/// What comes next, with the history so far.
#[derive(Drop)]
pub struct Draft {
    showing: Showing,
    seen: Seen<Listing, u64, Law>,
}

/// What a step asks for: the listing.
impl Plain<Draft, Listing, u64> for Add {
    ghost use Rattle.std.specs.Prelude.{None};
    ghost use Rattle.published.specs.Showing.{listing};

    ghost ask = { λ d. listing d.seen.book d.showing };

    ghost state = { λ d. None };
}

/// The history of a cell, with the word that counts it. Contracts see it as its cell's book and its listings.
pub struct History {
    head: Word<Listing, u64, Law>,
    count: u64,
    seen: Seen<Listing, u64, Law>,
}

impl Drop for History {
    fn drop(self) {
        let History {
            head: _head,
            count: _,
            seen: _seen,
        } = self;
    }
}

impl Model for History {
    ghost use Rattle.std.specs.Prelude.{◌≡◌, length};
    ghost use Rattle.published.specs.Beginning.{Beginning, beginning};
    ghost use Rattle.published.specs.Chain.{IsChain, head_of};

    ghost Value = { Beginning };

    ghost view = { λ f. beginning f.seen.book f.seen.log };

    ghost invariant = { λ f. (f.count ≡ length f.seen.log) × IsChain f.seen.log × (f.head ≡ head_of f.seen.book) };
}

impl History {
    /// A new history, that is empty.
    pub fn new() -> History
        ensures { result.log ≡ [] }
    {
        let (seen, mut first, _second) = Seen::open(Start::alone(), 0, 0);
        History {
            head: Word::tracked(0, &mut first),
            count: 0,
            seen,
        }
    }

    /// How many listings it has.
    pub fn count(&self) -> u64
        ensures { result ≡ length self.now.log }
    {
        self.count
    }

    /// Adds what comes next. It doesn't where the history is longer, which nobody else makes it.
    pub fn add(&mut self, showing: Showing) -> Option<Entry>
        requires room { length self.old.log < 2 ^ 62 }
        requires may { MayFollow self.old.log (listing self.old.book showing) }
        ensures entry { IfSome result (λ e. (e.front ≡ self.new) × (e.showing ≡ showing)) }
        ensures added { IfSome result (λ e. self.new ≡ beginning self.old.book (self.old.log ++ listing self.old.book showing ∷ [])) }
        ensures kept { IfNone result (self.new ≡ self.old) }
    {
        let mut seen = self.seen.again();
        let draft = Draft {
            showing,
            seen: self.seen.again(),
        };
        let mut offer: Offer<Listing, u64, Law, Nothing> = self
            .seen
            .plain::<Nothing, Draft, Add>(&draft);
        let mut pen = self.seen.no_pen();
        let count = self.count;
        let found = self
            .head
            .compare_exchange::<Add, Nothing>(count, count + 1, &mut seen, &mut offer, &mut pen);
        if found != count {
            return None;
        }
        self.seen = seen;
        self.count = count + 1;
        let front = Front {
            count: self.count,
            seen: self.seen.again(),
        };
        let Draft { showing, seen: _ } = draft;
        Some(Entry { showing, front })
    }
}

/// A beginning of the history that was seen. Contracts see it as its cell's book and its listings.
#[derive(Drop)]
pub struct Front {
    count: u64,
    seen: Seen<Listing, u64, Law>,
}

impl Model for Front {
    ghost use Rattle.std.specs.Prelude.{◌≡◌, length};
    ghost use Rattle.published.specs.Beginning.{Beginning, beginning};
    ghost use Rattle.published.specs.Chain.{IsChain};

    ghost Value = { Beginning };

    ghost view = { λ f. beginning f.seen.book f.seen.log };

    ghost invariant = { λ f. (f.count ≡ length f.seen.log) × IsChain f.seen.log };
}

impl Front {
    /// How many listings it has.
    pub fn count(&self) -> u64
        ensures length { result ≡ length self.now.log }
        ensures chain { IsChain self.now.log }
    {
        self.count
    }

    /// Of two beginnings of one history that isn't longer begins the other.
    pub fn compare(&self, other: &Front)
        requires one { other.now.book ≡ self.now.book }
        ensures chain { IsChain other.now.log }
        ensures begins { length self.now.log ≤ length other.now.log → IsPrefix self.now.log other.now.log }
    {
        let mut both = self.seen.again();
        both.learn(&other.seen);
        let _ = &other.count;
    }
}

/// What a copy shows, as the last of the history of its cell.
#[derive(Drop)]
pub struct Entry {
    pub showing: Showing,
    pub front: Front,
    pub ghost last: { IsLast front.log (listing front.book showing) },
}
