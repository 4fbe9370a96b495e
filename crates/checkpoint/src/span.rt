//! Sequence numbers that lie near one another.
ghost use Rattle.std.specs.Prelude.{◌≡◌, ◌<◌, ◌≤◌, ◌+◌, ◌*◌, ◌++◌, ◌∷◌, ◌^◌, [], ℕ, filter, not, true, IfOk, IfSome, IsSome};
ghost use Rattle.op.specs.Ids.{has};
ghost use Rattle.checkpoint.specs.Span.{is_set};

use crate::blocks;
use crate::blocks::BLOCKS;
use crate::tracker::Tracker;
use std::alloc::{AllocError, Global};
use std::marker::Model;

/// The numbers that a span can have end here.
const END: u64 = 1 << 63;

/// A set of sequence numbers that lie near one another, in seventeen blocks of 64. It is seen as their list, in ascending order.
/// It takes the same small memory whatever is in it, and none from an allocator.
pub struct Span {
    first: u64,
    words: [u64; 17],
}

impl Drop for Span {
    fn drop(self) {
        let Span {
            first: _,
            words: _words,
        } = self;
    }
}

impl Model for Span {
    ghost use Rattle.std.specs.Prelude.{List, ℕ, ◌≤◌, ◌^◌};
    ghost use Rattle.checkpoint.specs.Span.{span_of};

    ghost Value = { List ℕ };

    ghost view = { λ s. span_of s.first s.words };

    ghost invariant = { λ s. s.first ≤ 2 ^ 57 };
}

impl Span {
    /// No numbers.
    pub fn empty() -> Span
        ensures { result ≡ [] }
    {
        Span {
            first: 0,
            words: [0; 17],
        }
    }

    /// An equal set.
    pub fn copy(&self) -> Span
        ensures { result ≡ self.now }
    {
        Span {
            first: self.first,
            words: self.words,
        }
    }

    /// These and a greater one after them; `None` where it isn't greater, or is too far above the least: up to 1,024 is near enough, and 64
    /// more may be.
    pub fn then(&self, number: u64) -> Option<Span>
        ensures grown { IfSome result (λ s. s ≡ self.now ++ number ∷ []) }
        ensures room { number < 2 ^ 63 → ((n : ℕ) → has self.now n ≡ true → (n < number) × (number ≤ n + 1024)) → IsSome result }
    {
        if number >= END {
            return None;
        }
        let block = number / 64;
        let first = blocks::base(&self.words, self.first, block);
        if block < first || block - first >= BLOCKS {
            return None;
        }
        if !blocks::ends_before(&self.words, first, number) {
            return None;
        }
        let mut words = self.words;
        blocks::set(&mut words, number);
        Some(Span { first, words })
    }

    /// The bits of a block of 64 numbers.
    fn block(&self, block: u64) -> u64
        requires { block < 2 ^ 58 }
        ensures { (i : ℕ) → i < 64 → is_set result i ≡ has self.now (block * 64 + i) }
    {
        if block < self.first || block - self.first >= BLOCKS {
            return 0;
        }
        blocks::word(&self.words, block)
    }

    /// Those that a copy has.
    pub fn intersect(&self, numbers: &Tracker) -> Span
        ensures { result ≡ filter (λ n. has numbers.now n) self.now }
    {
        let mut words = self.words;
        for step in 0..BLOCKS {
            let block = self.first + step;
            blocks::keep(&mut words, block, numbers.block(block));
        }
        Span {
            first: self.first,
            words,
        }
    }

    /// Those that others don't have.
    pub fn subtract(&self, others: &Span) -> Span
        ensures { result ≡ filter (λ n. not (has others.now n)) self.now }
    {
        let mut words = self.words;
        for step in 0..BLOCKS {
            let block = self.first + step;
            blocks::keep(&mut words, block, !others.block(block));
        }
        Span {
            first: self.first,
            words,
        }
    }

    /// Their list.
    pub fn to_vec(&self, alloc: Global) -> Result<Vec<u64>, AllocError>
        ensures { IfOk result (λ v. v.items ≡ self.now) }
    {
        let mut numbers = Vec::new(alloc);
        for step in 0..BLOCKS {
            let block = self.first + step;
            blocks::push_block(&mut numbers, block * 64, blocks::word(&self.words, block))?;
        }
        Ok(numbers)
    }
}
