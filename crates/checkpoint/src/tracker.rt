//! Which sequence numbers a copy has.
ghost use Rattle.std.specs.Prelude.{◌≡◌, ◌<◌, ◌+◌, ◌*◌, ◌≤◌, ◌^◌, ◌↔◌, ℕ, IsOk, OnOk, OnErr, length, map, nat_eq};
ghost use Rattle.std.specs.Cmp.Lexicographic.{pointwise};
ghost use Rattle.op.specs.Checkpoint.{known, checkpoint_of};
ghost use Rattle.op.specs.Ids.{has, with};
ghost use Rattle.checkpoint.specs.Numbers.{up_to, with_below, marked, run, least};
ghost use Rattle.checkpoint.specs.Span.{is_set};

use crate::fault::BeyondWindow;
use crate::{blocks, window};
use op::checkpoint;
use std::marker::Model;

/// How far above the checkpoint a number may be.
pub const WINDOW: u64 = window::SIZE;

/// A set of sequence numbers: all up to its checkpoint, and some of the 1,024 above it. It is seen as their list, in ascending order.
/// The checkpoint is the greatest number up to which none is missing, or -1 (Elasticsearch reference, "Sequence numbers and checkpoints").
pub struct Tracker {
    count: u64,
    words: [u64; 16],
}

impl Drop for Tracker {
    fn drop(self) {
        let Tracker {
            count: _,
            words: _words,
        } = self;
    }
}

impl Model for Tracker {
    ghost use Rattle.std.specs.Prelude.{List, ℕ};
    ghost use Rattle.checkpoint.specs.Window.{numbers_of, IsWindow};

    ghost Value = { List ℕ };

    ghost view = { λ t. numbers_of t.count t.words };

    ghost invariant = { λ t. IsWindow t.count t.words };
}

impl Tracker {
    /// All numbers up to a checkpoint; none for -1.
    pub fn at(checkpoint: i64) -> Tracker
        ensures { result ≡ up_to (known checkpoint) }
    {
        Tracker {
            count: checkpoint::count(checkpoint),
            words: [0; 16],
        }
    }

    /// An equal set.
    pub fn copy(&self) -> Tracker
        ensures { result ≡ self.now }
    {
        Tracker {
            count: self.count,
            words: self.words,
        }
    }

    /// Whether a number is there.
    pub fn has(&self, number: u64) -> bool
        ensures { result ≡ has self.now number }
    {
        if number < self.count {
            return true;
        }
        number - self.count < WINDOW && window::is_marked(&self.words, number)
    }

    /// The bits of a block of 64 numbers.
    pub(crate) fn block(&self, block: u64) -> u64
        requires { block < 2 ^ 58 }
        ensures { (i : ℕ) → i < 64 → is_set result i ≡ has self.now (block * 64 + i) }
    {
        let start = block * 64;
        if start >= self.count + WINDOW {
            return 0;
        }
        let near = blocks::low_bits(self.count + WINDOW - start);
        let all = blocks::low_bits(self.count.saturating_sub(start));
        (self.words[(block % 16) as usize] & near) | all
    }

    /// Adds a number. It is refused where it is more than 1,024 above the checkpoint; then nothing changes.
    pub fn mark(&mut self, number: u64) -> Result<(), BeyondWindow>
        requires { number < 2 ^ 63 }
        ensures window { IsOk result ↔ number < run self.old + 1024 }
        ensures ok { OnOk result (self.new ≡ with self.old number) }
        ensures err { OnErr result (self.new ≡ self.old) }
    {
        if number < self.count {
            return Ok(());
        }
        if number - self.count >= WINDOW {
            return Err(BeyondWindow);
        }
        window::set(&mut self.words, number);
        self.count = window::settle(&mut self.words, self.count);
        Ok(())
    }

    /// Adds all numbers up to a checkpoint.
    pub fn mark_up_to(&mut self, checkpoint: i64)
        ensures { self.new ≡ with_below self.old (known checkpoint) }
    {
        let end = checkpoint::count(checkpoint);
        if end <= self.count {
            return;
        }
        window::raise(&mut self.words, self.count, end);
        self.count = window::settle(&mut self.words, end);
    }

    /// Adds an acknowledged number and all below another, which it is near. The first counts one more than it is, and 0 is none.
    pub fn acknowledge(&mut self, seq: u64, below: u64)
        requires near { seq ≤ below + 1024 }
        requires small { seq ≤ 2 ^ 63 }
        requires signed { below ≤ 2 ^ 63 }
        ensures { self.new ≡ marked self.old seq below }
    {
        self.mark_up_to(checkpoint::from_count(below));
        if seq > 0 {
            let _ = self.mark(seq - 1);
        }
    }

    /// Whether such an acknowledgement adds nothing.
    pub fn has_acknowledged(&self, seq: u64, below: u64) -> bool
        ensures { result ≡ pointwise nat_eq self.now (marked self.now seq below) }
    {
        below <= self.count && (seq == 0 || self.has(seq - 1))
    }

    /// The greatest number up to which none is missing, or -1.
    pub fn checkpoint(&self) -> i64
        ensures { result ≡ checkpoint_of (run self.now) }
    {
        checkpoint::from_count(self.count())
    }

    /// How many numbers from 0 up are there without a gap.
    pub fn count(&self) -> u64
        ensures count { result ≡ run self.now }
        ensures small { result ≤ 2 ^ 63 }
    {
        self.count
    }
}

/// The least checkpoint of some sets.
pub fn least(trackers: &[Tracker]) -> i64
    requires { 0 < length trackers.now }
    ensures { result ≡ checkpoint_of (least (map run trackers.now)) }
{
    let mut found: Option<u64> = None;
    for tracker in trackers {
        let count = tracker.count();
        found = match found {
            Some(least) => Some(least.min(count)),
            None => Some(count),
        };
    }
    checkpoint::from_count(found.unwrap_or(0))
}
