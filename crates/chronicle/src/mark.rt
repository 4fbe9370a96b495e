//! What tells for good what a writer wrote.

use crate::law::{Law, Noted};
use logbook::Seen;
use std::marker::Model;

/// What a writer had written once it wrote an entry, which is the last of it. Contracts see its line and the entries.
pub struct Mark<E> {
    seen: Seen<Noted<E>, u64, Law>,
}

impl<E> Drop for Mark<E> {
    fn drop(self) {
        let Mark { seen: _seen } = self;
    }
}

impl<E> Model for Mark<E> {
    ghost use Rattle.chronicle.specs.Written.{Written, written_coded};

    ghost Value = { Written E };

    ghost coded = { written_coded E.code };

    ghost use Rattle.chronicle.specs.Log.{written_in, first_of};

    ghost view = { λ m. written_in m.seen.book (first_of m.seen.log) m.seen.log };
}

impl<E> Mark<E> {
    ghost use Rattle.std.specs.Prelude.{◌≡◌, ℕ, ◌≤◌, length};
    ghost use mathlib.Core.List.{IsPrefix};
    ghost use Rattle.chronicle.specs.Written.{Stands};
    ghost use Rattle.chronicle.specs.Log.{written_in, first_of};

    pub(crate) fn at(seen: &Seen<Noted<E>, u64, Law>) -> Mark<E>
        ensures { result ≡ written_in seen.now.book (first_of seen.now.log) seen.now.log }
    {
        Mark { seen: seen.again() }
    }

    pub(crate) fn seen(&self) -> &Seen<Noted<E>, u64, Law>
        ensures { self.now ≡ written_in result.now.book (first_of result.now.log) result.now.log }
    {
        &self.seen
    }

    /// A copy.
    pub fn again(&self) -> Mark<E>
        ensures { result ≡ self.now }
    {
        Mark {
            seen: self.seen.again(),
        }
    }

    /// Two marks of one line say the same of each place that both reach, so the one that isn't longer begins the other.
    pub fn agrees(&self, other: &Mark<E>)
        requires line { other.now.line ≡ self.now.line }
        ensures begins { length self.now.entries ≤ length other.now.entries → IsPrefix self.now.entries other.now.entries }
        ensures same { (place : ℕ) (one two : E) → Stands self.now place one → Stands other.now place two → one ≡ two }
    {
        let mut both = self.seen.again();
        both.learn(&other.seen);
    }
}
