//! What appends to a list.

use crate::chronicle::Chronicle;
use crate::law::{Draft, Law, Means, Noted, Same};
use crate::mark::Mark;
use logbook::{Pen, Seen, Word};
use std::marker::Model;
use std::snapshot::Snapshot;

/// The right to append to a list, and what was appended by it so far. Contracts see its line and its entries.
pub struct Writer<E> {
    pen: Pen,
    first: Word<Noted<E>, u64, Law>,
    seen: Seen<Noted<E>, u64, Law>,
}

impl<E> Drop for Writer<E> {
    fn drop(self) {
        let Writer {
            pen: _pen,
            first: _first,
            seen: _seen,
        } = self;
    }
}

impl<E> Model for Writer<E> {
    ghost use Rattle.std.specs.Prelude.{◌≡◌};
    ghost use Rattle.logbook.specs.Pages.{nib, may_write};
    ghost use Rattle.chronicle.specs.Written.{Written, written_coded};

    ghost Value = { Written E };

    ghost coded = { written_coded E.code };

    ghost use Rattle.chronicle.specs.Log.{written_in, last_of};

    ghost view = { λ w. written_in w.seen.book w.first.key w.seen.log };

    ghost invariant = { λ w. (w.pen.book ≡ w.seen.book) × (w.pen.nib ≡ nib may_write (last_of w.first.key w.seen.log) 0) };
}

impl<E> Writer<E> {
    ghost use Rattle.std.specs.Prelude.{◌≡◌, ℕ, [], ◌∷◌, ◌++◌, ◌≤◌, length};
    ghost use mathlib.Core.List.{IsPrefix};
    ghost use Rattle.logbook.specs.Pages.{nib, may_write};
    ghost use Rattle.chronicle.specs.Written.{line, written, Stands};
    ghost use Rattle.chronicle.specs.Log.{IsUnused};

    /// A writer with a right that nobody used.
    pub(crate) fn begin(
        pen: Pen,
        first: Word<Noted<E>, u64, Law>,
        seen: Seen<Noted<E>, u64, Law>,
    ) -> Writer<E>
        requires book { pen.book ≡ seen.book }
        requires right { pen.nib ≡ nib may_write first.key 0 }
        requires unused { IsUnused first.key seen.log }
        ensures { result ≡ written (line seen.book first.key) [] }
    {
        Writer { pen, first, seen }
    }

    /// Appends an entry. It takes no memory, and doesn't fail.
    pub fn append(&mut self, chronicle: &Chronicle<E>, what: &E) -> Mark<E>
        requires book { chronicle.now ≡ self.old.line.book }
        ensures grown { self.new ≡ written self.old.line (self.old.entries ++ what.now ∷ []) }
        ensures mark { result ≡ self.new }
        ensures stands { Stands result (length self.old.entries) what.now }
    {
        self.append_as::<E, Same>(chronicle, what)
    }

    /// Appends an entry that is there for clauses alone: what a value is written as.
    pub fn append_as<S, M: Means<S, E>>(&mut self, chronicle: &Chronicle<E>, what: &S) -> Mark<E>
        requires book { chronicle.now ≡ self.old.line.book }
        ensures grown { self.new ≡ written self.old.line (self.old.entries ++ M.means what.now ∷ []) }
        ensures mark { result ≡ self.new }
        ensures stands { Stands result (length self.old.entries) (M.means what.now) }
    {
        let mut seen = self.seen.again();
        let (pen, next) = chronicle.new_right(&mut seen);
        let draft = Draft {
            first: Snapshot::of(&self.first),
            right: Snapshot::of(&self.pen),
            next: Snapshot::of(&next),
            what: Snapshot::of(what),
        };
        chronicle.write::<S, M>(&draft, &mut self.seen, &mut self.pen);
        self.pen = pen;
        Mark::at(&self.seen)
    }

    /// What a mark of this line says was written is the beginning of what was: nobody else wrote in it.
    pub fn has(&mut self, chronicle: &Chronicle<E>, mark: &Mark<E>)
        requires book { chronicle.now ≡ self.old.line.book }
        requires line { mark.now.line ≡ self.old.line }
        ensures same { self.new ≡ self.old }
        ensures begins { IsPrefix mark.now.entries self.new.entries }
        ensures stands { (place : ℕ) (what : E) → Stands mark.now place what → Stands self.new place what }
    {
        let mut seen = self.seen.again();
        seen.learn(mark.seen());
        chronicle.look(&mut seen, &mut self.pen);
    }

    /// A mark of this line says the same as it of each place that both reach. It takes no step, and doesn't say that no mark reaches further.
    pub fn agrees(&self, mark: &Mark<E>)
        requires line { mark.now.line ≡ self.now.line }
        ensures begins { length mark.now.entries ≤ length self.now.entries → IsPrefix mark.now.entries self.now.entries }
        ensures same { (place : ℕ) (one two : E) → Stands self.now place one → Stands mark.now place two → one ≡ two }
    {
        let mut both = self.seen.again();
        both.learn(mark.seen());
    }
}
