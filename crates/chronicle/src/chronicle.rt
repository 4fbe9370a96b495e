//! The list that writers append to.

use crate::law::{Draft, Law, Look, Make, Means, Noted, Nothing, Write, WriteAs};
use crate::writer::Writer;
use logbook::{Offer, Pen, Seen, Start, Word};
use std::marker::Model;

/// A list that writers append to. Contracts see its name.
pub struct Chronicle<E> {
    head: Word<Noted<E>, u64, Law>,
    seen: Seen<Noted<E>, u64, Law>,
}

impl<E> Drop for Chronicle<E> {
    fn drop(self) {
        let Chronicle {
            head: _head,
            seen: _seen,
        } = self;
    }
}

impl<E> Model for Chronicle<E> {
    ghost use Rattle.std.specs.Prelude.{◌≡◌};
    ghost use Rattle.logbook.specs.Pages.{Book, book_coded};
    ghost use Rattle.chronicle.specs.Written.{head_of};

    ghost Value = { Book };

    ghost coded = { book_coded };

    ghost view = { λ c. c.seen.book };

    ghost invariant = { λ c. c.head ≡ head_of c.seen.book };
}

impl<E> Chronicle<E> {
    ghost use Rattle.std.specs.Prelude.{◌≡◌, [], Some};
    ghost use mathlib.Core.List.{IsPrefix};
    ghost use Rattle.logbook.specs.Pages.{nib, may_write};
    ghost use Rattle.chronicle.specs.Log.{noted, Adds, IsUnused};

    /// A new list, that is empty.
    pub fn new() -> Chronicle<E> {
        let (seen, mut first, _second) = Seen::open(Start::alone(), 0, 0);
        Chronicle {
            head: Word::tracked(0, &mut first),
            seen,
        }
    }

    /// A writer with a right that is new.
    pub fn writer(&self) -> Writer<E>
        ensures book { result.line.book ≡ self.now }
        ensures empty { result.entries ≡ [] }
    {
        let mut seen = self.seen.again();
        let (pen, first) = self.new_right(&mut seen);
        Writer::begin(pen, first, seen)
    }

    /// A right that nobody used, and its word.
    pub(crate) fn new_right(
        &self,
        seen: &mut Seen<Noted<E>, u64, Law>,
    ) -> (Pen, Word<Noted<E>, u64, Law>)
        requires book { seen.old.book ≡ self.now }
        ensures seen { seen.new.book ≡ seen.old.book }
        ensures book { result.0.book ≡ self.now }
        ensures right { result.0.nib ≡ nib may_write result.1.key 0 }
        ensures unused { IsUnused result.1.key seen.new.log }
    {
        let mut offer = seen.plain::<Nothing, (), Make>(&());
        let mut pen = seen.no_pen();
        self.head
            .compare_exchange::<Make, Nothing>(0, 0, seen, &mut offer, &mut pen);
        let word = Word::tracked(0, &mut pen);
        (pen, word)
    }

    /// Sees a log in which nobody used the pen's right.
    pub(crate) fn look(&self, seen: &mut Seen<Noted<E>, u64, Law>, pen: &mut Pen)
        requires books { (seen.old.book ≡ self.now) × (pen.old.book ≡ self.now) }
        requires right { pen.old.nib.right ≡ may_write }
        ensures book { seen.new.book ≡ seen.old.book }
        ensures grown { IsPrefix seen.old.log seen.new.log }
        ensures pen { (pen.new.book ≡ pen.old.book) × (pen.new.nib ≡ pen.old.nib) }
        ensures unused { IsUnused pen.old.nib.key seen.new.log }
    {
        let mut offer = seen.plain::<Nothing, (), Make>(&());
        self.head
            .compare_exchange::<Look, Nothing>(0, 0, seen, &mut offer, pen);
    }

    /// Uses the pen's right to add what a value is written as.
    pub(crate) fn write<S, M: Means<S, E>>(
        &self,
        draft: &Draft<E, S>,
        seen: &mut Seen<Noted<E>, u64, Law>,
        pen: &mut Pen,
    )
        requires books { (seen.old.book ≡ self.now) × (pen.old.book ≡ self.now) }
        requires right { pen.old.nib.right ≡ may_write }
        requires own { draft.now.right.value.nib.key ≡ pen.old.nib.key }
        ensures book { seen.new.book ≡ seen.old.book }
        ensures added { Adds pen.old.nib.key (noted draft.now.first.value.key pen.old.nib.key draft.now.next.value.key (Some (M.means draft.now.what.value))) seen.old.log seen.new.log }
    {
        let mut offer = seen.plain::<Nothing, Draft<E, S>, WriteAs<M>>(draft);
        self.head
            .compare_exchange::<Write, Nothing>(0, 0, seen, &mut offer, pen);
    }
}
