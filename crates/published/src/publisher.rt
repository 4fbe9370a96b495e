//! The writer of what a cell publishes.
ghost use Rattle.std.specs.Prelude.{◌≡◌, ◌⊎◌, ◌∷◌, ◌++◌, [], IfOk, OnOk, OnErr, MatchResult};
ghost use Rattle.std.specs.Arc.{arc_value};
ghost use Rattle.left_right.specs.Sides.{view};
ghost use Rattle.published.specs.Line.{line, line_behind};
ghost use Rattle.published.specs.Listings.{ComesAfter, GoesOn};
ghost use Rattle.published.specs.Rule.{published};
ghost use Rattle.published.specs.Showing.{listing};
ghost use Rattle.published.specs.Told.{IsOf};

use crate::front::{Entry, History};
use crate::latest::Latest;
use crate::name::Name;
use crate::note::Note;
use crate::rule::{Known, Learns, Sees, Shows, Tells};
use crate::searcher::Searcher;
use crate::showing::Showing;
use core::mem::replace_with;
use left_right::writer::Writer;
use std::alloc::{AllocError, Global};
use std::marker::Model;
use std::sync::{Arc, Wait};

/// How many searchers there may be at once.
const SEARCHERS: usize = 8;

/// More lists than this aren't published.
const MOST: u64 = 1 << 61;

type End = Writer<Latest, Latest, Known, Shows>;

/// Shows readers what comes next.
fn publish_next<R: Wait>(writer: End, rt: &R, next: Latest) -> (End, Result<(), AllocError>)
    requires { ComesAfter (published next) (published writer.desk.shown.value) }
    ensures ok { OnOk result.1 (published result.0.desk.shown.value ≡ published next) }
    ensures knows { OnOk result.1 (view result.0.desk.place ≡ published next ∷ []) }
    ensures err { OnErr result.1 ((published result.0.desk.shown.value ≡ published writer.desk.shown.value) × (view result.0.desk.place ≡ view writer.desk.place)) }
{
    let mut writer = writer;
    if writer.append(next).is_err() {
        return (writer, Err(AllocError));
    }
    writer.publish_as::<Sees, R>(rt)
}

/// Shows what a cell publishes. It is not `Drop`: end it by `take`.
pub struct Publisher {
    writer: End,
    history: History,
}

impl Model for Publisher {
    ghost use Rattle.left_right.specs.Sides.{view as known};
    ghost use Rattle.published.specs.Line.{Line, line_of, IsLine};
    ghost use Rattle.published.specs.Rule.{published};

    ghost Value = { Line };

    ghost view = { λ p. line_of (published p.writer.desk.shown.value) p.history };

    ghost invariant = { λ p. IsLine (published p.writer.desk.shown.value) (known p.writer.desk.place) p.history };
}

impl Publisher {
    /// Shows the first list of a new cell.
    pub fn begin<R: Wait>(rt: &R, alloc: Global, showing: Showing) -> Result<Publisher, AllocError>
        ensures { IfOk result (λ p. p ≡ line p.book (listing p.book showing)) }
    {
        let mut history = History::new();
        let Some(entry) = history.add(showing) else {
            return Err(AllocError);
        };
        let entry = Arc::new(alloc, entry)?;
        let second = Arc::try_clone(&entry)?;
        let next = Arc::try_clone(&entry)?;
        let writer: End = Writer::new(
            alloc,
            Latest { entry },
            Latest { entry: second },
            SEARCHERS,
        )?;
        let (writer, done) = publish_next(writer, rt, Latest { entry: next });
        if done.is_err() {
            let _last = writer.take(rt);
            return Err(AllocError);
        }
        Ok(Publisher { writer, history })
    }

    /// Shows a list that extends the last one. It waits for readers of the one before the last. A refusal may leave it the last,
    /// but doesn't show it.
    pub fn publish<R: Wait>(
        &mut self,
        rt: &R,
        alloc: Global,
        showing: Showing,
    ) -> Result<(), AllocError>
        requires { GoesOn (listing self.old.book showing) self.old.top }
        ensures book { self.new.book ≡ self.old.book }
        ensures ok { OnOk result (self.new ≡ line_behind self.old.book self.old.history (listing self.old.book showing)) }
        ensures shown { OnErr result (self.new.shown ≡ self.old.shown) }
        ensures top { OnErr result ((self.new.top ≡ self.old.top) ⊎ (self.new.top ≡ listing self.old.book showing)) }
        ensures history { OnErr result ((self.new.history ≡ self.old.history) ⊎ (self.new.history ≡ self.old.history ++ listing self.old.book showing ∷ [])) }
    {
        if self.history.count() >= MOST {
            return Err(AllocError);
        }
        let Some(entry) = self.history.add(showing) else {
            return Err(AllocError);
        };
        let next = Latest {
            entry: Arc::new(alloc, entry)?,
        };
        replace_with(&mut self.writer, rt, |writer, rt| {
            publish_next(writer, rt, next)
        })
    }

    /// A note of what is shown.
    pub fn note<N: Name>(&self) -> Result<Note<N>, AllocError>
        requires { IsOf N.named N.cell self.now.shown }
        ensures { IfOk result (λ n. n ≡ self.now.shown) }
    {
        Ok(Note::of(Arc::try_clone(&self.writer.published().entry)?))
    }

    /// One more reader, that knows what is shown. It is refused where eight are given out.
    pub fn searcher<N: Name>(&mut self) -> Result<Searcher<N>, AllocError>
        requires { IsOf N.named N.cell self.old.shown }
        ensures same { self.new ≡ self.old }
        ensures knows { IfOk result (λ s. s ≡ self.old.shown ∷ []) }
    {
        let mut reader = self.writer.factory().reader()?;
        reader.learn::<Learns>(self.writer.tell::<Tells>());
        Ok(Searcher::over(reader))
    }

    /// Shows nothing any more. It waits for readers.
    pub fn take<R: Wait>(self, rt: &R) {
        let Publisher {
            writer,
            history: _history,
        } = self;
        let _last = writer.take(rt);
    }
}
