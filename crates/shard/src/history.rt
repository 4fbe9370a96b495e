//! The history of an index of one copy: what the index was after each command. Except for its length, it exists in proofs alone.
ghost use Rattle.std.specs.Prelude.{◌≡◌, ◌≤◌, true, IfOk, IsTrue, IfSome, length, map, string_bytes};
ghost use Rattle.std.specs.Arc.{arc_value};
ghost use mathlib.Core.List.{IsPrefix};
ghost use Rattle.front.specs.CommandView.{command_view};
ghost use Rattle.front.specs.ReplyView.{reply_view};
ghost use Rattle.engine.specs.Published.{HasMerged};
ghost use Rattle.shard.specs.History.{AreUnder, EndsIn, IsDone, IsHistory, DiffersInSegments, IsNext, IsSeenOf, DiffersInPoint};

use crate::asked::Asked;
use crate::shard::Shard;
use chronicle::{Chronicle, Mark, Writer};
use doc::Mapping;
use engine::{Merging, Prebuilt, Snapshot, Unshown};
use front::{Reply, Service};
use replica::CopyStatus;
use std::alloc::{AllocError, Global};
use std::marker::{Brand, Model, PhantomData};
use std::sync::Arc;
use translog::LogDevice;

/// Which index's history it is. A program passes `Brand` for it, and the call's proof picks the index.
pub trait HistoryName {
    ghost use Rattle.shard.specs.History.{Index};

    ghost index: { Index };
}

impl HistoryName for Brand {
    ghost use Rattle.std.specs.Prelude.{[], false};
    ghost use Rattle.chronicle.specs.Written.{line};

    ghost index = { record { line = line (record { number = 0; log_name = 0; cells_name = 0 }) 0; name = []; mapping = record { strict = false; fields = [] } } };
}

/// An index at the beginning of its history. The history has no name yet. Contracts see which index it is.
#[derive(Drop)]
pub struct Begun<D: LogDevice> {
    shard: Shard<D>,
    chronicle: Chronicle<Shard<D>>,
    writer: Writer<Shard<D>>,
    mark: Mark<Shard<D>>,
}

impl<D: LogDevice> Model for Begun<D> {
    ghost use Rattle.std.specs.Prelude.{◌≡◌, [], ◌∷◌, string_bytes};
    ghost use Rattle.replica.specs.Logged.{IsLogged};
    ghost use Rattle.shard.specs.History.{Index};

    ghost Value = { Index };

    ghost view = { λ b. record { line = b.writer.line; name = string_bytes b.shard.name; mapping = b.shard.copy.copy.mapping } };

    ghost invariant = { λ b. (b.chronicle ≡ b.writer.line.book) × (b.writer.entries ≡ b.shard ∷ []) × (b.mark ≡ b.writer) × IsLogged b.shard.copy };
}

impl<D: LogDevice> Begun<D> {
    /// Begins the history of an index.
    pub fn new(shard: Shard<D>) -> Begun<D>
        ensures name { result.name ≡ string_bytes shard.name }
        ensures mapping { result.mapping ≡ shard.copy.copy.mapping }
    {
        let chronicle = Chronicle::new();
        let mut writer = chronicle.writer();
        shard.is_logged();
        let mark = writer.append(&chronicle, &shard);
        Begun {
            shard,
            chronicle,
            writer,
            mark,
        }
    }

    /// The name and the mapping of the index.
    pub(crate) fn label<N: HistoryName>(&self, alloc: Global) -> Result<Label<N>, AllocError>
        requires { self.now ≡ N.index }
    {
        let name = String::from_str(alloc, self.shard.index())?;
        let mapping = self.shard.mapping().copy(alloc)?;
        Ok(Label {
            name,
            mapping,
            of: PhantomData,
        })
    }
}

/// The name and the mapping of the index whose history is named `N`. Contracts see the name.
#[derive(Drop)]
pub(crate) struct Label<N: HistoryName> {
    name: String,
    mapping: Mapping,
    of: PhantomData<N>,
}

impl<N: HistoryName> Model for Label<N> {
    ghost use Rattle.std.specs.Prelude.{◌≡◌, ℕ, List, string_bytes};

    ghost Value = { List ℕ };

    ghost view = { λ l. string_bytes l.name };

    ghost invariant = { λ l. (string_bytes l.name ≡ N.index.name) × (l.mapping ≡ N.index.mapping) };
}

impl<N: HistoryName> Label<N> {
    pub(crate) fn name(&self) -> &str
        ensures { result.now ≡ N.index.name }
    {
        self.name.as_str()
    }

    pub(crate) fn mapping(&self) -> &Mapping
        ensures { result.now ≡ N.index.mapping }
    {
        &self.mapping
    }
}

/// The history of an index up to a place that it has reached. Contracts see what the index was after each command.
pub struct Reached<D: LogDevice, N: HistoryName> {
    mark: Mark<Shard<D>>,
    count: u64,
    of: PhantomData<N>,
}

impl<D: LogDevice, N: HistoryName> Drop for Reached<D, N> {
    fn drop(self) {
        let Reached {
            mark: _mark,
            count: _,
            of: _,
        } = self;
    }
}

impl<D: LogDevice, N: HistoryName> Model for Reached<D, N> {
    ghost use Rattle.std.specs.Prelude.{◌≡◌, List, length, map, min};
    ghost use Rattle.shard.specs.History.{AreUnder, Stand, IsHistory};

    ghost Value = { List Stand };

    ghost view = { λ r. map (λ s. record { copy = s.copy; master = s.master }) r.mark.entries };

    ghost invariant = { λ r. (r.mark.line ≡ N.index.line) × (r.count ≡ min (length r.mark.entries) 18446744073709551615) × IsHistory (map (λ s. record { copy = s.copy; master = s.master }) r.mark.entries)
        × AreUnder N.index.mapping (map (λ s. record { copy = s.copy; master = s.master }) r.mark.entries) };
}

impl<D: LogDevice, N: HistoryName> Reached<D, N> {
    /// A duplicate.
    pub fn again(&self) -> Reached<D, N>
        ensures { result ≡ self.now }
    {
        Reached {
            mark: self.mark.again(),
            count: self.count,
            of: PhantomData,
        }
    }

    /// This history and one more place, which the mark reaches.
    fn behind(&self, mark: Mark<Shard<D>>) -> Reached<D, N>
        requires line { mark.line ≡ N.index.line }
        requires next { IsNext self.now (map (λ s. record { copy = s.copy; master = s.master }) mark.entries) }
        ensures is { result ≡ map (λ s. record { copy = s.copy; master = s.master }) mark.entries }
        ensures legal { IsHistory result }
    {
        Reached {
            mark,
            count: self.count.saturating_add(1),
            of: PhantomData,
        }
    }

    /// What two clients know is of one list of what the index was: if the other one reaches as far as this one, it begins with this one.
    #[tactic(auto, using(crate::proofs::Histories::mapped_prefix))]
    pub fn agrees(&self, other: &Reached<D, N>)
        ensures { length self.now ≤ length other.now → IsPrefix self.now other.now }
    {
        self.mark.agrees(&other.mark);
    }

    /// At each place of this history the copy has the mapping of the index.
    pub fn is_under(&self)
        ensures { AreUnder N.index.mapping self.now }
    {
        let _ = &self.mark;
    }

    /// Whether another history surely extends this one.
    pub fn is_before(&self, other: &Reached<D, N>) -> bool
        ensures before { IsTrue result → IsPrefix self.now other.now }
    {
        self.mark.agrees(&other.mark);
        self.count <= other.count && self.count < u64::MAX
    }
}

/// An index with its history. Contracts see what the index is now.
pub(crate) struct Kept<D: LogDevice, N: HistoryName> {
    shard: Shard<D>,
    chronicle: Chronicle<Shard<D>>,
    writer: Writer<Shard<D>>,
    last: Reached<D, N>,
}

impl<D: LogDevice, N: HistoryName> Drop for Kept<D, N> {
    fn drop(self) {
        let Kept {
            shard: _shard,
            chronicle: _chronicle,
            writer: _writer,
            last: _last,
        } = self;
    }
}

impl<D: LogDevice, N: HistoryName> Model for Kept<D, N> {
    ghost use Rattle.std.specs.Prelude.{◌≡◌, map};
    ghost use Rattle.shard.specs.History.{EndsIn, Stand};

    ghost Value = { Stand };

    ghost view = { λ k. record { copy = k.shard.copy; master = k.shard.master } };

    ghost invariant = { λ k. (k.writer.line ≡ N.index.line) × (k.chronicle ≡ N.index.line.book) × (k.last ≡ map (λ s. record { copy = s.copy; master = s.master }) k.writer.entries) × EndsIn (record { copy = k.shard.copy; master = k.shard.master }) k.last };
}

impl<D: LogDevice, N: HistoryName> Kept<D, N> {
    /// The index. Its history has the name `N` from now on.
    pub(crate) fn of(begun: Begun<D>) -> Kept<D, N>
        requires { begun ≡ N.index }
    {
        let Begun {
            shard,
            chronicle,
            writer,
            mark,
        } = begun;
        Kept {
            shard,
            chronicle,
            writer,
            last: Reached {
                mark,
                count: 1,
                of: PhantomData,
            },
        }
    }

    /// How far its history goes.
    pub(crate) fn reached(&self) -> Reached<D, N>
        ensures { EndsIn self.now result }
    {
        self.last.again()
    }

    /// Carries out a command for a client that knows this much of the history, and returns how far the history goes then.
    #[tactic(auto, using(crate::proofs::Histories::next_by, crate::proofs::Histories::done_by))]
    pub(crate) fn call(&mut self, known: &Reached<D, N>, asked: Asked) -> (Reply, Reached<D, N>)
        ensures done { IsDone known.now (command_view asked) (reply_view result.0) result.1 }
        ensures ends { EndsIn self.new result.1 }
    {
        self.writer.has(&self.chronicle, &known.mark);
        let reply = self.shard.answer(asked);
        self.shard.is_logged();
        let mark = self.writer.append(&self.chronicle, &self.shard);
        self.last = self.last.behind(mark);
        (reply, self.last.again())
    }

    /// How the copy stands, and whether it is in sync.
    pub(crate) fn status(&self) -> (CopyStatus, bool) {
        (self.shard.status(), self.shard.is_in_sync())
    }

    /// What searches see at this place of the history; `None` while the copy is closed.
    pub(crate) fn snapshot(&self) -> Option<&Arc<Snapshot, Global>>
        ensures { IfSome result (λ s. IsSeenOf (arc_value s.now) self.now) }
    {
        self.shard.is_logged();
        self.shard.snapshot()
    }

    /// Begins a merge of segments that go well into one, if there are more than so few. The index stays as it is.
    pub(crate) fn begin_merge(&mut self, few: usize) -> Result<Option<Merging>, AllocError>
        ensures { self.new ≡ self.old }
    {
        self.shard.begin_merge(few)
    }

    /// Puts the merged segment in place, and returns whether it is there now. What the index has and shows stays.
    #[tactic(auto, using(crate::proofs::Histories::merged_by, crate::proofs::Histories::unmerged))]
    pub(crate) fn finish_merge(&mut self) -> Result<bool, AllocError>
        ensures differs { DiffersInSegments self.old self.new }
        ensures merged { IfOk result (λ b. b ≡ true → HasMerged self.old.copy.segments self.new.copy.segments) }
    {
        let is_there = self.shard.finish_merge()?;
        let mark = self.writer.append(&self.chronicle, &self.shard);
        self.last = self.last.behind(mark);
        Ok(is_there)
    }

    /// Begins a refresh whose segment is built while commands go on, if much has to be built. The index stays as it is.
    pub(crate) fn begin_refresh(&mut self) -> Result<Option<Unshown>, AllocError>
        ensures { self.new ≡ self.old }
    {
        if self.shard.snapshot().is_none() {
            return Ok(None);
        }
        self.shard.begin_refresh()
    }

    /// Shows searches what was there when the refresh began, and returns whether they see it now.
    #[tactic(auto, using(crate::proofs::Histories::shown_by, crate::proofs::Histories::shows_more))]
    pub(crate) fn finish_refresh(&mut self, prebuilt: Prebuilt) -> Result<bool, AllocError>
        ensures done { IfOk result (λ b. b ≡ true → DiffersInPoint self.old self.new) }
        ensures point { IfOk result (λ b. b ≡ true → self.new.copy.copy.point ≡ prebuilt.point) }
    {
        if self.shard.snapshot().is_none() {
            return Ok(false);
        }
        if !self.shard.finish_refresh(prebuilt)? {
            return Ok(false);
        }
        self.shard.is_logged();
        let mark = self.writer.append(&self.chronicle, &self.shard);
        self.last = self.last.behind(mark);
        Ok(true)
    }
}
