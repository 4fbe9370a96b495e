//! Entries that clauses know, and that memory has where they are wanted.
ghost use Rattle.std.specs.Prelude.{◌≡◌, ℕ, ◌+◌, ◌≤◌, List, [], ◌∷◌, ◌++◌, length, true, false, Some, None, slice_get, OnOk, IfSome, IfNone};
ghost use mathlib.Core.List.{IsPrefix};
ghost use Rattle.chronicle.specs.Ledger.{recorded};
ghost use Rattle.chronicle.specs.Written.{written, Stands};
ghost use Rattle.chronicle.specs.Memory.{is_all, HasRoom, IsOf};

use crate::chronicle::Chronicle;
use crate::mark::Mark;
use crate::writer::Writer;
use std::alloc::{AllocError, Global};
use std::marker::Model;

/// What memory has of some entries: all of them, or the last.
#[derive(Drop)]
pub(crate) enum Memory<E> {
    All(Vec<E>),
    Last(Option<E>),
}

impl<E: Drop> Memory<E> {
    /// What it has once one more comes.
    fn add(&mut self, entry: E)
        requires room { HasRoom self.old }
        ensures same { is_all self.new ≡ is_all self.old }
        ensures added { (entries : List E) → IsOf entries self.old → IsOf (entries ++ entry ∷ []) self.new }
    {
        match self {
            Memory::All(all) => all.push_reserved(entry),
            Memory::Last(last) => *last = Some(entry),
        }
    }
}

/// Entries in order. Contracts see all of them; memory has them in a ledger that was begun to keep them, and the last alone in another.
pub struct Ledger<E> {
    chronicle: Chronicle<E>,
    writer: Writer<E>,
    last: Option<Mark<E>>,
    count: u64,
    ready: bool,
    memory: Memory<E>,
}

impl<E: Drop> Drop for Ledger<E> {
    fn drop(self) {
        let Ledger {
            chronicle: _chronicle,
            writer: _writer,
            last: _last,
            count: _,
            ready: _,
            memory: _memory,
        } = self;
    }
}

impl<E> Model for Ledger<E> {
    ghost use Rattle.std.specs.Prelude.{◌≡◌, ◌<◌, length, true};
    ghost use Rattle.chronicle.specs.Ledger.{LedgerData, ledger_coded, recorded};
    ghost use Rattle.chronicle.specs.Memory.{is_all, HasRoom, IsMarked, IsOf};

    ghost Value = { LedgerData E };

    ghost coded = { ledger_coded E.code };

    ghost view = { λ l. recorded l.writer.line (is_all l.memory) l.ready l.writer.entries };

    ghost invariant = { λ l. (l.writer.line.book ≡ l.chronicle) × IsMarked l.writer l.last × (l.count ≡ length l.writer.entries) × IsOf l.writer.entries l.memory × (l.ready ≡ true → (l.count < 18446744073709551615) × HasRoom l.memory) };
}

impl<E: Drop> Ledger<E> {
    /// One without entries, which memory is to have.
    pub fn kept(alloc: Global) -> Ledger<E>
        ensures { result ≡ recorded result.line true false [] }
    {
        Ledger::begin(Memory::All(Vec::new(alloc)))
    }

    /// One without entries, of which memory is to have the last.
    pub fn unkept() -> Ledger<E>
        ensures { result ≡ recorded result.line false false [] }
    {
        Ledger::begin(Memory::Last(None))
    }

    fn begin(memory: Memory<E>) -> Ledger<E>
        requires { IsOf [] memory }
        ensures { result ≡ recorded result.line (is_all memory) false [] }
    {
        let chronicle = Chronicle::new();
        let writer = chronicle.writer();
        Ledger {
            chronicle,
            writer,
            last: None,
            count: 0,
            ready: false,
            memory,
        }
    }

    /// Has memory keep all entries of this ledger, which has none yet.
    pub fn keep(self, alloc: Global) -> Ledger<E>
        requires { self.entries ≡ [] }
        ensures { result ≡ recorded self.line true false [] }
    {
        let Ledger {
            chronicle,
            writer,
            last,
            count,
            ready: _,
            memory,
        } = self;
        drop(memory);
        Ledger {
            chronicle,
            writer,
            last,
            count,
            ready: false,
            memory: Memory::All(Vec::new(alloc)),
        }
    }

    /// Whether memory has all entries.
    pub fn is_kept(&self) -> bool
        ensures { result ≡ self.now.kept }
    {
        matches!(&self.memory, Memory::All(_))
    }

    /// How many entries there are.
    pub fn len(&self) -> u64
        ensures { result ≡ length self.now.entries }
    {
        self.count
    }

    /// The entry at a place, where memory has it: of all, or of the last.
    pub fn at(&self, place: u64) -> Option<&E>
        ensures some { IfSome result (λ e. slice_get self.now.entries place ≡ Some e.now) }
        ensures kept { IfNone result (self.now.kept ≡ true → slice_get self.now.entries place ≡ None) }
        ensures unkept { IfNone result (self.now.kept ≡ false → place + 1 ≡ length self.now.entries → ⊥) }
    {
        match &self.memory {
            Memory::All(entries) => entries.get(place as usize),
            Memory::Last(Some(entry)) if place < self.count && place + 1 == self.count => {
                Some(entry)
            }
            Memory::Last(_) => None,
        }
    }

    /// Makes room for one entry more.
    pub fn reserve(&mut self) -> Result<(), AllocError>
        ensures line { self.new.line ≡ self.old.line }
        ensures kept { self.new.kept ≡ self.old.kept }
        ensures same { self.new.entries ≡ self.old.entries }
        ensures ready { OnOk result (self.new.ready ≡ true) }
    {
        if self.count == u64::MAX {
            return Err(AllocError);
        }
        if let Memory::All(entries) = &mut self.memory {
            entries.reserve(1)?;
        }
        self.ready = true;
        Ok(())
    }

    /// Adds an entry, for which there is room, and gives the mark of all entries up to it.
    pub fn push(&mut self, entry: E) -> Mark<E>
        requires ready { self.old.ready ≡ true }
        ensures added { self.new ≡ recorded self.old.line self.old.kept false (self.old.entries ++ entry ∷ []) }
        ensures mark { result ≡ written self.new.line self.new.entries }
    {
        let mark = self.writer.append(&self.chronicle, &entry);
        self.last = Some(mark.again());
        self.count += 1;
        self.ready = false;
        self.memory.add(entry);
        mark
    }

    /// The mark of all entries; none where there is none.
    pub fn mark(&self) -> Option<Mark<E>>
        ensures some { IfSome result (λ m. m ≡ written self.now.line self.now.entries) }
        ensures none { IfNone result (self.now.entries ≡ []) }
    {
        match &self.last {
            Some(mark) => Some(mark.again()),
            None => None,
        }
    }

    /// A mark of this line says the same as it of each place that both reach.
    pub fn agrees(&self, mark: &Mark<E>)
        requires line { mark.now.line ≡ self.now.line }
        ensures begins { length mark.now.entries ≤ length self.now.entries → IsPrefix mark.now.entries self.now.entries }
        ensures same { (place : ℕ) (one two : E) → Stands (written self.now.line self.now.entries) place one → Stands mark.now place two → one ≡ two }
    {
        self.writer.agrees(mark);
    }

    /// The entries, where memory has all of them.
    pub fn into_entries(self) -> Option<Vec<E>>
        ensures some { IfSome result (λ es. (self.kept ≡ true) × (es.items ≡ self.entries)) }
        ensures none { IfNone result (self.kept ≡ false) }
    {
        let Ledger {
            chronicle: _chronicle,
            writer: _writer,
            last: _last,
            count: _,
            ready: _,
            memory,
        } = self;
        match memory {
            Memory::All(entries) => Some(entries),
            Memory::Last(last) => {
                drop(last);
                None
            }
        }
    }
}
