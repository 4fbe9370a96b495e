//! Ledgers of one owner, each of which has a number that tells it from the others at run time.
ghost use Rattle.std.specs.Prelude.{◌≡◌, ◌<◌, ◌≤◌, ◌++◌, ◌∷◌, [], IfOk, IfErr};
ghost use Rattle.chronicle.specs.Registered.{last_seat, registered};

use crate::chronicle::Chronicle;
use crate::law::Means;
use crate::ledger::Ledger;
use crate::mark::Mark;
use crate::name::RegistryName;
use crate::named::Blank;
use crate::registered::Registered;
use crate::seat::Seat;
use crate::writer::Writer;
use logbook::Pen;
use std::marker::{Model, PhantomData};

/// A ledger with its number, and the line that says what it began with. No value of it is made.
pub struct Numbered<E> {
    pub number: u32,
    pub ledger: Ledger<E>,
    pub first: LineName,
}

/// A line, for clauses alone. No value of it is made.
pub struct LineName {
    pen: Pen,
}

impl Model for LineName {
    ghost use Rattle.chronicle.specs.Written.{line, line_coded, Line};

    ghost Value = { Line };

    ghost coded = { line_coded };

    ghost view = { λ n. line n.pen.book n.pen.nib.key };
}

/// A ledger that is to have a number, and what it is to begin with.
#[derive(Drop)]
struct Entering<E, B> {
    number: u32,
    ledger: Ledger<E>,
    first: Mark<B>,
}

/// How it is registered.
struct Registers;

impl<E, B> Means<Entering<E, B>, Numbered<E>> for Registers {
    ghost means = { λ e. record { number = e.number; ledger = e.ledger; first = e.first.line } };
}

/// A registry and the ledger next to it, which have no name yet. Contracts see which they are.
pub struct Unnamed<E, F> {
    chronicle: Chronicle<Numbered<E>>,
    writer: Writer<Numbered<E>>,
    ledger: Ledger<F>,
}

impl<E, F: Drop> Drop for Unnamed<E, F> {
    fn drop(self) {
        let Unnamed {
            chronicle: _chronicle,
            writer: _writer,
            ledger: _ledger,
        } = self;
    }
}

impl<E, F> Model for Unnamed<E, F> {
    ghost use Rattle.std.specs.Prelude.{◌≡◌, [], false};
    ghost use Rattle.chronicle.specs.Ledger.{recorded};
    ghost use Rattle.chronicle.specs.Registered.{names, names_coded, NamesData};

    ghost Value = { NamesData };

    ghost coded = { names_coded };

    ghost view = { λ u. names u.writer.line u.ledger.line };

    ghost invariant = { λ u. (u.writer.line.book ≡ u.chronicle) × (u.writer.entries ≡ []) × (u.ledger ≡ recorded u.ledger.line false false []) };
}

impl<E, F: Drop> Unnamed<E, F> {
    /// New ones, that are empty.
    pub fn new() -> Unnamed<E, F> {
        let chronicle = Chronicle::new();
        let writer = chronicle.writer();
        Unnamed {
            chronicle,
            writer,
            ledger: Ledger::unkept(),
        }
    }

    /// The registry and the ledger, under their name.
    pub fn named<N: RegistryName>(self) -> Ledgers<E, F, N>
        requires registry { self.registry ≡ N.registry }
        requires ledger { self.ledger ≡ N.ledger }
        ensures { result.registry ≡ [] }
    {
        let Unnamed {
            chronicle,
            writer,
            ledger,
        } = self;
        Ledgers {
            registry: Registry {
                chronicle,
                writer,
                last: 0,
                of: PhantomData,
            },
            blank: Blank::of(ledger),
        }
    }
}

/// The ledgers of one owner, under its name: the registry for those that have numbers, and the one next to it, which has no entries yet.
#[derive(Drop)]
pub struct Ledgers<E, F, N: RegistryName> {
    pub registry: Registry<E, N>,
    pub blank: Blank<F, N>,
}

/// The ledgers of one owner. Contracts see each as it was when it was registered. Whoever has it alone can add one.
pub struct Registry<E, N: RegistryName> {
    chronicle: Chronicle<Numbered<E>>,
    writer: Writer<Numbered<E>>,
    last: u32,
    of: PhantomData<N>,
}

impl<E, N: RegistryName> Drop for Registry<E, N> {
    fn drop(self) {
        let Registry {
            chronicle: _chronicle,
            writer: _writer,
            last: _,
            of: _,
        } = self;
    }
}

impl<E, N: RegistryName> Model for Registry<E, N> {
    ghost use Rattle.std.specs.Prelude.{◌≡◌, List};
    ghost use base.Stored.{coded_list};
    ghost use Rattle.chronicle.specs.declared.registry.Numbered.{Numbered};
    ghost use Rattle.chronicle.specs.Registered.{last_seat, AreRising};

    ghost Value = { List (Numbered E) };

    ghost view = { λ r. r.writer.entries };

    ghost invariant = { λ r. (r.writer.line ≡ N.registry) × (N.registry.book ≡ r.chronicle) × AreRising r.writer.entries × (r.last ≡ (last_seat r.writer.entries).number) };
}

impl<E: Drop, N: RegistryName> Registry<E, N> {
    /// Registers a ledger under a number that is greater than those of all before it, and with it a mark that says what it begins with; else it is given
    /// back.
    pub fn add<B>(
        &mut self,
        number: u32,
        ledger: Ledger<E>,
        first: &Mark<B>,
    ) -> Result<Registered<E, N>, Ledger<E>>
        ensures added { IfOk result (λ r. (r ≡ registered number first.now.line ledger) × (self.new ≡ self.old ++ record { number = number; ledger = ledger; first = first.now.line } ∷ [])) }
        ensures last { IfOk result (λ r. (last_seat self.new).number ≡ number) }
        ensures above { IfOk result (λ r. (last_seat self.old).number < number) }
        ensures taken { IfErr result (λ l. (l ≡ ledger) × (self.new ≡ self.old) × (number ≤ (last_seat self.old).number)) }
    {
        if number <= self.last {
            return Err(ledger);
        }
        let entering = Entering {
            number,
            ledger,
            first: first.again(),
        };
        let mark = self
            .writer
            .append_as::<Entering<E, B>, Registers>(&self.chronicle, &entering);
        self.last = number;
        let Entering {
            number,
            ledger,
            first: _first,
        } = entering;
        Ok(Registered::of(Seat::of(mark), number, ledger))
    }
}
