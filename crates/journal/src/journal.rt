//! What nodes were asked, and what they answered.

use crate::opening::Opening;
use master::{Decision, MasterFault, Request, State};
use replica::{CopyFault, Input, Output};
use std::marker::Model;

/// One call of a copy: the number of the pass that made it, what was asked, and what was answered.
#[derive(Drop)]
pub struct Deed {
    pub pass: u64,
    pub input: Input,
    pub answer: Result<Output, CopyFault>,
}

/// The calls of a copy, in order.
pub struct Deeds {
    items: Vec<Deed>,
}

impl Drop for Deeds {
    fn drop(self) {
        let Deeds { items: _items } = self;
    }
}

impl Model for Deeds {
    ghost use Rattle.std.specs.Prelude.{List};
    ghost use Rattle.journal.specs.declared.journal.Deed.{Deed};

    ghost Value = { List Deed };

    ghost view = { λ d. d.items.items };
}

impl Deeds {
    ghost use Rattle.std.specs.Prelude.{◌≡◌};

    /// The calls of a `Vec`.
    pub fn from_vec(items: Vec<Deed>) -> Deeds
        ensures { result ≡ items.items }
    {
        Deeds { items }
    }

    pub fn as_slice(&self) -> &[Deed]
        ensures { result.now ≡ self.now }
    {
        self.items.as_slice()
    }
}

/// One call of the master.
#[derive(Drop)]
pub struct Ruling {
    pub pass: u64,
    pub request: Request,
    pub answer: Result<Decision, MasterFault>,
}

/// The calls of the master, in order.
pub struct Rulings {
    items: Vec<Ruling>,
}

impl Drop for Rulings {
    fn drop(self) {
        let Rulings { items: _items } = self;
    }
}

impl Model for Rulings {
    ghost use Rattle.std.specs.Prelude.{List};
    ghost use Rattle.journal.specs.declared.journal.Ruling.{Ruling};

    ghost Value = { List Ruling };

    ghost view = { λ r. r.items.items };
}

impl Rulings {
    ghost use Rattle.std.specs.Prelude.{◌≡◌};

    /// The calls of a `Vec`.
    pub fn from_vec(items: Vec<Ruling>) -> Rulings
        ensures { result ≡ items.items }
    {
        Rulings { items }
    }

    pub fn as_slice(&self) -> &[Ruling]
        ensures { result.now ≡ self.now }
    {
        self.items.as_slice()
    }
}

/// What a node was at its beginning, and its calls.
#[derive(Drop)]
pub enum Journal {
    OfMaster(State, Rulings),
    OfCopy(Opening, Deeds),
}
