//! What nodes did, as their journals say.
ghost use Rattle.std.specs.Prelude.{◌≡◌};

use master::Request;
use replica::Input;
use std::marker::Model;

/// One thing that a node did: a request that the master decided, an input that a copy took, and one whose append was cut, with its record
/// kept or not.
#[derive(Drop)]
pub enum Move {
    Asks(Request),
    Does(Input),
    Tears(Input, bool),
}

/// A move, and the place of its first entry.
#[derive(Drop)]
pub struct Placed {
    pub place: u64,
    pub what: Move,
}

/// What one node did, in order.
#[derive(Drop)]
pub struct Part {
    items: Vec<Placed>,
}

impl Model for Part {
    ghost use Rattle.std.specs.Prelude.{List};
    ghost use Rattle.journal.specs.declared.moves.Placed.{Placed};

    ghost Value = { List Placed };

    ghost view = { λ a. a.items.items };
}

impl Part {
    pub fn from_vec(items: Vec<Placed>) -> Part
        ensures { result ≡ items.items }
    {
        Part { items }
    }

    pub fn as_slice(&self) -> &[Placed]
        ensures { result.now ≡ self.now }
    {
        self.items.as_slice()
    }
}
