//! The rule of what is published: it comes after all that is known anywhere, and no one goes back.
ghost use Rattle.std.specs.Prelude.{[], ◌++◌};
ghost use Rattle.published.specs.Rule.{Keeps, Sees as sees};

use crate::latest::Latest;
use crate::listing::Published;
use atomic_table::{Join, Split};
use crossbeam_utils::rule::{Outcome, Protocol};

/// What one side knows: lists that were published. No value of it is made.
pub type Known = [Published; 0];

/// The rule.
pub struct Shows;

impl Protocol<Latest, Known> for Shows {
    ghost holds = { Keeps };

    ghost first = { [] };
}

/// A publish, and a reader's look.
pub struct Sees;

impl Outcome<Latest, Known> for Sees {
    ghost then = { sees };
}

/// The writer tells what it knows, and keeps it.
pub struct Tells;

impl Split<Known> for Tells {
    ghost left = { λ known. known };

    ghost right = { λ known. known };
}

/// A reader learns what was told.
pub struct Learns;

impl Join<Known> for Learns {
    ghost both = { λ known told. known ++ told };

    ghost spent = { [] };
}
