//! Which hits of a search are wanted.
ghost use Rattle.std.specs.Prelude.{◌≡◌, ◌+◌, ◌≤◌, IfErr};
ghost use Rattle.doc.specs.Outcome.{Gives};
ghost use Rattle.query.specs.declared.fault.QueryFault.TheVariants.{WindowTooLarge};
ghost use Rattle.query.specs.Body.{page_of};
ghost use Rattle.query.specs.Fault.{fault_of};

use crate::fault::QueryFault;
use std::marker::Model;

/// How far into the hits a page may reach.
pub const MAX_WINDOW: u64 = 10_000;

/// A part of the hits: those after the first `from`, at most `size` of them; it ends within the first 10,000.
#[derive(Clone, Copy, Debug, PartialEq, Eq)]
pub struct Page {
    from: u64,
    size: u64,
}

impl Model for Page {
    ghost use Rattle.query.specs.Page.{PageData, IsPage};

    ghost Value = { PageData };

    ghost view = { λ p. record { from = p.from; size = p.size } };

    ghost inverse = { λ p. record { from = p.from; size = p.size } };

    ghost invariant = { λ p. IsPage (record { from = p.from; size = p.size }) };
}

impl Page {
    /// Refused as `WindowTooLarge` where `from` plus `size` is above 10,000. Takes no memory.
    pub fn new(from: u64, size: u64) -> Result<Page, QueryFault>
        ensures page { Gives fault_of (λ p. p) result (page_of from size) }
        ensures refused { IfErr result (λ e. e ≡ WindowTooLarge) }
    {
        if from > MAX_WINDOW || size > MAX_WINDOW - from {
            return Err(QueryFault::WindowTooLarge);
        }
        Ok(Page { from, size })
    }

    /// How many hits are passed over.
    pub fn from(&self) -> u64
        ensures same { result ≡ self.now.from }
        ensures within { result ≤ 10000 }
    {
        self.from
    }

    /// How many hits are wanted at most.
    pub fn size(&self) -> u64
        ensures same { result ≡ self.now.size }
        ensures within { result ≤ 10000 }
    {
        self.size
    }
}
