//! Places of copies' journals, with what a copy has there.
ghost use Rattle.std.specs.Prelude.{◌≡◌, length};
ghost use Rattle.chronicle.specs.Registered.{upto};
ghost use Rattle.published.specs.Places.{place_at, IsStanding, IsStandingSince};

use crate::shown_records::ShownRecords;
use chronicle::{Beginning, Upto};
use journal::{Deed, Opening};
use std::marker::Model;

/// A place of a copy's journal. Contracts see which registry the journal is of, the copy's number, the entries before the place and the records that the
/// copy has there.
pub struct Place {
    node: u32,
    entries: u64,
    records: ShownRecords,
    upto: Upto<Deed>,
    beginning: Beginning<Opening, Deed>,
}

impl Drop for Place {
    fn drop(self) {
        let Place {
            node: _,
            entries: _,
            records: _records,
            upto: _upto,
            beginning: _beginning,
        } = self;
    }
}

impl Model for Place {
    ghost use Rattle.std.specs.Prelude.{◌≡◌, length};
    ghost use Rattle.published.specs.Places.{place_at, IsStanding, IsStandingSince, PlaceData};

    ghost Value = { PlaceData };

    ghost view = { λ p. place_at p.upto.registry p.node p.upto.entries p.records };

    ghost invariant = { λ p. (p.upto.number ≡ p.node) × (p.entries ≡ length p.upto.entries) × IsStanding p.node p.upto.entries p.records × (p.beginning.registry ≡ p.upto.registry) × (p.beginning.number ≡ p.node) × IsStandingSince p.beginning.entries p.node p.upto.entries p.records };
}

impl Place {
    /// This many entries stand before it.
    pub fn of(
        node: u32,
        entries: u64,
        records: ShownRecords,
        upto: Upto<Deed>,
        beginning: Beginning<Opening, Deed>,
    ) -> Place
        requires number { upto.number ≡ node }
        requires entries { entries ≡ length upto.entries }
        requires standing { IsStanding node upto.entries records }
        requires beginning { (beginning.registry ≡ upto.registry) × (beginning.number ≡ node) }
        requires since { IsStandingSince beginning.entries node upto.entries records }
        ensures { result ≡ place_at upto.registry node upto.entries records }
    {
        Place {
            node,
            entries,
            records,
            upto,
            beginning,
        }
    }

    /// A duplicate.
    pub fn again(&self) -> Place
        ensures { result ≡ self.now }
    {
        Place {
            node: self.node,
            entries: self.entries,
            records: self.records.again(),
            upto: self.upto.again(),
            beginning: self.beginning.again(),
        }
    }

    /// The number of the copy.
    pub fn node(&self) -> u32
        ensures is { result ≡ self.now.node }
        ensures standing { IsStanding self.now.node self.now.deeds self.now.records }
    {
        self.node
    }

    /// How many entries stand before it.
    pub fn entries(&self) -> u64
        ensures { result ≡ length self.now.deeds }
    {
        self.entries
    }

    /// The entries before it.
    pub fn upto(&self) -> &Upto<Deed>
        ensures { result.now ≡ upto self.now.registry self.now.node self.now.deeds }
    {
        &self.upto
    }

    /// What the copy was when its journal began.
    pub fn beginning(&self) -> &Beginning<Opening, Deed>
        ensures is { (result.now.registry ≡ self.now.registry) × (result.now.number ≡ self.now.node) }
        ensures since { IsStandingSince result.now.entries self.now.node self.now.deeds self.now.records }
    {
        &self.beginning
    }
}
