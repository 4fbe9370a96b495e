//! Places of the journals of a cluster's copies.
ghost use Rattle.std.specs.Prelude.{◌≡◌, [], length, IsFalse, IsTrue, IfNone, IfSome};
ghost use Rattle.chronicle.specs.Registered.{prefix};
ghost use Rattle.cell.specs.Points.{point_of, IsPoint, IsPointSince, IsShownBehind};
ghost use Rattle.node.specs.Heard.{IsEarlier};

use chronicle::RegistryName;
use node::{Began, Heard};
use published::Place;
use std::marker::{Model, PhantomData};

/// A place of a copy's journal, which is one of a cluster. Contracts see the copy's number, the entries before the place, and the records that the copy has
/// there.
pub struct JournalPoint<J: RegistryName> {
    place: Place,
    of: PhantomData<J>,
}

impl<J: RegistryName> Drop for JournalPoint<J> {
    fn drop(self) {
        let JournalPoint {
            place: _place,
            of: _,
        } = self;
    }
}

impl<J: RegistryName> Model for JournalPoint<J> {
    ghost use Rattle.std.specs.Prelude.{◌≡◌};
    ghost use Rattle.cell.specs.Points.{point_of, PointData};

    ghost Value = { PointData };

    ghost view = { λ p. point_of p.place };

    ghost invariant = { λ p. p.place.registry ≡ J.registry };
}

impl<J: RegistryName> JournalPoint<J> {
    pub(crate) fn of(place: Place) -> JournalPoint<J>
        requires { place.registry ≡ J.registry }
        ensures { result ≡ point_of place }
    {
        JournalPoint {
            place,
            of: PhantomData,
        }
    }

    /// The number of the copy.
    pub fn node(&self) -> u32
        ensures is { result ≡ self.now.node }
        ensures stands { IsPoint self.now }
    {
        self.place.node()
    }

    /// How many entries stand before it.
    pub fn entries(&self) -> u64
        ensures { result ≡ length self.now.deeds }
    {
        self.place.entries()
    }

    /// What the copy was when its journal began.
    #[tactic(auto, using(crate::proofs::Pointing::one_began, crate::proofs::Pointing::began_sound, crate::proofs::Pointing::began_node, crate::proofs::Pointing::began_since))]
    pub fn began(&self) -> Began<J>
        ensures { IsPointSince result self.now }
    {
        Began::of(self.place.node(), self.place.beginning().again())
    }

    /// What it says of the journal, where that had entries.
    #[tactic(auto, using(crate::proofs::Pointing::is_journal))]
    pub fn heard(&self) -> Option<Heard<J>>
        ensures some { IfSome result (λ h. h ≡ prefix self.now.node self.now.deeds) }
        ensures none { IfNone result (self.now.deeds ≡ []) }
    {
        let node = self.place.node();
        let entries = self.place.entries();
        match self.place.upto().named::<J>() {
            Some(upto) if entries > 0 => Some(Heard::of(node, entries - 1, upto)),
            _ => None,
        }
    }

    /// Whether it is of another copy's journal, or after all of these entries.
    pub fn is_behind(&self, heard: &Heard<J>) -> bool
        ensures behind { IsTrue result → IsShownBehind heard.now self.now }
        ensures earlier { IsFalse result → IsEarlier heard.now self.now.node self.now.deeds }
    {
        if heard.node() != self.place.node() {
            return true;
        }
        match self.place.upto().named::<J>() {
            Some(upto) => heard.is_within(&upto, self.place.entries()),
            None => heard.place() < self.place.entries(),
        }
    }
}
