//! That a ledger is one of a registry.
ghost use Rattle.std.specs.Prelude.{◌≡◌};
ghost use Rattle.chronicle.specs.Registered.{last_seat, AreRising, IsAny};

use crate::mark::Mark;
use crate::name::RegistryName;
use crate::registry::Numbered;
use std::marker::{Model, PhantomData};

/// That a ledger is one of a registry. Contracts see its number and its line.
pub(crate) struct Seat<E, N: RegistryName> {
    mark: Mark<Numbered<E>>,
    of: PhantomData<N>,
}

impl<E, N: RegistryName> Drop for Seat<E, N> {
    fn drop(self) {
        let Seat { mark: _mark, of: _ } = self;
    }
}

impl<E, N: RegistryName> Model for Seat<E, N> {
    ghost use Rattle.std.specs.Prelude.{◌≡◌};
    ghost use Rattle.chronicle.specs.Registered.{last_seat, seat_coded, AreRising, IsAny, SeatData};

    ghost Value = { SeatData };

    ghost coded = { seat_coded };

    ghost view = { λ s. last_seat s.mark.entries };

    ghost invariant = { λ s. (s.mark.line ≡ N.registry) × AreRising s.mark.entries × IsAny s.mark.entries };
}

impl<E, N: RegistryName> Seat<E, N> {
    pub(crate) fn of(mark: Mark<Numbered<E>>) -> Seat<E, N>
        requires line { mark.line ≡ N.registry }
        requires rising { AreRising mark.entries }
        requires any { IsAny mark.entries }
        ensures { result ≡ last_seat mark.entries }
    {
        Seat {
            mark,
            of: PhantomData,
        }
    }

    /// A copy that is equal to this one.
    pub(crate) fn again(&self) -> Seat<E, N>
        ensures { result ≡ self.now }
    {
        Seat {
            mark: self.mark.again(),
            of: PhantomData,
        }
    }

    /// The mark that it is.
    pub(crate) fn mark(&self) -> &Mark<Numbered<E>>
        ensures line { result.now.line ≡ N.registry }
        ensures rising { AreRising result.now.entries }
        ensures any { IsAny result.now.entries }
        ensures same { last_seat result.now.entries ≡ self.now }
    {
        &self.mark
    }

    /// Under one number there is one ledger.
    pub(crate) fn agrees(&self, other: &Seat<E, N>)
        requires { other.now.number ≡ self.now.number }
        ensures { other.now ≡ self.now }
    {
        self.mark.agrees(&other.mark);
        other.mark.agrees(&self.mark);
    }
}
