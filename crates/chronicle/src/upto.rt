//! What tells for good what a ledger of some registry has.
ghost use Rattle.std.specs.Prelude.{◌≡◌, [], IfNone, IfSome};
ghost use Rattle.chronicle.specs.Registered.{entries_of, last_seat, prefix, upto, AreRising, IsAny};

use crate::mark::Mark;
use crate::name::RegistryName;
use crate::prefix::Prefix;
use crate::registry::Numbered;
use crate::seat::Seat;
use std::marker::Model;

/// The first entries of a ledger of a registry, without the name of that. Contracts see which registry it is, the ledger's number and the entries.
pub struct Upto<E> {
    seat: Mark<Numbered<E>>,
    mark: Option<Mark<E>>,
}

impl<E> Drop for Upto<E> {
    fn drop(self) {
        let Upto {
            seat: _seat,
            mark: _mark,
        } = self;
    }
}

impl<E> Model for Upto<E> {
    ghost use Rattle.std.specs.Prelude.{◌≡◌, IfSome};
    ghost use Rattle.chronicle.specs.Registered.{entries_of, last_seat, upto, AreRising, IsAny, UptoData};

    ghost Value = { UptoData E };

    ghost view = { λ u. upto u.seat.line (last_seat u.seat.entries).number (entries_of u.mark) };

    ghost invariant = { λ u. AreRising u.seat.entries × IsAny u.seat.entries × IfSome u.mark (λ m. m.line ≡ (last_seat u.seat.entries).line) };
}

impl<E> Upto<E> {
    pub(crate) fn of(seat: Mark<Numbered<E>>, mark: Option<Mark<E>>) -> Upto<E>
        requires rising { AreRising seat.entries }
        requires any { IsAny seat.entries }
        requires line { IfSome mark (λ m. m.line ≡ (last_seat seat.entries).line) }
        ensures { result ≡ upto seat.line (last_seat seat.entries).number (entries_of mark) }
    {
        Upto { seat, mark }
    }

    /// A copy that is equal to this one.
    pub fn again(&self) -> Upto<E>
        ensures { result ≡ self.now }
    {
        Upto::of(self.seat.again(), again(&self.mark))
    }

    /// The entries under the name of the registry; nothing where there is none.
    pub fn named<N: RegistryName>(&self) -> Option<Prefix<E, N>>
        requires { self.now.registry ≡ N.registry }
        ensures some { IfSome result (λ p. p ≡ prefix self.now.number self.now.entries) }
        ensures none { IfNone result (self.now.entries ≡ []) }
    {
        match &self.mark {
            Some(mark) => Some(Prefix::of(Seat::of(self.seat.again()), mark.again())),
            None => None,
        }
    }
}

/// A copy of a mark, if there is one.
fn again<E>(mark: &Option<Mark<E>>) -> Option<Mark<E>>
    ensures { result ≡ mark.now }
{
    match mark {
        Some(mark) => Some(mark.again()),
        None => None,
    }
}
