//! The rule of the list, and the steps that it is changed by. These types are for the proofs alone.

use logbook::{Gain, Pen, Plain, Play, Rule, Word};
use std::marker::PhantomData;
use std::snapshot::Snapshot;

/// An entry of the list: its line, the right that it was written by, the right that its writer has next, and what was written. No value of it is made.
pub struct Noted<E> {
    pub first: u64,
    pub right: u64,
    pub next: u64,
    pub what: Option<E>,
}

/// The rule of the list.
pub struct Law;

impl<E> Rule<Noted<E>, u64> for Law {
    ghost use Rattle.std.specs.Prelude.{[]};
    ghost use base.Fml.{ftrue};
    ghost use Rattle.chronicle.specs.Log.{IsKept};

    ghost holds = { λ cells log. IsKept cells log };

    ghost first = { [] };

    ghost hinted = { λ n log. Unit {0} };

    ghost shows = { λ log. [] };

    ghost keeps = { λ names log. ftrue };

    ghost moves = { λ ask before after answer. Unit {0} };
}

/// Callers trade nothing.
pub struct Nothing;

impl<E> Gain<Noted<E>, u64> for Nothing {
    ghost use base.Fml.{ftrue};

    ghost after = { λ names about answer. ftrue };
}

/// A step that makes a right.
pub struct Make;

impl<E> Play<Noted<E>, u64> for Make {
    ghost use Rattle.chronicle.specs.Log.{Makes};

    ghost then = { Makes };
}

/// A step that adds no entry asks for none.
impl<E> Plain<(), Noted<E>, u64> for Make {
    ghost use Rattle.std.specs.Prelude.{None};
    ghost use Rattle.chronicle.specs.Log.{noted};

    ghost ask = { λ d. noted 0 0 0 None };

    ghost state = { λ d. None };
}

/// A step that looks whether a right was used.
pub struct Look;

impl<E> Play<Noted<E>, u64> for Look {
    ghost use Rattle.chronicle.specs.Log.{Looks};

    ghost then = { Looks };
}

/// A step that uses a right to add an entry.
pub struct Write;

impl<E> Play<Noted<E>, u64> for Write {
    ghost use Rattle.chronicle.specs.Log.{Writes};

    ghost then = { Writes };
}

/// What the entry is written for, the right that it is written by, and the words of its writer's first and next rights.
#[derive(Drop)]
pub struct Draft<E, S> {
    pub first: Snapshot<Word<Noted<E>, u64, Law>>,
    pub right: Snapshot<Pen>,
    pub next: Snapshot<Word<Noted<E>, u64, Law>>,
    pub what: Snapshot<S>,
}

/// What a value is written as.
pub trait Means<S, E> {
    ghost means: { S → E };
}

/// A value is written as itself.
pub struct Same;

impl<E> Means<E, E> for Same {
    ghost means = { λ e. e };
}

/// A step that uses a right to add what a value is written as.
pub struct WriteAs<M> {
    _as: PhantomData<M>,
}

impl<E, S, M: Means<S, E>> Plain<Draft<E, S>, Noted<E>, u64> for WriteAs<M> {
    ghost use Rattle.std.specs.Prelude.{None, Some};
    ghost use Rattle.chronicle.specs.Log.{noted};

    ghost ask = { λ d. noted d.first.value.key d.right.value.nib.key d.next.value.key (Some (M.means d.what.value)) };

    ghost state = { λ d. None };
}
