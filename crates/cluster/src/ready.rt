//! Copies that are to be served.
ghost use Rattle.std.specs.Prelude.{◌≡◌, [], false, is_some, length, IfOk, IfErr, IfSome};
ghost use Rattle.cell.specs.Publishing.{IsBegun};
ghost use Rattle.cluster.specs.Opening.{ready};
ghost use Rattle.node.specs.Held.{journal};
ghost use Rattle.node.specs.Reading.{standing};

use crate::own::OwnCell;
use cell::{CopyCell, IndexName};
use chronicle::Registry;
use journal::{Deed, Opening};
use node::Held;
use replica::Copy;
use std::alloc::{AllocError, Global};
use std::marker::{Model, PhantomData};
use std::sync::Wait;
use translog::LogDevice;

/// A copy that is open and shows all of its records, as each does when it is opened; and what its journal begins with, where memory is to have that.
#[derive(Drop)]
pub(crate) struct Ready<D: LogDevice, J: IndexName> {
    copy: Copy<D>,
    opening: Option<Opening>,
    of: PhantomData<J>,
}

impl<D: LogDevice, J: IndexName> Model for Ready<D, J> {
    ghost use Rattle.std.specs.Prelude.{◌≡◌, false, is_some, length, IfSome};
    ghost use Rattle.cluster.specs.Opening.{ready, ReadyData};

    ghost Value = { ReadyData };

    ghost view = { λ r. ready (is_some r.opening) r.copy.copy };

    ghost invariant = { λ r. (r.copy.closed ≡ false) × (r.copy.copy.point ≡ length r.copy.copy.records) × IfSome r.opening (λ o. o ≡ r.copy.copy) × (r.copy.copy.mapping ≡ J.index.mapping) };
}

impl<D: LogDevice, J: IndexName> Ready<D, J> {
    pub(crate) fn of(copy: Copy<D>, opening: Option<Opening>) -> Ready<D, J>
        requires open { copy.closed ≡ false }
        requires whole { copy.copy.point ≡ length copy.copy.records }
        requires same { IfSome opening (λ o. o ≡ copy.copy) }
        requires mapping { copy.copy.mapping ≡ J.index.mapping }
        ensures { result ≡ ready (is_some opening) copy.copy }
    {
        Ready {
            copy,
            opening,
            of: PhantomData,
        }
    }

    /// The copy.
    pub(crate) fn copy(&self) -> &Copy<D>
        ensures { result.now.copy ≡ self.now.copy }
    {
        &self.copy
    }

    /// The copy with a journal that begins, among those of a cluster.
    pub(crate) fn registered(
        self,
        alloc: Global,
        registry: &mut Registry<Deed, J>,
    ) -> Result<Journaling<D, J>, AllocError>
        ensures { IfOk result (λ j. j.held ≡ journal self.kept self.copy []) }
    {
        let Ready {
            copy,
            opening,
            of: _,
        } = self;
        let held = match opening {
            Some(opening) => Held::new(alloc, opening, copy, registry),
            None => Held::unkept(copy, registry),
        };
        match held {
            Ok(held) => Ok(Journaling { held }),
            Err(copy) => {
                drop(copy);
                Err(AllocError)
            }
        }
    }
}

/// A copy that shows all of its records, with its journal, which has no entry.
#[derive(Drop)]
pub(crate) struct Journaling<D: LogDevice, J: IndexName> {
    pub(crate) held: Held<D, J>,
    pub(crate) ghost empty: { held.deeds ≡ [] },
    pub(crate) ghost whole: { (standing held).copy.point ≡ length (standing held).copy.records },
    pub(crate) ghost under: { (standing held).copy.mapping ≡ J.index.mapping },
}

impl<D: LogDevice, J: IndexName> Journaling<D, J> {
    /// The copy with what searches see of it; without memory for that it is given back.
    pub(crate) fn begin<R: Wait + Drop>(
        self,
        rt: R,
        alloc: Global,
    ) -> Result<OwnCell<R, D, J>, Held<D, J>>
        ensures begun { IfOk result (IsBegun self.held) }
        ensures refused { IfErr result (λ h. h ≡ self.held) }
    {
        match CopyCell::begin(&rt, alloc, self.held) {
            Ok(cell) => Ok(OwnCell::new(rt, alloc, cell)),
            Err(held) => {
                drop(rt);
                Err(held)
            }
        }
    }
}
