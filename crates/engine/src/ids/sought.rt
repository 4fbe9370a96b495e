//! Ids that are looked for in many places.
ghost use Rattle.std.specs.Prelude.{◌≡◌, IfOk};
ghost use Rattle.engine.specs.IdFilter.{hash_from};

use crate::ids::id_filter::number_of;
use doc::DocId;
use std::alloc::{AllocError, Global};
use std::marker::Model;

/// An id that is looked for, with the number by which filters have its bit. The number is reckoned once.
#[derive(Drop)]
pub(crate) struct Sought<'a> {
    id: &'a DocId,
    number: u64,
}

impl<'a> Model for Sought<'a> {
    ghost use Rattle.std.specs.Prelude.{◌≡◌};
    ghost use Rattle.doc.specs.Id.{Id};
    ghost use Rattle.engine.specs.IdFilter.{hash_from};

    ghost Value = { Id };

    ghost view = { λ s. s.id.now };

    ghost invariant = { λ s. s.number ≡ hash_from 0 s.id.now };
}

impl<'a> Sought<'a> {
    fn of(id: &'a DocId) -> Sought<'a>
        ensures { result ≡ id.now }
    {
        let number = number_of(id);
        Sought { id, number }
    }

    /// The id.
    pub(crate) fn id(&self) -> &DocId
        ensures { result.now ≡ self.now }
    {
        self.id
    }

    /// Its number.
    pub(crate) fn number(&self) -> u64
        ensures { result ≡ hash_from 0 self.now }
    {
        self.number
    }
}

/// Ids, each with its number.
pub(crate) fn sought_of<'a>(alloc: Global, ids: &'a [DocId]) -> Result<Vec<Sought<'a>>, AllocError>
    ensures { IfOk result (λ v. v.items ≡ ids.now) }
{
    let mut all = Vec::with_capacity(alloc, ids.len())?;
    for id in ids {
        all.push(Sought::of(id))?;
    }
    Ok(all)
}
