//! What an index of several copies begins with.
ghost use Rattle.std.specs.Prelude.{◌≡◌, IfOk, string_bytes};

use cell::{IndexLabel, IndexName};
use chronicle::{Ledgers, Unnamed};
use doc::Mapping;
use journal::Deed;
use ruled::MasterEntry;
use std::alloc::{AllocError, Global};

/// An index of several copies before clauses name it: its name, its mapping, and the journals of its master and its copies, which have no entry yet.
#[derive(Drop)]
pub(crate) struct Founding {
    pub(crate) name: String,
    pub(crate) fields: Mapping,
    pub(crate) journals: Unnamed<Deed, MasterEntry>,
}

/// What an index of several copies begins with, under its name.
#[derive(Drop)]
pub(crate) struct Founded<J: IndexName> {
    pub(crate) label: IndexLabel<J>,
    pub(crate) ledgers: Ledgers<Deed, MasterEntry, J>,
}

impl Founding {
    pub(crate) fn of(alloc: Global, name: &str, fields: &Mapping) -> Result<Founding, AllocError>
        ensures name { IfOk result (λ f. string_bytes f.name ≡ name.now) }
        ensures fields { IfOk result (λ f. f.fields ≡ fields.now) }
    {
        let name = String::from_str(alloc, name)?;
        let fields = fields.copy(alloc)?;
        Ok(Founding {
            name,
            fields,
            journals: Unnamed::new(),
        })
    }

    pub(crate) fn named<J: IndexName>(self) -> Founded<J>
        requires registry { self.journals.registry ≡ J.registry }
        requires ledger { self.journals.ledger ≡ J.ledger }
        requires name { string_bytes self.name ≡ J.index.name }
        requires fields { self.fields ≡ J.index.mapping }
        ensures name { result.label.name ≡ string_bytes self.name }
        ensures fields { result.label.mapping ≡ self.fields }
    {
        let Founding {
            name,
            fields,
            journals,
        } = self;
        Founded {
            label: IndexLabel::of(name, fields),
            ledgers: journals.named(),
        }
    }
}
