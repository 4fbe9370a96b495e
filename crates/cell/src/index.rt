//! The index of which copies are.
ghost use Rattle.std.specs.Prelude.{◌≡◌, string_bytes};

use chronicle::RegistryName;
use doc::Mapping;
use std::marker::{Brand, Model, PhantomData};

/// Which index it is: its name and its mapping, next to the registry of its copies' journals. A call of a program picks it by `Brand`.
pub trait IndexName: RegistryName {
    ghost use Rattle.cell.specs.Index.{IndexData};

    ghost index: { IndexData };
}

impl IndexName for Brand {
    ghost use Rattle.std.specs.Prelude.{[], false};

    ghost index = { record { name = []; mapping = record { strict = false; fields = [] } } };
}

/// The name and the mapping of an index. Contracts see both, and that they are those of this index.
pub struct IndexLabel<J: IndexName> {
    name: String,
    mapping: Mapping,
    of: PhantomData<J>,
}

impl<J: IndexName> Drop for IndexLabel<J> {
    fn drop(self) {
        let IndexLabel {
            name: _name,
            mapping: _mapping,
            of: _,
        } = self;
    }
}

impl<J: IndexName> Model for IndexLabel<J> {
    ghost use Rattle.std.specs.Prelude.{◌≡◌, string_bytes};
    ghost use Rattle.cell.specs.Index.{IndexData};

    ghost Value = { IndexData };

    ghost view = { λ l. record { name = string_bytes l.name; mapping = l.mapping } };

    ghost invariant = { λ l. (string_bytes l.name ≡ J.index.name) × (l.mapping ≡ J.index.mapping) };
}

impl<J: IndexName> IndexLabel<J> {
    pub fn of(name: String, mapping: Mapping) -> IndexLabel<J>
        requires name { string_bytes name ≡ J.index.name }
        requires mapping { mapping ≡ J.index.mapping }
        ensures name { result.name ≡ string_bytes name }
        ensures mapping { result.mapping ≡ mapping }
    {
        IndexLabel {
            name,
            mapping,
            of: PhantomData,
        }
    }

    pub fn name(&self) -> &str
        ensures is { result.now ≡ self.now.name }
        ensures index { result.now ≡ J.index.name }
    {
        self.name.as_str()
    }

    pub fn mapping(&self) -> &Mapping
        ensures is { result.now ≡ self.now.mapping }
        ensures index { result.now ≡ J.index.mapping }
    {
        &self.mapping
    }
}
