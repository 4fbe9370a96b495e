//! What a copy is when its journal begins.
ghost use Rattle.std.specs.Prelude.{◌≡◌, ◌↔◌, [], IsTrue};
ghost use Rattle.doc.specs.Mapping.{MappingData};
ghost use Rattle.replica.specs.Copy.{begun, opened};
ghost use Rattle.journal.specs.Opening.{born};

use doc::Mapping;
use op::Record;
use replica::Birth;
use std::marker::Model;

/// How a copy begins: as one of the copies that a new index begins with, or with the records that its log keeps.
#[derive(Drop)]
pub enum Beginning {
    New(u32, u32, Mapping),
    Kept(u32, Birth, Mapping, Vec<Record>),
}

/// A copy as it is when its journal begins.
pub struct Opening {
    beginning: Beginning,
}

impl Drop for Opening {
    fn drop(self) {
        let Opening {
            beginning: _beginning,
        } = self;
    }
}

impl Model for Opening {
    ghost use Rattle.replica.specs.Copy.{Copy};
    ghost use Rattle.journal.specs.Opening.{begins};

    ghost Value = { Copy };

    ghost view = { λ o. begins o.beginning };
}

impl Opening {
    /// That of a copy of a new index, which begins with `copies` copies.
    pub fn begun(id: u32, copies: u32, mapping: Mapping) -> Opening
        ensures { result ≡ begun id copies mapping }
    {
        Opening {
            beginning: Beginning::New(id, copies, mapping),
        }
    }

    /// That of a copy that opens with these records.
    pub fn opened(id: u32, birth: Birth, mapping: Mapping, records: Vec<Record>) -> Opening
        ensures { result ≡ opened id birth mapping records.items }
    {
        Opening {
            beginning: Beginning::Kept(id, birth, mapping, records),
        }
    }

    /// The mapping that the copy is under.
    pub fn mapping(&self) -> &Mapping
        ensures { result.now ≡ self.now.mapping }
    {
        match &self.beginning {
            Beginning::New(_, _, mapping) => mapping,
            Beginning::Kept(_, _, mapping, _) => mapping,
        }
    }

    /// Whether the copy begins as node does in an index of `copies` copies under this mapping.
    #[tactic(auto, using(crate::proofs::Begun::born_mapping))]
    pub fn is_node(&self, mapping: &Mapping, copies: u32, node: u32) -> bool
        ensures { IsTrue result ↔ (self.now ≡ born mapping.now copies node) }
    {
        self.mapping().is(mapping) && self.is_born(copies, node)
    }

    /// Whether it is that of the copy with this id of a new index of `copies` copies, or of one that the id was given to later.
    pub fn is_born(&self, copies: u32, node: u32) -> bool
        ensures { IsTrue result ↔ (self.now ≡ born self.now.mapping copies node) }
    {
        match &self.beginning {
            Beginning::New(id, all, _) => is_born_new(*id, *all, copies, node),
            Beginning::Kept(id, birth, _, records) => {
                records.is_empty() && is_born_kept(*id, *birth, copies, node)
            }
        }
    }
}

/// Of the copies of a new index only the first one says how many there are.
fn is_born_new(id: u32, all: u32, copies: u32, node: u32) -> bool
    ensures { (m : MappingData) → IsTrue result ↔ (begun id all m ≡ born m copies node) }
{
    if node == 1 {
        id == 1 && 1 <= copies && all == copies
    } else {
        id == node && node <= copies
    }
}

/// A copy without records.
fn is_born_kept(id: u32, birth: Birth, copies: u32, node: u32) -> bool
    ensures { (m : MappingData) → IsTrue result ↔ (opened id birth m [] ≡ born m copies node) }
{
    match birth {
        Birth::First => id == node && node <= copies && node != 1,
        Birth::Added => id == node && node > copies,
    }
}
