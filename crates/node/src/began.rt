//! What a copy was when its journal began.
ghost use Rattle.std.specs.Prelude.{◌≡◌, ◌∷◌, []};
ghost use Rattle.chronicle.specs.Registered.{upto};
ghost use Rattle.node.specs.Entry.{opening_of, HasSoundRecords};

use chronicle::{Beginning, Chronicle, Mark, Means, Registered, RegistryName};
use journal::{Deed, Opening};
use replica::Copy;
use std::marker::{Model, PhantomData};
use translog::LogDevice;

/// A copy is written as what its journal begins with.
struct Opens;

impl<D: LogDevice> Means<Copy<D>, Opening> for Opens {
    ghost means = { λ l. l.copy };
}

/// What a copy is, for clauses alone.
pub(crate) fn noted<D: LogDevice>(copy: &Copy<D>) -> Mark<Opening>
    ensures { result.entries ≡ copy.now.copy ∷ [] }
{
    let chronicle = Chronicle::new();
    let mut writer = chronicle.writer();
    writer.append_as::<Copy<D>, Opens>(&chronicle, copy)
}

/// What the journal of a copy began with, that is registered with a note of it.
pub(crate) fn begun<D: LogDevice, J: RegistryName>(
    copy: &Copy<D>,
    deeds: &Registered<Deed, J>,
    first: &Mark<Opening>,
) -> Began<J>
    requires number { deeds.now.number ≡ copy.now.copy.id }
    requires line { first.now.line ≡ deeds.now.first }
    requires noted { first.now.entries ≡ copy.now.copy ∷ [] }
    requires sound { HasSoundRecords copy.now.copy }
    ensures { result ≡ copy.now.copy }
{
    Began::of(copy.id(), deeds.beginning(first))
}

/// What a copy was when its journal began, with the records that it had then. Contracts see the copy. Only a journal of this cluster gives one out, and a
/// copy has one.
pub struct Began<J: RegistryName> {
    node: u32,
    beginning: Beginning<Opening, Deed>,
    of: PhantomData<J>,
}

impl<J: RegistryName> Drop for Began<J> {
    fn drop(self) {
        let Began {
            node: _,
            beginning: _beginning,
            of: _,
        } = self;
    }
}

impl<J: RegistryName> Model for Began<J> {
    ghost use Rattle.std.specs.Prelude.{◌≡◌, ◌∷◌, []};
    ghost use Rattle.node.specs.Entry.{opening_of, HasSoundRecords};
    ghost use Rattle.replica.specs.Copy.{Copy};

    ghost Value = { Copy };

    ghost view = { λ b. opening_of b.beginning.entries };

    ghost invariant = { λ b. (b.beginning.registry ≡ J.registry) × (b.beginning.number ≡ b.node) × (b.node ≡ (opening_of b.beginning.entries).id) × (b.beginning.entries ≡ opening_of b.beginning.entries ∷ []) × HasSoundRecords (opening_of b.beginning.entries) };
}

impl<J: RegistryName> Began<J> {
    /// What the beginning of a copy's journal says, under the name of the cluster.
    pub fn of(node: u32, beginning: Beginning<Opening, Deed>) -> Began<J>
        requires registry { beginning.registry ≡ J.registry }
        requires number { beginning.number ≡ node }
        requires node { node ≡ (opening_of beginning.entries).id }
        requires one { beginning.entries ≡ opening_of beginning.entries ∷ [] }
        requires sound { HasSoundRecords (opening_of beginning.entries) }
        ensures { result ≡ opening_of beginning.entries }
    {
        Began {
            node,
            beginning,
            of: PhantomData,
        }
    }

    /// The id of the copy.
    pub fn node(&self) -> u32
        ensures { result ≡ self.now.id }
    {
        self.node
    }

    /// A duplicate.
    pub fn again(&self) -> Began<J>
        ensures { result ≡ self.now }
    {
        Began {
            node: self.node,
            beginning: self.beginning.again(),
            of: PhantomData,
        }
    }

    /// The journal of a copy began once.
    #[tactic(auto, using(crate::proofs::Begins::one_opening))]
    pub fn agrees(&self, other: &Began<J>)
        requires { other.now.id ≡ self.now.id }
        ensures { other.now ≡ self.now }
    {
        self.beginning.agrees(&other.beginning);
    }

    /// How the journal begins, without the name of the cluster.
    pub fn beginning(&self) -> &Beginning<Opening, Deed>
        ensures is { result.now ≡ upto J.registry self.now.id (self.now ∷ []) }
        ensures sound { HasSoundRecords self.now }
    {
        &self.beginning
    }
}
