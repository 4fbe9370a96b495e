//! Ids as keys of a map.
ghost use Rattle.std.specs.Cmp.{eq_by_cmp_equiv, on_equiv, on_per, partial_equiv_from_equiv};
ghost use Rattle.std.specs.Cmp.Lexicographic.{nat_list_cmp_total};
ghost use Rattle.std.specs.Hash as fed;
ghost use Rattle.std.proofs.Common.{ap};
ghost use Rattle.std.proofs.lemmas.Map.Lookups.{exact_bytes};
ghost use Rattle.std.proofs.lemmas.Map.Views.{tells_apart};
ghost use Rattle.doc.specs.Id.{is_id};

use doc::DocId;
use std::hash::{Hash, Hasher};

/// An id as a key of a map.
#[derive(Drop)]
pub(crate) struct IdKey(pub(crate) DocId);

impl PartialEq for IdKey {
    ghost eq = { λ a b. is_id a.0 b.0 };

    ghost laws = { on_per (λ k. k.0) (partial_equiv_from_equiv (eq_by_cmp_equiv nat_list_cmp_total)) };

    fn eq(&self, other: &IdKey) -> bool {
        self.0.is(&other.0)
    }
}

impl Eq for IdKey {
    ghost laws = { on_equiv (λ k. k.0) (eq_by_cmp_equiv nat_list_cmp_total) };
}

impl Hash for IdKey {
    ghost hash_input = { λ k. fed.str k.0 };

    ghost respects_eq = { λ a b same. ap fed.str (tells_apart exact_bytes a.0 b.0 same) };

    fn hash<H: Hasher>(&self, state: &mut H) {
        self.0.as_str().hash(state);
    }
}
