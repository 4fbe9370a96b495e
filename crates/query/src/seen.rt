//! Values, each once: what a query costs depends on how many different values it has.
ghost use Rattle.std.specs.Prelude.{◌≡◌, ◌||◌, [], not, false, IfOk, OnOk};
ghost use Rattle.doc.specs.Scalar.{Scalar as ScalarData, is_scalar, text as spec_text};
ghost use Rattle.doc.specs.ScalarView.{scalar_view, scalars_view};
ghost use Rattle.query.specs.Distinct as spec;
ghost use Rattle.query.specs.SeenView.{has_seen};

use doc::Scalar;
use std::alloc::{AllocError, Global};
use std::collections::BTreeSet;

/// The values that came so far.
#[derive(Drop)]
pub(crate) struct Seen {
    texts: BTreeSet<String>,
    longs: BTreeSet<i64>,
    truth: bool,
    untruth: bool,
}

impl Seen {
    fn new(alloc: Global) -> Seen
        ensures { (v : ScalarData) → has_seen result v ≡ false }
    {
        Seen {
            texts: BTreeSet::new(alloc),
            longs: BTreeSet::new(alloc),
            truth: false,
            untruth: false,
        }
    }

    /// Adds a value, and returns whether it is new.
    fn add(&mut self, alloc: Global, value: &Scalar) -> Result<bool, AllocError>
        ensures new { IfOk result (λ new. new ≡ not (has_seen self.old (scalar_view value.now))) }
        ensures seen { OnOk result ((v : ScalarData) → has_seen self.new v ≡ (is_scalar (scalar_view value.now) v || has_seen self.old v)) }
    {
        match value {
            Scalar::Text(text) => self.add_text(alloc, text.as_str()),
            Scalar::Long(number) => Ok(self.longs.insert(*number)?),
            Scalar::Flag(true) => {
                let is_new = !self.truth;
                self.truth = true;
                Ok(is_new)
            }
            Scalar::Flag(false) => {
                let is_new = !self.untruth;
                self.untruth = true;
                Ok(is_new)
            }
        }
    }

    fn add_text(&mut self, alloc: Global, text: &str) -> Result<bool, AllocError>
        ensures new { IfOk result (λ new. new ≡ not (has_seen self.old (spec_text text.now))) }
        ensures seen { OnOk result ((v : ScalarData) → has_seen self.new v ≡ (is_scalar (spec_text text.now) v || has_seen self.old v)) }
    {
        if self.texts.contains(text) {
            return Ok(false);
        }
        Ok(self.texts.insert(String::from_str(alloc, text)?)?)
    }
}

/// The values in their order, each once.
pub(crate) fn distinct(alloc: Global, values: Vec<Scalar>) -> Result<Vec<Scalar>, AllocError>
    ensures { IfOk result (λ found. scalars_view found.items ≡ spec.distinct (scalars_view values.items)) }
{
    let mut seen = Seen::new(alloc);
    let mut found = Vec::new(alloc);
    for value in values {
        if seen.add(alloc, &value)? {
            found.push(value)?;
        }
    }
    Ok(found)
}
