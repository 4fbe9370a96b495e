//! What is left of parts without the documents that have one of some ids, which may be made before it is wanted.
ghost use Rattle.std.specs.Prelude.{◌≡◌, true, All, map, IfOk, IfSome};
ghost use Rattle.engine.specs.Lessened.{all_before, IsLessened};
ghost use Rattle.engine.specs.Parts.{all_published, documents_of_parts, published_of, without};
ghost use Rattle.engine.specs.Published.{AreTold};

use crate::ids::sought::sought_of;
use crate::read::part::Part;
use crate::read::part_list::parts_without;
use doc::DocId;
use std::alloc::{AllocError, Global};

/// A part, and what is left of it without the documents that have one of some ids.
#[derive(Drop)]
pub(crate) struct Lessened {
    before: Part,
    after: Part,
}

/// What is left of parts without the documents that have one of the ids.
pub(crate) fn lessened_of(
    alloc: Global,
    parts: &[Part],
    ids: &[DocId],
) -> Result<Vec<Lessened>, AllocError>
    ensures before { IfOk result (λ v. all_before v.items ≡ all_published parts.now) }
    ensures are { IfOk result (λ v. All (IsLessened ids.now) v.items) }
{
    let sought = sought_of(alloc, ids)?;
    let mut all = Vec::with_capacity(alloc, parts.len())?;
    for part in parts {
        let before = part.copy()?;
        let after = part.without(alloc, &sought)?;
        all.push(Lessened { before, after })?;
    }
    Ok(all)
}

/// The parts without the documents that have one of the ids: of each what was made of it before, where it is as it was then.
pub(crate) fn parts_left(
    alloc: Global,
    parts: &[Part],
    ids: &[DocId],
    made: &[Lessened],
) -> Result<Vec<Part>, AllocError>
    requires told { AreTold (all_before made.now) (all_published parts.now) }
    requires are { All (IsLessened ids.now) made.now }
    ensures mappings { IfOk result (λ v. map (λ p. p.mapping) v.items ≡ map (λ p. p.mapping) parts.now) }
    ensures documents { IfOk result (λ v. documents_of_parts v.items ≡ map (without ids.now) (documents_of_parts parts.now)) }
    ensures published { IfOk result (λ v. all_published v.items ≡ all_published parts.now) }
{
    if made.is_empty() {
        let sought = sought_of(alloc, ids)?;
        return parts_without(alloc, parts, &sought);
    }
    let mut left = Vec::with_capacity(alloc, parts.len())?;
    for part in parts {
        left.push(part_left(alloc, part, ids, made)?)?;
    }
    Ok(left)
}

/// What is left of a part.
fn part_left(
    alloc: Global,
    part: &Part,
    ids: &[DocId],
    made: &[Lessened],
) -> Result<Part, AllocError>
    requires told { All (λ t. t.number ≡ part.now.number → t ≡ published_of part.now) (all_before made.now) }
    requires are { All (IsLessened ids.now) made.now }
    ensures { IfOk result (λ p. p ≡ record part.now { documents = without ids.now part.now.documents }) }
{
    if let Some(after) = made_of(made, part, ids) {
        return after.copy();
    }
    let sought = sought_of(alloc, ids)?;
    part.without(alloc, &sought)
}

/// What was made of a part, where it is as it was then.
fn made_of<'a>(made: &'a [Lessened], part: &Part, _ids: &[DocId]) -> Option<&'a Part>
    requires told { All (λ t. t.number ≡ part.now.number → t ≡ published_of part.now) (all_before made.now) }
    requires are { All (IsLessened _ids.now) made.now }
    ensures { IfSome result (λ p. p.now ≡ record part.now { documents = without _ids.now part.now.documents }) }
{
    for lessened in made {
        if is_same(&lessened.before, part) {
            return Some(&lessened.after);
        }
    }
    None
}

/// Whether two parts are the same, where those of one number are one segment.
fn is_same(one: &Part, other: &Part) -> bool
    requires { one.now.number ≡ other.now.number → published_of one.now ≡ published_of other.now }
    ensures { result ≡ true → one.now ≡ other.now }
{
    one.number() == other.number() && one.is_live_as(other)
}
