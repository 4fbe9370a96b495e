//! The world that moves of nodes make.
ghost use Rattle.std.specs.Prelude.{◌≡◌, ◌≤◌, ◌<◌, ◌^◌, ℕ, length, IfOk, IfErr};
ghost use Rattle.world.specs.Held.{Held};
ghost use Rattle.world.specs.World.{new_world};
ghost use Rattle.audit.specs.Merge.{count_of, HaltsIn, IsMerged};

use crate::merge::{Halt, merge};
use crate::stage::Making;
use doc::Mapping;
use journal::Part;
use std::alloc::{AllocError, Global};
use world::World;

/// The world of a list of events that is made of what each node of a new index did: node 0 is the master, node i copy i.
pub fn make(alloc: Global, mapping: &Mapping, copies: u8, parts: &[Part]) -> Result<World, Halt>
    requires size { (1 ≤ copies) × (copies ≤ 5) }
    requires ids { length parts.now < 2 ^ 32 }
    ensures made { IfOk result (λ w. IsMerged (new_world mapping.now copies) parts.now w.world) }
    ensures halts { IfErr result (HaltsIn (new_world mapping.now copies) parts.now) }
    ensures held { IfOk result (λ w. Held w.world) }
{
    let world = World::new(alloc, mapping, copies)?;
    let mut making = Making::new(alloc, world, parts.len())?;
    let mut counts = zeros(alloc, parts.len())?;
    match merge(alloc, &mut making, parts, counts.as_mut_slice()) {
        Ok(()) => Ok(making.into_world()),
        Err(halt) => {
            drop(making);
            Err(halt)
        }
    }
}

/// `count` zeros.
#[tactic(auto, using(crate::proofs::Parts::zeros_more))]
fn zeros(alloc: Global, count: usize) -> Result<Vec<usize>, AllocError>
    ensures length { IfOk result (λ v. length v.items ≡ count) }
    ensures zeros { IfOk result (λ v. (i : ℕ) → count_of v.items i ≡ 0) }
{
    let mut items = Vec::new(alloc);
    for _ in 0..count {
        items.push(0)?;
    }
    Ok(items)
}
