//! Places of documents that come among others.
ghost use Rattle.std.specs.Prelude.{◌≡◌, ◌<◌, All, IfOk, length};
ghost use Rattle.segment.specs.Woven.{moved_by, risen};

use std::alloc::{AllocError, Global};

/// Where these places go, without those that go nowhere.
pub(crate) fn moved(
    alloc: Global,
    places: &[u32],
    to: &[Option<u32>],
) -> Result<Vec<u32>, AllocError>
    requires { All (λ p. p < length to.now) places.now }
    ensures { IfOk result (λ v. v.items ≡ moved_by to.now places.now) }
{
    let mut all = Vec::with_capacity(alloc, places.len())?;
    for &place in places {
        if let Some(at) = to[place as usize] {
            all.push(at)?;
        }
    }
    Ok(all)
}

/// The places of both lists, rising where both rise.
pub(crate) fn risen(alloc: Global, left: &[u32], right: &[u32]) -> Result<Vec<u32>, AllocError>
    ensures { IfOk result (λ v. v.items ≡ risen left.now right.now) }
{
    let mut all = Vec::with_capacity(alloc, left.len() + right.len())?;
    let mut from_left = 0;
    let mut from_right = 0;
    while from_left < left.len() && from_right < right.len() {
        if left[from_left] < right[from_right] {
            all.push(left[from_left])?;
            from_left += 1;
        } else {
            all.push(right[from_right])?;
            from_right += 1;
        }
    }
    all.extend_from_slice(&left[from_left..])?;
    all.extend_from_slice(&right[from_right..])?;
    Ok(all)
}
