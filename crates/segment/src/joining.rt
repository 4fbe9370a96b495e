//! Columns in the making, put together.
ghost use Rattle.std.specs.Prelude.{◌≡◌, ℕ, List, Some, false, string_bytes, OnOk};
ghost use Rattle.std.specs.Str.{bytes_eq};
ghost use Rattle.segment.specs.Added.{making_at, AreLong, IsLong};
ghost use Rattle.segment.specs.Joined.{AreJoined, IsJoinedOr};

use crate::making::{Making, Makings};
use crate::rooms::{Rooms, room_at};
use std::alloc::{AllocError, Global};

/// Adds what later documents have, of so many in all.
pub(crate) fn join(
    alloc: Global,
    makings: &mut Makings,
    later: Makings,
    rooms: &Rooms,
    len: usize,
) -> Result<(), AllocError>
    requires long { AreLong len makings.old }
    requires later { AreLong len later }
    ensures { OnOk result (AreJoined makings.old later makings.new) }
{
    let mut left = later;
    while let Some((name, making)) = left.pop_first() {
        join_one(alloc, makings, name, making, rooms, len)?;
    }
    Ok(())
}

/// Adds what later documents have of one field.
fn join_one(
    alloc: Global,
    makings: &mut Makings,
    name: String,
    later: Box<Making>,
    rooms: &Rooms,
    len: usize,
) -> Result<(), AllocError>
    requires long { AreLong len makings.old }
    requires later { IsLong len later.value }
    ensures here { OnOk result (IsJoinedOr (making_at makings.old (string_bytes name)) (Some later.value) (making_at makings.new (string_bytes name))) }
    ensures others { OnOk result ((w : List ℕ) → bytes_eq (string_bytes name) w ≡ false → making_at makings.new w ≡ making_at makings.old w) }
    ensures long { OnOk result (AreLong len makings.new) }
{
    let room = room_at(rooms, &name);
    if let Some(making) = makings.get_mut(name.as_str()) {
        return making.join(alloc, Box::into_inner(later), room);
    }
    makings.insert(name, later)?;
    Ok(())
}
