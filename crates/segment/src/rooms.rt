//! How many texts and numbers pieces have, so that room for them is made once where they are put together. It is a hint: no answer rests on it.

use crate::making::{Making, Makings};
use std::alloc::{AllocError, Global};
use std::collections::BTreeMap;

/// By field, what its pieces have.
pub type Rooms = BTreeMap<String, Room>;

/// How many texts and numbers the pieces of a column have, each piece for itself.
#[derive(Clone, Copy)]
pub struct Room {
    pub texts: usize,
    pub longs: usize,
}

/// What the pieces have of each field.
pub(crate) fn rooms_of(
    alloc: Global,
    pieces: &[Result<Makings, AllocError>],
) -> Result<Rooms, AllocError> {
    let mut rooms = BTreeMap::new(alloc);
    for piece in pieces {
        if let Ok(makings) = piece {
            add_piece(alloc, &mut rooms, makings)?;
        }
    }
    Ok(rooms)
}

/// What the pieces have of this field.
pub(crate) fn room_at(rooms: &Rooms, name: &String) -> Room {
    match rooms.get(name.as_str()) {
        Some(room) => *room,
        None => Room { texts: 0, longs: 0 },
    }
}

fn add_piece(alloc: Global, rooms: &mut Rooms, makings: &Makings) -> Result<(), AllocError> {
    for (name, making) in makings {
        let key = String::from_str(alloc, name.as_str())?;
        let before = room_at(rooms, name);
        rooms.insert(key, with_making(before, making))?;
    }
    Ok(())
}

fn with_making(before: Room, making: &Making) -> Room {
    Room {
        texts: before.texts.saturating_add(making.texts.len()),
        longs: before.longs.saturating_add(making.longs.len()),
    }
}
