//! Whether lists of writes and of items are the same.
ghost use Rattle.std.specs.Prelude.{◌≡◌, ◌↔◌, IsTrue};

use crate::input::Write;
use crate::output::Item;

/// Whether writes are the same.
pub(crate) fn equal_writes(writes: &[Write], others: &[Write]) -> bool
    ensures { IsTrue result ↔ (writes.now ≡ others.now) }
{
    if writes.len() != others.len() {
        return false;
    }
    for place in 0..writes.len() {
        if !writes[place].is(&others[place]) {
            return false;
        }
    }
    true
}

/// Whether what became of some writes is the same.
pub(crate) fn equal_items(items: &[Item], others: &[Item]) -> bool
    ensures { IsTrue result ↔ (items.now ≡ others.now) }
{
    if items.len() != others.len() {
        return false;
    }
    for place in 0..items.len() {
        if !items[place].is(&others[place]) {
            return false;
        }
    }
    true
}
