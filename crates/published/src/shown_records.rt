//! The records of what is shown, as clauses see them.
ghost use Rattle.std.specs.Prelude.{◌≡◌, IfSome};

use boxcar::slot::{OnceSlot, SlotRule, Written};
use boxcar::tag::Tag;
use engine::Listed;
use std::marker::Model;

/// Any list may be written.
struct Anything;

impl SlotRule<Listed> for Anything {
    ghost holds = { λ _ _. Unit {0} };
}

/// A list of records that clauses alone see: it takes no memory, and may cross threads.
pub struct ShownRecords {
    written: Written<Listed>,
}

impl Drop for ShownRecords {
    fn drop(self) {
        let ShownRecords { written: _written } = self;
    }
}

impl Model for ShownRecords {
    ghost use Rattle.std.specs.Prelude.{List};
    ghost use Rattle.op.specs.declared.record.Record.{Record};

    ghost Value = { List Record };

    ghost view = { λ s. s.written.value };
}

impl ShownRecords {
    /// These records; there are none only where the slot that shows them was written before, and it is a new one.
    pub fn of(listed: Listed) -> Option<ShownRecords>
        ensures { IfSome result (λ s. s ≡ listed) }
    {
        let slot: OnceSlot<Listed, Anything> = OnceSlot::new(&Tag::empty());
        let Ok(written) = slot.set_written(listed) else {
            return None;
        };
        Some(ShownRecords { written })
    }

    /// A duplicate.
    pub fn again(&self) -> ShownRecords
        ensures { result ≡ self.now }
    {
        ShownRecords {
            written: self.written.again(),
        }
    }
}
