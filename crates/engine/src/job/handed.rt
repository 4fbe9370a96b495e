//! Work that was handed out: what it is made of, and a place for what is made of it.
ghost use Rattle.std.specs.Prelude.{◌≡◌, ◌∷◌, [], IfOk, IfSome};
ghost use Rattle.std.specs.Arc.{arc_value};

use boxcar::slot::{OnceSlot, SlotRule, Written};
use boxcar::tag::{Names, Tag};
use std::alloc::{AllocError, Global};
use std::marker::Model;
use std::sync::Arc;

/// What is made of something, as it has to be.
pub(crate) trait MadeOf<I> {
    ghost is_made: { I → Self → Type 0 };
}

/// Anything may be handed out.
struct Anything;

impl<I> SlotRule<I> for Anything {
    ghost holds = { λ _ _. Unit {0} };
}

/// What was made, and what shows of what.
#[derive(Drop)]
struct Made<I, O: MadeOf<I>> {
    of: Written<I>,
    made: O,
}

/// It was made as it has to be, of what stands in the slot that the tag names.
struct OfSlot;

impl<I, O: MadeOf<I>> SlotRule<Made<I, O>> for OfSlot {
    ghost use Rattle.std.specs.Prelude.{◌≡◌, ◌∷◌, []};

    ghost holds = { λ tag m. (tag ≡ m.of.of ∷ []) × O.is_made m.of.value m.made };
}

/// A slot is named by its number.
struct SlotNumber;

impl<I> Names<OnceSlot<I, Anything>> for SlotNumber {
    ghost use Rattle.std.specs.Prelude.{◌∷◌, []};

    ghost numbers = { λ s. s.id ∷ [] };
}

/// A place for each.
#[derive(Drop)]
struct Slots<I, O: MadeOf<I>> {
    given: OnceSlot<I, Anything>,
    made: OnceSlot<Made<I, O>, OfSlot>,
    ghost tied: { made.tag ≡ given.id ∷ [] },
}

/// What was handed out. Its copies share what is made of it, once that is there; so whoever keeps one knows of what it was made.
pub(crate) struct Handed<I, O: MadeOf<I>> {
    slots: Arc<Slots<I, O>, Global>,
    written: Written<I>,
}

impl<I: Drop, O: MadeOf<I> + Drop> Drop for Handed<I, O> {
    fn drop(self) {
        let Handed {
            slots: _slots,
            written: _written,
        } = self;
    }
}

impl<I, O: MadeOf<I>> Model for Handed<I, O> {
    ghost use Rattle.std.specs.Prelude.{◌≡◌};
    ghost use Rattle.std.specs.Arc.{arc_value};

    ghost Value = { I };

    ghost view = { λ h. h.written.value };

    ghost invariant = { λ h. h.written.of ≡ (arc_value h.slots).given.id };
}

impl<I: Drop, O: MadeOf<I> + Drop> Handed<I, O> {
    /// Hands this out.
    pub(crate) fn out(alloc: Global, given: I) -> Result<Handed<I, O>, AllocError>
        ensures { IfOk result (λ h. h ≡ given) }
    {
        let slot: OnceSlot<I, Anything> = OnceSlot::new(&Tag::empty());
        let tag = Tag::of::<OnceSlot<I, Anything>, SlotNumber>(&slot);
        let made: OnceSlot<Made<I, O>, OfSlot> = OnceSlot::new(&tag);
        // A new slot takes what is written first.
        let Ok(written) = slot.set_written(given) else {
            return Err(AllocError);
        };
        let slots = Slots { given: slot, made };
        let slots = Arc::new(alloc, slots)?;
        Ok(Handed { slots, written })
    }

    /// Another handle on what was handed out.
    pub(crate) fn again(&self) -> Result<Handed<I, O>, AllocError>
        ensures { IfOk result (λ h. h ≡ self.now) }
    {
        let slots = Arc::try_clone(&self.slots)?;
        let written = self.written.again();
        Ok(Handed { slots, written })
    }

    /// What was handed out.
    pub(crate) fn given(&self) -> &I
        ensures { result.now ≡ self.now }
    {
        self.slots.given.value(&self.written)
    }

    /// Notes what was made of it, unless something is noted.
    pub(crate) fn note(&self, made: O)
        requires { O.is_made self.now made }
    {
        let of = self.written.again();
        let _ = self.slots.made.set(Made { of, made });
    }

    /// What was made of it, once it is there.
    pub(crate) fn made(&self) -> Option<&O>
        ensures { IfSome result (λ m. O.is_made self.now m.now) }
    {
        let Some(made) = self.slots.made.get() else {
            return None;
        };
        made.of.agrees(&self.written);
        Some(&made.made)
    }
}
