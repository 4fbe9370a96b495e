//! One operation as memory has it.
ghost use Rattle.std.specs.Prelude.{◌≡◌, true, false, None, if◌then◌else◌, IfOk, IfSome, OnOk, OnErr};
ghost use Rattle.doc.specs.Id.{Id, is_id};
ghost use Rattle.op.specs.Operations.{is_on};

use boxcar::slot::{OnceSlot, SlotRule, Written};
use boxcar::tag::Tag;
use doc::DocId;
use op::{Body, Op};
use std::alloc::{AllocError, Global};
use std::boxed::Box;
use std::marker::Model;
use std::snapshot::Snapshot as Seen;

/// Memory dropped the operation; its number alone is left.
#[derive(Clone, Copy, Debug, PartialEq, Eq)]
pub struct LetGo;

/// An operation as it came.
#[derive(Drop)]
struct Whole {
    op: Op,
    /// Whether it came together with others.
    is_of_many: bool,
    /// How far below it the last operation on its id was when it came; 0 where there was none.
    back: u32,
}

/// Any operation may be written.
struct Anything;

impl SlotRule<Seen<Op>> for Anything {
    ghost holds = { λ _ _. Unit {0} };
}

/// An operation that memory may drop once a newer one is on its id. Clauses see the whole of it, by what takes no memory and may cross threads.
pub(crate) struct Slot {
    /// The operation, or its number alone: a small slot stays of one that memory dropped.
    held: Result<Box<Whole>, u64>,
    whole: Written<Seen<Op>>,
}

impl Drop for Slot {
    fn drop(self) {
        let Slot {
            held: _held,
            whole: _whole,
        } = self;
    }
}

impl Model for Slot {
    ghost use Rattle.std.specs.Prelude.{◌≡◌, is_err, IfErr, IfOk};
    ghost use Rattle.engine.specs.Slot.{SlotData};

    ghost Value = { SlotData };

    ghost view = { λ s. record { op = s.whole.value.value; gone = is_err s.held } };

    ghost invariant = { λ s. IfOk s.held (λ w. w.value.op ≡ s.whole.value.value) × IfErr s.held (λ n. n ≡ s.whole.value.value.seq) };
}

impl Slot {
    /// A slot with an operation, and the number of the last one on its id that was there.
    pub(crate) fn of(
        alloc: Global,
        op: Op,
        before: Option<u64>,
        is_of_many: bool,
    ) -> Result<Slot, AllocError>
        ensures { IfOk result (λ s. s ≡ record { op = op; gone = false }) }
    {
        let back = distance(op.seq, before);
        let seen: OnceSlot<Seen<Op>, Anything> = OnceSlot::new(&Tag::empty());
        // A new slot takes what is written first.
        let Ok(whole) = seen.set_written(Seen::of(&op)) else {
            return Err(AllocError);
        };
        let came = Whole {
            op,
            is_of_many,
            back,
        };
        let held = Ok(Box::new(alloc, came)?);
        Ok(Slot { held, whole })
    }

    /// Its number.
    pub(crate) fn seq(&self) -> u64
        ensures { result ≡ self.now.op.seq }
    {
        match &self.held {
            Ok(came) => came.op.seq,
            Err(seq) => *seq,
        }
    }

    /// The whole operation.
    pub(crate) fn op(&self) -> Result<&Op, LetGo>
        ensures ok { IfOk result (λ o. o.now ≡ self.now.op) }
        ensures whole { OnOk result (self.now.gone ≡ false) }
        ensures gone { OnErr result (self.now.gone ≡ true) }
    {
        match &self.held {
            Ok(came) => Ok(&came.op),
            Err(_) => Err(LetGo),
        }
    }

    /// The id that it is on, where memory didn't drop it.
    pub(crate) fn id(&self) -> Option<&DocId>
        ensures some { IfSome result (λ i. (id : Id) → is_on id self.now.op ≡ is_id id i.now) }
        ensures none { result ≡ None → self.now.gone ≡ false → (id : Id) → is_on id self.now.op ≡ false }
    {
        let Ok(op) = self.op() else {
            return None;
        };
        match &op.body {
            Body::Index(id, _) => Some(id),
            Body::Delete(id) => Some(id),
            Body::NoOp => None,
        }
    }

    /// Whether it is on this id and memory didn't drop it.
    pub(crate) fn is_on(&self, id: &DocId) -> bool
        ensures { result ≡ (if self.now.gone then false else is_on id.now self.now.op) }
    {
        match self.op() {
            Ok(op) => op.is_on(id),
            Err(_) => false,
        }
    }

    /// An equal operation. It fails where memory dropped this one.
    pub(crate) fn copy(&self, alloc: Global) -> Result<Op, AllocError>
        ensures { IfOk result (λ o. o ≡ self.now.op) }
    {
        match self.op() {
            Ok(op) => op.copy(alloc),
            Err(_) => Err(AllocError),
        }
    }

    /// Whether it is this operation, as far as memory knows.
    pub(crate) fn is(&self, other: &Op) -> bool
        ensures { result ≡ true → self.now.op ≡ other.now }
    {
        match self.op() {
            Ok(op) => op.is(other),
            Err(_) => false,
        }
    }

    /// Whether it came together with others, which may be on its id.
    pub(crate) fn is_of_many(&self) -> bool {
        match &self.held {
            Ok(came) => came.is_of_many,
            Err(_) => false,
        }
    }

    /// Whether it is on an id and, as far as memory knows, none was there when it came.
    pub(crate) fn is_first(&self) -> bool {
        match &self.held {
            Ok(came) => came.back == 0 && self.id().is_some(),
            Err(_) => false,
        }
    }

    /// Notes that none that came with it is on its id, if it is the first there.
    pub(crate) fn note_first(&mut self)
        ensures { self.new ≡ self.old }
    {
        if let Ok(came) = &mut self.held {
            came.is_of_many = came.is_of_many && came.back != 0;
        }
    }

    /// The number of the last operation on its id that was there when it came.
    pub(crate) fn before(&self) -> Option<u64> {
        let Ok(came) = &self.held else {
            return None;
        };
        if came.back == 0 {
            return None;
        }
        Some(came.op.seq.saturating_sub(came.back as u64))
    }

    /// Lets it go, but for its number.
    pub(crate) fn let_go(&mut self)
        ensures { self.new.op ≡ self.old.op }
    {
        let seq = self.seq();
        self.held = Err(seq);
    }
}

/// How far one number is above another, where that fits.
fn distance(seq: u64, before: Option<u64>) -> u32 {
    let Some(before) = before else {
        return 0;
    };
    let back = seq.saturating_sub(before);
    if back > u32::MAX as u64 {
        return 0;
    }
    back as u32
}
