//! Operations that stand after those of an engine.
ghost use Rattle.std.specs.Prelude.{◌≡◌, ◌≤◌, ◌++◌, ◌∷◌, [], OnOk, OnErr};
ghost use Rattle.std.specs.Option.{option_copied};
ghost use Rattle.op.specs.Operations.{last_on, next_seq};

use crate::operations::operation_index::OperationIndex;
use doc::DocId;
use op::Op;
use seed::Seed;
use std::alloc::{AllocError, Global};
use std::marker::Model;

/// Operations that an engine is to have, found by id without a walk. The engine has none of them yet.
pub struct Ahead {
    operations: OperationIndex,
}

impl Drop for Ahead {
    fn drop(self) {
        let Ahead {
            operations: _operations,
        } = self;
    }
}

impl Model for Ahead {
    ghost use Rattle.std.specs.Prelude.{List};
    ghost use Rattle.op.specs.declared.operation.Op.{Op};

    ghost Value = { List Op };

    ghost view = { λ a. a.operations };
}

impl Ahead {
    /// No operations.
    pub fn new(alloc: Global, seed: Seed) -> Ahead
        ensures { result ≡ [] }
    {
        Ahead {
            operations: OperationIndex::new(alloc, seed),
        }
    }

    /// Takes one more, whose number is above all.
    #[tactic(auto, using(crate::proofs::RiseLaws::add_end))]
    pub fn push(&mut self, alloc: Global, op: &Op) -> Result<(), AllocError>
        requires { next_seq self.old ≤ op.now.seq }
        ensures ok { OnOk result (self.new ≡ self.old ++ op.now ∷ []) }
        ensures err { OnErr result (self.new ≡ self.old) }
    {
        let _up = self.operations.as_slice();
        self.operations.add(alloc, op.copy(alloc)?)
    }

    /// The last of them on the id.
    pub(crate) fn last_on(&self, id: &DocId) -> Option<&Op>
        ensures { option_copied result ≡ last_on self.now id.now }
    {
        self.operations.last_on(id)
    }
}
