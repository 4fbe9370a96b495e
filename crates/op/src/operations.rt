//! A list of operations.
ghost use Rattle.std.specs.Prelude.{◌≡◌, IfOk};

use crate::operation::Op;
use std::alloc::{AllocError, Global};
use std::marker::Model;

/// A list of operations, made from a `Vec` and turned back into one without memory.
pub struct Operations {
    items: Vec<Op>,
}

impl Drop for Operations {
    fn drop(self) {
        let Operations { items: _items } = self;
    }
}

impl Model for Operations {
    ghost use Rattle.std.specs.Prelude.{List};
    ghost use Rattle.op.specs.declared.operation.Op.{Op};

    ghost Value = { List Op };

    ghost view = { λ a. a.items.items };
}

impl Operations {
    /// The operations of a `Vec`.
    pub fn from_vec(items: Vec<Op>) -> Operations
        ensures { result ≡ items.items }
    {
        Operations { items }
    }

    /// The operations as a `Vec`.
    pub fn into_vec(self) -> Vec<Op>
        ensures { result.items ≡ self }
    {
        let Operations { items } = self;
        items
    }

    pub fn as_slice(&self) -> &[Op]
        ensures { result.now ≡ self.now }
    {
        self.items.as_slice()
    }

    /// An equal list.
    pub fn copy(&self, alloc: Global) -> Result<Operations, AllocError>
        ensures { IfOk result (λ a. a ≡ self.now) }
    {
        let mut items = Vec::new(alloc);
        for op in &self.items {
            items.push(op.copy(alloc)?)?;
        }
        Ok(Operations { items })
    }
}
