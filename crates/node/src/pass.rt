//! What a caller has seen.
ghost use Rattle.std.specs.Prelude.{◌≡◌};

use crate::receipt::Receipt;
use chronicle::RegistryName;
use std::alloc::Global;
use std::marker::Model;

/// The receipts of one caller, oldest first. Contracts see its number and them.
#[derive(Drop)]
pub struct Pass<J: RegistryName> {
    pub(crate) number: u64,
    pub(crate) receipts: Vec<Receipt<J>>,
}

impl<J: RegistryName> Model for Pass<J> {
    ghost use Rattle.node.specs.Passes.{PassData};

    ghost Value = { PassData };

    ghost view = { λ p. record { number = p.number; receipts = p.receipts.items } };
}

impl<J: RegistryName> Pass<J> {
    ghost use Rattle.std.specs.Prelude.{[]};

    /// A pass that has made no call.
    pub fn new(alloc: Global, number: u64) -> Pass<J>
        ensures { result ≡ record { number = number; receipts = [] } }
    {
        Pass {
            number,
            receipts: Vec::new(alloc),
        }
    }

    /// The number that its entries bear.
    pub fn number(&self) -> u64
        ensures { result ≡ self.now.number }
    {
        self.number
    }

    /// Its receipts, oldest first.
    pub fn receipts(&self) -> &[Receipt<J>]
        ensures { result.now ≡ self.now.receipts }
    {
        self.receipts.as_slice()
    }
}
