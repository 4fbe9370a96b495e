//! Names of registries, and of the ledger next to each.

use std::marker::Brand;

/// Which registry it is, and which ledger stands next to it. A call of a program picks them by `Brand`.
pub trait RegistryName {
    ghost use Rattle.chronicle.specs.Written.{Line};

    ghost registry: { Line };

    ghost ledger: { Line };
}

impl RegistryName for Brand {
    ghost use Rattle.chronicle.specs.Written.{line};

    ghost registry = { line (record { number = 0; log_name = 0; cells_name = 0 }) 0 };

    ghost ledger = { line (record { number = 0; log_name = 0; cells_name = 0 }) 0 };
}
