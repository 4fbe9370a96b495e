//! Lists of records that clauses alone see.

use crate::operations::history::History;
use std::marker::Model;
use std::snapshot::Snapshot as Seen;

/// A list of records that clauses alone see: it takes no memory.
pub struct Listed {
    of: Seen<History>,
}

impl Drop for Listed {
    fn drop(self) {
        let Listed { of: _of } = self;
    }
}

impl Model for Listed {
    ghost use Rattle.std.specs.Prelude.{List};
    ghost use Rattle.op.specs.declared.record.Record.{Record};

    ghost Value = { List Record };

    ghost view = { λ l. l.of.value.records };
}

impl Listed {
    ghost use Rattle.std.specs.Prelude.{◌≡◌};

    /// The records of a history.
    pub(crate) fn of(history: &History) -> Listed
        ensures { result ≡ history.now.records }
    {
        Listed {
            of: Seen::of(history),
        }
    }
}
