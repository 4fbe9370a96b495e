//! Why a query is refused.

ghost use Rattle.std.specs.Prelude.{◌≡◌, codes, MatchOption};
ghost use Rattle.query.specs.Fault.{fault_of, name_of};

use std::alloc::{AllocError, AllocFailed};
use thiserror::Error;

/// A refusal of a search body or of a query in it. The text of `Parsing` says what was wanted, and that of `ParsingAt` at which key.
#[derive(Debug, Drop, Error)]
pub enum QueryFault {
    #[error("bad query: {0}")]
    Parsing(&'static str),
    #[error("bad query: {0}: {1}")]
    ParsingAt(String, &'static str),
    #[error("a query has more than 1,024 clauses, or `terms` more than 65,536 values")]
    TooManyClauses,
    #[error("queries nest more than 20 deep")]
    TooDeep,
    #[error("a value doesn't fit the type of field {0}")]
    WrongKind(String),
    #[error("out of memory")]
    NoMemory,
    #[error("`from` plus `size` is above 10,000")]
    WindowTooLarge,
}

impl QueryFault {
    /// The name of the fault, without its details.
    pub fn name(&self) -> &'static str
        ensures { MatchOption (fault_of self.now) (result.now ≡ codes "NoMemory") (λ f. result.now ≡ name_of f) }
    {
        match self {
            QueryFault::Parsing(_) | QueryFault::ParsingAt(_, _) => "Parsing",
            QueryFault::TooManyClauses => "TooManyClauses",
            QueryFault::TooDeep => "TooDeep",
            QueryFault::WrongKind(_) => "WrongKind",
            QueryFault::NoMemory => "NoMemory",
            QueryFault::WindowTooLarge => "WindowTooLarge",
        }
    }
}

impl From<AllocError> for QueryFault {
    ghost use Rattle.std.specs.Prelude.{◌≡◌};
    ghost use Rattle.query.specs.declared.fault.QueryFault.TheVariants.{NoMemory};

    ghost from_gives = { λ _ e. e ≡ NoMemory };

    fn from(_refused: AllocError) -> QueryFault {
        QueryFault::NoMemory
    }
}

impl<T: Drop> From<AllocFailed<T>> for QueryFault {
    ghost use Rattle.std.specs.Prelude.{◌≡◌};
    ghost use Rattle.query.specs.declared.fault.QueryFault.TheVariants.{NoMemory};

    ghost from_gives = { λ _ e. e ≡ NoMemory };

    fn from(_refused: AllocFailed<T>) -> QueryFault {
        QueryFault::NoMemory
    }
}
