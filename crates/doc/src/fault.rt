//! Why a mapping, a document or an id is refused.

ghost use Rattle.std.specs.Prelude.{◌≡◌, codes, MatchOption};
ghost use Rattle.doc.specs.Fault.{fault_of, name_of};

use std::alloc::{AllocError, AllocFailed};
use thiserror::Error;

/// A refusal of a mapping, a document or an id. The name of the field or key that it concerns stands beside it.
#[derive(Debug, Drop, Error)]
pub enum DocFault {
    #[error("field {0} must have a type of keyword, text, long or boolean, or else properties")]
    UnknownType(String),
    #[error("the key {0} isn't allowed in a mapping")]
    BadName(String),
    #[error("`dynamic` is neither \"strict\" nor false")]
    BadDynamic,
    #[error("out of memory")]
    NoMemory,
    #[error("not JSON")]
    NotJson,
    #[error("not an object")]
    NotObject,
    #[error("a value of field {0} doesn't fit its type")]
    WrongValue(String),
    #[error("field {0} isn't mapped, and the mapping is strict")]
    Unmapped(String),
    #[error("a document has more than 65,536 bytes")]
    TooLarge,
    #[error("an id is empty")]
    IdEmpty,
    #[error("an id has more than 512 bytes")]
    IdTooLong,
    #[error("a mapping has more than 1,000 fields")]
    TooManyFields,
    #[error("more than 20 objects or levels of properties nest in one another")]
    TooDeep,
}

impl DocFault {
    /// The name of the fault, without the field that it concerns.
    pub fn name(&self) -> &'static str
        ensures { MatchOption (fault_of self.now) (result.now ≡ codes "NoMemory") (λ f. result.now ≡ name_of f) }
    {
        match self {
            DocFault::UnknownType(_) => "UnknownType",
            DocFault::BadName(_) => "BadName",
            DocFault::BadDynamic => "BadDynamic",
            DocFault::NoMemory => "NoMemory",
            DocFault::NotJson => "NotJson",
            DocFault::NotObject => "NotObject",
            DocFault::WrongValue(_) => "WrongValue",
            DocFault::Unmapped(_) => "Unmapped",
            DocFault::TooLarge => "TooLarge",
            DocFault::IdEmpty => "IdEmpty",
            DocFault::IdTooLong => "IdTooLong",
            DocFault::TooManyFields => "TooManyFields",
            DocFault::TooDeep => "TooDeep",
        }
    }
}

impl From<AllocError> for DocFault {
    ghost use Rattle.std.specs.Prelude.{◌≡◌};
    ghost use Rattle.doc.specs.declared.fault.DocFault.TheVariants.{NoMemory};

    ghost from_gives = { λ _ e. e ≡ NoMemory };

    fn from(_refused: AllocError) -> DocFault {
        DocFault::NoMemory
    }
}

impl<T: Drop> From<AllocFailed<T>> for DocFault {
    ghost use Rattle.std.specs.Prelude.{◌≡◌};
    ghost use Rattle.doc.specs.declared.fault.DocFault.TheVariants.{NoMemory};

    ghost from_gives = { λ _ e. e ≡ NoMemory };

    fn from(_refused: AllocFailed<T>) -> DocFault {
        DocFault::NoMemory
    }
}
