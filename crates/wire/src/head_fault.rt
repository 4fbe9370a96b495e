//! Why a head ends its stream.
ghost use Rattle.std.specs.Prelude.{◌≡◌, is_none};
ghost use Rattle.wire.specs.Fault.{fault_of};

use std::alloc::{AllocError, AllocFailed};

/// A fault of a head, after which nothing of the stream is read: where its request would end can't be told, or isn't worth reading.
#[derive(Clone, Copy, Debug, PartialEq, Eq, Drop)]
pub enum HeadFault {
    /// No head of HTTP/1.0 or HTTP/1.1 in 16,384 bytes with at most 64 fields, or no one length (RFC 9112, sections 2.2, 3 and 6.3).
    BadHead,
    /// A transfer coding (RFC 9112, section 6.1); none is read here.
    TransferCoding,
    /// A body of more bytes than one may have.
    BodyTooLarge,
    NoMemory,
}

impl HeadFault {
    /// Whether it says that memory ran out.
    pub fn is_memory(self) -> bool
        ensures { result ≡ is_none (fault_of self) }
    {
        self == HeadFault::NoMemory
    }
}

impl From<AllocError> for HeadFault {
    ghost use Rattle.std.specs.Prelude.{◌≡◌};
    ghost use Rattle.wire.specs.declared.head_fault.HeadFault.TheVariants.{NoMemory};

    ghost from_gives = { λ _ e. e ≡ NoMemory };

    fn from(_refused: AllocError) -> HeadFault {
        HeadFault::NoMemory
    }
}

impl<T: Drop> From<AllocFailed<T>> for HeadFault {
    ghost use Rattle.std.specs.Prelude.{◌≡◌};
    ghost use Rattle.wire.specs.declared.head_fault.HeadFault.TheVariants.{NoMemory};

    ghost from_gives = { λ _ e. e ≡ NoMemory };

    fn from(_refused: AllocFailed<T>) -> HeadFault {
        HeadFault::NoMemory
    }
}
