//! Why a request is refused before the service is called.
ghost use Rattle.std.specs.Prelude.{◌≡◌, is_none};
ghost use Rattle.front.specs.Fault.{fault_of};

use crate::target::Endpoint;
use doc::DocFault;
use query::QueryFault;
use std::alloc::{AllocError, AllocFailed};
use wire::HeadFault;

/// A fault of a request. Its page names it. After a fault of the head the stream ends.
#[derive(Debug, Drop)]
pub(crate) enum RequestFault {
    Head(HeadFault),
    NoRoute,
    NoIndex,
    BadMethod(Endpoint),
    BadParameter,
    BadBulk,
    ForeignOrigin,
    ForeignHost,
    TypeInPath,
    NoHandler,
    IndexExists,
    EncodedBody,
    Document(DocFault),
    Query(QueryFault),
    NoMemory,
}

impl RequestFault {
    /// Whether memory ran out.
    pub(crate) fn is_memory(&self) -> bool
        ensures { result ≡ is_none (fault_of self.now) }
    {
        matches!(
            self,
            RequestFault::NoMemory
                | RequestFault::Head(HeadFault::NoMemory)
                | RequestFault::Document(DocFault::NoMemory)
                | RequestFault::Query(QueryFault::NoMemory)
        )
    }
}

impl From<AllocError> for RequestFault {
    ghost use Rattle.std.specs.Prelude.{◌≡◌};
    ghost use Rattle.front.specs.declared.request_fault.RequestFault.TheVariants.{NoMemory};

    ghost from_gives = { λ _ e. e ≡ NoMemory };

    fn from(_refused: AllocError) -> RequestFault {
        RequestFault::NoMemory
    }
}

impl<T: Drop> From<AllocFailed<T>> for RequestFault {
    ghost use Rattle.std.specs.Prelude.{◌≡◌};
    ghost use Rattle.front.specs.declared.request_fault.RequestFault.TheVariants.{NoMemory};

    ghost from_gives = { λ _ e. e ≡ NoMemory };

    fn from(_refused: AllocFailed<T>) -> RequestFault {
        RequestFault::NoMemory
    }
}

impl From<DocFault> for RequestFault {
    ghost use Rattle.std.specs.Prelude.{◌≡◌};
    ghost use Rattle.front.specs.declared.request_fault.RequestFault.TheVariants.{Document};

    ghost from_gives = { λ f e. e ≡ Document f };

    fn from(fault: DocFault) -> RequestFault {
        RequestFault::Document(fault)
    }
}

impl From<QueryFault> for RequestFault {
    ghost use Rattle.std.specs.Prelude.{◌≡◌};
    ghost use Rattle.front.specs.declared.request_fault.RequestFault.TheVariants.{Query};

    ghost from_gives = { λ f e. e ≡ Query f };

    fn from(fault: QueryFault) -> RequestFault {
        RequestFault::Query(fault)
    }
}
