//! Why events aren't run to their end.

use thiserror::Error;

/// Why there is no world after some events.
#[derive(Debug, Drop, Error)]
pub enum RunFault {
    #[error("an index begins with one copy to five")]
    BadCount,
    #[error("out of memory after {0} events")]
    NoMemory(u64),
}
