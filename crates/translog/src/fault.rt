//! Why a log can't be opened or added to.
ghost use Rattle.std.specs.Prelude.{◌≡◌, ◌↔◌, IsTrue};

use crate::device::{DeviceFault, Failed};
use std::alloc::{AllocError, AllocFailed};
use thiserror::Error;

/// A refusal of a log.
#[derive(Debug, Drop, Error)]
pub enum LogFault {
    #[error("the first bytes aren't this log's header")]
    BadMagic,
    #[error("the frame at offset {0} is damaged")]
    Damaged(u64),
    #[error("the device of a log failed")]
    Device,
    #[error("out of memory")]
    NoMemory,
    #[error("a frame would have more than 4,294,967,295 bytes")]
    TooLarge,
}

impl LogFault {
    /// An equal fault. It takes no memory.
    pub fn copy(&self) -> LogFault
        ensures { result ≡ self.now }
    {
        match self {
            LogFault::BadMagic => LogFault::BadMagic,
            LogFault::Damaged(offset) => LogFault::Damaged(*offset),
            LogFault::Device => LogFault::Device,
            LogFault::NoMemory => LogFault::NoMemory,
            LogFault::TooLarge => LogFault::TooLarge,
        }
    }

    /// Whether two faults are the same.
    pub fn is(&self, other: &LogFault) -> bool
        ensures { IsTrue result ↔ (self.now ≡ other.now) }
    {
        match (self, other) {
            (LogFault::BadMagic, LogFault::BadMagic) => true,
            (LogFault::Damaged(offset), LogFault::Damaged(other)) => *offset == *other,
            (LogFault::Device, LogFault::Device) => true,
            (LogFault::NoMemory, LogFault::NoMemory) => true,
            (LogFault::TooLarge, LogFault::TooLarge) => true,
            _ => false,
        }
    }
}

impl From<AllocError> for LogFault {
    ghost use Rattle.std.specs.Prelude.{◌≡◌};
    ghost use Rattle.translog.specs.declared.fault.LogFault.TheVariants.{NoMemory};

    ghost from_gives = { λ _ e. e ≡ NoMemory };

    fn from(_refused: AllocError) -> LogFault {
        LogFault::NoMemory
    }
}

impl<T: Drop> From<AllocFailed<T>> for LogFault {
    ghost use Rattle.std.specs.Prelude.{◌≡◌};
    ghost use Rattle.translog.specs.declared.fault.LogFault.TheVariants.{NoMemory};

    ghost from_gives = { λ _ e. e ≡ NoMemory };

    fn from(_refused: AllocFailed<T>) -> LogFault {
        LogFault::NoMemory
    }
}

impl From<Failed> for LogFault {
    ghost use Rattle.std.specs.Prelude.{◌≡◌};
    ghost use Rattle.translog.specs.declared.fault.LogFault.TheVariants.{Device};

    ghost from_gives = { λ _ e. e ≡ Device };

    fn from(_failed: Failed) -> LogFault {
        LogFault::Device
    }
}

impl From<DeviceFault> for LogFault {
    ghost use Rattle.std.specs.Prelude.{◌≡◌};
    ghost use Rattle.translog.specs.Fault.{of_device};

    ghost from_gives = { λ d e. e ≡ of_device d };

    fn from(fault: DeviceFault) -> LogFault {
        match fault {
            DeviceFault::NoMemory => LogFault::NoMemory,
            DeviceFault::Failed => LogFault::Device,
        }
    }
}
