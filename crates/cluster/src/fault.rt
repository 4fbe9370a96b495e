//! What a cluster refuses.
ghost use Rattle.std.specs.Prelude.{◌≡◌};

use cell::IndexName;
use master::MasterFault;
use node::{NodeFault, Receipt};
use replica::CopyFault;
use std::alloc::{AllocError, AllocFailed};
use std::fmt;
use std::fmt::Display;
use translog::LogFault;

/// Why a copy that is to be there didn't open.
#[derive(Drop)]
pub enum OpenFault {
    /// Nothing is kept of it.
    Missing,
    Copy(CopyFault),
}

/// A copy that didn't open.
#[derive(Drop)]
pub struct Unopened {
    pub copy: u32,
    pub fault: OpenFault,
}

impl Display for Unopened {
    fn fmt<W: fmt::Write>(&self, f: &mut fmt::Formatter<W>) -> fmt::Result {
        let copy = self.copy;
        match &self.fault {
            OpenFault::Missing => write!(f, "copy {copy}: nothing is kept of it"),
            OpenFault::Copy(fault) => write!(f, "copy {copy}: {fault}"),
        }
    }
}

/// The copy that led last, whose log lacks operations that another copy in sync has, so that the other one leads.
#[derive(Clone, Copy, Drop)]
pub struct ShortLog {
    pub copy: u32,
    /// How many it lacks at its end.
    pub lacking: u64,
    pub leader: u32,
}

impl Display for ShortLog {
    fn fmt<W: fmt::Write>(&self, f: &mut fmt::Formatter<W>) -> fmt::Result {
        let ShortLog {
            copy,
            lacking,
            leader,
        } = *self;
        write!(
            f,
            "copy {copy} led last, and its log has lost the last {lacking} that it kept; copy {leader} has them, and leads"
        )
    }
}

/// Why a write or a bulk isn't confirmed.
#[derive(Drop)]
pub enum WriteFault<J: IndexName> {
    /// The copy that the master names isn't the primary, or is closed; with the entry that says so.
    NoPrimary(Receipt<J>),
    /// The copy refused the write or the bulk for another cause; with the entry that says so.
    Refused(Receipt<J>),
    /// The copy kept the write, and was the primary no more before it was acknowledged: the write's entry, and the one that ended the role.
    Lost(Receipt<J>, Receipt<J>),
    /// The copy kept the write, and the wait for its acknowledgement ended without one: another copy was made the primary, memory ran out, or the
    /// master's log failed where it was to take out a copy that doesn't answer. The write may be kept; with its entry.
    Unconfirmed(Receipt<J>),
    /// The cluster has no such entry to show.
    Cluster(ClusterFault),
}

impl<J: IndexName> Display for WriteFault<J> {
    fn fmt<W: fmt::Write>(&self, f: &mut fmt::Formatter<W>) -> fmt::Result {
        match self {
            WriteFault::NoPrimary(_) => write!(f, "no copy is the primary"),
            WriteFault::Refused(receipt) => match &receipt.deed().answer {
                Ok(_) => write!(f, "the copy refused it"),
                Err(fault) => write!(f, "the copy: {fault}"),
            },
            WriteFault::Lost(_, _) => {
                write!(f, "the copy is the primary no more; the write may be kept")
            }
            WriteFault::Unconfirmed(_) => {
                write!(f, "nobody acknowledges the write; it may be kept")
            }
            WriteFault::Cluster(fault) => write!(f, "{fault}"),
        }
    }
}

impl<J: IndexName> From<ClusterFault> for WriteFault<J> {
    ghost use Rattle.std.specs.Prelude.{◌≡◌};
    ghost use Rattle.cluster.specs.declared.fault.WriteFault.TheVariants.{Cluster};

    ghost from_gives = { λ f e. e ≡ Cluster f };

    fn from(fault: ClusterFault) -> WriteFault<J> {
        WriteFault::Cluster(fault)
    }
}

impl<J: IndexName> From<AllocError> for WriteFault<J> {
    ghost use Rattle.std.specs.Prelude.{◌≡◌};
    ghost use Rattle.cluster.specs.declared.fault.ClusterFault.TheVariants.{NoMemory};
    ghost use Rattle.cluster.specs.declared.fault.WriteFault.TheVariants.{Cluster};

    ghost from_gives = { λ _ e. e ≡ Cluster NoMemory };

    fn from(_refused: AllocError) -> WriteFault<J> {
        WriteFault::Cluster(ClusterFault::NoMemory)
    }
}

/// Why a call of a cluster gives nothing.
#[derive(Drop)]
pub enum ClusterFault {
    NoMemory,
    /// No more searchers are given out.
    NoSeat,
    Copy(CopyFault),
    Master(MasterFault),
    /// A receipt that isn't the one that was asked for, by its place.
    Stray(u64),
    /// A thread still runs.
    Running,
    /// No copy that is in sync could be opened: each of them, and why.
    Unopened(Vec<Unopened>),
}

impl Display for ClusterFault {
    fn fmt<W: fmt::Write>(&self, f: &mut fmt::Formatter<W>) -> fmt::Result {
        match self {
            ClusterFault::NoMemory => write!(f, "out of memory"),
            ClusterFault::NoSeat => write!(f, "no more searchers are given out"),
            ClusterFault::Copy(fault) => write!(f, "the copy: {fault}"),
            ClusterFault::Master(fault) => write!(f, "the master: {fault}"),
            ClusterFault::Stray(place) => write!(f, "a stray receipt at {place}"),
            ClusterFault::Running => write!(f, "a thread still runs"),
            ClusterFault::Unopened(tried) => write_tried(f, tried.as_slice()),
        }
    }
}

fn write_tried<W: fmt::Write>(f: &mut fmt::Formatter<W>, tried: &[Unopened]) -> fmt::Result {
    write!(f, "no copy could be opened")?;
    for copy in tried {
        write!(f, "; {copy}")?;
    }
    Ok(())
}

impl From<AllocError> for ClusterFault {
    ghost use Rattle.std.specs.Prelude.{◌≡◌};
    ghost use Rattle.cluster.specs.declared.fault.ClusterFault.TheVariants.{NoMemory};

    ghost from_gives = { λ _ e. e ≡ NoMemory };

    fn from(_refused: AllocError) -> ClusterFault {
        ClusterFault::NoMemory
    }
}

impl<T: Drop> From<AllocFailed<T>> for ClusterFault {
    ghost use Rattle.std.specs.Prelude.{◌≡◌};
    ghost use Rattle.cluster.specs.declared.fault.ClusterFault.TheVariants.{NoMemory};

    ghost from_gives = { λ _ e. e ≡ NoMemory };

    fn from(_refused: AllocFailed<T>) -> ClusterFault {
        ClusterFault::NoMemory
    }
}

impl From<MasterFault> for ClusterFault {
    ghost use Rattle.std.specs.Prelude.{◌≡◌};
    ghost use Rattle.cluster.specs.Faults.{of_master};

    ghost from_gives = { λ f e. e ≡ of_master f };

    fn from(fault: MasterFault) -> ClusterFault {
        match fault {
            MasterFault::NoMemory => ClusterFault::NoMemory,
            other => ClusterFault::Master(other),
        }
    }
}

impl From<NodeFault> for ClusterFault {
    ghost use Rattle.std.specs.Prelude.{◌≡◌};
    ghost use Rattle.cluster.specs.Faults.{of_node};

    ghost from_gives = { λ f e. e ≡ of_node f };

    fn from(fault: NodeFault) -> ClusterFault {
        match fault {
            NodeFault::NoMemory => ClusterFault::NoMemory,
            NodeFault::NoSeat => ClusterFault::NoSeat,
            NodeFault::Copy(fault) => ClusterFault::Copy(fault),
            NodeFault::Stray(place) | NodeFault::Forgotten(place) => ClusterFault::Stray(place),
        }
    }
}

impl From<CopyFault> for ClusterFault {
    ghost use Rattle.std.specs.Prelude.{◌≡◌};
    ghost use Rattle.cluster.specs.Faults.{of_copy};

    ghost from_gives = { λ f e. e ≡ of_copy f };

    fn from(fault: CopyFault) -> ClusterFault {
        match fault {
            CopyFault::NoMemory => ClusterFault::NoMemory,
            other => ClusterFault::Copy(other),
        }
    }
}

/// A fault of the master's log.
pub(crate) fn of_master_log(fault: LogFault) -> ClusterFault {
    match fault {
        LogFault::NoMemory => ClusterFault::NoMemory,
        other => ClusterFault::Master(MasterFault::Log(other)),
    }
}
