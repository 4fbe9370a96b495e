//! Waiting for the disk without an entry of the journal.
ghost use Rattle.std.specs.Prelude.{◌≡◌, true, IfErr, IsOk};
ghost use Rattle.translog.specs.declared.fault.LogFault.TheVariants.{Device};
ghost use Rattle.replica.specs.declared.fault.CopyFault.TheVariants.{Log};
ghost use Rattle.node.specs.declared.fault.NodeFault.TheVariants.{Copy as Refused};
ghost use Rattle.node.specs.Replay.{IsIdle};

use crate::fault::NodeFault;
use replica::Copy;
use translog::{LogDevice, Synced};

/// Waits until all that the copy has kept is there after a crash too.
pub(crate) fn synced<D: LogDevice>(copy: &mut Copy<D>) -> Result<Synced, NodeFault>
    ensures idle { IsIdle copy.old copy.new }
    ensures refused { IfErr result (λ e. e ≡ Refused (Log Device)) }
    ensures in_memory { D.in_memory ≡ true → IsOk result }
{
    match copy.sync() {
        Ok(log) => Ok(log),
        Err(fault) => Err(NodeFault::Copy(fault)),
    }
}
