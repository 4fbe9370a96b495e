//! Making a copy ready for a command.
ghost use Rattle.std.specs.Prelude.{◌≡◌, ◌⊎◌, false, IfNone, IfOk, IfSome, OnErr, OnOk};
ghost use Rattle.replica.specs.Logged.{IsSame};
ghost use Rattle.shard.specs.Ready as spec;
ghost use Rattle.shard.specs.Ready.{IsDenial, IsLeading, IsOpen, IsPromotion, IsReady, IsReopening, IsTaking, IsTold, IsUnasked, IsUnheard, IsUnopened, IsUnready, IsUntold};
ghost use Rattle.master.specs.Logged as ruler;

use master::{Master, MasterFault, Request};
use op::Msg;
use replica::{Copy, CopyFault, Input, Role};
use std::alloc::{AllocError, Global};
use translog::{LogDevice, LogFault};

/// Reopens a closed copy. If the copy has to write, the master makes it the primary. What can't be done is left undone; an error says that memory ran out.
pub(crate) fn make_ready<D: LogDevice>(
    alloc: Global,
    copy: &mut Copy<D>,
    master: &mut Master<D>,
    writes: bool,
) -> Result<(), AllocError>
    ensures ready { OnOk result (IsReady writes copy.old copy.new master.old master.new) }
    ensures wanting { OnErr result (IsUnready copy.old copy.new master.old master.new) }
{
    reopen(alloc, copy)?;
    copy.is_logged();
    lead(alloc, copy, master, writes)
}

/// Whether a copy in this role takes writes.
pub(crate) fn is_primary(role: &Role) -> bool
    ensures { result ≡ spec.is_primary role.now }
{
    match role {
        Role::Primary(_) => true,
        Role::Empty | Role::Replica => false,
    }
}

fn reopen<D: LogDevice>(alloc: Global, copy: &mut Copy<D>) -> Result<(), AllocError>
    ensures done { OnOk result (IsReopening copy.old copy.new) }
    ensures wanting { OnErr result (IsSame copy.old copy.new) }
{
    if copy.snapshot().is_some() {
        return Ok(());
    }
    restart(alloc, copy)
}

fn restart<D: LogDevice>(alloc: Global, copy: &mut Copy<D>) -> Result<(), AllocError>
    ensures done { OnOk result (IsOpen copy.old copy.new ⊎ IsUnopened copy.old copy.new) }
    ensures wanting { OnErr result (IsSame copy.old copy.new) }
{
    match copy.step(alloc, Input::Restart) {
        Ok(_) => Ok(()),
        Err(CopyFault::NoMemory) => Err(AllocError),
        Err(_) => Ok(()),
    }
}

fn lead<D: LogDevice>(
    alloc: Global,
    copy: &mut Copy<D>,
    master: &mut Master<D>,
    writes: bool,
) -> Result<(), AllocError>
    ensures done { OnOk result (IsLeading writes copy.old copy.new master.old master.new) }
    ensures wanting { OnErr result (IsSame copy.old copy.new) }
    ensures unheard { OnErr result (IsUnheard copy.old.copy.id master.old master.new) }
{
    if !writes || is_primary(copy.role()) || copy.snapshot().is_none() {
        return Ok(());
    }
    match promotion(alloc, master, copy.id())? {
        Some(message) => take(alloc, copy, message),
        None => Ok(()),
    }
}

/// The message by which the master makes a copy the primary; `None` if it doesn't. A closed master is reopened first.
fn promotion<D: LogDevice>(
    alloc: Global,
    master: &mut Master<D>,
    id: u32,
) -> Result<Option<Msg>, AllocError>
    ensures told { IfOk result (λ o. IfSome o (IsTold id master.old master.new)) }
    ensures untold { IfOk result (λ o. IfNone o (IsUntold id master.old master.new)) }
    ensures wanting { OnErr result (IsUnasked master.old master.new) }
{
    if !master.is_closed() {
        return promote(alloc, master, id);
    }
    match master.reopen(alloc) {
        Ok(()) => promote(alloc, master, id),
        Err(LogFault::NoMemory) => Err(AllocError),
        Err(_) => Ok(None),
    }
}

fn promote<D: LogDevice>(
    alloc: Global,
    master: &mut Master<D>,
    id: u32,
) -> Result<Option<Msg>, AllocError>
    requires { master.old.closed ≡ false }
    ensures told { IfOk result (λ o. IfSome o (IsPromotion id master.old master.new)) }
    ensures denied { IfOk result (λ o. IfNone o (IsDenial id master.old master.new)) }
    ensures wanting { OnErr result (ruler.IsSame master.old master.new) }
{
    match master.step(alloc, Request::Promote(id)) {
        Ok(decision) => Ok(decision.sent),
        Err(MasterFault::NoMemory) => Err(AllocError),
        Err(_) => Ok(None),
    }
}

fn take<D: LogDevice>(alloc: Global, copy: &mut Copy<D>, message: Msg) -> Result<(), AllocError>
    requires { copy.old.closed ≡ false }
    ensures done { OnOk result (IsTaking copy.old copy.new message) }
    ensures wanting { OnErr result (IsSame copy.old copy.new) }
{
    match copy.step(alloc, Input::Take(message)) {
        Ok(_) => Ok(()),
        Err(CopyFault::NoMemory) => Err(AllocError),
        Err(_) => Ok(()),
    }
}
