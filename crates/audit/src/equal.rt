//! Whether two answers of the master are the same.
ghost use Rattle.std.specs.Prelude.{◌≡◌, ◌↔◌, IsTrue};

use master::{Decision, MasterFault};
use op::Msg;

/// Whether two decisions are the same.
pub(crate) fn equal_decision(decision: &Decision, other: &Decision) -> bool
    ensures { IsTrue result ↔ (decision.now ≡ other.now) }
{
    decision.given == other.given
        && decision.repeated == other.repeated
        && equal_sent(&decision.sent, &other.sent)
}

fn equal_sent(sent: &Option<Msg>, other: &Option<Msg>) -> bool
    ensures { IsTrue result ↔ (sent.now ≡ other.now) }
{
    match (sent, other) {
        (Some(message), Some(other)) => message.is(other),
        (None, None) => true,
        _ => false,
    }
}

/// Whether two refusals of the master are the same.
pub(crate) fn equal_refusal(fault: &MasterFault, other: &MasterFault) -> bool
    ensures { IsTrue result ↔ (fault.now ≡ other.now) }
{
    match (fault, other) {
        (MasterFault::OldTerm, MasterFault::OldTerm) => true,
        (MasterFault::NotInSync, MasterFault::NotInSync) => true,
        (MasterFault::IsPrimary, MasterFault::IsPrimary) => true,
        (MasterFault::Gone, MasterFault::Gone) => true,
        (MasterFault::Log(fault), MasterFault::Log(other)) => fault.is(other),
        (MasterFault::NoMemory, MasterFault::NoMemory) => true,
        (MasterFault::Full, MasterFault::Full) => true,
        _ => false,
    }
}
