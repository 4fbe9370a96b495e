//! Promotions of copies that a caller asks for.
ghost use Rattle.std.specs.Prelude.{◌≡◌, IfOk};
ghost use Rattle.front.specs.ReplyView.{reply_view};
ghost use Rattle.group.specs.Group.{master_refusal, IsMadePrimary};

use crate::group::refusal_by;
use cell::IndexName;
use cluster::{Client, ClusterFault};
use front::command::Command;
use front::reply::{Refusal, Reply};
use master::MasterFault;
use ruled::{Decided, Past};
use std::sync::Wait;
use translog::LogDevice;

/// The reply that reports a promotion, which is the last entry of this past.
#[derive(Drop)]
pub(crate) struct Promotion<J: IndexName> {
    pub(crate) reply: Reply,
    pub(crate) past: Past<J>,
}

/// Waits until the copy that the master names as the primary has taken the messages that came to it before, that it is the primary among them: a get may
/// come before them.
fn caught_up<R: Wait + Drop, D: LogDevice, J: IndexName>(rt: &R, client: &Client<R, D, J>) {
    let primary = client.primary(rt).primary;
    drop(client.searcher(rt, primary));
}

/// Has the master make a copy the primary, and waits until the copy knows. Each promotion has a message, from which the copy learns its term.
pub(crate) fn promoted<R: Wait + Drop, D: LogDevice, J: IndexName>(
    rt: &R,
    client: &Client<R, D, J>,
    copy: u32,
) -> Result<Promotion<J>, ClusterFault>
    ensures { IfOk result (λ p. IsMadePrimary copy (reply_view p.reply) p.past) }
{
    let Decided { decision, past } = client.promote(rt, copy)?;
    caught_up(rt, client);
    match &decision.sent {
        Some(message) => Ok(Promotion {
            reply: Reply::Promoted(copy, message.term),
            past,
        }),
        None => Err(ClusterFault::Stray(0)),
    }
}

/// Whether a command is a promotion.
pub(crate) fn is_promotion(command: &Command) -> bool {
    matches!(command, Command::Promote(_))
}

/// The refusal that says why a command has no answer. If the command is a promotion, the master's refusals have their own names.
pub(crate) fn refusal_to(promotes: bool, fault: &ClusterFault) -> Refusal {
    match fault {
        ClusterFault::Master(named) => if promotes {
            refusal_of_master(named)
        } else {
            refusal_by(fault)
        },
        _ => refusal_by(fault),
    }
}

fn refusal_of_master(fault: &MasterFault) -> Refusal
    ensures { result ≡ master_refusal fault.now }
{
    match fault {
        MasterFault::OldTerm => Refusal::OldTerm,
        MasterFault::NotInSync => Refusal::NotInSync,
        MasterFault::IsPrimary => Refusal::IsPrimary,
        MasterFault::Gone => Refusal::Gone,
        MasterFault::Log(_) => Refusal::Log,
        MasterFault::NoMemory => Refusal::NoMemory,
        MasterFault::Full => Refusal::Full,
    }
}
