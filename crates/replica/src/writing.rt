//! What a write asks of the last operation on its id, and what it makes of it.
ghost use Rattle.std.specs.Prelude.{◌≡◌, ◌<◌, ◌^◌};
ghost use Rattle.replica.specs.LastView as view;
ghost use Rattle.replica.specs.Step.{body_of, is_number, outcome_of};

use crate::input::{Condition, OpType, Write};
use crate::output::Outcome;
use engine::Last;
use op::Body;

/// The greatest sequence number, term and version.
pub(crate) const GREATEST: u64 = 9_223_372_036_854_775_807;

/// Whether the last operation allows the write.
pub(crate) fn is_allowed(last: Option<Last>, kind: &OpType) -> bool
    ensures { result ≡ view.is_allowed_by last kind.now }
{
    match kind {
        OpType::Index(_, condition) => is_met(last, *condition),
        OpType::Create(_) => !is_live(last),
        OpType::Delete(condition) => is_met(last, *condition),
    }
}

/// Whether the last operation left a document and has both numbers of the condition.
fn is_met(last: Option<Last>, condition: Option<Condition>) -> bool
    ensures { result ≡ view.is_met_by last condition }
{
    let Some(condition) = condition else {
        return true;
    };
    match last {
        Some(last) => last.live && last.seq == condition.seq && last.term == condition.term,
        None => false,
    }
}

/// Whether the last operation left a document.
pub(crate) fn is_live(last: Option<Last>) -> bool
    ensures { result ≡ view.is_live last }
{
    match last {
        Some(last) => last.live,
        None => false,
    }
}

/// Whether the version after the last operation is one.
pub(crate) fn has_version(last: Option<Last>) -> bool
    ensures { result ≡ is_number (view.version_of last) }
{
    match last {
        Some(last) => last.version < GREATEST,
        None => true,
    }
}

/// The version after the last operation.
pub(crate) fn version_after(last: Option<Last>) -> u64
    requires { view.version_of last < 2 ^ 63 }
    ensures { result ≡ view.version_of last }
{
    match last {
        Some(last) => last.version + 1,
        None => 1,
    }
}

/// What the write makes of a document that is there or not.
pub(crate) fn outcome(live: bool, kind: &OpType) -> Outcome
    ensures { result ≡ outcome_of live kind.now }
{
    match kind {
        OpType::Index(_, _) => if live {
            Outcome::Updated
        } else {
            Outcome::Created
        },
        OpType::Create(_) => Outcome::Created,
        OpType::Delete(_) => if live {
            Outcome::Deleted
        } else {
            Outcome::NotFound
        },
    }
}

/// What the operation of the write does.
pub(crate) fn body(write: Write) -> Body
    ensures { result ≡ body_of write.id write.kind }
{
    let Write { id, kind } = write;
    match kind {
        OpType::Index(source, _) => Body::Index(id, source),
        OpType::Create(source) => Body::Index(id, source),
        OpType::Delete(_) => Body::Delete(id),
    }
}
