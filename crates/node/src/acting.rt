//! One step of a copy, in two halves.
ghost use Rattle.std.specs.Prelude.{◌≡◌, Err, IfOk, OnErr};
ghost use Rattle.replica.specs.Logged.{IsReady};
ghost use Rattle.node.specs.Acting.{IsCommitted};
ghost use Rattle.node.specs.Replay.{IsIdle, IsStep};

use replica::{Copy, CopyFault, Input, Output, Prepared};
use std::alloc::{AllocError, Global};
use translog::LogDevice;

/// What a step answered.
pub(crate) type Answered = Result<Output, CopyFault>;

/// What a step answered, for the journal, the pass and the caller.
#[derive(Drop)]
pub(crate) struct Answers {
    pub(crate) own: Answered,
    pub(crate) kept: Answered,
    pub(crate) given: Answered,
}

/// A refusal three times.
fn thrice(fault: CopyFault) -> Answers
    ensures own { result.own ≡ Err fault }
    ensures kept { result.kept ≡ result.own }
    ensures given { result.given ≡ result.own }
{
    Answers {
        kept: Err(fault.copy()),
        given: Err(fault.copy()),
        own: Err(fault),
    }
}

/// Does a step that is ready; its answers are there before it is done.
fn finish<D: LogDevice>(
    copy: &mut Copy<D>,
    alloc: Global,
    prepared: Prepared,
) -> Result<Answers, AllocError>
    requires ready { IsReady copy.old prepared }
    ensures done { IfOk result (λ a. IsCommitted copy.old copy.new prepared a.own) }
    ensures same { IfOk result (λ a. (a.kept ≡ a.own) × (a.given ≡ a.own)) }
    ensures err { OnErr result (copy.new ≡ copy.old) }
{
    let kept = prepared.output().copy(alloc)?;
    let given = prepared.output().copy(alloc)?;
    match copy.commit(alloc, prepared) {
        Ok(output) => Ok(Answers {
            own: Ok(output),
            kept: Ok(kept),
            given: Ok(given),
        }),
        Err(fault) => {
            drop(kept);
            drop(given);
            Ok(thrice(fault))
        }
    }
}

/// A step of the copy.
pub(crate) fn act<D: LogDevice>(
    copy: &mut Copy<D>,
    alloc: Global,
    input: Input,
) -> Result<Answers, AllocError>
    ensures step { IfOk result (λ a. IsStep copy.old copy.new input a.own) }
    ensures same { IfOk result (λ a. (a.kept ≡ a.own) × (a.given ≡ a.own)) }
    ensures err { OnErr result (IsIdle copy.old copy.new) }
{
    match copy.prepare(alloc, input) {
        Ok(prepared) => finish(copy, alloc, prepared),
        Err(fault) => Ok(thrice(fault)),
    }
}
