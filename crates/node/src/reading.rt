//! Reading a copy without an entry of its journal.
ghost use Rattle.std.specs.Prelude.{◌≡◌, false, IfOk};
ghost use Rattle.replica.specs.Logged.{output_of};
ghost use Rattle.node.specs.Reading.{got_by};
ghost use Rattle.node.specs.Replay.{IsIdle};

use doc::DocId;
use replica::{Answer, Copy, Input, Output, Prepared};
use std::alloc::{AllocError, Global};
use translog::LogDevice;

/// What an open copy has of an id. A step is made ready for it, and never done.
pub(crate) fn read<D: LogDevice>(
    copy: &mut Copy<D>,
    alloc: Global,
    id: DocId,
) -> Result<Answer, AllocError>
    requires open { copy.old.closed ≡ false }
    ensures answer { IfOk result (λ a. a ≡ got_by copy.old.copy id) }
    ensures idle { IsIdle copy.old copy.new }
{
    match copy.prepare(alloc, Input::Get(id)) {
        Ok(prepared) => answer_in(alloc, prepared),
        Err(_fault) => Err(AllocError),
    }
}

/// What a step that is ready answers.
fn answer_in(alloc: Global, prepared: Prepared) -> Result<Answer, AllocError>
    ensures { IfOk result (λ a. a ≡ (output_of prepared).answer) }
{
    match prepared {
        Prepared::Answered(output) => Ok(answer_of(output)),
        other => {
            let answer = other.output().answer.copy(alloc);
            drop(other);
            answer
        }
    }
}

fn answer_of(output: Output) -> Answer
    ensures { result ≡ output.answer }
{
    let Output {
        answer,
        sent,
        acknowledged,
        members: _,
    } = output;
    drop(sent);
    drop(acknowledged);
    answer
}
