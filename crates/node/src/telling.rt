//! A step of a copy, as an entry of its journal.
ghost use Rattle.std.specs.Prelude.{◌≡◌, IfOk, OnErr};
ghost use Rattle.node.specs.Replay.{IsIdle, IsStep};
ghost use Rattle.node.specs.Telling.{IsTold, IsTelling};

use crate::acting::{Answers, act};
use crate::fault::NodeFault;
use journal::Deed;
use replica::{Copy, Input};
use std::alloc::{AllocError, Global};
use translog::LogDevice;

/// An input four times: for the step, the journal, the pass and the caller.
#[derive(Drop)]
pub(crate) struct Inputs {
    asked: Input,
    own: Input,
    kept: Input,
    given: Input,
}

impl Inputs {
    pub(crate) fn of(alloc: Global, input: Input) -> Result<Inputs, AllocError>
        ensures { IfOk result (λ i. (i.asked ≡ input) × (i.own ≡ input) × (i.kept ≡ input) × (i.given ≡ input)) }
    {
        let (first, second) = twice(alloc, input)?;
        let (asked, own) = twice(alloc, first)?;
        let (kept, given) = twice(alloc, second)?;
        Ok(Inputs {
            asked,
            own,
            kept,
            given,
        })
    }
}

/// An input and an equal one.
fn twice(alloc: Global, input: Input) -> Result<(Input, Input), AllocError>
    ensures { IfOk result (λ inputs. (inputs.0 ≡ input) × (inputs.1 ≡ input)) }
{
    let copied = input.copy(alloc)?;
    Ok((input, copied))
}

/// An entry, for the journal, the pass and the caller.
#[derive(Drop)]
pub(crate) struct Told {
    pub(crate) own: Deed,
    pub(crate) kept: Deed,
    pub(crate) given: Result<Deed, NodeFault>,
}

/// The place of an entry that the journal has, and what the pass and the caller get.
#[derive(Drop)]
pub(crate) struct Entered {
    pub(crate) place: u64,
    pub(crate) kept: Deed,
    pub(crate) given: Result<Deed, NodeFault>,
}

/// The entry three times.
fn spelt(pass: u64, own: Input, kept: Input, given: Input, answers: Answers) -> Told
    requires same { (kept ≡ own) × (given ≡ own) × (answers.kept ≡ answers.own) × (answers.given ≡ answers.own) }
    ensures { IsTold pass own answers.own result }
{
    Told {
        own: Deed {
            pass,
            input: own,
            answer: answers.own,
        },
        kept: Deed {
            pass,
            input: kept,
            answer: answers.kept,
        },
        given: match answers.given {
            Ok(output) => Ok(Deed {
                pass,
                input: given,
                answer: Ok(output),
            }),
            Err(fault) => {
                drop(given);
                Err(NodeFault::Copy(fault))
            }
        },
    }
}

/// Does one step of the copy, and spells out what it did.
pub(crate) fn tell<D: LogDevice>(
    copy: &mut Copy<D>,
    alloc: Global,
    pass: u64,
    inputs: Inputs,
) -> Result<Told, AllocError>
    requires same { (inputs.own ≡ inputs.asked) × (inputs.kept ≡ inputs.asked) × (inputs.given ≡ inputs.asked) }
    ensures told { IfOk result (λ t. IsTelling copy.old copy.new pass inputs.asked t) }
    ensures err { OnErr result (IsIdle copy.old copy.new) }
{
    let Inputs {
        asked,
        own,
        kept,
        given,
    } = inputs;
    let answers = act(copy, alloc, asked)?;
    Ok(spelt(pass, own, kept, given, answers))
}
