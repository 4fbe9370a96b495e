//! Steps of the copies of a world.
ghost use Rattle.std.specs.Prelude.{◌≡◌, ◌≤◌, ◌<◌, ◌+◌, ◌++◌, ◌∷◌, [], false, map, vec_len, vec_capacity, IfOk, IfSome, IsOk, OnOk, OnErr};
ghost use Rattle.std.specs.Option.{option_map};
ghost use Rattle.op.specs.Ids.{ids_up_to};
ghost use Rattle.replica.specs.Copy.{begun, opened};
ghost use Rattle.replica.specs.Fault.{fault_of, is_log};
ghost use Rattle.replica.specs.Logged.{output_of, prepared_copy, IsReady};
ghost use Rattle.replica.specs.Step.{copy_step, torn};
ghost use Rattle.replica.specs.declared.role.Birth.TheVariants.{Added};
ghost use Rattle.world.specs.declared.event.EventAnswer.TheVariants.{Answered, Refused, Torn};
ghost use Rattle.world.specs.Nodes.{copies_of, local_step, with_one, AreOpen};
ghost use Rattle.world.specs.World.{place_in};

use crate::event::EventAnswer;
use crate::nodes::OneCopy;
use doc::Mapping;
use op::{Msg, Op};
use replica::{Birth, Copy, CopyFault, Input, Output, Prepared};
use std::alloc::{AllocError, Global};
use translog::MemDevice;

/// The place of the copy with an id.
pub(crate) fn place_of(copies: &[OneCopy], id: u32) -> Option<usize>
    ensures { result ≡ place_in (copies_of copies.now) id }
{
    for (place, copy) in copies.iter().enumerate() {
        if copy.id() == id {
            return Some(place);
        }
    }
    None
}

/// A step of a copy, with the messages and the acknowledged operations that it adds. Room for these is made before the step is done.
pub(crate) fn step_copy(
    alloc: Global,
    copy: &mut OneCopy,
    input: Input,
    messages: &mut Vec<Msg>,
    acknowledged: &mut Vec<Op>,
) -> Result<EventAnswer, AllocError>
    requires { copy.old.closed ≡ false }
    ensures happened { IfOk result (λ a. local_step copy.old.copy messages.old.items acknowledged.old.items (copy_step copy.old.copy input)
        ≡ record { copy = copy.new.copy; messages = messages.new.items; acknowledged = acknowledged.new.items; answer = a }) }
    ensures stays { OnErr result (copy.new.copy ≡ copy.old.copy) }
    ensures messages { OnErr result (messages.new.items ≡ messages.old.items) }
    ensures acknowledged { OnErr result (acknowledged.new.items ≡ acknowledged.old.items) }
    ensures id { copy.new.copy.id ≡ copy.old.copy.id }
    ensures open { copy.new.closed ≡ false }
{
    match copy.prepare(alloc, input) {
        Ok(prepared) => finish(alloc, copy, prepared, messages, acknowledged),
        Err(fault) => refused(fault),
    }
}

/// Does a step that is ready, once there is room for what it adds.
fn finish(
    alloc: Global,
    copy: &mut OneCopy,
    prepared: Prepared,
    messages: &mut Vec<Msg>,
    acknowledged: &mut Vec<Op>,
) -> Result<EventAnswer, AllocError>
    requires ready { IsReady copy.old prepared }
    requires open { copy.old.closed ≡ false }
    ensures answer { IfOk result (λ a. a ≡ Answered (output_of prepared).answer (output_of prepared).sent (output_of prepared).acknowledged) }
    ensures copy { OnOk result (copy.new.copy ≡ prepared_copy copy.old.copy prepared) }
    ensures sent { OnOk result (messages.new.items ≡ messages.old.items ++ (output_of prepared).sent) }
    ensures settled { OnOk result (acknowledged.new.items ≡ acknowledged.old.items ++ (output_of prepared).acknowledged) }
    ensures stays { OnErr result (copy.new.copy ≡ copy.old.copy) }
    ensures messages { OnErr result (messages.new.items ≡ messages.old.items) }
    ensures acknowledged { OnErr result (acknowledged.new.items ≡ acknowledged.old.items) }
    ensures open { copy.new.closed ≡ false }
{
    let Ok((sent, settled)) = room_for(alloc, &prepared, messages, acknowledged) else {
        drop(prepared);
        return Err(AllocError);
    };
    let Ok(output) = done(alloc, copy, prepared) else {
        drop(sent);
        drop(settled);
        return Err(AllocError);
    };
    add(messages, sent);
    add(acknowledged, settled);
    Ok(answered(output))
}

/// Room for what a step adds to the messages and the acknowledged operations, and copies of it.
fn room_for(
    alloc: Global,
    prepared: &Prepared,
    messages: &mut Vec<Msg>,
    acknowledged: &mut Vec<Op>,
) -> Result<(Vec<Msg>, Vec<Op>), AllocError>
    ensures messages { messages.new.items ≡ messages.old.items }
    ensures acknowledged { acknowledged.new.items ≡ acknowledged.old.items }
    ensures sent { IfOk result (λ x. x.0.items ≡ (output_of prepared.now).sent) }
    ensures settled { IfOk result (λ x. x.1.items ≡ (output_of prepared.now).acknowledged) }
    ensures room { IfOk result (λ x. vec_len messages.new + vec_len x.0 ≤ vec_capacity messages.new) }
    ensures room_settled { IfOk result (λ x. vec_len acknowledged.new + vec_len x.1 ≤ vec_capacity acknowledged.new) }
{
    let output = prepared.output();
    let sent = copied(alloc, output.sent.as_slice())?;
    messages.reserve(sent.len())?;
    let settled = output.acknowledged.copy(alloc)?.into_vec();
    acknowledged.reserve(settled.len())?;
    Ok((sent, settled))
}

/// Does a step that is ready. Over a log in memory only memory can run out, and that changes nothing.
fn done(alloc: Global, copy: &mut OneCopy, prepared: Prepared) -> Result<Output, AllocError>
    requires ready { IsReady copy.old prepared }
    requires open { copy.old.closed ≡ false }
    ensures output { IfOk result (λ o. o ≡ output_of prepared) }
    ensures copy { OnOk result (copy.new.copy ≡ prepared_copy copy.old.copy prepared) }
    ensures stays { OnErr result (copy.new.copy ≡ copy.old.copy) }
    ensures open { copy.new.closed ≡ false }
{
    match copy.commit(alloc, prepared) {
        Ok(output) => Ok(output),
        Err(_) => Err(AllocError),
    }
}

/// A step of a copy that is cut short.
pub(crate) fn tear_copy(
    alloc: Global,
    copy: &mut OneCopy,
    input: Input,
    is_kept: bool,
) -> Result<EventAnswer, AllocError>
    requires { copy.old.closed ≡ false }
    ensures copy { OnOk result (copy.new.copy ≡ torn copy.old.copy (copy_step copy.old.copy input) is_kept) }
    ensures answer { IfOk result (λ a. a ≡ Torn copy.new.copy.point) }
    ensures id { OnOk result (copy.new.copy.id ≡ copy.old.copy.id) }
    ensures stays { OnErr result (copy.new.copy ≡ copy.old.copy) }
    ensures open { copy.new.closed ≡ false }
{
    copy.tear(alloc, input, is_kept)?;
    Ok(EventAnswer::Torn(copy.point()))
}

/// The copies of a new index.
pub(crate) fn begun(
    alloc: Global,
    mapping: &Mapping,
    copies: u8,
) -> Result<Vec<OneCopy>, AllocError>
    ensures copies { IfOk result (λ v. copies_of v.items ≡ map (λ id. begun id copies mapping.now) (ids_up_to copies)) }
    ensures open { IfOk result (λ v. AreOpen v.items) }
{
    let mut all = Vec::new(alloc);
    for before in 0..copies {
        let device = MemDevice::new(Vec::new(alloc));
        let equal = mapping.copy(alloc)?;
        match Copy::begin(alloc, before as u32 + 1, copies as u32, equal, device) {
            Ok(copy) => all.push(copy)?,
            Err(refused) => {
                drop(refused);
                return Err(AllocError);
            }
        }
    }
    Ok(all)
}

/// The copy that an id is given to, without records.
pub(crate) fn added(
    alloc: Global,
    given: Option<u32>,
    mapping: &Mapping,
) -> Result<Option<OneCopy>, AllocError>
    ensures copy { IfOk result (λ o. option_map (λ c. c.copy) o ≡ option_map (λ id. opened id Added mapping.now []) given) }
    ensures open { IfOk result (λ o. IfSome o (λ c. c.closed ≡ false)) }
{
    let Some(id) = given else {
        return Ok(None);
    };
    let device = MemDevice::new(Vec::new(alloc));
    let mapping = mapping.copy(alloc)?;
    match Copy::open(alloc, id, Birth::Added, mapping, device) {
        Ok(copy) => Ok(Some(copy)),
        Err(refused) => {
            drop(refused);
            Err(AllocError)
        }
    }
}

/// A refusal of a copy as an answer.
fn refused(fault: CopyFault) -> Result<EventAnswer, AllocError>
    requires { is_log fault ≡ false }
    ensures { IfOk result (λ a. (a ≡ Refused fault) × (fault_of fault ≡ Some fault)) }
{
    match fault {
        CopyFault::NoMemory => Err(AllocError),
        _ => Ok(EventAnswer::Refused(fault)),
    }
}

/// The answer of an accepted step.
fn answered(output: Output) -> EventAnswer
    ensures { result ≡ Answered output.answer output.sent output.acknowledged }
{
    let Output {
        answer,
        sent,
        acknowledged,
        ..
    } = output;
    EventAnswer::Answered(answer, sent, acknowledged)
}

/// Equal messages.
fn copied(alloc: Global, messages: &[Msg]) -> Result<Vec<Msg>, AllocError>
    ensures { IfOk result (λ v. v.items ≡ messages.now) }
{
    let mut items = Vec::new(alloc);
    for message in messages {
        items = pushed(items, message.copy(alloc))?;
    }
    Ok(items)
}

/// The items and one more, where that could be made. It is a function over any type, so that what may be large is dropped once and for all.
fn pushed<T: Drop>(items: Vec<T>, one: Result<T, AllocError>) -> Result<Vec<T>, AllocError>
    ensures made { OnOk result (IsOk one) }
    ensures pushed { IfOk result (λ v. IfOk one (λ it. v.items ≡ items.items ++ it ∷ [])) }
{
    let mut items = items;
    items.push(one?)?;
    Ok(items)
}

/// Adds more to a list that has room for it.
pub(crate) fn add<T: Drop>(list: &mut Vec<T>, more: Vec<T>)
    requires { vec_len list.old + vec_len more ≤ vec_capacity list.old }
    ensures { list.new.items ≡ list.old.items ++ more.items }
{
    let mut more = more;
    let _ = list.append(&mut more);
}

/// Adds one more, where there is one, to a list that has room for it.
pub(crate) fn add_one<T: Drop>(list: &mut Vec<T>, one: Option<T>)
    requires { vec_len list.old < vec_capacity list.old }
    ensures { list.new.items ≡ with_one list.old.items one }
{
    if let Some(one) = one {
        let _ = list.push(one);
    }
}
