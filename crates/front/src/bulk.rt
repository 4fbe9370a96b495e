//! Many writes in one request, and their page.
ghost use Rattle.std.specs.Prelude.{◌≡◌, ◌++◌, length, take, map, bytes_eq, IfOk, IfSome, OnOk, OnErr, string_bytes};
ghost use Rattle.doc.specs.Outcome.{Gives};
ghost use Rattle.front.specs.Bulk as spec;
ghost use Rattle.front.specs.BulkView.{item_view, text_view, step_view};
ghost use Rattle.front.specs.Calls.{Calls};
ghost use Rattle.front.specs.Fault.{fault_of, no_index};
ghost use Rattle.front.specs.Target.{check};
ghost use Rattle.front.specs.ReplyView.{reply_view};

use crate::command::{Change, Command, Condition, Write};
use crate::explaining::item_sentence;
use crate::page::{
    Status, error, json, kind_of, name_of, outcome_status, place, response, told_error, type_of,
    wrote_fields,
};
use crate::reply::{ItemReply, Refusal, Reply, Wrote};
use crate::request_fault::RequestFault;
use crate::service::Service;
use doc::{Doc, DocId, Mapping};
use std::alloc::{AllocError, Global};

/// What an item does to its document.
#[derive(Clone, Copy, Debug, PartialEq, Eq)]
pub(crate) enum Action {
    Index,
    Create,
    Delete,
}

/// What an action line says, and the source line that follows it.
#[derive(Drop)]
pub(crate) struct Item<'b> {
    pub(crate) action: Action,
    pub(crate) id: String,
    pub(crate) index: String,
    pub(crate) condition: Option<Condition>,
    pub(crate) source: &'b [u8],
}

/// What the page says of an item that was done, and whether that is an error.
#[derive(Drop)]
pub(crate) struct ItemText {
    pub(crate) failed: bool,
    pub(crate) text: String,
}

/// What a bulk did: the texts of its items, and why the refresh after them was refused, if it was.
#[derive(Drop)]
pub(crate) struct Done {
    pub(crate) texts: Vec<ItemText>,
    pub(crate) refusal: Option<Refusal>,
}

/// The texts of items that were done, and whether any of them was a write.
#[derive(Drop)]
struct Written {
    texts: Vec<ItemText>,
    is_any: bool,
}

/// An item of a part. Either its text is known, or it waits for the reply to its write, which has this place among the writes of the part.
#[derive(Drop)]
pub(crate) enum Step<'i, 'b> {
    Told(ItemText),
    Waits(&'i Item<'b>, usize),
}

/// The items of a part before the service is called: the writes, and a step for each item.
#[derive(Drop)]
struct Part<'i, 'b> {
    writes: Vec<Write>,
    steps: Vec<Step<'i, 'b>>,
}

/// The most writes in one command.
const MOST_WRITES: usize = 1024;

/// Does the items of a bulk in order, and then one refresh, if that is wanted and any item was a write.
pub(crate) fn do_items<'b, S: Service>(
    alloc: Global,
    greets: bool,
    service: &mut S,
    refresh: bool,
    items: &[Item<'b>],
) -> Result<Done, AllocError>
    ensures ok { IfOk result (λ done. spec.BulkDone greets S.answers (S.name service.old) (S.fields service.old) refresh (map item_view items.now)
        service.old (map text_view done.texts.items) done.refusal service.new) }
    ensures err { OnErr result (spec.BegunOf S.answers (spec.bulk_commands (S.name service.old) (S.fields service.old) refresh (map item_view items.now))
        service.old service.new) }
    ensures name { S.name service.new ≡ S.name service.old }
    ensures fields { S.fields service.new ≡ S.fields service.old }
{
    let Written { texts, is_any } = do_writes(alloc, greets, service, items)?;
    let refusal = do_refresh(service, refresh && is_any);
    Ok(Done { texts, refusal })
}

/// Does the writes of items in order, with one command for each 1,024 of them and one for the rest. A refusal of one doesn't stop the others.
fn do_writes<'b, S: Service>(
    alloc: Global,
    greets: bool,
    service: &mut S,
    items: &[Item<'b>],
) -> Result<Written, AllocError>
    ensures ok { IfOk result (λ w. spec.WritesDone greets S.answers (S.name service.old) (S.fields service.old) (map item_view items.now)
        service.old (map text_view w.texts.items) service.new) }
    ensures any { IfOk result (λ w. w.is_any ≡ spec.is_any (spec.write_commands (S.name service.old) (S.fields service.old) (map item_view items.now))) }
    ensures err { OnErr result (spec.BegunOf S.answers (spec.write_commands (S.name service.old) (S.fields service.old) (map item_view items.now))
        service.old service.new) }
    ensures name { S.name service.new ≡ S.name service.old }
    ensures fields { S.fields service.new ≡ S.fields service.old }
{
    let mut texts = Vec::new(alloc);
    let mut is_any = false;
    let mut left = items;
    while !left.is_empty() {
        let mut done = do_part(alloc, greets, service, left)?;
        left = &left[done.texts.len()..];
        texts.append(&mut done.texts)?;
        is_any = is_any || done.is_any;
    }
    Ok(Written { texts, is_any })
}

/// Refreshes, if that is wanted, and returns why the refresh was refused, if it was.
fn do_refresh<S: Service>(service: &mut S, wanted: bool) -> Option<Refusal>
    ensures done { spec.RefreshDone S.answers wanted service.old result service.new }
    ensures name { S.name service.new ≡ S.name service.old }
    ensures fields { S.fields service.new ≡ S.fields service.old }
{
    if !wanted {
        return None;
    }
    let reply = service.call(Command::Refresh);
    let refusal = refusal_in(&reply);
    drop(reply);
    refusal
}

/// Why a refresh was refused, if it was.
fn refusal_in(reply: &Reply) -> Option<Refusal>
    ensures { result ≡ spec.refusal_in (reply_view reply.now) }
{
    match reply {
        Reply::Refreshed(_) => None,
        Reply::Refused(refusal) => Some(*refusal),
        _ => Some(Refusal::Mismatch),
    }
}

/// Does the first part of the items, up to the 1,024th write, with one command for all its writes.
fn do_part<'b, S: Service>(
    alloc: Global,
    greets: bool,
    service: &mut S,
    items: &[Item<'b>],
) -> Result<Written, AllocError>
    ensures part { IfOk result (λ w. spec.IsPart (S.name service.old) (S.fields service.old) (map item_view items.now) (length w.texts.items)) }
    ensures ok { IfOk result (λ w. spec.PartDone greets S.answers (S.name service.old) (S.fields service.old) (take (length w.texts.items) (map item_view items.now))
        service.old (map text_view w.texts.items) service.new) }
    ensures any { IfOk result (λ w. w.is_any ≡ spec.is_any (spec.batch (spec.writes_of (S.name service.old) (S.fields service.old) (take (length w.texts.items) (map item_view items.now))))) }
    ensures err { OnErr result (spec.BegunOf S.answers (spec.write_commands (S.name service.old) (S.fields service.old) (map item_view items.now))
        service.old service.new) }
    ensures name { S.name service.new ≡ S.name service.old }
    ensures fields { S.fields service.new ≡ S.fields service.old }
{
    let Part { writes, steps } = read_part(
        alloc,
        greets,
        service.index(),
        service.mapping(),
        items,
    )?;
    let is_any = !writes.is_empty();
    let reply = hand_over(alloc, service, writes);
    let texts = texts_of(alloc, greets, steps, &reply)?;
    Ok(Written { texts, is_any })
}

/// Reads the sources of the first items, up to the 1,024th write.
fn read_part<'i, 'b>(
    alloc: Global,
    greets: bool,
    served: &str,
    mapping: &Mapping,
    items: &'i [Item<'b>],
) -> Result<Part<'i, 'b>, AllocError>
    ensures part { IfOk result (λ p. spec.IsPart served.now mapping.now (map item_view items.now) (length p.steps.items)) }
    ensures writes { IfOk result (λ p. p.writes.items ≡ spec.writes_of served.now mapping.now (take (length p.steps.items) (map item_view items.now))) }
    ensures steps { IfOk result (λ p. spec.AreSteps greets served.now mapping.now (take (length p.steps.items) (map item_view items.now)) (map step_view p.steps.items)) }
{
    let mut writes = Vec::new(alloc);
    let mut steps = Vec::new(alloc);
    for item in items {
        if writes.len() == MOST_WRITES {
            break;
        }
        let step = read_item(alloc, greets, served, mapping, item, &mut writes)?;
        steps.push(step)?;
    }
    Ok(Part { writes, steps })
}

/// Reads an item's source. Appends its write to `writes`, or, if the item has a fault, returns the text of the fault.
fn read_item<'i, 'b>(
    alloc: Global,
    greets: bool,
    served: &str,
    mapping: &Mapping,
    item: &'i Item<'b>,
    writes: &mut Vec<Write>,
) -> Result<Step<'i, 'b>, AllocError>
    ensures step { IfOk result (λ s. spec.IsStepOf greets (item_view item.now) (length writes.old.items) (spec.item_write served.now mapping.now (item_view item.now)) (step_view s)) }
    ensures writes { OnOk result (writes.new.items ≡ writes.old.items ++ spec.good (spec.item_write served.now mapping.now (item_view item.now))) }
{
    match item_write(alloc, served, mapping, item) {
        Ok(write) => {
            let place = writes.len();
            writes.push(write)?;
            Ok(Step::Waits(item, place))
        }
        Err(fault) => if fault.is_memory() {
            Err(AllocError)
        } else {
            Ok(Step::Told(fault_text(alloc, greets, served, mapping, item, &fault)?))
        },
    }
}

/// What the service replies to the writes of a part. If there are none, the service isn't called.
fn hand_over<S: Service>(alloc: Global, service: &mut S, writes: Vec<Write>) -> Reply
    ensures called { Calls S.answers service.old (spec.batch writes.items) (spec.said writes.items (reply_view result)) service.new }
    ensures name { S.name service.new ≡ S.name service.old }
    ensures fields { S.fields service.new ≡ S.fields service.old }
{
    if writes.is_empty() {
        drop(writes);
        return Reply::Bulked(Vec::new(alloc));
    }
    service.call(Command::Bulk(writes))
}

/// The texts of a part's items, made from the reply to their writes.
fn texts_of<'i, 'b>(
    alloc: Global,
    greets: bool,
    steps: Vec<Step<'i, 'b>>,
    reply: &Reply,
) -> Result<Vec<ItemText>, AllocError>
    ensures { IfOk result (λ ts. map text_view ts.items ≡ map (spec.step_text greets (reply_view reply.now)) (map step_view steps.entry.items)) }
{
    let mut texts = Vec::new(alloc);
    for step in steps {
        texts.push(step_text(alloc, greets, step, reply)?)?;
    }
    Ok(texts)
}

fn step_text<'i, 'b>(
    alloc: Global,
    greets: bool,
    step: Step<'i, 'b>,
    reply: &Reply,
) -> Result<ItemText, AllocError>
    ensures { IfOk result (λ t. text_view t ≡ spec.step_text greets (reply_view reply.now) (step_view step.entry)) }
{
    match step {
        Step::Told(text) => Ok(text),
        Step::Waits(item, place) => reply_text(alloc, greets, item, item_reply(reply, place)),
    }
}

/// What the reply to many writes says of the write in this place.
fn item_reply(reply: &Reply, place: usize) -> ItemReply
    ensures { result ≡ spec.item_reply (reply_view reply.now) place }
{
    match reply {
        Reply::Bulked(replies) => match replies.get(place) {
            Some(one) => *one,
            None => ItemReply::Refused(Refusal::Mismatch),
        },
        Reply::Refused(refusal) => ItemReply::Refused(*refusal),
        _ => ItemReply::Refused(Refusal::Mismatch),
    }
}

/// The write of an item, without a refresh, or the fault of the item.
#[tactic(auto, unfolding(crate::specs::Bulk::item_write))]
pub(crate) fn item_write<'b>(
    alloc: Global,
    served: &str,
    mapping: &Mapping,
    item: &Item<'b>,
) -> Result<Write, RequestFault>
    ensures { Gives fault_of (λ w. w) result (spec.item_write served.now mapping.now (item_view item.now)) }
{
    check_index(served, item.index.as_str())?;
    let id = DocId::new(alloc, item.id.as_str())?;
    match change_of(alloc, mapping, item) {
        Ok(change) => Ok(Write {
            id,
            change,
            condition: item.condition,
            refresh: false,
        }),
        Err(fault) => {
            drop(id);
            Err(fault)
        }
    }
}

fn check_index(served: &str, index: &str) -> Result<(), RequestFault>
    ensures { Gives fault_of (λ u. u) result (check (bytes_eq index.now served.now) no_index) }
{
    if index == served {
        Ok(())
    } else {
        Err(RequestFault::NoIndex)
    }
}

fn change_of<'b>(alloc: Global, mapping: &Mapping, item: &Item<'b>) -> Result<Change, RequestFault>
    ensures { Gives fault_of (λ c. c) result (spec.change_of mapping.now (item_view item.now) item.now.action) }
{
    match item.action {
        Action::Index => Ok(Change::Index(Doc::read(alloc, mapping, item.source)?)),
        Action::Create => Ok(Change::Create(Doc::read(alloc, mapping, item.source)?)),
        Action::Delete => Ok(Change::Delete),
    }
}

fn reply_text<'b>(
    alloc: Global,
    greets: bool,
    item: &Item<'b>,
    reply: ItemReply,
) -> Result<ItemText, AllocError>
    ensures { IfOk result (λ t. text_view t ≡ spec.reply_text greets (item_view item.now) reply) }
{
    match reply {
        ItemReply::Wrote(wrote) => {
            let inner = wrote_inner(alloc, greets, item, wrote)?;
            let text = item_text(alloc, item, inner.as_str())?;
            Ok(ItemText {
                failed: false,
                text,
            })
        }
        ItemReply::Refused(refusal) => {
            let named = refusal_error(alloc, greets, refusal)?;
            let (status, _) = refusal.kind();
            refusal_text(alloc, greets, item, named.as_str(), status)
        }
    }
}

/// The object that names a refusal. If the server greets, a sentence says why.
fn refusal_error(alloc: Global, greets: bool, refusal: Refusal) -> Result<String, AllocError>
    ensures { IfOk result (λ t. string_bytes t ≡ spec.refusal_error greets refusal) }
{
    if greets {
        return told_error(alloc, refusal.name(), refusal.words(), refusal.type_name());
    }
    error(alloc, refusal.name(), refusal.kind().1)
}

fn fault_text<'b>(
    alloc: Global,
    greets: bool,
    served: &str,
    mapping: &Mapping,
    item: &Item<'b>,
    fault: &RequestFault,
) -> Result<ItemText, AllocError>
    ensures { IfOk result (λ t. IfSome (fault_of fault.now) (λ f. spec.IsFaultText greets (item_view item.now) f (text_view t))) }
{
    let why = if greets {
        item_sentence(alloc, served, mapping, fault, item.source)?
    } else {
        String::new(alloc)
    };
    fault_text_with(alloc, greets, why.as_str(), item, fault)
}

fn fault_text_with<'b>(
    alloc: Global,
    greets: bool,
    why: &str,
    item: &Item<'b>,
    fault: &RequestFault,
) -> Result<ItemText, AllocError>
    ensures { IfOk result (λ t. IfSome (fault_of fault.now) (λ f. text_view t ≡ spec.fault_text greets why.now (item_view item.now) f)) }
{
    let named = fault_error(alloc, greets, why, fault)?;
    let (status, _) = kind_of(fault);
    refusal_text(alloc, greets, item, named.as_str(), status)
}

/// The object that names a fault. If the server greets, a sentence says why.
fn fault_error(
    alloc: Global,
    greets: bool,
    why: &str,
    fault: &RequestFault,
) -> Result<String, AllocError>
    ensures { IfOk result (λ t. IfSome (fault_of fault.now) (λ f. string_bytes t ≡ spec.fault_error greets why.now f)) }
{
    if greets {
        return told_error(alloc, name_of(fault), why, type_of(fault));
    }
    error(alloc, name_of(fault), kind_of(fault).1)
}

fn refusal_text<'b>(
    alloc: Global,
    greets: bool,
    item: &Item<'b>,
    named: &str,
    status: Status,
) -> Result<ItemText, AllocError>
    ensures { IfOk result (λ t. text_view t ≡ spec.refusal_text greets (item_view item.now) named.now status) }
{
    let inner = error_inner(alloc, greets, item, named, status)?;
    let text = item_text(alloc, item, inner.as_str())?;
    Ok(ItemText { failed: true, text })
}

#[tactic(auto, unfolding(crate::specs::Bulk::item_text))]
fn item_text<'b>(alloc: Global, item: &Item<'b>, inner: &str) -> Result<String, AllocError>
    ensures { IfOk result (λ t. string_bytes t ≡ spec.item_text (item_view item.now) inner.now) }
{
    let action = item.action.name();
    format!(in alloc; "{{\"{action}\":{{{inner}}}}}")
}

impl Action {
    fn name(self) -> &'static str
        ensures { result.now ≡ spec.action_name self }
    {
        match self {
            Action::Index => "index",
            Action::Create => "create",
            Action::Delete => "delete",
        }
    }
}

#[tactic(auto, unfolding(crate::specs::Bulk::wrote_inner))]
fn wrote_inner<'b>(
    alloc: Global,
    greets: bool,
    item: &Item<'b>,
    wrote: Wrote,
) -> Result<String, AllocError>
    ensures { IfOk result (λ t. string_bytes t ≡ spec.wrote_inner greets (item_view item.now) wrote) }
{
    let fields = wrote_fields(alloc, greets, item.id.as_str(), item.index.as_str(), wrote)?;
    let fields = fields.as_str();
    let number = outcome_status(wrote.outcome).number();
    format!(in alloc; "{fields},\"status\":{number}")
}

/// The fields of an item that was refused, given the object that names the refusal.
#[tactic(auto, unfolding(crate::specs::Bulk::error_inner))]
fn error_inner<'b>(
    alloc: Global,
    greets: bool,
    item: &Item<'b>,
    named: &str,
    status: Status,
) -> Result<String, AllocError>
    ensures { IfOk result (λ t. string_bytes t ≡ spec.error_inner greets (item_view item.now) named.now status) }
{
    let place = place(alloc, greets, item.id.as_str(), item.index.as_str())?;
    let place = place.as_str();
    let number = status.number();
    format!(in alloc; "{place},\"error\":{named},\"status\":{number}")
}

fn more_texts(alloc: Global, texts: &[ItemText]) -> Result<String, AllocError>
    ensures { IfOk result (λ t. string_bytes t ≡ spec.more_texts (map text_view texts.now)) }
{
    let mut text = String::new(alloc);
    for one in texts {
        text.push_str(",")?;
        text.push_str(one.text.as_str())?;
    }
    Ok(text)
}

fn joined(alloc: Global, texts: &[ItemText]) -> Result<String, AllocError>
    ensures { IfOk result (λ t. string_bytes t ≡ spec.joined (map text_view texts.now)) }
{
    match texts {
        [] => Ok(String::new(alloc)),
        [one, others @ ..] => {
            let mut text = String::from_str(alloc, one.text.as_str())?;
            let others = more_texts(alloc, others)?;
            text.push_str(others.as_str())?;
            Ok(text)
        }
    }
}

fn has_failed(texts: &[ItemText]) -> bool
    ensures { result ≡ spec.has_failed (map text_view texts.now) }
{
    for one in texts {
        if one.failed {
            return true;
        }
    }
    false
}

fn truth(b: bool) -> &'static str
    ensures { result.now ≡ spec.truth b }
{
    if b { "true" } else { "false" }
}

/// The field that says why the refresh was refused, if it was.
fn refresh_field(
    alloc: Global,
    greets: bool,
    refusal: Option<Refusal>,
) -> Result<String, AllocError>
    ensures { IfOk result (λ t. string_bytes t ≡ spec.refresh_field greets refusal) }
{
    let Some(refusal) = refusal else {
        return Ok(String::new(alloc));
    };
    let named = refusal_error(alloc, greets, refusal)?;
    let named = named.as_str();
    format!(in alloc; ",\"refresh\":{named}")
}

#[tactic(auto, unfolding(crate::specs::Bulk::bulk_body))]
fn bulk_body(
    alloc: Global,
    greets: bool,
    texts: &[ItemText],
    refusal: Option<Refusal>,
) -> Result<String, AllocError>
    ensures { IfOk result (λ t. string_bytes t ≡ spec.bulk_body greets (map text_view texts.now) refusal) }
{
    let errors = truth(has_failed(texts));
    let items = joined(alloc, texts)?;
    let items = items.as_str();
    let refresh = refresh_field(alloc, greets, refusal)?;
    let refresh = refresh.as_str();
    format!(in alloc; "{{\"errors\":{errors},\"items\":[{items}]{refresh},\"took\":0}}")
}

/// The page that says what a bulk did.
pub(crate) fn bulk_page(
    alloc: Global,
    greets: bool,
    texts: &[ItemText],
    refusal: Option<Refusal>,
) -> Result<String, AllocError>
    ensures { IfOk result (λ page. string_bytes page ≡ spec.bulk_page greets (map text_view texts.now) refusal) }
{
    let body = bulk_body(alloc, greets, texts, refusal)?;
    response(alloc, json(greets), Status::Good, "", body.as_str())
}
