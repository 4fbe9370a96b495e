//! How a copy answers commands, and the replies made of its answers.
ghost use Rattle.std.specs.Prelude.{◌≡◌, ◌⊎◌, true, false, length, map, IfOk, IfErr, OnOk, option_map};
ghost use Rattle.doc.specs.Outcome.{Gives};
ghost use Rattle.engine.specs.Answer.{answer_of, found};
ghost use Rattle.engine.specs.Shown.{hit_view};
ghost use Rattle.front.specs.CommandView.{command_view};
ghost use Rattle.front.specs.Reply.{counted};
ghost use Rattle.front.specs.ReplyView.{reply_view};
ghost use Rattle.query.specs.View.{query_view};
ghost use Rattle.replica.specs.Fault.{fault_of, is_log};
ghost use Rattle.replica.specs.Logged.{uses_log};
ghost use Rattle.replica.specs.Step.{copy_step};
ghost use Rattle.shard.specs.Answering as spec;
ghost use Rattle.shard.specs.Asked.{bulk_taken};

use crate::asked::{Asked, Form};
use engine::{Hit as Found, Hits, Snapshot};
use front::command::{Change, Command, Condition, Write};
use front::reply::{Found as Document, Hit, ItemReply, Outcome, Refusal, Reply, Wrote};
use front::{CopyStats, Stats};
use query::{Page, Query, SearchBody};
use replica::{
    Answer, Copy, CopyFault, CopyStatus, Input, Item, Items, OpType, Output, Writes, Written,
};
use std::alloc::{AllocError, Global};
use std::sync::Arc;
use translog::LogDevice;

/// Carries out a command. If the copy refuses it, the reply is the refusal.
pub(crate) fn reply_to<D: LogDevice>(alloc: Global, copy: &mut Copy<D>, asked: Asked) -> Reply
    ensures { spec.IsAnswered copy.old (command_view asked) (reply_view result) copy.new }
{
    if copy.snapshot().is_none() {
        return Reply::Refused(Refusal::Closed);
    }
    match answer(alloc, copy, asked) {
        Ok(reply) => reply,
        Err(fault) => Reply::Refused(refusal_of(&fault)),
    }
}

/// Carries out a command. If memory runs out, nothing has changed, or the writes stand without their refresh or reply.
pub(crate) fn answer<D: LogDevice>(
    alloc: Global,
    copy: &mut Copy<D>,
    asked: Asked,
) -> Result<Reply, CopyFault>
    requires { copy.old.closed ≡ false }
    ensures gives { Gives fault_of (λ r. (copy.new.copy, reply_view r)) result (spec.asked copy.old.copy (command_view asked)) }
    ensures open { OnOk result (copy.new.closed ≡ false) }
    ensures part { IfErr result (λ e. is_log e ≡ false → (copy.new.closed ≡ false) × spec.IsPartOf (command_view asked) copy.old.copy copy.new.copy) }
    ensures failed { IfErr result (λ e. is_log e ≡ true → spec.HasFailedIn (command_view asked) copy.old copy.new) }
{
    match asked.into_form() {
        Form::Write(write) => do_write(alloc, copy, write),
        Form::Bulk(taken) => match taken? {
            Some(writes) => do_bulk(alloc, copy, writes),
            None => Ok(Reply::Refused(Refusal::Mismatch)),
        },
        Form::Get(id) => take(alloc, copy, Input::Get(id)),
        Form::Search(body) => search(alloc, copy, &body),
        Form::Count(query) => count(alloc, copy, &query),
        Form::Refresh => take(alloc, copy, Input::Refresh),
        Form::Promote(other) => Ok(Reply::Refused(promotion_refusal(copy.id(), other))),
    }
}

/// Why an only copy isn't promoted: it leads whenever it has to write, and there is no other copy.
fn promotion_refusal(own: u32, copy: u32) -> Refusal
    ensures { result ≡ spec.promotion_refusal own copy }
{
    if copy == own {
        Refusal::IsPrimary
    } else {
        Refusal::NotInSync
    }
}

/// Has the copy do one step.
fn take<D: LogDevice>(alloc: Global, copy: &mut Copy<D>, input: Input) -> Result<Reply, CopyFault>
    requires open { copy.old.closed ≡ false }
    requires no_log { uses_log input ≡ false }
    ensures gives { Gives fault_of (λ r. (copy.new.copy, reply_view r)) result (spec.taken copy.old.copy input) }
    ensures open { OnOk result (copy.new.closed ≡ false) }
    ensures part { IfErr result (λ e. (is_log e ≡ false) × (copy.new.closed ≡ false) × (copy.new.copy ≡ copy.old.copy)) }
{
    let output = copy.step(alloc, input)?;
    Ok(reply_of(output))
}

/// Does a write, and then the refresh if the write asks for one.
fn do_write<D: LogDevice>(
    alloc: Global,
    copy: &mut Copy<D>,
    write: Write,
) -> Result<Reply, CopyFault>
    requires { copy.old.closed ≡ false }
    ensures gives { Gives fault_of (λ r. (copy.new.copy, reply_view r)) result (spec.written copy.old.copy write) }
    ensures open { OnOk result (copy.new.closed ≡ false) }
    ensures part { IfErr result (λ e. is_log e ≡ false → (copy.new.closed ≡ false) × spec.IsPartOf (command_view (Command.Write write)) copy.old.copy copy.new.copy) }
    ensures failed { IfErr result (λ e. is_log e ≡ true → spec.HasFailed copy.old (spec.input_of write) copy.new) }
{
    let refresh = write.refresh;
    let output = copy.step(alloc, input_of(write))?;
    if refresh {
        copy.step(alloc, Input::Refresh)?;
    }
    Ok(reply_of(output))
}

/// Does the writes of a bulk, in one step.
fn do_bulk<D: LogDevice>(
    alloc: Global,
    copy: &mut Copy<D>,
    writes: Writes,
) -> Result<Reply, CopyFault>
    requires { copy.old.closed ≡ false }
    ensures gives { Gives fault_of (λ r. (copy.new.copy, reply_view r)) result (bulk_taken copy.old.copy writes) }
    ensures open { OnOk result (copy.new.closed ≡ false) }
    ensures part { IfErr result (λ e. is_log e ≡ false → (copy.new.closed ≡ false) × ((copy.new.copy ≡ copy.old.copy) ⊎ (copy.new.copy ≡ spec.left_by copy.old.copy (copy_step copy.old.copy (Input.Bulk writes))))) }
    ensures failed { IfErr result (λ e. is_log e ≡ true → spec.HasFailed copy.old (Input.Bulk writes) copy.new) }
{
    let output = copy.step(alloc, Input::Bulk(writes))?;
    Ok(bulk_reply(alloc, output)?)
}

/// The writes of a bulk, as a copy takes them.
pub fn writes_of(alloc: Global, writes: Vec<Write>) -> Result<Vec<replica::Write>, AllocError>
    ensures { IfOk result (λ ws. ws.items ≡ map spec.write_of writes.items) }
{
    let mut taken = Vec::with_capacity(alloc, writes.len())?;
    for write in writes {
        taken.push(write_of(write))?;
    }
    Ok(taken)
}

/// The write as an input of its copy.
fn input_of(write: Write) -> Input
    ensures { result ≡ spec.input_of write }
{
    Input::Write(write_of(write))
}

/// The write, as a copy takes it.
pub fn write_of(write: Write) -> replica::Write
    ensures { result ≡ spec.write_of write }
{
    let Write {
        id,
        change,
        condition,
        refresh: _,
    } = write;
    let kind = kind_of(change, condition);
    replica::Write { id, kind }
}

fn kind_of(change: Change, condition: Option<Condition>) -> OpType
    ensures { result ≡ spec.kind_of change condition }
{
    match change {
        Change::Index(doc) => OpType::Index(doc.into_source(), condition_of(condition)),
        Change::Create(doc) => OpType::Create(doc.into_source()),
        Change::Delete => OpType::Delete(condition_of(condition)),
    }
}

fn condition_of(condition: Option<Condition>) -> Option<replica::Condition>
    ensures { result ≡ option_map spec.condition_of condition }
{
    match condition {
        Some(Condition { seq, term }) => Some(replica::Condition { seq, term }),
        None => None,
    }
}

/// The reply that reports the answer of a step.
pub(crate) fn reply_of(output: Output) -> Reply
    ensures { reply_view result ≡ spec.reply_of output.members output.answer }
{
    let Output {
        answer,
        sent: _,
        acknowledged: _,
        members,
    } = output;
    reply_in(answer, members as u64)
}

/// The reply that reports the answer of a bulk's step.
fn bulk_reply(alloc: Global, output: Output) -> Result<Reply, AllocError>
    ensures { IfOk result (λ r. reply_view r ≡ spec.bulk_reply_of output.members output.answer) }
{
    let Output {
        answer,
        sent: _,
        acknowledged: _,
        members,
    } = output;
    bulk_reply_in(alloc, answer, members as u64)
}

/// The reply that reports the answer to a bulk; this many copies have to acknowledge its writes.
fn bulk_reply_in(alloc: Global, answer: Answer, copies: u64) -> Result<Reply, AllocError>
    ensures { IfOk result (λ r. reply_view r ≡ spec.bulk_reply_of copies answer) }
{
    match answer {
        Answer::Bulked(items) => Ok(Reply::Bulked(replies_of(alloc, items, copies)?)),
        Answer::Found(document) => {
            drop(document);
            Ok(Reply::Refused(Refusal::Mismatch))
        }
        Answer::Wrote(_)
        | Answer::Missing
        | Answer::Point(_)
        | Answer::Taken
        | Answer::Stale
        | Answer::Repeated
        | Answer::Reported => Ok(Reply::Refused(Refusal::Mismatch)),
    }
}

/// The replies that say what became of the writes of a bulk; this many copies have to acknowledge them.
fn replies_of(alloc: Global, items: Items, copies: u64) -> Result<Vec<ItemReply>, AllocError>
    ensures { IfOk result (λ rs. rs.items ≡ map (spec.item_reply_of copies) items) }
{
    let mut replies = Vec::new(alloc);
    for item in items.into_vec() {
        replies.push(item_reply_of(item, copies))?;
    }
    Ok(replies)
}

/// The reply that says what became of a write of a bulk; this many copies have to acknowledge it.
pub fn item_reply_of(item: Item, copies: u64) -> ItemReply
    ensures { result ≡ spec.item_reply_of copies item }
{
    match item {
        Item::Wrote(written) => ItemReply::Wrote(wrote_of(written, copies)),
        Item::Refused(fault) => ItemReply::Refused(refusal_of(&fault)),
    }
}

fn wrote_of(written: Written, copies: u64) -> Wrote
    ensures { result ≡ spec.wrote_of copies written }
{
    Wrote {
        seq: written.seq,
        term: written.term,
        version: written.version,
        outcome: replied_outcome(written.outcome),
        copies,
    }
}

/// The reply that reports an answer to anything but a bulk; this many copies have to acknowledge a write.
pub fn reply_in(answer: Answer, copies: u64) -> Reply
    ensures { reply_view result ≡ spec.reply_of copies answer }
{
    match answer {
        Answer::Wrote(written) => Reply::Wrote(wrote_of(written, copies)),
        Answer::Bulked(items) => {
            drop(items);
            Reply::Refused(Refusal::Mismatch)
        }
        Answer::Found(document) => Reply::Got(Some(Document {
            seq: document.seq,
            term: document.term,
            version: document.version,
            source: document.source,
        })),
        Answer::Missing => Reply::Got(None),
        Answer::Point(_) => Reply::Refreshed(1),
        Answer::Taken | Answer::Stale | Answer::Repeated | Answer::Reported => {
            Reply::Refused(Refusal::Mismatch)
        }
    }
}

fn replied_outcome(outcome: replica::Outcome) -> Outcome
    ensures { result ≡ spec.replied_outcome outcome }
{
    match outcome {
        replica::Outcome::Created => Outcome::Created,
        replica::Outcome::Updated => Outcome::Updated,
        replica::Outcome::Deleted => Outcome::Deleted,
        replica::Outcome::NotFound => Outcome::NotFound,
    }
}

/// The refusal that says why a copy refuses a step.
pub fn refusal_of(fault: &CopyFault) -> Refusal
    ensures { result ≡ spec.refusal_of fault.now }
{
    match fault {
        CopyFault::NotPrimary => Refusal::NotPrimary,
        CopyFault::VersionConflict => Refusal::VersionConflict,
        CopyFault::WindowFull => Refusal::WindowFull,
        CopyFault::OldTerm => Refusal::OldTerm,
        CopyFault::NotSynced => Refusal::NotSynced,
        CopyFault::BeyondWindow => Refusal::BeyondWindow,
        CopyFault::Mismatch => Refusal::Mismatch,
        CopyFault::Closed => Refusal::Closed,
        CopyFault::Log(_) => Refusal::Log,
        CopyFault::NoMemory => Refusal::NoMemory,
        CopyFault::WrongAddress => Refusal::WrongAddress,
        CopyFault::Exhausted => Refusal::Exhausted,
    }
}

fn search<D: LogDevice>(
    alloc: Global,
    copy: &Copy<D>,
    body: &SearchBody,
) -> Result<Reply, CopyFault>
    requires { copy.now.closed ≡ false }
    ensures gives { Gives fault_of (λ r. (copy.now.copy, reply_view r)) result
        (spec.asked copy.now.copy (command_view (Command.Search body.now))) }
    ensures no_log { IfErr result (λ e. is_log e ≡ false) }
{
    let Some(snapshot) = copy.snapshot() else {
        return Err(CopyFault::Closed);
    };
    Ok(search_of(alloc, snapshot, body)?)
}

/// The documents of a page that match a query.
#[tactic(auto, using(crate::proofs::Found::each_in_turn))]
pub(crate) fn search_of(
    alloc: Global,
    snapshot: &Snapshot,
    body: &SearchBody,
) -> Result<Reply, AllocError>
    ensures { IfOk result (λ r. reply_view r ≡ spec.hits_of (answer_of snapshot.now (query_view body.now.query) body.now.page)) }
{
    let Hits { total, hits } = snapshot.search(alloc, &body.query, body.page)?;
    let hits = hits_of(alloc, hits)?;
    Ok(Reply::Hits(total, hits))
}

/// How a copy stands, as the service says it.
pub fn copy_stats(status: CopyStatus, is_in_sync: bool) -> CopyStats {
    CopyStats {
        copy: status.copy,
        is_primary: status.is_primary,
        is_in_sync,
        is_open: status.is_open,
        term: status.term,
        greatest: checkpoint_of(status.next),
        local: checkpoint_of(status.local),
        global: checkpoint_of(status.known),
        refreshed: status.point,
        segments: status.segments,
    }
}

/// The checkpoint of a count: one less, or -1 of none.
fn checkpoint_of(count: u64) -> i64 {
    match i64::try_from(count) {
        Ok(count) => count.saturating_sub(1),
        Err(_) => i64::MAX,
    }
}

/// How an index of one copy stands, whose searches see this, if they see anything.
pub(crate) fn stats_of(
    alloc: Global,
    status: CopyStatus,
    is_in_sync: bool,
    snapshot: Option<&Arc<Snapshot, Global>>,
) -> Result<Stats, AllocError> {
    let documents = match snapshot {
        Some(snapshot) => Some(documents_in(alloc, snapshot)?),
        None => None,
    };
    let mut served = Vec::new(alloc);
    served.push(copy_stats(status, is_in_sync))?;
    Ok(Stats {
        documents,
        copies: 1,
        served,
    })
}

/// How many documents searches find.
fn documents_in(alloc: Global, snapshot: &Snapshot) -> Result<u64, AllocError> {
    let Ok(page) = Page::new(0, 0) else {
        return Err(AllocError);
    };
    Ok(snapshot.search(alloc, &Query::MatchAll, page)?.total)
}

/// The hits of a page. They take over the ids and the texts of what was found.
pub fn hits_of(alloc: Global, handed: Vec<Found>) -> Result<Vec<Hit>, AllocError>
    ensures { IfOk result (λ hits. hits.items ≡ map (λ h. spec.hit_of (hit_view h)) handed.items) }
{
    let mut hits = Vec::with_capacity(alloc, handed.len())?;
    for hit in handed {
        hits.push(hit_of(hit))?;
    }
    Ok(hits)
}

fn hit_of(found: Found) -> Hit
    ensures { result ≡ spec.hit_of (hit_view found) }
{
    Hit {
        id: found.id,
        source: found.source,
    }
}

fn count<D: LogDevice>(alloc: Global, copy: &Copy<D>, query: &Query) -> Result<Reply, CopyFault>
    requires { copy.now.closed ≡ false }
    ensures gives { Gives fault_of (λ r. (copy.now.copy, reply_view r)) result
        (spec.asked copy.now.copy (command_view (Command.Count query.now))) }
    ensures no_log { IfErr result (λ e. is_log e ≡ false) }
{
    let Some(snapshot) = copy.snapshot() else {
        return Err(CopyFault::Closed);
    };
    Ok(count_of(alloc, snapshot, query)?)
}

/// How many documents match a query.
pub(crate) fn count_of(
    alloc: Global,
    snapshot: &Snapshot,
    query: &Query,
) -> Result<Reply, AllocError>
    ensures { IfOk result (λ r. reply_view r ≡ counted (length (found snapshot.now (query_view query.now)))) }
{
    let Ok(page) = Page::new(0, 0) else {
        return Err(AllocError);
    };
    let found = snapshot.search(alloc, query, page)?;
    Ok(Reply::Counted(found.total))
}
