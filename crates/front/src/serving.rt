//! Serving requests, one after another.
ghost use Rattle.std.specs.Prelude.{◌≡◌, false, IfOk, IfErr, IfSome, OnErr, map};
ghost use Rattle.wire.specs.Reading as read;
ghost use Rattle.wire.specs.Requests.{Standing};
ghost use Rattle.wire.specs.declared.fault.StreamFault.TheVariants.{NoMemory};
ghost use Rattle.front.specs.Serving as spec;
ghost use Rattle.front.specs.Asking.{ask};
ghost use Rattle.front.specs.Rule.{Turned};
ghost use Rattle.front.specs.Work.{explained, work_of, worked, single, bulk};
ghost use Rattle.front.specs.BulkView.{item_view};
ghost use Rattle.front.specs.CommandView.{command_view};

use crate::asking::{Asked, ask};
use crate::bulk::{Item, bulk_page, do_items};
use crate::command::Command;
use crate::page::{Subject, fault_page, reply_page};
use crate::pieces::Page;
use crate::refusing::refused_page;
use crate::request_fault::RequestFault;
use crate::service::Service;
use std::alloc::Global;
use std::io::{Read, Write};
use wire::{Request, StreamFault, Whole, read_request};

/// The most bytes of a body.
const MOST_BODY: u32 = 1_048_576;

/// Answers the requests that came whole, in order, up to the first after which the stream ends, and returns how many they were. It writes and flushes each page
/// whole before it reads the next request. It reads single bytes, so the reader needs a buffer.
pub fn serve_stream<R: Read, W: Write, S: Service>(
    alloc: Global,
    reader: &mut R,
    writer: &mut W,
    service: &mut S,
) -> Result<u64, StreamFault>
    // The service was called with exactly the commands of the requests, in order, and the pages of its replies were written.
    ensures ok { IfOk result (λ n. IfSome (R.remaining reader.old) (spec.Served S.answers (S.name service.old) (S.fields service.old)
        service.old service.new (W.contents writer.old) (W.contents writer.new) n)) }
    // The first of those calls were made, and a beginning of the pages was written. At `Read` the calls and the pages are those of whole requests. At `Write`
    // all calls of the next request were made, but its page isn't known to be written whole. At `NoMemory` some calls of the next request were made, and
    // nothing of its page was written.
    ensures err { IfErr result (λ e. IfSome (R.remaining reader.old) (spec.Stopped S.answers (S.name service.old) (S.fields service.old)
        service.old service.new (W.contents writer.old) (W.contents writer.new) e)) }
{
    for count in 0..u64::MAX {
        let Some(whole) = read_request(alloc, MOST_BODY, reader)? else {
            return Ok(count);
        };
        let page = answer(alloc, service, &whole)?;
        page.write(writer)?;
        if whole.ends() {
            return Ok(count + 1);
        }
    }
    Err(StreamFault::Read)
}

/// Does what a request asks, and returns the page of the replies.
pub fn answer<S: Service>(
    alloc: Global,
    service: &mut S,
    whole: &Whole,
) -> Result<Page, StreamFault>
    ensures ok { IfOk result (λ page. (q : Standing) → read.IsStanding whole.now q → spec.Answered false S.answers (S.name service.old)
        (work_of (S.name service.old) (S.fields service.old) q) service.old page service.new) }
    ensures err { OnErr result ((q : Standing) → read.IsStanding whole.now q → spec.Begun S.answers
        (work_of (S.name service.old) (S.fields service.old) q) service.old service.new) }
    ensures cause { IfErr result (λ e. e ≡ NoMemory) }
    ensures name { S.name service.new ≡ S.name service.old }
    ensures fields { S.fields service.new ≡ S.fields service.old }
{
    match whole {
        Whole::Broken(fault) => Ok(Page::of(
            alloc,
            fault_page(alloc, &RequestFault::Head(*fault))?,
        )),
        Whole::Asked(request) => answer_request(alloc, false, service, request),
    }
}

/// Does what a request asks of a server that greets or of one that doesn't, and returns the page of the replies.
pub(crate) fn answer_request<S: Service>(
    alloc: Global,
    greets: bool,
    service: &mut S,
    request: &Request,
) -> Result<Page, StreamFault>
    ensures ok { IfOk result (λ page. Turned greets S.answers (S.name service.old)
        (worked (S.name service.old) (S.fields service.old) (ask greets (S.name service.old) (S.fields service.old) (read.request_view request.now)))
        (explained (worked (S.name service.old) (S.fields service.old) (ask greets (S.name service.old) (S.fields service.old) (read.request_view request.now))) greets)
        service.old page service.new) }
    ensures err { OnErr result (spec.Begun S.answers
        (worked (S.name service.old) (S.fields service.old) (ask greets (S.name service.old) (S.fields service.old) (read.request_view request.now))) service.old service.new) }
    ensures cause { IfErr result (λ e. e ≡ NoMemory) }
    ensures name { S.name service.new ≡ S.name service.old }
    ensures fields { S.fields service.new ≡ S.fields service.old }
{
    match ask(alloc, greets, service.index(), service.mapping(), request) {
        Ok(Asked::One(command)) => do_command(alloc, greets, service, command),
        Ok(Asked::Many(refresh, items)) => do_bulk(alloc, greets, service, refresh, &items),
        Err(fault) => if fault.is_memory() {
            Err(StreamFault::NoMemory)
        } else {
            Ok(refused_page(
                alloc,
                greets,
                service.index(),
                service.mapping(),
                &fault,
                request,
            )?)
        },
    }
}

/// Calls the service once, and returns the page of its reply.
fn do_command<S: Service>(
    alloc: Global,
    greets: bool,
    service: &mut S,
    command: Command,
) -> Result<Page, StreamFault>
    ensures ok { IfOk result (λ page. Turned greets S.answers (S.name service.old) (single (command_view command)) (λ why out. out) service.old page service.new) }
    ensures err { OnErr result (spec.Begun S.answers (single (command_view command)) service.old service.new) }
    ensures cause { IfErr result (λ e. e ≡ NoMemory) }
    ensures name { S.name service.new ≡ S.name service.old }
    ensures fields { S.fields service.new ≡ S.fields service.old }
{
    let Ok(subject) = Subject::of(alloc, &command) else {
        drop(command);
        return Err(StreamFault::NoMemory);
    };
    let reply = service.call(command);
    let page = reply_page(alloc, greets, service.index(), &subject, &reply);
    drop(subject);
    drop(reply);
    Ok(page?)
}

/// Does the items of a bulk and the refresh after them, and returns their page.
fn do_bulk<'b, S: Service>(
    alloc: Global,
    greets: bool,
    service: &mut S,
    refresh: bool,
    items: &[Item<'b>],
) -> Result<Page, StreamFault>
    ensures ok { IfOk result (λ page. Turned greets S.answers (S.name service.old) (bulk (S.name service.old) (S.fields service.old) refresh (map item_view items.now)) (λ why out. out)
        service.old page service.new) }
    ensures err { OnErr result (spec.Begun S.answers (bulk (S.name service.old) (S.fields service.old) refresh (map item_view items.now)) service.old service.new) }
    ensures cause { IfErr result (λ e. e ≡ NoMemory) }
    ensures name { S.name service.new ≡ S.name service.old }
    ensures fields { S.fields service.new ≡ S.fields service.old }
{
    let done = do_items(alloc, greets, service, refresh, items)?;
    Ok(Page::of(alloc, bulk_page(alloc, greets, &done.texts, done.refusal)?))
}
