//! What a worker has done leaves it when its log is synced: one sync for all that waits.

ghost use Rattle.std.specs.Prelude.{◌<◌, length};
ghost use Rattle.cluster.specs.Leaving.{sent_by};

use crate::channels::give;
use crate::durable::Durable;
use crate::gate::Gate;
use crate::outbox::{Asked, Entry, Mail, Parcel};
use crate::post::{Answered, Post};
use crate::worker::Worker;
use cell::IndexName;
use crossbeam_channel::{Receiver, Sender};
use node::{Got, NodeFault, OnDisk, Receipt};
use op::Msg;
use replica::CopyFault;
use std::alloc::Global;
use std::mem;
use std::sync::Wait;
use translog::{LogDevice, LogFault};

/// How many posts are done at most before what they send leaves.
pub(crate) const TOGETHER: u32 = 1_024;

/// How often a log is synced that failed to.
const SYNCS: u32 = 3;

/// The answer to those whose entry couldn't be brought to the disk.
pub(crate) fn unsynced() -> NodeFault {
    NodeFault::Copy(CopyFault::Log(LogFault::Device))
}

impl<R: Wait + Drop, D: LogDevice, J: IndexName> Worker<R, D, J> {
    /// Does a post, and those that wait after it as long as something of it isn't on the disk; then what they send leaves. Says whether it goes on.
    /// Where each append is synced, each post leaves by itself.
    pub(crate) fn serve_waiting<G: Gate>(
        &mut self,
        rt: &R,
        gate: &G,
        inbox: &Receiver<Post<J>, Global>,
        first: Post<J>,
    ) -> bool {
        let mut goes_on = self.admit(rt, gate, first);
        for _ in 1..TOGETHER {
            if !goes_on || !self.is_open() || self.cell.is_synced() {
                break;
            }
            let Ok(post) = inbox.try_recv(rt) else {
                break;
            };
            goes_on = self.admit(rt, gate, post);
        }
        self.settle(rt, gate);
        goes_on
    }

    /// Keeps a parcel until it is on the disk. Without memory for that it leaves at once, after those that wait; a copy that can do neither is given up.
    pub(crate) fn keep(&mut self, rt: &R, parcel: Parcel<J>) {
        let Err(parcel) = self.outbox.push(parcel) else {
            return;
        };
        self.flush(rt);
        match self.cell.sync() {
            Ok(on_disk) => {
                self.leave(rt, parcel, &on_disk);
                self.deliver(rt);
            }
            Err(_) => {
                self.withdraw(rt, parcel);
                self.give_up(rt);
            }
        }
    }

    /// Syncs the log, and lets all leave that waits for it. Where that fails those who asked hear only that, and the copy is opened again,
    /// which brings to the disk what it has; then the rest leaves. Of a copy that doesn't open nothing leaves.
    pub(crate) fn release(&mut self, rt: &R) {
        for _ in 0..SYNCS {
            if self.flush(rt) {
                return;
            }
            self.refuse_all(rt);
            if self.is_open() {
                self.reopen(rt);
            }
            if !self.is_open() {
                self.withdraw_all(rt);
                return;
            }
        }
        self.withdraw_all(rt);
        self.give_up(rt);
    }

    /// Syncs the log, and lets all leave that waits for it. Where that fails all of it goes on waiting.
    fn flush(&mut self, rt: &R) -> bool {
        if self.outbox.is_empty() {
            return true;
        }
        if !self.cell.is_synced() {
            self.syncs_later = true;
        }
        match self.cell.sync() {
            Ok(on_disk) => {
                for _ in 0..self.outbox.len() {
                    let Some(parcel) = self.outbox.next() else {
                        break;
                    };
                    self.leave(rt, parcel, &on_disk);
                }
                self.deliver(rt);
                true
            }
            Err(_) => false,
        }
    }

    fn leave(&mut self, rt: &R, parcel: Parcel<J>, on_disk: &OnDisk) {
        match parcel {
            Parcel::Entry(entry) => {
                let Entry {
                    receipt,
                    leads,
                    term,
                    asked,
                } = entry;
                match Durable::entry(receipt, on_disk) {
                    Ok(entry) => self.tell_durable(rt, entry, leads, term, asked),
                    Err(receipt) => refuse(rt, receipt, asked),
                }
            }
            Parcel::Got(got, to) => tell_got(rt, got, to, on_disk),
            end => {
                drop(end);
                self.end_waits();
            }
        }
    }

    /// Sends what an entry sends, reports what it acknowledges, and answers it. It notes who waits for a write before it reports what the entry
    /// acknowledges, since one copy acknowledges its write at once.
    fn tell_durable(
        &mut self,
        rt: &R,
        entry: Durable<Receipt<J>>,
        leads: bool,
        term: u64,
        asked: Asked<J>,
    ) {
        match asked {
            Asked::Call(to) => {
                self.follow(rt, &entry, leads, term);
                give(rt, to, Ok(entry));
            }
            Asked::Write(first, second) => {
                self.waits.note(&entry, term >= self.deposed, second);
                self.follow(rt, &entry, leads, term);
                give(rt, first, Ok(entry));
            }
            Asked::Bulk(first, second) => {
                self.waits.note_bulk(&entry, term >= self.deposed, second);
                self.follow(rt, &entry, leads, term);
                give(rt, first, Ok(entry));
            }
            within => {
                drop(within);
                self.follow(rt, &entry, leads, term);
                drop(entry);
            }
        }
    }

    fn follow(&mut self, rt: &R, entry: &Durable<Receipt<J>>, leads: bool, term: u64) {
        for at in 0..entry.sent().len() {
            self.send(rt, entry, at, leads);
        }
        self.waits.acknowledge_all(rt, entry);
        self.waits.lose_unless(rt, entry, leads, term);
    }

    /// Has the master decide a message of an entry, or puts it to those that leave for its copy.
    fn send(&mut self, rt: &R, entry: &Durable<Receipt<J>>, at: usize, leads: bool)
        requires { at < length (sent_by entry.now.deed.answer) }
    {
        let to = entry.sent()[at].to;
        let is_sent = match entry.message(self.alloc, at) {
            Ok(message) if to == 0 => self
                .shared
                .tell(rt, self.alloc, self.number, message.what()),
            Ok(message) => pack(self.alloc, &mut self.mails, message, to, leads),
            Err(_) => false,
        };
        if !is_sent {
            self.miss(rt, to, leads);
        }
    }

    /// Sends what was put together for each copy on its way, as one post.
    fn deliver(&mut self, rt: &R) {
        let mails = mem::replace(&mut self.mails, Vec::new(self.alloc));
        for mail in mails {
            let Mail {
                to,
                leads,
                messages,
            } = mail;
            if !self.shared.hand(rt, to, Post::Mail(messages)) {
                self.miss(rt, to, leads);
            }
        }
    }

    /// A message that didn't arrive: the primary is to report the copy that it is to, or that sent it. What the master didn't take, or nobody
    /// can report, ends all waits.
    fn miss(&mut self, rt: &R, to: u32, leads: bool) {
        let id = self.id();
        let told = if to == 0 {
            false
        } else if leads {
            self.shared.hand(rt, id, Post::Report(to))
        } else {
            self.shared.hand(rt, to, Post::Report(id))
        };
        if !told {
            self.end_waits();
        }
    }

    /// Answers all who asked: the log has failed. What entries send and acknowledge goes on waiting; there is room for that.
    fn refuse_all(&mut self, rt: &R) {
        for _ in 0..self.outbox.len() {
            let Some(parcel) = self.outbox.next() else {
                return;
            };
            if let Some(rest) = rest_of_refused(self.alloc, rt, parcel) {
                if let Err(rest) = self.outbox.push(rest) {
                    self.withdraw(rt, rest);
                }
            }
        }
    }

    /// Lets nothing leave of what waits. Whether a write stands that waits for its acknowledgement is open.
    fn withdraw_all(&mut self, rt: &R) {
        for _ in 0..self.outbox.len() {
            let Some(parcel) = self.outbox.next() else {
                return;
            };
            self.withdraw(rt, parcel);
        }
        self.end_waits();
    }

    fn withdraw(&mut self, rt: &R, parcel: Parcel<J>) {
        match parcel {
            Parcel::Entry(entry) => {
                let Entry { receipt, asked, .. } = entry;
                refuse(rt, receipt, asked);
            }
            Parcel::Got(got, to) => {
                drop(got);
                give(rt, to, Err(unsynced()));
            }
            end => {
                drop(end);
                self.end_waits();
            }
        }
    }
}

/// Puts a message to those that leave for its copy. Says whether there was memory for that.
fn pack(alloc: Global, mails: &mut Vec<Mail>, message: Durable<Msg>, to: u32, leads: bool) -> bool {
    if let Some(place) = mails
        .iter()
        .position(|mail| mail.to == to && mail.leads == leads)
    {
        return mails[place].messages.push(message).is_ok();
    }
    let mut messages = Vec::new(alloc);
    if messages.push(message).is_err() {
        return false;
    }
    mails
        .push(Mail {
            to,
            leads,
            messages,
        })
        .is_ok()
}

/// Answers whoever asked for an entry that isn't on the disk: the log has failed; or the copy is closed or isn't the primary, where that is the entry.
fn refuse<R: Wait, J: IndexName>(rt: &R, receipt: Receipt<J>, asked: Asked<J>) {
    let told = match Durable::idle(receipt) {
        Ok(entry) => Ok(entry),
        Err(receipt) => {
            drop(receipt);
            Err(unsynced())
        }
    };
    tell(rt, asked, told);
}

/// Answers whoever asked for an entry. Who waits for an ending too gets none.
pub(crate) fn tell<R: Wait, J: IndexName>(rt: &R, asked: Asked<J>, told: Answered<J>) {
    match asked {
        Asked::Call(to) => give(rt, to, told),
        Asked::Write(to, ending) => {
            give(rt, to, told);
            drop(ending);
        }
        Asked::Bulk(to, ending) => {
            give(rt, to, told);
            drop(ending);
        }
        within => {
            drop(within);
            drop(told);
        }
    }
}

/// Answers whoever asked: the log has failed. It gives what goes on waiting.
fn rest_of_refused<R: Wait, J: IndexName>(
    alloc: Global,
    rt: &R,
    parcel: Parcel<J>,
) -> Option<Parcel<J>> {
    match parcel {
        Parcel::Entry(entry) => {
            let Entry {
                receipt,
                leads,
                term,
                asked,
            } = entry;
            refuse_copied(alloc, rt, &receipt, asked);
            Some(Parcel::Entry(Entry {
                receipt,
                leads,
                term,
                asked: Asked::Within,
            }))
        }
        Parcel::Got(got, to) => {
            drop(got);
            give(rt, to, Err(unsynced()));
            None
        }
        end => Some(end),
    }
}

/// `refuse` of an entry that is kept.
fn refuse_copied<R: Wait, J: IndexName>(
    alloc: Global,
    rt: &R,
    receipt: &Receipt<J>,
    asked: Asked<J>,
) {
    if let Asked::Within = &asked {
        drop(asked);
        return;
    }
    match receipt.copy(alloc) {
        Ok(receipt) => refuse(rt, receipt, asked),
        Err(_) => drop(asked),
    }
}

/// Answers what the copy had of an id.
fn tell_got<R: Wait, J: IndexName>(
    rt: &R,
    got: Got<J>,
    to: Sender<Result<Durable<Got<J>>, NodeFault>, Global>,
    on_disk: &OnDisk,
) {
    let told = match Durable::got(got, on_disk) {
        Ok(got) => Ok(got),
        Err(got) => {
            drop(got);
            Err(unsynced())
        }
    };
    give(rt, to, told);
}
