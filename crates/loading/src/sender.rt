//! Sending bulks, one of which is on its way while the next one is built, and judging what the server says of them.

use crate::action::json_flaw;
use crate::bulk::Bulk;
use crate::connection::Connection;
use crate::fault::{Broken, LoadFault};
use crate::item::{Item, Refusal};
use crate::page::Page;
use crate::refusals::Refusals;
use crate::reply::{Verdict, page_reason, verdicts};
use reasons::escaped;
use std::alloc::{AllocError, Global};
use std::net::{Net, TcpStream};
use std::time::{Clock, Duration};
use std::{mem, thread};

/// How often writes are sent again that the server has no room for.
const MOST_TRIES: u64 = 10;

/// How many milliseconds pass before the first of these tries, and how many more before each later one.
const PAUSE: u64 = 50;

/// Sends items in the order in which they come.
#[derive(Drop)]
pub(crate) struct Sender<'r, 'a, R> {
    rt: &'r R,
    port: u16,
    connection: Connection,
    refusals: Refusals<'a>,
    /// What is built.
    next: Bulk<'a>,
    /// What was sent, and whose page wasn't read.
    sent: Option<Bulk<'a>>,
    pub(crate) confirmed: u64,
}

impl<'r, 'a, R> Sender<'r, 'a, R>
where
    R: Net<Stream = TcpStream> + Clock + AllocGlobal,
{
    pub(crate) fn new(
        rt: &'r R,
        port: u16,
        connection: Connection,
        refusals: Refusals<'a>,
    ) -> Sender<'r, 'a, R> {
        Sender {
            rt,
            port,
            connection,
            refusals,
            next: Bulk::new(rt.alloc(), 0),
            sent: None,
            confirmed: 0,
        }
    }

    /// How many lines or pairs of lines were refused.
    pub(crate) fn refused(&self) -> u64 {
        self.refusals.count
    }

    pub(crate) fn refuse(&mut self, refusal: &Refusal<'a>) -> Result<(), LoadFault> {
        self.refusals.write(self.rt.alloc(), refusal)
    }

    pub(crate) fn into_refusals(self) -> Refusals<'a> {
        self.refusals
    }

    pub(crate) fn push(&mut self, item: Item<'a>) -> Result<(), LoadFault> {
        if !self.next.has_room(&item) {
            self.send_next()?;
        }
        self.next.push(item)?;
        Ok(())
    }

    /// Sends what is left, and reads the pages that are to come.
    pub(crate) fn finish(&mut self) -> Result<(), LoadFault> {
        if !self.next.is_empty() {
            self.send_next()?;
        }
        self.settle()
    }

    /// Sends what was built, and then judges what was sent before it.
    fn send_next(&mut self) -> Result<(), LoadFault> {
        let bulk = mem::replace(&mut self.next, Bulk::new(self.rt.alloc(), 0));
        self.make_way(&bulk)?;
        let sending = self.send(&bulk);
        let judged = match self.sent.replace(bulk) {
            Some(before) => self.judge_next(before),
            None => Ok(Vec::new(self.rt.alloc())),
        };
        if let Err(why) = sending {
            // Where the bulk waits no more, the page of the one before has ended the connection, and it is sent again.
            if self.sent.is_some() {
                return Err(self.lost(why));
            }
        }
        let again = judged?;
        if again.is_empty() {
            return Ok(());
        }
        self.settle()?;
        self.send_alone(again)
    }

    /// Settles what was sent if the bulk writes a document of it too, since it may not overtake it, or if the connection has rested. A rested connection that the
    /// server has ended is begun again.
    fn make_way(&mut self, bulk: &Bulk<'a>) -> Result<(), LoadFault> {
        let has_rested = self.connection.has_rested(self.rt);
        let meets = match &self.sent {
            Some(sent) => sent.meets(bulk),
            None => false,
        };
        if meets || has_rested {
            self.settle()?;
        }
        if has_rested && self.connection.has_ended() {
            self.begin_again()?;
        }
        Ok(())
    }

    /// Reads the page of what was sent, so that none is to come.
    fn settle(&mut self) -> Result<(), LoadFault> {
        let Some(sent) = self.sent.take() else {
            return Ok(());
        };
        let again = self.judge_next(sent)?;
        self.send_alone(again)
    }

    /// Sends bulks one by one, the last of them first, and in place of each what is left of it.
    fn send_alone(&mut self, bulks: Vec<Bulk<'a>>) -> Result<(), LoadFault> {
        let mut left = bulks;
        for _ in 0..u64::MAX {
            let Some(bulk) = left.pop() else {
                return Ok(());
            };
            self.pause(bulk.tries);
            if let Err(why) = self.send(&bulk) {
                return Err(self.lost(why));
            }
            let mut again = self.judge_next(bulk)?;
            left.append(&mut again)?;
        }
        Ok(())
    }

    fn pause(&self, tries: u64) {
        if tries > 0 {
            let pause = PAUSE.saturating_mul(tries.min(MOST_TRIES));
            thread::sleep(self.rt, Duration::from_millis(pause));
        }
    }

    fn send(&mut self, bulk: &Bulk<'a>) -> Result<(), Broken> {
        let body = bulk.body(self.rt.alloc())?;
        self.connection.send(self.rt, &body)
    }

    /// Reads the page of a bulk, and gives what is to be sent again, the last of it first.
    fn judge_next(&mut self, bulk: Bulk<'a>) -> Result<Vec<Bulk<'a>>, LoadFault> {
        let page = match self.connection.page(self.rt) {
            Ok(page) => page,
            Err(why) => return Err(self.lost(why)),
        };
        match page.status {
            200 => self.judge_items(bulk, &page),
            400 => self.part(bulk, &page),
            413 => self.part_anew(bulk, &page),
            429 if bulk.tries < MOST_TRIES => {
                let alloc = self.rt.alloc();
                Ok(vec![in alloc; bulk.once_more(alloc)?]?)
            }
            _ => Err(self.answered(&page)),
        }
    }

    /// Counts the items that the server wrote, writes down those that it refused, and gives those that it had no room for.
    fn judge_items(&mut self, bulk: Bulk<'a>, page: &Page) -> Result<Vec<Bulk<'a>>, LoadFault> {
        let alloc = self.rt.alloc();
        let Some(verdicts) = verdicts(alloc, &page.body, bulk.len())? else {
            return Err(self.lost(Broken::Unreadable("it doesn't say what became of each item")));
        };
        let mut again = Bulk::new(alloc, bulk.tries.saturating_add(1));
        for (item, verdict) in bulk.into_items().into_iter().zip(verdicts) {
            match verdict {
                Verdict::Done => self.count(&item),
                Verdict::Refused {
                    status: 429,
                    reason,
                } if again.tries <= MOST_TRIES => {
                    drop(reason);
                    again.push(item)?;
                }
                Verdict::Refused { status, reason } => self.refuse_item(item, status, &reason)?,
            }
        }
        if again.is_empty() {
            return Ok(Vec::new(alloc));
        }
        Ok(vec![in alloc; again]?)
    }

    fn count(&mut self, item: &Item<'a>) {
        if item.is_document {
            self.confirmed = self.confirmed.saturating_add(1);
        }
    }

    fn refuse_item(&mut self, item: Item<'a>, status: u64, reason: &str) -> Result<(), LoadFault> {
        let alloc = self.rt.alloc();
        let place = if reason == "NotJson" {
            json_flaw(alloc, item.document())?
        } else {
            None
        };
        let reason = match place {
            Some(place) => format!(in alloc;
                "the server refused it: {reason} ({status}): {place}"
            )?,
            None => format!(in alloc; "the server refused it: {reason} ({status})")?,
        };
        self.refuse(&Refusal {
            place: item.place,
            reason,
            lines: item.lines,
        })
    }

    /// Gives the halves of a bulk that the server refused whole. A lone item is refused with it.
    fn part(&mut self, bulk: Bulk<'a>, page: &Page) -> Result<Vec<Bulk<'a>>, LoadFault> {
        let alloc = self.rt.alloc();
        if bulk.len() > 1 {
            let (first, rest) = bulk.halves(alloc)?;
            return Ok(vec![in alloc; rest, first]?);
        }
        let reason = page_reason(alloc, &page.body)?;
        for item in bulk.into_items() {
            self.refuse_item(item, page.status, &reason)?;
        }
        Ok(Vec::new(alloc))
    }

    /// Gives the halves of a bulk after which the server ended the connection, and the bulk that was sent after it, which the server didn't read.
    fn part_anew(&mut self, bulk: Bulk<'a>, page: &Page) -> Result<Vec<Bulk<'a>>, LoadFault> {
        self.begin_again()?;
        let mut again = self.part(bulk, page)?;
        if let Some(behind) = self.sent.take() {
            again.insert(0, behind)?;
        }
        Ok(again)
    }

    fn begin_again(&mut self) -> Result<(), LoadFault> {
        match self.connection.begin_again(self.rt, self.port) {
            Ok(()) => Ok(()),
            Err(why) => Err(self.lost(why)),
        }
    }

    fn lost(&self, why: Broken) -> LoadFault {
        match why {
            Broken::NoMemory => LoadFault::NoMemory,
            why => LoadFault::Lost {
                port: self.port,
                why,
                confirmed: self.confirmed,
            },
        }
    }

    fn answered(&self, page: &Page) -> LoadFault {
        match shown_reason(self.rt.alloc(), page) {
            Ok(reason) => LoadFault::Answered {
                port: self.port,
                status: page.status,
                reason,
                confirmed: self.confirmed,
            },
            Err(_) => LoadFault::NoMemory,
        }
    }
}

/// The reason that a page gives, for a terminal.
fn shown_reason(alloc: Global, page: &Page) -> Result<String, AllocError> {
    escaped(alloc, &page_reason(alloc, &page.body)?)
}
