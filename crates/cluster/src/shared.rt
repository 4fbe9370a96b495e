//! What the workers share: the master, and where posts go.
ghost use Rattle.std.specs.Prelude.{IfOk};
ghost use Rattle.ruled.specs.Entries.{IsDecided, IsKnown, IsLeading};

use crate::channels::sent;
use crate::durable::Durable;
use crate::post::{Post, Route};
use cell::IndexName;
use master::{MasterFault, Request};
use op::{Content, Msg};
use ruled::{Decided, Known, Leading, Ruled, copied};
use std::alloc::{AllocError, Global};
use std::sync::{Mutex, Wait};
use translog::LogDevice;

/// The master behind a lock, and the inbox of each copy's worker. No lock is taken while another is held.
#[derive(Drop)]
pub(crate) struct Shared<D: LogDevice, J: IndexName> {
    pub(crate) master: Mutex<Ruled<D, J>>,
    pub(crate) routes: Mutex<Vec<Route<J>>>,
    /// Why the master could make no copy the primary, the last time that one was to be made.
    pub(crate) unled: Mutex<Option<MasterFault>>,
}

/// The request that a message to the master makes.
fn request_of(message: &Msg) -> Option<Request> {
    match message.content {
        Content::Synced(id) => Some(Request::Synced(message.term, id)),
        Content::Fail(id) => Some(Request::Fail(message.term, id)),
        _ => None,
    }
}

/// Whether the master could decide nothing: neither its table nor the copy is the cause.
fn is_disabled(fault: &MasterFault) -> bool {
    matches!(
        fault,
        MasterFault::Log(_) | MasterFault::NoMemory | MasterFault::Full
    )
}

impl<D: LogDevice, J: IndexName> Shared<D, J> {
    /// Hands a post to a copy's worker, and says whether there is one that takes it.
    pub(crate) fn hand<R: Wait>(&self, rt: &R, copy: u32, post: Post<J>) -> bool {
        let routes = self.routes.lock(rt);
        for route in routes.as_slice() {
            if route.copy == copy {
                return sent(rt, &route.to, post);
            }
        }
        false
    }

    /// The primary, as the master knows it.
    pub(crate) fn primary<R: Wait>(&self, rt: &R) -> u32 {
        let master = self.master.lock(rt);
        master.primary()
    }

    /// The primary, and after which entries of the master's journal.
    pub(crate) fn leading<R: Wait>(&self, rt: &R) -> Leading<J>
        ensures { IsLeading result.past result.primary }
    {
        let master = self.master.lock(rt);
        master.leading()
    }

    /// What the master knows.
    pub(crate) fn known<R: Wait>(&self, rt: &R, alloc: Global) -> Result<Known<J>, AllocError>
        ensures { IfOk result (λ k. IsKnown k.past k.state) }
    {
        let master = self.master.lock(rt);
        let known = master.known(alloc)?;
        Ok(known)
    }

    /// Asks the master, and sends its message on. Where that isn't possible it answers `NoMemory`, and the decision may stand.
    pub(crate) fn ask<R: Wait>(
        &self,
        rt: &R,
        alloc: Global,
        pass: u64,
        request: Request,
    ) -> Result<Decided<J>, MasterFault>
        ensures { IfOk result (λ d. IsDecided request d.decision d.past) }
    {
        let (old, decided) = self.decide(rt, alloc, pass, request)?;
        if self.send_on(rt, alloc, old, request, &decided)? {
            Ok(decided)
        } else {
            Err(MasterFault::NoMemory)
        }
    }

    /// Sends the message of a decision, and says whether it is on its way. A primary that is replaced is deposed first.
    fn send_on<R: Wait>(
        &self,
        rt: &R,
        alloc: Global,
        old: u32,
        request: Request,
        decided: &Decided<J>,
    ) -> Result<bool, AllocError>
        requires { IsDecided request decided.now.decision decided.now.past }
    {
        let Some(message) = Durable::ruled(alloc, request, decided)? else {
            return Ok(true);
        };
        let (to, term) = (message.what().to, message.what().term);
        if let Content::Promoted(_) = &message.what().content {
            if to != old {
                self.hand(rt, old, Post::Depose(term));
            }
        }
        Ok(self.hand(rt, to, Post::Hand(message, 0)))
    }

    /// The message by which the master makes a copy the primary of the next term, where it does.
    pub(crate) fn promotion<R: Wait>(
        &self,
        rt: &R,
        alloc: Global,
        pass: u64,
        copy: u32,
    ) -> Option<Msg> {
        match self.decide(rt, alloc, pass, Request::Promote(copy)) {
            Ok((_old, decided)) => {
                let Decided { decision, past } = decided;
                drop(past);
                decision.sent
            }
            Err(_fault) => None,
        }
    }

    /// The primary before a request of the master, and its decision.
    fn decide<R: Wait>(
        &self,
        rt: &R,
        alloc: Global,
        pass: u64,
        request: Request,
    ) -> Result<(u32, Decided<J>), MasterFault>
        ensures { IfOk result (λ d. IsDecided request d.1.decision d.1.past) }
    {
        let decided = self.rule(rt, alloc, pass, request);
        if let Request::Promote(_) = request {
            self.note(rt, &decided);
        }
        decided
    }

    fn rule<R: Wait>(
        &self,
        rt: &R,
        alloc: Global,
        pass: u64,
        request: Request,
    ) -> Result<(u32, Decided<J>), MasterFault>
        ensures { IfOk result (λ d. IsDecided request d.1.decision d.1.past) }
    {
        let mut master = self.master.lock(rt);
        let old = master.primary();
        let decided = master.ask(alloc, pass, request)?;
        Ok((old, decided))
    }

    /// Notes how a promotion went.
    fn note<R: Wait>(&self, rt: &R, decided: &Result<(u32, Decided<J>), MasterFault>) {
        let mut unled = self.unled.lock(rt);
        match decided {
            Ok(_) => *unled = None,
            Err(fault) => if is_disabled(fault) {
                *unled = Some(copied(fault));
            },
        }
    }

    /// Why the master could make no copy the primary, where none was made since.
    pub(crate) fn unled<R: Wait>(&self, rt: &R) -> Option<MasterFault> {
        let unled = self.unled.lock(rt);
        match &*unled {
            Some(fault) => Some(copied(fault)),
            None => None,
        }
    }

    /// Has the master decide what a message asks. A refusal by its table counts as decided.
    pub(crate) fn tell<R: Wait>(&self, rt: &R, alloc: Global, pass: u64, message: &Msg) -> bool {
        match request_of(message) {
            Some(request) => match self.ask(rt, alloc, pass, request) {
                Ok(_decided) => true,
                Err(fault) => !is_disabled(&fault),
            },
            None => true,
        }
    }
}
