//! What may leave a worker: only what is on the disk.
ghost use Rattle.std.specs.Prelude.{◌≡◌, ◌+◌, ◌<◌, ◌≤◌, true, IfOk, IfErr, Some, length, slice_get};
ghost use Rattle.cluster.specs.Confirmed as spec;
ghost use Rattle.cluster.specs.Leaving.{sent_by};
ghost use Rattle.ruled.specs.Entries.{IsDecided};

use crate::checks::is_no_primary;
use cell::IndexName;
use master::Request;
use node::{Got, OnDisk, Receipt};
use op::Msg;
use ruled::Decided;
use std::alloc::{AllocError, Global};
use std::marker::Model;

/// Something that may leave its worker: it is on the disk, with all that its copy did before. Only what is in one leaves a worker.
#[derive(Drop)]
pub(crate) struct Durable<T> {
    what: T,
}

impl<T> Model for Durable<T> {
    ghost Value = { T };

    ghost view = { λ d. d.what };
}

impl<T: Drop> Durable<T> {
    /// What it is.
    pub(crate) fn what(&self) -> &T
        ensures { result.now ≡ self.now }
    {
        &self.what
    }

    /// It alone.
    pub(crate) fn into_inner(self) -> T
        ensures { result ≡ self }
    {
        let Durable { what } = self;
        what
    }
}

impl<J: IndexName> Durable<Receipt<J>> {
    /// An entry of a copy, where it is on the disk; else it is handed back.
    pub(crate) fn entry(
        receipt: Receipt<J>,
        on_disk: &OnDisk,
    ) -> Result<Durable<Receipt<J>>, Receipt<J>>
        ensures ok { IfOk result (λ d. (d ≡ receipt) × (receipt.place + 1 ≤ on_disk.now)) }
        ensures err { IfErr result (λ r. r ≡ receipt) }
    {
        match receipt.place().checked_add(1) {
            Some(entries) => if on_disk.covers(entries) {
                Ok(Durable { what: receipt })
            } else {
                Err(receipt)
            },
            None => Err(receipt),
        }
    }

    /// An entry by which the copy is closed or isn't the primary, which rests on nothing that it has kept; another one is handed back.
    pub(crate) fn idle(receipt: Receipt<J>) -> Result<Durable<Receipt<J>>, Receipt<J>>
        ensures ok { IfOk result (λ d. (d ≡ receipt) × (spec.is_no_primary receipt.deed.answer ≡ true)) }
        ensures err { IfErr result (λ r. r ≡ receipt) }
    {
        if is_no_primary(&receipt) {
            Ok(Durable { what: receipt })
        } else {
            Err(receipt)
        }
    }

    /// The entry once more.
    pub(crate) fn copy(&self, alloc: Global) -> Result<Durable<Receipt<J>>, AllocError>
        ensures { IfOk result (λ d. d ≡ self.now) }
    {
        Ok(Durable {
            what: self.what.copy(alloc)?,
        })
    }

    /// The messages that the entry sends.
    pub(crate) fn sent(&self) -> &[Msg]
        ensures { result.now ≡ sent_by self.now.deed.answer }
    {
        match &self.what.deed().answer {
            Ok(output) => output.sent.as_slice(),
            Err(_) => &[],
        }
    }

    /// The message at a place of those.
    pub(crate) fn message(&self, alloc: Global, at: usize) -> Result<Durable<Msg>, AllocError>
        requires { at < length (sent_by self.now.deed.answer) }
        ensures { IfOk result (λ m. slice_get (sent_by self.now.deed.answer) at ≡ Some m) }
    {
        Ok(Durable {
            what: self.sent()[at].copy(alloc)?,
        })
    }
}

impl<J: IndexName> Durable<Got<J>> {
    /// What a copy had of an id, where all that it had done then is on the disk; else it is handed back.
    pub(crate) fn got(got: Got<J>, on_disk: &OnDisk) -> Result<Durable<Got<J>>, Got<J>>
        ensures ok { IfOk result (λ d. (d ≡ got) × (got.place ≤ on_disk.now)) }
        ensures err { IfErr result (λ g. g ≡ got) }
    {
        if on_disk.covers(got.place()) {
            Ok(Durable { what: got })
        } else {
            Err(got)
        }
    }
}

impl Durable<Msg> {
    /// The message of a decision of the master on a request, where it has one. The master's log syncs each decision before it is given.
    pub(crate) fn ruled<J: IndexName>(
        alloc: Global,
        _request: Request,
        decided: &Decided<J>,
    ) -> Result<Option<Durable<Msg>>, AllocError>
        requires { IsDecided _request decided.now.decision decided.now.past }
        ensures { IfOk result (λ m. m ≡ decided.now.decision.sent) }
    {
        match &decided.decision.sent {
            Some(message) => Ok(Some(Durable {
                what: message.copy(alloc)?,
            })),
            None => Ok(None),
        }
    }

    /// The message once more.
    pub(crate) fn again(&self, alloc: Global) -> Result<Durable<Msg>, AllocError>
        ensures { IfOk result (λ m. m ≡ self.now) }
    {
        Ok(Durable {
            what: self.what.copy(alloc)?,
        })
    }
}
