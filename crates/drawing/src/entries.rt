//! One entry of a journal.

use journal::{Deed, Journal, Ruling};
use master::Request;
use op::{Content, Msg};
use replica::Input;

/// What a node was asked, and what it answered.
#[derive(Clone, Copy)]
pub(crate) enum Entry<'a> {
    OfCopy(&'a Deed),
    OfMaster(&'a Ruling),
}

/// The entry of a journal at a place.
pub(crate) fn entry_at<'a>(journal: &'a Journal, place: usize) -> Option<Entry<'a>> {
    match journal {
        Journal::OfMaster(_, rulings) => match rulings.as_slice().get(place) {
            Some(ruling) => Some(Entry::OfMaster(ruling)),
            None => None,
        },
        Journal::OfCopy(_, deeds) => match deeds.as_slice().get(place) {
            Some(deed) => Some(Entry::OfCopy(deed)),
            None => None,
        },
    }
}

impl<'a> Entry<'a> {
    /// Whether it is asked by a message.
    pub(crate) fn is_by_message(&self) -> bool {
        match self {
            Entry::OfCopy(deed) => matches!(&deed.input, Input::Take(_)),
            Entry::OfMaster(ruling) => {
                matches!(&ruling.request, Request::Synced(_, _) | Request::Fail(_, _))
            }
        }
    }

    /// Whether it is asked by this message, which stands in an input.
    pub(crate) fn is_by(&self, sent: &Input) -> bool {
        match self {
            Entry::OfCopy(deed) => deed.input.is(sent),
            Entry::OfMaster(ruling) => match sent {
                Input::Take(message) => asks(message, &ruling.request),
                _ => false,
            },
        }
    }

    /// The messages that it sends.
    pub(crate) fn sent(&self) -> &'a [Msg] {
        match self {
            Entry::OfCopy(deed) => match &deed.answer {
                Ok(output) => output.sent.as_slice(),
                Err(_) => &[],
            },
            Entry::OfMaster(_) => &[],
        }
    }

    /// The message that the master sends.
    pub(crate) fn ruled(&self) -> Option<&'a Msg> {
        match self {
            Entry::OfMaster(ruling) => match &ruling.answer {
                Ok(decision) => decision.sent.as_ref(),
                Err(_) => None,
            },
            Entry::OfCopy(_) => None,
        }
    }
}

/// Whether a message asks the master for this.
fn asks(message: &Msg, request: &Request) -> bool {
    match (request, &message.content) {
        (Request::Synced(term, id), Content::Synced(copy)) => {
            *term == message.term && *id == *copy
        }
        (Request::Fail(term, id), Content::Fail(copy)) => *term == message.term && *id == *copy,
        _ => false,
    }
}
