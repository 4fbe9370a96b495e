//! The conversation on one connection. Bytes come in pieces, each request that came whole is answered, and pages go out as far as the peer takes them.
ghost use Rattle.std.specs.Prelude.{◌≡◌, ◌↔◌, [], IsTrue, OnOk, OnErr, IfOk};
ghost use Rattle.front.specs.RuleView.{rule_view};

use front::{Resumable, Rule, Unsent, answer_by};
use std::alloc::{AllocError, Global};
use std::io;
use std::io::{Read, Write};
use wire::{StreamFault, Whole, is_expected, read_request};

/// The bytes that were received and aren't answered yet, the page that is being sent, and what the client knows.
pub struct Conversation<K: Drop> {
    alloc: Global,
    waiting: Vec<u8>,
    page: Unsent,
    ended: bool,
    /// Whether the client was asked for the body of the request that waits.
    has_asked: bool,
    known: Option<K>,
}

impl<K: Drop> Drop for Conversation<K> {
    fn drop(self) {
        let Conversation {
            alloc: _,
            waiting: _waiting,
            page: _page,
            ended: _,
            has_asked: _,
            known: _known,
        } = self;
    }
}

impl<K: Drop> Conversation<K> {
    ghost use Rattle.std.specs.Io.KnownBytes.{Keeps};
    ghost use Rattle.clients.specs.Talk.{talk, begun};
    ghost use Rattle.clients.specs.Steps.{Receives, SendsTo, Gathers, AnswersNext, AsksIf, BreaksNext};

    /// A conversation in which nothing has come or gone out yet.
    pub fn new(alloc: Global) -> Conversation<K>
        ensures { talk result ≡ begun }
    {
        Conversation {
            alloc,
            waiting: Vec::new(alloc),
            page: Unsent::nothing(alloc),
            ended: false,
            has_asked: false,
            known: None,
        }
    }

    /// The bytes that were received and aren't answered yet.
    pub fn waiting(&self) -> &[u8]
        ensures { result.now ≡ (talk self.now).waiting }
    {
        self.waiting.as_slice()
    }

    /// Whether nothing is answered any more.
    pub fn has_ended(&self) -> bool
        ensures { result ≡ (talk self.now).ended }
    {
        self.ended
    }

    /// Whether the client was asked for the body of the request that waits.
    pub fn has_asked(&self) -> bool
        ensures { result ≡ (talk self.now).has_asked }
    {
        self.has_asked
    }

    /// The text with which the page of the last answer begins, as long as nothing of it was sent. It has the whole head.
    pub fn page(&self) -> &str {
        self.page.piece()
    }

    /// How many bytes the unsent page has for itself. The texts that it shares with the index aren't among them.
    pub fn weight(&self) -> usize {
        if self.page.is_empty() {
            0
        } else {
            self.page.weight()
        }
    }

    /// Whether the whole page was sent.
    pub fn is_sent(&self) -> bool
        ensures { IsTrue result ↔ ((talk self.now).unsent ≡ []) }
    {
        self.page.is_empty()
    }

    /// Takes bytes that came.
    pub fn receive(&mut self, bytes: &[u8]) -> Result<(), AllocError>
        ensures ok { OnOk result (Receives bytes.now (talk self.old) (talk self.new)) }
        ensures err { OnErr result (talk self.new ≡ talk self.old) }
    {
        self.waiting.extend_from_slice(bytes)
    }

    /// Reads once, at most as many bytes as the room has, and takes what came. Returns how many bytes came: 0 at the end of the input.
    pub fn gather<R: Read>(&mut self, reader: &mut R, room: &mut [u8]) -> io::Result<usize>
        ensures ok { IfOk result (λ n. Gathers n (R.remaining reader.old) (R.remaining reader.new) (talk self.old) (talk self.new)) }
        ensures err { OnErr result (talk self.new ≡ talk self.old) }
    {
        let n = reader.read(room)?;
        self.receive(&room[..n])?;
        Ok(n)
    }

    /// Hands the writer bytes of the page that aren't sent, in one call, and returns how many it took.
    pub fn send<W: Write>(&mut self, writer: &mut W) -> io::Result<usize>
        ensures ok { IfOk result (λ n. SendsTo n (W.contents writer.old) (W.contents writer.new) (talk self.old) (talk self.new)) }
        ensures err { OnErr result (Keeps (W.contents writer.old) (W.contents writer.new) × (talk self.new ≡ talk self.old)) }
    {
        self.page.send(writer)
    }

    /// Asks the client for the body of the first request that waits, if it waits for that (RFC 9110, section 10.1.1), and returns whether it does. It asks once
    /// for a request. The page of the request before must have been sent.
    pub fn ask_for_body(&mut self, rule: &Rule) -> Result<bool, AllocError>
        requires { (talk self.old).unsent ≡ [] }
        ensures ok { IfOk result (AsksIf (rule_view rule.now).most (talk self.old) (talk self.new)) }
        ensures err { OnErr result (talk self.new ≡ talk self.old) }
    {
        if self.ended || self.has_asked {
            return Ok(false);
        }
        if !is_expected(self.alloc, rule.most, &self.waiting)? {
            return Ok(false);
        }
        self.page = Unsent::asking(self.alloc)?;
        self.has_asked = true;
        Ok(true)
    }

    /// Answers the first request that came whole, by a rule, and returns it. Returns `None` if no request came whole, or the stream has ended. The service goes
    /// on from what the client knows, and the client then knows what the service reports. The page of the request before must have been sent. If memory runs
    /// out, the conversation ends.
    pub fn answer<S: Resumable<Known = K>>(
        &mut self,
        rule: &Rule,
        service: &mut S,
    ) -> Result<Option<Whole>, StreamFault>
        requires { (talk self.old).unsent ≡ [] }
        ensures ok { IfOk result (AnswersNext (rule_view rule.now) S.answers S.knows (S.name service.old) (S.fields service.old) service.old service.new (talk self.old) (talk self.new)) }
        ensures err { OnErr result (BreaksNext (rule_view rule.now) S.answers S.knows (S.name service.old) (S.fields service.old) service.old service.new (talk self.old) (talk self.new)) }
        ensures name { S.name service.new ≡ S.name service.old }
        ensures fields { S.fields service.new ≡ S.fields service.old }
    {
        if self.ended {
            return Ok(None);
        }
        // A failure ends the conversation, so that nothing is done twice.
        self.ended = true;
        let mut rest = self.waiting.as_slice();
        let Some(whole) = read_request(self.alloc, rule.most, &mut rest)? else {
            self.ended = false;
            return Ok(None);
        };
        let rest = rest.to_vec(self.alloc)?;
        service.resume(&self.known);
        let page = answer_by(self.alloc, rule, service, &whole)?;
        self.known = Some(service.known());
        self.page = Unsent::of(page);
        self.ended = whole.ends();
        self.has_asked = false;
        self.waiting = rest;
        Ok(Some(whole))
    }
}
