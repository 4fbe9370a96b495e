//! Pages on their way out.
ghost use Rattle.std.specs.Prelude.{◌≡◌, ◌≤◌, ◌++◌, ◌↔◌, List, ℕ, [], drop, length, IsTrue, IfOk, OnErr};
ghost use Rattle.std.specs.Io.KnownBytes.{Keeps};
ghost use Rattle.front.specs.Sending.{Sent, asking};
ghost use Rattle.front.specs.PieceView.{joined, piece_bytes};

use crate::pieces::{Page, Piece};
use std::alloc::{AllocError, Global};
use std::collections::VecDeque;
use std::io;
use std::io::Write;
use std::marker::Model;

/// The interim response of RFC 9110, section 15.2.1.
const ASKING: &str = "HTTP/1.1 100 Continue\r\n\r\n";

/// What of a page isn't sent yet: a piece, how many of its bytes were sent, and the pieces after it.
#[derive(Drop)]
pub struct Unsent {
    piece: Piece,
    sent: usize,
    rest: VecDeque<Piece>,
    /// How many bytes the pieces after this one have.
    behind: usize,
    /// How many bytes the page has for itself.
    weight: usize,
}

impl Model for Unsent {
    ghost use Rattle.std.specs.Prelude.{◌≡◌, ◌≤◌, List, ℕ, ◌++◌, [], drop, length};
    ghost use Rattle.front.specs.PieceView.{joined, piece_bytes};

    ghost Value = { List ℕ };

    ghost view = { λ u. drop u.sent (piece_bytes u.piece) ++ joined u.rest.items };

    ghost invariant = { λ u. (u.sent ≤ length (piece_bytes u.piece)) × (u.behind ≡ length (joined u.rest.items)) };
}

impl Unsent {
    /// Nothing is to be sent.
    pub fn nothing(alloc: Global) -> Unsent
        ensures { result ≡ [] }
    {
        Unsent {
            piece: Piece::Text(String::new(alloc)),
            sent: 0,
            rest: VecDeque::new(alloc),
            behind: 0,
            weight: 0,
        }
    }

    /// The interim response that asks a client for the body of its request.
    pub fn asking(alloc: Global) -> Result<Unsent, AllocError>
        ensures { IfOk result (λ u. u ≡ asking) }
    {
        Ok(Unsent {
            piece: Piece::Text(String::from_str(alloc, ASKING)?),
            sent: 0,
            rest: VecDeque::new(alloc),
            behind: 0,
            weight: 0,
        })
    }

    /// All of a page.
    pub fn of(page: Page) -> Unsent
        ensures { result ≡ page }
    {
        let weight = page.weight();
        let Page {
            first,
            rest,
            behind,
        } = page;
        Unsent {
            piece: Piece::Text(first),
            sent: 0,
            rest,
            behind,
            weight,
        }
    }

    /// How many bytes the page has for itself, apart from the texts of documents that it shares with the index.
    pub fn weight(&self) -> usize {
        self.weight
    }

    pub fn is_empty(&self) -> bool
        ensures { IsTrue result ↔ (self.now ≡ []) }
    {
        self.behind == 0 && self.sent >= self.piece.as_str().len()
    }

    /// The text of the piece that is sent now. Of a page of which nothing is sent yet it has the head.
    pub fn piece(&self) -> &str {
        self.piece.as_str()
    }

    /// Hands the writer bytes that aren't sent, in one call, and returns how many it took.
    pub fn send<W: Write>(&mut self, writer: &mut W) -> io::Result<usize>
        ensures ok { IfOk result (λ n. Sent n (W.contents writer.old) (W.contents writer.new) self.old self.new) }
        ensures err { OnErr result (Keeps (W.contents writer.old) (W.contents writer.new) × (self.new ≡ self.old)) }
    {
        for _ in 0..self.rest.len() {
            self.step();
        }
        let bytes = self.piece.as_str().as_bytes();
        let n = writer.write(&bytes[self.sent..])?;
        self.sent += n;
        Ok(n)
    }

    /// Goes on to the next piece, if this one was sent.
    fn step(&mut self)
        ensures { self.new ≡ self.old }
    {
        if self.sent < self.piece.as_str().len() {
            return;
        }
        if let Some(piece) = self.rest.pop_front() {
            self.behind -= piece.as_str().len();
            self.piece = piece;
            self.sent = 0;
        }
    }
}
