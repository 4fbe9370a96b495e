//! Pages in pieces. A page shares the texts of large documents with the index, so it needs memory for the rest alone.
ghost use Rattle.std.specs.Prelude.{◌≡◌, ◌≤◌, ◌<◌, ◌++◌, ◌+◌, ◌∷◌, ◌↔◌, List, ℕ, [], codes, drop, length, IsTrue, IfErr, IfOk, IfSome, OnOk, OnErr, string_bytes};
ghost use Rattle.std.specs.Io.KnownBytes.{Appends};
ghost use Rattle.json.specs.Print.{quoted};
ghost use Rattle.wire.specs.Bytes.{AppendsFront};
ghost use Rattle.wire.specs.declared.fault.StreamFault.TheVariants.{Write as Unwritten};
ghost use Rattle.front.specs.Page as spec;
ghost use Rattle.front.specs.PieceView.{joined, piece_bytes};

use crate::json_text::push_quoted;
use crate::page::{at_empty, with_fields};
use doc::Source;
use std::alloc::{AllocError, Global};
use std::collections::VecDeque;
use std::io::Write;
use std::marker::Model;
use wire::{StreamFault, write_whole};

/// From this length on, in bytes, a page shares the text of a document.
const SHARED: usize = 4096;

/// What a shared text costs a page, in bytes: its place among the pieces.
const SHARING: usize = 64;

/// Whether a page shares the text of a document.
pub(crate) fn is_shared(source: &Source) -> bool {
    source.as_str().len() >= SHARED
}

/// A part of a page.
#[derive(Drop)]
pub(crate) enum Piece {
    Text(String),
    Shared(Source),
}

impl Piece {
    pub(crate) fn as_str(&self) -> &str
        ensures { result.now ≡ piece_bytes self.now }
    {
        match self {
            Piece::Text(text) => text.as_str(),
            Piece::Shared(source) => source.as_str(),
        }
    }

    fn weight(&self) -> usize {
        match self {
            Piece::Text(text) => text.len(),
            Piece::Shared(_) => SHARING,
        }
    }
}

/// The pieces of a page that is being made, and the text that goes on after them.
#[derive(Drop)]
pub(crate) struct Pieces {
    done: VecDeque<Piece>,
    /// How many bytes the pieces have.
    held: usize,
    more: String,
}

impl Model for Pieces {
    ghost use Rattle.std.specs.Prelude.{◌≡◌, List, ℕ, ◌++◌, length, string_bytes};
    ghost use Rattle.front.specs.PieceView.{joined};

    ghost Value = { List ℕ };

    ghost view = { λ p. joined p.done.items ++ string_bytes p.more };

    ghost invariant = { λ p. p.held ≡ length (joined p.done.items) };
}

impl Pieces {
    /// Pieces that begin with a text.
    pub(crate) fn of(alloc: Global, text: String) -> Pieces
        ensures { result ≡ string_bytes text }
    {
        Pieces {
            done: VecDeque::new(alloc),
            held: 0,
            more: text,
        }
    }

    /// How many bytes there are.
    pub(crate) fn len(&self) -> Result<usize, AllocError>
        ensures { IfOk result (λ n. n ≡ length self.now) }
    {
        added(self.held, self.more.len())
    }

    pub(crate) fn push_str(&mut self, text: &str) -> Result<(), AllocError>
        ensures { OnOk result (self.new ≡ self.old ++ text.now) }
    {
        self.more.push_str(text)
    }

    /// Appends a text as a JSON string.
    pub(crate) fn push_quoted(&mut self, alloc: Global, text: &str) -> Result<(), AllocError>
        ensures { OnOk result (self.new ≡ self.old ++ quoted text.now) }
    {
        push_quoted(alloc, &mut self.more, text)
    }

    /// Appends the text of a document. If it is large, the page shares it.
    pub(crate) fn push_source(&mut self, alloc: Global, source: &Source) -> Result<(), AllocError>
        ensures { OnOk result (self.new ≡ self.old ++ source.now) }
    {
        if !is_shared(source) {
            return self.more.push_str(source.as_str());
        }
        let source = source.copy(alloc)?;
        let text = std::mem::replace(&mut self.more, String::new(alloc));
        let before = added(self.held, text.len())?;
        let after = added(before, source.as_str().len())?;
        self.done.push_back(Piece::Text(text))?;
        self.held = before;
        self.done.push_back(Piece::Shared(source))?;
        self.held = after;
        Ok(())
    }
}

/// The sum of two lengths. No memory has room for one that isn't a number of the machine.
fn added(length: usize, more: usize) -> Result<usize, AllocError>
    ensures { IfOk result (λ n. n ≡ length + more) }
{
    match length.checked_add(more) {
        Some(sum) => Ok(sum),
        None => Err(AllocError),
    }
}

/// A page that is to be sent: its first text, which has the whole head, and the pieces after it.
#[derive(Drop)]
pub struct Page {
    pub(crate) first: String,
    pub(crate) rest: VecDeque<Piece>,
    /// How many bytes the pieces after the first text have.
    pub(crate) behind: usize,
}

impl Model for Page {
    ghost use Rattle.std.specs.Prelude.{◌≡◌, List, ℕ, ◌++◌, length, string_bytes};
    ghost use Rattle.front.specs.PieceView.{joined};

    ghost Value = { List ℕ };

    ghost view = { λ p. string_bytes p.first ++ joined p.rest.items };

    ghost invariant = { λ p. p.behind ≡ length (joined p.rest.items) };
}

impl Page {
    /// A page that is one text.
    pub(crate) fn of(alloc: Global, text: String) -> Page
        ensures { result ≡ string_bytes text }
    {
        Page {
            first: text,
            rest: VecDeque::new(alloc),
            behind: 0,
        }
    }

    /// A page with this beginning and these pieces after it.
    #[tactic(auto, using(crate::proofs::PieceLists::joined_more, crate::proofs::PieceLists::length_more))]
    pub(crate) fn over(first: String, pieces: Pieces) -> Result<Page, AllocError>
        ensures { IfOk result (λ p. p ≡ string_bytes first ++ pieces) }
    {
        let Pieces { done, held, more } = pieces;
        let behind = added(held, more.len())?;
        let mut rest = done;
        rest.push_back(Piece::Text(more))?;
        Ok(Page {
            first,
            rest,
            behind,
        })
    }

    /// How many bytes the page has for itself.
    pub(crate) fn weight(&self) -> usize {
        let mut weight = self.first.len();
        for piece in &self.rest {
            weight = weight.saturating_add(piece.weight());
        }
        weight
    }

    /// The page with more fields after its own.
    #[tactic(auto, using(crate::proofs::Heads::fields_over))]
    pub(crate) fn with_fields(self, alloc: Global, fields: &str) -> Result<Page, AllocError>
        ensures { IfOk result (λ p. p ≡ spec.with_fields fields.now self) }
    {
        let Page {
            first,
            rest,
            behind,
        } = self;
        if let Some((head, after)) = split_head(first.as_str()) {
            let first = format!(in alloc; "{head}{fields}{after}")?;
            return Ok(Page {
                first,
                rest,
                behind,
            });
        }
        let text = whole(alloc, first, rest)?;
        Ok(Page::of(alloc, with_fields(alloc, fields, text.as_str())?))
    }

    /// The page's head alone.
    #[tactic(auto, using(crate::proofs::Heads::head_over_all), unfolding(crate::specs::Page::head_alone))]
    pub(crate) fn head(self, alloc: Global) -> Result<Page, AllocError>
        ensures { IfOk result (λ p. p ≡ spec.head_alone self) }
    {
        let Page { first, rest, .. } = self;
        if let Some((head, _)) = split_head(first.as_str()) {
            return Ok(Page::of(alloc, head_over(alloc, head)?));
        }
        let text = whole(alloc, first, rest)?;
        let (head, _) = at_empty(text.as_str());
        Ok(Page::of(alloc, head_over(alloc, head)?))
    }

    /// Writes the whole page, and hands it on to somebody who waits for it.
    pub(crate) fn write<W: Write>(self, writer: &mut W) -> Result<(), StreamFault>
        ensures ok { OnOk result (Appends (W.contents writer.old) (W.contents writer.new) self) }
        ensures err { OnErr result (AppendsFront (W.contents writer.old) (W.contents writer.new) self) }
        ensures cause { IfErr result (λ e. e ≡ Unwritten) }
    {
        let Page { first, rest, .. } = self;
        write_whole(writer, first.as_bytes())?;
        for piece in rest {
            write_whole(writer, piece.as_str().as_bytes())?;
        }
        if writer.flush().is_err() {
            return Err(StreamFault::Write);
        }
        Ok(())
    }
}

/// What stands before the first empty line, and the rest, if there is one.
fn split_head(text: &str) -> Option<(&str, &str)>
    ensures head { IfSome result (λ r. r.0.now ≡ spec.before_empty text.now) }
    ensures rest { IfSome result (λ r. text.now ≡ r.0.now ++ r.1.now) }
    ensures there { IfSome result (λ r. length r.0.now < length text.now) }
{
    match text.find("\r\n\r\n") {
        Some(at) => Some(text.split_at(at)),
        None => None,
    }
}

/// All of a page in one text.
fn whole(alloc: Global, first: String, rest: VecDeque<Piece>) -> Result<String, AllocError>
    ensures { IfOk result (λ t. string_bytes t ≡ string_bytes first ++ joined rest.items) }
{
    let mut text = first;
    for piece in rest {
        text.push_str(piece.as_str())?;
    }
    Ok(text)
}

fn head_over(alloc: Global, head: &str) -> Result<String, AllocError>
    ensures { IfOk result (λ t. string_bytes t ≡ head.now ++ codes "\r\n\r\n") }
{
    format!(in alloc; "{head}\r\n\r\n")
}
