//! Journals from their text.
ghost use Rattle.std.specs.Prelude.{◌≡◌, [], map, string_bytes, IfOk, Ok};
ghost use Rattle.doc.specs.Mapping.{mapping_of as mapping_data};
ghost use Rattle.journals.specs.Entries.{AreTexts, IsHead, IsHeaded, IsRead, IsTextOf, IsTextOfNode, TellsDeed, TellsHead, TellsRuling};
ghost use Rattle.serde_json.specs.View.{view};

use crate::reading::entries::{deed_of, member, ruling_of, value_of};

mod answered;
mod asked;
mod entries;
mod items;
mod wrong;

use crate::heading::opening_of;
use crate::reading::items::{copy_of, natural_of, wrong_of};
use crate::reading::wrong::Wrong;
use doc::Mapping;
use journal::{Deeds, Journal, Rulings};
use master::State;
use serde_json::Value;
use std::alloc::{AllocError, AllocFailed, Global};
use std::fmt;
use std::fmt::Display;
use wire::cut_at;

/// Why texts aren't journals.
#[derive(Debug, Drop)]
pub enum JournalFault {
    NoMemory,
    /// No text is there.
    Empty,
    /// The text of a node (0 is the master), the line in it, from 1 on, and what is wrong there.
    Line(u64, u64, &'static str),
}

impl Display for JournalFault {
    fn fmt<W: fmt::Write>(&self, f: &mut fmt::Formatter<W>) -> fmt::Result {
        match self {
            JournalFault::NoMemory => write!(f, "out of memory"),
            JournalFault::Empty => write!(f, "no journal is there"),
            JournalFault::Line(node, line, wanted) => {
                write!(f, "node {node}: line {line}: {wanted}")
            }
        }
    }
}

impl From<AllocError> for JournalFault {
    ghost use Rattle.std.specs.Prelude.{◌≡◌};
    ghost use Rattle.journals.specs.declared.reading.JournalFault.TheVariants.{NoMemory};

    ghost from_gives = { λ _ e. e ≡ NoMemory };

    fn from(_refused: AllocError) -> JournalFault {
        JournalFault::NoMemory
    }
}

impl<T: Drop> From<AllocFailed<T>> for JournalFault {
    ghost use Rattle.std.specs.Prelude.{◌≡◌};
    ghost use Rattle.journals.specs.declared.reading.JournalFault.TheVariants.{NoMemory};

    ghost from_gives = { λ _ e. e ≡ NoMemory };

    fn from(_refused: AllocFailed<T>) -> JournalFault {
        JournalFault::NoMemory
    }
}

/// What the first line of a text says.
#[derive(Drop)]
struct Head {
    copies: u8,
    mapping: Mapping,
}

fn fault_at(node: u32, line: u64, wrong: Wrong) -> JournalFault {
    match wrong {
        Wrong::NoMemory => JournalFault::NoMemory,
        Wrong::Wanted(wanted) => JournalFault::Line(node as u64, line, wanted),
    }
}

// ---- first lines

/// The first line of a node's text.
fn head_of(alloc: Global, node: u32, line: &[u8]) -> Result<Head, Wrong>
    ensures { IfOk result (λ h. IsHead h.copies node h.mapping line.now) }
{
    let value = value_of(alloc, line)?;
    head_in(alloc, node, &value)
}

fn head_in(alloc: Global, node: u32, value: &Value) -> Result<Head, Wrong>
    ensures { IfOk result (λ h. TellsHead h.copies node h.mapping (view value.now)) }
{
    if copy_of(member(value, "node")?)? != node {
        return Err(Wrong::Wanted("this is the journal of another node"));
    }
    let copies = natural_of(member(value, "copies")?)?;
    if copies == 0 || copies > 5 {
        return Err(Wrong::Wanted("an index begins with one copy to five"));
    }
    Ok(Head {
        copies: copies as u8,
        mapping: mapping_of(alloc, member(value, "mapping")?)?,
    })
}

fn mapping_of(alloc: Global, value: &Value) -> Result<Mapping, Wrong>
    ensures { IfOk result (λ m. mapping_data (view value.now) ≡ Ok m) }
{
    match Mapping::from_value(alloc, value) {
        Ok(mapping) => Ok(mapping),
        Err(fault) => Err(wrong_of(fault, "a mapping is wanted")),
    }
}

/// Whether the first line of a node's text says the same of the index as that of the master's.
fn check_head(alloc: Global, top: &Head, node: u32, line: &[u8]) -> Result<(), Wrong>
    ensures { IfOk result (λ _. IsHead top.now.copies node top.now.mapping line.now) }
{
    let head = head_of(alloc, node, line)?;
    let differs = head.copies != top.copies || !head.mapping.is(&top.mapping);
    drop(head);
    if differs {
        return Err(Wrong::Wanted("this is the journal of another index"));
    }
    Ok(())
}

// ---- journals

/// What stands after the last newline: nothing.
fn check_end(node: u32, line: u64, rest: &[u8]) -> Result<(), JournalFault>
    ensures { IfOk result (λ _. rest.now ≡ []) }
{
    if rest.is_empty() {
        Ok(())
    } else {
        Err(JournalFault::Line(node as u64, line, "the line has no end"))
    }
}

fn rulings_of(alloc: Global, text: &[u8]) -> Result<Rulings, JournalFault>
    ensures { IfOk result (IsTextOf TellsRuling text.now) }
{
    let mut found = Vec::new(alloc);
    let mut rest = text;
    let mut line: u64 = 2;
    'lines: loop {
        let (entry, behind) = cut_at(rest, b'\n');
        let Some(behind) = behind else {
            check_end(0, line, entry)?;
            return Ok(Rulings::from_vec(found));
        };
        match ruling_of(alloc, entry) {
            Ok(ruling) => found.push(ruling)?,
            Err(wrong) => return Err(fault_at(0, line, wrong)),
        }
        rest = behind;
        line = line.saturating_add(1);
    }
}

fn deeds_of(alloc: Global, node: u32, text: &[u8]) -> Result<Deeds, JournalFault>
    ensures { IfOk result (IsTextOf TellsDeed text.now) }
{
    let mut found = Vec::new(alloc);
    let mut rest = text;
    let mut line: u64 = 2;
    'lines: loop {
        let (entry, behind) = cut_at(rest, b'\n');
        let Some(behind) = behind else {
            check_end(node, line, entry)?;
            return Ok(Deeds::from_vec(found));
        };
        match deed_of(alloc, entry) {
            Ok(deed) => found.push(deed)?,
            Err(wrong) => return Err(fault_at(node, line, wrong)),
        }
        rest = behind;
        line = line.saturating_add(1);
    }
}

/// The journal of a node, the master's or a copy's.
fn journal_of(alloc: Global, top: &Head, node: u32, text: &[u8]) -> Result<Journal, JournalFault>
    ensures { IfOk result (IsTextOfNode top.now.copies top.now.mapping node text.now) }
{
    let (first, rest) = cut_at(text, b'\n');
    let Some(rest) = rest else {
        return Err(JournalFault::Line(node as u64, 1, "the line has no end"));
    };
    if let Err(wrong) = check_head(alloc, top, node, first) {
        return Err(fault_at(node, 1, wrong));
    }
    if node == 0 {
        let state = State::begin(alloc, top.copies)?;
        return Ok(Journal::OfMaster(state, rulings_of(alloc, rest)?));
    }
    let opening = opening_of(alloc, &top.mapping, top.copies as u32, node)?;
    Ok(Journal::OfCopy(opening, deeds_of(alloc, node, rest)?))
}

fn journals_of(alloc: Global, top: &Head, texts: &[String]) -> Result<Vec<Journal>, JournalFault>
    ensures { IfOk result (λ js. AreTexts top.now.copies top.now.mapping 0 (map string_bytes texts.now) js.items) }
{
    let mut found = Vec::new(alloc);
    'nodes: for place in 0..texts.len() {
        let Ok(node) = u32::try_from(place) else {
            return Err(JournalFault::Line(place as u64, 1, "there are too many journals"));
        };
        found.push(journal_of(alloc, top, node, texts[place].as_bytes())?)?;
    }
    Ok(found)
}

fn top_of(alloc: Global, text: &[u8]) -> Result<Head, JournalFault> {
    let (first, _) = cut_at(text, b'\n');
    match head_of(alloc, 0, first) {
        Ok(head) => Ok(head),
        Err(wrong) => Err(fault_at(0, 1, wrong)),
    }
}

/// The mapping of the index, and the journals that the texts are: the first is the master's, the next that of copy 1, and so on. What can't be
/// read is refused, by its node and line.
pub fn read(alloc: Global, texts: &[String]) -> Result<(Mapping, Vec<Journal>), JournalFault>
    ensures { IfOk result (λ r. IsRead (map string_bytes texts.now) r.0 r.1.items) }
{
    let Some(first) = texts.first() else {
        return Err(JournalFault::Empty);
    };
    let top = top_of(alloc, first.as_bytes())?;
    let journals = journals_of(alloc, &top, texts)?;
    let Head { copies: _, mapping } = top;
    Ok((mapping, journals))
}
