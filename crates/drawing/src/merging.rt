//! The picture of journals: their entries as one run, in an order in which each message is sent before it arrives.

use crate::MOST_STEPS;
use crate::entries::{Entry, entry_at};
use crate::fault::DrawFault;
use crate::script::note;
use crate::words::{printed, said};
use audit::{AuditFault, audit};
use doc::Mapping;
use journal::Journal;
use journals::copies_of;
use picture::{Line, draw};
use replica::Input;
use std::alloc::{AllocError, Global};
use std::io::Write;

/// Draws journals: the master's first, and then those of copies 1, 2 and so on. The entry at which their audit fails is marked. `title` stands above.
pub fn draw_journals<W: Write>(
    alloc: Global,
    title: &str,
    mapping: &Mapping,
    journals: &[Journal],
    out: &mut W,
) -> Result<(), DrawFault> {
    if journals.len() > u32::MAX as usize {
        return Err(DrawFault::NoMemory);
    }
    let wrong = match audit(alloc, mapping, journals) {
        Ok(_world) => None,
        Err(AuditFault::Uncaused(node, place)) | Err(AuditFault::Differs(node, place)) => {
            Some((node, place))
        }
        Err(AuditFault::NoMemory) => return Err(DrawFault::NoMemory),
    };
    let lines = lines_of(alloc, journals, wrong)?;
    draw(alloc, title, &lines, out)?;
    out.flush()?;
    Ok(())
}

/// A journal, how much of it is drawn, and the message that asks its next entry.
#[derive(Drop)]
struct Reader<'a> {
    node: u64,
    journal: &'a Journal,
    next: usize,
    /// The place of the message that asks the next entry among those that were sent.
    by: Option<usize>,
    /// How many of the messages that were sent don't ask it.
    searched: usize,
}

/// What of the journals is drawn.
#[derive(Drop)]
struct Merging {
    sent: Vec<Input>,
    lines: Vec<Line>,
    wrong: Option<(u64, u64)>,
}

/// The entries of all journals as lines of one script.
fn lines_of(
    alloc: Global,
    journals: &[Journal],
    wrong: Option<(u64, u64)>,
) -> Result<Vec<Line>, AllocError> {
    let mut readers = readers_of(alloc, journals)?;
    let mut merging = Merging {
        sent: Vec::new(alloc),
        lines: Vec::new(alloc),
        wrong,
    };
    merging.lines.push(opening(alloc, journals)?)?;
    for _ in 0..MOST_STEPS {
        let Some(place) = next_of(&mut readers, &merging.sent) else {
            break;
        };
        if let Some(reader) = readers.get_mut(place) {
            merging.read(alloc, reader)?;
        }
    }
    let left_out = left_of(&readers);
    drop(readers);
    if left_out > 0 {
        merging.lines.push(note(alloc, left_out)?)?;
    }
    let Merging {
        sent: _sent,
        lines,
        wrong: _,
    } = merging;
    Ok(lines)
}

fn readers_of<'a>(alloc: Global, journals: &'a [Journal]) -> Result<Vec<Reader<'a>>, AllocError> {
    let mut readers = Vec::new(alloc);
    for (node, journal) in journals.iter().enumerate() {
        readers.push(Reader {
            node: node as u64,
            journal,
            next: 0,
            by: None,
            searched: 0,
        })?;
    }
    Ok(readers)
}

/// The line that begins the index.
fn opening(alloc: Global, journals: &[Journal]) -> Result<Line, AllocError> {
    let copies = copies_of(journals).unwrap_or(1);
    Ok(Line {
        place: String::new(alloc),
        node: Some(0),
        said: format!(in alloc; "open {copies}")?,
        printed: String::new(alloc),
        is_wrong: false,
    })
}

/// How many entries aren't drawn.
fn left_of(readers: &[Reader<'_>]) -> u64 {
    let mut left = 0u64;
    for reader in readers {
        let all = match reader.journal {
            Journal::OfMaster(_, rulings) => rulings.as_slice().len(),
            Journal::OfCopy(_, deeds) => deeds.as_slice().len(),
        };
        left = left.saturating_add(all.saturating_sub(reader.next) as u64);
    }
    left
}

/// The journal whose next entry comes next: one that the oldest message asks, else one that no message asks, else any.
fn next_of(readers: &mut [Reader<'_>], sent: &[Input]) -> Option<usize> {
    let mut found: Option<(usize, usize)> = None;
    for (place, reader) in readers.iter_mut().enumerate() {
        if let Some(rank) = rank_of(reader, sent) {
            match found {
                Some((_, least)) if least <= rank => {}
                _ => found = Some((place, rank)),
            }
        }
    }
    match found {
        Some((place, _)) => Some(place),
        None => None,
    }
}

/// How late a journal's next entry comes; none after the last.
fn rank_of(reader: &mut Reader<'_>, sent: &[Input]) -> Option<usize> {
    let entry = entry_at(reader.journal, reader.next)?;
    if !entry.is_by_message() {
        return Some(usize::MAX - 1);
    }
    reader.search(entry, sent);
    Some(reader.by.unwrap_or(usize::MAX))
}

impl<'a> Reader<'a> {
    /// Looks among the messages that were sent since it last looked for the one that asks this entry.
    fn search(&mut self, entry: Entry<'_>, sent: &[Input]) {
        if self.by.is_some() {
            return;
        }
        for place in self.searched..sent.len() {
            if entry.is_by(&sent[place]) {
                self.by = Some(place);
                return;
            }
        }
        self.searched = sent.len();
    }
}

impl Merging {
    /// Takes the next entry of a journal as a line.
    fn read(&mut self, alloc: Global, reader: &mut Reader<'_>) -> Result<(), AllocError> {
        let Some(entry) = entry_at(reader.journal, reader.next) else {
            return Ok(());
        };
        let (node, place) = (reader.node, reader.next as u64);
        let by = match reader.by {
            Some(sent) => (sent as u64).saturating_add(1),
            None => 0,
        };
        let before = self.sent.len() as u64;
        let line = Line {
            place: format!(in alloc; "{node}:{place}")?,
            node: Some(node),
            said: said(alloc, node, entry, by)?,
            printed: printed(alloc, entry, before)?,
            is_wrong: self.is_wrong(node, place),
        };
        self.lines.push(line)?;
        self.send(alloc, entry)?;
        reader.next = reader.next.saturating_add(1);
        reader.by = None;
        reader.searched = 0;
        Ok(())
    }

    fn is_wrong(&self, node: u64, place: u64) -> bool {
        match self.wrong {
            Some((other, at)) => other == node && at == place,
            None => false,
        }
    }

    fn send(&mut self, alloc: Global, entry: Entry<'_>) -> Result<(), AllocError> {
        for message in entry.sent() {
            let copy = Input::Take(message.copy(alloc)?);
            self.sent.push(copy)?;
        }
        if let Some(message) = entry.ruled() {
            let copy = Input::Take(message.copy(alloc)?);
            self.sent.push(copy)?;
        }
        Ok(())
    }
}
