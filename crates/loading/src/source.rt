//! Reading the writes that a file asks for.

use crate::action::{MOST_BYTES, Reading, action_of, id_of};
use crate::item::{Item, Place, Refusal};
use crate::lines::{Lines, MOST_KEPT};
use serde_json::Value;
use std::alloc::{AllocError, Global};
use std::io::{self, Read};

/// A file that is read, and the field that has the ids where each line is a document.
#[derive(Drop)]
pub(crate) struct Source<'a, F: Read + Drop> {
    file: &'a str,
    field: Option<&'a str>,
    lines: Lines<F>,
}

/// What one or two lines are.
#[derive(Drop)]
pub(crate) enum Found<'a> {
    Write(Item<'a>),
    Misfit(Refusal<'a>),
}

impl<'a, F: Read + Drop> Source<'a, F> {
    pub(crate) fn new(
        alloc: Global,
        file: &'a str,
        field: Option<&'a str>,
        opened: F,
    ) -> io::Result<Source<'a, F>> {
        Ok(Source {
            file,
            field,
            lines: Lines::new(alloc, opened)?,
        })
    }

    /// How many bytes of the file were read.
    pub(crate) fn bytes(&self) -> u64 {
        self.lines.bytes()
    }

    /// The number of the line that was read last.
    pub(crate) fn line(&self) -> u64 {
        self.lines.number()
    }

    /// Reads on, and gives nothing at the end of the file.
    pub(crate) fn advance(&mut self, alloc: Global) -> io::Result<Option<Found<'a>>> {
        if !self.lines.advance()? {
            return Ok(None);
        }
        let place = Place {
            file: self.file,
            line: self.lines.number(),
        };
        let found = match self.field {
            Some(field) => self.document(alloc, place, field)?,
            None => self.action(alloc, place)?,
        };
        Ok(Some(found))
    }

    /// Reads the line as a document that has its id.
    fn document(
        &self,
        alloc: Global,
        place: Place<'a>,
        field: &str,
    ) -> Result<Found<'a>, AllocError> {
        let lines = self.lines.shown(alloc)?;
        if let Some(reason) = self.flaw(alloc, "document")? {
            return Ok(misfit(place, reason, lines));
        }
        match id_of(alloc, field, &lines)? {
            Reading::Good(id) => Ok(Found::Write(Item {
                place,
                action: action_line(alloc, &id)?,
                id,
                is_document: true,
                lines,
            })),
            Reading::Unfit(unfit) => Ok(misfit(place, unfit.reason, lines)),
        }
    }

    /// Reads the line as an action, and the next one as its document where it has one.
    fn action(&mut self, alloc: Global, place: Place<'a>) -> io::Result<Found<'a>> {
        let mut lines = self.lines.shown(alloc)?;
        if let Some(reason) = self.flaw(alloc, "action line")? {
            return Ok(misfit(place, reason, lines));
        }
        match action_of(alloc, &lines)? {
            Reading::Good(action) => {
                if action.has_document {
                    if let Some(reason) = self.follow(alloc, &mut lines)? {
                        return Ok(misfit(place, reason, lines));
                    }
                }
                Ok(Found::Write(Item {
                    place,
                    id: action.id,
                    is_document: action.has_document,
                    action: String::new(alloc),
                    lines,
                }))
            }
            Reading::Unfit(unfit) => {
                if unfit.has_document {
                    let _ = self.follow(alloc, &mut lines)?;
                }
                Ok(misfit(place, unfit.reason, lines))
            }
        }
    }

    /// Adds the document to the line of its action, and says why it isn't taken.
    fn follow(&mut self, alloc: Global, lines: &mut String) -> io::Result<Option<String>> {
        if !self.lines.advance()? {
            let reason = String::from_str(
                alloc,
                "the file ends where the action's document should be",
            )?;
            return Ok(Some(reason));
        }
        lines.push('\n')?;
        lines.push_str(&self.lines.shown(alloc)?)?;
        Ok(self.flaw(alloc, "document")?)
    }

    /// Why the line isn't taken, whatever it says.
    fn flaw(&self, alloc: Global, what: &str) -> Result<Option<String>, AllocError> {
        let size = self.lines.size();
        if size > MOST_BYTES {
            let cut = if size > MOST_KEPT as u64 {
                ", and only its beginning stands here"
            } else {
                ""
            };
            let reason = format!(in alloc;
                "the {what} has {size} bytes; at most 65,536 are taken{cut}"
            )?;
            return Ok(Some(reason));
        }
        if !self.lines.is_text() {
            let line = self.lines.number();
            return Ok(Some(format!(in alloc; "the {what} isn't UTF-8 (line {line})")?));
        }
        Ok(None)
    }
}

fn misfit<'a>(place: Place<'a>, reason: String, lines: String) -> Found<'a> {
    Found::Misfit(Refusal {
        place,
        reason,
        lines,
    })
}

/// The action that writes a document under an id.
fn action_line(alloc: Global, id: &str) -> Result<String, AllocError> {
    let id = Value::try_from_str(alloc, id)?.to_string(alloc)?;
    format!(in alloc; "{{\"index\":{{\"_id\":{id}}}}}\n")
}
