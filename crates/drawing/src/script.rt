//! The picture of a script.

use crate::MOST_STEPS;
use crate::fault::DrawFault;
use picture::{Line, draw};
use scripts::{Flushing, Index, Listener, Refusal, replay_telling};
use std::alloc::{AllocError, Global};
use std::io::{BufRead, Write};
use std::{io, str};

/// Plays a script, and draws it. `title` stands above the picture.
pub fn draw_script<R: BufRead, W: Write>(
    alloc: Global,
    title: &str,
    reader: &mut R,
    out: &mut W,
) -> Result<(), DrawFault> {
    let mut sketch = Sketch {
        lines: Vec::new(alloc),
        number: 0,
        left_out: 0,
        is_full: false,
    };
    let mut unread = io::sink();
    let played = replay_telling(
        alloc,
        reader,
        &mut unread,
        Flushing::ByTheWriter,
        &mut sketch,
    );
    if let Err(fault) = played {
        drop(sketch);
        return Err(DrawFault::Replay(fault));
    }
    sketch.draw(alloc, title, out)
}

/// The lines of a script that were heard.
#[derive(Drop)]
struct Sketch {
    lines: Vec<Line>,
    number: u64,
    left_out: u64,
    /// Whether memory ran out.
    is_full: bool,
}

impl Listener for Sketch {
    fn hear(
        &mut self,
        alloc: Global,
        line: &[u8],
        printed: &str,
        _refusal: Option<&Refusal>,
        _index: Option<&Index>,
    ) {
        self.number = self.number.saturating_add(1);
        if line.is_empty() {
            return;
        }
        if self.lines.len() >= MOST_STEPS {
            self.left_out = self.left_out.saturating_add(1);
            return;
        }
        if self.add(alloc, line, printed).is_err() {
            self.is_full = true;
        }
    }
}

impl Sketch {
    fn add(&mut self, alloc: Global, line: &[u8], printed: &str) -> Result<(), AllocError> {
        let number = self.number;
        let said = str::from_utf8(line).unwrap_or("(no text)");
        let line = Line {
            place: format!(in alloc; "{number}")?,
            node: None,
            said: String::from_str(alloc, said)?,
            printed: String::from_str(alloc, printed)?,
            is_wrong: false,
        };
        self.lines.push(line)?;
        Ok(())
    }

    /// Draws what was heard, with a note of how many lines are left out.
    fn draw<W: Write>(self, alloc: Global, title: &str, out: &mut W) -> Result<(), DrawFault> {
        let Sketch {
            mut lines,
            number: _,
            left_out,
            is_full,
        } = self;
        if is_full {
            return Err(DrawFault::NoMemory);
        }
        if left_out > 0 {
            lines.push(note(alloc, left_out)?)?;
        }
        draw(alloc, title, &lines, out)?;
        out.flush()?;
        Ok(())
    }
}

/// A note of how many steps a picture leaves out.
pub(crate) fn note(alloc: Global, left_out: u64) -> Result<Line, AllocError> {
    Ok(Line {
        place: String::new(alloc),
        node: None,
        said: format!(in alloc; "# {left_out} more are not drawn.")?,
        printed: String::new(alloc),
        is_wrong: false,
    })
}
