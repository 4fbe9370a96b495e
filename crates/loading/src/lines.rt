//! The lines of a file, of which one is in memory at a time.

use memchr::memchr;
use std::alloc::{AllocError, Global};
use std::io::{self, BufRead, BufReader, ErrorKind, Read};

/// How many bytes of a line are kept.
pub(crate) const MOST_KEPT: usize = 1_048_576;

/// How many bytes are read at once.
const CHUNK: usize = 262_144;

/// Reads a file line by line. The line that was read last stays here.
#[derive(Drop)]
pub(crate) struct Lines<F: Read + Drop> {
    reader: BufReader<F>,
    kept: Vec<u8>,
    size: u64,
    number: u64,
    bytes: u64,
}

/// What a part of a line was followed by.
#[derive(Clone, Copy, PartialEq, Eq)]
enum Behind {
    More,
    Newline,
    Nothing,
}

impl<F: Read + Drop> Lines<F> {
    pub(crate) fn new(alloc: Global, file: F) -> io::Result<Lines<F>> {
        Ok(Lines {
            reader: BufReader::with_capacity(alloc, CHUNK, file)?,
            kept: Vec::new(alloc),
            size: 0,
            number: 0,
            bytes: 0,
        })
    }

    /// Reads the next line that isn't blank, and reports whether there is one.
    pub(crate) fn advance(&mut self) -> io::Result<bool> {
        for _ in 0..u64::MAX {
            if !self.read_line()? {
                return Ok(false);
            }
            if !self.kept.trim_ascii().is_empty() {
                return Ok(true);
            }
        }
        Ok(false)
    }

    fn read_line(&mut self) -> io::Result<bool> {
        self.kept.clear();
        self.size = 0;
        for _ in 0..u64::MAX {
            let behind = self.read_part()?;
            if behind != Behind::More {
                self.number = self.number.saturating_add(1);
                return Ok(behind == Behind::Newline || self.size > 0);
            }
        }
        Ok(false)
    }

    /// Reads what the buffer has of the line.
    fn read_part(&mut self) -> io::Result<Behind> {
        let (part, behind) = match self.reader.fill_buf() {
            Ok(there) => first_part(there),
            Err(error) if error.kind() == ErrorKind::Interrupted => return Ok(Behind::More),
            Err(error) => return Err(error),
        };
        let length = part.len();
        let room = MOST_KEPT.saturating_sub(self.kept.len()).min(length);
        self.kept.extend_from_slice(&part[..room])?;
        let newline = if behind == Behind::Newline { 1 } else { 0 };
        self.reader.consume(length.saturating_add(newline));
        self.size = self.size.saturating_add(length as u64);
        self.bytes = self
            .bytes
            .saturating_add(length as u64)
            .saturating_add(newline as u64);
        Ok(behind)
    }

    /// How many bytes the line has, which may be more than are kept.
    pub(crate) fn size(&self) -> u64 {
        self.size
    }

    /// The number of the line, from 1.
    pub(crate) fn number(&self) -> u64 {
        self.number
    }

    /// How many bytes of the file were read.
    pub(crate) fn bytes(&self) -> u64 {
        self.bytes
    }

    /// Whether what is kept of the line is UTF-8.
    pub(crate) fn is_text(&self) -> bool {
        str::from_utf8(&self.kept).is_ok()
    }

    /// What is kept of the line, without its end and with U+FFFD in place of what isn't UTF-8.
    pub(crate) fn shown(&self, alloc: Global) -> Result<String, AllocError> {
        String::from_utf8_lossy(alloc, unended(&self.kept))
    }
}

/// The bytes up to the first newline, and what follows them.
fn first_part(there: &[u8]) -> (&[u8], Behind) {
    if there.is_empty() {
        return (there, Behind::Nothing);
    }
    match memchr(b'\n', there) {
        Some(end) => (there.get(..end).unwrap_or(there), Behind::Newline),
        None => (there, Behind::More),
    }
}

/// A line without a carriage return at its end.
fn unended(line: &[u8]) -> &[u8] {
    line.strip_suffix(b"\r").unwrap_or(line)
}
