//! What is wrong with the log of a copy, though each of its whole frames may be a record.

use std::fmt;
use std::fmt::Display;

/// Damage of a log, by the offset where it begins.
#[derive(Clone, Copy, Debug, PartialEq, Eq)]
pub enum Damage {
    /// The block of 65,536 bytes there has another sum than the one that was kept of it.
    Sum(u64),
    /// The log ends there, and sums of more bytes were kept.
    Short(u64),
    /// The frame there isn't whole, and no crash leaves it so.
    Torn(u64),
    /// A number in the frame there can't have been written behind those before it.
    Number(u64),
}

impl Damage {
    /// Where it begins.
    pub fn offset(self) -> u64 {
        match self {
            Damage::Sum(offset) => offset,
            Damage::Short(offset) => offset,
            Damage::Torn(offset) => offset,
            Damage::Number(offset) => offset,
        }
    }
}

impl Display for Damage {
    fn fmt<W: fmt::Write>(&self, f: &mut fmt::Formatter<W>) -> fmt::Result {
        match self {
            Damage::Sum(offset) => write!(
                f,
                "the 65,536 bytes at offset {offset} have changed: their sum is another one"
            ),
            Damage::Short(offset) => write!(
                f,
                "its end is missing: it has {offset} bytes, and sums of more were kept"
            ),
            Damage::Torn(offset) => write!(
                f,
                "the frame at offset {offset} is damaged: it isn't whole, and no crash leaves it so"
            ),
            Damage::Number(offset) => write!(
                f,
                "the frame at offset {offset} is damaged: its number is too far past those before it"
            ),
        }
    }
}
