//! Looking through the frames of a log before it is opened.

use crate::damage::Damage;
use crate::fields::Fields;
use crate::numbers::{Numbers, Reach};
use crate::tearing::can_be_torn;
use std::alloc::{AllocError, Global};

/// How many bytes the header of a log has.
const HEADER: usize = 4;

/// What stands behind the whole frames of a log.
#[derive(Clone, Copy, Debug, PartialEq, Eq)]
pub(crate) enum End {
    /// Nothing behind so many bytes, or less than a header.
    Whole(usize),
    /// From this offset on a frame that isn't whole, as a crash leaves one.
    Torn(usize),
    /// It has another header, or a frame that is no record: an opening says so.
    Unread,
}

/// Why a log isn't to be opened, or wasn't looked through.
#[derive(Clone, Copy, Debug, PartialEq, Eq)]
pub(crate) enum ScanFault {
    Damage(Damage),
    NoMemory,
}

impl From<AllocError> for ScanFault {
    fn from(_refused: AllocError) -> ScanFault {
        ScanFault::NoMemory
    }
}

impl From<Damage> for ScanFault {
    fn from(damage: Damage) -> ScanFault {
        ScanFault::Damage(damage)
    }
}

/// What stands behind the whole frames of a log. It is refused where a number is too far past those before it, and where its end can't be a torn one.
pub(crate) fn scanned(alloc: Global, log: &[u8]) -> Result<End, ScanFault> {
    let Some((header, frames)) = log.split_at_checked(HEADER) else {
        return Ok(End::Whole(0));
    };
    if header != b"RSX1".as_slice() && header != b"RSX2".as_slice() {
        return Ok(End::Unread);
    }
    let mut rest = frames;
    let mut numbers = Numbers::new();
    for _ in 0..log.len() {
        let offset = log.len().saturating_sub(rest.len());
        let Some((content, behind)) = first_frame(rest) else {
            break;
        };
        match numbers.take(content) {
            Some(Reach::Near) => rest = behind,
            Some(Reach::Far) => return Err(ScanFault::Damage(Damage::Number(offset as u64))),
            None => return Ok(End::Unread),
        }
    }
    end_of(alloc, log, rest)
}

/// What stands behind the whole frames of a log, where these are its last bytes.
fn end_of(alloc: Global, log: &[u8], rest: &[u8]) -> Result<End, ScanFault> {
    let offset = log.len().saturating_sub(rest.len());
    if rest.is_empty() {
        return Ok(End::Whole(log.len()));
    }
    if !can_be_torn(alloc, rest)? {
        return Err(ScanFault::Damage(Damage::Torn(offset as u64)));
    }
    Ok(End::Torn(offset))
}

/// The content of the first frame, and the bytes after it; nothing where the frame isn't whole.
pub(crate) fn first_frame(bytes: &[u8]) -> Option<(&[u8], &[u8])> {
    let mut fields = Fields::of(bytes);
    let length = fields.word()?;
    let content = fields.take(length as usize)?;
    Some((content, fields.into_rest()))
}
