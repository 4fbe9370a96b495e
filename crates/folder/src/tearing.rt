//! Which ends of a log a crash can have torn.

use crate::fields::Fields;
use crate::scan::first_frame;
use op::{OpFault, decode_frame};
use std::alloc::{AllocError, Global};

/// How many bytes a group has at most, and so any frame but a recovery's.
const LONGEST: u32 = 67_673_093;

/// The tag of a recovery, which has all operations of an index.
const RECOVERY: u8 = 3;

/// The greatest tag of a frame that has records.
const MOST_TAG: u8 = 4;

/// Whether a crash can have left these bytes behind the whole frames of a log: the front of one frame. Where more is there the length in front is damaged.
pub(crate) fn can_be_torn(alloc: Global, rest: &[u8]) -> Result<bool, AllocError> {
    if !is_front(rest) {
        return Ok(false);
    }
    let has_record = match rest.get(4..) {
        Some(content) => is_record(alloc, content)?,
        None => false,
    };
    Ok(!has_record && !has_frame_within(alloc, rest)?)
}

/// Whether a frame of records can begin so, whose end isn't there.
fn is_front(rest: &[u8]) -> bool {
    let mut fields = Fields::of(rest);
    let Some(length) = fields.word() else {
        return true;
    };
    match fields.byte() {
        Some(RECOVERY) => true,
        Some(tag) => tag >= 1 && tag <= MOST_TAG && length <= LONGEST,
        None => length > 0,
    }
}

/// Whether a whole frame of records stands behind the first byte of these.
fn has_frame_within(alloc: Global, rest: &[u8]) -> Result<bool, AllocError> {
    for at in 1..rest.len() {
        if let Some(content) = content_at(rest, at) {
            if is_record(alloc, content)? {
                return Ok(true);
            }
        }
    }
    Ok(false)
}

/// The content of a frame at a place, where one can stand there.
pub(crate) fn content_at(bytes: &[u8], at: usize) -> Option<&[u8]> {
    let tag = *bytes.get(at.saturating_add(4))?;
    if tag < 1 || tag > MOST_TAG {
        return None;
    }
    let (content, _) = first_frame(bytes.get(at..)?)?;
    Some(content)
}

/// Whether a content is that of a record, or of a group of records.
pub(crate) fn is_record(alloc: Global, content: &[u8]) -> Result<bool, AllocError> {
    match decode_frame(alloc, content) {
        Ok(records) => {
            drop(records);
            Ok(true)
        }
        Err(OpFault::NoMemory) => Err(AllocError),
        Err(_) => Ok(false),
    }
}
