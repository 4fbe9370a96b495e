//! The sequence numbers of a log's frames, one frame after the other.

use crate::fields::Fields;
use checkpoint::WINDOW;
use op::checkpoint::count;

/// How many bytes an operation has at least.
const LEAST_OPERATION: usize = 25;

/// The kind of an operation that has a source.
const INDEX: u8 = 1;

/// What the numbers of a frame are to those before it.
#[derive(Clone, Copy, Debug, PartialEq, Eq)]
pub(crate) enum Reach {
    /// A copy can have written them.
    Near,
    /// One is more than the window past those before it, so that no copy has written it.
    Far,
}

/// The numbers that a log has had: all are below this one.
#[derive(Clone, Copy, Drop)]
pub(crate) struct Numbers {
    next: u64,
}

impl Numbers {
    /// None yet.
    pub(crate) fn new() -> Numbers {
        Numbers { next: 0 }
    }

    /// Passes over bytes in which so many were.
    pub(crate) fn pass(&mut self, count: u64) {
        self.next = self.next.saturating_add(count);
    }

    /// Takes those of one more frame; nothing where its content can't be read.
    pub(crate) fn take(&mut self, content: &[u8]) -> Option<Reach> {
        let mut fields = Fields::of(content);
        let reach = match fields.byte()? {
            1 => self.take_kept(&mut fields)?,
            2 => return self.take_resync(&mut fields),
            3 => return self.take_recovery(&mut fields),
            4 => self.take_group(&mut fields)?,
            5 => Reach::Near,
            _ => return None,
        };
        if reach == Reach::Near && fields.len() > 0 {
            return None;
        }
        Some(reach)
    }

    /// The fields of an operation's record.
    fn take_kept(&mut self, fields: &mut Fields<'_>) -> Option<Reach> {
        let known = counted(fields)?;
        let seq = fields.long()?;
        skip_operation(fields)?;
        let is_near = seq < self.next.saturating_add(WINDOW);
        self.next = self.next.max(seq.saturating_add(1));
        Some(reach_of(is_near && known <= self.next.saturating_add(WINDOW)))
    }

    fn take_resync(&mut self, fields: &mut Fields<'_>) -> Option<Reach> {
        fields.long()?;
        let known = counted(fields)?;
        let operations = counted_operations(fields)?;
        let is_near = known <= self.next.saturating_add(WINDOW);
        self.next = self.next.max(known.saturating_add(operations));
        Some(reach_of(is_near))
    }

    fn take_recovery(&mut self, fields: &mut Fields<'_>) -> Option<Reach> {
        fields.long()?;
        let operations = counted_operations(fields)?;
        self.next = self.next.max(operations);
        Some(Reach::Near)
    }

    fn take_group(&mut self, fields: &mut Fields<'_>) -> Option<Reach> {
        let records = fields.word()?;
        for _ in 0..records {
            if self.take_kept(fields)? == Reach::Far {
                return Some(Reach::Far);
            }
        }
        Some(Reach::Near)
    }
}

fn reach_of(is_near: bool) -> Reach {
    if is_near { Reach::Near } else { Reach::Far }
}

/// A checkpoint, as the number of those that it counts.
fn counted(fields: &mut Fields<'_>) -> Option<u64> {
    let known = fields.long()?.cast_signed();
    if known < -1 {
        return None;
    }
    Some(count(known))
}

/// How many operations follow; there are no more than have room.
fn counted_operations(fields: &mut Fields<'_>) -> Option<u64> {
    let operations = fields.word()?;
    if fields.len() / LEAST_OPERATION < operations as usize {
        return None;
    }
    Some(operations as u64)
}

/// Skips what stands behind the number of an operation: its term and version, its kind, its id and its source.
fn skip_operation(fields: &mut Fields<'_>) -> Option<()> {
    fields.long()?;
    fields.long()?;
    let kind = fields.byte()?;
    let id = fields.short()?;
    fields.take(id as usize)?;
    if kind == INDEX {
        let source = fields.word()?;
        fields.take(source as usize)?;
    }
    Some(())
}
