//! The sums that are kept next to a log.

use crate::damage::Damage;
use crate::scan::ScanFault;
use std::alloc::{AllocError, Global};
use sum::Table;

/// How many bytes of a log have a sum.
pub(crate) const BLOCK: usize = 65_536;

/// How many bytes a kept sum has: its four bytes, and these with each bit turned.
pub(crate) const ENTRY: usize = 8;

/// The sums of a log's whole blocks.
#[derive(Drop)]
pub(crate) struct Sums {
    /// How many blocks, from the first on, have their sums kept already.
    pub(crate) kept: usize,
    /// The sums of the blocks after those, which aren't kept yet.
    pub(crate) made: Vec<u32>,
}

/// The bytes by which a sum is kept.
pub(crate) fn entry_of(sum: u32) -> [u8; 8] {
    let [a, b, c, d] = sum.to_le_bytes();
    [a, b, c, d, !a, !b, !c, !d]
}

/// The sum of a block, where one is kept. What a crash has left of one is none.
fn kept_at(kept: &[u8], block: usize) -> Option<u32> {
    let place = block.checked_mul(ENTRY)?;
    let entry = kept.get(place..place.checked_add(ENTRY)?)?;
    let sum = u32::from_le_bytes([entry[0], entry[1], entry[2], entry[3]]);
    let is_whole = entry == entry_of(sum).as_slice();
    if is_whole { Some(sum) } else { None }
}

/// How many blocks have a kept sum, those before it that have none included.
fn blocks_kept(kept: &[u8]) -> usize {
    let mut blocks = 0;
    for block in 0..kept.len() / ENTRY {
        if kept_at(kept, block).is_some() {
            blocks = block.saturating_add(1);
        }
    }
    blocks
}

/// Compares a log with the sums that are kept of it, and gives those of all its whole blocks.
pub(crate) fn sums_of(
    alloc: Global,
    table: &Table,
    log: &[u8],
    kept: &[u8],
) -> Result<Sums, ScanFault> {
    let mut sums = Sums {
        kept: 0,
        made: Vec::new(alloc),
    };
    let mut block: usize = 0;
    for bytes in log.chunks_exact(BLOCK) {
        let sum = table.sum_of(bytes);
        match kept_at(kept, block) {
            Some(other) if other != sum => {
                let offset = (block as u64).saturating_mul(BLOCK as u64);
                return Err(ScanFault::Damage(Damage::Sum(offset)));
            }
            Some(_) if sums.made.is_empty() => sums.kept = sums.kept.saturating_add(1),
            _ => sums.made.push(sum).map_err(AllocError::from)?,
        }
        block = block.saturating_add(1);
    }
    if blocks_kept(kept) > block {
        return Err(ScanFault::Damage(Damage::Short(log.len() as u64)));
    }
    Ok(sums)
}

/// The blocks of a log that have another sum than the one that is kept of them.
pub(crate) fn changed_blocks(
    alloc: Global,
    table: &Table,
    log: &[u8],
    kept: &[u8],
) -> Result<Vec<usize>, AllocError> {
    let mut changed = Vec::new(alloc);
    let mut block: usize = 0;
    for bytes in log.chunks_exact(BLOCK) {
        if kept_at(kept, block).is_some_and(|sum| sum != table.sum_of(bytes)) {
            changed.push(block)?;
        }
        block = block.saturating_add(1);
    }
    Ok(changed)
}
