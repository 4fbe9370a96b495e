//! The numbers of a column in blocks, so that a range over many of them adds the marks of whole blocks.
ghost use Rattle.std.specs.Prelude.{◌≡◌, ◌<◌, ◌++◌, ℤ, All, [], ◌∷◌, if◌then◌else◌, length, IfOk, OnOk};
ghost use Rattle.doc.specs.Scalar as scalar;
ghost use Rattle.analysis.specs.Terms as spec;
ghost use Rattle.marks.specs.Lists.{marked};
ghost use Rattle.segment.specs.Blocks.{IsBlock, AreBlocks, numbered, numbers_of, hits};
ghost use Rattle.segment.specs.Limits.{limits_view};
ghost use Rattle.segment.specs.Places.{places_at_long};

use crate::limits::Limits;
use crate::places::Places;
use marks::Marks;
use std::alloc::{AllocError, Global};
use std::collections::BTreeMap;
use std::mem;

/// The numbers of fewer documents are in no blocks: the list of each is soon gone to.
const LEAST_DOCUMENTS: usize = 64;

/// A full block has at least so many numbers.
const LEAST_NUMBERS: usize = 128;

/// So many blocks are full where each document has one number. With more of them the two at the ends of a range would be shorter, but all their marks together larger.
const BLOCKS: usize = 32;

/// A number that a document has as a term, with its place.
#[derive(Clone, Copy)]
pub struct Number {
    pub value: i64,
    pub place: u32,
}

/// Numbers that stand next to one another in the order of numbers.
#[derive(Drop)]
pub struct Block {
    /// No number is less.
    pub first: i64,
    /// No number is greater.
    pub last: i64,
    pub numbers: Vec<Number>,
    /// The documents that have one of the numbers.
    pub marks: Marks,
}

impl Block {
    /// A block of so many documents without a number.
    fn none(alloc: Global, len: usize) -> Result<Block, AllocError>
        ensures is { IfOk result (IsBlock len) }
        ensures empty { IfOk result (λ b. b.numbers.items ≡ []) }
    {
        Ok(Block {
            first: i64::MAX,
            last: i64::MIN,
            numbers: Vec::new(alloc),
            marks: Marks::none(alloc, len)?,
        })
    }

    /// Adds a number with each of its places.
    fn add(&mut self, number: i64, places: &[u32]) -> Result<(), AllocError>
        requires is { IsBlock (length self.old.marks) self.old }
        requires there { All (λ p. p < length self.old.marks) places.now }
        ensures is { OnOk result (IsBlock (length self.old.marks) self.new) }
        ensures more { OnOk result (self.new.numbers.items ≡ self.old.numbers.items ++ numbered number places.now) }
    {
        add_places(&mut self.numbers, number, places)?;
        self.first = self.first.min(number);
        self.last = self.last.max(number);
        self.marks.mark(places);
        Ok(())
    }
}

fn add_places(numbers: &mut Vec<Number>, value: i64, places: &[u32]) -> Result<(), AllocError>
    ensures { OnOk result (numbers.new.items ≡ numbers.old.items ++ numbered value places.now) }
{
    for place in places {
        numbers.push(Number {
            value,
            place: *place,
        })?;
    }
    Ok(())
}

/// The blocks of the numbers of so many documents.
pub(crate) fn blocks_of(
    alloc: Global,
    longs: &BTreeMap<i64, Places>,
    len: usize,
) -> Result<Vec<Block>, AllocError>
    requires { (z : ℤ) → All (λ p. p < len) (places_at_long longs.now z) }
    ensures { IfOk result (λ v. AreBlocks len longs.now v.items) }
{
    let mut closed = Vec::new(alloc);
    if len < LEAST_DOCUMENTS || longs.is_empty() {
        return Ok(closed);
    }
    let mut block = Block::none(alloc, len)?;
    for (number, places) in longs {
        block.add(*number, places.as_slice())?;
        close_if_full(alloc, &mut closed, &mut block, len)?;
    }
    closed.push(block)?;
    Ok(closed)
}

/// Adds a block to the others if it is full, and begins the next.
fn close_if_full(
    alloc: Global,
    blocks: &mut Vec<Block>,
    block: &mut Block,
    len: usize,
) -> Result<(), AllocError>
    requires are { All (IsBlock len) blocks.old.items }
    requires is { IsBlock len block.old }
    ensures are { OnOk result (All (IsBlock len) blocks.new.items) }
    ensures is { OnOk result (IsBlock len block.new) }
    ensures same { OnOk result (numbers_of blocks.new.items ++ block.new.numbers.items ≡ numbers_of blocks.old.items ++ block.old.numbers.items) }
{
    let full = (len / BLOCKS).max(LEAST_NUMBERS);
    if block.numbers.len() < full {
        return Ok(());
    }
    let next = Block::none(alloc, len)?;
    let closed = mem::replace(block, next);
    blocks.push(closed)?;
    Ok(())
}

/// Marks the documents that have a number of the block within the limits.
pub(crate) fn mark_block(block: &Block, limits: Limits, marks: &mut Marks)
    requires { IsBlock (length marks.old) block.now }
    ensures { marks.new ≡ marked marks.old (hits (λ z. spec.is_within (limits_view limits) (scalar.long z)) block.now.numbers.items) }
{
    if limits.have(block.first) && limits.have(block.last) {
        marks.unite(&block.marks);
    } else if limits.may_have(block.first, block.last) {
        mark_each(&block.numbers, limits, marks);
    }
}

/// Marks the documents of those numbers that lie within the limits, one number after another.
fn mark_each(numbers: &[Number], limits: Limits, marks: &mut Marks)
    requires { All (λ n. n.place < length marks.old) numbers.now }
    ensures { marks.new ≡ marked marks.old (hits (λ z. spec.is_within (limits_view limits) (scalar.long z)) numbers.now) }
{
    for number in numbers {
        let passes = limits.have(number.value);
        set_if(marks, number.place, passes);
    }
}

/// Marks the place of a number that passes.
fn set_if(marks: &mut Marks, place: u32, passes: bool)
    requires { place < length marks.old }
    ensures { marks.new ≡ marked marks.old (if passes then place ∷ [] else []) }
{
    marks.set_if(place, passes);
}
