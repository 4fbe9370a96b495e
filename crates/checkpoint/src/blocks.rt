//! The bits of a span: seventeen words, one for each block of 64 numbers, in which a block's word stands at the block modulo 17.
ghost use Rattle.std.specs.Prelude.{◌≡◌, ◌<◌, ◌≤◌, ◌+◌, ◌*◌, ◌/◌, ◌%◌, ◌^◌, ◌++◌, ℕ, true, false, ◌&&◌, nat_eq, nat_lt, if◌then◌else◌, slice_index, IfOk};
ghost use Rattle.op.specs.Ids.{has};
ghost use Rattle.checkpoint.specs.Span.{is_set, is_set_from, is_spanned, span_of};
ghost use Rattle.checkpoint.specs.Window.{marked_from};

use std::alloc::AllocError;

/// How many blocks a span has.
pub(crate) const BLOCKS: u64 = 17;

/// So many low bits.
pub(crate) fn low_bits(count: u64) -> u64
    ensures { (i : ℕ) → i < 64 → is_set result i ≡ nat_lt i count }
{
    if count >= 64 {
        return u64::MAX;
    }
    (1 << count) - 1
}

/// The word of a block.
pub(crate) fn word(words: &[u64; 17], block: u64) -> u64
    ensures { result ≡ slice_index words.now (block % 17) }
{
    words[(block % BLOCKS) as usize]
}

/// Sets a number's bit.
pub(crate) fn set(words: &mut [u64; 17], number: u64)
    ensures { (k : ℕ) → is_spanned words.new k ≡ (if nat_eq (k % 1088) (number % 1088) then true else is_spanned words.old k) }
{
    let at = (number / 64 % BLOCKS) as usize;
    words[at] = words[at] | (1 << (number % 64));
}

/// Keeps of a block's bits those of a mask.
pub(crate) fn keep(words: &mut [u64; 17], block: u64, mask: u64)
    ensures { (k : ℕ) → is_spanned words.new k ≡ (if nat_eq (k / 64 % 17) (block % 17) then is_spanned words.old k && is_set mask (k % 64) else is_spanned words.old k) }
{
    let at = (block % BLOCKS) as usize;
    words[at] = words[at] & mask;
}

/// The first block that has a number, or another where none has: the numbers are the same from there on.
pub(crate) fn base(words: &[u64; 17], first: u64, other: u64) -> u64
    requires { first ≤ 2 ^ 57 }
    ensures same { span_of result words.now ≡ span_of first words.now }
    ensures near { ((k : ℕ) → has (span_of first words.now) k ≡ true → (k / 64 ≤ other) × (other ≤ k / 64 + 16)) → (result ≤ other) × (other ≤ result + 16) }
{
    for step in 0..BLOCKS {
        if word(words, first + step) != 0 {
            return first + step;
        }
    }
    other
}

/// Whether all numbers are below another.
pub(crate) fn ends_before(words: &[u64; 17], first: u64, number: u64) -> bool
    requires { first ≤ 2 ^ 57 }
    ensures below { result ≡ true → (k : ℕ) → first * 64 ≤ k → k < first * 64 + 1088 → number ≤ k → is_spanned words.now k ≡ false }
    ensures all { ((k : ℕ) → has (span_of first words.now) k ≡ true → k < number) → result ≡ true }
{
    for step in 0..BLOCKS {
        let block = first + step;
        let below = low_bits(number.saturating_sub(block * 64));
        if word(words, block) & !below != 0 {
            return false;
        }
    }
    true
}

/// Adds the numbers of a block whose bits are set.
pub(crate) fn push_block(numbers: &mut Vec<u64>, start: u64, bits: u64) -> Result<(), AllocError>
    requires { start ≤ 2 ^ 63 + 1024 }
    ensures { IfOk result (λ _. numbers.new.items ≡ numbers.old.items ++ marked_from (is_set_from bits start) start 64) }
{
    if bits == 0 {
        return Ok(());
    }
    for at in 0..64u64 {
        if (bits >> at) & 1 == 1 {
            numbers.push(start + at)?;
        }
    }
    Ok(())
}
