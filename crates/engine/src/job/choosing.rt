//! Which parts a merge takes.
ghost use Rattle.std.specs.Prelude.{◌≡◌, ◌≤◌, ◌<◌, ◌^◌, ◌++◌, ◌∷◌, ◌&&◌, ◌==◌, [], filter, length, min, nat_lt, take, if◌then◌else◌, IfOk, OnOk};
ghost use Rattle.std.specs.List.{list_any};
ghost use Rattle.engine.specs.Live.{is_within, numbers_within, GoTogether};
ghost use Rattle.engine.specs.Parts.{all_published, documents_of_parts, published_of};
ghost use Rattle.engine.specs.Published.{greatest, is_numbered, mergeable_count, numbered, AreDistinct};

use crate::read::part::Part;
use std::alloc::{AllocError, Global};

/// No more segments go into one at once.
const MOST_AT_ONCE: usize = 10;

/// Segments of no more live documents are of the smallest size.
const SMALLEST: usize = 16;

/// How many times as large the segments of the next size are.
const GROWTH: usize = 8;

/// How many sizes there are: a segment has fewer than 2^32 documents.
const SIZES: usize = 11;

/// So many segments of one size go into one before larger ones do. The more there are, the less often a document is written again.
const ENOUGH: usize = 4;

/// The parts that bear one of the numbers.
pub(crate) fn parts_numbered(
    alloc: Global,
    parts: &[Part],
    numbers: &[u64],
) -> Result<Vec<Part>, AllocError>
    ensures { IfOk result (λ v. v.items ≡ filter (λ p. is_numbered numbers.now (published_of p)) parts.now) }
{
    let mut chosen = Vec::new(alloc);
    for part in parts {
        push_if(&mut chosen, part, is_one_of(numbers, part.number()))?;
    }
    Ok(chosen)
}

/// Adds a part that is one of the chosen.
pub(crate) fn push_if(
    chosen: &mut Vec<Part>,
    part: &Part,
    is_chosen: bool,
) -> Result<(), AllocError>
    ensures { OnOk result (chosen.new.items ≡ (if is_chosen then chosen.old.items ++ part.now ∷ [] else chosen.old.items)) }
{
    if is_chosen {
        chosen.push(part.copy()?)?;
    }
    Ok(())
}

/// Whether a number is one of these.
fn is_one_of(numbers: &[u64], number: u64) -> bool
    ensures { result ≡ list_any (λ n. n == number) numbers.now }
{
    numbers.contains(&number)
}

/// How many parts a merge may take.
pub(crate) fn count_mergeable(parts: &[Part]) -> usize
    ensures { result ≡ mergeable_count (all_published parts.now) }
{
    let mut count = 0;
    for part in parts {
        if is_mergeable(part) {
            count += 1;
        }
    }
    count
}

/// Whether a merge may take a part.
fn is_mergeable(part: &Part) -> bool
    ensures { result ≡ nat_lt part.now.number greatest }
{
    part.number() < u64::MAX
}

/// The numbers of parts that go well into one: of the smallest size of which there are enough and of smaller ones, or else of the smallest parts.
pub(crate) fn numbers_to_merge(alloc: Global, parts: &[Part]) -> Result<Vec<u64>, AllocError>
    requires distinct { AreDistinct (all_published parts.now) }
    requires two { 2 ≤ mergeable_count (all_published parts.now) }
    ensures fit { IfOk result (λ v. GoTogether v.items (all_published parts.now) (documents_of_parts parts.now)) }
    ensures there { IfOk result (λ v. 2 ≤ length (numbered v.items (all_published parts.now))) }
    ensures few { IfOk result (λ v. length v.items ≤ 10) }
{
    let numbers = numbers_within(alloc, parts, size_to_merge(parts))?;
    if numbers.len() >= 2 {
        return Ok(numbers);
    }
    let numbers = numbers_within(alloc, parts, usize::MAX)?;
    Ok(numbers)
}

/// The most live documents of a segment that goes into the next merge.
fn size_to_merge(parts: &[Part]) -> usize {
    let mut most = SMALLEST;
    let mut smaller: usize = 0;
    for _ in 0..SIZES {
        let count = count_within(parts, most);
        if count >= smaller.saturating_add(ENOUGH) {
            return most;
        }
        smaller = count;
        most = most.saturating_mul(GROWTH);
    }
    smallest_size(parts)
}

/// The least size that two parts don't exceed.
fn smallest_size(parts: &[Part]) -> usize {
    let mut most = SMALLEST;
    for _ in 0..SIZES {
        if count_within(parts, most) >= 2 {
            return most;
        }
        most = most.saturating_mul(GROWTH);
    }
    usize::MAX
}

/// How many parts that a merge may take have no more live documents.
fn count_within(parts: &[Part], most: usize) -> usize {
    let mut count: usize = 0;
    for part in parts {
        if is_within(part, most) {
            count = count.saturating_add(1);
        }
    }
    count
}

/// Whether a merge may take a part, and it has no more live documents.
fn is_within(part: &Part, most: usize) -> bool
    ensures is { result ≡ is_within most (published_of part.now) part.now.documents }
    ensures few { length part.now.documents < 2 ^ 32 }
{
    let live = part.live_len();
    is_mergeable(part) && live <= most
}

/// The numbers of the first parts that a merge may take and that have no more live documents, ten at most.
fn numbers_within(alloc: Global, parts: &[Part], most: usize) -> Result<Vec<u64>, AllocError>
    requires { AreDistinct (all_published parts.now) }
    ensures are { IfOk result (λ v. v.items ≡ take 10 (numbers_within most (all_published parts.now) (documents_of_parts parts.now))) }
    ensures same { IfOk result (λ v. length v.items ≡ length (numbered v.items (all_published parts.now))) }
    ensures all { most ≡ 18446744073709551615 → IfOk result (λ v. length v.items ≡ min 10 (mergeable_count (all_published parts.now))) }
{
    let mut numbers = Vec::new(alloc);
    for part in parts {
        push_within(&mut numbers, part, most)?;
    }
    Ok(numbers)
}

/// Adds the number of a part, if a merge may take it, it has no more live documents, and there is room.
fn push_within(numbers: &mut Vec<u64>, part: &Part, most: usize) -> Result<(), AllocError>
    ensures pushed { OnOk result (numbers.new.items ≡ (if nat_lt (length numbers.old.items) 10 && is_within most (published_of part.now) part.now.documents then numbers.old.items ++ part.now.number ∷ [] else numbers.old.items)) }
    ensures few { length part.now.documents < 2 ^ 32 }
{
    let fits = is_within(part, most);
    if numbers.len() < MOST_AT_ONCE && fits {
        numbers.push(part.number())?;
    }
    Ok(())
}
