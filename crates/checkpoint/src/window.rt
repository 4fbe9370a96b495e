//! The bits of a window: sixteen words, in which the bit of a number stands at the number modulo 1,024.
ghost use Rattle.std.specs.Prelude.{◌≡◌, ◌<◌, ◌≤◌, ◌+◌, ◌%◌, ◌^◌, ℕ, true, false, nat_eq, if◌then◌else◌};
ghost use Rattle.checkpoint.specs.Numbers.{with_below};
ghost use Rattle.checkpoint.specs.Window.{is_marked, numbers_of};

/// How many numbers a window has.
pub(crate) const SIZE: u64 = 1_024;

/// Whether a number's bit is set.
pub(crate) fn is_marked(words: &[u64; 16], number: u64) -> bool
    ensures { result ≡ is_marked words.now number }
{
    (words[(number / 64 % 16) as usize] >> (number % 64)) & 1 == 1
}

/// Sets a number's bit.
pub(crate) fn set(words: &mut [u64; 16], number: u64)
    ensures { (k : ℕ) → is_marked words.new k ≡ (if nat_eq (k % 1024) (number % 1024) then true else is_marked words.old k) }
{
    let at = (number / 64 % 16) as usize;
    words[at] = words[at] | (1 << (number % 64));
}

/// Takes a number's bit back.
pub(crate) fn clear(words: &mut [u64; 16], number: u64)
    ensures { (k : ℕ) → is_marked words.new k ≡ (if nat_eq (k % 1024) (number % 1024) then false else is_marked words.old k) }
{
    let at = (number / 64 % 16) as usize;
    words[at] = words[at] & !(1 << (number % 64));
}

/// Counts all numbers below `end` as marked, and moves the window there.
pub(crate) fn raise(words: &mut [u64; 16], count: u64, end: u64)
    requires { count ≤ end }
    ensures numbers { numbers_of end words.new ≡ with_below (numbers_of count words.old) end }
    ensures above { (k : ℕ) → end ≤ k → k < count + 1024 → is_marked words.new k ≡ is_marked words.old k }
    ensures fresh { (k : ℕ) → count + 1024 ≤ k → k < end + 1024 → is_marked words.new k ≡ false }
{
    if end - count >= SIZE {
        *words = [0; 16];
        return;
    }
    for number in count..end {
        clear(words, number);
    }
}

/// Counts on over the numbers that are marked, and gives the new count.
pub(crate) fn settle(words: &mut [u64; 16], count: u64) -> u64
    requires small { count ≤ 2 ^ 63 }
    requires signed { (k : ℕ) → 2 ^ 63 ≤ k → k < count + 1024 → is_marked words.old k ≡ false }
    ensures numbers { numbers_of result words.new ≡ numbers_of count words.old }
    ensures gap { is_marked words.new result ≡ false }
    ensures small { result ≤ 2 ^ 63 }
    ensures signed { (k : ℕ) → 2 ^ 63 ≤ k → k < result + 1024 → is_marked words.new k ≡ false }
{
    let mut next = count;
    for step in 0..SIZE {
        if !is_marked(words, next) {
            return next;
        }
        clear(words, next);
        next += 1;
    }
    next
}
