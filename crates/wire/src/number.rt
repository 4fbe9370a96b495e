//! Numbers in words.
ghost use Rattle.std.specs.Prelude.{◌≡◌, ◌^◌, nat_lt, if◌then◌else◌, Some, None};
ghost use Rattle.std.specs.Str.{all_ascii_digits};
ghost use Rattle.wire.specs.Number as spec;

/// The number that a word is: 1 to 19 decimal digits, at most 9,223,372,036,854,775,807. A sign or a space makes it none.
pub fn number_of(word: &str) -> Option<u64>
    ensures { result ≡ spec.number_of word.now }
{
    if !is_number(word.as_bytes()) {
        return None;
    }
    match word.parse::<u64>() {
        Ok(number) => small(number),
        Err(_) => None,
    }
}

/// The number, where it fits 63 bits.
fn small(number: u64) -> Option<u64>
    ensures { result ≡ (if nat_lt number (2 ^ 63) then Some number else None) }
{
    if number < 1 << 63 { Some(number) } else { None }
}

/// Whether a word is 1 to 19 digits.
fn is_number(word: &[u8]) -> bool
    ensures { result ≡ spec.is_number word.now }
{
    !word.is_empty() && word.len() <= 19 && all_digits(word)
}

pub(crate) fn all_digits(word: &[u8]) -> bool
    ensures { result ≡ all_ascii_digits word.now }
{
    for byte in word {
        if !byte.is_ascii_digit() {
            return false;
        }
    }
    true
}
