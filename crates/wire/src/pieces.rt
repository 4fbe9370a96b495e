//! Bytes in pieces.
ghost use Rattle.std.specs.Prelude.{◌≡◌, ◌<◌, length, option_copied, IfSome};
ghost use Rattle.wire.specs.Pieces as spec;

use std::str;

/// The bytes before the first such byte, and those after it where there is one.
pub fn cut_at(bytes: &[u8], byte: u8) -> (&[u8], Option<&[u8]>)
    ensures before { result.0.now ≡ (spec.cut_at byte bytes.now).0 }
    ensures shorter { IfSome result.1 (λ rest. length rest.now < length bytes.now) }
    ensures after { option_copied result.1 ≡ (spec.cut_at byte bytes.now).1 }
{
    match bytes.iter().position(|&b| b == byte) {
        Some(i) => (&bytes[..i], Some(&bytes[i + 1..])),
        None => (bytes, None),
    }
}

/// The text that some bytes are, where they are UTF-8.
pub fn text_of(bytes: &[u8]) -> Option<&str>
    ensures { option_copied result ≡ spec.text_of bytes.now }
{
    match str::from_utf8(bytes) {
        Ok(text) => Some(text),
        Err(_) => None,
    }
}
