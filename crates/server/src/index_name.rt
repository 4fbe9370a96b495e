//! Names of indices.
ghost use Rattle.std.specs.Prelude.{◌≡◌};
ghost use Rattle.server.specs.IndexName as spec;

/// Whether a text is the name of an index, as the Elasticsearch reference has it ("Create index API"): 1 to 255 bytes, no capital letter of ASCII, none of
/// `\ / * ? " < > | , # :` and no space, not beginning with `-`, `_` or `+`, and neither `.` nor `..`.
pub(crate) fn is_index_name(name: &str) -> bool
    ensures { result ≡ spec.is_index_name name.now }
{
    let bytes = name.as_bytes();
    !bytes.is_empty()
        && bytes.len() <= 255
        && begins_well(bytes)
        && are_allowed(bytes)
        && name != "."
        && name != ".."
}

fn begins_well(name: &[u8]) -> bool
    ensures { result ≡ spec.begins_well name.now }
{
    match name {
        [first, ..] => !matches!(first, b'-' | b'_' | b'+'),
        [] => true,
    }
}

fn are_allowed(name: &[u8]) -> bool
    ensures { result ≡ spec.are_allowed name.now }
{
    for byte in name {
        if !is_allowed(*byte) {
            return false;
        }
    }
    true
}

fn is_allowed(byte: u8) -> bool
    ensures { result ≡ spec.is_allowed byte }
{
    !byte.is_ascii_uppercase() && !is_special(byte)
}

fn is_special(byte: u8) -> bool
    ensures { result ≡ spec.is_special byte }
{
    matches!(
        byte,
        b'\\' | b'/' | b'*' | b'?' | b'"' | b'<' | b'>' | b'|' | b',' | b'#' | b':' | b' '
    )
}
