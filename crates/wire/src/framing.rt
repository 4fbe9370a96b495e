//! How long a request is (RFC 9112, section 6), and whether the stream ends after it.
ghost use Rattle.std.specs.Prelude.{◌≡◌, ◌≤◌, map, None, option_copied};
ghost use Rattle.std.specs.Char.{digit_value};
ghost use Rattle.std.specs.Str.{all_ascii_digits};
ghost use Rattle.doc.specs.Outcome.{Gives};
ghost use Rattle.wire.specs.Fault.{fault_of};
ghost use Rattle.wire.specs.FrameView.{frame_view};
ghost use Rattle.wire.specs.Framing as spec;
ghost use Rattle.wire.specs.HeadView.{field_view, head_view};

use crate::head::{Field, Head};
use crate::head_fault::HeadFault;
use crate::number::all_digits;
use crate::pieces::cut_at;

/// How long a body is, whether the stream ends after it, whether it is encoded, and whether its sender waits until it is asked for it.
#[derive(Clone, Copy)]
pub(crate) struct Frame {
    pub(crate) length: usize,
    pub(crate) closes: bool,
    pub(crate) encoded: bool,
    pub(crate) expects: bool,
}

/// The frame that a head gives, whose body may have so many bytes at most. Faults are looked for in the order `BadHead`, `TransferCoding`, `BodyTooLarge`.
#[tactic(auto, unfolding(crate::specs::Framing::framing))]
pub(crate) fn framing<'b>(most: u32, head: &Head<'b>) -> Result<Frame, HeadFault>
    ensures { Gives fault_of frame_view result (spec.framing most (head_view head.now)) }
{
    let length = length_of(&head.fields)?;
    check_coding(&head.fields)?;
    let length = size_of(most, length)?;
    let closes = ends_after(head);
    let encoded = is_encoded(&head.fields);
    let expects = is_expecting(head);
    Ok(Frame {
        length,
        closes,
        encoded,
        expects,
    })
}

fn ends_after<'b>(head: &Head<'b>) -> bool
    ensures { result ≡ spec.ends_after (head_view head.now) }
{
    head.minor == 0 || is_closing(&head.fields)
}

/// Whether a field names a coding of the body (RFC 9110, section 8.4).
fn is_encoded<'b>(fields: &[Field<'b>]) -> bool
    ensures { result ≡ spec.is_encoded (map field_view fields.now) }
{
    for field in fields {
        if is_named(field.name, b"content-encoding") && !is_named(field.value, b"identity") {
            return true;
        }
    }
    false
}

/// Whether the sender waits until it is asked for the body (RFC 9110, section 10.1.1).
fn is_expecting<'b>(head: &Head<'b>) -> bool
    ensures { result ≡ spec.is_expecting (head_view head.now) }
{
    head.minor != 0 && has_expectation(&head.fields)
}

fn has_expectation<'b>(fields: &[Field<'b>]) -> bool
    ensures { result ≡ spec.has_expectation (map field_view fields.now) }
{
    for field in fields {
        if is_named(field.name, b"expect") && is_named(field.value, b"100-continue") {
            return true;
        }
    }
    false
}

/// The significant digits of the one number that all fields `content-length` give: they can tell numbers apart that no machine number holds.
fn length_of<'b>(fields: &[Field<'b>]) -> Result<Option<&'b [u8]>, HeadFault>
    ensures { Gives fault_of option_copied result (spec.lengths None (map field_view fields.now)) }
{
    let mut length = None;
    for field in fields {
        length = with_length(length, *field)?;
    }
    Ok(length)
}

fn with_length<'b>(
    so_far: Option<&'b [u8]>,
    field: Field<'b>,
) -> Result<Option<&'b [u8]>, HeadFault>
    ensures { Gives fault_of option_copied result (spec.with_length (option_copied so_far.entry) (field_view field.entry)) }
{
    if !is_named(field.name, b"content-length") {
        return Ok(so_far);
    }
    let number = numeral_of(field.value)?;
    match so_far {
        None => Ok(Some(number)),
        Some(other) => if other == number {
            Ok(so_far)
        } else {
            Err(HeadFault::BadHead)
        },
    }
}

/// The significant digits of a number.
fn numeral_of(value: &[u8]) -> Result<&[u8], HeadFault>
    ensures { Gives fault_of (λ n. n.now) result (spec.numeral_of value.now) }
{
    if value.is_empty() || !all_digits(value) {
        return Err(HeadFault::BadHead);
    }
    Ok(significant(value))
}

fn significant(value: &[u8]) -> &[u8]
    ensures { result.now ≡ spec.significant value.now }
{
    match value {
        [b'0', rest @ ..] => significant(rest),
        _ => value,
    }
}

/// The number that some digits give, where it isn't too large.
#[tactic(auto, using(crate::proofs::Numerals::value_grows))]
fn size_of(most: u32, length: Option<&[u8]>) -> Result<usize, HeadFault>
    ensures { Gives fault_of (λ n. n) result (spec.size_of most (option_copied length.entry)) }
{
    let Some(digits) = length else {
        return Ok(0);
    };
    let mut size: usize = 0;
    for digit in digits {
        if size > most as usize {
            return Err(HeadFault::BodyTooLarge);
        }
        size = 10 * size + digit_of(*digit);
    }
    if size > most as usize {
        return Err(HeadFault::BodyTooLarge);
    }
    Ok(size)
}

fn digit_of(byte: u8) -> usize
    ensures value { result ≡ digit_value byte }
    ensures small { result ≤ 36 }
{
    match (byte as char).to_digit(36) {
        Some(digit) => digit as usize,
        None => 36,
    }
}

fn check_coding<'b>(fields: &[Field<'b>]) -> Result<(), HeadFault>
    ensures { Gives fault_of (λ u. u) result (spec.uncoded (spec.is_coded (map field_view fields.now))) }
{
    if is_coded(fields) {
        return Err(HeadFault::TransferCoding);
    }
    Ok(())
}

fn is_coded<'b>(fields: &[Field<'b>]) -> bool
    ensures { result ≡ spec.is_coded (map field_view fields.now) }
{
    for field in fields {
        if is_named(field.name, b"transfer-encoding") {
            return true;
        }
    }
    false
}

fn is_closing<'b>(fields: &[Field<'b>]) -> bool
    ensures { result ≡ spec.closing (map field_view fields.now) }
{
    for field in fields {
        if is_named(field.name, b"connection") && lists_close(field.value) {
            return true;
        }
    }
    false
}

pub(crate) fn is_named(name: &[u8], wanted: &[u8]) -> bool
    ensures { result ≡ spec.is_named name.now wanted.now }
{
    name.eq_ignore_ascii_case(wanted)
}

/// Whether `close` is one of the tokens between the commas (RFC 9110, section 7.6.1).
#[tactic(auto, using(crate::proofs::Cuts::split_comma))]
fn lists_close(value: &[u8]) -> bool
    ensures { result ≡ spec.lists_close value.now }
{
    let (token, rest) = cut_at(value, b',');
    if is_close(token) {
        return true;
    }
    match rest {
        Some(rest) => lists_close(rest),
        None => false,
    }
}

fn is_close(token: &[u8]) -> bool
    ensures { result ≡ spec.is_close token.now }
{
    is_named(trimmed(token), b"close")
}

fn trimmed(token: &[u8]) -> &[u8]
    ensures { result.now ≡ spec.trimmed token.now }
{
    token.trim_ascii()
}
