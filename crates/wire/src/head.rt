//! The head of a request.
ghost use Rattle.std.specs.Prelude.{◌≡◌, ◌≤◌, length, map, option_map, All, IfOk};
ghost use Rattle.httparse.specs.Spans.{header_bytes, IsHeaderWithin};
ghost use Rattle.wire.specs.Head as spec;
ghost use Rattle.wire.specs.HeadReading as reading;
ghost use Rattle.wire.specs.HeadView.{field_view, head_view};

use httparse::Status;
use httparse::spans::{EMPTY_HEADER_SPAN, HeaderSpan, parse_request};
use std::alloc::{AllocError, Global};

/// A header's name and its value, without the white space around it.
#[derive(Clone, Copy)]
pub(crate) struct Field<'b> {
    pub(crate) name: &'b [u8],
    pub(crate) value: &'b [u8],
}

/// The parts of a head.
#[derive(Drop)]
pub(crate) struct Head<'b> {
    pub(crate) method: &'b [u8],
    pub(crate) target: &'b [u8],
    pub(crate) minor: u8,
    pub(crate) fields: Vec<Field<'b>>,
}

impl<'b> Head<'b> {
    /// The head that the bytes begin with, by `httparse`, where it has 64 fields at most.
    pub(crate) fn parse(alloc: Global, bytes: &'b [u8]) -> Result<Option<Head<'b>>, AllocError>
        ensures { IfOk result (λ head. spec.IsHead bytes.now (option_map head_view head)) }
    {
        let mut spans = [EMPTY_HEADER_SPAN; 64];
        let Ok(Status::Complete(head)) = parse_request(bytes, &mut spans) else {
            return Ok(None);
        };
        let fields = fields_at(alloc, bytes, &spans[..head.headers])?;
        Ok(Some(Head {
            method: head.method.of(bytes),
            target: head.path.of(bytes),
            minor: head.version,
            fields,
        }))
    }
}

/// The head that the bytes give, as the function of the specs reads it; none where it reads none.
pub(crate) fn head_of<'b>(alloc: Global, bytes: &'b [u8]) -> Result<Option<Head<'b>>, AllocError>
    ensures { IfOk result (λ head. option_map head_view head ≡ reading.head_of bytes.now) }
{
    Head::parse(alloc, bytes)
}

fn fields_at<'b>(
    alloc: Global,
    bytes: &'b [u8],
    spans: &[HeaderSpan],
) -> Result<Vec<Field<'b>>, AllocError>
    requires { All (IsHeaderWithin (length bytes.now)) spans.now }
    ensures { IfOk result (λ fields. map field_view fields.items ≡ map (header_bytes bytes.now) spans.now) }
{
    let mut fields = Vec::new(alloc);
    for span in spans {
        fields.push(Field {
            name: span.name.of(bytes),
            value: span.value.of(bytes),
        })?;
    }
    Ok(fields)
}
