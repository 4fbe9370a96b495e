//! Who sends a request, as its head says.
ghost use Rattle.std.specs.Prelude.{◌≡◌, map, IfOk};
ghost use Rattle.wire.specs.Framing as spec;
ghost use Rattle.wire.specs.HeadView.{field_view};
ghost use Rattle.wire.specs.Reading.{sender_view};

use crate::framing::is_named;
use crate::head::Field;
use std::alloc::{AllocError, Global};

/// The values of the fields `origin` (RFC 6454, section 7) and `host` (RFC 9112, section 3.2), each in the order in which they came.
#[derive(Drop)]
pub struct Sender {
    pub origins: Vec<Vec<u8>>,
    pub hosts: Vec<Vec<u8>>,
}

impl Sender {
    pub(crate) fn of<'b>(alloc: Global, fields: &[Field<'b>]) -> Result<Sender, AllocError>
        ensures { IfOk result (λ s. sender_view s ≡ spec.sender_of (map field_view fields.now)) }
    {
        Ok(Sender {
            origins: values_of(alloc, fields, b"origin")?,
            hosts: values_of(alloc, fields, b"host")?,
        })
    }

    pub fn copy(&self, alloc: Global) -> Result<Sender, AllocError>
        ensures { IfOk result (λ s. sender_view s ≡ sender_view self.now) }
    {
        Ok(Sender {
            origins: copied(alloc, &self.origins)?,
            hosts: copied(alloc, &self.hosts)?,
        })
    }
}

/// The values of the fields with a name.
fn values_of<'b>(
    alloc: Global,
    fields: &[Field<'b>],
    name: &[u8],
) -> Result<Vec<Vec<u8>>, AllocError>
    ensures { IfOk result (λ v. map (λ x. x.items) v.items ≡ spec.values_of name.now (map field_view fields.now)) }
{
    let mut values = Vec::new(alloc);
    for field in fields {
        if is_named(field.name, name) {
            values.push(field.value.to_vec(alloc)?)?;
        }
    }
    Ok(values)
}

fn copied(alloc: Global, values: &[Vec<u8>]) -> Result<Vec<Vec<u8>>, AllocError>
    ensures { IfOk result (λ v. map (λ x. x.items) v.items ≡ map (λ x. x.items) values.now) }
{
    let mut copies = Vec::with_capacity(alloc, values.len())?;
    for value in values {
        copies.push(value.as_slice().to_vec(alloc)?)?;
    }
    Ok(copies)
}
