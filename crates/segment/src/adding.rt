//! One more document in the columns in the making.
ghost use Rattle.std.specs.Prelude.{◌≡◌, ◌<◌, ◌∷◌, [], length, nat_lt, OnOk};
ghost use Rattle.doc.specs.ScalarView.{field_values_view, scalars_view, values_view};
ghost use Rattle.analysis.specs.Terms.{terms_by};
ghost use Rattle.segment.specs.Added.{AreAdded, AreLong, IsAdded};
ghost use Rattle.segment.specs.Posted.{IsPosted, IsRoomFor};

use crate::making::{Making, Makings};
use crate::posting::post_values;
use doc::{FieldValues, Kind, Mapping, Scalar};
use std::alloc::{AllocError, Global};

/// Adds the document at this place, of so many in all, to the columns of its fields.
pub(crate) fn add_document(
    alloc: Global,
    makings: &mut Makings,
    mapping: &Mapping,
    fields: &[FieldValues],
    at: u32,
    len: usize,
) -> Result<(), AllocError>
    requires within { at < len }
    requires long { AreLong len makings.old }
    ensures { OnOk result (AreAdded mapping.now.fields len (values_view fields.now) at makings.old makings.new) }
{
    for field in fields {
        add_field(alloc, makings, mapping, field, at, len)?;
    }
    Ok(())
}

/// Adds the values of one field.
fn add_field(
    alloc: Global,
    makings: &mut Makings,
    mapping: &Mapping,
    field: &FieldValues,
    at: u32,
    len: usize,
) -> Result<(), AllocError>
    requires within { at < len }
    requires long { AreLong len makings.old }
    ensures { OnOk result (AreAdded mapping.now.fields len (field_values_view field.now ∷ []) at makings.old makings.new) }
{
    let kind = mapping.kind(field.name.as_str());
    if let Some(making) = makings.get_mut(field.name.as_str()) {
        return add_values(alloc, making, kind, &field.values, at);
    }
    let mut making = Making::none(alloc, mapping.seed(), len)?;
    add_values(alloc, &mut making, kind, &field.values, at)?;
    let boxed = Box::new(alloc, making)?;
    makings.insert(String::from_str(alloc, field.name.as_str())?, boxed)?;
    Ok(())
}

/// Adds the values of a document to a column.
fn add_values(
    alloc: Global,
    making: &mut Making,
    kind: Option<Kind>,
    values: &[Scalar],
    at: u32,
) -> Result<(), AllocError>
    requires room { IsRoomFor at making.old }
    requires has { at < length making.old.has }
    ensures { OnOk result (IsAdded kind (scalars_view values.now) at making.old making.new) }
{
    post(alloc, making, kind, values, at)?;
    if !values.is_empty() {
        making.has.set(at);
    }
    Ok(())
}

/// Posts the terms of values. A field that isn't mapped has none.
fn post(
    alloc: Global,
    making: &mut Making,
    kind: Option<Kind>,
    values: &[Scalar],
    at: u32,
) -> Result<(), AllocError>
    requires { IsRoomFor at making.old }
    ensures { OnOk result (IsPosted (terms_by kind (scalars_view values.now)) at making.old making.new) }
{
    match kind {
        Some(kind) => post_values(alloc, making, kind, values, at),
        None => Ok(()),
    }
}
