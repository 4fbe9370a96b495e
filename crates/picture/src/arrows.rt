//! The messages of a picture.

use crate::colours::{RED, colour_of};
use crate::layout::{CHARACTER, Layout};
use crate::paint::paint_text;
use crate::scene::{Arrival, Arrived, Message};
use std::alloc::Global;
use std::io;
use std::io::Write;

/// How far from the middle of a node's line an arrow ends, and how far from it its name begins.
const TIP: u64 = 8;

const NAME: u64 = 10;

/// Draws a message: an arrow for each arrival; where it never arrives, the beginning of one.
pub(crate) fn paint_message<W: Write>(
    alloc: Global,
    message: &Message,
    layout: &Layout,
    out: &mut W,
) -> io::Result<()> {
    if message.arrived.is_empty() {
        return paint_lost(message, layout, out);
    }
    for arrived in &message.arrived {
        paint_arrow(message, *arrived, layout, out)?;
        paint_name(alloc, message, *arrived, layout, out)?;
    }
    Ok(())
}

/// The class of an arrow.
fn class_of(how: Arrival) -> &'static str {
    match how {
        Arrival::InTime => "sent",
        Arrival::Late => "late",
        Arrival::Again => "again",
        Arrival::Refused => "refused",
    }
}

/// Draws an arrow from the sender's step to the step at which the message arrives.
fn paint_arrow<W: Write>(
    message: &Message,
    arrived: Arrived,
    layout: &Layout,
    out: &mut W,
) -> io::Result<()> {
    let number = message.number;
    let class = class_of(arrived.how);
    let colour = if arrived.how == Arrival::Refused {
        RED
    } else {
        colour_of(message.term)
    };
    let (x, y) = (layout.x(message.from), layout.y(message.sent));
    let (end, to_y) = (layout.x(message.to), layout.y(arrived.step));
    let (above, below) = (to_y.saturating_sub(4), to_y.saturating_add(4));
    let (tip, wing) = if message.from < message.to {
        (end.saturating_sub(TIP), end.saturating_sub(TIP + TIP))
    } else {
        (end.saturating_add(TIP), end.saturating_add(TIP + TIP))
    };
    writeln!(
        out,
        "<path data-message=\"{number}\" class=\"{class}\" stroke=\"{colour}\" d=\"M{x} {y} L{tip} {to_y}\"/>"
    )?;
    writeln!(
        out,
        "<path stroke=\"{colour}\" d=\"M{wing} {above} L{tip} {to_y} L{wing} {below}\"/>"
    )
}

/// Writes the kind and the number of a message where it arrives, on the far side of the line.
fn paint_name<W: Write>(
    alloc: Global,
    message: &Message,
    arrived: Arrived,
    layout: &Layout,
    out: &mut W,
) -> io::Result<()> {
    let (kind, number) = (message.kind.as_str(), message.number);
    let name = match arrived.how {
        Arrival::InTime | Arrival::Refused => format!(in alloc; "{kind} {number}")?,
        Arrival::Late => format!(in alloc; "{kind} {number} late")?,
        Arrival::Again => format!(in alloc; "{kind} {number} again")?,
    };
    let end = layout.x(message.to);
    let x = if message.from < message.to {
        end.saturating_add(NAME)
    } else {
        let length = (name.chars().count() as u64).saturating_mul(CHARACTER);
        end.saturating_sub(NAME).saturating_sub(length)
    };
    let y = layout.y(arrived.step).saturating_add(3);
    paint_text(alloc, x, y, "name", name.as_str(), out)
}

/// Where the cross of a message stands that never arrives: in the gap next to its sender, and farther from it the farther its addressee is.
fn lost_at(message: &Message, x: u64) -> u64 {
    let lanes = message.from.abs_diff(message.to);
    let way = lanes.min(4).saturating_mul(20).saturating_add(40);
    if message.from < message.to {
        x.saturating_add(way)
    } else {
        x.saturating_sub(way)
    }
}

/// Draws a message that never arrives: an arrow that ends in a cross on its way.
fn paint_lost<W: Write>(message: &Message, layout: &Layout, out: &mut W) -> io::Result<()> {
    let number = message.number;
    let (x, y) = (layout.x(message.from), layout.y(message.sent));
    let (stop, to_y) = (lost_at(message, x), y.saturating_add(12));
    let (left, right) = (stop.saturating_sub(4), stop.saturating_add(4));
    let (above, below) = (to_y.saturating_sub(4), to_y.saturating_add(4));
    writeln!(
        out,
        "<path data-message=\"{number}\" class=\"lost\" d=\"M{x} {y} L{stop} {to_y}\"/>"
    )?;
    writeln!(
        out,
        "<path class=\"cross\" d=\"M{left} {above} L{right} {below} M{left} {below} L{right} {above}\"/>"
    )
}
