//! The nodes' lines of a picture, and the marks on them.

use crate::colours::{GREY, RED, Stroke, colour_of, plain_stroke, stroke_of};
use crate::layout::{HEAD, Layout};
use crate::scene::{Mark, Step, Stretch};
use std::io;
use std::io::Write;

/// Draws the line of a node while it stays as it is.
pub(crate) fn paint_stretch<W: Write>(
    stretch: &Stretch,
    layout: &Layout,
    out: &mut W,
) -> io::Result<()> {
    let x = layout.x(stretch.node);
    let bottom = layout.y(stretch.end);
    if stretch.node == 0 {
        return paint_line(x, HEAD, bottom, plain_stroke(GREY, 2), out);
    }
    paint_line(
        x,
        layout.y(stretch.first),
        bottom,
        stroke_of(stretch.state),
        out,
    )
}

fn paint_line<W: Write>(
    x: u64,
    top: u64,
    bottom: u64,
    stroke: Stroke,
    out: &mut W,
) -> io::Result<()> {
    let (colour, width) = (stroke.colour, stroke.width);
    let (dashes, opacity) = (stroke.dashes, stroke.opacity);
    writeln!(
        out,
        "<line x1=\"{x}\" y1=\"{top}\" x2=\"{x}\" y2=\"{bottom}\" stroke=\"{colour}\" stroke-width=\"{width}\" stroke-dasharray=\"{dashes}\" opacity=\"{opacity}\"/>"
    )
}

/// Draws the mark of a step, and of a wrong one a ring about it.
pub(crate) fn paint_mark<W: Write>(step: &Step, x: u64, y: u64, out: &mut W) -> io::Result<()> {
    if step.is_wrong {
        writeln!(
            out,
            "<circle class=\"wrong\" cx=\"{x}\" cy=\"{y}\" r=\"11\" fill=\"none\" stroke=\"{RED}\" stroke-width=\"3\"/>"
        )?;
    }
    let colour = colour_of(step.term);
    paint_shape(step.mark, colour, x, y, out)
}

/// Draws a mark.
pub(crate) fn paint_shape<W: Write>(
    mark: Mark,
    colour: &str,
    x: u64,
    y: u64,
    out: &mut W,
) -> io::Result<()> {
    let (left, right) = (x.saturating_sub(5), x.saturating_add(5));
    let (above, below) = (y.saturating_sub(5), y.saturating_add(5));
    match mark {
        Mark::Note => Ok(()),
        Mark::Write => writeln!(
            out,
            "<circle cx=\"{x}\" cy=\"{y}\" r=\"5\" fill=\"{colour}\" stroke=\"#fff\"/>"
        ),
        Mark::Read => writeln!(
            out,
            "<rect x=\"{left}\" y=\"{above}\" width=\"10\" height=\"10\" fill=\"#fff\" stroke=\"{colour}\"/>"
        ),
        Mark::Message => writeln!(
            out,
            "<circle cx=\"{x}\" cy=\"{y}\" r=\"3\" fill=\"{colour}\" stroke=\"#fff\"/>"
        ),
        Mark::Decision => writeln!(
            out,
            "<polygon points=\"{x},{above} {right},{y} {x},{below} {left},{y}\" fill=\"{colour}\" stroke=\"#fff\"/>"
        ),
        Mark::Restart => writeln!(
            out,
            "<circle cx=\"{x}\" cy=\"{y}\" r=\"5\" fill=\"#fff\" stroke=\"{colour}\" stroke-width=\"2\"/>"
        ),
        Mark::Torn => writeln!(
            out,
            "<polyline class=\"torn\" stroke=\"{RED}\" points=\"{left},{above} {right},{y} {left},{y} {right},{below}\"/>"
        ),
        Mark::Refused => writeln!(
            out,
            "<path class=\"cross\" d=\"M{left} {above} L{right} {below} M{left} {below} L{right} {above}\"/>"
        ),
    }
}
