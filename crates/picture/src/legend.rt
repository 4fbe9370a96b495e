//! What the strokes and marks of a picture mean.

use crate::colours::{GREY, RED, Stroke, colour_of, plain_stroke, stroke_of};
use crate::layout::{CHARACTER, LEFT};
use crate::marks::paint_shape;
use crate::paint::paint_text;
use crate::scene::{Mark, Role, Scene, State};
use std::alloc::{AllocError, Global};
use std::io;
use std::io::Write;

/// How long a stroke of the legend is.
const SAMPLE: u64 = 30;

/// The rows of the legend.
const NODES: u64 = 40;

const MESSAGES: u64 = 60;

const MARKS: u64 = 80;

/// No more terms have their colour in the legend.
const MOST_TERMS: u64 = 7;

/// Draws the legend.
pub(crate) fn paint_legend<W: Write>(alloc: Global, scene: &Scene, out: &mut W) -> io::Result<()> {
    paint_nodes(alloc, scene, out)?;
    paint_messages(alloc, out)?;
    paint_marks(alloc, out)
}

/// Where the entry after one with this text begins.
fn after(x: u64, text: &str) -> u64 {
    x.saturating_add(SAMPLE)
        .saturating_add((text.len() as u64).saturating_mul(CHARACTER))
        .saturating_add(24)
}

fn paint_entry<W: Write>(alloc: Global, x: u64, y: u64, text: &str, out: &mut W) -> io::Result<()> {
    let x = x.saturating_add(SAMPLE).saturating_add(6);
    paint_text(alloc, x, y.saturating_add(3), "legend", text, out)
}

fn state(term: u64, role: Role, is_out: bool) -> State {
    State { term, role, is_out }
}

/// What the lines of the nodes mean, and the colours of the terms.
fn paint_nodes<W: Write>(alloc: Global, scene: &Scene, out: &mut W) -> io::Result<()> {
    let kinds = [
        ("primary", stroke_of(state(1, Role::Primary, false))),
        ("replica", stroke_of(state(1, Role::Replica, false))),
        ("empty copy", stroke_of(state(0, Role::Empty, false))),
        ("taken out", stroke_of(state(1, Role::Replica, true))),
    ];
    let mut x = LEFT;
    for (text, stroke) in kinds {
        paint_sample(x, NODES, stroke, out)?;
        paint_entry(alloc, x, NODES, text, out)?;
        x = after(x, text);
    }
    for term in 1..terms_of(scene).saturating_add(1) {
        let text = term_name(alloc, term)?;
        paint_sample(x, NODES, plain_stroke(colour_of(term), 7), out)?;
        paint_entry(alloc, x, NODES, text.as_str(), out)?;
        x = after(x, text.as_str());
    }
    Ok(())
}

fn term_name(alloc: Global, term: u64) -> Result<String, AllocError> {
    format!(in alloc; "term {term}")
}

/// The greatest term that a step is of.
fn terms_of(scene: &Scene) -> u64 {
    let mut greatest = 0;
    for step in &scene.steps {
        greatest = step.term.max(greatest);
    }
    greatest.min(MOST_TERMS)
}

fn paint_sample<W: Write>(x: u64, y: u64, stroke: Stroke, out: &mut W) -> io::Result<()> {
    let end = x.saturating_add(SAMPLE);
    let (colour, width) = (stroke.colour, stroke.width);
    let (dashes, opacity) = (stroke.dashes, stroke.opacity);
    writeln!(
        out,
        "<line x1=\"{x}\" y1=\"{y}\" x2=\"{end}\" y2=\"{y}\" stroke=\"{colour}\" stroke-width=\"{width}\" stroke-dasharray=\"{dashes}\" opacity=\"{opacity}\"/>"
    )
}

/// What the arrows mean.
fn paint_messages<W: Write>(alloc: Global, out: &mut W) -> io::Result<()> {
    let kinds = [
        ("message", "sent", colour_of(1)),
        ("later than one sent after it", "late", colour_of(1)),
        ("delivered again", "again", colour_of(1)),
        ("refused", "refused", RED),
        ("never delivered", "lost", GREY),
    ];
    let mut x = LEFT;
    for (text, class, colour) in kinds {
        let end = x.saturating_add(SAMPLE);
        writeln!(
            out,
            "<path class=\"{class}\" stroke=\"{colour}\" d=\"M{x} {MESSAGES} L{end} {MESSAGES}\"/>"
        )?;
        paint_entry(alloc, x, MESSAGES, text, out)?;
        x = after(x, text);
    }
    Ok(())
}

/// What the marks mean.
fn paint_marks<W: Write>(alloc: Global, out: &mut W) -> io::Result<()> {
    let kinds = [
        ("write", Mark::Write),
        ("read or refresh", Mark::Read),
        ("decision", Mark::Decision),
        ("restart", Mark::Restart),
        ("torn append", Mark::Torn),
        ("refused", Mark::Refused),
    ];
    let mut x = LEFT;
    for (text, mark) in kinds {
        paint_shape(mark, colour_of(1), x.saturating_add(SAMPLE / 2), MARKS, out)?;
        paint_entry(alloc, x, MARKS, text, out)?;
        x = after(x, text);
    }
    Ok(())
}
