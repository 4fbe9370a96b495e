//! Writing a picture as SVG.

use crate::arrows::paint_message;
use crate::cast::scene_of;
use crate::layout::{CHARACTER, HEAD, LEFT, LINE, Layout, Row, layout_of, said_begin};
use crate::legend::paint_legend;
use crate::marks::{paint_mark, paint_stretch};
use crate::run::Line;
use crate::scene::{Mark, Scene, Step};
use crate::text::as_xml;
use std::alloc::Global;
use std::io;
use std::io::Write;

const STYLE: &str =
    "text{font:10px monospace;fill:#222}.note{font-style:italic;fill:#666}.bad{fill:#c00000}.ack{font-weight:bold}.place{fill:#8c8c8c}.name{font-weight:bold}.title{font-size:13px;font-weight:bold}path,polyline{fill:none;stroke-width:1.3}.cross{stroke:#c00000;stroke-width:2}.late{stroke-dasharray:9 4}.again{stroke-dasharray:2 3}.lost{stroke-dasharray:4 4;stroke:#8c8c8c}";

/// Draws the lines of a run.
pub fn draw<W: Write>(alloc: Global, title: &str, lines: &[Line], out: &mut W) -> io::Result<()> {
    let scene = scene_of(alloc, lines)?;
    let layout = layout_of(alloc, &scene)?;
    paint_head(alloc, title, &layout, out)?;
    paint_legend(alloc, &scene, out)?;
    paint_nodes(alloc, &scene, &layout, out)?;
    for message in &scene.messages {
        paint_message(alloc, message, &layout, out)?;
    }
    for (step, row) in scene.steps.iter().zip(&layout.rows) {
        paint_mark(step, layout.x(step.node), row.middle, out)?;
        paint_row(alloc, step, row, &layout, out)?;
    }
    writeln!(out, "</svg>")
}

/// Draws the line of each node, and its name above.
fn paint_nodes<W: Write>(
    alloc: Global,
    scene: &Scene,
    layout: &Layout,
    out: &mut W,
) -> io::Result<()> {
    for node in 0..layout.nodes {
        let name = if node == 0 {
            String::from_str(alloc, "master")?
        } else {
            format!(in alloc; "copy {node}")?
        };
        let half = (name.len() as u64).saturating_mul(CHARACTER) / 2;
        let x = layout.x(node).saturating_sub(half);
        paint_text(alloc, x, HEAD.saturating_sub(8), "name", name.as_str(), out)?;
    }
    for stretch in &scene.stretches {
        paint_stretch(stretch, layout, out)?;
    }
    Ok(())
}

fn paint_head<W: Write>(
    alloc: Global,
    title: &str,
    layout: &Layout,
    out: &mut W,
) -> io::Result<()> {
    let (width, height) = (layout.width(), layout.height);
    let title = as_xml(alloc, title)?;
    writeln!(
        out,
        "<svg xmlns=\"http://www.w3.org/2000/svg\" width=\"{width}\" height=\"{height}\" viewBox=\"0 0 {width} {height}\">"
    )?;
    writeln!(out, "<title>{title}</title>")?;
    writeln!(
        out,
        "<desc>Time goes down. Each node has a line, each step a row, each message an arrow.</desc>"
    )?;
    writeln!(out, "<style>{STYLE}</style>")?;
    writeln!(
        out,
        "<rect width=\"{width}\" height=\"{height}\" fill=\"#fff\"/>"
    )?;
    writeln!(
        out,
        "<text x=\"{LEFT}\" y=\"20\" class=\"title\">{title}</text>"
    )
}

/// Writes a text. Its width is set, so it fits whichever font there is.
pub(crate) fn paint_text<W: Write>(
    alloc: Global,
    x: u64,
    y: u64,
    class: &str,
    text: &str,
    out: &mut W,
) -> io::Result<()> {
    if text.is_empty() {
        return Ok(());
    }
    let length = (text.chars().count() as u64).saturating_mul(CHARACTER);
    let xml = as_xml(alloc, text)?;
    writeln!(
        out,
        "<text x=\"{x}\" y=\"{y}\" class=\"{class}\" textLength=\"{length}\" xml:space=\"preserve\">{xml}</text>"
    )
}

/// Writes both columns of a row.
fn paint_row<W: Write>(
    alloc: Global,
    step: &Step,
    row: &Row,
    layout: &Layout,
    out: &mut W,
) -> io::Result<()> {
    let (left, right) = classes_of(step);
    let first = first_line(row.middle, row.said.len());
    paint_text(alloc, LEFT, first, "place", step.place.as_str(), out)?;
    paint_lines(alloc, said_begin(), row.middle, left, &row.said, out)?;
    paint_lines(alloc, layout.right(), row.middle, right, &row.answered, out)
}

/// The classes of what was said and of what was answered.
fn classes_of(step: &Step) -> (&'static str, &'static str) {
    if step.mark == Mark::Note {
        return ("note", "note");
    }
    if step.is_wrong || step.mark == Mark::Refused {
        return ("said", "bad");
    }
    if step.is_acknowledged {
        return ("said", "ack");
    }
    ("said", "answer")
}

/// Where the first of some lines stands that have their middle here.
fn first_line(middle: u64, lines: usize) -> u64 {
    let above = (lines as u64).saturating_sub(1).saturating_mul(LINE) / 2;
    middle.saturating_add(3).saturating_sub(above)
}

fn paint_lines<W: Write>(
    alloc: Global,
    x: u64,
    middle: u64,
    class: &str,
    lines: &[String],
    out: &mut W,
) -> io::Result<()> {
    let mut y = first_line(middle, lines.len());
    for line in lines {
        paint_text(alloc, x, y, class, line.as_str(), out)?;
        y = y.saturating_add(LINE);
    }
    Ok(())
}
