//! Where things stand in a picture.

use crate::scene::{Mark, Scene, Step};
use crate::text::wrapped;
use std::alloc::{AllocError, Global};

/// How wide a character is drawn.
pub(crate) const CHARACTER: u64 = 6;

/// How many characters a line of the left and of the right column has.
const SAID: usize = 48;

const ANSWERED: usize = 46;

/// How many lines a row has at most.
const MOST_LINES: usize = 5;

pub(crate) const LINE: u64 = 14;

const LEAST_ROW: u64 = 30;

/// Where the left column begins, how far the master's line is from its end, and how far the lines are from one another.
pub(crate) const LEFT: u64 = 16;

const PLACE: u64 = 42;

const MARGIN: u64 = 130;

const LANE: u64 = 140;

/// How high the legend and the names of the nodes are.
pub(crate) const HEAD: u64 = 118;

/// A row of the picture: the texts of a step, and where its middle is.
#[derive(Drop)]
pub(crate) struct Row {
    pub middle: u64,
    pub said: Vec<String>,
    pub answered: Vec<String>,
}

/// Where the rows and the lines of the nodes are.
#[derive(Drop)]
pub(crate) struct Layout {
    pub rows: Vec<Row>,
    pub nodes: u64,
    pub height: u64,
}

pub(crate) fn layout_of(alloc: Global, scene: &Scene) -> Result<Layout, AllocError> {
    let mut rows = Vec::new(alloc);
    let mut top = HEAD;
    for step in &scene.steps {
        let (said, answered) = texts_of(alloc, step)?;
        let lines = said.len().max(answered.len()) as u64;
        let height = lines
            .saturating_mul(LINE)
            .saturating_add(LINE)
            .max(LEAST_ROW);
        rows.push(Row {
            middle: top.saturating_add(height / 2),
            said,
            answered,
        })?;
        top = top.saturating_add(height);
    }
    Ok(Layout {
        rows,
        nodes: scene.nodes,
        height: top.saturating_add(LINE),
    })
}

/// The lines of both columns.
fn texts_of(alloc: Global, step: &Step) -> Result<(Vec<String>, Vec<String>), AllocError> {
    let said = step.said.as_str();
    let shown = match said.strip_prefix("# ") {
        Some(note) if step.mark == Mark::Note => note,
        _ => said,
    };
    Ok((
        wrapped(alloc, shown, SAID, MOST_LINES)?,
        wrapped(alloc, step.answer.as_str(), ANSWERED, MOST_LINES)?,
    ))
}

impl Layout {
    /// Where a step's row has its middle; after the last one the end of the picture.
    pub(crate) fn y(&self, step: usize) -> u64 {
        match self.rows.get(step) {
            Some(row) => row.middle,
            None => self.height.saturating_sub(LINE),
        }
    }

    /// Where a node's line is.
    pub(crate) fn x(&self, node: u64) -> u64 {
        left_end()
            .saturating_add(MARGIN)
            .saturating_add(node.saturating_mul(LANE))
    }

    /// Where the right column begins.
    pub(crate) fn right(&self) -> u64 {
        self.x(self.nodes.saturating_sub(1)).saturating_add(MARGIN)
    }

    pub(crate) fn width(&self) -> u64 {
        self.right()
            .saturating_add((ANSWERED as u64).saturating_mul(CHARACTER))
            .saturating_add(LEFT)
    }
}

/// Where the lines of the left column begin.
pub(crate) fn said_begin() -> u64 {
    LEFT.saturating_add(PLACE)
}

fn left_end() -> u64 {
    said_begin().saturating_add((SAID as u64).saturating_mul(CHARACTER))
}
