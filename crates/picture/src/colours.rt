//! Colours and strokes of a picture.

use crate::scene::{Role, State};

/// The colours of terms, in turn; people who can't tell red from green can tell them apart.
const COLOURS: [&str; 7] = [
    "#0072b2", "#d55e00", "#009e73", "#cc79a7", "#8a6d00", "#56b4e9", "#6a3d9a",
];

pub(crate) const GREY: &str = "#8c8c8c";

pub(crate) const RED: &str = "#c00000";

/// How a node's line is drawn.
#[derive(Clone, Copy)]
pub(crate) struct Stroke {
    pub colour: &'static str,
    pub width: u64,
    pub dashes: &'static str,
    pub opacity: &'static str,
}

/// The colour of a term; a copy without one is grey.
pub(crate) fn colour_of(term: u64) -> &'static str {
    match term.checked_sub(1) {
        Some(before) => COLOURS[(before % 7) as usize],
        None => GREY,
    }
}

pub(crate) fn plain_stroke(colour: &'static str, width: u64) -> Stroke {
    Stroke {
        colour,
        width,
        dashes: "none",
        opacity: "1",
    }
}

pub(crate) fn stroke_of(state: State) -> Stroke {
    let stroke = match state.role {
        Role::Empty => Stroke {
            dashes: "2 4",
            ..plain_stroke(GREY, 2)
        },
        Role::Replica => plain_stroke(colour_of(state.term), 2),
        Role::Primary => plain_stroke(colour_of(state.term), 7),
    };
    Stroke {
        opacity: if state.is_out { "0.35" } else { "1" },
        ..stroke
    }
}
