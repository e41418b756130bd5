//! What the shapes and the colours of a picture mean.

use crate::timeline_svg::layout::{BASELINE, LINE, MARGIN};
use crate::timeline_svg::pen::{Pen, Place};

/// How wide an entry is, and how many columns its text has.
const ENTRY: u32 = 254;

const ENTRY_COLUMNS: usize = 30;

/// The least width of a picture, in which three entries stand side by side.
pub const LEAST_WIDTH: u32 = MARGIN + 3 * ENTRY + MARGIN;

/// The shapes, and what each of them means.
const ENTRIES: [(&str, &str); 13] = [
    ("ahead", "a write ahead of the scan"),
    ("behind", "a write behind the scan"),
    ("no-build", "a write while no build runs"),
    ("undo-ahead", "an undo ahead of the scan"),
    ("undo-behind", "an undo behind the scan"),
    ("undo-no-build", "an undo while no build runs"),
    ("pages", "pages copied | not yet"),
    ("insert", "side-file: puts a pair in"),
    ("delete", "side-file: takes a pair out"),
    ("feed", "entries fed into the ring"),
    ("apply", "entries applied to the index"),
    ("ready", "the index is ready"),
    ("refused", "refused"),
];

/// How many entries stand in a line of that width.
fn entries_in(width: u32) -> usize {
    (width.saturating_sub(2 * MARGIN) / ENTRY) as usize
}

/// How many lines the legend has in that width.
pub fn lines(width: u32) -> usize {
    ENTRIES.len().div_ceil(entries_in(width).max(1))
}

/// Draws the legend, whose first entry stands there, in a picture of that width.
pub fn draw(pen: &mut Pen, first: Place, width: u32) {
    let in_line = entries_in(width).max(1);
    for (number, (shape, meaning)) in ENTRIES.iter().enumerate() {
        let right = (number % in_line) as u32 * ENTRY;
        let down = (number / in_line) as u32 * LINE;
        let place = first.by(right, down);
        pen.stamp(shape, place);
        pen.label("t", place.by(22, BASELINE), meaning, ENTRY_COLUMNS);
    }
}
