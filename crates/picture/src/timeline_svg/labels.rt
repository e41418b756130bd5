//! How many lines and columns the texts of a picture take.

ghost use Rattle.std.specs.Prelude.{◌≡◌, ◌≤◌, vec_len, IfOk};

use crate::timeline_svg::fitting::columns_of;
use crate::timeline_svg::{Gain, Mark, PictureError, Row, Timeline};
use std::alloc::Global;

/// The most columns of a record, of a mark, and of what an index got.
const RECORD_COLUMNS: usize = 38;

const MARK_COLUMNS: usize = 26;

const GAIN_COLUMNS: usize = 36;

/// The columns that a mark's shape takes.
const SHAPE_COLUMNS: usize = 3;

/// The columns of the longest record.
pub fn record_columns(rows: &[Row]) -> usize
    ensures { result ≤ RECORD_COLUMNS }
{
    let mut most = 16;
    for row in rows {
        most = columns_of(row.text.as_str()).max(most);
        if let Some(refusal) = &row.refusal {
            most = columns_of(refusal.as_str()).max(most);
        }
    }
    most.min(RECORD_COLUMNS)
}

/// The columns of the longest line of what an index got; 0 where none got something.
pub fn gain_columns(gains: &[Gain]) -> usize
    ensures { result ≤ GAIN_COLUMNS }
{
    let mut most = 0;
    for gain in gains {
        most = columns_of(gain.title.as_str()).max(most);
        for line in &gain.lines {
            most = columns_of(line.as_str()).max(most);
        }
    }
    most.min(GAIN_COLUMNS)
}

/// The columns of each lane, those of the shapes of its marks among them.
pub fn lane_columns(alloc: Global, timeline: &Timeline) -> Result<Vec<usize>, PictureError>
    ensures { IfOk result (λ columns. vec_len columns ≡ vec_len timeline.now.lanes) }
{
    let mut columns = Vec::with_capacity(alloc, timeline.lanes.len())?;
    for lane in timeline.lanes.as_slice() {
        columns.push(columns_of(lane.name.as_str()).clamp(SHAPE_COLUMNS, MARK_COLUMNS))?;
    }
    for row in timeline.rows.as_slice() {
        widen(&mut columns, &row.marks)?;
    }
    Ok(columns)
}

/// Makes room for marks in their lanes.
fn widen(columns: &mut [usize], marks: &[Mark]) -> Result<(), PictureError> {
    for mark in marks {
        let own = columns.get_mut(mark.lane).ok_or(PictureError::NoPlace)?;
        *own = mark_columns(mark).max(*own);
    }
    Ok(())
}

/// The columns that a mark takes with its shape.
fn mark_columns(mark: &Mark) -> usize {
    columns_of(mark.text.as_str()).min(MARK_COLUMNS) + SHAPE_COLUMNS
}

/// How many lines a row takes.
pub fn lines_of(row: &Row) -> usize {
    let mut most = 1 + usize::from(row.refusal.is_some());
    for number in 0..row.marks.len() {
        most = most.max(line_of(&row.marks, number).saturating_add(1));
    }
    most.saturating_add(row.remarks.len())
}

/// Below how many other marks of its lane a mark of a row stands.
pub fn line_of(marks: &[Mark], number: usize) -> usize {
    match marks.get(number) {
        Some(mark) => marks
            .iter()
            .take(number)
            .filter(|other| other.lane == mark.lane)
            .count(),
        None => 0,
    }
}
