ghost use Rattle.std.specs.Prelude.{◌≡◌, ◌≤◌, length, vec_len, IfOk};

use crate::timeline_svg::labels::{gain_columns, lane_columns, lines_of, record_columns};
use crate::timeline_svg::pen::{Place, Size};
use crate::timeline_svg::{PictureError, Stack, Timeline, legend};
use std::alloc::Global;

/// What is left free round the picture, and between its parts.
pub const MARGIN: u32 = 16;

/// The height of a line of text, and from its top to where its letters stand.
pub const LINE: u32 = 17;

pub const BASELINE: u32 = 13;

/// The columns in front of a record that its number takes.
pub const NUMBER_COLUMNS: usize = 5;

/// Where the title stands, and the legend begins.
const TITLE: u32 = 32;

const LEGEND: u32 = 46;

/// How high the names over the lanes are, and what is free below them.
pub const NAMES: u32 = 22;

/// Where everything stands.
#[derive(Drop)]
pub struct Layout {
    /// From the left: the lanes.
    pub lanes: Stack,
    /// From the top: the rows.
    pub rows: Stack,
    pub record_columns: usize,
    /// Where the names of the lanes begin.
    pub names: u32,
    /// What the indexes got.
    pub gains: u32,
    pub gain_columns: usize,
    pub size: Size,
}

/// The width of so many columns.
pub fn width_of(columns: usize) -> u32
    ensures { result ≤ 80000 }
{
    columns.min(10_000) as u32 * 29 / 4 + 1
}

/// How many columns have room in so much width.
pub fn columns_in(width: u32) -> usize
    ensures { result ≤ width }
{
    width as usize * 4 / 29
}

/// The height of so many lines.
fn height_of(lines: usize) -> u32
    ensures { result ≤ 200000 }
{
    lines.min(10_000) as u32 * LINE
}

/// Where the title stands.
pub fn title_place() -> Place {
    Place {
        x: MARGIN,
        y: TITLE,
    }
}

/// Where the legend begins.
pub fn legend_place() -> Place {
    Place {
        x: MARGIN,
        y: LEGEND,
    }
}

impl Layout {
    pub fn new(alloc: Global, timeline: &Timeline) -> Result<Layout, PictureError>
        ensures rows { IfOk result (λ layout. length layout.rows.sizes ≡ vec_len timeline.now.rows) }
        ensures lanes { IfOk result (λ layout. length layout.lanes.sizes ≡ vec_len timeline.now.lanes) }
    {
        let record_columns = record_columns(&timeline.rows);
        let gain_columns = gain_columns(&timeline.gains);
        let left = MARGIN + width_of(NUMBER_COLUMNS + record_columns) + MARGIN;
        let lanes = lane_places(alloc, left, timeline)?;
        let gains = lanes.end().saturating_add(MARGIN);
        let width = gains
            .saturating_add(gains_width(gain_columns))
            .max(legend::LEAST_WIDTH);
        let names = LEGEND + height_of(legend::lines(width)) + MARGIN;
        let top = names + NAMES + 6;
        let rows = row_places(alloc, top, timeline)?;
        let bottom = gains_bottom(timeline, &rows)?.max(rows.end());
        let height = bottom.saturating_add(MARGIN);
        Ok(Layout {
            lanes,
            rows,
            record_columns,
            names,
            gains,
            gain_columns,
            size: Size { width, height },
        })
    }
}

/// The width of what the indexes got, with a margin behind it.
fn gains_width(columns: usize) -> u32
    ensures { result ≤ 100000 }
{
    if columns == 0 {
        return 0;
    }
    width_of(columns) + MARGIN + MARGIN
}

/// Where the lanes stand, from the left.
fn lane_places(alloc: Global, left: u32, timeline: &Timeline) -> Result<Stack, PictureError>
    ensures { IfOk result (λ lanes. length lanes.sizes ≡ vec_len timeline.now.lanes) }
{
    let columns = lane_columns(alloc, timeline)?;
    let widths = lane_widths(alloc, &columns)?;
    Stack::new(alloc, left, widths)
}

/// Where the rows stand, from the top.
fn row_places(alloc: Global, top: u32, timeline: &Timeline) -> Result<Stack, PictureError>
    ensures { IfOk result (λ rows. length rows.sizes ≡ vec_len timeline.now.rows) }
{
    let heights = row_heights(alloc, timeline)?;
    Stack::new(alloc, top, heights)
}

fn lane_widths(alloc: Global, columns: &[usize]) -> Result<Vec<u32>, PictureError>
    ensures { IfOk result (λ widths. vec_len widths ≡ length columns.now) }
{
    let mut widths = Vec::with_capacity(alloc, columns.len())?;
    for &columns in columns {
        widths.push(width_of(columns) + MARGIN)?;
    }
    Ok(widths)
}

fn row_heights(alloc: Global, timeline: &Timeline) -> Result<Vec<u32>, PictureError>
    ensures { IfOk result (λ heights. vec_len heights ≡ vec_len timeline.now.rows) }
{
    let mut heights = Vec::with_capacity(alloc, timeline.rows.len())?;
    for row in timeline.rows.as_slice() {
        heights.push(height_of(lines_of(row)) + 6)?;
    }
    Ok(heights)
}

/// The height of what an index got.
pub fn gain_height(lines: usize) -> u32
    ensures { result ≤ 300000 }
{
    height_of(lines.saturating_add(1)) + 8
}

/// Where the last of what the indexes got ends: each begins at its row, or below the one before it.
fn gains_bottom(timeline: &Timeline, rows: &Stack) -> Result<u32, PictureError> {
    let mut bottom = 0u32;
    for gain in &timeline.gains {
        bottom = rows.start(gain.row)?.max(bottom);
        bottom = bottom.saturating_add(gain_height(gain.lines.len()) + 8);
    }
    Ok(bottom)
}
