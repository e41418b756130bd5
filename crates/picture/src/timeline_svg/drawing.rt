ghost use Rattle.std.specs.Prelude.{◌≡◌, ◌≤◌, ◌<◌, vec_len, OnOk};

use crate::timeline_svg::labels::line_of;
use crate::timeline_svg::layout::{
    BASELINE, LINE, Layout, MARGIN, NAMES, NUMBER_COLUMNS, columns_in, gain_height, legend_place,
    title_place, width_of,
};
use crate::timeline_svg::pen::{Pen, Place, Size};
use crate::timeline_svg::style::{SHAPES, STYLE};
use crate::timeline_svg::{
    Gain, GainKind, Lane, LaneKind, Mark, MarkKind, PictureError, ROWS_MAX, Row, RowKind, Side,
    Span, SpanKind, Timeline, legend,
};
use std::alloc::Global;

/// Draws what happened, as a document of SVG.
pub fn svg(alloc: Global, timeline: &Timeline) -> Result<String, PictureError>
    ensures few { OnOk result (vec_len timeline.now.rows ≤ ROWS_MAX) }
    ensures many { ROWS_MAX < vec_len timeline.now.rows → result ≡ Err (PictureError.TooManyRows (vec_len timeline.now.rows)) }
{
    let rows = timeline.rows.len();
    if rows > ROWS_MAX {
        return Err(PictureError::TooManyRows(rows));
    }
    let layout = Layout::new(alloc, timeline)?;
    let mut pen = Pen::new(alloc);
    draw(&mut pen, timeline, &layout)?;
    pen.into_text()
}

fn draw(pen: &mut Pen, timeline: &Timeline, layout: &Layout) -> Result<(), PictureError> {
    pen.head(layout.size);
    pen.title(timeline.title.as_str());
    pen.raw(STYLE);
    pen.raw(SHAPES);
    pen.rect("paper", Place { x: 0, y: 0 }, layout.size);
    let columns = columns_in(layout.size.width) * 2 / 3;
    pen.label("h", title_place(), timeline.title.as_str(), columns);
    legend::draw(pen, legend_place(), layout.size.width);
    for span in &timeline.spans {
        draw_span(pen, layout, span)?;
    }
    draw_lanes(pen, timeline, layout)?;
    for (number, row) in timeline.rows.iter().enumerate() {
        draw_row(pen, timeline, layout, number, row)?;
    }
    draw_gains(pen, timeline, layout)?;
    pen.raw("</svg>\n");
    Ok(())
}

/// The names over the lanes, and the lines between these.
fn draw_lanes(pen: &mut Pen, timeline: &Timeline, layout: &Layout) -> Result<(), PictureError> {
    let record = Place {
        x: MARGIN,
        y: layout.names,
    };
    pen.label(
        "k",
        record.by(width_of(NUMBER_COLUMNS), BASELINE + 3),
        "record",
        layout.record_columns,
    );
    for (number, lane) in timeline.lanes.iter().enumerate() {
        let place = Place {
            x: layout.lanes.start(number)?,
            y: layout.names,
        };
        let width = layout.lanes.size(number)?;
        let size = Size {
            width,
            height: NAMES,
        };
        let bottom = Place {
            x: place.x,
            y: layout.rows.end(),
        };
        pen.line("lane", place, bottom);
        pen.rect("name", place, size);
        pen.label(
            "k",
            place.by(6, BASELINE + 3),
            lane.name.as_str(),
            columns_in(width.saturating_sub(8)),
        );
    }
    Ok(())
}

/// What lasts, from its first row to the bottom of its last one.
fn draw_span(pen: &mut Pen, layout: &Layout, span: &Span) -> Result<(), PictureError> {
    let from = Place {
        x: layout.lanes.start(span.lane)?,
        y: layout.rows.start(span.first)?,
    };
    let bottom = layout
        .rows
        .start(span.last)?
        .saturating_add(layout.rows.size(span.last)?);
    let size = Size {
        width: layout.lanes.size(span.lane)?,
        height: bottom.saturating_sub(from.y),
    };
    let begun = from.by(0, layout.rows.size(span.first)?.saturating_sub(LINE));
    match span.kind {
        SpanKind::Scan { copied, pages } => draw_scan(pen, from, size, copied, pages),
        SpanKind::Txn => draw_thread(pen, "txn", begun, bottom),
        SpanKind::Build => draw_thread(pen, "build", begun, bottom),
        SpanKind::Ready => draw_thread(pen, "done", begun, bottom),
    }
    Ok(())
}

/// A line down a lane, on which its marks stand.
fn draw_thread(pen: &mut Pen, class: &str, from: Place, bottom: u32) {
    let from = from.by(14, LINE / 2);
    let to = Place {
        x: from.x,
        y: bottom.saturating_sub(LINE / 2),
    };
    pen.line(class, from, to);
}

/// The pages of a range, from the left: those that are copied, and those that aren't yet.
fn draw_scan(pen: &mut Pen, from: Place, size: Size, copied: u32, pages: u32) {
    let done = part_of(size.width, copied, pages);
    let front = from.by(done, 0);
    let behind = Size {
        width: done,
        height: size.height,
    };
    let ahead = Size {
        width: size.width.saturating_sub(done),
        height: size.height,
    };
    pen.rect("copied", from, behind);
    pen.rect("ahead", front, ahead);
    pen.line("front", front, front.by(0, size.height));
}

/// The part of a width that so many of all pages take; the whole where there are none.
fn part_of(width: u32, copied: u32, pages: u32) -> u32 {
    if copied >= pages {
        return width;
    }
    (u64::from(width) * u64::from(copied) / u64::from(pages)) as u32
}

fn draw_row(
    pen: &mut Pen,
    timeline: &Timeline,
    layout: &Layout,
    number: usize,
    row: &Row,
) -> Result<(), PictureError> {
    let top = Place {
        x: MARGIN,
        y: layout.rows.start(number)?,
    };
    pen.begin_group("record", row.number);
    pen.title(row.text.as_str());
    draw_rule(pen, layout, row.kind, top);
    let mut place = top.by(0, 3);
    for remark in &row.remarks {
        let columns = columns_in(layout.lanes.end().saturating_sub(top.x));
        pen.label("r", place.by(0, BASELINE), remark.as_str(), columns);
        place = place.by(0, LINE);
    }
    draw_record(pen, layout, row, place);
    for (number, mark) in row.marks.iter().enumerate() {
        let down = line_of(&row.marks, number).min(10_000) as u32 * LINE;
        let indent = indent(&timeline.lanes, mark.lane);
        draw_mark(pen, layout, mark, place.by(0, down), indent)?;
    }
    pen.end_group();
    Ok(())
}

/// The line over a row.
fn draw_rule(pen: &mut Pen, layout: &Layout, kind: RowKind, top: Place) {
    let class = match kind {
        RowKind::Plain => "rule",
        RowKind::Start => "start",
        RowKind::Switch => "switch",
        RowKind::GivenUp => "gone",
    };
    let end = Place {
        x: layout.lanes.end(),
        y: top.y,
    };
    pen.line(class, top, end);
}

/// The record with its number, and below it why it was refused.
fn draw_record(pen: &mut Pen, layout: &Layout, row: &Row, place: Place) {
    let text = place.by(width_of(NUMBER_COLUMNS), BASELINE);
    let end = place.by(width_of(NUMBER_COLUMNS - 1), BASELINE);
    pen.numeral("n", end, row.number);
    pen.label("t", text, row.text.as_str(), layout.record_columns);
    if let Some(refusal) = &row.refusal {
        pen.stamp("refused", place.by(width_of(2), LINE));
        pen.label(
            "f",
            text.by(0, LINE),
            refusal.as_str(),
            layout.record_columns,
        );
    }
}

/// How far from the left of a lane its texts stand: behind the shapes, where the lane has some.
fn indent(lanes: &[Lane], lane: usize) -> u32 {
    match lanes.get(lane) {
        Some(
            Lane {
                kind: LaneKind::Range | LaneKind::Workers,
                ..
            },
        ) => 8,
        _ => 26,
    }
}

fn draw_mark(
    pen: &mut Pen,
    layout: &Layout,
    mark: &Mark,
    line: Place,
    indent: u32,
) -> Result<(), PictureError> {
    let place = Place {
        x: layout.lanes.start(mark.lane)?,
        y: line.y,
    };
    let columns = columns_in(layout.lanes.size(mark.lane)?.saturating_sub(28));
    if let Some(shape) = shape_of(mark.kind) {
        pen.stamp(shape, place.by(6, 0));
    }
    pen.label("t", place.by(indent, BASELINE), mark.text.as_str(), columns);
    Ok(())
}

/// The shape of a mark, if it has one.
fn shape_of(kind: MarkKind) -> Option<&'static str> {
    match kind {
        MarkKind::Write(Side::NoBuild) => Some("no-build"),
        MarkKind::Write(Side::Ahead) => Some("ahead"),
        MarkKind::Write(Side::Behind) => Some("behind"),
        MarkKind::Undo(Side::NoBuild) => Some("undo-no-build"),
        MarkKind::Undo(Side::Ahead) => Some("undo-ahead"),
        MarkKind::Undo(Side::Behind) => Some("undo-behind"),
        MarkKind::Delete => Some("delete"),
        MarkKind::Insert => Some("insert"),
        MarkKind::Feed => Some("feed"),
        MarkKind::Apply => Some("apply"),
        MarkKind::Ready => Some("ready"),
        MarkKind::Shared => Some("refused"),
        MarkKind::Note => None,
    }
}

/// What the indexes got, each at its row, or below the one before it.
fn draw_gains(pen: &mut Pen, timeline: &Timeline, layout: &Layout) -> Result<(), PictureError> {
    let mut bottom = 0;
    for gain in &timeline.gains {
        let place = Place {
            x: layout.gains,
            y: layout.rows.start(gain.row)?.max(bottom),
        };
        let height = gain_height(gain.lines.len());
        draw_gain(pen, layout, gain, place, height);
        bottom = place.y.saturating_add(height + 8);
    }
    Ok(())
}

fn draw_gain(pen: &mut Pen, layout: &Layout, gain: &Gain, place: Place, height: u32) {
    let class = match gain.kind {
        GainKind::Ready => "box",
        GainKind::Shared => "bad",
    };
    let width = width_of(layout.gain_columns) + MARGIN;
    pen.rect(class, place, Size { width, height });
    let mut text = place.by(8, BASELINE + 3);
    pen.label("k", text, gain.title.as_str(), layout.gain_columns);
    for line in &gain.lines {
        text = text.by(0, LINE);
        pen.label("t", text, line.as_str(), layout.gain_columns);
    }
}
