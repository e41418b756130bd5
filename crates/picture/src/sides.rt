//! The side-files of a build, as they are before a command and behind it.

ghost use Rattle.std.specs.List.{All};
ghost use Rattle.chunk_list.specs.Left.{queue_items_left};
ghost use Rattle.keybytes.specs.Keys.{IsKeyOf};

use crate::failure::Failure;
use crate::timeline_svg::{Mark, MarkKind};
use crate::words::key_at;
use builder_core::{Core, Entry, INDEXES_MAX, Op, TableRings};
use chunk_list::QueueItems;
use keybytes::KeySpec;
use prefix_spool::SpoolOfKind;
use std::alloc::Global;

/// How many entries the side-file of each index has that aren't fed yet; none where no build runs.
pub fn counts<T: TableRings>(
    alloc: Global,
    core: &Core<SpoolOfKind, T>,
) -> Result<Vec<usize>, Failure> {
    let mut counts = Vec::new(alloc);
    for index in 0..INDEXES_MAX {
        let Ok(entries) = core.live().side(index) else {
            break;
        };
        counts.push(entries.len())?;
    }
    Ok(counts)
}

/// Adds a mark in the lane for each entry of an index's side-file behind the first so many.
pub fn mark_added<T: TableRings>(
    alloc: Global,
    core: &Core<SpoolOfKind, T>,
    index: usize,
    before: usize,
    lane: usize,
    marks: &mut Vec<Mark>,
) -> Result<(), Failure> {
    let live = core.live();
    let spec = live.spec(index)?;
    let entries = live.side(index)?;
    mark_behind(alloc, spec, entries, before, lane, marks)
}

fn mark_behind(
    alloc: Global,
    spec: &KeySpec,
    entries: QueueItems<'_, Entry>,
    before: usize,
    lane: usize,
    marks: &mut Vec<Mark>,
) -> Result<(), Failure>
    requires { All (λ entry. IsKeyOf spec.now entry.key) (queue_items_left entries) }
{
    let mut place = 0usize;
    for entry in entries {
        if place >= before {
            marks.push(mark_of(alloc, spec, entry, lane)?)?;
        }
        place = place.saturating_add(1);
    }
    Ok(())
}

fn mark_of(alloc: Global, spec: &KeySpec, entry: &Entry, lane: usize) -> Result<Mark, Failure>
    requires { IsKeyOf spec.now entry.now.key }
{
    let cells = spec.cells(&entry.key)?;
    let kind = match entry.op {
        Op::Delete => MarkKind::Delete,
        Op::Insert => MarkKind::Insert,
    };
    Ok(Mark {
        lane,
        kind,
        text: key_at(alloc, cells.as_slice(), entry.rid)?,
    })
}
