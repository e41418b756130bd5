//! How a table and its build stand.
use crate::build_counts::BuildCounts;
use crate::build_line::BuildLine;
use crate::counts::Counts;
use crate::status_line::StatusLine;
use crate::wait::Wait;
use builder_core::{Core, TableRings};
use prefix_spool::SpoolOfKind;
use std::alloc::{AllocFailed, Global};

/// The most entries that a switch applies, over all indexes.
const SWITCH_MAX: u64 = 1_024;

/// What `status` tells before there is a table.
pub fn no_table<'a>(alloc: Global) -> Result<Vec<StatusLine<'a>>, AllocFailed<StatusLine<'a>>> {
    let mut lines = Vec::new(alloc);
    lines.push(StatusLine::NoTable)?;
    Ok(lines)
}

/// What `status` tells of a table: itself, its build with what is to be done before a switch decides, first things first, and the indexes that are
/// ready.
pub fn report<'a, T: TableRings>(
    alloc: Global,
    core: &'a Core<SpoolOfKind, T>,
    counts: &Counts,
) -> Result<Vec<StatusLine<'a>>, AllocFailed<StatusLine<'a>>> {
    let mut lines = Vec::new(alloc);
    let heap = core.live().heap();
    lines.push(StatusLine::Table {
        slot_limit: counts.slot_limit,
        pages: heap.pages(),
        records: heap.records(),
        open: counts.transactions,
        kinds: heap.schema().kinds(),
    })?;
    match &counts.build {
        Some(build) => add_build(&mut lines, core, build)?,
        None => lines.push(StatusLine::OfBuild(BuildLine::NoBuild))?,
    }
    add_ready(&mut lines, core)?;
    Ok(lines)
}

fn add_ready<'a, T: TableRings>(
    lines: &mut Vec<StatusLine<'a>>,
    core: &'a Core<SpoolOfKind, T>,
) -> Result<(), AllocFailed<StatusLine<'a>>> {
    for number in 0..core.live().ready().len() {
        if let Ok(index) = core.ready(number) {
            let pairs = index.tree().len();
            lines.push(StatusLine::Ready { number, pairs })?;
        }
    }
    Ok(())
}

fn add_build<'a, T: TableRings>(
    lines: &mut Vec<StatusLine<'a>>,
    core: &'a Core<SpoolOfKind, T>,
    build: &BuildCounts,
) -> Result<(), AllocFailed<StatusLine<'a>>> {
    lines.push(StatusLine::OfBuild(BuildLine::Build {
        phase: phase(build),
        scanned: build.scanned,
        pages: build.pages,
    }))?;
    for (worker, counts) in build.workers().iter().enumerate() {
        lines.push(StatusLine::OfBuild(BuildLine::Worker {
            worker,
            waiting: counts.waiting(),
            unsealed: counts.unsealed(),
        }))?;
    }
    for (index, counts) in build.indexes().iter().enumerate() {
        lines.push(StatusLine::OfBuild(BuildLine::Index {
            index,
            is_loaded: counts.is_loaded,
            unfed: unfed(core, index),
            in_ring: counts.in_ring(),
        }))?;
    }
    add_waits(lines, core, build)
}

/// What the build is at.
fn phase(build: &BuildCounts) -> &'static str {
    if build.spoiled.is_some() {
        "spoiled"
    } else if build.unscanned() > 0 {
        "scan"
    } else if build.indexes().iter().all(|counts| counts.is_loaded) {
        "catch-up"
    } else {
        "load"
    }
}

/// How many entries of an index's side-file aren't fed yet.
fn unfed<T: TableRings>(core: &Core<SpoolOfKind, T>, index: usize) -> u64 {
    match core.side(index) {
        Ok(entries) => entries.count() as u64,
        Err(_) => 0,
    }
}

/// Adds what a switch waits for: what is to be done before it decides, first things first.
fn add_waits<'a, T: TableRings>(
    lines: &mut Vec<StatusLine<'a>>,
    core: &'a Core<SpoolOfKind, T>,
    build: &BuildCounts,
) -> Result<(), AllocFailed<StatusLine<'a>>> {
    if let Some(fault) = build.spoiled {
        // Nothing else helps a spoiled build.
        return lines.push(StatusLine::Waits(Wait::Spoiled(fault)));
    }
    if build.unscanned() > 0 {
        lines.push(StatusLine::Waits(Wait::Pages(build.unscanned())))?;
    }
    for (worker, counts) in build.workers().iter().enumerate() {
        if counts.waiting() > 0 || counts.unsealed() > 0 {
            lines.push(StatusLine::Waits(Wait::Worker(worker)))?;
        }
    }
    for (index, counts) in build.indexes().iter().enumerate() {
        if !counts.is_loaded {
            lines.push(StatusLine::Waits(Wait::Index(index)))?;
        }
    }
    add_last_waits(lines, core, build)
}

/// Adds what a switch waits for once all is loaded: entries and transactions.
fn add_last_waits<'a, T: TableRings>(
    lines: &mut Vec<StatusLine<'a>>,
    core: &'a Core<SpoolOfKind, T>,
    build: &BuildCounts,
) -> Result<(), AllocFailed<StatusLine<'a>>> {
    let left = left(core, build);
    if left > SWITCH_MAX {
        lines.push(StatusLine::Waits(Wait::Entries(left)))?;
    }
    let busy = core.live().heap().busy();
    if busy > 0 && has_unique(core) {
        lines.push(StatusLine::Waits(Wait::Transactions(busy)))?;
    }
    Ok(())
}

/// How many entries aren't applied yet, fed or not.
fn left<T: TableRings>(core: &Core<SpoolOfKind, T>, build: &BuildCounts) -> u64 {
    let mut left: u64 = 0;
    for (index, counts) in build.indexes().iter().enumerate() {
        left = left
            .saturating_add(unfed(core, index))
            .saturating_add(counts.in_ring());
    }
    left
}

/// Whether the build has a unique index.
fn has_unique<T: TableRings>(core: &Core<SpoolOfKind, T>) -> bool {
    match core.live().specs() {
        Some(specs) => specs.iter().any(|spec| spec.unique()),
        None => false,
    }
}
