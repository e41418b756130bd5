//! What the picture knows of the build that runs.
ghost use Rattle.std.specs.Prelude.{◌≡◌, ◌≢◌, None, IfOk, MatchOption, length};
ghost use Rattle.scan_range.specs.Dealings.{dealing_refusal, dealt_ends};
ghost use Rattle.scan_range.specs.Ranges.{at_start};
ghost use Rattle.picture.specs.Sights.{after_copy, side_in};

use crate::failure::Failure;
use crate::timeline_svg::{Side, SpanKind};
use builder_core::Dealing;
use keybytes::Rid;
use scan_range::Ranges;
use std::alloc::Global;
use std::marker::Model;
use visibility::visible;

/// How far a running build is: its ranges, and how many entries wait in the ring of each of its indexes. Contracts see the ranges.
#[derive(Drop)]
pub struct Sight {
    ranges: Ranges,
    ends: Vec<u32>,
    in_rings: Vec<usize>,
}

impl Model for Sight {
    ghost use Rattle.scan_range.specs.Ranges.{RangesValue};

    ghost Value = { RangesValue };

    ghost view = { λ sight. sight.ranges };
}

impl Sight {
    /// A build of so many indexes that has just started on so many pages. None where the pages aren't dealt so.
    pub fn new(
        alloc: Global,
        dealing: &Dealing,
        pages: u32,
        indexes: usize,
    ) -> Result<Option<Sight>, Failure>
        ensures { IfOk result (λ found. MatchOption found (dealing_refusal pages dealing.now ≢ None)
            (λ sight. sight ≡ at_start (record { pages = pages; ends = dealt_ends pages dealing.now }))) }
    {
        if dealing.check(pages).is_err() {
            return Ok(None);
        }
        let cuts = dealing.cuts(alloc, pages)?;
        let ends = cuts.ends().to_vec(alloc)?;
        let ranges = Ranges::new(alloc, cuts)?;
        let mut in_rings = Vec::with_capacity(alloc, indexes)?;
        for _ in 0..indexes {
            in_rings.push(0)?;
        }
        Ok(Some(Sight {
            ranges,
            ends,
            in_rings,
        }))
    }

    /// How many ranges there are.
    pub fn len(&self) -> usize
        ensures { result ≡ length self.now.ends }
    {
        self.ranges.len()
    }

    /// The first page of a range, and the page behind its last one.
    pub fn pages(&self, range: usize) -> (u32, u32) {
        let first = match range.checked_sub(1) {
            Some(before) => self.end_of(before),
            None => 0,
        };
        (first, self.end_of(range))
    }

    /// The page behind a range; 0 where there is no such range.
    fn end_of(&self, range: usize) -> u32 {
        self.ends.get(range).copied().unwrap_or(0)
    }

    /// How many pages of a range are copied.
    pub fn progress(&self, range: usize) -> SpanKind {
        let (first, end) = self.pages(range);
        let next = if range < self.ranges.len() {
            self.ranges.cur(range)
        } else {
            first
        };
        SpanKind::Scan {
            copied: next.saturating_sub(first),
            pages: end.saturating_sub(first),
        }
    }

    /// The next page of a range was copied.
    pub fn copy(&mut self, range: usize)
        ensures { self.new ≡ after_copy self.old range }
    {
        if range < self.ranges.len() {
            let _done = self.ranges.advance(range);
        }
    }

    /// So many entries went into the ring of an index.
    pub fn feed(&mut self, index: usize, entries: usize)
        ensures { self.new ≡ self.old }
    {
        if let Some(waiting) = self.in_rings.get_mut(index) {
            *waiting = waiting.saturating_add(entries);
        }
    }

    /// So many entries were taken out of the ring of an index.
    pub fn apply(&mut self, index: usize, entries: usize)
        ensures { self.new ≡ self.old }
    {
        if let Some(waiting) = self.in_rings.get_mut(index) {
            *waiting = waiting.saturating_sub(entries);
        }
    }

    /// How many entries wait in the ring of an index.
    pub fn in_ring(&self, index: usize) -> usize {
        self.in_rings.get(index).copied().unwrap_or(0)
    }

    /// On which side of the scan a RID is.
    pub fn side(&self, rid: Rid) -> Side
        ensures { result ≡ side_in self.now rid }
    {
        if visible(&self.ranges, rid) {
            Side::Behind
        } else {
            Side::Ahead
        }
    }
}
