use crate::failure::Failure;
use crate::timeline_svg::{Span, SpanKind};
use std::alloc::Global;

/// What lasts in the lanes: of each lane one span at most grows from row to row.
#[derive(Drop)]
pub struct Lasting {
    spans: Vec<Span>,
    growing: Vec<Option<usize>>,
}

impl Lasting {
    /// So many lanes, in which nothing lasts yet.
    pub fn new(alloc: Global, lanes: usize) -> Result<Lasting, Failure> {
        let mut growing = Vec::with_capacity(alloc, lanes)?;
        for _ in 0..lanes {
            growing.push(None)?;
        }
        Ok(Lasting {
            spans: Vec::new(alloc),
            growing,
        })
    }

    /// Something begins in a lane at that row. What has lasted there ends with the row above.
    pub fn begin(&mut self, lane: usize, row: usize, kind: SpanKind) -> Result<(), Failure> {
        let place = self.spans.len();
        self.spans.push(Span {
            lane,
            first: row,
            last: row,
            kind,
        })?;
        if let Some(growing) = self.growing.get_mut(lane) {
            *growing = Some(place);
        }
        Ok(())
    }

    /// What lasts in a lane ends with the row above.
    pub fn stop(&mut self, lane: usize) {
        if let Some(growing) = self.growing.get_mut(lane) {
            *growing = None;
        }
    }

    /// What lasts in a lane ends with that row.
    pub fn end(&mut self, lane: usize, row: usize) {
        self.grow_one(lane, row);
        self.stop(lane);
    }

    /// What lasts in the lanes lasts for that row, too.
    pub fn grow(&mut self, row: usize) {
        for lane in 0..self.growing.len() {
            self.grow_one(lane, row);
        }
    }

    fn grow_one(&mut self, lane: usize, row: usize) {
        let Some(Some(place)) = self.growing.get(lane) else {
            return;
        };
        if let Some(span) = self.spans.get_mut(*place) {
            span.last = row;
        }
    }

    /// All that has lasted.
    pub fn into_spans(self) -> Vec<Span> {
        let Lasting { spans, growing: _ } = self;
        spans
    }
}
