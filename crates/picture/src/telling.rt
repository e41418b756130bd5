//! What the rows of a picture tell of each kind of record.

use crate::deed::Deed;
use crate::failure::Failure;
use crate::gains;
use crate::sight::Sight;
use crate::teller::Teller;
use crate::timeline_svg::{MarkKind, Row, RowKind, SpanKind};
use crate::words::refusal;
use builder_core::{Core, Dealing, TableRings};
use heap_log::Outcome;
use keybytes::Rid;
use prefix_spool::SpoolOfKind;
use replay::{Answer, SharedLine};
use std::fmt::Write;

impl Teller {
    /// Tells a command that was answered so.
    pub(crate) fn tell<T: TableRings>(
        &mut self,
        core: &Core<SpoolOfKind, T>,
        deed: &Deed,
        answer: &Answer,
        row: &mut Row,
    ) -> Result<(), Failure> {
        match answer {
            Answer::Refused { fault } => {
                row.refusal = Some(refusal(self.alloc, *fault)?);
                Ok(())
            }
            Answer::Row { rid } => self.tell_write(self.lanes.table(), *rid, 1, row),
            Answer::Written { rid, .. } => self.tell_written(deed, *rid, row),
            Answer::Undone { number, left } => self.tell_undo(deed, *number > 0, *left, row),
            Answer::Number { number } => self.tell_number(deed, *number, row),
            Answer::Switched { verdicts, .. } => {
                self.tell_switch(core, verdicts.as_slice(), &[], row)
            }
            Answer::SomeRefused {
                verdicts,
                shared,
                ..
            } => { self.tell_switch(core, verdicts.as_slice(), shared.as_slice(), row) }
            Answer::Abandoned { .. } => self.tell_end(row),
            Answer::Pairs { lines } => count(row, lines.len(), "pairs"),
            Answer::Entries { lines } => count(row, lines.len(), "entries"),
            Answer::Done | Answer::Cells { .. } => Ok(()),
        }
    }

    fn tell_written(&mut self, deed: &Deed, rid: Rid, row: &mut Row) -> Result<(), Failure> {
        let Deed::Write { txn, cells } = deed else {
            return Ok(());
        };
        self.tell_write(self.lanes.of_txn(*txn), rid, *cells, row)?;
        if let Some(lane) = self.lanes.txns.get_mut(*txn) {
            lane.writes.push(rid)?;
        }
        Ok(())
    }

    /// Marks a write at a RID, whose cells begin with that field.
    fn tell_write(
        &self,
        lane: usize,
        rid: Rid,
        cells: usize,
        row: &mut Row,
    ) -> Result<(), Failure> {
        let cells = self.fields_from(cells)?;
        let text = if cells.is_empty() {
            format!(in self.alloc; "{rid} gone")?
        } else {
            format!(in self.alloc; "{rid} = {cells}")?
        };
        self.mark(row, lane, MarkKind::Write(self.side(rid)), text)
    }

    /// Marks an undo. With its last write undone a transaction ends.
    fn tell_undo(
        &mut self,
        deed: &Deed,
        has_undone: bool,
        left: usize,
        row: &mut Row,
    ) -> Result<(), Failure> {
        let Deed::Undo { txn } = deed else {
            return Ok(());
        };
        let lane = self.lanes.of_txn(*txn);
        if has_undone && let Some(rid) = self.take_write(*txn) {
            let text = format!(in self.alloc; "{rid} undone")?;
            self.mark(row, lane, MarkKind::Undo(self.side(rid)), text)?;
        }
        if left == 0 {
            self.lasting.end(lane, self.row);
            let text = String::from_str(self.alloc, "ends")?;
            self.mark(row, lane, MarkKind::Note, text)?;
        }
        Ok(())
    }

    /// Where the newest write stands that the transaction hasn't undone, which it undoes now.
    fn take_write(&mut self, txn: usize) -> Option<Rid> {
        self.lanes.txns.get_mut(txn)?.writes.pop()
    }

    fn tell_number(&mut self, deed: &Deed, number: u64, row: &mut Row) -> Result<(), Failure> {
        let alloc = self.alloc;
        match deed {
            Deed::Begin { txn } => self.tell_begin(*txn, number, row),
            Deed::Commit { txn } => {
                let lane = self.lanes.of_txn(*txn);
                self.lasting.end(lane, self.row);
                self.mark(
                    row,
                    lane,
                    MarkKind::Note,
                    String::from_str(alloc, "commits")?,
                )
            }
            Deed::Start { dealing, indexes } => self.tell_start(dealing, *indexes, number, row),
            Deed::Scan { range } => self.tell_scan(*range, number, row),
            Deed::Digest { worker } => {
                let text = format!(in alloc; "worker {worker} digests {number}")?;
                self.mark(row, self.lanes.workers(), MarkKind::Note, text)
            }
            Deed::Seal { worker } => {
                let text = format!(in alloc; "worker {worker} seals {number}")?;
                self.mark(row, self.lanes.workers(), MarkKind::Note, text)
            }
            _ => self.tell_index(deed, number, row),
        }
    }

    /// Marks what was done with one index of the build.
    fn tell_index(&mut self, deed: &Deed, number: u64, row: &mut Row) -> Result<(), Failure> {
        let alloc = self.alloc;
        let (index, kind, text) = match deed {
            Deed::Load { index } => (
                *index,
                MarkKind::Note,
                format!(in alloc; "loads, pairs: {number}")?,
            ),
            Deed::Feed { index } => (*index, MarkKind::Feed, format!(in alloc; "feeds {number}")?),
            Deed::Apply { index } => (
                *index,
                MarkKind::Apply,
                format!(in alloc; "applies {number}")?,
            ),
            _ => return Ok(()),
        };
        if let Some(sight) = &mut self.sight {
            match kind {
                MarkKind::Feed => sight.feed(index, number as usize),
                MarkKind::Apply => sight.apply(index, number as usize),
                _ => (),
            }
        }
        self.mark(row, self.lanes.of_index(index), kind, text)
    }

    fn tell_begin(&mut self, txn: usize, number: u64, row: &mut Row) -> Result<(), Failure> {
        let lane = self.lanes.of_txn(txn);
        self.lasting.begin(lane, self.row, SpanKind::Txn)?;
        if let Some(txn) = self.lanes.txns.get_mut(txn) {
            txn.writes.clear();
        }
        let text = format!(in self.alloc; "begins, number {number}")?;
        self.mark(row, lane, MarkKind::Note, text)
    }

    /// A build starts: its ranges and its indexes last from here on.
    fn tell_start(
        &mut self,
        dealing: &Dealing,
        indexes: usize,
        pages: u64,
        row: &mut Row,
    ) -> Result<(), Failure> {
        row.kind = RowKind::Start;
        self.sight = Sight::new(
            self.alloc,
            dealing,
            pages.min(u64::from(u32::MAX)) as u32,
            indexes,
        )?;
        for range in 0..self.ranges() {
            self.tell_front(range, row)?;
        }
        for index in 0..indexes {
            let lane = self.lanes.of_index(index);
            self.lasting.begin(lane, self.row, SpanKind::Build)?;
            let text = self.field(index.saturating_add(4))?;
            self.mark(row, lane, MarkKind::Note, text)?;
        }
        Ok(())
    }

    /// How many ranges the build has that runs.
    fn ranges(&self) -> usize {
        match &self.sight {
            Some(sight) => sight.len(),
            None => 0,
        }
    }

    /// Marks which pages a range has.
    fn tell_front(&mut self, range: usize, row: &mut Row) -> Result<(), Failure> {
        let Some(sight) = &self.sight else {
            return Ok(());
        };
        let (first, end) = sight.pages(range);
        let text = if first >= end {
            String::from_str(self.alloc, "no page")?
        } else if end - first == 1 {
            format!(in self.alloc; "page {first}")?
        } else {
            let last = end - 1;
            format!(in self.alloc; "pages {first}-{last}")?
        };
        self.lasting.begin(range, self.row, sight.progress(range))?;
        self.mark(row, range, MarkKind::Note, text)
    }

    /// A page was copied.
    fn tell_scan(&mut self, range: usize, page: u64, row: &mut Row) -> Result<(), Failure> {
        let Some(sight) = &mut self.sight else {
            return Ok(());
        };
        sight.copy(range);
        let progress = sight.progress(range);
        self.lasting.begin(range, self.row, progress)?;
        let text = format!(in self.alloc; "page {page} copied")?;
        self.mark(row, range, MarkKind::Note, text)
    }

    /// A switch has decided.
    fn tell_switch<T: TableRings>(
        &mut self,
        core: &Core<SpoolOfKind, T>,
        verdicts: &[Outcome],
        shared: &[SharedLine],
        row: &mut Row,
    ) -> Result<(), Failure> {
        row.kind = RowKind::Switch;
        for (index, verdict) in verdicts.iter().enumerate() {
            self.tell_rest(index, row)?;
            self.tell_verdict(core, index, verdict, shared, row)?;
        }
        self.stop_ranges();
        self.sight = None;
        Ok(())
    }

    /// Marks how many entries the switch applied itself.
    fn tell_rest(&self, index: usize, row: &mut Row) -> Result<(), Failure> {
        let in_ring = match &self.sight {
            Some(sight) => sight.in_ring(index),
            None => 0,
        };
        let left = self.sides.get(index).copied().unwrap_or(0);
        let entries = left.saturating_add(in_ring);
        if entries == 0 {
            return Ok(());
        }
        let text = format!(in self.alloc; "applies {entries}")?;
        self.mark(row, self.lanes.of_index(index), MarkKind::Apply, text)
    }

    fn tell_verdict<T: TableRings>(
        &mut self,
        core: &Core<SpoolOfKind, T>,
        index: usize,
        verdict: &Outcome,
        shared: &[SharedLine],
        row: &mut Row,
    ) -> Result<(), Failure> {
        let lane = self.lanes.of_index(index);
        match verdict {
            Outcome::Ready(number) => {
                let text = format!(in self.alloc; "ready {number}")?;
                self.mark(row, lane, MarkKind::Ready, text)?;
                let gain = gains::ready(self.alloc, core, self.row, index, *number)?;
                self.gains.push(gain)?;
                self.lasting.begin(lane, self.row, SpanKind::Ready)
            }
            Outcome::Shared { .. } => {
                let text = String::from_str(self.alloc, "two rows share a key")?;
                self.mark(row, lane, MarkKind::Shared, text)?;
                let gain = gains::shared(self.alloc, self.row, index, shared)?;
                self.gains.push(gain)?;
                self.lasting.stop(lane);
                Ok(())
            }
        }
    }

    /// The build was given up.
    fn tell_end(&mut self, row: &mut Row) -> Result<(), Failure> {
        row.kind = RowKind::GivenUp;
        self.stop_ranges();
        for index in 0..self.sides.len() {
            let lane = self.lanes.of_index(index);
            self.lasting.stop(lane);
            let text = String::from_str(self.alloc, "given up")?;
            self.mark(row, lane, MarkKind::Note, text)?;
        }
        self.sight = None;
        Ok(())
    }

    fn stop_ranges(&mut self) {
        for range in 0..self.lanes.ranges {
            self.lasting.stop(range);
        }
    }
}

/// Adds to a record how many there are of what it asked for.
fn count(row: &mut Row, number: usize, what: &str) -> Result<(), Failure> {
    write!(row.text, " \u{2192} {what}: {number}")?;
    Ok(())
}
