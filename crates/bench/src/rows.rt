use crate::options::Options;
use crate::values::Values;
use builder_core::Event;
use keybytes::{Cell, Fault, Rid, Row, Text};
use rand::distr::{Alphanumeric, SampleString};
use rand::rngs::SmallRng;
use rand::{RngExt, SeedableRng};
use std::alloc::{AllocError, Global};

/// Random rows of the table's columns, and where its rows stand. All rows take the same room, so each page but the last has as many as the first.
pub struct Rows<'a> {
    alloc: Global,
    pub options: &'a Options,
    pub rng: SmallRng,
    /// What the next transaction writes, the last one first.
    drawn: Vec<Row>,
    /// How many of those with which the table was filled stand on the first page.
    pub on_page: u16,
}

impl Drop for Rows<'_> {
    fn drop(self) {
        let Rows {
            alloc: _,
            options: _,
            rng: _,
            drawn: _,
            on_page: _,
        } = self;
    }
}

impl<'a> Rows<'a> {
    pub fn new(alloc: Global, options: &'a Options, seed: u64, on_page: u16) -> Rows<'a> {
        Rows {
            alloc,
            options,
            rng: SmallRng::seed_from_u64(seed),
            drawn: Vec::new(alloc),
            on_page,
        }
    }

    /// Draws so many rows.
    pub fn draw(&mut self, count: u32) -> Result<(), Fault> {
        for _ in 0..count {
            let row = self.row()?;
            self.drawn.push(row)?;
        }
        Ok(())
    }

    /// The transaction puts the next of the rows that were drawn in, or has it replace one with which the table was filled.
    pub fn next_write(&mut self, txn: u64, is_new: bool) -> Option<Event> {
        let row = self.drawn.pop()?;
        if is_new {
            return Some(Event::Insert { txn, row });
        }
        let rid = self.pick();
        Some(Event::Update { txn, rid, row })
    }

    /// Where one of the rows stands with which the table was filled.
    pub fn pick(&mut self) -> Rid {
        let place = self.rng.random_range(0..self.options.rows.max(1));
        let on_page = u32::from(self.on_page.max(1));
        Rid {
            page: place / on_page,
            slot: (place % on_page) as u16,
        }
    }

    /// A random row.
    fn row(&mut self) -> Result<Row, Fault> {
        let options = self.options;
        let mut cells = Vec::with_capacity(self.alloc, options.columns.len())?;
        for column in &options.columns {
            let cell = match &column.values {
                Values::Int => Cell::Int(self.rng.random()),
                Values::IntBelow(limit) => {
                    Cell::Int(i64::from(self.rng.random_range(0..(*limit).max(1))))
                }
                Values::Text { length, front } => {
                    Cell::Text(Text::new(self.text(*length, *front)?))
                }
            };
            cells.push(cell)?;
        }
        Row::new(cells)
    }

    /// So many letters and digits, of which so many at the front are always the same.
    fn text(&mut self, length: u8, front: u8) -> Result<String, AllocError> {
        let mut text = String::new(self.alloc);
        for _ in 0..front {
            text.push('a')?;
        }
        let more = usize::from(length.saturating_sub(front));
        Alphanumeric.append_string(&mut self.rng, &mut text, more)?;
        Ok(text)
    }
}
