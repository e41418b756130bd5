//! A table that is full, and the reads of a table that count as visits. What its other calls answer is told by scripts.
ghost use Rattle.std.specs.Prelude.{◌<◌};
ghost use Rattle.heap_table.specs.Pages.{pages_written};

mod cases;

use crate::desk::{Desk, first_other};
use crate::fixtures::{add_rows, empty_table};
pub use cases::CASES;
use heap_table::{Heap, PageImage};
use keybytes::{Fault, Rid};
use std::alloc::Global;

/// A call of a table, and what it answers.
pub enum Step {
    Begin,
    /// Inserts so many rows by transaction 1; answered is the last one's place.
    Fill(u32, Result<Rid, Fault>),
    /// Whether a row stands there.
    Get(Rid, bool),
    /// How many rows a page has.
    List(u32, usize),
    /// How many slots a copy of a page has.
    Copy(u32, u16),
    /// How many records there are.
    Records(usize),
    Visits(u64),
}

/// The slots of a new table's pages, and how many pages there may be.
pub struct Shape(pub u8, pub u32);

/// The first step that a new table of one column of numbers answers otherwise.
pub fn told(alloc: Global, shape: &Shape, steps: &[Step]) -> Result<Option<usize>, Fault> {
    first_other(&mut empty_table(alloc, shape.0, shape.1)?, steps)
}

impl Desk for Heap {
    type Step = Step;

    fn does(&mut self, step: &Step) -> Result<bool, Fault> {
        match *step {
            Step::Begin => Ok(self.begin().is_ok()),
            Step::Fill(count, answer) => Ok(add_rows(self, 1, count) == answer),
            Step::Get(rid, answer) => Ok(self.get(rid).is_ok() == answer),
            Step::List(page, answer) if page < self.pages() => Ok(
                self.page_rows(page)?.len() == answer,
            ),
            Step::Copy(page, answer) if page < self.pages() => Ok(copied(self, page)? == answer),
            Step::Records(answer) => Ok(self.log().len() == answer),
            Step::Visits(answer) => Ok(self.visits() == answer),
            _ => Ok(false),
        }
    }
}

fn copied(heap: &mut Heap, page: u32) -> Result<u16, Fault>
    requires { page < pages_written heap.old.state.log }
{
    let mut image = PageImage::new(heap.allocator())?;
    heap.copy_page(page, &mut image);
    Ok(image.slots())
}
