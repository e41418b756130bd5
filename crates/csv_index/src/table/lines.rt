ghost use Rattle.std.specs.Prelude.{◌≡◌, ◌≢◌, ◌<◌, ℕ, OnOk, [], map, slice_index, vec_len};
ghost use Rattle.std.specs.Vec.{vec_items};
ghost use Rattle.keybytes.specs.declared.rid.Rid.{Rid};
ghost use Rattle.csv_index.specs.Lines.{NotesLine, line_of};

use keybytes::{Fault, Rid};
use std::alloc::Global;
use std::marker::Model;

/// The lines of the rows in the file, by their places in the table. Contracts see those of each page, by slot.
pub struct Lines {
    alloc: Global,
    /// Those of each page, by slot.
    pages: Vec<Vec<u64>>,
}

impl Drop for Lines {
    fn drop(self) {
        let Lines { alloc: _, pages: _ } = self;
    }
}

impl Model for Lines {
    ghost use Rattle.std.specs.Prelude.{ℕ, List, map};
    ghost use Rattle.std.specs.Vec.{vec_items};

    ghost Value = { List (List ℕ) };

    ghost view = { λ lines. map vec_items lines.pages.items };
}

impl Lines {
    pub fn new(alloc: Global) -> Lines
        ensures { result ≡ [] }
    {
        Lines {
            alloc,
            pages: Vec::new(alloc),
        }
    }

    /// The row at that place came from that line.
    pub fn note(&mut self, rid: Rid, line: u64) -> Result<(), Fault>
        ensures { OnOk result (NotesLine self.old rid line self.new) }
    {
        let page = rid.page as usize;
        add_pages(self.alloc, &mut self.pages, page)?;
        note_slot(&mut self.pages[page], usize::from(rid.slot), line)?;
        Ok(())
    }

    /// The line of the row at that place, or 0 where none is noted.
    pub fn line(&self, rid: Rid) -> u64
        ensures { result ≡ line_of self.now rid }
    {
        match self.pages.get(rid.page as usize) {
            Some(lines) => lines.get(usize::from(rid.slot)).copied().unwrap_or(0),
            None => 0,
        }
    }
}

/// Has the lines of that page, where there are none yet.
fn add_pages(alloc: Global, pages: &mut Vec<Vec<u64>>, page: usize) -> Result<(), Fault>
    ensures there { OnOk result (page < vec_len pages.new) }
    ensures same { (rid : Rid) → line_of (map vec_items pages.new.items) rid ≡ line_of (map vec_items pages.old.items) rid }
{
    while pages.len() <= page {
        pages.push(Vec::new(alloc))?;
    }
    Ok(())
}

/// Notes the line of that slot, among those of its page.
fn note_slot(lines: &mut Vec<u64>, slot: usize, line: u64) -> Result<(), Fault>
    ensures here { OnOk result (slice_index lines.new.items slot ≡ line) }
    ensures elsewhere { OnOk result ((other : ℕ) → other ≢ slot → slice_index lines.new.items other ≡ slice_index lines.old.items other) }
{
    while lines.len() <= slot {
        lines.push(0)?;
    }
    lines[slot] = line;
    Ok(())
}
