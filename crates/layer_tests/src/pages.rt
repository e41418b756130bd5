//! Pages, and the bytes of their copies.
ghost use Rattle.std.specs.Prelude.{IsTrue, length};
ghost use Rattle.slotted_page.specs.Slot.{IsRowSize};

mod cases;

use crate::desk::Desk;
pub use cases::CASES;
use keybytes::Fault;
use slotted_page::{MAX_ROW_SIZE, PAGE_SIZE, Page, image_row, image_slots};

pub enum Step {
    Insert(&'static [u8], Result<u16, Fault>),
    Update(u16, &'static [u8]),
    Hold(u16),
    Free(u16),
    Trim(u16),
    /// The most bytes that an insert may have.
    Greatest(usize),
    /// The rows by slot, on the page and in a copy of it, and the copy's bytes from some places on.
    Copy(&'static [Option<&'static [u8]>], &'static [(usize, &'static [u8])]),
}

impl Desk for Page {
    type Step = Step;

    fn does(&mut self, step: &Step) -> Result<bool, Fault> {
        match *step {
            Step::Insert(bytes, answer) if is_row(bytes) => return Ok(self.insert(bytes) == answer),
            Step::Update(slot, bytes) if is_row(bytes) && self.row(slot).is_some() => {
                self.update(slot, bytes)?
            }
            Step::Hold(slot) if self.row(slot).is_some() => self.hold(slot),
            Step::Free(slot) if self.is_held(slot) => self.free(slot),
            Step::Trim(slot) if self.row(slot).is_some() => self.trim(slot),
            Step::Greatest(room) => return Ok(self.greatest_insert() == room),
            Step::Copy(rows, parts) => return Ok(has_copy(self, rows, parts)),
            _ => return Ok(false),
        }
        Ok(true)
    }
}

fn is_row(bytes: &[u8]) -> bool
    ensures { IsTrue result → IsRowSize (length bytes.now) }
{
    !bytes.is_empty() && bytes.len() <= MAX_ROW_SIZE
}

fn has_copy(page: &Page, rows: &[Option<&[u8]>], parts: &[(usize, &[u8])]) -> bool {
    let mut image = [0xff; PAGE_SIZE];
    page.copy_to(&mut image);
    for slot in 0..page.slots().saturating_add(1) {
        let copied = image_row(&image, slot);
        let row = page.row(slot);
        let wanted = match rows.get(slot as usize) {
            Some(wanted) => *wanted,
            None => None,
        };
        if copied != wanted || row != wanted {
            return false;
        }
    }
    (image_slots(&image) as usize, page.slots() as usize) == (rows.len(), rows.len())
        && has_parts(&image, parts)
}

fn has_parts(image: &[u8], parts: &[(usize, &[u8])]) -> bool {
    for (place, part) in parts {
        match image.get(*place..) {
            Some(rest) if rest.starts_with(part) => {}
            _ => return false,
        }
    }
    true
}
