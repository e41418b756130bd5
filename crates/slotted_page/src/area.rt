//! Where a page's rows lie.
//!
//! Rows lie at or above a floor, and what is between the entries and the floor is free. New bytes go right below the
//! floor, and those that they stand for are left behind. When too little is left, the rows are packed: laid end to end
//! against the page's end, where each takes no more than its reserve. So bytes that the room rule grants always find a
//! place.

ghost use Rattle.std.specs.Prelude.{◌≡◌, ◌+◌, ◌*◌, ◌<◌, ◌≤◌, ◌++◌, ◌∷◌, [], length, get_or, set};
ghost use Rattle.std.specs.List.{sum_by};
ghost use Rattle.slotted_page.specs.Slot.{free, held, row, total_reserve, IsRowSize};
ghost use Rattle.slotted_page.specs.Page.{taken_bytes};
ghost use Rattle.slotted_page.specs.Entry.{length_of};
ghost use Rattle.slotted_page.specs.Image.{number_at, image_entries, slots_in, KeepsFormat};

use crate::entry::Entry;
use crate::image::{
    ENTRY_SIZE, HEAD_SIZE, PAGE_SIZE, entry_in, image_floor, image_slots, write_at, write_entry,
    write_head,
};

/// Lays the rows end to end below the end of the page, so that what no row takes is below the floor.
fn pack(image: &mut [u8; PAGE_SIZE])
    requires { KeepsFormat image.old }
    ensures format { KeepsFormat image.new }
    ensures slots { slots_in image.new ≡ slots_in image.old }
    ensures floor { number_at image.new 4 + sum_by length_of (image_entries image.old) ≡ PAGE_SIZE }
{
    // A row's new place may overlap where another row still is.
    let from = *image;
    let count = image_slots(&from);
    let mut floor = PAGE_SIZE;
    let mut slot = count as usize;
    while slot > 0 {
        slot -= 1;
        if let Entry::Row {
            offset,
            length,
            reserve,
        } = entry_in(&from, slot)
        {
            let begin = offset as usize;
            let end = begin + length as usize;
            floor -= length as usize;
            write_at(image, floor, &from[begin..end]);
            let packed = Entry::Row {
                offset: floor as u16,
                length,
                reserve,
            };
            write_entry(image, slot, packed);
        }
    }
    write_head(image, count, floor as u16);
}

/// Sees that `needed` bytes are free between the entries and the floor, and returns the floor.
fn make_room(image: &mut [u8; PAGE_SIZE], needed: usize) -> usize
    requires format { KeepsFormat image.old }
    requires fits { HEAD_SIZE + ENTRY_SIZE * length (slots_in image.old) + needed
        + sum_by length_of (image_entries image.old) ≤ PAGE_SIZE }
    ensures format { KeepsFormat image.new }
    ensures slots { slots_in image.new ≡ slots_in image.old }
    ensures floor { result ≡ number_at image.new 4 }
    ensures room { HEAD_SIZE + ENTRY_SIZE * length (slots_in image.old) + needed ≤ result }
{
    let floor = image_floor(image);
    if HEAD_SIZE + ENTRY_SIZE * image_slots(image) as usize + needed <= floor {
        return floor;
    }
    pack(image);
    image_floor(image)
}

/// Adds a slot with `bytes` as its row, which is promised no more.
pub(crate) fn add_row(image: &mut [u8; PAGE_SIZE], bytes: &[u8])
    requires format { KeepsFormat image.old }
    requires room { taken_bytes (length (slots_in image.old) + 1) (total_reserve (slots_in image.old) + length bytes.now) ≤ PAGE_SIZE }
    requires size { IsRowSize (length bytes.now) }
    ensures format { KeepsFormat image.new }
    ensures slots { slots_in image.new ≡ slots_in image.old ++ row bytes.now (length bytes.now) ∷ [] }
{
    let offset = make_room(image, ENTRY_SIZE + bytes.len()) - bytes.len();
    let count = image_slots(image);
    let entry = Entry::Row {
        offset: offset as u16,
        length: bytes.len() as u16,
        reserve: bytes.len() as u16,
    };
    write_at(image, offset, bytes);
    write_entry(image, count as usize, entry);
    write_head(image, count + 1, offset as u16);
}

/// Stores `bytes` as the row of a slot that is held with a reserve no less than their number.
pub(crate) fn store(image: &mut [u8; PAGE_SIZE], slot: usize, reserve: u16, bytes: &[u8])
    requires format { KeepsFormat image.old }
    requires there { slot < length (slots_in image.old) }
    requires is_held { get_or (slots_in image.old) slot free ≡ held reserve }
    requires size { IsRowSize (length bytes.now) }
    requires reserved { length bytes.now ≤ reserve }
    ensures format { KeepsFormat image.new }
    ensures slots { slots_in image.new ≡ set (slots_in image.old) slot (row bytes.now reserve) }
{
    let offset = make_room(image, bytes.len()) - bytes.len();
    let count = image_slots(image);
    write_at(image, offset, bytes);
    write_head(image, count, offset as u16);
    let entry = Entry::Row {
        offset: offset as u16,
        length: bytes.len() as u16,
        reserve,
    };
    write_entry(image, slot, entry);
}
