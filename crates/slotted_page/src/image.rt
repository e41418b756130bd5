//! The bytes of a page, and of a copy of it. Numbers have two bytes, the high one first.
//!
//! A head of 8 bytes has the magic bytes, the number of slots, the floor below which no row begins, and zeros. Behind it
//! stands an entry of 6 bytes for each slot: where its row begins, the row's length, and the slot's reserve. A free slot
//! has three zeros, and a held one the offset 0 with a length that no row has. The rows' bytes lie at or above the floor;
//! what else stands behind the entries means nothing.

ghost use Rattle.std.specs.Prelude.{◌≡◌, ◌+◌, ◌*◌, ◌<◌, ◌≤◌, ◌++◌, length, drop, get_or, IfSome, MatchOption};
ghost use Rattle.slotted_page.specs.Slot.{free, lowest_free, bytes_of, IsRowSize};
ghost use Rattle.keybytes.specs.Writes.{overwritten};
ghost use Rattle.slotted_page.specs.Image.{number_at, entry_bytes, head_bytes, image_entries, slots_in, KeepsFormat};

use crate::entry::Entry;
use byteorder::{BigEndian, ByteOrder};

/// The bytes of a page.
pub const PAGE_SIZE: usize = 4096;

/// The bytes before the first slot's entry.
pub(crate) const HEAD_SIZE: usize = 8;
/// The bytes of a slot's entry.
pub(crate) const ENTRY_SIZE: usize = 6;

/// Where the number of slots stands in the head.
const COUNT_AT: usize = 2;
/// Where the floor stands in the head.
const FLOOR_AT: usize = 4;

/// Where a row's offset stands in its entry.
const OFFSET_AT: usize = 0;
/// Where a row's length stands in its entry.
const LENGTH_AT: usize = 2;
/// Where the reserve stands in an entry.
const RESERVE_AT: usize = 4;

/// "SP", as a number.
const MAGIC: u16 = 0x5350;
/// The length in a held slot's entry.
const HELD: u16 = 0xffff;

/// Writes `bytes` over those that stand at a place.
pub(crate) fn write_at(image: &mut [u8; PAGE_SIZE], at: usize, bytes: &[u8])
    requires { at + length bytes.now ≤ PAGE_SIZE }
    ensures { image.new ≡ overwritten at bytes.now image.old }
{
    image[at..at + bytes.len()].copy_from_slice(bytes);
}

/// Writes the head.
pub(crate) fn write_head(image: &mut [u8; PAGE_SIZE], count: u16, floor: u16)
    ensures { image.new ≡ head_bytes count floor ++ drop HEAD_SIZE image.old }
{
    let mut head = [0; HEAD_SIZE];
    BigEndian::write_u16(&mut head, MAGIC);
    BigEndian::write_u16(&mut head[COUNT_AT..], count);
    BigEndian::write_u16(&mut head[FLOOR_AT..], floor);
    write_at(image, 0, &head);
}

/// The bytes of an entry.
fn entry_to_bytes(entry: Entry) -> [u8; ENTRY_SIZE]
    ensures { result ≡ entry_bytes entry }
{
    let (offset, length, reserve) = match entry {
        Entry::Free => (0, 0, 0),
        Entry::Held { reserve } => (0, HELD, reserve),
        Entry::Row {
            offset,
            length,
            reserve,
        } => (offset, length, reserve),
    };
    let mut bytes = [0; ENTRY_SIZE];
    BigEndian::write_u16(&mut bytes[OFFSET_AT..], offset);
    BigEndian::write_u16(&mut bytes[LENGTH_AT..], length);
    BigEndian::write_u16(&mut bytes[RESERVE_AT..], reserve);
    bytes
}

/// Writes the entry of a slot.
pub(crate) fn write_entry(image: &mut [u8; PAGE_SIZE], slot: usize, entry: Entry)
    requires { HEAD_SIZE + ENTRY_SIZE * (slot + 1) ≤ PAGE_SIZE }
    ensures { image.new
        ≡ overwritten (HEAD_SIZE + ENTRY_SIZE * slot) (entry_bytes entry) image.old }
{
    write_at(image, HEAD_SIZE + ENTRY_SIZE * slot, &entry_to_bytes(entry));
}

/// The number that stands at a place.
fn number_in(image: &[u8; PAGE_SIZE], at: usize) -> u16
    requires { at + 2 ≤ PAGE_SIZE }
    ensures { result ≡ number_at image.now at }
{
    BigEndian::read_u16(&image[at..])
}

/// The number of slots on a page, by a copy of it.
pub fn image_slots(image: &[u8; PAGE_SIZE]) -> u16
    requires { KeepsFormat image.now }
    ensures { result ≡ length (slots_in image.now) }
{
    number_in(image, COUNT_AT)
}

/// The floor, below which no row begins.
pub(crate) fn image_floor(image: &[u8; PAGE_SIZE]) -> usize
    ensures { result ≡ number_at image.now FLOOR_AT }
{
    number_in(image, FLOOR_AT) as usize
}

/// The entry of a slot.
pub(crate) fn entry_in(image: &[u8; PAGE_SIZE], slot: usize) -> Entry
    requires format { KeepsFormat image.now }
    requires there { slot < length (slots_in image.now) }
    ensures { result ≡ get_or (image_entries image.now) slot Entry.Free }
{
    let at = HEAD_SIZE + ENTRY_SIZE * slot;
    let offset = number_in(image, at + OFFSET_AT);
    let length = number_in(image, at + LENGTH_AT);
    let reserve = number_in(image, at + RESERVE_AT);
    if offset != 0 {
        return Entry::Row {
            offset,
            length,
            reserve,
        };
    }
    if length == HELD {
        Entry::Held { reserve }
    } else {
        Entry::Free
    }
}

/// The lowest free slot, or the number of slots where none is free. No slot below `from` may be free.
pub(crate) fn next_free(image: &[u8; PAGE_SIZE], from: u16) -> u16
    requires format { KeepsFormat image.now }
    requires from { from ≤ lowest_free (slots_in image.now) }
    ensures { result ≡ lowest_free (slots_in image.now) }
{
    let count = image_slots(image);
    for slot in from..count {
        if entry_in(image, slot as usize).is_free() {
            return slot;
        }
    }
    count
}

/// The row in a slot of a page, by a copy of it. A slot that is free, held or not on the page has none.
pub fn image_row(image: &[u8; PAGE_SIZE], slot: u16) -> Option<&[u8]>
    requires { KeepsFormat image.now }
    ensures bytes { MatchOption result
        (bytes_of (get_or (slots_in image.now) slot free) ≡ None)
        (λ bytes. bytes_of (get_or (slots_in image.now) slot free) ≡ Some bytes.now) }
    ensures size { IfSome result (λ bytes. IsRowSize (length bytes.now)) }
{
    if slot >= image_slots(image) {
        return None;
    }
    match entry_in(image, slot as usize) {
        Entry::Row { offset, length, .. } => {
            let begin = offset as usize;
            Some(&image[begin..begin + length as usize])
        }
        Entry::Free | Entry::Held { .. } => None,
    }
}
