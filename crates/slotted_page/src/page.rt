ghost use Rattle.std.specs.Prelude.{◌≡◌, ◌↔◌, ℕ, ◌+◌, ◌^◌, ◌<◌, ◌≤◌, [], length, cond, is_some, position, nat_le, true, false, IsTrue, IfOk, OnErr, IfErr};
ghost use Rattle.std.specs.Prelude.{IfSome, MatchResult, MatchOption, Some, None};
ghost use Rattle.slotted_page.specs.Slot.{free, held, row, is_free, is_held, bytes_of, settled, trimmed, total_reserve, rows_from, IsRow, IsHeld, IsTaken, IsRowSize};
ghost use Rattle.slotted_page.specs.Page.{slot_at, reserve_at, grown_reserve, with_slot, taken_bytes, has_room, room_for, slots_with_row, bytes_left, fits_at};
ghost use Rattle.slotted_page.specs.Page.{CanReserve, IsSoundPage};
ghost use Rattle.slotted_page.specs.Rows.{rows_left};
ghost use Rattle.slotted_page.specs.Image.{slots_in, KeepsFormat};

use crate::Rows;
use crate::area::{add_row, store};
use crate::entry::{Entry, MAX_ROW_SIZE};
use crate::image::{
    ENTRY_SIZE, HEAD_SIZE, PAGE_SIZE, entry_in, image_row, image_slots, next_free, write_at,
    write_entry, write_head,
};
use keybytes::Fault;
use std::marker::Model;

/// A page: its slots, and the limit on their number.
///
/// Rows are given and read as bytes. Where a call is refused, the page stays as it was.
#[derive(Drop)]
pub struct Page {
    /// The page in the page format.
    image: [u8; PAGE_SIZE],
    /// How many slots it can have.
    limit: u8,
    /// The sum of all reserves.
    reserved: u16,
    /// The lowest free slot, or the number of slots where none is free.
    first_free: u16,
}

impl Model for Page {
    ghost use Rattle.slotted_page.specs.Page.{PageValue};
    ghost use Rattle.slotted_page.specs.Image.{slots_in};
    ghost use Rattle.slotted_page.specs.Fields.{IsPage};

    ghost Value = { PageValue };

    ghost view = { λ p. record { slots = slots_in p.image; limit = p.limit } };

    ghost invariant = { λ p. IsPage p.image p.limit p.reserved p.first_free };
}

impl Page {
    /// A page with no slots, which can have up to `slot_limit` of them. A limit of 0 is refused.
    pub fn new(slot_limit: u8) -> Result<Page, Fault>
        ensures limit { MatchResult result (λ _. 0 < slot_limit) (λ _. slot_limit ≡ 0) }
        ensures empty { IfOk result (λ page. page ≡ record { slots = []; limit = slot_limit }) }
        ensures bad_count { IfErr result (λ fault. fault ≡ Fault.BadCount) }
    {
        if slot_limit == 0 {
            return Err(Fault::BadCount);
        }
        let mut image = [0; PAGE_SIZE];
        write_head(&mut image, 0, PAGE_SIZE as u16);
        Ok(Page {
            image,
            limit: slot_limit,
            reserved: 0,
            first_free: 0,
        })
    }

    /// Puts a row into the lowest free slot, or else into a new one, and returns the slot. `room` says beforehand which
    /// it will be.
    pub fn insert(&mut self, bytes: &[u8]) -> Result<u16, Fault>
        requires { IsRowSize (length bytes.now) }
        ensures slot { MatchResult result
            (λ slot. room_for self.old (length bytes.now) ≡ Some slot)
            (λ _. room_for self.old (length bytes.now) ≡ None) }
        ensures inserted { IfOk result
            (λ slot. self.new ≡ with_slot self.old slot (row bytes.now (length bytes.now))) }
        ensures page_full { IfErr result (λ fault. fault ≡ Fault.PageFull) }
        ensures unchanged { OnErr result (self.new ≡ self.old) }
    {
        let Some(slot) = self.room(bytes.len()) else {
            return Err(Fault::PageFull);
        };
        if slot < self.slots() {
            self.move_row(slot as usize, bytes.len() as u16, bytes);
        } else {
            self.add_row(bytes);
        }
        Ok(slot)
    }

    /// Gives a row other bytes. Its reserve grows to their number, and does not shrink. `fits` says beforehand whether
    /// the page has the room.
    pub fn update(&mut self, slot: u16, bytes: &[u8]) -> Result<(), Fault>
        requires is_row { IsRow (slot_at self.old slot) }
        requires size { IsRowSize (length bytes.now) }
        ensures fits { MatchResult result
            (λ _. fits_at self.old slot (length bytes.now) ≡ true)
            (λ _. fits_at self.old slot (length bytes.now) ≡ false) }
        ensures updated { IfOk result
            (λ _. self.new ≡ with_slot self.old slot
            (row bytes.now (grown_reserve self.old slot (length bytes.now)))) }
        ensures page_full { IfErr result (λ fault. fault ≡ Fault.PageFull) }
        ensures unchanged { OnErr result (self.new ≡ self.old) }
    {
        if !self.fits(slot, bytes.len()) {
            return Err(Fault::PageFull);
        }
        let grown = self.reserve(slot as usize).max(bytes.len() as u16);
        self.put_row(slot as usize, grown, bytes);
        Ok(())
    }

    /// Empties a row's slot and keeps its reserve, so that each of its earlier states can be restored.
    pub fn hold(&mut self, slot: u16)
        requires { IsRow (slot_at self.old slot) }
        ensures { self.new ≡ with_slot self.old slot (held (reserve_at self.old slot)) }
    {
        let reserve = self.reserve(slot as usize);
        self.make_held(slot as usize, reserve);
    }

    /// Puts bytes that fit the slot's reserve back as its row.
    pub fn restore(&mut self, slot: u16, bytes: &[u8])
        requires is_taken { IsTaken (slot_at self.old slot) }
        requires size { IsRowSize (length bytes.now) }
        requires reserved { length bytes.now ≤ reserve_at self.old slot }
        ensures { self.new ≡ with_slot self.old slot (row bytes.now (reserve_at self.old slot)) }
    {
        let reserve = self.reserve(slot as usize);
        self.put_row(slot as usize, reserve, bytes);
    }

    /// Cuts a row's reserve to its length.
    pub fn trim(&mut self, slot: u16)
        requires { IsRow (slot_at self.old slot) }
        ensures { self.new ≡ with_slot self.old slot (trimmed (slot_at self.old slot)) }
    {
        if let Entry::Row {
            offset,
            length,
            reserve,
        } = entry_in(&self.image, slot as usize)
        {
            let trimmed = Entry::Row {
                offset,
                length,
                reserve: length,
            };
            write_entry(&mut self.image, slot as usize, trimmed);
            self.reserved = self.reserved - reserve + length;
        }
    }

    /// Frees a held slot, and gives its reserve back.
    pub fn free(&mut self, slot: u16)
        requires { IsHeld (slot_at self.old slot) }
        ensures { self.new ≡ with_slot self.old slot free }
    {
        let reserve = entry_in(&self.image, slot as usize).reserve();
        write_entry(&mut self.image, slot as usize, Entry::Free);
        self.reserved -= reserve;
        self.first_free = self.first_free.min(slot);
    }

    /// Ends what may still be taken back in a slot: cuts a row's reserve to its length, frees a held slot, and leaves a free
    /// one.
    pub fn settle(&mut self, slot: u16)
        requires { slot < length self.old.slots }
        ensures { self.new ≡ with_slot self.old slot (settled (slot_at self.old slot)) }
    {
        match entry_in(&self.image, slot as usize) {
            Entry::Free => {}
            Entry::Held { .. } => self.free(slot),
            Entry::Row {
                length,
                reserve,
                ..
            } => {
                if length < reserve {
                    self.trim(slot);
                }
            }
        }
    }

    /// The row in a slot. A slot that is free, held or not on the page has none.
    pub fn row(&self, slot: u16) -> Option<&[u8]>
        ensures bytes { MatchOption result
            (bytes_of (slot_at self.now slot) ≡ None)
            (λ bytes. bytes_of (slot_at self.now slot) ≡ Some bytes.now) }
        ensures size { IfSome result (λ bytes. IsRowSize (length bytes.now)) }
    {
        image_row(&self.image, slot)
    }

    /// Whether a slot is held. A slot that is not on the page isn't.
    pub fn is_held(&self, slot: u16) -> bool
        ensures { result ≡ is_held (slot_at self.now slot) }
    {
        slot < image_slots(&self.image)
            && matches!(entry_in(&self.image, slot as usize), Entry::Held { .. })
    }

    /// The rows, each with its slot, by slot.
    pub fn rows(&self) -> Rows<'_>
        ensures { rows_left result ≡ rows_from 0 self.now.slots }
    {
        Rows::new(self)
    }

    /// The number of slots, free ones included.
    pub fn slots(&self) -> u16
        ensures count { result ≡ length self.now.slots }
        ensures sound { IsSoundPage self.now }
    {
        image_slots(&self.image)
    }

    /// The slot that an insert of so many bytes takes, if the page has the room.
    pub fn room(&self, len: usize) -> Option<u16>
        requires { len ≤ MAX_ROW_SIZE }
        ensures slot { result ≡ room_for self.now len }
        ensures sound { IsSoundPage self.now }
    {
        let slots = image_slots(&self.image);
        let reserved = self.reserved as usize + len;
        if let Some(slot) = self.lowest_free() {
            return has_room(slots as usize, reserved).then_some(slot);
        }
        if slots >= self.limit as u16 {
            return None;
        }
        has_room(slots as usize + 1, reserved).then_some(slots)
    }

    /// The most bytes that an insert may have now, 0 where the page takes no row at all. A row has a limit besides.
    pub fn greatest_insert(&self) -> usize
        ensures room { (len : ℕ) → 0 < len → is_some (room_for self.now len) ≡ nat_le len result }
        ensures most { result ≤ PAGE_SIZE }
    {
        let slots = self.slots_with_row();
        if slots > self.limit as usize {
            return 0;
        }
        bytes_left(slots, self.reserved as usize)
    }

    /// Whether the page has the room for an update of a row to so many bytes.
    pub fn fits(&self, slot: u16, len: usize) -> bool
        requires is_row { IsRow (slot_at self.now slot) }
        requires size { len ≤ MAX_ROW_SIZE }
        ensures { result ≡ fits_at self.now slot len }
    {
        let reserve = self.reserve(slot as usize) as usize;
        let slots = image_slots(&self.image) as usize;
        has_room(slots, self.reserved as usize - reserve + reserve.max(len))
    }

    /// Writes the page, in the page format, over all of `target`.
    pub fn copy_to(&self, target: &mut [u8; PAGE_SIZE])
        ensures slots { slots_in target.new ≡ self.now.slots }
        ensures format { KeepsFormat target.new }
    {
        *target = self.image;
    }

    /// The lowest free slot.
    fn lowest_free(&self) -> Option<u16>
        ensures { result ≡ position is_free self.now.slots }
    {
        (self.first_free < image_slots(&self.image)).then_some(self.first_free)
    }

    /// The bytes that a slot has been promised.
    fn reserve(&self, slot: usize) -> u16
        requires { slot < length self.now.slots }
        ensures is { result ≡ reserve_at self.now slot }
        ensures room { taken_bytes (length self.now.slots) (total_reserve self.now.slots) ≤ PAGE_SIZE }
    {
        entry_in(&self.image, slot).reserve()
    }

    /// How many slots the page has with one row more.
    fn slots_with_row(&self) -> usize
        ensures count { result ≡ slots_with_row (position is_free self.now.slots) self.now }
        ensures sound { IsSoundPage self.now }
    {
        let slots = image_slots(&self.image) as usize;
        match self.lowest_free() {
            Some(_) => slots,
            None => slots + 1,
        }
    }

    /// Puts a row into a new slot.
    fn add_row(&mut self, bytes: &[u8])
        requires limit { length self.old.slots < self.old.limit }
        requires room { taken_bytes (length self.old.slots + 1) (total_reserve self.old.slots + length bytes.now) ≤ PAGE_SIZE }
        requires size { IsRowSize (length bytes.now) }
        ensures { self.new ≡ with_slot self.old (length self.old.slots) (row bytes.now (length bytes.now)) }
    {
        let slots = image_slots(&self.image);
        add_row(&mut self.image, bytes);
        self.reserved += bytes.len() as u16;
        if self.first_free == slots {
            self.first_free += 1;
        }
    }

    /// Gives a slot a row and a reserve.
    fn put_row(&mut self, slot: usize, reserve: u16, bytes: &[u8])
        requires there { slot < length self.old.slots }
        requires room { CanReserve self.old slot reserve }
        requires size { IsRowSize (length bytes.now) }
        requires reserved { length bytes.now ≤ reserve }
        ensures { self.new ≡ with_slot self.old slot (row bytes.now reserve) }
    {
        if self.overwrite(slot, reserve, bytes) {
            return;
        }
        self.move_row(slot, reserve, bytes);
    }

    /// Writes a row over the one in its slot, where that is no shorter. Says whether it was.
    fn overwrite(&mut self, slot: usize, reserve: u16, bytes: &[u8]) -> bool
        requires there { slot < length self.old.slots }
        requires room { CanReserve self.old slot reserve }
        requires size { IsRowSize (length bytes.now) }
        requires reserved { length bytes.now ≤ reserve }
        ensures { self.new
            ≡ cond result (with_slot self.old slot (row bytes.now reserve)) self.old }
    {
        let Entry::Row {
            offset,
            length,
            reserve: was,
        } = entry_in(&self.image, slot)
        else {
            return false;
        };
        if (length as usize) < bytes.len() {
            return false;
        }
        write_at(&mut self.image, offset as usize, bytes);
        let entry = Entry::Row {
            offset,
            length: bytes.len() as u16,
            reserve,
        };
        write_entry(&mut self.image, slot, entry);
        self.reserved = self.reserved - was + reserve;
        true
    }

    /// Puts a slot's row into the free part of the page.
    fn move_row(&mut self, slot: usize, reserve: u16, bytes: &[u8])
        requires there { slot < length self.old.slots }
        requires room { CanReserve self.old slot reserve }
        requires size { IsRowSize (length bytes.now) }
        requires reserved { length bytes.now ≤ reserve }
        ensures { self.new ≡ with_slot self.old slot (row bytes.now reserve) }
    {
        self.make_held(slot, reserve);
        self.fill_held(slot, reserve, bytes);
    }

    /// Makes a slot held, with such a reserve.
    fn make_held(&mut self, slot: usize, reserve: u16)
        requires there { slot < length self.old.slots }
        requires room { CanReserve self.old slot reserve }
        ensures { self.new ≡ with_slot self.old slot (held reserve) }
    {
        let was = entry_in(&self.image, slot).reserve();
        write_entry(&mut self.image, slot, Entry::Held { reserve });
        self.reserved = self.reserved - was + reserve;
        self.first_free = next_free(&self.image, self.first_free);
    }

    /// Gives a held slot a row within its reserve.
    fn fill_held(&mut self, slot: usize, reserve: u16, bytes: &[u8])
        requires there { slot < length self.old.slots }
        requires is_held { slot_at self.old slot ≡ held reserve }
        requires size { IsRowSize (length bytes.now) }
        requires reserved { length bytes.now ≤ reserve }
        ensures { self.new ≡ with_slot self.old slot (row bytes.now reserve) }
    {
        store(&mut self.image, slot, reserve, bytes);
    }
}

/// Whether the room rule holds of so many slots with so much reserve.
fn has_room(count: usize, reserved: usize) -> bool
    requires { taken_bytes count reserved < 2 ^ 64 }
    ensures { result ≡ has_room count reserved }
{
    HEAD_SIZE + ENTRY_SIZE * count + reserved <= PAGE_SIZE
}

/// The bytes that so many slots with so much reserve leave of a page.
fn bytes_left(count: usize, reserved: usize) -> usize
    requires { taken_bytes count reserved < 2 ^ 64 }
    ensures { result ≡ bytes_left count reserved }
{
    PAGE_SIZE.saturating_sub(HEAD_SIZE + ENTRY_SIZE * count + reserved)
}
