//! The pages of a table, by number.
ghost use Rattle.std.specs.Prelude.{ℕ, is_some, nat_le, ◌≡◌, ◌<◌, ◌≤◌, ◌+◌, ◌∷◌, ◌++◌, [], length, max, cond, nat_lt, get_or, position, Some, None};
ghost use Rattle.std.specs.Prelude.{true, IfSome, IfErr, OnOk, OnErr, MatchOption};
ghost use Rattle.slotted_page.specs.Slot.{row, held, bytes_of, reserve_of, settled, IsRow, IsTaken, IsRowSize};
ghost use Rattle.slotted_page.specs.Page.{PageValue, slot_at, with_slot, room_for, fits_at};
ghost use Rattle.heap_table.specs.HeapState.{takes};
ghost use Rattle.heap_table.specs.PageLists.{new_page, page_or_new, slot_in, with_slot_in};

use crate::rooms::Rooms;
use chunk_list::ChunkList;
use keybytes::{Fault, Rid};
use slotted_page::Page;
use std::alloc::Global;
use std::marker::Model;

/// The pages of a table, by number, all with the same limit on their slots. Contracts see them, that limit, and how many
/// pages can be added without memory.
///
/// Only [`Pages::reserve`] takes memory; what changes a slot is never refused. The lowest page with room is found in
/// logarithmic time.
#[derive(Drop)]
pub struct Pages {
    pages: ChunkList<Page>,
    /// The greatest insert that each page takes.
    rooms: Rooms,
    slot_limit: u8,
    spare: usize,
}

impl Model for Pages {
    ghost use Rattle.heap_table.specs.PageLists.{PagesValue, ArePages};

    ghost Value = { PagesValue };

    ghost view = { λ p. record { pages = p.pages.items; limit = p.slot_limit; spare = p.spare } };

    ghost invariant = { λ p. ArePages p.pages p.rooms p.slot_limit p.spare };
}

impl Pages {
    /// No pages. Those that come can each have up to `slot_limit` slots.
    pub fn new(alloc: Global, slot_limit: u8) -> Pages
        requires { 0 < slot_limit }
        ensures pages { result.pages ≡ [] }
        ensures limit { result.limit ≡ slot_limit }
        ensures spare { result.spare ≡ 0 }
    {
        Pages {
            pages: ChunkList::new(alloc),
            rooms: Rooms::new(alloc),
            slot_limit,
            spare: 0,
        }
    }

    /// The number of pages.
    pub fn len(&self) -> usize
        ensures { result ≡ length self.now.pages }
    {
        self.pages.len()
    }

    /// Where their memory comes from.
    pub fn allocator(&self) -> Global {
        self.pages.allocator()
    }

    /// The page of that number.
    pub fn page(&self, number: usize) -> &Page
        requires { number < length self.now.pages }
        ensures { (page : PageValue) → result.now ≡ get_or self.now.pages number page }
    {
        &self.pages[number]
    }

    /// The row at a RID. A slot that is free, held or not there has none.
    pub fn row(&self, rid: Rid) -> Option<&[u8]>
        ensures bytes { MatchOption result
            (bytes_of (slot_in self.now.pages rid) ≡ None)
            (λ bytes. bytes_of (slot_in self.now.pages rid) ≡ Some bytes.now) }
        ensures size { IfSome result (λ bytes. IsRowSize (length bytes.now)) }
    {
        let number = rid.page as usize;
        if number >= self.pages.len() {
            return None;
        }
        self.pages[number].row(rid.slot)
    }

    /// The lowest page with room for so many bytes.
    pub fn lowest_with_room(&self, len: usize) -> Option<usize>
        requires { IsRowSize len }
        ensures { result ≡ position (takes len) self.now.pages }
    {
        self.rooms.lowest(len)
    }

    /// The slot that an insert of so many bytes takes on that page, if it has the room.
    pub fn room(&self, number: usize, len: usize) -> Option<u16>
        requires page { number < length self.now.pages }
        requires size { len ≤ 1224 }
        ensures { result ≡ room_for (page_or_new self.now.pages self.now.limit number) len }
    {
        self.pages[number].room(len)
    }

    /// Whether the page has the room for an update of a row to so many bytes.
    pub fn fits(&self, rid: Rid, len: usize) -> bool
        requires is_row { IsRow (slot_in self.now.pages rid) }
        requires size { len ≤ 1224 }
        ensures { result ≡ fits_at (get_or self.now.pages rid.page (new_page 0)) rid.slot len }
    {
        self.pages[rid.page as usize].fits(rid.slot, len)
    }

    /// Makes room for one more page.
    pub fn reserve(&mut self) -> Result<(), Fault>
        ensures ok { OnOk result (1 ≤ self.new.spare) }
        ensures spare { self.old.spare ≤ self.new.spare }
        ensures pages { self.new.pages ≡ self.old.pages }
        ensures limit { self.new.limit ≡ self.old.limit }
        ensures err { OnErr result (self.new ≡ self.old) }
        ensures memory { IfErr result (λ fault. fault ≡ Fault.Memory) }
    {
        if self.spare > 0 {
            return Ok(());
        }
        self.pages.reserve(1)?;
        self.rooms.reserve()?;
        self.spare = 1;
        Ok(())
    }

    /// Sees that there is a page of that number, of those that are there or the next new one.
    fn open_page(&mut self, number: usize)
        requires page { number ≤ length self.old.pages }
        requires spare { 0 < self.old.spare }
        ensures pages { self.new.pages
            ≡ cond (nat_lt number (length self.old.pages)) self.old.pages
            (self.old.pages ++ new_page self.old.limit ∷ []) }
        ensures limit { self.new.limit ≡ self.old.limit }
        ensures spare { self.old.spare ≤ self.new.spare + 1 }
    {
        if number == self.pages.len() {
            self.add_page();
        }
    }

    /// Adds an empty page. It is a function of its own since each call clears the room that the page has on the stack.
    fn add_page(&mut self)
        requires { 0 < self.old.spare }
        ensures pages { self.new.pages ≡ self.old.pages ++ new_page self.old.limit ∷ [] }
        ensures limit { self.new.limit ≡ self.old.limit }
        ensures spare { self.old.spare ≤ self.new.spare + 1 }
    {
        let Ok(page) = Page::new(self.slot_limit) else {
            unreachable!()
        };
        self.rooms.push(room_of(&page));
        self.pages.push_reserved(page);
        self.spare -= 1;
    }

    /// Puts a row at the RID, where the page has room for it: one that is there or the next new one.
    pub fn insert(&mut self, rid: Rid, bytes: &[u8])
        requires size { IsRowSize (length bytes.now) }
        requires page { rid.page ≤ length self.old.pages }
        requires room { room_for (page_or_new self.old.pages self.old.limit rid.page) (length bytes.now)
            ≡ Some rid.slot }
        requires spare { 0 < self.old.spare }
        ensures pages { self.new.pages
            ≡ with_slot_in self.old.pages self.old.limit rid (row bytes.now (length bytes.now)) }
        ensures limit { self.new.limit ≡ self.old.limit }
        ensures spare { self.old.spare ≤ self.new.spare + 1 }
    {
        let number = rid.page as usize;
        self.open_page(number);
        let page = &mut self.pages[number];
        let Ok(_slot) = page.insert(bytes) else {
            unreachable!()
        };
        self.rooms.set(number, room_of(page));
    }

    /// Gives a row other bytes. Its reserve grows to their number, and does not shrink.
    pub fn update(&mut self, rid: Rid, bytes: &[u8])
        requires is_row { IsRow (slot_in self.old.pages rid) }
        requires size { IsRowSize (length bytes.now) }
        requires fits { fits_at (get_or self.old.pages rid.page (new_page 0)) rid.slot (length bytes.now) ≡ true }
        ensures pages { self.new.pages
            ≡ with_slot_in self.old.pages self.old.limit rid
            (row bytes.now (max (reserve_of (slot_in self.old.pages rid)) (length bytes.now))) }
        ensures limit { self.new.limit ≡ self.old.limit }
        ensures spare { self.new.spare ≡ self.old.spare }
    {
        let number = rid.page as usize;
        let page = &mut self.pages[number];
        let Ok(()) = page.update(rid.slot, bytes) else {
            unreachable!()
        };
        self.rooms.set(number, room_of(page));
    }

    /// Empties a row's slot and keeps its reserve.
    pub fn hold(&mut self, rid: Rid)
        requires { IsRow (slot_in self.old.pages rid) }
        ensures pages { self.new.pages
            ≡ with_slot_in self.old.pages self.old.limit rid (held (reserve_of (slot_in self.old.pages rid))) }
        ensures limit { self.new.limit ≡ self.old.limit }
        ensures spare { self.new.spare ≡ self.old.spare }
    {
        let number = rid.page as usize;
        let page = &mut self.pages[number];
        page.hold(rid.slot);
        self.rooms.set(number, room_of(page));
    }

    /// Puts bytes that fit the slot's reserve back as its row.
    pub fn restore(&mut self, rid: Rid, bytes: &[u8])
        requires is_taken { IsTaken (slot_in self.old.pages rid) }
        requires size { IsRowSize (length bytes.now) }
        requires reserved { length bytes.now ≤ reserve_of (slot_in self.old.pages rid) }
        ensures pages { self.new.pages
            ≡ with_slot_in self.old.pages self.old.limit rid (row bytes.now (reserve_of (slot_in self.old.pages rid))) }
        ensures limit { self.new.limit ≡ self.old.limit }
        ensures spare { self.new.spare ≡ self.old.spare }
    {
        let number = rid.page as usize;
        let page = &mut self.pages[number];
        page.restore(rid.slot, bytes);
        self.rooms.set(number, room_of(page));
    }

    /// Ends what a transaction may still take back at the RID: cuts a row's reserve to its length, frees a held slot.
    pub fn settle(&mut self, rid: Rid)
        requires page { rid.page < length self.old.pages }
        requires slot { rid.slot < length (get_or self.old.pages rid.page (new_page 0)).slots }
        ensures pages { self.new.pages
            ≡ with_slot_in self.old.pages self.old.limit rid (settled (slot_in self.old.pages rid)) }
        ensures limit { self.new.limit ≡ self.old.limit }
        ensures spare { self.new.spare ≡ self.old.spare }
    {
        let number = rid.page as usize;
        let page = &mut self.pages[number];
        page.settle(rid.slot);
        self.rooms.set(number, room_of(page));
    }
}

/// The most bytes that an insert into the page may have.
fn room_of(page: &Page) -> u16
    ensures { (len : ℕ) → 0 < len → is_some (room_for page.now len) ≡ nat_le len result }
{
    page.greatest_insert() as u16
}
