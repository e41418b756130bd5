ghost use Rattle.std.specs.Prelude.{◌≡◌};
ghost use Rattle.std.specs.Iterator.{YieldsFirstBy, item_count};
ghost use Rattle.slotted_page.specs.Slot.{rows_from};
ghost use Rattle.slotted_page.specs.Rows.{rows_left};

use crate::Page;

/// An iterator over the rows of a page, each with its slot, by slot.
#[derive(Drop)]
pub struct Rows<'a> {
    page: &'a Page,
    next: u16,
}

impl<'a> Rows<'a> {
    /// All rows of a page.
    pub(crate) fn new(page: &'a Page) -> Self
        ensures { rows_left result ≡ rows_from 0 page.now.slots }
    {
        Rows { page, next: 0 }
    }
}

impl<'a> Iterator for Rows<'a> {
    type Item = (u16, &'a [u8]);

    ghost next_gives = { YieldsFirstBy (λ item. (item.0, item.1.now)) rows_left };

    ghost remaining = { item_count rows_left };

    fn next(&mut self) -> Option<(u16, &'a [u8])> {
        let page: &'a Page = self.page;
        while self.next < page.slots() {
            let slot = self.next;
            self.next = slot + 1;
            if let Some(bytes) = page.row(slot) {
                return Some((slot, bytes));
            }
        }
        None
    }
}
