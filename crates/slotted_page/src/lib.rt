//! A page of 4,096 bytes that holds rows in numbered slots.
//!
//! A slot is free, holds a row, or is *held*: emptied by a change that may still be taken back. Slots are numbered from
//! 0 and never go away, so that a page and a slot name a row for as long as it stands.
//!
//! A row and a held slot have a *reserve*, the bytes that the page promises them. A row's reserve grows with the row and
//! does not shrink with it, and a slot that is held keeps its reserve: so each earlier state of a row can be restored
//! without a refusal. [`Page::trim`] and [`Page::free`] give a promise back, once nothing can be undone any more.
//!
//! The room rule keeps all promises together: 8 bytes of head, 6 for each slot and the sum of all reserves are no more
//! than the page's 4,096. [`Page::insert`] and [`Page::update`] refuse exactly what would break it, and a page has a
//! limit on the number of its slots besides.
//!
//! A [`Page`] keeps its bytes in the page format (`image`), so that a copy of it is a copy of 4,096 bytes: a head, the
//! slots' entries (`entry`), and the rows' bytes, which are filled in from the page's end downwards and packed when the
//! free part in between runs short (`area`). [`image_slots`] and [`image_row`] read a copy with no page at hand. No call
//! allocates.
#![tactic(auto)]

mod area;
mod entry;
mod image;
mod page;
mod rows;

pub use entry::MAX_ROW_SIZE;
pub use image::{PAGE_SIZE, image_row, image_slots};
pub use page::Page;
pub use rows::Rows;
