ghost use Rattle.std.specs.Prelude.{◌≡◌, ℕ, [], length, List, Option, IfOk, IfErr};
ghost use Rattle.keybytes.specs.declared.cell.Cell.{Cell};
ghost use Rattle.slotted_page.specs.Page.{slot_at};
ghost use Rattle.heap_table.specs.Images.{image_slot, IsReadable, Shows};

use keybytes::{Fault, Kind, Row, Schema};
use slotted_page::{PAGE_SIZE, Page, image_row, image_slots};
use std::alloc::Global;
use std::marker::Model;

/// A copy of a page, with the columns of its table. Contracts see the page's number, its slots and the columns, by which the rows
/// on every copy can be read.
#[derive(Drop)]
pub struct PageImage {
    page: u32,
    schema: Schema,
    bytes: Box<[u8; PAGE_SIZE]>,
}

impl Model for PageImage {
    ghost use Rattle.heap_table.specs.Images.{ImageValue};

    ghost Value = { ImageValue };

    ghost use Rattle.slotted_page.specs.Image.{KeepsFormat};
    ghost use Rattle.heap_table.specs.Images.{IsReadable};
    ghost use Rattle.heap_table.specs.Inside.{image_value};

    ghost view = { image_value };

    ghost invariant = { λ image. KeepsFormat image.bytes.value × IsReadable (image_value image) };
}

impl PageImage {
    /// A copy of an empty page 0, of any one column.
    pub fn new(alloc: Global) -> Result<PageImage, Fault>
        ensures number { IfOk result (λ image. image.page ≡ 0) }
        ensures empty { IfOk result (λ image. image.slots ≡ []) }
        ensures memory { IfErr result (λ fault. fault ≡ Fault.Memory) }
    {
        let page = Page::new(1)?;
        let mut bytes = [0; PAGE_SIZE];
        page.copy_to(&mut bytes);
        Ok(PageImage {
            page: 0,
            schema: Schema::of_one(Kind::Int),
            bytes: Box::new(alloc, bytes)?,
        })
    }

    /// Does nothing: its clause tells that the rows on every copy can be read by its columns.
    pub fn laws(&self)
        ensures { IsReadable self.now }
    {
        let _kept = &self.page;
    }

    /// The columns of its table.
    pub fn schema(&self) -> &Schema
        ensures { result.now ≡ self.now.schema }
    {
        &self.schema
    }

    /// The number of the page.
    pub fn page(&self) -> u32
        ensures { result ≡ self.now.page }
    {
        self.page
    }

    /// The number of its slots.
    pub fn slots(&self) -> u16
        ensures { result ≡ length self.now.slots }
    {
        image_slots(&self.bytes)
    }

    /// The row in a slot, none where the slot has none, of a table of these columns.
    pub fn row(&self, slot: u16, schema: &Schema) -> Result<Option<Row>, Fault>
        requires { (cells : Option (List Cell)) × Shows schema.now (image_slot self.now slot) cells }
        ensures row { IfOk result (λ row. (cells : Option (List Cell)) → Shows schema.now (image_slot self.now slot) cells → row ≡ cells) }
        ensures memory { IfErr result (λ fault. fault ≡ Fault.Memory) }
    {
        let Some(bytes) = image_row(&self.bytes, slot) else {
            return Ok(None);
        };
        let row = Row::read(*Box::allocator(&self.bytes), bytes, schema)?;
        Ok(Some(row))
    }

    /// Makes this the copy of a page, of a table of these columns.
    pub(crate) fn take_copy(&mut self, number: u32, page: &Page, schema: &Schema)
        requires { (rows : ℕ → Option (List Cell)) × ((slot : ℕ) → Shows schema.now (slot_at page.now slot) (rows slot)) }
        ensures page { self.new.page ≡ number }
        ensures slots { self.new.slots ≡ page.now.slots }
        ensures schema { self.new.schema ≡ schema.now }
    {
        page.copy_to(&mut self.bytes);
        self.page = number;
        self.schema = schema.copy();
    }
}
