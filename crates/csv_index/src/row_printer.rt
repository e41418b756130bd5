ghost use Rattle.std.specs.Prelude.{◌≡◌, [], ◌∷◌, ◌++◌, OnOk, map};
ghost use Rattle.csv.specs.Records.{fields_of};
ghost use Rattle.csv_index.specs.Printed.{IsBetween, Prints, cell_field, header_fields, row_fields};

use crate::table::{Column, Failure};
use csv::{StringRecord, Writer, WriterBuilder};
use keybytes::Cell;
use std::alloc::Global;
use std::fmt::Write as _;
use std::io::Write;

/// Prints rows as comma-separated records, each with its line in front.
#[derive(Drop)]
pub struct RowPrinter<W: Write + Drop> {
    writer: Writer<W>,
    /// Of the record that is printed next.
    fields: StringRecord,
    number: String,
}

impl<W: Write + Drop> RowPrinter<W> {
    pub fn new(alloc: Global, out: W) -> RowPrinter<W>
        ensures between { IsBetween result.writer }
        ensures fields { fields_of result.fields ≡ [] }
    {
        RowPrinter {
            writer: WriterBuilder::new().flexible(true).from_writer(out),
            fields: StringRecord::new(alloc),
            number: String::new(alloc),
        }
    }

    /// What the fields are called.
    pub fn header(&mut self, columns: &[Column]) -> Result<(), Failure>
        requires between { IsBetween self.old.writer }
        requires fields { fields_of self.old.fields ≡ [] }
        ensures prints { OnOk result (Prints W.contents self.old.writer self.new.writer (header_fields columns.now ∷ [])) }
        ensures fields { OnOk result (fields_of self.new.fields ≡ []) }
    {
        self.text("line")?;
        for column in columns {
            self.text(column.name.as_str())?;
        }
        self.end()
    }

    pub fn row(&mut self, line: u64, cells: &[Cell]) -> Result<(), Failure>
        requires between { IsBetween self.old.writer }
        requires fields { fields_of self.old.fields ≡ [] }
        ensures prints { OnOk result (Prints W.contents self.old.writer self.new.writer (row_fields line cells.now ∷ [])) }
        ensures fields { OnOk result (fields_of self.new.fields ≡ []) }
    {
        self.number.clear();
        write!(self.number, "{line}")?;
        self.fields.push_field(self.number.as_str())?;
        for cell in cells {
            self.cell(cell)?;
        }
        self.end()
    }

    pub fn cell(&mut self, cell: &Cell) -> Result<(), Failure>
        ensures field { OnOk result (fields_of self.new.fields ≡ fields_of self.old.fields ++ cell_field cell.now ∷ []) }
        ensures writer { self.new.writer ≡ self.old.writer }
    {
        match cell {
            Cell::Null => self.text(""),
            Cell::Text(text) => self.text(text.as_str()),
            Cell::Flag(flag) => self.text(if *flag { "true" } else { "false" }),
            Cell::Int(number) => {
                self.number.clear();
                write!(self.number, "{number}")?;
                self.fields.push_field(self.number.as_str())?;
                Ok(())
            }
        }
    }

    fn text(&mut self, text: &str) -> Result<(), Failure>
        ensures field { OnOk result (fields_of self.new.fields ≡ fields_of self.old.fields ++ text.now ∷ []) }
        ensures writer { self.new.writer ≡ self.old.writer }
    {
        self.fields.push_field(text)?;
        Ok(())
    }

    /// Ends a record.
    pub fn end(&mut self) -> Result<(), Failure>
        requires { IsBetween self.old.writer }
        ensures prints { OnOk result (Prints W.contents self.old.writer self.new.writer (fields_of self.old.fields ∷ [])) }
        ensures fields { OnOk result (fields_of self.new.fields ≡ []) }
    {
        match self.writer.write_byte_record(self.fields.as_byte_record()) {
            Ok(()) => {
                self.fields.clear();
                Ok(())
            }
            Err(_) => Err(Failure::CannotPrint),
        }
    }

    /// Sends on what was printed.
    pub fn flush(&mut self) -> Result<(), Failure>
        requires { IsBetween self.old.writer }
        ensures { OnOk result (Prints W.contents self.old.writer self.new.writer []) }
    {
        match self.writer.flush() {
            Ok(()) => Ok(()),
            Err(_) => Err(Failure::CannotPrint),
        }
    }
}
