//! The answers as they are printed: comma-separated records, each with the number of its command in front.
ghost use Rattle.std.specs.Prelude.{◌≡◌, [], true, OnOk};
ghost use Rattle.std.specs.Io.KnownBytes.{Keeps};
ghost use Rattle.csv.specs.Writing.{fields_written, text_written, writer_pending, writer_setup, writer_under};

use crate::answer::Answer;
use crate::entry_line::EntryLine;
use crate::output_failed::OutputFailed;
use crate::pair_line::PairLine;
use crate::shared_line::SharedLine;
use arrayvec::ArrayString;
use builder_core::Op;
use csv::{Writer, WriterBuilder};
use heap_log::{Outcome, Verdicts};
use keybytes::{Cell, Fault, Rid};
use std::fmt::{self, Write};
use std::io;

/// The most bytes of a field: a text of 100 bytes behind `=`.
const FIELD_MAX: usize = 101;

/// Where the answers go. It takes no memory of its own.
#[derive(Drop)]
pub struct Output<W: io::Write + Drop> {
    writer: Writer<W>,
}

impl<W: io::Write + Drop> Output<W> {
    pub fn new(out: W) -> Output<W>
        ensures out { writer_under result.writer ≡ out }
        ensures any_length { (writer_setup result.writer).flexible ≡ true }
        ensures whole { fields_written result.writer ≡ 0 }
    {
        Output {
            writer: WriterBuilder::new().flexible(true).from_writer(out),
        }
    }

    /// Prints the answer to the command of that number.
    pub fn print(&mut self, number: usize, answer: &Answer) -> Result<(), OutputFailed>
        ensures whole { OnOk result (fields_written self.new.writer ≡ 0) }
    {
        self.field(number)?;
        self.outcome(answer)?;
        self.end()?;
        self.lines_after(number, answer)
    }

    /// Sends on what was printed.
    pub fn flush(&mut self) -> Result<(), OutputFailed>
        ensures sent { OnOk result (writer_pending self.new.writer ≡ []) }
        ensures kept { Keeps (text_written W.contents self.old.writer) (text_written W.contents self.new.writer) }
    {
        self.writer.flush()?;
        Ok(())
    }

    fn outcome(&mut self, answer: &Answer) -> Result<(), OutputFailed> {
        match answer {
            Answer::Refused { fault } => self.refusal(*fault),
            _ => {
                self.text("ok")?;
                self.values(answer)
            }
        }
    }

    /// The values of an answer that is no refusal.
    fn values(&mut self, answer: &Answer) -> Result<(), OutputFailed> {
        match answer {
            Answer::Done | Answer::Abandoned { .. } | Answer::Refused { .. } => Ok(()),
            Answer::Number { number } => self.field(*number),
            Answer::Row { rid } => self.field(*rid),
            Answer::Written { number, rid } => self.fields(*number, *rid),
            Answer::Undone { number, left } => self.fields(*number, *left),
            Answer::Cells { row } => self.cells(row.cells()),
            Answer::Switched {
                number,
                verdicts,
                ..
            }
            | Answer::SomeRefused {
                number,
                verdicts,
                ..
            } => {
                self.field(*number)?;
                self.verdicts(verdicts)
            }
            Answer::Pairs { lines } => self.field(lines.len()),
            Answer::Entries { lines } => self.field(lines.len()),
        }
    }

    fn verdicts(&mut self, verdicts: &Verdicts) -> Result<(), OutputFailed> {
        for outcome in verdicts.as_slice() {
            self.verdict(outcome)?;
        }
        Ok(())
    }

    fn verdict(&mut self, outcome: &Outcome) -> Result<(), OutputFailed> {
        match outcome {
            Outcome::Ready(number) => self.field(format_args!("ready:{number}")),
            Outcome::Shared { .. } => self.text("shared"),
        }
    }

    /// The records that follow the answer's own.
    fn lines_after(&mut self, number: usize, answer: &Answer) -> Result<(), OutputFailed>
        requires { fields_written self.old.writer ≡ 0 }
        ensures { OnOk result (fields_written self.new.writer ≡ 0) }
    {
        match answer {
            Answer::Switched { pages, .. } | Answer::Abandoned { pages } => {
                self.pages(number, *pages)
            }
            Answer::SomeRefused { shared, pages, .. } => {
                for line in shared {
                    self.shared(number, line)?;
                }
                self.pages(number, *pages)
            }
            Answer::Pairs { lines } => {
                for line in lines {
                    self.pair(number, line)?;
                }
                Ok(())
            }
            Answer::Entries { lines } => {
                for line in lines {
                    self.entry(number, line)?;
                }
                Ok(())
            }
            _ => Ok(()),
        }
    }

    /// How many leased pages are missing.
    fn pages(&mut self, number: usize, missing: usize) -> Result<(), OutputFailed>
        ensures { OnOk result (fields_written self.new.writer ≡ 0) }
    {
        self.fields(number, "pages")?;
        self.field(missing)?;
        self.end()
    }

    fn shared(&mut self, number: usize, line: &SharedLine) -> Result<(), OutputFailed>
        ensures { OnOk result (fields_written self.new.writer ≡ 0) }
    {
        self.fields(number, "shared")?;
        self.field(line.index)?;
        self.cells(line.cells.as_slice())?;
        self.fields(line.first, line.second)?;
        self.end()
    }

    fn pair(&mut self, number: usize, line: &PairLine) -> Result<(), OutputFailed>
        ensures { OnOk result (fields_written self.new.writer ≡ 0) }
    {
        self.fields(number, "pair")?;
        self.cells(line.cells.as_slice())?;
        self.field(line.rid)?;
        self.end()
    }

    fn entry(&mut self, number: usize, line: &EntryLine) -> Result<(), OutputFailed>
        ensures { OnOk result (fields_written self.new.writer ≡ 0) }
    {
        self.fields(number, "entry")?;
        self.text(match line.op {
            Op::Delete => "delete",
            Op::Insert => "insert",
        })?;
        self.cells(line.cells.as_slice())?;
        self.field(line.rid)?;
        self.end()
    }

    /// A field for each cell.
    pub fn cells(&mut self, cells: &[Cell]) -> Result<(), OutputFailed> {
        for cell in cells {
            self.cell(cell)?;
        }
        Ok(())
    }

    fn cell(&mut self, cell: &Cell) -> Result<(), OutputFailed> {
        match cell {
            Cell::Null => self.text("~"),
            Cell::Int(number) => self.field(*number),
            Cell::Text(text) => {
                let text = text.as_str();
                self.field(format_args!("={text}"))
            }
            Cell::Flag(flag) => self.field(*flag),
        }
    }

    fn refusal(&mut self, fault: Fault) -> Result<(), OutputFailed> {
        self.text("refused")?;
        self.fault(fault)
    }

    /// The number and the name of a refusal, and what it comes with.
    pub fn fault(&mut self, fault: Fault) -> Result<(), OutputFailed> {
        self.fields(fault.number(), fault.name())?;
        self.details(fault)
    }

    /// What a refusal comes with, behind its number and its name.
    fn details(&mut self, fault: Fault) -> Result<(), OutputFailed> {
        match fault {
            Fault::RowHeld(txn) => self.field(txn),
            Fault::Duplicate(index, rid) => self.fields(index, rid),
            Fault::KeyHeld(index, txn) => self.fields(index, txn),
            Fault::NotScanned(count)
            | Fault::NotLoaded(count)
            | Fault::Behind(count)
            | Fault::Busy(count)
            | Fault::Short(count)
            | Fault::BadScript(count)
            | Fault::NotSealed(count) => self.field(count),
            _ => Ok(()),
        }
    }

    /// A field that is made on the stack, of 101 bytes at most.
    pub fn field<D: fmt::Display + Drop>(&mut self, value: D) -> Result<(), OutputFailed> {
        let mut text: ArrayString<FIELD_MAX> = ArrayString::new();
        write!(text, "{value}")?;
        self.text(text.as_str())
    }

    pub fn fields<D: fmt::Display + Drop, E: fmt::Display + Drop>(
        &mut self,
        first: D,
        second: E,
    ) -> Result<(), OutputFailed> {
        self.field(first)?;
        self.field(second)
    }

    pub fn text(&mut self, text: &str) -> Result<(), OutputFailed> {
        self.writer.write_field(text.as_bytes())?;
        Ok(())
    }

    /// Ends a record.
    pub fn end(&mut self) -> Result<(), OutputFailed>
        ensures { OnOk result (fields_written self.new.writer ≡ 0) }
    {
        self.writer.end_record()?;
        Ok(())
    }
}
