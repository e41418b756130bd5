ghost use Rattle.std.specs.Prelude.{◌≡◌, [], ◌∷◌, true, false, IfErr};
ghost use Rattle.csv.specs.Reading.{error_kind};
ghost use Rattle.csv.specs.Records.{AllText, fields_of};
ghost use Rattle.script.specs.Readers.{IsReadError, cause_of};
ghost use Rattle.script.specs.Records.{FailsToRead, records_of};

use crate::cause::Cause;
use csv::{ByteRecord, ErrorKind, Reader, ReaderBuilder, StringRecord};
use std::alloc::Global;
use std::marker::Model;

/// The records of a text, one after the other. Contracts see the fields of those that are still to come.
pub struct Records<'a> {
    reader: Reader<&'a [u8]>,
}

impl Drop for Records<'_> {
    fn drop(self) {
        let Records { reader: _ } = self;
    }
}

impl<'a> Model for Records<'a> {
    ghost use Rattle.std.specs.Prelude.{ℕ, List};

    ghost Value = { List (List (List ℕ)) };

    ghost use Rattle.script.specs.Readers.{Reads, records_left};

    ghost view = { λ records. records_left records.reader };

    ghost invariant = { λ records. Reads records.reader };
}

impl<'a> Records<'a> {
    pub fn new(alloc: Global, text: &'a [u8]) -> Records<'a>
        ensures { result ≡ records_of text.now }
    {
        Records {
            reader: ReaderBuilder::new()
                .has_headers(false)
                .flexible(true)
                .from_reader(alloc, text),
        }
    }

    /// Reads the next record, and answers whether there is one.
    pub fn read(&mut self, record: &mut StringRecord) -> Result<bool, Cause>
        ensures found { result ≡ Ok true → self.old ≡ fields_of «record».new ∷ self.new }
        ensures text { result ≡ Ok true → AllText (fields_of «record».new) }
        ensures ended { result ≡ Ok false → self.old ≡ [] }
        ensures refused { IfErr result (FailsToRead self.old) }
    {
        match self.reader.read_record(record) {
            Ok(found) => Ok(found),
            Err(error) => Err(cause(error)),
        }
    }

    /// Reads the next record, whether or not it is UTF-8, and answers whether there is one. Of a text in memory that can fail only for want of
    /// memory.
    pub fn read_bytes(&mut self, record: &mut ByteRecord) -> Result<bool, Cause>
        ensures found { result ≡ Ok true → self.old ≡ fields_of «record».new ∷ self.new }
        ensures ended { result ≡ Ok false → self.old ≡ [] }
    {
        match self.reader.read_byte_record(record) {
            Ok(found) => Ok(found),
            Err(_) => Err(Cause::NoMemory),
        }
    }
}

/// Why a record was not read.
fn cause(error: csv::Error) -> Cause
    requires { IsReadError (error_kind error) }
    ensures { result ≡ cause_of (error_kind error) }
{
    match error.kind() {
        ErrorKind::OutOfMemory => Cause::NoMemory,
        ErrorKind::Utf8 { .. } => Cause::NotText,
        ErrorKind::Io(_) => Cause::CannotRead,
        _ => unreachable!(),
    }
}
