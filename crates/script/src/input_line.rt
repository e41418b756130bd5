//! The records of a script that comes line by line.
ghost use Rattle.std.specs.Prelude.{◌≡◌, [], IfOk, IfErr, MatchOption};
ghost use Rattle.std.specs.List.{AllZip};
ghost use Rattle.csv.specs.Records.{AllText, fields_of};
ghost use Rattle.script.specs.InputLines.{IsTold, TellsNext};
ghost use Rattle.script.specs.Records.{records_of};
ghost use Rattle.script.specs.Shapes.{HasShape};

use crate::reading::{line, misfit};
use crate::record_error::RecordError;
use crate::records::Records;
use crate::script_draft::ScriptDraft;
use crate::{Explanation, InputRecord, Misfit, ScriptError};
use csv::{ByteRecord, StringRecord};
use std::alloc::Global;

/// Tells of each record of an input line what it is. A bad one doesn't keep those behind it from being read.
pub fn read_input_line(alloc: Global, line: &[u8]) -> Result<Vec<InputRecord>, ScriptError>
    ensures told { IfOk result (λ told. AllZip IsTold (records_of line.now) told.items) }
    ensures memory { IfErr result (λ error. error ≡ ScriptError.NoMemory) }
{
    let mut told = Vec::new(alloc);
    let mut records = Records::new(alloc, line);
    for _ in 0..usize::MAX {
        match tell_next(alloc, &mut records)? {
            Some(next) => told.push(next)?,
            None => return Ok(told),
        }
    }
    Err(ScriptError::NoMemory)
}

/// Tells what the next record is, if there is one.
fn tell_next(alloc: Global, records: &mut Records) -> Result<Option<InputRecord>, ScriptError>
    ensures told { IfOk result (λ found. MatchOption found (records.old ≡ []) (TellsNext records.old records.new)) }
    ensures memory { IfErr result (λ error. error ≡ ScriptError.NoMemory) }
{
    let mut bytes = ByteRecord::new(alloc);
    match records.read_bytes(&mut bytes) {
        Ok(true) => Ok(Some(tell(alloc, bytes)?)),
        Ok(false) => Ok(None),
        Err(_) => Err(ScriptError::NoMemory),
    }
}

/// Tells what a record is.
fn tell(alloc: Global, bytes: ByteRecord) -> Result<InputRecord, ScriptError>
    ensures told { IfOk result (IsTold (fields_of bytes)) }
    ensures memory { IfErr result (λ error. error ≡ ScriptError.NoMemory) }
{
    match StringRecord::from_byte_record(bytes) {
        Ok(record) => tell_text(alloc, &record),
        Err(_) => Ok(InputRecord::Bad(Explanation::NotText)),
    }
}

/// Tells what a record is whose fields are text.
fn tell_text(alloc: Global, record: &StringRecord) -> Result<InputRecord, ScriptError>
    requires { AllText (fields_of «record».now) }
    ensures told { IfOk result (IsTold (fields_of «record».now)) }
    ensures memory { IfErr result (λ error. error ≡ ScriptError.NoMemory) }
{
    match line::<ScriptDraft>(alloc, record) {
        Ok(line) => Ok(InputRecord::Good(line)),
        Err(RecordError::Misspelled) => tell_misfit(alloc, record),
        Err(RecordError::NoMemory) => Err(ScriptError::NoMemory),
    }
}

/// Tells what is wrong with a record, unless it is a word.
fn tell_misfit(alloc: Global, record: &StringRecord) -> Result<InputRecord, ScriptError>
    requires text { AllText (fields_of «record».now) }
    requires shape { ¬ (HasShape (fields_of «record».now)) }
    ensures told { IfOk result (IsTold (fields_of «record».now)) }
    ensures memory { IfErr result (λ error. error ≡ ScriptError.NoMemory) }
{
    match misfit::<ScriptDraft>(alloc, record) {
        Ok(Some(Misfit::UnknownCommand { text })) if record.len() == 1 => {
            Ok(InputRecord::Word(text))
        }
        Ok(Some(misfit)) => Ok(InputRecord::Bad(Explanation::Misfit(misfit))),
        Ok(None) => unreachable!(),
        Err(_) => Err(ScriptError::NoMemory),
    }
}
