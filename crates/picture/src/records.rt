//! The records of a script as they are written.

use crate::failure::Failure;
use crate::record_text::RecordText;
use csv::StringRecord;
use script::Records;
use std::alloc::Global;

/// The records of a text that aren't passed over, each with the remarks before it.
pub fn record_texts(alloc: Global, text: &[u8]) -> Result<Vec<RecordText>, Failure> {
    let mut records = Records::new(alloc, text);
    let mut fields = StringRecord::new(alloc);
    let mut texts = Vec::new(alloc);
    read_all(alloc, &mut records, &mut fields, &mut texts)?;
    Ok(texts)
}

fn read_all(
    alloc: Global,
    records: &mut Records<'_>,
    fields: &mut StringRecord,
    texts: &mut Vec<RecordText>,
) -> Result<(), Failure> {
    let mut remarks = Vec::new(alloc);
    for number in 1..usize::MAX {
        if !read_next(records, fields)? {
            break;
        }
        take(alloc, number, fields, &mut remarks, texts)?;
    }
    Ok(())
}

/// Whether there is another record, which is then read.
fn read_next(records: &mut Records<'_>, fields: &mut StringRecord) -> Result<bool, Failure> {
    match records.read(fields) {
        Ok(found) => Ok(found),
        Err(_) => Err(Failure::NoMemory),
    }
}

/// Keeps a record, with the remarks before it, or keeps the remark that it is.
fn take(
    alloc: Global,
    number: usize,
    fields: &StringRecord,
    remarks: &mut Vec<String>,
    texts: &mut Vec<RecordText>,
) -> Result<(), Failure> {
    let mut text = RecordText::new(alloc, number);
    for field in fields {
        text.fields.push(String::from_str(alloc, field)?)?;
    }
    if is_remark(fields) {
        remarks.push(text.from_field(alloc, 0)?)?;
        return Ok(());
    }
    text.remarks.append(remarks)?;
    texts.push(text)?;
    Ok(())
}

/// Whether the record is passed over.
fn is_remark(fields: &StringRecord) -> bool {
    match fields.get(0) {
        Some(first) => first.starts_with('#'),
        None => false,
    }
}
