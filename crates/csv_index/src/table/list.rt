use crate::table::failure::Failure;
use crate::table::refusal::Refusal;
use csv::{Reader, ReaderBuilder, StringRecord};
use keybytes::Fault;
use std::alloc::Global;

/// The fields of a text that is one record. Where nothing is, that is one empty field.
pub fn record(alloc: Global, text: &str) -> Result<StringRecord, Failure> {
    let mut reader = ReaderBuilder::new()
        .has_headers(false)
        .flexible(true)
        .from_reader(alloc, text.as_bytes());
    let mut record = StringRecord::new(alloc);
    let mut behind = StringRecord::new(alloc);
    if !read_next(&mut reader, &mut record)? {
        record.push_field("")?;
    } else if read_next(&mut reader, &mut behind)? {
        return Err(Failure::refused(alloc, Refusal::Lines, text));
    }
    Ok(record)
}

/// Whether there is another record, which is then read.
fn read_next(reader: &mut Reader<&[u8]>, record: &mut StringRecord) -> Result<bool, Failure> {
    match reader.read_record(record) {
        Ok(found) => Ok(found),
        Err(_) => Err(Failure::Table(Fault::Memory)),
    }
}
