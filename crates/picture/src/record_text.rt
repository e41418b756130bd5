use crate::failure::Failure;
use std::alloc::Global;

/// A record as it is written, with the remarks before it.
#[derive(Drop)]
pub struct RecordText {
    pub number: usize,
    pub remarks: Vec<String>,
    pub fields: Vec<String>,
}

impl RecordText {
    pub fn new(alloc: Global, number: usize) -> RecordText {
        RecordText {
            number,
            remarks: Vec::new(alloc),
            fields: Vec::new(alloc),
        }
    }

    /// The fields from that one on, with commas between them.
    pub fn from_field(&self, alloc: Global, first: usize) -> Result<String, Failure> {
        let mut joined = String::new(alloc);
        for (place, field) in self.fields.iter().enumerate() {
            if place < first {
                continue;
            }
            if place > first {
                joined.push(',')?;
            }
            joined.push_str(field.as_str())?;
        }
        Ok(joined)
    }

    /// The field of that place, counted from 0; nothing where there is none.
    pub fn field(&self, alloc: Global, place: usize) -> Result<String, Failure> {
        match self.fields.get(place) {
            Some(field) => Ok(field.clone()?),
            None => Ok(String::new(alloc)),
        }
    }
}
