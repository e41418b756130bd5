use script::InputRecord;

/// A record of the input and its number.
#[derive(Drop)]
pub struct NumberedRecord {
    pub number: usize,
    pub record: InputRecord,
}
