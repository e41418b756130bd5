use crate::Part;

/// In which way fields don't fit the parts that they are to spell.
#[derive(Drop)]
pub enum Unfit {
    TooFew,
    TooMany,
    /// The one of that number, of which the name of the record is the first, is this text, and was to spell that part.
    Misspelled {
        field: usize,
        text: String,
        part: Part,
    },
}
