use crate::{Explanation, Line};

/// What a record of an input line turned out to be.
#[derive(Drop)]
pub enum InputRecord {
    Good(Line),
    /// A field alone that is no command's name.
    Word(String),
    Bad(Explanation),
}
