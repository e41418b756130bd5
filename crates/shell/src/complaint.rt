use script::Excerpt;
use std::fmt;

/// What is wrong with a record that only a shell is given.
#[derive(Drop)]
pub enum Complaint {
    /// It is this word, which asks for nothing.
    UnknownWord(String),
    /// It is a command, and there is no table yet.
    NoTable,
}

impl fmt::Display for Complaint {
    fn fmt<W: fmt::Write>(&self, f: &mut fmt::Formatter<W>) -> fmt::Result {
        match self {
            Complaint::UnknownWord(word) => {
                let word = Excerpt(word.as_str());
                write!(f, "{word} is no command and no word (help lists them)")
            }
            Complaint::NoTable => f.write_str("there is no table yet (table,L,KIND,..)"),
        }
    }
}
