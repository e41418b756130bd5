ghost use Rattle.std.specs.Prelude.{◌≡◌};
ghost use Rattle.script.specs.Explanations.{stops_at_race};

use crate::{Explanation, Misfit};
use std::fmt;

/// Why a script can't be run, and what is wrong with its first bad record.
#[derive(Drop)]
pub enum CheckError {
    CannotRead,
    NoMemory,
    Bad {
        number: usize,
        explanation: Explanation,
    },
}

impl CheckError {
    /// Whether the first bad record is one that only a race has, `build` or `go`.
    pub fn is_of_race(&self) -> bool
        ensures { result ≡ stops_at_race self.now }
    {
        match self {
            CheckError::Bad {
                explanation: Explanation::Misfit(Misfit::UnknownCommand { text }),
                ..
            } => matches!(text.as_str(), "build" | "go"),
            _ => false,
        }
    }
}

impl fmt::Display for CheckError {
    fn fmt<W: fmt::Write>(&self, f: &mut fmt::Formatter<W>) -> fmt::Result {
        match self {
            CheckError::CannotRead => f.write_str("cannot be read"),
            CheckError::NoMemory => f.write_str("no memory"),
            CheckError::Bad {
                number,
                explanation,
            } => write!(f, "record {number} is bad: {explanation}"),
        }
    }
}
