use keybytes::Fault;
use std::alloc::AllocError;
use std::{fmt, io};

/// Why a run gave no figures.
pub enum Failure {
    /// With what was asked of the core, and why it doesn't do it.
    Refused(&'static str, Fault),
    /// With the index, from 0, and the first of its pairs that the table doesn't have there.
    Differs(usize, usize),
    /// With the index, from 0.
    Shared(usize),
    /// Something else, as it is told.
    Other(&'static str),
}

impl Copy for Failure {}

impl Clone for Failure {
    fn clone(&self) -> Result<Failure, AllocError> {
        Ok(*self)
    }
}

impl From<Fault> for Failure {
    fn from(fault: Fault) -> Failure {
        Failure::Refused("what is asked for", fault)
    }
}

impl From<AllocError> for Failure {
    fn from(_error: AllocError) -> Failure {
        Failure::Other("no memory")
    }
}

impl From<io::Error> for Failure {
    fn from(_error: io::Error) -> Failure {
        Failure::Other("the clock can't be read")
    }
}

impl fmt::Display for Failure {
    fn fmt<W: fmt::Write>(&self, f: &mut fmt::Formatter<W>) -> fmt::Result {
        match self {
            Failure::Refused(step, fault) => write!(f, "the core refuses {step}: {fault}"),
            Failure::Differs(index, pair) => write!(
                f,
                "index {index} is not what the table gives: pair {pair} differs"
            ),
            Failure::Shared(index) => {
                write!(f, "unique index {index} is refused: rows share a key")
            }
            Failure::Other(text) => f.write_str(text),
        }
    }
}
