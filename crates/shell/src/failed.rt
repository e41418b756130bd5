use replay::OutputFailed;
use script::ScriptError;
use std::io::{self, ErrorKind};
use thiserror::Error;

/// Why a conversation broke off.
#[derive(Clone, Copy, Debug, Error)]
pub enum Failed {
    #[error("cannot be read")]
    CannotRead,
    #[error("no memory")]
    NoMemory,
    #[error("an answer can't be written")]
    CannotWrite,
}

impl From<OutputFailed> for Failed {
    fn from(_error: OutputFailed) -> Failed {
        Failed::CannotWrite
    }
}

impl From<ScriptError> for Failed {
    fn from(error: ScriptError) -> Failed {
        match error {
            ScriptError::NoMemory => Failed::NoMemory,
            ScriptError::CannotRead | ScriptError::Bad(_) => Failed::CannotRead,
        }
    }
}

/// Of an error of the input.
impl From<io::Error> for Failed {
    fn from(error: io::Error) -> Failed {
        match error.kind() {
            ErrorKind::OutOfMemory => Failed::NoMemory,
            _ => Failed::CannotRead,
        }
    }
}
