use std::fmt;

/// The output could not be written.
#[derive(Drop)]
pub struct OutputFailed;

impl From<csv::Error> for OutputFailed {
    fn from(_error: csv::Error) -> OutputFailed {
        OutputFailed
    }
}

impl From<fmt::Error> for OutputFailed {
    fn from(_error: fmt::Error) -> OutputFailed {
        OutputFailed
    }
}
