use std::alloc::{AllocError, AllocFailed};
use std::fmt;
use thiserror::Error;

/// Why a picture isn't drawn.
#[derive(Clone, Copy, Debug, Drop, Error, PartialEq, Eq)]
pub enum PictureError {
    /// With the number of rows.
    #[error("{0} records are too many for a picture, which has 200 at most")]
    TooManyRows(usize),
    /// A mark or a span names a lane or a row that isn't there.
    #[error("a lane or a row of the picture is missing")]
    NoPlace,
    #[error("the picture is too large")]
    TooLarge,
    #[error("no memory")]
    NoMemory,
}

impl From<AllocError> for PictureError {
    fn from(_error: AllocError) -> PictureError {
        PictureError::NoMemory
    }
}

impl From<fmt::Error> for PictureError {
    fn from(_error: fmt::Error) -> PictureError {
        PictureError::NoMemory
    }
}

impl<T: Drop> From<AllocFailed<T>> for PictureError {
    fn from(_error: AllocFailed<T>) -> PictureError {
        PictureError::NoMemory
    }
}
