use crate::timeline_svg::PictureError;
use keybytes::Fault;
use std::alloc::{AllocError, AllocFailed};
use std::{fmt, io};
use thiserror::Error;

/// Why there is no picture of a script.
#[derive(Clone, Copy, Debug, Drop, Error, PartialEq, Eq)]
pub enum Failure {
    #[error("{0}")]
    Picture(PictureError),
    #[error("no memory")]
    NoMemory,
    /// The table refuses to tell what the picture asks.
    #[error("{0}")]
    Table(Fault),
    #[error("the picture can't be written")]
    CannotWrite,
}

impl From<PictureError> for Failure {
    fn from(error: PictureError) -> Failure {
        Failure::Picture(error)
    }
}

impl From<AllocError> for Failure {
    fn from(_error: AllocError) -> Failure {
        Failure::NoMemory
    }
}

impl<T: Drop> From<AllocFailed<T>> for Failure {
    fn from(_error: AllocFailed<T>) -> Failure {
        Failure::NoMemory
    }
}

impl From<Fault> for Failure {
    fn from(fault: Fault) -> Failure {
        match fault {
            Fault::Memory => Failure::NoMemory,
            _ => Failure::Table(fault),
        }
    }
}

impl From<io::Error> for Failure {
    fn from(_error: io::Error) -> Failure {
        Failure::CannotWrite
    }
}

impl From<fmt::Error> for Failure {
    fn from(_error: fmt::Error) -> Failure {
        Failure::NoMemory
    }
}
