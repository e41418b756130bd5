use crate::cause::Cause;

/// Where the reading of a script stopped, and why.
#[derive(Clone, Copy)]
pub struct Stop {
    /// The number of the record that was not taken.
    pub number: usize,
    pub cause: Cause,
}
