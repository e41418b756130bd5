use crate::session_line::SessionLine;
use crew::{Known, Opened, Receipt};
use std::marker::Model;

/// A session that has ended, with a receipt for each record that it wrote to the log.
#[derive(Drop)]
pub struct Ended<T: Opened> {
    pub line: SessionLine,
    pub receipts: Vec<Receipt<T>>,
    /// What it knows of the log: all that it read, and was refused for, stood in a beginning of that.
    pub known: Known<T>,
}

impl<T: Opened> Model for Ended<T> {
    ghost use Rattle.race.specs.Sessions.{EndedValue};

    ghost Value = { EndedValue };

    ghost view = { λ ended. record { line = ended.line; left = record { log = ended.known; receipts = ended.receipts.items } } };

    ghost invariant = { λ ended. Unit {0} };
}
