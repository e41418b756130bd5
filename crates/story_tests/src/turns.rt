//! A record of a story, with what it is answered.

use crate::expected::is_printed;
use replay::Answer;
use script::Command;

#[derive(Drop)]
pub struct Turn<'t> {
    /// Its number in the script.
    pub number: usize,
    pub command: &'t Command,
    /// The lines that it is answered with, and those behind them.
    pub told: &'t [u8],
}

impl Turn<'_> {
    /// Whether that is the answer.
    pub fn is_told(&self, answer: &Answer) -> bool {
        is_printed(self.number, answer, self.told)
    }
}
