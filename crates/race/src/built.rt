use crate::outcome::Outcome;
use crew::{Opened, Receipt};
use keybytes::Fault;
use leased_core::HandedBack;

/// What the build of a race gave.
#[derive(Drop)]
pub struct Built<T: Opened> {
    /// What became of its indexes, or why it was given up.
    pub build: Result<Outcome, Fault>,
    /// For the log's record of the switch.
    pub receipt: Option<Receipt<T>>,
    /// The pool of the pages that its spools leased, and how many of these are missing.
    pub back: HandedBack,
}
