ghost use Rattle.std.specs.Prelude.{◌≡◌};
ghost use Rattle.race.specs.Races.{status_after};

use crate::check_line::CheckLine;
use crate::outcome::Outcome;
use crate::session_line::SessionLine;
use keybytes::Fault;
use replay::{Status, has_refused};

/// How a race went.
#[derive(Drop)]
pub struct RaceReport {
    /// What became of the indexes, or why the build was given up.
    pub build: Result<Outcome, Fault>,
    /// Of each session that did something, in their order.
    pub sessions: Vec<SessionLine>,
    /// Of each ready index, in their order.
    pub checks: Vec<CheckLine>,
    /// How many records of the log have no receipt.
    pub receipts: usize,
    /// How many pages that the build leased are missing.
    pub pages: usize,
}

impl RaceReport {
    /// Done where every index became ready.
    pub fn status(&self) -> Status
        ensures { result ≡ status_after self.now.build }
    {
        match &self.build {
            Ok(outcome) if !has_refused(&outcome.verdicts) => Status::Done,
            _ => Status::IndexRefused,
        }
    }
}
