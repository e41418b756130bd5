ghost use Rattle.std.specs.Prelude.{◌≡◌, ◌*◌, ◌/◌, MatchOption};

use crate::failure::Failure;
use crate::histogram::Waits;
use crate::span::Span;
use std::alloc::AllocError;

/// The most lines of a run.
pub const LINES: usize = 14;

/// What was measured of a phase.
pub struct Line {
    pub name: &'static str,
    /// In nanoseconds.
    pub spent: u64,
    /// How many rows it was about.
    pub rows: u64,
    /// The most memory that the program ever had by the end of the phase, in units of 1,024 bytes, where that was looked at and the system tells.
    pub peak: Option<u128>,
    /// What writers met in it.
    pub met: Span,
    /// How many entries of all indexes writers made in it, and how many the build applied, where that is told.
    pub made: Option<u64>,
    pub applied: Option<u64>,
    /// Whether the run had the phase.
    pub is_told: bool,
}

impl Copy for Line {}

impl Clone for Line {
    fn clone(&self) -> Result<Line, AllocError> {
        Ok(*self)
    }
}

impl Line {
    pub const NONE: Line = Line {
        name: "",
        spent: 0,
        rows: 0,
        peak: None,
        met: Span::NONE,
        made: None,
        applied: None,
        is_told: false,
    };
}

/// What was measured of a run, phase by phase in their order.
#[derive(Drop)]
pub struct Figures {
    pub(crate) lines: [Line; LINES],
    /// How many pages the spools leased at most, each counted for itself; with threads how many turns came before the switch.
    pub(crate) count: u64,
    /// How long calls of writers took before the build, and from its start on.
    pub(crate) before: Waits,
    pub(crate) beside: Waits,
    /// Why the run ended early, if it did.
    pub(crate) failure: Option<Failure>,
}

/// How many a second; of a time that the clock can't tell, nothing.
pub fn rate(spent: u64, count: u64) -> Option<u128>
    ensures { MatchOption result (spent ≡ 0) (λ rate. rate ≡ count * 1000000000 / spent) }
{
    if spent == 0 {
        return None;
    }
    Some(u128::from(count) * 1_000_000_000 / u128::from(spent))
}
