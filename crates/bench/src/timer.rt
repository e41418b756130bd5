ghost use Rattle.std.specs.Prelude.{◌≡◌, None, Some, IsSome, OnOk, IfErr};

use crate::failure::Failure;
use crate::figures::Figures;
use std::time::Instant;

/// The clock of a run or of one of its sessions, and the failure that ended it, if one did.
#[derive(Drop)]
pub struct Timer {
    /// When the last lap ended.
    pub last: Instant,
    pub failure: Option<Failure>,
}

/// The nanoseconds from one time to a later one.
pub fn nanos_between(since: Instant, now: Instant) -> u64 {
    now.saturating_duration_since(since)
        .as_nanos()
        .min(u128::from(u64::MAX)) as u64
}

impl Timer {
    pub fn new(last: Instant) -> Timer {
        Timer {
            last,
            failure: None,
        }
    }

    /// The run has failed; the failure is kept that came first.
    pub fn fail(&mut self, failure: Failure)
        ensures first { self.old.failure ≡ None → self.new.failure ≡ Some failure }
        ensures kept { IsSome self.old.failure → self.new.failure ≡ self.old.failure }
    {
        if self.failure.is_none() {
            self.failure = Some(failure);
        }
    }

    /// The number that was told, or 0 where the run fails.
    pub fn take(&mut self, told: Result<u64, Failure>) -> u64 {
        match told {
            Ok(number) => number,
            Err(failure) => {
                self.fail(failure);
                0
            }
        }
    }
}

/// What was measured, or why nothing is told of it.
pub fn told(failure: Option<Failure>, figures: Figures) -> Result<Figures, Failure>
    ensures measured { OnOk result (failure ≡ None) }
    ensures failed { IfErr result (λ why. failure ≡ Some why) }
{
    match failure {
        None => Ok(figures),
        Some(failure) => Err(failure),
    }
}
