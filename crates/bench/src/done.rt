use crate::course::{STAGES, START, place_of};
use crate::failure::Failure;
use crate::histogram::Waits;
use crate::span::Span;
use std::alloc::AllocError;

/// What sessions did in a run.
pub struct Done {
    /// How long the transactions took that filled the table, of the session that took longest, in nanoseconds.
    pub filled: u64,
    /// How many rows they put on the first page.
    pub on_page: u16,
    /// What was met in each stage by those that wrote beside the build.
    pub met: [Span; STAGES],
    /// How long their calls took before the build, and from its start on.
    pub before: Waits,
    pub beside: Waits,
    pub failure: Option<Failure>,
}

impl Copy for Done {}

impl Clone for Done {
    fn clone(&self) -> Result<Done, AllocError> {
        Ok(*self)
    }
}

impl Done {
    pub const NOTHING: Done = Done {
        filled: 0,
        on_page: 0,
        met: [Span::NONE; STAGES],
        before: Waits::NONE,
        beside: Waits::NONE,
        failure: None,
    };

    /// Notes what was met in a step.
    pub fn note(&mut self, step: u64, met: Span) {
        let place = place_of(step);
        self.met[place] = self.met[place].and(met);
    }

    /// Counts a call that took so many nanoseconds and ended in a step.
    pub fn count(&mut self, step: u64, spent: u64, is_write: bool) {
        if step < START {
            self.before.note(spent, is_write);
        } else {
            self.beside.note(spent, is_write);
        }
    }

    /// What all of them did.
    pub fn together(all: &[Done]) -> Done {
        let mut together = Done::NOTHING;
        for done in all {
            together.filled = together.filled.max(done.filled);
            together.on_page = together.on_page.saturating_add(done.on_page);
            together.before = together.before.and(done.before);
            together.beside = together.beside.and(done.beside);
            together.failure = together.failure.or(done.failure);
            for place in 0..STAGES {
                together.met[place] = together.met[place].and(done.met[place]);
            }
        }
        together
    }
}
