ghost use Rattle.std.specs.Prelude.{◌≡◌, ◌≤◌, ◌<◌};

use crate::timer::nanos_between;
use crew::CaughtUp;
use std::sync::atomic::{AtomicU64, Ordering};
use std::time::{Clock, Instant};

/// The stages of a run in which writers may write, in their order.
pub const STAGES: usize = 5;

/// Their names.
pub static NAMES: [&str; STAGES] = ["before", "start", "scan", "load", "catch-up"];

pub const START: u64 = 1;

pub const SCAN: u64 = 2;

pub const LOAD: u64 = 3;

pub const CATCH_UP: u64 = 4;

/// How far a run is, as its threads see it, and when it came there.
#[derive(Drop)]
pub struct Course {
    pub since: Instant,
    pub step: AtomicU64,
    /// How many turns the build took.
    pub turns: AtomicU64,
    /// How often the build has tried its switch.
    pub tries: AtomicU64,
    /// How many entries of all indexes waited when the build began to catch up; 0 where it tried its switch more than once, when that isn't told.
    pub waited: AtomicU64,
    /// How many workers have sealed.
    pub sealed: AtomicU64,
    /// Not 0 once the writers are to stop.
    pub is_over: AtomicU64,
    /// In nanoseconds: when each stage began, and when the last one ended.
    pub begun: [AtomicU64; 6],
}

/// The place of a step among the stages.
pub fn place_of(step: u64) -> usize
    ensures stage { step < 4 → result ≡ step }
    ensures last { 4 ≤ step → result ≡ 4 }
{
    step.min(CATCH_UP) as usize
}

impl Course {
    pub fn new(since: Instant) -> Course {
        Course {
            since,
            step: AtomicU64::new(0),
            turns: AtomicU64::new(0),
            tries: AtomicU64::new(0),
            waited: AtomicU64::new(0),
            sealed: AtomicU64::new(0),
            is_over: AtomicU64::new(0),
            begun: [
                AtomicU64::new(0),
                AtomicU64::new(0),
                AtomicU64::new(0),
                AtomicU64::new(0),
                AtomicU64::new(0),
                AtomicU64::new(0),
            ],
        }
    }

    /// The next step begins.
    pub fn go_to<R: Clock>(&self, rt: &R, step: u64) {
        self.mark(rt, place_of(step));
        self.step.store(step, Ordering::SeqCst);
    }

    /// The stage at that place begins, or the last one ends. A clock that fails tells 0.
    pub fn mark<R: Clock>(&self, rt: &R, place: usize)
        requires { place < 6 }
    {
        let nanos = match Instant::now(rt) {
            Ok(now) => nanos_between(self.since, now),
            Err(_) => 0,
        };
        self.begun[place].store(nanos, Ordering::SeqCst);
    }

    /// When the stage at that place ended: when the next one began to which the run came.
    pub fn end_of(&self, place: usize) -> u64 {
        for stage in place..STAGES {
            let nanos = self.begun[stage + 1].load(Ordering::SeqCst);
            if nanos > 0 {
                return nanos;
            }
        }
        0
    }

    /// The build has caught up.
    pub fn note_caught_up(&self, caught_up: CaughtUp) {
        let CaughtUp { waited, turns } = caught_up;
        self.turns.store(turns as u64, Ordering::SeqCst);
        if self.tries.load(Ordering::SeqCst) == 1 {
            self.waited.store(waited as u64, Ordering::SeqCst);
        }
    }
}
