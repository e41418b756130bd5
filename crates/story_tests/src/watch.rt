//! What the threads of a build tell, and where they wait for one another.

use crew::{Gate, Point};
use std::sync::atomic::{AtomicBool, AtomicU64, Ordering};
use std::thread;

/// How often a thread that is held looks before it gives up.
const LOOKS: u32 = 10_000_000;

/// What two workers and the loads of up to two indexes told: the pages that were copied, page n as the bit of that
/// number, so that a page that is copied twice changes the bits above it; how many pages either worker copied; how
/// often either closed its runs; how often the pairs of either index were in order; and how many turns tried the
/// switch.
pub type Seen = [u64; 8];

/// Where these stand.
const PAGES: usize = 0;

const COPIES: usize = 1;

const SEALED: usize = 3;

const LOADED: usize = 5;

const TRIES: usize = 7;

/// Until when either of two workers is held at its first page.
pub struct Holds {
    /// How many pages the other worker has copied then; 0 holds nobody.
    pub until: [u64; 2],
    /// How often others may run from there on, so that what the other does with its last page is done.
    pub yields: u32,
    /// Whether who is held asks for an insert, and goes on only once the session has begun one since and has its
    /// answer. Then who tells that an index is loaded is held so too.
    pub is_asking: bool,
    /// For how many rounds of a session a try of the switch asks, before the build catches up, and which try.
    pub backlog: u64,
    pub asking_try: u32,
}

/// Nobody is held.
pub const FREE: Holds = Holds {
    until: [0, 0],
    yields: 0,
    is_asking: false,
    backlog: 0,
    asking_try: 1,
};

/// Keeps what is told, and holds either worker at its first page.
#[derive(Drop)]
pub struct Watch {
    until: [u64; 2],
    yields: u32,
    is_asking: bool,
    backlog: u64,
    asking_try: u32,
    /// Whether ranges are dealt to the threads of the workers.
    is_dealt: bool,
    counts: [AtomicU64; 8],
    /// How many rounds of inserts were asked for, and how many of these were answered.
    pub asked: AtomicU64,
    pub answered: AtomicU64,
    gave_up: AtomicBool,
    /// Whether the build has returned.
    pub is_over: AtomicBool,
}

impl Watch {
    pub fn new(holds: &Holds, is_dealt: bool) -> Watch {
        Watch {
            until: holds.until,
            yields: holds.yields,
            is_asking: holds.is_asking,
            backlog: holds.backlog,
            asking_try: holds.asking_try,
            is_dealt,
            counts: [
                AtomicU64::new(0),
                AtomicU64::new(0),
                AtomicU64::new(0),
                AtomicU64::new(0),
                AtomicU64::new(0),
                AtomicU64::new(0),
                AtomicU64::new(0),
                AtomicU64::new(0),
            ],
            asked: AtomicU64::new(0),
            answered: AtomicU64::new(0),
            gave_up: AtomicBool::new(false),
            is_over: AtomicBool::new(false),
        }
    }

    /// What was told; none where a thread gave up waiting.
    pub fn seen(&self) -> Option<Seen> {
        if self.gave_up.load(Ordering::SeqCst) {
            return None;
        }
        let mut seen: Seen = [0; 8];
        for number in 0..8 {
            seen[number] = self.counts[number].load(Ordering::SeqCst);
        }
        Some(seen)
    }

    /// Adds to a count, and answers what it was.
    fn add(&self, number: usize, more: u64) -> u64 {
        self.counts[number.min(7)].fetch_add(more, Ordering::SeqCst)
    }

    /// Holds the caller until the other of two workers has copied so many pages and, where that is wanted, an insert that
    /// began since was answered.
    pub fn hold(&self, other: usize, until: u64) {
        let insert = if self.is_asking { self.ask(1) } else { 0 };
        for _ in 0..LOOKS {
            thread::yield_now();
            if self.answered.load(Ordering::SeqCst) >= insert
                && self.counts[COPIES + other.min(1)].load(Ordering::SeqCst) >= until
            {
                return;
            }
        }
        self.gave_up.store(true, Ordering::SeqCst);
    }

    /// Asks for so many rounds more, and answers how many were asked for then.
    fn ask(&self, rounds: u64) -> u64 {
        self.asked
            .fetch_add(rounds, Ordering::SeqCst)
            .saturating_add(rounds)
    }

    /// Asks for the rounds that are to wait for the build, and holds the caller until they are answered, as long as they go on.
    fn hold_for_backlog(&self) {
        let first = self.answered.load(Ordering::SeqCst);
        let rounds = self.ask(self.backlog);
        for round in first..rounds {
            if !self.is_answered_behind(round) {
                self.gave_up.store(true, Ordering::SeqCst);
                return;
            }
        }
    }

    /// Waits until more than so many rounds are answered; whether they were before long.
    fn is_answered_behind(&self, round: u64) -> bool {
        for _ in 0..LOOKS {
            thread::yield_now();
            if self.answered.load(Ordering::SeqCst) > round {
                return true;
            }
        }
        false
    }
}

impl Gate for Watch {
    fn at(&self, point: Point) {
        match point {
            Point::Scanned { worker, page } => {
                self.add(PAGES, 1_u64.wrapping_shl(page));
                if self.add(COPIES + worker.min(1), 1) == 0 {
                    self.hold(usize::from(worker == 0), self.until[worker.min(1)]);
                    for _ in 0..self.yields {
                        thread::yield_now();
                    }
                }
            }
            Point::Sealed { worker } => {
                self.add(SEALED + worker.min(1), 1);
            }
            Point::Loaded { index } => {
                self.add(LOADED + index.min(1), 1);
                if self.is_asking {
                    self.hold(0, 0);
                }
            }
            Point::Try { n } => {
                self.add(TRIES, 1);
                if n == self.asking_try && self.backlog > 0 {
                    self.hold_for_backlog();
                }
            }
        }
    }

    fn deals(&self, _range: usize) -> bool {
        self.is_dealt
    }
}
