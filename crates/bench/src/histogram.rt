//! How many calls took how long.
ghost use Rattle.std.specs.Prelude.{◌≡◌, ◌<◌, ◌≤◌, ◌↔◌};

use std::alloc::AllocError;

/// How many bins there are.
pub const BINS: usize = 9;

/// What the bins are of, in comma-separated records and in a table: the longest time in each, in microseconds in a record.
pub static NAMES: [(&str, &str); BINS] = [
    ("10", "10 us"),
    ("100", "100 us"),
    ("1000", "1 ms"),
    ("3000", "3 ms"),
    ("10000", "10 ms"),
    ("20000", "20 ms"),
    ("50000", "50 ms"),
    ("100000", "100 ms"),
    ("longer", "longer"),
];

/// How many calls took how long, in bins.
pub struct Histogram {
    pub counts: [u64; BINS],
}

impl Copy for Histogram {}

impl Clone for Histogram {
    fn clone(&self) -> Result<Histogram, AllocError> {
        Ok(*self)
    }
}

impl Histogram {
    pub const NONE: Histogram = Histogram { counts: [0; BINS] };

    /// Counts a call that took so many nanoseconds.
    pub fn note(&mut self, spent: u64) {
        let bin = bin_of(spent);
        self.counts[bin] = self.counts[bin].saturating_add(1);
    }

    /// Both together.
    pub fn and(self, other: Histogram) -> Histogram {
        let mut both = self;
        for bin in 0..BINS {
            both.counts[bin] = both.counts[bin].saturating_add(other.counts[bin]);
        }
        both
    }
}

/// The bin of a call that took so many nanoseconds.
fn bin_of(spent: u64) -> usize
    ensures there { result < 9 }
    ensures first { (result ≡ 0) ↔ (spent ≤ 10000) }
    ensures last { (result ≡ 8) ↔ (100000000 < spent) }
{
    match spent {
        0..=10_000 => 0,
        10_001..=100_000 => 1,
        100_001..=1_000_000 => 2,
        1_000_001..=3_000_000 => 3,
        3_000_001..=10_000_000 => 4,
        10_000_001..=20_000_000 => 5,
        20_000_001..=50_000_000 => 6,
        50_000_001..=100_000_000 => 7,
        _ => 8,
    }
}

/// How long calls of sessions that write took in a part of a run.
pub struct Waits {
    /// All of them: their waits for the lock and for the build are in it.
    pub calls: Histogram,
    /// Those that wait for the lock alone, as no write needs to be let through: they begin or commit a transaction.
    pub of_lock: Histogram,
}

impl Copy for Waits {}

impl Clone for Waits {
    fn clone(&self) -> Result<Waits, AllocError> {
        Ok(*self)
    }
}

impl Waits {
    pub const NONE: Waits = Waits {
        calls: Histogram::NONE,
        of_lock: Histogram::NONE,
    };

    /// Counts a call that took so many nanoseconds, and that may have waited for the build if it is a write.
    pub fn note(&mut self, spent: u64, is_write: bool) {
        self.calls.note(spent);
        if !is_write {
            self.of_lock.note(spent);
        }
    }

    /// Both together.
    pub fn and(self, other: Waits) -> Waits {
        Waits {
            calls: self.calls.and(other.calls),
            of_lock: self.of_lock.and(other.of_lock),
        }
    }
}
