/// How far a build is.
#[derive(Clone, Copy, PartialEq, Eq)]
pub enum Point {
    /// The worker has a copy of the page, whose pairs it didn't make yet.
    Scanned { worker: usize, page: u32 },
    /// The worker found no range any more, and closed its runs.
    Sealed { worker: usize },
    /// The pairs of the index are in order.
    Loaded { index: usize },
    /// The build begins to catch up with what was written, and tries the switch then, for the time of that number, from 1: again only where busy
    /// transactions kept the switch waiting. While the gate is asked sessions need no credit.
    Try { n: u32 },
}

/// Is told how far a build is, by a thread that holds no lock then. It may hold up who tells it.
pub trait Gate {
    fn at(&self, point: Point);

    /// Whether the range is dealt to the workers' threads. One that isn't is scanned by the first worker, once the threads have ended.
    fn deals(&self, _range: usize) -> bool {
        true
    }
}
