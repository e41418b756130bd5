ghost use Rattle.std.specs.Prelude.{◌≡◌, ◌≤◌};

/// What the build of a table does.
#[derive(Clone, Copy, PartialEq, Eq)]
pub enum Phase {
    /// No build runs.
    Idle,
    /// The workers copy pages and make their pairs.
    Scanning,
    /// The pairs of the indexes are put in order.
    Loading,
    /// What was written meanwhile is fed and applied, and the switch is tried.
    CatchingUp,
}

/// How far the build of a table is, as it was in one hold of the table's lock. But for `busy` and `waiting`, all is 0 where no build runs.
#[derive(Clone, Copy, PartialEq, Eq)]
pub struct Progress {
    pub phase: Phase,
    /// The pages that the build copies: those that the table had when it started.
    pub pages: u32,
    /// How many of these are copied.
    pub scanned: u32,
    /// How many indexes have their pairs in order, which is counted once the loads of all are done.
    pub loaded: usize,
    /// How many pairs that were, in all these indexes together.
    pub pairs: usize,
    /// How many changes of keys, in all indexes together, were written behind the scans and aren't applied yet; those that a turn applies are
    /// counted until the next one begins.
    pub entries: usize,
    /// How often the build has begun to catch up and to try the switch: again only where busy transactions kept the switch waiting.
    pub tries: u32,
    /// How many open transactions have a write that stands. The switch of a unique index waits for them.
    pub busy: usize,
    /// How many sessions wait until the build has applied more of what was written; those that were woken and don't have the lock yet are counted.
    pub waiting: usize,
    ghost within: { scanned ≤ pages },
}

impl Progress {
    /// No build runs.
    pub(crate) fn idle() -> Progress {
        Progress::with_pages(Phase::Idle, 0)
    }

    /// A build has started that copies so many pages.
    pub(crate) fn started(pages: u32) -> Progress {
        Progress::with_pages(Phase::Scanning, pages)
    }

    fn with_pages(phase: Phase, pages: u32) -> Progress {
        Progress {
            phase,
            pages,
            scanned: 0,
            loaded: 0,
            pairs: 0,
            entries: 0,
            tries: 0,
            busy: 0,
            waiting: 0,
        }
    }

    /// Another page is copied. Each is copied once.
    pub(crate) fn note_page(&mut self) {
        if self.scanned < self.pages {
            self.scanned += 1;
        }
    }

    /// Another index has its pairs in order, which are so many.
    pub(crate) fn note_loaded(&mut self, pairs: usize) {
        self.loaded = self.loaded.saturating_add(1);
        self.pairs = self.pairs.saturating_add(pairs);
    }

    /// So many changes of keys more wait in a ring to be applied.
    pub(crate) fn note_fed(&mut self, count: usize) {
        self.entries = self.entries.saturating_add(count);
    }

    /// All of these were applied.
    pub(crate) fn note_settled(&mut self) {
        self.entries = 0;
    }

    /// The try of that number begins.
    pub(crate) fn note_try(&mut self, n: u32) {
        self.phase = Phase::CatchingUp;
        self.tries = n;
    }

    /// All pages are copied, and their pairs are put in order next.
    pub(crate) fn note_scanned(&mut self) {
        self.phase = Phase::Loading;
    }
}
