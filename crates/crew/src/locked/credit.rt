ghost use Rattle.std.specs.Prelude.{◌≡◌, ℕ, ◌<◌, ◌≤◌, ◌+◌, ◌^◌, max, min, true, false};
ghost use Rattle.crew.specs.Credits.{IsKnown, KeepsCredit, MayWrite};

/// Nobody waits for credit where fewer entries wait for the build.
const FLOOR: usize = 512;

/// What sessions may write beside a build that catches up: for two entries that it applied they may append one, and 512 beside these. So while more than
/// 1,024 wait, the build has taken at most twice as many as waited first, however quickly sessions write.
#[derive(Clone, Copy)]
pub(crate) struct Credit {
    /// How many entries waited when the build began to catch up, over all its indexes.
    pub first: usize,
    /// How many it took since.
    pub taken: usize,
    /// How many of these it is known to have applied.
    pub applied: usize,
    /// In how many turns it took them.
    pub turns: usize,
}

impl Credit {
    /// The credit of a build that begins to catch up, for which so many entries wait.
    pub fn new(waiting: usize) -> Credit
        ensures { result ≡ record { first = waiting; taken = 0; applied = 0; turns = 0 } }
    {
        Credit {
            first: waiting,
            taken: 0,
            applied: 0,
            turns: 0,
        }
    }

    /// Whether there is none for a write, where so many entries wait and a write may append two to each of so many indexes.
    pub fn is_spent(&self, waiting: usize, indexes: usize) -> bool
        ensures may { result ≡ false → (records : ℕ) → KeepsCredit waiting indexes records self.now → MayWrite waiting indexes records self.now }
        ensures spent { result ≡ true → (records : ℕ) → MayWrite waiting indexes records self.now → ⊥ }
        ensures some { result ≡ true → 512 ≤ waiting }
    {
        // Twice what sessions appended, and what a write may append, beside 1,024 and what was applied: all that was appended waits or was taken.
        let owed = 2 * waiting as u128 + 2 * self.taken as u128 + 4 * indexes as u128;
        waiting >= FLOOR && owed > 1_024 + self.applied as u128 + 2 * self.first as u128
    }

    /// Whether it is the one that a build knows.
    pub fn is_known(&self, known: Credit) -> bool
        ensures known { result ≡ true → IsKnown known self.now }
        ensures other { result ≡ false → IsKnown known self.now → ⊥ }
    {
        self.first == known.first && self.taken == known.taken && self.turns == known.turns
    }

    /// The same once a turn took so many more.
    pub fn after_taking(self, count: usize) -> Credit
        requires taken { self.taken + count < 2 ^ 64 }
        requires turns { self.turns + 1 < 2 ^ 64 }
        ensures { result ≡ record self { taken = self.taken + count; turns = self.turns + 1 } }
    {
        Credit {
            taken: self.taken + count,
            turns: self.turns + 1,
            ..self
        }
    }

    /// The same once so many were applied in all, as somebody says: no more than were taken, and no fewer than were known to be.
    pub fn once_applied(self, count: usize) -> Credit
        ensures { result ≡ record self { applied = max self.applied (min count self.taken) } }
    {
        Credit {
            applied: self.applied.max(count.min(self.taken)),
            ..self
        }
    }

    /// The same once all that were taken are applied.
    pub fn after_all(self) -> Credit
        ensures { result ≡ record self { applied = self.taken } }
    {
        Credit {
            applied: self.taken,
            ..self
        }
    }
}
