ghost use Rattle.std.specs.Prelude.{◌≡◌, ◌-◌};
ghost use Rattle.shell.specs.Counting.{worker_after};

use crate::asked::Asked;

/// What a worker of the build has done.
#[derive(Clone, Copy)]
pub struct WorkerCounts {
    /// How many copies were put for it.
    pub put: u64,
    /// How many of these it took.
    pub taken: u64,
    /// How many it had taken when it last sealed.
    pub sealed: u64,
}

impl WorkerCounts {
    pub const NONE: WorkerCounts = WorkerCounts {
        put: 0,
        taken: 0,
        sealed: 0,
    };

    /// How many copies wait for it.
    pub fn waiting(&self) -> u64
        ensures { result ≡ self.now.put - self.now.taken }
    {
        self.put.saturating_sub(self.taken)
    }

    /// How many it took since it last sealed.
    pub fn unsealed(&self) -> u64
        ensures { result ≡ self.now.taken - self.now.sealed }
    {
        self.taken.saturating_sub(self.sealed)
    }

    /// What it has done once such a command was answered by that number.
    pub fn after(self, asked: Asked, number: u64) -> WorkerCounts
        ensures { result ≡ worker_after self asked number }
    {
        let taken = self.taken.saturating_add(number);
        match asked {
            Asked::Scan { .. } => WorkerCounts {
                put: self.put.saturating_add(1),
                ..self
            },
            Asked::Digest { .. } => WorkerCounts { taken, ..self },
            Asked::Seal { .. } => WorkerCounts {
                taken,
                sealed: taken,
                ..self
            },
            _ => self,
        }
    }
}
