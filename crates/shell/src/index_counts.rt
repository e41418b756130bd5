ghost use Rattle.std.specs.Prelude.{◌≡◌, ◌-◌};
ghost use Rattle.shell.specs.Counting.{index_after};

use crate::asked::Asked;

/// What was done for an index of the build.
#[derive(Clone, Copy)]
pub struct IndexCounts {
    /// Whether its pairs are in order.
    pub is_loaded: bool,
    /// How many entries of its side-file were fed and applied.
    pub fed: u64,
    pub applied: u64,
}

impl IndexCounts {
    pub const NONE: IndexCounts = IndexCounts {
        is_loaded: false,
        fed: 0,
        applied: 0,
    };

    /// How many entries wait in its ring.
    pub fn in_ring(&self) -> u64
        ensures { result ≡ self.now.fed - self.now.applied }
    {
        self.fed.saturating_sub(self.applied)
    }

    /// What was done for it once such a command was answered by that number.
    pub fn after(self, asked: Asked, number: u64) -> IndexCounts
        ensures { result ≡ index_after self asked number }
    {
        match asked {
            Asked::Load { .. } => IndexCounts {
                is_loaded: true,
                ..self
            },
            Asked::Feed { .. } => IndexCounts {
                fed: self.fed.saturating_add(number),
                ..self
            },
            Asked::Apply { .. } => IndexCounts {
                applied: self.applied.saturating_add(number),
                ..self
            },
            _ => self,
        }
    }
}
