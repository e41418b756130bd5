ghost use Rattle.std.specs.Prelude.{◌≡◌, IsOk, IfOk, IfErr};
ghost use Rattle.heap_log.specs.Copies.{IsInline};

use keybytes::{Fault, Key, Rid};

/// The verdict on one index of a build.
#[derive(Drop)]
pub enum Outcome {
    /// The index is ready, under that number, from 0.
    Ready(usize),
    /// Rows share a key, so the index is refused: the least shared key, and the two least RIDs that have it.
    Shared { key: Key, first: Rid, second: Rid },
}

impl Outcome {
    /// A copy; only a key of more than 24 bytes takes memory for it.
    pub fn clone(&self) -> Result<Outcome, Fault>
        ensures same { IfOk result (λ outcome. outcome ≡ self.now) }
        ensures memory { IfErr result (λ fault. fault ≡ Fault.Memory) }
        ensures inline { IsInline self.now → IsOk result }
    {
        Ok(match self {
            Outcome::Ready(number) => Outcome::Ready(*number),
            Outcome::Shared { key, first, second } => Outcome::Shared {
                key: key.clone()?,
                first: *first,
                second: *second,
            },
        })
    }
}
