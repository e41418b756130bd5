ghost use Rattle.catch_up.specs.Applying.{Applies};

use crate::Built;
use keybytes::Fault;
use side_file::EntryEnd;

/// Takes the first entries out of the ring, and applies those of the index's build: at most `k`, and fewer only where the ring has
/// no more. Answers how many it took. On `Memory` those that were applied are taken, and the rest is in the ring. Each costs one
/// way down the tree.
pub fn apply(built: &mut Built, end: &mut EntryEnd, k: usize) -> Result<usize, Fault>
    ensures { Applies k built.old end.old result built.new end.new }
{
    let count = k.min(end.look());
    for _ in 0..count {
        built.take_next(end)?;
    }
    Ok(count)
}
