//! How many entries of each index of a build wait, kept from one piece of the build to the next.
ghost use Rattle.std.specs.Prelude.{◌≡◌, ℕ, ◌<◌, None, get_or, if◌then◌else◌};
ghost use Rattle.kept_table.specs.Progresses.{unfed_at};

use crate::progress::left_of;
use builder_core::{Core, INDEXES_MAX, TableRings};
use prefix_spool::SpoolOfKind;
use std::marker::Model;

/// How many entries of each index of a build waited behind its last piece that caught up.
#[derive(Drop)]
pub(crate) struct Waits {
    of: [usize; INDEXES_MAX],
}

impl Model for Waits {
    ghost use Rattle.std.specs.Prelude.{ℕ, List};

    ghost Value = { List ℕ };

    ghost view = { λ waits. waits.of };
}

impl Waits {
    /// How many entries of each index of the build that runs were not fed.
    pub(crate) fn of_core<T: TableRings>(core: &Core<SpoolOfKind, T>) -> Waits
        ensures { (index : ℕ) → index < 8 → get_or result index 0 ≡ unfed_at core.now.live.heap.log core.now.live.build index }
    {
        let mut of = [0; INDEXES_MAX];
        for index in 0..INDEXES_MAX {
            of[index] = left_of(core, index);
        }
        Waits { of }
    }

    /// How many these are of one index.
    pub(crate) fn at(&self, index: usize) -> usize
        ensures { result ≡ get_or self.now index 0 }
    {
        match self.of.get(index) {
            Some(count) => *count,
            None => 0,
        }
    }
}

/// Forgets them where a build is over, or another one has started.
pub(crate) fn forget_if(waited: &mut Option<Waits>, over: bool)
    ensures { waited.new ≡ (if over then None else waited.old) }
{
    if over {
        *waited = None;
    }
}
