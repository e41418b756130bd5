//! What a core tells of the indexes of its build.
ghost use Rattle.std.specs.Prelude.{◌≡◌, is_some, count_by};
ghost use Rattle.build_events.specs.Workers.{unloaded_index};

use crate::{Core, TableRings};
use building::Work;
use run_spool::Spool;

impl<S: Spool, T: TableRings> Core<S, T> {
    /// The lowest index of the build whose pairs are not in order.
    pub fn first_unloaded(&self) -> Option<usize>
        ensures { result ≡ unloaded_index self.now.work }
    {
        match self.building.work() {
            Some(work) => work.first_unloaded(),
            None => None,
        }
    }

    /// How many indexes of the build have their pairs in order.
    pub fn loaded(&self) -> usize
        ensures { result ≡ count_by (λ index. index.loaded) self.now.work.indexes }
    {
        match self.building.work() {
            Some(work) => loaded_of(work),
            None => 0,
        }
    }
}

/// How many indexes of that work have their pairs in order.
fn loaded_of(work: &Work) -> usize
    ensures { result ≡ count_by (λ index. is_some index.built) work.now.indexes }
{
    let mut loaded = 0;
    for index in 0..work.indexes().len() {
        if work.is_loaded(index) {
            loaded += 1;
        }
    }
    loaded
}
