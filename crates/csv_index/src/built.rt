use heap_log::Verdicts;
use prefix_spool::{CountedSpool, SpoolOfKind};

/// What a build came to.
pub struct Built {
    pub verdicts: Verdicts,
    /// Its spools, in the order of the workers, and of each worker in that of the indexes.
    pub spools: Vec<CountedSpool<SpoolOfKind>>,
}

impl Drop for Built {
    fn drop(self) {
        let Built {
            verdicts: _,
            spools: _,
        } = self;
    }
}
