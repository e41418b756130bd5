/// What `status` tells of the build, but for its waits.
#[derive(Drop)]
pub enum BuildLine {
    NoBuild,
    Build {
        phase: &'static str,
        scanned: u64,
        pages: u64,
    },
    Worker {
        worker: usize,
        /// How many copies wait for it, and how many it took since it last sealed.
        waiting: u64,
        unsealed: u64,
    },
    Index {
        index: usize,
        is_loaded: bool,
        /// How many entries of its side-file aren't fed, and how many wait in its ring.
        unfed: u64,
        in_ring: u64,
    },
}
