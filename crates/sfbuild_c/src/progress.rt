ghost use Rattle.std.specs.Prelude.{◌≡◌};
ghost use Rattle.sfbuild_c.specs.Places.{progress_of};

use kept_table::Progress;

/// How far a build is, as C sees it.
#[repr(C)]
#[derive(Clone, Copy)]
pub struct ProgressOf {
    pub running: bool,
    pub pages: u32,
    pub scanned: u32,
    pub indexes: usize,
    pub loaded: usize,
    pub waiting: usize,
}

impl ProgressOf {
    pub(crate) fn of(progress: Progress) -> ProgressOf
        ensures { result ≡ progress_of progress }
    {
        ProgressOf {
            running: progress.running,
            pages: progress.pages,
            scanned: progress.scanned,
            indexes: progress.indexes,
            loaded: progress.loaded,
            waiting: progress.waiting,
        }
    }
}
