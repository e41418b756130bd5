/// Where a closed run stands among those of several spools.
#[derive(Clone, Copy)]
pub(crate) struct Place {
    pub(crate) spool: usize,
    /// Its number in that spool.
    pub(crate) run: usize,
}
