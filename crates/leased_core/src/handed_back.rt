use spool_ledger::Pool;

/// What comes back of the pages that the spools of a build leased, once they are given up.
#[derive(Drop)]
pub struct HandedBack {
    /// The build's pool; none where no build ran.
    pub pool: Option<Pool>,
    /// How many of its pages are missing.
    pub missing: usize,
}
