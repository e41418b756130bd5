use crate::Spec;
use scan_range::Dealing;

/// The record `build`.
#[derive(Drop)]
pub struct Build {
    /// How many pages each spool may lease.
    pub quota: usize,
    pub dealing: Dealing,
    pub specs: Vec<Spec>,
}
