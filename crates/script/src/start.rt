use crate::Spec;
use scan_range::Dealing;

/// The record `start`: a build.
#[derive(Drop)]
pub struct Start {
    pub workers: usize,
    /// How many pages each spool may lease.
    pub quota: usize,
    pub dealing: Dealing,
    pub specs: Vec<Spec>,
}
