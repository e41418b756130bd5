/// A page that a build copied, and when: how long the table's log was then tells which changes the copy shows.
#[derive(Clone, Copy)]
pub struct Scan {
    /// The worker that it was copied for.
    pub worker: usize,
    /// Its number.
    pub page: u32,
    /// How many records the log had at that moment.
    pub records: usize,
}
