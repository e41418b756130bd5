/// How a run of the program ended; as a number, its exit status.
#[derive(Clone, Copy, Debug, PartialEq, Eq)]
pub enum Status {
    Done = 0,
    /// A switch refused an index.
    IndexRefused = 1,
    /// The words, the script, the table or the output failed.
    Failed = 2,
}
