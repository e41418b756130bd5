use crate::build_line::BuildLine;
use crate::wait::Wait;
use keybytes::Kind;

/// A record of the answer to `status`.
#[derive(Drop)]
pub enum StatusLine<'a> {
    /// There is no table yet.
    NoTable,
    Table {
        slot_limit: u32,
        pages: u32,
        /// How many records the log has.
        records: usize,
        /// How many transactions are open.
        open: u64,
        kinds: &'a [Kind],
    },
    OfBuild(BuildLine),
    Waits(Wait),
    Ready {
        number: usize,
        pairs: usize,
    },
}
