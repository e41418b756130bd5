ghost use Rattle.std.specs.Prelude.{◌≤◌, ◌<◌};

use crate::column::Column;
use crate::condition::Condition;
use run_spool::SpoolChoice;

/// What is to be measured.
pub struct Options {
    /// How many rows the table has.
    pub rows: u32,
    /// Its columns.
    pub columns: Vec<Column>,
    /// How many indexes the build makes.
    pub indexes: u32,
    /// Whether rows may not share a key of any of them.
    pub unique: bool,
    /// What a row has to meet to be in them; in indexes without a condition each row is.
    pub condition: Option<Condition>,
    /// How many workers make their pairs.
    pub workers: usize,
    /// How many updates are made before the build, and as many while its pages are copied.
    pub writes: u32,
    /// Where the runs of their pairs are kept.
    pub spools: SpoolChoice,
    /// What the rows are drawn by.
    pub seed: u64,
    /// Whether the workers are in threads of their own.
    pub threads: bool,
    /// How many sessions fill the table, where the workers are in threads.
    pub sessions: u32,
    /// How many sessions write beside the build.
    pub writers: u32,
    /// How many microseconds a writer waits between its transactions.
    pub pause: u32,
    /// Whether the figures are printed as comma-separated records.
    pub csv: bool,
    pub ghost some: { 0 < workers },
    pub ghost most: { workers ≤ 16 },
}

impl Drop for Options {
    fn drop(self) {
        let Options {
            rows: _,
            columns: _,
            indexes: _,
            unique: _,
            condition: _,
            workers: _,
            writes: _,
            spools: _,
            seed: _,
            threads: _,
            sessions: _,
            writers: _,
            pause: _,
            csv: _,
        } = self;
    }
}
