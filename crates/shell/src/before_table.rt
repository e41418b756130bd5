use builder_core::Parts;

/// What comes behind a record while there is no table.
#[derive(Drop)]
pub enum BeforeTable {
    /// The next record: there is still no table.
    NoTable,
    /// A table was made, of that slot limit.
    Made { slot_limit: u32, parts: Parts },
    /// The conversation is to end.
    Quits,
}
