use crate::{Command, Table};

/// What a record of a script turned out to be.
#[derive(Drop)]
pub enum Line {
    /// A remark: its first field begins with `#`.
    PassedOver,
    Table(Table),
    Command(Command),
}
