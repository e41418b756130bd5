use crate::{Misfit, RaceName};
use std::fmt;

/// What is wrong with a record.
#[derive(Drop)]
pub enum Explanation {
    /// Its bytes are no UTF-8.
    NotText,
    Misfit(Misfit),
    /// It may not come behind those before it. So it is told by that name.
    Misplaced(RaceName),
    /// There is no such record, and no record before was a table.
    NoTable,
    /// There is no such record, and none before had that name, which a race needs.
    Missing(RaceName),
}

impl fmt::Display for Explanation {
    fn fmt<W: fmt::Write>(&self, f: &mut fmt::Formatter<W>) -> fmt::Result {
        match self {
            Explanation::NotText => f.write_str("it is not UTF-8"),
            Explanation::Misfit(misfit) => write!(f, "{misfit}"),
            Explanation::Misplaced(name) => f.write_str(name.place()),
            Explanation::NoTable => f.write_str("no record is a table (table,L,KIND,..)"),
            Explanation::Missing(name) => {
                let usage = name.usage();
                write!(f, "a record is missing ({usage})")
            }
        }
    }
}
