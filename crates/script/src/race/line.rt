ghost use Rattle.std.specs.Prelude.{◌≡◌};
ghost use Rattle.script.specs.RaceOrder.{name_of_line};

use crate::Table;
use crate::race::{Build, RaceName, SessionCommand};
use keybytes::Cell;
use run_spool::SpoolChoice;

/// What a record of a race script turned out to be.
#[derive(Drop)]
pub enum RaceLine {
    /// A remark: its first field begins with `#`.
    PassedOver,
    Table(Table),
    Row {
        cells: Vec<Cell>,
    },
    Spools {
        choice: SpoolChoice,
    },
    Build(Build),
    Go,
    In {
        session: usize,
        command: SessionCommand,
    },
}

impl RaceLine {
    /// The name of its record, where that isn't passed over.
    pub fn name(&self) -> Option<RaceName>
        ensures { result ≡ name_of_line self.now }
    {
        match self {
            RaceLine::PassedOver => None,
            RaceLine::Table(_) => Some(RaceName::Table),
            RaceLine::Row { .. } => Some(RaceName::Row),
            RaceLine::Spools { .. } => Some(RaceName::Spools),
            RaceLine::Build(_) => Some(RaceName::Build),
            RaceLine::Go => Some(RaceName::Go),
            RaceLine::In { .. } => Some(RaceName::In),
        }
    }
}
