ghost use Rattle.std.specs.Prelude.{◌≡◌, true};
ghost use Rattle.script.specs.Lines.{name_of};
ghost use Rattle.script.specs.RaceLines.{as_command};
ghost use Rattle.script.specs.Shapes.{is_of_session};

use crate::{Command, Label};
use keybytes::{Cell, Rid};

/// What a session does on the table.
#[derive(Drop)]
pub enum SessionCommand {
    /// Begins the transaction that the label names from then on in this session.
    Begin {
        label: Label,
    },
    Insert {
        label: Label,
        cells: Vec<Cell>,
    },
    Update {
        label: Label,
        rid: Rid,
        cells: Vec<Cell>,
    },
    Delete {
        label: Label,
        rid: Rid,
    },
    /// Takes the transaction's newest write back.
    Undo {
        label: Label,
    },
    Commit {
        label: Label,
    },
}

impl SessionCommand {
    /// The command, which is one of a session.
    pub fn of(command: Command) -> SessionCommand
        requires { is_of_session (name_of command) ≡ true }
        ensures { as_command result ≡ command }
    {
        match command {
            Command::Begin { label } => SessionCommand::Begin { label },
            Command::Insert { label, cells } => SessionCommand::Insert { label, cells },
            Command::Update { label, rid, cells } => SessionCommand::Update { label, rid, cells },
            Command::Delete { label, rid } => SessionCommand::Delete { label, rid },
            Command::Undo { label } => SessionCommand::Undo { label },
            Command::Commit { label } => SessionCommand::Commit { label },
            _ => unreachable!(),
        }
    }
}
