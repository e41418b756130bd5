//! From the fields of a race script's record to what it asks for.
ghost use Rattle.std.specs.Prelude.{◌≡◌, ◌∷◌, true, IfOk};
ghost use Rattle.script.specs.Fields.{texts};
ghost use Rattle.script.specs.Lines.{SpellLine};
ghost use Rattle.script.specs.RaceLines.{as_command, race_written, SpellRaceLine};
ghost use Rattle.script.specs.RaceShapes.{FitsRace};
ghost use Rattle.script.specs.Shapes.{Fits, is_of_session, written};
ghost use Rattle.script.specs.declared.line.Line.TheVariants as line;
ghost use Rattle.script.specs.declared.race.name.RaceName.TheVariants as race_name;

use crate::CommandName;
use crate::fields::{each, session};
use crate::line::Line;
use crate::parse::{build, first, none, only_spools, table};
use crate::race::line::RaceLine;
use crate::race::{RaceName, SessionCommand};
use crate::record_error::RecordError;
use std::alloc::Global;

/// The line of that name with those fields behind it.
pub fn named(alloc: Global, name: RaceName, fields: &[&str]) -> Result<RaceLine, RecordError>
    ensures ok { IfOk result (λ line. SpellRaceLine (race_written name ∷ texts fields.now) line) }
    ensures refused { result ≡ Err RecordError.Misspelled → ¬ (FitsRace name (texts fields.now)) }
{
    match name {
        RaceName::Table => Ok(RaceLine::Table(table(alloc, fields)?)),
        RaceName::Row => Ok(RaceLine::Row {
            cells: each(alloc, fields)?,
        }),
        RaceName::Spools => Ok(RaceLine::Spools {
            choice: only_spools(fields)?,
        }),
        RaceName::Build => Ok(RaceLine::Build(build(alloc, fields)?)),
        RaceName::Go => {
            none(fields)?;
            Ok(RaceLine::Go)
        }
        RaceName::In => in_session(alloc, fields),
    }
}

/// The number of a session, and its command.
fn in_session(alloc: Global, fields: &[&str]) -> Result<RaceLine, RecordError>
    ensures ok { IfOk result (λ line. SpellRaceLine (race_written race_name.In ∷ texts fields.now) line) }
    ensures refused { result ≡ Err RecordError.Misspelled → ¬ (FitsRace race_name.In (texts fields.now)) }
{
    let (number, more) = first(fields)?;
    let session = session(number).ok_or(RecordError::Misspelled)?;
    let (command, parts) = first(more)?;
    let name = CommandName::read_of_session(command).ok_or(RecordError::Misspelled)?;
    Ok(RaceLine::In {
        session,
        command: session_command(alloc, name, parts)?,
    })
}

/// The session's command of that name with those fields behind it.
fn session_command(
    alloc: Global,
    which: CommandName,
    fields: &[&str],
) -> Result<SessionCommand, RecordError>
    requires { is_of_session which ≡ true }
    ensures ok { IfOk result (λ command. SpellLine (written which ∷ texts fields.now) (line.Command (as_command command))) }
    ensures refused { result ≡ Err RecordError.Misspelled → ¬ (Fits which (texts fields.now)) }
{
    match crate::parse::named(alloc, which, fields)? {
        Line::Command(command) => Ok(SessionCommand::of(command)),
        _ => unreachable!(),
    }
}
