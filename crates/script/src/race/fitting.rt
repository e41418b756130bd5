//! Whether the fields behind the name of a race script's record fit it.
ghost use Rattle.std.specs.Prelude.{◌≡◌, IfOk, MatchOption};
ghost use Rattle.script.specs.Fields.{texts};
ghost use Rattle.script.specs.RaceMisfits.{TellsRaceMisfitBehind};
ghost use Rattle.script.specs.RaceShapes.{FitsRace};
ghost use Rattle.script.specs.declared.race.name.RaceName.TheVariants as race_name;

use crate::fields::session;
use crate::fitting::unfit;
use crate::race::RaceName;
use crate::record_error::RecordError;
use crate::{CommandName, Misfit, Part, Unfit};
use std::alloc::Global;

/// What is wrong with the fields behind a name other than `in`.
pub fn misfit_behind(
    alloc: Global,
    name: RaceName,
    fields: &[&str],
) -> Result<Option<Misfit>, RecordError>
    requires { ¬ (name ≡ race_name.In) }
    ensures { IfOk result (λ found. MatchOption found (FitsRace name (texts fields.now)) (TellsRaceMisfitBehind name (texts fields.now))) }
{
    match unfit(alloc, name.parts(), name.repeated(), 2, fields)? {
        None => Ok(None),
        Some(unfit) => Ok(Some(Misfit::BehindInRace { name, unfit })),
    }
}

/// What is wrong with a session's number, its command's name and the fields behind them.
pub fn misfit_behind_in(alloc: Global, fields: &[&str]) -> Result<Option<Misfit>, RecordError>
    ensures { IfOk result (λ found. MatchOption found (FitsRace race_name.In (texts fields.now)) (TellsRaceMisfitBehind race_name.In (texts fields.now))) }
{
    let Some((number, more)) = fields.split_first() else {
        return Ok(Some(before_command(Unfit::TooFew)));
    };
    if session(number).is_none() {
        let text = String::from_str(alloc, number)?;
        return Ok(Some(before_command(Unfit::Misspelled {
            field: 2,
            text,
            part: Part::Session,
        })));
    }
    let Some((command, parts)) = more.split_first() else {
        return Ok(Some(before_command(Unfit::TooFew)));
    };
    let Some(name) = CommandName::read_of_session(command) else {
        let text = String::from_str(alloc, command)?;
        return Ok(Some(before_command(Unfit::Misspelled {
            field: 3,
            text,
            part: Part::SessionCommand,
        })));
    };
    match unfit(alloc, name.parts(), name.repeated(), 4, parts)? {
        None => Ok(None),
        Some(unfit) => Ok(Some(Misfit::InSession { name, unfit })),
    }
}

fn before_command(unfit: Unfit) -> Misfit
    ensures { result ≡ Misfit.BehindInRace race_name.In unfit }
{
    Misfit::BehindInRace {
        name: RaceName::In,
        unfit,
    }
}
