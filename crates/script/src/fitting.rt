//! Whether the fields behind a name fit it.
ghost use Rattle.std.specs.Prelude.{◌≡◌, ◌≤◌, IfOk, MatchOption};
ghost use Rattle.script.specs.Fields.{texts};
ghost use Rattle.script.specs.Misfits.{TellsMisfitBehind, TellsUnfit};
ghost use Rattle.script.specs.Shapes.{Fit, Fits, part_at};

use crate::record_error::RecordError;
use crate::{CommandName, Misfit, Part, Unfit};
use std::alloc::Global;

/// What is wrong with the fields behind the name of a command.
pub fn misfit_behind(
    alloc: Global,
    name: CommandName,
    fields: &[&str],
) -> Result<Option<Misfit>, RecordError>
    ensures { IfOk result (λ found. MatchOption found (Fits name (texts fields.now)) (TellsMisfitBehind name (texts fields.now))) }
{
    match unfit(alloc, name.parts(), name.repeated(), 2, fields)? {
        None => Ok(None),
        Some(unfit) => Ok(Some(Misfit::Behind { name, unfit })),
    }
}

/// In which way the fields don't fit the parts, if they don't, where the first of them has that number in its record.
/// Fields behind the last part are to spell the repeated one.
pub fn unfit(
    alloc: Global,
    parts: &[Part],
    repeated: Option<Part>,
    first: usize,
    fields: &[&str],
) -> Result<Option<Unfit>, RecordError>
    requires { first ≤ 4 }
    ensures { IfOk result (λ found. MatchOption found (Fit parts.now repeated (texts fields.now)) (TellsUnfit parts.now repeated first (texts fields.now))) }
{
    for (place, field) in fields.iter().enumerate() {
        let Some(part) = part_at(parts, repeated, place) else {
            return Ok(Some(Unfit::TooMany));
        };
        if !part.accepts(alloc, field)? {
            let text = String::from_str(alloc, field)?;
            return Ok(Some(Unfit::Misspelled {
                field: first + place,
                text,
                part,
            }));
        }
    }
    if fields.len() < parts.len() {
        return Ok(Some(Unfit::TooFew));
    }
    Ok(None)
}

/// What the field at that place is to spell, if there may be one; places begin with 0.
fn part_at(parts: &[Part], repeated: Option<Part>, place: usize) -> Option<Part>
    ensures { result ≡ part_at parts.now repeated place }
{
    match parts.get(place) {
        Some(part) => Some(*part),
        None => repeated,
    }
}
