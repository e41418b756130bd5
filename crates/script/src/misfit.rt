use crate::excerpt::Excerpt;
use crate::{CommandName, RaceName, Unfit};
use std::fmt;

/// What is wrong with the fields of a record.
#[derive(Drop)]
pub enum Misfit {
    /// The first is this text, which names no command.
    UnknownCommand { text: String },
    /// The first is this text, which names no record of a race.
    UnknownInRace { text: String },
    /// Those behind the name don't fit it.
    Behind { name: CommandName, unfit: Unfit },
    /// The same in a race; behind `in`, of those up to the name of the session's command.
    BehindInRace { name: RaceName, unfit: Unfit },
    /// Those behind the name of a session's command don't fit it.
    InSession { name: CommandName, unfit: Unfit },
}

/// The names of all commands.
const NAMES: &str =
    "table, row, begin, insert, update, delete, undo, commit, get, spools, start, scan, digest, seal, load, feed, \
    apply, fence, switch, abandon, side, pairs or rest";

/// The names of all records of a race.
const RACE_NAMES: &str = "table, row, spools, build, go or in";

impl fmt::Display for Misfit {
    fn fmt<W: fmt::Write>(&self, f: &mut fmt::Formatter<W>) -> fmt::Result {
        match self {
            Misfit::UnknownCommand { text } => write_unknown(f, text, NAMES),
            Misfit::UnknownInRace { text } => write_unknown(f, text, RACE_NAMES),
            Misfit::Behind { name, unfit } => write_unfit(f, unfit, "", name.usage()),
            Misfit::BehindInRace { name, unfit } => write_unfit(f, unfit, "", name.usage()),
            Misfit::InSession { name, unfit } => write_unfit(f, unfit, "in,S,", name.usage()),
        }
    }
}

/// Says that a text is none of these names.
fn write_unknown<W: fmt::Write>(f: &mut fmt::Formatter<W>, text: &str, names: &str) -> fmt::Result {
    let text = Excerpt(text);
    write!(f, "field 1, {text}, is no command ({names})")
}

/// Says in which way the fields of a record are unfit that is written so.
fn write_unfit<W: fmt::Write>(
    f: &mut fmt::Formatter<W>,
    unfit: &Unfit,
    front: &str,
    usage: &str,
) -> fmt::Result {
    match unfit {
        Unfit::TooFew => write!(f, "it has too few fields ({front}{usage})"),
        Unfit::TooMany => write!(f, "it has too many fields ({front}{usage})"),
        Unfit::Misspelled { field, text, part } => {
            let text = Excerpt(text);
            write!(f, "field {field}, {text}, is no {part}")
        }
    }
}
