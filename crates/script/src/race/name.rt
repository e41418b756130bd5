ghost use Rattle.std.specs.Prelude.{◌≡◌, IfSome, IfNone};
ghost use Rattle.script.specs.RaceLines.{race_written};
ghost use Rattle.script.specs.RaceShapes.{race_parts, race_repeated};
ghost use Rattle.script.specs.declared.race.name.RaceName.{RaceName as Name};

use crate::{CommandName, Part};

/// The names of a race script's records.
#[derive(Clone, Copy)]
pub enum RaceName {
    Table,
    Row,
    Spools,
    Build,
    Go,
    In,
}

impl RaceName {
    pub fn read(text: &str) -> Option<RaceName>
        ensures known { IfSome result (λ name. text.now ≡ race_written name) }
        ensures unknown { IfNone result ((name : Name) → text.now ≡ race_written name → ⊥) }
    {
        match text {
            "table" => Some(RaceName::Table),
            "row" => Some(RaceName::Row),
            "spools" => Some(RaceName::Spools),
            "build" => Some(RaceName::Build),
            "go" => Some(RaceName::Go),
            "in" => Some(RaceName::In),
            _ => None,
        }
    }

    /// What the fields behind the name spell, one part each; of `in`, up to the name of the session's command.
    pub fn parts(self) -> &'static [Part]
        ensures { result.now ≡ race_parts self }
    {
        match self {
            RaceName::Table => CommandName::Table.parts(),
            RaceName::Row => CommandName::Row.parts(),
            RaceName::Spools => CommandName::Spools.parts(),
            RaceName::Build => &[Part::Number, Part::Dealing, Part::Spec],
            RaceName::Go => &[],
            RaceName::In => &[Part::Session, Part::SessionCommand],
        }
    }

    /// What any further fields spell, if there may be some.
    pub fn repeated(self) -> Option<Part>
        ensures { result ≡ race_repeated self }
    {
        match self {
            RaceName::Table => CommandName::Table.repeated(),
            RaceName::Row => CommandName::Row.repeated(),
            RaceName::Spools => CommandName::Spools.repeated(),
            RaceName::Build => Some(Part::Spec),
            RaceName::Go | RaceName::In => None,
        }
    }

    /// How its record is written.
    pub fn usage(self) -> &'static str {
        match self {
            RaceName::Table => "table,L,KIND,..",
            RaceName::Row => "row,CELL,..",
            RaceName::Spools => "spools,KIND",
            RaceName::Build => "build,Q,DEALING,SPEC,..",
            RaceName::Go => "go",
            RaceName::In => "in,S,COMMAND,..",
        }
    }

    /// Where its record stands.
    pub fn place(self) -> &'static str {
        match self {
            RaceName::Table => "a table comes first, and only once",
            RaceName::Row => "rows come before go",
            RaceName::Spools => "the kind of spools comes before go, and only once",
            RaceName::Build => "a build comes before go, and only once",
            RaceName::Go => "go comes only once",
            RaceName::In => "what sessions do comes behind go",
        }
    }
}
