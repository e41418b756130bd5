ghost use Rattle.std.specs.Prelude.{◌≡◌, IfOk, IsOk, true, false};
ghost use Rattle.script.specs.Shapes.{IsSpelled};

use crate::fields::{dealing, number, rid, session, spools};
use crate::label::is_label;
use crate::record_error::RecordError;
use crate::spelled::Spelled;
use crate::{CommandName, Spec};
use keybytes::{Cell, Kind};
use std::alloc::Global;
use std::fmt;

/// What one field of a record spells.
#[derive(Clone, Copy)]
pub enum Part {
    Number,
    Label,
    Rid,
    Cell,
    Kind,
    Dealing,
    Spec,
    Spools,
    Session,
    /// The name of a command that a session may have.
    SessionCommand,
}

impl Part {
    /// Whether the text is spelled as the part is.
    pub fn accepts(self, alloc: Global, text: &str) -> Result<bool, RecordError>
        ensures spelled { result ≡ Ok true → IsSpelled self text.now }
        ensures misspelled { result ≡ Ok false → ¬ (IsSpelled self text.now) }
    {
        match self {
            Part::Number => Ok(number(text).is_some()),
            Part::Label => Ok(is_label(text)),
            Part::Rid => is_good(rid(text)),
            Part::Cell => is_good(Cell::spelled(alloc, text)),
            Part::Kind => is_good(Kind::spelled(alloc, text)),
            Part::Dealing => is_good(dealing(alloc, text)),
            Part::Spec => is_good(Spec::spelled(alloc, text)),
            Part::Spools => Ok(spools(text).is_some()),
            Part::Session => Ok(session(text).is_some()),
            Part::SessionCommand => Ok(CommandName::read_of_session(text).is_some()),
        }
    }
}

/// Whether what was read is good; want of memory stays an error.
fn is_good<T: Drop>(read: Result<T, RecordError>) -> Result<bool, RecordError>
    ensures good { result ≡ Ok true → IsOk read }
    ensures bad { result ≡ Ok false → read ≡ Err RecordError.Misspelled }
{
    match read {
        Ok(_) => Ok(true),
        Err(RecordError::Misspelled) => Ok(false),
        Err(error) => Err(error),
    }
}

impl fmt::Display for Part {
    fn fmt<W: fmt::Write>(&self, f: &mut fmt::Formatter<W>) -> fmt::Result {
        f.write_str(match self {
            Part::Number => "number (decimal digits, at most 4294967295)",
            Part::Label => "label (1 to 16 ASCII letters and digits)",
            Part::Rid => "RID (a page and a slot, as 12.3)",
            Part::Cell => "cell (~, a number, =text, true or false)",
            Part::Kind => "kind (int, text or flag)",
            Part::Dealing => "dealing (ends of ranges, as 4;8, or their number, as even:2)",
            Part::Spec => {
                "spec (n: or u: and columns, with d behind one that descends, as n:0;2d, and maybe a condition, as n:0?1=true, \
                n:0?1<5 or n:0?1~)"
            }
            Part::Spools => "kind of spools (plain, prefix or mixed)",
            Part::Session => "session (1 to 8)",
            Part::SessionCommand => {
                "command of a session (begin, insert, update, delete, commit or undo)"
            }
        })
    }
}
