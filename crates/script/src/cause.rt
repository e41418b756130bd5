ghost use Rattle.std.specs.Prelude.{◌≡◌};
ghost use Rattle.script.specs.Causes.{error_at, record_cause};
ghost use Rattle.script.specs.declared.cause.Cause.TheVariants.{NoMemory};

use crate::ScriptError;
use crate::race::RaceName;
use crate::record_error::RecordError;
use std::alloc::AllocFailed;

/// Why the reading of a script stopped at a record.
#[derive(Clone, Copy)]
pub enum Cause {
    /// Its bytes are no UTF-8.
    NotText,
    /// It is not spelled as a record is.
    Misspelled,
    /// It may not come behind those before it. So it is told by that name.
    Misplaced(RaceName),
    NoMemory,
    CannotRead,
}

impl Cause {
    /// The error of a script whose record of that number was not taken.
    pub fn at(self, number: usize) -> ScriptError
        ensures { result ≡ error_at number self }
    {
        match self {
            Cause::NotText | Cause::Misspelled | Cause::Misplaced(_) => ScriptError::Bad(number),
            Cause::NoMemory => ScriptError::NoMemory,
            Cause::CannotRead => ScriptError::CannotRead,
        }
    }
}

impl From<RecordError> for Cause {
    ghost from_gives = { λ error cause. cause ≡ record_cause error };

    fn from(error: RecordError) -> Cause {
        match error {
            RecordError::Misspelled => Cause::Misspelled,
            RecordError::NoMemory => Cause::NoMemory,
        }
    }
}

impl<T: Drop> From<AllocFailed<T>> for Cause {
    ghost from_gives = { λ _ cause. cause ≡ NoMemory };

    fn from(_error: AllocFailed<T>) -> Cause {
        Cause::NoMemory
    }
}
