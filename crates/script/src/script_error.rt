ghost use Rattle.std.specs.Prelude.{◌≡◌};
ghost use Rattle.script.specs.declared.script_error.ScriptError.TheVariants.{NoMemory};

use std::alloc::AllocFailed;
use std::fmt;

/// Why a script can't be run.
#[derive(Clone, Copy)]
pub enum ScriptError {
    CannotRead,
    NoMemory,
    /// With the number of the first bad record.
    Bad(usize),
}

impl fmt::Display for ScriptError {
    fn fmt<W: fmt::Write>(&self, f: &mut fmt::Formatter<W>) -> fmt::Result {
        match self {
            ScriptError::CannotRead => f.write_str("cannot be read"),
            ScriptError::NoMemory => f.write_str("no memory"),
            ScriptError::Bad(number) => write!(f, "record {number} is bad"),
        }
    }
}

impl<T: Drop> From<AllocFailed<T>> for ScriptError {
    ghost from_gives = { λ _ error. error ≡ NoMemory };

    fn from(_error: AllocFailed<T>) -> ScriptError {
        ScriptError::NoMemory
    }
}
