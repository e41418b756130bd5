ghost use Rattle.std.specs.Prelude.{◌≡◌, ℕ, IfOk, IfErr, IfSome, OnOk};
ghost use Rattle.std.specs.Io.KnownBytes.{IsAtEnd};
ghost use Rattle.script.specs.Explanations.{Explains};
ghost use Rattle.script.specs.Scripts.{AreGood, IsFirstBad, SpellsScript, script_grammar};

use crate::script_draft::ScriptDraft;
use crate::{CheckError, NumberedCommand, ScriptError, Table, reading};
use std::alloc::Global;
use std::io::{self, Read};

/// A script that can be run: its table, and what is to be done on it.
#[derive(Drop)]
pub struct Script {
    /// The number of the record `table`.
    pub table_number: usize,
    pub table: Table,
    pub commands: Vec<NumberedCommand>,
}

impl Script {
    /// Reads a script to its end, and then looks at its records.
    pub fn read<R: Read>(alloc: Global, reader: &mut R) -> Result<Script, ScriptError>
        ensures good { IfSome (R.remaining reader.old) (λ text. IfOk result (SpellsScript text)) }
        ensures bad { IfSome (R.remaining reader.old) (λ text. (number : ℕ) → result ≡ Err (ScriptError.Bad number) → IsFirstBad text number) }
        ensures end { OnOk result (IsAtEnd (R.remaining reader.new)) }
    {
        let text = read_text(alloc, reader)?;
        Script::parse(alloc, text.as_slice())
    }

    /// Looks at all records of a script. Records are numbered from 1, the ones that are passed over among them.
    pub fn parse(alloc: Global, text: &[u8]) -> Result<Script, ScriptError>
        ensures good { IfOk result (SpellsScript text.now) }
        ensures none_bad { OnOk result ((number : ℕ) → ¬ (IsFirstBad text.now number)) }
        ensures bad { (number : ℕ) → result ≡ Err (ScriptError.Bad number) → IsFirstBad text.now number }
        ensures no_other { (number other : ℕ) → result ≡ Err (ScriptError.Bad number) → IsFirstBad text.now other → other ≡ number }
    {
        reading::parse::<ScriptDraft>(alloc, text)
    }

    /// Looks at all records of a script, and answers how many there are, or what is wrong with the first bad one.
    pub fn check(alloc: Global, text: &[u8]) -> Result<usize, CheckError>
        ensures good { IfOk result (AreGood text.now) }
        ensures bad { IfErr result (Explains script_grammar text.now) }
    {
        reading::check::<ScriptDraft>(alloc, text)
    }
}

/// Reads the text of a script to its end.
pub fn read_text<R: Read>(alloc: Global, reader: &mut R) -> Result<Vec<u8>, ScriptError>
    ensures text { IfSome (R.remaining reader.old) (λ known. IfOk result (λ text. text.items ≡ known)) }
    ensures end { OnOk result (IsAtEnd (R.remaining reader.new)) }
    ensures unread { (number : ℕ) → result ≡ Err (ScriptError.Bad number) → ⊥ }
{
    let mut text = Vec::new(alloc);
    match reader.read_to_end(&mut text) {
        Ok(_) => Ok(text),
        Err(error) if error.kind() == io::ErrorKind::OutOfMemory => Err(ScriptError::NoMemory),
        Err(_) => Err(ScriptError::CannotRead),
    }
}
