ghost use Rattle.std.specs.Prelude.{◌≡◌, ℕ, IfOk, IfErr, IfSome, OnOk};
ghost use Rattle.std.specs.Io.KnownBytes.{IsAtEnd};
ghost use Rattle.script.specs.Explanations.{Explains};
ghost use Rattle.script.specs.RaceScripts.{AreGoodOfRace, IsFirstBadOfRace, SpellsRaceScript, race_grammar};

use crate::race::draft::RaceDraft;
use crate::race::{Build, SessionStep};
use crate::{CheckError, ScriptError, Table, read_text, reading};
use keybytes::Cell;
use run_spool::SpoolChoice;
use std::alloc::Global;
use std::io::Read;

/// A race that can be run: a table, its rows, the kind of spools and a build, and what sessions do while it runs.
#[derive(Drop)]
pub struct RaceScript {
    /// The number of the record `table`.
    pub table_number: usize,
    pub table: Table,
    /// The rows that the table has first.
    pub rows: Vec<Vec<Cell>>,
    /// The kind of the spools of the build: plain where no record says another.
    pub choice: SpoolChoice,
    pub build: Build,
    /// What sessions do, in the order of the records; each session does its own in this order.
    pub steps: Vec<SessionStep>,
}

impl RaceScript {
    /// Reads a script to its end, and then looks at its records.
    pub fn read<R: Read>(alloc: Global, reader: &mut R) -> Result<RaceScript, ScriptError>
        ensures good { IfSome (R.remaining reader.old) (λ text. IfOk result (SpellsRaceScript text)) }
        ensures bad { IfSome (R.remaining reader.old) (λ text. (number : ℕ) → result ≡ Err (ScriptError.Bad number) → IsFirstBadOfRace text number) }
        ensures end { OnOk result (IsAtEnd (R.remaining reader.new)) }
    {
        let text = read_text(alloc, reader)?;
        RaceScript::parse(alloc, text.as_slice())
    }

    /// Looks at all records of a script. Records are numbered from 1, the ones that are passed over among them.
    pub fn parse(alloc: Global, text: &[u8]) -> Result<RaceScript, ScriptError>
        ensures good { IfOk result (SpellsRaceScript text.now) }
        ensures none_bad { OnOk result ((number : ℕ) → ¬ (IsFirstBadOfRace text.now number)) }
        ensures bad { (number : ℕ) → result ≡ Err (ScriptError.Bad number) → IsFirstBadOfRace text.now number }
        ensures no_other { (number other : ℕ) → result ≡ Err (ScriptError.Bad number) → IsFirstBadOfRace text.now other → other ≡ number }
    {
        reading::parse::<RaceDraft>(alloc, text)
    }

    /// Looks at all records of a script, and answers how many there are, or what is wrong with the first bad one.
    pub fn check(alloc: Global, text: &[u8]) -> Result<usize, CheckError>
        ensures good { IfOk result (AreGoodOfRace text.now) }
        ensures bad { IfErr result (Explains race_grammar text.now) }
    {
        reading::check::<RaceDraft>(alloc, text)
    }
}
