ghost use Rattle.std.specs.Prelude.{◌≡◌, true, false, Some, IfErr, OnOk};
ghost use Rattle.script.specs.RaceDrafts.{MayComeNext, with_race_line};
ghost use Rattle.script.specs.RaceOrder.{name_of_line};

use crate::cause::Cause;
use crate::draft::Draft;
use crate::parse::first;
use crate::race::fitting::{misfit_behind, misfit_behind_in};
use crate::race::line::RaceLine;
use crate::race::parse::named;
use crate::race::{Build, RaceName, RaceScript, SessionStep};
use crate::record_error::RecordError;
use crate::{Explanation, Misfit, Table};
use keybytes::Cell;
use run_spool::SpoolChoice;
use std::alloc::Global;
use std::marker::Model;

/// What was read so far of the script of a race.
#[derive(Drop)]
pub struct RaceDraft {
    table: Option<(usize, Table)>,
    rows: Vec<Vec<Cell>>,
    choice: Option<SpoolChoice>,
    build: Option<Build>,
    steps: Vec<SessionStep>,
    /// Whether a record was read that isn't passed over.
    has_begun: bool,
    /// Whether `go` was read.
    has_gone: bool,
}

impl Model for RaceDraft {
    ghost use Rattle.std.specs.Prelude.{◌≡◌, false, None};
    ghost use Rattle.std.specs.Option.{option_to_list};
    ghost use Rattle.script.specs.RaceDrafts.{RaceDraftValue};

    ghost Value = { RaceDraftValue };

    ghost view = { λ draft. record {
      tables = option_to_list draft.table;
      rows = draft.rows.items;
      choices = option_to_list draft.choice;
      builds = option_to_list draft.build;
      steps = draft.steps.items;
      begun = draft.has_begun;
      gone = draft.has_gone;
    } };

    ghost invariant = { λ draft. draft.has_begun ≡ false → draft.table ≡ None };
}

impl RaceDraft {
    /// Whether a record of that name may come next.
    fn may_come(&self, name: RaceName) -> bool
        ensures yes { result ≡ true → MayComeNext self.now (Some name) }
        ensures no { result ≡ false → ¬ (MayComeNext self.now (Some name)) }
    {
        match name {
            RaceName::Table => !self.has_begun,
            RaceName::Row | RaceName::Go => !self.has_gone,
            RaceName::Spools => !self.has_gone && self.choice.is_none(),
            RaceName::Build => !self.has_gone && self.build.is_none(),
            RaceName::In => self.has_gone,
        }
    }

    /// Puts a line that may come next behind the others. The one error is want of memory.
    fn put(&mut self, number: usize, line: RaceLine) -> Result<(), Cause>
        requires { MayComeNext self.old (name_of_line line) }
        ensures ok { OnOk result (self.new ≡ with_race_line self.old number line) }
        ensures memory { IfErr result (λ cause. cause ≡ Cause.NoMemory) }
    {
        match line {
            RaceLine::PassedOver => return Ok(()),
            RaceLine::Table(table) => self.table = Some((number, table)),
            RaceLine::Row { cells } => self.rows.push(cells)?,
            RaceLine::Spools { choice } => self.choice = Some(choice),
            RaceLine::Build(build) => self.build = Some(build),
            RaceLine::Go => self.has_gone = true,
            RaceLine::In { session, command } => self.steps.push(SessionStep {
                number,
                session,
                command,
            })?,
        }
        self.has_begun = true;
        Ok(())
    }
}

impl Draft for RaceDraft {
    ghost use Rattle.script.specs.RaceDrafts.{IsRaceDraft};
    ghost use Rattle.script.specs.RaceScripts.{IsRaceScript, race_grammar};
    ghost use Rattle.script.specs.declared.race.name.RaceName.{RaceName};

    type Line = RaceLine;

    type Script = RaceScript;

    ghost Name = { RaceName };

    ghost grammar = { race_grammar };

    ghost has = { IsRaceDraft };

    ghost gives = { IsRaceScript };

    fn new(alloc: Global) -> RaceDraft {
        RaceDraft {
            table: None,
            rows: Vec::new(alloc),
            choice: None,
            build: None,
            steps: Vec::new(alloc),
            has_begun: false,
            has_gone: false,
        }
    }

    fn line(alloc: Global, fields: &[&str]) -> Result<RaceLine, RecordError> {
        let (first, parts) = first(fields)?;
        if first.starts_with('#') {
            return Ok(RaceLine::PassedOver);
        }
        match RaceName::read(first) {
            Some(name) => named(alloc, name, parts),
            None => Err(RecordError::Misspelled),
        }
    }

    fn misfit(alloc: Global, fields: &[&str]) -> Result<Option<Misfit>, RecordError> {
        let Some((first, parts)) = fields.split_first() else {
            let text = String::new(alloc);
            return Ok(Some(Misfit::UnknownInRace { text }));
        };
        if first.starts_with('#') {
            return Ok(None);
        }
        match RaceName::read(first) {
            Some(RaceName::In) => misfit_behind_in(alloc, parts),
            Some(name) => misfit_behind(alloc, name, parts),
            None => {
                let text = String::from_str(alloc, first)?;
                Ok(Some(Misfit::UnknownInRace { text }))
            }
        }
    }

    fn add(&mut self, number: usize, line: RaceLine) -> Result<(), Cause> {
        if let Some(name) = line.name()
            && !self.may_come(name)
        {
            return Err(Cause::Misplaced(name));
        }
        self.put(number, line)
    }

    fn missing(&self) -> Option<Explanation> {
        if self.table.is_none() {
            return Some(Explanation::Missing(RaceName::Table));
        }
        if self.build.is_none() {
            return Some(Explanation::Missing(RaceName::Build));
        }
        if !self.has_gone {
            return Some(Explanation::Missing(RaceName::Go));
        }
        None
    }

    fn finish(self) -> RaceScript {
        let RaceDraft {
            table,
            rows,
            choice,
            build,
            steps,
            has_begun: _,
            has_gone: _,
        } = self;
        match (table, build) {
            (Some((table_number, table)), Some(build)) => RaceScript {
                table_number,
                table,
                rows,
                choice: choice.unwrap_or(SpoolChoice::Plain),
                build,
                steps,
            },
            _ => unreachable!(),
        }
    }
}
