use crate::cause::Cause;
use crate::draft::Draft;
use crate::fitting::misfit_behind;
use crate::line::Line;
use crate::parse::{first, named};
use crate::race::RaceName;
use crate::record_error::RecordError;
use crate::{CommandName, Explanation, Misfit, NumberedCommand, Script, Table};
use std::alloc::Global;
use std::marker::Model;

/// What was read so far of a script that is replayed. Contracts see the record `table` and the commands.
#[derive(Drop)]
pub struct ScriptDraft {
    table: Option<(usize, Table)>,
    commands: Vec<NumberedCommand>,
}

impl Model for ScriptDraft {
    ghost use Rattle.script.specs.Drafts.{DraftValue};

    ghost Value = { DraftValue };

    ghost view = { λ draft. record { table = draft.table; commands = draft.commands.items } };
}

impl Draft for ScriptDraft {
    ghost use Rattle.script.specs.Drafts.{IsDraft};
    ghost use Rattle.script.specs.Scripts.{IsScript, script_grammar};
    ghost use Rattle.script.specs.declared.command_name.CommandName.{CommandName};

    type Line = Line;

    type Script = Script;

    ghost Name = { CommandName };

    ghost grammar = { script_grammar };

    ghost has = { IsDraft };

    ghost gives = { IsScript };

    fn new(alloc: Global) -> ScriptDraft {
        ScriptDraft {
            table: None,
            commands: Vec::new(alloc),
        }
    }

    fn line(alloc: Global, fields: &[&str]) -> Result<Line, RecordError> {
        let (first, parts) = first(fields)?;
        if first.starts_with('#') {
            return Ok(Line::PassedOver);
        }
        match CommandName::read(first) {
            Some(name) => named(alloc, name, parts),
            None => Err(RecordError::Misspelled),
        }
    }

    fn misfit(alloc: Global, fields: &[&str]) -> Result<Option<Misfit>, RecordError> {
        let Some((first, parts)) = fields.split_first() else {
            let text = String::new(alloc);
            return Ok(Some(Misfit::UnknownCommand { text }));
        };
        if first.starts_with('#') {
            return Ok(None);
        }
        match CommandName::read(first) {
            Some(name) => misfit_behind(alloc, name, parts),
            None => {
                let text = String::from_str(alloc, first)?;
                Ok(Some(Misfit::UnknownCommand { text }))
            }
        }
    }

    /// A record `table` is misplaced unless it is the first that counts.
    fn add(&mut self, number: usize, line: Line) -> Result<(), Cause> {
        match line {
            Line::PassedOver => Ok(()),
            Line::Table(table) => {
                if self.table.is_some() || !self.commands.is_empty() {
                    return Err(Cause::Misplaced(RaceName::Table));
                }
                self.table = Some((number, table));
                Ok(())
            }
            Line::Command(command) => {
                self.commands.push(NumberedCommand { number, command })?;
                Ok(())
            }
        }
    }

    fn missing(&self) -> Option<Explanation> {
        if self.table.is_none() {
            return Some(Explanation::NoTable);
        }
        None
    }

    fn finish(self) -> Script {
        let ScriptDraft { table, commands } = self;
        match table {
            Some((table_number, table)) => Script {
                table_number,
                table,
                commands,
            },
            None => unreachable!(),
        }
    }
}
