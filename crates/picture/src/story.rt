ghost use Rattle.std.specs.Prelude.{◌≡◌, ◌+◌, vec_len, OnOk, IfOk};

use crate::deed::Deed;
use crate::failure::Failure;
use crate::lanes::Lanes;
use crate::record_text::RecordText;
use crate::teller::Teller;
use crate::timeline_svg::{Row, Timeline};
use builder_core::{Core, TableRings};
use keybytes::Fault;
use prefix_spool::SpoolOfKind;
use replay::Answer;
use script::Command;
use std::alloc::Global;

/// What was seen of a script's run so far: a row for each record.
#[derive(Drop)]
pub struct Story {
    teller: Teller,
    rows: Vec<Row>,
}

impl Story {
    /// Nothing was seen yet of these records.
    pub fn new(alloc: Global, lanes: Lanes, texts: Vec<RecordText>) -> Result<Story, Failure>
        ensures { IfOk result (λ story. vec_len story.rows ≡ 0) }
    {
        Ok(Story {
            teller: Teller::new(alloc, lanes, texts)?,
            rows: Vec::new(alloc),
        })
    }

    /// The table was made, or refused.
    pub fn table(&mut self, refused: Option<Fault>) -> Result<(), Failure>
        ensures { OnOk result (vec_len self.new.rows ≡ vec_len self.old.rows + 1) }
    {
        let row = self.teller.table(refused)?;
        self.rows.push(row)?;
        Ok(())
    }

    /// Looks at the table before a command, and answers what the command is to do.
    pub fn before<T: TableRings>(
        &mut self,
        core: &Core<SpoolOfKind, T>,
        command: &Command,
    ) -> Result<Deed, Failure>
        ensures { self.new.rows ≡ self.old.rows }
    {
        self.teller.before(core, command)
    }

    /// Looks at the table behind a command that was answered so.
    pub fn after<T: TableRings>(
        &mut self,
        core: &Core<SpoolOfKind, T>,
        deed: &Deed,
        answer: &Answer,
    ) -> Result<(), Failure>
        ensures { OnOk result (vec_len self.new.rows ≡ vec_len self.old.rows + 1) }
    {
        let row = self.teller.after(core, deed, answer)?;
        self.rows.push(row)?;
        Ok(())
    }

    /// The timeline of what was seen.
    pub fn into_timeline(self, title: &str) -> Result<Timeline, Failure>
        ensures { IfOk result (λ timeline. timeline.rows ≡ self.rows) }
    {
        let Story { teller, rows } = self;
        teller.into_timeline(title, rows)
    }
}
