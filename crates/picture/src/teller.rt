ghost use Rattle.std.specs.Prelude.{◌≡◌, IfOk};
ghost use Rattle.picture.specs.Sights.{side_seen};

use crate::deed::Deed;
use crate::failure::Failure;
use crate::lanes::Lanes;
use crate::lasting::Lasting;
use crate::record_text::RecordText;
use crate::sides::{counts, mark_added};
use crate::sight::Sight;
use crate::timeline_svg::{Gain, Mark, MarkKind, Row, RowKind, Side, Timeline};
use crate::words::refusal;
use builder_core::{Core, TableRings};
use keybytes::{Fault, Rid};
use prefix_spool::SpoolOfKind;
use replay::Answer;
use script::Command;
use std::alloc::Global;
use std::mem;

/// What is known of a script's run, to tell its next record by.
#[derive(Drop)]
pub struct Teller {
    pub(crate) alloc: Global,
    pub(crate) lanes: Lanes,
    texts: Vec<RecordText>,
    pub(crate) lasting: Lasting,
    pub(crate) gains: Vec<Gain>,
    /// What is known of the build that runs.
    pub(crate) sight: Option<Sight>,
    /// How many entries each of its side-files had before the command.
    pub(crate) sides: Vec<usize>,
    /// The place of the next row.
    pub(crate) row: usize,
}

impl Teller {
    /// Nothing was told yet of these records.
    pub fn new(alloc: Global, lanes: Lanes, texts: Vec<RecordText>) -> Result<Teller, Failure> {
        let lasting = Lasting::new(alloc, lanes.len())?;
        Ok(Teller {
            alloc,
            lanes,
            texts,
            lasting,
            gains: Vec::new(alloc),
            sight: None,
            sides: Vec::new(alloc),
            row: 0,
        })
    }

    /// The row of the table, which was made or refused.
    pub fn table(&mut self, refused: Option<Fault>) -> Result<Row, Failure> {
        let mut row = self.next_row()?;
        if let Some(fault) = refused {
            row.refusal = Some(refusal(self.alloc, fault)?);
        }
        self.row = self.row.saturating_add(1);
        Ok(row)
    }

    /// Looks at the table before a command, and answers what the command is to do.
    pub fn before<T: TableRings>(
        &mut self,
        core: &Core<SpoolOfKind, T>,
        command: &Command,
    ) -> Result<Deed, Failure> {
        self.sides = counts(self.alloc, core)?;
        Deed::of(self.alloc, command, &self.lanes)
    }

    /// Looks at the table behind a command that was answered so, and tells its row.
    pub fn after<T: TableRings>(
        &mut self,
        core: &Core<SpoolOfKind, T>,
        deed: &Deed,
        answer: &Answer,
    ) -> Result<Row, Failure> {
        let mut row = self.next_row()?;
        self.tell(core, deed, answer, &mut row)?;
        self.mark_entries(core, &mut row.marks)?;
        self.lasting.grow(self.row);
        self.row = self.row.saturating_add(1);
        Ok(row)
    }

    /// The timeline of these rows.
    pub fn into_timeline(self, title: &str, rows: Vec<Row>) -> Result<Timeline, Failure>
        ensures { IfOk result (λ timeline. timeline.rows ≡ rows) }
    {
        let Teller {
            alloc,
            lanes,
            texts: _,
            lasting,
            gains,
            sight: _,
            sides: _,
            row: _,
        } = self;
        let title = String::from_str(alloc, title)?;
        let lanes = lanes.named(alloc)?;
        Ok(Timeline {
            title,
            lanes,
            rows,
            spans: lasting.into_spans(),
            gains,
        })
    }

    /// On which side of the scan a RID is.
    pub(crate) fn side(&self, rid: Rid) -> Side
        ensures { result ≡ side_seen self.now.sight rid }
    {
        match &self.sight {
            Some(sight) => sight.side(rid),
            None => Side::NoBuild,
        }
    }

    /// The fields of the record that is being told, from that one on.
    pub(crate) fn fields_from(&self, first: usize) -> Result<String, Failure> {
        match self.texts.get(self.row) {
            Some(text) => text.from_field(self.alloc, first),
            None => Ok(String::new(self.alloc)),
        }
    }

    /// One of its fields.
    pub(crate) fn field(&self, place: usize) -> Result<String, Failure> {
        match self.texts.get(self.row) {
            Some(text) => text.field(self.alloc, place),
            None => Ok(String::new(self.alloc)),
        }
    }

    /// The row of the next record, with nothing in its lanes.
    fn next_row(&mut self) -> Result<Row, Failure> {
        let text = self.fields_from(0)?;
        let mut row = Row {
            number: 0,
            kind: RowKind::Plain,
            remarks: Vec::new(self.alloc),
            text,
            refusal: None,
            marks: Vec::new(self.alloc),
        };
        if let Some(text) = self.texts.get_mut(self.row) {
            row.number = text.number;
            row.remarks = mem::replace(&mut text.remarks, Vec::new(self.alloc));
        }
        Ok(row)
    }

    /// Marks the entries that the command appended to the side-files.
    fn mark_entries<T: TableRings>(
        &self,
        core: &Core<SpoolOfKind, T>,
        marks: &mut Vec<Mark>,
    ) -> Result<(), Failure> {
        if !core.is_building() {
            return Ok(());
        }
        for (index, &before) in self.sides.iter().enumerate() {
            let lane = self.lanes.of_index(index);
            mark_added(self.alloc, core, index, before, lane, marks)?;
        }
        Ok(())
    }

    /// Adds a mark to the row.
    pub(crate) fn mark(
        &self,
        row: &mut Row,
        lane: usize,
        kind: MarkKind,
        text: String,
    ) -> Result<(), Failure> {
        row.marks.push(Mark { lane, kind, text })?;
        Ok(())
    }
}
