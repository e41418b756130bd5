//! A script's session on a table.
ghost use Rattle.std.specs.Prelude.{◌≡◌, [], map, Some, None, OnOk, IfOk, IfErr};
ghost use Rattle.std.specs.List.{list_any};
ghost use Rattle.keybytes.specs.Faults.{RefusedFor};
ghost use Rattle.heap_table.specs.HeapState.{begin_refusal};
ghost use Rattle.replay.specs.Answers.{Happens, answer_of, answer_to};
ghost use Rattle.replay.specs.Sessions.{state_of, Answers, IsNew, Runs};
ghost use Rattle.leased_core.specs.Leasing.{KeepsBuild};
ghost use Rattle.replay.specs.Limits.{is_refusal};
ghost use Rattle.table_scan.specs.SideFiles.{side_refusal};
ghost use Rattle.replay.specs.declared.answer.Answer.{Answer};
ghost use Rattle.replay.specs.Listings.{key_spec_of, spec_refusal, ListsLeft};
ghost use Rattle.replay.specs.Plans.{specs_refusal};

use crate::answer::Answer;
use crate::entry_line::EntryLine;
use crate::labels::Labels;
use crate::listing::{build_lines, build_specs, entry_lines, pair_lines, tree_lines};
use crate::plan::{is_in_limits, key_spec, key_specs};
use crate::status::Status;
use crate::txn::{begin, put, take_back};
use builder_core::{Core, Event, Plan, Reply, TableRings};
use heap_log::{Outcome, Verdicts};
use keybytes::{Cell, Fault, KeySpec, Rid, Row};
use leased_core::LeasedCore;
use prefix_spool::SpoolOfKind;
use run_spool::SpoolChoice;
use script::{Command, Label, Spec, Start};
use std::alloc::Global;

/// The transactions on a table that a script has named, the kind of spools that it has chosen, and how it has gone so far.
#[derive(Drop)]
pub struct Session {
    alloc: Global,
    labels: Labels,
    choice: SpoolChoice,
    status: Status,
}

impl Session {
    /// Nothing has happened yet.
    pub fn new(alloc: Global) -> Session
        ensures { IsNew result }
    {
        Session {
            alloc,
            labels: Labels::new(alloc),
            choice: SpoolChoice::Plain,
            status: Status::Done,
        }
    }

    /// How the script has gone so far.
    pub fn status(&self) -> Status
        ensures { result ≡ self.now.status }
    {
        self.status
    }

    /// Runs a command, and answers it.
    pub fn run<T: TableRings>(&mut self, leased: &mut LeasedCore<T>, command: Command) -> Answer
        ensures { Runs (state_of leased.old self.old) command result (state_of leased.new self.new) }
    {
        match self.answer(leased, command) {
            Ok(answer) => answer,
            Err(fault) => Answer::Refused { fault },
        }
    }

    fn answer<T: TableRings>(
        &mut self,
        leased: &mut LeasedCore<T>,
        command: Command,
    ) -> Result<Answer, Fault>
        ensures { Answers (state_of leased.old self.old) command result (state_of leased.new self.new) }
    {
        match command {
            Command::Row { cells } => self.put_row(leased, cells),
            Command::Begin { label } => self.begin_named(leased, &label),
            Command::Insert { label, cells } => self.insert_named(leased, &label, cells),
            Command::Update { label, rid, cells } => self.update_named(leased, &label, rid, cells),
            Command::Delete { label, rid } => self.delete_named(leased, &label, rid),
            Command::Undo { label } => self.undo_named(leased, &label),
            Command::Commit { label } => self.commit_named(leased, &label),
            Command::Get { rid } => self.get(leased, rid),
            Command::Start(start) => self.start(leased, start),
            Command::Spools { choice } => Ok(self.choose(choice)),
            Command::Scan { range, worker } => step(leased, Event::Scan { range, worker }),
            Command::Digest { worker } => step(leased, Event::Digest { worker }),
            Command::Seal { worker } => step(leased, Event::Seal { worker }),
            Command::Load { index } => step(leased, Event::Load { index }),
            Command::Feed { index, most } => step(leased, Event::Feed { index, most }),
            Command::Apply { index, most } => step(leased, Event::Apply { index, most }),
            Command::Fence => step(leased, Event::Fence),
            Command::Switch => self.switch(leased),
            Command::Abandon => self.abandon(leased),
            Command::Side { index } => self.side(leased.core(), index),
            Command::Pairs { number } => self.pairs(leased.core(), number),
            Command::Rest { spec } => self.rest(leased, spec),
        }
    }

    /// Puts a row in, by a transaction of its own. Where that is refused once the transaction has begun, what it wrote is
    /// taken back.
    fn put_row<T: TableRings>(
        &mut self,
        leased: &mut LeasedCore<T>,
        cells: Vec<Cell>,
    ) -> Result<Answer, Fault>
        ensures { Answers (state_of leased.old self.old) (Command.Row cells) result (state_of leased.new self.new) }
    {
        let row = Row::new(cells)?;
        let txn = begin(leased)?;
        match put(leased, txn, row) {
            Ok(rid) => Ok(Answer::Row { rid }),
            Err(fault) => {
                take_back(leased, txn);
                Err(fault)
            }
        }
    }

    /// Begins a transaction that the label names; where that is refused, it names none. Want of memory changes nothing.
    fn begin_named<T: TableRings>(
        &mut self,
        leased: &mut LeasedCore<T>,
        label: &Label,
    ) -> Result<Answer, Fault>
        ensures { Answers (state_of leased.old self.old) (Command.Begin label.now) result (state_of leased.new self.new) }
    {
        match leased.core().live().check_begin() {
            Ok(()) => self.begin_free(leased, label),
            Err(fault) => {
                self.labels.unname(label);
                Err(fault)
            }
        }
    }

    /// The same, where nothing refuses it.
    fn begin_free<T: TableRings>(
        &mut self,
        leased: &mut LeasedCore<T>,
        label: &Label,
    ) -> Result<Answer, Fault>
        requires { begin_refusal leased.old.live.heap ≡ None }
        ensures { Answers (state_of leased.old self.old) (Command.Begin label.now) result (state_of leased.new self.new) }
    {
        self.labels.make_room(label)?;
        let begun = begin(leased)?;
        self.labels.name(label, begun);
        Ok(Answer::Number { number: begun })
    }

    fn insert_named<T: TableRings>(
        &mut self,
        leased: &mut LeasedCore<T>,
        label: &Label,
        cells: Vec<Cell>,
    ) -> Result<Answer, Fault>
        ensures { Answers (state_of leased.old self.old) (Command.Insert label.now cells) result (state_of leased.new self.new) }
    {
        let row = Row::new(cells)?;
        let txn = self.labels.txn(label)?;
        step(leased, Event::Insert { txn, row })
    }

    fn update_named<T: TableRings>(
        &mut self,
        leased: &mut LeasedCore<T>,
        label: &Label,
        rid: Rid,
        cells: Vec<Cell>,
    ) -> Result<Answer, Fault>
        ensures { Answers (state_of leased.old self.old) (Command.Update label.now rid cells) result (state_of leased.new self.new) }
    {
        let row = Row::new(cells)?;
        let txn = self.labels.txn(label)?;
        step(leased, Event::Update { txn, rid, row })
    }

    fn delete_named<T: TableRings>(
        &mut self,
        leased: &mut LeasedCore<T>,
        label: &Label,
        rid: Rid,
    ) -> Result<Answer, Fault>
        ensures { Answers (state_of leased.old self.old) (Command.Delete label.now rid) result (state_of leased.new self.new) }
    {
        let txn = self.labels.txn(label)?;
        step(leased, Event::Delete { txn, rid })
    }

    /// Undoes one write; the label names the transaction still.
    fn undo_named<T: TableRings>(
        &mut self,
        leased: &mut LeasedCore<T>,
        label: &Label,
    ) -> Result<Answer, Fault>
        ensures { Answers (state_of leased.old self.old) (Command.Undo label.now) result (state_of leased.new self.new) }
    {
        let txn = self.labels.txn(label)?;
        step(leased, Event::Undo { txn })
    }

    fn commit_named<T: TableRings>(
        &mut self,
        leased: &mut LeasedCore<T>,
        label: &Label,
    ) -> Result<Answer, Fault>
        ensures { Answers (state_of leased.old self.old) (Command.Commit label.now) result (state_of leased.new self.new) }
    {
        let txn = self.labels.txn(label)?;
        step(leased, Event::Commit { txn })
    }

    fn get<T: TableRings>(&mut self, leased: &mut LeasedCore<T>, rid: Rid) -> Result<Answer, Fault>
        ensures { Answers (state_of leased.old self.old) (Command.Get rid) result (state_of leased.new self.new) }
    {
        let row = leased.get(rid)?;
        Ok(Answer::Cells { row })
    }

    fn start<T: TableRings>(
        &mut self,
        leased: &mut LeasedCore<T>,
        start: Start,
    ) -> Result<Answer, Fault>
        ensures { Answers (state_of leased.old self.old) (Command.Start start) result (state_of leased.new self.new) }
    {
        if leased.core().is_building() {
            return Err(Fault::BuildRunning);
        }
        if !is_in_limits(start.workers, start.specs.len(), start.quota) {
            return Err(Fault::BadCount);
        }
        let plan = Plan {
            specs: self.key_specs(leased.core(), start.specs)?,
            workers: start.workers,
            dealing: start.dealing,
            tries: 1,
            keep_pairs: false,
        };
        let pages = leased.start(self.choice, start.quota, plan)?;
        Ok(Answer::Number {
            number: u64::from(pages),
        })
    }

    /// Notes the kind of the spools of the builds that start from here on.
    fn choose(&mut self, choice: SpoolChoice) -> Answer
        ensures answer { result ≡ Answer.Done }
        ensures choice { self.new.choice ≡ choice }
        ensures others { (self.new.labels ≡ self.old.labels) × (self.new.status ≡ self.old.status) }
    {
        self.choice = choice;
        Answer::Done
    }

    fn key_specs<T: TableRings>(
        &self,
        core: &Core<SpoolOfKind, T>,
        specs: Vec<Spec>,
    ) -> Result<Vec<KeySpec>, Fault>
        ensures ok { IfOk result (λ made. made.items ≡ map (key_spec_of core.now.live.heap.schema) specs.items) }
        ensures accepted { OnOk result (specs_refusal core.now.live.heap.schema specs.items ≡ None) }
        ensures refused { IfErr result (RefusedFor (specs_refusal core.now.live.heap.schema specs.items)) }
    {
        let schema = core.live().heap().schema();
        key_specs(self.alloc, schema, specs)
    }

    /// Tries to bring the build's indexes into use, and notes whether one was refused.
    fn switch<T: TableRings>(&mut self, leased: &mut LeasedCore<T>) -> Result<Answer, Fault>
        ensures { Answers (state_of leased.old self.old) Command.Switch result (state_of leased.new self.new) }
    {
        let specs = build_specs(self.alloc, leased.core());
        let (number, verdicts, back) = leased.switch()?;
        let pages = back.missing;
        if !has_refused(&verdicts) {
            return Ok(Answer::Switched {
                number,
                verdicts,
                pages,
            });
        }
        self.status = Status::IndexRefused;
        let shared = build_lines(self.alloc, specs, &verdicts);
        Ok(Answer::SomeRefused {
            number,
            verdicts,
            shared,
            pages,
        })
    }

    fn abandon<T: TableRings>(&mut self, leased: &mut LeasedCore<T>) -> Result<Answer, Fault>
        ensures { Answers (state_of leased.old self.old) Command.Abandon result (state_of leased.new self.new) }
    {
        let back = leased.abandon()?;
        Ok(Answer::Abandoned {
            pages: back.missing,
        })
    }

    fn side<T: TableRings>(
        &self,
        core: &Core<SpoolOfKind, T>,
        index: usize,
    ) -> Result<Answer, Fault>
        ensures { Answers (state_of core.now self.now) (Command.Side index) result (state_of core.now self.now) }
    {
        let lines = self.side_lines(core, index)?;
        Ok(Answer::Entries { lines })
    }

    /// The entries that are left in the side-file of an index that is being built.
    fn side_lines<T: TableRings>(
        &self,
        core: &Core<SpoolOfKind, T>,
        index: usize,
    ) -> Result<Vec<EntryLine>, Fault>
        ensures lists { IfOk result (λ lines. ListsLeft core.now index (Answer.Entries lines)) }
        ensures refused { IfErr result (RefusedFor (side_refusal core.now.live.build index)) }
    {
        let live = core.live();
        let spec = live.spec(index)?;
        let entries = live.side(index)?;
        let lines = entry_lines(self.alloc, spec, entries)?;
        Ok(lines)
    }

    fn pairs<T: TableRings>(
        &self,
        core: &Core<SpoolOfKind, T>,
        number: usize,
    ) -> Result<Answer, Fault>
        ensures { Answers (state_of core.now self.now) (Command.Pairs number) result (state_of core.now self.now) }
    {
        let index = core.ready(number)?;
        let lines = tree_lines(self.alloc, index.spec(), index.tree())?;
        Ok(Answer::Pairs { lines })
    }

    fn rest<T: TableRings>(
        &mut self,
        leased: &mut LeasedCore<T>,
        spec: Spec,
    ) -> Result<Answer, Fault>
        ensures { Answers (state_of leased.old self.old) (Command.Rest spec) result (state_of leased.new self.new) }
    {
        let spec = self.key_spec(leased.core(), spec)?;
        let pairs = leased.rest(&spec)?;
        let lines = pair_lines(self.alloc, &spec, pairs.as_slice())?;
        Ok(Answer::Pairs { lines })
    }

    /// The key specification, of the table's columns.
    fn key_spec<T: TableRings>(
        &self,
        core: &Core<SpoolOfKind, T>,
        spec: Spec,
    ) -> Result<KeySpec, Fault>
        ensures made { IfOk result (λ made. made ≡ key_spec_of core.now.live.heap.schema spec) }
        ensures accepted { OnOk result (spec_refusal core.now.live.heap.schema spec ≡ None) }
        ensures refused { IfErr result (RefusedFor (spec_refusal core.now.live.heap.schema spec)) }
    {
        let schema = core.live().heap().schema();
        key_spec(self.alloc, schema, spec)
    }
}

/// Runs an event that stands for a whole command.
fn step<T: TableRings>(leased: &mut LeasedCore<T>, event: Event) -> Result<Answer, Fault>
    requires { KeepsBuild event }
    ensures { Happens event leased.old (answer_of result) leased.new }
{
    let reply = leased.step(event);
    told(reply)
}

/// What a reply is answered. Behind a build no leased page is missing.
fn told(reply: Reply) -> Result<Answer, Fault>
    ensures { answer_of result ≡ answer_to reply }
{
    Ok(match reply {
        Reply::Begun { txn } => Answer::Number { number: txn },
        Reply::Written { number, rid } => Answer::Written { number, rid },
        Reply::Undone { number, left } => Answer::Undone { number, left },
        Reply::Started { pages: number } | Reply::Scanned { page: number } => Answer::Number {
            number: u64::from(number),
        },
        Reply::Committed { number: count }
        | Reply::Digested { images: count }
        | Reply::Sealed { images: count }
        | Reply::Loaded { pairs: count }
        | Reply::Fed { entries: count }
        | Reply::Applied { entries: count } => Answer::Number {
            number: count as u64,
        },
        Reply::Switched { number, verdicts } => Answer::Switched {
            number,
            verdicts,
            pages: 0,
        },
        Reply::FenceSet => Answer::Done,
        Reply::Abandoned => Answer::Abandoned { pages: 0 },
        Reply::Refused { fault } => return Err(fault),
    })
}

/// Whether an index was refused.
pub fn has_refused(verdicts: &Verdicts) -> bool
    ensures { result ≡ list_any is_refusal verdicts.now }
{
    verdicts
        .as_slice()
        .iter()
        .any(|outcome| matches!(outcome, Outcome::Shared { .. }))
}
