//! A run in one thread: one phase after the other. Behind its first failure nothing more is asked of the core.
ghost use Rattle.std.specs.Prelude.{◌≡◌};

use crate::build::parts;
use crate::compare::compared;
use crate::dealing::part_of;
use crate::failure::Failure;
use crate::figures::{Figures, LINES, Line};
use crate::hand::{Hand, ROWS_OF_A_TRANSACTION};
use crate::histogram::Waits;
use crate::options::Options;
use crate::peak;
use crate::phase::{PHASES, Phase};
use crate::rows::Rows;
use crate::subject::Subject;
use crate::timer::{Timer, nanos_between, told};
use btree::Tree;
use builder_core::{Core, Event, Pair, Parts, TableRings};
use prefix_spool::{CountedSpool, SpoolOfKind};
use rand::RngExt;
use rand::rngs::SmallRng;
use std::io::IsTerminal;
use std::marker::Brand;
use std::time::Instant;

/// With the indexes ready, one row of so many is inserted, and one updated.
const SHARE: u32 = 10;

/// The most rows that are.
const ROWS_MAX: u32 = 100_000;

/// The most look-ups that are made.
const LOOK_UPS_MAX: u32 = 1_000_000;

/// How many copies wait for a worker at most.
const COPIES_MAX: u32 = 4;

/// How many entries are fed and applied in a turn: a ring has room for as many.
const TURN: usize = 256;

/// Takes the cursor to the beginning of its line, and empties the line.
const EMPTY_LINE: &str = "\r\x1b[K";

/// A run: what it goes by, who asks, and what was measured of it.
#[derive(Drop)]
struct Run<'a, C: Subject> {
    hand: Hand<'a, HostRuntime, C>,
    lines: [Line; LINES],
    /// How many pages the build reads, and how many turns it takes until each is copied.
    pages: u32,
    turns: u32,
    /// Whether a user who waits is told how far a phase is, on the standard error.
    is_shown: bool,
}

/// Measures what is asked for, on a table of its own.
pub fn by_turns(rt: &HostRuntime, options: &Options) -> Result<Figures, Failure> {
    let timer = Timer::new(Instant::now(rt)?);
    let parts = parts(rt.alloc(), options.columns.as_slice())?;
    run_on::<Brand>(rt, timer, parts, options)
}

/// The same on a table under its name.
fn run_on<T: TableRings>(
    rt: &HostRuntime,
    timer: Timer,
    parts: Parts,
    options: &Options,
) -> Result<Figures, Failure>
    requires pages { parts.pages ≡ T.pages }
    requires sides { parts.sides ≡ T.sides }
{
    let (live, ends) = parts.open::<T>();
    let mut core = Core::new(live, ends, Vec::new(rt.alloc()));
    let told = run_over(rt, timer, options, &mut core);
    let (mut live, _, spools) = core.into_live();
    compared(&mut live, with_pages(told, spools.as_slice()))
}

/// The same with how many pages these spools have leased, each at most.
fn with_pages(
    told: Result<Figures, Failure>,
    spools: &[CountedSpool<SpoolOfKind>],
) -> Result<Figures, Failure> {
    let mut figures = told?;
    for spool in spools {
        figures.count = figures.count.saturating_add(spool.pages() as u64);
    }
    Ok(figures)
}

/// The same with the core.
fn run_over<'a, C: Subject>(
    rt: &'a HostRuntime,
    timer: Timer,
    options: &'a Options,
    core: &'a mut C,
) -> Result<Figures, Failure> {
    let rows = Rows::new(rt.alloc(), options, options.seed, 0);
    let hand = Hand {
        rt,
        desk: core,
        rows,
        timer,
    };
    let mut run = Run::new(hand, rt.stderr().is_terminal());
    run.measure();
    let figures = Figures {
        lines: run.lines,
        count: 0,
        before: Waits::NONE,
        beside: Waits::NONE,
        failure: None,
    };
    told(run.hand.timer.failure, figures)
}

impl<'a, C: Subject> Run<'a, C> {
    fn new(hand: Hand<'a, HostRuntime, C>, is_shown: bool) -> Run<'a, C> {
        Run {
            hand,
            lines: [Line::NONE; LINES],
            pages: 0,
            turns: 0,
            is_shown,
        }
    }

    /// Measures the phases in their order, but for those that the run hasn't.
    fn measure(&mut self) {
        let rt = self.hand.rt;
        for place in 0..LINES {
            let (phase, name) = PHASES[place];
            let (rows, failure) = (
                rows_of(self.hand.rows.options, phase),
                self.hand.timer.failure,
            );
            if rows > 0 && failure.is_none() {
                self.show(name, 0, rows);
                let line = &mut self.lines[place];
                line.name = name;
                line.is_told = true;
                line.rows = u64::from(rows);
                self.perform(phase, rows);
                self.lines[place].peak = peak::read(rt);
            }
        }
        if self.is_shown {
            let _ = eprint!(rt; "{EMPTY_LINE}");
        }
    }

    /// Digests and updates are measured with the scan, and the build with each of its phases.
    fn perform(&mut self, phase: Phase, rows: u32) {
        let transactions = rows.div_ceil(ROWS_OF_A_TRANSACTION);
        let (options, turns) = (self.hand.rows.options, self.turns);
        match phase {
            Phase::Fill => self.fill(rows, transactions),
            Phase::Inserts => self.write_all(phase, rows, transactions, true),
            Phase::UpdatesReady => self.write_all(phase, rows, transactions, false),
            Phase::UpdatesAlone => self.write_all(phase, rows, turns, false),
            Phase::Start => {
                let spent = self.hand.start(options);
                self.add(phase, spent);
            }
            Phase::Scan => self.copy_all(),
            Phase::CatchUp => self.catch_up(),
            Phase::LookUps => {
                let told = self.hand.look_up(rows);
                let spent = self.hand.timer.take(told);
                self.add(phase, spent);
            }
            Phase::Seal | Phase::Load | Phase::Switch => self.ask_each(phase, 0),
            Phase::Digest | Phase::Updates | Phase::Build => {}
        }
    }

    /// Tells a user who waits how far a phase is. What can't be told is not.
    fn show(&mut self, phase: &str, done: u32, all: u32) {
        let rt = self.hand.rt;
        if self.is_shown {
            let _ = eprint!(rt; "{EMPTY_LINE}{phase}: {done} of {all}");
        }
    }

    /// So much time is the phase's too, and the build's where that has it in it.
    fn add(&mut self, phase: Phase, spent: u64) {
        let line = &mut self.lines[phase as usize];
        line.spent = line.spent.saturating_add(spent);
        if phase.is_of_build() {
            let build = &mut self.lines[Phase::Build as usize];
            build.spent = build.spent.saturating_add(spent);
        }
    }

    /// So many transactions put so many random rows in, or have them replace rows with which the table was filled.
    fn write_all(&mut self, phase: Phase, rows: u32, transactions: u32, is_new: bool) {
        for number in 0..transactions {
            self.show(PHASES[phase as usize].1, number, transactions);
            self.write(phase, part_of(rows, transactions, number), is_new);
        }
    }

    /// One transaction does, if it has a row to write.
    fn write(&mut self, phase: Phase, rows: u32, is_new: bool) {
        if rows > 0 {
            let spent = self.hand.transact(rows, is_new);
            self.add(phase, spent);
        }
    }

    /// Fills the table.
    fn fill(&mut self, rows: u32, transactions: u32) {
        self.write_all(Phase::Fill, rows, transactions, true);
        let on_page = u32::from(self.hand.rows.on_page);
        self.pages = rows.div_ceil(on_page.max(1));
        let workers = self.hand.rows.options.workers as u32;
        self.turns = self.pages.div_ceil(workers).div_ceil(COPIES_MAX);
    }

    /// Copies all pages: by turns some updates are made, each worker's ring is filled, and each worker empties its ring.
    fn copy_all(&mut self) {
        let turns = self.turns;
        for turn in 0..turns {
            self.show("scan and digest", turn, turns);
            let rows = part_of(self.hand.rows.options.writes, turns, turn);
            self.write(Phase::Updates, rows, false);
            self.ask_each(Phase::Scan, turn);
            self.ask_each(Phase::Digest, turn);
        }
    }

    /// Asks each worker or index for what the phase does with it in the turn: a scan fills each worker's ring with copies of its next pages, and a
    /// digest empties it.
    fn ask_each(&mut self, phase: Phase, turn: u32) {
        let (pages, workers) = (self.pages, self.hand.rows.options.workers as u32);
        let count = match phase {
            Phase::Load => self.hand.rows.options.indexes,
            Phase::Switch => 1,
            _ => workers,
        };
        self.hand.lap();
        for number in 0..count {
            let times = match phase {
                Phase::Scan => part_of(pages, workers, number)
                    .saturating_sub(turn.saturating_mul(COPIES_MAX))
                    .min(COPIES_MAX),
                Phase::Digest => COPIES_MAX,
                _ => 1,
            };
            for _ in 0..times {
                let (step, event) = event_of(phase, number as usize);
                self.hand.ask(step, event);
            }
        }
        let spent = self.hand.lap();
        self.add(phase, spent);
    }

    /// Applies the entries that updates left in the side-files to each index, until those that are left to it find room in its ring. The phase is
    /// about the entries that were applied.
    fn catch_up(&mut self) {
        self.hand.lap();
        let mut applied = 0u64;
        for index in 0..self.hand.rows.options.indexes as usize {
            for _ in 0..u32::MAX {
                let feed = Event::Feed { index, most: TURN };
                if self.hand.ask("a feed", feed) < TURN as u64 {
                    break;
                }
                let apply = Event::Apply { index, most: TURN };
                applied = applied.saturating_add(self.hand.ask("an apply", apply));
            }
        }
        let spent = self.hand.lap();
        self.add(Phase::CatchUp, spent);
        self.lines[Phase::CatchUp as usize].rows = applied;
    }
}

impl<C: Subject> Hand<'_, HostRuntime, C> {
    /// Starts the build. Answers how long it took.
    fn start(&mut self, options: &Options) -> u64 {
        self.lap();
        let told = self.desk.start(self.rt.alloc(), options);
        self.timer.take(told);
        self.lap()
    }

    /// Looks for so many pairs of the first index in it, in no order. Answers how long that took.
    fn look_up(&mut self, count: u32) -> Result<u64, Failure> {
        let tree = self.desk.tree()?;
        let pairs: Vec<&Pair> = tree.iter().collect(self.rt.alloc())?;
        let since = Instant::now(self.rt)?;
        let missing = missing(tree, pairs.as_slice(), &mut self.rows.rng, count);
        match missing {
            None => Ok(nanos_between(since, Instant::now(self.rt)?)),
            Some(place) => Err(Failure::Differs(0, place)),
        }
    }
}

/// How many rows the phase is about; none where the run hasn't the phase.
fn rows_of(options: &Options, phase: Phase) -> u32 {
    let rows = options.rows;
    match phase {
        Phase::UpdatesAlone | Phase::Updates | Phase::CatchUp => options.writes,
        Phase::LookUps => rows.min(LOOK_UPS_MAX),
        Phase::Inserts | Phase::UpdatesReady => rows.div_ceil(SHARE).min(ROWS_MAX),
        _ => rows,
    }
}

/// What the phase asks of the worker or index of that number, and its name.
fn event_of(phase: Phase, number: usize) -> (&'static str, Event) {
    match phase {
        Phase::Scan => (
            "a scan",
            Event::Scan {
                range: number,
                worker: number,
            },
        ),
        Phase::Digest => ("a digest", Event::Digest { worker: number }),
        Phase::Seal => ("a seal", Event::Seal { worker: number }),
        Phase::Load => ("a load", Event::Load { index: number }),
        _ => ("the switch", Event::Switch),
    }
}

/// Looks for so many of these pairs in the tree; answers the place of one that it doesn't have.
fn missing(tree: &Tree, pairs: &[&Pair], rng: &mut SmallRng, count: u32) -> Option<usize> {
    if pairs.is_empty() {
        return None;
    }
    for _ in 0..count {
        let place = rng.random_range(0..pairs.len());
        let pair = pairs[place];
        if !tree.contains(&pair.key, pair.rid) {
            return Some(place);
        }
    }
    None
}
