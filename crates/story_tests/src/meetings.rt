//! Sessions that meet on a table, and a build beside them.
ghost use Rattle.std.specs.Prelude.{◌≡◌};

use crate::beside::{Told, Written, gathered, written};
use crate::ended::{Ended, ended};
use crate::list_spool::{Hold, ListSpool};
use crate::made::{Made, Paged};
use crate::place::{Faults, NO_FAULT};
use crate::programs::{IDLE, Program, does};
use crate::reported::{are_reported, committed};
use crate::rows::{Rows, SEVEN, asked};
use crate::story::Stock;
use crate::watch::{FREE, Holds, Seen, Watch};
use builder_core::{Ends, Parts, Plan};
use crew::{Opened, Phase, Receipt, Report, Session, Table, TableParts};
use heap_log::Outcome;
use keybytes::{Fault, KeySpec};
use run_spool::Spool;
use std::alloc::Global;
use std::marker::Brand;
use std::process::Abort;
use std::sync::Wait;
use std::thread::Threads;

/// What happens on a table, and what comes of it.
pub struct Meeting {
    /// The table, and the build of its indexes.
    pub script: &'static str,
    pub rows: &'static Rows,
    /// Whether there is a build; how many turns try its switch; whether its spools have a pair each; and whether ranges
    /// are dealt to the threads of the workers.
    pub is_built: bool,
    pub tries: u32,
    pub is_used: bool,
    pub is_dealt: bool,
    /// What comes to its spools, and whether these keep lists and hold their first push.
    pub faults: Faults,
    pub is_held: bool,
    pub holds: &'static Holds,
    /// What a session does before and behind the others, and where those stand that are beside the build.
    pub before: &'static Program,
    pub place: usize,
    pub behind: &'static Program,
    /// Whether its last receipt is kept back.
    pub keeps_back: bool,
    /// Whether nobody writes right behind the switch, so that the report has the pairs that a session reads; or whether it
    /// has those of the rows that [`are_reported`] knows, of which memory may leave none.
    pub is_quiet: bool,
    pub is_known: bool,
    /// How many rows there are more in the end.
    pub further: usize,
    /// How many indexes are ready then, and how many pairs they have, or why the build is given up.
    pub told: Result<(usize, usize), Fault>,
    /// How many entries waited when the build began to catch up, and how many turns took some before the switch, where that is known.
    pub caught_up: Option<(usize, usize)>,
    /// How many receipts there are at least and at most, and how many records are missing.
    pub given: (usize, usize),
    pub missing: usize,
    /// What the threads of the build tell, as far as that is known.
    pub seen: &'static [u64],
}

/// A build of the seven rows by one worker.
pub const WHOLE: Meeting = Meeting {
    script: "table,2,int,int
start,1,4,even:1,n:0
",
    rows: &SEVEN,
    is_built: true,
    tries: 2,
    is_used: false,
    is_dealt: true,
    faults: NO_FAULT,
    is_held: false,
    holds: &FREE,
    before: &IDLE,
    place: usize::MAX,
    behind: &IDLE,
    keeps_back: false,
    is_quiet: true,
    is_known: false,
    further: 0,
    told: Ok((1, 7)),
    caught_up: None,
    given: (1, 1),
    missing: 0,
    seen: &[],
};

/// What a build is asked for: its plan and its spools.
#[derive(Drop)]
pub struct Asked {
    pub plan: Plan,
    pub stock: Stock,
}

/// What a meeting comes to, and what the threads of its build told.
pub type Came = (Ended, Seen);

/// The first push of a spool.
#[derive(Drop)]
struct First<'w> {
    watch: Option<&'w Watch>,
}

impl Hold for First<'_> {
    fn hold(&mut self) {
        if let Some(watch) = self.watch.take() {
            watch.hold(0, 0);
        }
    }
}

/// A spool for runs of 4,096 pairs, whose first push is held up.
fn held(alloc: Global, watch: &Watch) -> Result<ListSpool<First<'_>>, Fault> {
    ListSpool::new(alloc, 3, 4096, First { watch: Some(watch) })
}

/// Whether the report has the pairs of each index that is ready, as the session reads them, who reads no further index.
fn is_read<T: Opened, R: Wait>(
    rt: &R,
    alloc: Global,
    session: &mut Session<'_, T>,
    report: &Report<T>,
    specs: &[KeySpec],
) -> bool {
    let Some(pairs) = &report.pairs else {
        return false;
    };
    let verdicts = report.verdicts.as_slice();
    let mut ready: usize = 0;
    for number in 0..specs.len() {
        if !matches!(verdicts.get(number), Some(Outcome::Ready(_))) {
            continue;
        }
        match session.pairs(rt, alloc, ready) {
            Ok((on, read)) if on.is_same(&specs[number]) && pairs.get(ready) == Some(&read) => {}
            _ => return false,
        }
        ready = ready.saturating_add(1);
    }
    pairs.len() == ready && session.pairs(rt, alloc, ready).is_err()
}

/// Whether it caught up as it should, where that is known.
fn has_caught_up<T: Opened>(report: &Report<T>, wanted: Option<(usize, usize)>) -> bool {
    match wanted {
        Some(wanted) => (report.caught_up.waited, report.caught_up.turns) == wanted,
        None => true,
    }
}

/// Whether a build tells the pairs that it should.
fn is_report<T: Opened, R: Wait>(
    rt: &R,
    alloc: Global,
    session: &mut Session<'_, T>,
    report: &Report<T>,
    receipts: &[Receipt<T>],
    specs: &[KeySpec],
    meeting: &Meeting,
) -> bool {
    if meeting.is_known {
        let commits = committed(receipts, report.receipt.number());
        return are_reported(&report.pairs, meeting.behind.is_short, commits);
    }
    !meeting.is_quiet || is_read(rt, alloc, session, report, specs)
}

/// What is written, and what the build tells. One session is there before all else and goes on behind it.
fn met<S: Spool + Send, T: Opened + Send + Sync, R: Threads + Wait + Sync>(
    rt: &R,
    alloc: Global,
    table: &Table<T>,
    ends: Ends<T>,
    spools: Vec<S>,
    asked: &Asked,
    watch: &Watch,
    meeting: &Meeting,
) -> (Written<T>, Told<T>) {
    let mut session = table.session(rt);
    let mut receipts = Vec::new(alloc);
    let mut is_fine = session.seen() == (meeting.rows.count as usize).saturating_add(1);
    is_fine &= does(
        rt,
        alloc,
        table,
        &mut session,
        &mut receipts,
        meeting.before,
        watch,
    );
    let (beside, told) = written(rt, alloc, table, ends, spools, asked, watch, meeting);
    let (mut receipts, mut is_fine) = gathered(beside, (receipts, is_fine));
    if let Some(Ok(report)) = &told {
        let specs = asked.plan.specs.as_slice();
        is_fine &= is_report(rt, alloc, &mut session, report, &receipts, specs, meeting);
        is_fine &= has_caught_up(report, meeting.caught_up);
    }
    is_fine &= does(
        rt,
        alloc,
        table,
        &mut session,
        &mut receipts,
        meeting.behind,
        watch,
    );
    is_fine &= table.progress(rt).phase == Phase::Idle;
    if meeting.keeps_back {
        let _last = receipts.pop();
    }
    ((receipts, is_fine), told)
}

/// What it comes to, if all goes as it may.
fn came_to<S: Spool + Send, T: Opened + Send + Sync, R: Threads + Wait + Sync>(
    rt: &R,
    alloc: Global,
    parts: TableParts,
    spools: Vec<S>,
    asked: &Asked,
    watch: &Watch,
    meeting: &Meeting,
) -> Option<Ended>
    requires word { parts.word ≡ T.table }
    requires pages { parts.parts.pages ≡ T.pages }
    requires sides { parts.parts.sides ≡ T.sides }
    requires opening { parts.parts.heap.log ≡ T.opening }
{
    let (table, ends) = parts.open::<T>();
    let (written, told) = met(rt, alloc, &table, ends, spools, asked, watch, meeting);
    ended(table, written, told, &asked.plan.specs, meeting)
}

/// A table to be shared, and the build that is asked for.
pub fn shared(alloc: Global, meeting: &Meeting) -> Result<(TableParts, Asked), Fault> {
    let (heap, plan, stock) = asked(alloc, meeting.script, meeting.rows, meeting.tries)?;
    let asked = Asked {
        plan,
        stock: Stock {
            is_used: meeting.is_used,
            ..stock
        },
    };
    let parts = match Parts::new(alloc, heap) {
        Ok(parts) => parts,
        Err((_, fault)) => return Err(fault),
    };
    match TableParts::new(alloc, parts) {
        Ok(parts) => Ok((parts, asked)),
        Err((_, fault)) => Err(fault),
    }
}

/// The same over these spools.
fn came_over<S: Spool + Send, R: Threads + Wait + Sync>(
    rt: &R,
    alloc: Global,
    parts: TableParts,
    spools: Vec<S>,
    asked: &Asked,
    watch: &Watch,
    meeting: &Meeting,
) -> Result<Came, Fault> {
    let came = came_to::<S, Brand, R>(rt, alloc, parts, spools, asked, watch, meeting);
    match (came, watch.seen()) {
        (Some(came), Some(seen)) => Ok((came, seen)),
        (None, _) => Err(Fault::BuildRunning),
        (_, None) => Err(Fault::Busy(0)),
    }
}

/// What a meeting comes to.
pub fn outcome<R: Threads + Wait + Sync>(
    rt: &R,
    alloc: Global,
    meeting: &Meeting,
    faults: &Faults,
) -> Result<Came, Fault> {
    let watch = Watch::new(meeting.holds, meeting.is_dealt);
    let (parts, mut asked) = shared(alloc, meeting)?;
    if meeting.is_held {
        let spools = vec![in alloc; held(alloc, &watch)?, held(alloc, &watch)?]?;
        return came_over(rt, alloc, parts, spools, &asked, &watch, meeting);
    }
    let spools = <Paged as Made>::made(alloc, &mut asked.stock, faults)?;
    came_over(rt, alloc, parts, spools, &asked, &watch, meeting)
}

/// Whether it is what it should come to.
pub fn is_so(meeting: &Meeting, came: &Result<Came, Fault>) -> bool {
    let Ok(came) = came else {
        return false;
    };
    let (told, given, missing) = came.0;
    told == meeting.told
        && meeting.given.0 <= given
        && given <= meeting.given.1
        && missing == meeting.missing
        && begins_with(&came.1, meeting.seen)
}

/// Whether what was seen begins so.
fn begins_with(seen: &Seen, wanted: &[u64]) -> bool {
    for (place, number) in wanted.iter().enumerate() {
        if place >= 8 || seen[place] != *number {
            return false;
        }
    }
    true
}

/// The first of these meetings that comes to something else, and to what.
fn other_of<R: Threads + Wait + Sync>(
    rt: &R,
    alloc: Global,
    meetings: &[Meeting],
) -> Option<(usize, Result<Came, Fault>)> {
    for number in 0..meetings.len() {
        let meeting = &meetings[number];
        let came = outcome(rt, alloc, meeting, &meeting.faults);
        if !is_so(meeting, &came) {
            return Some((number, came));
        }
    }
    None
}

/// Asserts that each of these meetings comes to what it should.
pub fn expect<R: Abort + Threads + Wait + Sync>(rt: &R, alloc: Global, meetings: &[Meeting]) {
    assert_eq!(rt; other_of(rt, alloc, meetings), None);
}
