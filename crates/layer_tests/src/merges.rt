//! Pairs that are made of a table, spooled and merged.
ghost use Rattle.std.specs.Prelude.{◌≡◌, All, IfOk, IsTrue, OnOk, map};
ghost use Rattle.run_spool.specs.Spools.{AreSorted};
ghost use Rattle.run_maker.specs.Making.{AreReady};
ghost use Rattle.run_merge.specs.Merging.{all_runs};

mod cases;
mod filling;

use crate::fixtures::table_of;
use crate::spools::plain_spool;
pub use cases::CASES;
pub use filling::{fill, maker};
use keybytes::{Fault, Rid};
use run_merge::{Merged, merge};
use run_spool::{Spool, are_empty};
use std::alloc::Global;

/// A table whose rows count down, and the spools that its pairs come to, by two merges one after the other.
pub struct Course {
    pub rows: u32,
    pub slots: u8,
    /// Whether each page makes a run.
    pub seals: bool,
    /// Whether some pairs are in no run before the last seal.
    pub opens: bool,
    /// Whether there are two spools, with the same pairs.
    pub is_double: bool,
    /// How many pages a spool has.
    pub pages: u32,
    /// How many runs a spool has then, and how many pages it leases.
    pub filled: (usize, usize),
    pub first: &'static [Step],
    /// How many pages a spool leases behind the first merge; behind the second one it leases none.
    pub between: usize,
    pub second: &'static [Step],
}

/// A call of a merge; the number before is that of the pairs which were given already.
pub enum Step {
    /// Asks for so many pairs, and is given that many.
    Next(u32, u32, u32),
    /// Asks for the rest, and is given so many.
    Rest(u32, u32),
    /// At least and at most so many comparisons were made.
    Compares(u64, u64),
}

impl Course {
    /// Whether the pair in that place is of the row that comes there.
    fn has(&self, place: u32, rid: Rid) -> bool {
        let row = rid
            .page
            .saturating_mul(self.slots as u32)
            .saturating_add(rid.slot as u32);
        let behind = if self.is_double { place / 2 } else { place };
        rid.slot < self.slots as u16 && row.saturating_add(behind).saturating_add(1) == self.rows
    }
}

/// Whether the course goes as it is to.
pub fn is_told(alloc: Global, course: &Course) -> Result<bool, Fault> {
    let mut spools = vec![in alloc; plain_spool(alloc, course.pages)?]?;
    if course.is_double {
        spools.push(plain_spool(alloc, course.pages)?)?;
    }
    run(alloc, spools, course)
}

/// Whether no spool has a run, or a pair in its open run.
fn all_empty<S: Spool>(spools: &[S]) -> bool
    ensures ready { IsTrue result → AreReady (map S.runs spools.now) (map S.open_run spools.now) }
    ensures sorted { IsTrue result → All AreSorted (map S.runs spools.now) }
{
    are_empty(spools)
}

/// Fills empty spools, and merges them twice.
fn run<S: Spool>(alloc: Global, mut spools: Vec<S>, course: &Course) -> Result<bool, Fault> {
    if !all_empty(&spools) {
        return Ok(false);
    }
    fill_from_table(alloc, course, spools.as_mut_slice())?;
    let left = merged(alloc, spools, course, course.first)?;
    let (runs, _) = course.filled;
    let is_between = have(&left, (runs, course.between));
    Ok(is_between && have(&merged(alloc, left, course, course.second)?, (runs, 0)))
}

/// Whether each spool has so many runs, and leases so many pages.
pub fn have<S: Spool>(spools: &[S], filled: (usize, usize)) -> bool {
    for spool in spools {
        if (spool.run_count(), spool.leased()) != filled {
            return false;
        }
    }
    true
}

fn fill_from_table<S: Spool>(alloc: Global, course: &Course, spools: &mut [S]) -> Result<(), Fault>
    requires ready { AreReady (map S.runs spools.old) (map S.open_run spools.old) }
    requires sorted { All AreSorted (map S.runs spools.old) }
    ensures { OnOk result (AreSorted (all_runs (map S.runs spools.new))) }
{
    let mut heap = table_of(alloc, course.rows, course.slots)?;
    let opens = fill(alloc, &mut heap, course.seals, spools)?;
    if opens != course.opens || !have(spools, course.filled) {
        return Err(Fault::BadCount);
    }
    Ok(())
}

/// Merges, and hands the spools back where the steps are answered as they are to be.
fn merged<S: Spool>(
    alloc: Global,
    spools: Vec<S>,
    course: &Course,
    steps: &[Step],
) -> Result<Vec<S>, Fault>
    requires { AreSorted (all_runs (map S.runs spools.items)) }
    ensures { IfOk result (λ left. AreSorted (all_runs (map S.runs left.items))) }
{
    match merge(alloc, spools) {
        Ok(mut merged) => {
            let told = gives_all(alloc, &mut merged, course, steps);
            hand_back(told, merged.into_spools())
        }
        Err((_, fault)) => Err(fault),
    }
}

fn hand_back<S: Spool>(told: Result<bool, Fault>, spools: Vec<S>) -> Result<Vec<S>, Fault>
    ensures { IfOk result (λ left. left ≡ spools) }
{
    match told {
        Ok(true) => Ok(spools),
        Ok(false) => Err(Fault::BadCount),
        Err(fault) => Err(fault),
    }
}

fn gives_all<S: Spool>(
    alloc: Global,
    merged: &mut Merged<S>,
    course: &Course,
    steps: &[Step],
) -> Result<bool, Fault> {
    for step in steps {
        let is_given = match *step {
            Step::Next(before, asked, given) => next_given(merged, course, before, asked)?
                == Some(given),
            Step::Rest(before, given) => gives_rest(alloc, merged, course, before, given)?,
            Step::Compares(least, most) => least <= merged.compares() && merged.compares() <= most,
        };
        if !is_given {
            return Ok(false);
        }
    }
    Ok(true)
}

/// How many pairs are given where so many are asked for; none where one of them is another than it is to be.
fn next_given<S: Spool>(
    merged: &mut Merged<S>,
    course: &Course,
    before: u32,
    asked: u32,
) -> Result<Option<u32>, Fault> {
    for given in 0..asked {
        match merged.next()? {
            None => return Ok(Some(given)),
            Some(pair) if course.has(before.saturating_add(given), pair.rid) => {}
            Some(_) => return Ok(None),
        }
    }
    Ok(Some(asked))
}

fn gives_rest<S: Spool>(
    alloc: Global,
    merged: &mut Merged<S>,
    course: &Course,
    before: u32,
    given: u32,
) -> Result<bool, Fault> {
    let mut place = before;
    for pair in merged.rest(alloc)?.iter() {
        if !course.has(place, pair.rid) {
            return Ok(false);
        }
        place = place.saturating_add(1);
    }
    Ok(place == before.saturating_add(given))
}
