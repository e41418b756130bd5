ghost use Rattle.std.specs.Prelude.{◌≡◌, ◌≤◌, ◌+◌, ◌-◌, ◌^◌, ℕ, IfOk, IfErr, OnErr, length, map, count_by};
ghost use Rattle.run_spool.specs.Spools.{AreSorted};
ghost use Rattle.run_merge.specs.Merging.{has_pair, all_runs, Gives, IsMerge, AreSeconds};
ghost use Rattle.run_merge.specs.Places.{ArePlaces};

use crate::head::Head;
use crate::heads::Heads;
use crate::place::Place;
use crate::spool_runs::{advance, place, read, run_count};
use keybytes::{Fault, Pair};
use run_spool::Spool;
use std::alloc::Global;
use std::marker::Model;
use std::mem;

/// The runs that had a pair as the merge began, the head of each, and the pair behind it.
///
/// What comes behind a head is read as soon as that head comes up: a pair that isn't in the processor's memory yet is then on its way
/// while others are given.
#[derive(Drop)]
pub(crate) struct Lanes {
    runs: Vec<usize>,
    places: Vec<Place>,
    seconds: Vec<Option<Pair>>,
    heads: Heads,
}

impl Model for Lanes {
    ghost use Rattle.run_merge.specs.Merging.{LanesValue};

    ghost Value = { LanesValue };

    ghost view = { λ lanes. record {
      runs = lanes.runs.items;
      places = lanes.places.items;
      seconds = lanes.seconds.items;
      heads = lanes.heads.heads;
      first = lanes.heads.first;
      compares = lanes.heads.compares;
    } };
}

impl Lanes {
    /// Reads the head of each run that has one, and the pair behind it. The games between the heads take one comparison fewer than
    /// there are heads.
    pub(crate) fn new<S: Spool>(alloc: Global, spools: &mut [S]) -> Result<Lanes, Fault>
        requires { AreSorted (all_runs (map S.runs spools.old)) }
        ensures merge { IfOk result (λ lanes. IsMerge (all_runs (map S.runs spools.old)) lanes.runs lanes.heads) }
        ensures seconds { IfOk result (λ lanes. AreSeconds (all_runs (map S.runs spools.old)) lanes.runs lanes.seconds) }
        ensures places { IfOk result (λ lanes. ArePlaces (map S.runs spools.old) lanes.runs lanes.places) }
        ensures ways { IfOk result (λ lanes. length lanes.runs ≡ count_by has_pair (all_runs (map S.runs spools.old))) }
        ensures compares { IfOk result (λ lanes. lanes.compares ≡ length lanes.runs - 1) }
        ensures runs { map S.runs spools.new ≡ map S.runs spools.old }
        ensures open_runs { map S.open_run spools.new ≡ map S.open_run spools.old }
        ensures stakes { map S.stake spools.new ≡ map S.stake spools.old }
        ensures memory { IfErr result (λ fault. fault ≡ Fault.Memory) }
    {
        let count = run_count(spools)?;
        let mut runs = Vec::new(alloc);
        let mut places = Vec::new(alloc);
        let mut seconds = Vec::new(alloc);
        let mut heads = Vec::new(alloc);
        for run in 0..count {
            let place = place(spools, run);
            if let Some(pair) = read(alloc, spools, run, place, 0)? {
                heads.push(Head::new(Some(pair)))?;
                seconds.push(read(alloc, spools, run, place, 1)?)?;
                runs.push(run)?;
                places.push(place)?;
            }
        }
        Ok(Lanes {
            runs,
            places,
            seconds,
            heads: Heads::new(alloc, heads)?,
        })
    }

    /// Gives the first of all pairs, and frees it in its run.
    #[inline]
    pub(crate) fn step<S: Spool>(&mut self, spools: &mut [S]) -> Result<Option<Pair>, Fault>
        requires merge { IsMerge (all_runs (map S.runs spools.old)) self.old.runs self.old.heads }
        requires seconds { AreSeconds (all_runs (map S.runs spools.old)) self.old.runs self.old.seconds }
        requires places { ArePlaces (map S.runs spools.old) self.old.runs self.old.places }
        ensures merge { IsMerge (all_runs (map S.runs spools.new)) self.new.runs self.new.heads }
        ensures given { IfOk result (λ given. Gives (all_runs (map S.runs spools.old)) given (all_runs (map S.runs spools.new))) }
        ensures compares { (d : ℕ) → length self.old.runs ≤ 2 ^ d → self.new.compares ≤ self.old.compares + d }
        ensures grows { self.old.compares ≤ self.new.compares }
        ensures seconds { AreSeconds (all_runs (map S.runs spools.new)) self.new.runs self.new.seconds }
        ensures places { ArePlaces (map S.runs spools.new) self.new.runs self.new.places }
        ensures ways { self.new.runs ≡ self.old.runs }
        ensures refused { OnErr result (map S.runs spools.new ≡ map S.runs spools.old) }
        ensures lanes { OnErr result (self.new ≡ self.old) }
        ensures open_runs { map S.open_run spools.new ≡ map S.open_run spools.old }
        ensures stakes { map S.stake spools.new ≡ map S.stake spools.old }
        ensures memory { IfErr result (λ fault. fault ≡ Fault.Memory) }
    {
        let Some(lane) = self.heads.first() else {
            return Ok(None);
        };
        let alloc = *self.runs.allocator();
        let second = advance(alloc, spools, self.runs[lane], self.places[lane])?;
        let next = mem::replace(&mut self.seconds[lane], second);
        Ok(self.heads.put(next))
    }

    /// How many comparisons of two pairs were made so far; it stays at the greatest number.
    pub(crate) fn compares(&self) -> u64
        ensures { result ≡ self.now.compares }
    {
        self.heads.compares()
    }
}
