ghost use Rattle.std.specs.Prelude.{◌≡◌, ◌⊎◌, All, None, is_some, true, false, length, map};
ghost use Rattle.std.specs.Option.{option_map};
ghost use Rattle.run_spool.specs.Spools.{AreSorted, all_pairs};
ghost use Rattle.run_merge.specs.Merging.{all_runs};
ghost use Rattle.page_workers.specs.SpoolValue.{spool_value};
ghost use Rattle.bulk_load.specs.Each.{AreEachOnce};
ghost use Rattle.index_load.specs.IndexLoad.{HasRun, with_made, without_spools};

use crate::merging::{built_in_threads, built_of};
use catch_up::Built;
use keybytes::Fault;
use run_spool::Spool;
use std::alloc::Global;
use std::marker::Model;
use std::mem::replace;
use std::sync::Wait;
use std::thread::Threads;

/// The load of one index by itself: its spools, one of each worker, and then the index. It has nothing of its build, so the loads of several indexes can go
/// side by side.
pub struct IndexLoad<S: Spool> {
    alloc: Global,
    build: u64,
    unique: bool,
    spools: Vec<S>,
    built: Option<Built>,
    fault: Option<Fault>,
}

impl<S: Spool> Drop for IndexLoad<S> {
    fn drop(self) {
        let IndexLoad {
            alloc: _,
            build: _,
            unique: _,
            spools: _,
            built: _,
            fault: _,
        } = self;
    }
}

impl<S: Spool> Model for IndexLoad<S> {
    ghost use Rattle.std.specs.Prelude.{◌≡◌, None, map};
    ghost use Rattle.page_workers.specs.SpoolValue.{spool_value};
    ghost use Rattle.keybytes.specs.declared.fault.Fault.{Fault};
    ghost use Rattle.index_load.specs.IndexLoad.{IndexLoadValue, IsLoadable};

    ghost Value = { IndexLoadValue };

    ghost view = { λ load. record {
      build = load.build;
      unique = load.unique;
      spools = map (spool_value S.runs S.open_run S.stake) load.spools.items;
      built = load.built;
      fault = load.fault;
    } };

    ghost invariant = { λ load. load.built ≡ None → load.fault ≡ None → IsLoadable (map (spool_value S.runs S.open_run S.stake) load.spools.items) };
}

impl<S: Spool> IndexLoad<S> {
    /// The load of an index whose pairs are in these spools.
    pub fn new(alloc: Global, build: u64, unique: bool, spools: Vec<S>) -> IndexLoad<S>
        requires sorted { All AreSorted (map S.runs spools.items) }
        requires once { AreEachOnce (all_pairs (all_runs (map S.runs spools.items))) }
        ensures { result ≡ record {
          build = build;
          unique = unique;
          spools = map (spool_value S.runs S.open_run S.stake) spools.items;
          built = None;
          fault = None;
        } }
    {
        IndexLoad {
            alloc,
            build,
            unique,
            spools,
            built: None,
            fault: None,
        }
    }

    /// Puts its pairs in order, and ends its spools. Want of memory may lose some of the pairs; what was refused once is not tried again.
    pub fn run(&mut self)
        ensures { HasRun self.old self.new }
    {
        if self.is_over() {
            return;
        }
        let own = self.take_own();
        let (built, own) = built_of(self.alloc, own, self.build, self.unique);
        self.keep(built, own);
    }

    /// Whether it is done, or was refused.
    fn is_over(&self) -> bool
        ensures over { result ≡ true → (is_some self.now.built ≡ true) ⊎ (is_some self.now.fault ≡ true) }
        ensures goes_on { result ≡ false → (self.now.built ≡ None) × (self.now.fault ≡ None) }
    {
        self.built.is_some() || self.fault.is_some()
    }

    /// The spools of a load that goes on, to put their pairs in order.
    fn take_own(&mut self) -> Vec<S>
        requires { (self.old.built ≡ None) × (self.old.fault ≡ None) }
        ensures spools { map (spool_value S.runs S.open_run S.stake) result.items ≡ self.old.spools }
        ensures sorted { All AreSorted (map S.runs result.items) }
        ensures once { AreEachOnce (all_pairs (all_runs (map S.runs result.items))) }
        ensures left { self.new ≡ without_spools self.old }
    {
        let none = Vec::new(self.alloc);
        replace(&mut self.spools, none)
    }

    /// Keeps what was made of its spools, and these.
    fn keep(&mut self, built: Result<Built, Fault>, spools: Vec<S>)
        ensures { self.new ≡ with_made self.old built (map (spool_value S.runs S.open_run S.stake) spools.items) }
    {
        self.spools = spools;
        match built {
            Ok(built) => self.built = Some(built),
            Err(fault) => self.fault = Some(fault),
        }
    }

    /// How many pairs are in order; none where it didn't run yet, and where it was refused.
    pub fn pairs(&self) -> Option<usize>
        ensures { result ≡ option_map (λ built. length built.pairs) self.now.built }
    {
        match &self.built {
            Some(built) => Some(built.tree().len()),
            None => None,
        }
    }

    /// Why it was refused.
    pub fn fault(&self) -> Option<Fault>
        ensures { result ≡ self.now.fault }
    {
        self.fault
    }

    /// Gives its spools away.
    pub fn take_spools(&mut self) -> Vec<S>
        ensures spools { map (spool_value S.runs S.open_run S.stake) result.items ≡ self.old.spools }
        ensures left { self.new ≡ without_spools self.old }
    {
        replace(&mut self.spools, Vec::new(self.alloc))
    }

    /// The index, once its pairs are in order.
    pub fn into_built(self) -> Option<Built>
        ensures { result ≡ self.built }
    {
        let IndexLoad {
            alloc: _,
            build: _,
            unique: _,
            spools: _,
            built: index,
            fault: _,
        } = self;
        index
    }
}

impl<S: Spool + Send> IndexLoad<S> {
    /// Puts its pairs in order like [`IndexLoad::run`], with a thread for each spool, which merges that spool's runs while this thread makes the index.
    /// Where a thread can't be started, or finds no memory, that is want of memory. One spool alone is merged here.
    ///
    /// `rt` is the runtime that `main` hands in. It waits for the threads.
    pub fn run_in_threads<R: Threads + Wait + Sync>(&mut self, rt: &R)
        ensures { HasRun self.old self.new }
    {
        if self.spools.len() <= 1 {
            self.run();
            return;
        }
        if self.is_over() {
            return;
        }
        let own = self.take_own();
        let (built, own) = built_in_threads(rt, self.alloc, own, self.build, self.unique);
        self.keep(built, own);
    }
}
