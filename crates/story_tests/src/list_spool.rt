//! A second kind of spool: it keeps its runs in lists, and leases no page.
ghost use Rattle.std.specs.Prelude.{◌≡◌, [], All, length, IfOk, IfErr, vec_capacity};
ghost use Rattle.story_tests.specs.ListSpools.{IsSpare, new_list};

use crate::list_run::ListRun;
use keybytes::{Fault, Key, Pair, Rid};
use run_spool::Spool;
use spool_ledger::Account;
use std::alloc::Global;
use std::marker::Model;
use std::mem::replace;

/// Where pushes are held up.
pub trait Hold: Drop {
    fn hold(&mut self);
}

/// Nowhere.
#[derive(Drop)]
pub struct Free;

impl Hold for Free {
    fn hold(&mut self) {}
}

/// Runs of pairs in lists: so many runs, each with at most so many pairs. It takes its memory when it is made; runs
/// that were ended make no room for others. There is no account behind it. A push, which falls in a digest, may be
/// held up.
#[derive(Drop)]
pub struct ListSpool<H: Hold> {
    runs: Vec<ListRun>,
    open_run: Vec<Pair>,
    /// Lists for further open runs.
    spare: Vec<Vec<Pair>>,
    limit: usize,
    hold: H,
}

/// One that holds up no push.
pub type Lists = ListSpool<Free>;

impl<H: Hold> Model for ListSpool<H> {
    ghost use Rattle.std.specs.Prelude.{length, vec_capacity};
    ghost use Rattle.story_tests.specs.ListSpools.{ListSpoolValue, IsListSpool};

    ghost Value = { ListSpoolValue };

    ghost view = { λ spool. record {
      runs = spool.runs.items;
      open_run = spool.open_run.items;
      limit = spool.limit;
      spare = length spool.spare.items;
    } };

    ghost invariant = { λ spool. IsListSpool spool.limit (length spool.runs.items) (vec_capacity spool.runs)
        (length spool.open_run.items) (vec_capacity spool.open_run) spool.spare.items };
}

/// Room for so many lists of so many pairs each.
fn lists(alloc: Global, count: usize, limit: usize) -> Result<Vec<Vec<Pair>>, Fault>
    ensures count { IfOk result (λ lists. length lists.items ≡ count) }
    ensures spare { IfOk result (λ lists. All (IsSpare limit) lists.items) }
    ensures memory { IfErr result (λ fault. fault ≡ Fault.Memory) }
{
    let mut lists = Vec::with_capacity(alloc, count)?;
    for _ in 0..count {
        lists.push_reserved(Vec::with_capacity(alloc, limit)?);
    }
    Ok(lists)
}

impl<H: Hold> ListSpool<H> {
    /// A spool with no run, for so many runs of so many pairs.
    pub fn new(alloc: Global, runs: usize, limit: usize, hold: H) -> Result<ListSpool<H>, Fault>
        ensures made { IfOk result (λ spool. spool ≡ new_list runs limit) }
        ensures memory { IfErr result (λ fault. fault ≡ Fault.Memory) }
    {
        Ok(ListSpool {
            runs: Vec::with_capacity(alloc, runs)?,
            open_run: Vec::with_capacity(alloc, limit)?,
            spare: lists(alloc, runs, limit)?,
            limit,
            hold,
        })
    }
}

impl<H: Hold> Spool for ListSpool<H> {
    ghost use Rattle.std.specs.Prelude.{◌≡◌, [], None};
    ghost use Rattle.story_tests.specs.ListSpools.{IsFullList};

    ghost runs = { λ spool. spool.runs };

    ghost open_run = { λ spool. spool.open_run };

    ghost is_full = { λ spool pair. IsFullList spool };

    // (freed pairs leave no room for others in a list, so that it doesn't matter whether some were)
    ghost is_intact = { λ spool. Unit {0} };

    ghost ended = { λ spool. (spool.runs ≡ []) × (spool.open_run ≡ []) };

    ghost pages = { λ spool. 0 };

    ghost stake = { λ spool. None };

    fn is_empty(&self) -> bool {
        self.runs.is_empty() && self.open_run.is_empty()
    }

    fn push(&mut self, pair: Pair) -> Result<(), (Pair, Fault)> {
        self.hold.hold();
        if self.open_run.len() >= self.limit || self.spare.is_empty() {
            return Err((pair, Fault::NoPage));
        }
        self.open_run.push_reserved(pair);
        Ok(())
    }

    fn end_run(&mut self) {
        if self.open_run.is_empty() {
            return;
        }
        let Some(next) = self.spare.pop() else {
            unreachable!()
        };
        let pairs = replace(&mut self.open_run, next);
        self.runs.push_reserved(ListRun::new(pairs));
    }

    fn run_count(&self) -> usize {
        self.runs.len()
    }

    fn run_len(&self, i: usize) -> usize {
        self.runs[i].len()
    }

    fn read(&mut self, i: usize, j: usize, key: &mut Key) -> Result<Rid, Fault> {
        self.runs[i].read(j, key)
    }

    fn free_front(&mut self, i: usize, n: usize) {
        let run = &mut self.runs[i];
        run.free_front(n);
    }

    fn leased(&self) -> usize {
        0
    }

    fn end(&mut self) {
        self.runs.clear();
        self.open_run.clear();
    }

    fn take_account(&mut self) -> Option<Account> {
        None
    }
}
