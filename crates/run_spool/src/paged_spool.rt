ghost use Rattle.std.specs.Prelude.{◌≡◌, ◌+◌, ◌-◌, ◌^◌, ◌<◌, ◌≤◌, ◌++◌, ◌∷◌, ◌↔◌, []};
ghost use Rattle.std.specs.Prelude.{length, drop, get_or, set, Some, IfOk, IfErr, OnErr, IsTrue};
ghost use Rattle.spool_ledger.specs.Accounts.{new_account, with_free, IsWhole};
ghost use Rattle.run_spool.specs.Pages.{IsPairAt};
ghost use Rattle.run_spool.specs.Runs.{pairs_of};
ghost use Rattle.run_spool.specs.PagedSpools.{new_spool, with_pushed, with_run_closed, with_freed, without_runs, leased_pages, IsFull, IsPagedSpool};
ghost use Rattle.run_spool.specs.Spools.{NoneEmpty};

use crate::chain::Chain;
use crate::run::{Run, free_first};
use crate::{PageOfPairs, Spool};
use keybytes::{Fault, Key, Pair, Rid};
use spool_ledger::Account;
use std::alloc::Global;
use std::marker::Model;
use std::mem;

/// Runs of pairs on the pages of an account. Contracts see the closed runs and the open one, each as its pages, and the
/// account.
///
/// It takes its memory when it is made: a frame for each page of the quota, and a place for as many closed runs. A run with a
/// pair has a page, so there are no more runs than that as long as no closed run is empty while pairs are pushed.
pub struct PagedSpool<P: PageOfPairs> {
    account: Account,
    /// The frames that have no page.
    spare: Chain<P>,
    runs: Vec<Run<P>>,
    open_run: Chain<P>,
    /// The number of pairs of the open run.
    open_len: usize,
    /// The key of the last of them, if there is one.
    last: Key,
}

impl<P: PageOfPairs> Drop for PagedSpool<P> {
    fn drop(self) {
        let PagedSpool {
            account: _,
            spare: _,
            runs: _,
            open_run: _,
            open_len: _,
            last: _,
        } = self;
    }
}

impl<P: PageOfPairs> Model for PagedSpool<P> {
    ghost use Rattle.std.specs.Prelude.{length, vec_capacity};
    ghost use Rattle.run_spool.specs.PagedSpools.{PagedSpoolValue, IsSpool};

    ghost Value = { PagedSpoolValue };

    ghost view = { λ spool. record { runs = spool.runs.items; open_run = spool.open_run; account = spool.account } };

    ghost invariant = { λ spool. IsSpool P.pair_size spool.account (length spool.spare) spool.runs.items (vec_capacity spool.runs)
        spool.open_run spool.open_len spool.last };
}

impl<P: PageOfPairs> PagedSpool<P> {
    /// A spool with no run. An `Err` gives the account back.
    pub fn new(alloc: Global, account: Account) -> Result<PagedSpool<P>, (Account, Fault)>
        requires { IsWhole account }
        ensures made { IfOk result (λ spool. spool ≡ new_spool account) }
        ensures back { IfErr result (λ refused. (refused.0 ≡ account) × (refused.1 ≡ Fault.Memory)) }
    {
        let quota = account.quota() as usize;
        let spare = match Chain::of_frames(alloc, quota) {
            Ok(spare) => spare,
            Err(fault) => return Err((account, fault)),
        };
        let Ok(runs) = Vec::with_capacity(alloc, quota) else {
            return Err((account, Fault::Memory));
        };
        Ok(PagedSpool {
            account,
            spare,
            runs,
            open_run: Chain::new(alloc),
            open_len: 0,
            last: Key::new(alloc),
        })
    }

    /// Does nothing: its clause tells what every paged spool keeps.
    pub fn laws(&self)
        ensures { IsPagedSpool P.pair_size self.now }
    {
        let _kept = self.open_len;
    }

    /// Whether there is no closed run, and no pair in the open run.
    pub fn is_empty(&self) -> bool
        ensures { IsTrue result ↔ ((self.now.runs ≡ []) × (pairs_of self.now.open_run ≡ [])) }
    {
        self.runs.is_empty() && self.open_len == 0
    }

    /// Puts a pair behind those of the open run, on its last page or on a new one. [`Fault::NoPage`] where it needs a page and
    /// none is free; the pair comes back then.
    pub fn push(&mut self, pair: Pair) -> Result<(), (Pair, Fault)>
        requires { NoneEmpty self.old.runs }
        ensures pushed { IfOk result (λ _. self.new ≡ with_pushed P.pair_size self.old pair) }
        ensures room { IfOk result (λ _. IsFull P.pair_size self.old pair → ⊥) }
        ensures full { IfErr result (λ refused. IsFull P.pair_size self.old pair) }
        ensures still { OnErr result (IsFull P.pair_size self.new pair) }
        ensures back { IfErr result (λ refused. (refused.0 ≡ pair) × (refused.1 ≡ Fault.NoPage)) }
        ensures same { OnErr result (self.new ≡ self.old) }
        ensures runs { self.new.runs ≡ self.old.runs }
    {
        if !self.open_run.push(&self.last, &pair) {
            let Ok(page) = self.account.lease() else {
                return Err((pair, Fault::NoPage));
            };
            self.open_run.add_page(&mut self.spare, page, &pair);
        }
        self.last = pair.key;
        self.open_len += 1;
        Ok(())
    }

    /// Closes the open run, if it has a pair.
    pub fn end_run(&mut self)
        ensures { self.new ≡ with_run_closed self.old }
    {
        if self.open_run.is_empty() {
            return;
        }
        let none = Chain::new(self.open_run.allocator());
        let pages = mem::replace(&mut self.open_run, none);
        self.runs.push_reserved(Run::new(pages, self.open_len));
        self.open_len = 0;
    }

    /// The number of closed runs.
    pub fn run_count(&self) -> usize
        ensures { result ≡ length self.now.runs }
    {
        self.runs.len()
    }

    /// The number of pairs of closed run `i` that aren't freed.
    pub fn run_len(&self, i: usize) -> usize
        requires { i < length self.now.runs }
        ensures { result ≡ length (pairs_of (get_or self.now.runs i [])) }
    {
        self.runs[i].len()
    }

    /// Reads pair `j` of closed run `i`: its key into `key`, for which there may be no memory.
    pub fn read(&mut self, i: usize, j: usize, key: &mut Key) -> Result<Rid, Fault>
        requires run { i < length self.old.runs }
        requires pair { j < length (pairs_of (get_or self.old.runs i [])) }
        ensures pair { IfOk result (λ rid. IsPairAt (pairs_of (get_or self.old.runs i [])) j key.new rid) }
        ensures memory { IfErr result (λ fault. fault ≡ Fault.Memory) }
        ensures same { self.new ≡ self.old }
    {
        let run = &mut self.runs[i];
        run.read(j, key)
    }

    /// Frees the first `n` pairs of closed run `i`. A page on which none is left goes back to the account.
    pub fn free_front(&mut self, i: usize, n: usize)
        requires run { i < length self.old.runs }
        requires pairs { n ≤ length (pairs_of (get_or self.old.runs i [])) }
        ensures { self.new ≡ with_freed self.old i n }
    {
        let run = &mut self.runs[i];
        run.free_front(n, &mut self.account, &mut self.spare);
    }

    /// How many of the account's pages are leased now: those with a pair that isn't freed.
    pub fn leased(&self) -> usize
        ensures { result ≡ leased_pages self.now }
    {
        self.account.quota() as usize - self.account.free()
    }

    /// Gives every page back to the account, with all pairs; no run is left.
    pub fn end(&mut self)
        ensures { self.new ≡ without_runs self.old }
    {
        while let Some(mut run) = self.runs.pop() {
            let len = run.len();
            run.free_front(len, &mut self.account, &mut self.spare);
        }
        free_first(
            &mut self.open_run,
            self.open_len,
            &mut self.account,
            &mut self.spare,
        );
        self.open_len = 0;
    }

    /// Hands the account over, whole since the spool has no run, and keeps one with no page.
    pub fn take_account(&mut self) -> Account
        requires runs { self.old.runs ≡ [] }
        requires open_run { self.old.open_run ≡ [] }
        ensures account { result ≡ self.old.account }
        ensures whole { IsWhole result }
        ensures left { self.new ≡ new_spool (new_account self.old.account.pool 0) }
    {
        let alloc = self.open_run.allocator();
        let pool = self.account.pool();
        self.spare = Chain::new(alloc);
        mem::replace(&mut self.account, Account::empty(alloc, pool))
    }
}

impl<P: PageOfPairs> Spool for PagedSpool<P> {
    ghost use Rattle.std.specs.Prelude.{Some, ◌≡◌, []};
    ghost use Rattle.spool_ledger.specs.Accounts.{IsWhole, stake_of};
    ghost use Rattle.run_spool.specs.Runs.{pairs_of};
    ghost use Rattle.run_spool.specs.PagedSpools.{IsIntact, IsFullSpool, runs_of, leased_pages};

    ghost runs = { runs_of };

    ghost open_run = { λ spool. pairs_of spool.open_run };

    ghost is_full = { IsFullSpool P.pair_size };

    ghost is_intact = { IsIntact P.pair_size };

    ghost ended = { λ spool. (spool.runs ≡ []) × (spool.open_run ≡ []) × IsWhole spool.account };

    ghost pages = { leased_pages };

    ghost stake = { λ spool. Some (stake_of P.kind spool.account) };

    fn is_empty(&self) -> bool {
        PagedSpool::is_empty(self)
    }

    fn push(&mut self, pair: Pair) -> Result<(), (Pair, Fault)> {
        self.laws();
        PagedSpool::push(self, pair)
    }

    fn end_run(&mut self) {
        self.laws();
        PagedSpool::end_run(self)
    }

    fn run_count(&self) -> usize {
        PagedSpool::run_count(self)
    }

    fn run_len(&self, i: usize) -> usize {
        PagedSpool::run_len(self, i)
    }

    fn read(&mut self, i: usize, j: usize, key: &mut Key) -> Result<Rid, Fault> {
        PagedSpool::read(self, i, j, key)
    }

    fn free_front(&mut self, i: usize, n: usize) {
        PagedSpool::free_front(self, i, n)
    }

    fn leased(&self) -> usize {
        PagedSpool::leased(self)
    }

    fn end(&mut self) {
        PagedSpool::end(self)
    }

    fn take_account(&mut self) -> Option<Account> {
        Some(PagedSpool::take_account(self))
    }
}
