use crate::PrefixSpool;
use keybytes::{Fault, Key, Pair, Rid};
use run_spool::{PlainSpool, Spool};
use spool_ledger::Account;

/// A spool of one of the two kinds. Contracts see its runs, its open run and its account, whatever the kind.
#[derive(Drop)]
pub enum SpoolOfKind {
    /// Its pages keep each pair with its whole key.
    Plain(PlainSpool),
    /// Its pages keep of each key what differs from the key before it.
    Prefix(PrefixSpool),
}

impl Spool for SpoolOfKind {
    ghost use Rattle.std.specs.Prelude.{Some, ◌≡◌, []};
    ghost use Rattle.spool_ledger.specs.Accounts.{IsWhole, stake_of};
    ghost use Rattle.run_spool.specs.Runs.{pairs_of};
    ghost use Rattle.run_spool.specs.PagedSpools.{runs_of, leased_pages};
    ghost use Rattle.prefix_spool.specs.Kinds.{inside, kind_of, IsFullOfKind, IsIntactOfKind};

    ghost runs = { λ spool. runs_of (inside spool) };

    ghost open_run = { λ spool. pairs_of (inside spool).open_run };

    ghost is_full = { IsFullOfKind };

    ghost is_intact = { IsIntactOfKind };

    ghost ended = { λ spool. ((inside spool).runs ≡ []) × ((inside spool).open_run ≡ []) × IsWhole (inside spool).account };

    ghost pages = { λ spool. leased_pages (inside spool) };

    ghost stake = { λ spool. Some (stake_of (kind_of spool) (inside spool).account) };

    fn is_empty(&self) -> bool {
        match self {
            SpoolOfKind::Plain(spool) => Spool::is_empty(spool),
            SpoolOfKind::Prefix(spool) => Spool::is_empty(spool),
        }
    }

    fn push(&mut self, pair: Pair) -> Result<(), (Pair, Fault)> {
        match self {
            SpoolOfKind::Plain(spool) => Spool::push(spool, pair),
            SpoolOfKind::Prefix(spool) => Spool::push(spool, pair),
        }
    }

    fn end_run(&mut self) {
        match self {
            SpoolOfKind::Plain(spool) => Spool::end_run(spool),
            SpoolOfKind::Prefix(spool) => Spool::end_run(spool),
        }
    }

    fn run_count(&self) -> usize {
        match self {
            SpoolOfKind::Plain(spool) => Spool::run_count(spool),
            SpoolOfKind::Prefix(spool) => Spool::run_count(spool),
        }
    }

    fn run_len(&self, i: usize) -> usize {
        match self {
            SpoolOfKind::Plain(spool) => Spool::run_len(spool, i),
            SpoolOfKind::Prefix(spool) => Spool::run_len(spool, i),
        }
    }

    fn read(&mut self, i: usize, j: usize, key: &mut Key) -> Result<Rid, Fault> {
        match self {
            SpoolOfKind::Plain(spool) => Spool::read(spool, i, j, key),
            SpoolOfKind::Prefix(spool) => Spool::read(spool, i, j, key),
        }
    }

    fn free_front(&mut self, i: usize, n: usize) {
        match self {
            SpoolOfKind::Plain(spool) => Spool::free_front(spool, i, n),
            SpoolOfKind::Prefix(spool) => Spool::free_front(spool, i, n),
        }
    }

    fn leased(&self) -> usize {
        match self {
            SpoolOfKind::Plain(spool) => Spool::leased(spool),
            SpoolOfKind::Prefix(spool) => Spool::leased(spool),
        }
    }

    fn end(&mut self) {
        match self {
            SpoolOfKind::Plain(spool) => Spool::end(spool),
            SpoolOfKind::Prefix(spool) => Spool::end(spool),
        }
    }

    fn take_account(&mut self) -> Option<Account> {
        match self {
            SpoolOfKind::Plain(spool) => Spool::take_account(spool),
            SpoolOfKind::Prefix(spool) => Spool::take_account(spool),
        }
    }
}
