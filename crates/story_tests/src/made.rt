//! Spools of several kinds, and whether they come back.
ghost use Rattle.std.specs.Prelude.{◌≡◌, [], IfOk};

use crate::list_spool::{Free, ListSpool, Lists};
use crate::place::Faults;
use crate::story::Stock;
use keybytes::{Fault, Key, Pair, Rid};
use prefix_spool::{Coming, FaultySpool};
use run_spool::{PlainSpool, Spool, give_up};
use spool_ledger::Pool;
use std::alloc::Global;

/// A spool over pages, with a fault that may come to it.
pub type Paged = FaultySpool<PlainSpool>;

/// A kind of spool.
pub trait Made: Spool {
    /// New ones, of which some may fail. Notes how many accounts stand behind them.
    fn made(alloc: Global, stock: &mut Stock, faults: &Faults) -> Result<Vec<Self>, Fault>;
}

/// A spool of that many pages.
fn plain_spool(alloc: Global, quota: u32) -> Result<PlainSpool, Fault>
    ensures { IfOk result (λ spool. spool.runs ≡ []) }
{
    let mut pool = Pool::new(alloc, 1, quota)?;
    let Some(account) = pool.split(alloc, &[quota])?.pop() else {
        return Err(Fault::Memory);
    };
    match PlainSpool::new(alloc, account) {
        Ok(spool) => Ok(spool),
        Err((_, fault)) => Err(fault),
    }
}

impl Made for FaultySpool<PlainSpool> {
    fn made(
        alloc: Global,
        stock: &mut Stock,
        faults: &Faults,
    ) -> Result<Vec<FaultySpool<PlainSpool>>, Fault> {
        stock.accounts = stock.count;
        let mut spools = Vec::new(alloc);
        for number in 0..stock.count {
            let coming = match faults.get(number) {
                Some(coming) => *coming,
                None => Coming::Nothing,
            };
            let mut spool = FaultySpool::new(plain_spool(alloc, stock.quota)?, coming);
            if stock.is_used {
                let _taken = spool.push(Pair {
                    key: Key::new(alloc),
                    rid: Rid { page: 0, slot: 0 },
                });
            }
            spools.push(spool)?;
        }
        Ok(spools)
    }
}

/// A spool for four runs of eight pairs each.
pub fn list_spool(alloc: Global) -> Result<Lists, Fault> {
    ListSpool::new(alloc, 4, 8, Free)
}

impl Made for Lists {
    fn made(alloc: Global, stock: &mut Stock, _faults: &Faults) -> Result<Vec<Lists>, Fault> {
        let mut spools = Vec::new(alloc);
        for _ in 0..stock.count {
            spools.push(list_spool(alloc)?)?;
        }
        Ok(spools)
    }
}

impl Made for Box<dyn Spool + Send> {
    fn made(
        alloc: Global,
        stock: &mut Stock,
        _faults: &Faults,
    ) -> Result<Vec<Box<dyn Spool + Send>>, Fault> {
        stock.accounts = stock.count.div_ceil(2);
        let mut spools = Vec::new(alloc);
        for number in 0..stock.count {
            let spool: Box<dyn Spool + Send> = if number % 2 == 0 {
                Box::new(alloc, plain_spool(alloc, stock.quota)?)?
            } else {
                Box::new(alloc, list_spool(alloc)?)?
            };
            spools.push(spool)?;
        }
        Ok(spools)
    }
}

/// How many accounts, none or one with all its pages, stood behind a spool that was ended; else more than there are.
fn accounts_behind<S: Spool>(spool: S, quota: u32) -> usize {
    let is_ended = spool.is_empty() && spool.leased() == 0;
    match give_up(spool) {
        None if is_ended => 0,
        Some(account) if is_ended && account.quota() == quota && account.free() == quota as usize =>
            { 1 }
        _ => usize::MAX,
    }
}

/// Whether all spools came back, each ended and with all its pages.
pub fn come_back<S: Spool>(spools: Vec<S>, stock: &Stock) -> bool {
    let count = spools.len();
    let mut found: usize = 0;
    for spool in spools {
        found = found.saturating_add(accounts_behind(spool, stock.quota));
    }
    count == stock.count && found == stock.accounts
}
