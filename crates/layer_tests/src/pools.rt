//! A pool of four pages.

use keybytes::Fault;
use spool_ledger::Pool;
use std::alloc::Global;

const PAGES: u32 = 4;

/// Whether the quotas are refused, and no page is gone then.
pub fn refuses(alloc: Global, quotas: &[u32]) -> Result<bool, Fault> {
    let mut pool = Pool::new(alloc, 1, PAGES)?;
    is_refused(alloc, &mut pool, quotas)
}

fn is_refused(alloc: Global, pool: &mut Pool, quotas: &[u32]) -> Result<bool, Fault> {
    let refused = pool.split(alloc, quotas).err();
    Ok(refused == Some(Fault::BadCount) && pool.split(alloc, &[PAGES])?.len() == 1)
}

/// Leases the first account's one page, and gives it back if asked; what the pool answers that reclaims both accounts then.
pub fn reclaimed(alloc: Global, gives_back: bool) -> Result<Result<(), Fault>, Fault> {
    let mut pool = Pool::new(alloc, 1, PAGES)?;
    let mut accounts = pool.split(alloc, &[1, 3])?;
    let first = &mut accounts[0];
    let page = first.lease()?;
    let none_left = first.lease().err() == Some(Fault::NoPage) && first.free() == 0;
    if gives_back {
        first.give_back(page);
    }
    if !none_left {
        return Err(Fault::BadCount);
    }
    Ok(pool.reclaim(accounts))
}
