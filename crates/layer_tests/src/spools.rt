//! What spools keep, for plain ones and for those in a box.
ghost use Rattle.std.specs.Prelude.{◌≡◌, ◌<◌, length, IfOk};
ghost use Rattle.spool_ledger.specs.Accounts.{new_account};
ghost use Rattle.run_spool.specs.PagedSpools.{new_spool};
ghost use Rattle.run_spool.specs.Spools.{NoneEmpty};

use keybytes::{Fault, Key, Pair, Rid};
use run_spool::{PlainSpool, Spool};
use spool_ledger::Pool;
use std::alloc::Global;

/// A plain spool with that many pages, which are all of a pool.
pub fn plain_spool(alloc: Global, pages: u32) -> Result<PlainSpool, Fault>
    ensures { IfOk result (λ spool. spool ≡ new_spool (new_account 1 pages)) }
{
    let mut pool = Pool::new(alloc, 1, pages)?;
    let Some(account) = pool.split(alloc, &[pages])?.pop() else {
        return Err(Fault::Memory);
    };
    match PlainSpool::new(alloc, account) {
        Ok(spool) => Ok(spool),
        Err((_, fault)) => Err(fault),
    }
}

/// A pair of a key of nine bytes, which takes 17 bytes of a page.
fn pair(alloc: Global, number: u32) -> Result<Pair, Fault> {
    let mut key = Key::new(alloc);
    key.add(&[1])?;
    key.add(&(number as u64).to_be_bytes())?;
    Ok(Pair {
        key,
        rid: Rid {
            page: number,
            slot: 7,
        },
    })
}

/// Pushes pairs until so many are there or one comes back for want of a page, and answers how many there are.
fn push_pairs<S: Spool>(alloc: Global, spool: &mut S, most: u32) -> Result<u32, Fault>
    requires { NoneEmpty (S.runs spool.old) }
    ensures { S.runs spool.new ≡ S.runs spool.old }
{
    for number in 0..most {
        if let Err((back, fault)) = spool.push(pair(alloc, number)?) {
            return if fault == Fault::NoPage && back == pair(alloc, number)? {
                Ok(number)
            } else {
                Err(fault)
            };
        }
    }
    Ok(most)
}

/// Whether the pairs of the closed run are those of the numbers from there on.
fn reads<S: Spool>(alloc: Global, spool: &mut S, from: u32) -> Result<bool, Fault>
    requires { 0 < length (S.runs spool.old) }
    ensures { S.runs spool.new ≡ S.runs spool.old }
{
    let mut key = Key::new(alloc);
    let mut number = from;
    for place in 0..spool.run_len(0) {
        let rid = spool.read(0, place, &mut key)?;
        let wanted = pair(alloc, number)?;
        if rid != wanted.rid || key != wanted.key {
            return Ok(false);
        }
        number = number.wrapping_add(1);
    }
    Ok(true)
}

/// Whether an empty spool takes so many of 300 pairs, and keeps them as a run, and those of them that aren't freed.
pub fn keeps<S: Spool>(alloc: Global, spool: &mut S, count: u32) -> Result<bool, Fault> {
    if !spool.is_empty() || push_pairs(alloc, spool, 300)? != count {
        return Ok(false);
    }
    spool.end_run();
    if spool.run_count() != 1 || spool.run_len(0) < 50 || !reads(alloc, spool, 0)? {
        return Ok(false);
    }
    spool.free_front(0, spool.run_len(0) - 50);
    if spool.run_len(0) != 50 || !reads(alloc, spool, count.wrapping_sub(50))? {
        return Ok(false);
    }
    spool.free_front(0, 50);
    Ok(spool.run_len(0) == 0 && spool.run_count() == 1 && !spool.is_empty())
}

pub fn keeps_plain(alloc: Global, pages: u32, count: u32) -> Result<bool, Fault> {
    keeps(alloc, &mut plain_spool(alloc, pages)?, count)
}

pub fn keeps_boxed(alloc: Global, pages: u32, count: u32) -> Result<bool, Fault> {
    let mut spool: Box<dyn Spool + Send> = Box::new(alloc, plain_spool(alloc, pages)?)?;
    keeps(alloc, &mut spool, count)
}
