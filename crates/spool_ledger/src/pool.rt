ghost use Rattle.std.specs.Prelude.{◌≡◌, ◌↔◌, ◌+◌, ◌-◌, ◌≤◌, ◌<◌, All, IsOk, IfOk, IfErr, map, sum, vec_len, vec_capacity};
ghost use Rattle.std.specs.List.{sum_by};
ghost use Rattle.keybytes.specs.Answered.{Answered};
ghost use Rattle.spool_ledger.specs.Accounts.{IsWhole, leased, filled, unfilled};
ghost use Rattle.spool_ledger.specs.Pools.{new_pool, split_refusal, Splits, after_reclaim, quota_of};

use crate::{Account, Page};
use keybytes::Fault;
use std::alloc::Global;
use std::marker::Model;

/// The pages of one pool: some are here, the others are split off into accounts. Contracts see the pool's number and how many
/// pages are here and how many are out.
#[derive(Drop)]
pub struct Pool {
    number: u64,
    pages: Vec<Page>,
    out: usize,
}

impl Model for Pool {
    ghost use Rattle.std.specs.Prelude.{vec_len, vec_capacity, ◌+◌, ◌≤◌};
    ghost use Rattle.spool_ledger.specs.Pools.{PoolValue};

    ghost Value = { PoolValue };

    ghost view = { λ pool. record { number = pool.number; free = vec_len pool.pages; out = pool.out } };

    ghost invariant = { λ pool. vec_len pool.pages + pool.out ≤ vec_capacity pool.pages };
}

impl Pool {
    /// A pool of that many pages, with their memory.
    pub fn new(alloc: Global, number: u64, pages: u32) -> Result<Pool, Fault>
        ensures ok { IfOk result (λ pool. pool ≡ new_pool number pages) }
        ensures memory { IfErr result (λ fault. fault ≡ Fault.Memory) }
    {
        let mut free = Vec::with_capacity(alloc, pages as usize)?;
        for _ in 0..pages {
            free.push_reserved(Page::new(alloc)?);
        }
        Ok(Pool {
            number,
            pages: free,
            out: 0,
        })
    }

    /// An account for each quota, in order, with all its pages. [`Fault::BadCount`] where the pool has fewer free pages than the
    /// quotas together.
    pub fn split(&mut self, alloc: Global, quotas: &[u32]) -> Result<Vec<Account>, Fault>
        ensures { Answered (split_refusal self.old quotas.now) (Splits quotas.now) self.old result self.new }
    {
        let free = self.pages.len();
        let mut left = free;
        for &quota in quotas {
            left = left.checked_sub(quota as usize).ok_or(Fault::BadCount)?;
        }
        let mut accounts = accounts_with_room(alloc, self.number, quotas)?;
        fill_all(&mut accounts, &mut self.pages);
        self.out += free - left;
        Ok(accounts)
    }

    /// Takes in the free pages of accounts that were split off. [`Fault::Short`], with the number of the pages that are missing,
    /// where an account doesn't have its quota.
    pub fn reclaim(&mut self, accounts: Vec<Account>) -> Result<(), Fault>
        requires own { All (λ account. account.pool ≡ self.old.number) accounts.items }
        requires out { sum_by quota_of accounts.items ≤ self.old.out }
        ensures whole { IsOk result ↔ All IsWhole accounts.items }
        ensures short { IfErr result (λ fault. fault ≡ Fault.Short (sum_by leased accounts.items)) }
        ensures taken_in { self.new ≡ after_reclaim self.old accounts.items }
    {
        let mut missing = 0;
        for account in accounts {
            missing += account.quota() as usize - account.free();
            self.out -= account.free();
            account.into_pages(&mut self.pages);
        }
        if missing == 0 {
            return Ok(());
        }
        Err(Fault::Short(missing))
    }
}

// Accounts that have no page yet, with room for their quotas.
fn accounts_with_room(alloc: Global, number: u64, quotas: &[u32]) -> Result<Vec<Account>, Fault>
    ensures made { IfOk result (λ accounts. accounts.items ≡ map (unfilled number) quotas.now) }
    ensures memory { IfErr result (λ fault. fault ≡ Fault.Memory) }
{
    let mut accounts = Vec::with_capacity(alloc, quotas.len())?;
    for &quota in quotas {
        accounts.push_reserved(Account::with_room(alloc, number, quota)?);
    }
    Ok(accounts)
}

// Moves pages into the accounts until each has its quota.
fn fill_all(accounts: &mut [Account], pages: &mut Vec<Page>)
    requires enough { sum_by leased accounts.old ≤ vec_len pages.old }
    ensures filled { accounts.new ≡ map filled accounts.old }
    ensures taken { vec_len pages.new + sum_by leased accounts.old ≡ vec_len pages.old }
    ensures room { vec_capacity pages.new ≡ vec_capacity pages.old }
{
    for account in accounts.iter_mut() {
        account.fill(pages);
    }
}
