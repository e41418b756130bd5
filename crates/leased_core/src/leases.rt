ghost use Rattle.std.specs.Prelude.{◌≡◌, ◌≤◌, ◌<◌, ◌^◌, All, map, replicate, IfOk, IfErr};
ghost use Rattle.run_spool.specs.Choices.{kinds_from};
ghost use Rattle.spool_ledger.specs.Pools.{with_back};
ghost use Rattle.prefix_spool.specs.Kinds.{kind_of};
ghost use Rattle.leased_core.specs.Leasing.{AreOf, new_spools, spools_of_kinds, stake_in};

use keybytes::Fault;
use prefix_spool::{SpoolOfKind, spools_over};
use run_spool::{SpoolChoice, give_up_all};
use spool_ledger::{Account, Pool};
use std::alloc::Global;
use std::marker::Model;

/// The pool whose pages the spools of one build lease, and room for their accounts, so that these come back without memory. Contracts
/// see the pool, and how many accounts there is room for.
#[derive(Drop)]
pub struct Leases {
    pool: Pool,
    accounts: Vec<Account>,
}

impl Model for Leases {
    ghost use Rattle.std.specs.Prelude.{◌≡◌, [], vec_capacity};
    ghost use Rattle.leased_core.specs.Leasing.{LeasesValue};

    ghost Value = { LeasesValue };

    ghost view = { λ leases. record { pool = leases.pool; room = vec_capacity leases.accounts } };

    ghost invariant = { λ leases. leases.accounts.items ≡ [] };
}

impl Leases {
    /// A pool of as many pages as that many spools may lease, each up to its quota, and these spools, of the kinds that are chosen.
    pub fn new(
        alloc: Global,
        choice: SpoolChoice,
        spools: usize,
        quota: usize,
    ) -> Result<(Leases, Vec<SpoolOfKind>), Fault>
        requires spools { spools ≤ 128 }
        requires quota { quota ≤ 1024 }
        ensures leased { IfOk result (λ made. AreOf made.0 (map stake_in made.1.items)) }
        ensures fresh { IfOk result (λ made. spools_of_kinds made.1.items ≡ new_spools choice spools quota) }
        ensures kinds { IfOk result (λ made. map kind_of made.1.items ≡ kinds_from choice 0 spools) }
        ensures all_out { IfOk result (λ made. made.0.pool.free ≡ 0) }
        ensures memory { IfErr result (λ fault. fault ≡ Fault.Memory) }
    {
        let quotas = quotas(alloc, spools, quota as u32)?;
        let mut pool = Pool::new(alloc, 0, (spools * quota) as u32)?;
        let accounts = pool.split(alloc, quotas.as_slice())?;
        let leases = Leases {
            pool,
            accounts: Vec::with_capacity(alloc, spools)?,
        };
        Ok((leases, spools_over(alloc, choice, accounts)?))
    }

    /// Gives the spools up, and hands the pool back with the pages that were out, beside how many of these are missing. It takes no memory.
    pub fn reclaim(self, spools: Vec<SpoolOfKind>) -> (Pool, usize)
        requires { AreOf self (map stake_in spools.items) }
        ensures pool { result.0 ≡ with_back self.pool self.pool.out }
        ensures missing { result.1 ≡ 0 }
    {
        let Leases {
            mut pool,
            mut accounts,
        } = self;
        give_up_all(spools, &mut accounts);
        let missing = match pool.reclaim(accounts) {
            Ok(()) => 0,
            Err(Fault::Short(missing)) => missing,
            Err(_) => unreachable!(),
        };
        (pool, missing)
    }
}

/// That quota, so many times.
fn quotas(alloc: Global, count: usize, quota: u32) -> Result<Vec<u32>, Fault>
    ensures made { IfOk result (λ quotas. quotas.items ≡ replicate count quota) }
    ensures memory { IfErr result (λ fault. fault ≡ Fault.Memory) }
{
    let mut quotas = Vec::with_capacity(alloc, count)?;
    for _ in 0..count {
        quotas.push_reserved(quota);
    }
    Ok(quotas)
}
