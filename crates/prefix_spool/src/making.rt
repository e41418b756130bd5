//! New spools, each of the kind that is chosen for it.
ghost use Rattle.std.specs.Prelude.{◌≡◌, All, map, length, IfOk, IfErr};
ghost use Rattle.spool_ledger.specs.Accounts.{IsWhole};
ghost use Rattle.run_spool.specs.PagedSpools.{new_spool as new_value};
ghost use Rattle.run_spool.specs.Choices.{kinds_from};
ghost use Rattle.prefix_spool.specs.Kinds.{inside, kind_of};

use crate::{PrefixSpool, SpoolOfKind};
use keybytes::Fault;
use run_spool::{PlainSpool, SpoolChoice};
use spool_ledger::{Account, SpoolKind};
use std::alloc::Global;

/// A spool of that kind with no run. An `Err` gives the account back.
pub fn new_spool(
    alloc: Global,
    kind: SpoolKind,
    account: Account,
) -> Result<SpoolOfKind, (Account, Fault)>
    requires { IsWhole account }
    ensures made { IfOk result (λ spool. inside spool ≡ new_value account) }
    ensures kind { IfOk result (λ spool. kind_of spool ≡ kind) }
    ensures back { IfErr result (λ refused. (refused.0 ≡ account) × (refused.1 ≡ Fault.Memory)) }
{
    match kind {
        SpoolKind::Plain => match PlainSpool::new(alloc, account) {
            Ok(spool) => Ok(SpoolOfKind::Plain(spool)),
            Err(refused) => Err(refused),
        },
        SpoolKind::Prefix => match PrefixSpool::new(alloc, account) {
            Ok(spool) => Ok(SpoolOfKind::Prefix(spool)),
            Err(refused) => Err(refused),
        },
    }
}

/// A new spool over each account: the first has number 0, and each is of the kind that is chosen for its number.
pub fn spools_over(
    alloc: Global,
    choice: SpoolChoice,
    accounts: Vec<Account>,
) -> Result<Vec<SpoolOfKind>, Fault>
    requires { All IsWhole accounts.items }
    ensures made { IfOk result (λ spools. map inside spools.items ≡ map new_value accounts.items) }
    ensures kinds { IfOk result (λ spools. map kind_of spools.items ≡ kinds_from choice 0 (length accounts.items)) }
    ensures memory { IfErr result (λ fault. fault ≡ Fault.Memory) }
{
    let mut spools = Vec::with_capacity(alloc, accounts.len())?;
    for account in accounts {
        match new_spool(alloc, choice.kind_at(spools.len()), account) {
            Ok(spool) => spools.push_reserved(spool),
            Err((_, fault)) => return Err(fault),
        }
    }
    Ok(spools)
}
