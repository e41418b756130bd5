ghost use Rattle.std.specs.Prelude.{◌≡◌, ◌≤◌, ◌++◌, ◌+◌, All, map, length, MatchOption, option_map, vec_len, vec_capacity};
ghost use Rattle.spool_ledger.specs.Accounts.{IsWhole, share_in, share_of};
ghost use Rattle.run_spool.specs.Spools.{shares_in};

use crate::Spool;
use spool_ledger::Account;

/// Ends a spool and lets it go. Answers the account that stood behind it, if there was one, with all its pages.
pub fn give_up<S: Spool>(mut spool: S) -> Option<Account>
    ensures share { option_map share_in (S.stake spool) ≡ option_map share_of result }
    ensures whole { MatchOption result (Unit {0}) IsWhole }
{
    spool.end();
    spool.take_account()
}

/// Ends spools and lets them go. The accounts that stood behind them come behind those that are there, in order; it takes no
/// memory.
pub fn give_up_all<S: Spool>(spools: Vec<S>, accounts: &mut Vec<Account>)
    requires room { vec_len accounts.old + vec_len spools ≤ vec_capacity accounts.old }
    ensures whole { All IsWhole accounts.old.items → All IsWhole accounts.new.items }
    ensures shares { map share_of accounts.new.items ≡ map share_of accounts.old.items ++ shares_in (map S.stake spools.items) }
{
    for spool in spools {
        if let Some(account) = give_up(spool) {
            accounts.push_reserved(account);
        }
    }
}
