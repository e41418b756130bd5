//! Spools side by side.
ghost use Rattle.std.specs.Prelude.{◌≡◌, [], All, map};
ghost use Rattle.std.specs.List.{list_all};
ghost use Rattle.run_spool.specs.Spools.{holds_nothing};

use crate::Spool;

/// Gives each leased page of all the spools back, with all pairs.
pub fn end_all<S: Spool>(spools: &mut [S])
    ensures ended { All S.ended spools.new }
    ensures pages { All (λ spool. S.pages spool ≡ 0) spools.new }
    ensures runs { All (λ spool. S.runs spool ≡ []) spools.new }
    ensures open_runs { All (λ spool. S.open_run spool ≡ []) spools.new }
    ensures stakes { map S.stake spools.new ≡ map S.stake spools.old }
{
    for spool in spools {
        spool.end();
    }
}

/// Whether none of the spools has a closed run, or a pair in its open run.
pub fn are_empty<S: Spool>(spools: &[S]) -> bool
    ensures { result ≡ list_all (λ spool. holds_nothing (S.runs spool) (S.open_run spool)) spools.now }
{
    for spool in spools {
        if !spool.is_empty() {
            return false;
        }
    }
    true
}
