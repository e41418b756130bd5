//! Spools that a build is done with.
ghost use Rattle.std.specs.Prelude.{◌≡◌, All, map};
ghost use Rattle.page_workers.specs.SpoolValue.{spool_value, ended_spool};

use run_spool::{Spool, end_all};

/// Ends each of the spools.
pub fn end_spools<S: Spool>(spools: &mut Vec<S>)
    ensures ended { All S.ended spools.new.items }
    ensures left { map (spool_value S.runs S.open_run S.stake) spools.new.items
        ≡ map ended_spool (map (spool_value S.runs S.open_run S.stake) spools.old.items) }
    ensures stakes { map S.stake spools.new.items ≡ map S.stake spools.old.items }
{
    end_all(spools.as_mut_slice());
}
