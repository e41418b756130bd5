//! What comes back from the workers of a build.
ghost use Rattle.std.specs.Prelude.{◌≡◌, ◌+◌, ◌≤◌, ◌++◌, [], All, length, map, vec_capacity};
ghost use Rattle.page_workers.specs.SpoolValue.{ended_spool, spool_value};
ghost use Rattle.building.specs.BuildingValue.{intakes};
ghost use Rattle.building.specs.Holding.{all_spools};
ghost use Rattle.building.specs.Working.{handed_over};

use index_load::end_spools;
use page_workers::{Intake, Worker};
use run_spool::Spool;

/// The workers hand their spools over and give their rings back, and all spools are ended. There is room for both.
pub fn take_back<S: Spool>(
    workers: &mut Vec<Worker<S>>,
    spools: &mut Vec<S>,
    idle: &mut Vec<Intake>,
)
    requires places { length (all_spools workers.old.items (map (spool_value S.runs S.open_run S.stake) spools.old.items)) ≤ vec_capacity spools.old }
    requires rings { length (intakes workers.old.items idle.old.items) ≤ vec_capacity idle.old }
    ensures workers { workers.new.items ≡ [] }
    ensures idle { idle.new.items ≡ intakes workers.old.items idle.old.items }
    ensures idle_room { vec_capacity idle.new ≡ vec_capacity idle.old }
    ensures left { map (spool_value S.runs S.open_run S.stake) spools.new.items
        ≡ map ended_spool (all_spools workers.old.items (map (spool_value S.runs S.open_run S.stake) spools.old.items)) }
    ensures ended { All S.ended spools.new.items }
    ensures stakes { map S.stake spools.new.items
        ≡ map (λ spool. spool.stake) (all_spools workers.old.items (map (spool_value S.runs S.open_run S.stake) spools.old.items)) }
{
    bring_home(workers, spools);
    free_rings(workers, idle);
    end_spools(spools);
}

/// The workers hand their spools over, which come behind those that are there, in order. There is room for them.
pub fn bring_home<S: Spool>(workers: &mut Vec<Worker<S>>, spools: &mut Vec<S>)
    requires { length (all_spools workers.old.items (map (spool_value S.runs S.open_run S.stake) spools.old.items)) ≤ vec_capacity spools.old }
    ensures workers { workers.new.items ≡ map handed_over workers.old.items }
    ensures spools { map (spool_value S.runs S.open_run S.stake) spools.new.items
        ≡ all_spools workers.old.items (map (spool_value S.runs S.open_run S.stake) spools.old.items) }
    ensures room { vec_capacity spools.new ≡ vec_capacity spools.old }
{
    for k in 0..workers.len() {
        put_behind(workers[k].hand_over(), spools);
    }
}

/// Puts spools behind those that are there.
fn put_behind<S: Spool>(own: Vec<S>, spools: &mut Vec<S>)
    requires { length spools.old.items + length own.items ≤ vec_capacity spools.old }
    ensures spools { spools.new.items ≡ spools.old.items ++ own.items }
    ensures room { vec_capacity spools.new ≡ vec_capacity spools.old }
{
    for spool in own {
        spools.push_reserved(spool);
    }
}

/// The workers give their rings back, before those that are idle. There is room for them. They have handed their spools over before: what
/// spools they still have are lost.
pub fn free_rings<S: Spool>(workers: &mut Vec<Worker<S>>, idle: &mut Vec<Intake>)
    requires { length (intakes workers.old.items idle.old.items) ≤ vec_capacity idle.old }
    ensures workers { workers.new.items ≡ [] }
    ensures idle { idle.new.items ≡ intakes workers.old.items idle.old.items }
    ensures room { vec_capacity idle.new ≡ vec_capacity idle.old }
{
    while let Some(worker) = workers.pop() {
        let (intake, _) = worker.into_parts();
        let Ok(()) = idle.insert(0, intake) else {
            unreachable!()
        };
    }
}
