//! What a build is asked for, and the pages that its spools lease.
ghost use Rattle.race.specs.Builds.{PlansBuild};

use builder_core::Plan;
use keybytes::{Fault, Schema};
use leased_core::Leases;
use prefix_spool::SpoolOfKind;
use replay::{is_in_limits, key_specs};
use run_spool::SpoolChoice;
use script::Build;
use std::alloc::Global;

/// How many turns a build of a race may take.
const TRIES: u32 = 1_000_000;

/// A build that is ready to start.
#[derive(Drop)]
pub struct Planned {
    pub plan: Plan,
    pub leases: Leases,
    pub spools: Vec<SpoolOfKind>,
}

/// The plan of a record `build` on a table with these columns, with its spools, of the kinds that are chosen.
/// [`Fault::BadCount`], then [`Fault::BadColumn`].
pub fn plan_build(
    alloc: Global,
    schema: &Schema,
    workers: usize,
    choice: SpoolChoice,
    build: Build,
) -> Result<Planned, Fault>
    ensures { PlansBuild workers schema.now choice build result }
{
    if !is_in_limits(workers, build.specs.len(), build.quota) {
        return Err(Fault::BadCount);
    }
    let plan = Plan {
        specs: key_specs(alloc, schema, build.specs)?,
        workers,
        dealing: build.dealing,
        tries: TRIES,
        keep_pairs: false,
    };
    let spools = workers * plan.specs.len();
    let (leases, spools) = Leases::new(alloc, choice, spools, build.quota)?;
    Ok(Planned {
        plan,
        leases,
        spools,
    })
}
