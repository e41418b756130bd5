//! The build of a race.
ghost use Rattle.std.specs.Prelude.{◌≡◌, Some, None, Err, IfErr, IfOk, IsOk, OnOk};
ghost use Rattle.crew.specs.Reports.{EndsFor, IsReport, lists_in};
ghost use Rattle.leased_core.specs.Leasing.{IsBackOf};
ghost use Rattle.race.specs.Builds.{EndsPlanned, EndsRun, IsLeased, IsOutcomeIn, leases_in};

use crate::Watch;
use crate::built::Built;
use crate::outcome::Outcome;
use crate::planned::Planned;
use crate::watching::Watching;
use builder_core::{Ends, Plan};
use crew::{BuildFault, Opened, Report, Table, build};
use keybytes::Fault;
use leased_core::HandedBack;
use replay::shared_lines;
use std::alloc::Global;
use std::sync::Wait;
use std::thread::Threads;

/// Runs the build, if it was planned, and gives its spools up. Meanwhile it is shown to who watches.
pub fn run_build<T: Opened + Send + Sync, R: Threads + Wait + Sync, V: Watch + Send + Drop>(
    rt: &R,
    alloc: Global,
    table: &Table<T>,
    ends: Ends<T>,
    planned: Result<Planned, Fault>,
    watch: V,
) -> Built<T>
    requires { IfOk planned IsLeased }
    ensures back { IsBackOf (leases_in planned) result.back }
    ensures build { EndsPlanned T.opening result.receipt planned result.build }
{
    match planned {
        Ok(planned) => run_planned(rt, alloc, table, ends, planned, watch),
        Err(fault) => {
            let back = HandedBack {
                pool: None,
                missing: 0,
            };
            undecided(fault, back)
        }
    }
}

fn run_planned<T: Opened + Send + Sync, R: Threads + Wait + Sync, V: Watch + Send + Drop>(
    rt: &R,
    alloc: Global,
    table: &Table<T>,
    ends: Ends<T>,
    planned: Planned,
    watch: V,
) -> Built<T>
    requires { IsLeased planned }
    ensures back { IsBackOf (Some planned.leases) result.back }
    ensures build { EndsRun T.opening planned.plan.specs.items result.receipt result.build }
{
    let Planned {
        plan,
        leases,
        spools,
    } = planned;
    let gate = Watching::new(rt, table, watch);
    let (_ends, spools, reported) = build(rt, alloc, table, ends, &plan, spools, &gate);
    gate.end();
    let (pool, missing) = leases.reclaim(spools);
    let back = HandedBack {
        pool: Some(pool),
        missing,
    };
    ended(alloc, &plan, reported, back)
}

/// What a build gave.
fn ended<T: Opened>(
    alloc: Global,
    plan: &Plan,
    reported: Result<Report<T>, BuildFault>,
    back: HandedBack,
) -> Built<T>
    requires reported { IfOk reported (λ report. IsReport T.opening plan.now.specs.items report.receipt report.verdicts (lists_in report.pairs)) }
    requires given_up { IfErr reported (λ fault. EndsFor plan.now.specs.items fault.0) }
    ensures back { result.back ≡ back }
    ensures decided { OnOk reported (IsOk result.build) }
    ensures fault { IfErr reported (λ fault. result.build ≡ Err fault.0) }
    ensures build { EndsRun T.opening plan.now.specs.items result.receipt result.build }
{
    match reported {
        Ok(report) => decided(alloc, plan, report, back),
        Err(BuildFault(fault)) => undecided(fault, back),
    }
}

/// A build that was refused or given up.
fn undecided<T: Opened>(fault: Fault, back: HandedBack) -> Built<T>
    ensures build { result.build ≡ Err fault }
    ensures receipt { result.receipt ≡ None }
    ensures back { result.back ≡ back }
{
    Built {
        build: Err(fault),
        receipt: None,
        back,
    }
}

/// What a build that decided gave.
fn decided<T: Opened>(alloc: Global, plan: &Plan, report: Report<T>, back: HandedBack) -> Built<T>
    requires { IsReport T.opening plan.now.specs.items report.receipt report.verdicts (lists_in report.pairs) }
    ensures back { result.back ≡ back }
    ensures decided { IsOk result.build }
    ensures build { IfOk result.build (IsOutcomeIn T.opening plan.now.specs.items result.receipt) }
{
    let Report {
        receipt,
        verdicts,
        ..
    } = report;
    Built {
        build: Ok(Outcome {
            shared: shared_lines(alloc, plan.specs.as_slice(), verdicts.as_slice()),
            verdicts,
        }),
        receipt: Some(receipt),
        back,
    }
}
