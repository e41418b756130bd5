//! The course of a race.
ghost use Rattle.std.specs.Prelude.{◌≡◌, ◌≤◌, ◌<◌, [], IfOk, vec_len, vec_capacity};
ghost use Rattle.race.specs.Builds.{EndsPlanned, IsLeased};
ghost use Rattle.race.specs.OneLog.{IsToldOf};
ghost use Rattle.race.specs.Races.{IsReportOf};

use crate::Watch;
use crate::ended::Ended;
use crate::ends_script::EndsScript;
use crate::gathered::Gathered;
use crate::planned::{Planned, plan_build};
use crate::race_report::RaceReport;
use crate::resting::check_all;
use crate::rows::put_rows;
use crate::session_script::SessionScript;
use crate::splitting::sessions_of;
use crate::threads::run_beside;
use builder_core::Parts;
use crew::{Closed, Opened, TableParts};
use heap_table::Heap;
use keybytes::Fault;
use replay::table_heap;
use script::RaceScript;
use std::alloc::Global;
use std::marker::Brand;
use std::sync::Wait;
use std::thread::{PromisedHandle, Threads};

/// Runs a race, and tells how it went. It is refused where its table is, or where there is no memory to begin with it.
pub fn run_race<R: Threads + Wait + Sync, V: Watch + Send + Drop>(
    rt: &R,
    alloc: Global,
    workers: usize,
    script: RaceScript,
    watch: V,
) -> Result<RaceReport, Fault>
    ensures { IfOk result (IsReportOf workers script) }
{
    let RaceScript {
        table,
        rows,
        choice,
        build,
        steps,
        ..
    } = script;
    // A command writes one record at most, and its undo another.
    let records = 2 * steps.len();
    let mut heap = table_heap(alloc, table)?;
    let planned = plan_build(alloc, heap.schema(), workers, choice, build);
    put_rows(&mut heap, rows);
    let sessions = sessions_of(alloc, steps)?;
    let parts = table_parts(alloc, heap)?;
    run_named::<Brand, R, V>(rt, alloc, parts, planned, sessions, records, watch)
}

/// The table, ready to be shared.
fn table_parts(alloc: Global, heap: Heap) -> Result<TableParts, Fault>
    ensures { IfOk result (λ made. made.parts.heap ≡ heap.state) }
{
    let parts = match Parts::new(alloc, heap) {
        Ok(parts) => parts,
        Err((_, fault)) => return Err(fault),
    };
    match TableParts::new(alloc, parts) {
        Ok(parts) => Ok(parts),
        Err((_, fault)) => Err(fault),
    }
}

/// The same on a table with a name. Sessions may write so many records.
fn run_named<T: Opened + Send + Sync, R: Threads + Wait + Sync, V: Watch + Send + Drop>(
    rt: &R,
    alloc: Global,
    parts: TableParts,
    planned: Result<Planned, Fault>,
    sessions: Vec<SessionScript>,
    records: usize,
    watch: V,
) -> Result<RaceReport, Fault>
    requires word { parts.word ≡ T.table }
    requires pages { parts.parts.pages ≡ T.pages }
    requires sides { parts.parts.sides ≡ T.sides }
    requires opening { parts.parts.heap.log ≡ T.opening }
    requires leased { IfOk planned IsLeased }
    ensures pages { IfOk result (λ report. report.pages ≡ 0) }
    ensures told { IfOk result (λ report. IsToldOf T.opening (λ switched. EndsPlanned T.opening switched planned report.build) sessions.items report) }
{
    let gathered = Gathered::<T>::new(alloc, sessions.len(), records.saturating_add(1))?;
    let handles = Vec::with_capacity(alloc, sessions.len())?;
    let ended = Vec::with_capacity(alloc, sessions.len())?;
    Ok(run_reserved(
        rt, alloc, parts, planned, watch, sessions, handles, ended, gathered,
    ))
}

/// The same with room for the threads, and for what the sessions leave.
fn run_reserved<T: Opened + Send + Sync, R: Threads + Wait + Sync, V: Watch + Send + Drop>(
    rt: &R,
    alloc: Global,
    parts: TableParts,
    planned: Result<Planned, Fault>,
    watch: V,
    sessions: Vec<SessionScript>,
    handles: Vec<PromisedHandle<Ended<T>, EndsScript>>,
    ended: Vec<Ended<T>>,
    gathered: Gathered<T>,
) -> RaceReport
    requires word { parts.word ≡ T.table }
    requires rings { parts.parts.pages ≡ T.pages }
    requires sides { parts.parts.sides ≡ T.sides }
    requires opening { parts.parts.heap.log ≡ T.opening }
    requires leased { IfOk planned IsLeased }
    requires none { (handles.items ≡ []) × (ended.items ≡ []) }
    requires none_gathered { (gathered.lines.items ≡ []) × (gathered.known.items ≡ []) × (gathered.receipts.items ≡ []) }
    requires room { (vec_len sessions ≤ vec_capacity handles) × (vec_len sessions ≤ vec_capacity ended) }
    requires room_to_gather { (vec_len sessions ≤ vec_capacity gathered.lines) × (vec_len sessions ≤ vec_capacity gathered.known) × (0 < vec_capacity gathered.receipts) }
    ensures pages { result.pages ≡ 0 }
    ensures told { IsToldOf T.opening (λ switched. EndsPlanned T.opening switched planned result.build) sessions.items result }
{
    let (table, ends) = parts.open::<T>();
    let (build, pages, gathered) = run_beside(
        rt, alloc, &table, ends, planned, watch, sessions, handles, ended, gathered,
    );
    let Gathered {
        lines,
        known,
        receipts,
        mut checks,
    } = gathered;
    let Closed { mut live, missing } = table.close_with(receipts, known);
    check_all(&mut live, &mut checks);
    RaceReport {
        build,
        sessions: lines,
        checks,
        receipts: missing,
        pages,
    }
}
