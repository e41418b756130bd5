//! Sessions in threads of their own, and a build beside them.
ghost use Rattle.std.specs.Prelude.{◌≡◌, ◌≤◌, ◌<◌, ◌+◌, ◌++◌, List, [], map, IfOk, vec_len, vec_capacity};
ghost use Rattle.std.specs.List.{AllZip};
ghost use Rattle.race.specs.Builds.{EndsPlanned, IsLeased};
ghost use Rattle.race.specs.OneLog.{AreGathered, AreLeft};
ghost use Rattle.race.specs.Sessions.{HasRun};
ghost use Rattle.race.specs.declared.session_script.SessionScript.{SessionScript};

use crate::Watch;
use crate::builder::run_build;
use crate::built::Built;
use crate::ended::Ended;
use crate::ends_script::EndsScript;
use crate::gathered::Gathered;
use crate::outcome::Outcome;
use crate::planned::Planned;
use crate::session::{SessionEnd, run_session};
use crate::session_line::SessionLine;
use crate::session_script::SessionScript;
use builder_core::Ends;
use crew::{Opened, Table};
use keybytes::Fault;
use std::alloc::Global;
use std::snapshot::Snapshot;
use std::sync::Wait;
use std::thread;
use std::thread::{PromisedHandle, Scope, Threads};

/// Runs a session.
fn run_one<T: Opened, R: Wait>(
    rt: &R,
    alloc: Global,
    table: &Table<T>,
    script: SessionScript,
) -> Ended<T>
    ensures { HasRun T.opening script result }
{
    let SessionScript {
        session: number,
        commands,
    } = script;
    let SessionEnd {
        accepted,
        refused,
        receipts,
        known,
    } = run_session(rt, alloc, table.session(rt), commands);
    Ended {
        line: SessionLine {
            session: number,
            accepted,
            refused,
        },
        receipts,
        known,
    }
}

/// Runs sessions one after the other. There is room for what they leave.
fn run_here<T: Opened, R: Wait>(
    rt: &R,
    alloc: Global,
    table: &Table<T>,
    scripts: Vec<SessionScript>,
    ended: &mut Vec<Ended<T>>,
)
    requires { vec_len ended.old + vec_len scripts ≤ vec_capacity ended.old }
    ensures ran { (before : List SessionScript) → AllZip (HasRun T.opening) before ended.old.items
        → AllZip (HasRun T.opening) (before ++ scripts.items) ended.new.items }
    ensures many { vec_len ended.new ≡ vec_len ended.old + vec_len scripts }
{
    for script in scripts {
        ended.push_reserved(run_one(rt, alloc, table, script));
    }
}

/// Starts a thread for each session. Where one can't be started, its session and those behind it are run here, one after the other.
fn start<'s, 'e, T: Opened + Send + Sync + 'e, R: Threads + Wait + Sync>(
    scope: &'s Scope<'s, &'e ()>,
    rt: &'e R,
    alloc: Global,
    table: &'e Table<T>,
    mut scripts: Vec<SessionScript>,
    mut handles: Vec<PromisedHandle<Ended<T>, EndsScript>>,
    mut ended: Vec<Ended<T>>,
) -> (Vec<PromisedHandle<Ended<T>, EndsScript>>, Vec<Ended<T>>)
    requires none { (handles.items ≡ []) × (ended.items ≡ []) }
    requires room { (vec_len scripts ≤ vec_capacity handles) × (vec_len scripts ≤ vec_capacity ended) }
    ensures all { (rest : List SessionScript) × (map (λ handle. handle.promise.script.value) result.0.items ++ rest ≡ scripts.items)
        × AllZip (HasRun T.opening) rest result.1.items }
    ensures many { vec_len result.0 + vec_len result.1 ≡ vec_len scripts }
{
    while !scripts.is_empty() {
        let script = scripts.remove(0);
        let promise = EndsScript {
            script: Snapshot::of(&script),
        };
        match scope.spawn_with(promise, move || run_one(rt, alloc, table, script)) {
            Ok(handle) => handles.push_reserved(handle),
            Err(refused) => {
                ended.push_reserved((refused.value)());
                run_here(rt, alloc, table, scripts, &mut ended);
                return (handles, ended);
            }
        }
    }
    (handles, ended)
}

/// Waits for each thread, and puts together what all sessions leave, behind the receipts that are there.
fn gather<T: Opened, R: Threads>(
    rt: &R,
    handles: Vec<PromisedHandle<Ended<T>, EndsScript>>,
    ended: Vec<Ended<T>>,
    gathered: &mut Gathered<T>,
)
    requires none { (gathered.old.lines.items ≡ []) × (gathered.old.known.items ≡ []) }
    requires room { (vec_len handles + vec_len ended ≤ vec_capacity gathered.old.lines) × (vec_len handles + vec_len ended ≤ vec_capacity gathered.old.known) }
    ensures { (rest : List SessionScript) → AllZip (HasRun T.opening) rest ended.items
        → AreGathered T.opening gathered.old.receipts.items (map (λ handle. handle.promise.script.value) handles.items ++ rest)
        gathered.new.lines.items gathered.new.known.items gathered.new.receipts.items }
{
    for handle in handles {
        gathered.put(handle.join(rt));
    }
    for one in ended {
        gathered.put(one);
    }
}

/// Runs each session in a thread of its own, and the build in this one, which is shown to who watches.
pub fn run_beside<
    'e,
    T: Opened + Send + Sync + 'e,
    R: Threads + Wait + Sync,
    V: Watch + Send + Drop,
>(
    rt: &'e R,
    alloc: Global,
    table: &'e Table<T>,
    ends: Ends<T>,
    planned: Result<Planned, Fault>,
    watch: V,
    scripts: Vec<SessionScript>,
    handles: Vec<PromisedHandle<Ended<T>, EndsScript>>,
    ended: Vec<Ended<T>>,
    gathered: Gathered<T>,
) -> (Result<Outcome, Fault>, usize, Gathered<T>)
    requires leased { IfOk planned IsLeased }
    requires none { (handles.items ≡ []) × (ended.items ≡ []) }
    requires none_gathered { (gathered.lines.items ≡ []) × (gathered.known.items ≡ []) × (gathered.receipts.items ≡ []) }
    requires room { (vec_len scripts ≤ vec_capacity handles) × (vec_len scripts ≤ vec_capacity ended) }
    requires room_to_gather { (vec_len scripts ≤ vec_capacity gathered.lines) × (vec_len scripts ≤ vec_capacity gathered.known) × (0 < vec_capacity gathered.receipts) }
    ensures pages { result.1 ≡ 0 }
    ensures left { AreLeft T.opening planned scripts.items result.0 result.2.lines.items result.2.known.items result.2.receipts.items }
{
    thread::scope(
        thread::scope_env(),
        rt,
        move |scope| -> (Result<Outcome, Fault>, usize, Gathered<T>)
            requires leased { IfOk planned IsLeased }
            requires none { (handles.items ≡ []) × (ended.items ≡ []) }
            requires none_gathered { (gathered.lines.items ≡ []) × (gathered.known.items ≡ []) × (gathered.receipts.items ≡ []) }
            requires room { (vec_len scripts ≤ vec_capacity handles) × (vec_len scripts ≤ vec_capacity ended) }
            requires room_to_gather { (vec_len scripts ≤ vec_capacity gathered.lines) × (vec_len scripts ≤ vec_capacity gathered.known)
                × (0 < vec_capacity gathered.receipts) }
            ensures pages { result.1 ≡ 0 }
            ensures left { AreLeft T.opening planned scripts.items result.0 result.2.lines.items result.2.known.items result.2.receipts.items }
        {
            let (handles, ended) = start(scope, rt, alloc, table, scripts, handles, ended);
            let Built {
                build,
                receipt,
                back,
            } = run_build(rt, alloc, table, ends, planned, watch);
            let mut gathered = gathered;
            gathered.keep_first(receipt);
            gather(rt, handles, ended, &mut gathered);
            (build, back.missing, gathered)
        },
    )
}
