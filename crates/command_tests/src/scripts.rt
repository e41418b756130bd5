//! Whole scripts, with what they print.

mod bad_scripts;
mod builds;
mod catching_up;
mod descending;
mod odd_bytes;
mod partial;
mod several_indexes;
mod spelled;
mod spools;
mod tables;
mod transactions;
mod unique_indexes;
mod while_in_use;

use crate::case::Case;
use crate::printed::Printed;
use crate::task::Task;
use std::alloc::Global;
use std::sync::Wait;
use std::thread::Threads;

fn cases() -> [&'static [Case]; 13] {
    [
        &tables::CASES,
        &transactions::CASES,
        &builds::CASES,
        &while_in_use::CASES,
        &catching_up::CASES,
        &several_indexes::CASES,
        &unique_indexes::CASES,
        &bad_scripts::CASES,
        &spelled::CASES,
        &odd_bytes::CASES,
        &spools::CASES,
        &descending::CASES,
        &partial::CASES,
    ]
}

/// Whether a run prints what it is to, and a check says what it is to.
fn is_told<A: Threads + Wait + Sync>(rt: &A, alloc: Global, case: &Case) -> bool {
    Printed::by(rt, alloc, Task::Replay, case.script).parts() == case.replayed()
        && Printed::by(rt, alloc, Task::Check, case.script).parts() == case.checked()
}

/// The first of these cases that is told otherwise.
fn told_otherwise<A: Threads + Wait + Sync>(
    rt: &A,
    alloc: Global,
    cases: &'static [Case],
) -> Option<&'static str> {
    for case in cases {
        if !is_told(rt, alloc, case) {
            return Some(case.name);
        }
    }
    None
}

/// The same of all cases.
fn any_told_otherwise<A: Threads + Wait + Sync>(rt: &A, alloc: Global) -> Option<&'static str> {
    for cases in cases() {
        let other = told_otherwise(rt, alloc, cases);
        if other.is_some() {
            return other;
        }
    }
    None
}

#[test]
fn print_what_they_are_to(rt: HostRuntime) {
    assert_eq!(rt; any_told_otherwise(&rt, rt.alloc()), None);
}
