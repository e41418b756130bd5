//! What all tasks print, by tables.

use crate::run::{Run, told_otherwise};
use crate::{
    conversations, index_files, index_orders, index_refusals, layers, long_scripts, pictures,
    race_runs, races, verdicts,
};
use std::alloc::{AllocError, Global};
use std::sync::Wait;
use std::test::Fail;
use std::thread::Threads;

// Each file hands its own out: a proof that knows the values of all of them at once grows too large.
fn tables() -> [&'static [Run]; 12] {
    [
        conversations::runs(),
        index_files::files(),
        index_files::look_ups(),
        index_files::refused(),
        index_orders::runs(),
        index_refusals::runs(),
        layers::runs(),
        long_scripts::runs(),
        pictures::runs(),
        race_runs::runs(),
        races::runs(),
        verdicts::runs(),
    ]
}

/// The first run that prints something else.
fn any_told_otherwise<A: Threads + Wait + Sync>(
    rt: &A,
    alloc: Global,
) -> Result<Option<&'static str>, AllocError> {
    for runs in tables() {
        let other = told_otherwise(rt, alloc, runs)?;
        if other.is_some() {
            return Ok(other);
        }
    }
    Ok(None)
}

#[test]
fn are_printed(rt: HostRuntime) -> Result<(), Fail> {
    let other = any_told_otherwise(&rt, rt.alloc())?;
    assert_eq!(rt; other, None);
    Ok(())
}
