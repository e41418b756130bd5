//! The stories of all files, and whether each goes as it should.

mod builds;
mod failing;
mod failing_workers;
mod fed;
mod following;
mod growing;
mod growing_long;
mod kinds;
mod ranges;
mod returned;
mod several;
mod spools;
mod uniques;
mod workers;

use crate::story::Story;
use crate::tasks::{Task, otherwise};
use keybytes::Fault;
use std::alloc::Global;
use std::process::Abort;

const COUNT: usize = 14;

fn stories(number: usize) -> &'static [Story] {
    match number {
        0 => &builds::STORIES,
        1 => &fed::STORIES,
        2 => &following::STORIES,
        3 => &kinds::STORIES,
        4 => &ranges::STORIES,
        5 => &returned::STORIES,
        6 => &several::STORIES,
        7 => &spools::STORIES,
        8 => &uniques::STORIES,
        9 => &workers::STORIES,
        10 => &growing::STORIES,
        11 => &growing_long::STORIES,
        12 => &failing::STORIES,
        _ => &failing_workers::STORIES,
    }
}

/// Whether a story is for that; where a name is given, whether it is the story's.
fn is_for(story: &Story, task: &Task, name: &str) -> bool {
    if !name.is_empty() {
        return story.name == name;
    }
    match task {
        Task::Tell => true,
        Task::Short => story.is_short,
        Task::List => story.is_list,
        Task::ShortList => story.is_list && story.is_short,
        Task::Replay => story.is_replayed,
        Task::Faults | Task::Stops => story.faults.0 > 0,
    }
}

/// How many stories were told, and which of them goes otherwise, and where; or why none could be told.
type Found = Result<(usize, Option<(&'static str, (usize, usize))>), Fault>;

/// The first story that goes otherwise, of all or of that name. One that can't be told for want of memory is told again.
fn first_otherwise(alloc: Global, task: &Task, name: &str) -> Found {
    let mut told: usize = 0;
    for number in 0..COUNT {
        for story in stories(number) {
            if !is_for(story, task, name) {
                continue;
            }
            let other = match otherwise(alloc, story, task) {
                Err(_) => otherwise(alloc, story, task)?,
                Ok(other) => other,
            };
            if let Some(at) = other {
                return Ok((told, Some((story.name, at))));
            }
            told = told.saturating_add(1);
        }
    }
    Ok((told, None))
}

/// Asserts that so many stories go as they should, or the one of that name.
fn expect<R: Abort>(rt: &R, alloc: Global, task: &Task, name: &str, count: usize) {
    assert_eq!(rt; first_otherwise(alloc, task, name), Ok((count, None)));
}

#[test]
fn are_told_as_they_should_be(rt: HostRuntime) {
    expect(&rt, rt.alloc(), &Task::Tell, "", 48);
}

#[test]
fn are_listed(rt: HostRuntime) {
    expect(&rt, rt.alloc(), &Task::List, "", 6);
}

#[test]
fn are_replayed(rt: HostRuntime) {
    expect(&rt, rt.alloc(), &Task::Replay, "", 43);
}

/// Wherever a push or a read is refused the build is spoiled and nothing is lost.
#[test]
fn each_fault_of_a_spool_spoils_the_build(rt: HostRuntime) {
    expect(&rt, rt.alloc(), &Task::Faults, "", 4);
}

/// Wherever a story is stopped, an abandon is refused exactly where no build runs, and all spools and pages come back.
#[test]
fn a_build_can_be_abandoned_anywhere(rt: HostRuntime) {
    expect(&rt, rt.alloc(), &Task::Stops, "", 4);
}

/// `rt try --test --fail-alloc N` for each N shows that no allocation that fails gives a wrong answer or loses a page.
#[test]
fn are_told_where_memory_may_run_out(rt: HostRuntime) {
    expect(&rt, rt.alloc(), &Task::Short, "", 14);
}

#[test]
fn are_listed_where_memory_may_run_out(rt: HostRuntime) {
    expect(&rt, rt.alloc(), &Task::ShortList, "", 4);
}

// Each of those below is run by itself, with each of its allocations refused in turn.

#[test]
fn inserted_ahead_where_memory_may_run_out(rt: HostRuntime) {
    expect(&rt, rt.alloc(), &Task::Short, "inserted ahead", 1);
}

#[test]
fn shared_for_a_while_where_memory_may_run_out(rt: HostRuntime) {
    expect(&rt, rt.alloc(), &Task::Short, "shared for a while", 1);
}

#[test]
fn many_left_where_memory_may_run_out(rt: HostRuntime) {
    expect(&rt, rt.alloc(), &Task::Short, "many entries left", 1);
}

#[test]
fn undone_after_where_memory_may_run_out(rt: HostRuntime) {
    expect(&rt, rt.alloc(), &Task::Short, "undone after the switch", 1);
}

#[test]
fn two_indexes_where_memory_may_run_out(rt: HostRuntime) {
    expect(&rt, rt.alloc(), &Task::Short, "two indexes", 1);
}

#[test]
fn three_writes_back_where_memory_may_run_out(rt: HostRuntime) {
    expect(&rt, rt.alloc(), &Task::Short, "three writes back", 1);
}

#[test]
fn ring_full_where_memory_may_run_out(rt: HostRuntime) {
    expect(&rt, rt.alloc(), &Task::Short, "a ring that is full", 1);
}

#[test]
fn grows_behind_where_memory_may_run_out(rt: HostRuntime) {
    expect(
        &rt,
        rt.alloc(),
        &Task::Short,
        "a tree that grows behind the scan",
        1,
    );
}
