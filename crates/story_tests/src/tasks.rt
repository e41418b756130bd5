//! What is done with a story.

use crate::listed::{Prepared, told};
use crate::place::Place;
use crate::story::Story;
use crate::telling::Way;
use crate::writing::{script_of, start_of, written};
use keybytes::Fault;
use replay::replay;
use std::alloc::Global;

/// What is done with a story.
pub enum Task {
    /// It is told as it is.
    Tell,
    /// Memory may run out.
    Short,
    /// Its first events are told as one list.
    List,
    ShortList,
    /// Its script is replayed.
    Replay,
    /// A fault comes at each push and each read of its spools.
    Faults,
    /// It is abandoned behind each of its first records.
    Stops,
}

/// Where something is otherwise: the number of the telling, and that of the record, or 0.
pub type Other = Option<(usize, usize)>;

/// How often a story is told. Each pair is pushed once and read once, so that there are as many places of either kind as
/// a spool gets pairs, and one behind them that isn't reached.
fn tellings(prepared: &Prepared<'_>, task: &Task) -> usize {
    let (spools, pairs) = prepared.story.faults;
    match task {
        Task::Faults => spools
            .saturating_mul(2)
            .saturating_mul((pairs as usize).saturating_add(1)),
        Task::Stops => prepared.commands.len().saturating_add(1),
        _ => 1,
    }
}

fn way_of(prepared: &Prepared<'_>, task: &Task, telling: usize) -> Way {
    let place = match (task, start_of(prepared.commands)) {
        (Task::Faults, Some(start)) => {
            let pairs = prepared.story.faults.1;
            Some(Place::numbered(telling, start.specs.len(), pairs))
        }
        _ => None,
    };
    Way {
        is_list: matches!(task, Task::List | Task::ShortList),
        is_short: matches!(task, Task::Short | Task::ShortList),
        place,
        stop: match task {
            Task::Stops => Some(telling),
            _ => None,
        },
    }
}

/// Whether a replay of the script prints the answers.
fn replayed(alloc: Global, prepared: &Prepared<'_>) -> Result<Other, Fault> {
    let script = written(alloc, prepared.story.script, 0)?;
    let mut out = Vec::new(alloc);
    let mut err = Vec::new(alloc);
    let _status = replay(alloc, script.as_bytes(), &mut out, &mut err);
    if out.as_slice() == prepared.answers && err.is_empty() {
        Ok(None)
    } else {
        Ok(Some((0, 0)))
    }
}

/// The first telling that goes otherwise; where it is stopped also if a build doesn't run at as many places as it should.
fn first_other(alloc: Global, prepared: &Prepared<'_>, task: &Task) -> Result<Other, Fault> {
    let tellings = tellings(prepared, task);
    let mut broken: usize = 0;
    for telling in 0..tellings {
        let (other, is_broken) = told(alloc, prepared, &way_of(prepared, task, telling))?;
        if let Some(number) = other {
            return Ok(Some((telling, number)));
        }
        broken = broken.saturating_add(usize::from(is_broken));
    }
    let is_stopped = matches!(task, Task::Stops);
    if is_stopped && (tellings, broken) != prepared.story.places {
        return Ok(Some((tellings, broken)));
    }
    Ok(None)
}

/// Where a story goes otherwise.
pub fn otherwise(alloc: Global, story: &Story, task: &Task) -> Result<Other, Fault> {
    let answers = written(alloc, story.answers, 0)?;
    let script = script_of(alloc, story.script, 0)?;
    let prepared = Prepared {
        story,
        table: &script.table,
        commands: &script.commands,
        answers: answers.as_bytes(),
    };
    match task {
        Task::Replay => replayed(alloc, &prepared),
        _ => first_other(alloc, &prepared, task),
    }
}
