//! What is said of bad scripts and bad words, and that nothing is answered then.

use crate::printed::Printed;
use crate::stream::Failure;
use crate::task::{Streams, Task};
use crate::{explanations, index_words, races, spellings};
use std::alloc::{AllocError, Global};
use std::io::ErrorKind;
use std::sync::Wait;
use std::thread::Threads;

/// Bad scripts, each with what is said of it.
type Said = &'static [(&'static [u8], &'static str)];

fn lists() -> [(Task, Said); 5] {
    [
        (Task::Replay, &spellings::SCRIPTS),
        (Task::Check, &explanations::EXPLAINED),
        // Races are known by records of their own.
        (Task::Check, &races::EXPLAINED),
        (Task::CheckRace, &races::EXPLAINED),
        (Task::CheckRace, &races::EXPLAINED_AS_RACES),
    ]
}

fn is_said<A: Threads + Wait + Sync>(
    rt: &A,
    alloc: Global,
    task: Task,
    script: &[u8],
    said: &str,
) -> bool {
    Printed::by(rt, alloc, task, script).parts() == ("", said, 2)
}

/// What is to be said of the first of these scripts of which something else is.
fn said_otherwise<A: Threads + Wait + Sync>(
    rt: &A,
    alloc: Global,
    task: Task,
    list: Said,
) -> Option<&'static str> {
    for (script, said) in list {
        if !is_said(rt, alloc, task, script, said) {
            return Some(*said);
        }
    }
    None
}

/// The same of all scripts.
fn any_said_otherwise<A: Threads + Wait + Sync>(rt: &A, alloc: Global) -> Option<&'static str> {
    for (task, list) in lists() {
        let other = said_otherwise(rt, alloc, task, list);
        if other.is_some() {
            return other;
        }
    }
    None
}

#[test]
fn of_bad_scripts(rt: HostRuntime) {
    assert_eq!(rt; any_said_otherwise(&rt, rt.alloc()), None);
}

/// Whether the record is bad, and not the one behind it, which is bad too.
fn is_bad<A: Threads + Wait + Sync>(
    rt: &A,
    alloc: Global,
    record: &str,
) -> Result<bool, AllocError> {
    let script = format!(in alloc; "#\ntable,2,int\n\n{record}\nfly\n")?;
    Ok(is_said(
        rt,
        alloc,
        Task::Replay,
        script.as_bytes(),
        "script: record 3 is bad\n",
    ))
}

/// The first of the bad records that is taken.
fn taken<A: Threads + Wait + Sync>(
    rt: &A,
    alloc: Global,
) -> Result<Option<&'static str>, AllocError> {
    for record in &spellings::RECORDS {
        if !is_bad(rt, alloc, record)? {
            return Ok(Some(*record));
        }
    }
    Ok(None)
}

#[test]
fn of_bad_records(rt: HostRuntime) {
    assert!(rt; taken(&rt, rt.alloc()) == Ok(None));
}

/// Whether that is said of words of the command `index`, where a read would fail.
fn is_said_of_words<A: Threads + Wait + Sync>(
    rt: &A,
    alloc: Global,
    words: &'static [&'static str],
    said: &str,
) -> bool {
    let mut streams = Streams::new(alloc, b"");
    streams.text.fail_behind(
        0,
        Failure {
            kind: ErrorKind::PermissionDenied,
            stays: true,
        },
    );
    let printed = Printed::over(rt, alloc, Task::Index(words), streams);
    printed.parts() == ("", said, 2) && !printed.streams.text.has_failed()
}

/// What is to be said of the first words of which something else is.
fn words_said_otherwise<A: Threads + Wait + Sync>(rt: &A, alloc: Global) -> Option<&'static str> {
    for (words, said) in &index_words::REFUSED {
        if !is_said_of_words(rt, alloc, *words, said) {
            return Some(*said);
        }
    }
    None
}

#[test]
fn of_bad_words(rt: HostRuntime) {
    assert_eq!(rt; words_said_otherwise(&rt, rt.alloc()), None);
}
