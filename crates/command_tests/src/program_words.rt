//! The words that the program `sfbuild` takes, and those that it refuses.

use clap::Error;
use clap::error::ErrorKind;
use command_line::{Choice, IndexWords, Task, read};
use std::alloc::{AllocError, Global};
use std::test::Fail;

/// What words ask for.
#[derive(Clone, Copy)]
enum Asked {
    Script(Task, &'static str),
    Shell,
    /// What is asked of the indexes: of each its columns, and whether it is unique; with three workers and a range.
    Indexes(&'static [(&'static str, bool)]),
    Nothing,
    /// Help in which these stand.
    Help(&'static [&'static str]),
    Version(&'static str),
}

const REPLAY_HELP: Asked = Asked::Help(&["table,2,int", "sfbuild check three.csv"]);

static WORDS: [(&[&str], Asked); 34] = [
    (
        &["sfbuild", "replay", "three.csv"],
        Asked::Script(Task::Replay, "three.csv"),
    ),
    (
        &["sfbuild", "replay", "-"],
        Asked::Script(Task::Replay, "-"),
    ),
    (
        &["sfbuild", "replay", "./a b"],
        Asked::Script(Task::Replay, "./a b"),
    ),
    (
        &["sfbuild", "check", "three.csv"],
        Asked::Script(Task::Check, "three.csv"),
    ),
    (&["sfbuild", "check", "-"], Asked::Script(Task::Check, "-")),
    (
        &["sfbuild", "check", "./a b"],
        Asked::Script(Task::Check, "./a b"),
    ),
    (
        &["sfbuild", "picture", "three.csv"],
        Asked::Script(Task::Picture, "three.csv"),
    ),
    (
        &["sfbuild", "picture", "-"],
        Asked::Script(Task::Picture, "-"),
    ),
    (
        &["sfbuild", "picture", "./a b"],
        Asked::Script(Task::Picture, "./a b"),
    ),
    (
        &["sfbuild", "check", "--race", "a"],
        Asked::Script(Task::CheckRace, "a"),
    ),
    (
        &["sfbuild", "race", "--workers", "16", "a"],
        Asked::Script(
            Task::Race {
                workers: 16,
                is_shown: false,
            },
            "a",
        ),
    ),
    (
        &["sfbuild", "race", "--workers", "16", "a", "--progress"],
        Asked::Script(
            Task::Race {
                workers: 16,
                is_shown: true,
            },
            "a",
        ),
    ),
    (&["sfbuild", "shell"], Asked::Shell),
    (
        &[
            "sfbuild",
            "index",
            "-",
            "--columns",
            "a:int,b:text,c:flag",
            "--unique",
            "b",
            "--on",
            "a:desc,b",
            "--workers",
            "3",
            "--range",
            "1..",
            "--unique",
            "c",
            "--skip-bad",
        ],
        Asked::Indexes(&[("b", true), ("a:desc,b", false), ("c", true)]),
    ),
    (&["sfbuild"], Asked::Nothing),
    (&["sfbuild", "fly"], Asked::Nothing),
    (&["sfbuild", "replay"], Asked::Nothing),
    (&["sfbuild", "check"], Asked::Nothing),
    (&["sfbuild", "replay", "a", "b"], Asked::Nothing),
    (&["sfbuild", "check", "--fast", "a"], Asked::Nothing),
    (&["sfbuild", "replay", "--race", "a"], Asked::Nothing),
    (&["sfbuild", "race", "a"], Asked::Nothing),
    (&["sfbuild", "race", "a", "--workers", "0"], Asked::Nothing),
    (&["sfbuild", "race", "a", "--workers", "17"], Asked::Nothing),
    (&["sfbuild", "-", "a"], Asked::Nothing),
    (&["sfbuild", "shell", "a"], Asked::Nothing),
    (&["sfbuild", "index", "a"], Asked::Nothing),
    (&["sfbuild", "index", "--columns", "a:int"], Asked::Nothing),
    (
        &[
            "sfbuild",
            "index",
            "a",
            "--columns",
            "a:int",
            "--workers",
            "17",
        ],
        Asked::Nothing,
    ),
    (
        &[
            "sfbuild",
            "index",
            "a",
            "--columns",
            "a:int",
            "--find",
            "1",
            "--find",
            "2",
        ],
        Asked::Nothing,
    ),
    (&["sfbuild", "--help"], REPLAY_HELP),
    (&["sfbuild", "replay", "--help"], REPLAY_HELP),
    (&["sfbuild", "help", "replay"], REPLAY_HELP),
    (
        &["sfbuild", "--version"],
        Asked::Version("sfbuild 0.1.0 (Rattle, logic dac8208d650f15bf)\n"),
    ),
];

fn are_asked(asked: &IndexWords<'_>, indexes: &[(&str, bool)]) -> bool {
    let mut left = indexes.iter();
    for index in asked.indexes.iter() {
        if left.next() != Some(&(index.columns, index.unique)) {
            return false;
        }
    }
    left.next().is_none() && has_rest(asked)
}

fn has_rest(asked: &IndexWords<'_>) -> bool {
    (asked.file, asked.columns) == ("-", "a:int,b:text,c:flag")
        && (asked.workers, asked.range, asked.find) == (Some(3), Some("1.."), None)
        && asked.skips_bad
}

fn is_choice(choice: &Choice<'_>, asked: Asked) -> bool {
    match (choice, asked) {
        (Choice::Script { task, script }, Asked::Script(wanted, given)) => *task == wanted
            && *script == given,
        (Choice::Shell, Asked::Shell) => true,
        (Choice::Index(words), Asked::Indexes(indexes)) => are_asked(words, indexes),
        _ => false,
    }
}

/// Whether the error is a refusal, or the help or the version that was asked for.
fn is_told(alloc: Global, error: &Error, asked: Asked) -> Result<bool, AllocError> {
    let told = (error.kind(), error.use_stderr(), error.exit_code());
    match asked {
        Asked::Nothing => Ok((told.1, told.2) == (true, 2)),
        Asked::Help(parts) => {
            let text = error.to_string(alloc)?;
            Ok(told == (ErrorKind::DisplayHelp, false, 0) && has_all(text.as_str(), parts))
        }
        Asked::Version(version) => {
            let text = error.to_string(alloc)?;
            Ok(told == (ErrorKind::DisplayVersion, false, 0) && text.as_str() == version)
        }
        _ => Ok(false),
    }
}

fn has_all(text: &str, parts: &[&str]) -> bool {
    for part in parts {
        if !text.contains(*part) {
            return false;
        }
    }
    true
}

fn are_for(alloc: Global, words: &[&str], asked: Asked) -> Result<bool, AllocError> {
    match read(alloc, words) {
        Ok(choice) => Ok(is_choice(&choice, asked)),
        Err(error) => is_told(alloc, &error, asked),
    }
}

/// The place of the first words that ask for something else.
fn asked_otherwise(alloc: Global) -> Result<Option<usize>, AllocError> {
    for (place, (words, asked)) in WORDS.iter().enumerate() {
        if !are_for(alloc, words, *asked)? {
            return Ok(Some(place));
        }
    }
    Ok(None)
}

#[test]
fn ask_for_that(rt: HostRuntime) -> Result<(), Fail> {
    let other = asked_otherwise(rt.alloc())?;
    assert_eq!(rt; other, None);
    Ok(())
}
