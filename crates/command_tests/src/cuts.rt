//! Scripts that are cut off: each beginning runs, or its one bad record is named, and a check says the same.

use crate::cut::Cut;
use crate::long_scripts::{FEW, ONE_TOO_MANY};
use crate::printed::{Printed, text};
use crate::run::{Lines, Out, Run, SCRIPT};
use crate::task::Task;
use std::alloc::{AllocError, Global};
use std::sync::Wait;
use std::test::Fail;
use std::thread::Threads;

/// What is to be answered where a script ends behind one of its records.
#[derive(Clone, Copy)]
enum Answers {
    /// Of the answers to all those up to the first answer to the next record: their beginning, lines, and the rest.
    Each(&'static str, Lines, &'static str),
    /// What a race prints of its sessions where it ends with each of its records.
    Sessions(&'static [Option<&'static str>]),
}

/// A script that is cut behind each byte whose number is a multiple of one, and how many beginnings these are.
struct Whole {
    run: Run,
    check: Task,
    answers: Answers,
    apart: usize,
    beginnings: usize,
}

/// The answers to a build of one index. It has one page and one pair; the row made log records 1 and 2.
const BUILD: &str = "1,ok\n2,ok,0.0\n3,ok,1\n4,ok,0\n5,ok,1\n6,ok,1\n7,ok,2\n";

const UPDATED: Lines = Lines {
    count: 12,
    front: "",
    first: 8,
    second: Some((",ok,", 3)),
    end: ",0.0\n",
};

/// The script of a race.
const RACE: Run = Run {
    name: "a race",
    task: Task::Race(2),
    rest: b"table,4,int
# two rows
row,11
row,22
spools,mixed
build,4,even:2,u:0
go
# two sessions
in,1,begin,A
in,2,begin,A
in,1,insert,A,345
in,2,delete,A,0.1
in,1,update,A,0.0,678
in,2,undo,A
in,1,commit,A
in,2,commit,A
#
in,1,begin,B
in,1,insert,B,90
",
    ..SCRIPT
};

/// From `go` on the script may end. The undo takes the one write back, so that the transaction has ended.
const SESSIONS: [Option<&str>; 19] = [
    None,
    None,
    None,
    None,
    None,
    None,
    Some(""),
    Some(""),
    Some("session,1,1,0\n"),
    Some("session,1,1,0\nsession,2,1,0\n"),
    Some("session,1,2,0\nsession,2,1,0\n"),
    Some("session,1,2,0\nsession,2,2,0\n"),
    Some("session,1,3,0\nsession,2,2,0\n"),
    Some("session,1,3,0\nsession,2,3,0\n"),
    Some("session,1,4,0\nsession,2,3,0\n"),
    Some("session,1,4,0\nsession,2,3,1\n"),
    Some("session,1,4,0\nsession,2,3,1\n"),
    Some("session,1,5,0\nsession,2,3,1\n"),
    Some("session,1,6,0\nsession,2,3,1\n"),
];

static WHOLE: [Whole; 3] = [
    Whole {
        run: FEW,
        check: Task::Check,
        answers: Answers::Each(BUILD, UPDATED, "25,"),
        apart: 1,
        beginnings: 296,
    },
    // Where the updates are many each beginning takes long; `tools/try/cut-script` runs them all.
    Whole {
        run: ONE_TOO_MANY,
        check: Task::Check,
        answers: Answers::Each(
            BUILD,
            Lines {
                count: 512,
                ..UPDATED
            },
            "527,",
        ),
        apart: 149,
        beginnings: 59,
    },
    Whole {
        run: RACE,
        check: Task::CheckRace,
        answers: Answers::Sessions(&SESSIONS),
        apart: 1,
        beginnings: 244,
    },
];

/// A script that is cut, with the answers to all of it.
#[derive(Clone, Copy)]
struct Cutting<'a> {
    whole: &'static Whole,
    script: &'a str,
    answers: &'a str,
}

impl Cutting<'_> {
    /// What a beginning of the script has to be answered; where it may not end there, that it lacks a record.
    fn expected(self, beginning: &str) -> Cut {
        let cut = Cut::new(self.script, beginning);
        match cut {
            Cut::Good(records) if !self.may_end(records) => cut.ended(),
            _ => cut,
        }
    }

    fn may_end(self, records: usize) -> bool {
        match self.whole.answers {
            Answers::Each(..) => records > 0,
            Answers::Sessions(sessions) => session_of(sessions, records).is_some(),
        }
    }

    fn are_answers(self, records: usize, out: &str) -> bool {
        match self.whole.answers {
            Answers::Each(..) => are_first(out, self.answers, records.saturating_add(1)),
            Answers::Sessions(sessions) => is_run(out, session_of(sessions, records)),
        }
    }

    /// Whether a run prints the answers to the records that the cut leaves, or names the bad one.
    fn is_answered(self, cut: Cut, printed: &Printed) -> bool {
        match cut {
            Cut::Good(records) => {
                let (out, err, status) = printed.parts();
                (err, status) == ("", 0) && self.are_answers(records, out)
            }
            Cut::Bad(_) => cut.is_refused(printed),
        }
    }

    /// Whether a beginning is answered and checked as it has to be.
    fn is_right<A: Threads + Wait + Sync>(self, rt: &A, alloc: Global, beginning: &str) -> bool {
        let cut = self.expected(beginning);
        let bytes = beginning.as_bytes();
        self.is_answered(cut, &Printed::by(rt, alloc, self.whole.run.task, bytes))
            && cut.is_checked(&Printed::by(rt, alloc, self.whole.check, bytes))
    }

    /// How many beginnings there are; nothing where one of them is answered otherwise.
    fn beginnings<A: Threads + Wait + Sync>(self, rt: &A, alloc: Global) -> Option<usize> {
        let mut count: usize = 0;
        for length in 0..self.script.len().saturating_add(1) {
            if length.checked_rem(self.whole.apart) == Some(0) {
                if !self.is_right(rt, alloc, self.script.get(..length)?) {
                    return None;
                }
                count = count.saturating_add(1);
            }
        }
        Some(count)
    }
}

/// What is printed of the sessions where so many records are left.
fn session_of(sessions: &[Option<&'static str>], records: usize) -> Option<&'static str> {
    *sessions.get(records.checked_sub(1)?)?
}

/// Whether a race prints that of its sessions, and that all went well.
fn is_run(out: &str, sessions: Option<&str>) -> bool {
    let middle = out.strip_prefix("verdict,0,ready:0\n");
    let middle = middle.and_then(|rest| rest.strip_suffix("check,0,same\nreceipts,0\npages,0\n"));
    middle.is_some() && middle == sessions
}

/// Whether these are the answers to the records before the one of that number: all up to the first of its own. What a number is doesn't change
/// the answer to a record that is cut in it.
fn are_first(out: &str, answers: &str, next: usize) -> bool {
    match answers.strip_prefix(out) {
        Some(rest) => out.ends_with('\n') && first_number(rest) == Some(next),
        None => false,
    }
}

/// The number with which the first answer begins.
fn first_number(answers: &str) -> Option<usize> {
    let (number, _) = answers.split_once(',')?;
    number.parse().ok()
}

fn write_answers(alloc: Global, whole: &Whole, answers: &mut Vec<u8>) -> Result<(), AllocError> {
    if let (Answers::Each(begin, lines, next), Out::Ends(end)) = (whole.answers, whole.run.out) {
        answers.extend_from_slice(begin.as_bytes())?;
        lines.write(alloc, answers)?;
        answers.extend_from_slice(end.as_bytes())?;
        answers.extend_from_slice(next.as_bytes())?;
    }
    Ok(())
}

/// How many beginnings of a script are answered as they have to be.
fn beginnings<A: Threads + Wait + Sync>(
    rt: &A,
    alloc: Global,
    whole: &'static Whole,
) -> Result<Option<usize>, AllocError> {
    let mut script = Vec::new(alloc);
    let mut answers = Vec::new(alloc);
    whole.run.write(alloc, &mut script)?;
    write_answers(alloc, whole, &mut answers)?;
    let cutting = Cutting {
        whole,
        script: text(script.as_slice()),
        answers: text(answers.as_slice()),
    };
    Ok(cutting.beginnings(rt, alloc))
}

/// The first of these scripts of which beginnings are answered otherwise.
fn told_otherwise<A: Threads + Wait + Sync>(
    rt: &A,
    alloc: Global,
) -> Result<Option<&'static str>, AllocError> {
    for whole in &WHOLE {
        if beginnings(rt, alloc, whole)? != Some(whole.beginnings) {
            return Ok(Some(whole.run.name));
        }
    }
    Ok(None)
}

#[test]
fn run_or_name_a_bad_record(rt: HostRuntime) -> Result<(), Fail> {
    let other = told_otherwise(&rt, rt.alloc())?;
    assert_eq!(rt; other, None);
    Ok(())
}
