use crate::printed::Printed;
use crate::task::Task;
use crate::well_formed::is_well_formed;
use std::alloc::{AllocError, Global};
use std::sync::Wait;
use std::thread::Threads;

/// Lines that differ by a number which counts up, or by two.
#[derive(Clone, Copy)]
pub struct Lines {
    pub count: u32,
    pub front: &'static str,
    pub first: u32,
    pub second: Option<(&'static str, u32)>,
    pub end: &'static str,
}

pub const NO_LINES: Lines = Lines {
    count: 0,
    front: "",
    first: 0,
    second: None,
    end: "\n",
};

/// What is to be answered.
#[derive(Clone, Copy)]
pub enum Out {
    Is(&'static str),
    /// How many lines there are, and how they begin.
    Begins(usize, &'static str),
    Ends(&'static str),
    /// These parts stand in it, one behind the other.
    Has(&'static [&'static str]),
    /// A picture of so many records, with these parts one behind the other.
    Draws(usize, &'static [&'static str]),
}

/// A text, and what a task prints of it.
#[derive(Clone, Copy)]
pub struct Run {
    pub name: &'static str,
    pub task: Task,
    /// The text: its beginning, lines behind that, and the rest.
    pub begin: &'static [u8],
    pub lines: Lines,
    pub rest: &'static [u8],
    pub out: Out,
    /// What is said to be wrong.
    pub err: &'static str,
    /// What is shown beside that.
    pub shown: &'static str,
    pub status: u8,
}

/// A script of no records.
pub const SCRIPT: Run = Run {
    name: "",
    task: Task::Replay,
    begin: b"",
    lines: NO_LINES,
    rest: b"",
    out: Out::Is(""),
    err: "",
    shown: "",
    status: 0,
};

impl Lines {
    pub fn write(&self, alloc: Global, text: &mut Vec<u8>) -> Result<(), AllocError> {
        for place in 0..self.count {
            let first = self.first.wrapping_add(place);
            let line = match self.second {
                None => format!(in alloc; "{}{first}{}", self.front, self.end)?,
                Some((middle, number)) => {
                    let second = number.wrapping_add(place);
                    format!(in alloc; "{}{first}{middle}{second}{}", self.front, self.end)?
                }
            };
            text.extend_from_slice(line.as_bytes())?;
        }
        Ok(())
    }
}

impl Out {
    pub fn is(self, alloc: Global, out: &str) -> bool {
        match self {
            Out::Is(text) => out == text,
            Out::Begins(lines, text) => out.lines().count() == lines && out.starts_with(text),
            Out::Ends(text) => out.ends_with(text),
            Out::Has(parts) => stand_in(out, parts),
            Out::Draws(records, parts) => {
                out.matches("<g id=\"record-").count() == records
                    && stand_in(out, parts)
                    && is_well_formed(alloc, out.as_bytes())
            }
        }
    }
}

/// Whether these stand in the text, one behind the other.
fn stand_in(text: &str, parts: &[&str]) -> bool {
    let mut left = text;
    for part in parts {
        let Some((_, behind)) = left.split_once(*part) else {
            return false;
        };
        left = behind;
    }
    true
}

impl Run {
    pub fn write(&self, alloc: Global, text: &mut Vec<u8>) -> Result<(), AllocError> {
        text.extend_from_slice(self.begin)?;
        self.lines.write(alloc, text)?;
        text.extend_from_slice(self.rest)
    }

    /// Whether that is what is to be printed.
    pub fn is(&self, alloc: Global, printed: &Printed) -> bool {
        let (out, err, status) = printed.parts();
        (err, printed.shown(), status) == (self.err, self.shown, self.status)
            && self.out.is(alloc, out)
    }
}

/// Whether the task prints what it is to.
fn is_told<A: Threads + Wait + Sync>(rt: &A, alloc: Global, run: &Run) -> Result<bool, AllocError> {
    let mut text = Vec::new(alloc);
    run.write(alloc, &mut text)?;
    Ok(run.is(alloc, &Printed::by(rt, alloc, run.task, text.as_slice())))
}

/// The first of the runs that prints something else.
pub fn told_otherwise<A: Threads + Wait + Sync>(
    rt: &A,
    alloc: Global,
    runs: &'static [Run],
) -> Result<Option<&'static str>, AllocError> {
    for run in runs {
        if !is_told(rt, alloc, run)? {
            return Ok(Some(run.name));
        }
    }
    Ok(None)
}
