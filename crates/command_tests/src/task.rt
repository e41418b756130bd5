use crate::stream::Stream;
use command_line::{Choice, read};
use csv_index::index;
use picture::picture;
use race::{ProgressLine, race, race_watched};
use replay::{check, check_race, replay};
use shell::shell;
use std::alloc::{AllocError, Global};
use std::io;
use std::sync::Wait;
use std::thread::Threads;
use std::time::{Clock, Duration};

/// What is done with a text.
#[derive(Clone, Copy)]
pub enum Task {
    Replay,
    Check,
    /// A check that takes the script for a race.
    CheckRace,
    /// A race with so many workers.
    Race(usize),
    /// A race with one worker that shows how far its build is, on a terminal or not.
    Watched(bool),
    Shell,
    /// The same, with a prompt before each line.
    Prompted,
    Picture,
    /// By the words behind `sfbuild index -`.
    Index(&'static [&'static str]),
}

/// A clock that stands.
#[derive(Clone, Copy)]
struct Stopped;

impl Clock for Stopped {
    fn monotonic(&self) -> io::Result<Duration> {
        Ok(Duration::from_secs(1))
    }

    fn since_1970(&self) -> io::Result<Duration> {
        Ok(Duration::from_secs(1))
    }
}

/// What a task reads, what it answers, what it says is wrong, and what it shows beside that.
pub struct Streams<'a> {
    pub text: Stream<'a>,
    pub out: Stream<'a>,
    pub err: Stream<'a>,
    pub shown: Stream<'a>,
}

impl Drop for Streams<'_> {
    fn drop(self) {
        let Streams {
            text: _,
            out: _,
            err: _,
            shown: _,
        } = self;
    }
}

impl<'a> Streams<'a> {
    pub fn new(alloc: Global, text: &'a [u8]) -> Streams<'a> {
        Streams {
            text: Stream::new(alloc, text),
            out: Stream::new(alloc, b""),
            err: Stream::new(alloc, b""),
            shown: Stream::new(alloc, b""),
        }
    }

    /// Does the task, and answers the exit status.
    pub fn run<A: Threads + Wait + Sync>(&mut self, rt: &A, alloc: Global, task: Task) -> u8 {
        let (text, out, err) = (&mut self.text, &mut self.out, &mut self.err);
        match task {
            Task::Replay => replay(alloc, text, out, err),
            Task::Check => check(alloc, text, out, err),
            Task::CheckRace => check_race(alloc, text, out, err),
            Task::Race(workers) => race(rt, alloc, workers, text, out, err),
            Task::Watched(is_terminal) => {
                let line = ProgressLine::new(Stopped, &mut self.shown, is_terminal);
                race_watched(rt, alloc, 1, text, out, err, line)
            }
            Task::Shell => shell::<_, _, _, &mut Stream>(alloc, text, out, err, None),
            Task::Prompted => shell(alloc, text, out, err, Some(&mut self.shown)),
            Task::Picture => picture(alloc, "a script", text, out, err),
            Task::Index(words) => self.index(rt, alloc, words),
        }
    }

    /// Runs the command `index`; 3 where the words aren't those of the command, or want memory.
    fn index<A: Threads + Wait + Sync>(&mut self, rt: &A, alloc: Global, words: &[&str]) -> u8 {
        let mut all = Vec::new(alloc);
        if add_all(&mut all, words).is_err() {
            return 3;
        }
        match read(alloc, all.as_slice()) {
            Ok(Choice::Index(words)) => {
                let line = csv_index::ProgressLine::new(Stopped, io::sink(), false);
                let (text, out, err) = (&mut self.text, &mut self.out, &mut self.err);
                index(rt, alloc, &words, text, out, err, line)
            }
            _ => 3,
        }
    }
}

fn add_all<'a>(all: &mut Vec<&'a str>, words: &[&'a str]) -> Result<(), AllocError> {
    all.push("sfbuild")?;
    all.push("index")?;
    all.push("-")?;
    for word in words {
        all.push(*word)?;
    }
    Ok(())
}
