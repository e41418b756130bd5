//! Streams of which one call fails, each call in turn: of what is read, of the answers, and of what is said to be wrong.

use crate::printed::Printed;
use crate::run::Run;
use crate::stories::{UNSENT, answers, looks, others};
use crate::stream::{Failure, Stream};
use crate::task::Streams;
use std::alloc::{AllocError, Global};
use std::sync::Wait;
use std::test::Fail;
use std::thread::Threads;

/// How a reading fails, and what is said then.
pub type Unread = &'static [(Failure, &'static str)];

/// A run of which calls fail.
#[derive(Clone, Copy)]
pub struct Story {
    pub run: Run,
    /// The most bytes of a call.
    pub piece: usize,
    /// How many calls of each stream can fail at least, in their order, where that isn't one for each byte.
    pub least: Option<(usize, usize, usize)>,
    /// How many times its answers are sent on.
    pub flushes: usize,
    pub unread: Unread,
    /// What is said of answers that can't be sent on.
    pub unsent: &'static str,
    /// Whether it is answered while it is read.
    pub is_early: bool,
}

/// Which stream has a call that fails.
#[derive(Clone, Copy)]
enum Place {
    Text,
    Answers,
    Errors,
}

/// A call that fails: of which stream, how, and what is said then of a text that isn't read to its end.
#[derive(Clone, Copy)]
struct Fault {
    place: Place,
    failure: Failure,
    said: &'static str,
}

/// A story, its text, and what is printed where no call fails.
struct Whole<'a> {
    story: &'static Story,
    text: &'a [u8],
    printed: Printed<'a>,
}

impl Drop for Whole<'_> {
    fn drop(self) {
        let Whole {
            story: _,
            text: _,
            printed: _,
        } = self;
    }
}

fn at<'s, 'a>(streams: &'s mut Streams<'a>, place: Place) -> &'s mut Stream<'a> {
    match place {
        Place::Text => &mut streams.text,
        Place::Answers => &mut streams.out,
        Place::Errors => &mut streams.err,
    }
}

fn of(place: Place, counts: (usize, usize, usize)) -> usize {
    match place {
        Place::Text => counts.0,
        Place::Answers => counts.1,
        Place::Errors => counts.2,
    }
}

fn has_failed(streams: &Streams) -> bool {
    streams.text.has_failed() || streams.out.has_failed() || streams.err.has_failed()
}

fn is_broken(streams: &Streams) -> bool {
    streams.text.is_broken() || streams.out.is_broken() || streams.err.is_broken()
}

impl<'a> Whole<'a> {
    /// Whether that is printed: nothing but what is said of a text that isn't read to its end, a beginning of what there is to print where the
    /// printing failed, and all of it otherwise.
    fn is_right(&self, fault: Fault, printed: &Printed) -> bool {
        let (out, err, status) = printed.parts();
        let (whole, errors, end) = self.printed.parts();
        if !is_broken(&printed.streams) {
            return (out, err, status) == (whole, errors, end);
        }
        match fault.place {
            Place::Text => (err, status) == (fault.said, 2) && self.may_answer(out),
            Place::Answers => status == 2 && whole.starts_with(out) && self.is_unsent(err),
            Place::Errors => (out, status) == (whole, end) && errors.starts_with(err),
        }
    }

    /// Whether that may be answered before the reading fails.
    fn may_answer(&self, out: &str) -> bool {
        let (whole, _, _) = self.printed.parts();
        out.is_empty() || self.story.is_early && whole.starts_with(out)
    }

    /// Whether it is said that the answers can't be sent on, behind what was said before.
    fn is_unsent(&self, err: &str) -> bool {
        let (_, errors, _) = self.printed.parts();
        match err.strip_suffix(self.story.unsent) {
            Some(front) => errors.starts_with(front),
            None => false,
        }
    }

    /// Runs the story with a call that fails behind so many, and answers whether it was met; nothing where something else is printed than has
    /// to be.
    fn run_failing<A: Threads + Wait + Sync>(
        &self,
        rt: &A,
        alloc: Global,
        fault: Fault,
        well: usize,
    ) -> Option<bool> {
        let mut streams = Streams::new(alloc, self.text);
        streams.text.part(self.story.piece);
        streams.out.part(self.story.piece);
        streams.err.part(self.story.piece);
        at(&mut streams, fault.place).fail_behind(well, fault.failure);
        let printed = Printed::over(rt, alloc, self.story.run.task, streams);
        if self.is_right(fault, &printed) {
            Some(has_failed(&printed.streams))
        } else {
            None
        }
    }

    /// How many calls can fail.
    fn failing_calls<A: Threads + Wait + Sync>(
        &self,
        rt: &A,
        alloc: Global,
        fault: Fault,
    ) -> Option<usize> {
        for well in 0..usize::MAX {
            if !self.run_failing(rt, alloc, fault, well)? {
                return Some(well);
            }
        }
        None
    }

    /// How many calls of each stream there are where each moves one byte.
    fn each_byte(&self) -> (usize, usize, usize) {
        let (out, err, _) = self.printed.parts();
        let text = self.text.len().saturating_add(1);
        (
            text,
            out.len().saturating_add(self.story.flushes),
            err.len(),
        )
    }

    /// Whether each call of a stream may fail so.
    fn may_fail<A: Threads + Wait + Sync>(&self, rt: &A, alloc: Global, fault: Fault) -> bool {
        let calls = self.failing_calls(rt, alloc, fault);
        match self.story.least {
            None => calls == Some(of(fault.place, self.each_byte())),
            Some(least) => calls >= Some(of(fault.place, least)),
        }
    }

    /// The same of each way in which the reading fails.
    fn may_be_unread<A: Threads + Wait + Sync>(&self, rt: &A, alloc: Global) -> bool {
        for (failure, said) in self.story.unread {
            let fault = Fault {
                place: Place::Text,
                failure: *failure,
                said: *said,
            };
            if !self.may_fail(rt, alloc, fault) {
                return false;
            }
        }
        true
    }

    /// The same of each way in which a writing fails.
    fn may_be_unsent<A: Threads + Wait + Sync>(&self, rt: &A, alloc: Global, place: Place) -> bool {
        for failure in UNSENT {
            let said = "";
            if !self.may_fail(
                rt,
                alloc,
                Fault {
                    place,
                    failure,
                    said,
                },
            ) {
                return false;
            }
        }
        true
    }

    fn is_told<A: Threads + Wait + Sync>(&self, rt: &A, alloc: Global) -> bool {
        self.story.run.is(alloc, &self.printed)
            && self.may_be_unread(rt, alloc)
            && self.may_be_unsent(rt, alloc, Place::Answers)
            && self.may_be_unsent(rt, alloc, Place::Errors)
    }
}

fn is_told<A: Threads + Wait + Sync>(
    rt: &A,
    alloc: Global,
    story: &'static Story,
) -> Result<bool, AllocError> {
    let mut text = Vec::new(alloc);
    story.run.write(alloc, &mut text)?;
    let text = text.as_slice();
    let printed = Printed::by(rt, alloc, story.run.task, text);
    Ok(Whole {
        story,
        text,
        printed,
    }
    .is_told(rt, alloc))
}

/// All stories. (Each list hands itself out: the proof of a loop that knows the values of all of them grows too large.)
fn all_stories() -> [&'static [Story]; 3] {
    [answers(), looks(), others()]
}

/// The first of these stories that prints something else than it has to when a call fails.
fn first_otherwise<A: Threads + Wait + Sync>(
    rt: &A,
    alloc: Global,
    stories: &'static [Story],
) -> Result<Option<&'static str>, AllocError> {
    for story in stories {
        if !is_told(rt, alloc, story)? {
            return Ok(Some(story.run.name));
        }
    }
    Ok(None)
}

fn told_otherwise<A: Threads + Wait + Sync>(
    rt: &A,
    alloc: Global,
) -> Result<Option<&'static str>, AllocError> {
    for stories in all_stories() {
        let other = first_otherwise(rt, alloc, stories)?;
        if other.is_some() {
            return Ok(other);
        }
    }
    Ok(None)
}

#[test]
fn end_the_program_with_status_2(rt: HostRuntime) -> Result<(), Fail> {
    let other = told_otherwise(&rt, rt.alloc())?;
    assert_eq!(rt; other, None);
    Ok(())
}
