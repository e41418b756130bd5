use crate::task::{Streams, Task};
use std::alloc::Global;
use std::str;
use std::sync::Wait;
use std::thread::Threads;

/// What a task printed, and its exit status.
pub struct Printed<'a> {
    pub streams: Streams<'a>,
    pub status: u8,
}

impl Drop for Printed<'_> {
    fn drop(self) {
        let Printed {
            streams: _,
            status: _,
        } = self;
    }
}

impl<'a> Printed<'a> {
    /// What a task prints of a text, where all calls of its streams go well.
    pub fn by<A: Threads + Wait + Sync>(
        rt: &A,
        alloc: Global,
        task: Task,
        text: &'a [u8],
    ) -> Printed<'a> {
        Printed::over(rt, alloc, task, Streams::new(alloc, text))
    }

    /// The same over these streams.
    pub fn over<A: Threads + Wait + Sync>(
        rt: &A,
        alloc: Global,
        task: Task,
        mut streams: Streams<'a>,
    ) -> Printed<'a> {
        let status = streams.run(rt, alloc, task);
        Printed { streams, status }
    }

    /// The answers, what is said to be wrong, and the status.
    pub fn parts(&self) -> (&str, &str, u8) {
        (
            text(self.streams.out.kept()),
            text(self.streams.err.kept()),
            self.status,
        )
    }

    /// What is shown beside.
    pub fn shown(&self) -> &str {
        text(self.streams.shown.kept())
    }
}

pub fn text(bytes: &[u8]) -> &str {
    str::from_utf8(bytes).unwrap_or("(no text)")
}
