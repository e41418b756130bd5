ghost use Rattle.std.specs.Prelude.{◌≡◌, ◌≤◌, ◌-◌, take};
ghost use Rattle.shell.specs.Counting.{build_after, further, indexes_after, new_build, spoiled_after, wants_room, workers_after, index_asked, worker_asked};

use crate::asked::Asked;
use crate::index_counts::IndexCounts;
use crate::worker_counts::WorkerCounts;
use builder_core::{INDEXES_MAX, WORKERS_MAX};
use keybytes::Fault;
use replay::Answer;

/// What the answers tell of the build that runs.
#[derive(Clone, Copy)]
pub struct BuildCounts {
    /// How many pages it reads, and how many of them were copied.
    pub pages: u64,
    pub scanned: u64,
    workers: usize,
    indexes: usize,
    each_worker: [WorkerCounts; WORKERS_MAX],
    each_index: [IndexCounts; INDEXES_MAX],
    /// Why it can't go on.
    pub spoiled: Option<Fault>,
}

impl BuildCounts {
    /// A build that has just started.
    pub fn new(workers: usize, indexes: usize, pages: u64) -> BuildCounts
        ensures { result ≡ new_build workers indexes pages }
    {
        BuildCounts {
            pages,
            scanned: 0,
            workers,
            indexes,
            each_worker: [WorkerCounts::NONE; WORKERS_MAX],
            each_index: [IndexCounts::NONE; INDEXES_MAX],
            spoiled: None,
        }
    }

    pub fn workers(&self) -> &[WorkerCounts]
        ensures { self.now.workers ≤ 16 → result.now ≡ take self.now.workers self.now.each_worker }
    {
        self.each_worker
            .as_slice()
            .get(..self.workers)
            .unwrap_or(&[])
    }

    pub fn indexes(&self) -> &[IndexCounts]
        ensures { self.now.indexes ≤ 8 → result.now ≡ take self.now.indexes self.now.each_index }
    {
        self.each_index
            .as_slice()
            .get(..self.indexes)
            .unwrap_or(&[])
    }

    /// How many pages are left to be copied.
    pub fn unscanned(&self) -> u64
        ensures { result ≡ self.now.pages - self.now.scanned }
    {
        self.pages.saturating_sub(self.scanned)
    }

    /// Notes an answer.
    pub fn note(&mut self, asked: Asked, answer: &Answer)
        ensures { self.new ≡ build_after self.old asked answer.now }
    {
        match answer {
            Answer::Number { number } => self.note_number(asked, *number),
            Answer::Refused { fault } => {
                self.spoiled = spoiled_after(self.spoiled, asked, *fault);
            }
            _ => (),
        }
    }

    /// Notes an answer that is a number.
    fn note_number(&mut self, asked: Asked, number: u64)
        ensures { self.new ≡ further self.old asked number }
    {
        self.scanned = asked.scanned(self.scanned);
        note_worker(&mut self.each_worker, asked, number);
        note_index(&mut self.each_index, asked, number);
    }
}

/// Notes what the worker who was asked did.
fn note_worker(workers: &mut [WorkerCounts; WORKERS_MAX], asked: Asked, number: u64)
    ensures { workers.new ≡ workers_after workers.old asked number (worker_asked asked) }
{
    if let Some(worker) = asked.worker() {
        if worker < WORKERS_MAX {
            workers[worker] = workers[worker].after(asked, number);
        }
    }
}

/// Notes what was done for the index that a command was about.
fn note_index(indexes: &mut [IndexCounts; INDEXES_MAX], asked: Asked, number: u64)
    ensures { indexes.new ≡ indexes_after indexes.old asked number (index_asked asked) }
{
    if let Some(index) = asked.index() {
        if index < INDEXES_MAX {
            indexes[index] = indexes[index].after(asked, number);
        }
    }
}

/// Why the build can't go on once such a command was refused so: the first refusal that spoils it is kept.
fn spoiled_after(spoiled: Option<Fault>, asked: Asked, fault: Fault) -> Option<Fault>
    ensures { result ≡ spoiled_after spoiled asked fault }
{
    match spoiled {
        Some(first) => Some(first),
        None => {
            if asked.may_spoil() && wants_room(fault) {
                Some(fault)
            } else {
                None
            }
        }
    }
}

/// Whether it was a page or memory that was missing.
fn wants_room(fault: Fault) -> bool
    ensures { result ≡ wants_room fault }
{
    match fault {
        Fault::NoPage | Fault::Memory => true,
        _ => false,
    }
}
