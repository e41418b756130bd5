//! Cases of all layers, by tables, and what runs them.

use crate::calling::{finds_both, finds_least, rolls_back};
use crate::chunks::{self, ListStep, Numbers, QueueStep};
use crate::desk::first_other;
use crate::logs::{self, Records};
use crate::merges::{self, Course};
use crate::pools::{reclaimed, refuses};
use crate::rows::{self, Rows};
use crate::sorts::{IN_THREADS, LONGEST_RUN, sort_alike};
use crate::spools::{keeps_boxed, keeps_plain};
use crate::tables::{self, Shape};
use crate::trees::tree_answers;
use crate::workers::pages_go_through;
use crate::{entries, pages};
use chunk_list::ChunkList;
use keybytes::Fault;
use slotted_page::Page;
use std::alloc::Global;
use std::thread::Threads;

/// The first step that is answered otherwise than it is to be, or why there are none to ask.
pub type Told = Result<Option<usize>, Fault>;

pub const DONE: Told = Ok(None);

/// Something of a layer, with its steps.
pub enum Layer {
    /// Lists and queues that grow by chunks.
    List(&'static [ListStep]),
    Queue(&'static [QueueStep]),
    Rows(&'static [rows::Step]),
    /// A page with so many slots.
    Page(u8, &'static [pages::Step]),
    Log(&'static [logs::Step]),
    Table(Shape, &'static [tables::Step]),
    Entries(&'static [entries::Step]),
    Merges(Course),
    Alone(Alone),
}

/// What has no steps.
pub enum Alone {
    Tree,
    Worker,
    /// Threads sort so many pairs as one thread does.
    Sorts(usize),
    /// A pool of four pages refuses these quotas.
    Refuses(&'static [u32]),
    /// What a pool answers that reclaims its accounts, of which the first gave its page back, or didn't.
    Reclaims(bool, Result<(), Fault>),
    /// A spool of so many pages takes so many pairs.
    Keeps(u32, u32),
    KeepsBoxed(u32, u32),
    RollsBack,
    FindsBoth,
    FindsLeast,
}

pub struct Case {
    pub name: &'static str,
    pub layer: Layer,
    pub told: Told,
}

static OTHERS: [Case; 14] = [
    Case {
        name: "a tree of 1,000 pairs",
        layer: Layer::Alone(Alone::Tree),
        told: DONE,
    },
    Case {
        name: "pages go through a ring",
        layer: Layer::Alone(Alone::Worker),
        told: DONE,
    },
    Case {
        name: "threads sort a run as one thread does",
        layer: Layer::Alone(Alone::Sorts(LONGEST_RUN)),
        told: DONE,
    },
    Case {
        name: "threads sort more pairs as one thread does",
        layer: Layer::Alone(Alone::Sorts(IN_THREADS)),
        told: DONE,
    },
    Case {
        name: "quotas of more pages than there are",
        layer: Layer::Alone(Alone::Refuses(&[1, 4])),
        told: DONE,
    },
    Case {
        name: "a quota of more pages than there are",
        layer: Layer::Alone(Alone::Refuses(&[5])),
        told: DONE,
    },
    Case {
        name: "a page that is missing",
        layer: Layer::Alone(Alone::Reclaims(false, Err(Fault::Short(1)))),
        told: DONE,
    },
    Case {
        name: "no page is missing",
        layer: Layer::Alone(Alone::Reclaims(true, Ok(()))),
        told: DONE,
    },
    Case {
        name: "a plain spool",
        layer: Layer::Alone(Alone::Keeps(2, 300)),
        told: DONE,
    },
    Case {
        name: "a plain spool whose page is full",
        layer: Layer::Alone(Alone::Keeps(1, 240)),
        told: DONE,
    },
    Case {
        name: "a spool in a box",
        layer: Layer::Alone(Alone::KeepsBoxed(2, 300)),
        told: DONE,
    },
    Case {
        name: "a rollback brings the row back",
        layer: Layer::Alone(Alone::RollsBack),
        told: DONE,
    },
    Case {
        name: "a tree gives the RIDs of a key",
        layer: Layer::Alone(Alone::FindsBoth),
        told: DONE,
    },
    Case {
        name: "the last row has the least key",
        layer: Layer::Alone(Alone::FindsLeast),
        told: DONE,
    },
];

fn all() -> [&'static [Case]; 8] {
    [
        &chunks::CASES,
        &rows::CASES,
        &pages::CASES,
        &logs::CASES,
        &tables::CASES,
        &entries::CASES,
        &merges::CASES,
        &OTHERS,
    ]
}

fn told<R: Threads + Sync>(rt: &R, alloc: Global, layer: &Layer) -> Told {
    match layer {
        Layer::List(steps) => first_other(&mut ChunkList::new(alloc), steps),
        Layer::Queue(steps) => first_other(&mut Numbers::new(alloc), steps),
        Layer::Rows(steps) => first_other(&mut Rows(alloc), steps),
        Layer::Page(slots, steps) => first_other(&mut Page::new(*slots)?, steps),
        Layer::Log(steps) => first_other(&mut Records::new(alloc), steps),
        Layer::Table(shape, steps) => tables::told(alloc, shape, steps),
        Layer::Entries(steps) => entries::told(alloc, steps),
        Layer::Merges(course) => merges::is_told(alloc, course).map(other_if),
        Layer::Alone(alone) => is_told(rt, alloc, alone).map(other_if),
    }
}

fn other_if(is_told: bool) -> Option<usize> {
    if is_told { None } else { Some(0) }
}

fn is_told<R: Threads + Sync>(rt: &R, alloc: Global, alone: &Alone) -> Result<bool, Fault> {
    match *alone {
        Alone::Tree => tree_answers(alloc),
        Alone::Worker => pages_go_through(alloc),
        Alone::Sorts(count) => sort_alike(rt, alloc, count),
        Alone::Refuses(quotas) => refuses(alloc, quotas),
        Alone::Reclaims(is_back, answer) => Ok(reclaimed(alloc, is_back)? == answer),
        Alone::Keeps(pages, count) => keeps_plain(alloc, pages, count),
        Alone::KeepsBoxed(pages, count) => keeps_boxed(alloc, pages, count),
        Alone::RollsBack => rolls_back(alloc),
        Alone::FindsBoth => finds_both(alloc),
        Alone::FindsLeast => finds_least(alloc),
    }
}

/// What is refused for want of memory is asked for once more.
fn told_again<R: Threads + Sync>(rt: &R, alloc: Global, layer: &Layer) -> Told {
    match told(rt, alloc, layer) {
        Err(Fault::Memory) => told(rt, alloc, layer),
        told => told,
    }
}

/// The first of these cases that is told otherwise.
fn told_otherwise<R: Threads + Sync>(
    rt: &R,
    alloc: Global,
    cases: &'static [Case],
) -> Option<(&'static str, Told)> {
    for case in cases {
        let told = told_again(rt, alloc, &case.layer);
        if told != case.told {
            return Some((case.name, told));
        }
    }
    None
}

/// The same of all cases.
fn any_told_otherwise<R: Threads + Sync>(rt: &R, alloc: Global) -> Option<(&'static str, Told)> {
    for cases in all() {
        let other = told_otherwise(rt, alloc, cases);
        if other.is_some() {
            return other;
        }
    }
    None
}

#[test]
fn are_told_where_memory_may_run_out(rt: HostRuntime) {
    assert_eq!(rt; any_told_otherwise(&rt, rt.alloc()), None);
}
