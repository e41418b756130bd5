//! Builds in threads of which a worker is stopped by its spool, or both are.

use crate::built::TWO_INDEXES;
use crate::meetings::{Meeting, WHOLE, expect};
use crate::rows::{Rows, SEVEN};
use crate::watch::{FREE, Holds};
use keybytes::Fault;
use prefix_spool::Coming;

/// Ranges of a page each, and a worker that is held until the other has copied 28: with the 4,200 rows of these a run
/// of 4,096 pairs is full. The build is given up, since no page is left.
const LONG: Meeting = Meeting {
    script: "table,150,int,int
start,2,25,even:64,n:0,u:1
",
    rows: &Rows {
        count: 9600,
        distinct: 9600,
        ..SEVEN
    },
    tries: 1,
    told: Err(Fault::NoPage),
    given: (0, 0),
    ..WHOLE
};

/// The same with one worker held alone.
const FIRST_HELD: Meeting = Meeting {
    holds: &Holds {
        until: [28, 0],
        yields: 500,
        ..FREE
    },
    seen: &[u64::MAX, 36, 28, 1, 0, 0, 0, 0],
    ..LONG
};

const SECOND_HELD: Meeting = Meeting {
    holds: &Holds {
        until: [0, 28],
        yields: 500,
        ..FREE
    },
    seen: &[u64::MAX, 28, 36, 0, 1, 0, 0, 0],
    ..LONG
};

/// Given up for want of a page too.
const SHORT: Meeting = Meeting {
    told: Err(Fault::NoPage),
    given: (0, 0),
    ..TWO_INDEXES
};

const NO: Coming = Coming::Nothing;

const FULL: Coming = Coming::FullBehind(0);

/// The worker whose first run finds no page is stopped with its last of 28 pages, and the other copies the 36 that are
/// left. Behind these are faults in spools of both workers: a build that no page is left for isn't loaded.
static STOPPED: [Meeting; 7] = [
    Meeting {
        faults: [FULL, NO, NO, NO],
        ..SECOND_HELD
    },
    Meeting {
        faults: [NO, FULL, NO, NO],
        ..SECOND_HELD
    },
    Meeting {
        faults: [NO, NO, FULL, NO],
        ..FIRST_HELD
    },
    Meeting {
        faults: [NO, NO, NO, FULL],
        ..FIRST_HELD
    },
    Meeting {
        faults: [Coming::FullBehind(3), NO, NO, FULL],
        seen: &[4095, 6, 6, 0, 0, 0, 0, 0],
        ..SHORT
    },
    Meeting {
        faults: [
            Coming::MemoryBehind(0),
            Coming::MemoryBehind(0),
            Coming::FullBehind(11),
            NO,
        ],
        seen: &[4095, 6, 6, 1, 0, 0, 0, 0],
        ..SHORT
    },
    Meeting {
        faults: [
            NO,
            Coming::FullBehind(5),
            Coming::MemoryBehind(2),
            Coming::MemoryBehind(2),
        ],
        seen: &[4095, 6, 6, 0, 1, 0, 0, 0],
        ..SHORT
    },
];

/// A worker whose spool is full while ranges are left goes no further, and the other copies them all. Where both have
/// faults to come the build is given up for the first that is met.
#[test]
fn a_worker_that_is_stopped_leaves_its_ranges_to_the_other(rt: HostRuntime) {
    expect(&rt, rt.alloc(), &STOPPED);
}
