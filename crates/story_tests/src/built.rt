//! Builds in threads, of tables to which nobody writes meanwhile: what each comes to, and what a fault in a spool
//! makes of it.

use crate::meetings::{Meeting, WHOLE, expect, outcome};
use crate::place::Place;
use crate::rows::{Rows, SEVEN};
use crate::watch::{FREE, Holds, Seen};
use keybytes::Fault;
use std::alloc::Global;
use std::sync::Wait;
use std::thread::Threads;

/// Two rows of one number, and a unique index.
const TWICE: Meeting = Meeting {
    script: "table,2,int,int
start,1,4,even:1,u:0
",
    rows: &Rows {
        count: 2,
        distinct: 1,
        ..SEVEN
    },
    told: Ok((0, 0)),
    ..WHOLE
};

static DECIDED: [Meeting; 9] = [
    WHOLE,
    Meeting {
        script: "table,2,int,int
start,2,4,even:3,n:0
",
        ..WHOLE
    },
    Meeting {
        script: "table,2,int,int
start,4,4,even:9,n:0
",
        ..WHOLE
    },
    Meeting {
        script: "table,2,int,int
start,2,4,even:1,n:0,u:0
",
        told: Ok((2, 14)),
        ..WHOLE
    },
    Meeting {
        script: "table,2,int,int
start,2,4,even:1,u:0,n:0
",
        rows: &Rows {
            distinct: 6,
            ..SEVEN
        },
        ..WHOLE
    },
    Meeting {
        script: "table,255,int,int
start,4,15,even:5,n:0
",
        rows: &Rows {
            count: 3000,
            distinct: 3000,
            ..SEVEN
        },
        told: Ok((1, 3000)),
        ..WHOLE
    },
    Meeting {
        script: "table,255,int,int
start,1,1,even:1,n:0
",
        rows: &Rows {
            count: 240,
            distinct: 240,
            ..SEVEN
        },
        told: Ok((1, 240)),
        ..WHOLE
    },
    TWICE,
    Meeting {
        is_dealt: false,
        ..TWICE
    },
];

static GIVEN_UP: [Meeting; 4] = [
    Meeting {
        script: "table,2,int,int
start,2,4,even:1,n:0
",
        is_used: true,
        told: Err(Fault::SpoolNotEmpty),
        given: (0, 0),
        ..WHOLE
    },
    Meeting {
        script: "table,2,int,int
start,1,4,even:0,n:0
",
        told: Err(Fault::BadRanges),
        given: (0, 0),
        ..WHOLE
    },
    Meeting {
        script: "table,2,int,int
start,17,1,even:1,n:0
",
        told: Err(Fault::BadCount),
        given: (0, 0),
        ..WHOLE
    },
    Meeting {
        script: "table,255,int,int
start,1,1,even:1,n:0
",
        rows: &Rows {
            count: 241,
            distinct: 241,
            ..SEVEN
        },
        told: Err(Fault::NoPage),
        given: (0, 0),
        ..WHOLE
    },
];

#[test]
fn builds_decide(rt: HostRuntime) {
    expect(&rt, rt.alloc(), &DECIDED);
}

#[test]
fn builds_that_are_given_up_hand_their_spools_back(rt: HostRuntime) {
    expect(&rt, rt.alloc(), &GIVEN_UP);
}

/// Two ranges of six pages, of two rows each. Either worker waits at its first page for the other, so that either gets
/// one range.
pub const TWO_INDEXES: Meeting = Meeting {
    script: "table,2,int,int
start,2,2,even:2,n:0,u:1
",
    rows: &Rows {
        count: 24,
        distinct: 24,
        ..SEVEN
    },
    tries: 1,
    holds: &Holds {
        until: [1, 1],
        ..FREE
    },
    ..WHOLE
};

/// The same with one index, whose load has threads that merge, and with both.
static FAULTED: [Meeting; 2] = [
    Meeting {
        script: "table,2,int,int
start,2,2,even:2,n:0
",
        ..TWO_INDEXES
    },
    TWO_INDEXES,
];

/// Of two all but that one.
fn but(number: usize) -> [u64; 2] {
    if number == 0 { [0, 1] } else { [1, 0] }
}

/// What the threads have to tell where a spool fails, if it does: all twelve pages are copied, six by either worker; the
/// worker whose push is refused closes no run, the other one does; where a read is refused, the other index is loaded.
fn wanted(place: &Place) -> Seen {
    let (sealed, loaded) = match (place.is_reached, place.is_push) {
        (false, _) => ([1, 1], [1, place.indexes.saturating_sub(1) as u64]),
        (true, true) => (but(place.spool / place.indexes.max(1)), [0, 0]),
        (true, false) if place.indexes == 2 => ([1, 1], but(place.spool % 2)),
        (true, false) => ([1, 1], [0, 0]),
    };
    let tries = u64::from(!place.is_reached);
    [
        4095, 6, 6, sealed[0], sealed[1], loaded[0], loaded[1], tries,
    ]
}

/// Whether a build comes to what it should where one push or read of a spool, behind so many, is refused.
fn fails_so<R: Threads + Wait + Sync>(
    rt: &R,
    alloc: Global,
    asked: &Meeting,
    place: &Place,
) -> bool {
    let ended = if place.is_reached {
        (Err(place.fault()), 0, 0)
    } else {
        (Ok((place.indexes, place.indexes.saturating_mul(24))), 1, 0)
    };
    outcome(rt, alloc, asked, &place.faults()) == Ok((ended, wanted(place)))
}

/// The first place where a build of so many indexes comes to something else: the spool, whether a push is refused, and
/// how many go well before. Each of its two spools an index gets 12 pairs.
fn other_fault<R: Threads + Wait + Sync>(
    rt: &R,
    alloc: Global,
    asked: &Meeting,
    indexes: usize,
) -> Option<(usize, bool, u32)> {
    for number in 0..indexes.saturating_mul(52) {
        let place = Place::numbered(number, indexes, 12);
        if !fails_so(rt, alloc, asked, &place) {
            return Some((place.spool, place.is_push, place.before));
        }
    }
    None
}

/// Wherever a push or a read of one worker's spool is refused, the build is given up for that, and the other worker
/// does all its work; so it does where the load has threads that merge.
#[test]
fn each_fault_of_a_worker_gives_the_build_up(rt: HostRuntime) {
    assert_eq!(rt; other_fault(&rt, rt.alloc(), &FAULTED[0], 1), None);
    assert_eq!(rt; other_fault(&rt, rt.alloc(), &FAULTED[1], 2), None);
}
