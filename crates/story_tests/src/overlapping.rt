//! A build of two workers beside a session: both workers run at once, and neither digests under the table's lock.

use crate::meetings::{Meeting, WHOLE, expect};
use crate::programs::{IDLE, Program};
use crate::rows::{Rows, SEVEN};
use crate::watch::{FREE, Holds};

/// A row in a transaction of its own, whenever somebody asks.
pub static ROW: Program = Program {
    behind: "table,1,int,int
begin,A
insert,A,0,0
commit,A
",
    is_asked: true,
    ..IDLE
};

/// Two ranges of 28 pages, so that each worker's first run is full before its range ends. Each is held at its first
/// page, until the other is there too. Either worker scans one of the two ranges, seen by the pages that it copied. Each
/// hold, at the first pages, in both workers' digests and once the index is loaded, ends only once the session has inserted
/// a row: five in all.
static WIDE: [Meeting; 1] = [Meeting {
    script: "table,150,int,int
start,2,4,even:2,n:0
",
    rows: &Rows {
        count: 8400,
        distinct: 8400,
        ..SEVEN
    },
    is_held: true,
    holds: &Holds {
        until: [1, 1],
        is_asking: true,
        ..FREE
    },
    place: 4,
    further: 5,
    told: Ok((1, 8405)),
    given: (11, 11),
    seen: &[0xff_ffff_ffff_ffff, 28, 28],
    ..WHOLE
}];

/// Before the build catches up 1,100 rows are inserted, which make 2,200 entries of its two indexes: more than a switch
/// takes, so that one turn takes them all before it.
static BACKLOG: [Meeting; 1] = [Meeting {
    script: "table,255,int,int
start,2,4,even:2,n:0,n:1
",
    holds: &Holds {
        backlog: 1100,
        ..FREE
    },
    place: 4,
    further: 1100,
    told: Ok((2, 2214)),
    given: (2201, 2201),
    caught_up: Some((2200, 1)),
    ..WHOLE
}];

#[test]
fn gate_backlog(rt: HostRuntime) {
    expect(&rt, rt.alloc(), &BACKLOG);
}

#[test]
fn gate_overlap(rt: HostRuntime) {
    expect(&rt, rt.alloc(), &WIDE);
}
