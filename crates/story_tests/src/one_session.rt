//! Stories of one session on a shared table, with a build between two parts of it.

use crate::meetings::{Meeting, WHOLE, expect};
use crate::programs::{IDLE, Program};
use crate::rows::{Rows, SEVEN};
use crate::watch::{FREE, Holds};
use keybytes::Fault;

/// A session inserts a row, reads it, deletes it, finds it no more, and takes that back. A transaction without a write
/// ends without a record, and one that holds a row keeps another from it.
static READ_BACK: [Meeting; 1] = [Meeting {
    script: "table,255,int,int
start,1,4,even:1,n:0
",
    rows: &Rows {
        count: 3,
        distinct: 3,
        ..SEVEN
    },
    is_built: false,
    before: &Program {
        behind: "table,255,int,int
begin,2
insert,2,42,0
get,0.3
delete,2,0.3
get,0.3
undo,2
undo,2
begin,3
undo,3
begin,4
begin,5
update,4,0.0,9,9
delete,5,0.0
commit,4
",
        rounds: 1,
        answers: "1,ok
2,ok,2
3,ok,5,0.3
4,ok,42,0
5,ok,6,0.3
6,refused,21,NoSuchRow
7,ok,7,1
8,ok,8,0
9,ok,3
10,ok,0,0
11,ok,4
12,ok,5
13,ok,9,0.0
14,refused,22,RowHeld,4
15,ok,10
",
        ..IDLE
    },
    told: Ok((0, 0)),
    given: (6, 6),
    ..WHOLE
}];

/// A plain index and a unique one of an empty table, which gets the keys 5 and 3 before the build and 4 behind it.
static READ_PAIRS: [Meeting; 1] = [Meeting {
    script: "table,255,int,int
start,1,4,even:1,n:0,u:0
",
    rows: &Rows { count: 0, ..SEVEN },
    before: &Program {
        behind: "table,255,int,int
begin,2
insert,2,5,0
insert,2,3,0
commit,2
",
        rounds: 1,
        answers: "1,ok
2,ok,2
3,ok,2,0.0
4,ok,3,0.1
5,ok,4
",
        ..IDLE
    },
    behind: &Program {
        behind: "table,255,int,int
pairs,0
pairs,1
begin,3
insert,3,4,0
commit,3
pairs,0
pairs,1
",
        rounds: 1,
        answers: "1,ok
2,ok,2
2,pair,3,0.1
2,pair,5,0.0
3,ok,2
3,pair,3,0.1
3,pair,5,0.0
4,ok,3
5,ok,6,0.2
6,ok,7
7,ok,3
7,pair,3,0.1
7,pair,4,0.2
7,pair,5,0.0
8,ok,3
8,pair,3,0.1
8,pair,4,0.2
8,pair,5,0.0
",
        ..IDLE
    },
    further: 3,
    told: Ok((2, 6)),
    given: (6, 6),
    ..WHOLE
}];

/// A transaction that a build keeps from beginning.
pub static FENCED: Program = Program {
    behind: "table,2,int,int
begin,A
",
    answers: "1,ok
2,refused,27,Fenced
",
    is_asked: true,
    is_fenced: true,
    ..IDLE
};

/// A build of a unique index that waits in vain for a transaction, by two tries of its switch, and then lifts the fence. Between the
/// tries no other transaction begins.
static IN_VAIN: [Meeting; 1] = [Meeting {
    script: "table,2,int,int
start,1,4,even:1,u:0
",
    before: &Program {
        behind: "table,2,int,int
begin,2
insert,2,100,0
",
        rounds: 1,
        answers: "1,ok
2,ok,2
3,ok,9,3.1
",
        ..IDLE
    },
    behind: &Program {
        behind: "table,2,int,int
begin,3
",
        rounds: 1,
        answers: "1,ok
2,ok,3
",
        ..IDLE
    },
    holds: &Holds {
        backlog: 1,
        asking_try: 2,
        ..FREE
    },
    place: 5,
    further: 1,
    told: Err(Fault::Busy(1)),
    seen: &[15, 4, 0, 1, 0, 1, 0, 2],
    ..WHOLE
}];

#[test]
fn read_back(rt: HostRuntime) {
    expect(&rt, rt.alloc(), &READ_BACK);
}

#[test]
fn read_pairs(rt: HostRuntime) {
    expect(&rt, rt.alloc(), &READ_PAIRS);
}

#[test]
fn in_vain_lifts_the_fence(rt: HostRuntime) {
    expect(&rt, rt.alloc(), &IN_VAIN);
}
