//! Sessions that meet on a table, and a build beside them.

use crate::meetings::{Meeting, WHOLE, expect, is_so, outcome};
use crate::one_session::FENCED;
use crate::overlapping::ROW;
use crate::place::NO_FAULT;
use crate::programs::{IDLE, Program};
use crate::rows::{Rows, SEVEN};
use crate::watch::{FREE, Holds};
use keybytes::Fault;

static NOTHING: Program = IDLE;

/// What a session does, by its place: each meeting has four.
pub fn program_of(place: usize) -> &'static Program {
    match place {
        0 | 1 => &INSERTS,
        4..=7 => &CHANGES,
        8..=11 => &WANTS,
        12 => &TURNS,
        16 => &ROW,
        20 => &FENCED,
        _ => &NOTHING,
    }
}

/// The rows 0, 1 and 2 on one page.
const ALONE: Meeting = Meeting {
    script: "table,255,int,int
start,2,4,even:1,u:0
",
    rows: &Rows {
        count: 3,
        distinct: 3,
        ..SEVEN
    },
    is_built: false,
    told: Ok((0, 0)),
    ..WHOLE
};

/// A row a transaction.
static INSERTS: Program = Program {
    behind: "table,1,int,int
begin,A
insert,A,+0,0
commit,A
",
    rounds: 100,
    ..IDLE
};

/// Two sessions insert a hundred rows each; and the same, where one receipt is kept back.
static TWO: [Meeting; 2] = [
    Meeting {
        place: 0,
        given: (400, 400),
        ..ALONE
    },
    Meeting {
        place: 0,
        keeps_back: true,
        given: (399, 399),
        missing: 1,
        ..ALONE
    },
];

/// Of three transactions the first changes two rows and is undone, and each other one changes one and commits.
static CHANGES: Program = Program {
    behind: "table,1,int,int
begin,A
update,A,0.0,+0,0
update,A,0.1,+1,0
undo,A
undo,A
begin,A
update,A,0.1,+1,0
commit,A
begin,A
update,A,0.2,+2,0
commit,A
",
    rounds: 34,
    ..IDLE
};

/// Four sessions write to the same rows. How many receipts there are goes with how the threads ran; each record has one.
static FOUR: [Meeting; 1] = [Meeting {
    place: 1,
    given: (400, usize::MAX),
    ..ALONE
}];

/// Each transaction wants the key 7, and gives one of the three rows a key that no other row gets. Until the index is
/// ready all are undone, and then every second one commits.
static WANTS: Program = Program {
    script: "table,1,int,int
begin,A
insert,A,7,0
update,A,0.0,0,0
undo,A
undo,A
begin,A
insert,A,7,0
update,A,0.1,11,0
undo,A
undo,A
begin,A
insert,A,7,0
update,A,0.2,2,0
undo,A
undo,A
begin,A
insert,A,7,0
update,A,0.0,10,0
undo,A
undo,A
begin,A
insert,A,7,0
update,A,0.1,1,0
undo,A
undo,A
begin,A
insert,A,7,0
update,A,0.2,12,0
undo,A
undo,A
",
    beside: 34,
    behind: "table,1,int,int
begin,A
insert,A,7,0
update,A,0.0,0,0
undo,A
undo,A
begin,A
insert,A,7,0
update,A,0.1,11,0
commit,A
begin,A
insert,A,7,0
update,A,0.2,2,0
undo,A
undo,A
begin,A
insert,A,7,0
update,A,0.0,10,0
commit,A
begin,A
insert,A,7,0
update,A,0.1,1,0
undo,A
undo,A
begin,A
insert,A,7,0
update,A,0.2,12,0
commit,A
",
    rounds: 7,
    ..IDLE
};

/// A key of the first index that no row may be given any more.
const DENIED: Program = Program {
    behind: "table,1,int,int
begin,A
insert,A,7,0
undo,A
",
    rounds: 1,
    is_denied: true,
    ..IDLE
};

/// Four sessions write to the same rows and want the same key, while a build makes this key unique, which may not catch
/// up with sessions that write all the time, and after it. The last transaction that wants it commits, so one of them has
/// it in the end.
static CONTENDED: [Meeting; 1] = [Meeting {
    is_built: true,
    tries: 1_000_000,
    place: 2,
    behind: &DENIED,
    is_quiet: false,
    further: 1,
    told: Ok((1, 4)),
    given: (1, usize::MAX),
    ..ALONE
}];

/// Of two transactions with two writes the second is taken back; meanwhile it can't write any more.
static TURNS: Program = Program {
    behind: "table,1,int,int
begin,A
insert,A,+100,+1100
update,A,0.0,+200,+1200
commit,A
begin,A
insert,A,+300,+1300
update,A,0.0,+400,+1400
undo,A
insert,A,5,5
undo,A
",
    rounds: 6,
    is_short: true,
    ..IDLE
};

const LAST_TURN: Program = Program {
    behind: "table,1,int,int
begin,A
insert,A,106,1106
update,A,0.0,206,1206
commit,A
begin,A
insert,A,306,1306
update,A,0.0,406,1406
undo,A
insert,A,5,5
undo,A
",
    rounds: 1,
    is_short: true,
    ..IDLE
};

/// A build of two indexes by two workers beside a session, and one more turn behind it. Memory may run out once.
static SHORT: [Meeting; 1] = [Meeting {
    script: "table,2,int,int
start,2,4,even:2,u:0,n:1
",
    rows: &Rows {
        more: 1000,
        is_reversed: false,
        ..SEVEN
    },
    tries: 1_000_000,
    holds: &Holds {
        yields: 1000,
        ..FREE
    },
    place: 3,
    behind: &LAST_TURN,
    is_quiet: false,
    is_known: true,
    further: 7,
    told: Ok((2, 28)),
    given: (50, 50),
    ..WHOLE
}];

/// The same where memory ran out: the build is given up, and its record isn't there.
static GIVEN_UP: Meeting = Meeting {
    told: Err(Fault::Memory),
    given: (49, 49),
    ..WHOLE
};

#[test]
fn sessions_two(rt: HostRuntime) {
    expect(&rt, rt.alloc(), &TWO);
}

#[test]
fn four_sessions_on_the_same_rows(rt: HostRuntime) {
    expect(&rt, rt.alloc(), &FOUR);
}

/// Each refusal is for a row or a key that is another's.
#[test]
fn four_sessions_beside_a_build(rt: HostRuntime) {
    expect(&rt, rt.alloc(), &CONTENDED);
}

/// With ample memory the build decides.
#[test]
fn decides(rt: HostRuntime) {
    expect(&rt, rt.alloc(), &SHORT);
}

/// It is run by itself, with each of its allocations refused in turn: then the build is given up, and its record isn't
/// there.
#[test]
fn decides_where_memory_may_run_out(rt: HostRuntime) {
    let once = match outcome(&rt, rt.alloc(), &SHORT[0], &NO_FAULT) {
        Err(Fault::Memory) => outcome(&rt, rt.alloc(), &SHORT[0], &NO_FAULT),
        once => once,
    };
    assert!(rt; is_so(&SHORT[0], &once) || is_so(&GIVEN_UP, &once));
}
