//! Races that are run: each prints the same however its threads meet.

use crate::run::{Lines, NO_LINES, Out, Run, SCRIPT};
use crate::task::Task;

/// Rows, the numbers from 0.
const ROWS: Lines = Lines {
    front: "row,",
    ..NO_LINES
};

/// The runs of this file.
pub fn runs() -> &'static [Run] {
    &RUNS
}

static RUNS: [Run; 14] = [
    Run {
        name: "two indexes with spools of both kinds",
        task: Task::Race(2),
        begin: b"table,4,int\nspools,mixed\n",
        lines: Lines { count: 300, ..ROWS },
        rest: b"build,4,even:2,n:0,n:0
go
in,1,begin,A
in,1,insert,A,5
in,1,commit,A
",
        out: Out::Is(
            "verdict,0,ready:0
verdict,1,ready:1
session,1,3,0
check,0,same
check,1,same
receipts,0
pages,0
",
        ),
        ..SCRIPT
    },
    Run {
        name: "a partial index and a whole one",
        task: Task::Race(2),
        begin: b"table,4,int,flag\nrow,1000,true\nrow,1001,false\nrow,1002,~\n",
        rest: b"build,4,even:2,u:0?1=true,n:0
go
in,1,begin,A
in,1,update,A,0.0,1000,false
in,1,update,A,0.1,1001,true
in,1,insert,A,1003,true
in,1,commit,A
in,2,begin,B
in,2,insert,B,1002,true
in,2,update,B,0.2,1002,false
in,2,commit,B
",
        out: Out::Is(
            "verdict,0,ready:0
verdict,1,ready:1
session,1,5,0
session,2,4,0
check,0,same
check,1,same
receipts,0
pages,0
",
        ),
        ..SCRIPT
    },
    Run {
        name: "a unique index on a column that descends",
        task: Task::Race(2),
        begin: b"table,4,int\n",
        lines: Lines { count: 300, ..ROWS },
        rest: b"build,4,even:2,u:0d
go
in,1,begin,A
in,1,insert,A,-1
in,1,commit,A
in,2,begin,B
in,2,delete,B,0.3
in,2,undo,B
",
        out: Out::Is(
            "verdict,0,ready:0
session,1,3,0
session,2,3,0
check,0,same
receipts,0
pages,0
",
        ),
        ..SCRIPT
    },
    Run {
        name: "a row beside a build",
        task: Task::Race(2),
        begin: b"table,4,int\n",
        rest: b"build,4,even:2,n:0
go
in,1,begin,A
in,1,insert,A,5
in,1,commit,A
",
        out: Out::Is(
            "verdict,0,ready:0
session,1,3,0
check,0,same
receipts,0
pages,0
",
        ),
        ..SCRIPT
    },
    Run {
        name: "a key that two rows share",
        task: Task::Race(1),
        begin: b"table,4,int\nrow,7\nrow,7\n",
        rest: b"build,4,even:1,u:0\ngo\n",
        out: Out::Is(
            "verdict,0,shared,7,0.0,0.1
receipts,0
pages,0
",
        ),
        status: 1,
        ..SCRIPT
    },
    Run {
        name: "a quota that is too small",
        task: Task::Race(1),
        begin: b"table,255,int\n",
        lines: Lines { count: 241, ..ROWS },
        rest: b"build,1,even:1,n:0\ngo\n",
        out: Out::Is(
            "fault,51,NoPage
receipts,0
pages,0
",
        ),
        status: 1,
        ..SCRIPT
    },
    Run {
        name: "a refused table",
        task: Task::Race(1),
        begin: b"table,0,int\n",
        rest: b"build,4,even:1,n:0\ngo\nin,1,begin,A\n",
        out: Out::Is("1,refused,43,BadCount\n"),
        status: 2,
        ..SCRIPT
    },
    Run {
        name: "a refused row, and no build for its quota",
        task: Task::Race(1),
        begin: b"table,4,int\nrow,=a\n",
        lines: Lines { count: 1, ..ROWS },
        rest: b"build,1025,even:1,n:0
go
in,1,begin,A
in,1,update,A,0.0,2
",
        out: Out::Is(
            "fault,43,BadCount
session,1,2,0
receipts,0
pages,0
",
        ),
        status: 1,
        ..SCRIPT
    },
    Run {
        name: "no build for its columns",
        task: Task::Race(16),
        begin: b"table,4,int\n",
        rest: b"build,4,even:1,n:0;0\ngo\nin,3,begin,A\n",
        out: Out::Is(
            "fault,10,BadColumn
session,3,1,0
receipts,0
pages,0
",
        ),
        status: 1,
        ..SCRIPT
    },
    Run {
        name: "no build for its ranges",
        task: Task::Race(1),
        begin: b"table,4,int\n",
        lines: Lines { count: 1, ..ROWS },
        rest: b"build,4,2,n:0\ngo\n",
        out: Out::Is(
            "fault,42,BadRanges
receipts,0
pages,0
",
        ),
        status: 1,
        ..SCRIPT
    },
    Run {
        name: "labels of other sessions, and transactions left open",
        task: Task::Race(3),
        begin: b"table,2,int\n",
        lines: Lines { count: 3, ..ROWS },
        rest: b"build,4,even:2,n:0,u:0
go
in,2,begin,A
in,2,insert,A,9
in,2,delete,A,0.0
in,5,commit,A
in,8,begin,B
in,8,update,B,1.0,8
in,8,undo,B
in,8,commit,B
",
        out: Out::Is(
            "verdict,0,ready:0
verdict,1,ready:1
session,2,3,0
session,5,0,1
session,8,3,1
check,0,same
check,1,same
receipts,0
pages,0
",
        ),
        ..SCRIPT
    },
    Run {
        name: "a bad record",
        task: Task::Race(1),
        begin: b"table,4,int\n",
        rest: b"build,4,even:1,n:0\nin,1,begin,A\ngo\n",
        err: "script: record 3 is bad\n",
        status: 2,
        ..SCRIPT
    },
    // What is shown where each line stays: the first page, each index that is in order, and the first turn.
    Run {
        name: "how far a build is, line by line",
        task: Task::Watched(false),
        rest: b"table,2,int\nrow,5\nrow,6\nrow,7\nbuild,4,even:1,n:0,u:0\ngo\n",
        out: Out::Is(
            "verdict,0,ready:0
verdict,1,ready:1
check,0,same
check,1,same
receipts,0
pages,0
",
        ),
        shown: "\
scanning, pages: 1 of 2, changes left: 0
loading, indexes: 1, pairs: 3, changes left: 0
loading, indexes: 2, pairs: 6, changes left: 0
catching up, try: 1, changes left: 0, sessions waiting: 0, busy transactions: 0
",
        ..SCRIPT
    },
    // On a terminal a line takes the place of the one before.
    Run {
        name: "how far a build is, on a terminal",
        task: Task::Watched(true),
        rest: b"table,2,int\nrow,5\nrow,6\nrow,7\nbuild,4,even:1,n:0,u:0\ngo\n",
        out: Out::Is(
            "verdict,0,ready:0
verdict,1,ready:1
check,0,same
check,1,same
receipts,0
pages,0
",
        ),
        shown: "\
\r\x1b[Kscanning, pages: 1 of 2, changes left: 0\
\r\x1b[Kloading, indexes: 1, pairs: 3, changes left: 0\
\r\x1b[Kloading, indexes: 2, pairs: 6, changes left: 0\
\r\x1b[Kcatching up, try: 1, changes left: 0, sessions waiting: 0, busy transactions: 0\
\r\x1b[K",
        ..SCRIPT
    },
];
