//! Scripts of many updates of one row beside a build that has scanned it, each of which leaves two entries for each index; and scripts whose
//! rows fill the one page of a spool, or are one too many for it.

use crate::run::{Lines, NO_LINES, Out, Run, SCRIPT};

/// Updates of the row at 0.0, each to another number.
const UPDATES: Lines = Lines {
    front: "update,A,0.0,",
    first: 1,
    ..NO_LINES
};

/// Rows, the numbers from 0.
const ROWS: Lines = Lines {
    front: "row,",
    ..NO_LINES
};

/// A build of one index that is loaded, and a transaction that has begun.
const ONE_INDEX: &[u8] = b"table,255,int
row,0
start,1,4,1,n:0
scan,0,0
seal,0
load,0
begin,A
";

/// One index and 512 updates. With the insert behind them their entries are one more than a switch takes.
pub const ONE_TOO_MANY: Run = Run {
    name: "one entry more than a switch takes",
    begin: ONE_INDEX,
    lines: Lines {
        count: 512,
        ..UPDATES
    },
    rest: b"insert,A,0
switch
feed,0,1
switch
apply,0,1
switch
pairs,0
",
    out: Out::Ends(
        "520,ok,515,0.1
521,refused,49,Behind,1025
522,ok,1
523,refused,49,Behind,1025
524,ok,1
525,ok,516,ready:0
525,pages,0
526,ok,2
526,pair,0,0.1
526,pair,512,0.0
",
    ),
    ..SCRIPT
};

/// One index and a few updates.
pub const FEW: Run = Run {
    name: "a few entries",
    begin: ONE_INDEX,
    lines: Lines {
        count: 12,
        ..UPDATES
    },
    rest: b"insert,A,0
feed,0,9
apply,0,4
switch
pairs,0
",
    out: Out::Ends(
        "20,ok,15,0.1
21,ok,9
22,ok,4
23,ok,16,ready:0
23,pages,0
24,ok,2
24,pair,0,0.1
24,pair,12,0.0
",
    ),
    ..SCRIPT
};

/// The runs of this file.
pub fn runs() -> &'static [Run] {
    &RUNS
}

static RUNS: [Run; 8] = [
    FEW,
    Run {
        name: "more entries than a ring has room for",
        begin: ONE_INDEX,
        lines: Lines {
            count: 129,
            ..UPDATES
        },
        rest: b"feed,0,300
feed,0,1
apply,0,2
feed,0,9
side,0
apply,0,300
switch
pairs,0
",
        out: Out::Ends(
            "137,ok,256
138,ok,0
139,ok,2
140,ok,2
141,ok,0
142,ok,256
143,ok,132,ready:0
143,pages,0
144,ok,1
144,pair,129,0.0
",
        ),
        ..SCRIPT
    },
    ONE_TOO_MANY,
    Run {
        name: "entries of two indexes",
        begin: b"table,255,int
row,0
start,1,4,1,n:0,n:0
scan,0,0
seal,0
load,0
load,1
begin,A
",
        lines: Lines {
            count: 257,
            ..UPDATES
        },
        rest: b"switch
feed,1,3
apply,1,3
switch
apply,0,1
feed,0,1
apply,0,1
switch
pairs,0
pairs,1
",
        out: Out::Ends(
            "266,refused,49,Behind,1028
267,ok,3
268,ok,3
269,refused,49,Behind,1025
270,ok,0
271,ok,1
272,ok,1
273,ok,260,ready:0,ready:1
273,pages,0
274,ok,1
274,pair,257,0.0
275,ok,1
275,pair,257,0.0
",
        ),
        ..SCRIPT
    },
    Run {
        name: "as many rows as fill a page of a spool with prefixes",
        begin: b"table,255,int\n",
        lines: Lines { count: 371, ..ROWS },
        rest: b"spools,prefix
start,1,1,2,n:0
scan,0,0
scan,0,0
seal,0
load,0
",
        out: Out::Ends("375,ok,0\n376,ok,1\n377,ok,2\n378,ok,371\n"),
        ..SCRIPT
    },
    Run {
        name: "one row too many for that",
        begin: b"table,255,int\n",
        lines: Lines { count: 372, ..ROWS },
        rest: b"spools,prefix
start,1,1,2,n:0
scan,0,0
scan,0,0
seal,0
load,0
",
        out: Out::Ends("378,refused,51,NoPage\n379,refused,51,NoPage\n"),
        ..SCRIPT
    },
    Run {
        name: "the same rows, and a plain spool",
        begin: b"table,255,int\n",
        lines: Lines { count: 371, ..ROWS },
        rest: b"spools,plain
start,1,1,2,n:0
scan,0,0
scan,0,0
seal,0
load,0
",
        out: Out::Ends("377,refused,51,NoPage\n378,refused,51,NoPage\n"),
        ..SCRIPT
    },
    Run {
        name: "the same rows, and spools of both kinds",
        begin: b"table,255,int\n",
        lines: Lines { count: 371, ..ROWS },
        rest: b"spools,mixed
start,1,1,2,n:0
scan,0,0
scan,0,0
seal,0
load,0
",
        out: Out::Ends("377,refused,51,NoPage\n378,refused,51,NoPage\n"),
        ..SCRIPT
    },
];
