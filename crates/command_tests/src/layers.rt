//! What the layers below the builds do, as scripts and files show it: changes of rows and their refusals, places of rows, ranges
//! and spools.

use crate::run::{Lines, NO_LINES, Out, Run, SCRIPT};
use crate::task::Task;

const BEGINS: Lines = Lines {
    front: "begin,T",
    first: 1,
    ..NO_LINES
};

const INSERTS: Lines = Lines {
    front: "insert,A,",
    first: 1,
    ..NO_LINES
};

const ROWS: Lines = Lines {
    front: "row,",
    ..NO_LINES
};

/// The runs of this file.
pub fn runs() -> &'static [Run] {
    &RUNS
}

static RUNS: [Run; 13] = [
    Run {
        name: "changes, and which are refused",
        rest: b"table,1,int
begin,A
begin,B
insert,A,5
delete,B,0.0
update,A,0.0,6
delete,A,0.0
update,A,0.0,7
insert,B,8
insert,B,=aaaaaaaaa
insert,C,9
undo,A
insert,A,9
undo,A
undo,A
undo,A
insert,B,9
get,0.0
get,3.0
commit,B
commit,B
undo,B
",
        out: Out::Is(
            "1,ok
2,ok,1
3,ok,2
4,ok,1,0.0
5,refused,22,RowHeld,1
6,ok,2,0.0
7,ok,3,0.0
8,refused,21,NoSuchRow
9,ok,4,1.0
10,refused,12,RowShape
11,refused,24,NoSuchTxn
12,ok,5,2
13,refused,26,TxnEnding
14,ok,6,1
15,ok,7,0
16,refused,24,NoSuchTxn
17,ok,8,0.0
18,ok,9
19,refused,21,NoSuchRow
20,ok,9
21,refused,24,NoSuchTxn
22,refused,24,NoSuchTxn
",
        ),
        ..SCRIPT
    },
    Run {
        name: "64 transactions may be open",
        begin: b"table,1,int\n",
        lines: Lines {
            count: 64,
            ..BEGINS
        },
        rest: b"begin,X
commit,T1
begin,X
",
        out: Out::Ends("65,ok,64\n66,refused,25,TooManyTxns\n67,ok,1\n68,ok,65\n"),
        ..SCRIPT
    },
    Run {
        name: "three rows of 1,224 bytes leave 392 of a page: a row of 396 doesn't fit there, and one of 384 does",
        rest: b"table,255,text,text,text,text,text,text,text,text,text,text,text,text
begin,A
insert,A,=aaaaaaaaaaaaaaaaaaaaaaaaaaaaaaaaaaaaaaaaaaaaaaaaaaaaaaaaaaaaaaaaaaaaaaaaaaaaaaaaaaaaaaaaaaaaaaaaaaaa,=aaaaaaaaaaaaaaaaaaaaaaaaaaaaaaaaaaaaaaaaaaaaaaaaaaaaaaaaaaaaaaaaaaaaaaaaaaaaaaaaaaaaaaaaaaaaaaaaaaaa,=aaaaaaaaaaaaaaaaaaaaaaaaaaaaaaaaaaaaaaaaaaaaaaaaaaaaaaaaaaaaaaaaaaaaaaaaaaaaaaaaaaaaaaaaaaaaaaaaaaaa,=aaaaaaaaaaaaaaaaaaaaaaaaaaaaaaaaaaaaaaaaaaaaaaaaaaaaaaaaaaaaaaaaaaaaaaaaaaaaaaaaaaaaaaaaaaaaaaaaaaaa,=aaaaaaaaaaaaaaaaaaaaaaaaaaaaaaaaaaaaaaaaaaaaaaaaaaaaaaaaaaaaaaaaaaaaaaaaaaaaaaaaaaaaaaaaaaaaaaaaaaaa,=aaaaaaaaaaaaaaaaaaaaaaaaaaaaaaaaaaaaaaaaaaaaaaaaaaaaaaaaaaaaaaaaaaaaaaaaaaaaaaaaaaaaaaaaaaaaaaaaaaaa,=aaaaaaaaaaaaaaaaaaaaaaaaaaaaaaaaaaaaaaaaaaaaaaaaaaaaaaaaaaaaaaaaaaaaaaaaaaaaaaaaaaaaaaaaaaaaaaaaaaaa,=aaaaaaaaaaaaaaaaaaaaaaaaaaaaaaaaaaaaaaaaaaaaaaaaaaaaaaaaaaaaaaaaaaaaaaaaaaaaaaaaaaaaaaaaaaaaaaaaaaaa,=aaaaaaaaaaaaaaaaaaaaaaaaaaaaaaaaaaaaaaaaaaaaaaaaaaaaaaaaaaaaaaaaaaaaaaaaaaaaaaaaaaaaaaaaaaaaaaaaaaaa,=aaaaaaaaaaaaaaaaaaaaaaaaaaaaaaaaaaaaaaaaaaaaaaaaaaaaaaaaaaaaaaaaaaaaaaaaaaaaaaaaaaaaaaaaaaaaaaaaaaaa,=aaaaaaaaaaaaaaaaaaaaaaaaaaaaaaaaaaaaaaaaaaaaaaaaaaaaaaaaaaaaaaaaaaaaaaaaaaaaaaaaaaaaaaaaaaaaaaaaaaaa,=aaaaaaaaaaaaaaaaaaaaaaaaaaaaaaaaaaaaaaaaaaaaaaaaaaaaaaaaaaaaaaaaaaaaaaaaaaaaaaaaaaaaaaaaaaaaaaaaaaaa
insert,A,=aaaaaaaaaaaaaaaaaaaaaaaaaaaaaaaaaaaaaaaaaaaaaaaaaaaaaaaaaaaaaaaaaaaaaaaaaaaaaaaaaaaaaaaaaaaaaaaaaaaa,=aaaaaaaaaaaaaaaaaaaaaaaaaaaaaaaaaaaaaaaaaaaaaaaaaaaaaaaaaaaaaaaaaaaaaaaaaaaaaaaaaaaaaaaaaaaaaaaaaaaa,=aaaaaaaaaaaaaaaaaaaaaaaaaaaaaaaaaaaaaaaaaaaaaaaaaaaaaaaaaaaaaaaaaaaaaaaaaaaaaaaaaaaaaaaaaaaaaaaaaaaa,=aaaaaaaaaaaaaaaaaaaaaaaaaaaaaaaaaaaaaaaaaaaaaaaaaaaaaaaaaaaaaaaaaaaaaaaaaaaaaaaaaaaaaaaaaaaaaaaaaaaa,=aaaaaaaaaaaaaaaaaaaaaaaaaaaaaaaaaaaaaaaaaaaaaaaaaaaaaaaaaaaaaaaaaaaaaaaaaaaaaaaaaaaaaaaaaaaaaaaaaaaa,=aaaaaaaaaaaaaaaaaaaaaaaaaaaaaaaaaaaaaaaaaaaaaaaaaaaaaaaaaaaaaaaaaaaaaaaaaaaaaaaaaaaaaaaaaaaaaaaaaaaa,=aaaaaaaaaaaaaaaaaaaaaaaaaaaaaaaaaaaaaaaaaaaaaaaaaaaaaaaaaaaaaaaaaaaaaaaaaaaaaaaaaaaaaaaaaaaaaaaaaaaa,=aaaaaaaaaaaaaaaaaaaaaaaaaaaaaaaaaaaaaaaaaaaaaaaaaaaaaaaaaaaaaaaaaaaaaaaaaaaaaaaaaaaaaaaaaaaaaaaaaaaa,=aaaaaaaaaaaaaaaaaaaaaaaaaaaaaaaaaaaaaaaaaaaaaaaaaaaaaaaaaaaaaaaaaaaaaaaaaaaaaaaaaaaaaaaaaaaaaaaaaaaa,=aaaaaaaaaaaaaaaaaaaaaaaaaaaaaaaaaaaaaaaaaaaaaaaaaaaaaaaaaaaaaaaaaaaaaaaaaaaaaaaaaaaaaaaaaaaaaaaaaaaa,=aaaaaaaaaaaaaaaaaaaaaaaaaaaaaaaaaaaaaaaaaaaaaaaaaaaaaaaaaaaaaaaaaaaaaaaaaaaaaaaaaaaaaaaaaaaaaaaaaaaa,=aaaaaaaaaaaaaaaaaaaaaaaaaaaaaaaaaaaaaaaaaaaaaaaaaaaaaaaaaaaaaaaaaaaaaaaaaaaaaaaaaaaaaaaaaaaaaaaaaaaa
insert,A,=aaaaaaaaaaaaaaaaaaaaaaaaaaaaaaaaaaaaaaaaaaaaaaaaaaaaaaaaaaaaaaaaaaaaaaaaaaaaaaaaaaaaaaaaaaaaaaaaaaaa,=aaaaaaaaaaaaaaaaaaaaaaaaaaaaaaaaaaaaaaaaaaaaaaaaaaaaaaaaaaaaaaaaaaaaaaaaaaaaaaaaaaaaaaaaaaaaaaaaaaaa,=aaaaaaaaaaaaaaaaaaaaaaaaaaaaaaaaaaaaaaaaaaaaaaaaaaaaaaaaaaaaaaaaaaaaaaaaaaaaaaaaaaaaaaaaaaaaaaaaaaaa,=aaaaaaaaaaaaaaaaaaaaaaaaaaaaaaaaaaaaaaaaaaaaaaaaaaaaaaaaaaaaaaaaaaaaaaaaaaaaaaaaaaaaaaaaaaaaaaaaaaaa,=aaaaaaaaaaaaaaaaaaaaaaaaaaaaaaaaaaaaaaaaaaaaaaaaaaaaaaaaaaaaaaaaaaaaaaaaaaaaaaaaaaaaaaaaaaaaaaaaaaaa,=aaaaaaaaaaaaaaaaaaaaaaaaaaaaaaaaaaaaaaaaaaaaaaaaaaaaaaaaaaaaaaaaaaaaaaaaaaaaaaaaaaaaaaaaaaaaaaaaaaaa,=aaaaaaaaaaaaaaaaaaaaaaaaaaaaaaaaaaaaaaaaaaaaaaaaaaaaaaaaaaaaaaaaaaaaaaaaaaaaaaaaaaaaaaaaaaaaaaaaaaaa,=aaaaaaaaaaaaaaaaaaaaaaaaaaaaaaaaaaaaaaaaaaaaaaaaaaaaaaaaaaaaaaaaaaaaaaaaaaaaaaaaaaaaaaaaaaaaaaaaaaaa,=aaaaaaaaaaaaaaaaaaaaaaaaaaaaaaaaaaaaaaaaaaaaaaaaaaaaaaaaaaaaaaaaaaaaaaaaaaaaaaaaaaaaaaaaaaaaaaaaaaaa,=aaaaaaaaaaaaaaaaaaaaaaaaaaaaaaaaaaaaaaaaaaaaaaaaaaaaaaaaaaaaaaaaaaaaaaaaaaaaaaaaaaaaaaaaaaaaaaaaaaaa,=aaaaaaaaaaaaaaaaaaaaaaaaaaaaaaaaaaaaaaaaaaaaaaaaaaaaaaaaaaaaaaaaaaaaaaaaaaaaaaaaaaaaaaaaaaaaaaaaaaaa,=aaaaaaaaaaaaaaaaaaaaaaaaaaaaaaaaaaaaaaaaaaaaaaaaaaaaaaaaaaaaaaaaaaaaaaaaaaaaaaaaaaaaaaaaaaaaaaaaaaaa
insert,A,=aaaaaaaaaaaaaaaaaaaaaaaaaaaaaaaaaaaaaaaaaaaaaaaaaaaaaaaaaaaaaaaaaaaaaaaaaaaaaaaaaaaaaaaaaaaaaaaaaaaa,=aaaaaaaaaaaaaaaaaaaaaaaaaaaaaaaaaaaaaaaaaaaaaaaaaaaaaaaaaaaaaaaaaaaaaaaaaaaaaaaaaaaaaaaaaaaaaaaaaaaa,=aaaaaaaaaaaaaaaaaaaaaaaaaaaaaaaaaaaaaaaaaaaaaaaaaaaaaaaaaaaaaaaaaaaaaaaaaaaaaaaaaaaaaaaaaaaaaaaaaaaa,=aaaaaaaaaaaaaaaaaaaaaaaaaaaaaaaaaaaaaaaaaaaaaaaaaaaaaaaaaaaaaaaaaaaaaaaaaaaaaaaaaaaaaaaaaaaaaaaaaaaa,=aaaaaaaaaaaaaaaaaaaaaaaaaaaaaaaaaaaaaaaaaaaaaaaaaaaaaaaaaaaaaaaaaaaaaaaaaaaaaaaaaaaaaaaaaaaaaaaaaaaa,=aaaaaaaaaaaaaaaaaaaaaaaaaaaaaaaaaaaaaaaaaaaaaaaaaaaaaaaaaaaaaaaaaaaaaaaaaaaaaaaaaaaaaaaaaaaaaaaaaaaa,=aaaaaaaaaaaaaaaaaaaaaaaaaaaaaaaaaaaaaaaaaaaaaaaaaaaaaaaaaaaaaaaaaaaaaaaaaaaaaaaaaaaaaaaaaaaaaaaaaaaa,=aaaaaaaaaaaaaaaaaaaaaaaaaaaaaaaaaaaaaaaaaaaaaaaaaaaaaaaaaaaaaaaaaaaaaaaaaaaaaaaaaaaaaaaaaaaaaaaaaaaa,=aaaaaaaaaaaaaaaaaaaaaaaaaaaaaaaaaaaaaaaaaaaaaaaaaaaaaaaaaaaaaaaaaaaaaaaaaaaaaaaaaaaaaaaaaaaaaaaaaaaa,=aaaaaaaaaaaaaaaaaaaaaaaaaaaaaaaaaaaaaaaaaaaaaaaaaaaaaaaaaaaaaaaaaaaaaaaaaaaaaaaaaaaaaaaaaaaaaaaaaaaa,=aaaaaaaaaaaaaaaaaaaaaaaaaaaaaaaaaaaaaaaaaaaaaaaaaaaaaaaaaaaaaaaaaaaaaaaaaaaaaaaaaaaaaaaaaaaaaaaaaaaa,=aaaaaaaaaaaaaaaaaaaaaaaaaaaaaaaaaaaaaaaaaaaaaaaaaaaaaaaaaaaaaaaaaaaaaaaaaaaaaaaaaaaaaaaaaaaaaaaaaaaa
insert,A,=aaaaaaaaaaaaaaaaaaaaaaaaaaaaaaaaaaaaaaaaaaaaaaaaaaaaaaaaaaaaaaaaaaaaaaaaaaaaaaaaaaaaaaaaaaaaaaaaaaaa,=aaaaaaaaaaaaaaaaaaaaaaaaaaaaaaaaaaaaaaaaaaaaaaaaaaaaaaaaaaaaaaaaaaaaaaaaaaaaaaaaaaaaaaaaaaaaaaaaaaaa,=aaaaaaaaaaaaaaaaaaaaaaaaaaaaaaaaaaaaaaaaaaaaaaaaaaaaaaaaaaaaaaaaaaaaaaaaaaaaaaaaaaaaaaaaaaaaaaaaaaaa,=aaaaaaaaaaaaaaaaaaaaaaaaaaaaaaaaaaaaaaaaaaaaaaaaaaaaaaaaaaaaaaaaaaaaaaaaaaaaaaaaaaaaaaaaaaaaaaaaaaaa,=aaaaaaaaaaaaaaaaaaaaaaaaaaaaaaaaaaaaaaaaaaaaaaaaaaaaaaaaaaaaaaaaaaaaaaaaaaaaaaaaaaaaaaaaaaaaaaaaaaaa,=aaaaaaaaaaaaaaaaaaaaaaaaaaaaaaaaaaaaaaaaaaaaaaaaaaaaaaaaaaaaaaaaaaaaaaaaaaaaaaaaaaaaaaaaaaaaaaaaaaaa,=aaaaaaaaaaaaaaaaaaaaaaaaaaaaaaaaaaaaaaaaaaaaaaaaaaaaaaaaaaaaaaaaaaaaaaaaaaaaaaaaaaaaaaaaaaaaaaaaaaaa,=aaaaaaaaaaaaaaaaaaaaaaaaaaaaaaaaaaaaaaaaaaaaaaaaaaaaaaaaaaaaaaaaaaaaaaaaaaaaaaaaaaaaaaaaaaaaaaaaaaaa,=aaaaaaaaaaaaaaaaaaaaaaaaaaaaaaaaaaaaaaaaaaaaaaaaaaaaaaaaaaaaaaaaaaaaaaaaaaaaaaaaaaaaaaaaaaaaaaaaaaaa,=aaaaaaaaaaaaaaaaaaaaaaaaaaaaaaaaaaaaaaaaaaaaaaaaaaaaaaaaaaaaaaaaaaaaaaaaaaaaaaaaaaaaaaaaaaaaaaaaaaaa,=aaaaaaaaaaaaaaaaaaaaaaaaaaaaaaaaaaaaaaaaaaaaaaaaaaaaaaaaaaaaaaaaaaaaaaaaaaaaaaaaaaaaaaaaaaaaaaaaaaaa,=aaaaaaaaaaaaaaaaaaaaaaaaaaaaaaaaaaaaaaaaaaaaaaaaaaaaaaaaaaaaaaaaaaaaaaaaaaaaaaaaaaaaaaaaaaaaaaaaaaaa
insert,A,=aaaaaaaaaaaaaaaaaaaaaaaaaaaaaaaaaaaaaaaaaaaaaaaaaaaaaaaaaaaaaaaaaaaaaaaaaaaaaaaaaaaaaaaaaaaaaaaaaaaa,=aaaaaaaaaaaaaaaaaaaaaaaaaaaaaaaaaaaaaaaaaaaaaaaaaaaaaaaaaaaaaaaaaaaaaaaaaaaaaaaaaaaaaaaaaaaaaaaaaaaa,=aaaaaaaaaaaaaaaaaaaaaaaaaaaaaaaaaaaaaaaaaaaaaaaaaaaaaaaaaaaaaaaaaaaaaaaaaaaaaaaaaaaaaaaaaaaaaaaaaaaa,=aaaaaaaaaaaaaaaaaaaaaaaaaaaaaaaaaaaaaaaaaaaaaaaaaaaaaaaaaaaaaaaaaaaaaaaaaaaaaaaaaaaaaaaaaaaaaaaaaaaa,=aaaaaaaaaaaaaaaaaaaaaaaaaaaaaaaaaaaaaaaaaaaaaaaaaaaaaaaaaaaaaaaaaaaaaaaaaaaaaaaaaaaaaaaaaaaaaaaaaaaa,=aaaaaaaaaaaaaaaaaaaaaaaaaaaaaaaaaaaaaaaaaaaaaaaaaaaaaaaaaaaaaaaaaaaaaaaaaaaaaaaaaaaaaaaaaaaaaaaaaaaa,=aaaaaaaaaaaaaaaaaaaaaaaaaaaaaaaaaaaaaaaaaaaaaaaaaaaaaaaaaaaaaaaaaaaaaaaaaaaaaaaaaaaaaaaaaaaaaaaaaaaa,=aaaaaaaaaaaaaaaaaaaaaaaaaaaaaaaaaaaaaaaaaaaaaaaaaaaaaaaaaaaaaaaaaaaaaaaaaaaaaaaaaaaaaaaaaaaaaaaaaaaa,=aaaaaaaaaaaaaaaaaaaaaaaaaaaaaaaaaaaaaaaaaaaaaaaaaaaaaaaaaaaaaaaaaaaaaaaaaaaaaaaaaaaaaaaaaaaaaaaaaaaa,=aaaaaaaaaaaaaaaaaaaaaaaaaaaaaaaaaaaaaaaaaaaaaaaaaaaaaaaaaaaaaaaaaaaaaaaaaaaaaaaaaaaaaaaaaaaaaaaaaaaa,=aaaaaaaaaaaaaaaaaaaaaaaaaaaaaaaaaaaaaaaaaaaaaaaaaaaaaaaaaaaaaaaaaaaaaaaaaaaaaaaaaaaaaaaaaaaaaaaaaaaa,=aaaaaaaaaaaaaaaaaaaaaaaaaaaaaaaaaaaaaaaaaaaaaaaaaaaaaaaaaaaaaaaaaaaaaaaaaaaaaaaaaaaaaaaaaaaaaaaaaaaa
insert,A,=aaaaaaaaaaaaaaaaaaaaaaaaaaaaaaaaaaaaaaaaaaaaaaaaaaaaaaaaaaaaaaaaaaaaaaaaaaaaaaaaaaaaaaaaaaaaaaaaaaaa,=aaaaaaaaaaaaaaaaaaaaaaaaaaaaaaaaaaaaaaaaaaaaaaaaaaaaaaaaaaaaaaaaaaaaaaaaaaaaaaaaaaaaaaaaaaaaaaaaaaaa,=aaaaaaaaaaaaaaaaaaaaaaaaaaaaaaaaaaaaaaaaaaaaaaaaaaaaaaaaaaaaaaaaaaaaaaaaaaaaaaaaaaaaaaaaaaaaaaaaaaaa,=aaaaaaaaaaaaaaaaaaaaaaaaaaaaaaaaaaaaaaaaaaaaaaaaaaaaaaaaaaaaaaaaaaaaaaaaaaaaaaaaaaaaaaaaaaaaaaaaaaaa,=aaaaaaaaaaaaaaaaaaaaaaaaaaaaaaaaaaaaaaaaaaaaaaaaaaaaaaaaaaaaaaaaaaaaaaaaaaaaaaaaaaaaaaaaaaaaaaaaaaaa,=aaaaaaaaaaaaaaaaaaaaaaaaaaaaaaaaaaaaaaaaaaaaaaaaaaaaaaaaaaaaaaaaaaaaaaaaaaaaaaaaaaaaaaaaaaaaaaaaaaaa,=aaaaaaaaaaaaaaaaaaaaaaaaaaaaaaaaaaaaaaaaaaaaaaaaaaaaaaaaaaaaaaaaaaaaaaaaaaaaaaaaaaaaaaaaaaaaaaaaaaaa,=aaaaaaaaaaaaaaaaaaaaaaaaaaaaaaaaaaaaaaaaaaaaaaaaaaaaaaaaaaaaaaaaaaaaaaaaaaaaaaaaaaaaaaaaaaaaaaaaaaaa,=aaaaaaaaaaaaaaaaaaaaaaaaaaaaaaaaaaaaaaaaaaaaaaaaaaaaaaaaaaaaaaaaaaaaaaaaaaaaaaaaaaaaaaaaaaaaaaaaaaaa,=aaaaaaaaaaaaaaaaaaaaaaaaaaaaaaaaaaaaaaaaaaaaaaaaaaaaaaaaaaaaaaaaaaaaaaaaaaaaaaaaaaaaaaaaaaaaaaaaaaaa,=aaaaaaaaaaaaaaaaaaaaaaaaaaaaaaaaaaaaaaaaaaaaaaaaaaaaaaaaaaaaaaaaaaaaaaaaaaaaaaaaaaaaaaaaaaaaaaaaaaaa,=aaaaaaaaaaaaaaaaaaaaaaaaaaaaaaaaaaaaaaaaaaaaaaaaaaaaaaaaaaaaaaaaaaaaaaaaaaaaaaaaaaaaaaaaaaaaaaaaaaaa
insert,A,=aaaaaaaaaaaaaaaaaaaaaaaaaaaaaaa,=aaaaaaaaaaaaaaaaaaaaaaaaaaaaaaa,=aaaaaaaaaaaaaaaaaaaaaaaaaaaaaaa,=aaaaaaaaaaaaaaaaaaaaaaaaaaaaaaa,=aaaaaaaaaaaaaaaaaaaaaaaaaaaaaaa,=aaaaaaaaaaaaaaaaaaaaaaaaaaaaaaa,=aaaaaaaaaaaaaaaaaaaaaaaaaaaaaaa,=aaaaaaaaaaaaaaaaaaaaaaaaaaaaaaa,=aaaaaaaaaaaaaaaaaaaaaaaaaaaaaaa,=aaaaaaaaaaaaaaaaaaaaaaaaaaaaaaa,=aaaaaaaaaaaaaaaaaaaaaaaaaaaaaaa,=aaaaaaaaaaaaaaaaaaaaaaaaaaaaaaa
insert,A,=aaaaaaaaaaaaaaaaaaaaaaaaaaaaaa,=aaaaaaaaaaaaaaaaaaaaaaaaaaaaaa,=aaaaaaaaaaaaaaaaaaaaaaaaaaaaaa,=aaaaaaaaaaaaaaaaaaaaaaaaaaaaaa,=aaaaaaaaaaaaaaaaaaaaaaaaaaaaaa,=aaaaaaaaaaaaaaaaaaaaaaaaaaaaaa,=aaaaaaaaaaaaaaaaaaaaaaaaaaaaaa,=aaaaaaaaaaaaaaaaaaaaaaaaaaaaaa,=aaaaaaaaaaaaaaaaaaaaaaaaaaaaaa,=aaaaaaaaaaaaaaaaaaaaaaaaaaaaaa,=aaaaaaaaaaaaaaaaaaaaaaaaaaaaaa,=aaaaaaaaaaaaaaaaaaaaaaaaaaaaaa
insert,A,=aaaaaaaaaaaaaaaaaaaaaaaaaaaaaa,=aaaaaaaaaaaaaaaaaaaaaaaaaaaaaa,=aaaaaaaaaaaaaaaaaaaaaaaaaaaaaa,=aaaaaaaaaaaaaaaaaaaaaaaaaaaaaa,=aaaaaaaaaaaaaaaaaaaaaaaaaaaaaa,=aaaaaaaaaaaaaaaaaaaaaaaaaaaaaa,=aaaaaaaaaaaaaaaaaaaaaaaaaaaaaa,=aaaaaaaaaaaaaaaaaaaaaaaaaaaaaa,=aaaaaaaaaaaaaaaaaaaaaaaaaaaaaa,=aaaaaaaaaaaaaaaaaaaaaaaaaaaaaa,=aaaaaaaaaaaaaaaaaaaaaaaaaaaaaa,=aaaaaaaaaaaaaaaaaaaaaaaaaaaaaa
insert,A,=aaaaaaaaaaaaaaaaaaaaaaaaaaaaaa,=aaaaaaaaaaaaaaaaaaaaaaaaaaaaaa,=aaaaaaaaaaaaaaaaaaaaaaaaaaaaaa,=aaaaaaaaaaaaaaaaaaaaaaaaaaaaaa,=aaaaaaaaaaaaaaaaaaaaaaaaaaaaaa,=aaaaaaaaaaaaaaaaaaaaaaaaaaaaaa,=aaaaaaaaaaaaaaaaaaaaaaaaaaaaaa,=aaaaaaaaaaaaaaaaaaaaaaaaaaaaaa,=aaaaaaaaaaaaaaaaaaaaaaaaaaaaaa,=aaaaaaaaaaaaaaaaaaaaaaaaaaaaaa,=aaaaaaaaaaaaaaaaaaaaaaaaaaaaaa,=aaaaaaaaaaaaaaaaaaaaaaaaaaaaaa
insert,A,=,=,=,=,=,=,=,=,=,=,=,=
",
        out: Out::Is(
            "1,ok
2,ok,1
3,ok,1,0.0
4,ok,2,0.1
5,ok,3,0.2
6,ok,4,1.0
7,ok,5,1.1
8,ok,6,1.2
9,ok,7,2.0
10,ok,8,2.1
11,ok,9,0.3
12,ok,10,1.3
13,ok,11,2.2
14,ok,12,2.3
",
        ),
        ..SCRIPT
    },
    Run {
        name: "300 pages of one slot, and the last one's row gone",
        begin: b"table,1,int\nbegin,A\nbegin,B\n",
        lines: Lines {
            count: 300,
            ..INSERTS
        },
        rest: b"delete,A,299.0
commit,A
insert,B,6
",
        out: Out::Ends("303,ok,300,299.0\n304,ok,301,299.0\n305,ok,302\n306,ok,303,299.0\n"),
        ..SCRIPT
    },
    Run {
        name: "a fence while a transaction is open: that one writes, another begins only once it is lifted",
        rest: b"table,1,int
start,1,4,0,n:0
begin,A
fence
begin,B
insert,A,5
undo,A
commit,A
begin,B
abandon
begin,B
",
        out: Out::Is(
            "1,ok
2,ok,0
3,ok,1
4,ok
5,refused,27,Fenced
6,ok,1,0.0
7,ok,2,0
8,refused,24,NoSuchTxn
9,refused,27,Fenced
10,ok
10,pages,0
11,ok,2
",
        ),
        ..SCRIPT
    },
    Run {
        name: "commits behind a fence",
        begin: b"table,1,int\nstart,1,4,0,n:0\n",
        lines: Lines {
            count: 64,
            ..BEGINS
        },
        rest: b"fence
begin,X
insert,T1,5
commit,T1
abandon
begin,X
begin,Y
",
        out: Out::Ends(
            "66,ok,64\n67,ok\n68,refused,27,Fenced\n69,ok,1,0.0\n70,ok,2\n71,ok\n71,pages,0\n72,ok,65\n73,refused,25,TooManyTxns\n",
        ),
        ..SCRIPT
    },
    Run {
        name: "two even ranges of five pages to their ends",
        rest: b"table,1,int
row,1
row,2
row,3
row,4
row,5
start,1,4,even:2,n:0
scan,0,0
scan,0,0
scan,0,0
scan,1,0
scan,1,0
seal,0
scan,1,0
scan,1,0
",
        out: Out::Is(
            "1,ok
2,ok,0.0
3,ok,1.0
4,ok,2.0
5,ok,3.0
6,ok,4.0
7,ok,5
8,ok,0
9,ok,1
10,refused,45,RangeDone
11,ok,2
12,ok,3
13,ok,4
14,ok,4
15,refused,45,RangeDone
",
        ),
        ..SCRIPT
    },
    Run {
        name: "three ranges to their ends, the one in the middle empty",
        rest: b"table,1,int
row,1
row,2
row,3
start,1,4,1;1;3,n:0
scan,1,0
scan,0,0
scan,2,0
seal,0
load,0
scan,2,0
seal,0
load,0
",
        out: Out::Is(
            "1,ok
2,ok,0.0
3,ok,1.0
4,ok,2.0
5,ok,3
6,refused,45,RangeDone
7,ok,0
8,ok,1
9,ok,2
10,refused,47,NotScanned,2
11,ok,2
12,ok,1
13,ok,3
",
        ),
        ..SCRIPT
    },
    Run {
        name: "four times what a ring has room for, and a little less",
        begin: b"table,255,int\nstart,1,4,0,n:0\nload,0\nbegin,A\n",
        lines: Lines {
            count: 1_000,
            front: "insert,A,-",
            ..INSERTS
        },
        rest: b"feed,0,1000
apply,0,1000
feed,0,1000
apply,0,1000
feed,0,1000
apply,0,1000
feed,0,1000
apply,0,1000
feed,0,1
switch
pairs,0
",
        out: Out::Has(&[
            "1005,ok,256\n1006,ok,256\n1007,ok,256\n1008,ok,256\n1009,ok,256\n1010,ok,256\n1011,ok,232\n1012,ok,232\n1013,ok,0\n1014,ok,1001,ready:0\n1014,pages,0\n1015,ok,1000\n1015,pair,-1000,3.234\n1015,pair,-999,3.233\n",
            "1015,pair,-2,0.1\n1015,pair,-1,0.0\n",
        ]),
        ..SCRIPT
    },
    Run {
        name: "240 pairs find room on a page of a plain spool",
        begin: b"table,255,int\n",
        lines: Lines { count: 240, ..ROWS },
        rest: b"start,1,1,1,n:0
scan,0,0
seal,0
load,0
",
        out: Out::Ends("242,ok,1\n243,ok,0\n244,ok,1\n245,ok,240\n"),
        ..SCRIPT
    },
    Run {
        name: "and no further one",
        begin: b"table,255,int\n",
        lines: Lines { count: 241, ..ROWS },
        rest: b"start,1,1,1,n:0
scan,0,0
seal,0
load,0
",
        out: Out::Ends("243,ok,1\n244,ok,0\n245,refused,51,NoPage\n246,refused,51,NoPage\n"),
        ..SCRIPT
    },
    Run {
        name: "a key that no row has",
        task: Task::Index(&["--columns", "a:int", "--on", "a", "--find", "9"]),
        rest: b"a\n1\n2\n",
        out: Out::Is("a: pairs: 2, levels: 1, ready\nline,a\n"),
        err: "rows read: 2, pages scanned: 1, pairs loaded: 2\na: pages leased at most: 1\n",
        ..SCRIPT
    },
    Run {
        name: "a range of a thousand rows",
        task: Task::Index(&[
            "--columns",
            "a:int",
            "--on",
            "a",
            "--workers",
            "1",
            "--range",
            "49..60",
        ]),
        begin: b"a\n",
        lines: Lines {
            count: 1_000,
            ..NO_LINES
        },
        out: Out::Is(
            "a: pairs: 1000, levels: 2, ready\nline,a\n51,49\n52,50\n53,51\n54,52\n55,53\n56,54\n57,55\n58,56\n59,57\n60,58\n61,59\n",
        ),
        err: "rows read: 1000, pages scanned: 4, pairs loaded: 1000\na: pages leased at most: 5\n",
        ..SCRIPT
    },
];
