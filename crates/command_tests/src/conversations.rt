//! Conversations with the shell.

use crate::run::{Out, Run, SCRIPT};
use crate::task::Task;

pub const WAITS: Run = Run {
    name: "a unique index waits for a transaction, and is refused",
    task: Task::Shell,
    rest: b"table,2,int
row,5
start,1,4,1,u:0
scan,0,0
seal,0
load,0
begin,A
insert,A,5
status
commit,A
switch
quit
",
    out: Out::Is(
        "1,ok
2,ok,0.0
3,ok,1
4,ok,0
5,ok,1
6,ok,1
7,ok,2
8,ok,3,0.1
9,ok,5
9,table,2,1,3,1,int
9,build,catch-up,1,1
9,worker,0,0,0
9,index,0,loaded,1,0
9,waits,transactions,1
10,ok,4
11,ok,5,shared
11,shared,0,5,0.0,0.1
11,pages,0
12,ok
",
    ),
    status: 1,
    ..SCRIPT
};

/// The runs of this file.
pub fn runs() -> &'static [Run] {
    &RUNS
}

static RUNS: [Run; 10] = [
    // The table, rows, scans, entries and pairs of examples/while_in_use.csv, with a status at each phase.
    Run {
        name: "a build while a transaction writes",
        task: Task::Shell,
        rest: b"# an index is built while a transaction writes
table,2,int
row,10
row,20
row,30
status
start,1,4,2,n:0

scan,0,0
begin,A
update,A,0.0,11
insert,A,40
side,0
status
digest,0
scan,0,0
undo,A
status
seal,0
status
load,0
feed,0,2
status
switch
pairs,0
rest,n:0
status
",
        out: Out::Is(
            "2,ok
3,ok,0.0
4,ok,0.1
5,ok,1.0
6,ok,2
6,table,2,2,6,0,int
6,build,none
7,ok,2
8,ok,0
9,ok,4
10,ok,7,0.0
11,ok,8,1.1
12,ok,2
12,entry,delete,10,0.0
12,entry,insert,11,0.0
13,ok,7
13,table,2,2,8,1,int
13,build,scan,1,2
13,worker,0,1,0
13,index,0,unloaded,2,0
13,waits,pages,1
13,waits,worker,0
13,waits,index,0
14,ok,1
15,ok,1
16,ok,9,1
17,ok,6
17,table,2,2,9,1,int
17,build,load,2,2
17,worker,0,1,1
17,index,0,unloaded,3,0
17,waits,worker,0
17,waits,index,0
18,ok,1
19,ok,5
19,table,2,2,9,1,int
19,build,load,2,2
19,worker,0,0,0
19,index,0,unloaded,3,0
19,waits,index,0
20,ok,4
21,ok,2
22,ok,4
22,table,2,2,9,1,int
22,build,catch-up,2,2
22,worker,0,0,0
22,index,0,loaded,1,2
23,ok,10,ready:0
23,pages,0
24,ok,3
24,pair,11,0.0
24,pair,20,0.1
24,pair,30,1.0
25,ok,3
25,pair,11,0.0
25,pair,20,0.1
25,pair,30,1.0
26,ok,3
26,table,2,2,10,1,int
26,build,none
26,ready,0,3
",
        ),
        ..SCRIPT
    },
    Run {
        name: "bad records, and that it goes on",
        task: Task::Shell,
        rest: b"row,5
fly
status
table,2,real
table,2,int
row,5,
row,x
status,now
table,2,int
get,0.0
row,\"=a,b
row,5\rrow,6
get,0.0
exit\tabcdefghijklmnopqrstuvwxyzabcdefghi
exit\tabcdefghijklmnopqrstuvwxyzabcdefghij
quit
row,7
",
        out: Out::Is(
            "1,bad,\"there is no table yet (table,L,KIND,..)\"
2,bad,\"\"\"fly\"\" is no command and no word (help lists them)\"
3,ok,1
3,table,none
4,bad,\"field 3, \"\"real\"\", is no kind (int, text or flag)\"
5,ok
6,bad,\"field 3, \"\"\"\", is no cell (~, a number, =text, true or false)\"
7,bad,\"field 2, \"\"x\"\", is no cell (~, a number, =text, true or false)\"
8,bad,\"field 1, \"\"status\"\", is no command (table, row, begin, insert, update, delete, undo, commit, get, spools, start, scan, \
digest, seal, load, feed, apply, fence, switch, abandon, side, pairs or rest)\"
9,bad,\"a table comes first, and only once\"
10,refused,21,NoSuchRow
11,refused,12,RowShape
12,ok,0.0
13,ok,0.1
14,ok,5
15,bad,\"\"\"exit\\tabcdefghijklmnopqrstuvwxyzabcdefghi\"\" is no command and no word (help lists them)\"
16,bad,\"\"\"exit\\tabcdefghijklmnopqrstuvwxyzabcdefghi..\"\" is no command and no word (help lists them)\"
17,ok
",
        ),
        ..SCRIPT
    },
    Run {
        name: "a table that is refused, and another",
        task: Task::Shell,
        rest: b"table,0,int
row,5
table,256,int
table,1,int
row,5",
        out: Out::Is(
            "1,refused,43,BadCount
2,bad,\"there is no table yet (table,L,KIND,..)\"
3,refused,43,BadCount
4,ok
5,ok,0.0
",
        ),
        ..SCRIPT
    },
    Run {
        name: "the end in the midst of a build",
        task: Task::Shell,
        rest: b"table,1,int
row,5
start,1,4,1,u:0
scan,0,0
",
        out: Out::Is(
            "1,ok
2,ok,0.0
3,ok,1
4,ok,0
",
        ),
        ..SCRIPT
    },
    WAITS,
    Run {
        name: "a quota that is too small",
        task: Task::Shell,
        rest: b"table,2,int
row,5
start,1,0,1,n:0
scan,0,0
seal,0
status
abandon
",
        out: Out::Is(
            "1,ok
2,ok,0.0
3,ok,1
4,ok,0
5,refused,51,NoPage
6,ok,5
6,table,2,1,2,0,int
6,build,spoiled,1,1
6,worker,0,1,0
6,index,0,unloaded,0,0
6,waits,abandon,51,NoPage
7,ok
7,pages,0
",
        ),
        ..SCRIPT
    },
    Run {
        name: "help on a command",
        task: Task::Shell,
        rest: b"help get
help fly
help start
",
        out: Out::Is(
            "1,ok,2
1,help,\"get,RID\",gives the row that is at the RID now
1,field,2,\"RID (a page and a slot, as 12.3)\"
2,bad,\"\"\"help fly\"\" is no command and no word (help lists them)\"
3,ok,6
3,help,\"start,W,Q,DEALING,SPEC,..\",\"starts a build with W workers (1 to 16), a quota of Q pages (at most 1024) for each worker and index, \
1 to 256 page ranges and 1 to 8 indexes\"
3,field,2,\"number (decimal digits, at most 4294967295)\"
3,field,3,\"number (decimal digits, at most 4294967295)\"
3,field,4,\"dealing (ends of ranges, as 4;8, or their number, as even:2)\"
3,field,5,\"spec (n: or u: and columns, with d behind one that descends, as n:0;2d, and maybe a condition, as n:0?1=true, n:0?1<5 or n:0?1~)\"
3,further,\"spec (n: or u: and columns, with d behind one that descends, as n:0;2d, and maybe a condition, as n:0?1=true, n:0?1<5 or n:0?1~)\"
",
        ),
        ..SCRIPT
    },
    Run {
        name: "help lists all",
        task: Task::Shell,
        rest: b"help\n",
        out: Out::Begins(28, "1,ok,27\n1,help,\"table,L,KIND,..\","),
        ..SCRIPT
    },
    Run {
        name: "a prompt is shown before each line",
        task: Task::Prompted,
        rest: b"table,1,int\n\nquit\n",
        out: Out::Is("1,ok\n2,ok\n"),
        shown: "sfbuild> sfbuild> sfbuild> ",
        ..SCRIPT
    },
    Run {
        name: "a prompt is shown before the end",
        task: Task::Prompted,
        shown: "sfbuild> ",
        ..SCRIPT
    },
];
