//! Unique indexes: what a switch decides of them, whom it waits for, and which writes a ready one refuses.

use crate::case::Case;

pub const CASES: [Case; 5] = [
    Case {
        name: "an index with a shared key is refused, and the other one is ready",
        script: b"table,4,int,int
row,9,1
row,4,2
row,9,3
row,4,4
row,4,5
start,1,4,2,u:0,n:1
scan,0,0
scan,0,0
seal,0
load,0
load,1
switch
pairs,0
",
        out: "1,ok
2,ok,0.0
3,ok,0.1
4,ok,0.2
5,ok,0.3
6,ok,1.0
7,ok,2
8,ok,0
9,ok,1
10,ok,2
11,ok,5
12,ok,5
13,ok,11,shared,ready:0
13,shared,0,4,0.1,0.3
13,pages,0
14,ok,5
14,pair,1,0.0
14,pair,2,0.1
14,pair,3,0.2
14,pair,4,0.3
14,pair,5,1.0
",
        err: "",
        status: 1,
        check: "script: 14 records, all good\n",
    },
    Case {
        name: "the switch waits for writers, and the fence keeps others from beginning",
        script: b"table,4,int
row,7
start,1,4,1,u:0
scan,0,0
seal,0
load,0
begin,A
insert,A,8
switch
fence
begin,B
commit,A
switch
begin,B
pairs,0
",
        out: "1,ok
2,ok,0.0
3,ok,1
4,ok,0
5,ok,1
6,ok,1
7,ok,2
8,ok,3,0.1
9,refused,50,Busy,1
10,ok
11,refused,27,Fenced
12,ok,4
13,ok,5,ready:0
13,pages,0
14,ok,3
15,ok,2
15,pair,7,0.0
15,pair,8,0.1
",
        err: "",
        status: 0,
        check: "script: 15 records, all good\n",
    },
    Case {
        name: "rows share a key until the switch decides, and then a key is taken away and given back by an undo",
        script: b"table,4,int
row,7
row,7
start,1,4,1,u:0
scan,0,0
seal,0
load,0
begin,A
delete,A,0.1
commit,A
switch
pairs,0
begin,P
delete,P,0.0
begin,Q
insert,Q,7
undo,P
insert,Q,7
",
        out: "1,ok
2,ok,0.0
3,ok,0.1
4,ok,1
5,ok,0
6,ok,1
7,ok,2
8,ok,3
9,ok,5,0.1
10,ok,6
11,ok,7,ready:0
11,pages,0
12,ok,1
12,pair,7,0.0
13,ok,4
14,ok,8,0.0
15,ok,5
16,refused,31,KeyHeld,0,4
17,ok,9,0
18,refused,30,Duplicate,0,0.0
",
        err: "",
        status: 0,
        check: "script: 18 records, all good\n",
    },
    Case {
        name: "the example of a refused index",
        script: b"# a unique index over rows of which some share a number is refused: the least such number is told, with its two least rows
table,4,int,int
row,9,1
row,4,2
row,9,3
row,4,4
# one scan serves both indexes, and the one that isn't unique becomes ready
start,1,4,1,u:0,n:1
scan,0,0
seal,0
load,0
load,1
switch
pairs,0
",
        out: "2,ok
3,ok,0.0
4,ok,0.1
5,ok,0.2
6,ok,0.3
8,ok,1
9,ok,0
10,ok,1
11,ok,4
12,ok,4
13,ok,9,shared,ready:0
13,shared,0,4,0.1,0.3
13,pages,0
14,ok,4
14,pair,1,0.0
14,pair,2,0.1
14,pair,3,0.2
14,pair,4,0.3
",
        err: "",
        status: 1,
        check: "script: 14 records, all good\n",
    },
    Case {
        name: "the example of a key that is held",
        script: b"# once a unique index is ready, a number that an open transaction took away can't be given to another row: a rollback may bring it back
table,4,int
row,7
start,1,4,1,u:0
scan,0,0
seal,0
load,0
# the switch of a unique index waits for the transactions that have written, and the fence keeps new ones from beginning meanwhile
begin,A
insert,A,8
switch
fence
begin,B
commit,A
switch
begin,P
delete,P,0.0
begin,Q
insert,Q,7
undo,P
insert,Q,7
pairs,0
",
        out: "2,ok
3,ok,0.0
4,ok,1
5,ok,0
6,ok,1
7,ok,1
9,ok,2
10,ok,3,0.1
11,refused,50,Busy,1
12,ok
13,refused,27,Fenced
14,ok,4
15,ok,5,ready:0
15,pages,0
16,ok,3
17,ok,6,0.0
18,ok,4
19,refused,31,KeyHeld,0,3
20,ok,7,0
21,refused,30,Duplicate,0,0.0
22,ok,2
22,pair,7,0.0
22,pair,8,0.1
",
        err: "",
        status: 0,
        check: "script: 22 records, all good\n",
    },
];
