//! Entries of a side-file that are fed and applied while the build runs.

use crate::case::Case;

pub const CASES: [Case; 3] = [
    Case {
        name: "fed and applied in turn, and the rest by the switch",
        script: b"table,2,int
row,1
row,2
feed,0,1
start,1,4,1,n:0
apply,0,9
feed,1,1
apply,1,1
scan,0,0
begin,A
update,A,0.0,3
insert,A,4
side,0
feed,0,2
side,0
seal,0
apply,0,1
load,0
apply,0,1
apply,0,0
feed,0,0
feed,0,4294967295
apply,0,1
feed,0,1
switch
pairs,0
apply,0,1
",
        out: "1,ok
2,ok,0.0
3,ok,0.1
4,refused,41,NoBuild
5,ok,1
6,refused,48,NotLoaded,0
7,refused,43,BadCount
8,refused,43,BadCount
9,ok,0
10,ok,3
11,ok,5,0.0
12,ok,6,1.0
13,ok,3
13,entry,delete,1,0.0
13,entry,insert,3,0.0
13,entry,insert,4,1.0
14,ok,2
15,ok,1
15,entry,insert,4,1.0
16,ok,1
17,refused,48,NotLoaded,0
18,ok,2
19,ok,1
20,ok,0
21,ok,0
22,ok,1
23,ok,1
24,ok,0
25,ok,7,ready:0
25,pages,0
26,ok,3
26,pair,2,0.1
26,pair,3,0.0
26,pair,4,1.0
27,refused,41,NoBuild
",
        err: "",
        status: 0,
        check: "script: 27 records, all good\n",
    },
    Case {
        name: "given up while an entry is in the ring",
        script: b"table,4,int
row,1
start,1,4,1,n:0
scan,0,0
begin,A
update,A,0.0,2
feed,0,1
abandon
undo,A
start,1,4,1,n:0
scan,0,0
seal,0
load,0
feed,0,9
apply,0,9
switch
pairs,0
",
        out: "1,ok
2,ok,0.0
3,ok,1
4,ok,0
5,ok,2
6,ok,3,0.0
7,ok,1
8,ok
8,pages,0
9,ok,4,0
10,ok,1
11,ok,0
12,ok,1
13,ok,1
14,ok,0
15,ok,0
16,ok,5,ready:0
16,pages,0
17,ok,1
17,pair,1,0.0
",
        err: "",
        status: 0,
        check: "script: 17 records, all good\n",
    },
    Case {
        name: "a build without a page for its pairs",
        script: b"table,4,int
row,1
start,1,0,1,n:0
scan,0,0
begin,A
update,A,0.0,2
seal,0
feed,0,9
apply,0,1
apply,1,1
abandon
feed,0,9
",
        out: "1,ok
2,ok,0.0
3,ok,1
4,ok,0
5,ok,2
6,ok,3,0.0
7,refused,51,NoPage
8,ok,2
9,refused,51,NoPage
10,refused,43,BadCount
11,ok
11,pages,0
12,refused,41,NoBuild
",
        err: "",
        status: 0,
        check: "script: 12 records, all good\n",
    },
];
