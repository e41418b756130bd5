//! Several indexes that are built in one scan.

use crate::case::Case;

pub const CASES: [Case; 2] = [
    Case {
        name: "a change reaches the indexes whose keys it changes",
        script: b"table,4,int,int
row,1,10
row,2,20
start,1,4,1,n:0,n:1,n:1;0
scan,0,0
begin,A
update,A,0.0,1,30
side,0
side,1
side,2
side,3
seal,0
load,1
load,0
load,3
switch
load,2
feed,1,1
apply,1,5
feed,3,1
apply,3,1
switch
pairs,0
pairs,1
update,A,0.1,5,20
pairs,0
pairs,2
undo,A
undo,A
pairs,0
pairs,1
pairs,2
pairs,3
",
        out: "1,ok
2,ok,0.0
3,ok,0.1
4,ok,1
5,ok,0
6,ok,3
7,ok,5,0.0
8,ok,0
9,ok,2
9,entry,delete,10,0.0
9,entry,insert,30,0.0
10,ok,2
10,entry,delete,10,1,0.0
10,entry,insert,30,1,0.0
11,refused,43,BadCount
12,ok,1
13,ok,2
14,ok,2
15,refused,43,BadCount
16,refused,48,NotLoaded,2
17,ok,2
18,ok,1
19,ok,1
20,refused,43,BadCount
21,refused,43,BadCount
22,ok,6,ready:0,ready:1,ready:2
22,pages,0
23,ok,2
23,pair,1,0.0
23,pair,2,0.1
24,ok,2
24,pair,20,0.1
24,pair,30,0.0
25,ok,7,0.1
26,ok,2
26,pair,1,0.0
26,pair,5,0.1
27,ok,2
27,pair,20,5,0.1
27,pair,30,1,0.0
28,ok,8,1
29,ok,9,0
30,ok,2
30,pair,1,0.0
30,pair,2,0.1
31,ok,2
31,pair,10,0.0
31,pair,20,0.1
32,ok,2
32,pair,10,1,0.0
32,pair,20,2,0.1
33,refused,43,BadCount
",
        err: "",
        status: 0,
        check: "script: 33 records, all good\n",
    },
    Case {
        name: "counts of indexes, and builds that are given up",
        script: b"table,4,int
row,1
start,1,4,1,n:0,n:0,n:0,n:0,n:0,n:0,n:0,n:0,n:0
start,17,4,1,n:0,n:0
start,2,1,even:2,n:0,n:0
scan,0,0
scan,1,1
abandon
start,1,4,1,n:0,n:0
scan,0,0
begin,A
insert,A,2
digest,0
seal,0
load,0
load,1
feed,1,9
abandon
commit,A
start,1,4,1,n:0,n:0
scan,0,0
seal,0
load,0
load,1
apply,1,9
switch
pairs,0
pairs,1
",
        out: "1,ok
2,ok,0.0
3,refused,43,BadCount
4,refused,43,BadCount
5,ok,1
6,refused,45,RangeDone
7,ok,0
8,ok
8,pages,0
9,ok,1
10,ok,0
11,ok,2
12,ok,3,0.1
13,ok,1
14,ok,0
15,ok,1
16,ok,1
17,ok,1
18,ok
18,pages,0
19,ok,4
20,ok,1
21,ok,0
22,ok,1
23,ok,2
24,ok,2
25,ok,0
26,ok,5,ready:0,ready:1
26,pages,0
27,ok,2
27,pair,1,0.0
27,pair,2,0.1
28,ok,2
28,pair,1,0.0
28,pair,2,0.1
",
        err: "",
        status: 0,
        check: "script: 28 records, all good\n",
    },
];
