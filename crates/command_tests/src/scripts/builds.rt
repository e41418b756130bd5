//! Builds, and the pairs of an index.

use crate::case::Case;

pub const CASES: [Case; 5] = [
    Case {
        name: "equal keys stand by RID",
        script: b"table,2,int
row,5
row,3
row,5
start,1,4,2,n:0
scan,0,0
load,0
scan,0,0
scan,0,0
seal,0
load,0
switch
pairs,0
",
        out: "1,ok
2,ok,0.0
3,ok,0.1
4,ok,1.0
5,ok,2
6,ok,0
7,refused,47,NotScanned,0
8,ok,1
9,refused,45,RangeDone
10,ok,2
11,ok,3
12,ok,7,ready:0
12,pages,0
13,ok,3
13,pair,3,0.1
13,pair,5,0.0
13,pair,5,1.0
",
        err: "",
        status: 0,
        check: "script: 13 records, all good\n",
    },
    Case {
        name: "ranges in either order",
        script: b"table,1,int
row,4
row,3
row,2
row,1
start,1,4,3;2;4,n:0
start,1,4,even:0,n:0
start,1,4,even:3,n:0
scan,2,0
scan,3,0
scan,0,0
scan,0,0
load,0
scan,1,0
switch
scan,2,0
seal,0
load,0
switch
start,1,4,2;2;4,n:0
scan,1,0
pairs,0
",
        out: "1,ok
2,ok,0.0
3,ok,1.0
4,ok,2.0
5,ok,3.0
6,refused,42,BadRanges
7,refused,42,BadRanges
8,ok,4
9,ok,2
10,refused,43,BadCount
11,ok,0
12,refused,45,RangeDone
13,refused,47,NotScanned,1
14,ok,1
15,refused,47,NotScanned,2
16,ok,3
17,ok,4
18,ok,4
19,ok,9,ready:0
19,pages,0
20,ok,4
21,refused,45,RangeDone
22,ok,4
22,pair,1,3.0
22,pair,2,2.0
22,pair,3,1.0
22,pair,4,0.0
",
        err: "",
        status: 0,
        check: "script: 22 records, all good\n",
    },
    Case {
        name: "the pairs of one row",
        script: b"table,2,int
row,5
rest,n:0
",
        out: "1,ok
2,ok,0.0
3,ok,1
3,pair,5,0.0
",
        err: "",
        status: 0,
        check: "script: 3 records, all good\n",
    },
    Case {
        name: "each refusal in its order",
        script: b"# what is refused, and what it leaves
table,2,int,text,flag
begin,A
insert,A,-0,=one,true
insert,B,1,~,~
insert,B,1,1,1,1,1,1,1,1,1,1,1,1,1
row,1,1,1,1,1,1,1,1,1,1,1,1,1
start,0,1,0,n:0
start,17,1,0,n:0
start,1,1025,0,n:0
start,1,1,0,n:0,n:0,n:0,n:0,n:0,n:0,n:0,n:0,n:0
start,1,1,0,n:3
start,1,1,0,n:0;0
commit,A
commit,A
pairs,0
scan,0,0
rest,n:1;0
rest,n:2
rest,n:0;1;2;3;4
start,1,1,1,n:0
start,0,1,1,n:0
",
        out: "2,ok
3,ok,1
4,ok,1,0.0
5,refused,24,NoSuchTxn
6,refused,12,RowShape
7,refused,12,RowShape
8,refused,43,BadCount
9,refused,43,BadCount
10,refused,43,BadCount
11,refused,43,BadCount
12,refused,10,BadColumn
13,refused,10,BadColumn
14,ok,2
15,refused,24,NoSuchTxn
16,refused,43,BadCount
17,refused,41,NoBuild
18,ok,1
18,pair,=one,0,0.0
19,ok,1
19,pair,true,0.0
20,refused,10,BadColumn
21,ok,1
22,refused,40,BuildRunning
",
        err: "",
        status: 0,
        check: "script: 22 records, all good\n",
    },
    Case {
        name: "spools with too few pages",
        script: b"table,2,int
row,5
row,3
start,1,0,1,n:0
scan,0,0
digest,0
seal,0
seal,0
load,0
switch
row,4
abandon
start,2,1,2,n:0
scan,0,0
scan,0,1
seal,0
seal,1
load,0
switch
pairs,0
start,16,1,even:2,n:0
abandon
abandon
",
        out: "1,ok
2,ok,0.0
3,ok,0.1
4,ok,1
5,ok,0
6,ok,1
7,refused,51,NoPage
8,refused,51,NoPage
9,refused,51,NoPage
10,refused,51,NoPage
11,ok,1.0
12,ok
12,pages,0
13,ok,2
14,ok,0
15,ok,1
16,ok,1
17,ok,1
18,ok,3
19,ok,7,ready:0
19,pages,0
20,ok,3
20,pair,3,0.1
20,pair,4,1.0
20,pair,5,0.0
21,ok,2
22,ok
22,pages,0
23,refused,41,NoBuild
",
        err: "",
        status: 0,
        check: "script: 23 records, all good\n",
    },
];
