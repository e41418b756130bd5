//! Builds while transactions write.

use crate::case::Case;

pub const CASES: [Case; 7] = [
    Case {
        name: "an update ahead of the scan",
        script: b"table,1,int
row,10
row,20
start,1,4,2,n:0
scan,0,0
begin,A
update,A,1.0,21
side,0
",
        out: "1,ok
2,ok,0.0
3,ok,1.0
4,ok,2
5,ok,0
6,ok,3
7,ok,5,1.0
8,ok,0
",
        err: "",
        status: 0,
        check: "script: 8 records, all good\n",
    },
    Case {
        name: "an update behind the scan",
        script: b"table,1,int
row,10
row,20
start,1,4,2,n:0
scan,0,0
scan,0,0
begin,A
update,A,1.0,21
side,0
",
        out: "1,ok
2,ok,0.0
3,ok,1.0
4,ok,2
5,ok,0
6,ok,1
7,ok,3
8,ok,5,1.0
9,ok,2
9,entry,delete,20,1.0
9,entry,insert,21,1.0
",
        err: "",
        status: 0,
        check: "script: 9 records, all good\n",
    },
    Case {
        name: "two entries for one RID",
        script: b"table,1,int
row,10
row,20
start,1,4,2,n:0
scan,0,0
scan,0,0
begin,A
delete,A,0.0
commit,A
begin,B
insert,B,30
side,0
",
        out: "1,ok
2,ok,0.0
3,ok,1.0
4,ok,2
5,ok,0
6,ok,1
7,ok,3
8,ok,5,0.0
9,ok,6
10,ok,4
11,ok,7,0.0
12,ok,2
12,entry,delete,10,0.0
12,entry,insert,30,0.0
",
        err: "",
        status: 0,
        check: "script: 12 records, all good\n",
    },
    Case {
        name: "inserted ahead of the scan, and taken back behind it",
        script: b"table,2,int
row,10
row,20
row,30
start,1,4,2,n:0
scan,0,0
begin,A
insert,A,40
side,0
scan,0,0
undo,A
side,0
seal,0
load,0
switch
pairs,0
",
        out: "1,ok
2,ok,0.0
3,ok,0.1
4,ok,1.0
5,ok,2
6,ok,0
7,ok,4
8,ok,7,1.1
9,ok,0
10,ok,1
11,ok,8,0
12,ok,1
12,entry,delete,40,1.1
13,ok,2
14,ok,4
15,ok,9,ready:0
15,pages,0
16,ok,3
16,pair,10,0.0
16,pair,20,0.1
16,pair,30,1.0
",
        err: "",
        status: 0,
        check: "script: 16 records, all good\n",
    },
    Case {
        name: "a page that is newer than the build",
        script: b"table,1,int
row,5
start,1,4,1,n:0
begin,A
insert,A,6
side,0
",
        out: "1,ok
2,ok,0.0
3,ok,1
4,ok,2
5,ok,3,1.0
6,ok,1
6,entry,insert,6,1.0
",
        err: "",
        status: 0,
        check: "script: 6 records, all good\n",
    },
    Case {
        name: "given up, and built again while a transaction writes",
        script: b"table,4,int
row,1
abandon
side,0
start,1,4,1,n:0
scan,0,0
begin,A
update,A,0.0,2
side,0
side,1
abandon
side,0
undo,A
start,1,4,1,n:0
scan,0,0
seal,0
load,0
begin,B
insert,B,7
delete,B,0.0
switch
pairs,0
insert,B,8
rest,n:0
pairs,0
",
        out: "1,ok
2,ok,0.0
3,refused,41,NoBuild
4,refused,41,NoBuild
5,ok,1
6,ok,0
7,ok,2
8,ok,3,0.0
9,ok,2
9,entry,delete,1,0.0
9,entry,insert,2,0.0
10,refused,43,BadCount
11,ok
11,pages,0
12,refused,41,NoBuild
13,ok,4,0
14,ok,1
15,ok,0
16,ok,1
17,ok,1
18,ok,3
19,ok,5,0.1
20,ok,6,0.0
21,ok,7,ready:0
21,pages,0
22,ok,1
22,pair,7,0.1
23,ok,8,0.2
24,ok,2
24,pair,7,0.1
24,pair,8,0.2
25,ok,2
25,pair,7,0.1
25,pair,8,0.2
",
        err: "",
        status: 0,
        check: "script: 25 records, all good\n",
    },
    Case {
        name: "an undo behind the switch",
        script: b"table,4,int
row,1
start,1,4,1,n:0
scan,0,0
seal,0
load,0
begin,A
insert,A,2
switch
pairs,0
undo,A
pairs,0
",
        out: "1,ok
2,ok,0.0
3,ok,1
4,ok,0
5,ok,1
6,ok,1
7,ok,2
8,ok,3,0.1
9,ok,4,ready:0
9,pages,0
10,ok,2
10,pair,1,0.0
10,pair,2,0.1
11,ok,5,0
12,ok,1
12,pair,1,0.0
",
        err: "",
        status: 0,
        check: "script: 12 records, all good\n",
    },
];
