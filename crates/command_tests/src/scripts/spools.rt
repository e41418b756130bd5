//! Builds whose spools are of one kind or of both.

use crate::case::Case;

pub const CASES: [Case; 3] = [
    Case {
        name: "spools of both kinds",
        script: b"table,2,int
spools,mixed
row,5
row,3
row,5
start,1,4,2,n:0
scan,0,0
load,0
scan,0,0
scan,0,0
seal,0
load,0
switch
pairs,0
",
        out: "1,ok
2,ok
3,ok,0.0
4,ok,0.1
5,ok,1.0
6,ok,2
7,ok,0
8,refused,47,NotScanned,0
9,ok,1
10,refused,45,RangeDone
11,ok,2
12,ok,3
13,ok,7,ready:0
13,pages,0
14,ok,3
14,pair,3,0.1
14,pair,5,0.0
14,pair,5,1.0
",
        err: "",
        status: 0,
        check: "script: 14 records, all good\n",
    },
    Case {
        name: "two indexes in spools of both kinds",
        script: b"table,4,int,int
spools,mixed
row,9,1
row,4,2
row,9,3
row,4,4
row,4,5
start,1,4,2,u:0,n:1
scan,0,0
scan,0,0
seal,0
load,0
load,1
switch
pairs,0
",
        out: "1,ok
2,ok
3,ok,0.0
4,ok,0.1
5,ok,0.2
6,ok,0.3
7,ok,1.0
8,ok,2
9,ok,0
10,ok,1
11,ok,2
12,ok,5
13,ok,5
14,ok,11,shared,ready:0
14,shared,0,4,0.1,0.3
14,pages,0
15,ok,5
15,pair,1,0.0
15,pair,2,0.1
15,pair,3,0.2
15,pair,4,0.3
15,pair,5,1.0
",
        err: "",
        status: 1,
        check: "script: 15 records, all good\n",
    },
    Case {
        name: "a kind of spools holds until the next",
        script: b"table,2,int
spools,prefix
row,7
row,7
spools,plain
start,1,4,1,n:0
spools,mixed
scan,0,0
seal,0
abandon
start,1,4,1,n:0,u:0
scan,0,0
seal,0
load,0
load,1
switch
pairs,0
",
        out: "1,ok
2,ok
3,ok,0.0
4,ok,0.1
5,ok
6,ok,1
7,ok
8,ok,0
9,ok,1
10,ok
10,pages,0
11,ok,1
12,ok,0
13,ok,1
14,ok,2
15,ok,2
16,ok,5,ready:0,shared
16,shared,1,7,0.0,0.1
16,pages,0
17,ok,2
17,pair,7,0.0
17,pair,7,0.1
",
        err: "",
        status: 1,
        check: "script: 17 records, all good\n",
    },
];
