//! Builds over several ranges of four pages.

use crate::story::{PLAIN, Story};

pub static STORIES: [Story; 5] = [
    Story {
        name: "the first range first",
        script: "table,2,int
begin,1
insert,1,7
insert,1,1
insert,1,6
insert,1,2
insert,1,5
insert,1,3
insert,1,4
commit,1
start,1,4,2;4,n:0
scan,2,0
scan,0,0
scan,0,0
scan,0,0
load,0
scan,1,0
switch
scan,1,0
load,0
seal,0
load,0
switch
",
        answers: "1,ok
2,ok,1
3,ok,1,0.0
4,ok,2,0.1
5,ok,3,1.0
6,ok,4,1.1
7,ok,5,2.0
8,ok,6,2.1
9,ok,7,3.0
10,ok,8
11,ok,4
12,refused,43,BadCount
13,ok,0
14,ok,1
15,refused,45,RangeDone
16,refused,47,NotScanned,1
17,ok,2
18,refused,47,NotScanned,1
19,ok,3
20,refused,54,NotSealed,0
21,ok,4
22,ok,7
23,ok,9,ready:0
23,pages,0
",
        ..PLAIN
    },
    Story {
        name: "the last range first",
        script: "table,2,int
begin,1
insert,1,7
insert,1,1
insert,1,6
insert,1,2
insert,1,5
insert,1,3
insert,1,4
commit,1
start,1,4,2;4,n:0
scan,1,0
scan,1,0
scan,1,0
load,0
switch
scan,0,0
scan,0,0
scan,0,0
seal,0
load,0
switch
",
        answers: "1,ok
2,ok,1
3,ok,1,0.0
4,ok,2,0.1
5,ok,3,1.0
6,ok,4,1.1
7,ok,5,2.0
8,ok,6,2.1
9,ok,7,3.0
10,ok,8
11,ok,4
12,ok,2
13,ok,3
14,refused,45,RangeDone
15,refused,47,NotScanned,0
16,refused,47,NotScanned,0
17,ok,0
18,ok,1
19,refused,45,RangeDone
20,ok,4
21,ok,7
22,ok,9,ready:0
22,pages,0
",
        is_short: true,
        ..PLAIN
    },
    Story {
        name: "even ranges",
        script: "table,2,int
begin,1
insert,1,7
insert,1,1
insert,1,6
insert,1,2
insert,1,5
insert,1,3
insert,1,4
commit,1
start,1,4,even:3,n:0
scan,2,0
scan,0,0
scan,0,0
load,0
scan,1,0
load,0
scan,2,0
scan,3,0
seal,0
load,0
switch
",
        answers: "1,ok
2,ok,1
3,ok,1,0.0
4,ok,2,0.1
5,ok,3,1.0
6,ok,4,1.1
7,ok,5,2.0
8,ok,6,2.1
9,ok,7,3.0
10,ok,8
11,ok,4
12,ok,2
13,ok,0
14,refused,45,RangeDone
15,refused,47,NotScanned,1
16,ok,1
17,refused,47,NotScanned,2
18,ok,3
19,refused,43,BadCount
20,ok,4
21,ok,7
22,ok,9,ready:0
22,pages,0
",
        is_short: true,
        ..PLAIN
    },
    Story {
        name: "empty ranges",
        script: "table,2,int
begin,1
insert,1,7
insert,1,1
insert,1,6
insert,1,2
insert,1,5
insert,1,3
insert,1,4
commit,1
start,1,4,0;2;2;4,n:0
scan,0,0
scan,2,0
load,0
scan,1,0
scan,1,0
load,0
scan,3,0
scan,3,0
seal,0
load,0
switch
",
        answers: "1,ok
2,ok,1
3,ok,1,0.0
4,ok,2,0.1
5,ok,3,1.0
6,ok,4,1.1
7,ok,5,2.0
8,ok,6,2.1
9,ok,7,3.0
10,ok,8
11,ok,4
12,refused,45,RangeDone
13,refused,45,RangeDone
14,refused,47,NotScanned,1
15,ok,0
16,ok,1
17,refused,47,NotScanned,3
18,ok,2
19,ok,3
20,ok,4
21,ok,7
22,ok,9,ready:0
22,pages,0
",
        ..PLAIN
    },
    Story {
        name: "bad ranges",
        script: "table,2,int
begin,1
insert,1,7
insert,1,1
insert,1,6
insert,1,2
insert,1,5
insert,1,3
insert,1,4
commit,1
start,1,4,3;2;4,n:0
start,1,4,2;3,n:0
start,1,4,2;5,n:0
start,1,4,even:0,n:0
start,1,4,even:257,n:0
start,1,4,even:256,n:0
scan,0,0
",
        answers: "1,ok
2,ok,1
3,ok,1,0.0
4,ok,2,0.1
5,ok,3,1.0
6,ok,4,1.1
7,ok,5,2.0
8,ok,6,2.1
9,ok,7,3.0
10,ok,8
11,refused,42,BadRanges
12,refused,42,BadRanges
13,refused,42,BadRanges
14,refused,42,BadRanges
15,refused,42,BadRanges
16,ok,4
17,refused,45,RangeDone
",
        ..PLAIN
    },
];
