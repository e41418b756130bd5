//! What a table and its index build answer, one event after another.

use crate::story::{PLAIN, Story};

pub static STORIES: [Story; 7] = [
    Story {
        name: "a build from its start to its switch",
        script: "table,2,int
begin,1
insert,1,5
commit,1
begin,2
insert,2,3
commit,2
begin,3
insert,3,5
commit,3
start,1,4,even:1,n:0
scan,0,0
load,0
scan,0,0
scan,0,0
load,0
seal,0
switch
load,0
load,0
switch
rest,n:0
",
        answers: "1,ok
2,ok,1
3,ok,1,0.0
4,ok,2
5,ok,2
6,ok,3,0.1
7,ok,4
8,ok,3
9,ok,5,1.0
10,ok,6
11,ok,2
12,ok,0
13,refused,47,NotScanned,0
14,ok,1
15,refused,45,RangeDone
16,refused,54,NotSealed,0
17,ok,2
18,refused,48,NotLoaded,0
19,ok,3
20,ok,0
21,ok,7,ready:0
21,pages,0
22,ok,3
22,pair,3,0.1
22,pair,5,0.0
22,pair,5,1.0
",
        is_short: true,
        ..PLAIN
    },
    Story {
        name: "a build while a transaction writes",
        script: "table,2,int
begin,1
insert,1,5
commit,1
begin,2
insert,2,3
commit,2
begin,3
insert,3,5
commit,3
start,1,4,2,n:0
scan,0,0
begin,4
insert,4,9
scan,0,0
update,4,0.0,8
undo,4
undo,4
seal,0
load,0
switch
rest,n:0
begin,5
insert,5,9
rest,n:0
undo,5
rest,n:0
",
        answers: "1,ok
2,ok,1
3,ok,1,0.0
4,ok,2
5,ok,2
6,ok,3,0.1
7,ok,4
8,ok,3
9,ok,5,1.0
10,ok,6
11,ok,2
12,ok,0
13,ok,4
14,ok,7,1.1
15,ok,1
16,ok,8,0.0
17,ok,9,1
18,ok,10,0
19,ok,2
20,ok,4
21,ok,11,ready:0
21,pages,0
22,ok,3
22,pair,3,0.1
22,pair,5,0.0
22,pair,5,1.0
23,ok,5
24,ok,12,1.1
25,ok,4
25,pair,3,0.1
25,pair,5,0.0
25,pair,5,1.0
25,pair,9,1.1
26,ok,13,0
27,ok,3
27,pair,3,0.1
27,pair,5,0.0
27,pair,5,1.0
",
        is_short: true,
        ..PLAIN
    },
    Story {
        name: "what a build refuses",
        script: "table,2,int
begin,1
insert,1,5
commit,1
begin,2
insert,2,3
commit,2
begin,3
insert,3,5
commit,3
start,1,4,1,n:0
start,1,4,2,n:0
start,1,4,even:1,n:0
insert,9,1
update,9,0.0,1
delete,9,0.0
undo,9
abandon
abandon
",
        answers: "1,ok
2,ok,1
3,ok,1,0.0
4,ok,2
5,ok,2
6,ok,3,0.1
7,ok,4
8,ok,3
9,ok,5,1.0
10,ok,6
11,refused,42,BadRanges
12,ok,2
13,refused,40,BuildRunning
14,refused,24,NoSuchTxn
15,refused,24,NoSuchTxn
16,refused,24,NoSuchTxn
17,refused,24,NoSuchTxn
18,ok
18,pages,0
19,refused,41,NoBuild
",
        ..PLAIN
    },
    Story {
        name: "reads of a table",
        script: "table,2,int
begin,1
insert,1,5
commit,1
begin,2
insert,2,3
commit,2
begin,3
insert,3,5
commit,3
get,1.0
get,1.1
rest,n:0
",
        answers: "1,ok
2,ok,1
3,ok,1,0.0
4,ok,2
5,ok,2
6,ok,3,0.1
7,ok,4
8,ok,3
9,ok,5,1.0
10,ok,6
11,ok,5
12,refused,21,NoSuchRow
13,ok,3
13,pair,3,0.1
13,pair,5,0.0
13,pair,5,1.0
",
        is_list: true,
        is_short: true,
        ..PLAIN
    },
    Story {
        name: "transactions that are not open",
        script: "table,2,int
insert,9,1
update,9,0.0,1
delete,9,0.0
undo,9
commit,9
65*begin,+1
",
        answers: "1,ok
2,refused,24,NoSuchTxn
3,refused,24,NoSuchTxn
4,refused,24,NoSuchTxn
5,refused,24,NoSuchTxn
6,refused,24,NoSuchTxn
64*+7,ok,+1
71,refused,25,TooManyTxns
",
        is_list: true,
        ..PLAIN
    },
    Story {
        name: "an undo",
        script: "table,2,int
begin,1
insert,1,5
update,1,0.0,6
update,1,0.0,7
undo,1
undo,1
undo,1
undo,1
get,0.0
",
        answers: "1,ok
2,ok,1
3,ok,1,0.0
4,ok,2,0.0
5,ok,3,0.0
6,ok,4,2
7,ok,5,1
8,ok,6,0
9,refused,24,NoSuchTxn
10,refused,21,NoSuchRow
",
        is_list: true,
        is_short: true,
        ..PLAIN
    },
    Story {
        name: "two transactions on one row",
        script: "table,2,int
begin,1
insert,1,5
begin,2
update,2,0.0,6
delete,2,0.0
commit,1
update,2,0.0,6
delete,2,0.0
update,2,0.0,7
",
        answers: "1,ok
2,ok,1
3,ok,1,0.0
4,ok,2
5,refused,22,RowHeld,1
6,refused,22,RowHeld,1
7,ok,2
8,ok,3,0.0
9,ok,4,0.0
10,refused,21,NoSuchRow
",
        is_list: true,
        ..PLAIN
    },
];
