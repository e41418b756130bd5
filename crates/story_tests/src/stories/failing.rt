//! Stories of builds whose spools fail, and which are stopped anywhere.

use crate::story::{PLAIN, Story};

pub static STORIES: [Story; 3] = [
    Story {
        name: "a switch that waits for one entry of 1,025",
        script: "table,255,int
begin,1
insert,1,0
commit,1
start,1,8,1,n:0
scan,0,0
seal,0
load,0
begin,2
512*update,2,0.0,+1
insert,2,0
switch
feed,0,1
switch
apply,0,1
switch
",
        answers: "1,ok
2,ok,1
3,ok,1,0.0
4,ok,2
5,ok,1
6,ok,0
7,ok,1
8,ok,1
9,ok,2
512*+10,ok,+3,0.0
522,ok,515,0.1
523,refused,49,Behind,1025
524,ok,1
525,refused,49,Behind,1025
526,ok,1
527,ok,516,ready:0
527,pages,0
",
        faults: (1, 1),
        places: (527, 522),
        ..PLAIN
    },
    Story {
        name: "updates that are undone around a scan",
        script: "table,1,int
begin,1
insert,1,1
commit,1
begin,2
insert,2,8
commit,2
start,1,8,1;2,n:0
scan,0,0
begin,3
update,3,0.0,2
update,3,0.0,3
undo,3
scan,1,0
undo,3
seal,0
load,0
switch
",
        answers: "1,ok
2,ok,1
3,ok,1,0.0
4,ok,2
5,ok,2
6,ok,3,1.0
7,ok,4
8,ok,2
9,ok,0
10,ok,3
11,ok,5,0.0
12,ok,6,0.0
13,ok,7,1
14,ok,1
15,ok,8,0
16,ok,2
17,ok,2
18,ok,9,ready:0
18,pages,0
",
        faults: (1, 2),
        places: (18, 10),
        ..PLAIN
    },
    Story {
        name: "one index of two that is refused",
        script: "table,4,int,int
begin,1
insert,1,9,1
commit,1
begin,2
insert,2,4,2
commit,2
begin,3
insert,3,9,3
commit,3
begin,4
insert,4,4,4
commit,4
begin,5
insert,5,4,5
commit,5
start,1,8,2,u:0,n:1
scan,0,0
scan,0,0
seal,0
load,0
load,1
switch
",
        answers: "1,ok
2,ok,1
3,ok,1,0.0
4,ok,2
5,ok,2
6,ok,3,0.1
7,ok,4
8,ok,3
9,ok,5,0.2
10,ok,6
11,ok,4
12,ok,7,0.3
13,ok,8
14,ok,5
15,ok,9,1.0
16,ok,10
17,ok,2
18,ok,0
19,ok,1
20,ok,2
21,ok,5
22,ok,5
23,ok,11,shared,ready:0
23,shared,0,4,0.1,0.3
23,pages,0
",
        faults: (2, 5),
        places: (23, 6),
        ..PLAIN
    },
];
