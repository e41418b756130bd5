//! Unique indexes: what a switch decides of them, whom it waits for, and which writes a ready one refuses.

use crate::story::{PLAIN, Story};

pub static STORIES: [Story; 4] = [
    Story {
        name: "keys apart",
        script: "table,4,int
begin,1
insert,1,7
commit,1
begin,2
insert,2,7
commit,2
start,1,4,even:1,u:0
scan,0,0
seal,0
load,0
begin,3
delete,3,0.1
commit,3
switch
begin,4
delete,4,0.0
begin,5
insert,5,7
undo,4
insert,5,7
update,5,0.0,7
update,5,0.0,8
begin,6
insert,6,7
insert,6,8
undo,5
insert,6,7
insert,6,8
undo,5
undo,6
begin,7
delete,7,0.0
insert,7,7
undo,7
undo,7
begin,8
delete,8,0.0
commit,8
begin,9
insert,9,7
",
        answers: "1,ok
2,ok,1
3,ok,1,0.0
4,ok,2
5,ok,2
6,ok,3,0.1
7,ok,4
8,ok,1
9,ok,0
10,ok,1
11,ok,2
12,ok,3
13,ok,5,0.1
14,ok,6
15,ok,7,ready:0
15,pages,0
16,ok,4
17,ok,8,0.0
18,ok,5
19,refused,31,KeyHeld,0,4
20,ok,9,0
21,refused,30,Duplicate,0,0.0
22,ok,10,0.0
23,ok,11,0.0
24,ok,6
25,refused,31,KeyHeld,0,5
26,refused,30,Duplicate,0,0.0
27,ok,12,1
28,refused,30,Duplicate,0,0.0
29,ok,13,0.1
30,ok,14,0
31,ok,15,0
32,ok,7
33,ok,16,0.0
34,ok,17,0.1
35,ok,18,1
36,ok,19,0
37,ok,8
38,ok,20,0.0
39,ok,21
40,ok,9
41,ok,22,0.0
",
        is_short: true,
        ..PLAIN
    },
    Story {
        name: "rows that share a key",
        script: "table,4,int
begin,1
insert,1,9
commit,1
begin,2
insert,2,4
commit,2
begin,3
insert,3,9
commit,3
begin,4
insert,4,4
commit,4
begin,5
insert,5,4
commit,5
start,1,4,even:1,u:0,n:0
scan,0,0
scan,0,0
seal,0
load,0
load,1
switch
",
        answers: "1,ok
2,ok,1
3,ok,1,0.0
4,ok,2
5,ok,2
6,ok,3,0.1
7,ok,4
8,ok,3
9,ok,5,0.2
10,ok,6
11,ok,4
12,ok,7,0.3
13,ok,8
14,ok,5
15,ok,9,1.0
16,ok,10
17,ok,2
18,ok,0
19,ok,1
20,ok,2
21,ok,5
22,ok,5
23,ok,11,shared,ready:0
23,shared,0,4,0.1,0.3
23,pages,0
",
        ..PLAIN
    },
    Story {
        name: "a switch waits for writers",
        script: "table,4,int
begin,1
insert,1,7
commit,1
fence
start,1,4,even:1,u:0
scan,0,0
seal,0
load,0
begin,2
insert,2,8
switch
fence
begin,3
commit,2
switch
begin,3
insert,3,8
",
        answers: "1,ok
2,ok,1
3,ok,1,0.0
4,ok,2
5,refused,41,NoBuild
6,ok,1
7,ok,0
8,ok,1
9,ok,1
10,ok,2
11,ok,3,0.1
12,refused,50,Busy,1
13,ok
14,refused,27,Fenced
15,ok,4
16,ok,5,ready:0
16,pages,0
17,ok,3
18,refused,30,Duplicate,0,0.1
",
        ..PLAIN
    },
    Story {
        name: "a build with a fence is given up",
        script: "table,4,int
start,1,4,even:1,u:0
fence
begin,1
abandon
fence
begin,1
",
        answers: "1,ok
2,ok,0
3,ok
4,refused,27,Fenced
5,ok
5,pages,0
6,refused,41,NoBuild
7,ok,1
",
        ..PLAIN
    },
];
