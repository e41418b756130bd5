//! Entries that are fed and applied while a build of three rows runs. Where memory may run out an apply or a switch
//! that wants it loses no entry: the next one goes on behind those that were applied.

use crate::story::{PLAIN, Story};

pub static STORIES: [Story; 2] = [
    Story {
        name: "entries into an index before its switch",
        script: "table,2,int
begin,1
insert,1,5
commit,1
begin,2
insert,2,3
commit,2
begin,3
insert,3,5
commit,3
feed,0,1
apply,0,1
start,1,4,2,n:0
feed,1,1
apply,1,1
feed,0,1
apply,0,1
scan,0,0
begin,4
insert,4,9
scan,0,0
update,4,0.0,8
undo,4
feed,0,3
undo,4
seal,0
apply,0,1
load,0
apply,0,0
apply,0,1
apply,0,9
apply,0,9
feed,0,1
feed,0,9
feed,0,9
apply,0,1
switch
rest,n:0
feed,0,1
apply,0,1
",
        answers: "1,ok
2,ok,1
3,ok,1,0.0
4,ok,2
5,ok,2
6,ok,3,0.1
7,ok,4
8,ok,3
9,ok,5,1.0
10,ok,6
11,refused,41,NoBuild
12,refused,41,NoBuild
13,ok,2
14,refused,43,BadCount
15,refused,43,BadCount
16,ok,0
17,refused,48,NotLoaded,0
18,ok,0
19,ok,4
20,ok,7,1.1
21,ok,1
22,ok,8,0.0
23,ok,9,1
24,ok,3
25,ok,10,0
26,ok,2
27,refused,48,NotLoaded,0
28,ok,4
29,ok,0
30,ok,1
31,ok,2
32,ok,0
33,ok,1
34,ok,1
35,ok,0
36,ok,1
37,ok,11,ready:0
37,pages,0
38,ok,3
38,pair,3,0.1
38,pair,5,0.0
38,pair,5,1.0
39,refused,41,NoBuild
40,refused,41,NoBuild
",
        is_short: true,
        ..PLAIN
    },
    Story {
        name: "entries that are applied at once",
        script: "table,2,int
begin,1
insert,1,5
commit,1
begin,2
insert,2,3
commit,2
begin,3
insert,3,5
commit,3
start,1,4,2,n:0
scan,0,0
scan,0,0
seal,0
load,0
begin,4
update,4,0.0,8
update,4,0.0,9
update,4,0.0,10
undo,4
undo,4
undo,4
feed,0,10
apply,0,9
apply,0,9
switch
rest,n:0
",
        answers: "1,ok
2,ok,1
3,ok,1,0.0
4,ok,2
5,ok,2
6,ok,3,0.1
7,ok,4
8,ok,3
9,ok,5,1.0
10,ok,6
11,ok,2
12,ok,0
13,ok,1
14,ok,2
15,ok,3
16,ok,4
17,ok,7,0.0
18,ok,8,0.0
19,ok,9,0.0
20,ok,10,2
21,ok,11,1
22,ok,12,0
23,ok,10
24,ok,9
25,ok,1
26,ok,13,ready:0
26,pages,0
27,ok,3
27,pair,3,0.1
27,pair,5,0.0
27,pair,5,1.0
",
        is_short: true,
        ..PLAIN
    },
];
