//! The build of three rows over spools of other kinds.

use crate::story::{Kind, PLAIN, Story};

pub static STORIES: [Story; 2] = [
    Story {
        name: "a build over lists",
        script: "table,2,int
begin,1
insert,1,5
commit,1
begin,2
insert,2,3
commit,2
begin,3
insert,3,5
commit,3
start,1,4,even:1,n:0
scan,0,0
load,0
scan,0,0
scan,0,0
load,0
seal,0
switch
load,0
load,0
switch
rest,n:0
",
        answers: "1,ok
2,ok,1
3,ok,1,0.0
4,ok,2
5,ok,2
6,ok,3,0.1
7,ok,4
8,ok,3
9,ok,5,1.0
10,ok,6
11,ok,2
12,ok,0
13,refused,47,NotScanned,0
14,ok,1
15,refused,45,RangeDone
16,refused,54,NotSealed,0
17,ok,2
18,refused,48,NotLoaded,0
19,ok,3
20,ok,0
21,ok,7,ready:0
21,pages,0
22,ok,3
22,pair,3,0.1
22,pair,5,0.0
22,pair,5,1.0
",
        kind: Kind::Lists,
        ..PLAIN
    },
    Story {
        name: "a build over both kinds in boxes",
        script: "table,2,int
begin,1
insert,1,5
commit,1
begin,2
insert,2,3
commit,2
begin,3
insert,3,5
commit,3
start,2,4,even:2,n:0
scan,0,0
scan,1,1
seal,0
seal,1
load,0
switch
",
        answers: "1,ok
2,ok,1
3,ok,1,0.0
4,ok,2
5,ok,2
6,ok,3,0.1
7,ok,4
8,ok,3
9,ok,5,1.0
10,ok,6
11,ok,2
12,ok,0
13,ok,1
14,ok,1
15,ok,1
16,ok,3
17,ok,7,ready:0
17,pages,0
",
        kind: Kind::Boxed,
        ..PLAIN
    },
];
