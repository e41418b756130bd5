//! Which spools a start takes, and what a build does that wants a page.

use crate::story::{NONE, PLAIN, Stock, Story};

/// One spool of a page, which has a pair.
const USED: Stock = Stock {
    quota: 1,
    count: 1,
    is_used: true,
    ..NONE
};

/// Two of a page each.
const TWO_OF_A_PAGE: Stock = Stock {
    quota: 1,
    count: 2,
    ..NONE
};

pub static STORIES: [Story; 6] = [
    Story {
        name: "a start with a spool that has a pair",
        script: "table,2,int
begin,1
insert,1,5
commit,1
begin,2
insert,2,3
commit,2
begin,3
insert,3,5
commit,3
start,1,0,even:1,n:0
start,1,0,even:1,n:0
start,1,0,1,n:0
start,2,0,even:1,n:0
start,1,0,even:1,n:0
",
        answers: "1,ok
2,ok,1
3,ok,1,0.0
4,ok,2
5,ok,2
6,ok,3,0.1
7,ok,4
8,ok,3
9,ok,5,1.0
10,ok,6
11,refused,44,SpoolNotEmpty
12,refused,44,SpoolNotEmpty
13,refused,42,BadRanges
14,refused,43,BadCount
15,refused,44,SpoolNotEmpty
",
        given: USED,
        is_replayed: false,
        ..PLAIN
    },
    Story {
        name: "a start takes as many as it has workers",
        script: "table,2,int
begin,1
insert,1,5
commit,1
begin,2
insert,2,3
commit,2
begin,3
insert,3,5
commit,3
start,0,0,even:1,n:0
start,1,0,even:1,n:0
start,3,0,even:1,n:0
start,2,0,even:0,n:0
start,2,0,even:1,n:0
start,2,0,even:1,n:0
abandon
start,2,0,even:1,n:0
",
        answers: "1,ok
2,ok,1
3,ok,1,0.0
4,ok,2
5,ok,2
6,ok,3,0.1
7,ok,4
8,ok,3
9,ok,5,1.0
10,ok,6
11,refused,43,BadCount
12,refused,43,BadCount
13,refused,43,BadCount
14,refused,42,BadRanges
15,ok,2
16,refused,40,BuildRunning
17,ok
17,pages,0
18,refused,43,BadCount
",
        given: TWO_OF_A_PAGE,
        is_replayed: false,
        ..PLAIN
    },
    Story {
        name: "a second build wants new spools",
        script: "table,2,int
begin,1
insert,1,5
commit,1
begin,2
insert,2,3
commit,2
begin,3
insert,3,5
commit,3
start,1,4,even:1,n:0
scan,0,0
load,0
scan,0,0
scan,0,0
load,0
seal,0
switch
load,0
load,0
switch
rest,n:0
start,1,0,even:1,n:0
start,1,4,even:1,n:0
",
        answers: "1,ok
2,ok,1
3,ok,1,0.0
4,ok,2
5,ok,2
6,ok,3,0.1
7,ok,4
8,ok,3
9,ok,5,1.0
10,ok,6
11,ok,2
12,ok,0
13,refused,47,NotScanned,0
14,ok,1
15,refused,45,RangeDone
16,refused,54,NotSealed,0
17,ok,2
18,refused,48,NotLoaded,0
19,ok,3
20,ok,0
21,ok,7,ready:0
21,pages,0
22,ok,3
22,pair,3,0.1
22,pair,5,0.0
22,pair,5,1.0
23,refused,43,BadCount
24,ok,2
",
        is_replayed: false,
        ..PLAIN
    },
    Story {
        name: "a build that fits in a page",
        script: "table,255,int
begin,1
240*insert,1,+0
commit,1
start,1,1,even:1,n:0
scan,0,0
seal,0
load,0
seal,0
switch
",
        answers: "1,ok
2,ok,1
240*+3,ok,+1,0.+0
243,ok,241
244,ok,1
245,ok,0
246,ok,1
247,ok,240
248,ok,0
249,ok,242,ready:0
249,pages,0
",
        ..PLAIN
    },
    Story {
        name: "a seal that wants a page",
        script: "table,255,int
begin,1
241*insert,1,+0
commit,1
start,1,1,even:1,n:0
scan,0,0
seal,0
scan,0,0
scan,1,0
digest,0
digest,1
seal,0
load,0
feed,0,9
apply,0,9
apply,1,9
switch
start,1,0,even:1,n:0
abandon
abandon
start,1,0,even:1,n:0
",
        answers: "1,ok
2,ok,1
241*+3,ok,+1,0.+0
244,ok,242
245,ok,1
246,ok,0
247,refused,51,NoPage
248,refused,51,NoPage
249,refused,43,BadCount
250,refused,51,NoPage
251,refused,43,BadCount
252,refused,51,NoPage
253,refused,51,NoPage
254,ok,0
255,refused,51,NoPage
256,refused,43,BadCount
257,refused,51,NoPage
258,refused,40,BuildRunning
259,ok
259,pages,0
260,refused,41,NoBuild
261,refused,43,BadCount
",
        is_replayed: false,
        ..PLAIN
    },
    Story {
        name: "a digest that wants a page",
        script: "table,255,int
begin,1
4096*insert,1,+0
commit,1
start,1,1,even:1,n:0
scan,0,0
digest,0
scan,0,0
digest,0
scan,0,0
digest,0
scan,0,0
digest,0
scan,0,0
digest,0
scan,0,0
digest,0
scan,0,0
digest,0
scan,0,0
digest,0
scan,0,0
digest,0
scan,0,0
digest,0
scan,0,0
digest,0
scan,0,0
digest,0
scan,0,0
digest,0
scan,0,0
digest,0
scan,0,0
digest,0
scan,0,0
digest,0
scan,0,0
digest,0
scan,0,0
scan,1,0
digest,0
digest,1
seal,0
load,0
feed,0,9
apply,0,9
apply,1,9
switch
start,1,0,even:1,n:0
abandon
abandon
start,1,0,even:1,n:0
",
        answers: "1,ok
2,ok,1
255*+3,ok,+1,0.+0
255*+258,ok,+256,1.+0
255*+513,ok,+511,2.+0
255*+768,ok,+766,3.+0
255*+1023,ok,+1021,4.+0
255*+1278,ok,+1276,5.+0
255*+1533,ok,+1531,6.+0
255*+1788,ok,+1786,7.+0
255*+2043,ok,+2041,8.+0
255*+2298,ok,+2296,9.+0
255*+2553,ok,+2551,10.+0
255*+2808,ok,+2806,11.+0
255*+3063,ok,+3061,12.+0
255*+3318,ok,+3316,13.+0
255*+3573,ok,+3571,14.+0
255*+3828,ok,+3826,15.+0
16*+4083,ok,+4081,16.+0
4099,ok,4097
4100,ok,17
4101,ok,0
4102,ok,1
4103,ok,1
4104,ok,1
4105,ok,2
4106,ok,1
4107,ok,3
4108,ok,1
4109,ok,4
4110,ok,1
4111,ok,5
4112,ok,1
4113,ok,6
4114,ok,1
4115,ok,7
4116,ok,1
4117,ok,8
4118,ok,1
4119,ok,9
4120,ok,1
4121,ok,10
4122,ok,1
4123,ok,11
4124,ok,1
4125,ok,12
4126,ok,1
4127,ok,13
4128,ok,1
4129,ok,14
4130,ok,1
4131,ok,15
4132,ok,1
4133,ok,16
4134,refused,51,NoPage
4135,refused,51,NoPage
4136,refused,43,BadCount
4137,refused,51,NoPage
4138,refused,43,BadCount
4139,refused,51,NoPage
4140,refused,51,NoPage
4141,ok,0
4142,refused,51,NoPage
4143,refused,43,BadCount
4144,refused,51,NoPage
4145,refused,40,BuildRunning
4146,ok
4146,pages,0
4147,refused,41,NoBuild
4148,refused,43,BadCount
",
        is_replayed: false,
        ..PLAIN
    },
];
