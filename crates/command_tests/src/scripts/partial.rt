//! Partial indexes: those that take only the rows that meet a condition.

use crate::case::Case;

pub const CASES: [Case; 6] = [
    Case {
        name: "the example of a partial index",
        script: b"# tasks: a number, who has it, and whether it is done
table,4,int,text,flag
row,3,=mona,false
row,1,=otto,true
row,2,=mona,false
row,1,=jane,false
# the index takes only the tasks that aren't done, and among these no two may have one number
start,1,4,1,u:0?2=false
scan,0,0
# meanwhile mona's is done, otto's is to be done again, and jane's gets another number
begin,A
update,A,0.0,3,=mona,true
update,A,0.1,1,=otto,false
update,A,0.3,4,=jane,false
side,0
commit,A
seal,0
load,0
switch
pairs,0
# a task that is done may have a number that another has, until it is to be done again
begin,B
insert,B,2,=abel,true
update,B,1.0,2,=abel,false
# who has the tasks with a number below 3
rest,n:1?0<3
",
        out: "2,ok
3,ok,0.0
4,ok,0.1
5,ok,0.2
6,ok,0.3
8,ok,1
9,ok,0
11,ok,5
12,ok,9,0.0
13,ok,10,0.1
14,ok,11,0.3
15,ok,4
15,entry,delete,3,0.0
15,entry,insert,1,0.1
15,entry,delete,1,0.3
15,entry,insert,4,0.3
16,ok,12
17,ok,1
18,ok,3
19,ok,13,ready:0
19,pages,0
20,ok,3
20,pair,1,0.1
20,pair,2,0.2
20,pair,4,0.3
22,ok,6
23,ok,14,1.0
24,refused,30,Duplicate,0,0.2
26,ok,3
26,pair,=abel,1.0
26,pair,=mona,0.2
26,pair,=otto,0.1
",
        err: "",
        status: 0,
        check: "script: 26 records, all good\n",
    },
    Case {
        name: "rows that come to meet the condition, and that leave it, while a build runs",
        script: b"table,4,int,flag
row,7,true
row,7,false
row,8,true
start,1,4,1,u:0?1=true
scan,0,0
begin,A
update,A,0.1,7,true
update,A,0.0,7,false
side,0
commit,A
seal,0
load,0
switch
pairs,0
begin,B
insert,B,7,false
update,B,0.3,7,true
",
        out: "1,ok
2,ok,0.0
3,ok,0.1
4,ok,0.2
5,ok,1
6,ok,0
7,ok,4
8,ok,7,0.1
9,ok,8,0.0
10,ok,2
10,entry,insert,7,0.1
10,entry,delete,7,0.0
11,ok,9
12,ok,1
13,ok,2
14,ok,10,ready:0
14,pages,0
15,ok,2
15,pair,7,0.1
15,pair,8,0.2
16,ok,5
17,ok,11,0.3
18,refused,30,Duplicate,0,0.1
",
        err: "",
        status: 0,
        check: "script: 18 records, all good\n",
    },
    Case {
        name: "a key whose row leaves the condition is held until its transaction ends",
        script: b"table,4,int,flag
row,7,true
start,1,4,1,u:0?1=true
scan,0,0
seal,0
load,0
switch
begin,A
update,A,0.0,7,false
begin,B
insert,B,7,true
insert,B,7,false
undo,A
insert,B,7,true
update,B,0.1,7,true
pairs,0
",
        out: "1,ok
2,ok,0.0
3,ok,1
4,ok,0
5,ok,1
6,ok,1
7,ok,3,ready:0
7,pages,0
8,ok,2
9,ok,4,0.0
10,ok,3
11,refused,31,KeyHeld,0,2
12,ok,5,0.1
13,ok,6,0
14,refused,30,Duplicate,0,0.0
15,refused,30,Duplicate,0,0.0
16,ok,1
16,pair,7,0.0
",
        err: "",
        status: 0,
        check: "script: 16 records, all good\n",
    },
    Case {
        name: "equal to, less than, and Null, ascending and descending",
        script: b"table,8,int,text
row,5,=a
row,~,=b
row,-3,~
row,9,=ab
row,5,=
rest,n:1?0=5
rest,n:0?0<5
rest,n:1?0~
rest,n:0?1~
rest,n:0d?1<=ab
rest,n:0?1==
rest,u:1d;0?0<9223372036854775807
",
        out: "1,ok
2,ok,0.0
3,ok,0.1
4,ok,0.2
5,ok,0.3
6,ok,0.4
7,ok,2
7,pair,=,0.4
7,pair,=a,0.0
8,ok,1
8,pair,-3,0.2
9,ok,1
9,pair,=b,0.1
10,ok,1
10,pair,-3,0.2
11,ok,2
11,pair,5,0.0
11,pair,5,0.4
12,ok,1
12,pair,5,0.4
13,ok,4
13,pair,=ab,9,0.3
13,pair,=a,5,0.0
13,pair,=,5,0.4
13,pair,~,-3,0.2
",
        err: "",
        status: 0,
        check: "script: 13 records, all good\n",
    },
    Case {
        name: "conditions that a table doesn't have",
        script: b"table,4,int,text
row,1,=a
rest,n:0?2=1
rest,n:0?1=1
rest,n:0?0==a
rest,n:0?0=~
rest,n:0?0<~
rest,n:0?2~
rest,n:0?1==xxxxxxxxxxxxxxxxxxxxxxxxxxxxxxxxxxxxxxxxxxxxxxxxxxxxxxxxxxxxxxxxxxxxxxxxxxxxxxxxxxxxxxxxxxxxxxxxxxxxx
rest,n:0?0<true
start,1,4,1,n:0?4~
rest,n:0?1==xxxxxxxxxxxxxxxxxxxxxxxxxxxxxxxxxxxxxxxxxxxxxxxxxxxxxxxxxxxxxxxxxxxxxxxxxxxxxxxxxxxxxxxxxxxxxxxxxxxx
",
        out: "1,ok
2,ok,0.0
3,refused,10,BadColumn
4,refused,10,BadColumn
5,refused,10,BadColumn
6,refused,10,BadColumn
7,refused,10,BadColumn
8,refused,10,BadColumn
9,refused,10,BadColumn
10,refused,10,BadColumn
11,refused,10,BadColumn
12,ok,0
",
        err: "",
        status: 0,
        check: "script: 12 records, all good\n",
    },
    Case {
        name: "two partial indexes and a whole one beside writes of each kind",
        script: b"table,8,int,flag
row,1,true
row,2,false
row,3,~
start,1,4,1,n:0?1=true,n:0,u:0?1~
scan,0,0
begin,A
update,A,0.0,1,~
update,A,0.1,2,true
update,A,0.2,4,~
insert,A,5,true
insert,A,6,false
delete,A,0.3
side,0
side,1
side,2
commit,A
seal,0
load,0
load,1
load,2
switch
pairs,0
pairs,1
pairs,2
",
        out: "1,ok
2,ok,0.0
3,ok,0.1
4,ok,0.2
5,ok,1
6,ok,0
7,ok,4
8,ok,7,0.0
9,ok,8,0.1
10,ok,9,0.2
11,ok,10,0.3
12,ok,11,0.4
13,ok,12,0.3
14,ok,4
14,entry,delete,1,0.0
14,entry,insert,2,0.1
14,entry,insert,5,0.3
14,entry,delete,5,0.3
15,ok,5
15,entry,delete,3,0.2
15,entry,insert,4,0.2
15,entry,insert,5,0.3
15,entry,insert,6,0.4
15,entry,delete,5,0.3
16,ok,3
16,entry,insert,1,0.0
16,entry,delete,3,0.2
16,entry,insert,4,0.2
17,ok,13
18,ok,1
19,ok,1
20,ok,3
21,ok,1
22,ok,14,ready:0,ready:1,ready:2
22,pages,0
23,ok,1
23,pair,2,0.1
24,ok,4
24,pair,1,0.0
24,pair,2,0.1
24,pair,4,0.2
24,pair,6,0.4
25,ok,2
25,pair,1,0.0
25,pair,4,0.2
",
        err: "",
        status: 0,
        check: "script: 25 records, all good\n",
    },
];
