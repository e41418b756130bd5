//! Indexes on columns that descend.

use crate::case::Case;

pub const CASES: [Case; 4] = [
    Case {
        name: "the greatest number comes first, and Null last",
        script: b"table,4,int
row,5
row,~
row,9
row,5
rest,n:0d
",
        out: "1,ok
2,ok,0.0
3,ok,0.1
4,ok,0.2
5,ok,0.3
6,ok,4
6,pair,9,0.2
6,pair,5,0.0
6,pair,5,0.3
6,pair,~,0.1
",
        err: "",
        status: 0,
        check: "script: 6 records, all good\n",
    },
    Case {
        name: "of two keys that rows share the greater one is the first",
        script: b"table,4,int
row,9
row,4
row,9
row,4
start,1,4,1,u:0d
scan,0,0
seal,0
load,0
switch
",
        out: "1,ok
2,ok,0.0
3,ok,0.1
4,ok,0.2
5,ok,0.3
6,ok,1
7,ok,0
8,ok,1
9,ok,4
10,ok,9,shared
10,shared,0,9,0.0,0.2
10,pages,0
",
        err: "",
        status: 1,
        check: "script: 10 records, all good\n",
    },
    Case {
        name: "the example of columns that descend",
        script: b"# players and their scores; a d behind a column's number has its greatest cell come first, and Null last
table,4,int,text
row,70,=mona
row,~,=otto
row,90,=jane
row,70,=abel
# the highest score first, and players of one score by name
rest,n:0d;1
# no two players may share a score: abel gets another one before the switch
start,1,4,1,u:0d
scan,0,0
begin,A
update,A,0.3,80,=abel
commit,A
seal,0
load,0
switch
pairs,0
begin,B
insert,B,90,=lisa
",
        out: "2,ok
3,ok,0.0
4,ok,0.1
5,ok,0.2
6,ok,0.3
8,ok,4
8,pair,90,=jane,0.2
8,pair,70,=abel,0.3
8,pair,70,=mona,0.0
8,pair,~,=otto,0.1
10,ok,1
11,ok,0
12,ok,5
13,ok,9,0.3
14,ok,10
15,ok,1
16,ok,4
17,ok,11,ready:0
17,pages,0
18,ok,4
18,pair,90,0.2
18,pair,80,0.3
18,pair,70,0.0
18,pair,~,0.1
19,ok,6
20,refused,30,Duplicate,0,0.2
",
        err: "",
        status: 0,
        check: "script: 20 records, all good\n",
    },
    Case {
        name: "a column in both directions, and one that isn't there",
        script: b"table,4,int,int
row,1,2
rest,n:0d;0
rest,n:2d
rest,n:1d;0d
",
        out: "1,ok
2,ok,0.0
3,refused,10,BadColumn
4,refused,10,BadColumn
5,ok,1
5,pair,2,1,0.0
",
        err: "",
        status: 0,
        check: "script: 5 records, all good\n",
    },
];
