//! Records in every spelling.

use crate::case::Case;

pub const CASES: [Case; 2] = [
    Case {
        name: "records in every spelling",
        script: b"table,2,int
row,0,007,-5,-0,9223372036854775807,-9223372036854775808
row,~,=,=~,=a b,true,false
row,\"=a,b\"
begin,A
begin,abcXYZ0123456789
insert,1,~
update,A,0.0,~
update,1,4294967295.65535,1,2,3,4,5,6,7,8,9,10,11,12,13
delete,A,000000000000.00000000
undo,A
commit,A
get,12.3
get,007.08
start,1,4,0,n:0
start,4294967295,0,0;4294967295;1,u:0;0,n:7
start,1,4,even:3,n:0
scan,0,0
digest,0
seal,00000000000000000001
load,0
feed,0,1
apply,4294967295,00
switch
pairs,0
rest,u:12;4294967295
#
#row
\"#\",row

\r
# text
switch
",
        out: "1,ok
2,refused,12,RowShape
3,refused,12,RowShape
4,refused,12,RowShape
5,ok,4
6,ok,5
7,refused,24,NoSuchTxn
8,refused,21,NoSuchRow
9,refused,12,RowShape
10,refused,21,NoSuchRow
11,ok,0,0
12,refused,24,NoSuchTxn
13,refused,21,NoSuchRow
14,refused,21,NoSuchRow
15,ok,0
16,refused,40,BuildRunning
17,refused,40,BuildRunning
18,refused,45,RangeDone
19,ok,0
20,refused,43,BadCount
21,ok,0
22,ok,0
23,refused,43,BadCount
24,ok,1,ready:0
24,pages,0
25,ok,0
26,refused,10,BadColumn
31,refused,41,NoBuild
",
        err: "",
        status: 0,
        check: "script: 31 records, all good\n",
    },
    Case {
        name: "comments and empty lines",
        script: b"#

table,2,int
row,1
# end
switch
",
        out: "2,ok
3,ok,0.0
5,refused,41,NoBuild
",
        err: "",
        status: 0,
        check: "script: 5 records, all good\n",
    },
];
