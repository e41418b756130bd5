//! Tables that are refused, rows and their cells.

use crate::case::Case;

pub const CASES: [Case; 7] = [
    Case {
        name: "a slot limit past its own limit",
        script: b"table,256,int
row,1
",
        out: "1,refused,43,BadCount\n",
        err: "",
        status: 2,
        check: "script: 2 records, all good\n",
    },
    Case {
        name: "thirteen columns",
        script: b"table,1,int,int,int,int,int,int,int,int,int,int,int,int,int
row,1
",
        out: "1,refused,10,BadColumn\n",
        err: "",
        status: 2,
        check: "script: 2 records, all good\n",
    },
    Case {
        name: "thirteen columns and no slots",
        script: b"table,0,int,int,int,int,int,int,int,int,int,int,int,int,int\n",
        out: "1,refused,43,BadCount\n",
        err: "",
        status: 2,
        check: "script: 1 records, all good\n",
    },
    Case {
        name: "a row that is asked for by its RID",
        script: b"#x
table,2,int
row,-0
get,0.0
",
        out: "2,ok
3,ok,0.0
4,ok,0
",
        err: "",
        status: 0,
        check: "script: 4 records, all good\n",
    },
    Case {
        name: "a refused row, and a label that names nothing",
        script: b"table,2,int
row,true
undo,Z
",
        out: "1,ok
2,refused,12,RowShape
3,refused,24,NoSuchTxn
",
        err: "",
        status: 0,
        check: "script: 3 records, all good\n",
    },
    Case {
        name: "each kind of cell of a row",
        script: b"table,4,int,text,flag
row,-9223372036854775808,=,true
row,~,\"=a,b\",false
row,007,=~,~
get,0.0
get,0.01
get,00.2
get,0.3
get,1.0
get,4294967295.65535
begin,A
update,A,0.2,~,~,true
get,0.2
delete,A,0.2
get,0.2
undo,A
get,0.2
",
        out: "1,ok
2,ok,0.0
3,ok,0.1
4,ok,0.2
5,ok,-9223372036854775808,=,true
6,ok,~,\"=a,b\",false
7,ok,7,=~,~
8,refused,21,NoSuchRow
9,refused,21,NoSuchRow
10,refused,21,NoSuchRow
11,ok,4
12,ok,7,0.2
13,ok,~,~,true
14,ok,8,0.2
15,refused,21,NoSuchRow
16,ok,9,1
17,ok,~,~,true
",
        err: "",
        status: 0,
        check: "script: 17 records, all good\n",
    },
    // As many refused rows as transactions may be open.
    Case {
        name: "refused rows leave no transaction open",
        script: b"table,2,int
row,true
row,true
row,true
row,true
row,true
row,true
row,true
row,true
row,true
row,true
row,true
row,true
row,true
row,true
row,true
row,true
row,true
row,true
row,true
row,true
row,true
row,true
row,true
row,true
row,true
row,true
row,true
row,true
row,true
row,true
row,true
row,true
row,true
row,true
row,true
row,true
row,true
row,true
row,true
row,true
row,true
row,true
row,true
row,true
row,true
row,true
row,true
row,true
row,true
row,true
row,true
row,true
row,true
row,true
row,true
row,true
row,true
row,true
row,true
row,true
row,true
row,true
row,true
row,true
row,5
begin,A
",
        out: "1,ok
2,refused,12,RowShape
3,refused,12,RowShape
4,refused,12,RowShape
5,refused,12,RowShape
6,refused,12,RowShape
7,refused,12,RowShape
8,refused,12,RowShape
9,refused,12,RowShape
10,refused,12,RowShape
11,refused,12,RowShape
12,refused,12,RowShape
13,refused,12,RowShape
14,refused,12,RowShape
15,refused,12,RowShape
16,refused,12,RowShape
17,refused,12,RowShape
18,refused,12,RowShape
19,refused,12,RowShape
20,refused,12,RowShape
21,refused,12,RowShape
22,refused,12,RowShape
23,refused,12,RowShape
24,refused,12,RowShape
25,refused,12,RowShape
26,refused,12,RowShape
27,refused,12,RowShape
28,refused,12,RowShape
29,refused,12,RowShape
30,refused,12,RowShape
31,refused,12,RowShape
32,refused,12,RowShape
33,refused,12,RowShape
34,refused,12,RowShape
35,refused,12,RowShape
36,refused,12,RowShape
37,refused,12,RowShape
38,refused,12,RowShape
39,refused,12,RowShape
40,refused,12,RowShape
41,refused,12,RowShape
42,refused,12,RowShape
43,refused,12,RowShape
44,refused,12,RowShape
45,refused,12,RowShape
46,refused,12,RowShape
47,refused,12,RowShape
48,refused,12,RowShape
49,refused,12,RowShape
50,refused,12,RowShape
51,refused,12,RowShape
52,refused,12,RowShape
53,refused,12,RowShape
54,refused,12,RowShape
55,refused,12,RowShape
56,refused,12,RowShape
57,refused,12,RowShape
58,refused,12,RowShape
59,refused,12,RowShape
60,refused,12,RowShape
61,refused,12,RowShape
62,refused,12,RowShape
63,refused,12,RowShape
64,refused,12,RowShape
65,refused,12,RowShape
66,ok,0.0
67,ok,66
",
        err: "",
        status: 0,
        check: "script: 67 records, all good\n",
    },
];
