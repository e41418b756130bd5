//! Scripts with bytes that few would write: other line ends, NULs, byte order marks, quotes and very long numbers.

use crate::case::Case;

pub const CASES: [Case; 5] = [
    // A mark at the beginning isn't read, and a quote that is left open ends with the script.
    Case {
        name: "line ends, NULs and open quotes",
        script: b"\xef\xbb\xbftable,4,text\r
\r
#x\r
row,\"=a\r
b\"\rrow,=a\0b
row,=a\r\rrow,=\0
row,=
get,0.0\r
rest,n:0
row,\"=\"\"c
row,5
",
        out: "1,ok
3,ok,0.0
4,ok,0.1
5,ok,0.2
6,ok,0.3
7,ok,1.0
8,ok,\"=a\r
b\"
9,ok,5
9,pair,=,1.0
9,pair,=\0,0.3
9,pair,=a,0.2
9,pair,=a\0b,0.1
9,pair,\"=a\r
b\",0.0
10,ok,1.1
",
        err: "",
        status: 0,
        check: "script: 10 records, all good\n",
    },
    Case {
        name: "a byte order mark in the midst",
        script: b"table,2,int
\xef\xbb\xbfrow,5
",
        out: "",
        err: "script: record 2 is bad\n",
        status: 2,
        check: "script: record 2 is bad: field 1, \"\\u{feff}row\", is no command (table, row, begin, insert, update, delete, undo, commit, \
            get, spools, start, scan, digest, seal, load, feed, apply, fence, switch, abandon, side, pairs or rest)\n",
    },
    Case {
        name: "a NUL alone",
        script: b"table,2,int
row,\0
",
        out: "",
        err: "script: record 2 is bad\n",
        status: 2,
        check: "script: record 2 is bad: field 2, \"\\0\", is no cell (~, a number, =text, true or false)\n",
    },
    Case {
        name: "many zeros and many quotes",
        script: b"table,0000000000000000000000000000000000000000000000000000000000000002,int,text
row,-0000000000000000000000000000000000000000000000000000000000000005,\"=\"\"\"\"\"\"\"\"\"\"\"\"\"\"\"\"\"\"\"\"\"
get,0000000000000000000000000000000000000000.0000000000000000000000000000000000000000
",
        out: "1,ok
2,ok,0.0
3,ok,-5,\"=\"\"\"\"\"\"\"\"\"\"\"\"\"\"\"\"\"\"\"\"\"
",
        err: "",
        status: 0,
        check: "script: 3 records, all good\n",
    },
    Case {
        name: "digits of another script",
        script: b"table,2,int
row,\xd9\xa3
",
        out: "",
        err: "script: record 2 is bad\n",
        status: 2,
        check: "script: record 2 is bad: field 2, \"\u{663}\", is no cell (~, a number, =text, true or false)\n",
    },
];
