//! Scripts that can't be run.

use crate::case::Case;

pub const CASES: [Case; 6] = [
    Case {
        name: "an unknown command",
        script: b"table,1,int
fly,1
",
        out: "",
        err: "script: record 2 is bad\n",
        status: 2,
        check: "script: record 2 is bad: field 1, \"fly\", is no command (table, row, begin, insert, update, delete, undo, commit, \
            get, spools, start, scan, digest, seal, load, feed, apply, fence, switch, abandon, side, pairs or rest)\n",
    },
    Case {
        name: "no records",
        script: b"",
        out: "",
        err: "script: record 1 is bad\n",
        status: 2,
        check: "script: record 1 is bad: no record is a table (table,L,KIND,..)\n",
    },
    Case {
        name: "a row with no cells",
        script: b"table,2,int
row,5
row
",
        out: "",
        err: "script: record 3 is bad\n",
        status: 2,
        check: "script: record 3 is bad: it has too few fields (row,CELL,..)\n",
    },
    Case {
        name: "a plus sign",
        script: b"table,2,int
row,+5
",
        out: "",
        err: "script: record 2 is bad\n",
        status: 2,
        check: "script: record 2 is bad: field 2, \"+5\", is no cell (~, a number, =text, true or false)\n",
    },
    Case {
        name: "a number past 64 bits",
        script: b"table,2,int
row,9223372036854775808
",
        out: "",
        err: "script: record 2 is bad\n",
        status: 2,
        check: "script: record 2 is bad: field 2, \"9223372036854775808\", is no cell (~, a number, =text, true or false)\n",
    },
    Case {
        name: "a byte that is no text",
        script: b"table,2,text
row,=\xff
",
        out: "",
        err: "script: record 2 is bad\n",
        status: 2,
        check: "script: record 2 is bad: it is not UTF-8\n",
    },
];
