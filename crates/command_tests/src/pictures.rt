//! Pictures of scripts: what they show, and what is said where there is none.

use crate::run::{Lines, NO_LINES, Out, Run, SCRIPT};
use crate::task::Task;

/// A script that puts in so many rows, and has no picture of more than 200 records.
const ROWS: Lines = Lines {
    count: 199,
    front: "row,",
    ..NO_LINES
};

/// The runs of this file.
pub fn runs() -> &'static [Run] {
    &RUNS
}

static RUNS: [Run; 11] = [
    Run {
        name: "a table alone",
        task: Task::Picture,
        rest: b"table,1,int\n",
        out: Out::Draws(
            1,
            &["<g id=\"record-1\"><title>table,1,int</title>", "</svg>"],
        ),
        ..SCRIPT
    },
    Run {
        name: "writes ahead of the scan and behind it",
        task: Task::Picture,
        rest: b"# a remark & more
table,2,int
row,10
row,20
row,30
start,1,4,2,n:0
scan,0,0
begin,A
update,A,0.0,11
insert,A,40
scan,0,0
undo,A
seal,0
load,0
switch
",
        out: Out::Draws(
            14,
            &[
                "># a remark &amp; more</text>",
                "<g id=\"record-3\">",
                "#no-build\"",
                ">0.0 = 10</text>",
                "<g id=\"record-6\">",
                ">pages 0-1</text>",
                "<g id=\"record-7\">",
                ">page 0 copied</text>",
                "<g id=\"record-9\">",
                "#behind\"",
                ">0.0 = 11</text>",
                "#delete\"",
                ">10 at 0.0</text>",
                "#insert\"",
                ">11 at 0.0</text>",
                "<g id=\"record-10\">",
                "#ahead\"",
                ">1.1 = 40</text>",
                "<g id=\"record-12\">",
                "#undo-behind\"",
                ">1.1 undone</text>",
                ">40 at 1.1</text>",
                "<g id=\"record-15\">",
                ">applies 3</text>",
                ">ready 0</text>",
                ">index 0 is ready 0, pairs: 3</text>",
                ">11 at 0.0</text>",
                ">20 at 0.1</text>",
                ">30 at 1.0</text>",
            ],
        ),
        ..SCRIPT
    },
    Run {
        name: "a key that two rows share, and a refusal",
        task: Task::Picture,
        rest: b"table,4,int
row,4
row,4
start,1,4,1,u:0
switch
scan,0,0
seal,0
load,0
switch
",
        out: Out::Draws(
            9,
            &[
                "<g id=\"record-5\">",
                ">NotScanned, 0</text>",
                "<g id=\"record-9\">",
                ">two rows share a key</text>",
                ">index 0 is refused</text>",
                ">4 at 0.0 and 0.1</text>",
            ],
        ),
        status: 1,
        ..SCRIPT
    },
    Run {
        name: "odd texts",
        task: Task::Picture,
        rest: b"table,9,text
row,\"=<&\"\">'\"
row,\"=a\tb\x01\xc2\x85\xef\xbf\xbf\"
row,=\xd7\xa2\xd7\x91\xe2\x80\xae\xe2\x80\xa8
row,=0123456789012345678901234567890123456789
",
        out: Out::Draws(
            5,
            &[
                "<title>row,=&lt;&amp;&quot;&gt;&apos;</title>",
                ">0.0 = =&lt;&amp;&quot;&gt;&apos;</text>",
                ">0.1 = =a\u{2409}b\u{fffd}\u{fffd}\u{fffd}</text>",
                ">0.2 = =\u{5e2}\u{5d1}\u{fffd}\u{fffd}</text>",
                "<title>row,=0123456789012345678901234567890123456789</title>",
                ">row,=01234567890123456789012345678901\u{2026}</text>",
            ],
        ),
        ..SCRIPT
    },
    Run {
        name: "a table that is refused",
        task: Task::Picture,
        rest: b"table,0,int\nrow,1\n",
        out: Out::Draws(1, &["<g id=\"record-1\">", ">BadCount</text>"]),
        status: 2,
        ..SCRIPT
    },
    Run {
        name: "a build that is given up",
        task: Task::Picture,
        rest: b"table,1,int
start,2,4,even:2,n:0
abandon
",
        out: Out::Draws(
            3,
            &[
                ">no page</text>",
                ">no page</text>",
                "class=\"gone\"",
                ">given up</text>",
            ],
        ),
        ..SCRIPT
    },
    Run {
        name: "no script",
        task: Task::Picture,
        rest: b"",
        err: "script: record 1 is bad\n",
        status: 2,
        ..SCRIPT
    },
    Run {
        name: "no command",
        task: Task::Picture,
        rest: b"table,2,int\nfly\n",
        err: "script: record 2 is bad\n",
        status: 2,
        ..SCRIPT
    },
    Run {
        name: "no text",
        task: Task::Picture,
        rest: b"table,2,text\nrow,=\xff\n",
        err: "script: record 2 is bad\n",
        status: 2,
        ..SCRIPT
    },
    Run {
        name: "as many records as a picture may have",
        task: Task::Picture,
        begin: b"table,9,int\n",
        lines: ROWS,
        out: Out::Draws(200, &[]),
        ..SCRIPT
    },
    Run {
        name: "one record too many for a picture",
        task: Task::Picture,
        begin: b"table,9,int\n",
        lines: ROWS,
        rest: b"row,5\n",
        err: "script: 201 records are too many for a picture, which has 200 at most\n",
        status: 2,
        ..SCRIPT
    },
];
