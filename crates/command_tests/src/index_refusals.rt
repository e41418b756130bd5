//! Files that the command `index` refuses.

use crate::run::{Out, Run, SCRIPT};
use crate::task::Task;

/// The runs of this file.
pub fn runs() -> &'static [Run] {
    &RUNS
}

static RUNS: [Run; 14] = [
    Run {
        name: "an empty file",
        task: Task::Index(&["--columns", "a:int", "--on", "a"]),
        rest: b"",
        err: "sfbuild index: standard input: the file is empty: it has no header\n",
        status: 2,
        ..SCRIPT
    },
    Run {
        name: "blank lines alone",
        task: Task::Index(&["--columns", "a:int", "--on", "a"]),
        rest: b"\n\r\n",
        err: "sfbuild index: standard input: the file is empty: it has no header\n",
        status: 2,
        ..SCRIPT
    },
    Run {
        name: "a byte order mark alone",
        task: Task::Index(&["--columns", "a:int", "--on", "a"]),
        rest: b"\xef\xbb\xbf",
        err: "sfbuild index: standard input: the file is empty: it has no header\n",
        status: 2,
        ..SCRIPT
    },
    Run {
        name: "a name that stands twice",
        task: Task::Index(&["--columns", "b:int,a:int", "--on", "a"]),
        rest: b"a,b,a\n1,2,3\n",
        err: "sfbuild index: standard input: `a`: named twice in the file's header\n",
        status: 2,
        ..SCRIPT
    },
    Run {
        name: "a name that isn't there",
        task: Task::Index(&["--columns", "a:int", "--on", "a"]),
        rest: b"A, a,b\n1,2,3\n",
        err: "sfbuild index: standard input: `a`: no column of the file's header\n",
        status: 2,
        ..SCRIPT
    },
    Run {
        name: "no number",
        task: Task::Index(&["--columns", "a:int", "--on", "a"]),
        rest: b"b,a\n,1\n\n,2x\n",
        err: "sfbuild index: standard input: line 4, column `a`: no whole number of 64 bits\n",
        status: 2,
        ..SCRIPT
    },
    Run {
        name: "a blank before a number",
        task: Task::Index(&["--columns", "a:int", "--on", "a"]),
        rest: b"a\n 1\n",
        err: "sfbuild index: standard input: line 2, column `a`: no whole number of 64 bits\n",
        status: 2,
        ..SCRIPT
    },
    Run {
        name: "a number of more than 64 bits",
        task: Task::Index(&["--columns", "a:int", "--on", "a"]),
        rest: b"a\n9223372036854775808\n",
        err: "sfbuild index: standard input: line 2, column `a`: no whole number of 64 bits\n",
        status: 2,
        ..SCRIPT
    },
    Run {
        name: "no flag",
        task: Task::Index(&["--columns", "a:flag", "--on", "a"]),
        rest: b"a\ntrue\nTRUE\n",
        err: "sfbuild index: standard input: line 3, column `a`: neither true nor false\n",
        status: 2,
        ..SCRIPT
    },
    Run {
        name: "a text of 101 bytes",
        task: Task::Index(&["--columns", "a:text", "--on", "a"]),
        rest: b"a\nyyyyyyyyyyyyyyyyyyyyyyyyyyyyyyyyyyyyyyyyyyyyyyyyyyyyyyyyyyyyyyyyyyyyyyyyyyyyyyyyyyyyyyyyyyyyyyyyyyyy\n\
            yyyyyyyyyyyyyyyyyyyyyyyyyyyyyyyyyyyyyyyyyyyyyyyyyyyyyyyyyyyyyyyyyyyyyyyyyyyyyyyyyyyyyyyyyyyyyyyyyyyyy\n",
        err: "sfbuild index: standard input: line 3, column `a`: a text of more than 100 bytes\n",
        status: 2,
        ..SCRIPT
    },
    Run {
        name: "no UTF-8",
        task: Task::Index(&["--columns", "a:text", "--on", "a"]),
        rest: b"a\nx\n\xff\n",
        err: "sfbuild index: standard input: line 3, column `a`: not UTF-8\n",
        status: 2,
        ..SCRIPT
    },
    Run {
        name: "too few fields",
        task: Task::Index(&["--columns", "b:int", "--on", "b"]),
        rest: b"a,b\n1,2\n3\n",
        err: "sfbuild index: standard input: line 3: fields: 1, and the header has 2\n",
        status: 2,
        ..SCRIPT
    },
    Run {
        name: "too many fields",
        task: Task::Index(&["--columns", "a:int", "--on", "a"]),
        rest: b"a\n1,2\n",
        err: "sfbuild index: standard input: line 2: fields: 2, and the header has 1\n",
        status: 2,
        ..SCRIPT
    },
    Run {
        name: "no number in lines that end with a carriage return",
        task: Task::Index(&["--columns", "a:int", "--on", "a"]),
        rest: b"a\r1\r\rx\r",
        err: "sfbuild index: standard input: line 4, column `a`: no whole number of 64 bits\n",
        status: 2,
        ..SCRIPT
    },
];
