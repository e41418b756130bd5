//! Runs of which a call of a stream fails.

use crate::conversations::WAITS;
use crate::faults::{Story, Unread};
use crate::run::{Out, Run, SCRIPT};
use crate::stream::Failure;
use crate::task::Task;
use std::io::ErrorKind;

const ONCE: Failure = Failure {
    kind: ErrorKind::PermissionDenied,
    stays: false,
};

const FROM_THERE_ON: Failure = Failure {
    kind: ErrorKind::StorageFull,
    stays: true,
};

/// A read or a write that is interrupted is made again; a flush isn't.
const INTERRUPTED: Failure = Failure {
    kind: ErrorKind::Interrupted,
    stays: false,
};

const NO_MEMORY: Failure = Failure {
    kind: ErrorKind::OutOfMemory,
    stays: false,
};

/// How a write or a flush fails.
pub const UNSENT: [Failure; 3] = [ONCE, FROM_THERE_ON, INTERRUPTED];

/// How the reading of a script fails, and what is said then.
const OF_A_SCRIPT: Unread = &[
    (ONCE, "script: cannot be read\n"),
    (FROM_THERE_ON, "script: cannot be read\n"),
    (INTERRUPTED, ""),
    (NO_MEMORY, "script: no memory\n"),
];

/// The same of a conversation.
const OF_A_CONVERSATION: Unread = &[
    (ONCE, "shell: cannot be read\n"),
    (FROM_THERE_ON, "shell: cannot be read\n"),
];

/// The same of a file that is given indexes.
const OF_A_FILE: Unread = &[(
    ONCE,
    "sfbuild index: standard input: cannot be read: permission denied\n",
)];

/// A script, of which each call moves one byte.
const OF_SCRIPTS: Story = Story {
    run: SCRIPT,
    piece: 1,
    least: None,
    flushes: 1,
    unread: OF_A_SCRIPT,
    unsent: "",
    is_early: false,
};

/// Each kind of answer.
pub fn answers() -> &'static [Story] {
    &ANSWERS
}

/// Bad scripts, checks and races.
pub fn looks() -> &'static [Story] {
    &LOOKS
}

/// Long answers, pictures and files.
pub fn others() -> &'static [Story] {
    &OTHERS
}

static ANSWERS: [Story; 1] = [
    // Each kind of answer.
    Story {
        run: Run {
            name: "each kind of answer",
            task: Task::Replay,
            rest: b"# each kind of answer
table,2,int,text
row,5,\"=a,b\"
row,5,~
start,1,4,1,u:0,n:0
scan,0,0
seal,0
load,0
load,1
begin,A
update,A,0.0,6,=
side,1
undo,A
get,0.0
get,1.0
switch
pairs,0
start,1,4,1,n:0
abandon
commit,A
begin,B
update,B,0.1,6,~
begin,C
delete,C,0.1
",
            out: Out::Is(
                "2,ok
3,ok,0.0
4,ok,0.1
5,ok,1
6,ok,0
7,ok,1
8,ok,2
9,ok,2
10,ok,3
11,ok,5,0.0
12,ok,2
12,entry,delete,5,0.0
12,entry,insert,6,0.0
13,ok,6,0
14,ok,5,\"=a,b\"
15,refused,21,NoSuchRow
16,ok,7,shared,ready:0
16,shared,0,5,0.0,0.1
16,pages,0
17,ok,2
17,pair,5,0.0
17,pair,5,0.1
18,ok,1
19,ok
19,pages,0
20,refused,24,NoSuchTxn
21,ok,4
22,ok,8,0.1
23,ok,5
24,refused,22,RowHeld,4
",
            ),
            status: 1,
            ..SCRIPT
        },
        flushes: 1,
        ..OF_SCRIPTS
    },
];

static LOOKS: [Story; 5] = [
    Story {
        run: Run {
            name: "a bad script",
            task: Task::Replay,
            rest: b"table,2,int\nrow,5\nfly\n",
            err: "script: record 3 is bad\n",
            status: 2,
            ..SCRIPT
        },
        flushes: 0,
        ..OF_SCRIPTS
    },
    Story {
        run: Run {
            name: "a check",
            task: Task::Check,
            rest: b"table,2,int\nrow,5\n",
            out: Out::Is("script: 2 records, all good\n"),
            ..SCRIPT
        },
        flushes: 1,
        ..OF_SCRIPTS
    },
    Story {
        run: Run {
            name: "a check of a bad script",
            task: Task::Check,
            rest: b"table,2,int\nrow,x\n",
            err: "script: record 2 is bad: field 2, \"x\", is no cell (~, a number, =text, true or false)\n",
            status: 2,
            ..SCRIPT
        },
        flushes: 0,
        ..OF_SCRIPTS
    },
    Story {
        run: Run {
            name: "a race",
            task: Task::Race(2),
            rest: b"table,2,int
row,7
row,7
build,4,even:1,u:0,n:0
go
in,1,begin,A
in,1,insert,A,6
in,1,commit,A
in,1,commit,A
",
            out: Out::Is(
                "verdict,0,shared,7,0.0,0.1
verdict,1,ready:0
session,1,3,1
check,0,same
receipts,0
pages,0
",
            ),
            status: 1,
            ..SCRIPT
        },
        flushes: 1,
        ..OF_SCRIPTS
    },
    Story {
        run: Run {
            name: "a bad race",
            task: Task::Race(2),
            rest: b"table,2,int\ngo\n",
            err: "script: record 3 is bad\n",
            status: 2,
            ..SCRIPT
        },
        flushes: 0,
        ..OF_SCRIPTS
    },
];

static OTHERS: [Story; 4] = [
    // Answers of 9,655 bytes, more than are kept back before they are written.
    Story {
        run: Run {
            name: "a long output",
            rest: b"table,1,text,text,text,text,text,text,text,text,text,text,text,text\nrow,=a text of ninety-eight bytes: a row of twelve such texts is asked for eight times; no quotes neede,=a text of ninety-eight bytes: a row of twelve such texts is asked for eight times; no quotes neede,=a text of ninety-eight bytes: a row of twelve such texts is asked for eight times; no quotes neede,=a text of ninety-eight bytes: a row of twelve such texts is asked for eight times; no quotes neede,=a text of ninety-eight bytes: a row of twelve such texts is asked for eight times; no quotes neede,=a text of ninety-eight bytes: a row of twelve such texts is asked for eight times; no quotes neede,=a text of ninety-eight bytes: a row of twelve such texts is asked for eight times; no quotes neede,=a text of ninety-eight bytes: a row of twelve such texts is asked for eight times; no quotes neede,=a text of ninety-eight bytes: a row of twelve such texts is asked for eight times; no quotes neede,=a text of ninety-eight bytes: a row of twelve such texts is asked for eight times; no quotes neede,=a text of ninety-eight bytes: a row of twelve such texts is asked for eight times; no quotes neede,=a text of ninety-eight bytes: a row of twelve such texts is asked for eight times; no quotes neede\nget,0.0\nget,0.0\nget,0.0\nget,0.0\nget,0.0\nget,0.0\nget,0.0\nget,0.0\n",
            out: Out::Is(
                "1,ok\n2,ok,0.0\n3,ok,=a text of ninety-eight bytes: a row of twelve such texts is asked for eight times; no quotes neede,=a text of ninety-eight bytes: a row of twelve such texts is asked for eight times; no quotes neede,=a text of ninety-eight bytes: a row of twelve such texts is asked for eight times; no quotes neede,=a text of ninety-eight bytes: a row of twelve such texts is asked for eight times; no quotes neede,=a text of ninety-eight bytes: a row of twelve such texts is asked for eight times; no quotes neede,=a text of ninety-eight bytes: a row of twelve such texts is asked for eight times; no quotes neede,=a text of ninety-eight bytes: a row of twelve such texts is asked for eight times; no quotes neede,=a text of ninety-eight bytes: a row of twelve such texts is asked for eight times; no quotes neede,=a text of ninety-eight bytes: a row of twelve such texts is asked for eight times; no quotes neede,=a text of ninety-eight bytes: a row of twelve such texts is asked for eight times; no quotes neede,=a text of ninety-eight bytes: a row of twelve such texts is asked for eight times; no quotes neede,=a text of ninety-eight bytes: a row of twelve such texts is asked for eight times; no quotes neede\n4,ok,=a text of ninety-eight bytes: a row of twelve such texts is asked for eight times; no quotes neede,=a text of ninety-eight bytes: a row of twelve such texts is asked for eight times; no quotes neede,=a text of ninety-eight bytes: a row of twelve such texts is asked for eight times; no quotes neede,=a text of ninety-eight bytes: a row of twelve such texts is asked for eight times; no quotes neede,=a text of ninety-eight bytes: a row of twelve such texts is asked for eight times; no quotes neede,=a text of ninety-eight bytes: a row of twelve such texts is asked for eight times; no quotes neede,=a text of ninety-eight bytes: a row of twelve such texts is asked for eight times; no quotes neede,=a text of ninety-eight bytes: a row of twelve such texts is asked for eight times; no quotes neede,=a text of ninety-eight bytes: a row of twelve such texts is asked for eight times; no quotes neede,=a text of ninety-eight bytes: a row of twelve such texts is asked for eight times; no quotes neede,=a text of ninety-eight bytes: a row of twelve such texts is asked for eight times; no quotes neede,=a text of ninety-eight bytes: a row of twelve such texts is asked for eight times; no quotes neede\n5,ok,=a text of ninety-eight bytes: a row of twelve such texts is asked for eight times; no quotes neede,=a text of ninety-eight bytes: a row of twelve such texts is asked for eight times; no quotes neede,=a text of ninety-eight bytes: a row of twelve such texts is asked for eight times; no quotes neede,=a text of ninety-eight bytes: a row of twelve such texts is asked for eight times; no quotes neede,=a text of ninety-eight bytes: a row of twelve such texts is asked for eight times; no quotes neede,=a text of ninety-eight bytes: a row of twelve such texts is asked for eight times; no quotes neede,=a text of ninety-eight bytes: a row of twelve such texts is asked for eight times; no quotes neede,=a text of ninety-eight bytes: a row of twelve such texts is asked for eight times; no quotes neede,=a text of ninety-eight bytes: a row of twelve such texts is asked for eight times; no quotes neede,=a text of ninety-eight bytes: a row of twelve such texts is asked for eight times; no quotes neede,=a text of ninety-eight bytes: a row of twelve such texts is asked for eight times; no quotes neede,=a text of ninety-eight bytes: a row of twelve such texts is asked for eight times; no quotes neede\n6,ok,=a text of ninety-eight bytes: a row of twelve such texts is asked for eight times; no quotes neede,=a text of ninety-eight bytes: a row of twelve such texts is asked for eight times; no quotes neede,=a text of ninety-eight bytes: a row of twelve such texts is asked for eight times; no quotes neede,=a text of ninety-eight bytes: a row of twelve such texts is asked for eight times; no quotes neede,=a text of ninety-eight bytes: a row of twelve such texts is asked for eight times; no quotes neede,=a text of ninety-eight bytes: a row of twelve such texts is asked for eight times; no quotes neede,=a text of ninety-eight bytes: a row of twelve such texts is asked for eight times; no quotes neede,=a text of ninety-eight bytes: a row of twelve such texts is asked for eight times; no quotes neede,=a text of ninety-eight bytes: a row of twelve such texts is asked for eight times; no quotes neede,=a text of ninety-eight bytes: a row of twelve such texts is asked for eight times; no quotes neede,=a text of ninety-eight bytes: a row of twelve such texts is asked for eight times; no quotes neede,=a text of ninety-eight bytes: a row of twelve such texts is asked for eight times; no quotes neede\n7,ok,=a text of ninety-eight bytes: a row of twelve such texts is asked for eight times; no quotes neede,=a text of ninety-eight bytes: a row of twelve such texts is asked for eight times; no quotes neede,=a text of ninety-eight bytes: a row of twelve such texts is asked for eight times; no quotes neede,=a text of ninety-eight bytes: a row of twelve such texts is asked for eight times; no quotes neede,=a text of ninety-eight bytes: a row of twelve such texts is asked for eight times; no quotes neede,=a text of ninety-eight bytes: a row of twelve such texts is asked for eight times; no quotes neede,=a text of ninety-eight bytes: a row of twelve such texts is asked for eight times; no quotes neede,=a text of ninety-eight bytes: a row of twelve such texts is asked for eight times; no quotes neede,=a text of ninety-eight bytes: a row of twelve such texts is asked for eight times; no quotes neede,=a text of ninety-eight bytes: a row of twelve such texts is asked for eight times; no quotes neede,=a text of ninety-eight bytes: a row of twelve such texts is asked for eight times; no quotes neede,=a text of ninety-eight bytes: a row of twelve such texts is asked for eight times; no quotes neede\n8,ok,=a text of ninety-eight bytes: a row of twelve such texts is asked for eight times; no quotes neede,=a text of ninety-eight bytes: a row of twelve such texts is asked for eight times; no quotes neede,=a text of ninety-eight bytes: a row of twelve such texts is asked for eight times; no quotes neede,=a text of ninety-eight bytes: a row of twelve such texts is asked for eight times; no quotes neede,=a text of ninety-eight bytes: a row of twelve such texts is asked for eight times; no quotes neede,=a text of ninety-eight bytes: a row of twelve such texts is asked for eight times; no quotes neede,=a text of ninety-eight bytes: a row of twelve such texts is asked for eight times; no quotes neede,=a text of ninety-eight bytes: a row of twelve such texts is asked for eight times; no quotes neede,=a text of ninety-eight bytes: a row of twelve such texts is asked for eight times; no quotes neede,=a text of ninety-eight bytes: a row of twelve such texts is asked for eight times; no quotes neede,=a text of ninety-eight bytes: a row of twelve such texts is asked for eight times; no quotes neede,=a text of ninety-eight bytes: a row of twelve such texts is asked for eight times; no quotes neede\n9,ok,=a text of ninety-eight bytes: a row of twelve such texts is asked for eight times; no quotes neede,=a text of ninety-eight bytes: a row of twelve such texts is asked for eight times; no quotes neede,=a text of ninety-eight bytes: a row of twelve such texts is asked for eight times; no quotes neede,=a text of ninety-eight bytes: a row of twelve such texts is asked for eight times; no quotes neede,=a text of ninety-eight bytes: a row of twelve such texts is asked for eight times; no quotes neede,=a text of ninety-eight bytes: a row of twelve such texts is asked for eight times; no quotes neede,=a text of ninety-eight bytes: a row of twelve such texts is asked for eight times; no quotes neede,=a text of ninety-eight bytes: a row of twelve such texts is asked for eight times; no quotes neede,=a text of ninety-eight bytes: a row of twelve such texts is asked for eight times; no quotes neede,=a text of ninety-eight bytes: a row of twelve such texts is asked for eight times; no quotes neede,=a text of ninety-eight bytes: a row of twelve such texts is asked for eight times; no quotes neede,=a text of ninety-eight bytes: a row of twelve such texts is asked for eight times; no quotes neede\n10,ok,=a text of ninety-eight bytes: a row of twelve such texts is asked for eight times; no quotes neede,=a text of ninety-eight bytes: a row of twelve such texts is asked for eight times; no quotes neede,=a text of ninety-eight bytes: a row of twelve such texts is asked for eight times; no quotes neede,=a text of ninety-eight bytes: a row of twelve such texts is asked for eight times; no quotes neede,=a text of ninety-eight bytes: a row of twelve such texts is asked for eight times; no quotes neede,=a text of ninety-eight bytes: a row of twelve such texts is asked for eight times; no quotes neede,=a text of ninety-eight bytes: a row of twelve such texts is asked for eight times; no quotes neede,=a text of ninety-eight bytes: a row of twelve such texts is asked for eight times; no quotes neede,=a text of ninety-eight bytes: a row of twelve such texts is asked for eight times; no quotes neede,=a text of ninety-eight bytes: a row of twelve such texts is asked for eight times; no quotes neede,=a text of ninety-eight bytes: a row of twelve such texts is asked for eight times; no quotes neede,=a text of ninety-eight bytes: a row of twelve such texts is asked for eight times; no quotes neede\n",
            ),
            ..SCRIPT
        },
        piece: 256,
        least: Some((2, 38, 0)),
        ..OF_SCRIPTS
    },
    Story {
        run: Run {
            name: "a picture",
            task: Task::Picture,
            rest: b"table,1,int\n",
            out: Out::Draws(1, &[]),
            ..SCRIPT
        },
        piece: 100,
        least: Some((2, 3, 0)),
        unsent: "script: the picture can't be written\n",
        ..OF_SCRIPTS
    },
    Story {
        run: WAITS,
        least: Some((104, 229, 0)),
        unread: OF_A_CONVERSATION,
        unsent: "shell: an answer can't be written\n",
        is_early: true,
        ..OF_SCRIPTS
    },
    // What is told beside the answer changes nothing where it can't be written.
    Story {
        run: Run {
            name: "indexes of a file",
            task: Task::Index(&[
                "--columns",
                "a:int",
                "--on",
                "a",
                "--unique",
                "a",
                "--range",
                "..",
            ]),
            rest: b"a\n2\n1\n",
            out: Out::Is(
                "a: pairs: 2, levels: 1, ready\na: pairs: 2, levels: 1, unique, ready\nline,a\n3,1\n2,2\n",
            ),
            err: "rows read: 2, pages scanned: 1, pairs loaded: 4\na: pages leased at most: 1\na: pages leased at most: 1\n",
            ..SCRIPT
        },
        piece: 4,
        least: Some((2, 3, 3)),
        unread: OF_A_FILE,
        unsent: "sfbuild index: the answer can't be written\n",
        ..OF_SCRIPTS
    },
];
