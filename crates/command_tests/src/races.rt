//! Scripts of races, and what is wrong with bad ones, in words.

use crate::run::{Out, Run, SCRIPT};
use crate::task::Task;

/// A race, with remarks.
const GOOD: Run = Run {
    name: "a race is good",
    task: Task::Check,
    rest: b"# a race\ntable,4,int\nrow,5\nbuild,4,even:2,n:0,u:0\nrow,6\n#\ngo\nin,1,begin,A\nin,8,begin,A\nin,1,insert,A,5\n\
    in,1,update,A,0.0,~\nin,8,delete,A,0.1\nin,8,undo,A\nin,1,commit,A\n",
    out: Out::Is("script: 14 records, all good\n"),
    ..SCRIPT
};

/// The runs of this file.
pub fn runs() -> &'static [Run] {
    &RUNS
}

static RUNS: [Run; 3] = [
    GOOD,
    Run {
        name: "a race is good as a race",
        task: Task::CheckRace,
        ..GOOD
    },
    Run {
        name: "a race is no script to replay",
        task: Task::Replay,
        out: Out::Is(""),
        err: "script: record 4 is bad\n",
        status: 2,
        ..GOOD
    },
];

/// Bad scripts of races, each with what a check says of it.
pub static EXPLAINED: [(&[u8], &str); 26] = [
    (
        b"table,4,int\nbuild,4,even:1,n:0\nbuild,4,even:1,n:0\ngo\n",
        "script: record 3 is bad: a build comes before go, and only once\n",
    ),
    (
        b"table,4,int\nbuild,4,even:1,n:0\ngo\nrow,1\n",
        "script: record 4 is bad: rows come before go\n",
    ),
    (
        b"table,4,int\nbuild,4,even:1,n:0\ngo\nbuild,4,even:1,n:0\n",
        "script: record 4 is bad: a build comes before go, and only once\n",
    ),
    (
        b"table,4,int\nbuild,4,even:1,n:0\nin,1,begin,A\ngo\n",
        "script: record 3 is bad: what sessions do comes behind go\n",
    ),
    (
        b"table,4,int\nbuild,4,even:1,n:0\ngo\n#\ngo\n",
        "script: record 5 is bad: go comes only once\n",
    ),
    (
        b"table,4,int\nbuild,4,even:1,n:0\ngo\ntable,4,int\n",
        "script: record 4 is bad: a table comes first, and only once\n",
    ),
    (
        b"build,4,even:1,n:0\ntable,4,int\n",
        "script: record 2 is bad: a table comes first, and only once\n",
    ),
    (
        b"table,4,int\ngo\n",
        "script: record 3 is bad: a record is missing (build,Q,DEALING,SPEC,..)\n",
    ),
    (
        b"table,4,int\nbuild,4,even:1,n:0\n",
        "script: record 3 is bad: a record is missing (go)\n",
    ),
    (
        b"build,4,even:1,n:0\ngo\n",
        "script: record 3 is bad: a record is missing (table,L,KIND,..)\n",
    ),
    (
        b"table,4,int\nbuild,4,even:1,n:0\ngo\nin,9,begin,A\n",
        "script: record 4 is bad: field 2, \"9\", is no session (1 to 8)\n",
    ),
    (
        b"table,4,int\nbuild,4,even:1,n:0\ngo\nin,0,begin,A\n",
        "script: record 4 is bad: field 2, \"0\", is no session (1 to 8)\n",
    ),
    (
        b"table,4,int\nbuild,4,even:1,n:0\ngo\nin,1,get,0.0\n",
        "script: record 4 is bad: field 3, \"get\", is no command of a session (begin, insert, update, delete, commit or undo)\n",
    ),
    (
        b"table,4,int\nbuild,4,even:1,n:0\ngo\nin,1,#\n",
        "script: record 4 is bad: field 3, \"#\", is no command of a session (begin, insert, update, delete, commit or undo)\n",
    ),
    (
        b"table,4,int\nbuild,4,even:1,n:0\ngo\nin\n",
        "script: record 4 is bad: it has too few fields (in,S,COMMAND,..)\n",
    ),
    (
        b"table,4,int\nbuild,4,even:1,n:0\ngo\nin,1\n",
        "script: record 4 is bad: it has too few fields (in,S,COMMAND,..)\n",
    ),
    (
        b"table,4,int\nbuild,4,even:1,n:0\ngo\nin,1,begin\n",
        "script: record 4 is bad: it has too few fields (in,S,begin,A)\n",
    ),
    (
        b"table,4,int\nbuild,4,even:1,n:0\ngo\nin,1,commit,A,B\n",
        "script: record 4 is bad: it has too many fields (in,S,commit,A)\n",
    ),
    (
        b"table,4,int\nbuild,4,even:1,n:0\ngo\nin,1,insert,A,x\n",
        "script: record 4 is bad: field 5, \"x\", is no cell (~, a number, =text, true or false)\n",
    ),
    (
        b"table,4,int\nbuild,4,even:1,n:0\ngo,1\n",
        "script: record 3 is bad: it has too many fields (go)\n",
    ),
    (
        b"table,4,int\nbuild,4,even:1\n",
        "script: record 2 is bad: it has too few fields (build,Q,DEALING,SPEC,..)\n",
    ),
    (
        b"table,4,int\nbuild,x,even:1,n:0\n",
        "script: record 2 is bad: field 2, \"x\", is no number (decimal digits, at most 4294967295)\n",
    ),
    (
        b"table,4,int\nbuild,4,even:1,n:0\ngo\nspools,mixed\n",
        "script: record 4 is bad: the kind of spools comes before go, and only once\n",
    ),
    (
        b"table,4,int\nspools,mixed\nrow,1\nspools,mixed\nbuild,4,even:1,n:0\ngo\n",
        "script: record 4 is bad: the kind of spools comes before go, and only once\n",
    ),
    (
        b"table,4,int\nbuild,4,even:1,n:0\nspools,flat\ngo\n",
        "script: record 3 is bad: field 2, \"flat\", is no kind of spools (plain, prefix or mixed)\n",
    ),
    (
        b"table,4,int\nbuild,4,even:1,n:0\ngo\nin,1,insert,A,=\xff\n",
        "script: record 4 is bad: it is not UTF-8\n",
    ),
];

/// The same of scripts with neither a build nor `go` before what is wrong, where they are known to be races.
pub static EXPLAINED_AS_RACES: [(&[u8], &str); 4] = [
    (
        b"table,4,int\nfly\n",
        "script: record 2 is bad: field 1, \"fly\", is no command (table, row, spools, build, go or in)\n",
    ),
    (
        b"table,4,int\nstart,1,4,even:1,n:0\n",
        "script: record 2 is bad: field 1, \"start\", is no command (table, row, spools, build, go or in)\n",
    ),
    (
        b"table,4,int\nrow,1\n",
        "script: record 3 is bad: a record is missing (build,Q,DEALING,SPEC,..)\n",
    ),
    (
        b"",
        "script: record 1 is bad: a record is missing (table,L,KIND,..)\n",
    ),
];
