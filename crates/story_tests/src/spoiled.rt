//! What a story comes to where its build is given up.

use crate::expected::from_number;
use crate::made::Made;
use crate::stand::Stand;
use crate::turns::Turn;
use crate::writing::script_of;
use builder_core::TableRings;
use keybytes::Fault;
use replay::Answer;

/// Each kind of work, before and behind an abandon, of which there is one.
const WORK: &str = "table,1,int
scan,0,0
digest,0
seal,0
load,0
apply,0,1
switch
abandon
abandon
scan,0,0
digest,0
seal,0
load,0
apply,0,1
switch
";

const NO_PAGE: &str = "2,refused,51,NoPage
3,refused,51,NoPage
4,refused,51,NoPage
5,refused,51,NoPage
6,refused,51,NoPage
7,refused,51,NoPage
8,ok
8,pages,0
9,refused,41,NoBuild
10,refused,41,NoBuild
11,refused,41,NoBuild
12,refused,41,NoBuild
13,refused,41,NoBuild
14,refused,41,NoBuild
15,refused,41,NoBuild
";

const MEMORY: &str = "2,refused,60,Memory
3,refused,60,Memory
4,refused,60,Memory
5,refused,60,Memory
6,refused,60,Memory
7,refused,60,Memory
8,ok
8,pages,0
9,refused,41,NoBuild
10,refused,41,NoBuild
11,refused,41,NoBuild
12,refused,41,NoBuild
13,refused,41,NoBuild
14,refused,41,NoBuild
15,refused,41,NoBuild
";

pub fn is_refused_for(answer: &Answer, fault: Fault) -> bool {
    matches!(answer, Answer::Refused { fault: told } if *told == fault)
}

/// Whether records are answered so, and the core is as it is told behind each.
pub fn tells<S: Made, T: TableRings>(
    stand: &mut Stand<S, T>,
    records: &str,
    answers: &str,
) -> bool {
    let Ok(script) = script_of(stand.alloc, records, 0) else {
        return false;
    };
    for record in &script.commands {
        let turn = Turn {
            number: record.number,
            command: &record.command,
            told: from_number(answers.as_bytes(), record.number),
        };
        if !turn.is_told(&stand.answer(turn.command)) || !stand.is_as_told() {
            return false;
        }
    }
    true
}

/// Whether the build is spoiled by that fault until it is abandoned, and leaves neither an index nor a page.
pub fn gives_up<S: Made, T: TableRings>(stand: &mut Stand<S, T>, fault: Fault) -> bool {
    tells(
        stand,
        WORK,
        if fault == Fault::NoPage {
            NO_PAGE
        } else {
            MEMORY
        },
    )
}

/// Whether an abandon is refused exactly where no build runs.
pub fn is_stopped<S: Made, T: TableRings>(stand: &mut Stand<S, T>) -> bool {
    let told = if stand.is_running {
        "2,ok
2,pages,0
"
    } else {
        "2,refused,41,NoBuild
"
    };
    tells(
        stand,
        "table,1,int
abandon
",
        told,
    )
}
