//! What sessions do, also in threads of their own, where nobody knows beforehand how they meet.

use crate::events::txn_of;
use crate::expected::{from_number, is_printed};
use crate::session_steps::session_answer;
use crate::watch::Watch;
use crate::writing::script_of;
use crew::{Opened, Phase, Receipt, Session, Table};
use keybytes::Fault;
use replay::Answer;
use script::{Command, Script};
use std::alloc::Global;
use std::sync::Wait;
use std::sync::atomic::Ordering;
use std::thread;

/// How often a session looks for an index before it gives up.
const LOOKS: usize = 1_000_000;

/// What a session does: a script a round, in which the numbers behind a `+` grow by one a round. A label that is a number
/// is that of its transaction, any other stands for the newest one.
pub struct Program {
    pub script: &'static str,
    /// How many rounds there are at most until an index is ready; 0 waits for none.
    pub beside: usize,
    /// The script of the rounds behind these, and how many there are.
    pub behind: &'static str,
    pub rounds: usize,
    /// What its records are answered, where that is known: else any answers will do that a transaction may get.
    pub answers: &'static str,
    /// Whether memory may run out once.
    pub is_short: bool,
    /// Whether each insert is refused since its key is another row's.
    pub is_denied: bool,
    /// Whether there is a round whenever a thread of the build asks for it, until the build has returned.
    pub is_asked: bool,
    /// Whether a build that tries its switch once more keeps it from beginning, so that it is told that.
    pub is_fenced: bool,
}

/// Nothing.
pub const IDLE: Program = Program {
    script: "",
    beside: 0,
    behind: "",
    rounds: 0,
    answers: "",
    is_short: false,
    is_denied: false,
    is_asked: false,
    is_fenced: false,
};

/// A session's transaction, by the answers that it got.
#[derive(Drop)]
struct Course {
    txn: u64,
    is_open: bool,
    /// Whether it is being undone.
    is_ending: bool,
    /// How many of its writes stand.
    writes: usize,
    /// Whether each insert is refused since its key is another row's.
    is_denied: bool,
}

impl Course {
    fn may_write(&self) -> bool {
        self.is_open && !self.is_ending
    }

    /// A step of a rollback takes the newest write back; where there is none it writes no record.
    fn undoes(&mut self, number: usize, left: usize) -> bool {
        let is_next = left == self.writes.saturating_sub(1) && (number > 0) == (self.writes > 0);
        let was_open = self.is_open;
        self.writes = left;
        self.is_ending = left > 0;
        self.is_open = left > 0;
        is_next && was_open
    }

    /// Whether a command may be refused so: another transaction holds the row, or has the key of the first index or may
    /// give it back.
    fn may_be_refused(&self, command: &Command, fault: Fault) -> bool {
        match (command, fault) {
            (_, Fault::NoSuchTxn) => !self.is_open,
            (_, Fault::TxnEnding) => self.is_open && self.is_ending,
            (Command::Update { .. }, Fault::RowHeld(other))
            | (Command::Insert { .. }, Fault::KeyHeld(0, other)) => {
                self.may_write() && other != self.txn && !self.is_denied
            }
            (Command::Insert { .. }, Fault::Duplicate(0, _)) => self.may_write(),
            _ => false,
        }
    }

    /// Whether a command may be answered so.
    fn is_answer(&mut self, command: &Command, told: &Answer) -> bool {
        match (command, told) {
            (Command::Begin { .. }, Answer::Number { number }) => {
                self.txn = *number;
                self.is_open = true;
                self.is_ending = false;
                self.writes = 0;
                true
            }
            (Command::Commit { .. }, Answer::Number { .. }) => {
                let was_open = self.may_write();
                self.is_open = false;
                was_open
            }
            (Command::Undo { .. }, Answer::Undone { number, left }) => self.undoes(*number, *left),
            (_, Answer::Written { .. }) => {
                self.writes = self.writes.saturating_add(1);
                self.may_write() && !self.is_denied
            }
            (command, Answer::Refused { fault }) => self.may_be_refused(command, *fault),
            _ => false,
        }
    }
}

/// The transaction that the label of a command is the number of; 0 where it is none.
fn txn_in(command: &Command) -> u64 {
    match command {
        Command::Insert { label, .. }
        | Command::Update { label, .. }
        | Command::Delete { label, .. }
        | Command::Undo { label }
        | Command::Commit { label } => txn_of(label, u64::MAX),
        _ => 0,
    }
}

/// What a session is answered, once a build lets it begin, unless it is to be told that one doesn't. What is refused for want of
/// memory is asked for once more where it may run out.
fn answer<T: Opened, R: Wait>(
    rt: &R,
    alloc: Global,
    session: &mut Session<'_, T>,
    receipts: &mut Vec<Receipt<T>>,
    txn: u64,
    command: &Command,
    program: &Program,
) -> Answer {
    let mut may_be_short = program.is_short;
    for _ in rt.forever() {
        match session_answer(rt, alloc, session, receipts, txn, command) {
            Err(Fault::Fenced) if !program.is_fenced => thread::yield_now(),
            Err(Fault::Memory) if may_be_short => may_be_short = false,
            Err(fault) => return Answer::Refused { fault },
            Ok(answer) => return answer,
        }
    }
    unreachable!()
}

/// Whether the session knows the log as far as the newest record that it answers.
fn has_seen<T: Opened>(session: &Session<'_, T>, answer: &Answer) -> bool {
    match answer {
        Answer::Written { number, .. } => session.seen() == *number,
        Answer::Undone { number, .. } if *number > 0 => session.seen() == *number,
        _ => true,
    }
}

/// Whether each record of a round is answered as it should be.
fn goes_round<T: Opened, R: Wait>(
    rt: &R,
    alloc: Global,
    session: &mut Session<'_, T>,
    receipts: &mut Vec<Receipt<T>>,
    script: &Script,
    program: &Program,
) -> bool {
    let mut course = Course {
        txn: 0,
        is_open: false,
        is_ending: false,
        writes: 0,
        is_denied: program.is_denied,
    };
    for record in &script.commands {
        let command = &record.command;
        let txn = txn_in(command).max(course.txn);
        let answer = answer(rt, alloc, session, receipts, txn, command, program);
        let is_so = if program.answers.is_empty() {
            course.is_answer(command, &answer)
        } else {
            let told = from_number(program.answers.as_bytes(), record.number);
            is_printed(record.number, &answer, told)
        };
        if !is_so || !has_seen(session, &answer) {
            return false;
        }
    }
    true
}

/// The same of the round of that number. What can't be read for want of memory is read once more.
fn does_round<T: Opened, R: Wait>(
    rt: &R,
    alloc: Global,
    session: &mut Session<'_, T>,
    receipts: &mut Vec<Receipt<T>>,
    program: &Program,
    records: &str,
    round: usize,
) -> bool {
    let script = match script_of(alloc, records, round) {
        Err(_) => script_of(alloc, records, round),
        script => script,
    };
    let goes = match script {
        Ok(script) => goes_round(rt, alloc, session, receipts, &script, program),
        Err(_) => false,
    };
    thread::yield_now();
    goes
}

/// Whether the rounds beside a build go well, some at most, until the first index is ready.
fn goes_beside<T: Opened, R: Wait>(
    rt: &R,
    alloc: Global,
    session: &mut Session<'_, T>,
    receipts: &mut Vec<Receipt<T>>,
    program: &Program,
) -> bool {
    for look in 0..LOOKS {
        if session.pairs(rt, alloc, 0).is_ok() {
            return true;
        }
        if look >= program.beside {
            thread::yield_now();
        } else if !does_round(rt, alloc, session, receipts, program, program.script, look) {
            return false;
        }
    }
    false
}

/// Whether the table tells that entries wait, and that its pages are being copied, that the first index is loaded, or that it is about to
/// catch up; or else that the
/// switch waited for a transaction, and is to be tried again.
fn is_asking<T: Opened, R: Wait>(rt: &R, table: &Table<T>, program: &Program) -> bool {
    let progress = table.progress(rt);
    if program.is_fenced {
        return progress.phase == Phase::CatchingUp && progress.tries == 2 && progress.busy == 1;
    }
    let is_where = match progress.phase {
        Phase::Scanning => progress.pages == 56 && progress.scanned > 0 && progress.loaded == 0,
        Phase::Loading => progress.scanned == 56 && progress.loaded == 1,
        Phase::CatchingUp => progress.tries == 1 && progress.loaded > 0,
        _ => false,
    };
    is_where && progress.entries > 0 && progress.waiting == 0
}

/// Whether the rounds go well for which somebody asks, until the build has returned.
fn goes_when_asked<T: Opened, R: Wait>(
    rt: &R,
    alloc: Global,
    table: &Table<T>,
    session: &mut Session<'_, T>,
    receipts: &mut Vec<Receipt<T>>,
    program: &Program,
    watch: &Watch,
) -> bool {
    for _ in rt.forever() {
        let next = watch.answered.load(Ordering::SeqCst).saturating_add(1);
        if next <= watch.asked.load(Ordering::SeqCst) {
            if !does_round(rt, alloc, session, receipts, program, program.behind, 0)
                || !is_asking(rt, table, program)
            {
                return false;
            }
            watch.answered.store(next, Ordering::SeqCst);
        } else if watch.is_over.load(Ordering::SeqCst) {
            return true;
        } else {
            thread::yield_now();
        }
    }
    unreachable!()
}

/// Whether a session does its program.
pub fn does<T: Opened, R: Wait>(
    rt: &R,
    alloc: Global,
    table: &Table<T>,
    session: &mut Session<'_, T>,
    receipts: &mut Vec<Receipt<T>>,
    program: &Program,
    watch: &Watch,
) -> bool {
    if program.is_asked {
        return goes_when_asked(rt, alloc, table, session, receipts, program, watch);
    }
    if program.beside > 0 && !goes_beside(rt, alloc, session, receipts, program) {
        return false;
    }
    for round in 0..program.rounds {
        if !does_round(rt, alloc, session, receipts, program, program.behind, round) {
            return false;
        }
    }
    true
}
