//! The answers to single records.
ghost use Rattle.std.specs.Prelude.{◌≡◌, [], ◌∷◌, true, false, IfOk, OnOk};
ghost use Rattle.replay.specs.Sessions.{state_of, Runs, RunsAll};
ghost use Rattle.shell.specs.Conversations.{AnswersTable, ComesBehind, CountsFollow, IsQuit, commands_told, line_in};
ghost use Rattle.shell.specs.Counting.{asked_by, counts_after};

use crate::asked::Asked;
use crate::before_table::BeforeTable;
use crate::complaint::Complaint;
use crate::counts::Counts;
use crate::failed::Failed;
use crate::help::{print_help, print_help_on};
use crate::numbered_record::NumberedRecord;
use crate::printing::{print_bad, print_status};
use crate::report::{no_table, report};
use crate::status_line::StatusLine;
use crate::word::Word;
use builder_core::TableRings;
use keybytes::Fault;
use leased_core::LeasedCore;
use replay::{Answer, Output, OutputFailed, Session, table_parts};
use script::{Command, Explanation, InputRecord, Line, RaceName};
use std::alloc::{AllocFailed, Global};
use std::io::Write;

/// The word that ends the conversation.
const QUIT: &str = "quit";

/// Answers a record while there is no table.
pub fn answer_before_table<W: Write + Drop>(
    alloc: Global,
    next: NumberedRecord,
    output: &mut Output<W>,
) -> Result<BeforeTable, Failed>
    ensures { IfOk result (ComesBehind next.record) }
{
    let NumberedRecord { number, record } = next;
    match record {
        InputRecord::Good(line) => return answer_line(alloc, number, line, output),
        InputRecord::Bad(explanation) => print_bad(output, number, &explanation)?,
        InputRecord::Word(text) => {
            if text.as_str() == QUIT {
                output.print(number, &Answer::Done)?;
                return Ok(BeforeTable::Quits);
            }
            if asks_for_status(number, text, output)? {
                print_lines(number, no_table(alloc), output)?;
            }
        }
    }
    Ok(BeforeTable::NoTable)
}

/// Answers a line of a script while there is no table.
fn answer_line<W: Write + Drop>(
    alloc: Global,
    number: usize,
    line: Line,
    output: &mut Output<W>,
) -> Result<BeforeTable, Failed>
    ensures { IfOk result (ComesBehind (InputRecord.Good line)) }
{
    match line {
        Line::PassedOver => (),
        Line::Table(table) => {
            let (answer, behind) = make_table(alloc, table);
            output.print(number, &answer)?;
            return Ok(behind);
        }
        Line::Command(_command) => print_bad(output, number, &Complaint::NoTable)?,
    }
    Ok(BeforeTable::NoTable)
}

/// Makes a table, or tells why it is refused.
fn make_table(alloc: Global, table: script::Table) -> (Answer, BeforeTable)
    ensures { AnswersTable table result.0 result.1 }
{
    let slot_limit = table.slot_limit;
    match table_parts(alloc, table) {
        Ok(parts) => (Answer::Done, BeforeTable::Made { slot_limit, parts }),
        Err(fault) => (Answer::Refused { fault }, BeforeTable::NoTable),
    }
}

/// Answers a record on a table, and tells whether the conversation goes on.
pub fn answer_on_table<T: TableRings, W: Write + Drop>(
    alloc: Global,
    session: &mut Session,
    leased: &mut LeasedCore<T>,
    counts: &mut Counts,
    next: NumberedRecord,
    output: &mut Output<W>,
) -> Result<bool, Failed>
    ensures run { OnOk result (RunsAll (state_of leased.old session.old) (commands_told next.number (next.record ∷ [])) (state_of leased.new session.new)) }
    ensures counts { OnOk result (CountsFollow (line_in next.record)
        (state_of leased.old session.old) counts.old (state_of leased.new session.new) counts.new) }
    ensures goes_on { result ≡ Ok true → ¬ (IsQuit next.record) }
    ensures quits { result ≡ Ok false → IsQuit next.record }
{
    let NumberedRecord { number, record } = next;
    match record {
        InputRecord::Good(Line::PassedOver) => (),
        InputRecord::Good(Line::Table(_table)) => print_bad(
            output,
            number,
            &Explanation::Misplaced(RaceName::Table),
        )?,
        InputRecord::Good(Line::Command(command)) => {
            let answer = answer_command(session, leased, counts, command);
            output.print(number, &answer)?;
        }
        InputRecord::Bad(explanation) => print_bad(output, number, &explanation)?,
        InputRecord::Word(text) => {
            if text.as_str() == QUIT {
                output.print(number, &Answer::Done)?;
                return Ok(false);
            }
            if asks_for_status(number, text, output)? {
                print_lines(number, report(alloc, leased.core(), counts), output)?;
            }
        }
    }
    Ok(true)
}

/// Runs a command, and notes what it is answered.
fn answer_command<T: TableRings>(
    session: &mut Session,
    leased: &mut LeasedCore<T>,
    counts: &mut Counts,
    command: Command,
) -> Answer
    ensures run { Runs (state_of leased.old session.old) command result (state_of leased.new session.new) }
    ensures counts { counts.new ≡ counts_after counts.old (asked_by command) result }
{
    let asked = Asked::of(&command);
    let answer = session.run(leased, command);
    counts.note(asked, &answer);
    answer
}

/// Answers a word that asks for help or is unknown, and tells whether it asks for the status, which is still to be answered then.
fn asks_for_status<W: Write + Drop>(
    number: usize,
    text: String,
    output: &mut Output<W>,
) -> Result<bool, OutputFailed> {
    match Word::read(text.as_str()) {
        Some(Word::Status) => return Ok(true),
        Some(Word::Help) => print_help(output, number)?,
        Some(Word::HelpOn(name)) => print_help_on(output, number, name)?,
        None => print_bad(output, number, &Complaint::UnknownWord(text))?,
    }
    Ok(false)
}

/// Prints the answer to `status`, or that there was no memory for it.
fn print_lines<W: Write + Drop>(
    number: usize,
    lines: Result<Vec<StatusLine<'_>>, AllocFailed<StatusLine<'_>>>,
    output: &mut Output<W>,
) -> Result<(), OutputFailed> {
    match lines {
        Ok(lines) => print_status(output, number, lines.as_slice()),
        Err(_) => output.print(
            number,
            &Answer::Refused {
                fault: Fault::Memory,
            },
        ),
    }
}
