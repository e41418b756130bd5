//! A script, run from its first command to its last in one thread.
ghost use Rattle.std.specs.Prelude.{◌≡◌, ◌≤◌, IfSome, OnOk, IfOk};
ghost use Rattle.replay.specs.Sessions.{state_of, EndsWith, ExitsWith, RunsAll, RunsNext, RunsOn};

use crate::answer::Answer;
use crate::output::Output;
use crate::output_failed::OutputFailed;
use crate::parts::table_parts;
use crate::report::refuse;
use crate::session::Session;
use crate::status::Status;
use builder_core::{Parts, TableRings};
use keybytes::Fault;
use leased_core::LeasedCore;
use script::{NumberedCommand, Script};
use std::alloc::Global;
use std::io::{Read, Write};
use std::marker::Brand;

/// Runs the script that the reader gives, and prints the answers to `out`. A script that can't be run is named on
/// `err`, and then nothing is printed to `out`. Answers the exit status.
pub fn replay<R: Read + Drop, W: Write + Drop, E: Write + Drop>(
    alloc: Global,
    mut reader: R,
    out: W,
    err: E,
) -> u8
    ensures limit { result ≤ 2 }
    ensures status { IfSome (R.remaining reader) (λ text. ExitsWith text result) }
{
    let script = match Script::read(alloc, &mut reader) {
        Ok(script) => script,
        Err(error) => return refuse(error, err),
    };
    match run(alloc, script, out) {
        Ok(status) => status as u8,
        Err(OutputFailed) => Status::Failed as u8,
    }
}

/// Runs a script on a table of its own, and answers how it went.
fn run<W: Write + Drop>(alloc: Global, script: Script, out: W) -> Result<Status, OutputFailed>
    ensures { IfOk result (EndsWith script.table script.commands.items) }
{
    let mut output = Output::new(out);
    let status = answer(alloc, script, &mut output)?;
    output.flush()?;
    Ok(status)
}

/// Answers the table and the commands. Where the table is refused, that is the one answer.
fn answer<W: Write + Drop>(
    alloc: Global,
    script: Script,
    output: &mut Output<W>,
) -> Result<Status, OutputFailed>
    ensures { IfOk result (EndsWith script.table script.commands.items) }
{
    let Script {
        table_number,
        table,
        commands,
    } = script;
    match table_parts(alloc, table) {
        Ok(parts) => answer_table::<Brand, W>(alloc, parts, table_number, commands, output),
        Err(fault) => refuse_table(table_number, fault, output),
    }
}

/// Answers that the table is refused.
pub fn refuse_table<W: Write + Drop>(
    number: usize,
    fault: Fault,
    output: &mut Output<W>,
) -> Result<Status, OutputFailed>
    ensures { IfOk result (λ status. status ≡ Status.Failed) }
{
    output.print(number, &Answer::Refused { fault })?;
    Ok(Status::Failed)
}

/// Gives the table a name, answers that it is made, and then the commands.
fn answer_table<T: TableRings, W: Write + Drop>(
    alloc: Global,
    parts: Parts,
    number: usize,
    commands: Vec<NumberedCommand>,
    output: &mut Output<W>,
) -> Result<Status, OutputFailed>
    requires pages { parts.pages ≡ T.pages }
    requires sides { parts.sides ≡ T.sides }
    ensures { IfOk result (RunsOn parts.heap commands.items) }
{
    output.print(number, &Answer::Done)?;
    let (live, ends) = parts.open::<T>();
    let mut leased = LeasedCore::new(alloc, live, ends);
    let mut session = Session::new(alloc);
    let answered = answer_all(&mut session, &mut leased, commands, output);
    let _handed_back = leased.close();
    answered?;
    Ok(session.status())
}

fn answer_all<T: TableRings, W: Write + Drop>(
    session: &mut Session,
    leased: &mut LeasedCore<T>,
    commands: Vec<NumberedCommand>,
    output: &mut Output<W>,
) -> Result<(), OutputFailed>
    ensures { OnOk result (RunsAll (state_of leased.old session.old) commands.items (state_of leased.new session.new)) }
{
    for command in commands {
        answer_next(session, leased, command, output)?;
    }
    Ok(())
}

fn answer_next<T: TableRings, W: Write + Drop>(
    session: &mut Session,
    leased: &mut LeasedCore<T>,
    command: NumberedCommand,
    output: &mut Output<W>,
) -> Result<(), OutputFailed>
    ensures { RunsNext (state_of leased.old session.old) command (state_of leased.new session.new) }
{
    let answer = session.run(leased, command.command);
    output.print(command.number, &answer)
}
