//! A conversation, from its first record to its last.
ghost use Rattle.std.specs.Prelude.{◌≡◌, ◌≤◌, IfSome, IfOk, OnOk, MatchOption};
ghost use Rattle.replay.specs.Sessions.{state_of};
ghost use Rattle.shell.specs.Conversations.{EndsBefore, EndsFrom, EndsOn, Leaves, LeavesWith, MakesTable, TalksOn};

use crate::answering::{answer_before_table, answer_on_table};
use crate::before_table::BeforeTable;
use crate::counts::Counts;
use crate::failed::Failed;
use crate::input::Input;
use builder_core::{Parts, TableRings};
use leased_core::LeasedCore;
use replay::{Output, Session, Status};
use std::alloc::Global;
use std::io::{Read, Write};
use std::marker::Brand;

/// Answers each record of the reader at once, until a `quit` or the end, and shows a prompt before each line where there is one to show it on.
/// Answers the exit status: 1 where a switch refused an index, and 2 where the input could not be read or an answer not be written, which is
/// said on `err`.
pub fn shell<R: Read + Drop, W: Write + Drop, E: Write + Drop, P: Write + Drop>(
    alloc: Global,
    reader: R,
    out: W,
    err: E,
    prompt: Option<P>,
) -> u8
    ensures limit { result ≤ 2 }
    ensures status { IfSome (R.remaining reader) (λ text. LeavesWith text result) }
{
    match converse(alloc, reader, out, prompt) {
        Ok(status) => status as u8,
        Err(failed) => break_off(failed, err),
    }
}

/// Says why the conversation broke off, and answers the exit status.
fn break_off<E: Write + Drop>(failed: Failed, mut err: E) -> u8
    ensures { result ≡ 2 }
{
    let _ = writeln!(err, "shell: {failed}");
    Status::Failed as u8
}

/// Answers the records, and tells how it went.
fn converse<R: Read + Drop, W: Write + Drop, P: Write + Drop>(
    alloc: Global,
    reader: R,
    out: W,
    prompt: Option<P>,
) -> Result<Status, Failed>
    ensures { IfOk result (λ status. IfSome (R.remaining reader) (λ text. Leaves text status)) }
{
    let mut input = Input::new(alloc, reader, prompt)?;
    let mut output = Output::new(out);
    answer(alloc, &mut input, &mut output)
}

/// The same, of an input that has given nothing yet.
fn answer<R: Read + Drop, W: Write + Drop, P: Write + Drop>(
    alloc: Global,
    input: &mut Input<R, P>,
    output: &mut Output<W>,
) -> Result<Status, Failed>
    requires { input.old.given ≡ 0 }
    ensures { IfOk result (EndsFrom input.old) }
{
    match await_table(alloc, input, output)? {
        Some((slot_limit, parts)) => {
            let counts = Counts::new(slot_limit);
            use_table::<Brand, R, W, P>(alloc, parts, counts, input, output)
        }
        None => Ok(Status::Done),
    }
}

/// Answers records until a table is made. Answers its slot limit and its parts, or none where the conversation ends before.
fn await_table<R: Read + Drop, W: Write + Drop, P: Write + Drop>(
    alloc: Global,
    input: &mut Input<R, P>,
    output: &mut Output<W>,
) -> Result<Option<(u32, Parts)>, Failed>
    ensures { IfOk result (λ made. MatchOption made (EndsBefore input.old) (λ made. MakesTable input.old input.new made.0 made.1.heap)) }
{
    for _ in 0..u64::MAX {
        let Some(next) = input.next()? else {
            return Ok(None);
        };
        let answered = answer_before_table(alloc, next, output)?;
        output.flush()?;
        match answered {
            BeforeTable::NoTable => (),
            BeforeTable::Made { slot_limit, parts } => return Ok(Some((slot_limit, parts))),
            BeforeTable::Quits => return Ok(None),
        }
    }
    Err(Failed::CannotRead)
}

/// Gives the table a name, and answers records on it to the end. A build that runs then is given up, with its pages.
fn use_table<T: TableRings, R: Read + Drop, W: Write + Drop, P: Write + Drop>(
    alloc: Global,
    parts: Parts,
    mut counts: Counts,
    input: &mut Input<R, P>,
    output: &mut Output<W>,
) -> Result<Status, Failed>
    requires pages { parts.pages ≡ T.pages }
    requires sides { parts.sides ≡ T.sides }
    ensures { IfOk result (EndsOn input.old parts.heap) }
{
    let (live, ends) = parts.open::<T>();
    let mut leased = LeasedCore::new(alloc, live, ends);
    let mut session = Session::new(alloc);
    let answered = answer_all(alloc, &mut session, &mut leased, &mut counts, input, output);
    let _handed_back = leased.close();
    answered?;
    Ok(session.status())
}

fn answer_all<T: TableRings, R: Read + Drop, W: Write + Drop, P: Write + Drop>(
    alloc: Global,
    session: &mut Session,
    leased: &mut LeasedCore<T>,
    counts: &mut Counts,
    input: &mut Input<R, P>,
    output: &mut Output<W>,
) -> Result<(), Failed>
    ensures { OnOk result (TalksOn input.old (state_of leased.old session.old) (state_of leased.new session.new)) }
{
    for _ in 0..u64::MAX {
        let Some(next) = input.next()? else {
            return Ok(());
        };
        let goes_on = answer_on_table(alloc, session, leased, counts, next, output)?;
        output.flush()?;
        if !goes_on {
            return Ok(());
        }
    }
    Err(Failed::CannotRead)
}
