//! A script, run from its first command to its last, and looked at meanwhile.
ghost use Rattle.std.specs.Prelude.{◌≡◌, ◌≤◌, IfSome, OnOk, IfOk};
ghost use Rattle.replay.specs.Sessions.{state_of, EndsWith, ExitsWith, RunsAll, RunsNext, RunsOn};

use crate::failure::Failure;
use crate::lanes::Lanes;
use crate::records::record_texts;
use crate::story::Story;
use crate::timeline_svg::{PictureError, ROWS_MAX, svg};
use builder_core::{Parts, TableRings};
use keybytes::Fault;
use leased_core::LeasedCore;
use replay::{Session, Status, refuse, table_parts};
use script::{NumberedCommand, Script, read_text};
use std::alloc::Global;
use std::io::{Read, Write};
use std::marker::Brand;

/// Runs the script that the reader gives, and writes a picture of that to `out`, under that title. A script that can't be run, and one of more
/// records than a picture has rows, is named on `err`, and then nothing is written to `out`. Answers the exit status.
pub fn picture<R: Read + Drop, W: Write + Drop, E: Write + Drop>(
    alloc: Global,
    title: &str,
    mut reader: R,
    out: W,
    err: E,
) -> u8
    ensures limit { result ≤ 2 }
    ensures status { IfSome (R.remaining reader) (λ text. ExitsWith text result) }
{
    let text = match read_text(alloc, &mut reader) {
        Ok(text) => text,
        Err(error) => return refuse(error, err),
    };
    let script = match Script::parse(alloc, text.as_slice()) {
        Ok(script) => script,
        Err(error) => return refuse(error, err),
    };
    match run(alloc, title, text.as_slice(), script, out) {
        Ok(status) => status as u8,
        Err(failure) => refuse(failure, err),
    }
}

/// What a picture of the script of that path is called: the last name of the path, or what stands for the standard input.
pub fn title(path: &str) -> &str {
    match path.rsplit_once('/') {
        Some((_, name)) => name,
        None if path == "-" => "standard input",
        None => path,
    }
}

/// Runs a script on a table of its own, writes the picture of that, and answers how it went.
fn run<W: Write + Drop>(
    alloc: Global,
    title: &str,
    text: &[u8],
    script: Script,
    mut out: W,
) -> Result<Status, Failure>
    ensures { IfOk result (EndsWith script.table script.commands.items) }
{
    let records = script.commands.len().saturating_add(1);
    if records > ROWS_MAX {
        return Err(Failure::Picture(PictureError::TooManyRows(records)));
    }
    let lanes = Lanes::of(alloc, &script.commands)?;
    let mut story = Story::new(alloc, lanes, record_texts(alloc, text)?)?;
    let status = see(alloc, script, &mut story)?;
    write_picture(alloc, title, story, &mut out)?;
    Ok(status)
}

fn write_picture<W: Write>(
    alloc: Global,
    title: &str,
    story: Story,
    out: &mut W,
) -> Result<(), Failure> {
    let timeline = story.into_timeline(title)?;
    let drawing = svg(alloc, &timeline)?;
    out.write_all(drawing.as_bytes())?;
    out.flush()?;
    Ok(())
}

/// Runs a script, and looks at the table meanwhile. A table that is refused is the one row.
fn see(alloc: Global, script: Script, story: &mut Story) -> Result<Status, Failure>
    ensures { IfOk result (EndsWith script.table script.commands.items) }
{
    let Script {
        table_number: _,
        table,
        commands,
    } = script;
    match table_parts(alloc, table) {
        Ok(parts) => run_table::<Brand>(alloc, parts, commands, story),
        Err(fault) => refuse_table(fault, story),
    }
}

fn refuse_table(fault: Fault, story: &mut Story) -> Result<Status, Failure>
    ensures { IfOk result (λ status. status ≡ Status.Failed) }
{
    story.table(Some(fault))?;
    Ok(Status::Failed)
}

/// Gives the table a name, and runs the commands on it.
fn run_table<T: TableRings>(
    alloc: Global,
    parts: Parts,
    commands: Vec<NumberedCommand>,
    story: &mut Story,
) -> Result<Status, Failure>
    requires pages { parts.pages ≡ T.pages }
    requires sides { parts.sides ≡ T.sides }
    ensures { IfOk result (RunsOn parts.heap commands.items) }
{
    let (live, ends) = parts.open::<T>();
    let mut leased = LeasedCore::new(alloc, live, ends);
    let mut session = Session::new(alloc);
    let seen = run_all(&mut session, &mut leased, commands, story);
    let _handed_back = leased.close();
    seen?;
    Ok(session.status())
}

fn run_all<T: TableRings>(
    session: &mut Session,
    leased: &mut LeasedCore<T>,
    commands: Vec<NumberedCommand>,
    story: &mut Story,
) -> Result<(), Failure>
    ensures { OnOk result (RunsAll (state_of leased.old session.old) commands.items (state_of leased.new session.new)) }
{
    story.table(None)?;
    for command in commands {
        run_next(session, leased, command, story)?;
    }
    Ok(())
}

/// Runs the next command, and looks at the table before and behind it.
fn run_next<T: TableRings>(
    session: &mut Session,
    leased: &mut LeasedCore<T>,
    command: NumberedCommand,
    story: &mut Story,
) -> Result<(), Failure>
    ensures { OnOk result (RunsNext (state_of leased.old session.old) command (state_of leased.new session.new)) }
{
    let deed = story.before(leased.core(), &command.command)?;
    let answer = session.run(leased, command.command);
    story.after(leased.core(), &deed, &answer)
}
