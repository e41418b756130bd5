//! What is said of a script as a whole.
ghost use Rattle.std.specs.Prelude.{◌≡◌, ◌⊎◌, ℕ, IfOk, IfSome, MatchResult};
ghost use Rattle.script.specs.RaceScripts.{AreGoodOfRace};
ghost use Rattle.replay.specs.Checks.{IsGood};
ghost use Rattle.replay.specs.Sessions.{number_of};

use crate::output_failed::OutputFailed;
use crate::status::Status;
use script::{RaceScript, Script, read_text};
use std::alloc::Global;
use std::fmt;
use std::io::{self, Read, Write};

/// Looks at the script that the reader gives, and runs nothing: a script to be replayed, or a race where it has a record `build` or `go`.
/// Says on `out` how many records it has where all are good, or on `err` what is wrong with the first bad one. Answers the exit status.
pub fn check<R: Read + Drop, W: Write + Drop, E: Write + Drop>(
    alloc: Global,
    mut reader: R,
    out: W,
    err: E,
) -> u8
    ensures status { (result ≡ 0) ⊎ (result ≡ 2) }
    ensures good { IfSome (R.remaining reader) (λ text. result ≡ 0 → IsGood text) }
{
    match read_text(alloc, &mut reader) {
        Ok(text) => check_text(alloc, text.as_slice(), out, err),
        Err(error) => refuse(error, err),
    }
}

/// The same of the script of a race.
pub fn check_race<R: Read + Drop, W: Write + Drop, E: Write + Drop>(
    alloc: Global,
    mut reader: R,
    out: W,
    err: E,
) -> u8
    ensures status { (result ≡ 0) ⊎ (result ≡ 2) }
    ensures good { IfSome (R.remaining reader) (λ text. result ≡ 0 → (count : ℕ) × AreGoodOfRace text count) }
{
    match read_text(alloc, &mut reader) {
        Ok(text) => check_race_text(alloc, text.as_slice(), out, err),
        Err(error) => refuse(error, err),
    }
}

fn check_text<W: Write + Drop, E: Write + Drop>(alloc: Global, text: &[u8], out: W, err: E) -> u8
    ensures status { (result ≡ 0) ⊎ (result ≡ 2) }
    ensures good { result ≡ 0 → IsGood text.now }
{
    match Script::check(alloc, text) {
        Ok(count) => exit_status(approve(count, out)),
        Err(error) if error.is_of_race() => check_race_text(alloc, text, out, err),
        Err(error) => refuse(error, err),
    }
}

fn check_race_text<W: Write + Drop, E: Write + Drop>(
    alloc: Global,
    text: &[u8],
    out: W,
    err: E,
) -> u8
    ensures status { (result ≡ 0) ⊎ (result ≡ 2) }
    ensures good { result ≡ 0 → (count : ℕ) × AreGoodOfRace text.now count }
{
    match RaceScript::check(alloc, text) {
        Ok(count) => exit_status(approve(count, out)),
        Err(error) => refuse(error, err),
    }
}

/// Says that so many records are good.
fn approve<W: Write + Drop>(count: usize, mut out: W) -> Result<Status, OutputFailed>
    ensures { IfOk result (λ status. status ≡ Status.Done) }
{
    match write_approval(count, &mut out) {
        Ok(()) => Ok(Status::Done),
        Err(_) => Err(OutputFailed),
    }
}

/// What was to be said, as an exit status: 2 where it couldn't be written.
fn exit_status(said: Result<Status, OutputFailed>) -> u8
    ensures { MatchResult said (λ status. result ≡ number_of status) (λ _. result ≡ 2) }
{
    match said {
        Ok(status) => status as u8,
        Err(OutputFailed) => Status::Failed as u8,
    }
}

/// Says why the script can't be run, and answers the exit status.
pub fn refuse<D: fmt::Display + Drop, E: Write + Drop>(error: D, mut err: E) -> u8
    ensures { result ≡ 2 }
{
    let _ = writeln!(err, "script: {error}");
    Status::Failed as u8
}

fn write_approval<W: Write>(count: usize, out: &mut W) -> io::Result<()> {
    writeln!(out, "script: {count} records, all good")?;
    out.flush()
}
