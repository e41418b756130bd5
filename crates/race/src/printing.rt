//! How a race went, as it is printed.

use crate::check_line::CheckLine;
use crate::outcome::Outcome;
use crate::race_report::RaceReport;
use crate::session_line::SessionLine;
use heap_log::Outcome as Verdict;
use keybytes::Fault;
use replay::{Output, OutputFailed, SharedLine};
use std::io::Write;

/// Prints what became of the indexes, the sessions, the checks, and what is missing.
pub fn print<W: Write + Drop>(
    output: &mut Output<W>,
    report: &RaceReport,
) -> Result<(), OutputFailed> {
    match &report.build {
        Ok(outcome) => print_outcome(output, outcome)?,
        Err(fault) => print_fault(output, *fault)?,
    }
    for line in &report.sessions {
        print_session(output, *line)?;
    }
    for (number, line) in report.checks.iter().enumerate() {
        print_check(output, number, *line)?;
    }
    print_count(output, "receipts", report.receipts)?;
    print_count(output, "pages", report.pages)
}

fn print_outcome<W: Write + Drop>(
    output: &mut Output<W>,
    outcome: &Outcome,
) -> Result<(), OutputFailed> {
    let mut shared = outcome.shared.as_slice();
    for (index, verdict) in outcome.verdicts.as_slice().iter().enumerate() {
        output.fields("verdict", index)?;
        match verdict {
            Verdict::Ready(number) => output.field(format_args!("ready:{number}"))?,
            Verdict::Shared { .. } => {
                output.text("shared")?;
                if let Some((line, rest)) = shared.split_first() {
                    print_shared(output, line)?;
                    shared = rest;
                }
            }
        }
        output.end()?;
    }
    Ok(())
}

/// The key that two rows share, and where these stand.
fn print_shared<W: Write + Drop>(
    output: &mut Output<W>,
    line: &SharedLine,
) -> Result<(), OutputFailed> {
    output.cells(line.cells.as_slice())?;
    output.fields(line.first, line.second)
}

fn print_fault<W: Write + Drop>(output: &mut Output<W>, fault: Fault) -> Result<(), OutputFailed> {
    output.text("fault")?;
    output.fault(fault)?;
    output.end()
}

fn print_session<W: Write + Drop>(
    output: &mut Output<W>,
    line: SessionLine,
) -> Result<(), OutputFailed> {
    output.fields("session", line.session)?;
    output.fields(line.accepted, line.refused)?;
    output.end()
}

fn print_check<W: Write + Drop>(
    output: &mut Output<W>,
    number: usize,
    line: CheckLine,
) -> Result<(), OutputFailed> {
    output.fields("check", number)?;
    match line {
        CheckLine::Same => output.text("same")?,
        CheckLine::Differs => output.text("differs")?,
        CheckLine::Refused(fault) => {
            output.text("refused")?;
            output.fault(fault)?;
        }
    }
    output.end()
}

fn print_count<W: Write + Drop>(
    output: &mut Output<W>,
    name: &str,
    count: usize,
) -> Result<(), OutputFailed> {
    output.fields(name, count)?;
    output.end()
}
