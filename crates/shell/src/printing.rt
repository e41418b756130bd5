//! The answers that only a shell gives, as they are printed.
use crate::build_line::BuildLine;
use crate::status_line::StatusLine;
use crate::wait::Wait;
use arrayvec::ArrayString;
use keybytes::Kind;
use replay::{Output, OutputFailed};
use std::fmt::{Display, Write as _};
use std::io::Write;

/// The most bytes of a text: what is wrong with a record, with a list of all commands and 40 characters of a field in escapes.
const TEXT_MAX: usize = 1_024;

/// A field that is made on the stack, and is longer than those of answers to commands.
pub fn print_text<W: Write + Drop, D: Display>(
    output: &mut Output<W>,
    value: &D,
) -> Result<(), OutputFailed> {
    let mut text: ArrayString<TEXT_MAX> = ArrayString::new();
    write!(text, "{value}")?;
    output.text(text.as_str())
}

/// Says what is wrong with a record.
pub fn print_bad<W: Write + Drop, D: Display>(
    output: &mut Output<W>,
    number: usize,
    wrong: &D,
) -> Result<(), OutputFailed> {
    output.fields(number, "bad")?;
    print_text(output, wrong)?;
    output.end()
}

/// Prints that so many lines follow.
pub fn print_count<W: Write + Drop>(
    output: &mut Output<W>,
    number: usize,
    lines: usize,
) -> Result<(), OutputFailed> {
    output.fields(number, "ok")?;
    output.field(lines)?;
    output.end()
}

/// Prints the answer to `status`.
pub fn print_status<W: Write + Drop>(
    output: &mut Output<W>,
    number: usize,
    lines: &[StatusLine<'_>],
) -> Result<(), OutputFailed> {
    print_count(output, number, lines.len())?;
    for line in lines {
        output.field(number)?;
        print_line(output, line)?;
        output.end()?;
    }
    Ok(())
}

fn print_line<W: Write + Drop>(
    output: &mut Output<W>,
    line: &StatusLine<'_>,
) -> Result<(), OutputFailed> {
    match line {
        StatusLine::NoTable => output.fields("table", "none"),
        StatusLine::Table {
            slot_limit,
            pages,
            records,
            open,
            kinds,
        } => {
            output.fields("table", *slot_limit)?;
            output.fields(*pages, *records)?;
            output.field(*open)?;
            print_kinds(output, kinds)
        }
        StatusLine::OfBuild(line) => print_build_line(output, line),
        StatusLine::Waits(wait) => {
            output.text("waits")?;
            print_wait(output, *wait)
        }
        StatusLine::Ready { number, pairs } => {
            output.fields("ready", *number)?;
            output.field(*pairs)
        }
    }
}

fn print_build_line<W: Write + Drop>(
    output: &mut Output<W>,
    line: &BuildLine,
) -> Result<(), OutputFailed> {
    match line {
        BuildLine::NoBuild => output.fields("build", "none"),
        BuildLine::Build {
            phase,
            scanned,
            pages,
        } => {
            output.fields("build", *phase)?;
            output.fields(*scanned, *pages)
        }
        BuildLine::Worker {
            worker,
            waiting,
            unsealed,
        } => {
            output.fields("worker", *worker)?;
            output.fields(*waiting, *unsealed)
        }
        BuildLine::Index {
            index,
            is_loaded,
            unfed,
            in_ring,
        } => {
            output.fields("index", *index)?;
            output.text(if *is_loaded { "loaded" } else { "unloaded" })?;
            output.fields(*unfed, *in_ring)
        }
    }
}

fn print_kinds<W: Write + Drop>(
    output: &mut Output<W>,
    kinds: &[Kind],
) -> Result<(), OutputFailed> {
    for kind in kinds {
        output.text(match kind {
            Kind::Int => "int",
            Kind::Text => "text",
            Kind::Flag => "flag",
        })?;
    }
    Ok(())
}

fn print_wait<W: Write + Drop>(output: &mut Output<W>, wait: Wait) -> Result<(), OutputFailed> {
    match wait {
        Wait::Spoiled(fault) => {
            output.text("abandon")?;
            output.fault(fault)
        }
        Wait::Pages(pages) => output.fields("pages", pages),
        Wait::Index(index) => output.fields("index", index),
        Wait::Worker(worker) => output.fields("worker", worker),
        Wait::Entries(entries) => output.fields("entries", entries),
        Wait::Transactions(transactions) => output.fields("transactions", transactions),
    }
}
