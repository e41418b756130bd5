//! The texts of stories, written out and read.

use keybytes::Fault;
use script::{Command, NumberedCommand, Script, Start};
use std::alloc::Global;
use std::fmt::Write;

/// How many records a record stands for, and what each is like.
fn counted(record: &str) -> (usize, &str) {
    match record.split_once('*') {
        Some((count, one)) => (count.parse().unwrap_or(0), one),
        None => (1, record),
    }
}

fn write_number(text: &mut String, number: Option<usize>, turn: usize) -> bool {
    match number {
        Some(number) => write!(text, "{}", number.saturating_add(turn)).is_ok(),
        None => true,
    }
}

/// Writes the record of that turn: each number behind a `+` is so much greater.
fn write_record(text: &mut String, record: &str, turn: usize) -> bool {
    let mut is_written = true;
    let mut grown: Option<usize> = None;
    for letter in record.chars() {
        if let (Some(number), Some(digit)) = (grown, letter.to_digit(10)) {
            grown = Some(number.saturating_mul(10).saturating_add(digit as usize));
            continue;
        }
        is_written &= write_number(text, grown, turn);
        grown = None;
        if letter == '+' {
            grown = Some(0);
        } else {
            is_written &= text.push(letter).is_ok();
        }
    }
    is_written &= write_number(text, grown, turn);
    is_written && text.push('\n').is_ok()
}

/// The text with each of its records, as it is in that round.
pub fn written(alloc: Global, records: &str, round: usize) -> Result<String, Fault> {
    let mut text = String::new(alloc);
    let mut is_written = true;
    for record in records.split_whitespace() {
        let (count, one) = counted(record);
        for turn in 0..count {
            is_written &= write_record(&mut text, one, round.saturating_add(turn));
        }
    }
    if is_written {
        Ok(text)
    } else {
        Err(Fault::Memory)
    }
}

/// The script that a text is in that round.
pub fn script_of(alloc: Global, records: &str, round: usize) -> Result<Script, Fault> {
    let text = written(alloc, records, round)?;
    match Script::parse(alloc, text.as_bytes()) {
        Ok(script) => Ok(script),
        Err(_) => Err(Fault::Memory),
    }
}

/// The first build of a script, if it has one.
pub fn start_of(commands: &[NumberedCommand]) -> Option<&Start> {
    for record in commands {
        if let Command::Start(start) = &record.command {
            return Some(start);
        }
    }
    None
}
