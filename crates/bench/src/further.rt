//! What is printed behind the phases where somebody writes beside the build: how many entries a second were made and applied, and how long calls of
//! the writers took. As comma-separated records each begins with the name of its kind, `rate` or `calls`.

use crate::figures::{Figures, Line, rate};
use crate::histogram::{BINS, NAMES};
use crate::options::Options;
use csv::Writer;
use std::fmt::Write as _;
use std::io::Write;

/// What stands above a column: in comma-separated records, and in a table, whose columns are as wide.
struct Head {
    record: &'static str,
    table: &'static str,
}

/// The columns of the rates.
static OF_RATES: [Head; 3] = [
    Head {
        record: "phase",
        table: "entries a second",
    },
    Head {
        record: "made_a_second",
        table: "           made",
    },
    Head {
        record: "applied_a_second",
        table: "        applied",
    },
];

/// Those of the calls: all of the writers, and those that wait for the lock alone, before the build and beside it.
static OF_CALLS: [Head; 5] = [
    Head {
        record: "up_to_us",
        table: "calls up to     ",
    },
    Head {
        record: "before",
        table: "     all before",
    },
    Head {
        record: "beside",
        table: "     all beside",
    },
    Head {
        record: "lock_before",
        table: "    lock before",
    },
    Head {
        record: "lock_beside",
        table: "    lock beside",
    },
];

/// How many characters the name of a line takes in a table at least, and how many a number.
const NAME_WIDTH: usize = 16;

const NUMBER_WIDTH: usize = 15;

/// Prints the rates and the calls. Says whether all went well.
pub fn print_further<W: Write + Drop>(
    writer: &mut Writer<W>,
    text: &mut String,
    options: &Options,
    figures: &Figures,
) -> bool {
    let mut is_printed = true;
    if options.condition.is_none() {
        is_printed = print_rates(writer, text, options.csv, figures);
    }
    is_printed & print_calls(writer, text, options.csv, figures)
}

/// Prints how many entries a second were made and applied in each phase of which that is told.
fn print_rates<W: Write + Drop>(
    writer: &mut Writer<W>,
    text: &mut String,
    is_csv: bool,
    figures: &Figures,
) -> bool {
    let mut is_printed = print_heads(writer, is_csv, "rate", OF_RATES.as_slice());
    for line in &figures.lines {
        if line.is_told && line.made.is_some() {
            let numbers = [rate_of(line, line.made), rate_of(line, line.applied)];
            is_printed &= print_numbers(
                writer,
                text,
                is_csv,
                "rate",
                line.name,
                numbers.as_slice(),
            );
        }
    }
    is_printed
}

/// How many a second in the phase.
fn rate_of(line: &Line, count: Option<u64>) -> Option<u128> {
    rate(line.spent, count?)
}

/// Prints how many calls took how long.
fn print_calls<W: Write + Drop>(
    writer: &mut Writer<W>,
    text: &mut String,
    is_csv: bool,
    figures: &Figures,
) -> bool {
    let Figures { before, beside, .. } = figures;
    let mut is_printed = print_heads(writer, is_csv, "calls", OF_CALLS.as_slice());
    for bin in 0..BINS {
        let (record, table) = NAMES[bin];
        let numbers = [
            Some(u128::from(before.calls.counts[bin])),
            Some(u128::from(beside.calls.counts[bin])),
            Some(u128::from(before.of_lock.counts[bin])),
            Some(u128::from(beside.of_lock.counts[bin])),
        ];
        let name = if is_csv { record } else { table };
        is_printed &= print_numbers(writer, text, is_csv, "calls", name, numbers.as_slice());
    }
    is_printed
}

/// Prints what stands above the columns.
fn print_heads<W: Write + Drop>(
    writer: &mut Writer<W>,
    is_csv: bool,
    kind: &str,
    heads: &[Head],
) -> bool {
    let mut is_printed = begin(writer, is_csv, kind);
    for head in heads {
        let told = if is_csv { head.record } else { head.table };
        is_printed &= writer.write_field(told.as_bytes()).is_ok();
    }
    is_printed & writer.end_record().is_ok()
}

/// Prints a line of that name; a number that there isn't is left out.
fn print_numbers<W: Write + Drop>(
    writer: &mut Writer<W>,
    text: &mut String,
    is_csv: bool,
    kind: &str,
    name: &str,
    numbers: &[Option<u128>],
) -> bool {
    let (name_width, width) = if is_csv {
        (0, 0)
    } else {
        (NAME_WIDTH, NUMBER_WIDTH)
    };
    let mut is_printed = begin(writer, is_csv, kind);
    text.clear();
    is_printed &= write!(text, "{name:<name_width$}").is_ok();
    is_printed &= writer.write_field(text.as_str().as_bytes()).is_ok();
    for number in numbers {
        text.clear();
        let added = match number {
            Some(number) => write!(text, "{number:>width$}"),
            None => write!(text, "{:>width$}", ""),
        };
        is_printed &= added.is_ok();
        is_printed &= writer.write_field(text.as_str().as_bytes()).is_ok();
    }
    is_printed & writer.end_record().is_ok()
}

/// Begins a record with its kind; a line of a table has none.
fn begin<W: Write + Drop>(writer: &mut Writer<W>, is_csv: bool, kind: &str) -> bool {
    !is_csv || writer.write_field(kind.as_bytes()).is_ok()
}
