//! The figures as they are printed: comma-separated records, or a table, which is records of padded fields.

use crate::condition::Condition;
use crate::failure::Failure;
use crate::figures::{Figures, Line, rate};
use crate::further::print_further;
use crate::options::Options;
use crate::values::Values;
use csv::{QuoteStyle, Writer, WriterBuilder};
use std::alloc::{AllocError, Global};
use std::fmt::Write as _;
use std::io::Write;

/// What is told of a phase.
enum Figure {
    Spent,
    Rows,
    Rate,
    /// Only where it says something.
    TellingRate,
    Peak,
    Transactions,
    TransactionRate,
    Entries,
    LongestTransaction,
    LongestCall,
    LongCalls,
}

/// How a figure is told.
struct Field {
    figure: Figure,
    /// What stands above it.
    name: &'static str,
    /// How many characters stand before the point at least.
    width: usize,
    /// What is told as 1: so many of the figure's units.
    unit: u128,
    /// How many digits stand behind the point, and how many of them make 1.
    digits: usize,
    scale: u128,
    /// Whether it is told only where somebody writes beside the build.
    is_of_writers: bool,
}

/// A number as it is.
const PLAIN: Field = Field {
    figure: Figure::Rows,
    name: "rows",
    width: 0,
    unit: 1,
    digits: 0,
    scale: 1,
    is_of_writers: false,
};

/// The fields of a record, behind the name of the phase.
static RECORD: [Field; 9] = [
    Field {
        figure: Figure::Spent,
        name: "seconds",
        digits: 9,
        scale: 1_000_000_000,
        ..PLAIN
    },
    PLAIN,
    Field {
        figure: Figure::Rate,
        name: "rows_a_second",
        ..PLAIN
    },
    Field {
        figure: Figure::Peak,
        name: "peak_kib",
        ..PLAIN
    },
    Field {
        figure: Figure::Transactions,
        name: "transactions",
        is_of_writers: true,
        ..PLAIN
    },
    Field {
        figure: Figure::Entries,
        name: "entries",
        is_of_writers: true,
        ..PLAIN
    },
    Field {
        figure: Figure::LongestTransaction,
        name: "longest_us",
        unit: 1_000,
        is_of_writers: true,
        ..PLAIN
    },
    Field {
        figure: Figure::LongestCall,
        name: "longest_call_us",
        unit: 1_000,
        is_of_writers: true,
        ..PLAIN
    },
    Field {
        figure: Figure::LongCalls,
        name: "calls_over_1_ms",
        is_of_writers: true,
        ..PLAIN
    },
];

/// Those of a line of the table.
static TABLE: [Field; 8] = [
    Field {
        figure: Figure::Spent,
        name: "  seconds",
        width: 4,
        unit: 100_000,
        digits: 4,
        scale: 10_000,
        ..PLAIN
    },
    Field {
        figure: Figure::TellingRate,
        name: "  rows a second",
        width: 15,
        ..PLAIN
    },
    Field {
        figure: Figure::Peak,
        name: "   peak MiB",
        width: 11,
        unit: 1_024,
        ..PLAIN
    },
    Field {
        figure: Figure::TransactionRate,
        name: "  transactions a second",
        width: 23,
        is_of_writers: true,
        ..PLAIN
    },
    Field {
        figure: Figure::Entries,
        name: "        entries",
        width: 15,
        is_of_writers: true,
        ..PLAIN
    },
    Field {
        figure: Figure::LongestTransaction,
        name: "  longest ms",
        width: 8,
        unit: 1_000,
        digits: 3,
        scale: 1_000,
        is_of_writers: true,
    },
    Field {
        figure: Figure::LongestCall,
        name: "  longest call ms",
        width: 13,
        unit: 1_000,
        digits: 3,
        scale: 1_000,
        is_of_writers: true,
    },
    Field {
        figure: Figure::LongCalls,
        name: "  calls over 1 ms",
        width: 17,
        is_of_writers: true,
        ..PLAIN
    },
];

/// How many characters the name of a phase takes in the table at least.
const NAME_WIDTH: usize = 16;

/// A phase that took fewer nanoseconds is told without its rows a second, which would say nothing.
const LEAST_NANOS: u64 = 1_000_000;

/// Prints the figures, a line a phase, and what is told of writers behind them. Of a run that failed the error is why.
pub fn print<W: Write + Drop>(
    out: W,
    alloc: Global,
    options: &Options,
    figures: &Figures,
) -> Result<(), Failure> {
    let (mut out, mut text) = (out, String::new(alloc));
    let mut builder = WriterBuilder::new();
    builder.flexible(true);
    let mut is_printed = true;
    if !options.csv {
        is_printed = add_asked(&mut text, options, figures).is_ok()
            && out.write_all(text.as_str().as_bytes()).is_ok();
        builder.delimiter(b' ').quote_style(QuoteStyle::Never);
    }
    let mut writer = builder.from_writer(out);
    is_printed &= print_line(&mut writer, &mut text, options, None);
    for line in &figures.lines {
        if line.is_told {
            is_printed &= print_line(&mut writer, &mut text, options, Some(line));
        }
    }
    if options.writers > 0 {
        is_printed &= print_further(&mut writer, &mut text, options, figures);
    }
    if !is_printed || writer.flush().is_err() {
        return Err(Failure::Other("the figures can't be printed"));
    }
    match figures.failure {
        None => Ok(()),
        Some(failure) => Err(failure),
    }
}

/// What was asked for, and what is counted of the whole run, which has no figures where an index differs from the table.
fn add_asked(text: &mut String, options: &Options, figures: &Figures) -> Result<(), AllocError> {
    let Options {
        rows,
        indexes,
        workers,
        writes,
        sessions,
        writers,
        seed,
        ..
    } = options;
    write!(text, "{rows} rows of ")?;
    add_columns(text, options)?;
    writeln!(
        text,
        ", indexes {indexes}, workers {workers}, writes {writes}, sessions {sessions}, writers {writers}, seed {seed}"
    )?;
    if figures.failure.is_some() {
        return text.push_str("the run failed; what was measured until then:\n");
    }
    let count = figures.count;
    let counted = if options.threads {
        "turns before the switch"
    } else {
        "pages leased by the spools at most"
    };
    writeln!(
        text,
        "{count} {counted}; each index has the pairs that the table gives"
    )
}

/// The columns and the condition, as they are asked for.
fn add_columns(text: &mut String, options: &Options) -> Result<(), AllocError> {
    for (place, column) in options.columns.iter().enumerate() {
        text.push_str(if place == 0 { "" } else { "," })?;
        let added = match &column.values {
            Values::Int => text.push_str("int"),
            Values::IntBelow(limit) => write!(text, "int:{limit}"),
            Values::Text { length, front: 0 } => write!(text, "text:{length}"),
            Values::Text { length, front } => write!(text, "text:{length}:{front}"),
        };
        added?;
        text.push_str(if column.descending { ":desc" } else { "" })?;
    }
    match &options.condition {
        Some(
            Condition {
                column,
                is_below,
                number,
            },
        ) => {
            let sign = if *is_below { '<' } else { '=' };
            write!(text, ", where {column}{sign}{number}")
        }
        None => Ok(()),
    }
}

/// Prints what is told of a phase, or what stands above that; answers whether that went well.
fn print_line<W: Write + Drop>(
    writer: &mut Writer<W>,
    text: &mut String,
    options: &Options,
    line: Option<&Line>,
) -> bool {
    let (fields, width) = if options.csv {
        (RECORD.as_slice(), 0)
    } else {
        (TABLE.as_slice(), NAME_WIDTH)
    };
    let name = match line {
        Some(line) => line.name,
        None => "phase",
    };
    text.clear();
    let mut is_printed = write!(text, "{name:<width$}").is_ok();
    is_printed &= writer.write_field(text.as_str().as_bytes()).is_ok();
    for field in fields {
        if options.writers > 0 || !field.is_of_writers {
            text.clear();
            is_printed &= add_field(text, field, line).is_ok();
            is_printed &= writer.write_field(text.as_str().as_bytes()).is_ok();
        }
    }
    is_printed & writer.end_record().is_ok()
}

/// Adds the field of a line, or what stands above it.
fn add_field(text: &mut String, field: &Field, line: Option<&Line>) -> Result<(), AllocError> {
    let (width, digits) = (field.width, field.digits);
    let Some(line) = line else {
        return text.push_str(field.name);
    };
    let Some(figure) = figure_of(line, &field.figure) else {
        return write!(text, "{:>width$}", "");
    };
    let told = figure / field.unit.max(1);
    if digits == 0 {
        return write!(text, "{told:>width$}");
    }
    let scale = field.scale.max(1);
    write!(text, "{:>width$}.{:0>digits$}", told / scale, told % scale)
}

/// The figure, if there is one.
fn figure_of(line: &Line, figure: &Figure) -> Option<u128> {
    let Line {
        spent,
        rows,
        met,
        ..
    } = line;
    let number = match figure {
        Figure::Rate => return rate(*spent, *rows),
        Figure::TellingRate if *spent < LEAST_NANOS || *rows == 0 => return None,
        Figure::TellingRate => return rate(*spent, *rows),
        Figure::Peak => return line.peak,
        Figure::TransactionRate => return rate(*spent, met.transactions),
        Figure::Spent => *spent,
        Figure::Rows => *rows,
        Figure::Transactions => met.transactions,
        Figure::Entries => met.entries,
        Figure::LongestTransaction => met.longest_transaction,
        Figure::LongestCall => met.longest_call,
        Figure::LongCalls => met.long_calls,
    };
    Some(u128::from(number))
}
