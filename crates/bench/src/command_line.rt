//! The words that the program understands.

use crate::column::{Column, longest_key};
use crate::condition::Condition;
use crate::options::Options;
use crate::spool_pages::workers_for;
use builder_core::WORKERS_MAX;
use clap::builder::ValueParser;
use clap::error::ErrorKind;
use clap::{Arg, ArgAction, ArgMatches, Command, Error};
use run_spool::SpoolChoice;
use std::alloc::{AllocError, Global};
use std::convert::AsStr;

/// The program's own version, and what it is proved and built by.
const VERSION: &str = "0.1.0 (Rattle, logic dac8208d650f15bf)";

/// What follows the options in the help of the program.
const EXPLANATION: &str = "\
The phases of a run:

  fill           random rows are inserted, up to 1,000 a transaction
  updates alone  rows are updated without a build (with --writes)
  start          the workers' spools are made, and the build starts
  scan           the table's pages are copied
  digest         pairs of key and address are taken out of the copies, and sorted in runs
  updates        rows are updated between the copies (with --writes)
  seal           each worker takes its last copies and sorts its last run
  load           the runs are merged
  catch-up       entries of the side-file are applied, until 255 are left at most (with --writes)
  switch         the entries that are left are applied, and the indexes are ready
  build          start to switch, without the updates
  look-ups       pairs of the first index, in no order, are looked for in it
  inserts        a tenth as many rows, and 100,000 at most, are inserted with the indexes ready
  updates ready  as many rows are updated with the indexes ready

With threads there are these phases:

  fill           sessions insert the rows, up to 1,000 a transaction; the time of the one that took longest
  before         the writers write for two seconds (with --writers)
  start          the build starts
  scan           each worker copies pages in holds of the table's lock, and makes their pairs outside of it
  load           the runs are merged, without the lock
  catch-up       turns that feed and apply entries of the side-files, and the switch
  build          start to catch-up

A writer's transaction inserts, updates and deletes a row; 15 of 100 are rolled back. `entries` are those that the changes
make for each index: from load on they all go into the side-files. A call's time has its waits in it, for the lock and,
where writers write faster than a build follows, for the build.

Behind the phases it is told how many entries a second the writers made and a build applied, over all indexes (without
--where; a build whose switch was tried more than once applied at least so many). Then how many calls of writers took up
to so long, before the build and beside it: `all` of them, and as `lock` those that begin or commit a transaction, which
never wait for the build.

Then each index is compared with the pairs that the table itself gives; where they differ no figures are printed, and
the exit status is 2. Where a build with threads is given up, or a writer fails, what was measured until then is printed
before the reason, and the exit status is 2 too. `peak` is the most memory that the program ever had by the end of the
phase.

Example: sfbench --rows 1000000 --columns int,text:20 --writes 100000";

/// An option of the program.
struct Word {
    name: &'static str,
    help: &'static str,
    /// What stands for its value in the help; a flag has none.
    value: Option<&'static str>,
    default: Option<&'static str>,
    parser: ValueParser<'static>,
}

const FLAG: Word = Word {
    name: "",
    help: "",
    value: None,
    default: None,
    parser: ValueParser::String,
};

static WORDS: [Word; 14] = [
    Word {
        name: "rows",
        help: "How many rows the table has",
        value: Some("N"),
        default: Some("1000000"),
        parser: ValueParser::Signed(1, 4_294_967_295),
        ..FLAG
    },
    Word {
        name: "columns",
        help: "The columns, up to 12: `int`, `int:N` (numbers below N), `text:N` (texts of N bytes) or `text:N:M` (the first M all the same); \
               with `:desc` behind it indexes on the column have the greatest first",
        value: Some("LIST"),
        default: Some("int"),
        ..FLAG
    },
    Word {
        name: "indexes",
        help: "How many indexes the build makes: one on the first column, one on the second, and so on around",
        value: Some("I"),
        default: Some("1"),
        parser: ValueParser::Unsigned(1, 8),
        ..FLAG
    },
    Word {
        name: "where",
        help: "The indexes take only rows whose number in a column, counted from 0, is below N, `C<N`, or is N, `C=N`",
        value: Some("CONDITION"),
        ..FLAG
    },
    Word {
        name: "unique",
        help: "The indexes are unique: where rows share a key the run fails",
        ..FLAG
    },
    Word {
        name: "workers",
        help: "How many workers make the pairs, in turn in one thread or with --threads each in its own [default: as many as the rows need]",
        value: Some("W"),
        parser: ValueParser::Unsigned(1, 16),
        ..FLAG
    },
    Word {
        name: "writes",
        help: "How many updates are made between the scans, in all, and as many before the build",
        value: Some("M"),
        default: Some("0"),
        parser: ValueParser::Signed(0, 4_294_967_295),
        ..FLAG
    },
    Word {
        name: "spools",
        help: "Where sorted runs are kept: on `plain` pages, on `prefix` ones, which leave out what a key shares with the one before, or `mixed`",
        value: Some("KIND"),
        default: Some("plain"),
        ..FLAG
    },
    Word {
        name: "threads",
        help: "The table is shared: its rows are put in by sessions, and each worker has a thread of its own",
        ..FLAG
    },
    Word {
        name: "sessions",
        help: "How many sessions fill the table, each in a thread of its own (implies --threads) [default: 1]",
        value: Some("S"),
        parser: ValueParser::Unsigned(1, 16),
        ..FLAG
    },
    Word {
        name: "writers",
        help: "How many sessions write beside the build, and for two seconds before it (implies --threads)",
        value: Some("M"),
        parser: ValueParser::Unsigned(1, 16),
        ..FLAG
    },
    Word {
        name: "pause",
        help: "How many microseconds a writer waits between its transactions",
        value: Some("P"),
        default: Some("0"),
        parser: ValueParser::Signed(0, 4_294_967_295),
        ..FLAG
    },
    Word {
        name: "seed",
        help: "What the rows are drawn by: the same seed gives the same table",
        value: Some("S"),
        default: Some("1992"),
        parser: ValueParser::Unsigned(0, u64::MAX),
        ..FLAG
    },
    Word {
        name: "csv",
        help: "Prints the figures as comma-separated records: phase, seconds, rows, rows_a_second, peak_kib, with writers more, and behind them \
               records `rate` and `calls`",
        ..FLAG
    },
];

/// What is said of words that ask for nothing that can be run.
const COLUMN: &str =
    "a column is `int`, `int:` with a number from 1, or `text:` with a number from 1 to 100, and may end with `:desc`";

const CONDITION: &str = "a condition is the number of a column, `<` or `=`, and a number";

const SPOOLS: &str = "spools are `plain`, `prefix` or `mixed`";

const ROWS: &str = "so many rows find no room in the spools of 16 workers";

const WRITES: &str = "with threads `--writers` write, and `--writes` is of builds without";

const MEMORY: &str = "no memory";

/// Reads the words, the first of which is the program's name. The error is what to print, and where: a refusal, or
/// help or the version that was asked for.
pub fn read<'a, S: AsStr>(alloc: Global, words: &'a [S]) -> Result<Options, Error> {
    match understood(alloc, words)? {
        Ok(options) => Ok(options),
        Err(refusal) => Err(command(alloc)?.error(ErrorKind::ValueValidation, refusal)?),
    }
}

/// What is chosen by words of the right form, or else why it can't be run.
fn understood<'a, S: AsStr>(
    alloc: Global,
    words: &'a [S],
) -> Result<Result<Options, &'static str>, Error> {
    let matches = command(alloc)?.try_get_matches_from(words)?;
    Ok(chosen(alloc, &matches))
}

fn chosen(alloc: Global, matches: &ArgMatches<'_>) -> Result<Options, &'static str> {
    let columns = columns(alloc, matches.get_str("columns").unwrap_or(""))?;
    let condition = match matches.get_str("where") {
        Some(text) => Some(Condition::parse(text).ok_or(CONDITION)?),
        None => None,
    };
    let spools = match matches.get_str("spools") {
        Some("prefix") => SpoolChoice::Prefix,
        Some("mixed") => SpoolChoice::Mixed,
        Some("plain") | None => SpoolChoice::Plain,
        Some(_) => return Err(SPOOLS),
    };
    let (rows, writes) = (number(matches, "rows"), number(matches, "writes"));
    let (sessions, writers) = (number(matches, "sessions"), number(matches, "writers"));
    let threads = matches.get_flag("threads") || sessions > 0 || writers > 0;
    if threads && writes > 0 {
        return Err(WRITES);
    }
    let workers = match matches.get_one::<usize>("workers") {
        Some(workers) => workers.clamp(1, WORKERS_MAX),
        None => match workers_for(rows, longest_key(columns.as_slice())) {
            Some(workers) => workers,
            None => return Err(ROWS),
        },
    };
    Ok(Options {
        rows,
        columns,
        indexes: number(matches, "indexes"),
        unique: matches.get_flag("unique"),
        condition,
        workers,
        writes,
        spools,
        seed: matches.get_one("seed").unwrap_or(0),
        threads,
        sessions: sessions.max(1),
        writers,
        pause: number(matches, "pause"),
        csv: matches.get_flag("csv"),
    })
}

/// The number that is given there; where none is, 0.
fn number(matches: &ArgMatches<'_>, name: &str) -> u32 {
    matches.get_one(name).unwrap_or(0)
}

fn columns(alloc: Global, texts: &str) -> Result<Vec<Column>, &'static str> {
    let mut columns = Vec::new(alloc);
    for text in texts.split(',') {
        let column = Column::parse(text).ok_or(COLUMN)?;
        if columns.push(column).is_err() {
            return Err(MEMORY);
        }
    }
    Ok(columns)
}

fn command<'a>(alloc: Global) -> Result<Command<'a>, AllocError> {
    let mut command = Command::new(alloc, "sfbench")
        .version(VERSION)
        .about("Measures how fast indexes are built on a table of random rows")
        .after_help(EXPLANATION);
    for word in &WORDS {
        command = command.arg(arg(alloc, word))?;
    }
    Ok(command)
}

fn arg<'a>(alloc: Global, word: &'static Word) -> Arg<'a> {
    let arg = Arg::new(alloc, word.name).long(word.name).help(word.help);
    let Some(value) = word.value else {
        return arg.action(ArgAction::SetTrue);
    };
    let arg = arg
        .value_name(value)
        .value_parser(word.parser)
        .action(ArgAction::Set);
    match word.default {
        Some(default) => arg.default_value(default),
        None => arg,
    }
}
