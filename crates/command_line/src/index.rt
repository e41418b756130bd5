//! The words of the command `index`.

use crate::word::{OPTION, Word, with_options};
use clap::builder::ValueParser;
use clap::{Arg, ArgAction, ArgMatches, Command};
use std::alloc::{AllocError, Global};

/// What stands behind the options in the help of the command.
const EXPLANATION: &str = "\
The file is comma-separated records under a header that names the columns. A field in quotes may have commas, quotes (two for
one) and ends of lines in it. An empty field is an empty cell. Kinds of columns are int (a number of 64 bits), text and flag
(true or false). Lists of columns are records themselves, so that a name with a comma in it stands in quotes.

An index is in the order of its columns: empty cells first, numbers by number, texts by their bytes, false before true, and
the other way round where `:desc` stands behind the column. Rows that share a key stand in the order of the table, which is
that of the file as long as no row finds room on an earlier page.

For each index a line tells how many pairs it has, how many levels its tree has, and whether it is ready. A unique index is
refused where rows share a key, an empty cell counting as any other; then the exit status is 1.

A key that begins with `-` is joined by `=`, as --find=-3. A range is parted at its first two points that aren't in quotes, as
'\"a..b\"..c'. Where a column descends a range begins with the greater cell, as 7..5. Lines of the file end with a line feed, a carriage
return, or both; blank ones are passed over. All words are looked at before the file is read. The exit status is 2 where nothing could
be built, or the answer couldn't be written.

The standard error tells how many rows were read, and for each index how many pages its workers' spools had leased at most; with several
workers that depends on which of them took which pages.

What a table here can't hold: texts over 100 bytes, more than 12 columns, more than 65,536 pages of 4,096 bytes with up to
255 rows each. It lies in memory, and is gone when the command ends.

Example: a file cities.csv with the lines

  id,city,people
  1,Paris,2100000
  2,\"Bath, Somerset\",94000
  3,Delft,

  sfbuild index cities.csv --columns id:int,city:text,people:int --on people:desc,city --unique id --range ..

prints

  people:desc,city: pairs: 3, levels: 1, ready
  id: pairs: 3, levels: 1, unique, ready
  line,id,city,people
  2,1,Paris,2100000
  3,2,\"Bath, Somerset\",94000
  4,3,Delft,";

/// What the words behind `index` ask for. Nothing of it is looked at but the number of workers.
pub struct IndexWords<'a> {
    /// The file's path, or `-` for standard input.
    pub file: &'a str,
    pub columns: &'a str,
    /// The indexes, in the order in which they are asked for.
    pub indexes: Vec<IndexWord<'a>>,
    pub condition: Option<&'a str>,
    /// 1 to 16 of them, where their number is given.
    pub workers: Option<usize>,
    pub find: Option<&'a str>,
    pub range: Option<&'a str>,
    pub skips_bad: bool,
}

impl<'a> Drop for IndexWords<'a> {
    fn drop(self) {
        let IndexWords {
            file: _,
            columns: _,
            indexes: _,
            condition: _,
            workers: _,
            find: _,
            range: _,
            skips_bad: _,
        } = self;
    }
}

/// An index that is asked for.
#[derive(Clone, Copy)]
pub struct IndexWord<'a> {
    pub columns: &'a str,
    pub unique: bool,
    /// Its place among the words.
    place: usize,
}

static WORDS: [Word; 8] = [
    Word {
        name: "columns",
        help: "The columns that the table gets, by their names in the header, each with its kind",
        value: Some("NAME:KIND,.."),
        is_required: true,
        ..OPTION
    },
    Word {
        name: "on",
        help: "An index on 1 to 4 columns; up to 8 indexes in all",
        value: Some("COLUMN[:desc],.."),
        action: ArgAction::Append,
        ..OPTION
    },
    Word {
        name: "unique",
        help: "The same, of which no two rows may share a key",
        value: Some("COLUMN[:desc],.."),
        action: ArgAction::Append,
        ..OPTION
    },
    Word {
        name: "where",
        help: "The indexes take only rows whose cell is less (`COLUMN<CELL`), is that one (`COLUMN=CELL`) or is empty (`COLUMN~`)",
        value: Some("CONDITION"),
        ..OPTION
    },
    Word {
        name: "workers",
        help: "How many workers build, 1 to 16, each in a thread of its own [default: one for each processor]",
        value: Some("N"),
        parser: ValueParser::Unsigned(1, 16),
        ..OPTION
    },
    Word {
        name: "find",
        help: "Prints the rows that the first index gives for a key: its first cells, joined by commas",
        value: Some("KEY"),
        ..OPTION
    },
    Word {
        name: "range",
        help: "Prints the rows that the first index gives from a key on, and before another; either may be left out",
        value: Some("FROM..TO"),
        ..OPTION
    },
    Word {
        name: "skip-bad",
        help: "Leaves out what is no row of the table, and tells how many records that were",
        action: ArgAction::SetTrue,
        ..OPTION
    },
];

/// The command.
pub fn index_command<'a>(alloc: Global) -> Result<Command<'a>, AllocError> {
    let file = Arg::new(alloc, "FILE")
        .help("The file, or - for standard input")
        .required(true)
        .action(ArgAction::Set);
    let command = Command::new(alloc, "index")
        .about("Builds indexes on the rows of a file, and prints what they give")
        .after_help(EXPLANATION)
        .arg(file)?;
    with_options(alloc, command, &WORDS)
}

/// What was chosen; nothing where a required word is missing.
pub fn index_words<'a>(
    alloc: Global,
    matches: &ArgMatches<'a>,
) -> Result<Option<IndexWords<'a>>, AllocError> {
    let (Some(file), Some(columns)) = (matches.get_str("FILE"), matches.get_str("columns")) else {
        return Ok(None);
    };
    let indexes = indexes(alloc, matches)?;
    Ok(Some(IndexWords {
        file,
        columns,
        indexes,
        condition: matches.get_str("where"),
        workers: matches.get_one("workers"),
        find: matches.get_str("find"),
        range: matches.get_str("range"),
        skips_bad: matches.get_flag("skip-bad"),
    }))
}

/// The indexes, in the order in which they stand among the words.
fn indexes<'a>(alloc: Global, matches: &ArgMatches<'a>) -> Result<Vec<IndexWord<'a>>, AllocError> {
    let mut indexes = Vec::new(alloc);
    add_indexes(&mut indexes, matches, "on", false)?;
    add_indexes(&mut indexes, matches, "unique", true)?;
    indexes.sort_unstable_by_key(|index| index.place);
    Ok(indexes)
}

/// Puts those of an option behind those that are there.
fn add_indexes<'a>(
    indexes: &mut Vec<IndexWord<'a>>,
    matches: &ArgMatches<'a>,
    option: &str,
    unique: bool,
) -> Result<(), AllocError> {
    let places = matches.indices_of(option).unwrap_or(&[]);
    for (number, columns) in matches.get_strs(option).unwrap_or(&[]).iter().enumerate() {
        let place = places.get(number).copied().unwrap_or(0);
        indexes.push(IndexWord {
            columns,
            unique,
            place,
        })?;
    }
    Ok(())
}
