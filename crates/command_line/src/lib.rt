//! The words that the program `sfbuild` understands.
#![tactic(auto)]

mod index;
mod word;

use crate::index::{index_command, index_words};
use crate::word::{OPTION, Word, with_options};
use clap::builder::ValueParser;
use clap::error::ErrorKind;
use clap::{Arg, ArgAction, ArgMatches, Command, Error};
pub use index::{IndexWord, IndexWords};
use std::alloc::{AllocError, Global};
use std::convert::AsStr;

/// The program's own version, and what it is proved and built by.
const VERSION: &str = "0.1.0 (Rattle, logic dac8208d650f15bf)";

/// What follows the options in the help of the program.
const EXAMPLE: &str = "\
Example: a file three.csv with the lines

  table,2,int
  row,5
  rest,n:0

makes a table of one column of numbers, two rows a page, puts a row in and asks for the
pairs of an index on its first column. `sfbuild replay three.csv` then prints

  1,ok
  2,ok,0.0
  3,ok,1
  3,pair,5,0.0

`sfbuild check three.csv` runs nothing, and says whether all records are good. `sfbuild picture three.csv > three.svg`
draws what happened, for a script of 200 records at most.

A race has sessions that write in threads of their own while a build runs, as in

  table,2,int
  row,5
  build,4,even:2,n:0
  go
  in,1,begin,A
  in,1,insert,A,6
  in,1,commit,A

`sfbuild race race.csv --workers 2` runs it and prints how it went.

By hand a script is typed into `sfbuild shell`, which answers each record at once.

A file that is there already needs no script: `sfbuild index --help` says how indexes are built on its rows.";

/// What follows in the help of the shell.
const SHELL: &str = "\
The records are those of scripts, one or more a line: a record ends with its line, also where a quote is open.
A bad record is answered by what is wrong with it, and the shell goes on. Besides there are these words:

  help         lists all commands
  help NAME    says what a command wants and does
  status       tells how the table and its build stand
  quit         ends the shell, as the end of the input does

Over a pipe the answers are the same, and each is sent on before the next line is read.";

/// The options of a check.
static OF_CHECKS: [Word; 1] = [Word {
    name: "race",
    help: "Looks at the script as that of a race, also where it has neither a build nor go",
    action: ArgAction::SetTrue,
    ..OPTION
}];

/// The options of a race.
static OF_RACES: [Word; 2] = [
    Word {
        name: "workers",
        help: "How many workers build, 1 to 16, each in a thread of its own",
        value: Some("N"),
        is_required: true,
        parser: ValueParser::Unsigned(1, 16),
        ..OPTION
    },
    Word {
        name: "progress",
        help: "Shows on the standard error how far the build is",
        action: ArgAction::SetTrue,
        ..OPTION
    },
];

/// What the words ask for.
#[derive(Drop)]
pub enum Choice<'a> {
    /// Something that is to be done with a script, which is a file's path, or `-` for standard input.
    Script { task: Task, script: &'a str },
    /// Indexes on the rows of a file.
    Index(IndexWords<'a>),
    /// A conversation over the standard input and output.
    Shell,
}

/// What is to be done with a script.
#[derive(Clone, Copy, PartialEq, Eq)]
pub enum Task {
    Replay,
    /// Draws a picture of the run.
    Picture,
    Check,
    /// Looks at a script as that of a race.
    CheckRace,
    /// Runs a race, whose build has so many workers.
    Race {
        workers: usize,
        /// Whether it is shown meanwhile how far the build is.
        is_shown: bool,
    },
}

/// Reads the words, the first of which is the program's name. The error is what to print, and where: a refusal, or
/// help or the version that was asked for.
pub fn read<'a, S: AsStr>(alloc: Global, words: &'a [S]) -> Result<Choice<'a>, Error> {
    let matches = command(alloc)?.try_get_matches_from(words)?;
    match chosen(alloc, &matches)? {
        Some(choice) => Ok(choice),
        None => Err(missing(alloc)?),
    }
}

fn chosen<'a>(alloc: Global, matches: &ArgMatches<'a>) -> Result<Option<Choice<'a>>, AllocError> {
    match matches.subcommand() {
        Some(("index", arguments)) => match index_words(alloc, arguments)? {
            Some(words) => Ok(Some(Choice::Index(words))),
            None => Ok(None),
        },
        Some(("shell", _)) => Ok(Some(Choice::Shell)),
        Some((name, arguments)) => Ok(script_task(name, arguments)),
        None => Ok(None),
    }
}

/// What is to be done with a script.
fn script_task<'a>(name: &str, arguments: &ArgMatches<'a>) -> Option<Choice<'a>> {
    let task = match name {
        "replay" => Task::Replay,
        "picture" => Task::Picture,
        "check" if arguments.get_flag("race") => Task::CheckRace,
        "check" => Task::Check,
        "race" => Task::Race {
            workers: arguments.get_one("workers")?,
            is_shown: arguments.get_flag("progress"),
        },
        _ => return None,
    };
    let script = arguments.get_str("SCRIPT")?;
    Some(Choice::Script { task, script })
}

fn missing(alloc: Global) -> Result<Error, AllocError> {
    command(alloc)?.error(ErrorKind::MissingSubcommand, "a command is missing")
}

fn command<'a>(alloc: Global) -> Result<Command<'a>, AllocError> {
    let program = Command::new(alloc, "sfbuild")
        .version(VERSION)
        .about("Builds indexes of a table, on the rows of a file or as a script tells it to")
        .after_help(EXAMPLE)
        .subcommand_required(true);
    let replay = task_command(
        alloc,
        "replay",
        "Runs the records of a script one after the other, and prints an answer for each",
    );
    let program = with(program, replay)?;
    let picture = task_command(
        alloc,
        "picture",
        "Runs the records of a script one after the other, and writes a picture of that to the standard output, as SVG",
    );
    let program = with(program, picture)?;
    let program = with(program, check_command(alloc))?;
    let program = with(program, race_command(alloc))?;
    let program = with(program, Ok(shell_command(alloc)))?;
    with(program, index_command(alloc))
}

/// The program with one more command.
fn with<'a>(
    program: Command<'a>,
    command: Result<Command<'a>, AllocError>,
) -> Result<Command<'a>, AllocError> {
    let command = command?;
    program.subcommand(command)
}

/// The command of a check.
fn check_command<'a>(alloc: Global) -> Result<Command<'a>, AllocError> {
    let check = task_command(
        alloc,
        "check",
        "Runs nothing, and says whether all records of a script are good, or what is wrong with the first bad one",
    )?;
    with_options(alloc, check, &OF_CHECKS)
}

/// The command of a race.
fn race_command<'a>(alloc: Global) -> Result<Command<'a>, AllocError> {
    let race = task_command(
        alloc,
        "race",
        "Runs the sessions of a script in threads of their own while a build runs beside them, and prints how it went",
    )?;
    with_options(alloc, race, &OF_RACES)
}

/// The command of a conversation.
fn shell_command<'a>(alloc: Global) -> Command<'a> {
    Command::new(alloc, "shell")
        .about("Answers the records of a script one by one, as they are typed or sent")
        .after_help(SHELL)
}

/// The command of a task.
fn task_command<'a>(
    alloc: Global,
    name: &'a str,
    about: &'a str,
) -> Result<Command<'a>, AllocError> {
    let script = Arg::new(alloc, "SCRIPT")
        .help("The script's file, or - for standard input")
        .required(true)
        .action(ArgAction::Set);
    Command::new(alloc, name)
        .about(about)
        .after_help(EXAMPLE)
        .arg(script)
}
