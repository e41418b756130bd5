//! What `help` says.
use crate::printing::{print_count, print_text};
use replay::{Output, OutputFailed};
use script::{CommandName, Part};
use std::io::Write;

/// All commands, in the order in which they are listed.
static COMMANDS: [CommandName; 23] = [
    CommandName::Table,
    CommandName::Row,
    CommandName::Begin,
    CommandName::Insert,
    CommandName::Update,
    CommandName::Delete,
    CommandName::Undo,
    CommandName::Commit,
    CommandName::Get,
    CommandName::Spools,
    CommandName::Start,
    CommandName::Scan,
    CommandName::Digest,
    CommandName::Seal,
    CommandName::Load,
    CommandName::Feed,
    CommandName::Apply,
    CommandName::Fence,
    CommandName::Switch,
    CommandName::Abandon,
    CommandName::Side,
    CommandName::Pairs,
    CommandName::Rest,
];

/// The words of the shell itself, each with what it does.
static WORDS: [(&str, &str); 4] = [
    ("help", "lists all commands and these words"),
    (
        "help NAME",
        "says what the fields of one command are, and what it does",
    ),
    (
        "status",
        "tells how the table and its build stand, what a switch waits for, and which indexes are ready",
    ),
    ("quit", "gives up a build that runs, and ends the shell"),
];

/// Lists all commands and words, a line each.
pub fn print_help<W: Write + Drop>(
    output: &mut Output<W>,
    number: usize,
) -> Result<(), OutputFailed> {
    print_count(output, number, COMMANDS.len() + WORDS.len())?;
    for name in COMMANDS.iter() {
        print_line(output, number, name.usage(), does(*name))?;
    }
    for (word, does) in WORDS.iter() {
        print_line(output, number, word, does)?;
    }
    Ok(())
}

/// Says what a command does, and what each of its fields spells.
pub fn print_help_on<W: Write + Drop>(
    output: &mut Output<W>,
    number: usize,
    name: CommandName,
) -> Result<(), OutputFailed> {
    let (parts, repeated) = (name.parts(), name.repeated());
    let further = if repeated.is_some() { 1 } else { 0 };
    print_count(output, number, parts.len() + further + 1)?;
    print_line(output, number, name.usage(), does(name))?;
    for (place, part) in parts.iter().enumerate() {
        output.fields(number, "field")?;
        output.field(place + 2)?;
        print_part(output, *part)?;
    }
    if let Some(part) = repeated {
        output.fields(number, "further")?;
        print_part(output, part)?;
    }
    Ok(())
}

/// What a field spells, which ends its line.
fn print_part<W: Write + Drop>(output: &mut Output<W>, part: Part) -> Result<(), OutputFailed> {
    print_text(output, &part)?;
    output.end()
}

fn print_line<W: Write + Drop>(
    output: &mut Output<W>,
    number: usize,
    usage: &str,
    does: &str,
) -> Result<(), OutputFailed> {
    output.fields(number, "help")?;
    output.text(usage)?;
    output.text(does)?;
    output.end()
}

/// What a command does.
fn does(name: CommandName) -> &'static str {
    match name {
        CommandName::Table =>
            "makes an empty table of L slots a page (1 to 255), with 1 to 12 columns",
        CommandName::Row => "inserts a row by a transaction of its own",
        CommandName::Begin => "begins a transaction that the label A names",
        CommandName::Insert => "inserts a row",
        CommandName::Update => "puts another row at the RID",
        CommandName::Delete => "takes the row at the RID away",
        CommandName::Undo => "undoes the transaction's newest write that isn't undone",
        CommandName::Commit => "ends the transaction, whose rows stay",
        CommandName::Get => "gives the row that is at the RID now",
        CommandName::Spools =>
            "says where the builds that start from here on keep their sorted runs",
        CommandName::Start => {
            "starts a build with W workers (1 to 16), a quota of Q pages (at most 1024) for each worker and index, \
            1 to 256 page ranges and 1 to 8 indexes"
        }
        CommandName::Scan =>
            "copies the next page of range R for worker W, who has room for four copies",
        CommandName::Digest => "has worker W take the keys out of the next copy that waits for it",
        CommandName::Seal => {
            "has worker W take the keys out of all copies that wait for it, and close its run"
        }
        CommandName::Load => "puts the pairs of index I in order",
        CommandName::Feed =>
            "moves the first entries of index I's side-file into its ring, K at most",
        CommandName::Apply => {
            "applies the first entries in the ring of index I to its pairs, K at most"
        }
        CommandName::Fence => {
            "lets no transaction begin until a switch decides or the build is given up"
        }
        CommandName::Switch => {
            "applies the entries that are left, and makes the indexes ready, but for unique ones of which two rows share a key"
        }
        CommandName::Abandon => "gives the build up",
        CommandName::Side => "lists the entries of index I's side-file that aren't fed yet",
        CommandName::Pairs => "lists ready index K",
        CommandName::Rest => "lists what an index of the table as it is now would be",
    }
}
