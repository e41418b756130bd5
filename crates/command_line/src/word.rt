//! The options of the commands, as tables.

use clap::builder::ValueParser;
use clap::{Arg, ArgAction, Command};
use std::alloc::{AllocError, Global};

/// An option of a command.
pub struct Word {
    pub name: &'static str,
    pub help: &'static str,
    /// What stands for its value in the help; a flag has none.
    pub value: Option<&'static str>,
    pub is_required: bool,
    pub action: ArgAction,
    pub parser: ValueParser<'static>,
}

/// An option that may be left out, and whose value is any text.
pub const OPTION: Word = Word {
    name: "",
    help: "",
    value: None,
    is_required: false,
    action: ArgAction::Set,
    parser: ValueParser::String,
};

/// The command with these options behind what it has.
pub fn with_options<'a>(
    alloc: Global,
    command: Command<'a>,
    words: &'static [Word],
) -> Result<Command<'a>, AllocError> {
    let mut command = command;
    for word in words {
        command = command.arg(option(alloc, word))?;
    }
    Ok(command)
}

fn option<'a>(alloc: Global, word: &'static Word) -> Arg<'a> {
    let arg = Arg::new(alloc, word.name)
        .long(word.name)
        .help(word.help)
        .required(word.is_required)
        .action(word.action);
    match word.value {
        Some(value) => arg.value_name(value).value_parser(word.parser),
        None => arg,
    }
}
