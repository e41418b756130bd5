use script::CommandName;

/// What is asked of the shell itself, besides its end.
#[derive(Clone, Copy)]
pub enum Word {
    /// A list of all commands and words.
    Help,
    /// What one command wants and does.
    HelpOn(CommandName),
    Status,
}

impl Word {
    pub fn read(text: &str) -> Option<Word> {
        match text {
            "help" => Some(Word::Help),
            "status" => Some(Word::Status),
            _ => Some(Word::HelpOn(CommandName::read(text.strip_prefix("help ")?)?)),
        }
    }
}
