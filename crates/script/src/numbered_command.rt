use crate::Command;

/// A command and its number in the script.
#[derive(Drop)]
pub struct NumberedCommand {
    pub number: usize,
    pub command: Command,
}
