use crate::race::SessionCommand;

/// The record `in`: what a session does next.
#[derive(Drop)]
pub struct SessionStep {
    /// The record's number in the script.
    pub number: usize,
    /// The session, 1 to 8.
    pub session: usize,
    pub command: SessionCommand,
}
