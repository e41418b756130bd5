use script::SessionCommand;

/// What a session does, in order.
#[derive(Drop)]
pub struct SessionScript {
    /// Its number, 1 to 8.
    pub session: usize,
    pub commands: Vec<SessionCommand>,
}
