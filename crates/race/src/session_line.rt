/// How many commands of a session were accepted and refused.
#[derive(Clone, Copy)]
pub struct SessionLine {
    /// The session's number, 1 to 8.
    pub session: usize,
    pub accepted: usize,
    pub refused: usize,
}
