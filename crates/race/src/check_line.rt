use keybytes::Fault;

/// Whether a ready index has the pairs of the rows.
#[derive(Clone, Copy)]
pub enum CheckLine {
    Same,
    Differs,
    /// It can't be told, since the pairs of the rows were refused, for want of memory.
    Refused(Fault),
}
