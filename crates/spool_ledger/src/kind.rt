/// How a spool keeps its pairs.
#[derive(Clone, Copy)]
pub enum SpoolKind {
    /// Each with its whole key.
    Plain,
    /// Each with what its key has behind the front that it shares with the key before it.
    Prefix,
}
