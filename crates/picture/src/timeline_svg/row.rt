use crate::timeline_svg::Mark;

/// A record, and what it did.
#[derive(Drop)]
pub struct Row {
    /// Its number in the script.
    pub number: usize,
    pub kind: RowKind,
    /// What was said before it.
    pub remarks: Vec<String>,
    /// The record.
    pub text: String,
    /// Why it was refused. A record that wasn't has none.
    pub refusal: Option<String>,
    pub marks: Vec<Mark>,
}

/// Whether a row begins or ends something for all lanes.
#[derive(Clone, Copy, PartialEq, Eq)]
pub enum RowKind {
    Plain,
    /// A build starts.
    Start,
    /// A build's indexes are switched in.
    Switch,
    /// A build is given up.
    GivenUp,
}
