use std::fmt;

/// What is wrong with the words or with the header, each with a text that is named.
#[derive(Clone, Copy, PartialEq, Eq)]
pub enum Refusal {
    /// Of `--columns`.
    NoKind,
    AskedTwice,
    TooManyColumns,
    NoColumn,
    /// Of the indexes.
    NoIndex,
    TooManyIndexes,
    NotAsked,
    KeyColumns,
    /// Of `--where`, `--find` and `--range`.
    Condition,
    TooManyCells,
    Range,
    /// Of any list.
    Lines,
    /// Of the header.
    Empty,
    Missing,
    Twice,
}

impl Refusal {
    /// Whether it is about the file's header.
    pub fn is_of_header(self) -> bool {
        matches!(self, Refusal::Empty | Refusal::Missing | Refusal::Twice)
    }

    /// What is said behind the text.
    fn words(self) -> &'static str {
        match self {
            Refusal::NoKind =>
                "no column with its kind, as people:int, where the kind is int, text or flag",
            Refusal::AskedTwice => "named twice in --columns",
            Refusal::TooManyColumns => "one column too many: a table has at most 12",
            Refusal::NoColumn => "a column without a name: --columns takes NAME:KIND,..",
            Refusal::NoIndex => "no index is asked for: --on or --unique names the columns of one",
            Refusal::TooManyIndexes => "one index too many: there are at most 8",
            Refusal::NotAsked => "no column that --columns names",
            Refusal::KeyColumns => "no columns of an index: these are 1 to 4, each named once",
            Refusal::Condition =>
                "no condition: that is COLUMN<CELL, COLUMN=CELL or COLUMN~, and the cell is of the column's kind",
            Refusal::TooManyCells => "more cells than the first index has columns",
            Refusal::Range =>
                "no range: that is a key, two points outside quotes and a key, of which either may be left out",
            Refusal::Lines => "more than one line",
            Refusal::Empty => "the file is empty: it has no header",
            Refusal::Missing => "no column of the file's header",
            Refusal::Twice => "named twice in the file's header",
        }
    }
}

impl fmt::Display for Refusal {
    fn fmt<W: fmt::Write>(&self, f: &mut fmt::Formatter<W>) -> fmt::Result {
        let words = self.words();
        f.write_str(words)
    }
}
