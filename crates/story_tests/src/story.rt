//! What happens on a table, as texts: a script, and what each of its records is answered.

use script::Start;

/// Which spools a core is given.
#[derive(Drop)]
pub enum Kind {
    /// Over pages.
    Paged,
    /// Each keeps its runs in lists.
    Lists,
    /// In boxes: by turns over pages and in lists.
    Boxed,
}

/// So many spools of that many pages each.
#[derive(Drop)]
pub struct Stock {
    pub quota: u32,
    pub count: usize,
    /// How many of them have an account.
    pub accounts: usize,
    /// Whether each has a pair.
    pub is_used: bool,
}

/// The spools that a build wants.
pub fn stock_of(start: &Start) -> Stock {
    Stock {
        quota: start.quota.min(1_024) as u32,
        count: start.workers.saturating_mul(start.specs.len()),
        accounts: 0,
        is_used: false,
    }
}

/// A script as docs/SCRIPTS.md has them, on columns of numbers, and what it prints. Three things are its own:
/// - a label is the number of its transaction;
/// - a `start` with a quota of 0 takes the spools that are there, and each other one is given new ones, as many as its workers and indexes want;
/// - a record behind a number and a `*` stands for so many, in each of which the numbers behind a `+` are one greater than before.
pub struct Story {
    /// By which a test names it that fails.
    pub name: &'static str,
    pub kind: Kind,
    /// The spools that are there at first.
    pub given: Stock,
    pub script: &'static str,
    pub answers: &'static str,
    /// Whether it is told where memory may run out as well.
    pub is_short: bool,
    /// Whether its first events are told as one list as well.
    pub is_list: bool,
    /// Whether a replay prints the same.
    pub is_replayed: bool,
    /// How many spools its build has, and how many pairs each gets, where their faults are told as well.
    pub faults: (usize, u32),
    /// At how many places among its records, ends included, it is stopped as well, and at how many of these a build runs.
    pub places: (usize, usize),
}

/// No spool.
pub const NONE: Stock = Stock {
    quota: 0,
    count: 0,
    accounts: 0,
    is_used: false,
};

/// Nothing happens.
pub const PLAIN: Story = Story {
    name: "",
    kind: Kind::Paged,
    given: NONE,
    script: "",
    answers: "",
    is_short: false,
    is_list: false,
    is_replayed: true,
    faults: (0, 0),
    places: (0, 0),
};
