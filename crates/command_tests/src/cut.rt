//! Scripts that are cut off somewhere.

use crate::printed::Printed;

/// What a cut leaves of a script.
#[derive(Clone, Copy)]
pub enum Cut {
    /// So many records, each of them good.
    Good(usize),
    /// Good records, and behind them one that isn't, of that number.
    Bad(usize),
}

impl Cut {
    /// What is left of a script of which that is a beginning.
    pub fn new(script: &str, beginning: &str) -> Cut {
        let (before, left, record) = last_line(script, beginning);
        if left.is_empty() {
            Cut::Good(before)
        } else if is_record(left, record) {
            Cut::Good(before.saturating_add(1))
        } else {
            Cut::Bad(before.saturating_add(1))
        }
    }

    /// The same, where a record is missing behind the good ones.
    pub fn ended(self) -> Cut {
        match self {
            Cut::Good(records) => Cut::Bad(records.saturating_add(1)),
            Cut::Bad(_) => self,
        }
    }

    /// Whether a run names that bad record and prints nothing.
    pub fn is_refused(self, printed: &Printed) -> bool {
        match self {
            Cut::Good(_) => false,
            Cut::Bad(number) => {
                let (out, err, status) = printed.parts();
                named(err, " is bad\n") == Some(number) && (out, status) == ("", 2)
            }
        }
    }

    /// Whether a check says so.
    pub fn is_checked(self, printed: &Printed) -> bool {
        let (out, err, status) = printed.parts();
        match self {
            Cut::Good(records) => counted(out) == Some(records) && (err, status) == ("", 0),
            Cut::Bad(number) => named(err, " is bad: ") == Some(number) && (out, status) == ("", 2),
        }
    }
}

/// How many whole lines there are in the beginning of a script, what is left of the line behind them, and that line.
fn last_line<'a>(script: &'a str, beginning: &'a str) -> (usize, &'a str, &'a str) {
    let mut last = (0, "", "");
    let mut lines = script.split('\n');
    for (before, left) in beginning.split('\n').enumerate() {
        last = (before, left, lines.next().unwrap_or(""));
    }
    last
}

/// Whether what is left of a record is one still: of a remark, of a record that is whole, and of one that ends with a number of which some digits
/// are left. No command, kind or label of these scripts begins with another, and no record may end earlier.
fn is_record(left: &str, record: &str) -> bool {
    left == record || left.starts_with('#') || has_digits_left(left, record)
}

fn has_digits_left(left: &str, record: &str) -> bool {
    match record.rsplit_once(',') {
        Some((front, number)) => {
            number.parse::<u32>().is_ok()
                && left.strip_prefix(front).is_some_and(|rest| rest.len() > 1)
        }
        None => false,
    }
}

/// The number of the record that is named as bad.
fn named(err: &str, behind: &str) -> Option<usize> {
    let (number, _) = err.strip_prefix("script: record ")?.split_once(behind)?;
    number.parse().ok()
}

/// How many records are counted as good.
fn counted(out: &str) -> Option<usize> {
    let number = out
        .strip_prefix("script: ")?
        .strip_suffix(" records, all good\n")?;
    number.parse().ok()
}
