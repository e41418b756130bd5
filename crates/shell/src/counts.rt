ghost use Rattle.std.specs.Prelude.{◌≡◌, None};
ghost use Rattle.shell.specs.Counting.{counts_after, transactions_after, running_after};

use crate::asked::Asked;
use crate::build_counts::BuildCounts;
use replay::Answer;

/// What the answers so far tell of a table and its build, where no call of the table tells it.
#[derive(Clone, Copy)]
pub struct Counts {
    /// How many slots a page has.
    pub slot_limit: u32,
    /// How many transactions were begun by a `begin` and haven't ended.
    pub transactions: u64,
    pub build: Option<BuildCounts>,
}

impl Counts {
    /// A table on which nothing was done.
    pub fn new(slot_limit: u32) -> Counts
        ensures { result ≡ record { slot_limit = slot_limit; transactions = 0; build = None } }
    {
        Counts {
            slot_limit,
            transactions: 0,
            build: None,
        }
    }

    /// Notes what a command was answered.
    pub fn note(&mut self, asked: Asked, answer: &Answer)
        ensures { self.new ≡ counts_after self.old asked answer.now }
    {
        self.transactions = transactions_after(self.transactions, asked, answer);
        note_build(&mut self.build, asked, answer);
    }
}

/// How many transactions are open once a command was answered, where so many were before.
fn transactions_after(before: u64, asked: Asked, answer: &Answer) -> u64
    ensures { result ≡ transactions_after before asked answer.now }
{
    match (asked, answer) {
        (Asked::Begin, Answer::Number { .. }) => before.saturating_add(1),
        (Asked::Commit, Answer::Number { .. }) | (Asked::Undo, Answer::Undone { left: 0, .. }) => {
            before.saturating_sub(1)
        }
        _ => before,
    }
}

/// Notes what a command was answered for the build that runs.
fn note_build(running: &mut Option<BuildCounts>, asked: Asked, answer: &Answer)
    ensures { running.new ≡ running_after running.old asked answer.now }
{
    match (asked, answer) {
        (Asked::Start { workers, indexes }, Answer::Number { number }) => {
            *running = Some(BuildCounts::new(workers, indexes, *number));
        }
        (_, Answer::Switched { .. } | Answer::SomeRefused { .. } | Answer::Abandoned { .. }) => {
            *running = None;
        }
        _ => {
            if let Some(build) = running {
                build.note(asked, answer);
            }
        }
    }
}
