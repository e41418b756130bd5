ghost use Rattle.std.specs.Prelude.{◌≡◌, ◌+◌, ◌<◌, ◌^◌, max};

use std::alloc::AllocError;

/// What writers met in a part of a run. Times are in nanoseconds.
pub struct Span {
    /// How many transactions ended.
    pub transactions: u64,
    /// How many entries of an index their changes make, and these undone: one for each pair that goes or comes.
    pub entries: u64,
    /// How many calls took more than a millisecond.
    pub long_calls: u64,
    pub longest_call: u64,
    /// The longest time from the beginning of a transaction to its end.
    pub longest_transaction: u64,
}

impl Copy for Span {}

impl Clone for Span {
    fn clone(&self) -> Result<Span, AllocError> {
        Ok(*self)
    }
}

/// A call that takes longer is counted.
const MILLISECOND: u64 = 1_000_000;

impl Span {
    pub const NONE: Span = Span {
        transactions: 0,
        entries: 0,
        long_calls: 0,
        longest_call: 0,
        longest_transaction: 0,
    };

    /// A call that took so long, and the entries that its change makes.
    pub fn call(spent: u64, entries: u64) -> Span
        ensures entries { result.entries ≡ entries }
        ensures longest { result.longest_call ≡ spent }
        ensures long { 1000000 < spent → result.long_calls ≡ 1 }
    {
        Span {
            entries,
            long_calls: u64::from(spent > MILLISECOND),
            longest_call: spent,
            ..Span::NONE
        }
    }

    /// A transaction that took so long.
    pub fn transaction(spent: u64) -> Span
        ensures { result ≡ record { transactions = 1; entries = 0; long_calls = 0; longest_call = 0; longest_transaction = spent } }
    {
        Span {
            transactions: 1,
            longest_transaction: spent,
            ..Span::NONE
        }
    }

    /// Both together.
    pub fn and(self, other: Span) -> Span
        ensures transactions { self.transactions + other.transactions < 2 ^ 64 → result.transactions ≡ self.transactions + other.transactions }
        ensures entries { self.entries + other.entries < 2 ^ 64 → result.entries ≡ self.entries + other.entries }
        ensures long { self.long_calls + other.long_calls < 2 ^ 64 → result.long_calls ≡ self.long_calls + other.long_calls }
        ensures call { result.longest_call ≡ max self.longest_call other.longest_call }
        ensures transaction { result.longest_transaction ≡ max self.longest_transaction other.longest_transaction }
    {
        Span {
            transactions: self.transactions.saturating_add(other.transactions),
            entries: self.entries.saturating_add(other.entries),
            long_calls: self.long_calls.saturating_add(other.long_calls),
            longest_call: self.longest_call.max(other.longest_call),
            longest_transaction: self.longest_transaction.max(other.longest_transaction),
        }
    }
}
