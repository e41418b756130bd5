//! What the receipts that are handed in tell of a log.
ghost use Rattle.std.specs.Prelude.{◌≡◌, ◌+◌, ◌-◌, ◌<◌, ◌≤◌, ℕ, List, length, All, slice_index_or};
ghost use Rattle.std.specs.List.Sorted.{IsPermutation, IsNonDecreasingBy};
ghost use Rattle.heap_log.specs.declared.record.LogRec.{LogRec};
ghost use mathlib.Core.List.{IsPrefix};
ghost use Rattle.crew.specs.Receipts.{is_matched, missing_of};

use crate::locked::Locked;
use crate::{Opened, Receipt};
use builder_core::Live;
use log_prefixes::Known;

/// A table that no thread shares any more.
#[derive(Drop)]
pub struct Closed<T: Opened> {
    pub live: Live<T>,
    /// How many records, of those written since the table was opened, no receipt was handed in for.
    pub missing: usize,
}

/// The receipts in the order of their numbers.
pub(crate) fn sorted<T: Opened>(receipts: Vec<Receipt<T>>) -> Vec<Receipt<T>>
    ensures same { IsPermutation receipts.items result.items }
    ensures order { IsNonDecreasingBy (length {A = LogRec}) result.items }
{
    let mut receipts = receipts;
    receipts.sort_unstable_by_key(|receipt| receipt.number());
    receipts
}

/// The place of the first receipt from there on whose number isn't below that one.
fn first_from<T: Opened>(receipts: &[Receipt<T>], from: usize, number: usize) -> usize
    requires order { IsNonDecreasingBy (length {A = LogRec}) receipts.now }
    requires inside { from ≤ length receipts.now }
    ensures onward { from ≤ result }
    ensures inside { result ≤ length receipts.now }
    ensures below { (k : ℕ) (d : List LogRec) → from ≤ k → k < result → length (slice_index_or receipts.now k d) < number }
    ensures first { (d : List LogRec) → result < length receipts.now → number ≤ length (slice_index_or receipts.now result d) }
{
    let mut place = from;
    while place < receipts.len() && receipts[place].number() < number {
        place += 1;
    }
    place
}

/// Whether a receipt is for the record of that number. Those before the place are for earlier ones, and the one that stands there is not.
fn is_matched_at<T: Opened>(receipts: &[Receipt<T>], place: usize, number: usize) -> bool
    requires order { IsNonDecreasingBy (length {A = LogRec}) receipts.now }
    requires below { (k : ℕ) (d : List LogRec) → k < place → length (slice_index_or receipts.now k d) < number }
    requires first { (d : List LogRec) → place < length receipts.now → number ≤ length (slice_index_or receipts.now place d) }
    ensures { result ≡ is_matched number receipts.now }
{
    place < receipts.len() && receipts[place].number() == number
}

/// How many of the records behind the first `opened` ones, of `len` in all, no receipt is for. One walk over receipts and numbers.
pub(crate) fn missing_after<T: Opened>(receipts: &[Receipt<T>], opened: usize, len: usize) -> usize
    requires order { IsNonDecreasingBy (length {A = LogRec}) receipts.now }
    requires opened { opened ≤ len }
    ensures { result ≡ missing_of receipts.now opened (len - opened) }
{
    let mut missing = 0;
    let mut place = 0;
    for before in opened..len {
        place = first_from(receipts, place, before + 1);
        if !is_matched_at(receipts, place, before + 1) {
            missing += 1;
        }
    }
    missing
}

/// What each receipt stands for is a beginning of the log.
pub(crate) fn compare_all<T: Opened>(locked: &mut Locked<T>, receipts: Vec<Receipt<T>>)
    ensures begin { All (λ receipt. IsPrefix receipt locked.old.state.heap.log) receipts.items }
    ensures same { locked.new.state ≡ locked.old.state }
{
    let mut left = receipts;
    while let Some(receipt) = left.pop() {
        locked.compare(receipt.into_known());
    }
}

/// What was known at some time is a beginning of the log.
pub(crate) fn compare_known<T: Opened>(locked: &mut Locked<T>, known: Vec<Known<T>>)
    ensures begin { All (λ known. IsPrefix known locked.old.state.heap.log) known.items }
    ensures same { locked.new.state ≡ locked.old.state }
{
    let mut left = known;
    while let Some(known) = left.pop() {
        locked.compare(known);
    }
}
