//! Where a pair, given by its key and its RID, stands among pairs that rise.
ghost use Rattle.std.specs.Prelude.{◌≡◌, ◌≤◌, not, length};
ghost use Rattle.keybytes.specs.Heads.{AreBytes};
ghost use Rattle.tree_nodes.specs.Heads.{AreBefore, AreBehind, BeginsWith, IsHead};
ghost use Rattle.tree_nodes.specs.Lists.{front_count};
ghost use Rattle.tree_nodes.specs.Order.{is_before, PairsRise};

use byteorder::{BigEndian, ByteOrder};
use keybytes::{Key, Pair, Rid};
use std::cmp::Ordering;

/// The bytes that are compared as one number.
const HEAD: usize = 8;

/// The number that tells nothing of a key.
pub(crate) const NOTHING: u64 = u64::MAX;

/// Whether `pair` stands before the pair of that key and RID.
#[tactic(auto, unfolding(crate::specs::Order::is_before))]
pub fn is_before(pair: &Pair, key: &Key, rid: Rid) -> bool
    ensures { result ≡ is_before pair.now (record { key = key.now; rid = rid }) }
{
    match pair.key.cmp(key) {
        Ordering::Less => true,
        Ordering::Equal => pair.rid < rid,
        Ordering::Greater => false,
    }
}

/// Whether `pair` stands behind the pair of that key and RID.
#[tactic(auto, unfolding(crate::specs::Order::is_before))]
pub fn is_after(pair: &Pair, key: &Key, rid: Rid) -> bool
    ensures { result ≡ is_before (record { key = key.now; rid = rid }) pair.now }
{
    match key.cmp(&pair.key) {
        Ordering::Less => true,
        Ordering::Equal => rid < pair.rid,
        Ordering::Greater => false,
    }
}

/// The number that a key's first eight bytes make, the highest first; of a shorter key [`NOTHING`].
#[inline]
pub(crate) fn head(key: &Key) -> u64
    ensures { IsHead key.now result }
{
    let bytes = key.bytes();
    if bytes.len() < HEAD {
        return NOTHING;
    }
    number(bytes)
}

/// The number that the first eight bytes make.
#[inline]
fn number(bytes: &[u8]) -> u64
    requires long { 8 ≤ length bytes.now }
    requires bytes { AreBytes bytes.now }
    ensures { BeginsWith bytes.now result }
{
    BigEndian::read_u64(bytes)
}

/// How many of the pairs stand before the pair of that key and RID.
pub(crate) fn count_before(pairs: &[Pair], key: &Key, rid: Rid) -> usize
    requires { PairsRise pairs.now }
    ensures within { result ≤ length pairs.now }
    ensures count { result ≡ front_count (λ pair. is_before pair (record { key = key.now; rid = rid })) pairs.now }
{
    let mut low = 0;
    let mut high = pairs.len();
    while low < high {
        let middle = low + (high - low) / 2;
        if is_before(&pairs[middle], key, rid) {
            low = middle + 1;
        } else {
            high = middle;
        }
    }
    low
}

/// How many of the pairs don't stand behind the pair of that key and RID: at least `low` of them, and at most `high`.
pub(crate) fn count_up_to(
    pairs: &[Pair],
    mut low: usize,
    mut high: usize,
    key: &Key,
    rid: Rid,
) -> usize
    requires rise { PairsRise pairs.now }
    requires within { high ≤ length pairs.now }
    requires before { AreBefore low key.now pairs.now }
    requires behind { AreBehind high key.now pairs.now }
    ensures { result ≡ front_count (λ pair. not (is_before (record { key = key.now; rid = rid }) pair)) pairs.now }
{
    while low < high {
        let middle = low + (high - low) / 2;
        if is_after(&pairs[middle], key, rid) {
            high = middle;
        } else {
            low = middle + 1;
        }
    }
    low
}
