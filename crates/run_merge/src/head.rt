ghost use Rattle.std.specs.Prelude.{◌≡◌, ◌<◌, ◌≤◌, Option, length, true, false};
ghost use Rattle.keybytes.specs.Heads.{AreBytes};
ghost use Rattle.run_merge.specs.Fronts.{IsFront, IsNumber};
ghost use Rattle.run_merge.specs.Leading.{is_ahead, compares_of};

use byteorder::{BigEndian, ByteOrder};
use keybytes::Pair;
use std::marker::Model;

/// How many bytes of a key are compared as one number.
const FRONT: usize = 8;

/// The head of a run, or none where the run has no pair left. Contracts see just that.
#[derive(Drop)]
pub struct Head {
    /// The number that the first bytes of the key make. It is 0 where it tells nothing: of no pair, and of a short key.
    front: u64,
    pair: Option<Pair>,
}

impl Model for Head {
    ghost use Rattle.std.specs.Prelude.{Option};
    ghost use Rattle.keybytes.specs.declared.pair.Pair.{Pair};
    ghost use Rattle.run_merge.specs.Fronts.{IsFront};

    ghost Value = { Option Pair };

    ghost view = { λ head. head.pair };

    ghost invariant = { λ head. IsFront head.pair head.front };
}

impl Head {
    pub fn new(pair: Option<Pair>) -> Head
        ensures { result ≡ pair }
    {
        let front = front_of(&pair);
        Head { front, pair }
    }

    pub fn pair(&self) -> &Option<Pair>
        ensures { result.now ≡ self.now }
    {
        &self.pair
    }

    pub fn into_pair(self) -> Option<Pair>
        ensures { result ≡ self }
    {
        let Head { front: _, pair } = self;
        pair
    }

    /// The number that the first bytes of the key make, or 0 where it tells nothing.
    #[inline]
    pub(crate) fn front(&self) -> u64
        ensures { IsFront self.now result }
    {
        self.front
    }

    /// Whether this head may be given before another, and how many comparisons of pairs that took.
    pub(crate) fn leads(&self, other: &Head) -> (bool, u64)
        ensures leads { result.0 ≡ true → is_ahead other.now self.now ≡ false }
        ensures follows { result.0 ≡ false → is_ahead self.now other.now ≡ false }
        ensures compares { result.1 ≡ compares_of self.now other.now }
    {
        pair_leads(&self.pair, &other.pair)
    }
}

// The same by the pairs themselves.
fn pair_leads(head: &Option<Pair>, against: &Option<Pair>) -> (bool, u64)
    ensures leads { result.0 ≡ true → is_ahead against.now head.now ≡ false }
    ensures follows { result.0 ≡ false → is_ahead head.now against.now ≡ false }
    ensures compares { result.1 ≡ compares_of head.now against.now }
{
    match (head, against) {
        (Some(pair), Some(other)) => {
            if other.cmp(pair).is_lt() {
                (false, 1)
            } else {
                (true, 1)
            }
        }
        (Some(_), None) => (true, 0),
        (None, _) => (false, 0),
    }
}

// The number at the front of a head's key, if it tells something.
fn front_of(pair: &Option<Pair>) -> u64
    ensures { IsFront pair.now result }
{
    match pair {
        Some(pair) => {
            let bytes = pair.key.bytes();
            number(bytes)
        }
        None => 0,
    }
}

// The number that the first bytes make, or 0 where they are too few.
fn number(bytes: &[u8]) -> u64
    requires { AreBytes bytes.now }
    ensures { 0 < result → IsNumber bytes.now result }
{
    if bytes.len() < FRONT {
        return 0;
    }
    BigEndian::read_u64(bytes)
}
