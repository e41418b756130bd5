//! What two keys have in common.
ghost use Rattle.std.specs.Prelude.{◌≡◌, ◌≤◌, ℕ, length, take};
ghost use Rattle.prefix_spool.specs.PrefixBytes.{shared};

/// How many bytes two keys have in common before the first in which they differ: the greatest number of bytes with which both begin.
pub fn shared_front(before: &[u8], key: &[u8]) -> usize
    ensures shared { result ≡ shared before.now key.now }
    ensures within { result ≤ length key.now }
    ensures same { take result before.now ≡ take result key.now }
    ensures greatest { (n : ℕ) → n ≤ length before.now → n ≤ length key.now → take n before.now ≡ take n key.now → n ≤ result }
{
    let mut n = 0;
    while n < before.len() && n < key.len() && before[n] == key[n] {
        n += 1;
    }
    n
}
