//! The games of a tree of heads, played from nothing. The root is node 1, the two nodes below n are 2 n and 2 n + 1, and the
//! second half of all are the leaves, of which the kth names the kth head. Each node above names the winner of the game between
//! its two.
ghost use Rattle.std.specs.Prelude.{◌≡◌, ◌<◌, ◌≤◌, ◌+◌, ◌-◌, ◌*◌, ℕ, None, IfOk, IfErr, length, get_or};
ghost use Rattle.run_merge.specs.Leading.{NoneDone, compares_of};
ghost use Rattle.run_merge.specs.Tournaments.{IsWinner, IsPlayed, HasLeaves, IsWon};

use crate::head::Head;
use keybytes::Fault;
use std::alloc::Global;

// Which of two heads is given first, and how many comparisons of pairs that took. The numbers at their fronts mostly tell.
#[inline]
pub(crate) fn winner(heads: &[Head], left: usize, right: usize) -> (usize, u64)
    requires left { left < length heads.now }
    requires right { right < length heads.now }
    ensures winner { IsWinner heads.now result.0 left right }
    ensures compares { result.1 ≡ compares_of (get_or heads.now left None) (get_or heads.now right None) }
{
    let front = heads[left].front();
    let against = heads[right].front();
    if front == 0 || against == 0 || front == against {
        return close_winner(heads, left, right);
    }
    // (either of two numbers is taken by no branch: who wins can't be foretold)
    if front < against {
        (left, 1)
    } else {
        (right, 1)
    }
}

// The same by the pairs themselves.
#[cold]
fn close_winner(heads: &[Head], left: usize, right: usize) -> (usize, u64)
    requires left { left < length heads.now }
    requires right { right < length heads.now }
    ensures winner { IsWinner heads.now result.0 left right }
    ensures compares { result.1 ≡ compares_of (get_or heads.now left None) (get_or heads.now right None) }
{
    let (leads, compares) = heads[left].leads(&heads[right]);
    if leads {
        (left, compares)
    } else {
        (right, compares)
    }
}

// Plays the game at a node, and tells how many comparisons of pairs that took.
fn play(nodes: &mut [usize], heads: &[Head], node: usize) -> u64
    requires some { 0 < node }
    requires node { node < length heads.now }
    requires tree { HasLeaves heads.now nodes.old }
    ensures tree { HasLeaves heads.now nodes.new }
    ensures here { IsPlayed heads.now nodes.new node }
    ensures others { (n : ℕ) → 0 < n → (n ≡ node → ⊥) → (2 * n ≡ node → ⊥) → (2 * n + 1 ≡ node → ⊥)
        → IsPlayed heads.now nodes.old n → IsPlayed heads.now nodes.new n }
    ensures compares { result ≤ 1 }
    ensures counted { NoneDone heads.now → result ≡ 1 }
{
    let (won, compares) = winner(heads, nodes[2 * node], nodes[2 * node + 1]);
    nodes[node] = won;
    compares
}

// Plays all games, and tells how many comparisons of pairs they took.
pub(crate) fn play_all(nodes: &mut [usize], heads: &[Head]) -> u64
    requires tree { HasLeaves heads.now nodes.old }
    ensures won { IsWon heads.now nodes.new }
    ensures compares { result ≤ length heads.now - 1 }
    ensures counted { NoneDone heads.now → result ≡ length heads.now - 1 }
{
    let mut node = heads.len();
    let mut compares = 0;
    while node > 1 {
        node -= 1;
        compares += play(nodes, heads, node);
    }
    compares
}

// The nodes of a tree over so many heads, with no game played yet.
pub(crate) fn leaves(alloc: Global, heads: &[Head]) -> Result<Vec<usize>, Fault>
    ensures tree { IfOk result (λ nodes. HasLeaves heads.now nodes.items) }
    ensures memory { IfErr result (λ fault. fault ≡ Fault.Memory) }
{
    let count = heads.len();
    let both = count.checked_mul(2).ok_or(Fault::Memory)?;
    let mut nodes = vec![in alloc; 0; both]?;
    for leaf in 0..count {
        nodes[count + leaf] = leaf;
    }
    Ok(nodes)
}
